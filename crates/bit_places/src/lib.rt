// Where the rows lie in a bit table: definitions in specs/ and their laws in proofs/, for the crate `bits` to build on.
// A table's contract cites some of the laws, and those have to come from a crate below its own.
#![tactic(auto)]
