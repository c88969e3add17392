// Whole runs: any list of the six calls, over any table and any kinds of atoms, and the promise over it.
#![tactic(auto)]

pub mod on_words;
pub mod play;
pub mod script;
