// Facts put in atoms, for any five kinds of atoms.
#![tactic(auto)]

pub mod fact;
pub mod puts;
