// The work of the programs, as functions on values: facts go in as the bytes of a facts file, text comes out.
#![tactic(auto)]

mod derive;
pub mod dump;
pub mod fault;
pub mod input;
pub mod lines;
pub mod load;
pub mod reading;
pub mod walk;
mod words;
