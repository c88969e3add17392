// A run of the analysis over any table: facts are put, rows derived, and answers read, in states that no caller can mix up.
#![tactic(auto)]

pub mod begin;
pub mod carry;
pub mod derive;
pub mod fault;
pub mod fill;
pub mod reading;
pub mod state;
