// Facts: the kinds of atoms that they name, and the reader of facts files.
#![tactic(auto)]

pub mod atom;
pub mod mark;
pub mod number;
pub mod point;
pub mod reader;
pub mod record;
pub mod whole;
