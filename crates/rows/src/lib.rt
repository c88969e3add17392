// Rows of the analysis: relations, codes, their order; and what every table of rows answers.
#![tactic(auto)]

pub mod answer;
pub mod like;
pub mod relation;
pub mod row;
