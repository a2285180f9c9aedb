//! Reading statements and bodies into nodes, by recursive descent.
#![tactic(auto)]

pub mod assignments;
pub mod bodies;
