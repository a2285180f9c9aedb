//! The cutter: from the text of a module to the table of its items.
#![tactic(auto)]

pub mod cutter;
mod steps;
pub mod table;
