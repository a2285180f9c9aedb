//! Judging blocks and statements, with the conditions and the written modes in them.
#![tactic(auto)]

pub mod conditions;
pub mod simple;
pub mod statements;
pub mod written;
