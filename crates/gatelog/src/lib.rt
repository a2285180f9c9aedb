//! The gate log: entries of gate positions, recorded as records of six bytes, and restored from what
//! was written.
#![tactic(auto)]

pub mod commands;
pub mod entries;
pub mod loggers;
pub mod positions;
#[cfg(test)]
mod tests;
