//! Sources of bytes and recorders of bytes, each proved against what it means: a source the list of
//! bytes that wait, a recorder the bytes written, the bytes held back after them, and the space left.
#![tactic(auto)]

pub mod blockers;
pub mod buffered;
pub mod pages;
pub mod recorders;
pub mod sources;
pub mod stores;
pub mod strips;
#[cfg(test)]
mod tests;
