//! The item at the front of a text, and the value of an integer.
#![tactic(auto)]

mod bytes;
pub mod item;
pub mod scan;
pub mod value;
mod words;
