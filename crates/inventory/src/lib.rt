//! What a module declares, in tables: its names, the modes that its procedures take, the components of its record modes.
#![tactic(auto)]

pub mod components;
pub mod module_names;
pub mod takes;
