//! Stores: what every store promises, and core boards.
#![tactic(auto)]

pub mod boards;
pub mod laws;
pub mod meaning;
