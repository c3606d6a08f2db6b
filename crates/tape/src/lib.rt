//! The tape: its bytes read as commands.
#![tactic(auto)]

pub mod commands;
pub mod faults;
pub mod laws;
pub mod orders;
