//! Input and output.
#![tactic(auto)]

pub mod input;
mod named;
pub mod output;
pub mod sensing;
