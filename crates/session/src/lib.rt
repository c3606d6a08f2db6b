//! A tape played on a new machine, and the line that it leaves.
#![tactic(auto)]

pub mod line;
pub mod session;
