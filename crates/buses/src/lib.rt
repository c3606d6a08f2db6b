//! Buses: the teletype and the drives.
#![tactic(auto)]

pub mod drives;
pub mod teletype;
