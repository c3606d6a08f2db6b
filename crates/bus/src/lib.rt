//! Buses: what every bus promises, how a device was used, how the lowest request is found, and the silent bus.
#![tactic(auto)]

pub mod meaning;
pub mod silent;
pub mod usage;
