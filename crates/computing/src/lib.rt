//! Shifts, products and quotients in the registers.
#![tactic(auto)]

pub mod products;
pub mod turns;
