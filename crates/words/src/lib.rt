//! Arithmetic on fullwords and the condition codes that it sets.
#![tactic(auto)]

pub mod codes;
pub mod laws;
pub mod products;
pub mod sums;
