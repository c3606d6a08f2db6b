//! The parts of halfwords and fullwords: halves, bytes, single bits.
#![tactic(auto)]

pub mod bits;
pub mod parts;
