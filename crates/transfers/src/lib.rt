//! Moves between registers and the store, single bits, and the branches on an index.
#![tactic(auto)]

pub mod between;
pub mod bits;
pub mod loops;
pub mod moves;
pub mod updates;
