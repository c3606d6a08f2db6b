//! Stores over bytes and over other stores, which may be piled on one another in any order.
#![tactic(auto)]

pub mod image;
pub mod laws;
pub mod pair;
pub mod strip;
