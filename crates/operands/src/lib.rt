//! What instructions share: indexes and addresses, fullwords in the store, the functions of the families, and branches.
#![tactic(auto)]

pub mod addresses;
pub mod branches;
pub mod forms;
pub mod functions;
pub mod laws;
