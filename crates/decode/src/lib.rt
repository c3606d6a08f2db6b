//! Instructions taken apart: operation codes, forms, halfwords and the address rule.
#![tactic(auto)]

pub mod codes;
pub mod forms;
pub mod operations;
