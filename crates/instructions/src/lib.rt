//! The instructions, by their forms.
#![tactic(auto)]

pub mod execute;
pub mod immediates;
pub mod memory;
pub mod registers_only;
