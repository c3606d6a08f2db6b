//! The console: every call on a machine, and the tape.
#![tactic(auto)]

pub mod key;
pub mod machine;
mod registers_at;
mod store_at;
mod tapes;
