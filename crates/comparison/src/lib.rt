//! Two machines side by side: histories, then lists of calls, and how far the answers agree.
#![tactic(auto)]

pub mod agreement;
pub mod calls;
pub mod compare;
mod follow;
mod history;
mod reserved;
pub mod sides;
#[cfg(test)]
mod tests;
