//! Stores and buses at their edges, and what the owner of lent memory knows of it afterwards.
#![tactic(auto)]

mod lent;
#[cfg(test)]
mod tests;
