//! The line that an input leaves, and the texts of the page that a person reads, on many inputs.
#![tactic(auto)]

#[cfg(test)]
mod line;
#[cfg(test)]
mod page;
