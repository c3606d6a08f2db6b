//! What a tape leaves, as text: numbers in hexadecimal, what devices show, the line of an outcome, and the trials of the program
//! outcomes.
#![tactic(auto)]

pub mod digest;
pub mod hex;
pub mod line;
pub mod panel;
pub mod peripherals;
pub mod played;
pub mod read_back;
pub mod shown;
pub mod trials;
