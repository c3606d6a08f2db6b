//! The processor over any store and any bus: one method for each effect of an instruction, its interrupts, and what the console asks of it.
#![tactic(auto)]

pub mod access;
pub mod cpu;
pub mod devices;
pub mod interrupts;
pub mod panel;
