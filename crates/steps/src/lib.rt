//! Steps of the processor, and runs of many steps.
#![tactic(auto)]

pub mod run;
pub mod step;
