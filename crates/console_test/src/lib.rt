//! Calls on a machine and whole tapes, with what each answers and leaves.
#![tactic(auto)]

#[cfg(test)]
mod calls;
#[cfg(test)]
mod lines;
#[cfg(test)]
mod parts;
#[cfg(test)]
mod plays;
#[cfg(test)]
mod runs;
