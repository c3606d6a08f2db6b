use crate::calls::{Call, Continued};
use console::machine::Machine;
use model::StepAnswer;

/// One of two machines side by side: its store and its bus, its history, and the list that follows it.
#[derive(Drop)]
pub struct Side<'a, S, B> {
    pub store: S,
    pub bus: B,
    pub past: &'a [Call<'a>],
    pub list: &'a [Continued],
}

/// What a machine answered to a list: the accepted steps, up to and including the first interrupt.
#[derive(Drop)]
pub struct Answered {
    pub answers: Vec<StepAnswer>,
}

impl Answered {
    ghost use Rattle.std.specs.Prelude.{◌≡◌};
    ghost use Rattle.comparison.specs.Lists.{ends_interrupted};

    /// Whether there was an interrupt: then it is the last answer.
    pub fn interrupted(&self) -> bool
        ensures { result ≡ ends_interrupted self.now.answers.items }
    {
        matches!(self.answers.last(), Some(StepAnswer::Interrupted(_)))
    }
}

/// A machine after its list, and what it answered to the list.
#[derive(Drop)]
pub struct Finished<S, B> {
    pub answered: Answered,
    pub machine: Machine<S, B>,
}
