ghost use Rattle.std.specs.Prelude.{◌≡◌, ◌≤◌, [], length, vec_capacity, IfOk};

use crate::calls::Continued;
use model::StepAnswer;
use std::alloc::{AllocError, Global};

/// A list of calls that is still to be made, with room for an answer to each.
#[derive(Drop)]
pub(crate) struct Reserved<'a> {
    pub(crate) list: &'a [Continued],
    pub(crate) answers: Vec<StepAnswer>,
    ghost unanswered: { answers.items ≡ [] },
    ghost room: { length list.now ≤ vec_capacity answers },
}

impl<'a> Reserved<'a> {
    /// Reserves memory for the answers to a list.
    pub(crate) fn new(heap: Global, list: &'a [Continued]) -> Result<Reserved<'a>, AllocError>
        ensures { IfOk result (λ r. r.list.now ≡ list.now) }
    {
        Ok(Reserved {
            list,
            answers: Vec::with_capacity(heap, list.len())?,
        })
    }
}
