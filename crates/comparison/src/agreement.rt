ghost use Rattle.comparison.specs.Agreement.{AgreeFor};

use model::StepAnswer;

/// How many answers two lists have in common from their beginning, up to the first that differs or the end of the shorter one.
pub fn agreed(one: &[StepAnswer], other: &[StepAnswer]) -> usize
    ensures { AgreeFor result one.now other.now }
{
    let mut common = 0;
    while common < one.len() && common < other.len() && one[common] == other[common] {
        common += 1;
    }
    common
}
