//! What conditions say, in few bytes.

ghost use Rattle.std.specs.Prelude.{◌≡◌, IfOk};
ghost use Rattle.vg_interval.specs.Views.{condition_view};
ghost use Rattle.vg_range.specs.Seen.{decision_view};

use std::alloc::{AllocError, Global};
use vg_interval::Condition;
use vg_script::Word;

/// What a condition says, with its word on the heap: so what looks at a choice holds little of it.
#[derive(Drop)]
pub enum Decision {
    /// A constant, which is false where it is 0.
    Always(i128),
    /// One bit.
    Tested { word: Box<Word> },
}

/// A condition with its word on the heap. Fails for want of memory alone.
pub fn decision_of(alloc: Global, condition: Condition) -> Result<Decision, AllocError>
    ensures { IfOk result (λ d. decision_view d ≡ condition_view condition) }
{
    match condition {
        Condition::Always(number) => Ok(Decision::Always(number)),
        Condition::Tested { word } => Ok(Decision::Tested {
            word: Box::new(alloc, word)?,
        }),
    }
}
