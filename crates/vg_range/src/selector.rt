//! What selects the arm of a CASE, in few bytes.

ghost use Rattle.std.specs.Prelude.{◌≡◌, IfOk};
ghost use Rattle.vg_interval.specs.Views.{operand_view};
ghost use Rattle.vg_range.specs.Steps.{selector_view};

use std::alloc::{AllocError, Global};
use vg_interval::{Operand, Span};
use vg_script::Word;

/// An operand that selects an arm, with its word on the heap: so what looks at a CASE holds little
/// of it.
#[derive(Drop)]
pub enum Selector {
    /// A constant.
    Fixed(i128),
    /// Any number of an interval.
    Moving { span: Span, word: Box<Word> },
}

/// An operand as a selector, with its word on the heap. Fails for want of memory alone.
pub fn selector_of(alloc: Global, operand: Operand) -> Result<Selector, AllocError>
    ensures { IfOk result (λ s. selector_view s ≡ operand_view operand) }
{
    match operand {
        Operand::Fixed(number) => Ok(Selector::Fixed(number)),
        Operand::Moving { span, word } => Ok(Selector::Moving {
            span,
            word: Box::new(alloc, word)?,
        }),
    }
}
