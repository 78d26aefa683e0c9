//! Which whole numbers the values of a kernel can have.
//!
//! A number of w bits can be read signed or unsigned. `specs/Span.antt` says what a span of whole
//! numbers is and which reading goes with it, `specs/Spans.antt` which span each value has, and
//! `specs/Laws.antt` that the number of a value is in its span wherever a run reaches it.
#![tactic(auto)]

mod law;
mod operand_spans;
mod operations;
mod span;
mod value_spans;

pub use law::spans_hold;
pub use operand_spans::{operand_span, span_at};
pub use span::Span;
pub use value_spans::spans;
