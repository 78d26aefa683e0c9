//! What is known where either of two ways was taken.

ghost use Rattle.std.specs.Prelude.{◌≡◌, IfOk, map};
ghost use Rattle.vg_interval.specs.Views.{kept_view};
ghost use Rattle.vg_range.specs.Walk.{join, join_kept, kept_span};

use std::alloc::{AllocError, Global};
use vg_interval::spans::{between, hull};
use vg_interval::{KnownNumber, Span};

fn kept_span(kept: KnownNumber) -> Span
    ensures { result ≡ kept_span (kept_view kept) }
{
    match kept {
        KnownNumber::Constant(z) => between(z, z),
        KnownNumber::Varying(span) => span,
    }
}

/// What is known of a number variable where one of two things is known of it: a constant where both
/// are the same constant, else the least interval that holds both.
pub fn join_kept(first: KnownNumber, second: KnownNumber) -> KnownNumber
    ensures { kept_view result ≡ join_kept (kept_view first) (kept_view second) }
{
    match (first, second) {
        (KnownNumber::Constant(y), KnownNumber::Constant(z)) => {
            if y == z {
                KnownNumber::Constant(y)
            } else {
                KnownNumber::Varying(hull(between(y, y), between(z, z)))
            }
        }
        (KnownNumber::Constant(y), KnownNumber::Varying(span)) => KnownNumber::Varying(hull(
            between(y, y),
            span,
        )),
        (KnownNumber::Varying(span), second) => KnownNumber::Varying(hull(span, kept_span(second))),
    }
}

/// What is known where either way was taken, number variable by number variable. Fails for want of
/// memory alone.
pub fn join(
    alloc: Global,
    first: &[KnownNumber],
    second: &[KnownNumber],
) -> Result<Vec<KnownNumber>, AllocError>
    ensures { IfOk result (λ ks. map kept_view ks.items ≡ join (map kept_view first.now) (map
        kept_view second.now)) }
{
    let mut joined = Vec::new(alloc);
    let mut one = first;
    let mut other = second;
    'numbers: loop {
        let [a, ones @ ..] = one else {
            return Ok(joined);
        };
        let [b, others @ ..] = other else {
            return Ok(joined);
        };
        joined.push(join_kept(*a, *b))?;
        one = ones;
        other = others;
    }
}
