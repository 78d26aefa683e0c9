//! The text of guarded programs.

ghost use Rattle.std.specs.Prelude.{◌≡◌, ◌++◌, length, OnOk, IfOk};
ghost use Rattle.vg_guard.specs.Guarded.{span_text, first_span, second_span, check_text, checks_text, end_line, guarded_line, guarded_text};
ghost use Rattle.vg_program.specs.Text.{signature_of};

use crate::check::Check;
use crate::guarded::Guarded;
use crate::span::Span;
use std::alloc::{AllocError, Global};
use vg_program::parts::{pointer_name, put_body, put_number, put_signature};
use vg_program::{Param, Program};

fn put_span(alloc: Global, to: &mut Vec<u8>, params: &[Param], span: Span) -> Result<(), AllocError>
    ensures { OnOk result (to.new.items ≡ to.old.items ++ span_text params.now span) }
{
    to.extend_from_slice(pointer_name(params, span.pointer))?;
    if span.low >= 0 {
        to.extend_from_slice(b"+")?;
    }
    let offset = span.low.to_string(alloc)?;
    to.extend_from_slice(offset.as_bytes())?;
    to.extend_from_slice(b" ")?;
    put_number(alloc, to, span.len)
}

fn first_span(check: Check) -> Span
    ensures { result ≡ first_span check }
{
    Span {
        pointer: check.first,
        low: check.first_low,
        len: check.first_len,
    }
}

fn second_span(check: Check) -> Span
    ensures { result ≡ second_span check }
{
    Span {
        pointer: check.second,
        low: check.second_low,
        len: check.second_len,
    }
}

fn put_check(
    alloc: Global,
    to: &mut Vec<u8>,
    params: &[Param],
    check: Check,
) -> Result<(), AllocError>
    ensures { OnOk result (to.new.items ≡ to.old.items ++ check_text params.now check) }
{
    let first = first_span(check);
    let second = second_span(check);
    to.extend_from_slice(b"check disjoint ")?;
    put_span(alloc, to, params, first)?;
    to.extend_from_slice(b" ")?;
    put_span(alloc, to, params, second)?;
    to.extend_from_slice(b"\n")?;
    Ok(())
}

/// Appends a line for each check. Fails for want of memory alone.
pub fn put_checks(
    alloc: Global,
    to: &mut Vec<u8>,
    params: &[Param],
    checks: &[Check],
) -> Result<(), AllocError>
    ensures { OnOk result (to.new.items ≡ to.old.items ++ checks_text params.now checks.now) }
{
    let mut rest = checks;
    'checks: while let [check, behind @ ..] = rest {
        put_check(alloc, to, params, *check)?;
        rest = behind;
    }
    Ok(())
}

fn put_guarded_line(alloc: Global, to: &mut Vec<u8>, program: &Program) -> Result<(), AllocError>
    ensures { OnOk result
        (to.new.items ≡ to.old.items ++ guarded_line (signature_of program.now)) }
{
    to.extend_from_slice(b"guarded ")?;
    put_signature(alloc, to, program)?;
    to.extend_from_slice(b"\n")?;
    Ok(())
}

/// Appends the last line, `end checks 1`, which says how many checks there are. Fails for want of
/// memory alone.
pub fn put_end_line(alloc: Global, to: &mut Vec<u8>, checks: &[Check]) -> Result<(), AllocError>
    ensures { OnOk result (to.new.items ≡ to.old.items ++ end_line (length checks.now)) }
{
    to.extend_from_slice(b"end checks ")?;
    put_number(alloc, to, checks.len() as u64)?;
    to.extend_from_slice(b"\n")?;
    Ok(())
}

/// The text of a guarded program: its first line, its checks, both programs without their first
/// lines, and how many checks there are. Fails for want of memory alone.
#[tactic(auto, unfolding(crate::specs::Guarded::guarded_text))]
pub fn print_guarded(alloc: Global, guarded: &Guarded) -> Result<Vec<u8>, AllocError>
    ensures { IfOk result (λ text. text.items ≡ guarded_text guarded.now) }
{
    let checks = guarded.checks.as_slice();
    let mut text = Vec::new(alloc);
    put_guarded_line(alloc, &mut text, &guarded.fast)?;
    put_checks(alloc, &mut text, guarded.fast.params.as_slice(), checks)?;
    text.extend_from_slice(b"then")?;
    text.extend_from_slice(b"\n")?;
    put_body(alloc, &mut text, &guarded.fast)?;
    text.extend_from_slice(b"else")?;
    text.extend_from_slice(b"\n")?;
    put_body(alloc, &mut text, &guarded.slow)?;
    put_end_line(alloc, &mut text, checks)?;
    Ok(text)
}
