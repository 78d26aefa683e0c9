//! Calls as right sides and elsewhere, where they hand bits, give a number of 128 bits, or are
//! constants past the greatest operand.

use crate::file_texts::{accept_framed, refuse_framed};
use std::alloc::Global;
use std::process::Abort;
use std::test::Fail;

/// `f` and `g` hand the bits of their parameters, 128 and 256; `h` gives the number of a call. `t`
/// is a local register.
const CALLS: &str = concat!(
    "INSTRUCTION x PARAM a 128 UI8 PARAM w 256 UI32",
    " RESULT dst 128 UI8 EXTENSION SSE2 COST 1 OPERATION\n",
    "DEFINE f(p[127:0]) { RETURN p } DEFINE g(p[255:0]) { RETURN p }\n",
    "DEFINE h(p[255:0]) { RETURN g(p) } DEFINE i(p[127:0]) { RETURN f(p) }\n",
);

/// Asserts that each line, statements after the DEFINEs, is refused with this number.
fn refuse_calls(rt: &impl Abort, alloc: Global, number: u32, texts: &str) -> Result<(), Fail> {
    refuse_framed(rt, alloc, number, CALLS, texts, " END")
}

/// Asserts that each line, statements after the DEFINEs, is accepted.
fn accept_calls(rt: &impl Abort, alloc: Global, texts: &str) -> Result<(), Fail> {
    accept_framed(rt, alloc, CALLS, texts, " END")
}

#[test]
fn calls_that_hand_bits(rt: HostRuntime) -> Result<(), Fail> {
    accept_calls(
        &rt,
        rt.alloc(),
        "
        dst := f(a)
        dst := g(w)
        t[255:0] := g(w) dst := t[127:0]
        t[127:0] := f(w) dst := t[127:0]
        dst := f(g(w))
        ",
    )?;
    refuse_calls(
        &rt,
        rt.alloc(),
        8,
        "
        t[255:0] := @f(a) dst := t[127:0]
        t[511:0] := @g(w) dst := t[127:0]
        t[511:0] := @(g(w)) dst := t[127:0]
        t[128:0] := @f(a) dst := t[127:0]
        n := @g(w) dst[7:0] := n
        dst := @f(a) + 0
        dst[7:0] := 1 ? @f(a) : 0
        IF @f(a) FI
        CASE @g(w) OF ESAC
        ",
    )
}

#[test]
fn calls_that_give_numbers_of_128_bits(rt: HostRuntime) -> Result<(), Fail> {
    accept_calls(
        &rt,
        rt.alloc(),
        "
        dst := h(w)
        t[127:0] := h(w) dst := t[127:0]
        dst := f(h(w))
        dst := g(h(w))
        ",
    )?;
    refuse_calls(
        &rt,
        rt.alloc(),
        8,
        "
        t[255:0] := @h(w) dst := t[127:0]
        t[511:0] := @h(w) dst := t[127:0]
        n := @h(w) dst[7:0] := n
        dst := @(h(w)) + 0
        dst[7:0] := @h(w) < 1
        ",
    )?;
    refuse_calls(&rt, rt.alloc(), 5, "dst[0] := @a[h(w)]")?;
    refuse_calls(
        &rt,
        rt.alloc(),
        6,
        "
        dst[@h(w)] := 1
        FOR j := @h(w) to 0 ENDFOR
        ",
    )
}

#[test]
fn numbers_that_are_no_moves(rt: HostRuntime) -> Result<(), Fail> {
    refuse_calls(
        &rt,
        rt.alloc(),
        8,
        "
        t[255:0] := @a[7:0] + 1 dst := t[127:0]
        t[511:0] := @a[7:0] + 1 dst := t[127:0]
        t[255:0] := @a dst := t[127:0]
        t[511:0] := @w dst := t[127:0]
        t[128:0] := @(a[0] ? 1 : 2) dst := t[127:0]
        t[255:0] := @a[0] < 1 dst := t[127:0]
        ",
    )?;
    accept_calls(
        &rt,
        rt.alloc(),
        "
        t[255:0] := w dst := t[127:0]
        t[255:0] := -1 dst := t[127:0]
        t[511:0] := 5 * 5 dst := t[127:0]
        t[127:0] := a[7:0] + 1 dst := t[127:0]
        ",
    )
}

#[test]
fn constants_past_the_greatest_operand(rt: HostRuntime) -> Result<(), Fail> {
    accept_calls(
        &rt,
        rt.alloc(),
        "
        dst := f(-1)
        t[511:0] := f(-1) dst := t[127:0]
        dst := f(f(-1))
        dst := i(-1)
        FOR j := f(-1) to 0 dst[0] := j + 1 ENDFOR
        FOR j := f(-1) to f(-1) dst[0] := 1 ENDFOR
        ",
    )?;
    refuse_calls(
        &rt,
        rt.alloc(),
        8,
        "
        dst := @f(-1) + 0
        dst := 0 + @(f(-1))
        n := @f(-1) dst[7:0] := n
        IF @f(-1) FI
        CASE @f(-1) OF ESAC
        dst := 1 ? @f(-1) : 0
        FOR j := f(-1) to f(-1) dst[0] := @j + 1 ENDFOR
        ",
    )?;
    refuse_calls(
        &rt,
        rt.alloc(),
        5,
        "
        dst[0] := @a[f(-1)]
        @dst[f(-1)] := 1
        ",
    )
}
