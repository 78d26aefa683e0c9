//! Worked cases of the options of `compile` and `explain`, and of `explain`.

use crate::desk::{Desk, USAGE, expect_each};
use std::alloc::Global;
use std::process::Abort;
use std::test::Fail;
use vg_top::Status;

/// Two double words through pointers one of which is noalias.
const TWO: &[u8] =
    b"kernel two(p: noalias ptr, q: ptr) { store32(p + 0, load32(q + 0)); store32(p + 4, load32(q + 4)); }";

const PROGRAM: &[u8] =
    b"program two(p: ptr, q: ptr)\n%v0 = vload 8 q+0\nvstore 8 p+0 %v0\nend cost 2 scalar 4\n";

const PLAN: &[u8] = b"pack store 8 p+0\npack load 8 q+0\nplan cost 2 plain 2 scalar 4\n";

fn expect_answer(rt: &impl Abort, alloc: Global, line: &str, out: &[u8]) -> Result<(), Fail> {
    let mut desk = Desk::with_kernel(alloc, TWO)?;
    desk.expect(rt, line, Status::Ok, out, b"")?;
    desk.expect_reads(rt, 2);
    Ok(())
}

fn expect_answers(rt: &impl Abort, alloc: Global, lines: &str, out: &[u8]) -> Result<(), Fail> {
    for line in lines.lines() {
        expect_answer(rt, alloc, line, out)?;
    }
    Ok(())
}

#[test]
fn options_that_are_no_request_read_nothing(rt: HostRuntime) -> Result<(), Fail> {
    let lines = "compile --width 0 i k
        compile --width 4097 i k
        compile --width=1 --width=1 i k
        compile --width= i k
        compile --with= i k
        compile i k --with
        compile i k --width
        compile --with SSE9 i k
        compile --with sse2 i k
        compile --width -1 i k
        compile --with -- i k
        compile --widths 1 i k
        compile --help
        compile -w 1 i k
        compile --width=1
        explain --width=x i k
        explain i
        lift --width 1 i
        eval --width 1 k m
        run --with SSE2 i p m
        compile --more --more i k
        compile --more=1 i k
        compile --more= i k
        explain --more i k --more
        lift --more i
        run --more i p m
        eval k m --more
        trial --more i 1
        check --more --more i k p";
    expect_each(&rt, rt.alloc(), &[("i", b""), ("k", TWO)], USAGE, lines)
}

#[test]
fn options_stand_anywhere(rt: HostRuntime) -> Result<(), Fail> {
    let lines = "compile i k
        compile --width=1 --with AVX2 --with=SSE2 i k
        compile i --width 0004096 k --with AVX512BW
        compile i k --with SSE2 --with SSE2
        compile --more i k
        compile --width=8 i k --more --with AVX2";
    expect_answers(&rt, rt.alloc(), lines, PROGRAM)
}

#[test]
fn the_plan_of_two_words_is_explained(rt: HostRuntime) -> Result<(), Fail> {
    let lines = "explain i k
        explain --width 1 i --with=SSE4.1 k
        explain i --more k";
    expect_answers(&rt, rt.alloc(), lines, PLAN)
}
