//! Worked cases of `--more`.

use crate::desk::Desk;
use std::alloc::Global;
use std::process::Abort;
use std::test::Fail;
use vg_top::Status;

const ADD: &[u8] =
    b"INSTRUCTION _mm_add_epi32 PARAM a 128 SI32 PARAM b 128 SI32\nRESULT dst 128 SI32 EXTENSION SSE2 COST 1 OPERATION\nFOR j := 0 to 3\ni := j*32\ndst[i+31:i] := a[i+31:i] + b[i+31:i]\nENDFOR\nEND\n";

/// Four sums of four double words.
const SUMS: &[u8] =
    b"kernel sums(d: noalias ptr, p: ptr) { store32(d + 0, (load32(p + 0) + load32(p + 16)) + (load32(p + 32) + load32(p + 48))); store32(d + 4, (load32(p + 4) + load32(p + 20)) + (load32(p + 36) + load32(p + 52))); store32(d + 8, (load32(p + 8) + load32(p + 24)) + (load32(p + 40) + load32(p + 56))); store32(d + 12, (load32(p + 12) + load32(p + 28)) + (load32(p + 44) + load32(p + 60))); }";

const WITHOUT: &[u8] = b"\nend cost 32 scalar 32\n";

const WITH: &[u8] = b"\nend cost 8 scalar 32\n";

/// Asserts how the answer to a line ends.
fn expect_end(rt: &impl Abort, alloc: Global, line: &str, end: &[u8]) -> Result<(), Fail> {
    let mut desk = Desk::holding(alloc, 1 << 16, &[("i", ADD), ("k", SUMS)])?;
    let status = desk.run(line)?;
    assert!(rt;
        status == Status::Ok && desk.out.written().ends_with(end),
        "{line}"
    );
    Ok(())
}

#[test]
fn sums_of_sums_become_three_calls(rt: HostRuntime) -> Result<(), Fail> {
    let alloc = rt.alloc();
    expect_end(&rt, alloc, "compile i k", WITHOUT)?;
    expect_end(&rt, alloc, "compile --more i k", WITH)?;
    expect_end(&rt, alloc, "compile i k --width 4 --more --with SSE2", WITH)?;
    expect_end(&rt, alloc, "compile --more --with AVX2 i k", WITHOUT)?;
    expect_end(
        &rt,
        alloc,
        "explain --more i k",
        b"plan cost 8 plain 34 scalar 32\n",
    )
}

#[test]
fn both_sides_of_a_guarded_text_have_more_plans(rt: HostRuntime) -> Result<(), Fail> {
    let alloc = rt.alloc();
    let end = b"\nend cost 8 scalar 32\nend checks 0\n";
    expect_end(&rt, alloc, "compile --guard --more i k", end)
}
