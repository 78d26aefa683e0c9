//! Worked cases of `trial`.

use crate::desk::{Desk, USAGE, expect_each, expect_ended};
use crate::instruction_files::ADD;
use crate::memories::cut;
use std::alloc::Global;
use std::process::Abort;
use std::test::Fail;
use vg_top::Status;

fn desk_with(alloc: Global, instructions: &[u8]) -> Result<Desk, Fail> {
    Desk::holding(alloc, 1000, &[("i", instructions)])
}

/// Asserts the line on a number, with these instructions.
fn expect_line(
    rt: &impl Abort,
    alloc: Global,
    instructions: &[u8],
    number: &str,
    line: &str,
) -> Result<(), Fail> {
    let words = format!(in alloc; "trial i {number}")?;
    let out = format!(in alloc; "{line}\n")?;
    let mut desk = desk_with(alloc, instructions)?;
    desk.expect(rt, words.as_str(), Status::Ok, out.as_bytes(), b"")?;
    desk.expect_reads(rt, 1);
    Ok(())
}

// Each line: a number as a word, and its line where there are no instructions.
const BARE: &str = "
0 => trial 0: statements 4 scalar 16 cost 16 sum 10680
1 => trial 1: statements 8 scalar 64 cost 64 sum 20313
2 => trial 2: statements 16 scalar 104 cost 104 sum 30710
00000162 => trial 162: statements 12 scalar 80 cost 80 sum 30234
39 => trial 39: statements 288 scalar 2112 cost 2112 sum 405018
40 => trial 40: statements 4 scalar 48 cost 48 sum 10149
80 => trial 80: statements 8 scalar 40 cost 40 sum 10262
120 => trial 120: statements 16 scalar 144 cost 144 sum 9192
160 => trial 160: statements 4 scalar 16 cost 16 sum 9650
4294967295 => trial 4294967295: statements 116 scalar 832 cost 832 sum 161911
";

#[test]
fn without_instructions_a_kernel_costs_what_it_is_written(rt: HostRuntime) -> Result<(), Fail> {
    for row in BARE.trim().lines() {
        let (number, line) = cut(row)?;
        expect_line(&rt, rt.alloc(), b"", number, line)?;
    }
    Ok(())
}

#[test]
fn four_sums_are_one_call(rt: HostRuntime) -> Result<(), Fail> {
    let line = "trial 0: statements 4 scalar 16 cost 4 sum 10680";
    expect_line(&rt, rt.alloc(), ADD.as_bytes(), "0", line)
}

#[test]
fn instructions_change_the_cost_alone(rt: HostRuntime) -> Result<(), Fail> {
    let mut desk = desk_with(rt.alloc(), ADD.as_bytes())?;
    let status = desk.run("trial i 39")?;
    let line = desk.out.written();
    assert!(rt; status == Status::Ok && line.ends_with(b" sum 405018\n"));
    assert!(rt; line.starts_with(b"trial 39: statements 288 scalar 2112 cost "));
    Ok(())
}

#[test]
fn words_that_are_no_trial_read_nothing(rt: HostRuntime) -> Result<(), Fail> {
    let lines = "trial
        trial i
        trial i 4294967296
        trial i 99999999999999999999
        trial i -1
        trial i +1
        trial i 0x10
        trial i one
        trial i 1 2
        trial --width 1 i 1
        trial --with SSE2 i 1
        trial i d=1";
    expect_each(&rt, rt.alloc(), &[("i", b"")], USAGE, lines)
}

#[test]
fn a_trial_ends_as_its_file_does(rt: HostRuntime) -> Result<(), Fail> {
    let refused = "1 => InstructionsRefused => instructions: 12 Header at 1:12";
    let files: [(&str, &[u8]); 1] = [("i", b"INSTRUCTION")];
    expect_ended(&rt, rt.alloc(), &files, "trial i 1", refused)?;
    let absent = "1 => InputAbsent => absent: j";
    expect_ended(&rt, rt.alloc(), &[("i", b"")], "trial j 1", absent)
}
