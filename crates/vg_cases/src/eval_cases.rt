//! Worked cases of `eval`, and of what `run` makes of what `compile` writes.

use crate::desk::{Desk, expect_each, expect_ended, expect_endings, expect_left};
use crate::memories::cut;
use std::alloc::Global;
use std::process::Abort;
use std::test::Fail;
use vg_top::Status;

const TWO: &[u8] =
    b"kernel two(p: ptr, q: ptr) { store32(p + 0, load32(q + 0)); store32(p + 4, load32(q + 4)); }";

const DEAD: &[u8] = b"kernel dead(p: ptr) { x = load8(p + 4); }";

const FAR: &[u8] = b"kernel far(p: ptr) { x = load8(p + 8); }";

const LAP: &[u8] =
    b"kernel lap(d: ptr) { store32(d + 0, 67305985i32); store32(d + 2, 134678021i32); }";

const PUT: &[u8] = b"kernel put(d: ptr, k: i8) { store8(d + 0, k); }";

/// The low byte of n + m or, where n is less than m, of their difference; and after it m over
/// 16, rounded down.
const MIX: &[u8] = b"kernel mix(d: ptr, n: i16) {
  m = load16(d + 0);
  less = slt(n, m);
  store8(d + 0, select(less, trunc8(m - n), trunc8(n + m)));
  store32(d + 1, ashr(sext32(m), 4));
}";

/// A desk with no instructions, this kernel and this memory.
fn desk_with(alloc: Global, kernel: &[u8], memory: &[u8]) -> Result<Desk, Fail> {
    let mut desk = Desk::with_kernel(alloc, kernel)?;
    desk.shelf.put("m", memory)?;
    Ok(desk)
}

/// The kernel of this name.
fn kernel_of(name: &str) -> &'static [u8] {
    match name {
        "two" => TWO,
        "dead" => DEAD,
        "far" => FAR,
        "lap" => LAP,
        "put" => PUT,
        "mix" => MIX,
        _ => b"kernel none() { }",
    }
}

/// The kernel that a row names, and the bindings behind its name.
fn named(words: &str) -> (&'static [u8], &str) {
    let (name, bindings) = words.split_once(' ').unwrap_or((words, ""));
    (kernel_of(name), bindings)
}

/// Each row is the name of a kernel, bindings, an arrow, a memory, an arrow, and the memory that is
/// left. Both words of `two` overlap what they are copied from; a load that nothing uses leaves the
/// memory; the second word of `lap` begins in the first; 255 and -1 are one byte. Of `mix`: 10 -
/// 3 and 10 / 16, and, since -257 + 3 is 65282 with the low byte 2, that and -257 / 16, which is
/// -17.
const LEFT: &str = "\
two p=4 q=0 => 1 2 3 4 5 6 7 8 9 10 11 12 => 1 2 3 4 1 2 3 4 1 2 3 4
dead p=0 => 9 8 7 6 5 => 9 8 7 6 5
lap d=0 => 6*0 => 1 2 5 6 7 8
put d=0 k=255 => 3 => 255
put k=-1 d=0 => 3 => 255
mix d=0 n=3 => 10 0 9 9 9 => 7 0 0 0 0
mix d=0 n=3 => 255 254 9 9 9 => 2 239 255 255 255
none => 0*0 => 0*0";

/// Asserts what `eval` leaves.
fn expect_eval(rt: &impl Abort, alloc: Global, row: &str) -> Result<(), Fail> {
    let (words, memories) = cut(row)?;
    let (kernel, bindings) = named(words);
    let line = format!(in alloc; "eval k m {bindings}")?;
    let files: [(&str, &[u8]); 2] = [("i", b""), ("k", kernel)];
    expect_left(rt, alloc, &files, line.as_str(), memories, 2)
}

#[test]
fn kernels_and_the_memory_that_they_leave(rt: HostRuntime) -> Result<(), Fail> {
    for row in LEFT.lines() {
        expect_eval(&rt, rt.alloc(), row)?;
    }
    Ok(())
}

/// The program that `compile` makes of a kernel.
fn compiled(rt: &impl Abort, alloc: Global, kernel: &[u8]) -> Result<Vec<u8>, Fail> {
    let mut desk = Desk::with_kernel(alloc, kernel)?;
    let status = desk.run("compile i k")?;
    assert!(rt; status == Status::Ok);
    Ok(Vec::from_slice(alloc, desk.out.written())?)
}

/// Asserts what `run` leaves of what `compile` makes.
fn expect_run(rt: &impl Abort, alloc: Global, row: &str) -> Result<(), Fail> {
    let (words, memories) = cut(row)?;
    let (kernel, bindings) = named(words);
    let line = format!(in alloc; "run i p m {bindings}")?;
    let program = compiled(rt, alloc, kernel)?;
    let files: [(&str, &[u8]); 2] = [("i", b""), ("p", program.as_slice())];
    expect_left(rt, alloc, &files, line.as_str(), memories, 3)
}

#[test]
fn a_compiled_kernel_leaves_what_the_kernel_leaves(rt: HostRuntime) -> Result<(), Fail> {
    for row in LEFT.lines() {
        expect_run(&rt, rt.alloc(), row)?;
    }
    Ok(())
}

/// Asserts that a kernel traps on a memory.
fn expect_trap(
    rt: &impl Abort,
    alloc: Global,
    kernel: &[u8],
    memory: &[u8],
    line: &str,
) -> Result<(), Fail> {
    let mut desk = desk_with(alloc, kernel, memory)?;
    desk.expect(rt, line, Status::Trap, b"", b"vegen: trap\n")
}

#[test]
fn kernels_that_trap(rt: HostRuntime) -> Result<(), Fail> {
    let alloc = rt.alloc();
    // A load that nothing uses still traps.
    expect_trap(&rt, alloc, DEAD, &[9, 8, 7, 6], "eval k m p=0")?;
    // A place past the memory, and a sum past 2^64 - 1.
    expect_trap(&rt, alloc, FAR, &[0; 20], "eval k m p=12")?;
    expect_trap(&rt, alloc, FAR, &[0; 20], "eval k m p=18446744073709551615")?;
    // Only the second store is outside.
    expect_trap(&rt, alloc, LAP, &[0; 5], "eval k m d=0")
}

const ZEROS: &[u8] = &[0; 20];

/// How bindings are refused, after both files.
const BINDINGS: &str = "2 => BindingsRefused => bindings";

#[test]
fn bindings_that_are_refused(rt: HostRuntime) -> Result<(), Fail> {
    let put: [(&str, &[u8]); 2] = [("k", PUT), ("m", ZEROS)];
    let lines = "
        eval k m d=0 d=4
        eval k m d=0
        eval k m d=0 k=256
        eval k m d=0 k=1 z=1
        eval k m d=0 k=1 put=1
    ";
    expect_each(&rt, rt.alloc(), &put, BINDINGS, lines)?;
    let far: [(&str, &[u8]); 2] = [("k", FAR), ("m", ZEROS)];
    let line = "eval k m p=18446744073709551616";
    expect_ended(&rt, rt.alloc(), &far, line, BINDINGS)
}

#[test]
fn files_are_read_up_to_the_refused_one(rt: HostRuntime) -> Result<(), Fail> {
    let files: [(&str, &[u8]); 2] = [("k", PUT), ("m", b"123")];
    let rows = "
        eval k => 0 => Usage => usage
        eval k -m => 0 => Usage => usage
        eval k m d => 0 => Usage => usage
        eval x m => 1 => InputAbsent => absent: x
        eval m x => 1 => KernelRefused => kernel: 2 Shape at 1:1
        eval k x => 2 => InputAbsent => absent: x
        eval k m d=0 => 2 => BindingsRefused => bindings
    ";
    expect_endings(&rt, rt.alloc(), &files, rows)
}
