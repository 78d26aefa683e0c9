//! Worked cases of `terms`.

use crate::desk::{Desk, USAGE, expect_each, expect_endings};
use std::alloc::Global;
use std::process::Abort;
use std::test::Fail;
use vg_top::Status;

/// A parameter, a load, each kind of operand of a store, and a choice that is a least number.
const KERNEL: &[u8] =
    b"kernel k(d: noalias ptr, p: ptr, m: i32) { a = sext32(load16(p - 2)) * m; store32(d + 0, a + 3i32); store8(d + 4, 7i8); store32(d + 8, select(slt(a, m), a, m)); }";

const VALUES: &[u8] = b"value 0 i32 parameter m
value 1 i16 load p-2
value 2 i32 (sext32 p-2@1:16)
value 3 i32 (mul32 m:32 (sext32 p-2@1:16))
value 4 i32 (add32 (mul32 m:32 (sext32 p-2@1:16)) 3:32)
value 5 store 32 d+0 (add32 (mul32 m:32 (sext32 p-2@1:16)) 3:32)
value 6 store 8 d+4 7:8
value 7 i1 (slt32 (mul32 m:32 (sext32 p-2@1:16)) m:32)
value 8 i32 (smin32 m:32 (mul32 m:32 (sext32 p-2@1:16)))
value 9 store 32 d+8 (smin32 m:32 (mul32 m:32 (sext32 p-2@1:16)))
";

const MORE: &[u8] = b"value 0 i32 parameter m
value 1 i16 load p-2
value 2 i32 (sext32 p-2@1:16) cut (sext32 #1:16)
value 3 i32 (mul32 m:32 (sext32 p-2@1:16)) cut (mul32 m:32 #2:32)
value 4 i32 (add32 (mul32 m:32 (sext32 p-2@1:16)) 3:32) cut (add32 #3:32 3:32)
value 5 store 32 d+0 (add32 (mul32 m:32 (sext32 p-2@1:16)) 3:32) cut (add32 #3:32 3:32)
value 6 store 8 d+4 7:8 cut 7:8
value 7 i1 (slt32 (mul32 m:32 (sext32 p-2@1:16)) m:32) cut (slt32 #3:32 m:32)
value 8 i32 (smin32 m:32 (mul32 m:32 (sext32 p-2@1:16))) cut (smin32 m:32 #3:32)
value 9 store 32 d+8 (smin32 m:32 (mul32 m:32 (sext32 p-2@1:16))) cut (smin32 m:32 #3:32)
";

/// A loop whose blocks have sixteen turns of three units.
const LOOP: &[u8] =
    b"loop l(d: noalias ptr, p: ptr, n: i8) times n step d 1, p 1 { store8(d, load8(p) ^ n); }";

const FILES: [(&str, &[u8]); 5] = [
    ("k", KERNEL),
    ("l", LOOP),
    ("none", b"kernel none() { }"),
    ("bad", b""),
    (
        "bad_loop",
        b"loop l(p: ptr, n: i8) times n step p 0 { store8(p, 1i8); }",
    ),
];

/// Asserts what a line writes.
fn expect_lines(rt: &impl Abort, alloc: Global, line: &str, lines: &[u8]) -> Result<(), Fail> {
    let mut desk = Desk::holding(alloc, 1 << 16, &FILES)?;
    desk.expect(rt, line, Status::Ok, lines, b"")?;
    desk.expect_reads(rt, 1);
    Ok(())
}

#[test]
fn lines_on_values(rt: HostRuntime) -> Result<(), Fail> {
    let alloc = rt.alloc();
    expect_lines(&rt, alloc, "terms k", VALUES)?;
    expect_lines(&rt, alloc, "terms k --more", MORE)?;
    expect_lines(&rt, alloc, "terms --more k", MORE)?;
    expect_lines(&rt, alloc, "terms none", b"")
}

/// The lines on the values of sixteen turns of the loop.
fn lines_of_turns(alloc: Global) -> Result<String, Fail> {
    let mut lines = String::from_str(alloc, "value 0 i8 parameter n\n")?;
    for turn in 0..16u32 {
        let load = 3 * turn + 1;
        let term = format!(in alloc; "(xor8 p+{turn}@{load}:8 n:8)")?;
        let line = format!(in alloc;
            "value {load} i8 load p+{turn}\nvalue {} i8 {term}\nvalue {} store 8 d+{turn} {term}\n",
            load + 1,
            load + 2
        )?;
        lines.push_str(line.as_str())?;
    }
    Ok(lines)
}

#[test]
fn a_loop_has_the_values_of_its_turns(rt: HostRuntime) -> Result<(), Fail> {
    let lines = lines_of_turns(rt.alloc())?;
    expect_lines(&rt, rt.alloc(), "terms l", lines.as_bytes())
}

#[test]
fn words_and_kernels_that_are_refused(rt: HostRuntime) -> Result<(), Fail> {
    let words = "terms
        terms --more
        terms k k
        terms k d=0
        terms -k
        terms k --more --more
        terms k --more=1
        terms k --guard
        terms k --width=1
        terms k --width 1
        terms k --with SSE2";
    expect_each(&rt, rt.alloc(), &FILES, USAGE, words)?;
    let rows = "terms absent => 1 => InputAbsent => absent: absent
        terms bad => 1 => KernelRefused => kernel: 2 Shape at 1:1
        terms bad_loop --more => 1 => KernelRefused => kernel: 6 LiteralRange at 1:38";
    expect_endings(&rt, rt.alloc(), &FILES, rows)
}
