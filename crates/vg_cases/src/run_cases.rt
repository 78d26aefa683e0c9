//! Worked cases of `run`.

use crate::desk::{Desk, USAGE, expect_each, expect_ended, expect_left, status_of};
use crate::memories::{cut, cut_line, lines_of};
use std::alloc::{AllocError, Global};
use std::process::Abort;
use std::test::Fail;
use vg_top::Status;

const TWO: &[u8] =
    b"program two(p: ptr, q: ptr)\n%s0:i32 = load q+0\nstore p+0 %s0\n%s1:i32 = load q+4\nstore p+4 %s1\nend cost 4 scalar 4\n";

const DEAD: &[u8] = b"program dead(p: ptr)\n%s0:i8 = load p+4\nend cost 1 scalar 1\n";

const FAR: &[u8] = b"program far(p: ptr)\n%s0:i8 = load p+8\nend cost 1 scalar 1\n";

const PUT: &[u8] = b"program put(d: ptr, k: i8)\nstore d+0 k\nend cost 1 scalar 1\n";

const SUM: &[u8] =
    b"program sum(d: ptr, k: i16)\n%s0:i16 = load d+1\n%s1:i16 = add %s0 k\n%s2:i16 = add %s1 65535i16\nstore d-1 %s2\nend cost 4 scalar 4\n";

/// A desk with no instructions, this program and this memory.
fn desk_with(alloc: Global, program: &[u8], memory: &[u8]) -> Result<Desk, Fail> {
    desk_of_room(alloc, 1000, program, memory)
}

/// The same, with room for so many bytes to be written.
fn desk_of_room(alloc: Global, room: usize, program: &[u8], memory: &[u8]) -> Result<Desk, Fail> {
    let mut desk = Desk::holding(alloc, room, &[("i", b""), ("p", program)])?;
    desk.shelf.put("m", memory)?;
    Ok(desk)
}

/// A row is bindings, an arrow, a memory, an arrow, and what the program leaves of it.
fn expect_row(rt: &impl Abort, alloc: Global, program: &[u8], row: &str) -> Result<(), Fail> {
    let (bindings, memories) = cut(row)?;
    let line = format!(in alloc; "run i p m {bindings}")?;
    let files: [(&str, &[u8]); 2] = [("i", b""), ("p", program)];
    expect_left(rt, alloc, &files, line.as_str(), memories, 3)
}

#[test]
fn programs_and_the_memory_that_they_leave(rt: HostRuntime) -> Result<(), Fail> {
    let alloc = rt.alloc();
    // Both words overlap what they are copied from.
    let twelve = "p=4 q=0 => 1 2 3 4 5 6 7 8 9 10 11 12 => 1 2 3 4 1 2 3 4 1 2 3 4";
    expect_row(&rt, alloc, TWO, twelve)?;
    // A load that nothing uses leaves the memory.
    expect_row(&rt, alloc, DEAD, "p=0 => 9 8 7 6 5 => 9 8 7 6 5")?;
    // 255 and -1 are one byte.
    expect_row(&rt, alloc, PUT, "d=0 k=255 => 3 => 255")?;
    expect_row(&rt, alloc, PUT, "k=-1 d=0 => 3 => 255")?;
    expect_row(&rt, alloc, PUT, "k=-128 d=1 => 3 4 => 3 128")?;
    // 0x0201 + 0xff00 - 1 is 0x0100 modulo 2^16.
    expect_row(&rt, alloc, SUM, "d=1 k=65280 => 7 7 1 2 => 0 1 1 2")?;
    let none = b"program none()\nend cost 0 scalar 0\n";
    expect_row(&rt, alloc, none, " => 0*0 => 0*0")
}

/// A memory of 16 MiB with this last byte.
fn largest_memory(alloc: Global, last: u8) -> Result<Vec<u8>, AllocError> {
    let mut memory = vec![in alloc; 3; 16_777_215]?;
    memory.push(last)?;
    Ok(memory)
}

/// Asserts that a memory of 16 MiB is run on.
fn expect_largest(rt: &impl Abort, alloc: Global, line: &str) -> Result<(), Fail> {
    let memory = largest_memory(alloc, 3)?;
    let left = largest_memory(alloc, 7)?;
    let mut desk = desk_of_room(alloc, 1 << 24, PUT, memory.as_slice())?;
    desk.expect(rt, line, Status::Ok, left.as_slice(), b"")
}

/// Asserts that one of a byte more is not.
fn expect_too_large(rt: &impl Abort, alloc: Global, line: &str) -> Result<(), Fail> {
    let mut memory = largest_memory(alloc, 3)?;
    memory.push(3)?;
    let mut desk = desk_with(alloc, PUT, memory.as_slice())?;
    desk.expect(rt, line, Status::TooLarge, b"", b"vegen: too large: m\n")
}

#[test]
fn a_memory_of_16_mib_is_the_largest(rt: HostRuntime) -> Result<(), Fail> {
    let line = "run i p m d=16777215 k=7";
    expect_largest(&rt, rt.alloc(), line)?;
    expect_too_large(&rt, rt.alloc(), line)
}

/// A program of 349,521 lines, whose text has 4,194,304 bytes: 27 and 25 of the first line and the
/// last, and 12 of each other.
fn largest_program(alloc: Global) -> Result<Vec<u8>, AllocError> {
    let mut text = Vec::with_capacity(alloc, 4_194_304)?;
    text.extend_from_slice(b"program big(d: ptr, k: i8)\n")?;
    for _ in 0..349_521 {
        text.extend_from_slice(b"store d+0 k\n")?;
    }
    text.extend_from_slice(b"end cost 349521 scalar 0\n")?;
    Ok(text)
}

/// Asserts that a program puts 7 into a memory of one byte.
fn expect_put(rt: &impl Abort, alloc: Global, program: &[u8], line: &str) -> Result<(), Fail> {
    let mut desk = desk_with(alloc, program, b"1")?;
    desk.expect(rt, line, Status::Ok, &[7], b"")
}

/// Asserts that a program is too large.
fn expect_too_long(rt: &impl Abort, alloc: Global, program: &[u8], line: &str) -> Result<(), Fail> {
    let mut desk = desk_with(alloc, program, b"1")?;
    desk.expect(rt, line, Status::TooLarge, b"", b"vegen: too large: p\n")
}

#[test]
fn a_program_of_4_mib_is_the_largest(rt: HostRuntime) -> Result<(), Fail> {
    let line = "run i p m d=0 k=7";
    let mut text = largest_program(rt.alloc())?;
    expect_put(&rt, rt.alloc(), text.as_slice(), line)?;
    text.push(b'\n')?;
    expect_too_long(&rt, rt.alloc(), text.as_slice(), line)
}

/// Asserts that a program traps on a memory.
fn expect_trap(
    rt: &impl Abort,
    alloc: Global,
    program: &[u8],
    memory: &[u8],
    line: &str,
) -> Result<(), Fail> {
    let mut desk = desk_with(alloc, program, memory)?;
    desk.expect(rt, line, Status::Trap, b"", b"vegen: trap\n")
}

#[test]
fn accesses_outside_the_memory_trap(rt: HostRuntime) -> Result<(), Fail> {
    let alloc = rt.alloc();
    // A load that nothing uses still traps.
    expect_trap(&rt, alloc, DEAD, &[9, 8, 7, 6], "run i p m p=0")?;
    // A place past the memory, and a sum past 2^64 - 1.
    expect_trap(&rt, alloc, FAR, &[0; 20], "run i p m p=12")?;
    expect_trap(
        &rt,
        alloc,
        FAR,
        &[0; 20],
        "run i p m p=18446744073709551615",
    )?;
    // An address below 0.
    expect_trap(&rt, alloc, SUM, &[0; 20], "run i p m d=0 k=0")
}

const ZEROS: &[u8] = &[0; 20];

/// How bindings are refused, after all three files.
const BINDINGS: &str = "3 => BindingsRefused => bindings";

#[test]
fn bindings_that_are_refused(rt: HostRuntime) -> Result<(), Fail> {
    let put: [(&str, &[u8]); 3] = [("i", b""), ("p", PUT), ("m", ZEROS)];
    let lines = "
        run i p m d=0 d=4
        run i p m d=0 d=0 k=1
        run i p m d=0
        run i p m d=0 k=256
        run i p m d=0 k=-129
        run i p m d=-1 k=1
        run i p m d=0 k=1 z=1
    ";
    expect_each(&rt, rt.alloc(), &put, BINDINGS, lines)?;
    let far: [(&str, &[u8]); 3] = [("i", b""), ("p", FAR), ("m", ZEROS)];
    let line = "run i p m p=18446744073709551616";
    expect_ended(&rt, rt.alloc(), &far, line, BINDINGS)
}

#[test]
fn words_that_are_no_request_to_run(rt: HostRuntime) -> Result<(), Fail> {
    let files: [(&str, &[u8]); 3] = [("i", b""), ("p", PUT), ("m", b"1")];
    let lines = "
        run i p
        run i p -m
        run i p m d
        run i p m d= k=1
        run i p m =1
        run i p m d=+1
        run i p m d=000000000000000000001
        run i p m 1d=1
    ";
    expect_each(&rt, rt.alloc(), &files, USAGE, lines)
}

/// Asserts what is said of a program that is refused, after which nothing is read.
fn refused(rt: &impl Abort, alloc: Global, program: &[u8], said: &str) -> Result<(), Fail> {
    let line = format!(in alloc; "vegen: program: {said}\n")?;
    let mut desk = desk_with(alloc, program, b"")?;
    desk.expect(
        rt,
        "run i p m",
        Status::ProgramRefused,
        b"",
        line.as_bytes(),
    )?;
    desk.expect_reads(rt, 2);
    Ok(())
}

/// Each line is a program, in which each `;` ends a line, an arrow, and what is said of it.
fn refuse_rows(rt: &impl Abort, alloc: Global, rows: &str) -> Result<(), Fail> {
    for row in rows.trim().lines() {
        let (program, said) = cut_line(row)?;
        let text = lines_of(alloc, program, b';')?;
        refused(rt, alloc, text.as_slice(), said)?;
    }
    Ok(())
}

#[test]
fn programs_with_tokens_and_shapes_that_are_refused(rt: HostRuntime) -> Result<(), Fail> {
    let alloc = rt.alloc();
    refused(&rt, alloc, b"program p(d: ptr)\n\x80", "1 Token at 2:1")?;
    refused(
        &rt,
        alloc,
        b"\tprogram p()\nend cost 0 scalar 0\n",
        "1 Token at 1:1",
    )?;
    refused(
        &rt,
        alloc,
        b"program p()\nend cost 0 scalar 0\r\n",
        "1 Token at 2:20",
    )?;
    refused(&rt, alloc, b"", "2 Shape at 1:1")?;
    // The type of a literal is judged before its number.
    refuse_rows(
        &rt,
        alloc,
        "
        program aaaaaaaaaaaaaaaaaaaaaaaaaaaaaaaaaaaaaaaaaaaaaaaaaaaaaaaaaaaaaaaaa();end cost 0 scalar 0; => 1 Token at 1:9
        program p(); => 2 Shape at 1:13
        program p();end cost 00 scalar 0; => 2 Shape at 2:10
        program p(d: ptr);%s1:i8 = load d+0;end cost 1 scalar 1; => 2 Shape at 2:1
        program p(d: ptr);%s0:i7 = load d+0; => 2 Shape at 2:5
        program p(d: ptr, d: ptr);end cost 0 scalar 0; => 2 Shape at 1:19
        program p();end cost 0 scalar 0;x => 2 Shape at 3:1
        program p(d: ptr);vstores 4 d+0 %v0; => 2 Shape at 2:1
        program p(k: i8);%s0:i8 = add 999i7 k; => 2 Shape at 2:17
        ",
    )
}

#[test]
fn programs_with_operands_that_are_refused(rt: HostRuntime) -> Result<(), Fail> {
    let alloc = rt.alloc();
    // Of two faults at one literal the lesser number is told.
    refuse_rows(
        &rt,
        alloc,
        "
        program p(d: ptr);store d+0 %s0; => 4 UnknownRegister at 2:11
        program p(d: ptr);store e+0 1i8; => 4 UnknownRegister at 2:7
        program p(d: ptr);store d+0 k; => 4 UnknownRegister at 2:11
        program p();%s0:i8 = load d+0; => 4 UnknownRegister at 2:15
        program p(k: i8);%s0:i16 = add k k; => 5 WidthMismatch at 2:15
        program p(k: i8);store k+0 1i8; => 5 WidthMismatch at 2:7
        program p(d: ptr);store d+0 d; => 5 WidthMismatch at 2:11
        program p(k: i8);%s0:i8 = add k 1i16; => 5 WidthMismatch at 2:16
        program p(k: i16);%s0:i16 = add 256i8 k; => 5 WidthMismatch at 2:15
        ",
    )
}

#[test]
fn programs_with_numbers_that_are_refused(rt: HostRuntime) -> Result<(), Fail> {
    let alloc = rt.alloc();
    refuse_rows(
        &rt,
        alloc,
        "
        program p();end cost 1 scalar 0; => 6 CostWrong 1 0 at 2:10
        program p(d: ptr);store d+0 1i8;end cost 0 scalar 1; => 6 CostWrong 0 1 at 3:10
        program p(d: ptr);store d+0 1i8;end cost 4294967295 scalar 1; => 6 CostWrong 4294967295 1 at 3:10
        program two(p: ptr, q: ptr);%s0:i32 = load q+0;store p+0 %s0;%s1:i32 = load q+4;store p+4 %s1;end cost 3 scalar 4; => 6 CostWrong 3 4 at 6:10
        program p();end cost 4294967296 scalar 0; => 8 Range at 2:10
        program p();end cost 0 scalar 16385; => 8 Range at 2:19
        program p(d: ptr);store d+2147483648 1i8; => 8 Range at 2:9
        program p(d: ptr);store d-2147483649 1i8; => 8 Range at 2:9
        program p(d: ptr);store d-0 1i8; => 8 Range at 2:9
        program p(d: ptr);store d+0 256i8; => 8 Range at 2:11
        ",
    )
}

/// A row is a line of words, an arrow, how it ends, an arrow, and how many files are read.
fn expect_reads(rt: &impl Abort, alloc: Global, row: &str) -> Result<(), Fail> {
    let (line, wanted) = cut_line(row)?;
    let (status, reads) = cut(wanted)?;
    let reads = reads.parse::<u64>()?;
    let mut desk = desk_with(alloc, PUT, &[0; 20])?;
    let ended = desk.run(line)?;
    assert!(rt; ended == status_of(status), "{row}");
    desk.expect_reads(rt, reads);
    Ok(())
}

#[test]
fn files_are_read_up_to_the_refused_one(rt: HostRuntime) -> Result<(), Fail> {
    let rows = "
        run -i p m => Usage => 0
        run x p m => InputAbsent => 1
        run m p m => InstructionsRefused => 1
        run i x m => InputAbsent => 2
        run i m x => ProgramRefused => 2
        run i p x d=0 => InputAbsent => 3
        run i p m d=0 => BindingsRefused => 3
        compile i x => InputAbsent => 2
        compile i p => KernelRefused => 2
    ";
    for row in rows.trim().lines() {
        expect_reads(&rt, rt.alloc(), row)?;
    }
    Ok(())
}
