//! The outside against each command: reads that fail, sinks of too little room, an `err` that is full, and
//! words that are no text.

use crate::desk::{Desk, status_of};
use crate::instruction_files::ADD;
use crate::memories::cut;
use std::alloc::Global;
use std::process::Abort;
use std::test::Fail;
use vg_outside::{MemSink, Words};
use vg_top::Status;

/// A copy of one double word.
pub const KERNEL: &[u8] = b"kernel copy(d: ptr, s: ptr) { store32(d + 0, load32(s + 0)); }";

/// What it becomes.
pub const PROGRAM: &[u8] =
    b"program copy(d: ptr, s: ptr)\n%s0:i32 = load s+0\nstore d+0 %s0\nend cost 2 scalar 2\n";

const DEAD: &[u8] = b"program dead(p: ptr)\n%s0:i8 = load p+4\nend cost 1 scalar 1\n";

// Each line: words, and the files among them in the order in which they are read.
const COMMANDS: &str = "
compile none k => none k
explain none k --width 1 => none k
run none p m d=0 s=4 => none p m
eval k m d=0 s=4 => k m
lift i => i
trial none 0 => none
";

/// A desk with all files of the commands, and so much room for an answer.
pub fn desk_of_room(alloc: Global, room: usize) -> Result<Desk, Fail> {
    let files: [(&str, &[u8]); 5] = [
        ("none", b""),
        ("i", ADD.as_bytes()),
        ("k", KERNEL),
        ("p", PROGRAM),
        ("m", b"12345678"),
    ];
    Desk::holding(alloc, room, &files)
}

/// Asserts that a command ends with the read of this number, which fails and is of this file.
fn expect_read_fault(
    rt: &impl Abort,
    alloc: Global,
    line: &str,
    number: u64,
    file: &str,
) -> Result<(), Fail> {
    let said = format!(in alloc; "vegen: read fault: {file}\n")?;
    let mut desk = desk_of_room(alloc, 1000)?;
    desk.shelf.fail_read(number)?;
    desk.expect(rt, line, Status::ReadFault, b"", said.as_bytes())?;
    desk.expect_reads(rt, number.saturating_add(1));
    Ok(())
}

/// Asserts the same of each read of a command, a line of words, an arrow, and its files.
fn expect_read_faults(rt: &impl Abort, alloc: Global, row: &str) -> Result<(), Fail> {
    let (line, files) = cut(row)?;
    let mut number = 0u64;
    for file in files.split_whitespace() {
        expect_read_fault(rt, alloc, line, number, file)?;
        number = number.saturating_add(1);
    }
    Ok(())
}

#[test]
fn a_read_that_fails_ends_each_command(rt: HostRuntime) -> Result<(), Fail> {
    for row in COMMANDS.trim().lines() {
        expect_read_faults(&rt, rt.alloc(), row)?;
    }
    Ok(())
}

/// What a command writes where there is room.
fn answer_to(rt: &impl Abort, alloc: Global, line: &str) -> Result<Vec<u8>, Fail> {
    let mut desk = desk_of_room(alloc, 1000)?;
    let status = desk.run(line)?;
    assert!(rt; status == Status::Ok, "{line}");
    Ok(Vec::from_slice(alloc, desk.out.written())?)
}

/// Asserts that a command writes a front of its answer where there is room for no more.
fn expect_front(rt: &impl Abort, alloc: Global, line: &str, front: &[u8]) -> Result<(), Fail> {
    let mut desk = desk_of_room(alloc, front.len())?;
    let said = b"vegen: write fault\n";
    desk.expect(rt, line, Status::WriteFault, front, said)
}

/// Asserts the same of each front that is not the whole.
fn expect_fronts(rt: &impl Abort, alloc: Global, line: &str) -> Result<(), Fail> {
    let answer = answer_to(rt, alloc, line)?;
    assert!(rt; !answer.is_empty(), "{line}");
    for room in 0..answer.len() {
        expect_front(rt, alloc, line, &answer.as_slice()[..room])?;
    }
    Ok(())
}

#[test]
fn each_room_that_is_too_small_keeps_a_front(rt: HostRuntime) -> Result<(), Fail> {
    for row in COMMANDS.trim().lines() {
        let (line, _) = cut(row)?;
        expect_fronts(&rt, rt.alloc(), line)?;
    }
    Ok(())
}

/// Asserts how a command ends where `err` has room for three bytes.
fn expect_full(rt: &impl Abort, alloc: Global, row: &str) -> Result<(), Fail> {
    let (line, status) = cut(row)?;
    let mut desk = desk_of_room(alloc, 1000)?;
    desk.put_all(&[("dead", DEAD), ("four", b"1234")])?;
    desk.err = MemSink::new(alloc, 3)?;
    desk.expect(rt, line, status_of(status), b"", b"veg")
}

#[test]
fn an_err_that_is_full_changes_no_status(rt: HostRuntime) -> Result<(), Fail> {
    let rows = "
compile none => Usage
compile p k => InstructionsRefused
explain none p => KernelRefused
run none k m => ProgramRefused
eval x m => InputAbsent
run none p m d=0 => BindingsRefused
eval k m d=5 s=0 => Trap
run none dead four p=0 => Trap
";
    for row in rows.trim().lines() {
        expect_full(&rt, rt.alloc(), row)?;
    }
    Ok(())
}

#[test]
fn a_word_that_is_no_text_asks_for_nothing(rt: HostRuntime) -> Result<(), Fail> {
    let mut words = Words::new(rt.alloc());
    words.push(b"lift")?;
    words.push(b"\x80")?;
    let mut desk = desk_of_room(rt.alloc(), 1000)?;
    assert!(rt; desk.run_on(&words) == Status::Usage);
    let said: &[u8] = b"vegen: usage\n";
    assert!(rt; desk.err.written() == said);
    desk.expect_reads(&rt, 0);
    Ok(())
}
