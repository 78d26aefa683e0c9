//! Texts that are cut off, and files at the limits of their formats, given to the commands that read them.

use crate::desk::Desk;
use crate::hostile_cases::{KERNEL, PROGRAM, desk_of_room};
use crate::instruction_files::{ADD, HEADER};
use crate::memories::cut;
use std::alloc::Global;
use std::process::Abort;
use std::test::Fail;
use vg_top::Status;

/// A desk on which this file has these bytes.
fn desk_with(alloc: Global, file: &str, bytes: &[u8]) -> Result<Desk, Fail> {
    let mut desk = desk_of_room(alloc, 1000)?;
    desk.shelf.put(file, bytes)?;
    Ok(desk)
}

/// Asserts that each front of `count` bytes to one less than the text ends a line so.
fn expect_fronts(
    rt: &impl Abort,
    alloc: Global,
    line: &str,
    file: &str,
    text: &[u8],
    count: usize,
    status: Status,
) -> Result<(), Fail> {
    for len in count..text.len() {
        let mut desk = desk_with(alloc, file, &text[..len])?;
        let ended = desk.run(line)?;
        assert!(rt; ended == status && desk.out.written().is_empty(), "{line}");
    }
    Ok(())
}

#[test]
fn each_front_of_a_kernel_is_refused(rt: HostRuntime) -> Result<(), Fail> {
    for line in "compile none k,explain none k,eval k m d=0 s=4".split(',') {
        expect_fronts(&rt, rt.alloc(), line, "k", KERNEL, 0, Status::KernelRefused)?;
    }
    Ok(())
}

#[test]
fn each_front_of_a_program_is_refused(rt: HostRuntime) -> Result<(), Fail> {
    let line = "run none p m d=0 s=4";
    expect_fronts(
        &rt,
        rt.alloc(),
        line,
        "p",
        PROGRAM,
        0,
        Status::ProgramRefused,
    )?;
    let mut desk = desk_with(rt.alloc(), "p", &PROGRAM[..PROGRAM.len() - 1])?;
    let said = b"vegen: program: 2 Shape at 4:20\n";
    desk.expect(&rt, line, Status::ProgramRefused, b"", said)
}

/// An instruction file of no byte has no fault, and one without its last line break has none either.
#[test]
fn each_front_of_an_instruction_file_is_refused(rt: HostRuntime) -> Result<(), Fail> {
    let file = ADD.as_bytes();
    let fronts = &file[..file.len() - 1];
    for line in "lift i,trial i 0,compile i k,run i p m d=0 s=4".split(',') {
        expect_fronts(
            &rt,
            rt.alloc(),
            line,
            "i",
            fronts,
            1,
            Status::InstructionsRefused,
        )?;
    }
    Ok(())
}

/// A text in so many parentheses, between two others.
fn in_parentheses(
    alloc: Global,
    before: &str,
    depth: u32,
    text: &str,
    behind: &str,
) -> Result<String, Fail> {
    let opening = copies(alloc, depth, "(")?;
    let closing = copies(alloc, depth, ")")?;
    Ok(format!(in alloc; "{before}{opening}{text}{closing}{behind}")?)
}

/// So many copies of a text.
fn copies(alloc: Global, count: u32, text: &str) -> Result<String, Fail> {
    let mut all = String::new(alloc);
    for _ in 0..count {
        all.push_str(text)?;
    }
    Ok(all)
}

/// Asserts how a line ends where this file has this text.
fn expect_end(
    rt: &impl Abort,
    alloc: Global,
    line: &str,
    file: &str,
    text: &str,
    status: Status,
    said: &[u8],
) -> Result<(), Fail> {
    let mut desk = desk_with(alloc, file, text.as_bytes())?;
    let ended = desk.run(line)?;
    assert!(rt; ended == status && desk.err.written() == said);
    Ok(())
}

/// Asserts how a kernel of a literal in so many parentheses is answered.
fn expect_literal(
    rt: &impl Abort,
    alloc: Global,
    depth: u32,
    status: Status,
    said: &[u8],
) -> Result<(), Fail> {
    let before = "kernel deep(p: ptr) { store8(p + 0, ";
    let text = in_parentheses(alloc, before, depth, "0i8", "); }")?;
    expect_end(
        rt,
        alloc,
        "compile none k",
        "k",
        text.as_str(),
        status,
        said,
    )
}

/// The literal is the node that is one too deep, after the 36 bytes before it and 256 parentheses.
#[test]
fn a_literal_of_a_kernel_in_255_parentheses_is_the_deepest(rt: HostRuntime) -> Result<(), Fail> {
    expect_literal(&rt, rt.alloc(), 255, Status::Ok, b"")?;
    let said = b"vegen: kernel: 10 NestingTooDeep at 1:293\n";
    expect_literal(&rt, rt.alloc(), 256, Status::KernelRefused, said)
}

/// Asserts how an instruction file of an entry that assigns 0 in so many parentheses is answered.
fn expect_number(
    rt: &impl Abort,
    alloc: Global,
    depth: u32,
    status: Status,
    said: &[u8],
) -> Result<(), Fail> {
    let header = HEADER;
    let operation = in_parentheses(alloc, "dst[7:0] := ", depth, "0", "\nEND\n")?;
    let text = format!(in alloc; "{header}{operation}")?;
    expect_end(rt, alloc, "lift i", "i", text.as_str(), status, said)
}

/// What is too deep is told at the front of the whole expression.
#[test]
fn a_number_of_an_entry_in_63_parentheses_is_the_deepest(rt: HostRuntime) -> Result<(), Fail> {
    expect_number(&rt, rt.alloc(), 63, Status::Ok, b"")?;
    let said = b"vegen: instructions: 3 NestingTooDeep at 7:13\n";
    expect_number(&rt, rt.alloc(), 64, Status::InstructionsRefused, said)
}

/// A row is a line of words, an arrow, one of its files, an arrow, and the most bytes of such a file:
/// asserts that one byte more is too large.
fn expect_too_large(rt: &impl Abort, alloc: Global, row: &str) -> Result<(), Fail> {
    let (line, limit) = cut(row)?;
    let (file, most) = cut(limit)?;
    let size = most.parse::<usize>()?.saturating_add(1);
    let text = vec![in alloc; b' '; size]?;
    let said = format!(in alloc; "vegen: too large: {file}\n")?;
    let mut desk = desk_with(alloc, file, text.as_slice())?;
    desk.expect(rt, line, Status::TooLarge, b"", said.as_bytes())
}

#[test]
fn files_of_one_byte_past_their_limit_are_too_large(rt: HostRuntime) -> Result<(), Fail> {
    let rows = "
compile i k => i => 1048576
run i p m d=0 s=4 => i => 1048576
lift i => i => 1048576
trial i 0 => i => 1048576
explain none k => k => 262144
eval k m d=0 s=4 => k => 262144
run none p m d=0 s=4 => p => 4194304
eval k m d=0 s=4 => m => 16777216
";
    for row in rows.trim().lines() {
        expect_too_large(&rt, rt.alloc(), row)?;
    }
    Ok(())
}

#[test]
fn an_instruction_file_of_1_mib_is_the_largest(rt: HostRuntime) -> Result<(), Fail> {
    let text = vec![in rt.alloc(); b' '; 1_048_576]?;
    let mut desk = desk_with(rt.alloc(), "i", text.as_slice())?;
    desk.expect(&rt, "compile i k", Status::Ok, PROGRAM, b"")
}
