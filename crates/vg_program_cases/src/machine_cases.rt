//! Programs run by the machine: what they leave of a memory, and where they trap.

ghost use Rattle.std.specs.Prelude.{[], IfOk};
ghost use Rattle.vg_program.specs.Valid.{IsValid};

use crate::memories::{bytes_of, numbers_of};
use std::alloc::{AllocError, Global};
use std::process::Abort;
use std::test::Fail;
use vg_machine::{Machine, Outcome};
use vg_program::{Program, parse_program};

fn program(alloc: Global, text: &[u8]) -> Result<Program, Fail>
    ensures { IfOk result (IsValid []) }
{
    match parse_program(alloc, text, &[]) {
        Ok(program) => Ok(program),
        Err(_) => Err("the program is refused".into()),
    }
}

/// What a run leaves of a copy of this memory, or None where it traps.
fn run(
    alloc: Global,
    machine: &mut Machine<'_>,
    places: &[u64],
    args: &[u64],
    memory: &[u8],
) -> Result<Option<Vec<u8>>, AllocError> {
    let mut after = Vec::from_slice(alloc, memory)?;
    match machine.run(after.as_mut_slice(), places, args) {
        Outcome::Done => Ok(Some(after)),
        Outcome::Trap => Ok(None),
    }
}

/// What a program without calls leaves of this memory on its second run, or None where that traps.
/// Its first run is on zeros.
fn left_by(
    alloc: Global,
    text: &[u8],
    places: &[u64],
    args: &[u64],
    memory: &[u8],
) -> Result<Option<Vec<u8>>, Fail> {
    let program = program(alloc, text)?;
    let mut machine = Machine::new(alloc, &[], &program)?;
    let zeros = vec![in alloc; 0; memory.len()]?;
    let _ = run(alloc, &mut machine, places, args, zeros.as_slice())?;
    Ok(run(alloc, &mut machine, places, args, memory)?)
}

/// The same where places, arguments and the memory are written as words.
fn left_of(
    alloc: Global,
    text: &[u8],
    places: &str,
    args: &str,
    memory: &str,
) -> Result<Option<Vec<u8>>, Fail> {
    let places = numbers_of(alloc, places)?;
    let args = numbers_of(alloc, args)?;
    let memory = bytes_of(alloc, memory)?;
    left_by(
        alloc,
        text,
        places.as_slice(),
        args.as_slice(),
        memory.as_slice(),
    )
}

fn are_bytes(after: &Option<Vec<u8>>, wanted: &[u8]) -> bool {
    match after {
        Some(bytes) => bytes.as_slice() == wanted,
        None => false,
    }
}

/// Asserts what a program leaves of a memory, with pointers at these places and these arguments.
pub fn expect_left(
    rt: &impl Abort,
    alloc: Global,
    text: &[u8],
    places: &str,
    args: &str,
    memory: &str,
    left: &str,
) -> Result<(), Fail> {
    let wanted = bytes_of(alloc, left)?;
    let after = left_of(alloc, text, places, args, memory)?;
    assert!(rt; are_bytes(&after, wanted.as_slice()));
    Ok(())
}

/// Asserts that a program traps.
pub fn expect_trap(
    rt: &impl Abort,
    alloc: Global,
    text: &[u8],
    places: &str,
    args: &str,
    memory: &str,
) -> Result<(), Fail> {
    let left = left_of(alloc, text, places, args, memory)?;
    assert!(rt; left.is_none());
    Ok(())
}

const COPY: &[u8] = b"program copy(p: ptr, q: ptr)
%s0:i32 = load q+0
store p+0 %s0
%s1:i32 = load q+4
store p+4 %s1
end cost 4 scalar 4
";

#[test]
fn overlapping_words_are_copied_in_order(rt: HostRuntime) -> Result<(), Fail> {
    expect_left(
        &rt,
        rt.alloc(),
        COPY,
        "4 0",
        "",
        "1 2 3 4 5 6 7 8 9 10 11 12",
        "1 2 3 4 1 2 3 4 1 2 3 4",
    )
}

/// Asserts what a program with one pointer and one argument leaves of nine bytes 9.
fn expect_written(
    rt: &impl Abort,
    alloc: Global,
    text: &str,
    arg: &str,
    left: &str,
) -> Result<(), Fail> {
    expect_left(rt, alloc, text.as_bytes(), "0", arg, "9*9", left)
}

#[test]
fn numbers_are_written_at_their_widths(rt: HostRuntime) -> Result<(), Fail> {
    expect_written(
        &rt,
        rt.alloc(),
        "program p(d: ptr, k: i8)\n%s0:i8 = add k 200i8\nstore d+0 %s0\nend cost 2 scalar 2\n",
        "100",
        "44 9 9 9 9 9 9 9 9",
    )?;
    expect_written(
        &rt,
        rt.alloc(),
        "program p(d: ptr, k: i16)\n%s0:i16 = add 60000i16 k\nstore d+0 %s0\nend cost 2 scalar 2\n",
        "10000",
        "112 17 9 9 9 9 9 9 9",
    )?;
    expect_written(
        &rt,
        rt.alloc(),
        "program p(d: ptr, k: i32)\n%s0:i32 = add k 3i32\nstore d+0 %s0\nend cost 2 scalar 2\n",
        "4294967295",
        "2 0 0 0 9 9 9 9 9",
    )?;
    expect_written(
        &rt,
        rt.alloc(),
        "program p(d: ptr, k: i64)\n%s0:i64 = add k k\nstore d+0 %s0\nend cost 2 scalar 2\n",
        "18446744073709551615",
        "254 255 255 255 255 255 255 255 9",
    )?;
    expect_written(
        &rt,
        rt.alloc(),
        "program p(d: ptr, k: i32)\nstore d+1 k\nend cost 1 scalar 1\n",
        "305419896",
        "9 120 86 52 18 9 9 9 9",
    )?;
    expect_written(
        &rt,
        rt.alloc(),
        "program p(d: ptr, k: i8)\nstore d+7 258i16\nend cost 1 scalar 1\n",
        "0",
        "9 9 9 9 9 9 9 2 1",
    )
}

/// The width, the line, the two numbers and the result of a row.
fn columns(row: &str) -> Result<(&str, &str, &str, &str), Fail> {
    let Some((operation, numbers)) = row.trim().split_once(" => ") else {
        return Err("an arrow is missing".into());
    };
    let Some((bits, line)) = operation.split_once(' ') else {
        return Err("a width is missing".into());
    };
    match numbers.rsplit_once(' ') {
        Some((args, number)) => Ok((bits, line, args, number)),
        None => Err("a number is missing".into()),
    }
}

/// A row is a width, a line, an arrow, two numbers of that width, and what the line makes of
/// them, as a number of 64 bits.
fn expect_number(rt: &impl Abort, alloc: Global, row: &str) -> Result<(), Fail> {
    let (bits, line, args, number) = columns(row)?;
    let number = number.parse::<u64>()?.to_le_bytes();
    let text = format!(in alloc;
        "program p(d: ptr, a: i{bits}, b: i{bits})\n{line}\nstore d+0 %s0\nend cost 2 scalar 2\n"
    )?;
    let left = left_of(alloc, text.as_bytes(), "0", args, "8*0")?;
    assert!(rt; are_bytes(&left, number.as_slice()), "{row}");
    Ok(())
}

#[test]
fn operations_at_the_borders_of_their_widths(rt: HostRuntime) -> Result<(), Fail> {
    let rows = "
        8 %s0:i8 = add a b => 200 100 44
        8 %s0:i8 = sub a b => 3 5 254
        8 %s0:i8 = mul a b => 20 20 144
        16 %s0:i16 = add a b => 65535 2 1
        16 %s0:i16 = sub a b => 0 1 65535
        16 %s0:i16 = mul a b => 300 300 24464
        32 %s0:i32 = sub a b => 0 1 4294967295
        32 %s0:i32 = mul a b => 65537 65537 131073
        64 %s0:i64 = add a b => 18446744073709551615 2 1
        64 %s0:i64 = sub a b => 0 1 18446744073709551615
        64 %s0:i64 = mul a b => 4294967297 4294967297 8589934593
        8 %s0:i8 = and a b => 12 10 8
        8 %s0:i8 = or a b => 12 10 14
        8 %s0:i8 = xor a b => 12 10 6
        8 %s0:i8 = smin a b => 127 128 128
        8 %s0:i8 = smax a b => 127 128 127
        8 %s0:i8 = umin a b => 127 128 127
        8 %s0:i8 = umax a b => 127 128 128
        64 %s0:i64 = smin a b => 9223372036854775807 9223372036854775808 9223372036854775808
        64 %s0:i64 = umax a b => 9223372036854775807 9223372036854775808 9223372036854775808
        8 %s0:i8 = shl a 0 => 129 0 129
        8 %s0:i8 = shl a 7 => 3 0 128
        64 %s0:i64 = shl a 63 => 3 0 9223372036854775808
        8 %s0:i8 = lshr a 0 => 128 0 128
        8 %s0:i8 = lshr a 7 => 128 0 1
        64 %s0:i64 = lshr a 63 => 9223372036854775808 0 1
        8 %s0:i8 = ashr a 0 => 128 0 128
        8 %s0:i8 = ashr a 1 => 129 0 192
        8 %s0:i8 = ashr a 7 => 128 0 255
        8 %s0:i8 = ashr a 7 => 127 0 0
        16 %s0:i16 = ashr a 15 => 32768 0 65535
        64 %s0:i64 = ashr a 63 => 9223372036854775808 0 18446744073709551615
        8 %s0:i16 = sext a => 128 0 65408
        8 %s0:i16 = sext a => 127 0 127
        8 %s0:i64 = sext a => 255 0 18446744073709551615
        32 %s0:i64 = sext a => 2147483648 0 18446744071562067968
        8 %s0:i16 = zext a => 128 0 128
        32 %s0:i64 = zext a => 4294967295 0 4294967295
        16 %s0:i8 = trunc a => 4660 0 52
        64 %s0:i32 = trunc a => 4294967301 0 5
    ";
    for row in rows.trim().lines() {
        expect_number(&rt, rt.alloc(), row)?;
    }
    Ok(())
}

/// A row is a width, a comparison, two numbers of that width, and 1 where it holds of them, else 2.
fn expect_choice(rt: &impl Abort, alloc: Global, row: &str) -> Result<(), Fail> {
    let Some((comparison, chosen)) = row.trim().rsplit_once(' ') else {
        return Err("a choice is missing".into());
    };
    let Some((bits, behind)) = comparison.split_once(' ') else {
        return Err("a width is missing".into());
    };
    let Some((word, args)) = behind.split_once(' ') else {
        return Err("a comparison is missing".into());
    };
    let text = format!(in alloc;
        "program p(d: ptr, a: i{bits}, b: i{bits})\n%s0:i1 = {word} a b\n%s1:i8 = select %s0 1i8 2i8\nstore d+0 %s1\nend cost 3 scalar 3\n"
    )?;
    expect_left(rt, alloc, text.as_bytes(), "0", args, "0", chosen)
}

#[test]
fn comparisons_choose(rt: HostRuntime) -> Result<(), Fail> {
    let rows = "
        8 eq 5 5 1
        8 eq 5 6 2
        8 slt 128 127 1
        8 slt 127 128 2
        8 slt 5 5 2
        8 ult 127 128 1
        8 ult 128 127 2
        8 ult 5 5 2
        16 slt 32768 32767 1
        32 slt 2147483648 2147483647 1
        64 slt 9223372036854775808 9223372036854775807 1
        64 ult 9223372036854775807 9223372036854775808 1
    ";
    for row in rows.trim().lines() {
        expect_choice(&rt, rt.alloc(), row)?;
    }
    Ok(())
}

/// A row is a line with one access, an arrow, the place of its pointer, and whether it traps in a
/// memory of eight bytes.
fn expect_access(rt: &impl Abort, alloc: Global, row: &str) -> Result<(), Fail> {
    let Some((line, outcome)) = row.trim().split_once(" => ") else {
        return Err("an arrow is missing".into());
    };
    let Some((place, word)) = outcome.split_once(' ') else {
        return Err("an outcome is missing".into());
    };
    let text = format!(in alloc; "program p(p: ptr)\n{line}\nend cost 1 scalar 1\n")?;
    let left = left_of(alloc, text.as_bytes(), place, "", "8*0")?;
    assert!(rt; left.is_none() == (word == "traps"), "{row}");
    Ok(())
}

#[test]
fn an_access_with_a_byte_outside_traps(rt: HostRuntime) -> Result<(), Fail> {
    let rows = "
        %s0:i32 = load p+0 => 4 ends
        %s0:i32 = load p+0 => 5 traps
        %s0:i8 = load p-4 => 4 ends
        %s0:i8 = load p-4 => 3 traps
        %s0:i8 = load p+8 => 18446744073709551615 traps
        %s0:i64 = load p-1 => 18446744073709551615 traps
        store p+2147483647 1i8 => 0 traps
        store p-2147483648 1i8 => 2147483655 ends
        store p-2147483648 1i16 => 2147483655 traps
    ";
    for row in rows.trim().lines() {
        expect_access(&rt, rt.alloc(), row)?;
    }
    Ok(())
}
