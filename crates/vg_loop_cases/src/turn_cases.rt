//! Turns that are run one by one, written out as one kernel, or by the programs of a looped text.

ghost use Rattle.std.specs.Prelude.{[], IfOk};
ghost use Rattle.vg_looped.specs.Looped.{IsLooped};
ghost use Rattle.vg_loops.specs.Formed.{IsLoop};
ghost use Rattle.vg_loops.specs.View.{loop_of};

use crate::running::{Inputs, are_same, left_by_kernel, left_by_loop, left_by_looped, read};
use std::alloc::Global;
use std::process::Abort;
use std::test::Fail;
use vg_kernel::{KStmt, Kernel};
use vg_looped::{Looped, parse_looped};
use vg_loops::{Loop, turns_of, unroll};

/// Asserts what a loop leaves of a memory. None where it traps.
fn expect(
    rt: &impl Abort,
    alloc: Global,
    text: &str,
    inputs: Inputs<'_>,
    memory: &[u8],
    left: &Option<Vec<u8>>,
) -> Result<(), Fail> {
    let source = read(alloc, text)?;
    let found = left_by_loop(alloc, &source, inputs, memory)?;
    assert!(rt; are_same(&found, left), "{text}");
    Ok(())
}

const COPY: &str =
    "loop copy(d: ptr, s: ptr, n: i8) times n step d 1, s 1 { store8(d, load8(s)); }";

/// The bytes of digits.
fn digits(alloc: Global, text: &str) -> Result<Vec<u8>, Fail> {
    let mut bytes = Vec::new(alloc);
    for digit in text.as_bytes() {
        bytes.push(*digit % 16)?;
    }
    Ok(bytes)
}

/// The numbers of a text.
fn numbers(alloc: Global, text: &str) -> Result<Vec<u64>, Fail> {
    let mut read = Vec::new(alloc);
    for word in text.split(' ') {
        read.push(word.parse::<u64>()?)?;
    }
    Ok(read)
}

/// The memory of digits. None for the word `trap`.
fn memory_of(alloc: Global, word: &str) -> Result<Option<Vec<u8>>, Fail> {
    if word == "trap" {
        return Ok(None);
    }
    Ok(Some(digits(alloc, word)?))
}

/// Asserts of a row, a count, what is left and the places, what a loop leaves of a memory; `trap` where
/// it traps.
fn expect_row(
    rt: &impl Abort,
    alloc: Global,
    text: &str,
    memory: &[u8],
    row: &str,
) -> Result<(), Fail> {
    let Some((count, behind)) = row.split_once(' ') else {
        return Err("a count is missing".into());
    };
    let Some((word, places)) = behind.split_once(' ') else {
        return Err("places are missing".into());
    };
    let args = [count.parse::<u64>()?];
    let left = memory_of(alloc, word)?;
    let places = numbers(alloc, places)?;
    let inputs = Inputs {
        places: places.as_slice(),
        args: &args,
    };
    expect(rt, alloc, text, inputs, memory, &left)
}

/// Asserts the same of each row for a memory of these digits.
fn expect_all(
    rt: &impl Abort,
    alloc: Global,
    text: &str,
    memory: &str,
    rows: &str,
) -> Result<(), Fail> {
    let memory = digits(alloc, memory)?;
    for row in rows.lines() {
        expect_row(rt, alloc, text, memory.as_slice(), row.trim_start())?;
    }
    Ok(())
}

#[test]
fn each_turn_moves_each_pointer_by_its_step(rt: HostRuntime) -> Result<(), Fail> {
    expect_all(
        &rt,
        rt.alloc(),
        COPY,
        "00001234",
        "0 00001234 0 4
        1 10001234 0 4
        3 12301234 0 4",
    )?;
    expect_all(
        &rt,
        rt.alloc(),
        "loop l(d: ptr, s: ptr, n: i8) times n step s 2, d 1 { store8(d, load8(s)); }",
        "00301234",
        "3 31301234 0 2",
    )
}

#[test]
fn a_turn_reads_what_the_turns_before_it_wrote(rt: HostRuntime) -> Result<(), Fail> {
    let sums =
        "loop sums(p: ptr, n: i8) times n step p 1 { store8(p + 1, load8(p) + load8(p + 1)); }";
    expect_all(&rt, rt.alloc(), sums, "11111", "4 12345 0")?;
    let total = "loop total(t: ptr, s: ptr, n: i8) times n step s 1
        { store8(t, load8(t) + load8(s)); store8(s, 0i8); }";
    expect_all(&rt, rt.alloc(), total, "0123", "3 6000 0 1")
}

#[test]
fn a_loop_traps_where_a_turn_does(rt: HostRuntime) -> Result<(), Fail> {
    expect_all(
        &rt,
        rt.alloc(),
        COPY,
        "12345678",
        "3 12345123 5 0
        4 trap 5 0
        0 12345678 18446744073709551615 0",
    )
}

#[test]
fn a_count_has_no_sign(rt: HostRuntime) -> Result<(), Fail> {
    let fill = "loop fill(p: ptr, n: i8) times n step p 1 { store8(p, n); }";
    let alloc = rt.alloc();
    let memory = vec![in alloc; 0; 256]?;
    let mut left = vec![in alloc; 255; 255]?;
    left.push(0)?;
    let inputs = Inputs {
        places: &[0],
        args: &[255],
    };
    expect(&rt, alloc, fill, inputs, memory.as_slice(), &Some(left))
}

/// So many copies of a statement.
fn copies(alloc: Global, count: u32, statement: &str) -> Result<String, Fail> {
    let mut text = String::new(alloc);
    for _ in 0..count {
        text.push_str(statement)?;
    }
    Ok(text)
}

/// A loop whose body has a statement so many times.
fn repeated(alloc: Global, steps: &str, count: u32, statement: &str) -> Result<Loop, Fail>
    ensures { IfOk result (λ l. IsLoop (loop_of l)) }
{
    let body = copies(alloc, count, statement)?;
    let front = "loop l(p: ptr, q: ptr, n: i8) times n step";
    let text = format!(in alloc; "{front} {steps} {{ {body} }}")?;
    read(alloc, text.as_str())
}

/// The loop of a row: the steps, the number of times that a statement stands in the body, and the
/// statement, a `|` between them.
fn repeated_by(alloc: Global, row: &str) -> Result<Loop, Fail>
    ensures { IfOk result (λ l. IsLoop (loop_of l)) }
{
    let Some((steps, behind)) = row.split_once('|') else {
        return Err("a count is missing".into());
    };
    let Some((count, statement)) = behind.split_once('|') else {
        return Err("a statement is missing".into());
    };
    repeated(alloc, steps, count.parse::<u32>()?, statement)
}

/// Asserts of each row how many turns a block has: the turns, a `|`, and the row of a loop.
fn expect_turns(rt: &impl Abort, alloc: Global, rows: &str) -> Result<(), Fail> {
    for row in rows.lines() {
        let Some((turns, behind)) = row.trim_start().split_once('|') else {
            return Err("steps are missing".into());
        };
        let turns = turns.parse::<u32>()?;
        let source = repeated_by(alloc, behind)?;
        assert!(rt; turns_of(&source) == turns, "{row}");
    }
    Ok(())
}

#[test]
fn a_block_has_as_many_turns_as_keep_the_limits(rt: HostRuntime) -> Result<(), Fail> {
    expect_turns(
        &rt,
        rt.alloc(),
        "16|p 1|1|store8(p, n);
        16|p 1|256|store8(p, n);
        8|p 1|257|store8(p, n);
        4|p 1|513|store8(p, n);
        2|p 1|2048|store8(p, n);
        1|p 1|2049|store8(p, n);
        16|p 1|170|store8(p, load8(p) + load8(q));
        8|p 1|171|store8(p, load8(p) + load8(q));
        16|p 1|1|store8(p + 2147483632, n);
        8|p 1|1|store8(p + 2147483633, n);
        8|p 1|1|store8(p + 2147483640, n);
        4|p 1|1|store8(p + 2147483641, n);
        2|p 65535|1|store8(p + 2147418112, n);
        1|p 65536|1|store8(p + 2147418112, n);
        16|p 1|1|store8(p, load8(q + 2147483647));
        16|p 65536|1|store8(p - 2147483648, n);",
    )
}

/// How many of its statements are stores.
fn stores_in(kernel: &Kernel) -> usize {
    let stores = |s: &&KStmt| matches!(**s, KStmt::Store { .. });
    kernel.statements.as_slice().iter().filter(stores).count()
}

/// Asserts that the kernel of sixteen turns of a loop has these numbers of statements and stores, and
/// leaves of a memory what the turns leave.
fn expect_unrolled(
    rt: &impl Abort,
    alloc: Global,
    source: &Loop,
    kernel: &Kernel,
    memory: &[u8],
) -> Result<(), Fail> {
    assert!(rt; kernel.statements.as_slice().len() == 48 && stores_in(kernel) == 32);
    let inputs = Inputs {
        places: &[1, 0],
        args: &[16],
    };
    let by_turns = left_by_loop(alloc, source, inputs, memory)?;
    let by_kernel = left_by_kernel(alloc, kernel, inputs, memory)?;
    assert!(rt; by_turns.is_some() && are_same(&by_turns, &by_kernel));
    Ok(())
}

/// Asserts that a block has sixteen turns, and how its kernel is.
fn expect_sixteen(rt: &impl Abort, alloc: Global, source: &Loop, memory: &[u8]) -> Result<(), Fail>
    requires { IsLoop (loop_of source.now) }
{
    let turns = turns_of(source);
    assert!(rt; turns == 16);
    let kernel = unroll(alloc, source, turns)?;
    expect_unrolled(rt, alloc, source, &kernel, memory)
}

#[test]
fn the_kernel_of_a_block_leaves_what_its_turns_leave(rt: HostRuntime) -> Result<(), Fail> {
    let mut memory = Vec::new(rt.alloc());
    for byte in 0..33u8 {
        memory.push(byte)?;
    }
    let text = "loop l(p: ptr, q: ptr, n: i8) times n step p 2
        { x = load8(p + 1); store8(p, x + load8(q)); store8(q, x); }";
    let source = read(rt.alloc(), text)?;
    expect_sixteen(&rt, rt.alloc(), &source, memory.as_slice())
}

const MARKS: &str = "looped marks(p: ptr, n: i8) times n step p 1 block 3
store p+0 1i8
end cost 1 scalar 1
rest
store p+0 2i8
end cost 1 scalar 1
end looped
";

/// A looped text that calls nothing.
fn marks(alloc: Global) -> Result<Looped, Fail>
    ensures { IfOk result (IsLooped []) }
{
    match parse_looped(alloc, MARKS.as_bytes(), &[]) {
        Ok(looped) => Ok(looped),
        Err(_) => Err("a looped text is refused".into()),
    }
}

/// Asserts of a row, a count and digits, what the looped text leaves of nine zeros; `trap` where it
/// traps.
fn expect_marks(rt: &impl Abort, alloc: Global, looped: &Looped, row: &str) -> Result<(), Fail>
    requires { IsLooped [] looped.now }
{
    let Some((count, word)) = row.split_once(' ') else {
        return Err("a count is missing".into());
    };
    let inputs = Inputs {
        places: &[0],
        args: &[count.parse::<u64>()?],
    };
    let left = memory_of(alloc, word)?;
    let found = left_by_looped(alloc, &[], looped, inputs, &[0; 9])?;
    assert!(rt; are_same(&found, &left), "{row}");
    Ok(())
}

#[test]
fn blocks_run_first_and_then_the_turns_that_are_left(rt: HostRuntime) -> Result<(), Fail> {
    let looped = marks(rt.alloc())?;
    for row in "0 000000000
        2 220000000
        3 100000000
        8 100100220
        9 100100100
        11 trap"
        .lines()
    {
        expect_marks(&rt, rt.alloc(), &looped, row.trim_start())?;
    }
    Ok(())
}
