//! Heads, statements and bodies of kernels that are read by themselves: what is left after them, and
//! where they are refused. An `@` marks a place, and is no part of the text.

ghost use Rattle.std.specs.Prelude.{IfOk};
ghost use Rattle.vg_kernel.specs.WellFormed.{IsHead};

use std::alloc::Global;
use std::process::Abort;
use std::test::Fail;
use vg_kernel::{Head, KernelFault, parse_body, parse_head, parse_statements};
use vg_text::place::{Place, place_after};
use vg_text::{Lexer, Token};

/// A part of a kernel.
#[derive(Clone, Copy)]
enum Part {
    Head,
    Statements,
    Body,
}

/// The head after which statements and bodies stand here.
fn head(alloc: Global) -> Result<Head, Fail>
    ensures { IfOk result IsHead }
{
    match parse_head(alloc, &mut Lexer::new(b"t(p: ptr, a: i8)")) {
        Ok(head) => Ok(head),
        Err(_) => Err("a head is refused".into()),
    }
}

fn read_head(alloc: Global, lexer: &mut Lexer<'_>) -> Result<Option<Place>, KernelFault> {
    parse_head(alloc, lexer)?;
    Ok(None)
}

fn read_statements(
    alloc: Global,
    lexer: &mut Lexer<'_>,
    head: Head,
) -> Result<Option<Place>, KernelFault>
    requires { IsHead head }
{
    let (_, brace) = parse_statements(alloc, lexer, head)?;
    Ok(Some(brace))
}

fn read_body(alloc: Global, lexer: &mut Lexer<'_>, head: Head) -> Result<Option<Place>, KernelFault>
    requires { IsHead head }
{
    parse_body(alloc, lexer, head)?;
    Ok(None)
}

/// Reads a part; the fault where it is refused, and of statements the place of their brace.
fn read(
    alloc: Global,
    part: Part,
    lexer: &mut Lexer<'_>,
) -> Result<Result<Option<Place>, KernelFault>, Fail> {
    match part {
        Part::Head => Ok(read_head(alloc, lexer)),
        Part::Statements => Ok(read_statements(alloc, lexer, head(alloc)?)),
        Part::Body => Ok(read_body(alloc, lexer, head(alloc)?)),
    }
}

/// The text of a row without its mark, and the place of that.
fn unmarked(alloc: Global, row: &str) -> Result<(Vec<u8>, Place), Fail> {
    let Some((front, behind)) = row.split_once('@') else {
        return Err("a mark is missing".into());
    };
    let mut text = Vec::from_slice(alloc, front.as_bytes())?;
    text.extend_from_slice(behind.as_bytes())?;
    if text.len() > 1000 {
        return Err("a row is too long".into());
    }
    let place = place_after(Place { line: 1, column: 1 }, front.as_bytes());
    Ok((text, place))
}

/// What stands next in front of a lexer.
fn next(lexer: &Lexer<'_>) -> Result<Token, Place> {
    let mut ahead = *lexer;
    ahead.next()
}

/// The place of what stands next in front of a lexer, or of its fault.
fn next_place(lexer: &Lexer<'_>) -> Place {
    match next(lexer) {
        Ok(token) => token.place,
        Err(place) => place,
    }
}

/// Whether a part is refused with this number at this place.
fn is_refused(answer: &Result<Option<Place>, KernelFault>, number: u32, place: Place) -> bool {
    match answer {
        Ok(_) => false,
        Err(fault) => fault.number() == Some(number) && fault.place() == Some(place),
    }
}

/// Asserts that a part is refused with this number at the mark of a row, and that the lexer then
/// stands as before.
fn refuse(rt: &impl Abort, alloc: Global, part: Part, number: u32, row: &str) -> Result<(), Fail> {
    let (text, place) = unmarked(alloc, row)?;
    assert!(rt; text.len() <= 1000);
    let mut lexer = Lexer::new(text.as_slice());
    let first = next(&lexer);
    let answer = read(alloc, part, &mut lexer)?;
    assert!(rt;
        is_refused(&answer, number, place) && next(&lexer) == first,
        "{row}"
    );
    Ok(())
}

/// Asserts the same of each line as a row.
fn refuse_all(
    rt: &impl Abort,
    alloc: Global,
    part: Part,
    number: u32,
    rows: &str,
) -> Result<(), Fail> {
    for row in rows.trim().lines() {
        refuse(rt, alloc, part, number, row.trim_start())?;
    }
    Ok(())
}

/// Asserts that a part is read of a row, and that the lexer then stands at the mark.
fn read_row(rt: &impl Abort, alloc: Global, part: Part, row: &str) -> Result<(), Fail> {
    let (text, place) = unmarked(alloc, row)?;
    assert!(rt; text.len() <= 1000);
    let mut lexer = Lexer::new(text.as_slice());
    let answer = read(alloc, part, &mut lexer)?;
    assert!(rt; answer.is_ok() && next_place(&lexer) == place, "{row}");
    Ok(())
}

/// Asserts the same of each line as a row.
fn read_all(rt: &impl Abort, alloc: Global, part: Part, rows: &str) -> Result<(), Fail> {
    for row in rows.trim().lines() {
        read_row(rt, alloc, part, row.trim_start())?;
    }
    Ok(())
}

#[test]
fn a_head_leaves_what_stands_behind_it(rt: HostRuntime) -> Result<(), Fail> {
    read_all(
        &rt,
        rt.alloc(),
        Part::Head,
        "
        t()@{ x
        t(p: ptr, q: noalias ptr) @times n
        loop(times: ptr, step: i8) @)
        t() // behind it @\u{80}
        t()@
        ",
    )
}

#[test]
fn what_is_no_head(rt: HostRuntime) -> Result<(), Fail> {
    let alloc = rt.alloc();
    refuse_all(&rt, alloc, Part::Head, 1, "t(@\u{80})\nt\u{9}(p: @\u{7f}")?;
    refuse_all(
        &rt,
        alloc,
        Part::Head,
        2,
        "
        @kernel()
        @5()
        t@
        t @{ }
        t(p: ptr@;
        t(p: ptr, @)
        t(p: @i7)
        ",
    )?;
    refuse_all(&rt, alloc, Part::Head, 4, "t(p: ptr, @p: i8)")?;
    let seventeen =
        "t(a: i8, b: i8, c: i8, d: i8, e: i8, f: i8, g: i8, h: i8, i: i8, j: i8, k: i8, \
        l: i8, m: i8, n: i8, o: i8, p: i8, @q: i8)";
    refuse_all(&rt, alloc, Part::Head, 8, seventeen)
}

#[test]
fn statements_leave_what_stands_behind_them(rt: HostRuntime) -> Result<(), Fail> {
    read_all(
        &rt,
        rt.alloc(),
        Part::Statements,
        "
        { } @x
        { x = a; store8(p, x); }@}
        {} @\u{80}
        {}@
        ",
    )
}

/// Asserts that the brace that closes statements is told at the mark of a row.
fn check_brace(rt: &impl Abort, alloc: Global, row: &str) -> Result<(), Fail> {
    let (text, place) = unmarked(alloc, row)?;
    assert!(rt; text.len() <= 1000);
    let brace = read(alloc, Part::Statements, &mut Lexer::new(text.as_slice()))?;
    assert!(rt; matches!(brace, Ok(Some(found)) if found == place), "{row}");
    Ok(())
}

#[test]
fn statements_tell_the_place_of_their_brace(rt: HostRuntime) -> Result<(), Fail> {
    for row in ["{@} x", " {\n x = a; // }\n @}\n}", "{ @}\u{80}"] {
        check_brace(&rt, rt.alloc(), row)?;
    }
    Ok(())
}

#[test]
fn what_are_no_statements(rt: HostRuntime) -> Result<(), Fail> {
    let alloc = rt.alloc();
    refuse_all(
        &rt,
        alloc,
        Part::Statements,
        2,
        "
        @x = a; }
        { x = @} }
        { x = a;@
        ",
    )?;
    refuse_all(&rt, alloc, Part::Statements, 3, "{ y = @b; } x")?;
    refuse_all(&rt, alloc, Part::Statements, 5, "{ x = @p; }")
}

#[test]
fn a_body_ends_the_text(rt: HostRuntime) -> Result<(), Fail> {
    let alloc = rt.alloc();
    read_all(
        &rt,
        alloc,
        Part::Body,
        "
        { }@
        { x = a; store8(p + 1, x); } // behind it@
        ",
    )?;
    refuse_all(&rt, alloc, Part::Body, 1, "{ } @\u{80}")?;
    refuse_all(&rt, alloc, Part::Body, 2, "{ } @x\n{ x = @} }\n{ }@}")?;
    refuse_all(&rt, alloc, Part::Body, 4, "{ x = a; @x = a; } x")
}
