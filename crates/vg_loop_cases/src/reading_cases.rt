//! Loop kernels that are read, and those that are refused. In a row an `@` marks the place of a fault, and
//! is no part of the text.

use std::alloc::Global;
use std::process::Abort;
use std::test::Fail;
use vg_loops::{loop_place, parse_loop};
use vg_marked::{Marked, unmarked};
use vg_text::Place;

/// The text of a row after another, and the place of its mark.
fn marked(alloc: Global, front: &str, row: &str) -> Result<Marked, Fail> {
    let whole = format!(in alloc; "{front}{row}")?;
    match unmarked(alloc, whole.as_bytes())? {
        Some(marked) => Ok(marked),
        None => Err("a mark is missing".into()),
    }
}

/// Whether a text is refused with this number at its mark.
fn is_refused(alloc: Global, number: u32, marked: &Marked) -> bool {
    match parse_loop(alloc, marked.text.as_slice()) {
        Ok(_) => false,
        Err(fault) => fault.number() == Some(number) && fault.place() == Some(marked.place),
    }
}

/// Asserts of each row, a number and a text, that this text after another is refused with this number
/// at its mark.
fn refuse_all(rt: &impl Abort, alloc: Global, front: &str, rows: &str) -> Result<(), Fail> {
    for row in rows.trim().lines() {
        let Some((number, text)) = row.trim_start().split_once(' ') else {
            return Err("a number is missing".into());
        };
        let number = number.parse::<u32>()?;
        let marked = marked(alloc, front, text)?;
        assert!(rt; is_refused(alloc, number, &marked), "{row}");
    }
    Ok(())
}

/// Asserts the same of a loop over two pointers and a byte, the rows after its parameters.
fn refuse_loops(rt: &impl Abort, alloc: Global, rows: &str) -> Result<(), Fail> {
    refuse_all(rt, alloc, "loop l(p: ptr, q: noalias ptr, n: i8) ", rows)
}

/// Asserts that a text is read as a loop that is counted by this integer and moves its pointers so.
fn expect(
    rt: &impl Abort,
    alloc: Global,
    text: &str,
    times: u32,
    steps: &[u32],
) -> Result<(), Fail> {
    let Ok(read) = parse_loop(alloc, text.as_bytes()) else {
        return Err("a loop is refused".into());
    };
    assert!(rt;
        read.times == times && read.steps.as_slice() == steps,
        "{text}"
    );
    Ok(())
}

#[test]
fn a_loop_has_its_kernel_its_count_and_its_steps(rt: HostRuntime) -> Result<(), Fail> {
    let text = b"// copies\nloop copy(d: ptr, k: i8, s: ptr, n: i64) times n step d 4, s 8
{ x = load32(s - 4); store32(d, x); }";
    let Ok(copy) = parse_loop(rt.alloc(), text) else {
        return Err("a loop is refused".into());
    };
    let kernel = &copy.kernel;
    assert!(rt; copy.times == 1 && copy.steps.as_slice() == [4, 8].as_slice());
    assert!(rt; kernel.name.bytes() == b"copy".as_slice());
    assert!(rt; kernel.params.as_slice().len() == 4 && kernel.statements.as_slice().len() == 2);
    Ok(())
}

#[test]
fn steps_stand_in_any_order_and_words_of_loops_are_free(rt: HostRuntime) -> Result<(), Fail> {
    let alloc = rt.alloc();
    expect(
        &rt,
        alloc,
        "loop loop(times: ptr, step: i8) times step step times 1 { store8(times, step); }",
        0,
        &[1],
    )?;
    expect(
        &rt,
        alloc,
        "loop l(n: i8, p: ptr, q: ptr, r: ptr) times n step r 65536, p 0001 { store8(p, n); }",
        0,
        &[1, 0, 65_536],
    )?;
    expect(
        &rt,
        alloc,
        "loop l(p: ptr, a: i8, b: i16) times b step p 2 { loop = a; store8(p + 1, loop); }",
        1,
        &[2],
    )
}

#[test]
fn names_behind_times_and_step(rt: HostRuntime) -> Result<(), Fail> {
    refuse_loops(
        &rt,
        rt.alloc(),
        "2 times @8 step p 1 { store8(p, n); }
        2 times @i8 step p 1 { store8(p, n); }
        2 times n step @1 { store8(p, n); }
        2 times n step @load8 1 { store8(p, n); }
        2 times n step @{ store8(p, n); }
        2 @time n step p 1 { store8(p, n); }
        2 times n @steps p 1 { store8(p, n); }
        3 times @m step p 1 { store8(p, n); }
        3 times n step @r 1 { store8(p, n); }
        3 times n step p 1, @r 1 { store8(p, n); }
        5 times @p step p 1 { store8(p, n); }
        5 times n step @n 1 { store8(p, n); }
        5 times n step p 1, @n 1 { store8(p, n); }
        4 times n step p 1, @p 1 { store8(p, n); }
        4 times n step p 1, q 2, @p 3 { store8(p, n); }",
    )
}

#[test]
fn numbers_of_steps(rt: HostRuntime) -> Result<(), Fail> {
    refuse_loops(
        &rt,
        rt.alloc(),
        "2 times n step p @0x4 { store8(p, n); }
        2 times n step p @-4 { store8(p, n); }
        2 times n step p @{ store8(p, n); }
        2 times n step p @q { store8(p, n); }
        6 times n step p @0 { store8(p, n); }
        6 times n step p 1, q @65537 { store8(p, n); }
        6 times n step p @170141183460469231731687303715884105727 { store8(p, n); }
        1 times n step p @170141183460469231731687303715884105728 { store8(p, n); }",
    )
}

#[test]
fn the_steps_go_on_where_a_comma_stands(rt: HostRuntime) -> Result<(), Fail> {
    refuse_loops(
        &rt,
        rt.alloc(),
        "2 times n step p 1 @; { store8(p, n); }
        2 times n step p 1 @q 1 { store8(p, n); }
        2 times n step p 1, @{ store8(p, n); }
        2 times n step p 1 @
        1 times n step p 1 @\u{7f}",
    )
}

#[test]
fn no_store_that_moves_is_met_at_the_closing_brace(rt: HostRuntime) -> Result<(), Fail> {
    refuse_loops(
        &rt,
        rt.alloc(),
        "11 times n step p 1 { @} x
        11 times n step p 1 { @}\u{7f}
        11 times n step p 1 { store8(q, load8(p)); @}
        11 times n step q 1 { x = load8(q); store8(p, x); @} }
        2 times n step p 1 { x = @} }
        2 times n step p 1 { store8(p, n); } @x
        2 times n step p 1 { store8(p, n); } @}
        3 times n step p 1 { store8(q, @x); }",
    )
}

#[test]
fn texts_that_are_no_loops(rt: HostRuntime) -> Result<(), Fail> {
    refuse_all(
        &rt,
        rt.alloc(),
        "",
        "2 @kernel k(p: ptr) { store8(p, 1i8); }
        2 @loops l(p: ptr) { }
        2 @
        2 loop @
        1 loop@\u{7f}
        1 @\u{7f} loop
        4 loop l(p: ptr, @p: i8) times p step p 1 { }",
    )
}

#[test]
fn a_text_of_more_than_256_kib_is_refused(rt: HostRuntime) -> Result<(), Fail> {
    let long = vec![in rt.alloc(); b' '; 262_145]?;
    let Err(fault) = parse_loop(rt.alloc(), long.as_slice()) else {
        return Err("a text that is too long is read".into());
    };
    assert!(rt; fault.number() == Some(9));
    Ok(())
}

#[test]
fn a_loop_begins_with_its_word(rt: HostRuntime) -> Result<(), Fail> {
    let first = Place { line: 1, column: 1 };
    assert!(rt; loop_place(b"loop") == Some(first));
    assert!(rt; loop_place(b"loop\x7f") == Some(first));
    assert!(rt; loop_place(b"// loop\n loop") == Some(Place { line: 2, column: 2 }));
    for text in ["", "\u{7f} loop", "loops", "kernel", "// loop"] {
        assert!(rt; text.len() <= 100);
        assert!(rt; loop_place(text.as_bytes()).is_none());
    }
    Ok(())
}
