//! Kernels of every form, the fronts of one, and where a text ends.

use crate::kernel_texts::{HEAD, judge, judge_all, refuse_at};
use std::alloc::Global;
use std::process::Abort;
use std::test::Fail;
use vg_kernel::parse_kernel;
use vg_text::place::{Place, place_after};

/// Every form of the language. No name in it is the front of another name or of a function.
const ALL_FORMS: &str = "kernel all(p: ptr, q: noalias ptr, k: i8, b: i16, c: i32, d: i64) {\n  \
    // each form once\n  \
    r1 = (load8(p + 1) + k) * -5i8 - 7i8;\n  \
    r2 = shl(b, 3) & lshr(b, 0) ^ ashr(load16(p - 2), 15) | 65535i16;\n  \
    r3 = select(slt(c, 1i32), sext32(k), zext32(b));\n  \
    r4 = eq(trunc32(d), r3);\n  \
    r5 = select(r4, smin(c, r3), smax(c, umin(r3, umax(c, c))));\n  \
    r6 = ult(k, r1);\n  \
    store32(q, r5);\n  \
    store64(q + 8, load64(q));\n\
    }";

#[test]
fn texts_that_are_kernels(rt: HostRuntime) -> Result<(), Fail> {
    let alloc = rt.alloc();
    judge(&rt, alloc, "", "kernel none(){}", 0)?;
    judge(&rt, alloc, "", "// a comment\nkernel t ( t : i8 ) { }", 0)?;
    judge(&rt, alloc, "", ALL_FORMS, 0)?;
    judge(&rt, alloc, HEAD, "\t\r\nx\n=\na\n;\n}\n// end", 0)?;
    judge_all(
        &rt,
        alloc,
        HEAD,
        0,
        "
        x = a; y = x; store8(p, y);}
        x = (eq(a, a)); y = select((x), a, a);}
        x = 255i8 + -128i8 + -0i8 + - 1i8 + 0000000000005i8;}
        x = 18446744073709551615i64; y = -9223372036854775808i64;}
        x=a-1i8;y=a- -1i8;z=a--1i8;}
        store8(p + 2147483647, load8(p - 2147483648)); store8(p - 0, load8(p + 007));}
        x = shl(a, 0) | lshr(a, 7) | ashr(a, 007);}
        load7 = a; load = load7; store = load; i1 = store; i08 = i1; sext = i08; kernel_ = sext; \
        _ = kernel_; t = _;}
        a234567890123456789012345678901234567890123456789012345678901234 = a;}
        ",
    )
}

/// The number, the count and the piece of a row.
fn columns(row: &str) -> Result<(u32, usize, &str), Fail> {
    let Some((number, behind)) = row.split_once(' ') else {
        return Err("a number is missing".into());
    };
    let Some((back, piece)) = behind.split_once(' ') else {
        return Err("a count is missing".into());
    };
    Ok((number.parse::<u32>()?, back.parse::<usize>()?, piece))
}

/// A row is the number of a fault, a count, and a piece of `text`: the front of `text` that ends
/// after the first such piece is refused with this number, so many bytes from its end.
fn refuse_front(rt: &impl Abort, alloc: Global, text: &str, row: &str) -> Result<(), Fail> {
    let (number, back, piece) = columns(row)?;
    let Some(start) = text.find(piece) else {
        return Err("a piece is missing".into());
    };
    let end = start + piece.len();
    assert!(rt; end <= text.len() && back <= end && text.len() <= 1_000_000);
    let place = place_after(Place { line: 1, column: 1 }, &text.as_bytes()[..end - back]);
    refuse_at(rt, alloc, &text.as_bytes()[..end], number, place, row)
}

#[test]
fn fronts_of_a_kernel(rt: HostRuntime) -> Result<(), Fail> {
    let rows = "
        2 4 kern
        2 0 kernel
        2 0 kernel al
        2 0 kernel all(
        2 0 (p
        2 2 p: pt
        2 0 p: ptr
        2 5 q: noali
        2 0 q: noalias
        2 1 noalias p
        2 1 k: i
        2 2 d: i6
        2 0 d: i64)
        2 0 // each
        2 0   r1
        3 3 = (loa
        2 0 (load8
        2 0 load8(p +
        2 0  + k
        2 0 * -
        2 0 * -5
        2 1 * -5i
        2 0 * -5i8
        3 2 r2 = sh
        2 0 shl(b, 3
        2 2 slt(c, 1i3
        3 5 sext3
        2 0 sext32
        3 1 trunc32(d), r
        3 2 umin(r3, um
        2 0   stor
        2 0   store32
        2 0 store32(q, r5)
        2 0 load64(q));
    ";
    for row in rows.trim().lines() {
        refuse_front(&rt, rt.alloc(), ALL_FORMS, row.trim_start())?;
    }
    refuse_each_front(&rt, rt.alloc(), ALL_FORMS)
}

/// Asserts that no front of a kernel is one: a name that is cut is not known, and nothing else
/// can be wrong.
fn refuse_each_front(rt: &impl Abort, alloc: Global, text: &str) -> Result<(), Fail> {
    for end in 0..text.len() {
        let Err(fault) = parse_kernel(alloc, &text.as_bytes()[..end]) else {
            return Err("the front of a kernel is no kernel".into());
        };
        assert!(rt; matches!(fault.number(), Some(2) | Some(3)), "{end}");
    }
    Ok(())
}

#[test]
fn where_a_text_ends(rt: HostRuntime) -> Result<(), Fail> {
    for (text, line, column) in [
        ("", 1, 1),
        ("\n", 1, 2),
        (" \n\n", 2, 2),
        ("// only a comment", 1, 18),
        ("kernel t() {", 1, 13),
        ("kernel t() {\n", 1, 14),
        ("kernel t() {\r\n", 1, 15),
        ("kernel t() {\n\n", 2, 2),
        ("kernel t() {\n  x", 2, 4),
    ] {
        refuse_at(
            &rt,
            rt.alloc(),
            text.as_bytes(),
            2,
            Place { line, column },
            text,
        )?;
    }
    Ok(())
}
