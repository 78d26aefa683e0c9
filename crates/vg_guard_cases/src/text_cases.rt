//! Guarded texts: those that are read and printed again, and those that are refused. In a row an `@`
//! marks the place of a fault, and a `|` stands for a line feed.

use std::alloc::Global;
use std::process::Abort;
use std::test::Fail;
use vg_guard::{parse_guarded, print_guarded};
use vg_marked::{Marked, unmarked_between};

const COPY: &str = "guarded two(p: ptr, q: ptr)
check disjoint p+0 8 q+0 8
then
%v0 = vload 8 q+0
vstore 8 p+0 %v0
end cost 2 scalar 4
else
%s0:i32 = load q+0
store p+0 %s0
%s1:i32 = load q+4
store p+4 %s1
end cost 4 scalar 4
end checks 1
";

const NONE: &str = "guarded none()
then
end cost 0 scalar 0
else
end cost 0 scalar 0
end checks 0
";

const MANY: &str = "guarded many(p: ptr, k: i8, q: ptr, r: ptr)
check disjoint p-2147483648 4294967303 q+0 1
check disjoint p+7 1 r-1 2
check disjoint q+2147483647 8 r+0 1
then
end cost 0 scalar 3
else
store r+0 k
end cost 1 scalar 3
end checks 3
";

/// A guarded text that is read and printed again.
fn printed_again(alloc: Global, text: &str) -> Result<Vec<u8>, Fail> {
    match parse_guarded(alloc, text.as_bytes(), &[]) {
        Ok(guarded) => Ok(print_guarded(alloc, &guarded)?),
        Err(_) => Err("a guarded text is refused".into()),
    }
}

#[test]
fn what_is_read_is_printed_again(rt: HostRuntime) -> Result<(), Fail> {
    for text in [COPY, NONE, MANY] {
        let printed = printed_again(rt.alloc(), text)?;
        assert!(rt; printed.as_slice() == text.as_bytes(), "{text}");
    }
    Ok(())
}

/// The text of a row between two others, and the place of its mark.
fn marked(alloc: Global, front: &str, row: &str, end: &str) -> Result<Marked, Fail> {
    match unmarked_between(alloc, front.as_bytes(), row.as_bytes(), end.as_bytes())? {
        Some(marked) => Ok(marked),
        None => Err("a mark is missing".into()),
    }
}

/// Whether a text is refused with this number at its mark.
fn is_refused(alloc: Global, number: u32, marked: &Marked) -> bool {
    match parse_guarded(alloc, marked.text.as_slice(), &[]) {
        Ok(_) => false,
        Err(fault) => fault.number() == Some(number) && fault.place() == Some(marked.place),
    }
}

/// Asserts of each row, a number and a text, that this text between two others is refused with this
/// number at its mark.
fn refuse_all(
    rt: &impl Abort,
    alloc: Global,
    front: &str,
    rows: &str,
    end: &str,
) -> Result<(), Fail> {
    for row in rows.trim().lines() {
        let Some((number, text)) = row.trim_start().split_once(' ') else {
            return Err("a number is missing".into());
        };
        let number = number.parse::<u32>()?;
        let marked = marked(alloc, front, text, end)?;
        assert!(rt; is_refused(alloc, number, &marked), "{row}");
    }
    Ok(())
}

/// Asserts the same of rows of checks.
fn refuse_checks(rt: &impl Abort, alloc: Global, rows: &str) -> Result<(), Fail> {
    let front = "guarded g(p: ptr, q: ptr, r: ptr, k: i8)|";
    let end = "|then|end cost 0 scalar 0|else|end cost 0 scalar 0|end checks 1|";
    refuse_all(rt, alloc, front, rows, end)
}

#[test]
fn checks_out_of_order(rt: HostRuntime) -> Result<(), Fail> {
    refuse_checks(
        &rt,
        rt.alloc(),
        "2 check disjoint p+0 1 r+0 1|check disjoint p+0 1 @q+0 1
        2 check disjoint p+0 1 r+0 1|check disjoint p+0 1 @r+0 1
        2 check disjoint q+0 1 r+0 1|check disjoint @p+0 1 q+0 1
        2 check disjoint q+0 1 @p+0 1
        2 check disjoint p+0 1 @p+0 1
        2 check disjoint q+0 1 @p+2147483648 0",
    )
}

#[test]
fn checks_of_other_names_and_numbers(rt: HostRuntime) -> Result<(), Fail> {
    refuse_checks(
        &rt,
        rt.alloc(),
        "4 check disjoint @z+0 1 q+0 1
        4 check disjoint p+0 1 @z+0 1
        5 check disjoint @k+0 1 q+0 1
        5 check disjoint p+0 1 @k+0 1
        8 check disjoint p-@0 1 q+0 1
        8 check disjoint p+@2147483648 1 q+0 1
        8 check disjoint p-@2147483649 1 q+0 1
        8 check disjoint p+0 @0 q+0 1
        8 check disjoint p+0 1 q+0 @4294967304",
    )
}

#[test]
fn lines_that_are_no_checks(rt: HostRuntime) -> Result<(), Fail> {
    refuse_checks(
        &rt,
        rt.alloc(),
        "2 @checks disjoint p+0 1 q+0 1
        2 @
        2 check @ disjoint p+0 1 q+0 1
        2 check @apart p+0 1 q+0 1
        2 check disjoint p@ 1 q+0 1
        2 check disjoint p+0 @01 q+0 1
        2 check disjoint p+@00 1 q+0 1
        2 check disjoint p+0 1 q+0 1@\u{20}
        2 check disjoint p+0 1@, q+0 1
        1 @\u{9}
        1 check disjoint p+0 1@\u{7f} q+0 1",
    )
}

#[test]
fn bodies_and_ends_of_guarded_texts(rt: HostRuntime) -> Result<(), Fail> {
    let front = "guarded g(p: ptr)|then|end cost 0 scalar 0|else|end cost 0 scalar 0|";
    refuse_all(
        &rt,
        rt.alloc(),
        front,
        "8 end checks @1|
        2 end checks @00|
        2 end checks 0@
        2 end checks 0|@x
        1 end checks 0|@\u{1}
        2 @else|
        2 end @cost 0 scalar 0|",
        "",
    )?;
    refuse_all(
        &rt,
        rt.alloc(),
        "",
        "2 @program g()|end cost 0 scalar 0|
        2 @guardedx g()|
        2 guarded@|
        2 guarded g()|then@
        2 guarded g()|then|@else|
        4 guarded g(p: ptr)|then|store @q+0 1i8|
        6 guarded g(p: ptr)|then|end cost @1 scalar 0|
        2 guarded g()|then|end cost 0 scalar 0|@rest|
        2 guarded g()|then|end cost 0 scalar 0|else|@%s1:i8 = add 1i8 1i8|",
        "",
    )
}
