//! Looped texts: those that are read and printed again, and those that are refused. In a row an `@`
//! marks the place of a fault, and a `|` stands for a line feed.

use crate::running::printed;
use std::alloc::Global;
use std::process::Abort;
use std::test::Fail;
use vg_looped::parse_looped;
use vg_marked::{Marked, unmarked_between};

const COPY: &str = "looped copy(d: ptr, s: ptr, n: i32) times n step d 4, s 4 block 2
%v0 = vload 8 s+0
vstore 8 d+0 %v0
end cost 2 scalar 4
rest
%s0:i32 = load s+0
store d+0 %s0
end cost 2 scalar 2
end looped
";

const NOTHING: &str = "looped nothing(n: i8, p: ptr) times n step p 65536 block 16
end cost 0 scalar 0
rest
end cost 0 scalar 0
end looped
";

const SOME: &str = "looped some(a: ptr, k: i8, b: ptr, c: ptr, n: i64) times n step b 1, c 3 block 1
end cost 0 scalar 7
rest
store a+0 k
end cost 1 scalar 1
end looped
";

/// A looped text that is read and printed again.
fn printed_again(alloc: Global, text: &str) -> Result<Vec<u8>, Fail> {
    match parse_looped(alloc, text.as_bytes(), &[]) {
        Ok(looped) => printed(alloc, &looped),
        Err(_) => Err("a looped text is refused".into()),
    }
}

#[test]
fn what_is_read_is_printed_again(rt: HostRuntime) -> Result<(), Fail> {
    for text in [COPY, NOTHING, SOME] {
        let printed = printed_again(rt.alloc(), text)?;
        assert!(rt; printed.as_slice() == text.as_bytes(), "{text}");
    }
    Ok(())
}

#[test]
fn pointers_that_are_not_named_do_not_move(rt: HostRuntime) -> Result<(), Fail> {
    let Ok(looped) = parse_looped(rt.alloc(), SOME.as_bytes(), &[]) else {
        return Err("a looped text is refused".into());
    };
    assert!(rt; looped.steps.as_slice() == [0, 1, 3].as_slice());
    assert!(rt; looped.times == 1 && looped.turns == 1);
    assert!(rt; looped.block.scalar == 7 && looped.rest.scalar == 1);
    Ok(())
}

/// The text of a row between two others, and the place of its mark.
fn marked(alloc: Global, front: &str, row: &str, end: &str) -> Result<Marked, Fail> {
    match unmarked_between(alloc, front.as_bytes(), row.as_bytes(), end.as_bytes())? {
        Some(marked) => Ok(marked),
        None => Err("a mark is missing".into()),
    }
}

/// Whether a text is refused with this number at its mark.
fn is_refused(alloc: Global, number: u32, marked: &Marked) -> bool {
    match parse_looped(alloc, marked.text.as_slice(), &[]) {
        Ok(_) => false,
        Err(fault) => fault.number() == Some(number) && fault.place() == Some(marked.place),
    }
}

/// Asserts of each row, a number and a text, that this text between two others is refused with this
/// number at its mark.
fn refuse_all(
    rt: &impl Abort,
    alloc: Global,
    front: &str,
    rows: &str,
    end: &str,
) -> Result<(), Fail> {
    for row in rows.trim().lines() {
        let Some((number, text)) = row.trim_start().split_once(' ') else {
            return Err("a number is missing".into());
        };
        let number = number.parse::<u32>()?;
        let marked = marked(alloc, front, text, end)?;
        assert!(rt; is_refused(alloc, number, &marked), "{row}");
    }
    Ok(())
}

/// Asserts the same of rows that stand after the parameters.
fn refuse_first_lines(rt: &impl Abort, alloc: Global, rows: &str) -> Result<(), Fail> {
    let end = "|end cost 0 scalar 0|rest|end cost 0 scalar 0|end looped|";
    refuse_all(rt, alloc, "looped l(p: ptr, n: i8, q: ptr) ", rows, end)
}

#[test]
fn names_in_the_first_line(rt: HostRuntime) -> Result<(), Fail> {
    refuse_first_lines(
        &rt,
        rt.alloc(),
        "4 times @m step p 1 block 2
        4 times n step @r 1 block 2
        4 times n step p 1, @r 1 block 2
        4 times n step @block 2
        5 times @p step p 1 block 2
        5 times n step @n 1 block 2
        5 times n step p 1, @n 1 block 2
        2 times n step q 1, @p 1 block 2
        2 times n step p 1, @p 1 block 2
        2 times n step p 1, q 1, @q 0 block 2
        2 @time n step p 1 block 2
        2 times n @steps p 1 block 2
        2 times n step p 1 @blocks 2",
    )
}

#[test]
fn numbers_in_the_first_line(rt: HostRuntime) -> Result<(), Fail> {
    refuse_first_lines(
        &rt,
        rt.alloc(),
        "8 times n step p @0 block 2
        8 times n step p @65537 block 2
        8 times n step p 1 block @0
        8 times n step p 1 block @17
        2 times n step p @04 block 2
        2 times n step p @x block 2
        2 times n step p 1 block @02
        2 times n step p 1,@q 1 block 2
        2 times n step p 1 block 2@\u{20}
        1 times n step p 1 block 2@\u{7f}",
    )
}

#[test]
fn programs_and_ends_of_looped_texts(rt: HostRuntime) -> Result<(), Fail> {
    refuse_all(
        &rt,
        rt.alloc(),
        "looped l(p: ptr, n: i8) times n step p 1 block 2|",
        "2 end cost 0 scalar 0|@else|
        6 end cost @1 scalar 0|rest|
        4 store @q+0 1i8|
        2 end cost 0 scalar 0|rest|@%s1:i8 = add 1i8 1i8|
        2 end cost 0 scalar 0|rest|end cost 0 scalar 0|end @checks 0|
        2 end cost 0 scalar 0|rest|end cost 0 scalar 0|end looped@
        2 end cost 0 scalar 0|rest|end cost 0 scalar 0|end looped|@x
        1 end cost 0 scalar 0|rest|end cost 0 scalar 0|end looped|@\u{1}",
        "",
    )?;
    refuse_all(
        &rt,
        rt.alloc(),
        "",
        "2 @program l()|end cost 0 scalar 0|
        2 @loopedx l()|
        2 looped@|
        2 looped l(p: ptr, n: i8)@|",
        "",
    )
}
