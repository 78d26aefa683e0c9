//! The texts of guarded loops: those that are read and printed again, and those that are refused. In
//! a row an `@` marks the place of a fault, and a `|` stands for a line feed.

use crate::running::printed;
use std::alloc::Global;
use std::process::Abort;
use std::test::Fail;
use vg_guarded_loop::parse_guarded_loop;
use vg_marked::{Marked, unmarked_between};

const COPY: &str = "guardedloop copy(d: ptr, s: ptr, n: i32) times n step d 4, s 4 block 2
check disjoint d+0 8 s+0 8
then
%v0 = vload 8 s+0
vstore 8 d+0 %v0
end cost 2 scalar 4
else
%s0:i32 = load s+0
store d+0 %s0
%s1:i32 = load s+4
store d+4 %s1
end cost 4 scalar 4
end checks 1
rest
%s0:i32 = load s+0
store d+0 %s0
end cost 2 scalar 2
end looped
";

const NOTHING: &str = "guardedloop nothing(n: i8, p: ptr) times n step p 65536 block 16
then
end cost 0 scalar 0
else
end cost 0 scalar 0
end checks 0
rest
end cost 0 scalar 0
end looped
";

/// What is printed of the guarded loop that a text is read as.
fn printed_again(alloc: Global, text: &str) -> Result<Vec<u8>, Fail> {
    match parse_guarded_loop(alloc, text.as_bytes(), &[]) {
        Ok(guarded) => printed(alloc, &guarded),
        Err(_) => Err("a guarded loop is refused".into()),
    }
}

#[test]
fn what_is_read_is_printed_again(rt: HostRuntime) -> Result<(), Fail> {
    for text in [COPY, NOTHING] {
        let printed = printed_again(rt.alloc(), text)?;
        assert!(rt; printed.as_slice() == text.as_bytes(), "{text}");
    }
    Ok(())
}

#[test]
fn the_parts_of_a_text_stand_in_their_places(rt: HostRuntime) -> Result<(), Fail> {
    let Ok(guarded) = parse_guarded_loop(rt.alloc(), COPY.as_bytes(), &[]) else {
        return Err("a guarded loop is refused".into());
    };
    assert!(rt; guarded.steps.as_slice() == [4, 4].as_slice());
    assert!(rt; guarded.times == 0 && guarded.turns == 2);
    assert!(rt; guarded.block.fast.cost == 2 && guarded.block.slow.cost == 4);
    assert!(rt; guarded.rest.scalar == 2);
    Ok(())
}

/// The text of a row between two others, and the place of its mark.
fn marked(alloc: Global, front: &str, row: &str, end: &str) -> Result<Marked, Fail> {
    match unmarked_between(alloc, front.as_bytes(), row.as_bytes(), end.as_bytes())? {
        Some(marked) => Ok(marked),
        None => Err("a mark is missing".into()),
    }
}

/// Whether a text is refused with this number at its mark.
fn is_refused(alloc: Global, number: u32, marked: &Marked) -> bool {
    match parse_guarded_loop(alloc, marked.text.as_slice(), &[]) {
        Ok(_) => false,
        Err(fault) => fault.number() == Some(number) && fault.place() == Some(marked.place),
    }
}

/// Asserts of each row, a number and a text, that this text between two others is refused with this
/// number at its mark.
fn refuse_all(
    rt: &impl Abort,
    alloc: Global,
    front: &str,
    rows: &str,
    end: &str,
) -> Result<(), Fail> {
    for row in rows.trim().lines() {
        let Some((number, text)) = row.trim_start().split_once(' ') else {
            return Err("a number is missing".into());
        };
        let number = number.parse::<u32>()?;
        let marked = marked(alloc, front, text, end)?;
        assert!(rt; is_refused(alloc, number, &marked), "{row}");
    }
    Ok(())
}

#[test]
fn first_lines(rt: HostRuntime) -> Result<(), Fail> {
    refuse_all(
        &rt,
        rt.alloc(),
        "",
        "2 @looped l(p: ptr, n: i8) times n step p 1 block 2|
        2 @guarded l(p: ptr, n: i8) times n step p 1 block 2|
        2 guardedloop@|
        2 guardedloop l(p: ptr, n: i8)@|
        4 guardedloop l(p: ptr, n: i8) times @m step p 1 block 2|
        5 guardedloop l(p: ptr, n: i8) times n step @n 1 block 2|
        8 guardedloop l(p: ptr, n: i8) times n step p @0 block 2|
        8 guardedloop l(p: ptr, n: i8) times n step p 1 block @17|
        2 guardedloop l(p: ptr, n: i8) times n step p 1 block 2@ |",
        "then|end cost 0 scalar 0|else|end cost 0 scalar 0|end checks 0|rest|end cost 0 scalar 0|end looped|",
    )
}

#[test]
fn checks_and_sides(rt: HostRuntime) -> Result<(), Fail> {
    refuse_all(
        &rt,
        rt.alloc(),
        "guardedloop l(p: ptr, n: i8, q: ptr, r: ptr) times n step p 1 block 2|",
        "2 check disjoint p+0 1 r+0 1|check disjoint p+0 1 @q+0 1|
        2 check disjoint q+0 1 @p+0 1|
        8 check disjoint p+0 @0 q+0 1|
        2 @rest|
        2 then|end cost 0 scalar 0|@end checks 0|
        2 then|end cost 0 scalar 0|@rest|
        6 then|end cost @1 scalar 0|else|
        4 then|%s0:i8 = load p+0|end cost 1 scalar 1|else|store q+0 @%s0|
        8 then|end cost 0 scalar 0|else|end cost 0 scalar 0|end checks @1|
        2 then|end cost 0 scalar 0|else|end cost 0 scalar 0|end @looped|",
        "",
    )
}

#[test]
fn rests_and_ends(rt: HostRuntime) -> Result<(), Fail> {
    refuse_all(
        &rt,
        rt.alloc(),
        "guardedloop l(p: ptr, n: i8) times n step p 1 block 2|then|%s0:i8 = load p+0|end cost 1 scalar 1|else|end cost 0 scalar 0|end checks 0|",
        "2 @end looped|
        2 @%s0:i8 = load p+0|
        2 @|
        4 rest|store p+0 @%s0|
        2 rest|end cost 0 scalar 0|end @checks 0|
        2 rest|end cost 0 scalar 0|end looped@
        2 rest|end cost 0 scalar 0|end looped|@x",
        "",
    )
}
