//! Operations at their limits, and one past them: 0 where a text is an operation, else the number
//! of its fault.

use crate::operation_texts::{judge_all, judge_each, read, refuse_at};
use std::alloc::Global;
use std::process::Abort;
use std::test::Fail;
use vg_pseudo::parse_operation;
use vg_text::Lexer;
use vg_text::place::end_place;

#[test]
fn expressions_of_the_greatest_depth(rt: HostRuntime) -> Result<(), Fail> {
    judge_all(
        &rt,
        rt.alloc(),
        0,
        "
        x := `63 (`a`63 )` END
        x := `62 (`a.word[0]`62 )` END
        x := `63 (`a.word`63 )` END
        x := `62 (`a + b`62 )` END
        x := `62 (`a`62 )` + b END
        x := a`63  + a` END
        x := a`63  OR a` END
        x := a`62  * a` == b END
        x := `63 NOT `a END
        x := `63 - `a END
        x := `63 a ? b : `c END
        x := `63 a ? `c`63  : b` END
        x := `63 a[`0`63 ]` END
        x := `63 a[0:`0`63 ]` END
        x := `63 a.byte[`0`63 ]` END
        x := `63 f(`0`63 )` END
        x := `63 ABS(`0`63 )` END
        x := `63 MIN(1, `0`63 )` END
        x[`63 (`a`63 )`] := 1 END
        x[`63 a[`0`63 ]`:0] := 1 END
        x[MAX:`63 (`a`63 )`] := 1 END
        x.word[`63 (`a`63 )`] := 1 END
        IF `63 (`a`63 )` FI END
        CASE `63 (`a`63 )` OF ESAC END
        FOR j := `63 (`a`63 )` to 3 ENDFOR END
        DEFINE f(a) { RETURN `63 (`a`63 )` } END
        ",
    )
}

#[test]
fn expressions_one_deeper(rt: HostRuntime) -> Result<(), Fail> {
    judge_each(
        &rt,
        rt.alloc(),
        "
        x := @`64 (`a => 3
        x := @`64 (`( => 3
        x := @`64 (`5 => 3
        x := @`64 (`- => 3
        x := @`64 (`NOT => 3
        x := @`64 (`MAX => 3
        x := `64 (`@) => 2
        x := `64 (`@to => 2
        x := `64 (`@ => 2
        x := `64 (`@\u{80} => 1
        x := @`63 (`a + b => 3
        x := @`63 (`a ? b => 3
        x := @`63 (`ABS(a => 3
        x := @`63 (`f(a => 3
        x := `63 (`f(@) => 2
        x := @`63 (`a[0 => 3
        x := `63 (`a[@] => 2
        x := @`63 (`a.word[0 => 3
        x := `63 (`a.@bit => 2
        x := @a`63  + a` +  => 3
        x := @a`63  AND a` AND  => 3
        x := @a`63  AND a` ?  => 3
        x := @a`63  * a` ==  => 3
        x := @`64 NOT `a => 3
        x := 1 y := @`64 - `a => 3
        x := @`64 a ? b : `c => 3
        x := @`64 a[`0 => 3
        x := @`64 f(`0 => 3
        x := @`64 ABS(`0 => 3
        x[@`64 (`a => 3
        x[0:@`64 (`a => 3
        x[MAX:@`64 (`a => 3
        x.word[@`64 (`a => 3
        x[@`64 a[`0 => 3
        IF @`64 (`a => 3
        IF a ELSE IF @`64 (`a => 3
        CASE @`64 (`a => 3
        FOR j := @`64 (`a => 3
        FOR j := 0 to @`64 (`a => 3
        DEFINE f(a) { RETURN @`64 (`a => 3
        ",
    )
}

#[test]
fn statements_of_the_greatest_depth(rt: HostRuntime) -> Result<(), Fail> {
    judge_all(
        &rt,
        rt.alloc(),
        0,
        "
        `63 IF a `x := 1 `63 FI `END
        `64 IF a ``64 FI `END
        `63 IF a ELSE IF b `x := 1 `63 FI `END
        `63 IF a ELSE x := 1 `x := 1 `63 FI `END
        `64 FOR j := 0 to 1 ``64 ENDFOR `END
        `63 CASE a OF 0: `x := 1 `63 ESAC `END
        `64 CASE a OF 0: ``64 ESAC `END
        DEFINE f(a) { `63 IF a `x := 1 `63 FI `RETURN 1 } END
        ",
    )
}

#[test]
fn statements_one_deeper(rt: HostRuntime) -> Result<(), Fail> {
    judge_each(
        &rt,
        rt.alloc(),
        "
        `64 IF a `@x => 3
        `64 IF a `@IF => 3
        `64 IF a `@FOR => 3
        `64 IF a `@CASE => 3
        `64 IF a `@1 => 2
        `64 IF a `@ => 2
        `64 IF a ELSE IF b `@x => 3
        `63 IF a ELSE x := 1 `IF b ELSE @x => 3
        `64 FOR j := 0 to 1 `@x => 3
        `64 CASE a OF 0: `@x => 3
        `64 CASE a OF 0: `1: @x => 3
        DEFINE f(a) { `64 IF a `@x => 3
        ",
    )
}

/// Of DEFINEs of which each calls the one before, which has the same name, the last has the
/// greatest depth.
#[test]
fn calls_of_the_greatest_depth(rt: HostRuntime) -> Result<(), Fail> {
    judge_each(
        &rt,
        rt.alloc(),
        "
        `64 DEFINE f(a) { RETURN f(a) } `x := f(1) END => 0
        `64 DEFINE f(a) { RETURN f(a) } `x := f(f(f(1))) END => 0
        `63 DEFINE f(a) { RETURN f(a) } `DEFINE g(a) { x := f(1) RETURN f(a) } x := g(1) END => 0
        `64 DEFINE f(a) { RETURN f(a) } `DEFINE g(a) { RETURN h(f) } x := g(1) END => 0
        `64 DEFINE f(a) { RETURN f(a) } `DEFINE g(a) { RETURN @f(a) } END => 3
        `64 DEFINE f(a) { RETURN f(a) } `DEFINE g(a) { RETURN 1 + @f( => 3
        `64 DEFINE f(a) { RETURN f(a) } `DEFINE g(a) { RETURN 1 + @f(1, 2) } END => 3
        `64 DEFINE f(a) { RETURN f(a) } `DEFINE g(a) { x := @f(a) RETURN 1 } END => 3
        `64 DEFINE f(a) { RETURN f(a) } `DEFINE g(a) { x[@f(a)] := 1 RETURN 1 } END => 3
        `64 DEFINE f(a) { RETURN f(a) } `DEFINE g(a) { IF @f(a) FI RETURN 1 } END => 3
        `63 DEFINE f(a) { RETURN f(a) } `DEFINE g(a) { RETURN f(a) } DEFINE h(a) { RETURN ABS(@g(a)) } END => 3
        `64 DEFINE f(a) { RETURN f(a) } `DEFINE f(a) { RETURN 1 } DEFINE g(a) { RETURN f(a) } END => 0
        `64 DEFINE f(a) { RETURN f(a) } `DEFINE g(a) { RETURN f } END => 0
        `1 DEFINE f(a) { RETURN f(a) } `DEFINE g(j) { FOR j := 0 to j j := f(j) ENDFOR RETURN j } END => 0
        ",
    )
}

/// One operation of all forms.
const ALL_FORMS: &str = "DEFINE pick(src, at[7:0]) { \
    CASE (at[1:0]) OF 0: t[7:0] := src[7:0] 1: t.byte := src.byte[1] 0x2: ESAC RETURN t } \
    FOR j := 0 to 3 i := j * 8 \
    IF a.word[j] > b[i+7:i] AND NOT c dst.byte[j] := pick(a, b) \
    ELSE IF a[7] dst[i+7:i] := MIN(a.byte, SaturateU8(-b)) << 1 \
    ELSE dst[i] := (c == 1) ? 0xFF : MAX(1, 2) - 1 FI ENDFOR \
    dst[MAX(1, 2):0] := 1 dst[MAX:128] := 0 END";

#[test]
fn every_front_of_an_operation(rt: HostRuntime) -> Result<(), Fail> {
    read(&rt, rt.alloc(), ALL_FORMS.as_bytes())?;
    refuse_each_front(&rt, rt.alloc(), ALL_FORMS.as_bytes())
}

/// Whether a front ends between two tokens: after a space, or after a sign that no further byte
/// makes another one.
fn ends_between(front: &[u8]) -> bool {
    matches!(
        front.last(),
        None | Some(b' ' | b'(' | b')' | b'[' | b']' | b',' | b'*')
    )
}

/// The number of the fault of a text, where it has one.
fn number_of_fault(rt: &impl Abort, alloc: Global, text: &[u8]) -> Option<u32> {
    assert!(rt; text.len() <= 1000);
    match parse_operation(alloc, &mut Lexer::new(text)) {
        Ok(_) => None,
        Err(fault) => fault.number(),
    }
}

/// A front that ends between two tokens wants the next. One that ends in a token has another in its
/// place.
fn refuse_front(rt: &impl Abort, alloc: Global, front: &[u8]) -> Result<(), Fail> {
    assert!(rt; front.len() <= 1000);
    if ends_between(front) {
        return refuse_at(rt, alloc, front, 2, end_place(front), "a front");
    }
    let number = number_of_fault(rt, alloc, front);
    assert!(rt; matches!(number, Some(1) | Some(2)));
    Ok(())
}

fn refuse_each_front(rt: &impl Abort, alloc: Global, text: &[u8]) -> Result<(), Fail> {
    for length in 0..text.len() {
        refuse_front(rt, alloc, &text[..length])?;
    }
    Ok(())
}

#[test]
fn long_lists(rt: HostRuntime) -> Result<(), Fail> {
    judge_all(
        &rt,
        rt.alloc(),
        0,
        "
        IF a x := 1 `20000 ELSE IF b x := 2 `ELSE x := 3 FI END
        CASE a OF `20000 7: x := 1 `ESAC END
        x := f(1`199999 , 1`) END
        `20000 x := 1 `END
        DEFINE f(a`20000 , a`) { RETURN a } END
        ",
    )
}
