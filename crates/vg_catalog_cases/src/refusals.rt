//! Files that are refused before an entry is judged: of each the number of its first fault, and the
//! place, which an `@` marks.

use crate::file_texts::{refuse_all, refuse_framed, refuse_text};
use std::test::Fail;

const HEADER: &str =
    "INSTRUCTION x PARAM a 128 UI8 RESULT dst 128 UI8 EXTENSION SSE2 COST 1 OPERATION ";

#[test]
fn words_that_are_no_tokens(rt: HostRuntime) -> Result<(), Fail> {
    refuse_all(
        &rt,
        rt.alloc(),
        1,
        "
        @\u{80}
        @\0
        FOO@\u{80}
        INSTRUCTION@\u{80}
        INSTRUCTION x.@\u{80}
        INSTRUCTION x @\u{80}
        INSTRUCTION @a2345678901234567890123456789012345678901234567890123456789012345
        INSTRUCTION +@a2345678901234567890123456789012345678901234567890123456789012345
        INSTRUCTION x PARAM a @170141183460469231731687303715884105728 UI8
        INSTRUCTION x PARAM a 128.@170141183460469231731687303715884105728 UI8
        INSTRUCTION x PARAM a 128 UI8 // @\u{80}
        ",
    )?;
    refuse_text(&rt, rt.alloc(), 1, " // a comment @\x7F")
}

#[test]
fn the_word_is_judged_before_what_stands_behind(rt: HostRuntime) -> Result<(), Fail> {
    refuse_all(
        &rt,
        rt.alloc(),
        12,
        "
        @FOO \u{80}
        @FOO//\u{80}
        INSTRUCTION @1 \u{80}
        INSTRUCTION x PARAM a @170141183460469231731687303715884105727 \u{80}
        INSTRUCTION x PARAM a 256 @M512
        ",
    )?;
    refuse_text(&rt, rt.alloc(), 12, "@FOO\n\u{80}")
}

#[test]
fn files_that_end_in_a_header(rt: HostRuntime) -> Result<(), Fail> {
    refuse_all(
        &rt,
        rt.alloc(),
        12,
        "
        INSTRUCTION@
        INSTRUCTION @
        INSTRUCTION x@
        INSTRUCTION x PARAM@
        INSTRUCTION x PARAM a@
        INSTRUCTION x PARAM a 128@
        INSTRUCTION x PARAM a 128 UI8@
        INSTRUCTION x PARAM a 128 UI8 IMM@
        INSTRUCTION x PARAM a 128 UI8 IMM i@
        INSTRUCTION x PARAM a 128 UI8 IMM i 0@
        INSTRUCTION x PARAM a 128 UI8 IMM i 0 to@
        INSTRUCTION x PARAM a 128 UI8 IMM i 0 to 1@
        INSTRUCTION x PARAM a 128 UI8 RESULT@
        INSTRUCTION x PARAM a 128 UI8 RESULT dst@
        INSTRUCTION x PARAM a 128 UI8 RESULT dst 128@
        INSTRUCTION x PARAM a 128 UI8 RESULT dst 128 UI8@
        INSTRUCTION x PARAM a 128 UI8 RESULT dst 128 UI8 EXTENSION@
        INSTRUCTION x PARAM a 128 UI8 RESULT dst 128 UI8 EXTENSION SSE2@
        INSTRUCTION x PARAM a 128 UI8 RESULT dst 128 UI8 EXTENSION SSE2 COST@
        INSTRUCTION x PARAM a 128 UI8 RESULT dst 128 UI8 EXTENSION SSE2 COST 1@
        ",
    )
}

#[test]
fn words_that_name_no_extension(rt: HostRuntime) -> Result<(), Fail> {
    refuse_framed(
        &rt,
        rt.alloc(),
        15,
        "INSTRUCTION x PARAM a 128 UI8 RESULT dst 128 UI8 EXTENSION ",
        "
        @SSE
        @SSE1
        @SSE4
        @SSE4_1
        @SSE4.
        @SSE4.3
        @sse2
        @SSE2+
        @AVX512
        @AVX512VL
        @COST
        @(
        @1
        @END
        @AVX-VNNI
        ",
        " COST 1 OPERATION END",
    )
}

#[test]
fn operations_that_are_none(rt: HostRuntime) -> Result<(), Fail> {
    refuse_framed(
        &rt,
        rt.alloc(),
        1,
        HEADER,
        "
        @\u{80}
        x := 1 @\u{80} END
        ",
        "",
    )?;
    refuse_framed(
        &rt,
        rt.alloc(),
        2,
        HEADER,
        "
        @
        x := @
        x := 1@
        @INSTRUCTION y
        x := 1 @OPERATION
        x := @END
        ",
        "",
    )?;
    refuse_framed(
        &rt,
        rt.alloc(),
        3,
        HEADER,
        "x := @(((((((((((((((((((((((((((((((((((((((((((((((((((((((((((((((( 1",
        "",
    )
}

#[test]
fn a_fault_of_the_text_comes_before_one_of_a_name(rt: HostRuntime) -> Result<(), Fail> {
    refuse_framed(&rt, rt.alloc(), 2, HEADER, "x := unknown y := @END", "")
}
