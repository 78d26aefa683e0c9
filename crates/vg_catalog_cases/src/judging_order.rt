//! Texts with several faults, and which of them is met first.

use crate::file_texts::{
    accept_framed, accept_operation, accept_operations, refuse_between, refuse_framed,
    refuse_operations,
};
use std::test::Fail;

const WITH_IMMEDIATE: &str = concat!(
    "INSTRUCTION x PARAM a 128 UI8 IMM k 0 to 7",
    " RESULT dst 128 UI8 EXTENSION SSE2 COST 1 OPERATION\n",
);

#[test]
fn instances_by_rising_immediate(rt: HostRuntime) -> Result<(), Fail> {
    refuse_framed(
        &rt,
        rt.alloc(),
        5,
        WITH_IMMEDIATE,
        "
        IF k == 3 dst[a[0]] := 1 FI IF k == 2 @dst[128] := 1 FI
        IF k == 0 dst[0] := @a[128] ELSE dst[a[0]] := 1 FI
        dst[0] := @a[k * 20]
        dst[0] := @k[8]
        ",
        " END",
    )?;
    refuse_framed(
        &rt,
        rt.alloc(),
        6,
        WITH_IMMEDIATE,
        "
        IF k == 3 dst[0] := a[128] FI IF k == 2 dst[@a[0]] := 1 FI
        IF k == 1 dst[@a[0]] := 1 ELSE IF k == 2 dst[0] := a[128] FI
        ",
        " END",
    )?;
    refuse_framed(
        &rt,
        rt.alloc(),
        4,
        WITH_IMMEDIATE,
        "
        @k := 1
        dst[0] := a[128] @k[7:0] := 1
        ",
        " END",
    )
}

#[test]
fn immediates_that_fit(rt: HostRuntime) -> Result<(), Fail> {
    accept_framed(
        &rt,
        rt.alloc(),
        WITH_IMMEDIATE,
        "
        dst[k*16+15:k*16] := a[15:0]
        dst[0] := a[k * 18]
        IF k > 7 dst[200] := 1 FI
        dst[7:0] := k[a[2:0]]
        dst[k[1:0]] := 1
        ",
        " END",
    )
}

#[test]
fn statements_as_they_run(rt: HostRuntime) -> Result<(), Fail> {
    refuse_operations(
        &rt,
        rt.alloc(),
        6,
        "
        dst[@a[0]] := a[200]
        FOR j := 0 to 1 IF j == 1 dst[200] := 1 ELSE dst[@a[0]] := 1 FI ENDFOR
        FOR j := @a[0] to a[200] ENDFOR
        DEFINE f(p) { RETURN p[600] } dst[@a[0]] := f(1)
        ",
    )?;
    refuse_operations(
        &rt,
        rt.alloc(),
        5,
        "
        @dst[200] := a[200]
        dst[0] := @a[200] + SignExtend8(b[8:0])
        FOR j := @a[200] to a[0] ENDFOR
        IF a[0] ELSE @dst[200] := 1 FI
        IF @a[200] dst[200] := 1 FI
        CASE a[0] OF 0: @dst[200] := 1 0: dst[a[0]] := 1 ESAC
        CASE a[0] OF 0: dst[0] := 1 0: @dst[200] := 1 ESAC
        dst[0] := a[0] ? @a[200] : SignExtend8(b[8:0])
        ",
    )?;
    refuse_operations(
        &rt,
        rt.alloc(),
        8,
        "
        dst := @a + w[300]
        dst := @(a) * SignExtend8(b[8:0])
        ",
    )?;
    refuse_operations(&rt, rt.alloc(), 10, "dst := @SignExtend8(b[8:0]) + a[200]")
}

#[test]
fn the_step_comes_before_its_statement(rt: HostRuntime) -> Result<(), Fail> {
    refuse_operations(
        &rt,
        rt.alloc(),
        9,
        "
        FOR j := 0 to 2047 dst[0] := 1 ENDFOR @dst[200] := a[200]
        DEFINE f(p) { RETURN 1 } FOR j := 0 to 1364 dst[0] := f(1) ENDFOR dst[0] := @f(a[200])
        ",
    )
}

#[test]
fn what_does_not_run_is_not_judged(rt: HostRuntime) -> Result<(), Fail> {
    accept_operations(
        &rt,
        rt.alloc(),
        "
        FOR j := 1 to 0 dst[200] := 1 ENDFOR
        IF 0 dst[200] := 1 FI
        IF 1 dst[0] := 1 ELSE dst[200] := 1 FI
        CASE 1 OF 0: dst[200] := 1 1: dst[0] := 1 1: dst[200] := 1 ESAC
        DEFINE f(p) { RETURN p[600] } dst[0] := 1
        ",
    )?;
    accept_operation(&rt, rt.alloc(), "")
}

#[test]
fn entries_one_after_the_other(rt: HostRuntime) -> Result<(), Fail> {
    refuse_framed(
        &rt,
        rt.alloc(),
        5,
        ENTRY,
        "
        dst[0] := @a[200] END INSTRUCTION y \u{80}
        dst[0] := @a[200] END INSTRUCTION x FOO
        END INSTRUCTION y PARAM a 256 UI8 RESULT dst 128 UI8 EXTENSION SSE2 COST 1 OPERATION \
        dst[0] := a[200] dst[0] := @a[256] END FOO
        ",
        "",
    )?;
    refuse_between(
        &rt,
        rt.alloc(),
        13,
        ENTRY,
        "END INSTRUCTION @x PARAM a 128 UI8 RESULT dst 128 UI8 EXTENSION SSE2 COST 1 OPERATION \
        u := v END",
        "",
    )
}

/// An entry with its operation to come.
const ENTRY: &str =
    "INSTRUCTION x PARAM a 128 UI8 RESULT dst 128 UI8 EXTENSION SSE2 COST 1 OPERATION ";
