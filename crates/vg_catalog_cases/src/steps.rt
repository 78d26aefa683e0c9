//! The steps of an instance: assignments, turns of FORs and calls.

use crate::file_texts::{accept_operations, refuse_operations};
use std::test::Fail;

#[test]
fn one_step_too_many(rt: HostRuntime) -> Result<(), Fail> {
    refuse_operations(
        &rt,
        rt.alloc(),
        9,
        "
        FOR j := 0 to 2047 dst[0] := 1 ENDFOR @dst[0] := 1
        FOR j := 0 to 1364 dst[0] := 1 dst[MAX:0] := 1 ENDFOR dst[0] := 1 @dst[0] := 1
        FOR j := 0 to 1364 IF a[0] dst[0] := 1 ELSE dst[0] := 2 FI ENDFOR dst[0] := 1 @dst[0] := 1
        DEFINE f(p) { RETURN 1 } FOR j := 0 to 1364 dst[0] := f(1) ENDFOR dst[0] := @f(1)
        ",
    )
}

#[test]
fn all_steps(rt: HostRuntime) -> Result<(), Fail> {
    accept_operations(
        &rt,
        rt.alloc(),
        "
        FOR j := 0 to 2047 dst[0] := 1 ENDFOR
        FOR j := 1 to 4096 ENDFOR
        FOR j := 0 to 1364 dst[0] := 1 dst[MAX:0] := 1 ENDFOR dst[0] := 1
        FOR j := 0 to 1364 IF a[0] dst[0] := 1 ELSE dst[0] := 2 FI ENDFOR dst[0] := 1
        FOR j := 0 to 1364 IF 1 dst[0] := 1 ELSE dst[0] := 2 FI ENDFOR dst[0] := 1
        DEFINE f(p) { RETURN 1 } FOR j := 0 to 1364 dst[0] := f(1) ENDFOR dst[0] := 1
        FOR j := 0 to 62 FOR i := 0 to 31 dst[0] := 1 ENDFOR ENDFOR dst[0] := 1
        ",
    )
}
