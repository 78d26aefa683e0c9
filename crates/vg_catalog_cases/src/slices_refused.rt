//! Slices outside of their registers, and indices that depend on data.

use crate::file_texts::{accept_operations, refuse_operations};
use std::test::Fail;

#[test]
fn slices_outside_of_their_registers(rt: HostRuntime) -> Result<(), Fail> {
    refuse_operations(
        &rt,
        rt.alloc(),
        5,
        "
        dst[7:0] := @a[128]
        dst[7:0] := @a[128:121]
        dst[7:0] := @a[0:7]
        dst[7:0] := @a[7:-1]
        dst[7:0] := @a.byte[16]
        dst[7:0] := @a.word[8]
        dst[7:0] := @a.qword[-1]
        @dst[128] := 1
        @dst[135:128] := 1
        @dst[0:7] := 1
        @dst.byte[16] := 1
        @t[512] := 1
        @t.qword[8] := 1
        t[511] := 1 dst[0] := @t[512]
        dst[7:0] := (@a[200])
        dst[7:0] := 1 + (@w[256:249])
        DEFINE f(p[7:0]) { RETURN @p[8] } dst[7:0] := f(1)
        DEFINE f(p) { RETURN @p[512] } dst[7:0] := f(1)
        DEFINE f(p[2097152:0]) { RETURN @p[2097153] } dst[7:0] := f(1)
        DEFINE f(p[2097152:0]) { RETURN @p.byte[262144] } dst[7:0] := f(1)
        ",
    )
}

#[test]
fn slices_at_the_ends_of_their_registers(rt: HostRuntime) -> Result<(), Fail> {
    accept_operations(
        &rt,
        rt.alloc(),
        "
        dst[127] := a[127]
        dst[127:120] := a[127:120]
        dst.byte[15] := a.byte[15]
        dst[31:0] := w[255:224]
        t[511] := 1 dst[0] := t[511]
        dst[MAX:600] := 0
        DEFINE f(p[2097152:0]) { RETURN p[2097152] } dst[7:0] := f(1)
        DEFINE f(p[2097152:0]) { RETURN p.byte[262143] } dst[7:0] := f(1)
        dst[7:0] := a[7:0x0]
        ",
    )
}

#[test]
fn slices_by_data_one_past_the_end(rt: HostRuntime) -> Result<(), Fail> {
    refuse_operations(
        &rt,
        rt.alloc(),
        5,
        "
        dst[7:0] := @a[b[7:0]+7:b[7:0]]
        dst[1:0] := @a[b[6:0]+1:b[6:0]]
        dst[0] := @a[b[7:0]]
        dst[0] := @a[b[6:0] + 1]
        dst[0] := @a[s[6:0] + 63]
        dst[0] := @a[s[6:0] + 65]
        dst[7:0] := @a.byte[b[4:0]]
        dst[7:0] := @w.byte[b[4:0] + 1]
        ",
    )?;
    accept_operations(
        &rt,
        rt.alloc(),
        "
        dst[0] := a[b[6:0]]
        dst[0] := a[b[6:0]+0:b[6:0]]
        dst[7:0] := w[b[6:0]+7:b[6:0]]
        dst[0] := a[s[6:0] + 64]
        dst[7:0] := a.byte[b[3:0]]
        dst[7:0] := w.byte[b[4:0]]
        ",
    )
}

#[test]
fn indices_that_are_not_constant(rt: HostRuntime) -> Result<(), Fail> {
    refuse_operations(
        &rt,
        rt.alloc(),
        6,
        "
        dst[7:0] := @a[b[6:0]:0]
        dst[7:0] := @a[7:b[2:0]]
        dst[7:0] := @a[7+b[2:0]:b[2:0]]
        dst[7:0] := @a[b[2:0]+8:b[2:0]+1]
        t.byte := 1 dst[7:0] := @a[t.byte+7:t.byte[0]]
        dst[@b[2:0]] := 1
        dst[@(b[2:0])] := 1
        dst[@b[2:0]+7:b[2:0]] := 1
        dst[7:@b[0]] := 1
        dst.byte[@b[3:0]] := 1
        FOR j := @a[0] to 3 ENDFOR
        FOR j := 0 to @a[0] ENDFOR
        FOR j := 0 to @(a[0]) ENDFOR
        n := a[2:0] dst[@n] := 1
        ",
    )
}

#[test]
fn numbers_that_both_ways_leave(rt: HostRuntime) -> Result<(), Fail> {
    refuse_operations(
        &rt,
        rt.alloc(),
        6,
        "
        IF a[0] n := 1 ELSE n := 2 FI dst[@n] := 1
        IF a[0] n := 1 FI dst[@n] := 1
        n := 1 IF a[0] n := a[2:0] FI dst[@n] := 1
        CASE a[0] OF 0: n := 1 1: n := 1 ESAC dst[@n] := 1
        n := 1 CASE a[0] OF 0: n := 1 1: n := 2 ESAC dst[@n] := 1
        IF a[0] n := 1 ELSE IF a[1] n := 2 ELSE n := 1 FI dst[@n] := 1
        ",
    )?;
    accept_operations(
        &rt,
        rt.alloc(),
        "
        IF a[0] n := 1 ELSE n := 1 FI dst[n] := 1
        IF a[0] n := 0 FI dst[n] := 1
        n := 1 CASE a[1:0] OF 0: n := 1 2: n := 2 - 1 ESAC dst[n] := 1
        IF 1 n := 1 ELSE n := a[2:0] FI dst[n] := 1
        CASE 2 OF 0: n := a[0] 2: n := 5 ESAC dst[n] := 1
        IF a[0] n := 1 ELSE IF a[1] n := 1 ELSE n := 1 FI dst[n] := 1
        ",
    )
}
