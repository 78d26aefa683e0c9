//! Names that are not known, or that mean no bits.

use crate::file_texts::{accept_operations, refuse_operations};
use std::test::Fail;

#[test]
fn names_that_are_not_known(rt: HostRuntime) -> Result<(), Fail> {
    refuse_operations(
        &rt,
        rt.alloc(),
        4,
        "
        dst[7:0] := @u
        dst[7:0] := @u[7:0]
        dst[7:0] := @u.byte[0]
        dst[7:0] := a[@u+7:u]
        dst[@u] := 1
        IF 0 dst[7:0] := @u FI
        dst[MAX:128] := @u
        FOR j := 0 to 3 dst[j] := @j[0] ENDFOR
        FOR j := 0 to 3 dst[j] := 1 ENDFOR dst[7:0] := @j
        DEFINE f(p) { RETURN @a[0] } dst[7:0] := 1
        DEFINE f(p) { RETURN @dst[0] } dst[7:0] := 1
        ",
    )
}

#[test]
fn names_that_are_not_assigned(rt: HostRuntime) -> Result<(), Fail> {
    refuse_operations(
        &rt,
        rt.alloc(),
        4,
        "
        @a[7:0] := 1
        @a := 1
        @a.byte[0] := 1
        @a[MAX:0] := 1
        FOR j := 0 to 3 @j := 1 ENDFOR
        DEFINE f(p) { @p[7:0] := 1 RETURN 1 } dst[7:0] := 1
        ",
    )
}

#[test]
fn bare_registers_without_a_span(rt: HostRuntime) -> Result<(), Fail> {
    refuse_operations(
        &rt,
        rt.alloc(),
        11,
        "
        t[7:0] := 1 dst[7:0] := @t
        t.byte[0] := 1 dst[7:0] := @t
        t.byte := 1 t.word := 1 dst[7:0] := @t
        t[MAX:0] := 0 dst[7:0] := @t
        @t := 1 dst[7:0] := t[7:0]
        t[7:0] := 1 dst[7:0] := a[@t+7:t]
        DEFINE f(p) { RETURN @p } dst[7:0] := f(1)
        DEFINE f(p) { dst[7:0] := 1 RETURN @dst } dst[7:0] := f(1)
        ",
    )
}

#[test]
fn bare_names_with_a_span(rt: HostRuntime) -> Result<(), Fail> {
    accept_operations(
        &rt,
        rt.alloc(),
        "
        t.byte := 1 dst[7:0] := t
        t.byte := 1 t.byte := 2 dst[7:0] := t + 1
        DEFINE f(p[7:0]) { RETURN p } dst[7:0] := f(1)
        dst := a
        dst := s dst[7:0] := dst[15:8]
        n := 3 dst[7:0] := n
        ",
    )
}

#[test]
fn names_are_judged_in_the_order_of_the_text(rt: HostRuntime) -> Result<(), Fail> {
    refuse_operations(
        &rt,
        rt.alloc(),
        4,
        "
        t[7:0] := @u dst[7:0] := t
        dst[7:0] := a[200] dst[7:0] := @u
        dst[200] := 1 IF 0 dst[7:0] := @u FI
        ",
    )?;
    refuse_operations(
        &rt,
        rt.alloc(),
        11,
        "
        t[7:0] := 1 dst[7:0] := @t + u
        dst[7:0] := a[200] t[7:0] := 1 dst[7:0] := @t
        ",
    )
}
