//! Names that are not known where they stand, and registers whose bare names mean no bits.

use crate::entries::{refuse, refuse_all};
use std::test::Fail;

#[test]
fn names_that_are_not_known(rt: HostRuntime) -> Result<(), Fail> {
    refuse_all(
        &rt,
        rt.alloc(),
        4,
        "
        dst[7:0] := @x END
        dst[7:0] := @x[7:0] + y END
        dst[7:0] := a[7:@y] END
        dst[@x+7:y] := z END
        dst[7:0] := @f(1, x) END
        FOR i := 0 to 1 dst[7:0] := @i[0] ENDFOR END
        FOR a := 0 to 1 dst[7:0] := @a[7:0] ENDFOR END
        FOR i := @j to i dst[7:0] := 1 ENDFOR END
        CASE 1 OF 2: dst[7:0] := @x ESAC END
        DEFINE f(x) { RETURN @a[7:0] } dst[7:0] := f(1) END
        DEFINE f(x) { RETURN @dst[0] } dst[7:0] := f(1) END
        DEFINE f(x) { RETURN @y[0] } dst[7:0] := z END
        ",
    )?;
    refuse(
        &rt,
        rt.alloc(),
        4,
        "FOR i := 0 to 1 dst[7:0] := i ENDFOR\ndst[7:0] := @i END",
    )?;
    refuse(&rt, rt.alloc(), 4, "IF 0\ndst[7:0] := @x\nFI END")
}

#[test]
fn names_that_are_not_assigned(rt: HostRuntime) -> Result<(), Fail> {
    refuse_all(
        &rt,
        rt.alloc(),
        4,
        "
        @a := 1 END
        @b.byte := 1 END
        @imm8[3:0] := 1 END
        @a[MAX:8] := 0 END
        FOR i := 0 to 1 @i := 2 ENDFOR END
        FOR dst := 0 to 1 @dst[7:0] := 2 ENDFOR END
        DEFINE f(x) { @x[7:0] := 1 RETURN x[7:0] } dst[7:0] := f(1) END
        ",
    )
}

#[test]
fn defines_that_are_not_known_yet(rt: HostRuntime) -> Result<(), Fail> {
    refuse_all(
        &rt,
        rt.alloc(),
        4,
        "
        DEFINE f(x) { RETURN @f(x[7:0]) } dst[7:0] := f(1) END
        DEFINE f(x) { RETURN @g(x[7:0]) } DEFINE g(x) { RETURN x[7:0] } dst[7:0] := f(1) END
        DEFINE f(x) { RETURN x[7:0] } dst[7:0] := @f END
        ",
    )
}

#[test]
fn bare_names_that_mean_no_bits(rt: HostRuntime) -> Result<(), Fail> {
    refuse_all(
        &rt,
        rt.alloc(),
        11,
        "
        DEFINE f(x) { RETURN @x } dst[7:0] := f(1) END
        t[7:0] := 1 dst[7:0] := @t END
        t.byte := 1 t.word := 2 dst[7:0] := @t END
        t.byte := 1 t.byte[0] := 2 dst[7:0] := @t END
        @t := 1 dst[7:0] := t[0] END
        ",
    )
}
