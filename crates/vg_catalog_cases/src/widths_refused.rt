//! Numbers that might be too wide, by their intervals, and extensions of slices that are wider.

use crate::file_texts::{accept_operations, refuse_operations};
use std::test::Fail;

#[test]
fn operands_of_128_unsigned_bits(rt: HostRuntime) -> Result<(), Fail> {
    refuse_operations(
        &rt,
        rt.alloc(),
        8,
        "
        dst := @a + 0
        dst := 0 + @(a)
        dst := @(a) + 0
        dst[7:0] := Signed(@a)
        dst[7:0] := ZeroExtend64(@a)
        dst[7:0] := ABS(@a)
        IF @a dst[0] := 1 FI
        CASE @a OF ESAC
        n := @a
        dst[7:0] := @w[255:0] < 1
        ",
    )
}

#[test]
fn results_that_just_fit_and_one_more(rt: HostRuntime) -> Result<(), Fail> {
    refuse_operations(
        &rt,
        rt.alloc(),
        8,
        "
        dst[7:0] := @a[126:0] + 1
        dst[7:0] := @a[126:0] + b[0]
        dst[7:0] := @170141183460469231731687303715884105727 + 1 + a[0]
        dst[7:0] := @-a[126:0] - 2
        dst[7:0] := @-s
        dst[7:0] := @ABS(s)
        dst[7:0] := @a[63:0] * b[63:0]
        dst[7:0] := 1 + (@a[126:0] + 1)
        ",
    )?;
    accept_operations(
        &rt,
        rt.alloc(),
        "
        dst := a[126:0] + 0
        dst := a[125:0] + b[125:0]
        dst := -a[126:0] - 1
        dst := NOT s
        dst := NOT a[126:0]
        dst := s[63:0] * s[127:64]
        dst := s OR s[7:0]
        dst := a
        ",
    )
}

#[test]
fn shifts(rt: HostRuntime) -> Result<(), Fail> {
    refuse_operations(
        &rt,
        rt.alloc(),
        8,
        "
        dst := @1 << 127
        dst := @0 << 127
        dst := @a[0] << 127
        dst := @a[1:0] << 126
        dst := @2 << 126
        dst := @-3 << 126
        dst := a[7:0] >> @-1
        dst := a[7:0] << @-1
        dst := a[7:0] >> @s[7:0]
        dst := @a[7:0] << b[7:0]
        dst := ZeroExtend32(1 ? @a[7:0] << b[7:0] : 0)
        ",
    )?;
    accept_operations(
        &rt,
        rt.alloc(),
        "
        dst := 1 << 126
        dst := -2 << 126
        dst := a[0] << 126
        dst := a[7:0] >> 1000
        dst := a[7:0] >> b[126:0]
        dst := a[7:0] << b[2:0]
        dst := ZeroExtend32(a[7:0] << b[7:0])
        dst := Truncate8((a[7:0] << b[7:0]))
        ",
    )
}

#[test]
fn intervals_of_bits_and_choices(rt: HostRuntime) -> Result<(), Fail> {
    refuse_operations(
        &rt,
        rt.alloc(),
        5,
        "
        dst[0] := @a[(s[3:0] OR s[6:0]) + 63]
        dst[0] := @a[(s[3:0] OR s[6:0]) + 65]
        dst[0] := @a[b[7:0] AND 1]
        dst[0] := @a[(s[6:0] XOR b[6:0]) + 64]
        dst[0] := @a[(NOT s[6:0]) + 65]
        dst[0] := @a[(b[0] ? 1 : 127) + 1]
        dst[0] := @a[(b[0] ? -1 : 5)]
        ",
    )?;
    accept_operations(
        &rt,
        rt.alloc(),
        "
        dst[0] := a[(s[3:0] OR s[6:0]) + 64]
        dst[0] := a[b[6:0] AND 1]
        dst[0] := a[(s[6:0] XOR b[5:0]) + 64]
        dst[0] := a[(NOT s[6:0]) + 64]
        dst[0] := a[(b[0] ? 0 : 126) + 1]
        dst[0] := a[(1 ? 5 : 200)]
        dst[7:0] := 0 ? a[200] : 1
        ",
    )
}

#[test]
fn slices_that_are_wider_than_their_extension(rt: HostRuntime) -> Result<(), Fail> {
    refuse_operations(
        &rt,
        rt.alloc(),
        10,
        "
        dst := @SignExtend8(a[8:0])
        dst := @ZeroExtend8(a.word[0])
        dst := @ZeroExtend64(s)
        dst := @SignExtend16((a[16:0]))
        dst := 1 + @SignExtend32(a[32:0])
        dst := @SignExtend8(a[b[2:0]+15:b[2:0]])
        DEFINE f(p[15:0]) { RETURN @SignExtend8(p) } dst := f(1)
        ",
    )?;
    accept_operations(
        &rt,
        rt.alloc(),
        "
        dst := SignExtend8(a[7:0])
        dst := ZeroExtend8(a[8:0] + 0)
        dst := SignExtend32(1 ? a[63:0] : 0)
        DEFINE f(p[15:0]) { RETURN p } dst := ZeroExtend8(f(a[15:0]))
        ",
    )
}
