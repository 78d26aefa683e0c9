//! Texts that are no kernels: of each the number of its first fault, and the place, which an `@`
//! marks.

use crate::kernel_texts::{HEAD, judge, judge_all, judge_each};
use std::test::Fail;

#[test]
fn what_is_no_token(rt: HostRuntime) -> Result<(), Fail> {
    judge_all(
        &rt,
        rt.alloc(),
        HEAD,
        1,
        "
        x = a; @\u{80} }
        x = a; @\0}
        x = a @\x0B;}
        x = a; // a comment @\x7F}
        x = @170141183460469231731687303715884105728i64;}
        x = @0x80000000000000000000000000000000;}
        x = @a2345678901234567890123456789012345678901234567890123456789012345;}
        @a2345678901234567890123456789012345678901234567890123456789012345 = a;}
        store8(p + @340282366920938463463374607431768211456, a);}
        x = shl(a, @170141183460469231731687303715884105728);}
        x = a + b * @\x01}
        x = b + 2i16 @\u{80};}
        x = @\u{80}}
        ",
    )
}

#[test]
fn statements_that_the_language_has_not(rt: HostRuntime) -> Result<(), Fail> {
    judge_all(
        &rt,
        rt.alloc(),
        HEAD,
        2,
        "
        @kernel = a;}
        @ptr = a;}
        @noalias = a;}
        @i8 = a;}
        @load8(p);}
        @sext8 = a;}
        @zext8(a);}
        @trunc64 = a;}
        @select = a;}
        @= a;}
        @5i8;}
        @(a);}
        @;}
        x = a;@;}
        x @a;}
        x @== a;}
        x = a@}
        x = a@, a;}
        store7@(p, a);}
        store8@;}
        store8(@5, a);}
        store8(@(p), a);}
        store8(p@);}
        store8(p, @);}
        store8(p, a@, a);}
        store8(p, a)@}
        store8(p, a) @= a;}
        ",
    )
}

#[test]
fn expressions_that_the_language_has_not(rt: HostRuntime) -> Result<(), Fail> {
    judge_all(
        &rt,
        rt.alloc(),
        HEAD,
        2,
        "
        x = @;}
        x = a + @;}
        x = a + @* a;}
        x = a @a;}
        x = (a@;}
        x = a@);}
        x = (@);}
        x = a @<< 1;}
        x = a @== a;}
        x = a @/ a;}
        x = @~a;}
        x = @store8(p, a);}
        x = @i8;}
        x = smin @a;}
        x = smin(a@);}
        x = sext16(a@, a);}
        x = sext16(@);}
        x = eq(a@;}
        x = eq(a, a@, a);}
        x = select(eq(a, a)@);}
        x = select(eq(a, a), a@);}
        x = shl(a@);}
        x = shl(a, @a);}
        x = shl(a, @-1);}
        x = shl(a, @0x1);}
        x = shl(a, 1@i8);}
        x = load8 @p;}
        x = load8(p @* 2);}
        x = load8(p + @a);}
        x = load8(p + @-1);}
        x = load8(p + @0x1);}
        x = load8(p + 1 @+ 1);}
        x = load8(p@, a);}
        ",
    )
}

#[test]
fn literals_that_the_language_has_not(rt: HostRuntime) -> Result<(), Fail> {
    judge_all(
        &rt,
        rt.alloc(),
        HEAD,
        2,
        "
        x = 5@;}
        x = 5 @i8;}
        x = 300 @i8;}
        x = 5@u8;}
        x = 5@i08;}
        x = 5@i7;}
        x = 1@i1;}
        x = @0x5i8;}
        x = @0xFFi16;}
        x = -@-5i8;}
        x = -@a;}
        x = -@(5i8);}
        x = -@0x5;}
        x = a + -@;}
        ",
    )?;
    judge(&rt, rt.alloc(), HEAD, "x = 5\n@i8;}", 2)?;
    judge(&rt, rt.alloc(), HEAD, "x = 5// a comment\n@i8;}", 2)
}

#[test]
fn kernels_of_another_shape(rt: HostRuntime) -> Result<(), Fail> {
    judge_each(
        &rt,
        rt.alloc(),
        "",
        "
        @kernels t() { } => 2
        @t() { } => 2
        kernel @kernel() { } => 2
        kernel @load32() { } => 2
        kernel @5() { } => 2
        kernel t @{ } => 2
        kernel t(@, ) { } => 2
        kernel t(a: i8, @) { } => 2
        kernel t(a: i8,@, ) { } => 2
        kernel t(a @i8) { } => 2
        kernel t(a: @i1) { } => 2
        kernel t(a: @i128) { } => 2
        kernel t(a: @int) { } => 2
        kernel t(a: noalias @i8) { } => 2
        kernel t(a: ptr @noalias) { } => 2
        kernel t(@noalias a: ptr) { } => 2
        kernel t(@i8: i8) { } => 2
        kernel t(@zext8: i8) { } => 2
        kernel t(a: i8 @b: i8) { } => 2
        kernel t() @; { } => 2
        kernel t() { } @k => 2
        kernel t() { } @; => 2
        kernel t() { }@} => 2
        kernel t() { } @kernel u() { } => 2
        kernel t() { } @\u{80} => 1
        kernel t() { } // @\u{80} => 1
        kernel t(a: i8, @a: i8) { } => 4
        kernel t(a: ptr, @a: i8) { } => 4
        kernel t(a: i8, b: ptr, @a: int) { } => 4
        kernel t(a: i8, @a) { } => 4
        ",
    )
}

#[test]
fn names_that_are_not_known_or_known_already(rt: HostRuntime) -> Result<(), Fail> {
    judge_each(
        &rt,
        rt.alloc(),
        HEAD,
        "
        x = @y;} => 3
        y = @y;} => 3
        x = @t;} => 3
        x = @A;} => 3
        x = @load;} => 3
        x = @load7(p);} => 3
        x = @i1;} => 3
        x = a + @y;} => 3
        x = (@y);} => 3
        x = @y; y = a;} => 3
        x = shl(@y, 9);} => 3
        x = select(a, a, @y);} => 3
        x = load8(@r);} => 3
        store8(@r, a);} => 3
        store8(p, @x);} => 3
        @a = 1i8;} => 4
        @p = 1i8;} => 4
        @a = y;} => 4
        @a + b;} => 4
        x = a; @x = a;} => 4
        x = a; y = a; @x = z;} => 4
        x = eq(a, a); @x = eq(a, a);} => 4
        ",
    )
}

#[test]
fn widths_and_kinds_that_do_not_fit(rt: HostRuntime) -> Result<(), Fail> {
    judge_all(
        &rt,
        rt.alloc(),
        HEAD,
        5,
        "
        x = @p;}
        x = a + @q;}
        x = (@p);}
        x = sext16(@p);}
        x = load8(@a);}
        store8(@d, a);}
        x = a; store8(@x, a);}
        x = a @+ b;}
        x = b @* 1i8;}
        x = load16(p) @- load8(p);}
        x = a @+ b * b;}
        x = a * a @+ b;}
        x = a @| b & b;}
        x = a @+ b + b;}
        x = a + a @+ b;}
        x = (a @+ b);}
        x = eq(a, a) @+ eq(a, a);}
        x = eq(a, a); y = x @& x;}
        x = @eq(a, b);}
        x = @slt(eq(a, a), eq(b, b));}
        x = @smin(a, b);}
        x = @umax(c, d);}
        x = @shl(eq(a, a), 1);}
        x = @sext8(a);}
        x = @sext16(b);}
        x = @zext16(c);}
        x = @zext8(a);}
        x = @zext16(eq(a, a));}
        x = @trunc16(b);}
        x = @trunc32(a);}
        x = @trunc64(d);}
        x = @trunc8(eq(a, a));}
        x = @select(a, a, a);}
        x = @select(eq(a, a), a, b);}
        x = @select(eq(a, a), eq(a, a), eq(a, a));}
        @store16(p, a);}
        @store8(p, eq(a, a));}
        x = eq(a, a); @store8(p, x);}
        ",
    )
}

#[test]
fn numbers_out_of_range(rt: HostRuntime) -> Result<(), Fail> {
    judge_each(
        &rt,
        rt.alloc(),
        HEAD,
        "
        x = @256i8;} => 6
        x = @-129i8;} => 6
        x = @- 129i8;} => 6
        x = @65536i16;} => 6
        x = @-32769i16;} => 6
        x = @4294967296i32;} => 6
        x = @-2147483649i32;} => 6
        x = @18446744073709551616i64;} => 6
        x = @-9223372036854775809i64;} => 6
        x = @170141183460469231731687303715884105727i64;} => 6
        x = a + @300i8;} => 6
        x = a - @-129i8;} => 6
        store8(p + @2147483648, a);} => 6
        store8(p - @2147483649, a);} => 6
        x = load8(q + @170141183460469231731687303715884105727);} => 6
        x = shl(a, @8);} => 7
        x = lshr(b, @16);} => 7
        x = ashr(c, @32);} => 7
        x = shl(d, @64);} => 7
        x = shl(shl(a, 7), @8);} => 7
        x = ashr(load16(p), @16);} => 7
        x = shl(a, @170141183460469231731687303715884105727);} => 7
        ",
    )
}

#[test]
fn a_fault_is_met_when_its_last_operand_was_read(rt: HostRuntime) -> Result<(), Fail> {
    judge_each(
        &rt,
        rt.alloc(),
        HEAD,
        "
        x = 1i16 @+ 2i8 \u{80}} => 5
        x = 1i16 @+ 2i8} => 5
        x = a @+ b + \u{80}} => 5
        x = a @* b + c;} => 5
        x = a + b * @\u{80}} => 1
        x = a + (b@;} => 2
        x = a + @y;} => 3
        x = @shl(eq(a, a), 9);} => 5
        x = @shl(eq(a, a) \u{80}} => 5
        x = shl(a, @9 \u{80}} => 7
        x = shl(a @\u{7f}, 9);} => 1
        x = @eq(a, b \u{80}} => 5
        x = @eq(a, b, b);} => 5
        x = @sext8(a \u{80}} => 5
        x = @sext8(a, a);} => 5
        x = @select(a, a, a;} => 5
        x = select(a, a @+ b, a);} => 5
        x = select(a, @p;} => 5
        @store16(p, a \u{80}} => 5
        @store16(p, a;} => 5
        store16(p, a @+ b);} => 5
        store16(p, a + @y);} => 3
        x = @300i8 \u{80}} => 6
        x = 300@;} => 2
        x = load8(p + @2147483648 \u{80}} => 6
        x = load8(@a \u{80}} => 5
        @a \u{80}} => 4
        ",
    )
}
