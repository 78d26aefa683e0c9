//! Kernels at their limits, and one past them: 0 where a text is a kernel, else the number of its
//! fault.

use crate::kernel_texts::{HEAD, judge, judge_all, judge_each};
use std::test::Fail;

/// 4,096 statements.
const MOST_STATEMENTS: &str = "kernel t(p: ptr, q: noalias ptr, a: i8, b: i16, c: i32, d: i64) { \
    `4096 store8(p, a);`";

/// Eight operations in each of 1,024 statements.
const MOST_OPERATIONS: &str = "kernel t(p: ptr, q: noalias ptr, a: i8, b: i16, c: i32, d: i64) { \
    `1024 store8(p, a + a + a + a + a + a + a + a + a);`";

/// Two loads and an operation in each of 2,730 statements.
const MOST_LOADS: &str = "kernel t(p: ptr, q: noalias ptr, a: i8, b: i16, c: i32, d: i64) { \
    `2730 store8(p, load8(q) + load8(q));`";

#[test]
fn expressions_of_the_greatest_depth(rt: HostRuntime) -> Result<(), Fail> {
    judge_all(
        &rt,
        rt.alloc(),
        HEAD,
        0,
        "
        x = `255 (`a`255 )`;}
        x = `255 (`load8(p + 1)`255 )`;}
        x = `254 (`a + a`254 )`;}
        x = `254 (`a`254 )` + a;}
        x = a`255  + a`;}
        x = a`255  | a`;}
        x = a`255  + a` * a;}
        x = a | a ^ a & a + a * `250 (`a`250 )`;}
        x = `255 shl(`a`255 , 7)`;}
        x = `255 smin(a, `a`255 )`;}
        x = `254 select(eq(a, a), `a`254 , a)`;}
        store8(p, `255 (`-5i8`255 )`);}
        ",
    )
}

#[test]
fn expressions_one_deeper(rt: HostRuntime) -> Result<(), Fail> {
    judge_each(
        &rt,
        rt.alloc(),
        HEAD,
        "
        x = `256 (`@a => 10
        x = `256 (`@( => 10
        x = `256 (`@5i8 => 10
        x = `256 (`@-5i8 => 10
        x = `256 (`@0x5 => 2
        x = `256 (`@0x5i8 => 2
        x = `256 (`@-0x5i8 => 10
        x = `256 (`@300i8 => 10
        x = `256 (`@y => 10
        x = `256 (`@p => 10
        x = `256 (`@load8(p) => 10
        x = `256 (`@sext8(a) => 10
        x = `256 (`@) => 2
        x = `256 (`@; => 2
        x = `256 (`@kernel => 2
        x = `256 (`@store8(p => 2
        x = `256 (`@ => 2
        x = `256 (`@\u{80} => 1
        x = `255 (`a @+ a => 10
        x = `255 (`shl(@a, 1) => 10
        x = a`255  + a` @+ a => 10
        x = a`255  * a` @- a => 10
        x = a`255  | a` @| a => 10
        x = a | a ^ a & a + a * `251 (`@a => 10
        x = `256 shl(`@a => 10
        x = `256 shl(`@shl( => 10
        x = `255 smin(a, `smin(@a, a) => 10
        x = `254 select(eq(a, a), `select(eq(@a, a) => 10
        store8(p, `256 (`@a => 10
        ",
    )?;
    judge(&rt, rt.alloc(), HEAD, "x = `255 (`a`255 )` @+ a", 10)
}

#[test]
fn the_most_parameters_and_statements(rt: HostRuntime) -> Result<(), Fail> {
    const SIXTEEN: &str =
        "kernel t(a: i8, b: i8, c: i8, d: i8, e: i16, f: i16, g: i32, h: i64, j: ptr, k: ptr, l: ptr, \
        m: ptr, n: ptr, o: ptr, r: noalias ptr, s: noalias ptr ";
    judge_each(
        &rt,
        rt.alloc(),
        SIXTEEN,
        "
        ) { } => 0
        , @z: i8) { } => 8
        , @z => 8
        , @a: i8 => 8
        , @ptr: i8 => 2
        , @) { } => 2
        , @5 => 2
        , @\u{80} => 1
        @z: i8 => 2
        ",
    )?;
    judge_each(
        &rt,
        rt.alloc(),
        MOST_STATEMENTS,
        "
        } => 0
        @store8(p, a);} => 8
        @store8 => 8
        @x = a;} => 8
        @x => 8
        @a = a; => 8
        @load8(p); => 2
        @kernel => 2
        @; => 2
        @ => 2
        @\u{80} => 1
        } @x => 2
        ",
    )
}

#[test]
fn the_most_loads_and_operations(rt: HostRuntime) -> Result<(), Fail> {
    judge_each(
        &rt,
        rt.alloc(),
        MOST_OPERATIONS,
        "
        } => 0
        x = (a); y = -5i8; store8(q, x);} => 0
        x = a @+ a; => 8
        x = a @+ b; => 8
        x = @load8(p); => 8
        x = @load8; => 8
        x = @load8(r); => 8
        x = @shl(a, 9); => 8
        x = @sext8(a); => 8
        x = @eq(a, b); => 8
        x = @select(a, a, a); => 8
        x = shl(@y, 9); => 3
        x = a + @y; => 3
        x = a + @p; => 5
        ",
    )?;
    judge_each(
        &rt,
        rt.alloc(),
        MOST_LOADS,
        "
        x = load8(p) + a;} => 0
        x = load8(p) @+ load8(p);} => 8
        x = shl(load8(p), 1); y = @load8(p);} => 8
        ",
    )?;
    judge(&rt, rt.alloc(), MOST_OPERATIONS, "x = `256 (`@load8(p)", 10)
}

#[test]
fn texts_of_the_greatest_size_and_one_byte_more(rt: HostRuntime) -> Result<(), Fail> {
    judge_each(
        &rt,
        rt.alloc(),
        "",
        "
        kernel none() { }`262127  ` => 0
        kernel none() { }//`262125 x` => 0
        @(`262143 (` => 2
        @a`262143 a` => 1
        @kernel none() { }`262128  ` => 9
        @kernel none() { }//`262126 x` => 9
        @kernel kernel`262132  ` => 9
        @\0`262144 a` => 9
        @`262145  ` => 9
        @`262145 (` => 9
        ",
    )?;
    judge(&rt, rt.alloc(), "", "@`262145 \n`", 9)
}
