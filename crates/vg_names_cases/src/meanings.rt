//! What names mean: signs, sizes, and which of two of one name is meant.

use crate::entries::resolved;
use std::alloc::Global;
use std::process::Abort;
use std::test::Fail;
use vg_names::{Body, Code, Resolved, ResolvedExpr};

/// The sign, the register and the size of the right side of an assignment, where it is a bare
/// name or `name.elem`.
fn front_of(code: &Code) -> Option<(bool, usize, u128)> {
    match code {
        Code::Assign { value, .. } => match &**value {
            ResolvedExpr::Front {
                is_signed,
                register,
                size,
                ..
            } => Some((*is_signed, *register, *size)),
            _ => None,
        },
        _ => None,
    }
}

/// That of the first assignment of an operation.
fn first_front(resolved: &Resolved) -> Option<(bool, usize, u128)> {
    front_of(&resolved.body.code)
}

/// Asserts what the right side of the first assignment of a text is.
fn check(
    rt: &impl Abort,
    alloc: Global,
    text: &str,
    is_signed: bool,
    register: usize,
    size: u128,
) -> Result<(), Fail> {
    let operation = resolved(rt, alloc, text)?;
    assert!(rt;
        first_front(&operation) == Some((is_signed, register, size)),
        "{text}"
    );
    Ok(())
}

/// A row is the text of an operation, an arrow, and the sign of the right side of its first
/// assignment, its register and its size.
fn check_row(rt: &impl Abort, alloc: Global, row: &str) -> Result<(), Fail> {
    let Some((text, wanted)) = row.trim().split_once(" => ") else {
        return Err("an arrow is missing".into());
    };
    let Some((sign, place)) = wanted.split_once(' ') else {
        return Err("a register is missing".into());
    };
    let Some((register, size)) = place.split_once(' ') else {
        return Err("a size is missing".into());
    };
    let (register, size) = (register.parse::<usize>()?, size.parse::<u128>()?);
    check(rt, alloc, text, sign == "signed", register, size)
}

fn check_rows(rt: &impl Abort, alloc: Global, rows: &str) -> Result<(), Fail> {
    for row in rows.trim().lines() {
        check_row(rt, alloc, row)?;
    }
    Ok(())
}

#[test]
fn signs_and_sizes_of_bare_names(rt: HostRuntime) -> Result<(), Fail> {
    check_rows(
        &rt,
        rt.alloc(),
        "
        dst := a END => unsigned 0 128
        dst := b END => signed 1 128
        dst[7:0] := imm8 END => unsigned 2 8
        dst := dst END => unsigned 3 128
        dst[7:0] := b.byte END => signed 1 8
        dst := x x.dword := a[31:0] END => unsigned 4 32
        dst := x x.dword := b[31:0] END => signed 4 32
        dst := x x.dword := b[31] END => unsigned 4 32
        dst := x x.dword := Signed(a[31:0]) END => signed 4 32
        dst := x x.dword := NOT b[31:0] END => signed 4 32
        dst := x x.dword := a[31:0] + b[31:0] END => signed 4 32
        dst := x x.dword := a[31:0] < b[31:0] END => unsigned 4 32
        dst := x x.dword := a[0] ? b[31:0] : 1 END => signed 4 32
        ",
    )
}

#[test]
fn signs_go_along_locals_in_any_order(rt: HostRuntime) -> Result<(), Fail> {
    check_rows(
        &rt,
        rt.alloc(),
        "
        dst := x x.dword := y y.dword := z z.dword := b[31:0] END => signed 4 32
        dst := x x.dword := y z.dword := b[31:0] y.dword := z END => signed 4 32
        dst := x x.dword := t t := n n := b[31:0] END => unsigned 4 32
        dst := x x.dword := t ? t : b[31:0] t := b[31:0] END => signed 4 32
        dst := x x.dword := a[0] ? t : 1 t := b[31:0] END => unsigned 4 32
        dst := x x.dword := t + b.byte t := b[31:0] END => signed 4 32
        dst := x x.dword := y y.dword := x END => unsigned 4 32
        dst := x x.dword := y y.dword := x y.dword := b[31:0] END => signed 4 32
        dst := x FOR b := 0 to 1 x.dword := b ENDFOR END => unsigned 4 32
        ",
    )
}

#[test]
fn number_variables_are_unsigned(rt: HostRuntime) -> Result<(), Fail> {
    check_rows(
        &rt,
        rt.alloc(),
        "
        dst := x v := b[31:0] x.dword := v END => unsigned 4 32
        dst := x v := b[7:0] x.byte := v END => unsigned 4 8
        dst := x v := b[7:0] x.word := v + 1 END => unsigned 4 16
        dst := x v := Signed(b[7:0]) x.byte := NOT v END => unsigned 4 8
        dst := x FOR v := 0 to 1 x.byte := v ENDFOR v := b[7:0] END => unsigned 4 8
        dst := x x.byte := v.byte v.byte := b[7:0] END => signed 4 8
        ",
    )
}

/// Whether a body has registers of these widths, so many of them parameters, and so many number
/// variables.
fn counts(body: &Body, widths: &[u128], parameters: usize, numbers: usize) -> bool {
    body.widths.as_slice() == widths && body.parameters == parameters && body.numbers == numbers
}

#[test]
fn registers_and_variables_are_counted(rt: HostRuntime) -> Result<(), Fail> {
    let operation = resolved(
        &rt,
        rt.alloc(),
        "DEFINE f(x[31:0], y) { z[7:0] := 1 t := 2 RETURN x + t } n := 1 r[0] := n m := f(n, r[7:0]) dst := m END",
    )?;
    assert!(rt; operation.result == 3 && counts(&operation.body, &[128, 128, 8, 128, 512], 3, 2));
    let function = operation.functions.as_slice().first().ok_or("a DEFINE")?;
    assert!(rt; counts(&function.body, &[32, 512, 512], 2, 1));
    Ok(())
}
