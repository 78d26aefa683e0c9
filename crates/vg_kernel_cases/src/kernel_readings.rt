//! Texts that are kernels: what is read, and what it costs.

ghost use Rattle.std.specs.Prelude.{IfOk};
ghost use Rattle.vg_kernel.specs.Tree.{tree_of};
ghost use Rattle.vg_kernel.specs.WellFormed.{IsWellFormed};

use std::alloc::Global;
use std::fmt::Debug;
use std::process::Abort;
use std::test::Fail;
use vg_base::{Address, Width};
use vg_kernel::{KExpr, KParamKind, KStmt, Kernel, parse_kernel, scalar_cost};

const HEAD: &str = "kernel t(p: ptr, a: i8, q: noalias ptr, b: i16, c: i32, d: i64) { ";

/// The kernel with this between its braces.
fn read(alloc: Global, body: &str) -> Result<Kernel, Fail>
    ensures { IfOk result (λ k. IsWellFormed (tree_of k)) }
{
    let mut text = Vec::from_slice(alloc, HEAD.as_bytes())?;
    text.extend_from_slice(body.as_bytes())?;
    text.push(b'}')?;
    match parse_kernel(alloc, text.as_slice()) {
        Ok(kernel) => Ok(kernel),
        Err(_) => Err("a kernel is refused".into()),
    }
}

/// Writes an opening parenthesis, an operation and its width.
fn open(to: &mut String, op: &impl Debug, width: Width) -> Result<(), Fail> {
    write!(to, "({op:?}{}", width.bits())?;
    Ok(())
}

/// Writes the same of an operation on a number of another width.
fn open_resize(to: &mut String, op: &impl Debug, width: Width, from: Width) -> Result<(), Fail> {
    write!(to, "({op:?}{}<{}", width.bits(), from.bits())?;
    Ok(())
}

fn open_select(to: &mut String, width: Width) -> Result<(), Fail> {
    write!(to, "(Select{}", width.bits())?;
    Ok(())
}

fn spell_numbered(to: &mut String, letter: char, number: u32) -> Result<(), Fail> {
    write!(to, "{letter}{number}")?;
    Ok(())
}

fn spell_literal(to: &mut String, number: u64, width: Width) -> Result<(), Fail> {
    write!(to, "{number}i{}", width.bits())?;
    Ok(())
}

/// Writes the amount of a shift and a closing parenthesis.
fn spell_amount(to: &mut String, amount: u32) -> Result<(), Fail> {
    write!(to, " {amount})")?;
    Ok(())
}

/// Writes the pointer, the offset and the width of an access.
fn spell_place(to: &mut String, place: &Address, width: Width) -> Result<(), Fail> {
    write!(to, "{}{:+}:{}", place.pointer, place.offset, width.bits())?;
    Ok(())
}

/// Writes an expression, each operation with its width before its operands; `a2` is the integer
/// parameter 2, `n1` the name that a statement gave as number 1, `1-5:16` the 16 bits at pointer
/// 1, 5 bytes below.
#[cycle(expression)]
fn spell(to: &mut String, expression: &KExpr) -> Result<(), Fail> {
    match expression {
        KExpr::Argument { number, .. } => spell_numbered(to, 'a', *number),
        KExpr::Assigned { number, .. } => spell_numbered(to, 'n', *number),
        KExpr::Literal { width, number } => spell_literal(to, *number, *width),
        KExpr::Load { width, address } => spell_place(to, address, *width),
        KExpr::Two {
            op,
            width,
            left,
            right,
        } => {
            open(to, op, *width)?;
            spell_operand(to, left)?;
            spell_last_operand(to, right)
        }
        KExpr::Shift {
            op,
            width,
            amount,
            operand,
        } => {
            open(to, op, *width)?;
            spell_operand(to, operand)?;
            spell_amount(to, *amount)
        }
        KExpr::Resize {
            op,
            width,
            from,
            operand,
        } => {
            open_resize(to, op, *width, *from)?;
            spell_last_operand(to, operand)
        }
        KExpr::Compare {
            op,
            width,
            left,
            right,
        } => {
            open(to, op, *width)?;
            spell_operand(to, left)?;
            spell_last_operand(to, right)
        }
        KExpr::Select {
            width,
            condition,
            first,
            second,
        } => {
            open_select(to, *width)?;
            spell_operand(to, condition)?;
            spell_operand(to, first)?;
            spell_last_operand(to, second)
        }
    }
}

/// Writes a space and an operand.
#[cycle(expression)]
fn spell_operand(to: &mut String, operand: &KExpr) -> Result<(), Fail> {
    to.push(' ')?;
    spell(to, operand)
}

/// Writes a space, an operand and a closing parenthesis.
#[cycle(expression)]
fn spell_last_operand(to: &mut String, operand: &KExpr) -> Result<(), Fail> {
    spell_operand(to, operand)?;
    to.push(')')?;
    Ok(())
}

fn spell_statement(to: &mut String, statement: &KStmt) -> Result<(), Fail> {
    match statement {
        KStmt::Assign { value } => spell(to, value),
        KStmt::Store {
            width,
            address,
            value,
        } => {
            spell_place(to, address, *width)?;
            to.push_str(" = ")?;
            spell(to, value)
        }
    }
}

fn spell_last_statement(to: &mut String, kernel: &Kernel) -> Result<(), Fail> {
    match kernel.statements.as_slice().last() {
        Some(last) => spell_statement(to, last),
        None => Err("a statement is missing".into()),
    }
}

/// A row is statements, an arrow, and what the last of them is read as.
fn check_reading(rt: &impl Abort, alloc: Global, row: &str) -> Result<(), Fail> {
    let Some((body, tree)) = row.trim().split_once(" => ") else {
        return Err("an arrow is missing".into());
    };
    let kernel = read(alloc, body)?;
    let mut found = String::new(alloc);
    spell_last_statement(&mut found, &kernel)?;
    assert!(rt; found.as_str() == tree, "{row}");
    Ok(())
}

fn check_readings(rt: &impl Abort, alloc: Global, rows: &str) -> Result<(), Fail> {
    for row in rows.trim().lines() {
        check_reading(rt, alloc, row)?;
    }
    Ok(())
}

#[test]
fn operators_bind_by_their_levels_and_nest_to_the_left(rt: HostRuntime) -> Result<(), Fail> {
    check_readings(
        &rt,
        rt.alloc(),
        "
        x = a + a * a; => (Add8 a0 (Mul8 a0 a0))
        x = a * a + a; => (Add8 (Mul8 a0 a0) a0)
        x = (a + a) * a; => (Mul8 (Add8 a0 a0) a0)
        x = a - a - a; => (Sub8 (Sub8 a0 a0) a0)
        x = a - a + a; => (Add8 (Sub8 a0 a0) a0)
        x = a - (a - a); => (Sub8 a0 (Sub8 a0 a0))
        x = a * a * a; => (Mul8 (Mul8 a0 a0) a0)
        x = a & a & a; => (And8 (And8 a0 a0) a0)
        x = a ^ a ^ a; => (Xor8 (Xor8 a0 a0) a0)
        x = a | a | a; => (Or8 (Or8 a0 a0) a0)
        x = a | a ^ a & a - a * a; => (Or8 a0 (Xor8 a0 (And8 a0 (Sub8 a0 (Mul8 a0 a0)))))
        x = a * a - a & a ^ a | a; => (Or8 (Xor8 (And8 (Sub8 (Mul8 a0 a0) a0) a0) a0) a0)
        x = a & a | a & a; => (Or8 (And8 a0 a0) (And8 a0 a0))
        x = a - -1i8; => (Sub8 a0 255i8)
        x = a -1i8; => (Sub8 a0 1i8)
        ",
    )
}

#[test]
fn operands_and_functions(rt: HostRuntime) -> Result<(), Fail> {
    check_readings(
        &rt,
        rt.alloc(),
        "
        x = a; => a0
        x = b; => a1
        x = d; => a3
        x = a; y = x; z = y; => n1
        x = 255i8; => 255i8
        x = -5i16; => 65531i16
        x = -128i8; => 128i8
        x = - 1i64; => 18446744073709551615i64
        x = -0i32; => 0i32
        x = 007i8; => 7i8
        x = load8(p); => 0+0:8
        x = load16(q - 5); => 1-5:16
        x = load64(q + 2147483647); => 1+2147483647:64
        x = shl(b, 3); => (Shl16 a1 3)
        x = lshr(c, 31); => (Lshr32 a2 31)
        x = ashr(d, 63); => (Ashr64 a3 63)
        x = sext64(a); => (Sext64<8 a0)
        x = zext16(a); => (Zext16<8 a0)
        x = trunc8(d); => (Trunc8<64 a3)
        x = eq(a, 1i8); => (Eq8 a0 1i8)
        x = slt(b, b); => (Slt16 a1 a1)
        x = ult(d, d); => (Ult64 a3 a3)
        x = smin(a, 1i8); => (Smin8 a0 1i8)
        x = smax(1i8, a); => (Smax8 1i8 a0)
        x = umin(c, c); => (Umin32 a2 a2)
        x = umax(c, c); => (Umax32 a2 a2)
        x = eq(a, a); y = select((x), a, 1i8); => (Select8 n0 a0 1i8)
        store16(q + 2, b + 1i16); => 1+2:16 = (Add16 a1 1i16)
        store8(p - 2147483648, a); => 0-2147483648:8 = a0
        ",
    )
}

/// Whether a kernel's parameter has this name, and is a pointer or an integer of this kind.
fn has_param(kernel: &Kernel, index: usize, name: &[u8], kind: KParamKind) -> bool {
    match kernel.params.as_slice().get(index) {
        Some(param) => param.name.bytes() == name && param.kind == kind,
        None => false,
    }
}

#[test]
fn parameters_in_order(rt: HostRuntime) -> Result<(), Fail> {
    let kernel = read(rt.alloc(), "// nothing\n")?;
    assert!(rt; kernel.name.bytes() == b"t".as_slice() && kernel.params.as_slice().len() == 6);
    for (index, name, kind) in [
        (0, "p", KParamKind::Pointer { noalias: false }),
        (1, "a", KParamKind::Integer(Width::W8)),
        (2, "q", KParamKind::Pointer { noalias: true }),
        (3, "b", KParamKind::Integer(Width::W16)),
        (4, "c", KParamKind::Integer(Width::W32)),
        (5, "d", KParamKind::Integer(Width::W64)),
    ] {
        assert!(rt; has_param(&kernel, index, name.as_bytes(), kind), "{name}");
    }
    Ok(())
}

/// A row is statements, an arrow, and what they cost.
fn check_cost(rt: &impl Abort, alloc: Global, row: &str) -> Result<(), Fail> {
    let Some((body, cost)) = row.trim().split_once("=> ") else {
        return Err("an arrow is missing".into());
    };
    let cost = cost.parse::<u32>()?;
    let kernel = read(alloc, body)?;
    assert!(rt; scalar_cost(&kernel) == cost, "{row}");
    Ok(())
}

#[test]
fn loads_operations_and_stores_cost_one(rt: HostRuntime) -> Result<(), Fail> {
    let rows = "
        => 0
        x = a; => 0
        x = ((a)); y = -5i8; => 0
        x = a + a; => 1
        store8(p, a); => 1
        store8(p, load8(q)); => 2
        x = sext16(shl(a, 1)); => 2
        x = select(eq(a, a), smin(a, a), load8(p)); => 4
        x = load8(p) + load8(p); store8(q, x); store8(q + 1, x); => 5
    ";
    for row in rows.trim().lines() {
        check_cost(&rt, rt.alloc(), row)?;
    }
    Ok(())
}
