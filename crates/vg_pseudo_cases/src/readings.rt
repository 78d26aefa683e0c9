//! What is read of an operation.

use crate::operation_texts::read;
use crate::spelling::{spell, spell_defines, spell_statements};
use std::alloc::Global;
use std::process::Abort;
use std::test::Fail;
use vg_pseudo::{Expr, Stmt};
use vg_text::Place;

/// The two columns of a row, which an arrow stands between.
fn columns(row: &str) -> Result<(&str, &str), Fail> {
    match row.trim().split_once(" => ") {
        Some(columns) => Ok(columns),
        None => Err("an arrow is missing".into()),
    }
}

/// The value of the assignment with which statements begin.
fn assigned(statements: &Stmt) -> Result<&Expr, Fail> {
    match statements {
        Stmt::Assign { value, .. } => Ok(value),
        _ => Err("an assignment is missing".into()),
    }
}

/// Asserts what an expression is read as.
fn check_expression(rt: &impl Abort, alloc: Global, text: &str, tree: &str) -> Result<(), Fail> {
    let whole = format!(in alloc; "x := {text} END")?;
    let operation = read(rt, alloc, whole.as_bytes())?;
    check_tree(rt, alloc, assigned(&operation.body)?, tree)
}

/// Asserts how an expression is spelled.
fn check_tree(rt: &impl Abort, alloc: Global, value: &Expr, tree: &str) -> Result<(), Fail> {
    let mut found = String::new(alloc);
    spell(&mut found, value)?;
    assert!(rt; found.as_str() == tree, "{tree}");
    Ok(())
}

/// Each line is an expression, an arrow, and what it is read as.
fn check_each_expression(rt: &impl Abort, alloc: Global, rows: &str) -> Result<(), Fail> {
    for row in rows.trim().lines() {
        let (text, tree) = columns(row)?;
        check_expression(rt, alloc, text, tree)?;
    }
    Ok(())
}

/// Asserts what statements are read as; a space after the last of them is not told.
fn check_statements(rt: &impl Abort, alloc: Global, text: &str, tree: &str) -> Result<(), Fail> {
    let whole = format!(in alloc; "{text} END")?;
    let operation = read(rt, alloc, whole.as_bytes())?;
    let mut found = String::new(alloc);
    spell_statements(&mut found, &operation.body)?;
    assert!(rt; found.as_str().trim_end() == tree, "{text}");
    Ok(())
}

/// Each line is statements, an arrow, and what they are read as.
fn check_each_statements(rt: &impl Abort, alloc: Global, rows: &str) -> Result<(), Fail> {
    for row in rows.trim().lines() {
        let (text, tree) = columns(row)?;
        check_statements(rt, alloc, text, tree)?;
    }
    Ok(())
}

#[test]
fn operators_bind_by_their_levels_and_nest_to_the_left(rt: HostRuntime) -> Result<(), Fail> {
    check_each_expression(
        &rt,
        rt.alloc(),
        "
        a OR b XOR c => (Or a (Xor b c))
        a XOR b AND c => (Xor a (And b c))
        a AND b XOR c => (Xor (And a b) c)
        a AND b == c => (And a (Equal b c))
        a == b << c => (Equal a (ShiftLeft b c))
        a << b + c => (ShiftLeft a (Add b c))
        a + b * c => (Add a (Multiply b c))
        a * b + c => (Add (Multiply a b) c)
        a - b - c => (Subtract (Subtract a b) c)
        a - b + c => (Add (Subtract a b) c)
        a >> b >> c => (ShiftRight (ShiftRight a b) c)
        a >> b << c => (ShiftLeft (ShiftRight a b) c)
        a * -b => (Multiply a (Negate b))
        -a * b => (Multiply (Negate a) b)
        NOT a + b => (Add (Not a) b)
        NOT -NOT a => (Not (Negate (Not a)))
        (a < b) == (c < d) => (Equal (Less a b) (Less c d))
        a >= b AND c <= d => (And (GreaterOrEqual a b) (LessOrEqual c d))
        a != b OR c > d => (Or (NotEqual a b) (Greater c d))
        a ? b : c ? d : e => (a ? b : (c ? d : e))
        a ? b ? c : d : e => (a ? (b ? c : d) : e)
        a OR b ? c + d : e => ((Or a b) ? (Add c d) : e)
        (a ? b : c) + d => (Add (a ? b : c) d)
        ",
    )
}

#[test]
fn operands_and_functions(rt: HostRuntime) -> Result<(), Fail> {
    check_each_expression(
        &rt,
        rt.alloc(),
        "
        0x1F => 31
        0017 => 17
        170141183460469231731687303715884105727 => 170141183460469231731687303715884105727
        a[7:0] => a[7:0]
        a[i+7:i] => a[(Add i 7):i]
        a[7] => a[7]
        a[(b ? 1 : 2):0] => a[(b ? 1 : 2):0]
        a[MAX(1,2):0] => a[(Maximum 1 2):0]
        a.byte => a.W8
        a.qword[1 OR 2] => a.W64[(Or 1 2)]
        byte.word[word] => byte.W16[word]
        ABS(a) => (Absolute a)
        Signed(a.dword) => (Signed a.W32)
        SignExtend32(a) => (SignExtend(W32) a)
        ZeroExtend8(a) => (ZeroExtend(W8) a)
        Saturate16(a) => (Saturate(W16) a)
        SaturateU16(a) => (SaturateUnsigned(W16) a)
        Truncate64(a) => (Truncate(W64) a)
        MIN(a, b ? c : d) => (Minimum a (b ? c : d))
        MAX(a, b) => (Maximum a b)
        f(1, a[0], g(2)) => f(1,a[0],g(2,),)
        Truncate(a, b) => Truncate(a,b,)
        f + f(f) => (Add f f(f,))
        ",
    )
}

#[test]
fn statements_and_their_lists(rt: HostRuntime) -> Result<(), Fail> {
    check_statements(&rt, rt.alloc(), "", "")?;
    check_each_statements(
        &rt,
        rt.alloc(),
        "
        x := 1 y := 2 => x := 1; y := 2;
        x[MAX:0] := 1 => above x 0 := 1;
        x[MAX(1,2):0] := 1 => x[(Maximum 1 2):0] := 1;
        x.word[2] := 1 => x.W16[2] := 1;
        x.word := 1 => x.W16 := 1;
        x[3] := 1 => x[3] := 1;
        FOR j := 0 to 3 x := j ENDFOR y := 1 => for j 0 3{ x := j; } y := 1;
        FOR a := a to a a := a ENDFOR => for a a a{ a := a; }
        IF a FI => { if a{ } { } }
        IF a x := 1 FI y := 2 => { if a{ x := 1; } { } } y := 2;
        IF a x := 1 ELSE y := 2 FI => { if a{ x := 1; } { y := 2; } }
        IF a x := 1 ELSE IF b y := 2 ELSE IF c ELSE z := 3 FI => { if a{ x := 1; } if b{ y := 2; } if c{ } { z := 3; } }
        IF a ELSE x := 1 IF b FI FI => { if a{ } { x := 1; { if b{ } { } } } }
        CASE a OF ESAC => case a{ }
        CASE a OF 0: x := 1 0x1: 1: y := 2 ESAC z := 3 => case a{ 0{ x := 1; } 1{ } 1{ y := 2; } } z := 3;
        ",
    )
}

/// Whether an expression stands in the first line, with its parentheses and inside of them at these
/// columns.
fn stands_at(value: &Expr, outer: u32, inner: u32) -> bool {
    let spot = value.spot();
    let outer = Place {
        line: 1,
        column: outer,
    };
    let inner = Place {
        line: 1,
        column: inner,
    };
    spot.outer == outer && spot.inner == inner
}

/// A row is an assignment, an arrow, and the columns of the first token of its value, with the
/// parentheses and inside of them.
fn check_spot(rt: &impl Abort, alloc: Global, row: &str) -> Result<(), Fail> {
    let (text, spot) = columns(row)?;
    let Some((outer, inner)) = spot.split_once(' ') else {
        return Err("a column is missing".into());
    };
    let (outer, inner) = (outer.parse::<u32>()?, inner.parse::<u32>()?);
    let operation = read(rt, alloc, text.as_bytes())?;
    assert!(rt;
        stands_at(assigned(&operation.body)?, outer, inner),
        "{row}"
    );
    Ok(())
}

#[test]
fn where_expressions_stand(rt: HostRuntime) -> Result<(), Fail> {
    let rows = "
        x := a + b END => 6 6
        x := (a + b) END => 6 7
        x := ((a + b)) END => 6 8
        x := (a) + b END => 6 6
        x := ((a) + b) END => 6 7
        x := (a) ? b : c END => 6 6
        x := ( a[0] ) END => 6 8
        x := NOT (a) END => 6 6
        x := (f(1)) END => 6 7
    ";
    for row in rows.trim().lines() {
        check_spot(&rt, rt.alloc(), row)?;
    }
    Ok(())
}

#[test]
fn defines_in_order(rt: HostRuntime) -> Result<(), Fail> {
    let text = b"DEFINE f(a, b[7:0x0]) { x := a RETURN x } \
        DEFINE f(a) { RETURN f(a, 1) } x := f(2) END";
    let operation = read(&rt, rt.alloc(), text)?;
    let mut found = String::new(rt.alloc());
    spell_defines(&mut found, operation.defines.as_slice())?;
    assert!(rt; found.as_str() == "f(a,b[7],) RETURN x; f(a,) RETURN f(a,1,); ");
    Ok(())
}
