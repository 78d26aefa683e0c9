//! Operations as they were read, written with each operator before its operands.

use std::fmt::Debug;
use std::test::Fail;
use vg_base::{Name, Width};
use vg_pseudo::{Arguments, Define, DefineParam, Expr, Stmt};

fn spell_name(to: &mut String, name: &Name) -> Result<(), Fail> {
    match std::str::from_utf8(name.bytes()) {
        Ok(text) => Ok(to.push_str(text)?),
        Err(_) => Err("a name is no text".into()),
    }
}

fn spell_number(to: &mut String, number: u128) -> Result<(), Fail> {
    write!(to, "{number}")?;
    Ok(())
}

/// Writes a name and a size of elements, by their bits.
fn spell_part(to: &mut String, name: &Name, size: Width) -> Result<(), Fail> {
    spell_name(to, name)?;
    write!(to, ".{size:?}")?;
    Ok(())
}

/// Writes an opening parenthesis, an operator and a space.
fn open(to: &mut String, op: &impl Debug) -> Result<(), Fail> {
    write!(to, "({op:?} ")?;
    Ok(())
}

/// Writes an expression. Sizes of elements are by their bits, as `a.W8[1]`.
#[cycle(expression)]
pub fn spell(to: &mut String, expression: &Expr) -> Result<(), Fail> {
    match expression {
        Expr::Number { value, .. } => spell_number(to, *value),
        Expr::Name { name, .. } => spell_name(to, name),
        Expr::Part { name, size, .. } => spell_part(to, name, *size),
        Expr::Slice {
            name,
            high,
            low,
            ..
        } => {
            spell_name(to, name)?;
            spell_between(to, "[", high, ":")?;
            spell_between(to, "", low, "]")
        }
        Expr::Bit { name, index, .. } => {
            spell_name(to, name)?;
            spell_between(to, "[", index, "]")
        }
        Expr::Element {
            name,
            size,
            index,
            ..
        } => {
            spell_part(to, name, *size)?;
            spell_between(to, "[", index, "]")
        }
        Expr::Unary { op, operand, .. } => {
            open(to, op)?;
            spell_between(to, "", operand, ")")
        }
        Expr::Binary {
            op,
            left,
            right,
            ..
        } => {
            open(to, op)?;
            spell_between(to, "", left, " ")?;
            spell_between(to, "", right, ")")
        }
        Expr::Choice {
            condition,
            first,
            second,
            ..
        } => {
            spell_between(to, "(", condition, " ? ")?;
            spell_between(to, "", first, " : ")?;
            spell_between(to, "", second, ")")
        }
        Expr::Call {
            name,
            arguments,
            ..
        } => {
            spell_name(to, name)?;
            to.push('(')?;
            spell_arguments(to, arguments)
        }
    }
}

/// Writes an expression with these texts before and after it.
#[cycle(expression)]
fn spell_between(
    to: &mut String,
    before: &str,
    expression: &Expr,
    after: &str,
) -> Result<(), Fail> {
    to.push_str(before)?;
    spell(to, expression)?;
    to.push_str(after)?;
    Ok(())
}

/// Writes arguments, each with a comma after it, and a closing parenthesis.
#[cycle(expression)]
fn spell_arguments(to: &mut String, arguments: &Arguments) -> Result<(), Fail> {
    match arguments {
        Arguments::End => Ok(to.push(')')?),
        Arguments::More { argument, rest } => {
            spell_between(to, "", argument, ",")?;
            spell_arguments(to, rest)
        }
    }
}

/// Writes `first := second; `.
fn spell_assignment(to: &mut String, first: &Expr, second: &Expr) -> Result<(), Fail> {
    spell_between(to, "", first, " := ")?;
    spell_between(to, "", second, "; ")
}

/// Writes `above name low := value; `.
fn spell_assignment_above(
    to: &mut String,
    name: &Name,
    low: &Expr,
    value: &Expr,
) -> Result<(), Fail> {
    to.push_str("above ")?;
    spell_name(to, name)?;
    to.push(' ')?;
    spell_assignment(to, low, value)
}

/// Writes `for variable first last`.
fn spell_head_of_loop(
    to: &mut String,
    variable: &Name,
    first: &Expr,
    last: &Expr,
) -> Result<(), Fail> {
    to.push_str("for ")?;
    spell_name(to, variable)?;
    spell_between(to, " ", first, " ")?;
    spell(to, last)
}

/// Writes statements, the lists inside of them in braces.
#[cycle(statements)]
pub fn spell_statements(to: &mut String, statements: &Stmt) -> Result<(), Fail> {
    match statements {
        Stmt::End => Ok(()),
        Stmt::Assign {
            target,
            value,
            rest,
            ..
        } => {
            spell_assignment(to, target, value)?;
            spell_statements(to, rest)
        }
        Stmt::AssignAbove {
            name,
            low,
            value,
            rest,
            ..
        } => {
            spell_assignment_above(to, name, low, value)?;
            spell_statements(to, rest)
        }
        Stmt::For {
            variable,
            first,
            last,
            body,
            rest,
            ..
        } => {
            spell_head_of_loop(to, variable, first, last)?;
            spell_list(to, body)?;
            spell_statements(to, rest)
        }
        Stmt::If { ways, rest } => {
            spell_list(to, ways)?;
            spell_statements(to, rest)
        }
        Stmt::Way {
            condition,
            body,
            ways,
        } => {
            spell_between(to, "if ", condition, "")?;
            spell_list(to, body)?;
            spell_statements(to, ways)
        }
        Stmt::Else { body } => spell_list(to, body),
        Stmt::Case {
            selector,
            arms,
            rest,
        } => {
            spell_between(to, "case ", selector, "")?;
            spell_list(to, arms)?;
            spell_statements(to, rest)
        }
        Stmt::Arm { number, body, arms } => {
            spell_number(to, *number)?;
            spell_list(to, body)?;
            spell_statements(to, arms)
        }
    }
}

/// Writes a list of statements in braces.
#[cycle(statements)]
fn spell_list(to: &mut String, statements: &Stmt) -> Result<(), Fail> {
    to.push_str("{ ")?;
    spell_statements(to, statements)?;
    to.push_str("} ")?;
    Ok(())
}

/// Writes a parameter of a DEFINE, with the number of its highest bit where it has one.
fn spell_param(to: &mut String, param: &DefineParam) -> Result<(), Fail> {
    spell_name(to, &param.name)?;
    match param.high {
        Some(high) => write!(to, "[{high}],")?,
        None => to.push(',')?,
    }
    Ok(())
}

/// Writes DEFINEs, each as its name, its parameters, `RETURN` and its answer.
pub fn spell_defines(to: &mut String, defines: &[Define]) -> Result<(), Fail> {
    for define in defines {
        spell_define(to, define)?;
    }
    Ok(())
}

fn spell_define(to: &mut String, define: &Define) -> Result<(), Fail> {
    spell_name(to, &define.name)?;
    to.push('(')?;
    for param in define.params.as_slice() {
        spell_param(to, param)?;
    }
    spell_between(to, ") RETURN ", &define.answer, "; ")
}
