//! The names of a body that stand with brackets or with an element.

ghost use Rattle.std.specs.Prelude.{◌≡◌, ◌∷◌, map, OnOk};
ghost use Rattle.vg_pseudo.specs.Tree.{expression_of, arguments_of, statements_of};
ghost use Rattle.vg_names.specs.Marks.{with_seen, marked, all_marked, marked_in, first_marked};

use crate::assignments::{around, behind, has_name};
use crate::names::Names;
use std::alloc::{AllocError, Global};
use vg_base::Name;
use vg_pseudo::{Arguments, Expr, Stmt};

/// A name that stands with brackets or an element, where no FOR around it hides the name.
fn mark_name(
    alloc: Global,
    turns: &[&[u8]],
    name: &Name,
    names: &mut Names,
) -> Result<(), AllocError>
    ensures { OnOk result (names.new ≡ with_seen (map (λ t. t.now) turns.now) name.now names.old) }
{
    if has_name(turns, name.bytes()) {
        return Ok(());
    }
    names.add(alloc, name.bytes())
}

/// Marks the names of an expression that stand with brackets or with an element.
#[cycle(marks)]
pub(crate) fn mark(
    alloc: Global,
    turns: &[&[u8]],
    expr: &Expr,
    names: &mut Names,
) -> Result<(), AllocError>
    ensures { OnOk result (names.new ≡ marked (map (λ t. t.now) turns.now) (expression_of expr.now)
        names.old) }
{
    match expr {
        Expr::Number { .. } => Ok(()),
        Expr::Name { .. } => Ok(()),
        Expr::Slice {
            name,
            high,
            low,
            ..
        } => {
            mark_name(alloc, turns, name, names)?;
            mark(alloc, turns, high, names)?;
            mark(alloc, turns, low, names)
        }
        Expr::Bit { name, index, .. } => {
            mark_name(alloc, turns, name, names)?;
            mark(alloc, turns, index, names)
        }
        Expr::Element { name, index, .. } => {
            mark_name(alloc, turns, name, names)?;
            mark(alloc, turns, index, names)
        }
        Expr::Part { name, .. } => mark_name(alloc, turns, name, names),
        Expr::Unary { operand, .. } => mark(alloc, turns, operand, names),
        Expr::Binary { left, right, .. } => {
            mark(alloc, turns, left, names)?;
            mark(alloc, turns, right, names)
        }
        Expr::Choice {
            condition,
            first,
            second,
            ..
        } => {
            mark(alloc, turns, condition, names)?;
            mark(alloc, turns, first, names)?;
            mark(alloc, turns, second, names)
        }
        Expr::Call { arguments, .. } => mark_all(alloc, turns, arguments, names),
    }
}

/// Marks those names of arguments, along the list in a loop.
#[cycle(marks)]
fn mark_all(
    alloc: Global,
    turns: &[&[u8]],
    arguments: &Arguments,
    names: &mut Names,
) -> Result<(), AllocError>
    ensures { OnOk result (names.new ≡ all_marked (map (λ t. t.now) turns.now) (arguments_of
        arguments.now) names.old) }
{
    let mut left = arguments;
    'arguments: while let Arguments::More { argument, rest } = left {
        match mark(alloc, turns, argument, names) {
            Ok(()) => left = rest,
            Err(error) => return Err(error),
        }
    }
    Ok(())
}

/// Those of statements inside FORs over these variables, along the list in a loop.
#[cycle(marks_in)]
pub(crate) fn mark_in<'a>(
    alloc: Global,
    turns: &[&'a [u8]],
    code: &'a Stmt,
    names: &mut Names,
) -> Result<(), AllocError>
    ensures { OnOk result (names.new ≡ marked_in (map (λ t. t.now) turns.now) (statements_of
        code.now) names.old) }
{
    let mut left = code;
    'statements: loop {
        mark_first(alloc, turns, left, names)?;
        match behind(left) {
            Some(rest) => left = rest,
            None => return Ok(()),
        }
    }
}

/// Those of the first statement of these.
#[cycle(marks_in)]
fn mark_first<'a>(
    alloc: Global,
    turns: &[&'a [u8]],
    code: &'a Stmt,
    names: &mut Names,
) -> Result<(), AllocError>
    ensures { OnOk result (names.new ≡ first_marked (map (λ t. t.now) turns.now) (statements_of
        code.now) names.old) }
{
    match code {
        Stmt::End => Ok(()),
        Stmt::Assign { target, value, .. } => {
            mark(alloc, turns, target, names)?;
            mark(alloc, turns, value, names)
        }
        Stmt::AssignAbove {
            name,
            low,
            value,
            ..
        } => {
            mark_name(alloc, turns, name, names)?;
            mark(alloc, turns, low, names)?;
            mark(alloc, turns, value, names)
        }
        Stmt::For {
            variable,
            first,
            last,
            body,
            ..
        } => {
            mark(alloc, turns, first, names)?;
            mark(alloc, turns, last, names)?;
            mark_inside(alloc, turns, variable, body, names)
        }
        Stmt::If { ways, .. } => mark_in(alloc, turns, ways, names),
        Stmt::Way {
            condition,
            body,
            ..
        } => {
            mark(alloc, turns, condition, names)?;
            mark_in(alloc, turns, body, names)
        }
        Stmt::Else { .. } => Ok(()),
        Stmt::Case { selector, arms, .. } => {
            mark(alloc, turns, selector, names)?;
            mark_in(alloc, turns, arms, names)
        }
        Stmt::Arm { body, .. } => mark_in(alloc, turns, body, names),
    }
}

/// Those of the body of a FOR.
#[cycle(marks_in)]
fn mark_inside<'a>(
    alloc: Global,
    turns: &[&'a [u8]],
    variable: &'a Name,
    body: &'a Stmt,
    names: &mut Names,
) -> Result<(), AllocError>
    ensures { OnOk result (names.new ≡ marked_in (variable.now ∷ map (λ t. t.now) turns.now)
        (statements_of body.now) names.old) }
{
    let around = around(alloc, turns, variable)?;
    mark_in(alloc, around.as_slice(), body, names)
}
