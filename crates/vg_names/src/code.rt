//! Statements with their names resolved.

ghost use Rattle.std.specs.Prelude.{◌<◌, IfOk, IfSome};
ghost use Rattle.std.specs.Option.{option_map};
ghost use Rattle.vg_pseudo.specs.Tree.{expression_of, statements_of};
ghost use Rattle.vg_pseudo.specs.Resolve.{code_of};
ghost use Rattle.vg_pseudo.specs.declared.statement.Stmt.{size-Stmt};
ghost use Rattle.vg_names.specs.Naming.{Gives};
ghost use Rattle.vg_names.specs.Pieces.{behind, next_of, assign_of, above_of, repeat_of, choose_of, way_of, pick_of, arm_of};
ghost use Rattle.vg_names.specs.Views.{code_view};

use crate::expressions::resolved;
use crate::name_fault::NameFault;
use crate::piece::{Piece, linked};
use crate::resolved::Code;
use crate::scope::Scope;
use crate::targets::{assigned_register, target_of};
use std::alloc::Global;
use vg_base::Name;
use vg_pseudo::{Expr, Stmt};
use vg_text::Place;

/// Statements with their names resolved, or their first name that cannot be. Along the list in a
/// loop, since it may be long.
#[cycle(code)]
pub(crate) fn code_of<'a>(
    alloc: Global,
    scope: &Scope<'a>,
    code: &'a Stmt,
) -> Result<Code, NameFault>
    ensures { Gives code_view result (code_of scope.now (statements_of code.now)) }
{
    let mut done = Vec::new(alloc);
    let mut left = code;
    'statements: loop {
        match next(alloc, scope, left) {
            Ok(None) => return linked(alloc, done),
            Ok(Some((piece, rest))) => {
                done.push(piece)?;
                left = rest;
            }
            Err(fault) => return Err(fault),
        }
    }
}

/// The first statement of these and what stands after it, if there is one.
#[cycle(code)]
fn next<'a>(
    alloc: Global,
    scope: &Scope<'a>,
    code: &'a Stmt,
) -> Result<Option<(Piece, &'a Stmt)>, NameFault>
    ensures read { Gives (option_map (λ p. (behind p.0, statements_of p.1.now))) result (next_of
        scope.now (statements_of code.now)) }
    ensures inside { IfOk result (λ o. IfSome o (λ p. size-Stmt p.1.now < size-Stmt code.now)) }
{
    match code {
        Stmt::End => Ok(None),
        Stmt::Assign {
            place,
            target,
            value,
            rest,
        } => Ok(Some((assign(alloc, scope, *place, target, value)?, rest))),
        Stmt::AssignAbove {
            place,
            name,
            low,
            value,
            rest,
        } => Ok(Some((above(alloc, scope, *place, name, low, value)?, rest))),
        Stmt::For {
            place,
            variable,
            first,
            last,
            body,
            rest,
        } => Ok(Some((
            repeat(alloc, scope, body, *place, variable, first, last)?,
            rest,
        ))),
        Stmt::If { ways, rest } => Ok(Some((choose(alloc, scope, ways)?, rest))),
        Stmt::Way {
            condition,
            body,
            ways,
        } => Ok(Some((way(alloc, scope, body, condition)?, ways))),
        Stmt::Else { body } => Ok(Some((Piece::Last, body))),
        Stmt::Case {
            selector,
            arms,
            rest,
        } => Ok(Some((pick(alloc, scope, arms, selector)?, rest))),
        Stmt::Arm { number, body, arms } => Ok(Some((arm(alloc, scope, *number, body)?, arms))),
    }
}

/// `target := value`
fn assign(
    alloc: Global,
    scope: &Scope,
    place: Place,
    target: &Expr,
    value: &Expr,
) -> Result<Piece, NameFault>
    ensures { Gives behind result (assign_of scope.now place (expression_of target.now)
        (expression_of value.now)) }
{
    let target = target_of(alloc, scope, place, target)?;
    let value = Box::new(alloc, resolved(alloc, scope, value)?)?;
    Ok(Piece::Assign {
        place,
        target,
        value,
    })
}

/// `name[MAX:low] := value`
fn above(
    alloc: Global,
    scope: &Scope,
    place: Place,
    name: &Name,
    low: &Expr,
    value: &Expr,
) -> Result<Piece, NameFault>
    ensures { Gives behind result (above_of scope.now place name.now (expression_of low.now)
        (expression_of value.now)) }
{
    let _register = assigned_register(place, scope.named(name.bytes()))?;
    let _low = resolved(alloc, scope, low)?;
    let _value = resolved(alloc, scope, value)?;
    Ok(Piece::Skip { place })
}

/// `FOR variable := first to last body ENDFOR`
#[cycle(code)]
fn repeat<'a>(
    alloc: Global,
    scope: &Scope<'a>,
    body: &'a Stmt,
    place: Place,
    variable: &'a Name,
    first: &Expr,
    last: &Expr,
) -> Result<Piece, NameFault>
    ensures { Gives behind result (repeat_of scope.now place variable.now (expression_of first.now)
        (expression_of last.now) (statements_of body.now)) }
{
    let first = Box::new(alloc, resolved(alloc, scope, first)?)?;
    let last = Box::new(alloc, resolved(alloc, scope, last)?)?;
    let turn = scope.inside(alloc, variable.bytes())?;
    let body = Box::new(alloc, code_of(alloc, &turn, body)?)?;
    Ok(Piece::Repeat {
        place,
        first,
        last,
        body,
    })
}

/// An IF by its ways.
#[cycle(code)]
fn choose<'a>(alloc: Global, scope: &Scope<'a>, ways: &'a Stmt) -> Result<Piece, NameFault>
    ensures { Gives behind result (choose_of scope.now (statements_of ways.now)) }
{
    let ways = Box::new(alloc, code_of(alloc, scope, ways)?)?;
    Ok(Piece::Choose { ways })
}

/// A way of an IF.
#[cycle(code)]
fn way<'a>(
    alloc: Global,
    scope: &Scope<'a>,
    body: &'a Stmt,
    condition: &Expr,
) -> Result<Piece, NameFault>
    ensures { Gives behind result (way_of scope.now (expression_of condition.now) (statements_of
        body.now)) }
{
    let condition = Box::new(alloc, resolved(alloc, scope, condition)?)?;
    let body = Box::new(alloc, code_of(alloc, scope, body)?)?;
    Ok(Piece::Way { condition, body })
}

/// A CASE by its arms.
#[cycle(code)]
fn pick<'a>(
    alloc: Global,
    scope: &Scope<'a>,
    arms: &'a Stmt,
    selector: &Expr,
) -> Result<Piece, NameFault>
    ensures { Gives behind result (pick_of scope.now (expression_of selector.now) (statements_of
        arms.now)) }
{
    let selector = Box::new(alloc, resolved(alloc, scope, selector)?)?;
    let arms = Box::new(alloc, code_of(alloc, scope, arms)?)?;
    Ok(Piece::Pick { selector, arms })
}

/// An arm of a CASE.
#[cycle(code)]
fn arm<'a>(
    alloc: Global,
    scope: &Scope<'a>,
    number: u128,
    body: &'a Stmt,
) -> Result<Piece, NameFault>
    ensures { Gives behind result (arm_of scope.now number (statements_of body.now)) }
{
    let body = Box::new(alloc, code_of(alloc, scope, body)?)?;
    Ok(Piece::Arm { number, body })
}
