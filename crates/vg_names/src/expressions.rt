//! Expressions with their names resolved.

ghost use Rattle.std.specs.Prelude.{◌≡◌, ◌<◌, Ok, map, IfOk, IfSome};
ghost use Rattle.std.specs.Option.{option_map};
ghost use Rattle.vg_base.specs.Width.{bits_of};
ghost use Rattle.vg_pseudo.specs.declared.expression.Arguments.{size-Arguments};
ghost use Rattle.vg_pseudo.specs.Tree.{expression_of, arguments_of};
ghost use Rattle.vg_pseudo.specs.Tree as tree;
ghost use Rattle.vg_pseudo.specs.Resolve.{read_name, register_of, resolved, all_resolved};
ghost use Rattle.vg_pseudo.specs.Resolved.{end};
ghost use Rattle.vg_names.specs.Naming.{Gives, list_behind, next_argument_of};
ghost use Rattle.vg_names.specs.Registers.{register_view};
ghost use Rattle.vg_names.specs.Scopes.{meaning_view};
ghost use Rattle.vg_names.specs.Views.{expr_of, list_of};

use crate::name_fault::NameFault;
use crate::registers::Register;
use crate::resolved::{ResolvedArguments, ResolvedExpr};
use crate::same::spread;
use crate::scope::{Meaning, Scope};
use std::alloc::Global;
use vg_base::Width;
use vg_pseudo::{Arguments, BinaryOp, Expr, Spot, UnaryOp};
use vg_text::Place;

/// A bare name that is read.
fn read_name(spot: Spot, meaning: Meaning) -> Result<ResolvedExpr, NameFault>
    ensures { Gives expr_of result (read_name spot (meaning_view meaning.entry)) }
{
    match meaning {
        Meaning::Turn(turn) => Ok(ResolvedExpr::Counter { spot, turn }),
        Meaning::Variable(variable) => Ok(ResolvedExpr::Variable { spot, variable }),
        Meaning::Register(register, facts) => match facts.span {
            Some(size) => Ok(ResolvedExpr::Front {
                spot,
                is_signed: facts.signed_whole,
                register,
                size,
            }),
            None => Err(NameFault::BareRegister { place: spot.inner }),
        },
        Meaning::Nothing => Err(NameFault::UnknownName { place: spot.inner }),
    }
}

/// A register whose bits are read, with its number.
fn register_of<'a>(place: Place, meaning: Meaning<'a>) -> Result<(usize, &'a Register), NameFault>
    ensures { Gives (λ r. (r.0, register_view r.1.now)) result (register_of place (meaning_view
        meaning.entry)) }
{
    match meaning {
        Meaning::Register(register, facts) => Ok((register, facts)),
        _ => Err(NameFault::UnknownName { place }),
    }
}

/// An expression with its names resolved, or its first name that cannot be.
#[cycle(expressions)]
pub(crate) fn resolved(alloc: Global, scope: &Scope, expr: &Expr) -> Result<ResolvedExpr, NameFault>
    ensures { Gives expr_of result (resolved scope.now (expression_of expr.now)) }
{
    match expr {
        Expr::Number { spot, value } => Ok(ResolvedExpr::Literal {
            spot: *spot,
            value: *value,
        }),
        Expr::Name { spot, name } => read_name(*spot, scope.named(name.bytes())),
        Expr::Slice {
            spot,
            name,
            high,
            low,
        } => slice(alloc, scope, *spot, name.bytes(), high, low),
        Expr::Bit { spot, name, index } => bit(alloc, scope, *spot, name.bytes(), index),
        Expr::Element {
            spot,
            name,
            size,
            index,
        } => element(alloc, scope, *spot, name.bytes(), *size, index),
        Expr::Part { spot, name, size } => part(scope, *spot, name.bytes(), *size),
        Expr::Unary { spot, op, operand } => unary(alloc, scope, *spot, *op, operand),
        Expr::Binary {
            spot,
            op,
            left,
            right,
        } => binary(alloc, scope, *spot, *op, left, right),
        Expr::Choice {
            spot,
            condition,
            first,
            second,
        } => choice(alloc, scope, *spot, condition, first, second),
        Expr::Call {
            spot,
            name,
            arguments,
        } => call(alloc, scope, *spot, name.bytes(), arguments),
    }
}

/// `name[high:low]`
#[cycle(expressions)]
fn slice(
    alloc: Global,
    scope: &Scope,
    spot: Spot,
    name: &[u8],
    high: &Expr,
    low: &Expr,
) -> Result<ResolvedExpr, NameFault>
    ensures { Gives expr_of result (resolved scope.now (tree.slice spot name.now (expression_of
        high.now) (expression_of low.now))) }
{
    let (register, facts) = register_of(spot.inner, scope.named(name))?;
    let spread = spread(high, low);
    let high = Box::new(alloc, resolved(alloc, scope, high)?)?;
    let low = Box::new(alloc, resolved(alloc, scope, low)?)?;
    Ok(ResolvedExpr::Slice {
        spot,
        is_signed: facts.signed_slices,
        register,
        spread,
        high,
        low,
    })
}

/// `name[index]`
#[cycle(expressions)]
fn bit(
    alloc: Global,
    scope: &Scope,
    spot: Spot,
    name: &[u8],
    index: &Expr,
) -> Result<ResolvedExpr, NameFault>
    ensures { Gives expr_of result (resolved scope.now (tree.bit spot name.now (expression_of
        index.now))) }
{
    let (register, _) = register_of(spot.inner, scope.named(name))?;
    let index = Box::new(alloc, resolved(alloc, scope, index)?)?;
    Ok(ResolvedExpr::Element {
        spot,
        is_signed: false,
        register,
        size: 1,
        index,
    })
}

/// `name.elem[index]`
#[cycle(expressions)]
fn element(
    alloc: Global,
    scope: &Scope,
    spot: Spot,
    name: &[u8],
    size: Width,
    index: &Expr,
) -> Result<ResolvedExpr, NameFault>
    ensures { Gives expr_of result (resolved scope.now (tree.element spot name.now size
        (expression_of index.now))) }
{
    let (register, facts) = register_of(spot.inner, scope.named(name))?;
    let index = Box::new(alloc, resolved(alloc, scope, index)?)?;
    Ok(ResolvedExpr::Element {
        spot,
        is_signed: facts.signed_slices,
        register,
        size: size.bits(),
        index,
    })
}

/// `name.elem`
fn part(scope: &Scope, spot: Spot, name: &[u8], size: Width) -> Result<ResolvedExpr, NameFault>
    ensures { Gives expr_of result (resolved scope.now (tree.part spot name.now size)) }
{
    let (register, facts) = register_of(spot.inner, scope.named(name))?;
    Ok(ResolvedExpr::Front {
        spot,
        is_signed: facts.signed_whole,
        register,
        size: size.bits() as u128,
    })
}

/// An operator and its operand.
#[cycle(expressions)]
fn unary(
    alloc: Global,
    scope: &Scope,
    spot: Spot,
    op: UnaryOp,
    operand: &Expr,
) -> Result<ResolvedExpr, NameFault>
    ensures { Gives expr_of result (resolved scope.now (tree.unary spot op (expression_of
        operand.now))) }
{
    let operand = Box::new(alloc, resolved(alloc, scope, operand)?)?;
    Ok(ResolvedExpr::Unary { spot, op, operand })
}

/// An operator and its two operands.
#[cycle(expressions)]
fn binary(
    alloc: Global,
    scope: &Scope,
    spot: Spot,
    op: BinaryOp,
    left: &Expr,
    right: &Expr,
) -> Result<ResolvedExpr, NameFault>
    ensures { Gives expr_of result (resolved scope.now (tree.binary spot op (expression_of left.now)
        (expression_of right.now))) }
{
    let left = Box::new(alloc, resolved(alloc, scope, left)?)?;
    let right = Box::new(alloc, resolved(alloc, scope, right)?)?;
    Ok(ResolvedExpr::Binary {
        spot,
        op,
        left,
        right,
    })
}

/// `condition ? first : second`
#[cycle(expressions)]
fn choice(
    alloc: Global,
    scope: &Scope,
    spot: Spot,
    condition: &Expr,
    first: &Expr,
    second: &Expr,
) -> Result<ResolvedExpr, NameFault>
    ensures { Gives expr_of result (resolved scope.now (tree.choice spot
        (expression_of condition.now) (expression_of first.now) (expression_of second.now))) }
{
    let condition = Box::new(alloc, resolved(alloc, scope, condition)?)?;
    let first = Box::new(alloc, resolved(alloc, scope, first)?)?;
    let second = Box::new(alloc, resolved(alloc, scope, second)?)?;
    Ok(ResolvedExpr::Choice {
        spot,
        condition,
        first,
        second,
    })
}

/// A call of a DEFINE by its name.
#[cycle(expressions)]
fn call(
    alloc: Global,
    scope: &Scope,
    spot: Spot,
    name: &[u8],
    arguments: &Arguments,
) -> Result<ResolvedExpr, NameFault>
    ensures { Gives expr_of result (resolved scope.now (tree.call spot name.now (arguments_of
        arguments.now))) }
{
    let Some(function) = scope.function(name) else {
        return Err(NameFault::UnknownName { place: spot.inner });
    };
    let arguments = Box::new(alloc, all_resolved(alloc, scope, arguments)?)?;
    Ok(ResolvedExpr::Call {
        spot,
        function,
        arguments,
    })
}

/// The arguments of a call with their names resolved. Along the list in a loop, since it may be
/// long.
#[cycle(expressions)]
fn all_resolved(
    alloc: Global,
    scope: &Scope,
    arguments: &Arguments,
) -> Result<ResolvedArguments, NameFault>
    ensures { Gives list_of result (all_resolved scope.now (arguments_of arguments.now)) }
{
    let mut done = Vec::new(alloc);
    let mut left = arguments;
    'arguments: loop {
        match next_argument(alloc, scope, left) {
            Ok(None) => return linked(alloc, done),
            Ok(Some((first, rest))) => {
                done.push(first)?;
                left = rest;
            }
            Err(fault) => return Err(fault),
        }
    }
}

/// The first of these arguments and those after it, if there is one.
#[cycle(expressions)]
fn next_argument<'a>(
    alloc: Global,
    scope: &Scope,
    arguments: &'a Arguments,
) -> Result<Option<(ResolvedExpr, &'a Arguments)>, NameFault>
    ensures read { Gives (option_map (λ p. (expr_of p.0, arguments_of p.1.now))) result
        (next_argument_of scope.now (arguments_of arguments.now)) }
    ensures inside { IfOk result (λ o. IfSome o (λ p. size-Arguments p.1.now < size-Arguments
        arguments.now)) }
{
    match arguments {
        Arguments::End => Ok(None),
        Arguments::More { argument, rest } => Ok(Some((resolved(alloc, scope, argument)?, rest))),
    }
}

/// These arguments as a list.
fn linked(alloc: Global, mut done: Vec<ResolvedExpr>) -> Result<ResolvedArguments, NameFault>
    ensures { Gives list_of result (Ok (list_behind (map expr_of done.items) end)) }
{
    let mut list = ResolvedArguments::End;
    'arguments: while let Some(argument) = done.pop() {
        list = ResolvedArguments::More {
            argument: Box::new(alloc, argument)?,
            rest: Box::new(alloc, list)?,
        };
    }
    Ok(list)
}
