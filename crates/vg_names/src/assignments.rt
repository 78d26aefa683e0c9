//! The assignments of a body.

ghost use Rattle.std.specs.Prelude.{◌≡◌, ◌<◌, ◌++◌, ◌∷◌, [], map, filter, OnOk, IfOk, IfSome};
ghost use Rattle.std.specs.List.{list_any};
ghost use Rattle.std.specs.Option.{option_map};
ghost use Rattle.std.specs.Str.{bytes_eq};
ghost use Rattle.vg_pseudo.specs.Names.{assignments, target_assigned, unhidden, has_name};
ghost use Rattle.vg_pseudo.specs.Tree.{expression_of, statements_of};
ghost use Rattle.vg_pseudo.specs.declared.statement.Stmt.{size-Stmt};
ghost use Rattle.vg_names.specs.Assigned.{assignment_view, form_view, first_assigned, behind_first, is_local};

use crate::registers::Registers;
use std::alloc::{AllocError, Global};
use vg_base::{Name, Width};
use vg_pseudo::{Expr, Stmt};
use vg_text::byte::is_text;

/// How a name stands as the target of an assignment.
#[derive(Clone, Copy)]
pub(crate) enum Form {
    /// `name.elem`
    WholeElement(Width),
    Other,
}

/// An assignment to a name.
#[derive(Drop)]
pub(crate) struct Assignment<'a> {
    pub(crate) name: &'a [u8],
    pub(crate) form: Form,
    /// The variables of the FORs around it, innermost first.
    pub(crate) turns: Vec<&'a [u8]>,
    pub(crate) value: &'a Expr,
}

/// Whether a name is among these.
pub(crate) fn has_name(names: &[&[u8]], name: &[u8]) -> bool
    ensures { result ≡ has_name (map (λ t. t.now) names.now) name.now }
{
    is_any(names, name)
}

fn is_any(names: &[&[u8]], name: &[u8]) -> bool
    ensures { result ≡ list_any (λ t. bytes_eq t.now name.now) names.now }
{
    names.iter().any(|other| is_text(other, name))
}

/// An assignment to a name that is not given, where no FOR around it hides the name.
fn unhidden<'a>(
    alloc: Global,
    given: &Registers,
    turns: &[&'a [u8]],
    name: &'a [u8],
    form: Form,
    value: &'a Expr,
    found: &mut Vec<Assignment<'a>>,
) -> Result<(), AllocError>
    ensures { OnOk result (map assignment_view found.new.items ≡ map assignment_view found.old.items
        ++ filter (is_local given.now) (unhidden (map (λ t. t.now) turns.now) name.now (form_view
        form) (expression_of value.now))) }
{
    if has_name(turns, name) | given.has(name) {
        return Ok(());
    }
    let turns = Vec::from_slice(alloc, turns)?;
    found.push(Assignment {
        name,
        form,
        turns,
        value,
    })?;
    Ok(())
}

/// An assignment by its target.
fn assigned<'a>(
    alloc: Global,
    given: &Registers,
    turns: &[&'a [u8]],
    target: &'a Expr,
    value: &'a Expr,
    found: &mut Vec<Assignment<'a>>,
) -> Result<(), AllocError>
    ensures { OnOk result (map assignment_view found.new.items ≡ map assignment_view found.old.items
        ++ filter (is_local given.now) (target_assigned (map (λ t. t.now) turns.now) (expression_of
        target.now) (expression_of value.now))) }
{
    match target {
        Expr::Name { name, .. } => unhidden(
            alloc,
            given,
            turns,
            name.bytes(),
            Form::Other,
            value,
            found,
        ),
        Expr::Slice { name, .. } => unhidden(
            alloc,
            given,
            turns,
            name.bytes(),
            Form::Other,
            value,
            found,
        ),
        Expr::Bit { name, .. } => unhidden(
            alloc,
            given,
            turns,
            name.bytes(),
            Form::Other,
            value,
            found,
        ),
        Expr::Element { name, .. } => {
            unhidden(alloc, given, turns, name.bytes(), Form::Other, value, found)
        }
        Expr::Part { name, size, .. } => unhidden(
            alloc,
            given,
            turns,
            name.bytes(),
            Form::WholeElement(*size),
            value,
            found,
        ),
        _ => Ok(()),
    }
}

/// The assignments of statements inside FORs over these variables, in the order of the text, but for
/// those to registers that are given. Along the list in a loop, since it may be long.
#[cycle(assignments)]
pub(crate) fn collect<'a>(
    alloc: Global,
    given: &Registers,
    turns: &[&'a [u8]],
    code: &'a Stmt,
    found: &mut Vec<Assignment<'a>>,
) -> Result<(), AllocError>
    ensures { OnOk result (map assignment_view found.new.items ≡ map assignment_view found.old.items
        ++ filter (is_local given.now) (assignments (map (λ t. t.now) turns.now) (statements_of
        code.now))) }
{
    let mut left = code;
    'statements: loop {
        first(alloc, given, turns, left, found)?;
        match behind(left) {
            Some(rest) => left = rest,
            None => return Ok(()),
        }
    }
}

/// The assignments of the first statement of these.
#[cycle(assignments)]
fn first<'a>(
    alloc: Global,
    given: &Registers,
    turns: &[&'a [u8]],
    code: &'a Stmt,
    found: &mut Vec<Assignment<'a>>,
) -> Result<(), AllocError>
    ensures { OnOk result (map assignment_view found.new.items ≡ map assignment_view found.old.items
        ++ filter (is_local given.now) (first_assigned (map (λ t. t.now) turns.now) (statements_of
        code.now))) }
{
    match code {
        Stmt::End => Ok(()),
        Stmt::Assign { target, value, .. } => assigned(alloc, given, turns, target, value, found),
        Stmt::AssignAbove { name, value, .. } => {
            unhidden(alloc, given, turns, name.bytes(), Form::Other, value, found)
        }
        Stmt::For { variable, body, .. } => inside(alloc, given, turns, variable, body, found),
        Stmt::If { ways, .. } => collect(alloc, given, turns, ways, found),
        Stmt::Way { body, .. } => collect(alloc, given, turns, body, found),
        Stmt::Else { .. } => Ok(()),
        Stmt::Case { arms, .. } => collect(alloc, given, turns, arms, found),
        Stmt::Arm { body, .. } => collect(alloc, given, turns, body, found),
    }
}

/// What stands after the first statement of these, or after a way or an arm that stands there; what
/// stands in an ELSE. Nothing at their end.
pub(crate) fn behind(code: &Stmt) -> Option<&Stmt>
    ensures rest { option_map (λ s. statements_of s.now) result ≡ behind_first (statements_of
        code.now) }
    ensures inside { IfSome result (λ s. size-Stmt s.now < size-Stmt code.now) }
{
    match code {
        Stmt::End => None,
        Stmt::Assign { rest, .. } => Some(rest),
        Stmt::AssignAbove { rest, .. } => Some(rest),
        Stmt::For { rest, .. } => Some(rest),
        Stmt::If { rest, .. } => Some(rest),
        Stmt::Way { ways, .. } => Some(ways),
        Stmt::Else { body } => Some(body),
        Stmt::Case { rest, .. } => Some(rest),
        Stmt::Arm { arms, .. } => Some(arms),
    }
}

/// The assignments of the body of a FOR.
#[cycle(assignments)]
fn inside<'a>(
    alloc: Global,
    given: &Registers,
    turns: &[&'a [u8]],
    variable: &'a Name,
    body: &'a Stmt,
    found: &mut Vec<Assignment<'a>>,
) -> Result<(), AllocError>
    ensures { OnOk result (map assignment_view found.new.items ≡ map assignment_view found.old.items
        ++ filter (is_local given.now) (assignments (variable.now ∷ map (λ t. t.now) turns.now)
        (statements_of body.now))) }
{
    let around = around(alloc, turns, variable)?;
    collect(alloc, given, around.as_slice(), body, found)
}

/// The variables of the FORs around, and this one inside of them.
pub(crate) fn around<'a>(
    alloc: Global,
    turns: &[&'a [u8]],
    variable: &'a Name,
) -> Result<Vec<&'a [u8]>, AllocError>
    ensures { IfOk result (λ v. map (λ t. t.now) v.items ≡ variable.now ∷ map (λ t. t.now)
        turns.now) }
{
    let mut around = Vec::new(alloc);
    around.push(variable.bytes())?;
    around.extend_from_slice(turns)?;
    Ok(around)
}
