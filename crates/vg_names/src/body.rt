//! Bodies with their names resolved, over what their names mean.

ghost use Rattle.vg_pseudo.specs.Tree.{statements_of, define_of};
ghost use Rattle.vg_names.specs.Naming.{Gives};
ghost use Rattle.vg_names.specs.Pieces.{body_over, function_over};
ghost use Rattle.vg_names.specs.Scopes.{scope_over};
ghost use Rattle.vg_names.specs.Views.{body_of, function_view};

use crate::code::code_of;
use crate::expressions::resolved;
use crate::last_names::LastNames;
use crate::name_fault::NameFault;
use crate::names::Names;
use crate::registers::Registers;
use crate::resolved::{Body, Function};
use crate::scope::Scope;
use std::alloc::Global;
use vg_base::Items;
use vg_pseudo::{Define, Stmt};

/// The statements of a body with so many parameters, or its first name that cannot be resolved.
pub(crate) fn resolved_body(
    alloc: Global,
    parameters: usize,
    registers: &Registers,
    variables: &Names,
    functions: &LastNames,
    statements: &Stmt,
) -> Result<Body, NameFault>
    ensures { Gives body_of result (body_over parameters (scope_over registers.now variables.now
        functions.now) (statements_of statements.now)) }
{
    let scope = Scope::new(alloc, registers, variables, functions);
    let code = code_of(alloc, &scope, statements)?;
    let widths = Items::from_vec(registers.widths(alloc)?);
    Ok(Body {
        widths,
        parameters,
        numbers: variables.count(),
        code,
    })
}

/// A DEFINE, or its first name that cannot be resolved.
pub(crate) fn resolved_function(
    alloc: Global,
    registers: &Registers,
    variables: &Names,
    functions: &LastNames,
    define: &Define,
) -> Result<Function, NameFault>
    ensures { Gives function_view result (function_over (scope_over registers.now variables.now
        functions.now) (define_of define.now)) }
{
    let parameters = define.params.as_slice().len();
    let body = resolved_body(
        alloc,
        parameters,
        registers,
        variables,
        functions,
        &define.body,
    )?;
    let scope = Scope::new(alloc, registers, variables, functions);
    let answer = resolved(alloc, &scope, &define.answer)?;
    Ok(Function { body, answer })
}
