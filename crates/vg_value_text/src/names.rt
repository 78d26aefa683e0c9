//! The names by which terms of values are printed.

ghost use Rattle.std.specs.Prelude.{◌≡◌, IfOk, map};
ghost use Rattle.vg_program.specs.Params.{integers, pointers};
ghost use Rattle.vg_value_text.specs.Names.{names_of};

use std::alloc::{AllocError, Global};
use vg_base::{Items, Name};
use vg_program::Param;
use vg_terms::Names;

fn pointer_names(alloc: Global, params: &[Param]) -> Result<Vec<Name>, AllocError>
    ensures { IfOk result (λ names. names.items ≡ map (λ p. p.name) (pointers params.now)) }
{
    let mut names = Vec::new(alloc);
    'params: for param in params {
        if param.kind.is_pointer() {
            names.push(param.name.copy(alloc)?)?;
        }
    }
    Ok(names)
}

fn integer_names(alloc: Global, params: &[Param]) -> Result<Vec<Name>, AllocError>
    ensures { IfOk result (λ names. names.items ≡ map (λ p. p.name) (integers params.now)) }
{
    let mut names = Vec::new(alloc);
    'params: for param in params {
        if param.kind.is_integer() {
            names.push(param.name.copy(alloc)?)?;
        }
    }
    Ok(names)
}

/// The names by which terms of values are printed: those of the pointers and of the integers, each
/// in the order of the parameters. Fails for want of memory alone.
pub fn names_of(alloc: Global, params: &[Param]) -> Result<Names, AllocError>
    ensures { IfOk result (λ names. names ≡ names_of params.now) }
{
    let pointers = pointer_names(alloc, params)?;
    let arguments = integer_names(alloc, params)?;
    Ok(Names {
        params: Items::from_vec(Vec::new(alloc)),
        pointers: Items::from_vec(pointers),
        arguments: Items::from_vec(arguments),
    })
}
