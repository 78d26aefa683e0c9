//! The numbered values of a text.

ghost use Rattle.std.specs.Prelude.{IfOk};
ghost use Rattle.vg_shapes.specs.Sound.{IsSound};

use std::alloc::{AllocError, Global};
use std::test::Fail;
use vg_base::{Items, Name};
use vg_kernel::parse_kernel;
use vg_shapes::{Ssa, SsaParam};
use vg_ssa::{number_more, number_values};
use vg_terms::{Names, Term, print_term};

/// The numbered values of a kernel that is written so.
pub(crate) fn numbered(alloc: Global, text: &[u8]) -> Result<Ssa, Fail>
    ensures { IfOk result (λ ssa. IsSound ssa) }
{
    let kernel = parse_kernel(alloc, text)?;
    let ssa = number_values(alloc, &kernel)?;
    Ok(ssa)
}

// The names of the pointers, or those of the integers, in order.
fn names_of(alloc: Global, params: &[SsaParam], integers: bool) -> Result<Items<Name>, AllocError> {
    let mut names = Vec::new(alloc);
    for param in params {
        if param.kind.is_integer() == integers {
            names.push(param.name.copy(alloc)?)?;
        }
    }
    Ok(Items::from_vec(names))
}

/// The names that stand in texts of terms.
pub(crate) fn names(alloc: Global, ssa: &Ssa) -> Result<Names, AllocError> {
    Ok(Names {
        params: Items::from_vec(Vec::new(alloc)),
        pointers: names_of(alloc, ssa.params.as_slice(), false)?,
        arguments: names_of(alloc, ssa.params.as_slice(), true)?,
    })
}

/// The same with cut terms.
pub(crate) fn numbered_more(alloc: Global, text: &[u8]) -> Result<Ssa, Fail>
    ensures { IfOk result (λ ssa. IsSound ssa) }
{
    let kernel = parse_kernel(alloc, text)?;
    let ssa = number_more(alloc, &kernel)?;
    Ok(ssa)
}

/// The text of a term.
pub(crate) fn spell(alloc: Global, ssa: &Ssa, term: &Term) -> Result<Vec<u8>, AllocError> {
    let names = names(alloc, ssa)?;
    let mut text = Vec::new(alloc);
    print_term(alloc, term, &names, &mut text)?;
    Ok(text)
}

/// These terms of values, each in a line of its own.
pub(crate) fn lines(alloc: Global, ssa: &Ssa, terms: &[Term]) -> Result<Vec<u8>, AllocError> {
    let names = names(alloc, ssa)?;
    let mut text = Vec::new(alloc);
    for term in terms {
        print_term(alloc, term, &names, &mut text)?;
        text.push(b'\n')?;
    }
    Ok(text)
}

/// The terms of the values of a kernel, each in a line of its own.
pub(crate) fn terms_of(alloc: Global, kernel: &str) -> Result<Vec<u8>, Fail> {
    let ssa = numbered(alloc, kernel.as_bytes())?;
    Ok(lines(alloc, &ssa, ssa.terms.as_slice())?)
}
