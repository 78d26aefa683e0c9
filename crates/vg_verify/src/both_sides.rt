//! What is known of a kernel and of a program.

ghost use Rattle.std.specs.Prelude.{◌≡◌, ◌≤◌, IfOk, length, take};
ghost use Rattle.vg_known.specs.Difference.{sides_of};
ghost use Rattle.vg_verify.specs.Views.{sides_in};

use crate::called::Called;
use crate::kernel_values::{KernelTerms, kernel_terms};
use crate::known::Knowing;
use crate::unit_reads::kernel_reads;
use crate::walk::known_behind;
use std::alloc::{AllocError, Global};
use vg_base::Items;
use vg_forms::Form;
use vg_program::Program;
use vg_shapes::Ssa;

/// The terms of the values of a kernel, and what is known after the lines of a program.
#[derive(Drop)]
pub struct Sides {
    pub terms: Vec<Form>,
    pub known: Knowing,
}

// The terms before a place.
fn forms_before(terms: &[Form], place: usize) -> &[Form]
    requires { place ≤ length terms.now }
    ensures { result.now ≡ take place terms.now }
{
    &terms[..place]
}

/// What is known of a kernel and of a program, for each line of which there are the numbers of its events, by
/// what it calls. Fails for want of memory, also at a call that is none of those that `called` was made for, and
/// where a line has no events or a unit fits no valid kernel. A lane that has no term is left out.
#[tactic(auto, using(crate::proofs::Walking::sides_same))]
pub fn sides_of(
    alloc: Global,
    called: &Called,
    ssa: &Ssa,
    program: &Program,
    events: &[Items<usize>],
) -> Result<Sides, AllocError>
    ensures { IfOk result (λ s. sides_in s ≡ sides_of called.now ssa.now program.now events.now) }
{
    let KernelTerms { terms, maker } = kernel_terms(alloc, called.nodes_left(), ssa)?;
    let reads = kernel_reads(alloc, ssa, &terms)?;
    let before = ssa.arguments();
    if terms.len() < before {
        return Err(AllocError);
    }
    let own = forms_before(&terms, before);
    let lines = program.lines.as_slice();
    let known = known_behind(alloc, called, own, &reads, maker, lines, events)?;
    Ok(Sides { terms, known })
}
