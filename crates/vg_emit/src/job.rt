//! What lines are emitted from.

ghost use Rattle.std.specs.Prelude.{◌≡◌};
ghost use Rattle.vg_emission.specs.Program.{has_value};
ghost use Rattle.vg_emit.specs.Views.{job_of};

use crate::marks::Marks;
use vg_base::Items;
use vg_kernel_plans::Recipe;
use vg_kernel_plans::units::unit_at;
use vg_shapes::{Description, Operand, Pack, Ssa, SsaUnit};

/// A kernel, the descriptions of instances, packs, for each pack the numbers of the operands that
/// it takes, these operands with a recipe for each, and marks on the values that are needed as
/// scalars.
#[derive(Drop)]
pub(crate) struct Job<'a> {
    pub(crate) ssa: &'a Ssa,
    pub(crate) descriptions: &'a [Description],
    pub(crate) packs: &'a [Pack],
    pub(crate) takes: Vec<Items<usize>>,
    pub(crate) operands: Vec<Operand>,
    pub(crate) recipes: &'a [Recipe],
    pub(crate) needed: Marks,
}

/// Whether the unit of a number has a value: it is a load or an operation.
fn has_value(ssa: &Ssa, number: u32) -> bool
    ensures { result ≡ has_value ssa.now number }
{
    match unit_at(ssa, number) {
        None => false,
        Some(SsaUnit::Load { .. }) => true,
        Some(SsaUnit::Store { .. }) => false,
        Some(SsaUnit::Operation { .. }) => true,
    }
}

/// Whether the value of a number is needed as a scalar.
pub(crate) fn is_needed(job: &Job, number: u32) -> bool
    ensures { result ≡ (job_of job.now).needed number }
{
    has_value(job.ssa, number) && job.needed.has(number)
}
