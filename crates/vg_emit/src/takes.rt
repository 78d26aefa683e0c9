//! The numbers of the operands that packs take.

ghost use Rattle.std.specs.Prelude.{◌≡◌, IfOk, map};
ghost use Rattle.std.specs.List.{AllByRecursion, position};
ghost use Rattle.vg_kernel_plans.specs.SameAs.{same_operand};
ghost use Rattle.vg_shapes.specs.Description.{description_of};
ghost use Rattle.vg_kernel_plans.specs.Taken.{IsShort, MatchesNear};
ghost use Rattle.vg_emission.specs.Program.{number_in, takes_in};

use std::alloc::{AllocError, Global};
use vg_base::Items;
use vg_kernel_plans::same::is_same_operand;
use vg_kernel_plans::taken::operands_of;
use vg_shapes::{Description, MatchTable, Operand, Pack, Ssa};

/// Where an operand stands among others, if it does.
fn place_in(operands: &[Operand], operand: &Operand) -> Option<usize>
    ensures { result ≡ position (λ x. same_operand x operand.now) operands.now }
{
    operands.iter().position(|o| is_same_operand(o, operand))
}

/// The number of an operand among others, which is how many there are if it is not among them.
fn number_in(operands: &[Operand], operand: &Operand) -> usize
    ensures { result ≡ number_in operands.now operand.now }
{
    place_in(operands, operand).unwrap_or(operands.len())
}

fn numbers_in(
    alloc: Global,
    operands: &[Operand],
    taken: &[Operand],
) -> Result<Vec<usize>, AllocError>
    ensures { IfOk result (λ numbers. numbers.items ≡ map (number_in operands.now) taken.now) }
{
    taken.iter().map(|o| number_in(operands, o)).collect(alloc)
}

/// For each pack the numbers of the operands that it takes. Looks at each operand for each that a
/// pack takes.
pub(crate) fn takes_in(
    alloc: Global,
    descriptions: &[Description],
    table: &MatchTable,
    ssa: &Ssa,
    packs: &[Pack],
    operands: &[Operand],
) -> Result<Vec<Items<usize>>, AllocError>
    requires near { MatchesNear table.now }
    requires short { AllByRecursion IsShort packs.now }
    ensures { IfOk result (λ takes. takes.items
        ≡ takes_in (map description_of descriptions.now) table.now ssa.now packs.now operands.now) }
{
    let mut takes = Vec::new(alloc);
    'packs: for pack in packs {
        let taken = operands_of(alloc, descriptions, table, ssa, pack)?;
        let numbers = numbers_in(alloc, operands, taken.as_slice())?;
        takes.push(Items::from_vec(numbers))?;
    }
    Ok(takes)
}
