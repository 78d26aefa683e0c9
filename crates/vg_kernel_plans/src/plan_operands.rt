//! The operands of plans.

ghost use Rattle.std.specs.Prelude.{◌≡◌, ◌∷◌, [], IfOk, OnOk, map};
ghost use Rattle.std.specs.List.{list_any, flat_map, AllByRecursion};
ghost use Rattle.vg_plans.specs.Levels.{distinct_onto};
ghost use Rattle.vg_plans.specs.World.{operands};
ghost use Rattle.vg_shapes.specs.Description.{description_of};
ghost use Rattle.vg_kernel_plans.specs.Packing.{packing};
ghost use Rattle.vg_kernel_plans.specs.SameAs.{same_operand};
ghost use Rattle.vg_kernel_plans.specs.Taken.{IsShort, MatchesNear, operands_of};

use crate::same::is_same_operand;
use crate::taken::operands_of;
use std::alloc::{AllocError, Global};
use vg_shapes::{Description, MatchTable, Operand, Pack, Ssa};

fn has_operand(operands: &[Operand], operand: &Operand) -> bool
    ensures { result ≡ list_any (same_operand operand.now) operands.now }
{
    operands.iter().any(|o| is_same_operand(operand, o))
}

/// Appends an operand, if it is not there.
fn push_new(operands: &mut Vec<Operand>, operand: Operand) -> Result<(), AllocError>
    ensures { OnOk result (operands.new.items ≡ distinct_onto same_operand operands.old.items
        (operand ∷ [])) }
{
    if !has_operand(operands.as_slice(), &operand) {
        operands.push(operand)?;
    }
    Ok(())
}

/// Appends operands, those that are not there.
fn add_new(operands: &mut Vec<Operand>, more: Vec<Operand>) -> Result<(), AllocError>
    ensures { OnOk result (operands.new.items ≡ distinct_onto same_operand operands.old.items
        more.items) }
{
    'operands: for operand in more {
        push_new(operands, operand)?;
    }
    Ok(())
}

/// The operands that the packs of a plan take, each once, in the order in which they are first taken.
pub fn plan_operands(
    alloc: Global,
    descriptions: &[Description],
    table: &MatchTable,
    ssa: &Ssa,
    packs: &[Pack],
) -> Result<Vec<Operand>, AllocError>
    requires near { MatchesNear table.now }
    requires short { AllByRecursion IsShort packs.now }
    ensures { IfOk result (λ os. os.items ≡ operands (packing (map description_of descriptions.now)
        table.now ssa.now []) packs.now) }
{
    let mut found = Vec::new(alloc);
    'packs: for pack in packs {
        let taken = operands_of(alloc, descriptions, table, ssa, pack)?;
        add_new(&mut found, taken)?;
    }
    Ok(found)
}
