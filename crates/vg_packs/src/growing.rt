//! Plans that grow pack by pack.

ghost use Rattle.std.specs.Prelude.{◌≡◌, ◌++◌, ◌∷◌, [], IfOk, OnOk, true};
ghost use Rattle.vg_kernel_plans.specs.Packing.{packing};
ghost use Rattle.vg_plans.specs.World.{stays_plan};
ghost use Rattle.vg_packs.specs.Floor.{IsGrown};
ghost use Rattle.vg_packs.specs.Walk.{NameEarlierUnits};

use crate::floor::floor_below;
use crate::marks::mark_pack;
use crate::plan_spans::mark_span;
use crate::walk::{end_of_units, overlaps, reaches_itself};
use std::alloc::{AllocError, Global};
use vg_kernel_plans::marks::clear_marks;
use vg_shapes::{DepList, MatchTable, Pack, Ssa};

/// A plan without a cycle that grows, with marks of its units, and of the numbers that lie within one of
/// its packs: above its least unit, and not above the greatest of its units and of those on which it
/// depends. What is below a number that is not marked depends on nothing from there on, so a pack whose
/// units are from there on is tried without a look at it.
#[derive(Drop)]
pub(crate) struct GrowingPlan {
    packs: Vec<Pack>,
    packed: Vec<bool>,
    spanned: Vec<bool>,
}

impl GrowingPlan {
    /// The empty plan. Where a kernel has more than some 2^24 parameters or units there is no memory.
    pub(crate) fn new(
        alloc: Global,
        table: &MatchTable,
        ssa: &Ssa,
        deps: &DepList,
    ) -> Result<GrowingPlan, AllocError>
        requires earlier { NameEarlierUnits ssa.now deps.now }
        ensures packs { IfOk result (λ g. g.packs.items ≡ []) }
        ensures grown { IfOk result (IsGrown table.now ssa.now deps.now) }
    {
        let end = end_of_units(ssa)?;
        let packed = clear_marks(alloc, end)?;
        let spanned = clear_marks(alloc, end)?;
        let packs = Vec::new(alloc);
        Ok(GrowingPlan {
            packs,
            packed,
            spanned,
        })
    }

    /// The packs of the plan.
    pub(crate) fn packs(&self) -> &[Pack]
        ensures { result.now ≡ self.now.packs.items }
    {
        self.packs.as_slice()
    }

    /// The packs of the plan, which is no longer wanted.
    pub(crate) fn into_packs(self) -> Vec<Pack>
        ensures { result.items ≡ self.packs.items }
    {
        let GrowingPlan { packs, .. } = self;
        packs
    }

    /// Whether the plan stays one with a pack after it.
    pub(crate) fn stays(
        &self,
        alloc: Global,
        table: &MatchTable,
        ssa: &Ssa,
        deps: &DepList,
        pack: &Pack,
    ) -> Result<bool, AllocError>
        requires earlier { NameEarlierUnits ssa.now deps.now }
        requires grown { IsGrown table.now ssa.now deps.now self.now }
        ensures { IfOk result (λ b. b
            ≡ stays_plan (packing [] table.now ssa.now deps.now) self.now.packs.items pack.now) }
    {
        let packs = self.packs.as_slice();
        let packed = self.packed.as_slice();
        let overlap = overlaps(packed, packs, pack);
        if overlap {
            return Ok(false);
        }
        let floor = floor_below(alloc, self.spanned.as_slice(), pack)?;
        let end = packed.len();
        let reached = reaches_itself(alloc, table, ssa, deps, packs, packed, pack, end, floor)?;
        Ok(!reached)
    }

    /// Puts a pack after the plan, which stays one with it.
    pub(crate) fn push(
        &mut self,
        alloc: Global,
        table: &MatchTable,
        ssa: &Ssa,
        deps: &DepList,
        pack: Pack,
    ) -> Result<(), AllocError>
        requires grown { IsGrown table.now ssa.now deps.now self.old }
        requires stays { stays_plan (packing [] table.now ssa.now deps.now) self.old.packs.items
            pack ≡ true }
        ensures packs { OnOk result (self.new.packs.items ≡ self.old.packs.items ++ pack ∷ []) }
        ensures grown { OnOk result (IsGrown table.now ssa.now deps.now self.new) }
    {
        mark_span(alloc, table, ssa, deps, &pack, self.spanned.as_mut_slice())?;
        mark_pack(self.packed.as_mut_slice(), &pack);
        self.packs.push(pack)?;
        Ok(())
    }
}
