//! The cost of a plan that grows.

ghost use Rattle.std.specs.Prelude.{◌≡◌, ◌+◌, ◌++◌, ◌∷◌, [], ℕ, IfOk, List, OnOk, flat_map, length, map, sum_by};
ghost use Rattle.std.specs.List.{AllByRecursion};
ghost use Rattle.vg_cost.specs.Lines.{Costs};
ghost use Rattle.vg_cost.specs.LongerPlan.{IsKnown, all_packs, described};
ghost use Rattle.vg_cost.specs.Marks.{Has};
ghost use Rattle.vg_cost.specs.Moves.{Moves};
ghost use Rattle.vg_cost.specs.Needs.{AreNeedsFor};
ghost use Rattle.vg_cost.specs.PriceScratch.{IsScratchFor};
ghost use Rattle.vg_cost.specs.Running.{StandsFor, taken_by};
ghost use Rattle.vg_cost.specs.Taken.{inserted_for};
ghost use Rattle.vg_cost.specs.TriedMarks.{AreMarksFor};
ghost use Rattle.vg_kernel_plans.specs.Fed.{IsFedPlanFor};
ghost use Rattle.vg_kernel_plans.specs.Packing.{packing, price_of};
ghost use Rattle.vg_kernel_plans.specs.Taken.{IsShort, MatchesNear, operands_of};
ghost use Rattle.vg_plans.specs.World.{plan_cost};
ghost use Rattle.vg_shapes.specs.Description.{description_of};
ghost use Rattle.vg_shapes.specs.Pack.{units_of};
ghost use Rattle.vg_shapes.specs.Units.{arguments};

use crate::apart::cost_apart;
use crate::change::Change;
use crate::copies::{copy_counts, longer};
use crate::lines::{end_of_units, lines_below};
use crate::longer_plan::LongerPlan;
use crate::needs::{Needs, clear_counts, needs_from};
use crate::price::{plus, price_of};
use crate::price_scratch::PriceScratch;
use crate::settling::settle;
use crate::shuffles::Shuffles;
use crate::taken::{Taken, add_all, keep_all, kept_cost, recipes_cost};
use crate::tried_marks::TriedMarks;
use std::alloc::{AllocError, Global};
use vg_kernel_plans::marks::clear_marks;
use vg_kernel_plans::taken::operands_of;
use vg_shapes::{Description, MatchTable, Operand, Pack, Ssa};

/// A plan and what it costs. A longer plan's cost is found from it by looking again at the operands
/// of which the new pack has a value.
pub struct Running {
    packs: Vec<Pack>,
    taken: Vec<Taken>,
    shuffles: Shuffles,
    needs: Needs,
    price: u64,
    cost: u64,
}

/// Written out, so that the exits of an owner call it: a derived one would be proved anew at each.
impl Drop for Running {
    fn drop(self) {
        let Running {
            packs: _,
            taken: _,
            shuffles: _,
            needs: _,
            price: _,
            cost: _,
        } = self;
    }
}

/// What a plan costs whose packs and recipes cost so much, by the marks of its units and of the values
/// that its inserts take.
pub(crate) fn whole_cost(
    ssa: &Ssa,
    marks: &[bool],
    needed: &mut [bool],
    price: u64,
    recipes: u64,
) -> Result<u64, AllocError>
    requires marks { length marks.now ≡ arguments ssa.now + length ssa.now.units }
    requires needed { length needed.old ≡ arguments ssa.now + length ssa.now.units }
    ensures { IfOk result (Costs ssa.now marks.now needed.old price recipes) }
{
    let end = end_of_units(ssa)?;
    let lines = lines_below(ssa, marks, needed, end)?;
    let packed = plus(price, recipes)?;
    plus(packed, lines)
}

/// What a plan with a pack after it costs: its packs, its scalars, and all together.
#[derive(Clone, Copy)]
struct TriedCost {
    price: u64,
    lines: u64,
    cost: u64,
}

impl Running {
    /// The plan of no packs. Fails for want of memory, and where the cost or a unit's number has
    /// too many bits to be counted.
    pub fn new(
        alloc: Global,
        descriptions: &[Description],
        table: &MatchTable,
        ssa: &Ssa,
    ) -> Result<Running, AllocError>
        requires near { MatchesNear table.now }
        ensures packs { IfOk result (λ r. r.packs.items ≡ []) }
        ensures stands { IfOk result (StandsFor (map description_of descriptions.now) table.now
            ssa.now) }
    {
        let shuffles = Shuffles::new(alloc, descriptions)?;
        let end = end_of_units(ssa)?;
        let count = end as usize;
        let marks = clear_marks(alloc, count)?;
        let inserted = clear_counts(alloc, count)?;
        let needs = needs_from(alloc, ssa, marks.as_slice(), inserted)?;
        let cost = needs.lines;
        Ok(Running {
            packs: Vec::new(alloc),
            taken: Vec::new(alloc),
            shuffles,
            needs,
            price: 0,
            cost,
        })
    }

    /// The plan with a pack after it. Fails for want of memory, and where the cost has too many
    /// bits to be counted.
    pub fn with(
        &self,
        alloc: Global,
        pack: &Pack,
        descriptions: &[Description],
        table: &MatchTable,
        ssa: &Ssa,
    ) -> Result<Running, AllocError>
        requires near { MatchesNear table.now }
        requires short { IsShort pack.now }
        requires stands { StandsFor (map description_of descriptions.now) table.now ssa.now
            self.now }
        requires plan { (deps : List (ℕ × ℕ)) × IsFedPlanFor (map description_of descriptions.now)
            table.now ssa.now deps (self.now.packs.items ++ pack.now ∷ []) }
        ensures packs { IfOk result (λ r. r.packs.items ≡ self.now.packs.items ++ pack.now ∷ []) }
        ensures stands { IfOk result (StandsFor (map description_of descriptions.now) table.now
            ssa.now) }
    {
        let plan = self.packs.as_slice();
        let operands = operands_of(alloc, descriptions, table, ssa, pack)?;
        let operands = operands.as_slice();
        let mut scratch = PriceScratch::new(alloc, ssa, plan)?;
        let before = scratch.plan.as_slice();
        let tried = &mut scratch.tried;
        let found = self.cost_tried(
            alloc,
            before,
            tried,
            pack,
            operands,
            descriptions,
            table,
            ssa,
        )?;
        let marks = scratch.tried.longer.as_slice();
        let own = scratch.tried.own.as_slice();
        let grown = LongerPlan {
            descriptions,
            ssa,
            packs: plan,
            last: pack,
            marks,
            own,
            shuffles: &self.shuffles,
        };
        let taken = self.taken_with(alloc, &grown, operands, table)?;
        let counts = copy_counts(alloc, scratch.tried.counts.as_slice())?;
        let lines = found.lines;
        Ok(Running {
            packs: longer(alloc, plan, pack)?,
            taken,
            shuffles: self.shuffles.copy(alloc)?,
            needs: Needs { counts, lines },
            price: found.price,
            cost: found.cost,
        })
    }

    /// What the plan with a pack after it costs, by the pack's operands. Fails for want of memory, and
    /// where the cost has too many bits to be counted. Leaves the scratch as it was.
    pub fn cost_with(
        &self,
        alloc: Global,
        scratch: &mut PriceScratch,
        pack: &Pack,
        operands: &[Operand],
        descriptions: &[Description],
        table: &MatchTable,
        ssa: &Ssa,
    ) -> Result<u64, AllocError>
        requires near { MatchesNear table.now }
        requires short { IsShort pack.now }
        requires scratch { IsScratchFor ssa.now self.now.packs.items scratch.old }
        requires stands { StandsFor (map description_of descriptions.now) table.now ssa.now
            self.now }
        requires operands { operands.now ≡ operands_of (map description_of descriptions.now)
            table.now ssa.now pack.now }
        requires plan { (deps : List (ℕ × ℕ)) × IsFedPlanFor (map description_of descriptions.now)
            table.now ssa.now deps (self.now.packs.items ++ pack.now ∷ []) }
        ensures scratch { scratch.new ≡ scratch.old }
        ensures cost { IfOk result (λ c. (deps : List (ℕ × ℕ)) → c ≡ plan_cost
            (packing (map description_of descriptions.now) table.now ssa.now deps)
            (self.now.packs.items ++ pack.now ∷ [])) }
    {
        let plan = scratch.plan.as_slice();
        let tried = &mut scratch.tried;
        let found = self.cost_tried(alloc, plan, tried, pack, operands, descriptions, table, ssa)?;
        Ok(found.cost)
    }

    /// What the plan with a pack after it costs, by the marks of the units of the plan.
    fn cost_tried<'a>(
        &'a self,
        alloc: Global,
        plan: &[bool],
        tried: &mut TriedMarks,
        pack: &'a Pack,
        operands: &[Operand],
        descriptions: &'a [Description],
        table: &MatchTable,
        ssa: &'a Ssa,
    ) -> Result<TriedCost, AllocError>
        requires near { MatchesNear table.now }
        requires short { IsShort pack.now }
        requires marks { IsScratchFor ssa.now self.now.packs.items plan.now }
        requires tried { AreMarksFor (arguments ssa.now + length ssa.now.units) tried.old }
        requires stands { StandsFor (map description_of descriptions.now) table.now ssa.now
            self.now }
        requires operands { operands.now ≡ operands_of (map description_of descriptions.now)
            table.now ssa.now pack.now }
        requires plan { (deps : List (ℕ × ℕ)) × IsFedPlanFor (map description_of descriptions.now)
            table.now ssa.now deps (self.now.packs.items ++ pack.now ∷ []) }
        ensures tried { AreMarksFor (arguments ssa.now + length ssa.now.units) tried.new }
        ensures longer { OnOk result (IsScratchFor ssa.now (self.now.packs.items ++ pack.now ∷ [])
            tried.new.longer.items) }
        ensures own { OnOk result (Has (length tried.new.own.items) (units_of pack.now)
            tried.new.own.items) }
        ensures price { IfOk result (λ c. c.price ≡ self.now.price + price_of
            (map description_of descriptions.now) pack.now) }
        ensures cost { IfOk result (λ c. (deps : List (ℕ × ℕ)) → c.cost ≡ plan_cost
            (packing (map description_of descriptions.now) table.now ssa.now deps)
            (self.now.packs.items ++ pack.now ∷ [])) }
        ensures needs { IfOk result (λ c. AreNeedsFor ssa.now (self.now.packs.items ++ pack.now ∷ [])
            (flat_map inserted_for (taken_by (map description_of descriptions.now) table.now ssa.now
            (self.now.packs.items ++ pack.now ∷ []))) tried.new.counts.items c.lines) }
    {
        let before = self.needs.counts.as_slice();
        tried.enter(plan, pack);
        tried.count(before);
        let price = plus(self.price, price_of(descriptions, pack))?;
        let packs = self.packs.as_slice();
        let marks = tried.longer.as_slice();
        let own = tried.own.as_slice();
        let counts = tried.counts.as_mut_slice();
        let changed = tried.changed.as_mut_slice();
        let grown = LongerPlan {
            descriptions,
            ssa,
            packs,
            last: pack,
            marks,
            own,
            shuffles: &self.shuffles,
        };
        let recipes = self.recipes_with(alloc, &grown, counts, changed, operands, table)?;
        let first = ssa.arguments();
        let change = Change {
            ssa,
            first,
            packed: plan,
            counts: before,
            longer: marks,
        };
        let lines = settle(&change, counts, changed, self.needs.lines)?;
        let packed = plus(price, recipes)?;
        let cost = plus(packed, lines)?;
        Ok(TriedCost { price, lines, cost })
    }

    /// The operands of the plan with a pack after it.
    fn taken_with(
        &self,
        alloc: Global,
        plan: &LongerPlan,
        operands: &[Operand],
        table: &MatchTable,
    ) -> Result<Vec<Taken>, AllocError>
        requires operands { operands.now ≡ operands_of (described plan.now) table.now
            plan.now.ssa.now plan.now.last.now }
        requires stands { StandsFor (described plan.now) table.now plan.now.ssa.now self.now }
        requires packs { plan.now.packs.now ≡ self.now.packs.items }
        requires plan { IsKnown plan.now }
        ensures { IfOk result (λ taken. taken.items ≡ taken_by (described plan.now) table.now
            plan.now.ssa.now (all_packs plan.now)) }
    {
        let old = self.taken.as_slice();
        let mut taken = keep_all(alloc, plan, old)?;
        add_all(alloc, plan, &mut taken, &[], operands)?;
        Ok(taken)
    }

    /// What the recipes of the operands of the plan with a pack after it cost. Counts the values that
    /// their inserts take, in place of those that the inserts of the plan took.
    fn recipes_with(
        &self,
        alloc: Global,
        plan: &LongerPlan,
        counts: &mut [u32],
        changed: &mut [bool],
        operands: &[Operand],
        table: &MatchTable,
    ) -> Result<u64, AllocError>
        requires long { length changed.old ≡ length counts.old }
        requires operands { operands.now ≡ operands_of (described plan.now) table.now
            plan.now.ssa.now plan.now.last.now }
        requires stands { StandsFor (described plan.now) table.now plan.now.ssa.now self.now }
        requires packs { plan.now.packs.now ≡ self.now.packs.items }
        requires plan { IsKnown plan.now }
        ensures cost { IfOk result (λ c. c ≡ sum_by (λ t. t.recipe.lines)
            (taken_by (described plan.now) table.now plan.now.ssa.now (all_packs plan.now))) }
        ensures counts { OnOk result (Moves (flat_map inserted_for self.now.taken.items)
            (flat_map inserted_for (taken_by (described plan.now) table.now plan.now.ssa.now
            (all_packs plan.now))) counts.old counts.new changed.old changed.new) }
    {
        let old = self.taken.as_slice();
        let mut fresh = Vec::new(alloc);
        add_all(alloc, plan, &mut fresh, old, operands)?;
        let kept = kept_cost(alloc, plan, counts, changed, old)?;
        let added = recipes_cost(counts, changed, fresh.as_slice())?;
        let recipes = plus(kept, added)?;
        Ok(recipes)
    }

    /// What any plan costs, by what is known of the descriptions. Fails for want of memory, and where
    /// the cost or a unit's number has too many bits to be counted.
    pub fn cost_of(
        &self,
        alloc: Global,
        plan: &[Pack],
        descriptions: &[Description],
        table: &MatchTable,
        ssa: &Ssa,
    ) -> Result<u64, AllocError>
        requires near { MatchesNear table.now }
        requires short { AllByRecursion IsShort plan.now }
        requires stands { StandsFor (map description_of descriptions.now) table.now ssa.now
            self.now }
        ensures cost { IfOk result (λ c. (deps : List (ℕ × ℕ)) → c ≡ plan_cost
            (packing (map description_of descriptions.now) table.now ssa.now deps) plan.now) }
    {
        cost_apart(alloc, plan, descriptions, table, ssa, &self.shuffles)
    }

    /// What the plan costs, as `plan_cost` counts it.
    pub fn cost(&self) -> u64
        ensures { result ≡ self.now.cost }
    {
        self.cost
    }

    /// What the lines of the packs cost. The plan, and each that has these packs, costs as much at
    /// least.
    pub fn price(&self) -> u64
        ensures { result ≡ self.now.price }
    {
        self.price
    }

    /// The packs of the plan, as they were put after it.
    pub fn packs(&self) -> &[Pack]
        ensures { result.now ≡ self.now.packs.items }
    {
        self.packs.as_slice()
    }
}
