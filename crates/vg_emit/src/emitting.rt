//! Programs of plans.

ghost use Rattle.std.specs.Prelude.{◌≡◌, ◌<◌, ◌^◌, ℕ, List, IfOk, map};
ghost use Rattle.std.specs.List.{AllByRecursion};
ghost use Rattle.vg_shapes.specs.Description.{description_of};
ghost use Rattle.vg_shapes.specs.Sound.{IsSound};
ghost use Rattle.vg_kernel_plans.specs.Taken.{IsShort, MatchesNear};
ghost use Rattle.vg_emission.specs.Program.{job_of as job_for, operands_in};
ghost use Rattle.vg_emission.specs.Fit.{AreFit, CallsDescribed};
ghost use Rattle.vg_emission.specs.Laws.{AlwaysKeep, MeansUnits};
ghost use Rattle.vg_emission.specs.Planned.{IsPlanned};
ghost use Rattle.vg_kernel_plans.specs.Packing.{packing};
ghost use Rattle.vg_plans.specs.World.{plan_cost};
ghost use Rattle.vg_program.specs.Cost.{cost_of};
ghost use Rattle.vg_program.specs.Meaning.{Instructions};
ghost use Rattle.vg_program.specs.Valid.{KeepsRules};
ghost use Rattle.vg_pseudo.specs.declared.header.Header.{Header};
ghost use Rattle.vg_shapes.specs.Nodes.{IsOrder};
ghost use Rattle.vg_gather.specs.Recipes.{planned_job, planned_program};
ghost use Rattle.vg_emit.specs.Views.{job_of};

use crate::job::Job;
use crate::needed::needed_values;
use crate::program::program_from;
use crate::takes::takes_in;
use std::alloc::{AllocError, Global};
use vg_gather::recipes_of;
use vg_kernel_plans::Recipe;
use vg_kernel_plans::plan_operands::plan_operands;
use vg_program::Program;
use vg_pseudo::Header;
use vg_shapes::{Description, MatchTable, Operand, Order, Pack, Plan, Ssa};

/// What lines are emitted from, by the operands of packs and their recipes.
fn job_for<'a>(
    alloc: Global,
    ssa: &'a Ssa,
    packs: &'a [Pack],
    operands: Vec<Operand>,
    recipes: &'a [Recipe],
    descriptions: &'a [Description],
    table: &MatchTable,
) -> Result<Job<'a>, AllocError>
    requires sound { IsSound ssa.now }
    requires short { AllByRecursion IsShort packs.now }
    requires near { MatchesNear table.now }
    requires operands { operands.items
        ≡ operands_in (map description_of descriptions.now) table.now ssa.now packs.now }
    ensures { IfOk result (λ job. job_of job
        ≡ job_for (map description_of descriptions.now) table.now ssa.now packs.now recipes.now) }
{
    let all = operands.as_slice();
    let takes = takes_in(alloc, descriptions, table, ssa, packs, all)?;
    let needed = needed_values(alloc, ssa, packs, recipes, all)?;
    Ok(Job {
        ssa,
        descriptions,
        packs,
        takes,
        operands,
        recipes,
        needed,
    })
}

fn planned_program(
    alloc: Global,
    ssa: &Ssa,
    plan: &Plan,
    order: &Order,
    descriptions: &[Description],
    table: &MatchTable,
) -> Result<Program, AllocError>
    requires sound { IsSound ssa.now }
    requires short { AllByRecursion IsShort plan.now }
    requires near { MatchesNear table.now }
    ensures program { IfOk result (λ program. program
        ≡ planned_program (map description_of descriptions.now) table.now ssa.now plan.now
        order.now) }
    ensures small { IfOk result (λ program. cost_of program < 2 ^ 32) }
{
    let packs = plan.as_slice();
    let operands = plan_operands(alloc, descriptions, table, ssa, packs)?;
    let recipes = recipes_of(alloc, operands.as_slice(), plan, descriptions, ssa)?;
    let job = job_for(
        alloc,
        ssa,
        packs,
        operands,
        recipes.as_slice(),
        descriptions,
        table,
    )?;
    program_from(alloc, &job, order.as_slice())
}

/// The program of a plan in an order, each operand of which is brought into a register by the recipe
/// that it takes beside the packs. It states its own cost, and as the cost of the kernel as written the
/// number of its units.
///
/// Where the plan, its recipes and the order are right for the kernel, the program leaves the memory
/// that the units leave one after the other, or traps where they do, in each layout that respects
/// noalias; it costs what the plan costs, keeps the rules on programs, whatever the length of its text
/// is, and calls described instances alone.
///
/// Looks at all operands for each operand that a pack takes, else at each line, lane and unit a
/// fixed number of times. Fails for want of memory, also where the lines define 2^32 scalars or
/// registers, the cost is 2^32 or more, or an index of a recipe has more than 32 bits.
pub fn emit_described(
    alloc: Global,
    ssa: &Ssa,
    plan: &Plan,
    order: &Order,
    descriptions: &[Description],
    table: &MatchTable,
) -> Result<Program, AllocError>
    requires sound { IsSound ssa.now }
    requires short { AllByRecursion IsShort plan.now }
    requires near { MatchesNear table.now }
    ensures program { IfOk result (λ program. program
        ≡ planned_program (map description_of descriptions.now) table.now ssa.now plan.now
        order.now) }
    ensures means { (called : Instructions) →
        IsPlanned (planned_job (map description_of descriptions.now) table.now ssa.now plan.now) →
        IsOrder ssa.now table.now plan.now order.now →
        AlwaysKeep (planned_job (map description_of descriptions.now) table.now ssa.now plan.now)
        called →
        IfOk result (λ program. MeansUnits called program ssa.now) }
    ensures cost { (deps : List (ℕ × ℕ)) →
        IsPlanned (planned_job (map description_of descriptions.now) table.now ssa.now plan.now) →
        IsOrder ssa.now table.now plan.now order.now →
        IfOk result (λ program. cost_of program
        ≡ plan_cost (packing (map description_of descriptions.now) table.now ssa.now deps)
        plan.now) }
    ensures rules { (headers : List Header) →
        IsPlanned (planned_job (map description_of descriptions.now) table.now ssa.now plan.now) →
        IsOrder ssa.now table.now plan.now order.now →
        AreFit (planned_job (map description_of descriptions.now) table.now ssa.now plan.now)
        headers →
        IfOk result (λ program. KeepsRules headers program) }
    ensures calls { (headers : List Header) →
        IsPlanned (planned_job (map description_of descriptions.now) table.now ssa.now plan.now) →
        IsOrder ssa.now table.now plan.now order.now →
        AreFit (planned_job (map description_of descriptions.now) table.now ssa.now plan.now)
        headers →
        IfOk result (λ program.
        CallsDescribed (map description_of descriptions.now) program.lines) }
{
    planned_program(alloc, ssa, plan, order, descriptions, table)
}

/// The program of a plan in an order, as `emit_described` gives it, by the headers of the instructions
/// that may be called: it keeps the rules of programs over these, and calls described instances alone,
/// where they are fit for what is emitted. Fails as `emit_described` does.
pub fn emit(
    alloc: Global,
    ssa: &Ssa,
    plan: &Plan,
    order: &Order,
    descriptions: &[Description],
    table: &MatchTable,
    headers: &[Header],
) -> Result<Program, AllocError>
    requires sound { IsSound ssa.now }
    requires short { AllByRecursion IsShort plan.now }
    requires near { MatchesNear table.now }
    ensures program { IfOk result (λ program. program
        ≡ planned_program (map description_of descriptions.now) table.now ssa.now plan.now
        order.now) }
    ensures means { (called : Instructions) →
        IsPlanned (planned_job (map description_of descriptions.now) table.now ssa.now plan.now) →
        IsOrder ssa.now table.now plan.now order.now →
        AlwaysKeep (planned_job (map description_of descriptions.now) table.now ssa.now plan.now)
        called →
        IfOk result (λ program. MeansUnits called program ssa.now) }
    ensures cost { (deps : List (ℕ × ℕ)) →
        IsPlanned (planned_job (map description_of descriptions.now) table.now ssa.now plan.now) →
        IsOrder ssa.now table.now plan.now order.now →
        IfOk result (λ program. cost_of program
        ≡ plan_cost (packing (map description_of descriptions.now) table.now ssa.now deps)
        plan.now) }
    ensures rules { IsPlanned (planned_job (map description_of descriptions.now) table.now ssa.now plan.now) →
        IsOrder ssa.now table.now plan.now order.now →
        AreFit (planned_job (map description_of descriptions.now) table.now ssa.now plan.now)
        headers.now →
        IfOk result (λ program. KeepsRules headers.now program) }
    ensures calls { IsPlanned (planned_job (map description_of descriptions.now) table.now ssa.now plan.now) →
        IsOrder ssa.now table.now plan.now order.now →
        AreFit (planned_job (map description_of descriptions.now) table.now ssa.now plan.now)
        headers.now →
        IfOk result (λ program.
        CallsDescribed (map description_of descriptions.now) program.lines) }
{
    let _headers = headers;
    emit_described(alloc, ssa, plan, order, descriptions, table)
}
