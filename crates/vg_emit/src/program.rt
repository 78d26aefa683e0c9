//! The program of a plan.

ghost use Rattle.std.specs.Prelude.{◌≡◌, ◌+◌, ◌<◌, ◌^◌, ◌≤◌, [], IfOk, OnOk, length, map};
ghost use Rattle.std.specs.List.{AllByRecursion};
ghost use Rattle.vg_shapes.specs.declared.order.Node.TheVariants.{UnitAt};
ghost use Rattle.vg_shapes.specs.Order.{numbers_from};
ghost use Rattle.vg_shapes.specs.Sound.{IsSound};
ghost use Rattle.vg_shapes.specs.Units.{arguments};
ghost use Rattle.vg_kernel_plans.specs.Taken.{IsShort};
ghost use Rattle.vg_program.specs.Cost.{cost_of};
ghost use Rattle.vg_emission.specs.Emission.{emitted, node_lines};
ghost use Rattle.vg_emission.specs.Program.{begin, kind_of, lines_of, ordered, param_of, program_from};
ghost use Rattle.vg_emit.specs.Views.{behind, job_of, known, made_of};

use crate::draft::{Draft, blank};
use crate::job::Job;
use crate::needed::count_values;
use crate::packs::put_pack;
use crate::scalars::put_unit;
use std::alloc::{AllocError, Global};
use vg_base::Items;
use vg_kernel_plans::units::unit_at;
use vg_program::{Line, Param, ParamKind, Program, cost};
use vg_shapes::{Node, Ssa, SsaParam, SsaParamKind};

fn kind_of(kind: SsaParamKind) -> ParamKind
    ensures { result ≡ kind_of kind }
{
    match kind {
        SsaParamKind::Pointer { .. } => ParamKind::Pointer,
        SsaParamKind::Integer(width) => ParamKind::Integer(width),
    }
}

fn param_of(alloc: Global, param: &SsaParam) -> Result<Param, AllocError>
    ensures { IfOk result (λ p. p ≡ param_of param.now) }
{
    Ok(Param {
        name: param.name.copy(alloc)?,
        kind: kind_of(param.kind),
    })
}

/// The parameters as a program writes them.
fn params_of(alloc: Global, params: &[SsaParam]) -> Result<Vec<Param>, AllocError>
    ensures { IfOk result (λ ps. ps.items ≡ map param_of params.now) }
{
    let mut all = Vec::new(alloc);
    'params: for param in params {
        all.push(param_of(alloc, param)?)?;
    }
    Ok(all)
}

/// The draft before the first line.
fn begin(alloc: Global, job: &Job) -> Result<Draft, AllocError>
    requires { IsSound (job_of job.now).ssa }
    ensures { IfOk result (λ d. made_of d ≡ record { lines = []; draft = begin (job_of job.now) }) }
{
    let values = count_values(job.ssa);
    blank(alloc, values as usize, job.packs.len(), job.operands.len())
}

/// Adds the lines of a pack or of a unit.
fn put_node(alloc: Global, job: &Job, draft: &mut Draft, node: Node) -> Result<(), AllocError>
    requires sound { IsSound (job_of job.now).ssa }
    requires short { AllByRecursion IsShort (job_of job.now).packs }
    ensures { OnOk result (made_of draft.new
        ≡ behind (made_of draft.old) (node_lines (job_of job.now) (known draft.old) node)) }
{
    match node {
        Node::PackAt(pack) => put_pack(alloc, job, draft, pack as usize),
        Node::UnitAt(unit) => put_unit(job, draft, unit, unit_at(job.ssa, unit)),
    }
}

/// The lines of nodes in this order.
fn emitted(alloc: Global, job: &Job, nodes: &[Node]) -> Result<Vec<Line>, AllocError>
    requires sound { IsSound (job_of job.now).ssa }
    requires short { AllByRecursion IsShort (job_of job.now).packs }
    ensures { IfOk result (λ lines. lines.items
        ≡ emitted (job_of job.now) (begin (job_of job.now)) nodes.now) }
{
    let mut draft = begin(alloc, job)?;
    'nodes: for node in nodes {
        put_node(alloc, job, &mut draft, *node)?;
    }
    Ok(draft.lines)
}

/// The units in the order of their numbers.
fn in_number_order(alloc: Global, ssa: &Ssa) -> Result<Vec<Node>, AllocError>
    requires { IsSound ssa.now }
    ensures { IfOk result (λ nodes. nodes.items
        ≡ map UnitAt (numbers_from (arguments ssa.now) (length ssa.now.units))) }
{
    let end = count_values(ssa);
    let first = ssa.arguments() as u32;
    let mut nodes = Vec::new(alloc);
    'units: for unit in first..end {
        nodes.push(Node::UnitAt(unit))?;
    }
    Ok(nodes)
}

/// The lines of the packs and of the units outside them. Without packs the units stand in the order
/// of their numbers, whatever order is given.
fn lines_of(alloc: Global, job: &Job, order: &[Node]) -> Result<Vec<Line>, AllocError>
    requires sound { IsSound (job_of job.now).ssa }
    requires short { AllByRecursion IsShort (job_of job.now).packs }
    ensures { IfOk result (λ lines. lines.items ≡ lines_of (job_of job.now) order.now) }
{
    if job.packs.is_empty() {
        let nodes = in_number_order(alloc, job.ssa)?;
        emitted(alloc, job, nodes.as_slice())
    } else {
        emitted(alloc, job, order)
    }
}

/// States its own cost. Fails where it is 2 to the 32 or more.
fn with_cost(mut program: Program) -> Result<Program, AllocError>
    ensures program { IfOk result (λ p. p ≡ record program { cost = cost_of program }) }
    ensures small { IfOk result (λ p. cost_of p < 2 ^ 32) }
{
    program.cost = u32::try_from(cost(&program)).map_err(|_| AllocError)?;
    Ok(program)
}

/// The program of a job, whose nodes are done in an order. It states its own cost, and as the cost
/// of the kernel as written the number of its units. Fails where the cost is 2 to the 32 or more.
pub(crate) fn program_from(alloc: Global, job: &Job, order: &[Node]) -> Result<Program, AllocError>
    requires sound { IsSound (job_of job.now).ssa }
    requires short { AllByRecursion IsShort (job_of job.now).packs }
    ensures program { IfOk result (λ program. program ≡ program_from (job_of job.now) order.now) }
    ensures small { IfOk result (λ program. cost_of program < 2 ^ 32) }
{
    let params = params_of(alloc, job.ssa.params.as_slice())?;
    let lines = lines_of(alloc, job, order)?;
    with_cost(Program {
        name: job.ssa.name.copy(alloc)?,
        params: Items::from_vec(params),
        lines: Items::from_vec(lines),
        cost: 0,
        scalar: count_values(job.ssa) - job.ssa.arguments() as u32,
    })
}
