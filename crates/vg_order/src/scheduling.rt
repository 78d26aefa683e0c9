//! Orders of the packs of a plan and the units outside them.

ghost use Rattle.std.specs.Prelude.{◌≡◌, ◌<◌, ◌++◌, ◌∷◌, ℕ, [], false, length, map, replicate, slice_index_or, true, IfErr, IfOk, OnOk};
ghost use Rattle.vg_order.specs.ByList.{IsOrderBy, NameLesser, NameUnits};
ghost use Rattle.vg_order.specs.Faults.{Closes, Tells};
ghost use Rattle.vg_order.specs.Graphs.{IsGraphOf, node_at};
ghost use Rattle.vg_order.specs.Needs.{flag_at};
ghost use Rattle.vg_order.specs.NextNumbers.{AreNext};
ghost use Rattle.vg_order.specs.Paths.{AreAllPlaced, AreUnitsPlaced, home_at, IsAtRest, IsGraph, IsInside, IsOrdered, IsProgress, IsReady, IsRising, needs_at, start, StaysPlaced};
ghost use Rattle.vg_order.specs.Scheduled.{IsScheduled};
ghost use Rattle.vg_shapes.specs.declared.order.Node.TheVariants.{UnitAt};
ghost use Rattle.vg_shapes.specs.Nodes.{ArePacks};
ghost use Rattle.vg_shapes.specs.Order.{numbers_from};
ghost use Rattle.vg_shapes.specs.Units.{arguments};

use crate::fault::OrderFault;
use crate::graph::{Graph, graph_of};
use crate::needs::{Cursor, flag_at, home_of};
use crate::paths::{Path, climb};
use crate::progress::{Progress, visit};
use std::alloc::{AllocError, Global};
use vg_shapes::{DepList, MatchTable, Node, Order, Plan, Ssa};

// Places the node of a unit and all for which it waits.
fn place(
    alloc: Global,
    deps: &DepList,
    graph: &Graph,
    progress: &mut Progress,
    path: &mut Path,
    unit: u32,
) -> Result<(), OrderFault>
    requires graph { IsGraph deps.now graph.now }
    requires valid { IsProgress deps.now graph.now progress.old }
    requires rest { IsAtRest graph.now path.old }
    requires unit { IsInside graph.now unit }
    requires below { AreUnitsPlaced graph.now progress.old.placed.items unit }
    requires next { AreNext deps.now graph.now [] progress.old.order.items }
    ensures valid { OnOk result (IsProgress deps.now graph.now progress.new) }
    ensures rest { OnOk result (IsAtRest graph.now path.new) }
    ensures stays { OnOk result (StaysPlaced progress.old.placed.items progress.new.placed.items) }
    ensures placed { OnOk result (flag_at progress.new.placed.items (home_at graph.now unit) ≡
        true) }
    ensures ready { OnOk result (flag_at progress.old.placed.items (home_at graph.now unit) ≡ false
        → IsReady deps.now graph.now progress.old.placed.items (home_at graph.now unit) →
        progress.new.order.items ≡ progress.old.order.items ++ home_at graph.now unit ∷ []) }
    ensures next { OnOk result (AreNext deps.now graph.now [] progress.new.order.items) }
    ensures cycle { IfErr result (λ fault. Closes deps.now graph.now fault) }
{
    let node = home_of(graph.homes.as_slice(), unit);
    if flag_at(progress.placed.as_slice(), node) {
        return Ok(());
    }
    match visit(deps, graph, progress, node)? {
        Some(_) => climb(alloc, deps, graph, progress, path, unit),
        None => Ok(()),
    }
}

// Places the nodes of all units, by rising units.
fn place_units(
    alloc: Global,
    deps: &DepList,
    graph: &Graph,
    progress: &mut Progress,
    path: &mut Path,
) -> Result<(), OrderFault>
    requires graph { IsGraph deps.now graph.now }
    requires valid { IsProgress deps.now graph.now progress.old }
    requires rest { IsAtRest graph.now path.old }
    requires none { progress.old.order.items ≡ [] }
    ensures valid { OnOk result (IsProgress deps.now graph.now progress.new) }
    ensures placed { OnOk result (AreUnitsPlaced graph.now progress.new.placed.items (length
        graph.now.homes)) }
    ensures rising { OnOk result (IsRising deps.now graph.now → progress.new.order.items ≡
        numbers_from 0 (length graph.now.needs)) }
    ensures next { OnOk result (AreNext deps.now graph.now [] progress.new.order.items) }
    ensures cycle { IfErr result (λ fault. Closes deps.now graph.now fault) }
{
    let end = graph.homes.as_slice().len();
    'units: for unit in graph.first..end {
        place(alloc, deps, graph, progress, path, unit as u32)?;
    }
    Ok(())
}

// Places a node where the nodes of all units are placed: it waits for none.
fn place_last(
    deps: &DepList,
    graph: &Graph,
    progress: &mut Progress,
    node: u32,
) -> Result<(), AllocError>
    requires graph { IsGraph deps.now graph.now }
    requires valid { IsProgress deps.now graph.now progress.old }
    requires units { AreUnitsPlaced graph.now progress.old.placed.items (length graph.now.homes) }
    requires node { node < length graph.now.needs }
    requires below { AreAllPlaced progress.old.placed.items node }
    requires next { AreNext deps.now graph.now [] progress.old.order.items }
    ensures valid { OnOk result (IsProgress deps.now graph.now progress.new) }
    ensures stays { OnOk result (StaysPlaced progress.old.placed.items progress.new.placed.items) }
    ensures placed { OnOk result (flag_at progress.new.placed.items node ≡ true) }
    ensures same { OnOk result (flag_at progress.old.placed.items node ≡ true →
        progress.new.order.items ≡ progress.old.order.items) }
    ensures next { OnOk result (AreNext deps.now graph.now [] progress.new.order.items) }
{
    if !flag_at(progress.placed.as_slice(), node) {
        visit(deps, graph, progress, node)?;
    }
    Ok(())
}

// Places the packs without units, which are all that is left.
fn place_rest(deps: &DepList, graph: &Graph, progress: &mut Progress) -> Result<(), AllocError>
    requires graph { IsGraph deps.now graph.now }
    requires valid { IsProgress deps.now graph.now progress.old }
    requires units { AreUnitsPlaced graph.now progress.old.placed.items (length graph.now.homes) }
    requires next { AreNext deps.now graph.now [] progress.old.order.items }
    ensures valid { OnOk result (IsProgress deps.now graph.now progress.new) }
    ensures placed { OnOk result (AreAllPlaced progress.new.placed.items (length graph.now.needs)) }
    ensures same { OnOk result (AreAllPlaced progress.old.placed.items (length graph.now.needs) →
        progress.new.order.items ≡ progress.old.order.items) }
    ensures next { OnOk result (AreNext deps.now graph.now [] progress.new.order.items) }
{
    let count = graph.needs.as_slice().len();
    'nodes: for node in 0..count {
        place_last(deps, graph, progress, node as u32)?;
    }
    Ok(())
}

// Nothing is placed.
fn fresh(alloc: Global, count: usize) -> Result<Progress, AllocError>
    ensures order { IfOk result (λ p. p.order.items ≡ []) }
    ensures placed { IfOk result (λ p. p.placed.items ≡ replicate count false) }
    ensures cursors { IfOk result (λ p. p.cursors.items ≡ replicate count start) }
{
    Ok(Progress {
        order: Vec::new(alloc),
        placed: vec![in alloc; false; count]?,
        cursors: vec![in alloc; Cursor { row: 0, index: 0 }; count]?,
    })
}

// A path without units.
fn empty(alloc: Global, count: usize) -> Result<Path, AllocError>
    ensures units { IfOk result (λ p. p.units.items ≡ []) }
    ensures on { IfOk result (λ p. p.on.items ≡ replicate count false) }
{
    Ok(Path {
        units: Vec::new(alloc),
        on: vec![in alloc; false; count]?,
    })
}

// Places all nodes.
fn place_all(alloc: Global, deps: &DepList, graph: &Graph) -> Result<Vec<u32>, OrderFault>
    requires { IsGraph deps.now graph.now }
    ensures order { IfOk result (λ order. IsOrdered (needs_at deps.now graph.now) (home_at
        graph.now) (length graph.now.needs) order.items) }
    ensures rising { IfOk result (λ order. IsRising deps.now graph.now → order.items ≡ numbers_from
        0 (length graph.now.needs)) }
    ensures next { IfOk result (λ order. AreNext deps.now graph.now [] order.items) }
    ensures cycle { IfErr result (λ fault. Closes deps.now graph.now fault) }
{
    let count = graph.needs.as_slice().len();
    let mut progress = fresh(alloc, count)?;
    let mut path = empty(alloc, count)?;
    place_units(alloc, deps, graph, &mut progress, &mut path)?;
    place_rest(deps, graph, &mut progress)?;
    Ok(progress.order)
}

// The node of a number.
fn node_at(nodes: &[Node], number: u32) -> Node
    ensures { result ≡ slice_index_or nodes.now number (UnitAt 0) }
{
    nodes
        .get(number as usize)
        .copied()
        .unwrap_or(Node::UnitAt(0))
}

fn nodes_at(alloc: Global, nodes: &[Node], numbers: &[u32]) -> Result<Vec<Node>, AllocError>
    ensures { IfOk result (λ found. found.items ≡ map (λ n. slice_index_or nodes.now n (UnitAt 0))
        numbers.now) }
{
    numbers
        .iter()
        .map(|number| node_at(nodes, *number))
        .collect(alloc)
}

/// An order of the packs of a plan and the units outside them, each of them once and after all units
/// on which it depends by a list; else units whose nodes wait for each other in a cycle. A call depends
/// on the units to which its lanes are bound. Looks at each pair of the list once or twice.
///
/// There is one such order that it gives: units by rising number, and before a unit all for which its
/// node waits, in the order in which it names them; packs without a unit come last, by rising number.
///
/// Under the empty plan, where units depend on lesser ones alone, the units come in their order. More
/// than 2^24 packs or units are want of memory.
pub fn schedule(
    alloc: Global,
    plan: &Plan,
    table: &MatchTable,
    ssa: &Ssa,
    deps: &DepList,
) -> Result<Order, OrderFault>
    requires packs { ArePacks ssa.now plan.now }
    requires units { NameUnits ssa.now deps.now }
    ensures order { IfOk result (λ order. IsOrderBy deps.now ssa.now table.now plan.now order) }
    ensures cycle { IfErr result (λ fault. Tells deps.now ssa.now table.now plan.now fault) }
    ensures numbers { IfOk result (λ order. plan.now ≡ [] → NameLesser deps.now → order ≡ map UnitAt
        (numbers_from (arguments ssa.now) (length ssa.now.units))) }
    ensures scheduled { IfOk result (λ order. IsScheduled deps.now ssa.now table.now plan.now
        order) }
{
    let graph = graph_of(alloc, plan.as_slice(), table, ssa)?;
    let numbers = place_all(alloc, deps, &graph)?;
    let nodes = nodes_at(alloc, graph.nodes.as_slice(), numbers.as_slice())?;
    Ok(Order::from_vec(nodes))
}
