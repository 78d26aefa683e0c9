//! Paths of nodes that wait for each other.

ghost use Rattle.std.specs.Prelude.{◌≡◌, ◌<◌, ◌≤◌, ◌≢◌, ◌++◌, ◌∷◌, ℕ, [], drop, false, length, slice_index, slice_set, true, IfErr, IfOk, OnOk};
ghost use Rattle.vg_order.specs.Faults.{Closes};
ghost use Rattle.vg_order.specs.Needs.{flag_at};
ghost use Rattle.vg_order.specs.NextNumbers.{AreNext};
ghost use Rattle.vg_order.specs.Paths.{AreUnitsPlaced, GoesBack, home_at, IsAtRest, IsClosing, IsGraph, IsInside, IsProgress, StandsOn, StaysPlaced, Steps};

use crate::fault::OrderFault;
use crate::graph::Graph;
use crate::needs::{flag_at, home_of};
use crate::progress::{Progress, visit};
use std::alloc::{AllocError, Global};
use vg_shapes::DepList;

/// Units whose nodes wait for each other.
#[derive(Drop)]
pub(crate) struct Path {
    /// The units below the top, the first one first. The node of each waits for the next.
    pub units: Vec<u32>,
    /// Of each node, whether one of its units is on the path.
    pub on: Vec<bool>,
}

impl Path {
    // Goes up from the top to a unit of another node for which it waits.
    fn go_up(&mut self, top: u32, node: u32) -> Result<(), AllocError>
        requires { node < length self.old.on.items }
        ensures units { OnOk result (self.new.units.items ≡ self.old.units.items ++ top ∷ []) }
        ensures on { OnOk result (self.new.on.items ≡ slice_set self.old.on.items node true) }
    {
        self.units.push(top)?;
        self.on[node as usize] = true;
        Ok(())
    }

    // Goes back from the top, whose node this is, to the unit below it, if there is one.
    fn go_back(&mut self, node: u32) -> Option<u32>
        requires { node < length self.old.on.items }
        ensures units { GoesBack self.old.units.items self.new.units.items result }
        ensures on { self.new.on.items ≡ slice_set self.old.on.items node false }
    {
        self.on[node as usize] = false;
        self.units.pop()
    }
}

// The index of the first unit of a node, else the number of units.
fn place_in(units: &[u32], homes: &[u32], node: u32) -> usize
    ensures range { result ≤ length units.now }
    ensures found { result < length units.now → slice_index homes.now (slice_index units.now result)
        ≡ node }
    ensures none { result ≡ length units.now → (k : ℕ) → k < length units.now → slice_index
        homes.now (slice_index units.now k) ≢ node }
{
    for k in 0..units.len() {
        if home_of(homes, units[k]) == node {
            return k;
        }
    }
    units.len()
}

// The part of a path from the unit of a node on, with its top.
fn closing(
    alloc: Global,
    homes: &[u32],
    path: &mut Path,
    top: u32,
    node: u32,
) -> Result<Vec<u32>, AllocError>
    ensures { IfOk result (λ units. IsClosing homes.now path.old.units.items top node units.items) }
{
    path.units.push(top)?;
    let first = place_in(path.units.as_slice(), homes, node);
    behind(alloc, path.units.as_slice(), first)
}

// The units from an index on.
fn behind(alloc: Global, units: &[u32], first: usize) -> Result<Vec<u32>, AllocError>
    requires { first ≤ length units.now }
    ensures { IfOk result (λ v. v.items ≡ drop first units.now) }
{
    units[first..].to_vec(alloc)
}

// Places the node of the top where all that it waits for is placed, and goes back; else goes up to a
// unit for which it waits. There is no top any more where the first one was placed.
fn step(
    alloc: Global,
    deps: &DepList,
    graph: &Graph,
    progress: &mut Progress,
    path: &mut Path,
    top: u32,
) -> Result<Option<u32>, OrderFault>
    requires graph { IsGraph deps.now graph.now }
    requires valid { IsProgress deps.now graph.now progress.old }
    requires on_path { StandsOn deps.now graph.now progress.old path.old top }
    requires below { AreUnitsPlaced graph.now progress.old.placed.items (slice_index
        (path.old.units.items ++ top ∷ []) 0) }
    requires next { AreNext deps.now graph.now [] progress.old.order.items }
    ensures valid { OnOk result (IsProgress deps.now graph.now progress.new) }
    ensures steps { IfOk result (λ next. Steps deps.now graph.now progress.old progress.new path.old
        path.new top next) }
    ensures next { OnOk result (AreNext deps.now graph.now [] progress.new.order.items) }
    ensures cycle { IfErr result (λ fault. Closes deps.now graph.now fault) }
{
    let homes = graph.homes.as_slice();
    let node = home_of(homes, top);
    let next = match visit(deps, graph, progress, node)? {
        Some(next) => next,
        None => return Ok(path.go_back(node)),
    };
    let above = home_of(homes, next);
    if flag_at(path.on.as_slice(), above) {
        let units = closing(alloc, homes, path, top, above)?;
        return Err(OrderFault::Cycle(units));
    }
    path.go_up(top, above)?;
    Ok(Some(next))
}

/// Places the node of a unit and all for which it waits, from the deepest on.
pub(crate) fn climb(
    alloc: Global,
    deps: &DepList,
    graph: &Graph,
    progress: &mut Progress,
    path: &mut Path,
    unit: u32,
) -> Result<(), OrderFault>
    requires graph { IsGraph deps.now graph.now }
    requires valid { IsProgress deps.now graph.now progress.old }
    requires rest { IsAtRest graph.now path.old }
    requires unit { IsInside graph.now unit }
    requires waits { flag_at progress.old.placed.items (home_at graph.now unit) ≡ false }
    requires below { AreUnitsPlaced graph.now progress.old.placed.items unit }
    requires next { AreNext deps.now graph.now [] progress.old.order.items }
    ensures valid { OnOk result (IsProgress deps.now graph.now progress.new) }
    ensures rest { OnOk result (IsAtRest graph.now path.new) }
    ensures stays { OnOk result (StaysPlaced progress.old.placed.items progress.new.placed.items) }
    ensures placed { OnOk result (flag_at progress.new.placed.items (home_at graph.now unit) ≡
        true) }
    ensures next { OnOk result (AreNext deps.now graph.now [] progress.new.order.items) }
    ensures cycle { IfErr result (λ fault. Closes deps.now graph.now fault) }
{
    let mut top = unit;
    let node = home_of(graph.homes.as_slice(), top);
    path.on[node as usize] = true;
    'path: loop {
        match step(alloc, deps, graph, progress, path, top)? {
            Some(next) => top = next,
            None => return Ok(()),
        }
    }
}
