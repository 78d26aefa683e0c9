//! The nodes of a plan by number.

ghost use Rattle.std.specs.Prelude.{◌≡◌, ◌≤◌, ◌<◌, ◌+◌, ◌-◌, ◌^◌, ◌++◌, ◌∷◌, ℕ, [], length, map, slice_index, slice_index_or, IfOk, OnOk, Some, None};
ghost use Rattle.std.specs.List.{filter_map};
ghost use Rattle.std.specs.Option.{option_map_or};
ghost use Rattle.vg_order.specs.Graphs.{AreOwners, free_from, IsGraphOf, IsHome, lane_bounds, node_needs, pack_needs, Settles, unit_in, units_among};
ghost use Rattle.vg_order.specs.declared.needs.Needs.TheVariants.{RowsOf};
ghost use Rattle.vg_shapes.specs.declared.order.Node.TheVariants.{PackAt, UnitAt};
ghost use Rattle.vg_shapes.specs.Nodes.{ArePacks, packed};
ghost use Rattle.vg_shapes.specs.Order.{count_of, numbers_from, Stands};
ghost use Rattle.vg_shapes.specs.Pack.{bounds_from, match_at, units_of};

use crate::needs::Needs;
use std::alloc::{AllocError, Global};
use vg_base::Items;
use vg_shapes::{Bound, MatchTable, Node, Pack, Ssa, Wanted};

/// The greatest number of packs, of parameters and of units that are put into an order.
const MOST: usize = 1 << 24;

/// The nodes of a plan by number, on what each depends, and where each unit stands.
pub(crate) struct Graph {
    /// The number of the first unit.
    pub first: usize,
    pub nodes: Items<Node>,
    /// Of each node, on what it depends.
    pub needs: Items<Needs>,
    /// Of each unit, by its number, the number of its node.
    pub homes: Items<u32>,
}

/// Written out, so that the exits of an owner call it: a derived one would be proved anew at each.
impl Drop for Graph {
    fn drop(self) {
        let Graph {
            first: _,
            nodes: _,
            needs: _,
            homes: _,
        } = self;
    }
}

/// Nodes, and of each on what it depends.
#[derive(Drop)]
struct NodeList {
    nodes: Vec<Node>,
    needs: Vec<Needs>,
}

impl NodeList {
    fn push(&mut self, node: Node, needs: Needs) -> Result<(), AllocError>
        ensures nodes { OnOk result (self.new.nodes.items ≡ self.old.nodes.items ++ node ∷ []) }
        ensures needs { OnOk result (self.new.needs.items ≡ self.old.needs.items ++ needs ∷ []) }
    {
        self.nodes.push(node)?;
        self.needs.push(needs)?;
        Ok(())
    }
}

// ---- on what a pack depends

// The unit that is wanted, if any. The units have the numbers from the first one up to the end.
fn unit_in(first: usize, end: usize, wanted: Wanted) -> Option<u32>
    ensures { result ≡ unit_in first end wanted }
{
    match wanted {
        Wanted::Value(value) => {
            if first <= value as usize && (value as usize) < end {
                Some(value)
            } else {
                None
            }
        }
        Wanted::Constant { .. } => None,
        Wanted::Nothing => None,
    }
}

// The units to which leaves are bound.
fn units_among(
    alloc: Global,
    first: usize,
    end: usize,
    bounds: &[Bound],
) -> Result<Vec<u32>, AllocError>
    ensures { IfOk result (λ units. units.items ≡ units_among first end bounds.now) }
{
    bounds
        .iter()
        .filter_map(|bound| unit_in(first, end, bound.wanted))
        .collect(alloc)
}

// What the leaves of a lane of a description are bound to, where it computes a value.
fn lane_bounds(table: &MatchTable, description: u32, lane: u32, value: Option<u32>) -> &[Bound]
    ensures { result.now ≡ lane_bounds table.now description lane value }
{
    match value {
        Some(value) => match_bounds(table, description, lane, value),
        None => &[],
    }
}

fn match_bounds(table: &MatchTable, description: u32, lane: u32, value: u32) -> &[Bound]
    ensures { result.now ≡ option_map_or (λ m. m.bound) (match_at table.now description lane value)
        [] }
{
    match table.get(description, lane, value) {
        Some(found) => found.bound.as_slice(),
        None => &[],
    }
}

// The units to which the leaves of all lanes of a call are bound.
fn call_units(
    alloc: Global,
    table: &MatchTable,
    first: usize,
    end: usize,
    description: u32,
    lanes: &[Option<u32>],
) -> Result<Vec<u32>, AllocError>
    ensures { IfOk result (λ units. units.items ≡ units_among first end (bounds_from table.now
        description 0 lanes.now)) }
{
    if lanes.len() > MOST {
        return Err(AllocError);
    }
    let mut units = Vec::new(alloc);
    'lanes: for lane in 0..lanes.len() {
        let bounds = lane_bounds(table, description, lane as u32, lanes[lane]);
        let more = units_among(alloc, first, end, bounds)?;
        units.extend_from_slice(more.as_slice())?;
    }
    Ok(units)
}

fn pack_needs(
    alloc: Global,
    table: &MatchTable,
    first: usize,
    end: usize,
    pack: &Pack,
) -> Result<Needs, AllocError>
    ensures { IfOk result (λ needs. needs ≡ pack_needs first end table.now pack.now) }
{
    match pack {
        Pack::Stores(units) => {
            let units = units.as_slice().to_vec(alloc)?;
            Ok(Needs::RowsOf(Items::from_vec(units)))
        }
        Pack::Loads(units) => {
            let units = units.as_slice().to_vec(alloc)?;
            Ok(Needs::RowsOf(Items::from_vec(units)))
        }
        Pack::Call { description, lanes } => {
            let units = call_units(alloc, table, first, end, *description, lanes.as_slice())?;
            Ok(Needs::Those(Items::from_vec(units)))
        }
    }
}

// The packs as nodes.
fn pack_nodes(
    alloc: Global,
    table: &MatchTable,
    first: usize,
    end: usize,
    packs: &[Pack],
) -> Result<NodeList, AllocError>
    requires { length packs.now < 2 ^ 32 }
    ensures nodes { IfOk result (λ list. list.nodes.items ≡ map PackAt (numbers_from 0 (length
        packs.now))) }
    ensures needs { IfOk result (λ list. list.needs.items ≡ map (node_needs first end table.now
        packs.now) list.nodes.items) }
{
    let mut list = NodeList {
        nodes: Vec::new(alloc),
        needs: Vec::new(alloc),
    };
    'packs: for pack in 0..packs.len() {
        let needs = pack_needs(alloc, table, first, end, &packs[pack])?;
        list.push(Node::PackAt(pack as u32), needs)?;
    }
    Ok(list)
}

// ---- the nodes of units

fn units_of(alloc: Global, pack: &Pack) -> Result<Vec<u32>, AllocError>
    ensures { IfOk result (λ units. units.items ≡ units_of pack.now) }
{
    match pack {
        Pack::Stores(units) => units.as_slice().to_vec(alloc),
        Pack::Loads(units) => units.as_slice().to_vec(alloc),
        Pack::Call { lanes, .. } => computed(alloc, lanes.as_slice()),
    }
}

// The units that lanes compute.
fn computed(alloc: Global, lanes: &[Option<u32>]) -> Result<Vec<u32>, AllocError>
    ensures { IfOk result (λ units. units.items ≡ filter_map (λ lane. lane) lanes.now) }
{
    lanes.iter().filter_map(|lane| *lane).collect(alloc)
}

// Makes a pack the owner of units.
fn own(owners: &mut Vec<Option<u32>>, units: &[u32], pack: u32)
    requires { (x : ℕ) → Stands x units.now → x < length owners.old.items }
    ensures theirs { (x : ℕ) → Stands x units.now → slice_index_or owners.new.items x None ≡ Some
        pack }
    ensures others { (x : ℕ) → count_of x units.now ≡ 0 → slice_index_or owners.new.items x None ≡
        slice_index_or owners.old.items x None }
    ensures long { length owners.new.items ≡ length owners.old.items }
{
    for k in 0..units.len() {
        owners[units[k] as usize] = Some(pack);
    }
}

// Of each number of a value below the end, the pack of which it is a unit, if any.
fn owners(alloc: Global, packs: &[Pack], end: usize) -> Result<Vec<Option<u32>>, AllocError>
    requires few { length packs.now < 2 ^ 32 }
    requires inside { (x : ℕ) → Stands x (packed packs.now) → x < end }
    ensures long { IfOk result (λ owners. length owners.items ≡ end) }
    ensures owners { IfOk result (λ owners. AreOwners packs.now packs.now owners.items) }
{
    let mut owners = vec![in alloc; None; end]?;
    'packs: for pack in 0..packs.len() {
        let units = units_of(alloc, &packs[pack])?;
        own(&mut owners, units.as_slice(), pack as u32);
    }
    Ok(owners)
}

// The node of a unit with this owner. Without one it is a new node.
fn settle(
    alloc: Global,
    list: &mut NodeList,
    unit: u32,
    owner: Option<u32>,
) -> Result<u32, AllocError>
    requires { length list.old.nodes.items < 2 ^ 32 }
    ensures { IfOk result (λ home. Settles unit list.old.nodes.items list.new.nodes.items
        list.old.needs.items list.new.needs.items home owner) }
{
    if let Some(pack) = owner {
        return Ok(pack);
    }
    let home = list.nodes.len() as u32;
    let units = vec![in alloc; unit]?;
    list.push(Node::UnitAt(unit), Needs::RowsOf(Items::from_vec(units)))?;
    Ok(home)
}

// The numbers of the nodes of all units. Those that no pack owns are put after the other nodes.
fn homes(
    alloc: Global,
    list: &mut NodeList,
    owners: &[Option<u32>],
    first: usize,
) -> Result<Vec<u32>, AllocError>
    requires first { first ≤ length owners.now }
    requires few { length list.old.nodes.items + length owners.now < 2 ^ 32 }
    ensures long { IfOk result (λ homes. length homes.items ≡ length owners.now) }
    ensures nodes { OnOk result (list.new.nodes.items ≡ list.old.nodes.items ++ map UnitAt
        (free_from owners.now first (length owners.now))) }
    ensures needs { OnOk result (list.new.needs.items ≡ list.old.needs.items ++ map (λ v. RowsOf (v
        ∷ [])) (free_from owners.now first (length owners.now))) }
    ensures homes { IfOk result (λ homes. (x : ℕ) → first ≤ x → x < length owners.now → IsHome
        list.new.nodes.items x (slice_index homes.items x) (slice_index_or owners.now x None)) }
{
    let mut homes = vec![in alloc; 0u32; first]?;
    'units: for unit in first..owners.len() {
        let home = settle(alloc, list, unit as u32, owners[unit])?;
        homes.push(home)?;
    }
    Ok(homes)
}

/// The graph of a plan. More than 2^24 packs, parameters or units are want of memory.
pub(crate) fn graph_of(
    alloc: Global,
    packs: &[Pack],
    table: &MatchTable,
    ssa: &Ssa,
) -> Result<Graph, AllocError>
    requires { ArePacks ssa.now packs.now }
    ensures { IfOk result (λ g. IsGraphOf ssa.now table.now packs.now g) }
{
    let first = ssa.arguments();
    let count = ssa.units.as_slice().len();
    if packs.len() > MOST || first > MOST || count > MOST {
        return Err(AllocError);
    }
    let end = first + count;
    let mut list = pack_nodes(alloc, table, first, end, packs)?;
    let owners = owners(alloc, packs, end)?;
    let homes = homes(alloc, &mut list, owners.as_slice(), first)?;
    Ok(Graph {
        first,
        nodes: Items::from_vec(list.nodes),
        needs: Items::from_vec(list.needs),
        homes: Items::from_vec(homes),
    })
}
