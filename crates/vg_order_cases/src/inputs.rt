//! Kernels, packs and dependences to be put into an order.

ghost use Rattle.std.specs.Prelude.{◌≡◌, ◌∷◌, ◌++◌, [], length, map, nat_lt, IfOk};
ghost use Rattle.std.specs.List.{list_all};
ghost use Rattle.vg_order_cases.specs.Inputs.{are_below, are_once, HasUnits};
ghost use Rattle.vg_shapes.specs.declared.pack.Pack.TheVariants.{Loads};

use std::alloc::{AllocError, Global};
use vg_base::{Address, Items, Name, Width};
use vg_order::{OrderFault, schedule};
use vg_shapes::{DepList, Lanes, MatchTable, Node, Order, Pack, Plan, Ssa, SsaUnit};

/// What came of a plan: the order, or the units of a cycle.
#[derive(Drop)]
pub enum Outcome {
    Order(Vec<Node>),
    Cycle(Vec<u32>),
    /// The packs or the dependences do not fit the kernel.
    Unfit,
}

/// A kernel of so many loads of bytes.
fn kernel(alloc: Global, count: usize) -> Result<Ssa, AllocError>
    ensures { IfOk result (λ ssa. HasUnits ssa count) }
{
    let load = SsaUnit::Load {
        address: Address {
            pointer: 0,
            offset: 0,
        },
        width: Width::W8,
    };
    let units = vec![in alloc; load; count]?;
    Ok(Ssa {
        name: Name::new(alloc, b"k")?,
        params: Items::from_vec(Vec::new(alloc)),
        units: Items::from_vec(units),
        terms: Items::from_vec(Vec::new(alloc)),
        cuts: Items::from_vec(Vec::new(alloc)),
    })
}

// Whether numbers are below this one, each once.
fn are_once(count: usize, units: &[u32]) -> bool
    ensures { result ≡ are_once count units.now }
{
    let mut rest = units;
    'units: while let [unit, behind @ ..] = rest {
        if count <= *unit as usize || behind.contains(unit) {
            return false;
        }
        rest = behind;
    }
    true
}

fn is_below(count: usize, row: &[u32]) -> bool
    ensures { result ≡ list_all (λ x. nat_lt x count) row.now }
{
    row.iter().all(|x| (*x as usize) < count)
}

fn are_below(count: usize, rows: &[Items<u32>]) -> bool
    ensures { result ≡ are_below count rows.now }
{
    rows.iter().all(|row| is_below(count, row.as_slice()))
}

fn two_packs(alloc: Global, first: &[u32], second: &[u32]) -> Result<Plan, AllocError>
    ensures { IfOk result (λ plan. plan ≡ Loads first.now ∷ Loads second.now ∷ []) }
{
    let one = Pack::Loads(Lanes::from_slice(alloc, first)?);
    let other = Pack::Loads(Lanes::from_slice(alloc, second)?);
    let packs = vec![in alloc; one, other]?;
    Ok(Plan::from_vec(packs))
}

fn told(alloc: Global, came: Result<Order, OrderFault>) -> Result<Outcome, AllocError> {
    match came {
        Ok(order) => Ok(Outcome::Order(order.as_slice().to_vec(alloc)?)),
        Err(OrderFault::Cycle(units)) => Ok(Outcome::Cycle(units)),
        Err(OrderFault::Memory(e)) => Err(e),
    }
}

/// What comes of two packs in a kernel of so many loads that depend on each other by rows.
pub fn with_packs(
    alloc: Global,
    count: usize,
    first: &[u32],
    second: &[u32],
    rows: Vec<Items<u32>>,
) -> Result<Outcome, AllocError> {
    let mut all = Vec::from_slice(alloc, first)?;
    all.extend_from_slice(second)?;
    if !are_once(count, all.as_slice()) || !are_below(count, rows.as_slice()) {
        return Ok(Outcome::Unfit);
    }
    let ssa = kernel(alloc, count)?;
    let plan = two_packs(alloc, first, second)?;
    let deps = DepList::from_rows(Items::from_vec(rows));
    let table = MatchTable::from_vec(Vec::new(alloc));
    told(alloc, schedule(alloc, &plan, &table, &ssa, &deps))
}

/// The same without packs.
pub fn unpacked(alloc: Global, count: usize, rows: Vec<Items<u32>>) -> Result<Outcome, AllocError> {
    if !are_below(count, rows.as_slice()) {
        return Ok(Outcome::Unfit);
    }
    let ssa = kernel(alloc, count)?;
    let plan = Plan::from_vec(Vec::new(alloc));
    let deps = DepList::from_rows(Items::from_vec(rows));
    let table = MatchTable::from_vec(Vec::new(alloc));
    told(alloc, schedule(alloc, &plan, &table, &ssa, &deps))
}
