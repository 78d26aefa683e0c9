//! The texts of emitted programs.

ghost use Rattle.std.specs.Prelude.{◌≡◌, IfOk, true};
ghost use Rattle.std.specs.List.{AllByRecursion};
ghost use Rattle.vg_kernel_plans.specs.Taken.{AreNear, IsShort, MatchesNear};
ghost use Rattle.vg_shapes.specs.Sound.{IsSound};

use std::alloc::{AllocError, Global};
use std::test::Fail;
use vg_base::{Items, Name};
use vg_emit::emit;
use vg_kernel::parse_kernel;
use vg_match::build;
use vg_program::print_program;
use vg_shapes::{Bound, Description, Lanes, Match, MatchTable, Node, Order, Pack, Plan, Ssa};
use vg_ssa::number_values;
use vg_terms::{LeafKey, Term, TwoOp, make_const, make_leaf, make_two};

fn numbered(alloc: Global, text: &[u8]) -> Result<Ssa, Fail>
    ensures { IfOk result (λ ssa. IsSound ssa) }
{
    let kernel = parse_kernel(alloc, text)?;
    let ssa = number_values(alloc, &kernel)?;
    Ok(ssa)
}

fn is_short(pack: &Pack) -> bool
    ensures { result ≡ true → IsShort pack.now }
{
    match pack {
        Pack::Stores(units) => units.as_slice().len() <= 64,
        Pack::Loads(units) => units.as_slice().len() <= 64,
        Pack::Call { lanes, .. } => lanes.as_slice().len() <= 64,
    }
}

fn are_short(packs: &[Pack]) -> bool
    ensures { result ≡ true → AllByRecursion IsShort packs.now }
{
    match packs {
        [] => true,
        [first, rest @ ..] => is_short(first) && are_short(rest),
    }
}

fn are_near(bounds: &[Bound]) -> bool
    ensures { result ≡ true → AreNear bounds.now }
{
    match bounds {
        [] => true,
        [first, rest @ ..] => first.key.second < 512 && are_near(rest),
    }
}

fn all_near(matches: &[Match]) -> bool
    ensures { result ≡ true → MatchesNear matches.now }
{
    match matches {
        [] => true,
        [first, rest @ ..] => are_near(first.bound.as_slice()) && all_near(rest),
    }
}

/// The text of the program that is emitted by a plan in an order.
fn printed(
    alloc: Global,
    ssa: &Ssa,
    plan: &Plan,
    order: &Order,
    descriptions: &[Description],
    table: &MatchTable,
) -> Result<Vec<u8>, Fail>
    requires sound { IsSound ssa.now }
{
    if !are_short(plan.as_slice()) || !all_near(table.as_slice()) {
        return Err(Fail::new("a wide pack or a far leaf"));
    }
    let program = emit(alloc, ssa, plan, order, descriptions, table, &[])?;
    Ok(print_program(alloc, &program)?)
}

/// The text of the program that is emitted for a kernel, by these packs in this order.
pub fn emitted(
    alloc: Global,
    kernel: &[u8],
    descriptions: &[Description],
    packs: &[Two],
    order: &[Node],
) -> Result<Vec<u8>, Fail> {
    let ssa = numbered(alloc, kernel)?;
    let table = build(alloc, descriptions, &ssa)?;
    let plan = Plan::from_vec(packs_of(alloc, packs)?);
    let order = Order::from_vec(Vec::from_slice(alloc, order)?);
    printed(alloc, &ssa, &plan, &order, descriptions, &table)
}

/// A pack of two values, the one in lane 0 first.
#[derive(Clone, Copy)]
pub enum Two {
    Loads(u32, u32),
    Stores(u32, u32),
    /// The call of description 0, which has four lanes, of which the two low ones have values.
    Call(u32, u32),
}

/// A call of description 0.
fn call(alloc: Global, low: u32, high: u32) -> Result<Pack, AllocError> {
    let lanes = Lanes::from_slice(alloc, &[Some(low), Some(high), None, None])?;
    Ok(Pack::Call {
        description: 0,
        lanes,
    })
}

fn pack_of(alloc: Global, two: Two) -> Result<Pack, AllocError> {
    match two {
        Two::Loads(low, high) => Ok(Pack::Loads(Lanes::from_slice(alloc, &[low, high])?)),
        Two::Stores(low, high) => Ok(Pack::Stores(Lanes::from_slice(alloc, &[low, high])?)),
        Two::Call(low, high) => call(alloc, low, high),
    }
}

fn packs_of(alloc: Global, all: &[Two]) -> Result<Vec<Pack>, AllocError> {
    let mut packs = Vec::new(alloc);
    for two in all {
        packs.push(pack_of(alloc, *two)?)?;
    }
    Ok(packs)
}

fn leaf(parameter: u32, low: i64) -> Term {
    let key = LeafKey {
        kind: 0,
        first: parameter,
        second: low,
        third: 0,
    };
    make_leaf(32, key)
}

fn sum_at(alloc: Global, low: i64) -> Result<Term, AllocError> {
    make_two(alloc, TwoOp::Add, 32, leaf(0, low), leaf(1, low))
}

fn description(
    alloc: Global,
    name: &[u8],
    params: Vec<u32>,
    low: Term,
    high: Term,
) -> Result<Description, AllocError> {
    let lanes = vec![in alloc; low, high, make_const(32, 0), make_const(32, 0)]?;
    Ok(Description {
        name: Name::new(alloc, name)?,
        imm: None,
        cost: 1,
        params: Items::from_vec(params),
        register: 128,
        lane_width: 32,
        lanes: Items::from_vec(lanes),
    })
}

/// A description that adds the two low lanes of its parameters, and clears the rest.
pub fn add(alloc: Global) -> Result<Description, AllocError> {
    let params = vec![in alloc; 128, 128]?;
    description(alloc, b"add", params, sum_at(alloc, 0)?, sum_at(alloc, 32)?)
}

/// A description that turns the two low lanes of its parameter round, and clears the rest.
pub fn turn(alloc: Global) -> Result<Description, AllocError> {
    let params = vec![in alloc; 128]?;
    description(alloc, b"turn", params, leaf(0, 32), leaf(0, 0))
}
