//! Plans by their packs, and what they cost.

ghost use Rattle.std.specs.Prelude.{◌≡◌, true};
ghost use Rattle.std.specs.List.{AllByRecursion};
ghost use Rattle.vg_kernel_plans.specs.Taken.{AreNear, IsShort, MatchesNear};

use std::alloc::{AllocError, Global};
use std::test::Fail;
use vg_cost::plan_cost;
use vg_match::build;
use vg_shapes::{Bound, Description, Lanes, Match, Pack, Plan, Ssa};

/// A pack of two units, the one in lane 0 first.
#[derive(Clone, Copy)]
pub enum Two {
    Stores(u32, u32),
    Loads(u32, u32),
    /// Of the first description, which has four lanes.
    Call(u32, u32),
}

/// The pack of these units.
pub fn pack_of(alloc: Global, two: Two) -> Result<Pack, AllocError> {
    match two {
        Two::Stores(low, high) => Ok(Pack::Stores(Lanes::from_slice(alloc, &[low, high])?)),
        Two::Loads(low, high) => Ok(Pack::Loads(Lanes::from_slice(alloc, &[low, high])?)),
        Two::Call(low, high) => {
            let lanes = Lanes::from_slice(alloc, &[Some(low), Some(high), None, None])?;
            Ok(Pack::Call {
                description: 0,
                lanes,
            })
        }
    }
}

/// The plan of these packs.
pub fn plan_of(alloc: Global, packs: &[Two]) -> Result<Plan, AllocError> {
    let mut made = Vec::new(alloc);
    for two in packs {
        let pack = pack_of(alloc, *two)?;
        made.push(pack)?;
    }
    Ok(Plan::from_vec(made))
}

/// Whether a pack has at most 64 lanes.
pub fn is_short(pack: &Pack) -> bool
    ensures { result ≡ true → IsShort pack.now }
{
    match pack {
        Pack::Stores(units) => units.as_slice().len() <= 64,
        Pack::Loads(units) => units.as_slice().len() <= 64,
        Pack::Call { lanes, .. } => lanes.as_slice().len() <= 64,
    }
}

fn are_short(packs: &[Pack]) -> bool
    ensures { result ≡ true → AllByRecursion IsShort packs.now }
{
    match packs {
        [] => true,
        [first, rest @ ..] => is_short(first) && are_short(rest),
    }
}

fn are_near(bounds: &[Bound]) -> bool
    ensures { result ≡ true → AreNear bounds.now }
{
    match bounds {
        [] => true,
        [first, rest @ ..] => first.key.second < 512 && are_near(rest),
    }
}

fn all_near(matches: &[Match]) -> bool
    ensures { result ≡ true → MatchesNear matches.now }
{
    match matches {
        [] => true,
        [first, rest @ ..] => are_near(first.bound.as_slice()) && all_near(rest),
    }
}

/// What the plan of these packs costs.
pub fn cost_of(
    alloc: Global,
    ssa: &Ssa,
    descriptions: &[Description],
    packs: &[Two],
) -> Result<u64, Fail> {
    let table = build(alloc, descriptions, ssa)?;
    let plan = plan_of(alloc, packs)?;
    if !are_short(plan.as_slice()) || !all_near(table.as_slice()) {
        return Err(Fail::new("a wide pack or a far leaf"));
    }
    let cost = plan_cost(alloc, &plan, descriptions, &table, ssa)?;
    Ok(cost)
}
