//! Where a store may meet what was loaded before it.

ghost use Rattle.std.specs.Prelude.{◌≡◌, ◌+ℤ◌, ◌+◌, ◌-◌, ◌<◌, ◌≤◌, ◌^◌, Option, IfOk, get_or, int_lt, pos};
ghost use Rattle.vg_rewrite.specs.Marks.{numbers};
ghost use Rattle.vg_rewrite.specs.Meetings.{reaches_of, units_apart};
ghost use Rattle.vg_rewrite.specs.Repeated.{meets_between};
ghost use Rattle.vg_shapes.specs.Depends.{conflict, conflict_of, may_share, overlap};
ghost use Rattle.vg_shapes.specs.Layout.{access_of, is_noalias, noalias_flags};

use std::alloc::{AllocError, Global};
use vg_shapes::{Access, Ssa, SsaUnit};

// Whether the pointer of an access is noalias, by the flags of all pointers in order.
fn is_noalias(flags: &[bool], x: Access) -> bool
    ensures { result ≡ is_noalias flags.now x }
{
    flags
        .get(x.address.pointer as usize)
        .copied()
        .unwrap_or(false)
}

// Whether an access through a pointer begins before another through that pointer ends.
fn begins_before(x: Access, y: Access) -> bool
    ensures { result ≡ int_lt x.address.offset (y.address.offset +ℤ pos y.size) }
{
    let end = y.address.offset as i64 + y.size as i64;
    (x.address.offset as i64) < end
}

// Whether two accesses through one pointer share a byte.
fn overlap(x: Access, y: Access) -> bool
    ensures { result ≡ overlap x y }
{
    begins_before(x, y) && begins_before(y, x)
}

fn may_share(flags: &[bool], x: Access, y: Access) -> bool
    ensures { result ≡ may_share flags.now x y }
{
    if x.address.pointer == y.address.pointer {
        overlap(x, y)
    } else {
        !(is_noalias(flags, x) || is_noalias(flags, y))
    }
}

fn conflict(flags: &[bool], x: Access, y: Access) -> bool
    ensures { result ≡ conflict flags.now x y }
{
    (x.writes || y.writes) && may_share(flags, x, y)
}

// Whether a unit may meet an access.
fn meets(flags: &[bool], x: Access, unit: &SsaUnit) -> bool
    ensures { result ≡ conflict_of flags.now (Option.Some x) (access_of unit.now) }
{
    match unit.access() {
        None => false,
        Some(y) => conflict(flags, x, y),
    }
}

// Of each pointer in order, whether it is noalias.
fn noalias_flags(alloc: Global, ssa: &Ssa) -> Result<Vec<bool>, AllocError>
    ensures { IfOk result (λ flags. flags.items ≡ noalias_flags ssa.now) }
{
    let params = ssa.params.as_slice();
    params
        .iter()
        .filter_map(|p| p.kind.noalias())
        .collect(alloc)
}

// How many units there are before the first that may meet an access.
#[tactic(auto, using(crate::proofs::Meeting::counted))]
fn units_before(flags: &[bool], access: Access, behind: &[SsaUnit]) -> usize
    ensures { result ≡ units_apart flags.now (Option.Some access) behind.now }
{
    behind
        .iter()
        .take_while(|later| !meets(flags, access, later))
        .count()
}

fn units_apart(flags: &[bool], access: Option<Access>, behind: &[SsaUnit]) -> usize
    ensures { result ≡ units_apart flags.now access behind.now }
{
    match access {
        None => behind.len(),
        Some(access) => units_before(flags, access, behind),
    }
}

/// For each unit how many units behind it there are before one that may meet its access.
pub(crate) fn reaches(alloc: Global, ssa: &Ssa) -> Result<Vec<usize>, AllocError>
    ensures { IfOk result (λ all. all.items ≡ reaches_of ssa.now) }
{
    let flags = noalias_flags(alloc, ssa)?;
    let mut all = Vec::new(alloc);
    let mut rest = ssa.units.as_slice();
    'units: while let [unit, behind @ ..] = rest {
        all.push(units_apart(&flags, unit.access(), behind))?;
        rest = behind;
    }
    Ok(all)
}

// The reach of the unit at an index.
fn reach_at(reaches: &[usize], index: usize) -> usize
    ensures { result ≡ get_or reaches.now index (2 ^ 64 - 1) }
{
    reaches.get(index).copied().unwrap_or(usize::MAX)
}

// How many numbers there are between two.
fn numbers_between(number: usize, other: usize) -> usize
    requires { number < 2 ^ 32 }
    ensures { result ≡ other - (number + 1) }
{
    other.saturating_sub(number + 1)
}

/// Whether a unit between two numbers may meet the access of the first. These are the reaches of
/// all units.
pub(crate) fn meets_between(ssa: &Ssa, reaches: &[usize], load: u32, user: u32) -> bool
    requires reaches { reaches.now ≡ reaches_of ssa.now }
    requires user { user ≤ numbers ssa.now }
    ensures { result ≡ meets_between ssa.now load user }
{
    let first = ssa.arguments();
    let load = load as usize;
    if load < first {
        return false;
    }
    reach_at(reaches, load - first) < numbers_between(load, user as usize)
}
