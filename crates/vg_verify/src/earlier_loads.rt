//! Which earlier load reads what a load reads.

ghost use Rattle.std.specs.Prelude.{◌≡◌, ◌+◌, ◌+ℤ◌, ◌≤◌, ◌^◌, ◌<◌, IfOk, get_or, if◌then◌else◌, int_lt, length, pos};
ghost use Rattle.vg_base.specs.Width.{bits_of};
ghost use Rattle.vg_known.specs.FirstLoads.{first_load, is_load, read_of};
ghost use Rattle.vg_shapes.specs.Depends.{conflict, may_share, overlap};
ghost use Rattle.vg_shapes.specs.Layout.{is_noalias, noalias_flags};
ghost use Rattle.vg_verify.specs.Loads.{is_disturbed};

use std::alloc::{AllocError, Global};
use vg_base::{Address, Width};
use vg_shapes::{Access, Ssa, SsaUnit};

/// Of each pointer of a kernel, in order, whether it is noalias. Fails for want of memory alone.
pub(crate) fn noalias_flags(alloc: Global, ssa: &Ssa) -> Result<Vec<bool>, AllocError>
    ensures { IfOk result (λ flags. flags.items ≡ noalias_flags ssa.now) }
{
    let params = ssa.params.as_slice();
    params
        .iter()
        .filter_map(|p| p.kind.noalias())
        .collect(alloc)
}

// Whether the pointer of an access is noalias, by the flags of all pointers in order.
fn is_noalias(flags: &[bool], x: Access) -> bool
    ensures { result ≡ is_noalias flags.now x }
{
    flags
        .get(x.address.pointer as usize)
        .copied()
        .unwrap_or(false)
}

// Whether an access through a pointer begins before another through that pointer ends.
fn begins_before(x: Access, y: Access) -> bool
    ensures { result ≡ int_lt x.address.offset (y.address.offset +ℤ pos y.size) }
{
    let end = i64::from(y.address.offset) + i64::from(y.size);
    i64::from(x.address.offset) < end
}

// Whether two accesses may share a byte, by the flags of all pointers.
fn may_share(flags: &[bool], x: Access, y: Access) -> bool
    ensures { result ≡ may_share flags.now x y }
{
    if x.address.pointer == y.address.pointer {
        begins_before(x, y) && begins_before(y, x)
    } else {
        !(is_noalias(flags, x) || is_noalias(flags, y))
    }
}

fn conflict(flags: &[bool], x: Access, y: Access) -> bool
    ensures { result ≡ conflict flags.now x y }
{
    (x.writes || y.writes) && may_share(flags, x, y)
}

// Whether a unit is one on which a read depends.
fn is_disturbed(flags: &[bool], read: Access, unit: &SsaUnit) -> bool
    ensures { result ≡ is_disturbed flags.now read unit.now }
{
    match unit.access() {
        None => false,
        Some(access) => conflict(flags, access, read),
    }
}

// Whether a unit is a load of this address and width.
fn is_load(address: Address, width: Width, unit: &SsaUnit) -> bool
    ensures { result ≡ is_load address width unit.now }
{
    match *unit {
        SsaUnit::Load {
            address: other,
            width: of_other,
        } => {
            let same_place = address.pointer == other.pointer && address.offset == other.offset;
            width.bits() == of_other.bits() && same_place
        }
        SsaUnit::Store { .. } => false,
        SsaUnit::Operation { .. } => false,
    }
}

// What a load of this address and width reads.
fn read_of(address: Address, width: Width) -> Access
    ensures { result ≡ read_of address width }
{
    Access {
        address,
        size: width.size(),
        writes: false,
    }
}

// The unit at a place.
pub(crate) fn unit_at(units: &[SsaUnit], place: usize) -> &SsaUnit
    requires { place < length units.now }
    ensures { result.now ≡ get_or units.now place result.now }
{
    &units[place]
}

// The first number where this holds, else the second.
fn either(holds: bool, number: u32, other: u32) -> u32
    ensures { result ≡ (if holds then number else other) }
{
    if holds { number } else { other }
}

/// The number of the first load that reads what a load of the number `own` reads: of the units before it, of
/// which the first has the number `first`, the first load of its address and width after which no unit is one
/// on which it depends; its own number where there is none. Takes a step for each unit back to the last on which
/// it depends.
#[tactic(auto, using(crate::proofs::Loads::looked_none, crate::proofs::Loads::looked_out, crate::proofs::Loads::looked_end, crate::proofs::Loads::looked_more))]
pub(crate) fn first_load(
    flags: &[bool],
    first: u32,
    done: &[SsaUnit],
    own: u32,
    address: Address,
    width: Width,
) -> u32
    requires { first + length done.now < 2 ^ 32 }
    ensures { result ≡ first_load flags.now first done.now own address width }
{
    let read = read_of(address, width);
    let mut found = own;
    let mut place = done.len();
    'units: while place > 0 {
        place -= 1;
        let unit = unit_at(done, place);
        if is_disturbed(flags, read, unit) {
            return found;
        }
        let number = first + place as u32;
        found = either(is_load(address, width, unit), number, found);
    }
    found
}
