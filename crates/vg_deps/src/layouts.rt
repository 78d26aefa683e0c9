//! Layouts that respect noalias.

ghost use Rattle.std.specs.Prelude.{◌≡◌, ◌↔◌, ◌+ℤ◌, IsTrue, int_lt, not, pos, true};
ghost use Rattle.std.specs.List.{filter_map};
ghost use Rattle.std.specs.Option.{option_map_or};
ghost use Rattle.vg_base.specs.Address.{place_of};
ghost use Rattle.vg_deps.specs.Layouts.{are_apart, are_respected, is_respected_by, keeps_apart, keeps_apart_from};
ghost use Rattle.vg_shapes.specs.Layout.{access_of, is_noalias, noalias_of, Respects};

use vg_memory::{number_at, place_of};
use vg_shapes::{Access, Ssa, SsaParam, SsaParamKind, SsaUnit};

/// Whether pointers that have these places, in their order, keep what noalias says. Takes no memory.
pub fn respects(ssa: &Ssa, places: &[u64]) -> bool
    ensures { IsTrue result ↔ Respects ssa.now places.now }
{
    are_respected(ssa.params.as_slice(), places, ssa.units.as_slice())
}

fn are_respected(params: &[SsaParam], places: &[u64], units: &[SsaUnit]) -> bool
    ensures { result ≡ are_respected (filter_map (λ p. noalias_of p.kind) params.now) places.now
        units.now }
{
    units
        .iter()
        .all(|unit| is_respected_at(params, places, units, unit))
}

// The same of what one of the units accesses, if it does.
fn is_respected_at(params: &[SsaParam], places: &[u64], units: &[SsaUnit], unit: &SsaUnit) -> bool
    ensures { result ≡ option_map_or (is_respected_by (filter_map (λ p. noalias_of p.kind)
        params.now) places.now units.now) (access_of unit.now) true }
{
    match unit.access() {
        None => true,
        Some(x) => is_respected_by(params, places, units, x),
    }
}

fn is_respected_by(params: &[SsaParam], places: &[u64], units: &[SsaUnit], x: Access) -> bool
    ensures { result ≡ is_respected_by (filter_map (λ p. noalias_of p.kind) params.now) places.now
        units.now x }
{
    !is_noalias(params, x) || keeps_apart_from(places, x, units)
}

// Whether the pointer of an access is noalias.
fn is_noalias(params: &[SsaParam], x: Access) -> bool
    ensures { result ≡ is_noalias (filter_map (λ p. noalias_of p.kind) params.now) x }
{
    let mut rest = params;
    let mut left = x.address.pointer;
    'params: while let [first, behind @ ..] = rest {
        if let SsaParamKind::Pointer { noalias } = first.kind {
            if left == 0 {
                return noalias;
            }
            left -= 1;
        }
        rest = behind;
    }
    false
}

fn keeps_apart_from(places: &[u64], x: Access, units: &[SsaUnit]) -> bool
    ensures { result ≡ keeps_apart_from places.now x units.now }
{
    units.iter().all(|unit| keeps_apart_at(places, x, unit))
}

// The same of what a unit accesses, if it does.
fn keeps_apart_at(places: &[u64], x: Access, unit: &SsaUnit) -> bool
    ensures { result ≡ option_map_or (keeps_apart places.now x) (access_of unit.now) true }
{
    match unit.access() {
        None => true,
        Some(y) => keeps_apart(places, x, y),
    }
}

fn keeps_apart(places: &[u64], x: Access, y: Access) -> bool
    ensures { result ≡ keeps_apart places.now x y }
{
    if x.address.pointer == y.address.pointer {
        return true;
    }
    !(x.writes || y.writes) || are_apart(places, x, y)
}

fn are_apart(places: &[u64], x: Access, y: Access) -> bool
    ensures { result ≡ are_apart places.now x y }
{
    ends_before(places, x, y) || ends_before(places, y, x)
}

// Whether an access ends where another begins, or before.
fn ends_before(places: &[u64], x: Access, y: Access) -> bool
    ensures { result ≡ not (int_lt (place_of places.now y.address) (place_of places.now x.address +ℤ
        pos x.size)) }
{
    !begins_inside(place_of(places, y.address), end_of(places, x))
}

fn begins_inside(begin: i128, end: i128) -> bool
    ensures { result ≡ int_lt begin end }
{
    begin < end
}

// The place after the last byte of an access.
fn end_of(places: &[u64], x: Access) -> i128
    ensures { result ≡ place_of places.now x.address +ℤ pos x.size }
{
    let place = number_at(places, x.address.pointer) as i128;
    place + x.address.offset as i128 + x.size as i128
}
