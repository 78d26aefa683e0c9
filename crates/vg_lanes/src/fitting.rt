//! Whether lanes may be those of an instance.

ghost use Rattle.std.specs.Prelude.{◌≡◌, ◌↔◌, IsTrue, get_or, map};
ghost use Rattle.std.specs.List.{AllByRecursion};
ghost use Rattle.vg_terms.specs.Term.{tree};
ghost use Rattle.vg_shapes.specs.Description.{IsLane};
ghost use Rattle.vg_shapes.specs.Lane.{lane_of};
ghost use Rattle.vg_lanes.specs.Described.{AreLanes, MayBeLane, registers};
ghost use Rattle.vg_lanes.specs.Inside.{is_inside, leaves_inside};

use vg_pseudo::{Header, Param};
use vg_shapes::Lane;
use vg_terms::{LeafKey, Term};

/// The width of the register of a parameter; there is none past the last.
fn register_of(params: &[Param], number: u32) -> u32
    ensures { result ≡ get_or (map (λ p. p.register) params.now) number 0 }
{
    match params.get(number as usize) {
        Some(param) => param.register,
        None => 0,
    }
}

fn is_inside(params: &[Param], width: u32, key: LeafKey) -> bool
    ensures { result ≡ is_inside (map (λ p. p.register) params.now) width key }
{
    if key.kind != 0 || key.third != 0 || key.second < 0 {
        return false;
    }
    let register = u64::from(register_of(params, key.first));
    key.second as u64 + u64::from(width) <= register
}

fn leaves_inside(params: &[Param], term: &Term) -> bool
    ensures { result ≡ leaves_inside (map (λ p. p.register) params.now) (tree term.now) }
{
    match term {
        Term::Leaf { width, key } => is_inside(params, *width, *key),
        Term::Const { .. } => true,
        Term::One { x, .. } => leaves_inside(params, x),
        Term::Two { x, y, .. } => leaves_inside(params, x) && leaves_inside(params, y),
        Term::Sel { c, x, y, .. } => {
            leaves_inside(params, c) && (leaves_inside(params, x) && leaves_inside(params, y))
        }
    }
}

fn is_lane(header: &Header, term: &Term) -> bool
    ensures { IsTrue result ↔ IsLane (registers header.now) header.now.lane_width (tree term.now) }
{
    let formed = term.is_well_formed();
    let wide = term.width() == header.lane_width;
    let inside = leaves_inside(header.params.as_slice(), term);
    formed && (wide && inside)
}

fn is_fit_lane(header: &Header, lane: &Lane) -> bool
    ensures { IsTrue result ↔ MayBeLane header.now (lane_of lane.now) }
{
    match lane {
        Lane::Tree(term) => is_lane(header, term),
        Lane::Big => true,
        Lane::Dynamic => true,
    }
}

fn are_fit_lanes(header: &Header, lanes: &[Lane]) -> bool
    ensures { IsTrue result ↔ AllByRecursion (MayBeLane header.now) (map lane_of lanes.now) }
{
    match lanes {
        [] => true,
        [lane, behind @ ..] => {
            let first = is_fit_lane(header, lane);
            let others = are_fit_lanes(header, behind);
            first && others
        }
    }
}

/// Whether these may be the lanes of an instance of this entry: they fill its result, and the term
/// of each is well-formed, has the width of a lane and reads bits inside the parameters alone.
pub fn are_lanes(header: &Header, lanes: &[Lane]) -> bool
    ensures { IsTrue result ↔ AreLanes header.now (map lane_of lanes.now) }
{
    let width = u64::from(header.lane_width);
    let fill = (lanes.len() as u64).saturating_mul(width) == u64::from(header.register);
    let each = are_fit_lanes(header, lanes);
    fill && each
}
