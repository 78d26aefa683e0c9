//! Lanes whose terms are canonical.

ghost use Rattle.std.specs.Prelude.{◌≡◌, IfOk, map};
ghost use Rattle.std.specs.List.{AllByRecursion};
ghost use Rattle.vg_terms.specs.Term.{tree};
ghost use Rattle.vg_shapes.specs.Lane.{lane_of};
ghost use Rattle.vg_lanes.specs.Described.{canonical_lane};
ghost use Rattle.vg_lanes.specs.Formed.{IsFormed};

use std::alloc::{AllocError, Global};
use vg_canon::canon;
use vg_shapes::Lane;

/// The lane with the canonical form of its term.
fn canonical_lane(alloc: Global, lane: Lane) -> Result<Lane, AllocError>
    requires { IsFormed (lane_of lane) }
    ensures { IfOk result (λ form. lane_of form ≡ canonical_lane (lane_of lane)) }
{
    match lane {
        Lane::Tree(term) => {
            let form = canon(alloc, term)?;
            Ok(Lane::Tree(form))
        }
        Lane::Big => Ok(Lane::Big),
        Lane::Dynamic => Ok(Lane::Dynamic),
    }
}

/// All lanes with the canonical forms of their terms.
pub(crate) fn canonical_lanes(alloc: Global, lanes: Vec<Lane>) -> Result<Vec<Lane>, AllocError>
    requires { AllByRecursion (λ l. IsFormed (lane_of l)) lanes.items }
    ensures { IfOk result (λ forms. map lane_of forms.items ≡
        map (λ l. canonical_lane (lane_of l)) lanes.items) }
{
    let mut forms = Vec::with_capacity(alloc, lanes.len())?;
    'lanes: for lane in lanes {
        let form = canonical_lane(alloc, lane)?;
        forms.push(form)?;
    }
    Ok(forms)
}
