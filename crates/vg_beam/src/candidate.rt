//! Plans that are met.

ghost use Rattle.std.specs.Prelude.{◌≡◌, IfOk, None};
ghost use Rattle.vg_beam.specs.Grown.{least_from};
ghost use Rattle.vg_plans.specs.Levels.{kept_of};

use std::alloc::AllocError;

/// A plan that was kept with a pack after it: the place of the plan in its level, the number of the
/// pack, and what they cost together.
#[derive(Clone, Copy)]
pub(crate) struct Candidate {
    pub(crate) parent: usize,
    pub(crate) pack: u32,
    pub(crate) cost: u64,
}

/// The first candidate of the least cost, if one costs less than a bound.
pub(crate) fn least_below(met: &[Candidate], bound: u64) -> Option<Candidate>
    ensures { result ≡ least_from (λ c. c.cost) bound None met.now }
{
    let mut least = None;
    let mut cost = bound;
    'candidates: for candidate in met {
        if candidate.cost < cost {
            least = Some(*candidate);
            cost = candidate.cost;
        }
    }
    least
}

/// All candidates where there are no more than so many, else the first so many by rising cost.
pub(crate) fn keep(met: Vec<Candidate>, width: usize) -> Result<Vec<Candidate>, AllocError>
    ensures { IfOk result (λ kept. kept.items ≡ kept_of (λ c. c.cost) width met.items) }
{
    if met.len() <= width {
        return Ok(met);
    }
    let mut kept = met;
    kept.sort_by_key(|candidate| candidate.cost)?;
    kept.truncate(width);
    Ok(kept)
}
