//! Marks on the numbers of values and units.

ghost use Rattle.std.specs.Prelude.{◌≡◌, ◌∷◌, [], IfOk, false, flat_map, replicate, slice_set, true};
ghost use Rattle.std.specs.List.{filter_map};
ghost use Rattle.vg_shapes.specs.Pack.{units_of};
ghost use Rattle.vg_kernel_plans.specs.Wants.{value_of};
ghost use Rattle.vg_emit.specs.Marks.{is_marked, marked};

use std::alloc::{AllocError, Global};
use std::marker::Model;
use vg_shapes::{Pack, Wanted};

/// Marks on the numbers from 0 on. Contracts see them as a list with `true` where a number is
/// marked.
#[derive(Drop)]
pub(crate) struct Marks {
    all: Vec<bool>,
}

impl Model for Marks {
    ghost use Rattle.std.specs.Prelude.{Bool, List};

    ghost Value = { List Bool };

    ghost view = { λ s. s.all.items };
}

impl Marks {
    /// Places for so many marks, none of them set.
    pub(crate) fn new(alloc: Global, count: usize) -> Result<Marks, AllocError>
        ensures { IfOk result (λ marks. marks ≡ replicate count false) }
    {
        let all = vec![in alloc; false; count]?;
        Ok(Marks { all })
    }

    /// Whether a number is marked.
    pub(crate) fn has(&self, number: u32) -> bool
        ensures { result ≡ is_marked self.now number }
    {
        match self.all.as_slice().get(number as usize) {
            Some(mark) => *mark,
            None => false,
        }
    }

    /// Marks a number, if there is a place for its mark.
    fn mark(&mut self, number: u32)
        ensures { self.new ≡ slice_set self.old number true }
    {
        let place = number as usize;
        if place < self.all.len() {
            self.all[place] = true;
        }
    }

    /// Marks all these numbers.
    pub(crate) fn mark_all(&mut self, numbers: &[u32])
        ensures { self.new ≡ marked self.old numbers.now }
    {
        'numbers: for number in numbers {
            self.mark(*number);
        }
    }

    /// Marks the number of a value, if one is wanted.
    pub(crate) fn mark_wanted(&mut self, wanted: Wanted)
        ensures { self.new ≡ marked self.old (filter_map value_of (wanted ∷ [])) }
    {
        match wanted {
            Wanted::Value(value) => self.mark(value),
            Wanted::Constant { .. } => {}
            Wanted::Nothing => {}
        }
    }

    fn mark_lane(&mut self, lane: Option<u32>)
        ensures { self.new ≡ marked self.old (filter_map (λ v. v) (lane ∷ [])) }
    {
        if let Some(value) = lane {
            self.mark(value);
        }
    }

    fn mark_lanes(&mut self, lanes: &[Option<u32>])
        ensures { self.new ≡ marked self.old (filter_map (λ v. v) lanes.now) }
    {
        'lanes: for lane in lanes {
            self.mark_lane(*lane);
        }
    }

    /// Marks the units of a pack.
    fn mark_pack(&mut self, pack: &Pack)
        ensures { self.new ≡ marked self.old (units_of pack.now) }
    {
        match pack {
            Pack::Stores(units) => self.mark_all(units.as_slice()),
            Pack::Loads(units) => self.mark_all(units.as_slice()),
            Pack::Call { lanes, .. } => self.mark_lanes(lanes.as_slice()),
        }
    }

    /// Marks the units of packs.
    pub(crate) fn mark_packs(&mut self, packs: &[Pack])
        ensures { self.new ≡ marked self.old (flat_map units_of packs.now) }
    {
        'packs: for pack in packs {
            self.mark_pack(pack);
        }
    }
}
