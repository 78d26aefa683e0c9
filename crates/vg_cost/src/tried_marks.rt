//! Marks of a pack that is tried after a plan.

ghost use Rattle.std.specs.Prelude.{◌≡◌, length};
ghost use Rattle.vg_cost.specs.Marks.{Has, Marked};
ghost use Rattle.vg_shapes.specs.Pack.{units_of};

use crate::marks::{clear, mark_pack};
use vg_shapes::Pack;

/// Marks of the pack that is tried after a plan, for as many numbers each.
pub(crate) struct TriedMarks {
    /// Those of the units of the plan and of the pack.
    pub(crate) longer: Vec<bool>,
    /// Those of the units of the pack.
    pub(crate) own: Vec<bool>,
    /// How often each value is needed.
    pub(crate) counts: Vec<u32>,
    /// The marks of the numbers for which something may have changed.
    pub(crate) changed: Vec<bool>,
}

/// Written out, so that the exits of an owner call it: a derived one would be proved anew at each.
impl Drop for TriedMarks {
    fn drop(self) {
        let TriedMarks {
            longer: _,
            own: _,
            counts: _,
            changed: _,
        } = self;
    }
}

impl TriedMarks {
    /// Marks a pack as the one that is tried after the plan whose units are marked.
    pub(crate) fn enter(&mut self, plan: &[bool], pack: &Pack)
        requires { length self.old.longer.items ≡ length plan.now }
        ensures longer { Marked (units_of pack.now) plan.now self.new.longer.items }
        ensures own { Has (length self.old.own.items) (units_of pack.now) self.new.own.items }
        ensures counts { self.new.counts ≡ self.old.counts }
        ensures changed { self.new.changed ≡ self.old.changed }
    {
        self.longer.copy_from_slice(plan);
        mark_pack(self.longer.as_mut_slice(), pack);
        clear(self.own.as_mut_slice());
        mark_pack(self.own.as_mut_slice(), pack);
    }

    /// Takes how often each value is needed by the plan. The units of the pack are what has changed.
    pub(crate) fn count(&mut self, counts: &[u32])
        requires counts { length self.old.counts.items ≡ length counts.now }
        requires changed { length self.old.changed.items ≡ length self.old.own.items }
        ensures longer { self.new.longer ≡ self.old.longer }
        ensures own { self.new.own ≡ self.old.own }
        ensures counts { self.new.counts.items ≡ counts.now }
        ensures changed { self.new.changed.items ≡ self.old.own.items }
    {
        self.counts.copy_from_slice(counts);
        self.changed.copy_from_slice(self.own.as_slice());
    }
}
