//! Whether two terms count as equal.

ghost use Rattle.std.specs.Prelude.{◌≡◌, IfOk, None};
ghost use Rattle.vg_known.specs.WiderDifference.{equality, wholes_of};
ghost use Rattle.vg_verify.specs.Comparers.{HasWholes, IsStill, Takes};

use std::alloc::{AllocError, Global};
use vg_forms::{Form, Maker, Wholes};

/// Holds terms against each other: as they stand, or with `more` as whole terms and as sums, too.
#[derive(Drop)]
pub(crate) struct Comparer {
    pub(crate) more: bool,
    pub(crate) maker: Maker,
    /// Those of what was met, once they are wanted.
    pub(crate) wholes: Option<Wholes>,
}

impl Comparer {
    /// Of the terms that a maker met.
    pub(crate) fn new(more: bool, maker: Maker) -> Comparer
        ensures { Takes more maker result }
    {
        Comparer {
            more,
            maker,
            wholes: None,
        }
    }

    /// The whole terms of what was met, which are made where they are wanted first.
    fn take_wholes(&mut self, alloc: Global) -> Result<Wholes, AllocError>
        requires { HasWholes self.old }
        ensures wholes { IfOk result (λ w. w ≡ wholes_of self.old.maker.classes) }
        ensures more { self.new.more ≡ self.old.more }
        ensures classes { self.new.maker.classes ≡ self.old.maker.classes }
        ensures none { self.new.wholes ≡ None }
    {
        match self.wholes.take() {
            Some(wholes) => Ok(wholes),
            None => self.maker.wholes(alloc),
        }
    }

    /// Whether two terms count as equal. Fails for want of memory, also past 2^24 nodes of whole terms, and
    /// as `Maker::settle` does.
    pub(crate) fn are_equal(
        &mut self,
        alloc: Global,
        t: &Form,
        u: &Form,
    ) -> Result<bool, AllocError>
        requires { HasWholes self.old }
        ensures is { IfOk result
            (λ same. same ≡ equality self.old.more self.old.maker.classes t.now u.now) }
        ensures still { IsStill self.old self.new }
    {
        if t == u {
            return Ok(true);
        }
        if !self.more {
            return Ok(false);
        }
        let mut wholes = self.take_wholes(alloc)?;
        let same = wholes.are_equal(alloc, &mut self.maker, t, u);
        self.wholes = Some(wholes);
        same
    }
}
