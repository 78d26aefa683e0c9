//! The terms of values: canonical, and made of leaves where they are too large.

ghost use Rattle.std.specs.Prelude.{◌≡◌, [], IfOk, OnOk, unwrap_or};
ghost use Rattle.vg_base.specs.Width.{bits_of};
ghost use Rattle.vg_canon.specs.Canonical.{canonical};
ghost use Rattle.vg_known.specs.Cuts.{built, computed, cut, met_with};
ghost use Rattle.vg_known.specs.WiderDifference.{wholes_of};
ghost use Rattle.vg_ssa.specs.ValueTerm.{operation_term};
ghost use Rattle.vg_terms.specs.Term.{Tree, tree};

use crate::classes::Classes;
use crate::form::Form;
use crate::operation::operation_term;
use crate::wholes::Wholes;
use std::alloc::{AllocError, Global};
use vg_base::Width;
use vg_canon::canon;
use vg_shapes::Operator;
use vg_terms::Term;

/// The most nodes of a term that is not made of cut parts.
pub(crate) const MOST_NODES: u64 = 128;

/// The most nodes of a term that is made canonical.
pub(crate) const MOST_BUILT: u64 = 4096;

/// Makes the terms of values: the terms that were met, and how many nodes may still be made canonical.
#[derive(Drop)]
pub struct Maker {
    pub(crate) classes: Classes,
    left: u64,
}

impl Maker {
    /// No term was met, and so many nodes may be made canonical.
    pub fn new(alloc: Global, left: u64) -> Maker
        ensures classes { result.classes ≡ [] }
        ensures left { result.left ≡ left }
    {
        Maker {
            classes: Classes::new(alloc),
            left,
        }
    }

    /// How many nodes may still be made canonical.
    pub fn nodes_left(&self) -> u64
        ensures { result ≡ self.now.left }
    {
        self.left
    }

    /// A term is met. Fails for want of memory alone.
    pub fn meet(&mut self, t: &Form) -> Result<(), AllocError>
        ensures { OnOk result (self.new.classes ≡ met_with self.old.classes t.now) }
    {
        self.classes.meet(t)
    }

    /// The whole terms of what was met. Fails for want of memory, also past 2^24 nodes.
    pub fn wholes(&self, alloc: Global) -> Result<Wholes, AllocError>
        ensures { IfOk result (λ w. w ≡ wholes_of self.now.classes) }
    {
        self.classes.wholes(alloc)
    }

    /// The canonical form of a term. Fails for want of memory, also past the bounds on nodes, and where a
    /// term is not well-formed, which is none of a valid program.
    pub fn settle(&mut self, alloc: Global, t: Term) -> Result<Form, AllocError>
        ensures form { IfOk result (λ f. f ≡ canonical (tree t)) }
        ensures classes { self.new.classes ≡ self.old.classes }
    {
        let count = t.node_count();
        if count > MOST_BUILT || count > self.left || !t.is_well_formed() {
            return Err(AllocError);
        }
        self.left -= count;
        let form = canon(alloc, t)?;
        Form::new(alloc, form)
    }

    /// The canonical form of a term made of whole parts, if that is what a value has; else it is made of
    /// cut parts. Fails as `settle` does.
    pub(crate) fn settle_whole(
        &mut self,
        alloc: Global,
        whole: Term,
    ) -> Result<Option<Form>, AllocError>
        ensures form { IfOk result
            (λ f. (parts : Tree) → built (tree whole) parts ≡ unwrap_or f (canonical parts)) }
        ensures classes { self.new.classes ≡ self.old.classes }
    {
        if whole.node_count() > MOST_BUILT {
            return Ok(None);
        }
        let form = self.settle(alloc, whole)?;
        if form.size() <= MOST_NODES {
            Ok(Some(form))
        } else {
            Ok(None)
        }
    }

    /// The term of an operation of a width and an amount on three terms. Fails as `settle` does.
    pub fn computed(
        &mut self,
        alloc: Global,
        op: Operator,
        width: Width,
        amount: u32,
        x: &Form,
        y: &Form,
        z: &Form,
    ) -> Result<Form, AllocError>
        ensures form { IfOk result
            (λ f. f ≡ computed self.old.classes op (bits_of width) amount x.now y.now z.now) }
        ensures classes { self.new.classes ≡ self.old.classes }
    {
        let whole = operation_term(alloc, op, width, amount, x.term(), y.term(), z.term())?;
        match self.settle_whole(alloc, whole)? {
            Some(form) => Ok(form),
            None => self.computed_of_parts(alloc, op, width, amount, x, y, z),
        }
    }

    // The canonical form of an operation on what three terms are cut to.
    fn computed_of_parts(
        &mut self,
        alloc: Global,
        op: Operator,
        width: Width,
        amount: u32,
        x: &Form,
        y: &Form,
        z: &Form,
    ) -> Result<Form, AllocError>
        ensures form { IfOk result (λ f. f ≡ canonical (operation_term op (bits_of width) amount
            (cut self.old.classes x.now) (cut self.old.classes y.now) (cut self.old.classes
            z.now))) }
        ensures classes { self.new.classes ≡ self.old.classes }
    {
        let x = self.classes.cut(alloc, x)?;
        let y = self.classes.cut(alloc, y)?;
        let z = self.classes.cut(alloc, z)?;
        let parts = operation_term(alloc, op, width, amount, x.term(), y.term(), z.term())?;
        self.settle(alloc, parts)
    }
}
