//! The terms that were met, by their classes.

ghost use Rattle.std.specs.Prelude.{◌≡◌, [], IfOk, OnOk, Some};
ghost use Rattle.vg_known.specs.Cuts.{cut, is_atom, leaf_for, met_with};
ghost use Rattle.vg_known.specs.WiderDifference.{wholes_of};
ghost use Rattle.vg_shapes.specs.Sound.{cut_key};
ghost use Rattle.vg_terms.specs.Term.{tree};

use crate::form::Form;
use crate::wholes::Wholes;
use indexmap::IndexSet;
use std::alloc::{AllocError, Global};
use std::marker::Model;
use vg_terms::{LeafKey, Term, make_leaf};

/// The terms that were met, each once; the place of a term is its class. Contracts see the list of them.
#[derive(Drop)]
pub struct Classes {
    met: IndexSet<Form>,
}

impl Model for Classes {
    ghost use Rattle.std.specs.Prelude.{List};
    ghost use Rattle.vg_terms.specs.Term.{Tree};
    ghost use Rattle.indexmap.specs.IndexSet.{IsUnique};
    ghost use Rattle.std.specs.Coded.{coded_list};
    ghost use Rattle.vg_forms.specs.Coded.{tree_code};

    ghost Value = { List Tree };

    ghost coded = { coded_list tree_code };

    ghost view = { λ c. c.met.keys };
}

/// Whether a term is a leaf or a constant, which are never cut.
fn is_atom(t: &Term) -> bool
    ensures { result ≡ is_atom (tree t.now) }
{
    match t {
        Term::Leaf { .. } => true,
        Term::Const { .. } => true,
        Term::One { .. } => false,
        Term::Two { .. } => false,
        Term::Sel { .. } => false,
    }
}

/// The key of the leaf of a class.
fn cut_key(class: u32) -> LeafKey
    ensures { result ≡ cut_key class }
{
    LeafKey {
        kind: 3,
        first: class,
        second: 0,
        third: 0,
    }
}

impl Classes {
    /// No term was met.
    pub fn new(alloc: Global) -> Classes
        ensures { result ≡ [] }
    {
        Classes {
            met: IndexSet::new(alloc),
        }
    }

    /// A term is met. Fails for want of memory alone.
    pub fn meet(&mut self, t: &Form) -> Result<(), AllocError>
        ensures { OnOk result (self.new ≡ met_with self.old t.now) }
    {
        let t = t.share()?;
        self.met.insert(t)?;
        Ok(())
    }

    /// The terms that were met as whole terms. Fails for want of memory, also past 2^24 nodes.
    pub(crate) fn wholes(&self, alloc: Global) -> Result<Wholes, AllocError>
        ensures { IfOk result (λ w. w ≡ wholes_of self.now) }
    {
        let mut wholes = Wholes::new(alloc);
        let all = self.met.as_slice();
        'classes: for t in all {
            wholes.push(t)?;
        }
        Ok(wholes)
    }

    /// The leaf of the class of a term that was met; leaves, constants and terms that were not met stay.
    /// Fails for want of memory, also past the class that a leaf can name.
    pub fn cut(&self, alloc: Global, t: &Form) -> Result<Form, AllocError>
        ensures { IfOk result (λ f. f ≡ cut self.now t.now) }
    {
        if is_atom(t.term()) {
            return t.share();
        }
        match self.met.get_index_of(t) {
            None => t.share(),
            Some(class) => {
                if class > u32::MAX as usize {
                    return Err(AllocError);
                }
                class_leaf(alloc, t, class as u32)
            }
        }
    }
}

/// The leaf of a class in the place of a term.
fn class_leaf(alloc: Global, t: &Form, class: u32) -> Result<Form, AllocError>
    ensures { IfOk result (λ f. f ≡ leaf_for t.now (Some class)) }
{
    let leaf = make_leaf(t.width(), cut_key(class));
    if leaf.is_well_formed() {
        Form::new(alloc, leaf)
    } else {
        Err(AllocError)
    }
}
