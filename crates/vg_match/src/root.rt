//! The roots of terms.

ghost use Rattle.std.specs.Prelude.{◌≡◌};
ghost use Rattle.vg_match.specs.LaneList.{root_cmp, root_of};
ghost use Rattle.vg_shapes.specs.Fits.{is_compound};
ghost use Rattle.vg_terms.specs.Order.{tag_of};
ghost use Rattle.vg_terms.specs.Term.{tree};

use std::cmp::Ordering;
use vg_terms::Term;

/// What stands at the root of a term.
#[derive(Clone, Copy)]
pub(crate) struct Root {
    /// The place of the operation in the order of terms.
    pub(crate) tag: u32,
    /// In bits.
    pub(crate) width: u32,
    /// The number of places of a shift, else 0.
    pub(crate) amount: u32,
}

impl Root {
    /// The root of a term.
    pub(crate) fn of(t: &Term) -> Root
        ensures { result ≡ root_of (tree t.now) }
    {
        Root {
            tag: tag_of(t),
            width: t.width(),
            amount: t.amount(),
        }
    }

    /// An order of roots: by operation, then width, then places of a shift.
    pub(crate) fn compare(&self, other: &Root) -> Ordering
        ensures { result ≡ root_cmp self.now other.now }
    {
        let amounts = self.amount.cmp(&other.amount);
        self.tag
            .cmp(&other.tag)
            .then(self.width.cmp(&other.width).then(amounts))
    }
}

// The place of a term's operation in the order of terms.
fn tag_of(t: &Term) -> u32
    ensures { result ≡ tag_of (tree t.now) }
{
    match t {
        Term::Leaf { .. } => 0,
        Term::Const { .. } => 20,
        Term::One { op, .. } => op.tag(),
        Term::Two { op, .. } => op.tag(),
        Term::Sel { .. } => 18,
    }
}

/// Whether a term is no leaf and no constant.
pub(crate) fn is_compound(t: &Term) -> bool
    ensures { result ≡ is_compound (tree t.now) }
{
    match t {
        Term::Leaf { .. } => false,
        Term::Const { .. } => false,
        Term::One { .. } => true,
        Term::Two { .. } => true,
        Term::Sel { .. } => true,
    }
}
