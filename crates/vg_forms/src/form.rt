//! Terms that many places share.

ghost use Rattle.std.specs.Prelude.{◌≡◌, ◌≤◌, ◌-◌, ◌^◌, IfOk, min};
ghost use Rattle.std.specs.Hash as fed;
ghost use Rattle.vg_forms.specs.Digest.{digest, mixed};
ghost use Rattle.vg_forms.specs.Laws.Equal.{alike, same_equiv, same_per};
ghost use Rattle.vg_terms.specs.Order.{is_same_term};
ghost use Rattle.vg_terms.specs.Term.{WellFormed, node_count, tree, width_of};

use std::alloc::{AllocError, Global};
use std::hash::{Hash, Hasher};
use std::marker::Model;
use std::rc::Rc;
use vg_terms::Term;

/// A well-formed term that many places share, with its number of nodes. Contracts see it as the tree of
/// the term.
#[derive(Drop)]
pub struct Form {
    term: Rc<Term>,
    size: u64,
    digest: u64,
}

impl Model for Form {
    ghost use Rattle.vg_terms.specs.Term.{Tree, tree};
    ghost use Rattle.vg_forms.specs.Form.{IsForm};
    ghost use Rattle.vg_forms.specs.Coded.{tree_code};

    ghost Value = { Tree };

    ghost coded = { tree_code };

    ghost view = { λ f. tree f.term.value };

    ghost invariant = { λ f. IsForm (tree f.term.value) f.size f.digest };
}

impl PartialEq for Form {
    ghost eq = { is_same_term };

    ghost laws = { same_per };

    fn eq(&self, other: &Form) -> bool {
        self.term().is_same(other.term())
    }
}

impl Eq for Form {
    ghost laws = { same_equiv };
}

impl Hash for Form {
    ghost hash_input = { λ t. fed.u64 (digest t) };

    ghost respects_eq = { alike };

    fn hash<H: Hasher>(&self, state: &mut H) {
        state.write_u64(self.digest);
    }
}

/// A digest with one number more.
fn mixed(digest: u64, number: u64) -> u64
    ensures { result ≡ mixed digest number }
{
    digest
        .wrapping_mul(6_364_136_223_846_793_005)
        .wrapping_add(number)
}

/// A number made of all of a term.
fn digest_of(t: &Term) -> u64
    ensures { result ≡ digest (tree t.now) }
{
    match t {
        Term::Leaf { width, key } => {
            let kind = mixed(u64::from(*width), u64::from(key.kind));
            mixed(mixed(kind, u64::from(key.first)), u64::from(key.third))
        }
        Term::Const { width, value } => mixed(
            mixed(20, u64::from(*width)),
            (*value & 0xffff_ffff_ffff_ffff) as u64,
        ),
        Term::One {
            op,
            width,
            amount,
            x,
        } => {
            let root = mixed(u64::from(op.tag()), u64::from(*width));
            let inner = digest_of(x);
            mixed(mixed(root, u64::from(*amount)), inner)
        }
        Term::Two { op, width, x, y } => {
            let root = mixed(u64::from(op.tag()), u64::from(*width));
            let first = digest_of(x);
            let second = digest_of(y);
            mixed(mixed(root, first), second)
        }
        Term::Sel { width, c, x, y } => {
            let condition = digest_of(c);
            let first = digest_of(x);
            let second = digest_of(y);
            mixed(mixed(mixed(u64::from(*width), condition), first), second)
        }
    }
}

impl Form {
    /// The term, to be shared. Fails for want of memory alone.
    pub fn new(alloc: Global, term: Term) -> Result<Form, AllocError>
        requires { WellFormed (tree term) }
        ensures { IfOk result (λ f. f ≡ tree term) }
    {
        let size = term.node_count();
        let digest = digest_of(&term);
        let term = Rc::new(alloc, term)?;
        Ok(Form { term, size, digest })
    }

    /// The same term a second time, shared. Fails for want of memory alone.
    pub fn share(&self) -> Result<Form, AllocError>
        ensures { IfOk result (λ f. f ≡ self.now) }
    {
        let term = self.term.clone()?;
        Ok(Form {
            term,
            size: self.size,
            digest: self.digest,
        })
    }

    /// The term, borrowed.
    pub fn term(&self) -> &Term
        ensures is { tree result.now ≡ self.now }
        ensures formed { WellFormed self.now }
    {
        self.term.as_ref()
    }

    /// The number of nodes, or the greatest `u64` where there are more. Takes one step.
    pub fn size(&self) -> u64
        ensures { result ≡ min (node_count self.now) (2 ^ 64 - 1) }
    {
        self.size
    }

    /// The width in bits. Takes one step.
    pub fn width(&self) -> u32
        ensures { result ≡ width_of self.now }
    {
        self.term().width()
    }
}
