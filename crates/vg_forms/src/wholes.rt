//! The whole terms of classes: terms in which no class stands for another.

ghost use Rattle.std.specs.Prelude.{◌≡◌, ◌<◌, ◌∷◌, ◌++◌, ◌&&◌, ◌||◌, [], length, IfOk, OnOk};
ghost use Rattle.vg_canon.specs.Canonical.{canonical};
ghost use Rattle.vg_known.specs.WiderDifference.{equal_forms, equal_wholes, is_class, is_small, small_whole, whole};
ghost use Rattle.vg_pool.specs.Pool.{Keeps, StandsFor, tree_at};
ghost use Rattle.vg_sums.specs.Same.{have_same_sum};
ghost use Rattle.vg_terms.specs.Order.{is_same_term};
ghost use Rattle.vg_terms.specs.Term.{tree, WellFormed};
ghost use Rattle.vg_forms.specs.Wholes.{AreWholes, IsWholeOf, trees_in};

use crate::form::Form;
use crate::maker::Maker;
use std::alloc::{AllocError, Global};
use std::marker::Model;
use vg_pool::{Pool, pool_is_shared};
use vg_sums::have_same_sum;
use vg_terms::{LeafKey, Term};

/// The most nodes of a whole.
const MOST_WHOLE: u32 = 1024;

/// The node of a whole, and its width in bits.
#[derive(Clone, Copy)]
pub struct Whole {
    node: usize,
    width: u32,
}

/// For each class its whole: the term in which the whole of a class stands in the place of each leaf of
/// that class, where it has at most 1,024 nodes, else the term as it stands. Wholes share their parts.
/// Contracts see the list of them.
pub struct Wholes {
    pool: Pool,
    all: Vec<Whole>,
}

/// Written out, so that the exits of an owner call it: a derived one would be proved anew at each.
impl Drop for Wholes {
    fn drop(self) {
        let Wholes { pool: _, all: _ } = self;
    }
}

impl Model for Wholes {
    ghost use Rattle.std.specs.Prelude.{List};
    ghost use Rattle.vg_terms.specs.Term.{Tree};
    ghost use Rattle.std.specs.Coded.{coded_list};
    ghost use Rattle.vg_forms.specs.Coded.{tree_code};
    ghost use Rattle.vg_forms.specs.Wholes.{AreWholes, trees_in};

    ghost Value = { List Tree };

    ghost coded = { coded_list tree_code };

    ghost view = { λ w. trees_in w.pool w.all.items };

    ghost invariant = { λ w. AreWholes w.pool w.all.items };
}

/// Whether a key is that of a class.
fn is_class(key: LeafKey) -> bool
    ensures { result ≡ is_class key }
{
    key.kind == 3 && key.second == 0 && key.third == 0
}

/// The whole that stands for a leaf, if there is one.
fn whole_for(all: &[Whole], width: u32, key: LeafKey) -> Option<usize>
    ensures { IsWholeOf all.now width key result }
{
    if !is_class(key) {
        return None;
    }
    let whole = all.get(key.first as usize)?;
    if whole.width == width {
        Some(whole.node)
    } else {
        None
    }
}

/// The node of the whole of a term. Fails for want of memory, or past 2^24 nodes.
fn whole_node(pool: &mut Pool, all: &[Whole], t: &Term) -> Result<usize, AllocError>
    requires wholes { AreWholes pool.old all.now }
    requires formed { WellFormed (tree t.now) }
    ensures node { IfOk result
        (λ node. StandsFor pool.new node (whole (trees_in pool.old all.now) (tree t.now))) }
    ensures keeps { Keeps pool.old pool.new }
{
    match t {
        Term::Leaf { width, key } => match whole_for(all, *width, *key) {
            Some(node) => Ok(node),
            None => pool.intern(t),
        },
        Term::Const { .. } => pool.intern(t),
        Term::One {
            op,
            width,
            amount,
            x,
        } => {
            let x = whole_node(pool, all, x)?;
            pool.one(*op, *width, *amount, x)
        }
        Term::Two { op, width, x, y } => {
            let x = whole_node(pool, all, x)?;
            let y = whole_node(pool, all, y)?;
            pool.two(*op, *width, x, y)
        }
        Term::Sel { c, x, y, .. } => {
            let c = whole_node(pool, all, c)?;
            let x = whole_node(pool, all, x)?;
            let y = whole_node(pool, all, y)?;
            pool.sel(c, x, y)
        }
    }
}

/// Whether the term of a node has at most 1,024 nodes.
fn is_small(pool: &Pool, node: usize) -> bool
    requires { node < length pool.now }
    ensures { result ≡ is_small (tree_at pool.now node) }
{
    pool.size(node) <= MOST_WHOLE
}

/// Whether the terms of both nodes have at most 1,024 nodes.
fn are_small(pool: &Pool, x: usize, y: usize) -> bool
    requires x { x < length pool.now }
    requires y { y < length pool.now }
    ensures { result ≡ (is_small (tree_at pool.now x) && is_small (tree_at pool.now y)) }
{
    is_small(pool, x) && is_small(pool, y)
}

/// The node of the whole of a term, or of the term as it stands where the whole is too large. Fails as
/// `whole_node` does.
fn small_node(pool: &mut Pool, all: &[Whole], t: &Form) -> Result<usize, AllocError>
    requires { AreWholes pool.old all.now }
    ensures node { IfOk result
        (λ node. StandsFor pool.new node (small_whole (trees_in pool.old all.now) t.now)) }
    ensures keeps { Keeps pool.old pool.new }
{
    let node = whole_node(pool, all, t.term())?;
    if is_small(pool, node) {
        Ok(node)
    } else {
        pool.intern(t.term())
    }
}

/// Whether two terms have one sum, or one canonical form.
fn have_one_form(alloc: Global, maker: &mut Maker, t: Term, u: Term) -> Result<bool, AllocError>
    requires left { WellFormed (tree t) }
    requires right { WellFormed (tree u) }
    ensures is { IfOk result (λ same. same
        ≡ (is_same_term (canonical (tree t)) (canonical (tree u)) || have_same_sum (tree t) (tree u))) }
    ensures classes { maker.new.classes ≡ maker.old.classes }
{
    let same = have_same_sum(alloc, &t, &u)?;
    let left = maker.settle(alloc, t)?;
    let right = maker.settle(alloc, u)?;
    Ok(left == right || same)
}

/// Whether the terms of two nodes count as equal.
fn are_equal_nodes(
    alloc: Global,
    pool: &Pool,
    maker: &mut Maker,
    x: usize,
    y: usize,
) -> Result<bool, AllocError>
    requires x { x < length pool.now }
    requires y { y < length pool.now }
    ensures is { IfOk result (λ same. same ≡ equal_forms (tree_at pool.now x) (tree_at pool.now y)) }
    ensures classes { maker.new.classes ≡ maker.old.classes }
{
    pool_is_shared(pool);
    if x == y {
        return Ok(true);
    }
    if !are_small(pool, x, y) {
        return Ok(false);
    }
    let t = pool.tree_of(alloc, x)?;
    let u = pool.tree_of(alloc, y)?;
    have_one_form(alloc, maker, t, u)
}

impl Wholes {
    /// Of no class.
    pub fn new(alloc: Global) -> Wholes
        ensures { result ≡ [] }
    {
        Wholes {
            pool: Pool::new(alloc),
            all: Vec::new(alloc),
        }
    }

    /// The next class is that of a term. Fails for want of memory, also past 2^24 nodes.
    pub fn push(&mut self, t: &Form) -> Result<(), AllocError>
        ensures { OnOk result (self.new ≡ self.old ++ small_whole self.old t.now ∷ []) }
    {
        let node = small_node(&mut self.pool, &self.all, t)?;
        self.all.push(Whole {
            node,
            width: t.width(),
        })?;
        Ok(())
    }

    /// Whether two terms count as equal, by their wholes: they are the same, or both have at most 1,024
    /// nodes and one canonical form or one sum. Fails for want of memory, also past 2^24 nodes, and as
    /// `Maker::settle` does.
    pub fn are_equal(
        &mut self,
        alloc: Global,
        maker: &mut Maker,
        t: &Form,
        u: &Form,
    ) -> Result<bool, AllocError>
        ensures is { IfOk result (λ same. same ≡ equal_wholes self.old t.now u.now) }
        ensures kept { self.new ≡ self.old }
        ensures classes { maker.new.classes ≡ maker.old.classes }
    {
        let x = small_node(&mut self.pool, &self.all, t)?;
        let y = small_node(&mut self.pool, &self.all, u)?;
        are_equal_nodes(alloc, &self.pool, maker, x, y)
    }
}
