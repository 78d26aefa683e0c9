//! A pool of nodes, each of which stands for one term.

ghost use Rattle.std.specs.Prelude.{◌≡◌, ◌<◌, ◌≤◌, [], length, IfOk, OnErr, min};
ghost use Rattle.vg_terms.specs.Term.{IsWidth, OneFits, TwoFits, WellFormed, node_count, one, sel, tree, two, width_of};
ghost use Rattle.vg_pool.specs.Content.{NamesBelow, RootFits, content_width, rooted};
ghost use Rattle.vg_pool.specs.Pool.{IsPool, Keeps, StandsFor, counted, tree_at, trees_of};

use crate::content::{Content, Entry};
use indexmap::IndexMap;
use slab::Slab;
use std::alloc::{AllocError, Global};
use std::marker::Model;
use vg_terms::{OneOp, Term, TwoOp, make_const, make_leaf, make_one, make_sel, make_two};

/// The greatest number of nodes of a pool.
const MAX_NODES: usize = 16_777_216;

/// The greatest number of nodes of a term that `tree_of` makes.
const MAX_TREE: u32 = 4096;

/// Nodes, each of which stands for one well-formed term. Equal terms have one node. A pool only
/// grows, and a node keeps its term.
///
/// Contracts see a pool as the list of its nodes' contents, whose trees `tree_at` of `specs/` gives.
pub struct Pool {
    nodes: Slab<Entry>,
    places: IndexMap<Content, usize>,
}

/// Written out, so that the exits of an owner call it: a derived one would be proved anew at each.
impl Drop for Pool {
    fn drop(self) {
        let Pool {
            nodes: _,
            places: _,
        } = self;
    }
}

impl Model for Pool {
    ghost use Rattle.std.specs.Prelude.{List};
    ghost use Rattle.std.specs.Map.{keys_of};
    ghost use Rattle.vg_pool.specs.declared.content.Content.{Content};
    ghost use Rattle.vg_pool.specs.Pool.{IsTable};

    ghost Value = { List Content };

    ghost view = { λ p. keys_of p.places.entries };

    ghost invariant = { λ p. IsTable p.nodes p.places.entries };
}

impl Pool {
    /// A pool with no node. It takes no memory until the first term.
    pub fn new(alloc: Global) -> Pool
        ensures { result ≡ [] }
    {
        Pool {
            nodes: Slab::new(alloc),
            places: IndexMap::new(alloc),
        }
    }

    /// The content and the count of a node.
    fn entry(&self, node: usize) -> Entry
        requires { node < length self.now }
        ensures names { NamesBelow node result.content }
        ensures is { rooted (trees_of self.now) result.content ≡ tree_at self.now node }
        ensures count { result.count ≡ counted (tree_at self.now node) }
        ensures width { IsWidth (content_width result.content) }
    {
        match self.nodes.get(node) {
            Some(entry) => *entry,
            None => unreachable!(),
        }
    }

    /// The number of nodes of a content's term, at most `MAX_TREE + 1`.
    fn count_of(&self, content: Content) -> u32
        requires { NamesBelow (length self.now) content }
        ensures { result ≡ counted (rooted (trees_of self.now) content) }
    {
        let count = match content {
            Content::Leaf { .. } => 1,
            Content::Const { .. } => 1,
            Content::One { x, .. } => 1 + self.entry(x).count,
            Content::Two { x, y, .. } => 1 + self.entry(x).count + self.entry(y).count,
            Content::Sel { c, x, y, .. } => {
                1 + self.entry(c).count + self.entry(x).count + self.entry(y).count
            }
        };
        count.min(MAX_TREE + 1)
    }

    /// The node of a content: its own where the pool has it, else a new one, past the last.
    fn place(&mut self, content: Content) -> Result<usize, AllocError>
        requires names { NamesBelow (length self.old) content }
        requires fits { RootFits (trees_of self.old) content }
        ensures node { IfOk result
            (λ node. StandsFor self.new node (rooted (trees_of self.old) content)) }
        ensures keeps { Keeps self.old self.new }
        ensures refused { OnErr result (self.new ≡ self.old) }
    {
        if let Some(place) = self.places.get(&content) {
            return Ok(*place);
        }
        let node = self.places.len();
        if node >= MAX_NODES {
            return Err(AllocError);
        }
        // the keys of a slab rise where none is removed, which its contract does not say
        let key = self.nodes.vacant_key();
        if key != node {
            return Err(AllocError);
        }
        let count = self.count_of(content);
        self.nodes.reserve(1)?;
        self.places.insert(content, node)?;
        self.nodes.insert_reserved(Entry { content, count });
        Ok(node)
    }

    /// The node of a term, which becomes one of the pool with all its parts.
    ///
    /// Fails for want of memory, or past `2 ^ 24` nodes. Then the pool may have some of the parts.
    pub fn intern(&mut self, t: &Term) -> Result<usize, AllocError>
        requires { WellFormed (tree t.now) }
        ensures node { IfOk result (λ node. StandsFor self.new node (tree t.now)) }
        ensures keeps { Keeps self.old self.new }
    {
        match t {
            Term::Leaf { width, key } => self.place(Content::Leaf {
                width: *width,
                key: *key,
            }),
            Term::Const { width, value } => self.place(Content::Const {
                width: *width,
                value: *value,
            }),
            Term::One {
                op,
                width,
                amount,
                x,
            } => {
                let x = self.intern(x)?;
                self.one(*op, *width, *amount, x)
            }
            Term::Two { op, width, x, y } => {
                let x = self.intern(x)?;
                let y = self.intern(y)?;
                self.two(*op, *width, x, y)
            }
            Term::Sel { c, x, y, .. } => {
                let c = self.intern(c)?;
                let x = self.intern(x)?;
                let y = self.intern(y)?;
                self.sel(c, x, y)
            }
        }
    }

    /// The node of an operation on the term of a node: its own where the pool has it, else a new one.
    ///
    /// Fails as `intern` does, and then the pool is as it was.
    pub fn one(&mut self, op: OneOp, width: u32, amount: u32, x: usize) -> Result<usize, AllocError>
        requires x { x < length self.old }
        requires width { IsWidth width }
        requires fits { OneFits op width amount (width_of (tree_at self.old x)) }
        ensures node { IfOk result
            (λ node. StandsFor self.new node (one op width amount (tree_at self.old x))) }
        ensures keeps { Keeps self.old self.new }
        ensures refused { OnErr result (self.new ≡ self.old) }
    {
        self.place(Content::One {
            op,
            width,
            amount,
            x,
        })
    }

    /// The node of an operation on the terms of two nodes. Fails as `one` does.
    pub fn two(&mut self, op: TwoOp, width: u32, x: usize, y: usize) -> Result<usize, AllocError>
        requires x { x < length self.old }
        requires y { y < length self.old }
        requires width { IsWidth width }
        requires fits { TwoFits op width
            (width_of (tree_at self.old x)) (width_of (tree_at self.old y)) }
        ensures node { IfOk result
            (λ node. StandsFor self.new node
            (two op width (tree_at self.old x) (tree_at self.old y))) }
        ensures keeps { Keeps self.old self.new }
        ensures refused { OnErr result (self.new ≡ self.old) }
    {
        self.place(Content::Two { op, width, x, y })
    }

    /// The node of a selection: the term of `x` where that of `c` is 1, else the term of `y`. Its width
    /// is that of `x`. Fails as `one` does.
    pub fn sel(&mut self, c: usize, x: usize, y: usize) -> Result<usize, AllocError>
        requires c { c < length self.old }
        requires x { x < length self.old }
        requires y { y < length self.old }
        requires condition { width_of (tree_at self.old c) ≡ 1 }
        requires same { width_of (tree_at self.old y) ≡ width_of (tree_at self.old x) }
        ensures node { IfOk result
            (λ node. let first = tree_at self.old x in
            StandsFor self.new node
            (sel (width_of first) (tree_at self.old c) first (tree_at self.old y))) }
        ensures keeps { Keeps self.old self.new }
        ensures refused { OnErr result (self.new ≡ self.old) }
    {
        let width = self.entry(x).content.width();
        self.place(Content::Sel { width, c, x, y })
    }

    /// The number of nodes of a node's term where that is at most 1,024, else 1,025.
    ///
    /// Takes no memory.
    pub fn size(&self, node: usize) -> u32
        requires { node < length self.now }
        ensures { result ≡ min (node_count (tree_at self.now node)) 1025 }
    {
        self.entry(node).count.min(1025)
    }

    /// The term of a node. Fails for want of memory, or past 4,096 nodes of the term.
    pub fn tree_of(&self, alloc: Global, node: usize) -> Result<Term, AllocError>
        requires { node < length self.now }
        ensures is { IfOk result (λ term. tree term ≡ tree_at self.now node) }
        ensures small { IfOk result (λ term. node_count (tree_at self.now node) ≤ 4096) }
    {
        if self.entry(node).count > MAX_TREE {
            return Err(AllocError);
        }
        self.term_at(alloc, node)
    }

    /// The term of a node, of whatever size.
    fn term_at(&self, alloc: Global, node: usize) -> Result<Term, AllocError>
        requires { node < length self.now }
        ensures { IfOk result (λ term. tree term ≡ tree_at self.now node) }
    {
        let entry = self.entry(node);
        match entry.content {
            Content::Leaf { width, key } => Ok(make_leaf(width, key)),
            Content::Const { width, value } => Ok(make_const(width, value)),
            Content::One {
                op,
                width,
                amount,
                x,
            } => {
                let x = self.term_at(alloc, x)?;
                make_one(alloc, op, width, amount, x)
            }
            Content::Two { op, width, x, y } => {
                let x = self.term_at(alloc, x)?;
                let y = self.term_at(alloc, y)?;
                make_two(alloc, op, width, x, y)
            }
            Content::Sel { width, c, x, y } => {
                let c = self.term_at(alloc, c)?;
                let x = self.term_at(alloc, x)?;
                let y = self.term_at(alloc, y)?;
                make_sel(alloc, width, c, x, y)
            }
        }
    }
}

/// What holds of each pool: it has few nodes, their terms are well-formed, and equal terms have one
/// node.
pub fn pool_is_shared(pool: &Pool)
    ensures { IsPool pool.now }
{
    let _nodes = &pool.nodes;
}
