//! The canonical form of a node's term, as a node of the pool.

ghost use Rattle.std.specs.Prelude.{◌<◌, length, IfOk};
ghost use Rattle.vg_canon.specs.Canonical.{HasCanonicalChildren, Settled, canonical};
ghost use Rattle.vg_pool.specs.Pool.{Keeps, StandsFor, tree_at};

use crate::canonical_form::{canon, canon_root};
use std::alloc::{AllocError, Global};
use vg_pool::{Pool, pool_is_shared};

/// The node whose term is the canonical form of a node's term, as `canon` gives it.
///
/// Fails for want of memory, past 4,096 nodes of the term, or past the bound of the pool. Then too
/// each node keeps its term, and the pool may have some of the form's parts.
#[tactic(auto, using(crate::proofs::NodeForms::settled_node))]
pub fn canon_node(alloc: Global, pool: &mut Pool, node: usize) -> Result<usize, AllocError>
    requires { node < length pool.old }
    ensures node { IfOk result
        (λ form. StandsFor pool.new form (canonical (tree_at pool.old node))) }
    ensures settled { IfOk result
        (λ form. Settled (tree_at pool.old node) (tree_at pool.new form)) }
    ensures keeps { Keeps pool.old pool.new }
{
    pool_is_shared(pool);
    let t = pool.tree_of(alloc, node)?;
    let form = canon(alloc, t)?;
    pool.intern(&form)
}

/// The node whose term is the canonical form of a node's term, where the children of that are
/// canonical. They are not walked again. Fails as `canon_node` does.
#[tactic(auto, using(crate::proofs::NodeForms::settled_node))]
pub fn canon_root_node(alloc: Global, pool: &mut Pool, node: usize) -> Result<usize, AllocError>
    requires node { node < length pool.old }
    requires children { HasCanonicalChildren (tree_at pool.old node) }
    ensures node { IfOk result
        (λ form. StandsFor pool.new form (canonical (tree_at pool.old node))) }
    ensures settled { IfOk result
        (λ form. Settled (tree_at pool.old node) (tree_at pool.new form)) }
    ensures keeps { Keeps pool.old pool.new }
{
    pool_is_shared(pool);
    let t = pool.tree_of(alloc, node)?;
    let form = canon_root(alloc, t)?;
    pool.intern(&form)
}
