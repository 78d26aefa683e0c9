//! Nodes that are placed.

ghost use Rattle.std.specs.Prelude.{◌≡◌, ◌<◌, false, length, IfOk, OnOk};
ghost use Rattle.vg_order.specs.Needs.{flag_at};
ghost use Rattle.vg_order.specs.Paths.{IsProgress, Visits};

use crate::graph::Graph;
use crate::needs::Cursor;
use std::alloc::AllocError;
use vg_shapes::DepList;

/// How far the work has come.
#[derive(Drop)]
pub(crate) struct Progress {
    /// The nodes that are placed, in their order.
    pub order: Vec<u32>,
    /// Of each node, whether it is placed.
    pub placed: Vec<bool>,
    /// Of each node, how far the units on which it depends are known to be placed.
    pub cursors: Vec<Cursor>,
}

/// Looks at the units for which a node waits, and places it where all of them are placed; else the
/// first that is not.
pub(crate) fn visit(
    deps: &DepList,
    graph: &Graph,
    progress: &mut Progress,
    node: u32,
) -> Result<Option<u32>, AllocError>
    requires node { node < length graph.now.needs }
    requires waits { flag_at progress.old.placed.items node ≡ false }
    requires valid { IsProgress deps.now graph.now progress.old }
    ensures valid { OnOk result (IsProgress deps.now graph.now progress.new) }
    ensures visits { IfOk result (λ unit. Visits deps.now graph.now progress.old progress.new node
        unit) }
{
    let from = progress.cursors[node as usize];
    let needs = &graph.needs.as_slice()[node as usize];
    let look = needs.look(
        deps,
        graph.homes.as_slice(),
        progress.placed.as_slice(),
        from,
    );
    progress.cursors[node as usize] = look.cursor;
    if let Some(unit) = look.open {
        return Ok(Some(unit));
    }
    progress.order.push(node)?;
    progress.placed[node as usize] = true;
    Ok(None)
}
