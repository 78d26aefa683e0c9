//! Orders in which packs and units are done.

ghost use Rattle.std.specs.Prelude.{◌≡◌};

use std::marker::Model;

/// A node of an order: the units of a pack, which are done together, or one unit.
#[derive(Clone, Copy, PartialEq, Eq)]
pub enum Node {
    /// The units of a pack, by its index in the plan.
    PackAt(u32),
    /// A unit outside all packs, by its number.
    UnitAt(u32),
}

/// Nodes, one after the other. Contracts see it as the list.
#[derive(Drop)]
pub struct Order {
    nodes: Vec<Node>,
}

impl Model for Order {
    ghost use Rattle.std.specs.Prelude.{List};
    ghost use Rattle.vg_shapes.specs.declared.order.Node.{Node as Done};

    ghost Value = { List Done };

    ghost view = { λ s. s.nodes.items };
}

impl Order {
    /// The order of these nodes. Takes no memory.
    pub fn from_vec(nodes: Vec<Node>) -> Order
        ensures { result ≡ nodes.items }
    {
        Order { nodes }
    }

    /// The nodes in their order, borrowed.
    pub fn as_slice(&self) -> &[Node]
        ensures { result.now ≡ self.now }
    {
        self.nodes.as_slice()
    }
}
