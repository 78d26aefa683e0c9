//! The leaves of lane terms.

ghost use Rattle.std.specs.Prelude.{◌≡◌};
ghost use Rattle.vg_shapes.specs.Leaves.{begins_in, clash, is_odd, leaf_of, same_leaf};

use vg_terms::LeafKey;

/// So many bits of a parameter, from a bit on, which a leaf of a lane term stands for.
#[derive(Clone, Copy)]
pub struct Leaf {
    /// The number of the parameter, from 0.
    pub parameter: u32,
    /// The lowest of the bits.
    pub low: u64,
    /// How many bits it has.
    pub width: u32,
}

impl Leaf {
    /// The bits that a leaf of this width and key stands for.
    pub fn new(width: u32, key: LeafKey) -> Leaf
        ensures { result ≡ leaf_of width key }
    {
        Leaf {
            parameter: key.first,
            low: key.second.max(0) as u64,
            width,
        }
    }

    /// Whether no value of a kernel has its width, or it stands at no multiple of its width.
    pub fn is_odd(&self) -> bool
        ensures { result ≡ is_odd self.now }
    {
        match self.width {
            8 => self.low % 8 != 0,
            16 => self.low % 16 != 0,
            32 => self.low % 32 != 0,
            64 => self.low % 64 != 0,
            _ => true,
        }
    }

    /// Whether it stands for the same bits.
    pub fn is_same(&self, other: &Leaf) -> bool
        ensures { result ≡ same_leaf self.now other.now }
    {
        self.parameter == other.parameter && (self.low == other.low && self.width == other.width)
    }

    /// Whether its lowest bit is one of the other.
    fn begins_in(&self, other: &Leaf) -> bool
        ensures { result ≡ begins_in self.now other.now }
    {
        self.low >= other.low && self.low - other.low < u64::from(other.width)
    }

    /// Whether it is a leaf of the same parameter that overlaps the other without being the same.
    pub fn clashes(&self, other: &Leaf) -> bool
        ensures { result ≡ clash self.now other.now }
    {
        let meets = self.begins_in(other) || other.begins_in(self);
        self.parameter == other.parameter && (meets && !self.is_same(other))
    }
}
