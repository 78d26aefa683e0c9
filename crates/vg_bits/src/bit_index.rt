//! Where a bit stands in a list of bytes.

ghost use Rattle.std.specs.Prelude.{◌≡◌, ◌+◌, ◌*◌, ◌^◌, ◌<◌};

/// A byte of a list, and a bit of it, the lowest being 0.
#[derive(Clone, Copy)]
pub struct BitIndex {
    pub byte: usize,
    pub bit: usize,
    ghost in_byte: { bit < 8 },
}

impl BitIndex {
    /// The place of the bit of this number, the lowest bit of the first byte being 0.
    pub fn new(index: usize) -> BitIndex
        ensures { 8 * result.byte + result.bit ≡ index }
    {
        BitIndex {
            byte: index / 8,
            bit: index % 8,
        }
    }

    /// The place of the same bit, this number of bytes further.
    pub fn skip(self, bytes: usize) -> BitIndex
        requires { self.byte + bytes < 2 ^ 64 }
        ensures { result ≡ record self { byte = self.byte + bytes } }
    {
        BitIndex {
            byte: self.byte + bytes,
            bit: self.bit,
        }
    }
}
