//! What is wanted in a place.

ghost use Rattle.std.specs.Prelude.{◌≡◌};
ghost use Rattle.vg_shapes.specs.Units.{is_value};
ghost use Rattle.vg_shapes.specs.Wanted.{same_wanted};

/// What an operand of a unit is, or what is wanted in a slot of a register.
#[derive(Clone, Copy, PartialEq, Eq)]
pub enum Wanted {
    /// The value of this number.
    Value(u32),
    /// A number below 2 to the width, which is in bits.
    Constant { width: u32, value: u128 },
    Nothing,
}

impl Wanted {
    /// Whether it is the value of this number.
    pub fn is_value(&self, value: u32) -> bool
        ensures { result ≡ is_value value self.now }
    {
        match *self {
            Wanted::Value(number) => number == value,
            Wanted::Constant { .. } => false,
            Wanted::Nothing => false,
        }
    }
}

/// Whether the same is wanted: the value of one number, one number in one width, or nothing.
pub fn is_same_wanted(a: Wanted, b: Wanted) -> bool
    ensures { result ≡ same_wanted a b }
{
    a == b
}
