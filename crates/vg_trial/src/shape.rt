//! What the statements of a group do.

ghost use Rattle.std.specs.Prelude.{◌≡◌, ◌<◌, ◌≤◌};
ghost use Rattle.vg_trial.specs.Trial.{shape_of, statements_in};

/// What the statements of a group do.
#[derive(Clone, Copy)]
pub enum Shape {
    /// Sums of dwords.
    Sums,
    /// Sums of two products of words.
    Products,
    /// Dwords kept in the range of signed words.
    Clamped,
    /// Averages of bytes, rounded up.
    Averages,
    /// Sums of dwords that stand beside each other.
    Pairs,
}

impl Shape {
    /// The shape of group `group` in the trial of this number.
    pub fn of(number: u32, group: u32) -> Shape
        requires { group < 40 }
        ensures { result ≡ shape_of number group }
    {
        match (number / 40 + group) % 5 {
            0 => Shape::Sums,
            1 => Shape::Products,
            2 => Shape::Clamped,
            3 => Shape::Averages,
            _ => Shape::Pairs,
        }
    }

    /// How many statements a group of this shape has.
    pub fn statements(self) -> u32
        ensures count { result ≡ statements_in self }
        ensures few { result ≤ 16 }
    {
        match self {
            Shape::Sums | Shape::Products | Shape::Pairs => 4,
            Shape::Clamped => 8,
            Shape::Averages => 16,
        }
    }
}
