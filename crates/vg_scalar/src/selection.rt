//! The choice between two numbers.

ghost use Rattle.std.specs.Prelude.{◌≡◌};
ghost use Rattle.vg_scalar.specs.Scalar.{select_result};

/// The first number where the condition, a number of one bit, is 1, else the second.
pub fn select(condition: u64, first: u64, second: u64) -> u64
    ensures { result ≡ select_result condition first second }
{
    if condition % 2 == 1 { first } else { second }
}
