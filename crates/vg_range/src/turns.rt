//! The turns of a FOR.

ghost use Rattle.std.specs.Prelude.{◌≡◌, pos, ◌+ℤ◌};
ghost use Rattle.std.specs.Option.{option_map};
ghost use Rattle.vg_script.specs.Views.{number_of};
ghost use Rattle.vg_range.specs.Steps.{first_turn};

use vg_script::WholeNumber;

/// The first turn of those from here to the last, if there is one.
pub fn first_turn(first: WholeNumber, last: WholeNumber) -> Option<WholeNumber>
    ensures { option_map number_of result ≡ first_turn (number_of first) (number_of last) }
{
    match (first, last) {
        (WholeNumber::Natural(one), WholeNumber::Natural(other)) => {
            if one <= other { Some(first) } else { None }
        }
        (WholeNumber::Natural(_), WholeNumber::Negative(_)) => None,
        (WholeNumber::Negative(_), WholeNumber::Natural(_)) => Some(first),
        (WholeNumber::Negative(one), WholeNumber::Negative(other)) => {
            if other <= one { Some(first) } else { None }
        }
    }
}

/// The turn after this one, if it is not the last.
pub fn next_turn(turn: WholeNumber, last: WholeNumber) -> Option<WholeNumber>
    ensures { option_map number_of result ≡ first_turn (number_of turn +ℤ pos 1) (number_of last) }
{
    match turn {
        WholeNumber::Natural(number) => {
            if number < u128::MAX {
                first_turn(WholeNumber::Natural(number + 1), last)
            } else {
                None
            }
        }
        WholeNumber::Negative(0) => first_turn(WholeNumber::Natural(0), last),
        WholeNumber::Negative(number) => first_turn(WholeNumber::Negative(number - 1), last),
    }
}
