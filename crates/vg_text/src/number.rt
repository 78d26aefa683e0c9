//! Numbers by their digits.

ghost use Rattle.std.specs.Fmt.{decimal};
ghost use Rattle.std.specs.Prelude.{Some, ℕ, ◌≡◌, ◌<◌, ◌≤◌, ◌+◌, ◌*◌, ◌^◌};
ghost use Rattle.std.specs.Option.{SomeIff};
ghost use Rattle.vg_text.specs.Number.{digit_value, value_from, value_in, decimal_value, is_decimal};
ghost use Rattle.vg_text.specs.Byte.{is_digit};
ghost use Rattle.std.specs.List.{list_all};

use crate::byte::is_digit;

/// What a decimal or hexadecimal digit of either case stands for.
pub fn digit_value(byte: u8) -> u8
    ensures { result ≡ digit_value byte }
{
    if byte >= b'a' {
        byte - 87
    } else if byte >= b'A' {
        byte - 55
    } else {
        byte.saturating_sub(b'0')
    }
}

/// One digit more after those that made `value`. None where that is 2^128 or more.
fn shifted(base: u8, value: u128, digit: u8) -> Option<u128>
    ensures { SomeIff result (value * base + digit_value digit < 2 ^ 128)
        (value * base + digit_value digit) }
{
    let product = value.checked_mul(u128::from(base))?;
    product.checked_add(u128::from(digit_value(digit)))
}

/// The number that digits make in a base, the highest first. None where it is 2^128 or more.
pub fn value_in(base: u8, digits: &[u8]) -> Option<u128>
    requires { 1 ≤ base }
    ensures { SomeIff result (value_in base digits.now < 2 ^ 128) (value_in base digits.now) }
{
    let mut value: u128 = 0;
    'digits: for digit in digits {
        match shifted(base, value, *digit) {
            Some(next) => value = next,
            None => return None,
        }
    }
    Some(value)
}

fn is_all_digits(text: &[u8]) -> bool
    ensures { result ≡ list_all is_digit text.now }
{
    text.iter().all(|byte| is_digit(*byte))
}

/// Whether a text is one or more decimal digits.
pub fn is_decimal(text: &[u8]) -> bool
    ensures { result ≡ is_decimal text.now }
{
    !text.is_empty() && is_all_digits(text)
}

/// The number that decimal digits spell. None exactly where the text is not one or more digits of a
/// value below 2^128. Takes no memory.
#[tactic(auto, unfolding(crate::specs::Number::decimal_value))]
pub fn decimal(text: &[u8]) -> Option<u128>
    ensures value { result ≡ decimal_value text.now }
{
    if is_decimal(text) {
        value_in(10, text)
    } else {
        None
    }
}

/// A law: what is printed of a number below 2^128 is read as that number.
pub fn decimal_reads_what_is_printed()
    ensures { (n : ℕ) → n < 2 ^ 128 → decimal_value (decimal n) ≡ Some n }
{}
