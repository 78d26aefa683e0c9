//! What the registers of a call are given.

ghost use Rattle.std.specs.Prelude.{◌≡◌, IfOk, drop, map};
ghost use Rattle.vg_interval.specs.Views.{passed_view};
ghost use Rattle.vg_script.specs.Views.{given_of as in_memory};
ghost use Rattle.vg_range.specs.Seen.{first_constant, given_first, given_onto};
ghost use Rattle.vg_range.specs.Walk.{constants_of, given_of};

use std::alloc::{AllocError, Global};
use vg_interval::Passed;
use vg_interval::whole_numbers::low_part;
use vg_script::{Given, make_given_bits, make_given_number, make_given_word};

/// The number of the first argument where it is constant, cut to a width.
fn first_constant(width: u128, given: &[Passed]) -> Option<u128>
    ensures { result ≡ first_constant width (map passed_view given.now) }
{
    match given {
        [Passed::Constant(number), ..] => Some(low_part(*number, width)),
        _ => None,
    }
}

fn others(given: &[Passed]) -> &[Passed]
    ensures { map passed_view result.now ≡ drop 1 (map passed_view given.now) }
{
    match given {
        [_, others @ ..] => others,
        [] => given,
    }
}

/// The constant arguments of a call, cut to the widths of its parameters; other registers are not
/// constant.
#[tactic(auto, using(crate::proofs::Framing::constants_first))]
pub fn constants_of(
    alloc: Global,
    widths: &[u128],
    given: &[Passed],
) -> Result<Vec<Option<u128>>, AllocError>
    ensures { IfOk result (λ ks. ks.items ≡ constants_of widths.now (map passed_view given.now)) }
{
    let mut constants = Vec::new(alloc);
    let mut left = widths;
    let mut rest = given;
    'registers: loop {
        let [width, behind @ ..] = left else {
            return Ok(constants);
        };
        constants.push(first_constant(*width, rest))?;
        left = behind;
        rest = others(rest);
    }
}

#[inline(never)]
fn with_first(alloc: Global, first: Passed, rest: Given) -> Result<Given, AllocError>
    ensures { IfOk result (λ g. in_memory g ≡ given_first (passed_view first) (in_memory rest)) }
{
    match first {
        Passed::Constant(number) => make_given_number(alloc, number, rest),
        Passed::Computed { word } => make_given_word(alloc, word, rest),
        Passed::Bits {
            register,
            low,
            width,
        } => make_given_bits(alloc, register, low, width, rest),
    }
}

/// What the first registers of a call are given by its arguments.
#[tactic(auto, using(crate::proofs::Framing::given_is, crate::proofs::Framing::given_last))]
pub fn given_of(alloc: Global, mut arguments: Vec<Passed>) -> Result<Given, AllocError>
    ensures { IfOk result (λ g. in_memory g ≡ given_of (map passed_view arguments.items)) }
{
    let mut given = Given::Nothing;
    'arguments: while let Some(argument) = arguments.pop() {
        given = with_first(alloc, argument, given)?;
    }
    Ok(given)
}
