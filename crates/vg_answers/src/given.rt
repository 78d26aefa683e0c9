//! The values of parameters, as numbers.

ghost use Rattle.std.specs.Prelude.{◌≡◌, ◌^◌, IfOk, nat_lt, option_map};
ghost use Rattle.vg_answers.specs.Given.{fit, given};
ghost use Rattle.vg_base.specs.Width.{bits_of};
ghost use Rattle.vg_top.specs.Inputs.{inputs_seen};

use std::alloc::{AllocError, Global};
use vg_base::Width;
use vg_program::param::Param;
use vg_program::param_kind::ParamKind;
use vg_top::{Inputs, values_in};

/// Whether an integer of a width may be this number.
fn is_below(number: u64, width: Width) -> bool
    ensures { result ≡ nat_lt number (2 ^ bits_of width) }
{
    (number as u128) < values_in(width)
}

/// Whether there is one place for each pointer, and for each integer one number in its range.
#[tactic(auto, unfolding(crate::specs::Given::fit))]
fn fit(params: &[Param], places: &[u64], args: &[u64]) -> bool
    ensures { result ≡ fit params.now places.now args.now }
{
    let [param, others @ ..] = params else {
        return places.is_empty() && args.is_empty();
    };
    match param.kind {
        ParamKind::Pointer => match places {
            [_, rest @ ..] => fit(others, rest, args),
            [] => false,
        },
        ParamKind::Integer(width) => match args {
            [number, rest @ ..] => is_below(*number, width) && fit(others, places, rest),
            [] => false,
        },
    }
}

/// These values, where they are those of the parameters: one place for each pointer, and for each integer of
/// w bits one number below 2^w. Fails for want of memory alone.
pub(crate) fn given(
    alloc: Global,
    params: &[Param],
    places: &[u64],
    args: &[u64],
) -> Result<Option<Inputs>, AllocError>
    ensures { IfOk result (λ o. option_map inputs_seen o ≡ given params.now places.now args.now) }
{
    if !fit(params, places, args) {
        return Ok(None);
    }
    let places = Vec::from_slice(alloc, places)?;
    let args = Vec::from_slice(alloc, args)?;
    Ok(Some(Inputs { places, args }))
}
