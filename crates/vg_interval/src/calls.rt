//! What calls are handed, and what they give.

ghost use Rattle.std.specs.Prelude.{◌≡◌};
ghost use Rattle.vg_interval.specs.Found.{answered, handed, passed};
ghost use Rattle.vg_interval.specs.Judge.{variable_found};
ghost use Rattle.vg_interval.specs.Views.{Gives, found_view, kept_view, passed_view};
ghost use Rattle.vg_script.specs.Views.{frame_of, low_of};

use crate::fault::RangeFault;
use crate::found::{Found, Passed};
use crate::judged::KnownNumber;
use crate::operands::handed_word;
use crate::spans::{slice_span, unsigned_span};
use crate::whole_numbers::{low_part, low_word, whole};
use crate::word_builders::extended;
use std::alloc::Global;
use vg_pseudo::Spot;
use vg_script::{Frame, Low, WholeNumber, Word, make_block};

/// What an argument hands. TooWide where it is a left shift that does not fit.
#[tactic(auto, using(crate::proofs::Fitting::slice_passed))]
pub fn passed(alloc: Global, spot: Spot, found: Found) -> Result<Passed, RangeFault>
    ensures { Gives passed_view result (passed spot (found_view found)) }
{
    match found {
        Found::Known { number } => Ok(Passed::Constant(low_word(number))),
        Found::KnownSlice {
            is_signed: _,
            bits,
            width,
        } => Ok(Passed::Constant(low_part(bits, width))),
        Found::Read {
            is_signed: _,
            register,
            low,
            width,
        } => Ok(Passed::Bits {
            register,
            low,
            width,
        }),
        Found::Handed {
            frame,
            register,
            low,
            width,
        } => Ok(Passed::Computed {
            word: handed_word(alloc, Box::into_inner(frame), register, low, width)?,
        }),
        Found::Bit { word } => Ok(Passed::Computed {
            word: extended(alloc, false, 1, word)?,
        }),
        Found::Within { span: _, word } => Ok(Passed::Computed { word }),
        Found::Wide { word } => Ok(Passed::Computed { word }),
        Found::Loose { word: _ } => Err(RangeFault::TooWide { place: spot.inner }),
    }
}

fn handed_on(
    alloc: Global,
    spot: Spot,
    outer: Frame,
    frame: Frame,
    register: usize,
    low: Low,
    width: u128,
) -> Result<Found, RangeFault>
    ensures { Gives found_view result (answered spot (frame_of outer) (handed (frame_of frame)
        register (low_of low) width)) }
{
    let answer = handed_word(alloc, frame, register, low, width)?;
    let word = make_block(alloc, outer, answer)?;
    match slice_span(false, width) {
        Some(span) => Ok(Found::Within { span, word }),
        None => Ok(Found::Wide { word }),
    }
}

/// What a call gives whose frame leaves this in the place of RETURN. TooWide where that is a left
/// shift that does not fit.
#[tactic(auto, using(crate::proofs::Fitting::slice_passed))]
pub fn answered(alloc: Global, spot: Spot, frame: Frame, found: Found) -> Result<Found, RangeFault>
    ensures { Gives found_view result (answered spot (frame_of frame) (found_view found)) }
{
    match found {
        Found::Known { number } => Ok(Found::Known { number }),
        Found::KnownSlice {
            is_signed: _,
            bits,
            width,
        } => Ok(Found::Known {
            number: WholeNumber::Natural(low_part(bits, width)),
        }),
        Found::Read {
            is_signed: _,
            register,
            low,
            width,
        } => Ok(Found::Handed {
            frame: Box::new(alloc, frame)?,
            register,
            low,
            width,
        }),
        Found::Handed {
            frame: inner,
            register,
            low,
            width,
        } => {
            let inner = Box::into_inner(inner);
            handed_on(alloc, spot, frame, inner, register, low, width)
        }
        Found::Bit { word } => {
            let answer = extended(alloc, false, 1, word)?;
            Ok(Found::Within {
                span: unsigned_span(1),
                word: make_block(alloc, frame, answer)?,
            })
        }
        Found::Within { span, word } => Ok(Found::Within {
            span,
            word: make_block(alloc, frame, word)?,
        }),
        Found::Wide { word } => Ok(Found::Wide {
            word: make_block(alloc, frame, word)?,
        }),
        Found::Loose { word: _ } => Err(RangeFault::TooWide { place: spot.inner }),
    }
}

/// What is known of a number variable where it is read.
pub fn variable_found(variable: usize, kept: KnownNumber) -> Found
    ensures { found_view result ≡ variable_found variable (kept_view kept) }
{
    match kept {
        KnownNumber::Constant(number) => Found::Known {
            number: whole(number),
        },
        KnownNumber::Varying(span) => Found::Within {
            span,
            word: Word::Variable { variable },
        },
    }
}
