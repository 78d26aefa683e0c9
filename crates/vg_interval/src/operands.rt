//! What each use of an expression asks of what is known of it.

ghost use Rattle.std.specs.Prelude.{◌≡◌, ℕ, Some, None, Ok, Err, if◌then◌else◌, false, ◌≤◌, IfOk};
ghost use Rattle.std.specs.Option.{option_map_or};
ghost use Rattle.vg_interval.specs.Found.{answered, handed_word, moving, number_passed, operand, passed, plain, slice_word, span_of, word_of};
ghost use Rattle.vg_interval.specs.Found as found;
ghost use Rattle.vg_interval.specs.declared.fault.RangeFault.TheVariants.{TooWide};
ghost use Rattle.vg_interval.specs.Interval.{is_small, slice_span};
ghost use Rattle.vg_interval.specs.Views.{Gives, condition_at, condition_view, either, found_view, operand_view, passed_view};
ghost use Rattle.vg_script.specs.Script.{block};
ghost use Rattle.vg_script.specs.Views.{frame_of, low_of, number_of, word_of as view_of_word};

use crate::fault::RangeFault;
use crate::found::{Condition, Found, Operand, Passed};
use crate::span::Span;
use crate::spans::{between, hull, slice_span, unsigned_span};
use crate::whole_numbers::{low_part, low_word, slice_number, small, whole};
use crate::word_builders::{extended, is_set, number};
use std::alloc::{AllocError, Global};
use vg_pseudo::Spot;
use vg_script::{Frame, Low, WholeNumber, Word, make_block, make_sel};
use vg_text::Place;

impl Operand {
    /// The interval that holds it.
    pub fn span(&self) -> Span
        ensures { result ≡ span_of (operand_view self.now) }
    {
        match self {
            Operand::Fixed(number) => between(*number, *number),
            Operand::Moving { span, .. } => *span,
        }
    }

    /// Its word.
    pub fn into_word(self) -> Word
        ensures { view_of_word result ≡ word_of (operand_view self) }
    {
        match self {
            Operand::Fixed(z) => number(z),
            Operand::Moving { span: _, word } => word,
        }
    }

    /// The operand without what it was.
    pub fn into_found(self) -> Found
        ensures { found_view result ≡ plain (operand_view self) }
    {
        match self {
            Operand::Fixed(z) => Found::Known { number: whole(z) },
            Operand::Moving { span, word } => Found::Within { span, word },
        }
    }
}

/// The bits of a slice as a number of 128 bits.
pub fn slice_word(
    alloc: Global,
    is_signed: bool,
    register: usize,
    low: Low,
    width: u128,
) -> Result<Word, AllocError>
    requires { width ≤ 128 }
    ensures { IfOk result (λ w. view_of_word w ≡ slice_word is_signed register (low_of low) width) }
{
    let width = width as u32;
    extended(
        alloc,
        is_signed,
        width,
        Word::Slice {
            register,
            low,
            width,
        },
    )
}

/// The low 128 bits, at most, of a slice that a call hands.
pub fn handed_word(
    alloc: Global,
    frame: Frame,
    register: usize,
    low: Low,
    width: u128,
) -> Result<Word, AllocError>
    ensures { IfOk result (λ w. view_of_word w ≡ handed_word (frame_of frame) register (low_of low)
        width) }
{
    if width < 128 {
        let answer = slice_word(alloc, false, register, low, width)?;
        make_block(alloc, frame, answer)
    } else {
        make_block(
            alloc,
            frame,
            Word::Slice {
                register,
                low,
                width: 128,
            },
        )
    }
}

#[tactic(auto, unfolding(crate::specs::Interval::fit))]
fn fixed(place: Place, number: WholeNumber) -> Result<Operand, RangeFault>
    ensures { Gives operand_view result (if is_small (number_of number) then Ok (found.fixed
        (number_of number)) else Err (TooWide place)) }
{
    match small(number) {
        Some(z) => Ok(Operand::Fixed(z)),
        None => Err(RangeFault::TooWide { place }),
    }
}

fn sliced(
    alloc: Global,
    place: Place,
    is_signed: bool,
    register: usize,
    low: Low,
    width: u128,
) -> Result<Operand, RangeFault>
    ensures { Gives operand_view result (found.or_too_wide place
        (option_map_or (λ i. Some (moving i (slice_word is_signed register (low_of low) width)))
        (slice_span is_signed width) None)) }
{
    match slice_span(is_signed, width) {
        Some(span) => {
            let word = slice_word(alloc, is_signed, register, low, width)?;
            Ok(Operand::Moving { span, word })
        }
        None => Err(RangeFault::TooWide { place }),
    }
}

fn handed(
    alloc: Global,
    place: Place,
    frame: Frame,
    register: usize,
    low: Low,
    width: u128,
) -> Result<Operand, RangeFault>
    ensures { Gives operand_view result (found.or_too_wide place (option_map_or (λ i. Some (moving i
        (handed_word (frame_of frame) register (low_of low) width))) (slice_span false width)
        None)) }
{
    match slice_span(false, width) {
        Some(span) => {
            let word = handed_word(alloc, frame, register, low, width)?;
            Ok(Operand::Moving { span, word })
        }
        None => Err(RangeFault::TooWide { place }),
    }
}

/// The number of an expression that stands as an operand. TooWide where it may lie outside of 128
/// signed bits: inside its parentheses where it is a shift that does not fit, else before them.
pub fn operand(alloc: Global, spot: Spot, found: Found) -> Result<Operand, RangeFault>
    ensures { Gives operand_view result (operand spot (found_view found)) }
{
    match found {
        Found::Known { number } => fixed(spot.outer, number),
        Found::KnownSlice {
            is_signed,
            bits,
            width,
        } => fixed(spot.outer, slice_number(is_signed, width, bits)),
        Found::Read {
            is_signed,
            register,
            low,
            width,
        } => sliced(alloc, spot.outer, is_signed, register, low, width),
        Found::Handed {
            frame,
            register,
            low,
            width,
        } => {
            let frame = Box::into_inner(frame);
            handed(alloc, spot.outer, frame, register, low, width)
        }
        Found::Bit { word } => {
            let word = extended(alloc, false, 1, word)?;
            Ok(Operand::Moving {
                span: unsigned_span(1),
                word,
            })
        }
        Found::Within { span, word } => Ok(Operand::Moving { span, word }),
        Found::Wide { word: _ } => Err(RangeFault::TooWide { place: spot.outer }),
        Found::Loose { word: _ } => Err(RangeFault::TooWide { place: spot.inner }),
    }
}

/// What an expression says as a condition. TooWide where it may lie outside of 128 signed bits.
pub fn condition(alloc: Global, spot: Spot, found: Found) -> Result<Condition, RangeFault>
    ensures { Gives condition_view result (condition_at spot (found_view found)) }
{
    match found {
        Found::Bit { word } => Ok(Condition::Tested { word }),
        found => match operand(alloc, spot, found)? {
            Operand::Fixed(z) => Ok(Condition::Always(z)),
            Operand::Moving { span: _, word } => Ok(Condition::Tested {
                word: is_set(alloc, word)?,
            }),
        },
    }
}

/// Either of two branches, by a condition of one bit.
pub fn either(
    alloc: Global,
    condition: Word,
    first: Operand,
    second: Operand,
) -> Result<Found, AllocError>
    ensures { IfOk result (λ f. found_view f ≡ either (view_of_word condition) (operand_view first)
        (operand_view second)) }
{
    let span = hull(first.span(), second.span());
    let word = make_sel(alloc, 128, condition, first.into_word(), second.into_word())?;
    Ok(Found::Within { span, word })
}
