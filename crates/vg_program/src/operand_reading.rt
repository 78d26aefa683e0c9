//! Places in memory and operands.

ghost use Rattle.std.specs.Prelude.{◌≡◌, nat_lt, ◌^◌};
ghost use Rattle.vg_program.specs.Tokens.{Gives};
ghost use Rattle.vg_base.specs.Width.{bits_of};
ghost use Rattle.vg_program.specs.Grammar.{judged, pointer_of, integer_of, fits, positive_offset, negative_offset, negative_at, positive_at, offset_at, address_at, given_operand_at, literal_at, argument_at, operand_at, width_with, sized_at, pair_at};

use crate::before::Before;
use crate::fault::Fault;
use crate::named::Named;
use crate::operand::Operand;
use crate::stop::ReadError;
use crate::tokens::{begins, met, name_at, number_at, register_at, signs_at, type_at};
use crate::wanted::Wanted;
use vg_base::address::Address;
use vg_base::width::Width;
use vg_text::byte::begins_digit;

/// The number of the pointer that a name stands for, among the pointers. `WidthMismatch` where it
/// stands for an integer, `UnknownRegister` where it stands for nothing.
pub fn pointer_of(named: Named) -> Result<u32, Fault>
    ensures { result ≡ pointer_of named }
{
    match named {
        Named::Pointer(pointer) => Ok(pointer),
        Named::Integer(_, _) => Err(Fault::WidthMismatch),
        Named::Nothing => Err(Fault::UnknownRegister),
    }
}

/// The number of the integer that a name stands for, among the integers, and its width.
/// `WidthMismatch` where it stands for a pointer, `UnknownRegister` where it stands for nothing.
pub fn integer_of(named: Named) -> Result<(u32, Width), Fault>
    ensures { result ≡ integer_of named }
{
    match named {
        Named::Pointer(_) => Err(Fault::WidthMismatch),
        Named::Integer(integer, width) => Ok((integer, width)),
        Named::Nothing => Err(Fault::UnknownRegister),
    }
}

/// A judgement of what these bytes begin with: its fault is met where they are left.
pub fn judged<T>(text: &[u8], judgement: Result<T, Fault>) -> Result<T, ReadError>
    ensures { Gives (λ x. x) result (judged text.now judgement) }
{
    match judgement {
        Ok(x) => Ok(x),
        Err(fault) => Err(ReadError::At(met(fault, text))),
    }
}

/// Whether an operand of so many bits may stand where this is wanted.
fn fits(wanted: Wanted, bits: u32) -> bool
    ensures { result ≡ fits wanted bits }
{
    match wanted {
        Wanted::Number => bits != 1,
        Wanted::Exactly(width) => bits == width.bits(),
        Wanted::Narrower(width) => bits != 1 && bits < width.bits(),
        Wanted::Wider(width) => bits > width.bits(),
        Wanted::Bit => bits == 1,
    }
}

fn positive_offset(number: u128) -> Result<i32, Fault>
    ensures { result ≡ positive_offset number }
{
    if number < 1 << 31 {
        Ok(number as i32)
    } else {
        Err(Fault::Range)
    }
}

fn negative_offset(number: u128) -> Result<i32, Fault>
    ensures { result ≡ negative_offset number }
{
    if number == 0 {
        Err(Fault::Range)
    } else if number - 1 < 1 << 31 {
        Ok(-1 - ((number - 1) as i32))
    } else {
        Err(Fault::Range)
    }
}

#[tactic(auto, unfolding(crate::specs::Grammar::negative_at))]
fn negative_at(text: &[u8]) -> Result<(i32, &[u8]), ReadError>
    ensures { Gives (λ x. (x.0, x.1.now)) result (negative_at text.now) }
{
    let number = signs_at(b"-", text)?;
    let (n, rest) = number_at(number)?;
    let offset = judged(number, negative_offset(n))?;
    Ok((offset, rest))
}

#[tactic(auto, unfolding(crate::specs::Grammar::positive_at))]
fn positive_at(text: &[u8]) -> Result<(i32, &[u8]), ReadError>
    ensures { Gives (λ x. (x.0, x.1.now)) result (positive_at text.now) }
{
    let number = signs_at(b"+", text)?;
    let (n, rest) = number_at(number)?;
    let offset = judged(number, positive_offset(n))?;
    Ok((offset, rest))
}

/// Reads the offset of a place with its sign, as `+4`, and gives it with what stands after it.
#[tactic(auto, unfolding(crate::specs::Grammar::offset_at))]
pub fn offset_at(text: &[u8]) -> Result<(i32, &[u8]), ReadError>
    ensures { Gives (λ x. (x.0, x.1.now)) result (offset_at text.now) }
{
    if begins(b'-', text) {
        negative_at(text)
    } else {
        positive_at(text)
    }
}

#[tactic(auto, unfolding(crate::specs::Grammar::address_at))]
pub(crate) fn address_at<'a>(
    before: &Before,
    text: &'a [u8],
) -> Result<(Address, &'a [u8]), ReadError>
    ensures { Gives (λ x. (x.0, x.1.now)) result (address_at before.now text.now) }
{
    let (name, rest) = name_at(text)?;
    let pointer = judged(text, pointer_of(before.named(name)))?;
    let (offset, rest) = offset_at(rest)?;
    Ok((Address { pointer, offset }, rest))
}

#[tactic(auto, unfolding(crate::specs::Grammar::given_operand_at))]
fn given_operand_at<'a>(
    before: &Before,
    wanted: Wanted,
    text: &'a [u8],
) -> Result<(Operand, u32, &'a [u8]), ReadError>
    ensures { Gives (λ x. ((x.0, x.1), x.2.now)) result
        (given_operand_at before.now wanted text.now) }
{
    let (register, rest) = register_at(b's', text)?;
    match before.scalar(register) {
        None => Err(ReadError::At(met(Fault::UnknownRegister, text))),
        Some((number, bits)) if fits(wanted, bits) => Ok((Operand::Register(number), bits, rest)),
        Some(_) => Err(ReadError::At(met(Fault::WidthMismatch, text))),
    }
}

/// Whether a number is below 2 to a width.
fn is_below(number: u128, width: Width) -> bool
    ensures { result ≡ nat_lt number (2 ^ bits_of width) }
{
    match width {
        Width::W8 => number < 1 << 8,
        Width::W16 => number < 1 << 16,
        Width::W32 => number < 1 << 32,
        Width::W64 => number < 1 << 64,
    }
}

#[tactic(auto, unfolding(crate::specs::Grammar::literal_at))]
fn literal_at(wanted: Wanted, text: &[u8]) -> Result<(Operand, u32, &[u8]), ReadError>
    ensures { Gives (λ x. ((x.0, x.1), x.2.now)) result (literal_at wanted text.now) }
{
    let (number, rest) = number_at(text)?;
    let (width, rest) = type_at(rest)?;
    if !fits(wanted, width.bits()) {
        return Err(ReadError::At(met(Fault::WidthMismatch, text)));
    }
    if !is_below(number, width) {
        return Err(ReadError::At(met(Fault::Range, text)));
    }
    Ok((
        Operand::Literal {
            width,
            number: number as u64,
        },
        width.bits(),
        rest,
    ))
}

#[tactic(auto, unfolding(crate::specs::Grammar::argument_at))]
fn argument_at<'a>(
    before: &Before,
    wanted: Wanted,
    text: &'a [u8],
) -> Result<(Operand, u32, &'a [u8]), ReadError>
    ensures { Gives (λ x. ((x.0, x.1), x.2.now)) result (argument_at before.now wanted text.now) }
{
    let (name, rest) = name_at(text)?;
    let (number, width) = judged(text, integer_of(before.named(name)))?;
    if !fits(wanted, width.bits()) {
        return Err(ReadError::At(met(Fault::WidthMismatch, text)));
    }
    Ok((Operand::Argument(number), width.bits(), rest))
}

/// An operand with its width in bits.
#[tactic(auto, unfolding(crate::specs::Grammar::operand_at))]
pub(crate) fn operand_at<'a>(
    before: &Before,
    wanted: Wanted,
    text: &'a [u8],
) -> Result<(Operand, u32, &'a [u8]), ReadError>
    ensures { Gives (λ x. ((x.0, x.1), x.2.now)) result
        (operand_at before.now wanted text.now) }
{
    if begins(b'%', text) {
        given_operand_at(before, wanted, text)
    } else if begins_digit(text) {
        literal_at(wanted, text)
    } else {
        argument_at(before, wanted, text)
    }
}

fn width_with(bits: u32) -> Option<Width>
    ensures { result ≡ width_with bits }
{
    match bits {
        8 => Some(Width::W8),
        16 => Some(Width::W16),
        32 => Some(Width::W32),
        64 => Some(Width::W64),
        _ => None,
    }
}

/// An operand of 8, 16, 32 or 64 bits with its width.
#[tactic(auto, unfolding(crate::specs::Grammar::sized_at))]
pub(crate) fn sized_at<'a>(
    before: &Before,
    wanted: Wanted,
    text: &'a [u8],
) -> Result<(Operand, Width, &'a [u8]), ReadError>
    ensures { Gives (λ x. ((x.0, x.1), x.2.now)) result
        (sized_at before.now wanted text.now) }
{
    let (operand, bits, rest) = operand_at(before, wanted, text)?;
    match width_with(bits) {
        None => Err(ReadError::At(met(Fault::WidthMismatch, text))),
        Some(width) => Ok((operand, width, rest)),
    }
}

/// Two operands of one width.
#[tactic(auto, unfolding(crate::specs::Grammar::pair_at))]
pub(crate) fn pair_at<'a>(
    before: &Before,
    width: Width,
    text: &'a [u8],
) -> Result<(Operand, Operand, &'a [u8]), ReadError>
    ensures { Gives (λ x. ((x.0, x.1), x.2.now)) result
        (pair_at before.now width text.now) }
{
    let (first, _, rest) = operand_at(before, Wanted::Exactly(width), text)?;
    let rest = signs_at(b" ", rest)?;
    let (second, _, rest) = operand_at(before, Wanted::Exactly(width), rest)?;
    Ok((first, second, rest))
}
