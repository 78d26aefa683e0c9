//! Lines on registers.

ghost use Rattle.std.specs.Prelude.{◌≡◌, ◌≤◌, ◌&&◌, ◌==◌, ◌+◌, ◌*◌, length, not, true, IfOk};
ghost use Rattle.std.specs.List.{list_all, prefix_len};
ghost use Rattle.vg_text.specs.Byte.{is_name};
ghost use Rattle.vg_program.specs.Vectors.{is_low_hex, hex_value, bytes_in};
ghost use Rattle.vg_program.specs.Tokens.{Gives};
ghost use Rattle.vg_program.specs.Grammar.{any_vector_at, vector_at, size_with, size_at, vector_load_at, vector_store_at, constant_length, constant_of, behind_constant, is_constant_length, is_constant_text, no_constant, constant_at, lane_from, insert_at, extract_at};

use crate::before::Before;
use crate::fault::Fault;
use crate::line::Line;
use crate::operand_reading::{address_at, judged, sized_at};
use crate::stop::{ReadError, Stop};
use crate::tokens::{front, met, number_at, register_at, signs_at, skip, unfit};
use crate::vector_size::VectorSize;
use crate::wanted::Wanted;
use std::alloc::{AllocError, Global};
use vg_base::items::Items;
use vg_base::width::Width;
use vg_text::byte::{is_digit, is_name};

/// A register with its width in bits.
#[tactic(auto, unfolding(crate::specs::Grammar::any_vector_at))]
fn any_vector_at<'a>(before: &Before, text: &'a [u8]) -> Result<(u32, u32, &'a [u8]), ReadError>
    ensures { Gives (λ x. ((x.0, x.1), x.2.now)) result (any_vector_at before.now text.now) }
{
    let (register, rest) = register_at(b'v', text)?;
    match before.vector(register) {
        None => Err(ReadError::At(met(Fault::UnknownRegister, text))),
        Some((number, bits)) => Ok((number, bits, rest)),
    }
}

/// A register of so many bits.
#[tactic(auto, unfolding(crate::specs::Grammar::vector_at))]
pub(crate) fn vector_at<'a>(
    before: &Before,
    bits: u32,
    text: &'a [u8],
) -> Result<(u32, &'a [u8]), ReadError>
    ensures { Gives (λ x. (x.0, x.1.now)) result (vector_at before.now bits text.now) }
{
    let (number, width, rest) = any_vector_at(before, text)?;
    if width == bits {
        Ok((number, rest))
    } else {
        Err(ReadError::At(met(Fault::WidthMismatch, text)))
    }
}

fn size_with(number: u128) -> Option<VectorSize>
    ensures { result ≡ size_with number }
{
    match number {
        4 => Some(VectorSize::B4),
        8 => Some(VectorSize::B8),
        16 => Some(VectorSize::B16),
        32 => Some(VectorSize::B32),
        64 => Some(VectorSize::B64),
        _ => None,
    }
}

#[tactic(auto, unfolding(crate::specs::Grammar::size_at))]
fn size_at(text: &[u8]) -> Result<(VectorSize, &[u8]), ReadError>
    ensures { Gives (λ x. (x.0, x.1.now)) result (size_at text.now) }
{
    let (number, rest) = number_at(text)?;
    match size_with(number) {
        None => Err(ReadError::At(met(Fault::Range, text))),
        Some(size) => Ok((size, rest)),
    }
}

#[tactic(auto, unfolding(crate::specs::Grammar::vector_load_at))]
pub(crate) fn vector_load_at<'a>(
    before: &Before,
    text: &'a [u8],
) -> Result<(Line, &'a [u8]), ReadError>
    ensures { Gives (λ x. (x.0, x.1.now)) result (vector_load_at before.now text.now) }
{
    let (size, rest) = size_at(text)?;
    let rest = signs_at(b" ", rest)?;
    let (address, rest) = address_at(before, rest)?;
    Ok((Line::VectorLoad { size, address }, rest))
}

#[tactic(auto, unfolding(crate::specs::Grammar::vector_store_at))]
pub(crate) fn vector_store_at<'a>(
    before: &Before,
    text: &'a [u8],
) -> Result<(Line, &'a [u8]), ReadError>
    ensures { Gives (λ x. (x.0, x.1.now)) result (vector_store_at before.now text.now) }
{
    let (size, rest) = size_at(text)?;
    let rest = signs_at(b" ", rest)?;
    let (address, rest) = address_at(before, rest)?;
    let rest = signs_at(b" ", rest)?;
    let (register, rest) = vector_at(before, size.register(), rest)?;
    Ok((
        Line::VectorStore {
            size,
            address,
            register,
        },
        rest,
    ))
}

fn constant_length(text: &[u8]) -> usize
    ensures value { result ≡ constant_length text.now }
    ensures within { result ≤ length text.now }
{
    text.iter()
        .take_while(|c| is_name(**c) && **c != b'_')
        .count()
}

fn is_low_hex(byte: u8) -> bool
    ensures { result ≡ is_low_hex byte }
{
    is_digit(byte) || (97 <= byte && byte <= 102)
}

/// The value of a hexadecimal digit in lower case.
fn hex_value(byte: u8) -> u8
    ensures { result ≡ hex_value byte }
{
    if byte < 97 {
        byte.saturating_sub(48)
    } else {
        byte - 87
    }
}

/// The byte of two digits, whose first is below 16.
fn byte_of(high: u8, low: u8) -> u8
    requires high { is_low_hex high ≡ true }
    requires low { is_low_hex low ≡ true }
    ensures { result ≡ 16 * hex_value high + hex_value low }
{
    16 * hex_value(high) + hex_value(low)
}

fn is_constant_length(length: usize) -> bool
    ensures { result ≡ is_constant_length length }
{
    length == 32 || (length == 64 || length == 128)
}

fn are_low_hex(run: &[u8]) -> bool
    ensures { result ≡ list_all is_low_hex run.now }
{
    run.iter().all(|b| is_low_hex(*b))
}

fn is_constant_text(run: &[u8]) -> bool
    ensures exact { result ≡ is_constant_text run.now }
    ensures digits { result ≡ true → list_all is_low_hex run.now ≡ true }
{
    let digits = are_low_hex(run);
    digits && is_constant_length(run.len())
}

/// The fault where the digits of no register stand.
fn no_constant(text: &[u8]) -> Stop
    ensures { result ≡ no_constant text.now }
{
    if constant_length(text) > 0 {
        met(Fault::Shape, text)
    } else {
        unfit(text)
    }
}

/// The bytes that lower-case hexadecimal digits spell, two digits a byte.
#[tactic(auto, unfolding(crate::specs::Vectors::bytes_in))]
fn bytes_in(alloc: Global, run: &[u8]) -> Result<Vec<u8>, AllocError>
    requires { list_all is_low_hex run.now ≡ true }
    ensures { IfOk result (λ bytes. bytes.items ≡ bytes_in run.now) }
{
    let mut bytes = Vec::new(alloc);
    let mut rest = run;
    'digits: while let [high, low, more @ ..] = rest {
        bytes.push(byte_of(*high, *low))?;
        rest = more;
    }
    Ok(bytes)
}

#[tactic(auto, unfolding(crate::specs::Grammar::constant_at))]
pub(crate) fn constant_at(alloc: Global, text: &[u8]) -> Result<(Line, &[u8]), ReadError>
    ensures { Gives (λ x. (x.0, x.1.now)) result (constant_at text.now) }
{
    let length = constant_length(text);
    let run = front(text, length);
    if !is_constant_text(run) {
        return Err(ReadError::At(no_constant(text)));
    }
    let bytes = Items::from_vec(bytes_in(alloc, run)?);
    Ok((Line::Constant { bytes }, skip(text, length)))
}

fn lane_from(bits: u32, width: Width, number: u128) -> Result<u32, Fault>
    ensures { result ≡ lane_from bits width number }
{
    if number < (bits / width.bits()) as u128 && number < 64 {
        Ok(number as u32)
    } else {
        Err(Fault::Range)
    }
}

#[tactic(auto, unfolding(crate::specs::Grammar::insert_at))]
pub(crate) fn insert_at<'a>(before: &Before, text: &'a [u8]) -> Result<(Line, &'a [u8]), ReadError>
    ensures { Gives (λ x. (x.0, x.1.now)) result (insert_at before.now text.now) }
{
    let (register, bits, rest) = any_vector_at(before, text)?;
    let number = signs_at(b" ", rest)?;
    let (n, rest) = number_at(number)?;
    let rest = signs_at(b" ", rest)?;
    let (value, width, rest) = sized_at(before, Wanted::Number, rest)?;
    let lane = judged(number, lane_from(bits, width, n))?;
    Ok((
        Line::Insert {
            register,
            bits,
            lane,
            width,
            value,
        },
        rest,
    ))
}

#[tactic(auto, unfolding(crate::specs::Grammar::extract_at))]
pub(crate) fn extract_at<'a>(
    before: &Before,
    width: Width,
    text: &'a [u8],
) -> Result<(Line, &'a [u8]), ReadError>
    ensures { Gives (λ x. (x.0, x.1.now)) result (extract_at before.now width text.now) }
{
    let (register, bits, rest) = any_vector_at(before, text)?;
    let number = signs_at(b" ", rest)?;
    let (n, rest) = number_at(number)?;
    let lane = judged(number, lane_from(bits, width, n))?;
    Ok((
        Line::Extract {
            register,
            lane,
            width,
        },
        rest,
    ))
}
