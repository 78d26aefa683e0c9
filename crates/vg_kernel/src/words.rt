//! The words of the kernel language.

ghost use Rattle.std.specs.Prelude.{◌≡◌, true, is_some};
ghost use Rattle.vg_base.specs.Width.{bits_of};
ghost use Rattle.vg_text.specs.Lexing.{spelled_of};
ghost use Rattle.vg_text.specs.Sized.{width_behind};
ghost use Rattle.vg_kernel.specs.Words.{level_of, operator_named, plain_named, sized_named, function_named, is_reserved, is_free, begins_operand, begins_statement, adjoins, offset_of, literal_of};

use crate::function::Function;
use vg_base::Width;
use vg_scalar::{Comparison, Resize, Shift, TwoOp};
use vg_text::byte::{is_name_text, is_text};
use vg_text::lexer::Word;
use vg_text::number::is_decimal;
use vg_text::sized::width_behind;

fn has_stem(stem: &[u8], bytes: &[u8]) -> bool
    ensures { result ≡ is_some (width_behind stem.now bytes.now) }
{
    width_behind(stem, bytes).is_some()
}

/// How tight an operator binds, from 1, the tightest, to 5; 0 where it is none.
pub(crate) fn level_of(op: TwoOp) -> u32
    ensures { result ≡ level_of op }
{
    match op {
        TwoOp::Mul => 1,
        TwoOp::Add => 2,
        TwoOp::Sub => 2,
        TwoOp::And => 3,
        TwoOp::Xor => 4,
        TwoOp::Or => 5,
        _ => 0,
    }
}

/// The operator that a sign such as `+` stands for; none for any other word.
#[tactic(auto, unfolding(crate::specs::Words::operator_named))]
pub(crate) fn operator_named(bytes: &[u8]) -> Option<TwoOp>
    ensures { result ≡ operator_named bytes.now }
{
    if is_text(bytes, b"*") {
        Some(TwoOp::Mul)
    } else if is_text(bytes, b"+") {
        Some(TwoOp::Add)
    } else if is_text(bytes, b"-") {
        Some(TwoOp::Sub)
    } else if is_text(bytes, b"&") {
        Some(TwoOp::And)
    } else if is_text(bytes, b"^") {
        Some(TwoOp::Xor)
    } else if is_text(bytes, b"|") {
        Some(TwoOp::Or)
    } else {
        None
    }
}

/// The function of a name without a width.
#[tactic(auto, unfolding(crate::specs::Words::plain_named))]
fn plain_named(bytes: &[u8]) -> Option<Function>
    ensures { result ≡ plain_named bytes.now }
{
    if is_text(bytes, b"smin") {
        Some(Function::Two(TwoOp::Smin))
    } else if is_text(bytes, b"smax") {
        Some(Function::Two(TwoOp::Smax))
    } else if is_text(bytes, b"umin") {
        Some(Function::Two(TwoOp::Umin))
    } else if is_text(bytes, b"umax") {
        Some(Function::Two(TwoOp::Umax))
    } else if is_text(bytes, b"eq") {
        Some(Function::Compare(Comparison::Eq))
    } else if is_text(bytes, b"slt") {
        Some(Function::Compare(Comparison::Slt))
    } else if is_text(bytes, b"ult") {
        Some(Function::Compare(Comparison::Ult))
    } else if is_text(bytes, b"shl") {
        Some(Function::Shift(Shift::Shl))
    } else if is_text(bytes, b"lshr") {
        Some(Function::Shift(Shift::Lshr))
    } else if is_text(bytes, b"ashr") {
        Some(Function::Shift(Shift::Ashr))
    } else if is_text(bytes, b"select") {
        Some(Function::Select)
    } else {
        None
    }
}

/// The function of a name that ends with a width.
fn sized_named(bytes: &[u8]) -> Option<Function>
    ensures { result ≡ sized_named bytes.now }
{
    if let Some(width) = width_behind(b"sext", bytes) {
        return Some(Function::Resize(Resize::Sext, width));
    }
    if let Some(width) = width_behind(b"zext", bytes) {
        return Some(Function::Resize(Resize::Zext, width));
    }
    match width_behind(b"trunc", bytes) {
        Some(width) => Some(Function::Resize(Resize::Trunc, width)),
        None => None,
    }
}

/// The function other than a load that a name stands for; none for any other word.
pub(crate) fn function_named(bytes: &[u8]) -> Option<Function>
    ensures { result ≡ function_named bytes.now }
{
    match plain_named(bytes) {
        Some(function) => Some(function),
        None => sized_named(bytes),
    }
}

fn is_function(bytes: &[u8]) -> bool
    ensures { result ≡ is_some (function_named bytes.now) }
{
    function_named(bytes).is_some()
}

/// Whether a word is one that no name may be.
#[tactic(auto, unfolding(crate::specs::Words::is_reserved))]
fn is_reserved(bytes: &[u8]) -> bool
    ensures { result ≡ is_reserved bytes.now }
{
    is_text(bytes, b"kernel")
        | is_text(bytes, b"ptr")
        | is_text(bytes, b"noalias")
        | is_function(bytes)
        | has_stem(b"i", bytes)
        | has_stem(b"load", bytes)
        | has_stem(b"store", bytes)
}

/// Whether a word is a name that may be given.
pub(crate) fn is_free(bytes: &[u8]) -> bool
    ensures { result ≡ is_free bytes.now }
{
    is_name_text(bytes) && !is_reserved(bytes)
}

/// Whether an operand begins with this word. A hexadecimal number is none.
pub(crate) fn begins_operand(bytes: &[u8]) -> bool
    ensures { result ≡ begins_operand bytes.now }
{
    is_text(bytes, b"(")
        | is_text(bytes, b"-")
        | is_decimal(bytes)
        | is_free(bytes)
        | is_function(bytes)
        | has_stem(b"load", bytes)
}

/// Whether a statement begins with this word.
pub(crate) fn begins_statement(bytes: &[u8]) -> bool
    ensures { result ≡ begins_statement bytes.now }
{
    is_free(bytes) | has_stem(b"store", bytes)
}

/// Whether the second word stands right after the first.
pub(crate) fn adjoins(first: &Word, second: &Word) -> bool
    ensures { result ≡ adjoins (spelled_of first.now) (spelled_of second.now) }
{
    second.place.line == first.place.line
        && second.place.column as u64 == first.place.column as u64 + first.bytes.len() as u64
}

/// A distance above or below the place of a pointer as an offset. None where it is out of range.
pub(crate) fn offset_of(negative: bool, distance: u128) -> Option<i32>
    ensures { result ≡ offset_of negative distance }
{
    if negative {
        offset_below(distance)
    } else if distance < 1 << 31 {
        Some(distance as i32)
    } else {
        None
    }
}

fn offset_below(distance: u128) -> Option<i32>
    ensures { result ≡ offset_of true distance }
{
    if distance == 0 {
        Some(0)
    } else if distance - 1 < 1 << 31 {
        Some(-1 - (distance - 1) as i32)
    } else {
        None
    }
}

/// The number of a literal at a width. None where it is out of range.
pub(crate) fn literal_of(negative: bool, width: Width, number: u128) -> Option<u64>
    ensures { result ≡ literal_of negative width number }
{
    if negative {
        literal_below(width, number)
    } else if number < 1 << width.bits() {
        Some(number as u64)
    } else {
        None
    }
}

fn literal_below(width: Width, number: u128) -> Option<u64>
    ensures { result ≡ literal_of true width number }
{
    let half = 1u128 << (width.bits() - 1);
    if number == 0 {
        Some(0)
    } else if number <= half {
        Some((half - 1 + (half - number + 1)) as u64)
    } else {
        None
    }
}
