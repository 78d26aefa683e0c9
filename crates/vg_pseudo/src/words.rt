//! The words of operation texts.

ghost use Rattle.std.specs.Prelude.{◌≡◌, is_some};
ghost use Rattle.vg_text.specs.Sized.{width_behind};
ghost use Rattle.vg_pseudo.specs.Words.{element_named, level_of, logical_named, comparison_named, sum_named, operator_named, prefix_named, plain_named, sized_named, function_named, is_statement_word, is_header_word, is_operator_word, is_reserved, is_free, number_in, number_of, begins_operand, begins_statement};

use crate::operators::{BinaryOp, UnaryOp};
use vg_base::Width;
use vg_text::byte::{is_name_text, is_text};
use vg_text::number::{decimal, value_in};
use vg_text::sized::width_behind;

/// A function that every operation may call, by the operator that it is.
#[derive(Clone, Copy)]
pub(crate) enum Function {
    One(UnaryOp),
    Two(BinaryOp),
}

/// The size of an element.
pub(crate) fn element_named(bytes: &[u8]) -> Option<Width>
    ensures { result ≡ element_named bytes.now }
{
    if is_text(bytes, b"byte") {
        Some(Width::W8)
    } else if is_text(bytes, b"word") {
        Some(Width::W16)
    } else if is_text(bytes, b"dword") {
        Some(Width::W32)
    } else if is_text(bytes, b"qword") {
        Some(Width::W64)
    } else {
        None
    }
}

/// How loose an operator binds, from 1, the tightest, to 7; 0 for functions.
pub(crate) fn level_of(op: BinaryOp) -> u32
    ensures { result ≡ level_of op }
{
    match op {
        BinaryOp::Multiply => 1,
        BinaryOp::Add => 2,
        BinaryOp::Subtract => 2,
        BinaryOp::ShiftLeft => 3,
        BinaryOp::ShiftRight => 3,
        BinaryOp::Equal => 4,
        BinaryOp::NotEqual => 4,
        BinaryOp::Less => 4,
        BinaryOp::LessOrEqual => 4,
        BinaryOp::Greater => 4,
        BinaryOp::GreaterOrEqual => 4,
        BinaryOp::And => 5,
        BinaryOp::Xor => 6,
        BinaryOp::Or => 7,
        BinaryOp::Minimum => 0,
        BinaryOp::Maximum => 0,
    }
}

/// Operators that are words, and `*`.
fn logical_named(bytes: &[u8]) -> Option<BinaryOp>
    ensures { result ≡ logical_named bytes.now }
{
    if is_text(bytes, b"OR") {
        Some(BinaryOp::Or)
    } else if is_text(bytes, b"XOR") {
        Some(BinaryOp::Xor)
    } else if is_text(bytes, b"AND") {
        Some(BinaryOp::And)
    } else if is_text(bytes, b"*") {
        Some(BinaryOp::Multiply)
    } else {
        None
    }
}

fn comparison_named(bytes: &[u8]) -> Option<BinaryOp>
    ensures { result ≡ comparison_named bytes.now }
{
    if is_text(bytes, b"==") {
        Some(BinaryOp::Equal)
    } else if is_text(bytes, b"!=") {
        Some(BinaryOp::NotEqual)
    } else if is_text(bytes, b"<") {
        Some(BinaryOp::Less)
    } else if is_text(bytes, b"<=") {
        Some(BinaryOp::LessOrEqual)
    } else if is_text(bytes, b">") {
        Some(BinaryOp::Greater)
    } else if is_text(bytes, b">=") {
        Some(BinaryOp::GreaterOrEqual)
    } else {
        None
    }
}

/// Shifts, sums and differences.
fn sum_named(bytes: &[u8]) -> Option<BinaryOp>
    ensures { result ≡ sum_named bytes.now }
{
    if is_text(bytes, b"<<") {
        Some(BinaryOp::ShiftLeft)
    } else if is_text(bytes, b">>") {
        Some(BinaryOp::ShiftRight)
    } else if is_text(bytes, b"+") {
        Some(BinaryOp::Add)
    } else if is_text(bytes, b"-") {
        Some(BinaryOp::Subtract)
    } else {
        None
    }
}

/// The operator that stands between two operands.
pub(crate) fn operator_named(bytes: &[u8]) -> Option<BinaryOp>
    ensures { result ≡ operator_named bytes.now }
{
    if let Some(op) = logical_named(bytes) {
        return Some(op);
    }
    match comparison_named(bytes) {
        Some(op) => Some(op),
        None => sum_named(bytes),
    }
}

/// The operator that stands before its operand.
pub(crate) fn prefix_named(bytes: &[u8]) -> Option<UnaryOp>
    ensures { result ≡ prefix_named bytes.now }
{
    if is_text(bytes, b"NOT") {
        Some(UnaryOp::Not)
    } else if is_text(bytes, b"-") {
        Some(UnaryOp::Negate)
    } else {
        None
    }
}

/// The function of a name without a width.
fn plain_named(bytes: &[u8]) -> Option<Function>
    ensures { result ≡ plain_named bytes.now }
{
    if is_text(bytes, b"ABS") {
        Some(Function::One(UnaryOp::Absolute))
    } else if is_text(bytes, b"Signed") {
        Some(Function::One(UnaryOp::Signed))
    } else if is_text(bytes, b"MIN") {
        Some(Function::Two(BinaryOp::Minimum))
    } else if is_text(bytes, b"MAX") {
        Some(Function::Two(BinaryOp::Maximum))
    } else {
        None
    }
}

/// The function of a name that ends with a width.
fn sized_named(bytes: &[u8]) -> Option<UnaryOp>
    ensures { result ≡ sized_named bytes.now }
{
    if let Some(width) = width_behind(b"SignExtend", bytes) {
        return Some(UnaryOp::SignExtend(width));
    }
    if let Some(width) = width_behind(b"ZeroExtend", bytes) {
        return Some(UnaryOp::ZeroExtend(width));
    }
    if let Some(width) = width_behind(b"SaturateU", bytes) {
        return Some(UnaryOp::SaturateUnsigned(width));
    }
    if let Some(width) = width_behind(b"Saturate", bytes) {
        return Some(UnaryOp::Saturate(width));
    }
    match width_behind(b"Truncate", bytes) {
        Some(width) => Some(UnaryOp::Truncate(width)),
        None => None,
    }
}

/// The function of a name.
pub(crate) fn function_named(bytes: &[u8]) -> Option<Function>
    ensures { result ≡ function_named bytes.now }
{
    if let Some(function) = plain_named(bytes) {
        return Some(function);
    }
    match sized_named(bytes) {
        Some(op) => Some(Function::One(op)),
        None => None,
    }
}

fn is_function(bytes: &[u8]) -> bool
    ensures { result ≡ is_some (function_named bytes.now) }
{
    function_named(bytes).is_some()
}

/// Whether a word is one of statements and DEFINEs.
fn is_statement_word(bytes: &[u8]) -> bool
    ensures { result ≡ is_statement_word bytes.now }
{
    is_text(bytes, b"FOR")
        | is_text(bytes, b"to")
        | is_text(bytes, b"ENDFOR")
        | is_text(bytes, b"IF")
        | is_text(bytes, b"ELSE")
        | is_text(bytes, b"FI")
        | is_text(bytes, b"CASE")
        | is_text(bytes, b"OF")
        | is_text(bytes, b"ESAC")
        | is_text(bytes, b"DEFINE")
        | is_text(bytes, b"RETURN")
}

/// Whether a word is one of headers, or closes an entry.
fn is_header_word(bytes: &[u8]) -> bool
    ensures { result ≡ is_header_word bytes.now }
{
    is_text(bytes, b"INSTRUCTION")
        | is_text(bytes, b"PARAM")
        | is_text(bytes, b"IMM")
        | is_text(bytes, b"RESULT")
        | is_text(bytes, b"EXTENSION")
        | is_text(bytes, b"COST")
        | is_text(bytes, b"OPERATION")
        | is_text(bytes, b"END")
}

/// Whether a word is an operator.
fn is_operator_word(bytes: &[u8]) -> bool
    ensures { result ≡ is_operator_word bytes.now }
{
    operator_named(bytes).is_some() | prefix_named(bytes).is_some()
}

/// Whether a word is one that no name may be.
fn is_reserved(bytes: &[u8]) -> bool
    ensures { result ≡ is_reserved bytes.now }
{
    is_statement_word(bytes) | is_header_word(bytes) | is_operator_word(bytes) | is_function(bytes)
}

/// Whether a word may be a name: it is one and is not reserved.
pub fn is_free(bytes: &[u8]) -> bool
    ensures { result ≡ is_free bytes.now }
{
    is_name_text(bytes) && !is_reserved(bytes)
}

/// The number after `0x`.
fn hexadecimal(digits: &[u8]) -> Option<u128>
    ensures { result ≡ number_in 16 digits.now }
{
    value_in(16, digits)
}

/// The number of a decimal or hexadecimal number, where it is below 2^128. None exactly for other tokens.
pub fn number_of(bytes: &[u8]) -> Option<u128>
    ensures { result ≡ number_of bytes.now }
{
    let cut = bytes.len().min(2);
    let (front, digits) = bytes.split_at(cut);
    if is_text(front, b"0x") {
        hexadecimal(digits)
    } else {
        decimal(bytes)
    }
}

/// Whether an operand begins with this word.
pub(crate) fn begins_operand(bytes: &[u8]) -> bool
    ensures { result ≡ begins_operand bytes.now }
{
    is_text(bytes, b"(")
        | prefix_named(bytes).is_some()
        | number_of(bytes).is_some()
        | is_free(bytes)
        | is_function(bytes)
}

/// Whether a statement begins with this word.
pub(crate) fn begins_statement(bytes: &[u8]) -> bool
    ensures { result ≡ begins_statement bytes.now }
{
    is_text(bytes, b"FOR") | is_text(bytes, b"IF") | is_text(bytes, b"CASE") | is_free(bytes)
}
