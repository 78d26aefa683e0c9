//! The text of a program.

ghost use Rattle.std.specs.Prelude.{◌≡◌, ◌+◌, ◌^◌, ◌<◌, ◌≤◌, ◌++◌, IfOk, OnErr, OnOk, slice_get, codes};
ghost use Rattle.std.specs.Fmt.{decimal, signed_decimal};
ghost use Rattle.vg_program.specs.Params.{pointers, integers, name_of};
ghost use Rattle.vg_program.specs.Before.{counted};
ghost use Rattle.vg_program.specs.VectorLines.{HasVectors};
ghost use Rattle.vg_program.specs.Vectors.{bytes_of, hex_digit, hex_text};
ghost use Rattle.vg_program.specs.Text.{type_text, kind_text, param_text, params_text, offset_text, address_text, scalar_text, vector_text, bits_text, operand_text, pair_text, registers_text, imm_text, operands_text, no_counts, left_text, line_text, lines_text, signature_text, signature_of, first_line, last_line, body_text, text_of};

use crate::counts::Counts;
use crate::defined::Defined;
use crate::line::{Line, defined};
use crate::operand::Operand;
use crate::param::Param;
use crate::param_kind::ParamKind;
use crate::program::Program;
use crate::vector_size::VectorSize;
use crate::words::word_text;
use std::alloc::{AllocError, Global};
use vg_base::address::Address;
use vg_base::width::Width;

/// The name of a pointer by its number among the pointers; where there is none it is empty.
pub fn pointer_name(params: &[Param], number: u32) -> &[u8]
    ensures { result.now ≡ name_of (slice_get (pointers params.now) number) }
{
    let mut left = number;
    let mut rest = params;
    'params: while let [param, behind @ ..] = rest {
        if param.kind.is_pointer() {
            if left == 0 {
                return param.name.bytes();
            }
            left -= 1;
        }
        rest = behind;
    }
    b""
}

/// The name of an integer by its number among the integers; where there is none it is empty.
pub fn integer_name(params: &[Param], number: u32) -> &[u8]
    ensures { result.now ≡ name_of (slice_get (integers params.now) number) }
{
    let mut left = number;
    let mut rest = params;
    'params: while let [param, behind @ ..] = rest {
        if param.kind.is_integer() {
            if left == 0 {
                return param.name.bytes();
            }
            left -= 1;
        }
        rest = behind;
    }
    b""
}

/// Appends a number in decimal digits, or nothing where memory is short.
pub fn put_number(alloc: Global, to: &mut Vec<u8>, number: u64) -> Result<(), AllocError>
    ensures done { OnOk result (to.new.items ≡ to.old.items ++ decimal number) }
    ensures refused { OnErr result (to.new.items ≡ to.old.items) }
{
    let digits = number.to_string(alloc)?;
    to.extend_from_slice(digits.as_bytes())?;
    Ok(())
}

fn put_bits(alloc: Global, to: &mut Vec<u8>, bits: u32) -> Result<(), AllocError>
    ensures { OnOk result (to.new.items ≡ to.old.items ++ bits_text bits) }
{
    to.extend_from_slice(b"i")?;
    put_number(alloc, to, bits as u64)
}

fn put_type(alloc: Global, to: &mut Vec<u8>, width: Width) -> Result<(), AllocError>
    ensures { OnOk result (to.new.items ≡ to.old.items ++ type_text width) }
{
    put_bits(alloc, to, width.bits())
}

fn put_param(alloc: Global, to: &mut Vec<u8>, param: &Param) -> Result<(), AllocError>
    ensures { OnOk result (to.new.items ≡ to.old.items ++ param_text param.now) }
{
    to.extend_from_slice(param.name.bytes())?;
    to.extend_from_slice(b": ")?;
    match param.kind {
        ParamKind::Pointer => to.extend_from_slice(b"ptr")?,
        ParamKind::Integer(width) => put_type(alloc, to, width)?,
    }
    Ok(())
}

fn put_params(alloc: Global, to: &mut Vec<u8>, params: &[Param]) -> Result<(), AllocError>
    ensures { OnOk result (to.new.items ≡ to.old.items ++ params_text params.now) }
{
    match params {
        [] => {}
        [first, behind @ ..] => {
            put_param(alloc, to, first)?;
            'params: for param in behind {
                to.extend_from_slice(b", ")?;
                put_param(alloc, to, param)?;
            }
        }
    }
    Ok(())
}

fn write_address(
    alloc: Global,
    to: &mut Vec<u8>,
    params: &[Param],
    address: Address,
) -> Result<(), AllocError>
    ensures { OnOk result (to.new.items ≡ to.old.items ++ address_text params.now address) }
{
    to.extend_from_slice(pointer_name(params, address.pointer))?;
    if address.offset >= 0 {
        to.extend_from_slice(b"+")?;
    }
    let offset = address.offset.to_string(alloc)?;
    to.extend_from_slice(offset.as_bytes())?;
    Ok(())
}

/// Appends an address as programs write it: the name of its pointer and the offset with its sign. Where
/// memory is short nothing is appended.
pub fn put_address(
    alloc: Global,
    to: &mut Vec<u8>,
    params: &[Param],
    address: Address,
) -> Result<(), AllocError>
    ensures done { OnOk result (to.new.items ≡ to.old.items ++ address_text params.now address) }
    ensures refused { OnErr result (to.new.items ≡ to.old.items) }
{
    let mut whole = Vec::new(alloc);
    write_address(alloc, &mut whole, params, address)?;
    to.extend_from_slice(whole.as_slice())
}

fn put_scalar(alloc: Global, to: &mut Vec<u8>, number: u64) -> Result<(), AllocError>
    ensures { OnOk result (to.new.items ≡ to.old.items ++ scalar_text number) }
{
    to.extend_from_slice(b"%s")?;
    put_number(alloc, to, number)
}

fn put_vector(alloc: Global, to: &mut Vec<u8>, number: u64) -> Result<(), AllocError>
    ensures { OnOk result (to.new.items ≡ to.old.items ++ vector_text number) }
{
    to.extend_from_slice(b"%v")?;
    put_number(alloc, to, number)
}

fn put_operand(
    alloc: Global,
    to: &mut Vec<u8>,
    params: &[Param],
    operand: Operand,
) -> Result<(), AllocError>
    ensures { OnOk result (to.new.items ≡ to.old.items ++ operand_text params.now operand) }
{
    match operand {
        Operand::Register(register) => put_scalar(alloc, to, register as u64)?,
        Operand::Argument(number) => to.extend_from_slice(integer_name(params, number))?,
        Operand::Literal { width, number } => {
            put_number(alloc, to, number)?;
            put_type(alloc, to, width)?;
        }
    }
    Ok(())
}

fn put_pair(
    alloc: Global,
    to: &mut Vec<u8>,
    params: &[Param],
    left: Operand,
    right: Operand,
) -> Result<(), AllocError>
    ensures { OnOk result (to.new.items ≡ to.old.items ++ pair_text params.now left right) }
{
    put_operand(alloc, to, params, left)?;
    to.extend_from_slice(b" ")?;
    put_operand(alloc, to, params, right)
}

/// A hexadecimal digit in lower case.
fn hex_digit(number: u8) -> u8
    requires { number < 16 }
    ensures { result ≡ hex_digit number }
{
    if number < 10 {
        number + 48
    } else {
        number + 87
    }
}

#[tactic(auto, unfolding(crate::specs::Vectors::hex_text))]
fn put_bytes(to: &mut Vec<u8>, bytes: &[u8]) -> Result<(), AllocError>
    ensures { OnOk result (to.new.items ≡ to.old.items ++ hex_text bytes.now) }
{
    let mut rest = bytes;
    'bytes: while let [byte, behind @ ..] = rest {
        to.push(hex_digit(*byte / 16))?;
        to.push(hex_digit(*byte % 16))?;
        rest = behind;
    }
    Ok(())
}

#[tactic(auto, unfolding(crate::specs::Text::registers_text))]
fn put_registers(alloc: Global, to: &mut Vec<u8>, registers: &[u32]) -> Result<(), AllocError>
    ensures { OnOk result (to.new.items ≡ to.old.items ++ registers_text registers.now) }
{
    let mut rest = registers;
    'registers: while let [register, behind @ ..] = rest {
        to.extend_from_slice(b" ")?;
        put_vector(alloc, to, *register as u64)?;
        rest = behind;
    }
    Ok(())
}

/// The number of bytes of an access, and a space.
fn put_sized(alloc: Global, to: &mut Vec<u8>, size: VectorSize) -> Result<(), AllocError>
    ensures { OnOk result (to.new.items ≡ to.old.items ++ (decimal (bytes_of size) ++ codes " ")) }
{
    put_number(alloc, to, size.bytes() as u64)?;
    to.extend_from_slice(b" ")?;
    Ok(())
}

/// A register and the number of a lane.
fn put_lane(alloc: Global, to: &mut Vec<u8>, register: u32, lane: u32) -> Result<(), AllocError>
    ensures { OnOk result (to.new.items ≡ to.old.items ++
        (vector_text register ++ codes " " ++ decimal lane)) }
{
    put_vector(alloc, to, register as u64)?;
    to.extend_from_slice(b" ")?;
    put_number(alloc, to, lane as u64)
}

/// The text of an immediate, ` imm N`, or nothing where there is none.
fn imm_text(alloc: Global, imm: Option<u8>) -> Result<Vec<u8>, AllocError>
    ensures { IfOk result (λ text. text.items ≡ imm_text imm) }
{
    let mut text = Vec::new(alloc);
    if let Some(number) = imm {
        text.extend_from_slice(b" imm ")?;
        put_number(alloc, &mut text, number as u64)?;
    }
    Ok(text)
}

/// Appends ` imm N`, or nothing where there is no immediate. Where memory is short nothing is appended.
pub fn put_imm(alloc: Global, to: &mut Vec<u8>, imm: Option<u8>) -> Result<(), AllocError>
    ensures done { OnOk result (to.new.items ≡ to.old.items ++ imm_text imm) }
    ensures refused { OnErr result (to.new.items ≡ to.old.items) }
{
    let text = imm_text(alloc, imm)?;
    to.extend_from_slice(text.as_slice())
}

/// What a line says after its word.
fn put_operands(
    alloc: Global,
    to: &mut Vec<u8>,
    params: &[Param],
    line: &Line,
) -> Result<(), AllocError>
    ensures { OnOk result (to.new.items ≡ to.old.items ++ operands_text params.now line.now) }
{
    match line {
        Line::Load { address, .. } => write_address(alloc, to, params, *address)?,
        Line::Store { address, value, .. } => {
            write_address(alloc, to, params, *address)?;
            to.extend_from_slice(b" ")?;
            put_operand(alloc, to, params, *value)?;
        }
        Line::Two { left, right, .. } => put_pair(alloc, to, params, *left, *right)?,
        Line::Shift {
            operand,
            amount,
            ..
        } => {
            put_operand(alloc, to, params, *operand)?;
            to.extend_from_slice(b" ")?;
            put_number(alloc, to, *amount as u64)?;
        }
        Line::Resize { operand, .. } => put_operand(alloc, to, params, *operand)?,
        Line::Compare { left, right, .. } => put_pair(alloc, to, params, *left, *right)?,
        Line::Select {
            condition,
            first,
            second,
            ..
        } => {
            put_operand(alloc, to, params, *condition)?;
            to.extend_from_slice(b" ")?;
            put_pair(alloc, to, params, *first, *second)?;
        }
        Line::VectorLoad { .. }
        | Line::VectorStore { .. }
        | Line::Constant { .. }
        | Line::Insert { .. }
        | Line::Extract { .. }
        | Line::Call { .. } => put_vector_operands(alloc, to, params, line)?,
    }
    Ok(())
}

/// What a line with vectors says after its word.
fn put_vector_operands(
    alloc: Global,
    to: &mut Vec<u8>,
    params: &[Param],
    line: &Line,
) -> Result<(), AllocError>
    requires { HasVectors line.now }
    ensures { OnOk result (to.new.items ≡ to.old.items ++ operands_text params.now line.now) }
{
    match line {
        Line::VectorLoad { size, address } => {
            put_sized(alloc, to, *size)?;
            write_address(alloc, to, params, *address)?;
        }
        Line::VectorStore {
            size,
            address,
            register,
        } => {
            put_sized(alloc, to, *size)?;
            write_address(alloc, to, params, *address)?;
            to.extend_from_slice(b" ")?;
            put_vector(alloc, to, *register as u64)?;
        }
        Line::Constant { bytes } => put_bytes(to, bytes.as_slice())?,
        Line::Insert {
            register,
            lane,
            value,
            ..
        } => {
            put_lane(alloc, to, *register, *lane)?;
            to.extend_from_slice(b" ")?;
            put_operand(alloc, to, params, *value)?;
        }
        Line::Extract { register, lane, .. } => put_lane(alloc, to, *register, *lane)?,
        Line::Call {
            name,
            registers,
            imm,
            ..
        } => {
            to.extend_from_slice(name.bytes())?;
            put_registers(alloc, to, registers.as_slice())?;
            put_imm(alloc, to, *imm)?;
        }
        _ => unreachable!(),
    }
    Ok(())
}

fn put_left(
    alloc: Global,
    to: &mut Vec<u8>,
    counts: Counts,
    defined: Defined,
) -> Result<(), AllocError>
    ensures { OnOk result (to.new.items ≡ to.old.items ++ left_text counts defined) }
{
    match defined {
        Defined::Nothing => {}
        Defined::Scalar(bits) => {
            put_scalar(alloc, to, counts.scalars)?;
            to.extend_from_slice(b":")?;
            put_bits(alloc, to, bits)?;
            to.extend_from_slice(b" = ")?;
        }
        Defined::Vector(_) => {
            put_vector(alloc, to, counts.vectors)?;
            to.extend_from_slice(b" = ")?;
        }
    }
    Ok(())
}

fn put_line(
    alloc: Global,
    to: &mut Vec<u8>,
    params: &[Param],
    counts: Counts,
    line: &Line,
) -> Result<(), AllocError>
    ensures { OnOk result (to.new.items ≡ to.old.items ++ line_text params.now counts line.now) }
{
    put_left(alloc, to, counts, defined(line))?;
    to.extend_from_slice(word_text(line))?;
    to.extend_from_slice(b" ")?;
    put_operands(alloc, to, params, line)
}

/// How many are defined after a line.
fn counted(counts: Counts, defined: Defined) -> Counts
    requires scalars { counts.scalars < 2 ^ 63 }
    requires vectors { counts.vectors < 2 ^ 63 }
    ensures exact { result ≡ counted counts defined }
    ensures scalars { result.scalars ≤ counts.scalars + 1 }
    ensures vectors { result.vectors ≤ counts.vectors + 1 }
{
    match defined {
        Defined::Nothing => counts,
        Defined::Scalar(_) => Counts {
            scalars: counts.scalars + 1,
            vectors: counts.vectors,
        },
        Defined::Vector(_) => Counts {
            scalars: counts.scalars,
            vectors: counts.vectors + 1,
        },
    }
}

#[tactic(auto, unfolding(crate::specs::Text::lines_text))]
fn put_lines(
    alloc: Global,
    to: &mut Vec<u8>,
    params: &[Param],
    lines: &[Line],
) -> Result<(), AllocError>
    ensures { OnOk result
        (to.new.items ≡ to.old.items ++ lines_text params.now no_counts lines.now) }
{
    let mut counts = Counts {
        scalars: 0,
        vectors: 0,
    };
    let mut rest = lines;
    'lines: while let [line, behind @ ..] = rest {
        put_line(alloc, to, params, counts, line)?;
        to.extend_from_slice(b"\n")?;
        counts = counted(counts, defined(line));
        rest = behind;
    }
    Ok(())
}

fn write_signature(alloc: Global, to: &mut Vec<u8>, program: &Program) -> Result<(), AllocError>
    ensures { OnOk result
        (to.new.items ≡ to.old.items ++ signature_text (signature_of program.now)) }
{
    to.extend_from_slice(program.name.bytes())?;
    to.extend_from_slice(b"(")?;
    put_params(alloc, to, program.params.as_slice())?;
    to.extend_from_slice(b")")?;
    Ok(())
}

/// Appends the name and the parameters of a program, as `copy(d: ptr, k: i8)`. Where memory is
/// short nothing is appended.
pub fn put_signature(alloc: Global, to: &mut Vec<u8>, program: &Program) -> Result<(), AllocError>
    ensures done { OnOk result
        (to.new.items ≡ to.old.items ++ signature_text (signature_of program.now)) }
    ensures refused { OnErr result (to.new.items ≡ to.old.items) }
{
    let mut whole = Vec::new(alloc);
    write_signature(alloc, &mut whole, program)?;
    to.extend_from_slice(whole.as_slice())
}

fn put_first_line(alloc: Global, to: &mut Vec<u8>, program: &Program) -> Result<(), AllocError>
    ensures { OnOk result (to.new.items ≡ to.old.items ++ first_line program.now) }
{
    to.extend_from_slice(b"program ")?;
    write_signature(alloc, to, program)?;
    to.extend_from_slice(b"\n")?;
    Ok(())
}

fn put_last_line(alloc: Global, to: &mut Vec<u8>, program: &Program) -> Result<(), AllocError>
    ensures { OnOk result (to.new.items ≡ to.old.items ++ last_line program.now) }
{
    to.extend_from_slice(b"end cost ")?;
    put_number(alloc, to, program.cost as u64)?;
    to.extend_from_slice(b" scalar ")?;
    put_number(alloc, to, program.scalar as u64)?;
    to.extend_from_slice(b"\n")?;
    Ok(())
}

fn write_body(alloc: Global, to: &mut Vec<u8>, program: &Program) -> Result<(), AllocError>
    ensures { OnOk result (to.new.items ≡ to.old.items ++ body_text program.now) }
{
    put_lines(
        alloc,
        to,
        program.params.as_slice(),
        program.lines.as_slice(),
    )?;
    put_last_line(alloc, to, program)
}

/// Appends the lines of a program after its first line, the last one among them. Where memory is
/// short nothing is appended.
pub fn put_body(alloc: Global, to: &mut Vec<u8>, program: &Program) -> Result<(), AllocError>
    ensures done { OnOk result (to.new.items ≡ to.old.items ++ body_text program.now) }
    ensures refused { OnErr result (to.new.items ≡ to.old.items) }
{
    let mut whole = Vec::new(alloc);
    write_body(alloc, &mut whole, program)?;
    to.extend_from_slice(whole.as_slice())
}

/// The text of a program. The only error is want of memory.
#[tactic(auto, unfolding(crate::specs::Text::text_of))]
pub fn print_program(alloc: Global, program: &Program) -> Result<Vec<u8>, AllocError>
    ensures { IfOk result (λ text. text.items ≡ text_of program.now) }
{
    let mut text = Vec::new(alloc);
    put_first_line(alloc, &mut text, program)?;
    write_body(alloc, &mut text, program)?;
    Ok(text)
}
