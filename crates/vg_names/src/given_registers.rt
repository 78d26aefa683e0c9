//! The registers that a body is given: parameters, the immediate and dst.

ghost use Rattle.std.specs.Prelude.{◌≡◌, ◌∷◌, ◌++◌, [], Some, false, map, IfOk};
ghost use Rattle.vg_pseudo.specs.Resolve.{define_register, param_register, imm_registers, result_register, operand_registers};
ghost use Rattle.vg_names.specs.Registers.{register_view};

use crate::registers::{Register, Registers};
use std::alloc::{AllocError, Global};
use vg_base::Name;
use vg_pseudo::{DefineParam, Header, ImmRange, Param};

/// A parameter of the instruction, all of whose bits its bare name means.
fn param_register(alloc: Global, param: &Param) -> Result<Register, AllocError>
    ensures { IfOk result (λ r. register_view r ≡ param_register param.now) }
{
    let name = param.name.copy(alloc)?;
    Ok(Register {
        name,
        width: param.register as u128,
        is_variable: false,
        signed_slices: param.is_signed,
        signed_whole: param.is_signed,
        span: Some(param.register as u128),
    })
}

fn param_registers(alloc: Global, params: &[Param]) -> Result<Registers, AllocError>
    ensures { IfOk result (λ rs. rs ≡ map param_register params.now) }
{
    let mut registers = Registers::new(alloc);
    for param in params {
        registers = registers.with(alloc, param_register(alloc, param)?)?;
    }
    Ok(registers)
}

/// The immediate, of 8 bits.
fn imm_register(alloc: Global, imm: &ImmRange) -> Result<Register, AllocError>
    ensures { IfOk result (λ r. register_view r ∷ [] ≡ imm_registers (Some imm.now)) }
{
    let name = imm.name.copy(alloc)?;
    Ok(Register {
        name,
        width: 8,
        is_variable: false,
        signed_slices: false,
        signed_whole: false,
        span: Some(8),
    })
}

/// What stands before dst among the registers of an operation.
pub(crate) fn operand_registers(alloc: Global, header: &Header) -> Result<Registers, AllocError>
    ensures { IfOk result (λ rs. rs ≡ operand_registers header.now) }
{
    let registers = param_registers(alloc, header.params.as_slice())?;
    with_imm(alloc, registers, &header.imm)
}

fn with_imm(
    alloc: Global,
    registers: Registers,
    imm: &Option<ImmRange>,
) -> Result<Registers, AllocError>
    ensures { IfOk result (λ rs. rs ≡ registers ++ imm_registers imm.now) }
{
    match imm {
        Some(imm) => {
            let imm = imm_register(alloc, imm)?;
            registers.with(alloc, imm)
        }
        None => Ok(registers),
    }
}

/// The register that an operation writes.
pub(crate) fn result_register(alloc: Global, header: &Header) -> Result<Register, AllocError>
    ensures { IfOk result (λ r. register_view r ≡ result_register header.now) }
{
    let name = Name::new(alloc, b"dst")?;
    Ok(Register {
        name,
        width: header.register as u128,
        is_variable: true,
        signed_slices: false,
        signed_whole: false,
        span: Some(header.register as u128),
    })
}

/// A parameter of a DEFINE. One of 2^128 bits takes more memory than there is.
fn define_register(alloc: Global, param: &DefineParam) -> Result<Register, AllocError>
    ensures { IfOk result (λ r. register_view r ≡ define_register param.now) }
{
    match param.high {
        Some(high) => match high.checked_add(1) {
            Some(width) => unsigned_register(alloc, &param.name, width, Some(width)),
            None => Err(AllocError),
        },
        None => unsigned_register(alloc, &param.name, 512, None),
    }
}

/// A register that is not assigned and whose bits are read as unsigned.
fn unsigned_register(
    alloc: Global,
    name: &Name,
    width: u128,
    span: Option<u128>,
) -> Result<Register, AllocError>
    ensures { IfOk result (λ r. register_view r ≡ record {
      name = name.now;
      width = width;
      is_variable = false;
      signed_slices = false;
      signed_whole = false;
      span = span;
    }) }
{
    let name = name.copy(alloc)?;
    Ok(Register {
        name,
        width,
        is_variable: false,
        signed_slices: false,
        signed_whole: false,
        span,
    })
}

/// The parameters of a DEFINE.
pub(crate) fn define_registers(
    alloc: Global,
    params: &[DefineParam],
) -> Result<Registers, AllocError>
    ensures { IfOk result (λ rs. rs ≡ map define_register params.now) }
{
    let mut registers = Registers::new(alloc);
    for param in params {
        registers = registers.with(alloc, define_register(alloc, param)?)?;
    }
    Ok(registers)
}
