//! The bytes of a register of constants.

ghost use Rattle.std.specs.Prelude.{◌≡◌, ◌+◌, ◌*◌, ◌/◌, ◌%◌, ◌^◌, ◌<◌, ◌≤◌, IfOk, replicate};
ghost use Rattle.std.specs.Vec.{vec_len};
ghost use Rattle.vg_emission.specs.Emission.{constant_bytes, constant_of, constants_of};
ghost use Rattle.vg_gather.specs.Adding.{Adds, added, amount};

use std::alloc::{AllocError, Global};
use vg_shapes::{Operand, Slot, Wanted};

/// What is still to be added from a byte on: a carry, and a number moved up by so many bits.
#[derive(Clone, Copy)]
struct Rest {
    carry: u32,
    digits: u128,
    shift: u32,
}

/// A byte with what is to be added to it, and what is left for the bytes after it, where the
/// number begins in one of these.
fn skip_byte(byte: u8, rest: Rest) -> (u8, Rest)
    requires carry { rest.carry < 256 }
    requires high { 8 ≤ rest.shift }
    ensures byte { result.0 ≡ (byte + amount rest) % 256 }
    ensures behind { amount result.1 ≡ (byte + amount rest) / 256 }
    ensures carry { result.1.carry < 256 }
{
    let total = u32::from(byte) + rest.carry;
    let behind = Rest {
        carry: total / 256,
        digits: rest.digits,
        shift: rest.shift - 8,
    };
    ((total % 256) as u8, behind)
}

/// The same where the number begins in the byte or below it.
fn fill_byte(byte: u8, rest: Rest) -> (u8, Rest)
    requires carry { rest.carry < 256 }
    requires low { rest.shift < 8 }
    ensures byte { result.0 ≡ (byte + amount rest) % 256 }
    ensures behind { amount result.1 ≡ (byte + amount rest) / 256 }
    ensures carry { result.1.carry < 256 }
{
    let digit = (rest.digits % 256) as u32;
    let total = u32::from(byte) + rest.carry + digit * 2u32.pow(rest.shift);
    let behind = Rest {
        carry: total / 256,
        digits: rest.digits / 256,
        shift: rest.shift,
    };
    ((total % 256) as u8, behind)
}

/// A byte with what is to be added to it, and what is left for the bytes after it.
fn add_to_byte(byte: u8, rest: Rest) -> (u8, Rest)
    requires { rest.carry < 256 }
    ensures byte { result.0 ≡ (byte + amount rest) % 256 }
    ensures behind { amount result.1 ≡ (byte + amount rest) / 256 }
    ensures carry { result.1.carry < 256 }
{
    if rest.shift >= 8 {
        skip_byte(byte, rest)
    } else {
        fill_byte(byte, rest)
    }
}

/// Adds a number, moved up by so many bits, to bytes.
fn add_number(bytes: &mut [u8], number: u128, shift: u32)
    ensures { bytes.new ≡ added (number * 2 ^ shift) bytes.old }
{
    let mut rest = Rest {
        carry: 0,
        digits: number,
        shift,
    };
    'bytes: for i in 0..bytes.len() {
        let (byte, behind) = add_to_byte(bytes[i], rest);
        bytes[i] = byte;
        rest = behind;
    }
}

/// Adds the constant of a slot to bytes, if it wants one.
fn add_constant(bytes: &mut [u8], slot: &Slot)
    ensures { Adds (constant_of slot.now slot.now.wanted) bytes.old bytes.new }
{
    match slot.wanted {
        Wanted::Value(_) => {}
        Wanted::Constant { value, .. } => add_number(bytes, value, slot.low),
        Wanted::Nothing => {}
    }
}

/// Adds the constants of slots to bytes.
fn add_constants(bytes: &mut [u8], slots: &[Slot])
    ensures { Adds (constants_of slots.now) bytes.old bytes.new }
{
    'slots: for slot in slots {
        add_constant(bytes, slot);
    }
}

/// So many bytes, all 0.
fn zeros(alloc: Global, count: usize) -> Result<Vec<u8>, AllocError>
    ensures items { IfOk result (λ made. made.items ≡ replicate count 0) }
    ensures len { IfOk result (λ made. vec_len made ≡ count) }
{
    vec![in alloc; 0u8; count]
}

/// The bytes of a register with the constants of an operand, and zeros elsewhere, the lowest byte
/// first.
pub fn constant_bytes(alloc: Global, operand: &Operand) -> Result<Vec<u8>, AllocError>
    ensures { IfOk result (λ made. made.items ≡ constant_bytes operand.now) }
{
    let mut made = zeros(alloc, (operand.register / 8) as usize)?;
    add_constants(made.as_mut_slice(), operand.slots.as_slice());
    Ok(made)
}
