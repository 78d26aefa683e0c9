//! Calls of instructions.

ghost use Rattle.std.specs.Prelude.{◌≡◌, ◌≤◌, List, ℕ, length, map, take, slice_get};
ghost use Rattle.std.specs.Option.{option_map_or};
ghost use Rattle.vg_base.specs.Bits.{bits_of_bytes, num};
ghost use Rattle.vg_catalog.specs.Called.{called_by, imm_number};
ghost use Rattle.vg_machine.specs.ReadyInstance.{DoesCall, instances_of};
ghost use Rattle.vg_program.specs.Meaning.{register_bits};

use crate::instances::Instances;
use crate::vector::Vector;
use vg_bits::Reg;

/// The register of this number, with zeros above it.
fn register_number(vectors: &[Vector], number: u32) -> Reg<64>
    ensures { num (bits_of_bytes result.bytes) ≡ num (register_bits vectors.now number) }
{
    match vectors.get(number as usize) {
        Some(vector) => vector.whole(),
        None => Reg::zero(),
    }
}

/// The argument of this number; zeros where there is none.
fn argument(vectors: &[Vector], registers: &[u32], at: usize) -> Reg<64>
    ensures { num (bits_of_bytes result.bytes) ≡
        option_map_or (λ v. num (register_bits vectors.now v)) (slice_get registers.now at) 0 }
{
    match registers.get(at) {
        Some(number) => register_number(vectors, *number),
        None => Reg::zero(),
    }
}

/// The arguments, and zeros after them.
#[tactic(auto, using(crate::proofs::Calls::four_are))]
fn arguments(vectors: &[Vector], registers: &[u32]) -> [Reg<64>; 4]
    requires { length registers.now ≤ 4 }
    ensures { map (λ p. num (bits_of_bytes p.bytes)) (take (length registers.now) result)
        ≡ map (λ v. num (register_bits vectors.now v)) registers.now }
{
    [
        argument(vectors, registers, 0),
        argument(vectors, registers, 1),
        argument(vectors, registers, 2),
        argument(vectors, registers, 3),
    ]
}

/// An immediate as a number; 0 where there is none.
pub(crate) fn imm_number(imm: Option<u8>) -> u8
    ensures { result ≡ imm_number imm }
{
    match imm {
        Some(number) => number,
        None => 0,
    }
}

/// What a call gives for these registers and this immediate, of so many bits, where what answers it
/// is kept at this place. Takes no memory.
pub(crate) fn call(
    instances: &mut Instances<'_>,
    place: usize,
    vectors: &[Vector],
    registers: &[u32],
    imm: Option<u8>,
    bits: u32,
) -> Vector
    requires few { length registers.now ≤ 4 }
    requires most { bits ≤ 512 }
    ensures value { (name : List ℕ) → DoesCall (instances_of instances.old) place name (length
        registers.now) imm bits → result ≡ called_by (instances_of instances.old).entries name (map
        (λ v. register_bits vectors.now v) registers.now) imm }
    ensures same { instances_of instances.new ≡ instances_of instances.old }
    ensures entries { instances.new.entries.now ≡ instances.old.entries.now }
{
    let params = arguments(vectors, registers);
    let answer = instances.answer(place, &params[..registers.len()], imm_number(imm));
    Vector::of(answer, bits as usize / 8)
}
