//! Bytes in memory. An access with a byte outside the memory traps.

ghost use Rattle.std.specs.Prelude.{◌≡◌, length, MatchOption, None, Some};
ghost use Rattle.vg_base.specs.Memory.{loaded, stored};
ghost use Rattle.vg_memory.specs.Access.{index_of};
ghost use Rattle.vg_memory.specs.Outcome.{Leaves};

use vg_bits::Outcome;

/// The index of the first byte of an access, where all of its bytes lie in a memory of this length.
fn index_of(length: usize, address: i128, size: usize) -> Option<usize>
    ensures { result ≡ index_of length address size }
{
    if address < 0 {
        return None;
    }
    if address as u128 + size as u128 > length as u128 {
        return None;
    }
    Some(address as usize)
}

/// So many bytes of the memory, or None for a trap.
pub(crate) fn load(memory: &[u8], address: i128, size: usize) -> Option<&[u8]>
    ensures { MatchOption result (loaded memory.now address size ≡ None)
        (λ bytes. loaded memory.now address size ≡ Some bytes.now) }
{
    let index = index_of(memory.len(), address, size)?;
    Some(&memory[index..index + size])
}

/// Writes bytes to memory, or traps.
pub(crate) fn store(memory: &mut [u8], address: i128, new: &[u8]) -> Outcome
    ensures outcome { Leaves result memory.new (stored memory.old address new.now) }
    ensures size { length memory.new ≡ length memory.old }
{
    match index_of(memory.len(), address, new.len()) {
        None => Outcome::Trap,
        Some(index) => {
            memory[index..index + new.len()].copy_from_slice(new);
            Outcome::Done
        }
    }
}
