//! Reading and writing numbers in memory. An access with a byte outside the memory traps.

ghost use Rattle.std.specs.Prelude.{◌≡◌, ◌≤◌, length};
ghost use Rattle.std.specs.Option.{option_map};
ghost use Rattle.vg_base.specs.Bits.{number, bytes};
ghost use Rattle.vg_base.specs.Memory.{loaded, stored};
ghost use Rattle.vg_memory.specs.Access.{index_of};
ghost use Rattle.vg_memory.specs.Outcome.{Leaves};

use crate::bytes::{number, write_number};
use vg_bits::Outcome;

/// The index of the first byte of an access, where all of its bytes lie in a memory of this length.
fn index_of(length: usize, address: i128, size: u32) -> Option<usize>
    ensures { result ≡ index_of length address size }
{
    if address < 0 {
        return None;
    }
    if address as u128 + size as u128 > length as u128 {
        return None;
    }
    Some(address as usize)
}

/// The number in at most eight bytes of memory, or None for a trap. Takes no memory.
pub fn load(memory: &[u8], address: i128, size: u32) -> Option<u64>
    requires { size ≤ 8 }
    ensures { result ≡ option_map number (loaded memory.now address size) }
{
    let index = index_of(memory.len(), address, size)?;
    Some(number(&memory[index..index + size as usize]))
}

/// Writes so many of the lowest bytes of a number to memory, or traps; then the memory stays. Takes
/// no memory.
pub fn store(memory: &mut [u8], address: i128, size: u32, number: u64) -> Outcome
    ensures outcome { Leaves result memory.new (stored memory.old address (bytes size number)) }
    ensures size { length memory.new ≡ length memory.old }
    ensures kept { result ≡ Outcome.Trap → memory.new ≡ memory.old }
{
    match index_of(memory.len(), address, size) {
        None => Outcome::Trap,
        Some(index) => {
            write_number(&mut memory[index..index + size as usize], number);
            Outcome::Done
        }
    }
}
