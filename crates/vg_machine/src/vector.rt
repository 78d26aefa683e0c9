//! Registers.

ghost use Rattle.std.specs.Prelude.{◌≡◌, ◌≤◌, ◌<◌, ◌+◌, ◌*◌, ◌^◌, ◌++◌, length, take, drop};
ghost use Rattle.vg_base.specs.Bits.{bits_of_bytes, bytes, num};
ghost use Rattle.vg_base.specs.Width.{bits_of};
ghost use Rattle.vg_bits.specs.BitList.{IsBytes};
ghost use Rattle.vg_program.specs.Valid.{IsLane};
ghost use Rattle.vg_program.specs.Meaning.{widened, lane_number, with_lane};

use std::marker::Model;
use vg_base::Width;
use vg_bits::Reg;

/// A register of at most 64 bytes. Contracts see it as the list of its bits, the lowest first.
#[derive(Drop)]
pub(crate) struct Vector {
    register: Reg<64>,
    /// In bytes.
    size: usize,
}

impl Model for Vector {
    ghost use Rattle.std.specs.Prelude.{◌≤◌, ℕ, List, length, take};
    ghost use Rattle.vg_base.specs.Bits.{bits_of_bytes};

    ghost Value = { List ℕ };

    ghost view = { λ v. bits_of_bytes (take v.size v.register.bytes) };

    ghost invariant = { λ v. (v.size ≤ 64) × (v.size ≤ length v.register.bytes) };
}

/// Overwrites the first bytes, as many as `from` has.
fn put_front(to: &mut [u8], from: &[u8])
    requires { length from.now ≤ length to.old }
    ensures { to.new ≡ from.now ++ drop (length from.now) to.old }
{
    to[..from.len()].copy_from_slice(from);
}

/// The first bytes, as many as `count`.
fn front(bytes: &[u8], count: usize) -> &[u8]
    requires { count ≤ length bytes.now }
    ensures value { result.now ≡ take count bytes.now }
    ensures bytes { IsBytes bytes.now }
{
    &bytes[..count]
}

/// A number of a width as 64 bits.
fn narrow(number: u128, width: Width) -> u64
    requires { number < 2 ^ bits_of width }
    ensures { result ≡ number }
{
    match width {
        Width::W8 => number as u64,
        Width::W16 => number as u64,
        Width::W32 => number as u64,
        Width::W64 => number as u64,
    }
}

impl Vector {
    /// Bytes in a register of so many, zeros above them.
    pub(crate) fn widened(from: &[u8], size: usize) -> Vector
        requires front { length from.now ≤ size }
        requires most { size ≤ 64 }
        ensures { result ≡ widened (8 * size) from.now }
    {
        let mut bytes = [0u8; 64];
        put_front(&mut bytes, from);
        Vector {
            register: Reg { bytes },
            size,
        }
    }

    /// The low bytes of a register.
    #[tactic(auto, using(crate::proofs::Calls::low_bytes))]
    pub(crate) fn of(register: Reg<64>, size: usize) -> Vector
        requires { size ≤ 64 }
        ensures { result ≡ take (8 * size) (bits_of_bytes register.bytes) }
    {
        Vector { register, size }
    }

    /// The register with zeros above it.
    #[tactic(auto, using(crate::proofs::Calls::widened_number))]
    pub(crate) fn whole(&self) -> Reg<64>
        ensures { num (bits_of_bytes result.bytes) ≡ num self.now }
    {
        let mut all = [0u8; 64];
        put_front(&mut all, front(&self.register.bytes, self.size));
        Reg { bytes: all }
    }

    /// The low bytes.
    pub(crate) fn bytes(&self, count: usize) -> &[u8]
        requires { 8 * count ≤ length self.now }
        ensures { result.now ≡ bytes count (num (take (8 * count) self.now)) }
    {
        front(&self.register.bytes, count)
    }

    /// The number of a lane.
    pub(crate) fn lane(&self, width: Width, lane: u32) -> u64
        requires { IsLane (length self.now) width lane }
        ensures { result ≡ lane_number (bits_of width) lane self.now }
    {
        let bits = width.bits() as usize;
        let number = self.register.get(lane as usize * bits, bits);
        narrow(number, width)
    }

    /// The register with a number in one of its lanes.
    pub(crate) fn with_lane(&self, width: Width, lane: u32, number: u64) -> Vector
        requires { IsLane (length self.now) width lane }
        ensures { result ≡ with_lane (bits_of width) lane number self.now }
    {
        let bits = width.bits() as usize;
        let mut register = self.register;
        register.put(lane as usize * bits, bits, number as u128);
        Vector {
            register,
            size: self.size,
        }
    }
}
