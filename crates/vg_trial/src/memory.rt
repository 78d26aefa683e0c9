//! The memory of a trial.

ghost use Rattle.std.specs.Prelude.{◌≡◌, ◌+◌, ◌*◌, ◌%◌, ◌^◌, ◌<◌, [], length, All, IfOk, IsSome};
ghost use Rattle.vg_kernel.specs.Layout.{Respects};
ghost use Rattle.vg_kernel.specs.Meaning.{meaning};
ghost use Rattle.vg_trial.specs.Trial.{groups, memory};
ghost use Rattle.vg_trial.specs.TrialKernel.{kernel, places};

use std::alloc::{AllocError, Global};

/// The byte at place `x` of the memory of the trial of this number.
fn byte_at(number: u32, x: u32) -> u8
    ensures { result ≡ (7 * x + number) % 256 }
{
    ((7 * u64::from(x) + u64::from(number)) % 256) as u8
}

/// The memory of the trial of this number. `Err` for want of memory alone.
#[tactic(auto, using(crate::proofs::Trials::no_bytes, crate::proofs::Trials::more_bytes))]
fn make_memory(alloc: Global, number: u32) -> Result<Vec<u8>, AllocError>
    ensures { IfOk result (λ bytes. bytes.items ≡ memory number) }
{
    let mut bytes = Vec::new(alloc);
    'bytes: for x in 0..80 * (1 + number % 40) {
        bytes.push(byte_at(number, x))?;
    }
    Ok(bytes)
}

/// The memory of the trial of this number, 80 bytes for each of its groups. The trial's kernel runs
/// to its end on it, with the pointers at the trial's places, where its accesses keep apart as
/// `noalias` wants. `Err` for want of memory alone.
pub fn trial_memory(alloc: Global, number: u32) -> Result<Vec<u8>, AllocError>
    ensures bytes { IfOk result (λ bytes. bytes.items ≡ memory number) }
    ensures size { length (memory number) ≡ 80 * groups number }
    ensures bytes_of { All (λ b. b < 2 ^ 8) (memory number) }
    ensures ends { IsSome (meaning (kernel number) (memory number) (places number) []) }
    ensures layout { Respects (kernel number) (places number) }
{
    make_memory(alloc, number)
}
