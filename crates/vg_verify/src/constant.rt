//! Constants as bits of registers, in pieces of 64.

ghost use Rattle.std.specs.Prelude.{◌≡◌, ◌-◌, ◌*◌, ◌<◌, ◌≤◌, IfOk, length, min};
ghost use Rattle.vg_base.specs.Bits.{bits_of_bytes, num};
ghost use Rattle.vg_forms.specs.Runs.{bits_in, run_bits};
ghost use Rattle.vg_lift.specs.Gather.{bits_from};
ghost use Rattle.vg_lift.specs.LaneTerm.{piece, pieces};

use std::alloc::{AllocError, Global};
use vg_bits::BitIndex;
use vg_bits::bit_range::read;
use vg_forms::{Form, Run};

/// The most bytes of a constant; no register has as many.
const MOST_BYTES: usize = 65_536;

// The piece of a constant that begins at a bit.
#[tactic(auto, using(crate::proofs::Pieces::piece_bits))]
fn piece(alloc: Global, bytes: &[u8], number: usize) -> Result<Run, AllocError>
    requires inside { number * 64 < 8 * length bytes.now }
    requires few { length bytes.now ≤ 65536 }
    ensures { IfOk result (λ r. run_bits r
        ≡ bits_from (piece (8 * length bytes.now) (num (bits_of_bytes bytes.now)) (number * 64)) 0
        (min 64 (8 * length bytes.now - number * 64))) }
{
    let first = number * 64;
    let count = (8 * bytes.len() - first).min(64);
    let value = read(bytes, BitIndex::new(first), count);
    let form = Form::constant(alloc, count as u32, value)?;
    Ok(Run::Bits {
        form,
        low: 0,
        count: count as u32,
    })
}

/// The bits of a constant. Fails for want of memory, and for one of more than 65,536 bytes.
#[tactic(auto, using(crate::proofs::Pieces::pieces_none, crate::proofs::Pieces::pieces_more, crate::proofs::Pieces::pieces_all))]
pub(crate) fn constant_runs(alloc: Global, bytes: &[u8]) -> Result<Vec<Run>, AllocError>
    ensures { IfOk result (λ v. bits_in v.items
        ≡ pieces (8 * length bytes.now) (num (bits_of_bytes bytes.now)) 0 (8 * length bytes.now)) }
{
    if bytes.len() > MOST_BYTES {
        return Err(AllocError);
    }
    let mut all = Vec::new(alloc);
    'pieces: for number in 0..bytes.len().div_ceil(8) {
        let run = piece(alloc, bytes, number)?;
        all.push(run)?;
    }
    Ok(all)
}
