//! Instructions that are made ready to run.

ghost use Rattle.std.specs.Prelude.{◌≡◌, ◌<◌, Some, length, map, slice_get};
ghost use Rattle.vg_base.specs.Bits.{bits, bits_of_bytes, num};
ghost use Rattle.vg_machine.specs.ReadyInstance.{ReadyInstance, instances_of, kept_of};
ghost use Rattle.vg_pmean.specs.Applied.{answer, given};

use vg_bits::Reg;
use vg_pmean::Prepared;
use vg_range::Checked;

/// An entry, by its place among the entries, and an immediate that it is called with.
#[derive(Clone, Copy, PartialEq, Eq, Hash)]
pub(crate) struct Called {
    pub(crate) entry: usize,
    pub(crate) imm: u8,
}

/// An entry made ready for one immediate.
#[derive(Drop)]
pub(crate) struct KeptInstance {
    pub(crate) called: Called,
    pub(crate) prepared: Prepared,
}

impl KeptInstance {
    /// What it answers to these parameters and this immediate.
    fn answer(&mut self, params: &[Reg<64>], imm: u8) -> Reg<64>
        ensures bits { bits_of_bytes result.bytes ≡
            bits 512 (num (answer (kept_of self.old).ready imm (given params.now imm))) }
        ensures same { kept_of self.new ≡ kept_of self.old }
    {
        self.prepared.apply(params, imm)
    }
}

/// The entries that may be called, and what is made ready of them.
#[derive(Drop)]
pub(crate) struct Instances<'a> {
    pub(crate) entries: &'a [Checked],
    pub(crate) kept: Vec<KeptInstance>,
}

/// What the one at this place answers.
fn answer_at(kept: &mut [KeptInstance], place: usize, params: &[Reg<64>], imm: u8) -> Reg<64>
    ensures bits { (k : ReadyInstance) → slice_get (map kept_of kept.old) place ≡ Some k →
        bits_of_bytes result.bytes ≡ bits 512 (num (answer k.ready imm (given params.now imm))) }
    ensures same { map kept_of kept.new ≡ map kept_of kept.old }
{
    if place < kept.len() {
        kept[place].answer(params, imm)
    } else {
        Reg::zero()
    }
}

impl Instances<'_> {
    /// What the one at this place answers to these parameters and this immediate. Takes no memory.
    pub(crate) fn answer(&mut self, place: usize, params: &[Reg<64>], imm: u8) -> Reg<64>
        ensures bits { (k : ReadyInstance) → slice_get (instances_of self.old).kept place ≡ Some k →
            bits_of_bytes result.bytes ≡ bits 512 (num (answer k.ready imm (given params.now
            imm))) }
        ensures same { instances_of self.new ≡ instances_of self.old }
        ensures entries { self.new.entries.now ≡ self.old.entries.now }
    {
        answer_at(self.kept.as_mut_slice(), place, params, imm)
    }
}
