//! What entries answer.

ghost use Rattle.std.specs.Prelude.{◌≡◌, ◌*◌, map, slice_get, IfOk};
ghost use Rattle.std.specs.Option.{option_map};
ghost use Rattle.vg_base.specs.Bits.{bits, bits_of_bytes, num};
ghost use Rattle.vg_pmean.specs.Applied.{AreReady, answer, given, place_of};
ghost use Rattle.vg_pmean.specs.Readied.{ready, ready_of};

use crate::frame_room::FrameRoom;
use crate::frames::{Frames, frame_bytes};
use crate::instance::Instance;
use crate::prepared::Prepared;
use std::alloc::{AllocError, Global};
use vg_bits::Reg;

/// The greatest number of nodes of all scripts of an entry.
const MAX_NODES: u64 = 16_777_216;

/// Room for each of these instances.
fn room_of(instances: &[Instance]) -> FrameRoom
    ensures { AreReady result (map (λ i. i.whole) instances.now) }
{
    let mut room = FrameRoom::nothing();
    'instances: for instance in instances {
        room = room.either(instance.room);
    }
    room
}

/// How many nodes the scripts of these instances have, as their makers counted them.
fn nodes_of(instances: &[Instance]) -> u64 {
    let mut nodes: u64 = 0;
    'instances: for instance in instances {
        nodes = nodes.saturating_add(instance.whole.nodes);
    }
    nodes
}

/// The place of the instance of an immediate.
fn place_of(least: Option<u8>, imm: u8) -> usize
    ensures { result ≡ place_of least imm }
{
    match least {
        Some(first) => imm.saturating_sub(first) as usize,
        None => 0,
    }
}

/// The instance at this place.
fn instance_at(instances: &[Instance], place: usize) -> Option<&Instance>
    ensures { slice_get (map (λ i. i.whole) instances.now) place ≡
        option_map (λ i. i.now.whole) result }
{
    instances.get(place)
}

impl Prepared {
    /// An entry by its instances, by rising immediates, and its least immediate, if it has immediates.
    /// Fails for want of memory, also past 2^24 nodes of all scripts or 2^28 bytes of frames.
    pub fn from_instances(
        alloc: Global,
        least: Option<u8>,
        instances: Vec<Instance>,
    ) -> Result<Prepared, AllocError>
        ensures { IfOk result (λ prepared. ready_of prepared ≡ ready least instances.items) }
    {
        if nodes_of(&instances) > MAX_NODES {
            return Err(AllocError);
        }
        let room = room_of(&instances);
        let frames = Frames::new(alloc, room)?;
        Ok(Prepared {
            least,
            instances,
            frames,
        })
    }

    /// How many nodes the scripts of its instances have, as their makers counted them.
    pub fn nodes(&self) -> u64 {
        nodes_of(&self.instances)
    }

    /// How many bytes its frames have, at most.
    pub fn frame_bytes(&self) -> usize {
        frame_bytes(room_of(&self.instances))
    }

    /// What the entry answers to these parameters, as many as it has, and an immediate for which it was
    /// made ready: the low bits of the result in B bytes, with zeros above them. Where the entry has no
    /// immediate any number may stand there. Takes no memory.
    pub fn apply<const B: usize>(&mut self, params: &[Reg<B>], imm: u8) -> Reg<B>
        ensures bits { bits_of_bytes result.bytes ≡
            bits (8 * B) (num (answer (ready_of self.old) imm (given params.now imm))) }
        ensures same { ready_of self.new ≡ ready_of self.old }
    {
        match instance_at(&self.instances, place_of(self.least, imm)) {
            Some(instance) => self.frames.answer(instance, params, imm),
            None => Reg::zero(),
        }
    }
}
