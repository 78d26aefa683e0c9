//! Instances made ready to run.

ghost use Rattle.std.specs.Prelude.{◌≡◌, ◌+◌, ◌*◌, ◌++◌, length, take, IfOk};
ghost use Rattle.vg_base.specs.Bits.{bits, bits_of_bytes, num};
ghost use Rattle.vg_script.specs.Formed.{ScriptFormed};
ghost use Rattle.vg_script.specs.Views.{script_of, whole_of};
ghost use Rattle.vg_pmean.specs.Applied.{IsReady, given, left_in_dst};
ghost use Rattle.vg_pmean.specs.Held.{Alike, filled, held};
ghost use Rattle.std.proofs.Props.{props};
ghost use Rattle.vg_script.proofs.Unique.{script_formed_once};
ghost use Rattle.vg_pmean.specs.FrameRoom.{Suffices, around, script_room};

use crate::cells::Cells;
use crate::evaluate::run;
use crate::frame_room::FrameRoom;
use crate::need::add_script;
use std::alloc::AllocError;
use vg_bits::Reg;
use vg_script::Whole;

/// An instance, with the room that it needs.
#[derive(Drop)]
pub struct Instance {
    /// Its script, with the widths of its registers.
    pub whole: Whole,
    /// Room for its own frame and those of the calls inside it.
    pub room: FrameRoom,
    ghost ready: { IsReady room (whole_of whole) } by { Prim.hlevel (props, script_formed_once) },
}

/// Gives the first registers of a frame, as many as there are parameters, the parameters and after
/// them the immediate.
fn enter_params<const B: usize>(cells: &mut Cells, parameters: usize, params: &[Reg<B>], imm: u8)
    ensures { cells.new ≡
        held (filled 0 (take parameters (given params.now imm)) cells.old.cells) cells.old.room }
{
    let count = parameters.min(params.len());
    'registers: for register in 0..count {
        cells.enter_bytes(register, &params[register].bytes);
    }
    if params.len() < parameters {
        cells.enter_number(params.len(), imm as u128);
    }
}

impl Instance {
    /// Computes the room that an instance needs. Fails for want of memory where that is more than
    /// an address can say.
    pub fn new(whole: Whole) -> Result<Instance, AllocError>
        requires { ScriptFormed whole.widths (script_of whole.script) }
        ensures { IfOk result (λ instance. instance.whole ≡ whole) }
    {
        let mut inside = FrameRoom::nothing();
        add_script(&mut inside, &whole.script)?;
        let room = inside.around(whole.widths.as_slice(), whole.variables)?;
        Ok(Instance { whole, room })
    }

    /// What it leaves in dst, in the first of the frames.
    pub(crate) fn answer<const B: usize>(
        &self,
        params: &[Reg<B>],
        imm: u8,
        cells: &mut Cells,
        free: &mut [Cells],
    ) -> Reg<B>
        requires room { Suffices (around self.now.whole.widths self.now.whole.variables (script_room
            (script_of self.now.whole.script))) cells.old.room (length free.old + 1) }
        requires alike { Alike cells.old.room free.old }
        ensures bits { bits_of_bytes result.bytes ≡
            bits (8 * B) (num (left_in_dst (whole_of self.now.whole) (given params.now imm))) }
        ensures room { cells.new.room ≡ cells.old.room }
        ensures kept { Alike cells.old.room free.new }
        ensures count { length free.new ≡ length free.old }
    {
        let whole = &self.whole;
        cells.enter(whole.widths.as_slice(), whole.variables);
        enter_params(cells, whole.parameters, params, imm);
        run(&whole.script, cells, free);
        cells.register(whole.result)
    }
}
