//! A program made ready to run.

ghost use Rattle.std.specs.Prelude.{◌≡◌, length, map, IfOk};
ghost use Rattle.vg_program.specs.Valid.{KeepsRules};
ghost use Rattle.vg_program.specs.Meaning.{meaning};
ghost use Rattle.vg_memory.specs.Outcome.{Leaves};
ghost use Rattle.vg_catalog.specs.Entries.{entry_of};
ghost use Rattle.vg_catalog.specs.Written.{AllWritten};
ghost use Rattle.vg_catalog.specs.Called.{called_by, headers_of};

use crate::inputs::Inputs;
use crate::instances::Instances;
use crate::planner::planned;
use crate::steps::run;
use crate::vector::Vector;
use std::alloc::{AllocError, Global};
use std::marker::Model;
use vg_bits::Outcome;
use vg_program::program::Program;
use vg_range::Checked;

/// A program with room for its scalars and registers, and with what its calls need. Contracts see
/// it as the program and the entries that it may call.
#[derive(Drop)]
pub struct Machine<'a> {
    program: &'a Program,
    instances: Instances<'a>,
    plan: Vec<usize>,
    scalars: Vec<u64>,
    vectors: Vec<Vector>,
}

impl<'a> Model for Machine<'a> {
    ghost use Rattle.std.specs.Prelude.{◌≤◌, length, vec_capacity};
    ghost use Rattle.vg_program.specs.Valid.{KeepsRules};
    ghost use Rattle.vg_catalog.specs.Called.{headers_of};
    ghost use Rattle.vg_machine.specs.ReadyInstance.{Loaded, ArePlanned, instances_of};
    ghost use Rattle.vg_range.specs.contracts.checked.Checked as checked;
    ghost use Rattle.std.specs.Coded.{codes};

    ghost Value = { Loaded };

    ghost coded = { Prim.hlevel (codes, checked.the_row.coded) };

    ghost view = { λ m. record { entries = m.instances.entries.now; program = m.program.now } };

    ghost invariant = { λ m. KeepsRules (headers_of (instances_of m.instances).entries) m.program.now
        × ArePlanned (instances_of m.instances) m.plan.items 0 m.program.now.lines
        × (length m.program.now.lines ≤ vec_capacity m.scalars)
        × (length m.program.now.lines ≤ vec_capacity m.vectors) };
}

impl<'a> Machine<'a> {
    /// Makes ready what the program calls of the entries, and takes the room for the scalars and
    /// registers of each run: a line defines at most one. The entries are of a text, as
    /// `parse_file` reads it.
    ///
    /// Fails for want of memory, also past 2^24 nodes of all scripts that are called, 2^28 bytes of the
    /// frames of all instances that are called, or 2^24 expressions kept while a script is written
    /// out, and where a call passes more than four registers or gives one of more than 512 bits or of
    /// no whole bytes.
    pub fn new(
        alloc: Global,
        entries: &'a [Checked],
        program: &'a Program,
    ) -> Result<Machine<'a>, AllocError>
        requires rules { KeepsRules (headers_of (map entry_of entries.now)) program.now }
        requires written { AllWritten (map entry_of entries.now) }
        ensures program { IfOk result (λ machine. machine.program ≡ program.now) }
        ensures entries { IfOk result (λ machine. machine.entries ≡ entries.now) }
    {
        let (instances, plan) = planned(alloc, entries, program)?;
        let most = program.lines.as_slice().len();
        let scalars = Vec::with_capacity(alloc, most)?;
        let vectors = Vec::with_capacity(alloc, most)?;
        Ok(Machine {
            program,
            instances,
            plan,
            scalars,
            vectors,
        })
    }

    /// Runs the program on a memory. The places are those of its pointers, in bytes from the start
    /// of the memory, and the args the numbers of its integer parameters, each kind in the order of
    /// the first line; one that is missing is 0. A call gives what its entry means. `Trap` exactly where
    /// a line reads or writes outside the memory, which then may hold any bytes. Takes no memory, and
    /// the next run begins anew.
    #[tactic(auto, unfolding(vg_program::specs::Meaning::meaning), using(crate::proofs::Runnable::runnable_all))]
    pub fn run(&mut self, memory: &mut [u8], places: &[u64], args: &[u64]) -> Outcome
        ensures outcome { Leaves result memory.new (meaning (called_by (map entry_of
            self.old.entries)) self.old.program memory.old places.now args.now) }
        ensures size { length memory.new ≡ length memory.old }
        ensures program { self.new ≡ self.old }
    {
        self.scalars.clear();
        self.vectors.clear();
        let inputs = Inputs { places, args };
        run(
            &inputs,
            &mut self.instances,
            self.plan.as_slice(),
            self.program.lines.as_slice(),
            memory,
            &mut self.scalars,
            &mut self.vectors,
        )
    }
}
