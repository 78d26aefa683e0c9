//! The terms of the lanes of calls.

ghost use Rattle.std.specs.Prelude.{◌≡◌, ◌-◌, ◌^◌, IfOk, map, min, unwrap_or};
ghost use Rattle.vg_canon.specs.Canonical.{canonical};
ghost use Rattle.vg_forms.specs.Gathered.{stacked};
ghost use Rattle.vg_forms.specs.Lanes.{lane_term, leaf_bits, leaf_term, parted, register_at, registers_of};
ghost use Rattle.vg_forms.specs.Runs.{bits_in};
ghost use Rattle.vg_known.specs.Calls.{read_leaf};
ghost use Rattle.vg_known.specs.Cuts.{built, cut_bits};
ghost use Rattle.vg_shapes.specs.Fits.{replaced};
ghost use Rattle.vg_shapes.specs.Leaves.{bit_number};
ghost use Rattle.vg_terms.specs.Term.{Tree, node_count, tree};

use crate::classes::Classes;
use crate::form::Form;
use crate::gather::{merged, stacked, stacked_size};
use crate::maker::{MOST_BUILT, Maker};
use crate::run::{Run, push_range};
use std::alloc::{AllocError, Global};
use vg_base::Items;
use vg_terms::{LeafKey, Term, make_const, make_one, make_sel, make_two};

/// Registers that are given to an instruction.
#[derive(Clone, Copy)]
pub struct Inputs<'a> {
    /// All registers so far.
    pub vectors: &'a [Items<Run>],
    /// The numbers of those that are given.
    pub registers: &'a [u32],
}

/// What stands for the terms of which a term is made.
#[derive(Clone, Copy)]
pub enum Parts {
    /// They themselves.
    Whole,
    /// The leaves of their classes.
    Cut,
}

/// The number of the first bit of a leaf. Fails past 2^32.
fn first_bit(bit: i64) -> Result<u32, AllocError>
    ensures { IfOk result (λ n. n ≡ bit_number bit) }
{
    if bit < 0 {
        Ok(0)
    } else if bit > i64::from(u32::MAX) {
        Err(AllocError)
    } else {
        Ok(bit as u32)
    }
}

// The register that a leaf reads.
fn register<'a>(inputs: Inputs<'a>, number: u32) -> &'a [Run]
    ensures { result.now ≡ register_at inputs.entry.vectors.now inputs.entry.registers.now number }
{
    match inputs.registers.get(number as usize) {
        None => &[],
        Some(register) => match inputs.vectors.get(*register as usize) {
            None => &[],
            Some(runs) => runs.as_slice(),
        },
    }
}

// The bits that a leaf reads.
#[tactic(auto, using(crate::proofs::Ranges::range_bits))]
fn read_leaf(
    alloc: Global,
    inputs: Inputs,
    width: u32,
    key: LeafKey,
) -> Result<Vec<Run>, AllocError>
    ensures { IfOk result (λ v. bits_in v.items ≡ leaf_bits inputs.entry.vectors.now
        inputs.entry.registers.now width key) }
{
    let low = first_bit(key.second)?;
    let mut runs = Vec::new(alloc);
    push_range(&mut runs, register(inputs, key.first), low, width)?;
    Ok(runs)
}

impl Classes {
    // What a leaf gathers, as few runs as there can be.
    #[tactic(auto, using(crate::proofs::Gathering::gather_merged))]
    fn leaf(
        &self,
        alloc: Global,
        parts: Parts,
        inputs: Inputs,
        width: u32,
        key: LeafKey,
    ) -> Result<Vec<Run>, AllocError>
        ensures { IfOk result (λ v. stacked v.items ≡ leaf_term parts self.now
            inputs.entry.vectors.now inputs.entry.registers.now width key) }
    {
        let runs = read_leaf(alloc, inputs, width, key)?;
        match parts {
            Parts::Whole => merged(alloc, &runs),
            Parts::Cut => {
                let cut = self.cut_runs(alloc, &runs)?;
                merged(alloc, &cut)
            }
        }
    }

    // The number of nodes of a lane whose leaves read registers, or the greatest `u64` where there are more.
    fn lane_size(
        &self,
        alloc: Global,
        parts: Parts,
        inputs: Inputs,
        t: &Term,
    ) -> Result<u64, AllocError>
        ensures { IfOk result (λ n. n ≡ min (node_count (lane_term parts self.now
            inputs.entry.vectors.now inputs.entry.registers.now (tree t.now))) (2 ^ 64 - 1)) }
    {
        match t {
            Term::Leaf { width, key } => {
                let runs = self.leaf(alloc, parts, inputs, *width, *key)?;
                Ok(stacked_size(&runs))
            }
            Term::Const { .. } => Ok(1),
            Term::One { x, .. } => {
                let x = self.lane_size(alloc, parts, inputs, x)?;
                Ok(x.saturating_add(1))
            }
            Term::Two { x, y, .. } => {
                let x = self.lane_size(alloc, parts, inputs, x)?;
                let y = self.lane_size(alloc, parts, inputs, y)?;
                Ok(x.saturating_add(y).saturating_add(1))
            }
            Term::Sel { c, x, y, .. } => {
                let c = self.lane_size(alloc, parts, inputs, c)?;
                let x = self.lane_size(alloc, parts, inputs, x)?;
                let y = self.lane_size(alloc, parts, inputs, y)?;
                Ok(x.saturating_add(y).saturating_add(c).saturating_add(1))
            }
        }
    }

    // The term of a lane whose leaves read registers.
    fn lane_term(
        &self,
        alloc: Global,
        parts: Parts,
        inputs: Inputs,
        t: &Term,
    ) -> Result<Term, AllocError>
        ensures { IfOk result (λ r. tree r ≡ lane_term parts self.now inputs.entry.vectors.now
            inputs.entry.registers.now (tree t.now)) }
    {
        match t {
            Term::Leaf { width, key } => {
                let runs = self.leaf(alloc, parts, inputs, *width, *key)?;
                stacked(alloc, &runs)
            }
            Term::Const { width, value } => Ok(make_const(*width, *value)),
            Term::One {
                op,
                width,
                amount,
                x,
            } => {
                let x = self.lane_term(alloc, parts, inputs, x)?;
                make_one(alloc, *op, *width, *amount, x)
            }
            Term::Two { op, width, x, y } => {
                let x = self.lane_term(alloc, parts, inputs, x)?;
                let y = self.lane_term(alloc, parts, inputs, y)?;
                make_two(alloc, *op, *width, x, y)
            }
            Term::Sel { width, c, x, y } => {
                let c = self.lane_term(alloc, parts, inputs, c)?;
                let x = self.lane_term(alloc, parts, inputs, x)?;
                let y = self.lane_term(alloc, parts, inputs, y)?;
                make_sel(alloc, *width, c, x, y)
            }
        }
    }
}

impl Maker {
    /// The term of a lane, whose canonical term reads its leaves, on registers. Fails as `settle` does.
    pub fn lane(&mut self, alloc: Global, inputs: Inputs, form: &Form) -> Result<Form, AllocError>
        ensures form { IfOk result (λ f. f ≡ built (replaced (read_leaf (registers_of
            inputs.entry.vectors.now inputs.entry.registers.now)) form.now) (replaced (read_leaf
            (map (cut_bits self.old.classes) (registers_of inputs.entry.vectors.now
            inputs.entry.registers.now))) form.now)) }
        ensures classes { self.new.classes ≡ self.old.classes }
    {
        match self.whole_lane(alloc, inputs, form)? {
            Some(form) => Ok(form),
            None => self.lane_of_parts(alloc, inputs, form),
        }
    }

    // The canonical form of a lane on whole terms, if that is the lane's.
    #[tactic(auto, using(crate::proofs::Cutting::too_large, crate::proofs::LeafReads::whole_lane))]
    fn whole_lane(
        &mut self,
        alloc: Global,
        inputs: Inputs,
        form: &Form,
    ) -> Result<Option<Form>, AllocError>
        ensures form { IfOk result (λ f. (parts : Tree) → built (replaced (read_leaf (registers_of
            inputs.entry.vectors.now inputs.entry.registers.now)) form.now) parts ≡ unwrap_or f
            (canonical parts)) }
        ensures classes { self.new.classes ≡ self.old.classes }
    {
        let size = self
            .classes
            .lane_size(alloc, Parts::Whole, inputs, form.term())?;
        if size > MOST_BUILT {
            return Ok(None);
        }
        let whole = self
            .classes
            .lane_term(alloc, Parts::Whole, inputs, form.term())?;
        self.settle_whole(alloc, whole)
    }

    // The canonical form of a lane on cut terms.
    #[tactic(auto, using(crate::proofs::LeafReads::cut_lane))]
    fn lane_of_parts(
        &mut self,
        alloc: Global,
        inputs: Inputs,
        form: &Form,
    ) -> Result<Form, AllocError>
        ensures form { IfOk result (λ f. f ≡ canonical
            (replaced (read_leaf (map (cut_bits self.old.classes)
            (registers_of inputs.entry.vectors.now inputs.entry.registers.now))) form.now)) }
        ensures classes { self.new.classes ≡ self.old.classes }
    {
        let size = self
            .classes
            .lane_size(alloc, Parts::Cut, inputs, form.term())?;
        if size > MOST_BUILT {
            return Err(AllocError);
        }
        let parts = self
            .classes
            .lane_term(alloc, Parts::Cut, inputs, form.term())?;
        self.settle(alloc, parts)
    }
}
