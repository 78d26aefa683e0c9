//! Calls: the lanes of an instance on registers.

ghost use Rattle.std.specs.Prelude.{◌≡◌, ◌++◌, IfOk, OnOk, map};
ghost use Rattle.vg_forms.specs.Lanes.{registers_of};
ghost use Rattle.vg_forms.specs.Runs.{bits_in};
ghost use Rattle.vg_known.specs.Calls.{bits_of_terms, met_with_all};
ghost use Rattle.vg_known.specs.Known.{known_bits};
ghost use Rattle.vg_verify.specs.Forms.{form_on};
ghost use Rattle.vg_verify.specs.Views.{given_of, known_of, with_call, with_lanes};

use crate::known::{Given, Knowing};
use std::alloc::{AllocError, Global};
use vg_forms::{Form, Inputs, Maker, Run};

// Appends the terms of lanes on registers, by their canonical terms.
fn push_lanes(
    alloc: Global,
    maker: &mut Maker,
    to: &mut Vec<Form>,
    inputs: Inputs,
    forms: &[Form],
) -> Result<(), AllocError>
    ensures terms { OnOk result (to.new.items ≡ to.old.items ++ map (form_on maker.old.classes
        (registers_of inputs.entry.vectors.now inputs.entry.registers.now)) forms.now) }
    ensures classes { maker.new.classes ≡ maker.old.classes }
{
    match forms {
        [] => Ok(()),
        [form, behind @ ..] => {
            let term = maker.lane(alloc, inputs, form)?;
            to.push(term)?;
            push_lanes(alloc, maker, to, inputs, behind)
        }
    }
}

// Terms are met, the first one first.
fn meet_all(maker: &mut Maker, terms: &[Form]) -> Result<(), AllocError>
    ensures { OnOk result (maker.new.classes ≡ met_with_all maker.old.classes terms.now) }
{
    match terms {
        [] => Ok(()),
        [term, behind @ ..] => {
            maker.meet(term)?;
            meet_all(maker, behind)
        }
    }
}

// Appends all bits of terms of a width.
#[tactic(auto, using(crate::proofs::Calling::bits_more))]
fn push_bits(to: &mut Vec<Run>, terms: &[Form], width: u32) -> Result<(), AllocError>
    ensures { OnOk result (bits_in to.new.items ≡ bits_in to.old.items ++ bits_of_terms width
        terms.now) }
{
    match terms {
        [] => Ok(()),
        [term, behind @ ..] => {
            let form = term.share()?;
            to.push(Run::Bits {
                form,
                low: 0,
                count: width,
            })?;
            push_bits(to, behind, width)?;
            Ok(())
        }
    }
}

impl Knowing {
    // A register of lanes of a width, whose terms are met.
    fn push_terms(&mut self, alloc: Global, terms: &[Form], width: u32) -> Result<(), AllocError>
        ensures { OnOk result (known_of self.new ≡ with_lanes (known_of self.old) width terms.now) }
    {
        meet_all(&mut self.maker, terms)?;
        let mut runs = Vec::new(alloc);
        push_bits(&mut runs, terms, width)?;
        self.push_vector(runs)
    }

    // The terms of lanes on registers of these numbers, by their canonical terms.
    fn lane_terms(
        &mut self,
        alloc: Global,
        registers: &[u32],
        forms: &[Form],
    ) -> Result<Vec<Form>, AllocError>
        ensures terms { IfOk result (λ v. v.items ≡ map (form_on (known_of self.old).met
            (map (known_bits (known_of self.old)) registers.now)) forms.now) }
        ensures same { known_of self.new ≡ known_of self.old }
    {
        let mut terms = Vec::new(alloc);
        let inputs = Inputs {
            vectors: &self.vectors,
            registers,
        };
        push_lanes(alloc, &mut self.maker, &mut terms, inputs, forms)?;
        Ok(terms)
    }

    /// An instruction is called with registers and an immediate. Fails as `settle` does, and where the call is none
    /// that is kept.
    pub(crate) fn call(
        &mut self,
        alloc: Global,
        given: Given,
        name: &[u8],
        registers: &[u32],
        imm: Option<u8>,
    ) -> Result<(), AllocError>
        ensures { OnOk result (known_of self.new
            ≡ with_call (given_of given.entry) (known_of self.old) name.now imm registers.now) }
    {
        match given.called.lanes(name, imm) {
            None => Err(AllocError),
            Some(lanes) => {
                let terms = self.lane_terms(alloc, registers, &lanes.forms)?;
                self.push_terms(alloc, &terms, lanes.width)?;
                Ok(())
            }
        }
    }
}
