//! The terms of the values of a kernel.

ghost use Rattle.std.specs.Prelude.{◌≡◌, ◌+◌, ◌<◌, ◌^◌, [], IfOk, OnOk, length, slice_index_or};
ghost use Rattle.vg_known.specs.Kernels.{argument_leaves, kernel_terms, unit_term, with_term};
ghost use Rattle.vg_shapes.specs.Sound.{is_store};
ghost use Rattle.vg_shapes.specs.Units.{integers_of};
ghost use Rattle.vg_ssa.specs.ValueTerm.{no_term, operand_term};
ghost use Rattle.vg_verify.specs.Beginning.{argument_met, argument_terms};
ghost use Rattle.vg_verify.specs.Views.{terms_of};

use crate::earlier_loads::{first_load, noalias_flags};
use std::alloc::{AllocError, Global};
use vg_base::{Address, Width};
use vg_forms::{Form, Maker, argument_key, load_key};
use vg_shapes::{Operands, Operator, Ssa, SsaParam, SsaParamKind, SsaUnit, Wanted};

/// The terms of the values of a kernel so far, and what makes them, with the terms that were met.
#[derive(Drop)]
pub struct KernelTerms {
    pub terms: Vec<Form>,
    pub maker: Maker,
}

// The term of a number, a second time.
fn term_at(alloc: Global, terms: &[Form], value: u32) -> Result<Form, AllocError>
    ensures { IfOk result (λ f. f ≡ slice_index_or terms.now value no_term) }
{
    let index = value as usize;
    if index < terms.len() {
        terms[index].share()
    } else {
        Form::constant(alloc, 8, 0)
    }
}

/// The term of an operand of a unit. Fails for want of memory, and for a constant that is not below 2 to its
/// width.
pub fn operand_term(alloc: Global, terms: &[Form], x: Wanted) -> Result<Form, AllocError>
    ensures { IfOk result (λ f. f ≡ operand_term terms.now x) }
{
    match x {
        Wanted::Value(value) => term_at(alloc, terms, value),
        Wanted::Constant { width, value } => Form::constant(alloc, width, value),
        Wanted::Nothing => Form::constant(alloc, 8, 0),
    }
}

impl KernelTerms {
    // The integer parameters, which are met first; so many nodes may be made canonical.
    #[tactic(auto, using(crate::proofs::Beginning::begun_none, crate::proofs::Beginning::begun_more, crate::proofs::Beginning::begun_terms, crate::proofs::Beginning::begun_met))]
    fn begin(alloc: Global, left: u64, params: &[SsaParam]) -> Result<KernelTerms, AllocError>
        ensures terms { IfOk result (λ k. k.terms.items ≡ argument_leaves 0 (integers_of
            params.now)) }
        ensures met { IfOk result (λ k. k.maker.classes ≡ argument_leaves 0 (integers_of
            params.now)) }
    {
        let mut begun = KernelTerms {
            terms: Vec::new(alloc),
            maker: Maker::new(alloc, left),
        };
        let mut rest = params;
        'params: while let [param, behind @ ..] = rest {
            begun.push_argument(alloc, param.kind)?;
            rest = behind;
        }
        Ok(begun)
    }

    // A parameter, if it is an integer.
    fn push_argument(&mut self, alloc: Global, kind: SsaParamKind) -> Result<(), AllocError>
        ensures terms { OnOk result (self.new.terms.items ≡ argument_terms kind
            self.old.terms.items) }
        ensures met { OnOk result (self.new.maker.classes
            ≡ argument_met kind (length self.old.terms.items) self.old.maker.classes) }
    {
        match kind {
            SsaParamKind::Pointer { .. } => Ok(()),
            SsaParamKind::Integer(width) => self.push_integer(alloc, width),
        }
    }

    // An integer parameter.
    fn push_integer(&mut self, alloc: Global, width: Width) -> Result<(), AllocError>
        ensures terms { OnOk result (self.new.terms.items
            ≡ argument_terms (SsaParamKind.Integer width) self.old.terms.items) }
        ensures met { OnOk result (self.new.maker.classes ≡ argument_met (SsaParamKind.Integer
            width) (length self.old.terms.items) self.old.maker.classes) }
    {
        let number = self.terms.len();
        if number > u32::MAX as usize {
            return Err(AllocError);
        }
        let leaf = Form::leaf(alloc, width.bits(), argument_key(number as u32))?;
        self.maker.meet(&leaf)?;
        self.terms.push(leaf)?;
        Ok(())
    }

    // The term of a unit after these.
    fn unit_term(
        &mut self,
        alloc: Global,
        flags: &[bool],
        first: u32,
        done: &[SsaUnit],
        unit: &SsaUnit,
    ) -> Result<Form, AllocError>
        requires { first + length done.now < 2 ^ 32 }
        ensures form { IfOk result (λ f. f
            ≡ unit_term flags.now first done.now (terms_of self.old) unit.now) }
        ensures terms { self.new.terms.items ≡ self.old.terms.items }
        ensures met { self.new.maker.classes ≡ self.old.maker.classes }
    {
        match *unit {
            SsaUnit::Load { address, width } => {
                let own = self.terms.len();
                if own > u32::MAX as usize {
                    return Err(AllocError);
                }
                let number = first_load(flags, first, done, own as u32, address, width);
                Form::leaf(alloc, width.bits(), load_key(address, number))
            }
            SsaUnit::Store { .. } => Form::constant(alloc, 8, 0),
            SsaUnit::Operation {
                op,
                width,
                amount,
                operands,
            } => self.operation_term(alloc, op, width, amount, operands),
        }
    }

    // The term of an operation.
    fn operation_term(
        &mut self,
        alloc: Global,
        op: Operator,
        width: Width,
        amount: u32,
        operands: Operands,
    ) -> Result<Form, AllocError>
        ensures form { IfOk result (λ f. f
            ≡ unit_term [] 0 [] (terms_of self.old) (SsaUnit.Operation op width amount operands)) }
        ensures terms { self.new.terms.items ≡ self.old.terms.items }
        ensures met { self.new.maker.classes ≡ self.old.maker.classes }
    {
        let first = operand_term(alloc, &self.terms, operands.first)?;
        let second = operand_term(alloc, &self.terms, operands.second)?;
        let third = operand_term(alloc, &self.terms, operands.third)?;
        self.maker
            .computed(alloc, op, width, amount, &first, &second, &third)
    }

    // One unit more, with its term; that of a store is not met.
    fn push_unit(
        &mut self,
        alloc: Global,
        flags: &[bool],
        first: u32,
        done: &[SsaUnit],
        unit: &SsaUnit,
    ) -> Result<(), AllocError>
        requires { first + length done.now < 2 ^ 32 }
        ensures { OnOk result (terms_of self.new ≡ with_term (terms_of self.old) unit.now
            (unit_term flags.now first done.now (terms_of self.old) unit.now)) }
    {
        let term = self.unit_term(alloc, flags, first, done, unit)?;
        if !is_store(unit) {
            self.maker.meet(&term)?;
        }
        self.terms.push(term)?;
        Ok(())
    }
}

fn is_store(unit: &SsaUnit) -> bool
    ensures { result ≡ is_store unit.now }
{
    match unit {
        SsaUnit::Store { .. } => true,
        SsaUnit::Load { .. } => false,
        SsaUnit::Operation { .. } => false,
    }
}

/// The terms of the values of a kernel, of which so many nodes may be made canonical. Fails for want of memory,
/// and where a unit fits no valid kernel.
#[tactic(auto, using(crate::proofs::Beginning::termed_none, crate::proofs::Beginning::termed_more, crate::proofs::Beginning::termed_all))]
pub fn kernel_terms(alloc: Global, left: u64, ssa: &Ssa) -> Result<KernelTerms, AllocError>
    ensures { IfOk result (λ k. terms_of k ≡ kernel_terms ssa.now) }
{
    let flags = noalias_flags(alloc, ssa)?;
    let mut made = KernelTerms::begin(alloc, left, ssa.params.as_slice())?;
    let units = ssa.units.as_slice();
    let first = ssa.arguments();
    if first.saturating_add(units.len()) > u32::MAX as usize {
        return Err(AllocError);
    }
    'units: for place in 0..units.len() {
        made.push_unit(alloc, &flags, first as u32, &units[..place], &units[place])?;
    }
    Ok(made)
}
