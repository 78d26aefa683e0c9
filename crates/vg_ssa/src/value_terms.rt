//! The terms of values, made one after the other.

ghost use Rattle.std.specs.Prelude.{◌≡◌, ◌+◌, ◌<◌, ◌≤◌, ◌^◌, [], ◌∷◌, ◌++◌, true, false, IfOk, OnOk, length, map, slice_index_or};
ghost use Rattle.vg_base.specs.Width.{bits_of};
ghost use Rattle.vg_shapes.specs.Sound.{argument_key, cut_key, load_key};
ghost use Rattle.vg_ssa.specs.Fitting.{Fit, UnitFits, UnitsFit};
ghost use Rattle.vg_ssa.specs.OfUnits.{terms_over, trees_of, widths_of};
ghost use Rattle.vg_ssa.specs.ValueTerm.{argument_terms, cut_term, no_term, operand_term, over_operands, terms_behind, unit_term, writes_bits};
ghost use Rattle.vg_terms.specs.Term.{tree, width_of};

use crate::operations::operation;
use std::alloc::{AllocError, Global};
use vg_base::{Address, Width};
use vg_shapes::{Operands, Operator, SsaParam, SsaParamKind, SsaUnit, Wanted};
use vg_terms::{LeafKey, Term, make_const, make_leaf};

/// The most nodes of a whole term of an operation. One that has more is cut at its operands.
const MOST_NODES: u64 = 128;

/// How far the term of an operation looks into the terms of its operands.
#[derive(Clone, Copy)]
pub(crate) enum Depth {
    /// As far as they go, or, past 128 nodes, not at all.
    Whole,
    /// Not at all, but that an operand of one bit is written out.
    Cut,
}

/// The terms of the values so far. The integer parameters have those before that of the first unit.
#[derive(Drop)]
pub(crate) struct ValueTerms {
    pub(crate) first: usize,
    pub(crate) terms: Vec<Term>,
}

impl ValueTerms {
    /// Those of the integer parameters.
    pub(crate) fn new(alloc: Global, params: &[SsaParam]) -> Result<ValueTerms, AllocError>
        requires { length params.now ≤ 16 }
        ensures first { IfOk result (λ known. known.first ≡ length (widths_of params.now)) }
        ensures terms { IfOk result
            (λ known. trees_of known ≡ argument_terms 0 (widths_of params.now)) }
    {
        let terms = argument_terms(alloc, params)?;
        Ok(ValueTerms {
            first: terms.len(),
            terms,
        })
    }

    /// The term of the value of one unit more.
    pub(crate) fn push(
        &mut self,
        alloc: Global,
        depth: Depth,
        unit: &SsaUnit,
    ) -> Result<(), AllocError>
        requires few { length (trees_of self.old) < 2 ^ 32 }
        requires fit { UnitFits depth self.old.first (trees_of self.old) unit.now }
        ensures first { OnOk result (self.new.first ≡ self.old.first) }
        ensures terms { OnOk result (trees_of self.new ≡ trees_of self.old
            ++ unit_term depth self.old.first (trees_of self.old) unit.now ∷ []) }
    {
        let term = self.unit_term(alloc, depth, unit)?;
        self.terms.push(term)?;
        Ok(())
    }

    // The term of the next value.
    fn unit_term(&self, alloc: Global, depth: Depth, unit: &SsaUnit) -> Result<Term, AllocError>
        requires few { length (trees_of self.now) < 2 ^ 32 }
        requires fit { UnitFits depth self.now.first (trees_of self.now) unit.now }
        ensures { IfOk result (λ t. tree t
            ≡ unit_term depth self.now.first (trees_of self.now) unit.now) }
    {
        match *unit {
            SsaUnit::Load { address, width } => {
                let number = self.terms.len() as u32;
                Ok(make_leaf(width.bits(), load_key(address, number)))
            }
            SsaUnit::Store { .. } => Ok(make_const(8, 0)),
            SsaUnit::Operation {
                op,
                width,
                amount,
                operands,
            } => match depth {
                Depth::Whole => self.whole_operation(alloc, op, width, amount, operands),
                Depth::Cut => self.cut_operation(alloc, true, op, width, amount, operands),
            },
        }
    }

    // An operation over the terms of its operands, or over leaves where that is too large.
    fn whole_operation(
        &self,
        alloc: Global,
        op: Operator,
        width: Width,
        amount: u32,
        xs: Operands,
    ) -> Result<Term, AllocError>
        requires whole { Fit (operand_term (trees_of self.now)) op width amount xs }
        requires cut { Fit (cut_term false self.now.first (trees_of self.now)) op width amount xs }
        ensures { IfOk result (λ t. tree t
            ≡ unit_term Depth.Whole self.now.first (trees_of self.now)
            (SsaUnit.Operation op width amount xs)) }
    {
        let first = self.whole(alloc, xs.first)?;
        let second = self.whole(alloc, xs.second)?;
        let third = self.whole(alloc, xs.third)?;
        let whole = operation(alloc, op, width, amount, first, second, third)?;
        if whole.node_count() <= MOST_NODES {
            return Ok(whole);
        }
        self.cut_operation(alloc, false, op, width, amount, xs)
    }

    // An operation over leaves that stand for the units among its operands, or over those of one
    // bit themselves.
    fn cut_operation(
        &self,
        alloc: Global,
        bits: bool,
        op: Operator,
        width: Width,
        amount: u32,
        xs: Operands,
    ) -> Result<Term, AllocError>
        requires { Fit (cut_term bits self.now.first (trees_of self.now)) op width amount xs }
        ensures { IfOk result (λ t. tree t
            ≡ over_operands (cut_term bits self.now.first (trees_of self.now)) op
            (bits_of width) amount xs) }
    {
        let first = self.cut(alloc, bits, xs.first)?;
        let second = self.cut(alloc, bits, xs.second)?;
        let third = self.cut(alloc, bits, xs.third)?;
        operation(alloc, op, width, amount, first, second, third)
    }

    // The term of an operand.
    fn whole(&self, alloc: Global, x: Wanted) -> Result<Term, AllocError>
        ensures { IfOk result (λ t. tree t ≡ operand_term (trees_of self.now) x) }
    {
        match x {
            Wanted::Value(value) => term_at(alloc, &self.terms, value),
            Wanted::Constant { width, value } => Ok(make_const(width, value)),
            Wanted::Nothing => Ok(make_const(8, 0)),
        }
    }

    // The same, where the value of a unit is a leaf, or a bit that is written out.
    fn cut(&self, alloc: Global, bits: bool, x: Wanted) -> Result<Term, AllocError>
        ensures { IfOk result
            (λ t. tree t ≡ cut_term bits self.now.first (trees_of self.now) x) }
    {
        match x {
            Wanted::Value(value) => {
                let width = width_at(&self.terms, value);
                if (value as usize) < self.first || (bits && width == 1) {
                    term_at(alloc, &self.terms, value)
                } else {
                    Ok(make_leaf(width, cut_key(value)))
                }
            }
            Wanted::Constant { width, value } => Ok(make_const(width, value)),
            Wanted::Nothing => Ok(make_const(8, 0)),
        }
    }
}

// The term of a value of this number, a second time.
fn term_at(alloc: Global, terms: &[Term], value: u32) -> Result<Term, AllocError>
    ensures { IfOk result (λ t. tree t ≡ slice_index_or (map tree terms.now) value no_term) }
{
    let index = value as usize;
    if index < terms.len() {
        terms[index].copy(alloc)
    } else {
        Ok(make_const(8, 0))
    }
}

// The width of a value in bits.
fn width_at(terms: &[Term], value: u32) -> u32
    ensures { result ≡ width_of (slice_index_or (map tree terms.now) value no_term) }
{
    let index = value as usize;
    if index < terms.len() {
        terms[index].width()
    } else {
        8
    }
}

// The leaf of the load of a value.
fn load_key(address: Address, value: u32) -> LeafKey
    ensures { result ≡ load_key address value }
{
    LeafKey {
        kind: 1,
        first: address.pointer,
        second: address.offset as i64,
        third: value,
    }
}

// The leaf of an integer parameter.
fn argument_key(value: u32) -> LeafKey
    ensures { result ≡ argument_key value }
{
    LeafKey {
        kind: 2,
        first: value,
        second: 0,
        third: 0,
    }
}

// The leaf of a value that is not looked into.
fn cut_key(value: u32) -> LeafKey
    ensures { result ≡ cut_key value }
{
    LeafKey {
        kind: 3,
        first: value,
        second: 0,
        third: 0,
    }
}

// The terms of the integer parameters, in their order.
fn argument_terms(alloc: Global, params: &[SsaParam]) -> Result<Vec<Term>, AllocError>
    requires { length params.now ≤ 16 }
    ensures { IfOk result
        (λ terms. map tree terms.items ≡ argument_terms 0 (widths_of params.now)) }
{
    let mut terms = Vec::new(alloc);
    let mut rest = params;
    'params: while let [param, behind @ ..] = rest {
        if let SsaParamKind::Integer(width) = param.kind {
            let number = terms.len() as u32;
            terms.push(make_leaf(width.bits(), argument_key(number)))?;
        }
        rest = behind;
    }
    Ok(terms)
}

/// The terms of the values of units over these parameters. The units are numbered after the integer
/// parameters.
pub(crate) fn terms_of_units(
    alloc: Global,
    depth: Depth,
    params: &[SsaParam],
    units: &[SsaUnit],
) -> Result<Vec<Term>, AllocError>
    requires params { length params.now ≤ 16 }
    requires few { length (widths_of params.now) + length units.now < 2 ^ 32 }
    requires fit { UnitsFit depth (length (widths_of params.now))
        (argument_terms 0 (widths_of params.now)) units.now }
    ensures { IfOk result
        (λ terms. map tree terms.items ≡ terms_over depth params.now units.now) }
{
    let mut known = ValueTerms::new(alloc, params)?;
    let mut rest = units;
    'units: while let [unit, behind @ ..] = rest {
        known.push(alloc, depth, unit)?;
        rest = behind;
    }
    let ValueTerms { first: _, terms } = known;
    Ok(terms)
}
