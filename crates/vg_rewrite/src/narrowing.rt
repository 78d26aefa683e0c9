//! The units that make forms, one after the other.

ghost use Rattle.std.specs.Prelude.{◌≡◌, ◌+◌, ◌*◌, ◌<◌, ◌≤◌, ◌^◌, Option, [], IfOk, OnOk, length, set, slice_index_or, vec_len};
ghost use Rattle.std.specs.List.{AllByRecursion};
ghost use Rattle.vg_base.specs.Bits.{signed_at};
ghost use Rattle.vg_base.specs.Number.{residue};
ghost use Rattle.vg_base.specs.Width.{bits_of};
ghost use Rattle.vg_rewrite.specs.Making.{Forms, narrowing};
ghost use Rattle.vg_rewrite.specs.Narrowed.{cut_unit, have, have_bit, have_first, make_at, make_form, make_load, make_operation, make_param, make_params, make_store, make_unit, make_units, make_value, made_over, made_unit, next_value, no_value, nowhere, put, with_standing};
ghost use Rattle.vg_rewrite.specs.Readable.{AreWords, FormHasWords, FormsAreRead, IsWord, UnitHasWords, UnitIsNarrowed, UnitIsRead};

use crate::asked::Asked;
use crate::asking::{Source, asked_at};
use crate::form::{Form, Made};
use crate::forms::{alone, operation_form, value_form};
use crate::standing::Standing;
use std::alloc::{AllocError, Global};
use vg_base::{Address, Width, number};
use vg_scalar::{Comparison, Resize};
use vg_shapes::{Operands, Operator, SsaUnit, Wanted};
use vg_spans::Span;

/// The units so far, and for each value what stands for its forms.
#[derive(Drop)]
pub(crate) struct Narrowing {
    /// The number of the first unit.
    pub(crate) first: usize,
    pub(crate) units: Vec<SsaUnit>,
    pub(crate) made: Vec<Standing>,
}

// The number at a width that is congruent to the signed number of a constant.
fn constant_at(width: Width, own: u32, value: u128) -> Wanted
    requires { IsWord (Wanted.Constant own value) }
    ensures { result
        ≡ Wanted.Constant (bits_of width) (residue (bits_of width) (signed_at own value)) }
{
    let whole = number::signed(value, own);
    Wanted::Constant {
        width: width.bits(),
        value: number::unsigned(whole, width.bits()),
    }
}

// What stands for the forms of the value of a number.
fn standing_at(made: &[Standing], value: u32) -> Standing
    ensures { result ≡ slice_index_or made.now value nowhere }
{
    made.get(value as usize)
        .copied()
        .unwrap_or(Standing::none())
}

// Past the last value nothing is set.
#[tactic(auto, using(std::proofs::lemmas::List::set_past))]
fn set_standing(made: &mut [Standing], value: u32, standing: Standing)
    ensures { made.new ≡ set made.old value standing }
{
    let index = value as usize;
    if index < made.len() {
        made[index] = standing;
    }
}

impl Narrowing {
    /// Before the first unit, which has this number.
    pub(crate) fn new(alloc: Global, first: usize) -> Narrowing
        ensures { narrowing result ≡ record { first = first; units = []; made = [] } }
    {
        Narrowing {
            first,
            units: Vec::new(alloc),
            made: Vec::new(alloc),
        }
    }

    // One unit more. Gives its value.
    fn put(&mut self, unit: SsaUnit) -> Result<Wanted, AllocError>
        requires { self.old.first + vec_len self.old.units < 2 ^ 32 }
        ensures is { OnOk result (narrowing self.new ≡ put unit (narrowing self.old)) }
        ensures value { IfOk result (λ x. x ≡ next_value (narrowing self.old)) }
        ensures grown { OnOk result (vec_len self.new.units ≡ vec_len self.old.units + 1) }
        ensures first { OnOk result (self.new.first ≡ self.old.first) }
    {
        let number = (self.first + self.units.len()) as u32;
        self.units.push(unit)?;
        Ok(Wanted::Value(number))
    }

    // A value more, and what stands for its forms.
    fn stand(&mut self, standing: Standing) -> Result<(), AllocError>
        ensures is { OnOk result (narrowing self.new ≡ with_standing standing (narrowing self.old)) }
        ensures grown { OnOk result (vec_len self.new.units ≡ vec_len self.old.units) }
        ensures first { OnOk result (self.new.first ≡ self.old.first) }
    {
        self.made.push(standing)?;
        Ok(())
    }

    // What stands for the form of an operand at a width.
    fn have(&self, width: Width, x: Wanted) -> Wanted
        requires { IsWord x }
        ensures { result ≡ have (narrowing self.now) width x }
    {
        match x {
            Wanted::Value(value) => standing_at(&self.made, value).at(width),
            Wanted::Constant { width: own, value } => constant_at(width, own, value),
            Wanted::Nothing => Wanted::Nothing,
        }
    }

    // What stands for a bit.
    fn have_bit(&self, x: Wanted) -> Wanted
        ensures { result ≡ have_bit (narrowing self.now) x }
    {
        match x {
            Wanted::Value(value) => standing_at(&self.made, value).bit,
            Wanted::Constant { .. } | Wanted::Nothing => x,
        }
    }

    // What stands for the first operand of an operation.
    fn have_first(&self, op: Operator, width: Width, x: Wanted) -> Wanted
        requires { IsWord x }
        ensures { result ≡ have_first (narrowing self.now) op width x }
    {
        match op {
            Operator::Select => self.have_bit(x),
            Operator::Two(_)
            | Operator::Shift(_)
            | Operator::Resize { .. }
            | Operator::Compare(_) => self.have(width, x),
        }
    }

    // An operation over what stands for its operands.
    fn made_unit(&self, made: Made) -> SsaUnit
        requires { AreWords made.operands }
        ensures { result ≡ made_unit (narrowing self.now) made }
    {
        let xs = made.operands;
        let operands = Operands {
            first: self.have_first(made.op, made.asked, xs.first),
            second: self.have(made.asked, xs.second),
            third: self.have(made.asked, xs.third),
        };
        SsaUnit::Operation {
            op: made.op,
            width: made.width,
            amount: made.amount,
            operands,
        }
    }

    // The low bits of a value of a greater width.
    fn cut(&mut self, x: Wanted, from: Width, width: Width) -> Result<Wanted, AllocError>
        requires { self.old.first + vec_len self.old.units < 2 ^ 32 }
        ensures is { OnOk result (narrowing self.new ≡ put (cut_unit x from width) (narrowing self.old)) }
        ensures value { IfOk result (λ x. x ≡ next_value (narrowing self.old)) }
        ensures grown { OnOk result (vec_len self.new.units ≡ vec_len self.old.units + 1) }
        ensures first { OnOk result (self.new.first ≡ self.old.first) }
    {
        let op = Operator::Resize {
            op: Resize::Trunc,
            from,
        };
        self.put(SsaUnit::Operation {
            op,
            width,
            amount: 0,
            operands: alone(x),
        })
    }

    // Makes a form of a value, which is this where it is the value itself. Gives what stands for it.
    fn make_form(&mut self, own: Wanted, width: Width, form: Form) -> Result<Wanted, AllocError>
        requires words { FormHasWords form }
        requires room { self.old.first + vec_len self.old.units + 2 ≤ 2 ^ 32 }
        ensures is { IfOk result (λ x. Forms (narrowing self.new) x
            (make_form (narrowing self.old) own width form)) }
        ensures grown { OnOk result (vec_len self.new.units ≤ vec_len self.old.units + 2) }
        ensures first { OnOk result (self.new.first ≡ self.old.first) }
    {
        match form {
            Form::Own => Ok(own),
            Form::Zero => Ok(Wanted::Constant {
                width: width.bits(),
                value: 0,
            }),
            Form::Same(x) => Ok(self.have(width, x)),
            Form::Whole(made) => {
                let unit = self.made_unit(made);
                self.put(unit)
            }
            Form::Cut(made) => {
                let unit = self.made_unit(made);
                let part = self.put(unit)?;
                self.cut(part, made.width, width)
            }
        }
    }

    // Makes the form of a value at a width where it is asked for. The value is this where it stands
    // itself.
    #[tactic(auto, using(crate::proofs::Words::form_words))]
    fn make_at(
        &mut self,
        spans: &[Span],
        all: &[Asked],
        source: Source,
        own: Wanted,
        width: Width,
    ) -> Result<(), AllocError>
        requires read { UnitIsRead source.unit }
        requires words { UnitHasWords source.unit }
        requires room { self.old.first + vec_len self.old.units + 2 ≤ 2 ^ 32 }
        ensures is { OnOk result (narrowing self.new
            ≡ make_at spans.now all.now source.value source.unit own source.width width
            (narrowing self.old)) }
        ensures grown { OnOk result (vec_len self.new.units ≤ vec_len self.old.units + 2) }
        ensures first { OnOk result (self.new.first ≡ self.old.first) }
    {
        if !asked_at(all, source.value).is_at(width) {
            return Ok(());
        }
        let form = value_form(spans, source.value, source.unit, source.width, width);
        let x = self.make_form(own, width, form)?;
        let standing = standing_at(&self.made, source.value).and_at(width, x);
        set_standing(self.made.as_mut_slice(), source.value, standing);
        Ok(())
    }

    // At each width at which it is asked for, rising.
    fn make_value(
        &mut self,
        spans: &[Span],
        all: &[Asked],
        source: Source,
        own: Wanted,
    ) -> Result<(), AllocError>
        requires read { UnitIsRead source.unit }
        requires words { UnitHasWords source.unit }
        requires room { self.old.first + vec_len self.old.units + 8 ≤ 2 ^ 32 }
        ensures is { OnOk result (narrowing self.new
            ≡ make_value spans.now all.now source.value source.unit own source.width
            (narrowing self.old)) }
        ensures grown { OnOk result (vec_len self.new.units ≤ vec_len self.old.units + 8) }
        ensures first { OnOk result (self.new.first ≡ self.old.first) }
    {
        self.make_at(spans, all, source, own, Width::W8)?;
        self.make_at(spans, all, source, own, Width::W16)?;
        self.make_at(spans, all, source, own, Width::W32)?;
        self.make_at(spans, all, source, own, Width::W64)
    }

    // Makes a comparison where it is asked for.
    #[tactic(auto, using(crate::proofs::Words::operation_words))]
    fn make_comparison(
        &mut self,
        spans: &[Span],
        all: &[Asked],
        source: Source,
        op: Comparison,
        amount: u32,
        xs: Operands,
    ) -> Result<(), AllocError>
        requires read { FormsAreRead (Operator.Compare op) source.width amount xs }
        requires words { AreWords xs }
        requires room { self.old.first + vec_len self.old.units + 8 ≤ 2 ^ 32 }
        ensures is { OnOk result (narrowing self.new
            ≡ make_operation spans.now all.now source.value (Operator.Compare op) source.width
            amount xs (narrowing self.old)) }
        ensures grown { OnOk result (vec_len self.new.units ≤ vec_len self.old.units + 8) }
        ensures first { OnOk result (self.new.first ≡ self.old.first) }
    {
        self.stand(Standing::none())?;
        if !asked_at(all, source.value).bit {
            return Ok(());
        }
        let op = Operator::Compare(op);
        let form = operation_form(spans, op, source.width, amount, xs, Width::W8);
        let x = self.make_form(Wanted::Nothing, Width::W8, form)?;
        let standing = standing_at(&self.made, source.value).and_bit(x);
        set_standing(self.made.as_mut_slice(), source.value, standing);
        Ok(())
    }

    // Makes the forms of a value that does not stand itself.
    fn make_forms(
        &mut self,
        spans: &[Span],
        all: &[Asked],
        source: Source,
    ) -> Result<(), AllocError>
        requires read { UnitIsRead source.unit }
        requires words { UnitHasWords source.unit }
        requires room { self.old.first + vec_len self.old.units + 9 ≤ 2 ^ 32 }
        ensures is { OnOk result (narrowing self.new
            ≡ make_value spans.now all.now source.value source.unit Wanted.Nothing source.width
            (no_value (narrowing self.old))) }
        ensures grown { OnOk result (vec_len self.new.units ≤ vec_len self.old.units + 9) }
        ensures first { OnOk result (self.new.first ≡ self.old.first) }
    {
        self.stand(Standing::none())?;
        self.make_value(spans, all, source, Wanted::Nothing)
    }

    // Makes the forms of an operation that are asked for.
    fn make_operation(
        &mut self,
        spans: &[Span],
        all: &[Asked],
        value: u32,
        op: Operator,
        width: Width,
        amount: u32,
        xs: Operands,
    ) -> Result<(), AllocError>
        requires read { FormsAreRead op width amount xs }
        requires words { AreWords xs }
        requires room { self.old.first + vec_len self.old.units + 9 ≤ 2 ^ 32 }
        ensures is { OnOk result (narrowing self.new
            ≡ make_operation spans.now all.now value op width amount xs (narrowing self.old)) }
        ensures grown { OnOk result (vec_len self.new.units ≤ vec_len self.old.units + 9) }
        ensures first { OnOk result (self.new.first ≡ self.old.first) }
    {
        let source = Source {
            value,
            unit: Some(SsaUnit::Operation {
                op,
                width,
                amount,
                operands: xs,
            }),
            width,
        };
        match op {
            Operator::Compare(op) => self.make_comparison(spans, all, source, op, amount, xs),
            Operator::Two(_) => self.make_forms(spans, all, source),
            Operator::Shift(_) => self.make_forms(spans, all, source),
            Operator::Resize { .. } => self.make_forms(spans, all, source),
            Operator::Select => self.make_forms(spans, all, source),
        }
    }

    // A load stands, and its forms that are asked for.
    fn make_load(
        &mut self,
        spans: &[Span],
        all: &[Asked],
        value: u32,
        address: Address,
        width: Width,
    ) -> Result<(), AllocError>
        requires room { self.old.first + vec_len self.old.units + 9 ≤ 2 ^ 32 }
        ensures is { OnOk result (narrowing self.new
            ≡ make_load spans.now all.now value address width (narrowing self.old)) }
        ensures grown { OnOk result (vec_len self.new.units ≤ vec_len self.old.units + 9) }
        ensures first { OnOk result (self.new.first ≡ self.old.first) }
    {
        let unit = SsaUnit::Load { address, width };
        let source = Source {
            value,
            unit: Some(unit),
            width,
        };
        let own = self.put(unit)?;
        self.stand(Standing::none().and_at(width, own))?;
        self.make_value(spans, all, source, own)
    }

    // A store stands, of the form of its operand.
    fn make_store(&mut self, address: Address, width: Width, x: Wanted) -> Result<(), AllocError>
        requires words { IsWord x }
        requires room { self.old.first + vec_len self.old.units + 9 ≤ 2 ^ 32 }
        ensures is { OnOk result (narrowing self.new
            ≡ make_store address width x (narrowing self.old)) }
        ensures grown { OnOk result (vec_len self.new.units ≤ vec_len self.old.units + 9) }
        ensures first { OnOk result (self.new.first ≡ self.old.first) }
    {
        let value = self.have(width, x);
        let _none = self.put(SsaUnit::Store {
            address,
            width,
            value,
        })?;
        self.stand(Standing::none())
    }

    // What the unit of a number makes.
    fn make_unit(
        &mut self,
        spans: &[Span],
        all: &[Asked],
        value: u32,
        unit: SsaUnit,
    ) -> Result<(), AllocError>
        requires read { UnitIsRead (Option.Some unit) }
        requires words { UnitHasWords (Option.Some unit) }
        requires room { self.old.first + vec_len self.old.units + 9 ≤ 2 ^ 32 }
        ensures is { OnOk result (narrowing self.new
            ≡ make_unit spans.now all.now value unit (narrowing self.old)) }
        ensures grown { OnOk result (vec_len self.new.units ≤ vec_len self.old.units + 9) }
        ensures first { OnOk result (self.new.first ≡ self.old.first) }
    {
        match unit {
            SsaUnit::Load { address, width } => self.make_load(spans, all, value, address, width),
            SsaUnit::Store {
                address,
                width,
                value: stored,
            } => self.make_store(address, width, stored),
            SsaUnit::Operation {
                op,
                width,
                amount,
                operands,
            } => self.make_operation(spans, all, value, op, width, amount, operands),
        }
    }

    // A parameter, which stands for itself, and its forms that are asked for.
    fn make_param(
        &mut self,
        spans: &[Span],
        all: &[Asked],
        value: u32,
        width: Width,
    ) -> Result<(), AllocError>
        requires room { self.old.first + vec_len self.old.units + 9 ≤ 2 ^ 32 }
        ensures is { OnOk result (narrowing self.new
            ≡ make_param spans.now all.now value width (narrowing self.old)) }
        ensures grown { OnOk result (vec_len self.new.units ≤ vec_len self.old.units + 9) }
        ensures first { OnOk result (self.new.first ≡ self.old.first) }
    {
        let own = Wanted::Value(value);
        let source = Source {
            value,
            unit: None,
            width,
        };
        self.stand(Standing::none().and_at(width, own))?;
        self.make_value(spans, all, source, own)
    }

    // Parameters of these widths.
    fn make_params(
        &mut self,
        spans: &[Span],
        all: &[Asked],
        widths: &[Width],
    ) -> Result<(), AllocError>
        requires few { length widths.now < 2 ^ 32 }
        requires room { self.old.first + vec_len self.old.units + 9 * length widths.now ≤ 2 ^ 32 }
        ensures is { OnOk result (narrowing self.new
            ≡ make_params spans.now all.now 0 widths.now (narrowing self.old)) }
        ensures grown { OnOk result
            (vec_len self.new.units ≤ vec_len self.old.units + 9 * length widths.now) }
        ensures first { OnOk result (self.new.first ≡ self.old.first) }
    {
        let mut value = 0;
        let mut rest = widths;
        'widths: while let [width, behind @ ..] = rest {
            self.make_param(spans, all, value, *width)?;
            value += 1;
            rest = behind;
        }
        Ok(())
    }

    // What units make, of which the first has this number.
    fn make_units(
        &mut self,
        spans: &[Span],
        all: &[Asked],
        first: u32,
        units: &[SsaUnit],
    ) -> Result<(), AllocError>
        requires read { AllByRecursion UnitIsNarrowed units.now }
        requires few { first + length units.now < 2 ^ 32 }
        requires room { self.old.first + vec_len self.old.units + 9 * length units.now ≤ 2 ^ 32 }
        ensures is { OnOk result (narrowing self.new
            ≡ make_units spans.now all.now first units.now (narrowing self.old)) }
        ensures grown { OnOk result
            (vec_len self.new.units ≤ vec_len self.old.units + 9 * length units.now) }
    {
        let mut value = first;
        let mut rest = units;
        'units: while let [unit, behind @ ..] = rest {
            self.make_unit(spans, all, value, *unit)?;
            value += 1;
            rest = behind;
        }
        Ok(())
    }
}

/// The units that make what is asked of each value, where the values have these spans, the
/// parameters these widths: at most nine for each.
pub(crate) fn make_all(
    alloc: Global,
    spans: &[Span],
    all: &[Asked],
    widths: &[Width],
    units: &[SsaUnit],
) -> Result<Vec<SsaUnit>, AllocError>
    requires read { AllByRecursion UnitIsNarrowed units.now }
    requires few { length widths.now + length units.now < 2 ^ 20 }
    ensures is { IfOk result
        (λ made. made.items ≡ made_over spans.now all.now widths.now units.now) }
    ensures few { IfOk result
        (λ made. length made.items ≤ 9 * (length widths.now + length units.now)) }
{
    let mut narrowing = Narrowing::new(alloc, widths.len());
    narrowing.make_params(spans, all, widths)?;
    narrowing.make_units(spans, all, widths.len() as u32, units)?;
    let Narrowing {
        first: _,
        units,
        made: _,
    } = narrowing;
    Ok(units)
}
