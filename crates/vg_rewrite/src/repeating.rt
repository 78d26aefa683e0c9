//! The units in which each free use of a load has one of its own, one after the other.

ghost use Rattle.std.specs.Prelude.{◌≡◌, ◌+◌, ◌*◌, ◌<◌, ◌≤◌, ◌^◌, [], IfOk, OnOk, Option, length, map, vec_len};
ghost use Rattle.vg_rewrite.specs.Marks.{IsKept, numbers};
ghost use Rattle.vg_rewrite.specs.Repeated.{next_number, put_unit, read_anew, repeat_by, repeat_operation, repeat_other, repeat_store, repeat_units, repeated_units, source_of, stand_source, stood, take_operand, unit_or, with_first};
ghost use Rattle.vg_rewrite.specs.Repeating.{Takes, repeating};
ghost use Rattle.vg_shapes.specs.Order.{numbers_from};
ghost use Rattle.vg_shapes.specs.Units.{arguments, unit_at};

use crate::kept::Kept;
use crate::sources::{source_of, unit_at};
use std::alloc::{AllocError, Global};
use vg_base::{Address, Width};
use vg_shapes::{Operands, Operator, Ssa, SsaUnit, Wanted};

/// The units so far, and what stands for each value where it stood.
#[derive(Drop)]
pub(crate) struct Repeating {
    /// The number of the first unit.
    pub(crate) first: usize,
    pub(crate) units: Vec<SsaUnit>,
    pub(crate) stands: Vec<Wanted>,
}

// The unit of a number; there is one.
fn unit_or(unit: Option<SsaUnit>) -> SsaUnit
    ensures { result ≡ unit_or unit }
{
    match unit {
        None => SsaUnit::Store {
            address: Address {
                pointer: 0,
                offset: 0,
            },
            width: Width::W8,
            value: Wanted::Nothing,
        },
        Some(unit) => unit,
    }
}

// A unit with another first operand.
fn with_first(x: Wanted, unit: SsaUnit) -> SsaUnit
    ensures { result ≡ with_first x unit }
{
    match unit {
        SsaUnit::Load { .. } => unit,
        SsaUnit::Store { .. } => unit,
        SsaUnit::Operation {
            op,
            width,
            amount,
            operands,
        } => {
            let operands = Operands {
                first: x,
                second: operands.second,
                third: operands.third,
            };
            SsaUnit::Operation {
                op,
                width,
                amount,
                operands,
            }
        }
    }
}

impl Repeating {
    // One unit more. Gives its value.
    fn put(&mut self, unit: SsaUnit) -> Result<Wanted, AllocError>
        requires { self.old.first + vec_len self.old.units < 2 ^ 32 }
        ensures is { OnOk result (repeating self.new ≡ put_unit unit (repeating self.old)) }
        ensures value { IfOk result (λ x. x ≡ next_number (repeating self.old)) }
        ensures grown { OnOk result (vec_len self.new.units ≡ vec_len self.old.units + 1) }
        ensures first { OnOk result (self.new.first ≡ self.old.first) }
    {
        let number = (self.first + self.units.len()) as u32;
        self.units.push(unit)?;
        Ok(Wanted::Value(number))
    }

    // What stands for a value where it stood.
    fn stood(&self, value: u32) -> Wanted
        ensures { result ≡ (stood (repeating self.now) value).value }
    {
        self.stands
            .get(value as usize)
            .copied()
            .unwrap_or(Wanted::Nothing)
    }

    // A load of its own, and behind it an extension of its own.
    fn read_anew(&mut self, ssa: &Ssa, value: u32, load: u32) -> Result<Wanted, AllocError>
        requires { self.old.first + vec_len self.old.units + 2 ≤ 2 ^ 32 }
        ensures is { IfOk result (λ x. Takes (repeating self.new) x
            (read_anew ssa.now value load (repeating self.old))) }
        ensures grown { OnOk result (vec_len self.new.units ≤ vec_len self.old.units + 2) }
        ensures first { OnOk result (self.new.first ≡ self.old.first) }
    {
        let read = self.put(unit_or(unit_at(ssa, load)))?;
        if value == load {
            return Ok(read);
        }
        self.put(with_first(read, unit_or(unit_at(ssa, value))))
    }

    // A value as an operand of the unit of a number: a free use reads anew.
    fn take_value(
        &mut self,
        ssa: &Ssa,
        kept: &Kept,
        user: u32,
        value: u32,
    ) -> Result<Wanted, AllocError>
        requires kept { IsKept ssa.now kept.now }
        requires user { user < numbers ssa.now }
        requires room { self.old.first + vec_len self.old.units + 2 ≤ 2 ^ 32 }
        ensures is { IfOk result (λ x. Takes (repeating self.new) x
            (take_operand ssa.now user (Wanted.Value value) (repeating self.old))) }
        ensures grown { OnOk result (vec_len self.new.units ≤ vec_len self.old.units + 2) }
        ensures first { OnOk result (self.new.first ≡ self.old.first) }
    {
        match source_of(ssa, value) {
            None => Ok(self.stood(value)),
            Some(load) => {
                if !kept.is_free(ssa, user, value) {
                    return Ok(self.stood(value));
                }
                self.read_anew(ssa, value, load)
            }
        }
    }

    // An operand of the unit of a number.
    fn take_operand(
        &mut self,
        ssa: &Ssa,
        kept: &Kept,
        user: u32,
        x: Wanted,
    ) -> Result<Wanted, AllocError>
        requires kept { IsKept ssa.now kept.now }
        requires user { user < numbers ssa.now }
        requires room { self.old.first + vec_len self.old.units + 2 ≤ 2 ^ 32 }
        ensures is { IfOk result (λ y. Takes (repeating self.new) y
            (take_operand ssa.now user x (repeating self.old))) }
        ensures grown { OnOk result (vec_len self.new.units ≤ vec_len self.old.units + 2) }
        ensures first { OnOk result (self.new.first ≡ self.old.first) }
    {
        match x {
            Wanted::Value(value) => self.take_value(ssa, kept, user, value),
            Wanted::Constant { .. } => Ok(x),
            Wanted::Nothing => Ok(x),
        }
    }

    // A load or an extension where it stays.
    fn stand_source(&mut self, stays: bool, unit: SsaUnit) -> Result<(), AllocError>
        requires { self.old.first + vec_len self.old.units + 7 ≤ 2 ^ 32 }
        ensures is { OnOk result (repeating self.new
            ≡ stand_source stays unit (repeating self.old)) }
        ensures grown { OnOk result (vec_len self.new.units ≤ vec_len self.old.units + 7) }
        ensures first { OnOk result (self.new.first ≡ self.old.first) }
    {
        if stays {
            let value = self.put(unit)?;
            self.stands.push(value)?;
        } else {
            self.stands.push(Wanted::Nothing)?;
        }
        Ok(())
    }

    // An operation, its operands from left to right.
    fn repeat_operation(
        &mut self,
        ssa: &Ssa,
        kept: &Kept,
        user: u32,
        op: Operator,
        width: Width,
        amount: u32,
        xs: Operands,
    ) -> Result<(), AllocError>
        requires kept { IsKept ssa.now kept.now }
        requires user { user < numbers ssa.now }
        requires room { self.old.first + vec_len self.old.units + 7 ≤ 2 ^ 32 }
        ensures is { OnOk result (repeating self.new
            ≡ repeat_operation ssa.now user op width amount xs (repeating self.old)) }
        ensures grown { OnOk result (vec_len self.new.units ≤ vec_len self.old.units + 7) }
        ensures first { OnOk result (self.new.first ≡ self.old.first) }
    {
        let first = self.take_operand(ssa, kept, user, xs.first)?;
        let second = self.take_operand(ssa, kept, user, xs.second)?;
        let third = self.take_operand(ssa, kept, user, xs.third)?;
        let operands = Operands {
            first,
            second,
            third,
        };
        let value = self.put(SsaUnit::Operation {
            op,
            width,
            amount,
            operands,
        })?;
        self.stands.push(value)?;
        Ok(())
    }

    fn repeat_store(
        &mut self,
        ssa: &Ssa,
        kept: &Kept,
        user: u32,
        address: Address,
        width: Width,
        x: Wanted,
    ) -> Result<(), AllocError>
        requires kept { IsKept ssa.now kept.now }
        requires user { user < numbers ssa.now }
        requires room { self.old.first + vec_len self.old.units + 7 ≤ 2 ^ 32 }
        ensures is { OnOk result (repeating self.new
            ≡ repeat_store ssa.now user address width x (repeating self.old)) }
        ensures grown { OnOk result (vec_len self.new.units ≤ vec_len self.old.units + 7) }
        ensures first { OnOk result (self.new.first ≡ self.old.first) }
    {
        let value = self.take_operand(ssa, kept, user, x)?;
        let _none = self.put(SsaUnit::Store {
            address,
            width,
            value,
        })?;
        self.stands.push(Wanted::Nothing)?;
        Ok(())
    }

    // The unit of a number, which is no extension of a load.
    fn repeat_other(
        &mut self,
        ssa: &Ssa,
        kept: &Kept,
        user: u32,
        unit: SsaUnit,
    ) -> Result<(), AllocError>
        requires kept { IsKept ssa.now kept.now }
        requires user { user < numbers ssa.now }
        requires room { self.old.first + vec_len self.old.units + 7 ≤ 2 ^ 32 }
        ensures is { OnOk result (repeating self.new
            ≡ repeat_other ssa.now user unit (repeating self.old)) }
        ensures grown { OnOk result (vec_len self.new.units ≤ vec_len self.old.units + 7) }
        ensures first { OnOk result (self.new.first ≡ self.old.first) }
    {
        match unit {
            SsaUnit::Load { .. } => self.stand_source(kept.load_stays(ssa, user), unit),
            SsaUnit::Store {
                address,
                width,
                value,
            } => self.repeat_store(ssa, kept, user, address, width, value),
            SsaUnit::Operation {
                op,
                width,
                amount,
                operands,
            } => self.repeat_operation(ssa, kept, user, op, width, amount, operands),
        }
    }

    // The unit of a number. An extension of a load takes what stands for the load.
    fn repeat(&mut self, ssa: &Ssa, kept: &Kept, user: u32, unit: SsaUnit) -> Result<(), AllocError>
        requires kept { IsKept ssa.now kept.now }
        requires user { user < numbers ssa.now }
        requires room { self.old.first + vec_len self.old.units + 7 ≤ 2 ^ 32 }
        ensures is { OnOk result (repeating self.new
            ≡ repeat_by ssa.now user unit (source_of ssa.now user) (repeating self.old)) }
        ensures grown { OnOk result (vec_len self.new.units ≤ vec_len self.old.units + 7) }
        ensures first { OnOk result (self.new.first ≡ self.old.first) }
    {
        match source_of(ssa, user) {
            None => self.repeat_other(ssa, kept, user, unit),
            Some(load) => {
                if user == load {
                    return self.repeat_other(ssa, kept, user, unit);
                }
                let extension = with_first(self.stood(load), unit);
                self.stand_source(kept.is_needed(ssa, user), extension)
            }
        }
    }

    // All units, in their order.
    fn repeat_units(&mut self, ssa: &Ssa, kept: &Kept) -> Result<(), AllocError>
        requires kept { IsKept ssa.now kept.now }
        requires few { numbers ssa.now < 2 ^ 20 }
        requires room { self.old.first + vec_len self.old.units ≤ 2 ^ 20 }
        ensures { OnOk result (repeating self.new
            ≡ repeat_units ssa.now (arguments ssa.now) ssa.now.units (repeating self.old)) }
    {
        let mut user = ssa.arguments() as u32;
        let mut rest = ssa.units.as_slice();
        'units: while let [unit, behind @ ..] = rest {
            self.repeat(ssa, kept, user, *unit)?;
            user += 1;
            rest = behind;
        }
        Ok(())
    }
}

// Each of the integer parameters stands for itself.
fn arguments_stand(alloc: Global, count: usize) -> Result<Vec<Wanted>, AllocError>
    requires { count < 2 ^ 32 }
    ensures { IfOk result (λ all. all.items ≡ map Wanted.Value (numbers_from 0 count)) }
{
    let mut all = Vec::new(alloc);
    let mut left = count;
    'arguments: while left > 0 {
        all.push(Wanted::Value((count - left) as u32))?;
        left -= 1;
    }
    Ok(all)
}

/// The units in which each free use of a load has one of its own, where this is known of uses.
pub(crate) fn repeat_all(alloc: Global, ssa: &Ssa, kept: &Kept) -> Result<Vec<SsaUnit>, AllocError>
    requires kept { IsKept ssa.now kept.now }
    requires few { numbers ssa.now < 2 ^ 20 }
    ensures { IfOk result (λ units. units.items ≡ repeated_units ssa.now) }
{
    let first = ssa.arguments();
    let mut repeating = Repeating {
        first,
        units: Vec::new(alloc),
        stands: arguments_stand(alloc, first)?,
    };
    repeating.repeat_units(ssa, kept)?;
    let Repeating {
        first: _,
        units,
        stands: _,
    } = repeating;
    Ok(units)
}
