//! The packs that produce an operand.

ghost use Rattle.std.specs.Prelude.{◌≡◌, ◌++◌, ◌/◌, IfOk, OnOk, map, true};
ghost use Rattle.std.specs.List.{list_all};
ghost use Rattle.vg_kernel_plans.specs.Producers.{call_producer, call_producers, can_be_produced, load_producer, producers};
ghost use Rattle.vg_kernel_plans.specs.Taken.{MatchesNear};
ghost use Rattle.vg_kernel_plans.specs.Wants.{wanted_slots, wanted_values, wants_value};
ghost use Rattle.vg_shapes.specs.declared.pack.Pack.TheVariants.{Call};
ghost use Rattle.vg_shapes.specs.Description.{description_of};
ghost use Rattle.vg_packs.specs.Lanes.{can_begin};
ghost use Rattle.vg_packs.specs.Making.{is_wanted_call, can_be_packed, numbered_producer};

use crate::lanes::{
    all_agree, all_differ, are_lanes, are_matched, beginnings, can_begin, lanes_for,
};
use crate::loads::are_wanted_loads;
use std::alloc::{AllocError, Global};
use vg_kernel_plans::taken::operands_of;
use vg_kernel_plans::wants::{wanted_slots, wanted_values, wants_value};
use vg_shapes::{Description, Lanes, MatchTable, Operand, Pack, Slot, Ssa};

/// The greatest number of lanes of a description.
const MOST: usize = 1 << 24;

fn all_want_values(slots: &[Slot]) -> bool
    ensures { result ≡ list_all (λ s. wants_value s.wanted) slots.now }
{
    slots.iter().all(|s| wants_value(s.wanted))
}

/// Whether a pack can have these slots, which want these values.
fn can_be_packed(slots: &[Slot], values: &[u32]) -> bool
    ensures { result ≡ can_be_packed slots.now values.now }
{
    slots.len() >= 2 && (all_want_values(slots) && all_differ(values))
}

/// Appends the load pack that produces an operand, if there is one.
fn push_loads(
    alloc: Global,
    packs: &mut Vec<Pack>,
    ssa: &Ssa,
    operand: &Operand,
    slots: &[Slot],
    values: &[u32],
) -> Result<(), AllocError>
    requires produced { can_be_produced operand.now ≡ true }
    requires slots { slots.now ≡ wanted_slots operand.now }
    requires values { values.now ≡ wanted_values operand.now }
    ensures { OnOk result (packs.new.items ≡ packs.old.items ++ load_producer ssa.now operand.now) }
{
    let wanted = are_wanted_loads(alloc, ssa, operand.register, slots, values)?;
    if !wanted {
        return Ok(());
    }
    let lanes = Lanes::from_slice(alloc, values)?;
    packs.push(Pack::Loads(lanes))?;
    Ok(())
}

/// How many lanes the result of an instance has.
fn count_lanes(description: &Description) -> u32
    ensures { result ≡ description.now.register / description.now.lane_width }
{
    if description.lane_width == 0 {
        0
    } else {
        description.register / description.lane_width
    }
}

/// A call of a description in these lanes.
fn call_of(alloc: Global, number: u32, lanes: &[Option<u32>]) -> Result<Pack, AllocError>
    ensures { IfOk result (λ pack. pack ≡ Call number lanes.now) }
{
    let lanes = Lanes::from_slice(alloc, lanes)?;
    Ok(Pack::Call {
        description: number,
        lanes,
    })
}

/// Whether a call of an instance in these lanes is exactly these slots, and its lanes agree on its
/// leaves.
fn is_wanted_call(
    alloc: Global,
    descriptions: &[Description],
    table: &MatchTable,
    ssa: &Ssa,
    slots: &[Slot],
    number: u32,
    width: u32,
    lanes: &[Option<u32>],
) -> Result<bool, AllocError>
    requires near { MatchesNear table.now }
    ensures { IfOk result (λ b. b ≡ is_wanted_call (map description_of descriptions.now) table.now
        ssa.now slots.now number width lanes.now) }
{
    if lanes.len() > MOST {
        return Err(AllocError);
    }
    if !are_lanes(slots, lanes, width) || !are_matched(table, number, lanes) {
        return Ok(false);
    }
    let pack = call_of(alloc, number, lanes)?;
    let operands = operands_of(alloc, descriptions, table, ssa, &pack)?;
    Ok(all_agree(operands.as_slice()))
}

/// Appends the call of an instance that produces an operand, if there is one.
fn push_call(
    alloc: Global,
    packs: &mut Vec<Pack>,
    descriptions: &[Description],
    table: &MatchTable,
    ssa: &Ssa,
    operand: &Operand,
    slots: &[Slot],
    number: u32,
    description: &Description,
) -> Result<(), AllocError>
    requires near { MatchesNear table.now }
    requires produced { can_be_produced operand.now ≡ true }
    requires slots { slots.now ≡ wanted_slots operand.now }
    ensures { OnOk result (packs.new.items ≡ packs.old.items ++ call_producer (map description_of
        descriptions.now) table.now ssa.now operand.now number (description_of description.now)) }
{
    if description.register != operand.register {
        return Ok(());
    }
    let width = description.lane_width;
    let begun = can_begin(table, slots, number, width);
    if !begun {
        return Ok(());
    }
    let count = count_lanes(description);
    let lanes = lanes_for(alloc, operand.slots.as_slice(), count, width)?;
    let lanes = lanes.as_slice();
    let wanted = is_wanted_call(alloc, descriptions, table, ssa, slots, number, width, lanes)?;
    if !wanted {
        return Ok(());
    }
    let pack = call_of(alloc, number, lanes)?;
    packs.push(pack)?;
    Ok(())
}

/// Appends the call of the instance of a number that produces an operand, if there is one.
fn push_numbered(
    alloc: Global,
    packs: &mut Vec<Pack>,
    descriptions: &[Description],
    table: &MatchTable,
    ssa: &Ssa,
    operand: &Operand,
    slots: &[Slot],
    number: u32,
) -> Result<(), AllocError>
    requires near { MatchesNear table.now }
    requires produced { can_be_produced operand.now ≡ true }
    requires slots { slots.now ≡ wanted_slots operand.now }
    ensures { OnOk result (packs.new.items ≡ packs.old.items ++ numbered_producer (map description_of
        descriptions.now) table.now ssa.now operand.now number) }
{
    match descriptions.get(number as usize) {
        None => Ok(()),
        Some(description) => push_call(
            alloc,
            packs,
            descriptions,
            table,
            ssa,
            operand,
            slots,
            number,
            description,
        ),
    }
}

/// Appends the calls that produce an operand, in the order of the instances: of those alone that match
/// what its first slot wants.
fn push_calls(
    alloc: Global,
    packs: &mut Vec<Pack>,
    descriptions: &[Description],
    table: &MatchTable,
    ssa: &Ssa,
    operand: &Operand,
    slots: &[Slot],
) -> Result<(), AllocError>
    requires near { MatchesNear table.now }
    requires produced { can_be_produced operand.now ≡ true }
    requires slots { slots.now ≡ wanted_slots operand.now }
    ensures { OnOk result (packs.new.items ≡ packs.old.items ++ call_producers (map description_of
        descriptions.now) table.now ssa.now operand.now 0 (map description_of descriptions.now)) }
{
    let _in_order = table.as_slice();
    let begun = beginnings(table, slots);
    let mut next: u64 = 0;
    'matches: for found in begun {
        let number = found.description;
        if u64::from(number) >= next {
            push_numbered(
                alloc,
                packs,
                descriptions,
                table,
                ssa,
                operand,
                slots,
                number,
            )?;
            next = u64::from(number) + 1;
        }
    }
    Ok(())
}

/// The packs that produce an operand: the loads that it wants, if they are consecutive in memory,
/// then the calls of instances that compute what it wants, in the order of the instances. An
/// operand that wants fewer than two values, one twice, or a constant, has none. Where an operand
/// wants, or a description has, more than some 2^24 lanes, there is no memory.
pub fn producers(
    alloc: Global,
    operand: &Operand,
    descriptions: &[Description],
    table: &MatchTable,
    ssa: &Ssa,
) -> Result<Vec<Pack>, AllocError>
    requires near { MatchesNear table.now }
    ensures { IfOk result (λ packs. packs.items ≡ producers (map description_of descriptions.now)
        table.now ssa.now operand.now) }
{
    let slots = wanted_slots(alloc, operand)?;
    let slots = slots.as_slice();
    let values = wanted_values(alloc, operand)?;
    let values = values.as_slice();
    let mut packs = Vec::new(alloc);
    if !can_be_packed(slots, values) {
        return Ok(packs);
    }
    push_loads(alloc, &mut packs, ssa, operand, slots, values)?;
    push_calls(alloc, &mut packs, descriptions, table, ssa, operand, slots)?;
    Ok(packs)
}
