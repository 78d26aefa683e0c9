//! The load groups of a register.

ghost use Rattle.std.specs.Prelude.{◌≡◌, ◌++◌, ◌∷◌, ◌/◌, ◌<◌, ◌≤◌, ◌^◌, [], ◌+◌, IfOk, OnOk, drop, filter, find, get_or, length, map, take};
ghost use Rattle.std.specs.List.{flat_map, list_any};
ghost use Rattle.vg_base.specs.Width.{size_of};
ghost use Rattle.vg_plans.specs.World.{is_in};
ghost use Rattle.vg_shapes.specs.declared.pack.Pack.TheVariants.{Loads};
ghost use Rattle.vg_shapes.specs.Order.{numbers_from};
ghost use Rattle.vg_shapes.specs.Pack.{units_of};
ghost use Rattle.vg_kernel_plans.specs.LoadGroups.{cut_from, groups_in, is_part, sizes_in};
ghost use Rattle.vg_kernel_plans.specs.LoadTable.{AreGroups, HaveUnitsBelow, IsLeast, group_at, has_unit as has_number, having, is_below, is_lane, is_wanted_from, least_onto, numbers_of, part_or};

use crate::copies::copy_pack;
use crate::first_loads::PlacedLoad;
use crate::runs::run_of;
use std::alloc::{AllocError, Global};
use vg_base::{Items, Width};
use vg_shapes::{Lanes, Pack};

/// The greatest number of groups.
const MOST: usize = 1 << 24;

/// The load groups of a register, by pointer, width and offset, and for each unit the numbers of those
/// that have it.
pub(crate) struct RegisterGroups {
    pub(crate) groups: Vec<Pack>,
    pub(crate) numbers: Vec<Items<u32>>,
}

/// Written out, so that the exits of an owner call it: a derived one would be proved anew at each.
impl Drop for RegisterGroups {
    fn drop(self) {
        let RegisterGroups {
            groups: _,
            numbers: _,
        } = self;
    }
}

/// How many integers of a width stand in so many bytes.
fn places(size: usize, width: Width) -> usize
    ensures { result ≡ size / size_of width }
{
    match width {
        Width::W8 => size,
        Width::W16 => size / 2,
        Width::W32 => size / 4,
        Width::W64 => size / 8,
    }
}

/// Whether so many bytes are at least two loads of a width, and no more than are left.
fn is_part(width: Width, left: usize, size: usize) -> bool
    ensures { result ≡ is_part width left size }
{
    let count = places(size, width);
    2 <= count && count <= left
}

/// So many bytes, if they are a part of what is left, else what is found otherwise.
fn part_or(width: Width, left: usize, size: usize, otherwise: Option<usize>) -> Option<usize>
    ensures { result ≡ part_or width left size otherwise }
{
    if is_part(width, left, size) {
        Some(size)
    } else {
        otherwise
    }
}

/// The largest part in bytes that a register of this width holds, if there is one.
fn largest_part(register: u32, width: Width, left: usize) -> Option<usize>
    ensures { result ≡ find (is_part width left) (sizes_in register) }
{
    let wide = register == 512;
    let half = register == 256;
    let narrow = register == 128;
    if wide {
        let whole = part_or(width, left, 64, None);
        return whole;
    }
    if half {
        let part = part_or(width, left, 32, None);
        return part;
    }
    if narrow {
        let four = part_or(width, left, 4, None);
        let eight = part_or(width, left, 8, four);
        let sixteen = part_or(width, left, 16, eight);
        return sixteen;
    }
    None
}

/// Appends the group of so many loads from a place on.
fn push_part(
    alloc: Global,
    groups: &mut Vec<Pack>,
    units: &[u32],
    from: usize,
    count: usize,
) -> Result<(), AllocError>
    requires { from + count ≤ length units.now }
    ensures { OnOk result (groups.new.items ≡ groups.old.items ++ Loads (take count (drop from
        units.now)) ∷ []) }
{
    let lanes = Lanes::from_slice(alloc, &units[from..from + count])?;
    groups.push(Pack::Loads(lanes))?;
    Ok(())
}

/// Appends the groups of loads that stand beside each other.
fn push_parts(
    alloc: Global,
    groups: &mut Vec<Pack>,
    register: u32,
    width: Width,
    units: &[u32],
) -> Result<(), AllocError>
    ensures { OnOk result (groups.new.items ≡ groups.old.items ++ cut_from register width (length
        units.now) units.now) }
{
    let mut from = 0;
    let mut turns = units.len();
    'parts: while turns > 0 {
        match largest_part(register, width, units.len() - from) {
            None => return Ok(()),
            Some(size) => {
                let count = places(size, width);
                push_part(alloc, groups, units, from, count)?;
                from += count;
                turns -= 1;
            }
        }
    }
    Ok(())
}

/// Appends the groups of the run that a load begins.
fn push_run(
    alloc: Global,
    groups: &mut Vec<Pack>,
    register: u32,
    loads: &[PlacedLoad],
    first: &PlacedLoad,
) -> Result<(), AllocError>
    ensures { OnOk result (groups.new.items ≡ groups.old.items ++ groups_in register loads.now
        first.now) }
{
    let units = run_of(alloc, loads, first)?;
    push_parts(alloc, groups, register, first.width, units.as_slice())
}

/// The groups of the runs that these loads begin.
fn groups_of(
    alloc: Global,
    register: u32,
    loads: &[PlacedLoad],
    begins: &[PlacedLoad],
) -> Result<Vec<Pack>, AllocError>
    ensures { IfOk result (λ groups. groups.items ≡ flat_map (groups_in register loads.now)
        begins.now) }
{
    let mut groups = Vec::new(alloc);
    'begins: for first in begins {
        push_run(alloc, &mut groups, register, loads, first)?;
    }
    Ok(groups)
}

/// Whether a lane has a value.
fn is_lane(lane: Option<u32>, value: u32) -> bool
    ensures { result ≡ is_lane value lane }
{
    match lane {
        None => false,
        Some(own) => value == own,
    }
}

fn some_lane(lanes: &[Option<u32>], value: u32) -> bool
    ensures { result ≡ list_any (is_lane value) lanes.now }
{
    lanes.iter().any(|lane| is_lane(*lane, value))
}

fn some_unit(units: &[u32], value: u32) -> bool
    ensures { result ≡ is_in value units.now }
{
    units.iter().any(|unit| value == *unit)
}

#[tactic(auto, using(crate::proofs::GroupNumbers::some_lane_is))]
/// Whether a unit is one of a pack.
fn has_unit(pack: &Pack, unit: u32) -> bool
    ensures { result ≡ is_in unit (units_of pack.now) }
{
    match pack {
        Pack::Stores(units) => some_unit(units.as_slice(), unit),
        Pack::Loads(units) => some_unit(units.as_slice(), unit),
        Pack::Call { lanes, .. } => some_lane(lanes.as_slice(), unit),
    }
}

/// Appends the number of a pack that has a unit.
fn push_number(
    numbers: &mut Vec<u32>,
    groups: &[Pack],
    index: usize,
    unit: u32,
) -> Result<(), AllocError>
    requires few { length groups.now ≤ 2 ^ 24 }
    requires inside { index < length groups.now }
    ensures { OnOk result (numbers.new.items ≡ numbers.old.items ++ filter (has_number groups.now
        unit) (index ∷ [])) }
{
    let there = has_unit(&groups[index], unit);
    if there {
        numbers.push(index as u32)?;
    }
    Ok(())
}

/// The numbers of the packs that have a unit, rising.
fn numbers_of(alloc: Global, groups: &[Pack], unit: u32) -> Result<Items<u32>, AllocError>
    requires { length groups.now ≤ 2 ^ 24 }
    ensures { IfOk result (λ numbers. numbers ≡ numbers_of groups.now unit) }
{
    let mut numbers = Vec::new(alloc);
    'groups: for index in 0..groups.len() {
        push_number(&mut numbers, groups, index, unit)?;
    }
    Ok(Items::from_vec(numbers))
}

/// For each of so many units the numbers of the packs that have it. Takes one look at each unit and pack.
fn table_of(alloc: Global, groups: &[Pack], units: u32) -> Result<Vec<Items<u32>>, AllocError>
    requires { length groups.now ≤ 2 ^ 24 }
    ensures { IfOk result (λ table. table.items ≡ map (numbers_of groups.now) (numbers_from 0
        units)) }
{
    let mut table = Vec::new(alloc);
    'units: for unit in 0..units {
        let numbers = numbers_of(alloc, groups, unit)?;
        table.push(numbers)?;
    }
    Ok(table)
}

/// The least number from one on among numbers and one that was found.
fn least_onto(numbers: &[u32], from: u32, found: Option<u32>) -> Option<u32>
    ensures { result ≡ least_onto from found numbers.now }
{
    let mut least = found;
    'numbers: for number in numbers {
        if from <= *number && is_below(*number, least) {
            least = Some(*number);
        }
    }
    least
}

/// Whether a number is below one, if there is one.
fn is_below(number: u32, least: Option<u32>) -> bool
    ensures { result ≡ is_below number least }
{
    match least {
        None => true,
        Some(other) => number < other,
    }
}

impl RegisterGroups {
    /// No groups.
    pub(crate) fn none(alloc: Global) -> RegisterGroups
        ensures groups { result.groups.items ≡ [] }
        ensures table { AreGroups result }
    {
        RegisterGroups {
            groups: Vec::new(alloc),
            numbers: Vec::new(alloc),
        }
    }

    /// The groups of a register in the runs that these loads begin, where all units are below a number.
    /// Where there are more than some 2^24 there is no memory.
    pub(crate) fn new(
        alloc: Global,
        register: u32,
        loads: &[PlacedLoad],
        begins: &[PlacedLoad],
        units: u32,
    ) -> Result<RegisterGroups, AllocError>
        requires below { HaveUnitsBelow (flat_map (groups_in register loads.now) begins.now) units }
        ensures groups { IfOk result (λ g. g.groups.items ≡ flat_map (groups_in register loads.now)
            begins.now) }
        ensures table { IfOk result AreGroups }
    {
        let groups = groups_of(alloc, register, loads, begins)?;
        let many = groups.len() > MOST;
        if many {
            return Err(AllocError);
        }
        let numbers = table_of(alloc, groups.as_slice(), units)?;
        Ok(RegisterGroups { groups, numbers })
    }

    /// The numbers of the groups that have a unit.
    fn numbers(&self, unit: u32) -> &[u32]
        ensures { result.now ≡ get_or self.now.numbers.items unit [] }
    {
        match self.numbers.get(unit as usize) {
            None => &[],
            Some(numbers) => numbers.as_slice(),
        }
    }

    /// The least number from one on of a group that has one of these units.
    fn next_having(&self, units: &[u32], from: u32) -> Option<u32>
        requires { AreGroups self.now }
        ensures { IsLeast (is_wanted_from self.now.groups.items units.now from) result }
    {
        let mut least = None;
        'units: for unit in units {
            least = least_onto(self.numbers(*unit), from, least);
        }
        least
    }

    /// The group of a number.
    fn group(&self, number: u32) -> &Pack
        requires { number < length self.now.groups.items }
        ensures { result.now ≡ group_at self.now.groups.items number }
    {
        &self.groups[number as usize]
    }

    /// The groups that have one of these units, in their order.
    pub(crate) fn having(&self, alloc: Global, units: &[u32]) -> Result<Vec<Pack>, AllocError>
        requires { AreGroups self.now }
        ensures { IfOk result (λ packs. packs.items ≡ having self.now.groups.items units.now) }
    {
        let mut packs = Vec::new(alloc);
        let mut from = 0;
        let mut next = self.next_having(units, from);
        'groups: while let Some(number) = next {
            let copy = copy_pack(alloc, self.group(number))?;
            packs.push(copy)?;
            from = number + 1;
            next = self.next_having(units, from);
        }
        Ok(packs)
    }
}
