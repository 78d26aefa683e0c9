//! Units that lines turn round.

ghost use Rattle.std.specs.Prelude.{◌≡◌, ◌+◌, ◌<◌, ◌≤◌, ◌-◌, ◌^◌, IfOk, IfSome, if◌then◌else◌, length, map, OnOk, slice_index, Some};
ghost use Rattle.std.specs.List.{find, list_any};
ghost use Rattle.std.specs.Option.{option_map};
ghost use Rattle.vg_events.specs.Events.{label_at};
ghost use Rattle.vg_paired.specs.ByteLabels.{label_of};
ghost use Rattle.vg_paired.specs.Rows.{is_early_by};
ghost use Rattle.vg_known.specs.Difference.{order, turned_units};
ghost use Rattle.vg_paired.specs.Found.{order_of};
ghost use Rattle.vg_paired.specs.Sweeps.{ArePointers, AreRising, between, has_early, is_turned_unit, least_turned, PutsBefore};
ghost use Rattle.vg_shapes.specs.Layout.{noalias_flags};
ghost use Rattle.vg_shapes.specs.Sound.{IsSound};

use crate::accesses::unit_accesses;
use crate::byte_label::ByteLabel;
use crate::line_numbers::line_numbers;
use crate::rows::Rows;
use crate::spans::spans_of;
use std::alloc::{AllocError, Global};
use vg_base::Items;
use vg_shapes::Ssa;

/// Two units that lines turn round, by the numbers of their values.
#[derive(Clone, Copy)]
pub struct Turned {
    pub first: usize,
    pub second: usize,
}

/// The least two units that are out of order where lines have these events of a kernel: the later one
/// depends on the earlier one as an access, and one of its events does not stand on a later line than
/// one of the earlier that it may meet. Fails for want of memory alone, and takes no more of it than for
/// the events of the kernel.
pub fn turned_units(
    alloc: Global,
    ssa: &Ssa,
    lines: &[Items<usize>],
) -> Result<Option<Turned>, AllocError>
    requires { IsSound ssa.now }
    ensures { IfOk result (λ found. option_map order_of found ≡ turned_units ssa.now lines.now) }
{
    let accesses = unit_accesses(alloc, ssa.units.as_slice())?;
    let spans = spans_of(alloc, &accesses)?;
    let labels = spans.labels.as_slice();
    let numbers = line_numbers(alloc, labels.len(), lines)?;
    let flags = noalias_flags(alloc, ssa)?;
    let arguments = ssa.arguments();
    let found = least_turned(alloc, &flags, labels, &spans.begins, &numbers, arguments)?;
    Ok(found)
}

/// Of each pointer in order, whether it is noalias.
pub fn noalias_flags(alloc: Global, ssa: &Ssa) -> Result<Vec<bool>, AllocError>
    ensures { IfOk result (λ flags. flags.items ≡ noalias_flags ssa.now) }
{
    let params = ssa.params.as_slice();
    params
        .iter()
        .filter_map(|p| p.kind.noalias())
        .collect(alloc)
}

/// The same by the events of the kernel, the first of each unit, and their lines.
fn least_turned(
    alloc: Global,
    flags: &[bool],
    labels: &[ByteLabel],
    begins: &[usize],
    lines: &[usize],
    arguments: usize,
) -> Result<Option<Turned>, AllocError>
    requires flags { length flags.now ≤ 16 }
    requires pointers { ArePointers (length flags.now) (map label_of labels.now) }
    requires rising { AreRising begins.now (length labels.now) }
    requires lines { length lines.now ≡ length labels.now }
    requires arguments { arguments ≤ 16 }
    requires few { length begins.now < 2 ^ 63 }
    ensures { IfOk result (λ found. option_map order_of found
        ≡ least_turned arguments (length begins.now - 1)
        (is_turned_unit flags.now (map label_of labels.now) lines.now begins.now)
        (has_early flags.now (map label_of labels.now) lines.now begins.now)) }
{
    let found = first_turned(alloc, flags, labels, begins, lines)?;
    match found {
        None => Ok(None),
        Some(unit) => {
            let later = second_turned(alloc, flags, labels, begins, lines, unit)?;
            Ok(pair(arguments, unit, later))
        }
    }
}

/// A unit and a later one, by the numbers of their values.
fn pair(arguments: usize, unit: usize, later: Option<usize>) -> Option<Turned>
    requires arguments { arguments ≤ 16 }
    requires unit { unit < 2 ^ 63 }
    requires later { IfSome later (λ j. j < 2 ^ 63) }
    ensures { option_map order_of result
        ≡ option_map (λ j. order (arguments + unit) (arguments + j)) later }
{
    let second = later?;
    Some(Turned {
        first: arguments + unit,
        second: arguments + second,
    })
}

/// Whether one of the events from one on and before another comes too late, by the rows of later ones.
fn is_any_early(
    rows: &Rows,
    flags: &[bool],
    labels: &[ByteLabel],
    lines: &[usize],
    first: usize,
    last: usize,
) -> bool
    requires flags { length flags.now ≤ 16 }
    requires inside { last ≤ length labels.now }
    requires lines { length lines.now ≡ length labels.now }
    ensures { result ≡ list_any
        (λ x. is_early_by flags.now (length flags.now) rows.now
        (label_at (map label_of labels.now) x) (slice_index lines.now x))
        (between first last) }
{
    let pointers = flags.len() as u32;
    'events: for event in first..last {
        if rows.is_early(flags, pointers, labels[event], lines[event]) {
            return true;
        }
    }
    false
}

/// Puts the events from one on and before another into rows, the last first.
fn put_all(
    rows: &mut Rows,
    labels: &[ByteLabel],
    lines: &[usize],
    first: usize,
    last: usize,
) -> Result<(), AllocError>
    requires order { first ≤ last }
    requires inside { last ≤ length labels.now }
    requires lines { length lines.now ≡ length labels.now }
    ensures { OnOk result (PutsBefore (map label_of labels.now) (slice_index lines.now) first last
        rows.old rows.new) }
{
    let mut left = last;
    'events: while left > first {
        left -= 1;
        rows.put(labels[left], lines[left])?;
    }
    Ok(())
}

/// A unit where it is turned, else the one found before.
fn pick(turned: bool, unit: usize, found: Option<usize>) -> Option<usize>
    ensures { result ≡ (if turned then Some unit else found) }
{
    if turned { Some(unit) } else { found }
}

/// The first unit for one of whose events an event of a later unit stands too early.
fn first_turned(
    alloc: Global,
    flags: &[bool],
    labels: &[ByteLabel],
    begins: &[usize],
    lines: &[usize],
) -> Result<Option<usize>, AllocError>
    requires flags { length flags.now ≤ 16 }
    requires pointers { ArePointers (length flags.now) (map label_of labels.now) }
    requires rising { AreRising begins.now (length labels.now) }
    requires lines { length lines.now ≡ length labels.now }
    ensures { IfOk result (λ found. found
        ≡ find (is_turned_unit flags.now (map label_of labels.now) lines.now begins.now)
        (between 0 (length begins.now - 1))) }
{
    let mut rows = Rows::new(alloc);
    let mut found = None;
    let mut left = begins.len() - 1;
    'units: while left > 0 {
        let last = begins[left];
        left -= 1;
        let first = begins[left];
        let turned = is_any_early(&rows, flags, labels, lines, first, last);
        found = pick(turned, left, found);
        put_all(&mut rows, labels, lines, first, last)?;
    }
    Ok(found)
}

/// Whether an event of a later unit stands too early for one of a unit.
fn has_early(
    alloc: Global,
    flags: &[bool],
    labels: &[ByteLabel],
    begins: &[usize],
    lines: &[usize],
    unit: usize,
    later: usize,
) -> Result<bool, AllocError>
    requires flags { length flags.now ≤ 16 }
    requires pointers { ArePointers (length flags.now) (map label_of labels.now) }
    requires rising { AreRising begins.now (length labels.now) }
    requires lines { length lines.now ≡ length labels.now }
    requires unit { unit + 1 < length begins.now }
    requires later { later + 1 < length begins.now }
    ensures { IfOk result (λ early. early
        ≡ has_early flags.now (map label_of labels.now) lines.now begins.now unit later) }
{
    let begin = begins[later];
    let end = begins[later + 1];
    let first = begins[unit];
    let last = begins[unit + 1];
    let mut rows = Rows::new(alloc);
    put_all(&mut rows, labels, lines, begin, end)?;
    let early = is_any_early(&rows, flags, labels, lines, first, last);
    Ok(early)
}

/// The first later unit of which an event stands too early for this one.
fn second_turned(
    alloc: Global,
    flags: &[bool],
    labels: &[ByteLabel],
    begins: &[usize],
    lines: &[usize],
    unit: usize,
) -> Result<Option<usize>, AllocError>
    requires flags { length flags.now ≤ 16 }
    requires pointers { ArePointers (length flags.now) (map label_of labels.now) }
    requires rising { AreRising begins.now (length labels.now) }
    requires lines { length lines.now ≡ length labels.now }
    requires unit { unit + 1 < length begins.now }
    ensures { IfOk result (λ found. found
        ≡ find (has_early flags.now (map label_of labels.now) lines.now begins.now unit)
        (between (unit + 1) (length begins.now - 1))) }
{
    let units = begins.len() - 1;
    'units: for later in unit + 1..units {
        let early = has_early(alloc, flags, labels, begins, lines, unit, later)?;
        if early {
            return Ok(Some(later));
        }
    }
    Ok(None)
}
