//! The first difference between a kernel and a program.

ghost use Rattle.std.specs.Prelude.{◌≡◌, IfOk};
ghost use Rattle.std.specs.Option.{option_map};
ghost use Rattle.vg_catalog.specs.Called.{called_by, headers_of};
ghost use Rattle.vg_catalog.specs.Catalogs.{entries_in};
ghost use Rattle.vg_emission.specs.Laws.{MeansUnits};
ghost use Rattle.vg_emission.specs.Scalar.{scalar_program};
ghost use Rattle.vg_known.specs.Difference.{difference_by, other_value};
ghost use Rattle.vg_known.specs.WiderDifference.{equality};
ghost use Rattle.vg_program.specs.Valid.{KeepsRules};
ghost use Rattle.vg_shapes.specs.Sound.{IsSound};
ghost use Rattle.vg_verify.specs.Heads.{HasHead};
ghost use Rattle.vg_verify.specs.Verdicts.{difference_of, event_difference, inner_difference, ordered_difference, verdict_of};

use crate::both_sides::sides_of;
use crate::called::Called;
use crate::head::same_head;
use crate::opaque::opaque_line;
use crate::values::other_value;
use crate::verdict::{Difference, Verdict};
use std::alloc::{AllocError, Global};
use vg_base::Items;
use vg_catalog::Catalog;
use vg_known::{same_is_same_with_more, same_means_units};
use vg_known_scalar::scalar_programs_are_same;
use vg_paired::{lines_by_rank, turned_units, uneven_label};
use vg_program::Program;
use vg_shapes::Ssa;
use vg_told::catalogs_are_told;

// The least store whose two terms differ, where the lines have these events.
fn valued_difference(
    alloc: Global,
    called: &Called,
    ssa: &Ssa,
    program: &Program,
    lines: &[Items<usize>],
    more: bool,
) -> Result<Option<Difference>, AllocError>
    ensures { IfOk result (λ found. option_map difference_of found
        ≡ other_value (equality more) called.now ssa.now program.now lines.now) }
{
    let sides = sides_of(alloc, called, ssa, program, lines)?;
    other_value(alloc, ssa, sides, more)
}

// The first difference after the numbers of events: of order, then of values.
fn ordered_difference(
    alloc: Global,
    called: &Called,
    ssa: &Ssa,
    program: &Program,
    more: bool,
) -> Result<Option<Difference>, AllocError>
    requires { IsSound ssa.now }
    ensures { IfOk result (λ found. option_map difference_of found
        ≡ ordered_difference (equality more) called.now ssa.now program.now) }
{
    let events = lines_by_rank(alloc, ssa, program)?;
    let lines = events.as_slice();
    match turned_units(alloc, ssa, lines)? {
        Some(turned) => Ok(Some(Difference::Order(turned))),
        None => valued_difference(alloc, called, ssa, program, lines, more),
    }
}

// The first difference after what is called: of the numbers of events, then of their order and values.
fn event_difference(
    alloc: Global,
    called: &Called,
    ssa: &Ssa,
    program: &Program,
    more: bool,
) -> Result<Option<Difference>, AllocError>
    requires { IsSound ssa.now }
    ensures { IfOk result (λ found. option_map difference_of found
        ≡ event_difference (equality more) called.now ssa.now program.now) }
{
    match uneven_label(alloc, ssa, program)? {
        Some(uneven) => Ok(Some(Difference::Access(uneven))),
        None => ordered_difference(alloc, called, ssa, program, more),
    }
}

// The first difference of a program that has the kernel's name and parameters.
fn inner_difference(
    alloc: Global,
    catalog: &Catalog,
    ssa: &Ssa,
    program: &Program,
    more: bool,
) -> Result<Option<Difference>, AllocError>
    requires sound { IsSound ssa.now }
    ensures { IfOk result (λ found. option_map difference_of found
        ≡ inner_difference (equality more) (entries_in catalog.now) ssa.now program.now) }
{
    let called = Called::new(alloc, catalog, program)?;
    match opaque_line(&called, program)? {
        Some(line) => Ok(Some(Difference::Opaque { line })),
        None => event_difference(alloc, &called, ssa, program, more),
    }
}

// The first difference of a kernel and a program.
fn first_difference(
    alloc: Global,
    catalog: &Catalog,
    ssa: &Ssa,
    program: &Program,
    more: bool,
) -> Result<Option<Difference>, AllocError>
    requires sound { IsSound ssa.now }
    ensures { IfOk result (λ found. option_map difference_of found
        ≡ difference_by (equality more) (entries_in catalog.now) ssa.now program.now) }
{
    if same_head(ssa, program) {
        inner_difference(alloc, catalog, ssa, program, more)
    } else {
        Ok(Some(Difference::Params))
    }
}

fn verdict_for(found: Option<Difference>) -> Verdict
    ensures { verdict_of result ≡ option_map difference_of found }
{
    match found {
        None => Verdict::Same,
        Some(difference) => Verdict::Differs(difference),
    }
}

/// Compares a sound kernel and a program from anywhere, which may call the instructions of a catalogue: the
/// first difference, or that there is none.
///
/// A program without a difference has the kernel's name and parameters. If it is valid it leaves what the
/// kernel leaves, or traps where it does, in each layout that respects noalias, each call giving what the
/// text of its entry means; of a difference nothing is promised. The scalar program of a kernel has no
/// difference to it.
///
/// With `more` terms are held against each other as whole terms and as sums, too (`WiderDifference` of
/// `vg_known`): each program without a difference has none with `more`.
///
/// Fails for want of memory, also past 2^24 nodes of terms that are made canonical, with `more` past as many
/// of whole terms, where a term made of cut parts has more than 4,096 nodes, and at the bounds of
/// `vg_lift::lift_entry`.
pub fn verify(
    alloc: Global,
    catalog: &Catalog,
    ssa: &Ssa,
    program: &Program,
    more: bool,
) -> Result<Verdict, AllocError>
    requires sound { IsSound ssa.now }
    ensures exact { IfOk result
        (λ v. verdict_of v ≡ difference_by (equality more) (entries_in catalog.now) ssa.now program.now) }
    ensures same { IfOk result (λ v. v ≡ Verdict.Same →
        KeepsRules (headers_of (entries_in catalog.now)) program.now →
        MeansUnits (called_by (entries_in catalog.now)) program.now ssa.now) }
    ensures head { IfOk result (λ v. v ≡ Verdict.Same → HasHead ssa.now program.now) }
    ensures scalar { program.now ≡ scalar_program ssa.now → IfOk result (λ v. v ≡ Verdict.Same) }
{
    same_means_units();
    catalogs_are_told();
    scalar_programs_are_same();
    same_is_same_with_more();
    let found = first_difference(alloc, catalog, ssa, program, more)?;
    Ok(verdict_for(found))
}
