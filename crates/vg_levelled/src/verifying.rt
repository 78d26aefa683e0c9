//! The comparison of a kernel and a program with their loads more.

ghost use Rattle.std.specs.Prelude.{◌≡◌, ◌++◌, IfOk, is_some, true};
ghost use Rattle.vg_catalog.specs.Catalogs.{entries_in};
ghost use Rattle.vg_events.specs.Events.{kernel_labels};
ghost use Rattle.vg_events.specs.Lines.{line_labels};
ghost use Rattle.vg_known.specs.Difference.{uneven_label};
ghost use Rattle.vg_levelled.specs.Found.{seen};
ghost use Rattle.vg_levelled.specs.Levelled.{added, fits};
ghost use Rattle.vg_levelled.specs.Verified.{IsVerified};
ghost use Rattle.vg_shapes.specs.Sound.{IsSound};

use crate::added::{Added, loads_to_add};
use crate::law::added_can_be_numbered;
use crate::loads::{have_offsets, with_loads};
use crate::numbered::{are_few, both, numbered};
use std::alloc::{AllocError, Global};
use vg_catalog::Catalog;
use vg_paired::uneven_label;
use vg_program::Program;
use vg_shapes::{Ssa, SsaUnit};
use vg_verify::{Verdict, verify};

/// Whether what is added fits, where these are the units with those that are added.
fn fits(ssa: &Ssa, program: &Program, added: &Added, all: &[SsaUnit]) -> bool
    requires { all.now ≡ ssa.now.units ++ (seen added.now).units }
    ensures { result ≡ fits ssa.now program.now (seen added.now) }
{
    let loads = added.loads.len();
    added.units.as_slice().len() <= 8192
        && (are_few(all)
            && (have_offsets(&added.loads) && program.cost as usize + loads < 4_294_967_296))
}

/// The comparison where loads are to be added.
fn verify_added(
    alloc: Global,
    catalog: &Catalog,
    ssa: &Ssa,
    program: Program,
    found: &Added,
) -> Result<Verdict, AllocError>
    requires sound { IsSound ssa.now }
    requires uneven { is_some (uneven_label (kernel_labels ssa.now) (line_labels program.lines)) ≡ true }
    requires are { seen found.now ≡ added ssa.now program }
    ensures { IfOk result (IsVerified (entries_in catalog.now) ssa.now program) }
{
    added_can_be_numbered();
    let all = both(alloc, ssa.units.as_slice(), found.units.as_slice())?;
    if !fits(ssa, &program, found, &all) {
        return verify(alloc, catalog, ssa, &program, true);
    }
    let units = numbered(alloc, ssa, all)?;
    let lines = with_loads(alloc, program, &found.loads)?;
    verify(alloc, catalog, &units, &lines, true)
}

/// The comparison where some label is uneven.
fn verify_uneven(
    alloc: Global,
    catalog: &Catalog,
    ssa: &Ssa,
    program: Program,
) -> Result<Verdict, AllocError>
    requires sound { IsSound ssa.now }
    requires uneven { is_some (uneven_label (kernel_labels ssa.now) (line_labels program.lines)) ≡ true }
    ensures { IfOk result (IsVerified (entries_in catalog.now) ssa.now program) }
{
    match loads_to_add(alloc, ssa, &program)? {
        None => verify(alloc, catalog, ssa, &program, true),
        Some(found) => verify_added(alloc, catalog, ssa, program, &found),
    }
}

/// Compares a sound kernel and a program from anywhere, each with its loads more, as `verify` does with `more`:
/// the first wider difference of the two, or that there is none. Then a valid program means the units of the
/// kernel, and has its name and parameters. Fails for want of memory, also at the bounds of `verify`.
pub fn verify_levelled(
    alloc: Global,
    catalog: &Catalog,
    ssa: &Ssa,
    program: Program,
) -> Result<Verdict, AllocError>
    requires sound { IsSound ssa.now }
    ensures { IfOk result (IsVerified (entries_in catalog.now) ssa.now program) }
{
    match uneven_label(alloc, ssa, &program)? {
        None => verify(alloc, catalog, ssa, &program, true),
        Some(_) => verify_uneven(alloc, catalog, ssa, program),
    }
}
