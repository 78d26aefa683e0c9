//! The load groups of a kernel, found by the values that are wanted.

ghost use Rattle.std.specs.Prelude.{◌≡◌, ◌+◌, ℕ, [], IfOk, length, true};
ghost use Rattle.vg_shapes.specs.Units.{arguments};
ghost use Rattle.vg_kernel_plans.specs.LoadGroups.{first_loads, load_groups, run_begins};
ghost use Rattle.vg_kernel_plans.specs.LoadTable.{AreGroups, AreLoadGroups, HaveTables, feeders_in, groups_at};

use crate::choice::Choice;
use crate::first_loads::{PlacedLoad, first_loads};
use crate::register_groups::RegisterGroups;
use crate::runs::run_begins;
use crate::wants::wanted_values;
use std::alloc::{AllocError, Global};
use vg_shapes::{Operand, Pack, Ssa};

/// The greatest number of integer parameters, and of units, of a kernel whose loads are grouped.
const MOST: usize = 1 << 24;

/// The load groups of a kernel for each width of a register, or none where none are tried.
pub struct LoadGroups {
    /// Which packs are tried.
    pub choice: Choice,
    of_512: RegisterGroups,
    of_256: RegisterGroups,
    of_128: RegisterGroups,
}

/// Written out, so that the exits of an owner call it: a derived one would be proved anew at each.
impl Drop for LoadGroups {
    fn drop(self) {
        let LoadGroups {
            choice: _,
            of_512: _,
            of_256: _,
            of_128: _,
        } = self;
    }
}

/// The number after the last unit.
fn end_of_units(ssa: &Ssa) -> Result<u32, AllocError>
    ensures { IfOk result (λ end. end ≡ arguments ssa.now + length ssa.now.units) }
{
    let first = ssa.arguments();
    let count = ssa.units.as_slice().len();
    if first > MOST || count > MOST {
        return Err(AllocError);
    }
    Ok((first + count) as u32)
}

/// The groups of the registers of a width in bits.
fn groups_of(
    alloc: Global,
    register: u32,
    ssa: &Ssa,
    loads: &[PlacedLoad],
    begins: &[PlacedLoad],
) -> Result<RegisterGroups, AllocError>
    requires loads { loads.now ≡ first_loads ssa.now }
    requires begins { begins.now ≡ run_begins loads.now }
    ensures groups { IfOk result (λ g. g.groups.items ≡ load_groups ssa.now register) }
    ensures table { IfOk result AreGroups }
{
    let units = end_of_units(ssa)?;
    RegisterGroups::new(alloc, register, loads, begins, units)
}

/// All load groups of a kernel.
fn all_groups(alloc: Global, choice: Choice, ssa: &Ssa) -> Result<LoadGroups, AllocError>
    requires { choice.fed ≡ true }
    ensures groups { IfOk result (AreLoadGroups ssa.now) }
    ensures choice { IfOk result (λ groups. groups.choice ≡ choice) }
{
    let loads = first_loads(alloc, ssa)?;
    let loads = loads.as_slice();
    let begins = run_begins(alloc, loads)?;
    let begins = begins.as_slice();
    let of_512 = groups_of(alloc, 512, ssa, loads, begins)?;
    let of_256 = groups_of(alloc, 256, ssa, loads, begins)?;
    let of_128 = groups_of(alloc, 128, ssa, loads, begins)?;
    Ok(LoadGroups {
        choice,
        of_512,
        of_256,
        of_128,
    })
}

/// No load groups.
fn no_groups(alloc: Global, choice: Choice) -> LoadGroups
    ensures tables { HaveTables result }
    ensures none { (register : ℕ) → groups_at result register ≡ [] }
    ensures choice { result.choice ≡ choice }
{
    let of_512 = RegisterGroups::none(alloc);
    let of_256 = RegisterGroups::none(alloc);
    let of_128 = RegisterGroups::none(alloc);
    LoadGroups {
        choice,
        of_512,
        of_256,
        of_128,
    }
}

impl LoadGroups {
    /// The load groups of a kernel if they are tried, else none. Takes one look at two loads each, and at
    /// each unit and group. Fails for want of memory, and where a kernel has more than some 2^24
    /// parameters, units or groups.
    pub fn new(alloc: Global, choice: Choice, ssa: &Ssa) -> Result<LoadGroups, AllocError>
        ensures groups { IfOk result (AreLoadGroups ssa.now) }
        ensures choice { IfOk result (λ groups. groups.choice ≡ choice) }
    {
        let fed = choice.fed;
        if fed {
            let all = all_groups(alloc, choice, ssa)?;
            return Ok(all);
        }
        Ok(no_groups(alloc, choice))
    }

    /// The load groups of an operand's register that have a value that it wants, by pointer, width and
    /// offset, each rising.
    pub fn feeders(&self, alloc: Global, operand: &Operand) -> Result<Vec<Pack>, AllocError>
        requires { HaveTables self.now }
        ensures { IfOk result (λ packs. packs.items ≡ feeders_in self.now operand.now) }
    {
        let values = wanted_values(alloc, operand)?;
        let values = values.as_slice();
        let wide = operand.register == 512;
        let half = operand.register == 256;
        let narrow = operand.register == 128;
        if wide {
            let found = self.of_512.having(alloc, values)?;
            return Ok(found);
        }
        if half {
            let found = self.of_256.having(alloc, values)?;
            return Ok(found);
        }
        if narrow {
            let found = self.of_128.having(alloc, values)?;
            return Ok(found);
        }
        Ok(Vec::new(alloc))
    }
}
