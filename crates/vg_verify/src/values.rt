//! What a kernel stores against what a program stores in its place.

ghost use Rattle.std.specs.Prelude.{◌≡◌, ◌+◌, IfOk, length};
ghost use Rattle.std.specs.Option.{option_map};
ghost use Rattle.vg_base.specs.Width.{bits_of};
ghost use Rattle.vg_known.specs.Cuts.{gathered};
ghost use Rattle.vg_known.specs.Known.{event_bits};
ghost use Rattle.vg_known.specs.Kernels.{bits_at};
ghost use Rattle.vg_known.specs.WiderDifference.{equality};
ghost use Rattle.vg_lift.specs.Gather.{bits_from};
ghost use Rattle.vg_shapes.specs.Order.{numbers_from};
ghost use Rattle.vg_ssa.specs.ValueTerm.{operand_term};
ghost use Rattle.vg_verify.specs.Values.{compared, first_value, told, unit_value, values_from};
ghost use Rattle.vg_verify.specs.Comparers.{HasWholes, IsStill};
ghost use Rattle.vg_verify.specs.Verdicts.{difference_of};
ghost use Rattle.vg_verify.specs.Views.{pairs_in, sides_in};

use crate::both_sides::Sides;
use crate::comparer::Comparer;
use crate::earlier_loads::unit_at;
use crate::event_bits::EventBits;
use crate::kernel_values::operand_term;
use crate::known::{Knowing, whole_run};
use crate::unit_reads::{event_count, following, push_numbers};
use crate::verdict::Difference;
use std::alloc::{AllocError, Global};
use vg_base::Width;
use vg_forms::{Form, Maker};
use vg_shapes::{Ssa, SsaUnit, Wanted};

// The term of what a store of a kernel writes.
fn own_term(
    alloc: Global,
    terms: &[Form],
    maker: &mut Maker,
    width: Width,
    x: Wanted,
) -> Result<Form, AllocError>
    ensures form { IfOk result (λ f. f
        ≡ gathered maker.old.classes (bits_from (operand_term terms.now x) 0 (bits_of width))) }
    ensures classes { maker.new.classes ≡ maker.old.classes }
{
    let form = operand_term(alloc, terms, x)?;
    let runs = whole_run(alloc, form, width.bits())?;
    maker.gathered(alloc, &runs)
}

// The term of what is stored by so many events from a first on.
fn put_term(
    alloc: Global,
    stored: &EventBits,
    maker: &mut Maker,
    first: usize,
    count: u32,
) -> Result<Form, AllocError>
    ensures form { IfOk result (λ f. f ≡ gathered maker.old.classes
        (event_bits (bits_at (pairs_in stored.now.table.entries)) (numbers_from first count))) }
    ensures classes { maker.new.classes ≡ maker.old.classes }
{
    let mut events = Vec::new(alloc);
    push_numbers(&mut events, first, count)?;
    let runs = stored.read(alloc, &events)?;
    maker.gathered(alloc, &runs)
}

// A store with its two terms, unless they count as equal.
fn told(unit: usize, same: bool, kernel: Form, program: Form) -> Option<Difference>
    ensures { option_map difference_of result ≡ told same unit kernel program }
{
    if same {
        None
    } else {
        Some(Difference::Value {
            unit,
            kernel,
            program,
        })
    }
}

// The two terms of the unit of a number, of which the first event has this number, where it is a store and
// they do not count as equal.
fn unit_value(
    alloc: Global,
    terms: &[Form],
    stored: &EventBits,
    comparer: &mut Comparer,
    number: usize,
    first: usize,
    unit: &SsaUnit,
) -> Result<Option<Difference>, AllocError>
    requires { HasWholes comparer.old }
    ensures found { IfOk result (λ found. option_map difference_of found
        ≡ unit_value (equality comparer.old.more) (compared terms.now comparer.old.maker.classes
        (pairs_in stored.now.table.entries)) number first unit.now) }
    ensures still { IsStill comparer.old comparer.new }
{
    match *unit {
        SsaUnit::Load { .. } => Ok(None),
        SsaUnit::Store { width, value, .. } => {
            let maker = &mut comparer.maker;
            let own = own_term(alloc, terms, maker, width, value)?;
            let put = put_term(alloc, stored, maker, first, event_count(unit))?;
            let same = comparer.are_equal(alloc, &own, &put)?;
            Ok(told(number, same, own, put))
        }
        SsaUnit::Operation { .. } => Ok(None),
    }
}

// The first of units whose two terms differ, the first unit having this number.
fn value_among(
    alloc: Global,
    terms: &[Form],
    stored: &EventBits,
    comparer: &mut Comparer,
    number: usize,
    units: &[SsaUnit],
) -> Result<Option<Difference>, AllocError>
    requires { HasWholes comparer.old }
    ensures { IfOk result (λ found. option_map difference_of found
        ≡ values_from (equality comparer.old.more) (compared terms.now comparer.old.maker.classes
        (pairs_in stored.now.table.entries)) number 0 units.now) }
{
    let mut first = 0;
    let mut own = number;
    'units: for place in 0..units.len() {
        let unit = unit_at(units, place);
        let found = unit_value(alloc, terms, stored, comparer, own, first, unit)?;
        if found.is_some() {
            return Ok(found);
        }
        own = following(own, 1)?;
        first = following(first, event_count(unit))?;
    }
    Ok(None)
}

/// The least store of a kernel whose two terms differ: of what it writes, and of what the program writes
/// by the same events. With `more` they are held against each other as whole terms and as sums, too. Fails
/// for want of memory alone, also past the bounds on nodes. Takes time by the number of events, and of the
/// nodes of their terms.
#[tactic(auto, using(crate::proofs::UnitValues::all_values))]
pub(crate) fn other_value(
    alloc: Global,
    ssa: &Ssa,
    sides: Sides,
    more: bool,
) -> Result<Option<Difference>, AllocError>
    ensures { IfOk result (λ found. option_map difference_of found
        ≡ first_value (equality more) (sides_in sides) ssa.now) }
{
    let Sides { terms, known } = sides;
    let Knowing { puts, maker, .. } = known;
    let stored = EventBits::new(alloc, &puts)?;
    let mut comparer = Comparer::new(more, maker);
    let units = ssa.units.as_slice();
    let found = value_among(
        alloc,
        &terms,
        &stored,
        &mut comparer,
        ssa.arguments(),
        units,
    )?;
    Ok(found)
}
