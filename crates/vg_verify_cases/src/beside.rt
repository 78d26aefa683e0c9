//! A kernel and a program from texts, and what a comparison of them ends with.

ghost use Rattle.std.specs.Prelude.{IfOk};
ghost use Rattle.vg_shapes.specs.Sound.{IsSound};

use std::alloc::Global;
use std::test::Fail;
use vg_catalog::parse_file;
use vg_kernel::parse_kernel;
use vg_levelled::{loads_to_add, verify_levelled};
use vg_program::parse_program;
use vg_shapes::Ssa;
use vg_ssa::number_values;
use vg_verify::{Difference, Verdict, verify};

/// What a row expects, without the terms of a value.
#[derive(Clone, Copy, PartialEq, Debug)]
pub enum Expected {
    Same,
    Params,
    Opaque {
        line: usize,
    },
    Access {
        writes: bool,
        pointer: u32,
        offset: i64,
        kernel: usize,
        program: usize,
    },
    Order {
        first: usize,
        second: usize,
    },
    Value {
        unit: usize,
    },
}

fn expected_of(verdict: &Verdict) -> Expected {
    match verdict {
        Verdict::Same => Expected::Same,
        Verdict::Differs(difference) => expected_in(difference),
    }
}

fn expected_in(difference: &Difference) -> Expected {
    match difference {
        Difference::Params => Expected::Params,
        Difference::Opaque { line } => Expected::Opaque { line: *line },
        Difference::Access(uneven) => Expected::Access {
            writes: uneven.label.writes,
            pointer: uneven.label.pointer,
            offset: uneven.label.offset,
            kernel: uneven.in_kernel,
            program: uneven.in_program,
        },
        Difference::Order(turned) => Expected::Order {
            first: turned.first,
            second: turned.second,
        },
        Difference::Value { unit, .. } => Expected::Value { unit: *unit },
    }
}

/// The numbered values of a kernel's text.
fn numbered(alloc: Global, text: &[u8]) -> Result<Ssa, Fail>
    ensures { IfOk result (λ ssa. IsSound ssa) }
{
    let kernel = parse_kernel(alloc, text)?;
    let ssa = number_values(alloc, &kernel)?;
    Ok(ssa)
}

/// What the comparison of a kernel's text with a program's text ends with, over the entries of a file's text,
/// with `more` or without.
pub fn compared(
    alloc: Global,
    entries: &[u8],
    kernel: &[u8],
    program: &[u8],
    more: bool,
) -> Result<Expected, Fail> {
    let ssa = numbered(alloc, kernel)?;
    let catalog = parse_file(alloc, entries)?;
    let program = parse_program(alloc, program, catalog.headers())?;
    let verdict = verify(alloc, &catalog, &ssa, &program, more)?;
    Ok(expected_of(&verdict))
}

/// How many loads are added to a kernel, and how many to a program, by their texts.
pub fn loads_added(alloc: Global, kernel: &[u8], program: &[u8]) -> Result<(usize, usize), Fail> {
    let ssa = numbered(alloc, kernel)?;
    let catalog = parse_file(alloc, b"")?;
    let program = parse_program(alloc, program, catalog.headers())?;
    match loads_to_add(alloc, &ssa, &program)? {
        None => Err(Fail::new("too many loads")),
        Some(added) => Ok((added.units.as_slice().len(), added.loads.len())),
    }
}

/// What the comparison of both with their loads more ends with, by their texts, over the entries of a file's
/// text.
pub fn compared_levelled(
    alloc: Global,
    entries: &[u8],
    kernel: &[u8],
    program: &[u8],
) -> Result<Expected, Fail> {
    let ssa = numbered(alloc, kernel)?;
    let catalog = parse_file(alloc, entries)?;
    let program = parse_program(alloc, program, catalog.headers())?;
    let verdict = verify_levelled(alloc, &catalog, &ssa, program)?;
    Ok(expected_of(&verdict))
}
