//! Loads of bytes at the end of a program.

ghost use Rattle.std.specs.Prelude.{◌≡◌, ◌+◌, ◌<◌, ◌^◌, ◌++◌, ◌&&◌, length, map, IfOk, OnOk};
ghost use Rattle.std.specs.List.{list_all};
ghost use Rattle.vg_paired.specs.ByteLabels.{label_of};
ghost use Rattle.vg_levelled.specs.Levelled.{byte_load, has_offset, with_loads};

use std::alloc::{AllocError, Global};
use vg_base::{Address, Items, Width};
use vg_paired::ByteLabel;
use vg_program::{Line, Program};

/// Whether the offset of a byte has 32 bits with a sign.
fn has_offset(label: ByteLabel) -> bool
    ensures { result ≡ has_offset (label_of label) }
{
    -2_147_483_648 <= label.offset && label.offset <= 2_147_483_647
}

/// Whether those of all have.
pub(crate) fn have_offsets(loads: &[ByteLabel]) -> bool
    ensures { result ≡ list_all has_offset (map label_of loads.now) }
{
    let mut all = true;
    'loads: for load in loads {
        all = both(all, has_offset(*load));
    }
    all
}

fn both(a: bool, b: bool) -> bool
    ensures { result ≡ (a && b) }
{
    a && b
}

/// The load of a byte; an error where its offset has more bits.
fn byte_load(label: ByteLabel) -> Result<Line, AllocError>
    ensures { IfOk result (λ line. line ≡ byte_load (label_of label)) }
{
    match i32::try_from(label.offset) {
        Ok(offset) => Ok(Line::Load {
            width: Width::W8,
            address: Address {
                pointer: label.pointer,
                offset,
            },
        }),
        Err(_) => Err(AllocError),
    }
}

/// Loads of bytes behind lines. An error is want of memory, or an offset of more bits.
fn push_loads(lines: &mut Vec<Line>, loads: &[ByteLabel]) -> Result<(), AllocError>
    ensures { OnOk result (lines.new.items ≡ lines.old.items ++ map byte_load (map label_of loads.now)) }
{
    'loads: for load in loads {
        lines.push(byte_load(*load)?)?;
    }
    Ok(())
}

/// A program with loads of bytes at its end. An error is want of memory, or an offset of more bits.
pub(crate) fn with_loads(
    alloc: Global,
    program: Program,
    loads: &[ByteLabel],
) -> Result<Program, AllocError>
    requires { program.cost + length loads.now < 2 ^ 32 }
    ensures { IfOk result (λ p. p ≡ with_loads program (map label_of loads.now)) }
{
    let mut program = program;
    let lines = std::mem::replace(&mut program.lines, Items::from_vec(Vec::new(alloc)));
    let mut lines = lines.into_vec();
    push_loads(&mut lines, loads)?;
    program.lines = Items::from_vec(lines);
    program.cost += loads.len() as u32;
    Ok(program)
}
