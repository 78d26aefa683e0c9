//! Kernels by their text, and packs as text.

ghost use Rattle.std.specs.Prelude.{IfOk};
ghost use Rattle.vg_shapes.specs.Sound.{IsSound};

use std::alloc::Global;
use std::test::Fail;
use vg_kernel::parse_kernel;
use vg_shapes::{Pack, Ssa};
use vg_ssa::number_values;

/// The numbered values of a kernel that is written so.
pub fn numbered(alloc: Global, text: &str) -> Result<Ssa, Fail>
    ensures { IfOk result (λ ssa. IsSound ssa) }
{
    let kernel = parse_kernel(alloc, text.as_bytes())?;
    let ssa = number_values(alloc, &kernel)?;
    Ok(ssa)
}

/// Writes units, each with a space before it.
pub fn push_units(text: &mut String, units: &[u32]) -> Result<(), Fail> {
    for unit in units {
        write!(text, " {unit}")?;
    }
    Ok(())
}

fn push_lanes(text: &mut String, lanes: &[Option<u32>]) -> Result<(), Fail> {
    for lane in lanes {
        match lane {
            Some(unit) => write!(text, " {unit}")?,
            None => text.push_str(" _")?,
        }
    }
    Ok(())
}

/// How a pack is done, and its units, lane 0 first.
fn push_pack(text: &mut String, pack: &Pack) -> Result<(), Fail> {
    match pack {
        Pack::Stores(units) => {
            text.push_str("store")?;
            push_units(text, units.as_slice())
        }
        Pack::Loads(units) => {
            text.push_str("load")?;
            push_units(text, units.as_slice())
        }
        Pack::Call { description, lanes } => {
            write!(text, "call {description}:")?;
            push_lanes(text, lanes.as_slice())
        }
    }
}

/// A line a pack.
pub fn shown(alloc: Global, packs: &[Pack]) -> Result<String, Fail> {
    let mut text = String::new(alloc);
    for pack in packs {
        push_pack(&mut text, pack)?;
        text.push('\n')?;
    }
    Ok(text)
}
