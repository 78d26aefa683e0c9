//! What calls take, and what they count for.

ghost use Rattle.std.specs.Prelude.{◌≡◌, ◌≤◌, ◌+◌, map, IfOk};
ghost use Rattle.std.specs.List.{All};
ghost use Rattle.vg_base.specs.Bind.{or_fault};
ghost use Rattle.vg_pseudo.specs.Reads.{Gives};
ghost use Rattle.vg_pseudo.specs.Views.{part_of};
ghost use Rattle.vg_pseudo.specs.declared.fault.PseudoFault.TheVariants.{Shape};
ghost use Rattle.vg_pseudo.specs.Expressions.{function_of, counted, takes};

use crate::definitions::{Callee, Definitions};
use crate::fault::PseudoFault;
use crate::nodes::{binary, unary};
use crate::parts::Part;
use crate::words::Function;
use std::alloc::Global;
use vg_text::Place;

/// What a call counts for.
pub(crate) fn counted(
    definitions: &Definitions,
    callee: Option<Callee>,
    place: Place,
) -> Result<u8, PseudoFault>
    ensures { Gives (λ n. n) result (counted definitions.now callee place) }
{
    let Some(callee) = callee else {
        return Ok(0);
    };
    if !definitions.is_inside() {
        return Ok(0);
    }
    if callee.depth < 64 {
        Ok(callee.depth as u8)
    } else {
        Err(PseudoFault::NestingTooDeep { place })
    }
}

/// Whether a call has as many arguments as its DEFINE has parameters.
pub(crate) fn takes(callee: Option<Callee>, count: usize) -> bool
    ensures { result ≡ takes callee count }
{
    match callee {
        Some(callee) => count == callee.arity,
        None => true,
    }
}

/// A function of as many arguments as it takes. None where there are more or fewer.
pub(crate) fn function_node(
    alloc: Global,
    function: Function,
    place: Place,
    parts: Vec<Part>,
    room: u32,
) -> Result<Part, PseudoFault>
    requires few { room ≤ 63 }
    requires deep { All (λ p. p.depth ≤ room) parts.items }
    ensures node { Gives part_of result (or_fault (function_of function place (map part_of
        parts.items)) (Shape place)) }
    ensures deep { IfOk result (λ p. p.depth ≤ room + 1) }
{
    let mut parts = parts;
    let count = parts.len();
    let (Some(last), before) = (parts.pop(), parts.pop()) else {
        return Err(PseudoFault::Shape { place });
    };
    match (function, before) {
        (Function::One(op), None) => unary(alloc, op, place, last),
        (Function::Two(op), Some(first)) if count == 2 => binary(alloc, op, place, first, last),
        _ => Err(PseudoFault::Shape { place }),
    }
}
