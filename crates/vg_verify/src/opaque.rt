//! The first call whose lanes have no terms.

ghost use Rattle.std.specs.Prelude.{◌≡◌, ◌<◌, IfOk, get_or, length};
ghost use Rattle.std.specs.Option.{option_map};
ghost use Rattle.vg_known.specs.Difference.{Difference, is_opaque_call, opaque_line};

use crate::called::Called;
use crate::walk::line_at;
use std::alloc::AllocError;
use vg_program::{Line, Program};

// Whether a line calls an instance with a lane that has no term. Fails where it calls nothing that is kept.
fn is_opaque_call(called: &Called, line: &Line) -> Result<bool, AllocError>
    ensures { IfOk result (λ b. b ≡ is_opaque_call called.now line.now) }
{
    match line {
        Line::Call { name, imm, .. } => match called.lanes(name.bytes(), *imm) {
            None => Err(AllocError),
            Some(lanes) => Ok(lanes.is_opaque),
        },
        _ => Ok(false),
    }
}

/// The number of the first line of a program that calls an instance with a lane that has no term, as the line
/// `program` has the number 1; None where there is no such line. Fails, as for want of memory, at a call that is
/// none of those that `called` was made for.
#[tactic(auto, using(crate::proofs::Seeking::sought_none, crate::proofs::Seeking::sought_more, crate::proofs::Seeking::sought_here, crate::proofs::Seeking::sought_end))]
pub fn opaque_line(called: &Called, program: &Program) -> Result<Option<usize>, AllocError>
    ensures { IfOk result (λ n. option_map Difference.opaque n ≡ opaque_line called.now
        program.now) }
{
    let lines = program.lines.as_slice();
    'lines: for place in 0..lines.len() {
        if is_opaque_call(called, line_at(lines, place))? {
            return Ok(Some(place + 2));
        }
    }
    Ok(None)
}
