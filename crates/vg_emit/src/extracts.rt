//! Values taken out of registers.

ghost use Rattle.std.specs.Prelude.{◌≡◌, ◌<◌, ◌^◌, ◌∷◌, [], OnOk, length};
ghost use Rattle.vg_emission.specs.Emission.{extracts};
ghost use Rattle.vg_emit.specs.Views.{behind, job_of, known, made_of};

use crate::draft::{Draft, put_named};
use crate::job::{Job, is_needed};
use std::alloc::AllocError;
use vg_base::Width;
use vg_program::Line;

/// Adds the line that takes a value out of a lane of a register, if there is one and it is needed.
fn put_extract(
    job: &Job,
    draft: &mut Draft,
    register: u32,
    width: Width,
    lane: u32,
    value: Option<u32>,
) -> Result<(), AllocError>
    ensures { OnOk result (made_of draft.new
        ≡ behind (made_of draft.old)
        (extracts (job_of job.now) (known draft.old) register width lane (value ∷ []))) }
{
    match value {
        None => Ok(()),
        Some(value) => {
            let needed = is_needed(job, value);
            if !needed {
                return Ok(());
            }
            let line = Line::Extract {
                register,
                lane,
                width,
            };
            put_named(draft, line, value)
        }
    }
}

/// Adds a line for each lane of a register whose value is needed.
pub(crate) fn put_extracts(
    job: &Job,
    draft: &mut Draft,
    register: u32,
    width: Width,
    lanes: &[Option<u32>],
) -> Result<(), AllocError>
    requires { length lanes.now < 2 ^ 32 }
    ensures { OnOk result (made_of draft.new
        ≡ behind (made_of draft.old)
        (extracts (job_of job.now) (known draft.old) register width 0 lanes.now)) }
{
    let mut lane = 0;
    'lanes: for value in lanes {
        put_extract(job, draft, register, width, lane, *value)?;
        lane += 1;
    }
    Ok(())
}
