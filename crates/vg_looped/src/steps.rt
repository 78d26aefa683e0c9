//! The steps of all pointers, and those of the pointers that move.

ghost use Rattle.std.specs.Prelude.{◌≡◌, ◌≤◌, length, IfOk};
ghost use Rattle.vg_program.specs.Params.{pointers};
ghost use Rattle.vg_looped.specs.Steps.{stepped, steps_of, step_for};

use std::alloc::{AllocError, Global};
use vg_program::{Param, ParamKind};

/// How many of the parameters are pointers.
pub fn pointers_in(params: &[Param]) -> u32
    requires { length params.now ≤ 16 }
    ensures { result ≡ length (pointers params.now) }
{
    let mut count = 0;
    let mut rest = params;
    'params: while let [param, behind @ ..] = rest {
        match param.kind {
            ParamKind::Pointer => count += 1,
            ParamKind::Integer(_) => {}
        }
        rest = behind;
    }
    count
}

/// The pointers that have a step, in their order, each with its step.
#[tactic(auto, unfolding(crate::specs::Steps::stepped))]
pub fn stepped(alloc: Global, steps: &[u32]) -> Result<Vec<(u32, u32)>, AllocError>
    requires { length steps.now ≤ 16 }
    ensures { IfOk result (λ pairs. pairs.items ≡ stepped 0 steps.now) }
{
    let mut pairs = Vec::new(alloc);
    let mut pointer = 0;
    let mut rest = steps;
    'steps: while let [step, behind @ ..] = rest {
        if *step != 0 {
            pairs.push((pointer, *step))?;
        }
        pointer += 1;
        rest = behind;
    }
    Ok(pairs)
}

/// The step of a pointer where no pair is of an earlier one, and the pairs that are left.
#[tactic(auto, unfolding(crate::specs::Steps::step_for))]
fn step_for(pointer: u32, pairs: &[(u32, u32)]) -> (u32, &[(u32, u32)])
    ensures step { result.0 ≡ (step_for pointer pairs.now).0 }
    ensures left { result.1.now ≡ (step_for pointer pairs.now).1 }
{
    match pairs {
        [] => (0, pairs),
        [pair, behind @ ..] => {
            if pair.0 == pointer {
                (pair.1, behind)
            } else {
                (0, pairs)
            }
        }
    }
}

/// A step for each of so many pointers: 0 where no pair is of it. The pairs rise.
pub fn steps_of(alloc: Global, count: u32, pairs: &[(u32, u32)]) -> Result<Vec<u32>, AllocError>
    ensures { IfOk result (λ steps. steps.items ≡ steps_of 0 count pairs.now) }
{
    let mut steps = Vec::new(alloc);
    let mut pointer = 0;
    let mut rest = pairs;
    'pointers: while pointer < count {
        let (step, behind) = step_for(pointer, rest);
        steps.push(step)?;
        rest = behind;
        pointer += 1;
    }
    Ok(steps)
}
