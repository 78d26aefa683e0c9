//! The text of guarded loops.

ghost use Rattle.std.specs.Prelude.{◌≡◌, ◌≤◌, ◌++◌, length, OnOk, IfOk};
ghost use Rattle.vg_looped.specs.Looped.{turns_text};
ghost use Rattle.vg_looped.specs.Steps.{stepped};
ghost use Rattle.vg_guarded_loop.specs.GuardedLoop.{first_text, sides_text, rest_text, guarded_loop_text};

use crate::guarded_loop::GuardedLoop;
use std::alloc::{AllocError, Global};
use vg_guard::Guarded;
use vg_guard::parts::{put_checks, put_end_line};
use vg_looped::parts::{put_pairs, stepped};
use vg_program::Program;
use vg_program::parts::{integer_name, put_body, put_number, put_signature};

/// What stands after the name and the parameters in the first line.
fn put_turns(
    alloc: Global,
    to: &mut Vec<u8>,
    source: &GuardedLoop,
    pairs: &[(u32, u32)],
) -> Result<(), AllocError>
    ensures { OnOk result (to.new.items ≡ to.old.items ++ turns_text source.now.block.fast.params
        source.now.times pairs.now source.now.turns) }
{
    let params = source.block.fast.params.as_slice();
    to.extend_from_slice(b" times ")?;
    to.extend_from_slice(integer_name(params, source.times))?;
    to.extend_from_slice(b" step ")?;
    put_pairs(alloc, to, params, pairs)?;
    to.extend_from_slice(b" block ")?;
    put_number(alloc, to, source.turns as u64)
}

/// The first line.
fn put_first_line(
    alloc: Global,
    to: &mut Vec<u8>,
    source: &GuardedLoop,
    pairs: &[(u32, u32)],
) -> Result<(), AllocError>
    ensures { OnOk result (to.new.items ≡ to.old.items ++ first_text source.now pairs.now) }
{
    to.extend_from_slice(b"guardedloop ")?;
    put_signature(alloc, to, &source.block.fast)?;
    put_turns(alloc, to, source, pairs)?;
    to.extend_from_slice(b"\n")?;
    Ok(())
}

/// The checks, and the lines of both sides.
fn put_sides(alloc: Global, to: &mut Vec<u8>, guarded: &Guarded) -> Result<(), AllocError>
    ensures { OnOk result (to.new.items ≡ to.old.items ++ sides_text guarded.now) }
{
    let checks = guarded.checks.as_slice();
    put_checks(alloc, to, guarded.fast.params.as_slice(), checks)?;
    to.extend_from_slice(b"then")?;
    to.extend_from_slice(b"\n")?;
    put_body(alloc, to, &guarded.fast)?;
    to.extend_from_slice(b"else")?;
    to.extend_from_slice(b"\n")?;
    put_body(alloc, to, &guarded.slow)?;
    put_end_line(alloc, to, checks)
}

/// The lines of the turns that are left over, and the last line.
fn put_rest(alloc: Global, to: &mut Vec<u8>, rest: &Program) -> Result<(), AllocError>
    ensures { OnOk result (to.new.items ≡ to.old.items ++ rest_text rest.now) }
{
    to.extend_from_slice(b"rest")?;
    to.extend_from_slice(b"\n")?;
    put_body(alloc, to, rest)?;
    to.extend_from_slice(b"end looped")?;
    to.extend_from_slice(b"\n")?;
    Ok(())
}

/// The text of a guarded loop. The only error is want of memory.
#[tactic(auto, unfolding(crate::specs::GuardedLoop::guarded_loop_text))]
pub fn print_guarded_loop(alloc: Global, source: &GuardedLoop) -> Result<Vec<u8>, AllocError>
    requires { length source.now.steps ≤ 16 }
    ensures { IfOk result (λ text. text.items ≡ guarded_loop_text source.now) }
{
    let pairs = stepped(alloc, source.steps.as_slice())?;
    let mut text = Vec::new(alloc);
    put_first_line(alloc, &mut text, source, pairs.as_slice())?;
    put_sides(alloc, &mut text, &source.block)?;
    put_rest(alloc, &mut text, &source.rest)?;
    Ok(text)
}
