//! The text of looped programs.

ghost use Rattle.std.specs.Prelude.{◌≡◌, ◌≤◌, ◌++◌, length, OnOk, IfOk};
ghost use Rattle.vg_looped.specs.Looped.{pair_text, pairs_text, turns_text, first_text, programs_text, looped_text};
ghost use Rattle.vg_looped.specs.Steps.{stepped};

use crate::looped::Looped;
use crate::steps::stepped;
use std::alloc::{AllocError, Global};
use vg_program::Param;
use vg_program::parts::{integer_name, pointer_name, put_body, put_number, put_signature};

fn put_pair(
    alloc: Global,
    to: &mut Vec<u8>,
    params: &[Param],
    pair: (u32, u32),
) -> Result<(), AllocError>
    ensures { OnOk result (to.new.items ≡ to.old.items ++ pair_text params.now pair) }
{
    to.extend_from_slice(pointer_name(params, pair.0))?;
    to.extend_from_slice(b" ")?;
    put_number(alloc, to, pair.1 as u64)
}

/// Appends pointers with their steps, as `p 4, q 4`. The only error is want of memory.
#[tactic(auto, unfolding(crate::specs::Looped::pairs_text))]
pub fn put_pairs(
    alloc: Global,
    to: &mut Vec<u8>,
    params: &[Param],
    pairs: &[(u32, u32)],
) -> Result<(), AllocError>
    ensures { OnOk result (to.new.items ≡ to.old.items ++ pairs_text params.now pairs.now) }
{
    let mut rest = pairs;
    'pairs: while let [pair, behind @ ..] = rest {
        put_pair(alloc, to, params, *pair)?;
        if !behind.is_empty() {
            to.extend_from_slice(b", ")?;
        }
        rest = behind;
    }
    Ok(())
}

/// What stands after the name and the parameters in the first line.
fn put_turns(
    alloc: Global,
    to: &mut Vec<u8>,
    looped: &Looped,
    pairs: &[(u32, u32)],
) -> Result<(), AllocError>
    ensures { OnOk result (to.new.items ≡ to.old.items
        ++ turns_text looped.now.block.params looped.now.times pairs.now looped.now.turns) }
{
    let params = looped.block.params.as_slice();
    to.extend_from_slice(b" times ")?;
    to.extend_from_slice(integer_name(params, looped.times))?;
    to.extend_from_slice(b" step ")?;
    put_pairs(alloc, to, params, pairs)?;
    to.extend_from_slice(b" block ")?;
    put_number(alloc, to, looped.turns as u64)
}

/// The first line.
fn put_first_line(
    alloc: Global,
    to: &mut Vec<u8>,
    looped: &Looped,
    pairs: &[(u32, u32)],
) -> Result<(), AllocError>
    ensures { OnOk result (to.new.items ≡ to.old.items ++ first_text looped.now pairs.now) }
{
    to.extend_from_slice(b"looped ")?;
    put_signature(alloc, to, &looped.block)?;
    put_turns(alloc, to, looped, pairs)?;
    to.extend_from_slice(b"\n")?;
    Ok(())
}

/// The lines of both programs, and the last line.
fn put_programs(alloc: Global, to: &mut Vec<u8>, looped: &Looped) -> Result<(), AllocError>
    ensures { OnOk result (to.new.items ≡ to.old.items ++ programs_text looped.now) }
{
    put_body(alloc, to, &looped.block)?;
    to.extend_from_slice(b"rest")?;
    to.extend_from_slice(b"\n")?;
    put_body(alloc, to, &looped.rest)?;
    to.extend_from_slice(b"end looped")?;
    to.extend_from_slice(b"\n")?;
    Ok(())
}

/// The text of a looped program. The only error is want of memory.
#[tactic(auto, using(crate::proofs::Printed::looped_split))]
pub fn print_looped(alloc: Global, looped: &Looped) -> Result<Vec<u8>, AllocError>
    requires { length looped.now.steps ≤ 16 }
    ensures { IfOk result (λ text. text.items ≡ looped_text looped.now) }
{
    let pairs = stepped(alloc, looped.steps.as_slice())?;
    let mut text = Vec::new(alloc);
    put_first_line(alloc, &mut text, looped, pairs.as_slice())?;
    put_programs(alloc, &mut text, looped)?;
    Ok(text)
}
