//! Lines, and what is known while they are emitted.

ghost use Rattle.std.specs.Prelude.{◌≡◌, ◌+◌, ◌∷◌, [], IfOk, OnOk};
ghost use Rattle.vg_emission.specs.Draft.{blank, with_built, with_held, with_name, with_vectors};
ghost use Rattle.vg_emit.specs.Views.{behind, known, made_of, placed_behind, placed_of};

use crate::numbers::Numbers;
use std::alloc::{AllocError, Global};
use vg_program::Line;

/// Lines, how many scalars and registers they define, and by the numbers of values, packs and
/// operands the scalar or register that stands for each.
#[derive(Drop)]
pub(crate) struct Draft {
    pub(crate) lines: Vec<Line>,
    pub(crate) scalars: u32,
    pub(crate) vectors: u32,
    pub(crate) names: Numbers,
    pub(crate) held: Numbers,
    pub(crate) built: Numbers,
}

/// One more. Fails where memory ends: a line takes more than a byte.
fn one_more(count: u32) -> Result<u32, AllocError>
    ensures { IfOk result (λ n. n ≡ count + 1) }
{
    match count.checked_add(1) {
        Some(more) => Ok(more),
        None => Err(AllocError),
    }
}

/// A draft without lines, for so many values, packs and operands.
pub(crate) fn blank(
    alloc: Global,
    values: usize,
    packs: usize,
    operands: usize,
) -> Result<Draft, AllocError>
    ensures { IfOk result (λ d. made_of d
        ≡ record { lines = []; draft = blank values packs operands }) }
{
    Ok(Draft {
        lines: Vec::new(alloc),
        scalars: 0,
        vectors: 0,
        names: Numbers::new(alloc, values)?,
        held: Numbers::new(alloc, packs)?,
        built: Numbers::new(alloc, operands)?,
    })
}

/// Adds a line that defines nothing.
pub(crate) fn put_line(draft: &mut Draft, line: Line) -> Result<(), AllocError>
    ensures { OnOk result (made_of draft.new
        ≡ behind (made_of draft.old) (record { lines = line ∷ []; draft = known draft.old })) }
{
    draft.lines.push(line)?;
    Ok(())
}

/// Adds a line that defines the next scalar, which is a value.
pub(crate) fn put_named(draft: &mut Draft, line: Line, value: u32) -> Result<(), AllocError>
    ensures { OnOk result (made_of draft.new
        ≡ behind (made_of draft.old)
        (record { lines = line ∷ []; draft = with_name (known draft.old) value })) }
{
    let scalars = one_more(draft.scalars)?;
    draft.lines.push(line)?;
    draft.names.set(value as usize, draft.scalars);
    draft.scalars = scalars;
    Ok(())
}

/// Adds a line that defines the next register.
pub(crate) fn put_vector(draft: &mut Draft, line: Line) -> Result<u32, AllocError>
    ensures { IfOk result (λ r. placed_of draft.new r
        ≡ placed_behind (made_of draft.old)
        (record {
          lines = line ∷ [];
          draft = with_vectors (known draft.old) 1;
          register = draft.old.vectors;
        })) }
{
    let register = draft.vectors;
    let vectors = one_more(register)?;
    draft.lines.push(line)?;
    draft.vectors = vectors;
    Ok(register)
}

/// Adds a line that defines the next register, which holds a pack.
pub(crate) fn put_held(draft: &mut Draft, line: Line, pack: usize) -> Result<u32, AllocError>
    ensures { IfOk result (λ r. placed_of draft.new r
        ≡ placed_behind (made_of draft.old)
        (record {
          lines = line ∷ [];
          draft = with_held (known draft.old) pack;
          register = draft.old.vectors;
        })) }
{
    let register = put_vector(draft, line)?;
    draft.held.set(pack, register);
    Ok(register)
}

/// Lets an operand stand in a register.
pub(crate) fn put_built(draft: &mut Draft, operand: usize, register: u32)
    ensures { made_of draft.new
        ≡ record {
          lines = draft.old.lines.items;
          draft = with_built (known draft.old) operand register;
        } }
{
    draft.built.set(operand, register);
}
