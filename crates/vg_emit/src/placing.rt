//! Operands brought into registers.

ghost use Rattle.std.specs.Prelude.{◌≡◌, ◌∷◌, [], IfOk, map, slice_index_or, unwrap_or};
ghost use Rattle.vg_shapes.specs.Description.{description_of};
ghost use Rattle.vg_kernel_plans.specs.declared.recipe.Recipe.TheVariants as recipe;
ghost use Rattle.vg_emission.specs.Draft.{found, with_built, with_vectors};
ghost use Rattle.vg_emission.specs.Emission.{build, build_all, call_of, no_description, place, recipe_at, registers_of};
ghost use Rattle.vg_emit.specs.Placing.{put_in, put_inserts, put_one};
ghost use Rattle.vg_emit.specs.Views.{all_placed_behind, all_placed_of, job_of, known, made_of, placed_behind, placed_of};

use crate::draft::{Draft, put_built, put_vector};
use crate::job::Job;
use crate::scalars::{number_for, width_for};
use std::alloc::{AllocError, Global};
use vg_base::{Items, Name};
use vg_gather::constant_bytes::constant_bytes;
use vg_kernel_plans::Recipe;
use vg_program::Line;
use vg_shapes::{Description, Operand, Slot, Wanted};

/// The call of a description on registers. One that is not there has no name, and gives no bits.
pub(crate) fn call_of(
    alloc: Global,
    descriptions: &[Description],
    number: u32,
    registers: Vec<u32>,
) -> Result<Line, AllocError>
    ensures { IfOk result (λ line. line
        ≡ call_of (slice_index_or (map description_of descriptions.now) number no_description)
        registers.items) }
{
    match descriptions.get(number as usize) {
        Some(found) => Ok(Line::Call {
            name: found.name.copy(alloc)?,
            registers: Items::from_vec(registers),
            imm: found.imm,
            bits: found.register,
            cost: found.cost,
        }),
        None => Ok(Line::Call {
            name: Name::new(alloc, &[])?,
            registers: Items::from_vec(registers),
            imm: None,
            bits: 0,
            cost: 0,
        }),
    }
}

/// The registers of packs.
fn registers_of(alloc: Global, draft: &Draft, packs: &[u32]) -> Result<Vec<u32>, AllocError>
    ensures { IfOk result (λ registers. registers.items
        ≡ registers_of (known draft.now) packs.now) }
{
    packs
        .iter()
        .map(|pack| register_of(draft, *pack))
        .collect(alloc)
}

fn register_of(draft: &Draft, pack: u32) -> u32
    ensures { result ≡ unwrap_or (found draft.now.held pack) 0 }
{
    draft.held.get(pack as usize).unwrap_or(0)
}

/// Adds the line that puts the value of a slot into a register, if it wants one. Gives the register
/// that the line defines, else the one that was given.
fn put_one(
    job: &Job,
    draft: &mut Draft,
    bits: u32,
    register: u32,
    slot: &Slot,
) -> Result<u32, AllocError>
    ensures { IfOk result (λ r. placed_of draft.new r
        ≡ placed_behind (made_of draft.old)
        (put_one (job_of job.now) (known draft.old) bits register slot.now slot.now.wanted)) }
{
    match slot.wanted {
        Wanted::Value(_) => {
            let line = Line::Insert {
                register,
                bits,
                lane: slot.low.checked_div(slot.width).unwrap_or(0),
                width: width_for(slot.width),
                value: number_for(job, draft, slot.wanted),
            };
            put_vector(draft, line)
        }
        Wanted::Constant { .. } => Ok(register),
        Wanted::Nothing => Ok(register),
    }
}

/// Adds a line for each slot that wants a value, each puts it into the register that the line
/// before gave. Gives the last register.
fn put_in(
    job: &Job,
    draft: &mut Draft,
    bits: u32,
    register: u32,
    slots: &[Slot],
) -> Result<u32, AllocError>
    ensures { IfOk result (λ r. placed_of draft.new r
        ≡ placed_behind (made_of draft.old)
        (put_in (job_of job.now) (known draft.old) bits register slots.now)) }
{
    let mut last = register;
    'slots: for slot in slots {
        last = put_one(job, draft, bits, last, slot)?;
    }
    Ok(last)
}

/// Adds a line that defines a register, in which an operand then stands.
fn put_placed(draft: &mut Draft, operand: usize, line: Line) -> Result<u32, AllocError>
    ensures { IfOk result (λ r. placed_of draft.new r
        ≡ placed_behind (made_of draft.old) (record {
          lines = line ∷ [];
          draft = with_built (with_vectors (known draft.old) 1) operand draft.old.vectors;
          register = draft.old.vectors;
        })) }
{
    let register = put_vector(draft, line)?;
    put_built(draft, operand, register);
    Ok(register)
}

/// Adds a register of constants, and lines that put in the values that an operand wants.
fn put_inserts(
    alloc: Global,
    job: &Job,
    draft: &mut Draft,
    number: usize,
    operand: &Operand,
) -> Result<u32, AllocError>
    ensures { IfOk result (λ r. placed_of draft.new r
        ≡ placed_behind (made_of draft.old)
        (put_inserts (job_of job.now) (known draft.old) number operand.now)) }
{
    let bytes = Items::from_vec(constant_bytes(alloc, operand)?);
    let first = put_vector(draft, Line::Constant { bytes })?;
    let last = put_in(
        job,
        draft,
        operand.register,
        first,
        operand.slots.as_slice(),
    )?;
    put_built(draft, number, last);
    Ok(last)
}

/// A copy of bytes.
fn copy_bytes(alloc: Global, bytes: &[u8]) -> Result<Items<u8>, AllocError>
    ensures { IfOk result (λ copy. copy ≡ bytes.now) }
{
    Ok(Items::from_vec(Vec::from_slice(alloc, bytes)?))
}

/// Adds the inserts of an operand by its number. One that is not there is a register of no bits.
fn put_inserts_at(
    alloc: Global,
    job: &Job,
    draft: &mut Draft,
    number: usize,
) -> Result<u32, AllocError>
    ensures { IfOk result (λ r. placed_of draft.new r
        ≡ placed_behind (made_of draft.old)
        (place (job_of job.now) (known draft.old) number recipe.Inserts)) }
{
    match job.operands.as_slice().get(number) {
        Some(operand) => put_inserts(alloc, job, draft, number, operand),
        None => {
            let bytes = copy_bytes(alloc, &[])?;
            put_placed(draft, number, Line::Constant { bytes })
        }
    }
}

/// Brings an operand into a register by a recipe, and gives the register.
fn place(
    alloc: Global,
    job: &Job,
    draft: &mut Draft,
    number: usize,
    recipe: &Recipe,
) -> Result<u32, AllocError>
    ensures { IfOk result (λ r. placed_of draft.new r
        ≡ placed_behind (made_of draft.old)
        (place (job_of job.now) (known draft.old) number recipe.now)) }
{
    match recipe {
        Recipe::Reuse(pack) => {
            let register = register_of(draft, *pack);
            put_built(draft, number, register);
            Ok(register)
        }
        Recipe::Constant(bytes) => {
            let bytes = copy_bytes(alloc, bytes.as_slice())?;
            put_placed(draft, number, Line::Constant { bytes })
        }
        Recipe::Shuffle { description, packs } => {
            let registers = registers_of(alloc, draft, packs.as_slice())?;
            let line = call_of(alloc, job.descriptions, *description, registers)?;
            put_placed(draft, number, line)
        }
        Recipe::Inserts => put_inserts_at(alloc, job, draft, number),
    }
}

/// Brings an operand into a register by its recipe. One that has none is a register of no bytes.
fn place_own(alloc: Global, job: &Job, draft: &mut Draft, number: usize) -> Result<u32, AllocError>
    ensures { IfOk result (λ r. placed_of draft.new r
        ≡ placed_behind (made_of draft.old)
        (place (job_of job.now) (known draft.old) number (recipe_at (job_of job.now) number))) }
{
    match job.recipes.get(number) {
        Some(recipe) => place(alloc, job, draft, number, recipe),
        None => {
            let bytes = copy_bytes(alloc, &[])?;
            put_placed(draft, number, Line::Constant { bytes })
        }
    }
}

/// Brings an operand into a register where it is first taken, and gives the register.
fn build(alloc: Global, job: &Job, draft: &mut Draft, number: usize) -> Result<u32, AllocError>
    ensures { IfOk result (λ r. placed_of draft.new r
        ≡ placed_behind (made_of draft.old) (build (job_of job.now) (known draft.old) number)) }
{
    match draft.built.get(number) {
        Some(register) => Ok(register),
        None => place_own(alloc, job, draft, number),
    }
}

/// Brings operands into registers, one after the other, and gives the registers.
pub(crate) fn build_all(
    alloc: Global,
    job: &Job,
    draft: &mut Draft,
    numbers: &[usize],
) -> Result<Vec<u32>, AllocError>
    ensures { IfOk result (λ rs. all_placed_of draft.new rs.items
        ≡ all_placed_behind (all_placed_of draft.old [])
        (build_all (job_of job.now) (known draft.old) numbers.now)) }
{
    let mut registers = Vec::new(alloc);
    'numbers: for number in numbers {
        let register = build(alloc, job, draft, *number)?;
        registers.push(register)?;
    }
    Ok(registers)
}
