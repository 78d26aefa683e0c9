//! Which recipes operands take.

use crate::kernels::{description, leaf, none, turned, turns};
use crate::plans::{Two, plan_of};
use std::alloc::{AllocError, Global};
use std::process::Abort;
use std::test::Fail;
use vg_base::Items;
use vg_gather::build_operand;
use vg_kernel_plans::Recipe;
use vg_shapes::{Description, Operand, Slot, Wanted};

/// An operand with these slots of 32 bits, the first at bit 0.
fn operand(alloc: Global, register: u32, wanted: &[Wanted]) -> Result<Operand, AllocError> {
    let mut slots = Vec::new(alloc);
    let mut low = 0u32;
    for x in wanted {
        slots.push(Slot {
            low,
            width: 32,
            wanted: *x,
        })?;
        low = low.saturating_add(32);
    }
    Ok(Operand {
        register,
        slots: Items::from_vec(slots),
    })
}

fn number(value: u128) -> Wanted {
    Wanted::Constant { width: 32, value }
}

fn push_numbers(text: &mut String, numbers: &[u32]) -> Result<(), Fail> {
    for number in numbers {
        write!(text, " {number}")?;
    }
    Ok(())
}

fn push_bytes(text: &mut String, bytes: &[u8]) -> Result<(), Fail> {
    for byte in bytes {
        write!(text, " {byte}")?;
    }
    Ok(())
}

/// Writes a recipe.
fn push_recipe(text: &mut String, recipe: &Recipe) -> Result<(), Fail> {
    match recipe {
        Recipe::Reuse(pack) => write!(text, "reuse {pack}")?,
        Recipe::Constant(bytes) => {
            text.push_str("constant")?;
            push_bytes(text, bytes.as_slice())?;
        }
        Recipe::Shuffle { description, packs } => {
            write!(text, "shuffle {description}:")?;
            push_numbers(text, packs.as_slice())?;
        }
        Recipe::Inserts => text.push_str("inserts")?,
    }
    Ok(())
}

/// The recipe of an operand where a plan has the stores first and the loads after them.
fn recipe_of(
    alloc: Global,
    descriptions: &[Description],
    operand: &Operand,
) -> Result<Recipe, AllocError> {
    let ssa = turned(alloc)?;
    let plan = plan_of(alloc, &[Two::Stores(4, 5), Two::Loads(2, 3)])?;
    build_operand(alloc, operand, &plan, descriptions, &ssa)
}

/// The same as text, of an operand that wants these.
fn recipe(
    alloc: Global,
    descriptions: &[Description],
    register: u32,
    wanted: &[Wanted],
) -> Result<String, Fail> {
    let operand = operand(alloc, register, wanted)?;
    let made = recipe_of(alloc, descriptions, &operand)?;
    let mut text = String::new(alloc);
    push_recipe(&mut text, &made)?;
    Ok(text)
}

/// Asserts the recipe of an operand of so many bits that wants these.
fn check(
    rt: &impl Abort,
    alloc: Global,
    descriptions: &[Description],
    register: u32,
    wanted: &[Wanted],
    expected: &str,
) -> Result<(), Fail> {
    let text = recipe(alloc, descriptions, register, wanted)?;
    assert!(rt; text.as_str() == expected, "{expected}");
    Ok(())
}

#[test]
fn a_pack_is_reused_at_its_width(rt: HostRuntime) -> Result<(), Fail> {
    let alloc = rt.alloc();
    let both = [Wanted::Value(2), Wanted::Value(3)];
    check(&rt, alloc, &[], 128, &both, "reuse 1")?;
    check(&rt, alloc, &[], 256, &both, "inserts")?;
    let high = [Wanted::Nothing, Wanted::Value(3)];
    check(&rt, alloc, &[], 128, &high, "reuse 1")?;
    check(&rt, alloc, &[], 128, &[Wanted::Value(3)], "inserts")
}

#[test]
fn constants_stand_at_their_bits(rt: HostRuntime) -> Result<(), Fail> {
    let alloc = rt.alloc();
    let numbers = [number(0x01020304), Wanted::Nothing, number(0xFFFFFFFF)];
    let expected = "constant 4 3 2 1 0 0 0 0 255 255 255 255 0 0 0 0";
    check(&rt, alloc, &[], 128, &numbers, expected)?;
    let mixed = [number(1), Wanted::Value(3)];
    check(&rt, alloc, &[], 128, &mixed, "inserts")
}

/// Asserts the recipe of an operand that wants the two values the other way round.
fn check_turned(
    rt: &impl Abort,
    alloc: Global,
    descriptions: &[Description],
    expected: &str,
) -> Result<(), Fail> {
    let turned = [Wanted::Value(3), Wanted::Value(2)];
    check(rt, alloc, descriptions, 128, &turned, expected)
}

/// Asserts the same where there are shuffles of these costs.
fn check_shuffles(
    rt: &impl Abort,
    alloc: Global,
    costs: &[u32],
    expected: &str,
) -> Result<(), Fail> {
    let descriptions = turns(alloc, costs)?;
    check_turned(rt, alloc, descriptions.as_slice(), expected)
}

/// A shuffle that takes two parameters and uses the second alone.
fn second_turned(alloc: Global) -> Result<Vec<Description>, AllocError> {
    let lanes = vec![in alloc; leaf(1, 32), leaf(1, 0), none(), none()]?;
    let params = vec![in alloc; 128, 128]?;
    Ok(vec![in alloc; description(alloc, 1, params, lanes)?]?)
}

#[test]
fn the_first_cheapest_shuffle_is_taken(rt: HostRuntime) -> Result<(), Fail> {
    let alloc = rt.alloc();
    check_shuffles(&rt, alloc, &[3, 2], "shuffle 1: 1")?;
    check_shuffles(&rt, alloc, &[2, 2], "shuffle 0: 1")?;
    check_shuffles(&rt, alloc, &[4, 9], "inserts")?;
    let descriptions = second_turned(alloc)?;
    check_turned(&rt, alloc, descriptions.as_slice(), "shuffle 0: 1 1")
}
