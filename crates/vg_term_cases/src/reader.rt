//! Reads a term from the text that it prints as.

use std::alloc::Global;
use std::test::Fail;
use vg_terms::{LeafKey, OneOp, Term, TwoOp, make_const, make_leaf, make_one, make_sel, make_two};

/// What was read from the right end of a text on: terms, and amounts of shifts, the last read last.
#[derive(Drop)]
struct Reading {
    terms: Vec<Term>,
    amounts: Vec<u32>,
}

/// The term of a text. Its leaves are bits of the parameters `a` to `d`, loads through the pointer `p`,
/// the argument `n`, and numbered values that were cut off.
pub fn read(alloc: Global, text: &str) -> Result<Term, Fail> {
    let mut reading = Reading {
        terms: Vec::new(alloc),
        amounts: Vec::new(alloc),
    };
    for word in text.rsplit(' ') {
        take(alloc, word, &mut reading)?;
    }
    next(&mut reading)
}

// A word: an operation over what was read last, or what stands for itself.
fn take(alloc: Global, word: &str, reading: &mut Reading) -> Result<(), Fail> {
    let term = match word.strip_prefix('(') {
        Some(operation) => build(alloc, operation, reading)?,
        None => return place(word.trim_end_matches(')'), reading),
    };
    Ok(reading.terms.push(term)?)
}

fn next(reading: &mut Reading) -> Result<Term, Fail> {
    match reading.terms.pop() {
        Some(term) => Ok(term),
        None => Err("an operand is missing".into()),
    }
}

// A leaf, a constant, or the amount of a shift, which has no width.
fn place(word: &str, reading: &mut Reading) -> Result<(), Fail> {
    match word.split_once(':') {
        Some((what, width)) => {
            let term = leaf_or_constant(what, width.parse::<u32>()?)?;
            Ok(reading.terms.push(term)?)
        }
        None => Ok(reading.amounts.push(word.parse::<u32>()?)?),
    }
}

fn leaf_or_constant(what: &str, width: u32) -> Result<Term, Fail> {
    match what.parse::<u128>() {
        Ok(value) => Ok(make_const(width, value)),
        Err(_) => Ok(make_leaf(width, key(what)?)),
    }
}

fn key(what: &str) -> Result<LeafKey, Fail> {
    if let Some((name, low)) = what.split_once('.') {
        return Ok(key_of(0, parameter(name), low.parse::<i64>()?, 0));
    }
    if let Some(number) = what.strip_prefix('#') {
        return Ok(key_of(3, number.parse::<u32>()?, 0, 0));
    }
    match what.strip_prefix('p') {
        Some(load) => key_of_load(load),
        None => Ok(key_of(2, 0, 0, 0)),
    }
}

fn key_of_load(load: &str) -> Result<LeafKey, Fail> {
    let Some((offset, number)) = load.split_once('@') else {
        return Err("a load without a number".into());
    };
    let offset = offset.parse::<i64>()?;
    Ok(key_of(1, 0, offset, number.parse::<u32>()?))
}

fn key_of(kind: u8, first: u32, second: i64, third: u32) -> LeafKey {
    LeafKey {
        kind,
        first,
        second,
        third,
    }
}

fn parameter(name: &str) -> u32 {
    match name {
        "a" => 0,
        "b" => 1,
        "c" => 2,
        _ => 3,
    }
}

// The operation with this name and width, over what was read last.
fn build(alloc: Global, operation: &str, reading: &mut Reading) -> Result<Term, Fail> {
    if let Some((op, width)) = one_of(operation) {
        return one(alloc, op, width.parse::<u32>()?, reading);
    }
    if let Some((op, width)) = two_of(operation) {
        return two(alloc, op, width.parse::<u32>()?, reading);
    }
    match operation.strip_prefix("sel") {
        Some(width) => select(alloc, width.parse::<u32>()?, reading),
        None => Err("no operation".into()),
    }
}

fn one(alloc: Global, op: OneOp, width: u32, reading: &mut Reading) -> Result<Term, Fail> {
    let amount = match op {
        OneOp::Lshr | OneOp::Ashr => reading.amounts.pop().unwrap_or(0),
        _ => 0,
    };
    let x = next(reading)?;
    Ok(make_one(alloc, op, width, amount, x)?)
}

fn two(alloc: Global, op: TwoOp, shown: u32, reading: &mut Reading) -> Result<Term, Fail> {
    let x = next(reading)?;
    let y = next(reading)?;
    Ok(make_two(alloc, op, width_at(op, shown), x, y)?)
}

fn select(alloc: Global, width: u32, reading: &mut Reading) -> Result<Term, Fail> {
    let c = next(reading)?;
    let x = next(reading)?;
    let y = next(reading)?;
    Ok(make_sel(alloc, width, c, x, y)?)
}

// A comparison shows the width of its operands, and has one bit.
fn width_at(op: TwoOp, shown: u32) -> u32 {
    match op {
        TwoOp::Eq | TwoOp::Slt | TwoOp::Ult => 1,
        _ => shown,
    }
}

fn one_of(operation: &str) -> Option<(OneOp, &str)> {
    let names = [
        ("zext", OneOp::Zext),
        ("sext", OneOp::Sext),
        ("trunc", OneOp::Trunc),
        ("lshr", OneOp::Lshr),
        ("ashr", OneOp::Ashr),
    ];
    for (name, op) in names {
        if let Some(width) = operation.strip_prefix(name) {
            return Some((op, width));
        }
    }
    None
}

fn two_of(operation: &str) -> Option<(TwoOp, &str)> {
    let names = [
        ("add", TwoOp::Add),
        ("mul", TwoOp::Mul),
        ("and", TwoOp::And),
        ("or", TwoOp::Or),
        ("xor", TwoOp::Xor),
        ("smin", TwoOp::Smin),
        ("smax", TwoOp::Smax),
        ("umin", TwoOp::Umin),
        ("umax", TwoOp::Umax),
        ("eq", TwoOp::Eq),
        ("slt", TwoOp::Slt),
        ("ult", TwoOp::Ult),
        ("cat", TwoOp::Cat),
    ];
    for (name, op) in names {
        if let Some(width) = operation.strip_prefix(name) {
            return Some((op, width));
        }
    }
    None
}
