//! Descriptions and kernels by the texts of their terms, in which operands stand before their
//! operation: `p1.32` is 32 bits of the parameter 1 from bit 32 on, `b0.96` one bit, `l2` a load by the
//! number of its value, `c4` the value 4 that is not looked into, `7i32` a constant; `+`, `*` and `==`
//! take two terms, and `?` three. The matches of a kernel are told by its terms alone, so the kernels
//! have no units.

use std::alloc::{AllocError, Global};
use std::test::Fail;
use vg_base::{Items, Name};
use vg_shapes::{Description, Ssa};
use vg_terms::{LeafKey, Term, TwoOp, make_const, make_leaf, make_sel, make_two};

fn key(kind: u8, first: u32, second: i64, third: u32) -> LeafKey {
    LeafKey {
        kind,
        first,
        second,
        third,
    }
}

/// So many bits of a parameter.
fn bits(width: u32, place: &str) -> Result<Term, Fail> {
    let Some((parameter, low)) = place.split_once('.') else {
        return Err("a lowest bit is missing".into());
    };
    let (parameter, low) = (parameter.parse::<u32>()?, low.parse::<i64>()?);
    Ok(make_leaf(width, key(0, parameter, low, 0)))
}

/// A load, by the number of its value.
fn load(number: &str) -> Result<Term, Fail> {
    Ok(make_leaf(32, key(1, 0, 0, number.parse::<u32>()?)))
}

/// The leaf of a value that is not looked into.
fn cut(number: &str) -> Result<Term, Fail> {
    Ok(make_leaf(32, key(3, number.parse::<u32>()?, 0, 0)))
}

fn constant(word: &str) -> Result<Term, Fail> {
    let Some((value, width)) = word.split_once('i') else {
        return Err("a width is missing".into());
    };
    let (value, width) = (value.parse::<u128>()?, width.parse::<u32>()?);
    Ok(make_const(width, value))
}

fn leaf(word: &str) -> Result<Term, Fail> {
    if let Some(place) = word.strip_prefix('p') {
        return bits(32, place);
    }
    if let Some(place) = word.strip_prefix('b') {
        return bits(1, place);
    }
    if let Some(number) = word.strip_prefix('l') {
        return load(number);
    }
    match word.strip_prefix('c') {
        Some(number) => cut(number),
        None => constant(word),
    }
}

/// The last of the terms that were read.
fn last(read: &mut Vec<Term>) -> Result<Term, Fail> {
    match read.pop() {
        Some(term) => Ok(term),
        None => Err("a term is missing".into()),
    }
}

/// An operation of so many bits on the last two terms.
fn two(alloc: Global, op: TwoOp, width: u32, read: &mut Vec<Term>) -> Result<Term, Fail> {
    let y = last(read)?;
    let x = last(read)?;
    Ok(make_two(alloc, op, width, x, y)?)
}

/// The choice by the third last term between the last two.
fn choice(alloc: Global, read: &mut Vec<Term>) -> Result<Term, Fail> {
    let y = last(read)?;
    let x = last(read)?;
    let c = last(read)?;
    Ok(make_sel(alloc, 32, c, x, y)?)
}

fn next(alloc: Global, word: &str, read: &mut Vec<Term>) -> Result<Term, Fail> {
    match word {
        "+" => two(alloc, TwoOp::Add, 32, read),
        "*" => two(alloc, TwoOp::Mul, 32, read),
        "==" => two(alloc, TwoOp::Eq, 1, read),
        "?" => choice(alloc, read),
        _ => leaf(word),
    }
}

/// The term of a text.
pub fn term(alloc: Global, text: &str) -> Result<Term, Fail> {
    let mut read = Vec::new(alloc);
    for word in text.split_whitespace() {
        let term = next(alloc, word, &mut read)?;
        read.push(term)?;
    }
    last(&mut read)
}

/// The terms of texts with commas between them.
pub fn terms(alloc: Global, texts: &str) -> Result<Vec<Term>, Fail> {
    let mut terms = Vec::new(alloc);
    for text in texts.split(',') {
        terms.push(term(alloc, text)?)?;
    }
    Ok(terms)
}

/// A description of two parameters of 128 bits with these lanes of 32 bits.
fn description(alloc: Global, lanes: Vec<Term>) -> Result<Description, AllocError> {
    Ok(Description {
        name: Name::new(alloc, b"d")?,
        imm: None,
        cost: 1,
        params: Items::from_vec(vec![in alloc; 128, 128]?),
        register: 128,
        lane_width: 32,
        lanes: Items::from_vec(lanes),
    })
}

/// Each line is the lanes of a description.
pub fn descriptions(alloc: Global, rows: &str) -> Result<Vec<Description>, Fail> {
    let mut descriptions = Vec::new(alloc);
    for row in rows.trim().lines() {
        let lanes = terms(alloc, row)?;
        descriptions.push(description(alloc, lanes)?)?;
    }
    Ok(descriptions)
}

/// A kernel whose values have these terms.
pub fn kernel(alloc: Global, terms: Vec<Term>) -> Result<Ssa, AllocError> {
    Ok(Ssa {
        name: Name::new(alloc, b"k")?,
        params: Items::from_vec(Vec::new(alloc)),
        units: Items::from_vec(Vec::new(alloc)),
        terms: Items::from_vec(terms),
        cuts: Items::from_vec(Vec::new(alloc)),
    })
}
