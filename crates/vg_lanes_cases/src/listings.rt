//! The lines on instances.

use crate::terms::{cut, extended, leaf, number, pair};
use std::alloc::{AllocError, Global};
use std::process::Abort;
use std::test::Fail;
use vg_base::{Items, Name};
use vg_lanes::{Described, are_lanes, describe, list_instance};
use vg_pseudo::{Header, ImmRange, Param};
use vg_shapes::Lane;
use vg_terms::{Names, OneOp, Term, TwoOp, print_term};

/// A parameter of 128 bits.
fn param(alloc: Global, name: &str, lane_width: u32) -> Result<Param, AllocError> {
    Ok(Param {
        name: Name::new(alloc, name.as_bytes())?,
        register: 128,
        lane_width,
        is_signed: true,
    })
}

/// An entry with two parameters and a result of 128 bits.
fn header(alloc: Global, name: &str, lane_width: u32) -> Result<Header, AllocError> {
    let first = param(alloc, "a", lane_width)?;
    let second = param(alloc, "b", lane_width)?;
    Ok(Header {
        name: Name::new(alloc, name.as_bytes())?,
        params: Items::from_vec(vec![in alloc; first, second]?),
        imm: None,
        register: 128,
        lane_width,
        extension: 0,
        cost: 1,
    })
}

/// The product of two signed numbers of 32 bits in 64 bits.
fn product(alloc: Global, low: i64) -> Result<Lane, AllocError> {
    let x = extended(alloc, OneOp::Sext, leaf(0, low, 32))?;
    let y = extended(alloc, OneOp::Sext, leaf(1, low, 32))?;
    let whole = pair(alloc, TwoOp::Mul, x, y)?;
    Ok(Lane::Tree(cut(alloc, 64, whole)?))
}

/// A number that is read without its sign, in a lane of 64 bits.
fn widened(alloc: Global, low: i64, width: u32) -> Result<Lane, AllocError> {
    let x = extended(alloc, OneOp::Zext, leaf(0, low, width))?;
    Ok(Lane::Tree(cut(alloc, 64, x)?))
}

/// The lines on an instance with two lanes of 64 bits.
fn listed(alloc: Global, header: &Header, imm: u8, lanes: Vec<Lane>) -> Result<Vec<u8>, Fail> {
    if !are_lanes(header, lanes.as_slice()) {
        return Err("they may be lanes".into());
    }
    let mut text = Vec::new(alloc);
    list_instance(alloc, header, imm, lanes, &mut text)?;
    Ok(text)
}

/// The lane of a word: `large`, `dynamic`, `product:LOW`, or `LOW:WIDTH` of a number that is widened.
fn lane_of(alloc: Global, word: &str) -> Result<Lane, Fail> {
    match word.split_once(':') {
        Some(("product", low)) => Ok(product(alloc, low.parse::<i64>()?)?),
        Some((low, width)) => Ok(widened(alloc, low.parse::<i64>()?, width.parse::<u32>()?)?),
        None if word == "large" => Ok(Lane::Big),
        None => Ok(Lane::Dynamic),
    }
}

/// The lanes of words.
fn lanes_of(alloc: Global, words: &str) -> Result<Vec<Lane>, Fail> {
    let mut lanes = Vec::new(alloc);
    for word in words.split(' ') {
        lanes.push(lane_of(alloc, word)?)?;
    }
    Ok(lanes)
}

/// Asserts the lines on an instance with the lanes of these words.
fn expect_lines(
    rt: &impl Abort,
    alloc: Global,
    header: &Header,
    imm: u8,
    words: &str,
    lines: &str,
) -> Result<(), Fail> {
    let lanes = lanes_of(alloc, words)?;
    let text = listed(alloc, header, imm, lanes)?;
    assert!(rt; text.as_slice() == lines.as_bytes());
    Ok(())
}

/// Asserts the lines on an entry of this name without an immediate.
fn expect_listed(
    rt: &impl Abort,
    alloc: Global,
    name: &str,
    words: &str,
    lines: &str,
) -> Result<(), Fail> {
    let header = header(alloc, name, 64)?;
    expect_lines(rt, alloc, &header, 0, words, lines)
}

#[test]
fn products_of_double_words(rt: HostRuntime) -> Result<(), Fail> {
    let expected = "instruction _mm_mul_epi32
lane 0 (mul64 (sext64 a.0:32) (sext64 b.0:32))
lane 1 (mul64 (sext64 a.64:32) (sext64 b.64:32))
";
    expect_listed(
        &rt,
        rt.alloc(),
        "_mm_mul_epi32",
        "product:0 product:64",
        expected,
    )
}

#[test]
fn bytes_and_words_of_one_parameter_are_mixed(rt: HostRuntime) -> Result<(), Fail> {
    let expected = "instruction x
lane 0 (zext64 a.0:16)
lane 1 (zext64 a.0:8)
not packable MixedInput
";
    expect_listed(&rt, rt.alloc(), "x", "0:16 0:8", expected)
}

#[test]
fn a_word_at_an_odd_byte_is_an_odd_leaf(rt: HostRuntime) -> Result<(), Fail> {
    let expected = "instruction x
lane 0 (zext64 a.8:16)
lane 1 (zext64 a.0:16)
not packable OddLeaf
";
    expect_listed(&rt, rt.alloc(), "x", "8:16 0:16", expected)
}

#[test]
fn a_large_lane_comes_before_odd_leaves(rt: HostRuntime) -> Result<(), Fail> {
    let expected = "instruction x
lane 0 too large
lane 1 (zext64 a.64:7)
not packable TooLarge
";
    expect_listed(&rt, rt.alloc(), "x", "large 64:7", expected)
}

/// An entry with an immediate from 0 to 9.
fn header_with_imm(alloc: Global, name: &str) -> Result<Header, AllocError> {
    let range = ImmRange {
        name: Name::new(alloc, b"k")?,
        lo: 0,
        hi: 9,
    };
    let mut header = header(alloc, name, 64)?;
    header.imm = Some(range);
    Ok(header)
}

#[test]
fn lanes_of_an_instance_that_goes_by_data(rt: HostRuntime) -> Result<(), Fail> {
    let header = header_with_imm(rt.alloc(), "y")?;
    let expected = "instruction y imm 7
lane 0 dynamic
lane 1 dynamic
not packable Dynamic
";
    expect_lines(&rt, rt.alloc(), &header, 7, "dynamic dynamic", expected)
}

/// The average of two bytes, rounded up.
fn average(alloc: Global, low: i64) -> Result<Lane, AllocError> {
    let x = extended(alloc, OneOp::Zext, leaf(0, low, 8))?;
    let y = extended(alloc, OneOp::Zext, leaf(1, low, 8))?;
    let sum = pair(alloc, TwoOp::Add, x, y)?;
    let more = pair(alloc, TwoOp::Add, sum, number(1))?;
    let half = vg_terms::make_one(alloc, OneOp::Ashr, 128, 1, more)?;
    Ok(Lane::Tree(cut(alloc, 8, half)?))
}

/// Sixteen of them.
fn averages(alloc: Global) -> Result<Vec<Lane>, AllocError> {
    let mut lanes = Vec::new(alloc);
    for lane in 0..16u32 {
        lanes.push(average(alloc, i64::from(lane) * 8)?)?;
    }
    Ok(lanes)
}

/// What becomes of an instance with these lanes.
fn described(alloc: Global, header: &Header, lanes: Vec<Lane>) -> Result<Described, Fail> {
    if !are_lanes(header, lanes.as_slice()) {
        return Err("they may be lanes".into());
    }
    Ok(describe(alloc, header, 0, lanes)?)
}

/// The term of a lane of what packs may call.
fn described_lane(described: &Described, lane: usize) -> Option<&Term> {
    match described {
        Described::Packable(description) => description.lanes.as_slice().get(lane),
        Described::NotPackable { .. } => None,
    }
}

/// The names of two parameters.
fn names_of_two(alloc: Global) -> Result<Names, AllocError> {
    let first = Name::new(alloc, b"a")?;
    let second = Name::new(alloc, b"b")?;
    Ok(Names {
        params: Items::from_vec(vec![in alloc; first, second]?),
        pointers: Items::from_vec(Vec::new(alloc)),
        arguments: Items::from_vec(Vec::new(alloc)),
    })
}

/// A term of these parameters as it is printed.
fn printed(alloc: Global, term: &Term) -> Result<Vec<u8>, AllocError> {
    let names = names_of_two(alloc)?;
    let mut text = Vec::new(alloc);
    print_term(alloc, term, &names, &mut text)?;
    Ok(text)
}

#[test]
fn averages_of_bytes_are_packable(rt: HostRuntime) -> Result<(), Fail> {
    let header = header(rt.alloc(), "_mm_avg_epu8", 8)?;
    let described = described(rt.alloc(), &header, averages(rt.alloc())?)?;
    let Some(term) = described_lane(&described, 15) else {
        return Err("packs may call it".into());
    };
    let text = printed(rt.alloc(), term)?;
    let expected = "(trunc8 (lshr9 (add9 (add9 (zext9 a.120:8) (zext9 b.120:8)) 1:9) 1))";
    assert!(rt; text.as_slice() == expected.as_bytes());
    Ok(())
}
