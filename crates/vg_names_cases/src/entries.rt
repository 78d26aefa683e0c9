//! Operations of an entry with the parameters `a`, of unsigned lanes, and `b`, of signed ones,
//! and the immediate `imm8`. An `@` marks the place of a fault, and is no part of the text.

use std::alloc::{AllocError, Global};
use std::process::Abort;
use std::test::Fail;
use vg_base::{Items, Name};
use vg_names::{NameFault, Resolved, resolve};
use vg_pseudo::{Header, ImmRange, Operation, Param, parse_operation};
use vg_text::Lexer;
use vg_text::place::{Place, place_after};

fn param(alloc: Global, name: &[u8], is_signed: bool) -> Result<Param, AllocError> {
    Ok(Param {
        name: Name::new(alloc, name)?,
        register: 128,
        lane_width: 32,
        is_signed,
    })
}

fn params(alloc: Global) -> Result<Vec<Param>, AllocError> {
    Ok(vec![in alloc; param(alloc, b"a", false)?, param(alloc, b"b", true)?]?)
}

fn immediate(alloc: Global) -> Result<ImmRange, AllocError> {
    Ok(ImmRange {
        name: Name::new(alloc, b"imm8")?,
        lo: 0,
        hi: 255,
    })
}

fn header(alloc: Global) -> Result<Header, AllocError> {
    Ok(Header {
        name: Name::new(alloc, b"_mm_of_a_case")?,
        params: Items::from_vec(params(alloc)?),
        imm: Some(immediate(alloc)?),
        register: 128,
        lane_width: 32,
        extension: 0,
        cost: 1,
    })
}

fn operation(rt: &impl Abort, alloc: Global, text: &[u8]) -> Result<Operation, Fail> {
    assert!(rt; text.len() <= 1_000_000);
    match parse_operation(alloc, &mut Lexer::new(text)) {
        Ok(operation) => Ok(operation),
        Err(_) => Err("a text of an operation is refused".into()),
    }
}

/// What the names of an operation are.
fn names_of(
    rt: &impl Abort,
    alloc: Global,
    text: &[u8],
) -> Result<Result<Resolved, NameFault>, Fail> {
    let operation = operation(rt, alloc, text)?;
    let header = header(alloc)?;
    Ok(resolve(alloc, &header, &operation))
}

/// An operation whose names are known.
pub fn resolved(rt: &impl Abort, alloc: Global, text: &str) -> Result<Resolved, Fail> {
    match names_of(rt, alloc, text.as_bytes())? {
        Ok(resolved) => Ok(resolved),
        Err(_) => Err("a name is refused".into()),
    }
}

/// The number and the place of a fault.
fn told(fault: NameFault) -> Option<(u32, Place)> {
    match fault {
        NameFault::UnknownName { place } => Some((4, place)),
        NameFault::BareRegister { place } => Some((11, place)),
        NameFault::Memory(_) => None,
    }
}

/// The number and the place of the fault of the names of an operation.
fn fault_of(rt: &impl Abort, alloc: Global, text: &[u8]) -> Result<Option<(u32, Place)>, Fail> {
    match names_of(rt, alloc, text)? {
        Ok(_) => Err("names that are not known are found".into()),
        Err(fault) => Ok(told(fault)),
    }
}

/// The text without its `@`, and the place of that.
fn unmarked(rt: &impl Abort, alloc: Global, marked: &[u8]) -> Result<(Vec<u8>, Place), Fail> {
    assert!(rt; marked.len() <= 1_000_000);
    let Some(at) = marked.iter().position(|byte| *byte == b'@') else {
        return Err("a mark is missing".into());
    };
    assert!(rt; at < marked.len());
    let (front, behind) = marked.split_at(at);
    let mut text = Vec::from_slice(alloc, front)?;
    text.extend_from_slice(&behind[1..])?;
    Ok((text, place_after(Place { line: 1, column: 1 }, front)))
}

/// Asserts that the text without its `@` is refused with this number at the place of the `@`.
pub fn refuse(rt: &impl Abort, alloc: Global, number: u32, marked: &str) -> Result<(), Fail> {
    let (text, place) = unmarked(rt, alloc, marked.as_bytes())?;
    let fault = fault_of(rt, alloc, text.as_slice())?;
    assert!(rt; fault == Some((number, place)), "{marked}");
    Ok(())
}

/// Asserts that each line, which has an `@`, is refused with this number.
pub fn refuse_all(rt: &impl Abort, alloc: Global, number: u32, texts: &str) -> Result<(), Fail> {
    for text in texts.trim().lines() {
        refuse(rt, alloc, number, text.trim())?;
    }
    Ok(())
}
