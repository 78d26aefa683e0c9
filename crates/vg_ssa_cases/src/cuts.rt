//! The term of an operation has at most 128 nodes; past that its operands are cut.

use crate::numbered::{numbered, spell};
use std::alloc::Global;
use std::process::Abort;
use std::test::Fail;

fn push_sums(text: &mut String, words: u32) -> Result<(), Fail> {
    for i in 0..words {
        write!(
            text,
            " s{} = s{i} + load16(p + {});",
            i as u64 + 1,
            2 * i as u64
        )?;
    }
    Ok(())
}

// A sum of words, after what is given as its first part: `s1`, `s2` and so on have so many words
// more.
fn sum(alloc: Global, params: &str, first: &str, words: u32, last: &str) -> Result<String, Fail> {
    let mut text = format!(in alloc; "kernel sum({params}) {{ s0 = {first};")?;
    push_sums(&mut text, words)?;
    write!(text, "{last} }}")?;
    Ok(text)
}

// The number of values, and the number of nodes and the text of the last term.
#[derive(Drop)]
struct Last {
    values: usize,
    nodes: u64,
    text: Vec<u8>,
}

// That of the last value of a text.
fn last_of(alloc: Global, text: &str) -> Result<Last, Fail> {
    let ssa = numbered(alloc, text.as_bytes())?;
    let term = ssa.terms.as_slice().last().ok_or("no value")?;
    Ok(Last {
        values: ssa.units.as_slice().len(),
        nodes: term.node_count(),
        text: spell(alloc, &ssa, term)?,
    })
}

// Asserts that the last term of a sum after two bytes is cut to a sum with this text.
fn assert_cut(
    rt: &impl Abort,
    alloc: Global,
    params: &str,
    words: u32,
    end: &str,
    cut: &str,
) -> Result<(), Fail> {
    let first = "zext16(load8(p)) + zext16(load8(p + 1))";
    let text = sum(alloc, params, first, words, end)?;
    let last = last_of(alloc, text.as_str())?;
    assert!(rt; last.nodes == 3 && last.text.as_slice() == cut.as_bytes());
    Ok(())
}

#[test]
fn a_term_of_128_nodes_is_whole(rt: HostRuntime) -> Result<(), Fail> {
    let alloc = rt.alloc();
    let text = sum(alloc, "p: ptr", "zext16(load8(p))", 63, "")?;
    let last = last_of(alloc, text.as_str())?;
    assert!(rt; last.values == 128 && last.nodes == 128);
    Ok(())
}

#[test]
fn a_term_of_129_nodes_is_cut(rt: HostRuntime) -> Result<(), Fail> {
    assert_cut(&rt, rt.alloc(), "p: ptr", 62, "", "(add16 #126:16 #127:16)")
}

#[test]
fn an_integer_parameter_is_not_cut(rt: HostRuntime) -> Result<(), Fail> {
    let end = " t = s61 + a;";
    assert_cut(
        &rt,
        rt.alloc(),
        "p: ptr, a: i16",
        61,
        end,
        "(add16 a:16 #127:16)",
    )
}
