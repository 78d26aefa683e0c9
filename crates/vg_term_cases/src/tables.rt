//! What the tables of cases are compared with, a row at a time.

ghost use Rattle.std.specs.Prelude.{IfOk};
ghost use Rattle.vg_terms.specs.Term.{WellFormed, tree};

use crate::reader::read;
use std::alloc::{AllocError, Global};
use std::cmp::Ordering;
use std::process::Abort;
use std::test::Fail;
use vg_base::{Items, Name};
use vg_canon::canon;
use vg_terms::{Env, Names, Rule, Term, print_term};

fn list(alloc: Global, names: &[&[u8]]) -> Result<Items<Name>, AllocError> {
    let mut list = Vec::new(alloc);
    for name in names {
        list.push(Name::new(alloc, name)?)?;
    }
    Ok(Items::from_vec(list))
}

// The names that the reader knows.
fn names(alloc: Global) -> Result<Names, AllocError> {
    Ok(Names {
        params: list(alloc, &[b"a", b"b", b"c", b"d"])?,
        pointers: list(alloc, &[b"p"])?,
        arguments: list(alloc, &[b"n"])?,
    })
}

/// The text of a term.
pub fn spell(alloc: Global, t: &Term) -> Result<Vec<u8>, AllocError> {
    let names = names(alloc)?;
    let mut text = Vec::new(alloc);
    print_term(alloc, t, &names, &mut text)?;
    Ok(text)
}

/// The term has this text.
pub fn assert_text(rt: &impl Abort, alloc: Global, t: &Term, want: &str) -> Result<(), Fail> {
    let text = spell(alloc, t)?;
    assert!(rt; text.as_slice() == want.as_bytes(), "{want}");
    Ok(())
}

/// The term of a text, which keeps the rules of widths.
pub fn read_formed(rt: &impl Abort, alloc: Global, text: &str) -> Result<Term, Fail>
    ensures { IfOk result (λ t. WellFormed (tree t)) }
{
    let t = read(alloc, text)?;
    assert!(rt; t.is_well_formed(), "{text}");
    Ok(t)
}

// The canonical form of a copy of the term, which is that term.
fn form_of(rt: &impl Abort, alloc: Global, t: &Term) -> Result<Term, AllocError> {
    let again = t.copy(alloc)?;
    assert!(rt; again.is_well_formed() && matches!(again.key_cmp(t), Ordering::Equal));
    canon(alloc, again)
}

/// The term is copied, its canonical form is got, and that is its own canonical form.
pub fn assert_settles(rt: &impl Abort, alloc: Global, t: &Term) -> Result<Term, AllocError> {
    let once = form_of(rt, alloc, t)?;
    let twice = form_of(rt, alloc, &once)?;
    assert!(rt; matches!(twice.key_cmp(&once), Ordering::Equal));
    assert!(rt; once.weight() <= t.weight());
    Ok(once)
}

/// The two columns of a row, which an arrow stands between.
pub fn columns(row: &str) -> Result<(&str, &str), Fail> {
    match row.trim().split_once(" => ") {
        Some(columns) => Ok(columns),
        None => Err("a row has no arrow".into()),
    }
}

/// Each line is a term, an arrow, and what the first rule that applies makes of the term; `none`
/// where none does. Each term has a canonical form too, and its text again.
pub fn assert_steps<R: Rule>(
    rt: &impl Abort,
    alloc: Global,
    rule: &R,
    rows: &str,
) -> Result<(), Fail> {
    for row in rows.trim().lines() {
        assert_step(rt, alloc, rule, row)?;
    }
    Ok(())
}

fn assert_step<R: Rule>(rt: &impl Abort, alloc: Global, rule: &R, row: &str) -> Result<(), Fail> {
    let (text, want) = columns(row)?;
    assert_form_and_text(rt, alloc, text)?;
    assert_applied(rt, alloc, rule, read_formed(rt, alloc, text)?, want)
}

// The term has a canonical form, and its text again.
fn assert_form_and_text(rt: &impl Abort, alloc: Global, text: &str) -> Result<(), Fail> {
    let t = read_formed(rt, alloc, text)?;
    assert_settles(rt, alloc, &t)?;
    assert_text(rt, alloc, &t, text)
}

// What the rule makes of the term has this text; `none` where it does not apply.
fn assert_applied<R: Rule>(
    rt: &impl Abort,
    alloc: Global,
    rule: &R,
    t: Term,
    want: &str,
) -> Result<(), Fail>
    requires { WellFormed (tree t) }
{
    if rule.applies(&t) {
        let made = rule.apply(alloc, t)?;
        return assert_text(rt, alloc, &made, want);
    }
    assert!(rt; want == "none", "{want}");
    Ok(())
}

/// What the rows of a table tell.
#[derive(Clone, Copy)]
pub enum Told {
    /// The text of a term.
    Text,
    /// A term that breaks the rules of widths.
    IllFormed,
    /// A term, an arrow and its canonical form.
    Form,
    /// A term, an arrow, and the bits that its number needs, read unsigned and signed.
    Known,
    /// A term, an arrow, its weight, and how many of its subterms can be put in order.
    Measures,
    /// A term, an arrow, and a term that is after it.
    Next,
}

/// Each line is a row that tells this.
pub fn assert_rows(rt: &impl Abort, alloc: Global, told: Told, rows: &str) -> Result<(), Fail> {
    for row in rows.trim().lines() {
        assert_row(rt, alloc, told, row.trim())?;
    }
    Ok(())
}

fn assert_row(rt: &impl Abort, alloc: Global, told: Told, row: &str) -> Result<(), Fail> {
    match told {
        Told::Text => assert_read_back(rt, alloc, row),
        Told::IllFormed => assert_ill_formed(rt, alloc, row),
        _ => assert_columns(rt, alloc, told, row),
    }
}

fn assert_columns(rt: &impl Abort, alloc: Global, told: Told, row: &str) -> Result<(), Fail> {
    let (text, want) = columns(row)?;
    match told {
        Told::Known => assert_known(rt, alloc, text, want),
        Told::Measures => assert_measures(rt, alloc, text, want),
        Told::Next => assert_rising(rt, alloc, text, want),
        _ => assert_form(rt, alloc, text, want),
    }
}

fn assert_read_back(rt: &impl Abort, alloc: Global, text: &str) -> Result<(), Fail> {
    let t = read_formed(rt, alloc, text)?;
    let again = t.copy(alloc)?;
    assert_text(rt, alloc, &again, text)
}

fn assert_ill_formed(rt: &impl Abort, alloc: Global, text: &str) -> Result<(), Fail> {
    let t = read(alloc, text)?;
    assert!(rt; !t.is_well_formed(), "{text}");
    Ok(())
}

fn assert_form(rt: &impl Abort, alloc: Global, text: &str, want: &str) -> Result<(), Fail> {
    let t = read_formed(rt, alloc, text)?;
    let form = assert_settles(rt, alloc, &t)?;
    assert_text(rt, alloc, &form, want)
}

// The two numbers after a row's arrow.
fn numbers(words: &str) -> Result<(u64, u64), Fail> {
    match words.split_once(' ') {
        Some((first, second)) => Ok((first.parse::<u64>()?, second.parse::<u64>()?)),
        None => Err("a number is missing".into()),
    }
}

fn assert_known(rt: &impl Abort, alloc: Global, text: &str, want: &str) -> Result<(), Fail> {
    let want = numbers(want)?;
    let t = read_formed(rt, alloc, text)?;
    let (unsigned, signed) = t.known();
    assert!(rt; (u64::from(unsigned), u64::from(signed)) == want, "{text}");
    Ok(())
}

fn assert_measures(rt: &impl Abort, alloc: Global, text: &str, want: &str) -> Result<(), Fail> {
    let want = numbers(want)?;
    let t = read(alloc, text)?;
    assert!(rt; (t.weight(), t.disorder()) == want, "{text}");
    Ok(())
}

fn is_before(lesser: &Term, greater: &Term) -> bool {
    lesser.key_cmp(greater) == Ordering::Less
        && greater.key_cmp(lesser) == Ordering::Greater
        && lesser.key_cmp(lesser) == Ordering::Equal
}

fn assert_rising(rt: &impl Abort, alloc: Global, text: &str, next: &str) -> Result<(), Fail> {
    let lesser = read(alloc, text)?;
    let greater = read(alloc, next)?;
    assert!(rt; is_before(&lesser, &greater), "{text}");
    Ok(())
}

/// Each line is a term, an arrow and its value in the environment.
pub fn assert_values(rt: &impl Abort, alloc: Global, env: &Env, rows: &str) -> Result<(), Fail> {
    for row in rows.trim().lines() {
        assert_value(rt, alloc, env, row)?;
    }
    Ok(())
}

fn assert_value(rt: &impl Abort, alloc: Global, env: &Env, row: &str) -> Result<(), Fail> {
    let (text, want) = columns(row)?;
    let want = want.parse::<u128>()?;
    let t = read_formed(rt, alloc, text)?;
    assert!(rt; t.value(env) == want, "{row}");
    Ok(())
}
