//! The matches of a kernel whose values have cut terms.

use crate::shown::shown;
use crate::terms::{descriptions, term};
use std::alloc::{AllocError, Global};
use std::test::Fail;
use vg_base::{Address, Items, Name, Width};
use vg_match::build;
use vg_shapes::{Operands, Operator, Ssa, SsaUnit, Wanted};
use vg_terms::Term;

/// Values that are being numbered: their units, terms and cut terms.
#[derive(Drop)]
struct Values {
    units: Vec<SsaUnit>,
    terms: Vec<Term>,
    cuts: Vec<Term>,
}

/// A place in memory; the matches of a kernel do not tell places apart.
const PLACE: Address = Address {
    pointer: 0,
    offset: 0,
};

/// A load of 32 bits.
const LOAD: SsaUnit = SsaUnit::Load {
    address: PLACE,
    width: Width::W32,
};

/// An operation. The matches of a kernel do not tell what it does, as terms do.
const OPERATION: SsaUnit = SsaUnit::Operation {
    op: Operator::Select,
    width: Width::W32,
    amount: 0,
    operands: Operands {
        first: Wanted::Nothing,
        second: Wanted::Nothing,
        third: Wanted::Nothing,
    },
};

/// A store of a value.
fn store(value: u32) -> SsaUnit {
    SsaUnit::Store {
        address: PLACE,
        width: Width::W32,
        value: Wanted::Value(value),
    }
}

/// `load`, `store` and the number of a value, or another word for an operation.
fn unit(words: &str) -> Result<SsaUnit, Fail> {
    match words.strip_prefix("store ") {
        Some(value) => Ok(store(value.parse::<u32>()?)),
        None => Ok(if words == "load" { LOAD } else { OPERATION }),
    }
}

/// The three columns of a row, which arrows stand between.
fn columns(row: &str) -> Result<(&str, &str, &str), Fail> {
    let Some((first, behind)) = row.trim().split_once(" => ") else {
        return Err("a term is missing".into());
    };
    match behind.split_once(" => ") {
        Some((second, third)) => Ok((first, second, third)),
        None => Err("a cut term is missing".into()),
    }
}

impl Values {
    fn push(&mut self, unit: SsaUnit, term: Term, cut: Term) -> Result<(), AllocError> {
        self.units.push(unit)?;
        self.terms.push(term)?;
        self.cuts.push(cut)?;
        Ok(())
    }

    /// A row is a unit, its term and its cut term.
    fn push_row(&mut self, alloc: Global, row: &str) -> Result<(), Fail> {
        let (words, whole, cut) = columns(row)?;
        let unit = unit(words)?;
        let whole = term(alloc, whole)?;
        let cut = term(alloc, cut)?;
        Ok(self.push(unit, whole, cut)?)
    }
}

/// Values 0 to 3 are loads, 4 to 6 the sums of two and two and their sum, 7 the first sum again, and
/// 8 a product of it. 9 is 7 less a load, and 10 a store of it. 11 and 12 are sums of which one part
/// is the store, or a later value, which is 13. 14 is whether two loads are equal, and 15 a selection
/// by it. The kernel has no load 90 and 91, so that their sum fits no lane whole.
const VALUES: &str = "
    load => l0 => l0
    load => l1 => l1
    load => l2 => l2
    load => l3 => l3
    sum => l0 l1 + => c0 c1 +
    sum => l2 l3 + => c2 c3 +
    sum => l0 l1 + l2 + l3 + => c4 c5 +
    sum => l0 l1 + => c0 c1 +
    product => l0 l1 + l2 * => c7 c2 *
    difference => l0 4294967295i32 * 7i32 + => c0 4294967295i32 * 7i32 +
    store 9 => 0i8 => 0i8
    sum => l90 l91 + => c10 c0 +
    sum => l90 l91 + => c13 c0 +
    product => l90 l91 + => c0 c0 *
    comparison => l0 l1 == => c0 c1 ==
    selection => l90 l91 + => c0 c1 == c2 c3 ?
";

fn all_values(alloc: Global) -> Result<Values, Fail> {
    let mut values = Values {
        units: Vec::new(alloc),
        terms: Vec::new(alloc),
        cuts: Vec::new(alloc),
    };
    for row in VALUES.trim().lines() {
        values.push_row(alloc, row)?;
    }
    Ok(values)
}

fn kernel(alloc: Global, values: Values, is_wide: bool) -> Result<Ssa, AllocError> {
    let Values { units, terms, cuts } = values;
    let cuts = if is_wide { cuts } else { Vec::new(alloc) };
    Ok(Ssa {
        name: Name::new(alloc, b"k")?,
        params: Items::from_vec(Vec::new(alloc)),
        units: Items::from_vec(units),
        terms: Items::from_vec(terms),
        cuts: Items::from_vec(cuts),
    })
}

/// Lanes: a sum, a product, a difference, a selection by a bit, a selection by a comparison.
const LANES: &str = "p0.0 p1.0 +, \
    p0.0 p1.0 *, \
    p0.0 p1.0 4294967295i32 * +, \
    b0.96 p0.0 p1.0 ?, \
    p0.0 p1.0 == p0.32 p1.32 ?";

fn matches(alloc: Global, is_wide: bool) -> Result<String, Fail> {
    let descriptions = descriptions(alloc, LANES)?;
    let ssa = kernel(alloc, all_values(alloc)?, is_wide)?;
    let table = build(alloc, descriptions.as_slice(), &ssa)?;
    Ok(shown(alloc, table.as_slice())?)
}

#[test]
fn lanes_fit_whole_else_cut_else_turned(rt: HostRuntime) -> Result<(), Fail> {
    let alloc = rt.alloc();
    // A sum of sums fits cut (6). A product whose part is made twice fits whole, and is bound to the
    // first (8). 7 less a value fits a difference turned (9). No leaf is bound to a store or to a
    // later value (11, 12). A comparison is written out, and has its term for its name (15).
    let expected = "0.0 v4 0.0=v0 1.0=v1
0.0 v5 0.0=v2 1.0=v3
0.0 v6 0.0=v4 1.0=v5
0.0 v7 0.0=v0 1.0=v1
0.1 v8 0.0=v4 1.0=v2
0.2 v9 0.0=7i32 1.0=v0
0.1 v13 0.0=v0 1.0=v0
0.3 v15 0.96=v14 0.0=v2 1.0=v3
0.4 v15 0.0=v0 1.0=v1 0.32=v2 1.32=v3
";
    let text = matches(alloc, true)?;
    assert!(rt; text.as_str() == expected);
    Ok(())
}

#[test]
fn without_cut_terms_lanes_fit_whole(rt: HostRuntime) -> Result<(), Fail> {
    let alloc = rt.alloc();
    let expected = "0.0 v4 0.0=v0 1.0=v1
0.0 v5 0.0=v2 1.0=v3
0.0 v7 0.0=v0 1.0=v1
0.1 v8 0.0=v4 1.0=v2
";
    let text = matches(alloc, false)?;
    assert!(rt; text.as_str() == expected);
    Ok(())
}
