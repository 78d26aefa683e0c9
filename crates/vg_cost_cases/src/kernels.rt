//! Kernels by their units, and descriptions by their lanes.

use std::alloc::{AllocError, Global};
use vg_base::{Address, Items, Name, Width};
use vg_scalar::TwoOp as Sum;
use vg_shapes::{Description, Operands, Operator, Ssa, SsaParam, SsaParamKind, SsaUnit, Wanted};
use vg_terms::{LeafKey, Term, TwoOp, make_const, make_leaf, make_two};

/// A load of 32 bits at a pointer and an offset.
pub fn load(pointer: u32, offset: i32) -> SsaUnit {
    SsaUnit::Load {
        address: Address { pointer, offset },
        width: Width::W32,
    }
}

/// A store of 32 bits through pointer 0.
pub fn store(offset: i32, value: Wanted) -> SsaUnit {
    SsaUnit::Store {
        address: Address { pointer: 0, offset },
        width: Width::W32,
        value,
    }
}

/// A store of the value of this number.
pub fn store_value(offset: i32, value: u32) -> SsaUnit {
    store(offset, Wanted::Value(value))
}

/// A store of a number.
pub fn store_number(offset: i32, value: u128) -> SsaUnit {
    store(offset, Wanted::Constant { width: 32, value })
}

/// A sum of two values.
pub fn sum(first: u32, second: u32) -> SsaUnit {
    SsaUnit::Operation {
        op: Operator::Two(Sum::Add),
        width: Width::W32,
        amount: 0,
        operands: Operands {
            first: Wanted::Value(first),
            second: Wanted::Value(second),
            third: Wanted::Nothing,
        },
    }
}

fn push_params(
    alloc: Global,
    params: &mut Vec<SsaParam>,
    kinds: &[SsaParamKind],
) -> Result<(), AllocError> {
    for kind in kinds {
        let name = Name::new(alloc, b"x")?;
        params.push(SsaParam { name, kind: *kind })?;
    }
    Ok(())
}

/// A kernel of these units. It has three pointers, the last two noalias, and two integers, which
/// have the numbers 0 and 1, so that units are numbered from 2.
pub fn kernel(alloc: Global, units: &[SsaUnit], terms: Vec<Term>) -> Result<Ssa, AllocError> {
    let mut params = Vec::new(alloc);
    let kinds = [
        SsaParamKind::Pointer { noalias: false },
        SsaParamKind::Pointer { noalias: true },
        SsaParamKind::Pointer { noalias: true },
        SsaParamKind::Integer(Width::W32),
        SsaParamKind::Integer(Width::W32),
    ];
    push_params(alloc, &mut params, &kinds)?;
    Ok(Ssa {
        name: Name::new(alloc, b"k")?,
        params: Items::from_vec(params),
        units: Items::from_vec(units.to_vec(alloc)?),
        terms: Items::from_vec(terms),
        cuts: Items::from_vec(Vec::new(alloc)),
    })
}

/// The same where no lane of a description computes a value.
pub fn unmatched(alloc: Global, units: &[SsaUnit]) -> Result<Ssa, AllocError> {
    kernel(alloc, units, Vec::new(alloc))
}

/// Two loads beside each other, 2 and 4, each stored after it.
pub fn copied(alloc: Global) -> Result<Ssa, AllocError> {
    let units = [load(1, 0), store_value(0, 2), load(1, 4), store_value(4, 4)];
    unmatched(alloc, &units)
}

/// Loads 2 and 3 beside each other, and what they load stored by 4 and 5 the other way round.
pub fn turned(alloc: Global) -> Result<Ssa, AllocError> {
    let units = [load(1, 0), load(1, 4), store_value(0, 3), store_value(4, 2)];
    unmatched(alloc, &units)
}

/// The sums 4 and 7 of two loads each, and their stores.
pub fn summed(alloc: Global) -> Result<Ssa, AllocError> {
    let units = [
        load(1, 0),
        load(2, 0),
        sum(2, 3),
        load(1, 4),
        load(2, 4),
        sum(5, 6),
        store_value(0, 4),
        store_value(4, 7),
    ];
    let low = sum_of(alloc, value(2), value(3))?;
    let high = sum_of(alloc, value(5), value(6))?;
    let terms = vec![in alloc;
        value(0),
        value(1),
        value(2),
        value(3),
        low,
        value(5),
        value(6),
        high,
        none(),
        none(),
    ]?;
    kernel(alloc, &units, terms)
}

/// 32 bits of a parameter from a bit on.
pub fn leaf(parameter: u32, low: i64) -> Term {
    let key = LeafKey {
        kind: 0,
        first: parameter,
        second: low,
        third: 0,
    };
    make_leaf(32, key)
}

/// The value of this number, as a term.
pub fn value(number: u32) -> Term {
    let key = LeafKey {
        kind: 1,
        first: 0,
        second: 0,
        third: number,
    };
    make_leaf(32, key)
}

/// The sum of two terms.
pub fn sum_of(alloc: Global, x: Term, y: Term) -> Result<Term, AllocError> {
    make_two(alloc, TwoOp::Add, 32, x, y)
}

/// No bits.
pub fn none() -> Term {
    make_const(32, 0)
}

/// A description with these parameters and lanes of 32 bits, whose call costs so much.
pub fn description(
    alloc: Global,
    cost: u32,
    params: Vec<u32>,
    lanes: Vec<Term>,
) -> Result<Description, AllocError> {
    Ok(Description {
        name: Name::new(alloc, b"d")?,
        imm: None,
        cost,
        params: Items::from_vec(params),
        register: 128,
        lane_width: 32,
        lanes: Items::from_vec(lanes),
    })
}

/// A description that turns the two low lanes of its parameter round, and clears the rest.
fn turn(alloc: Global, cost: u32) -> Result<Description, AllocError> {
    let lanes = vec![in alloc; leaf(0, 32), leaf(0, 0), none(), none()]?;
    description(alloc, cost, vec![in alloc; 128]?, lanes)
}

/// Descriptions that turn lanes round, with these costs.
pub fn turns(alloc: Global, costs: &[u32]) -> Result<Vec<Description>, AllocError> {
    let mut descriptions = Vec::new(alloc);
    for cost in costs {
        descriptions.push(turn(alloc, *cost)?)?;
    }
    Ok(descriptions)
}

/// A description that adds the two low lanes of its parameters, and clears the rest.
pub fn add(alloc: Global, cost: u32) -> Result<Description, AllocError> {
    let low = sum_of(alloc, leaf(0, 0), leaf(1, 0))?;
    let high = sum_of(alloc, leaf(0, 32), leaf(1, 32))?;
    let lanes = vec![in alloc; low, high, none(), none()]?;
    description(alloc, cost, vec![in alloc; 128, 128]?, lanes)
}
