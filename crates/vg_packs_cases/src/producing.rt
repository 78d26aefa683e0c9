//! The packs that produce operands.

ghost use Rattle.std.specs.Prelude.{◌≡◌, [], IfOk};
ghost use Rattle.vg_kernel_plans.specs.Taken.{MatchesNear};

use crate::shown::{numbered, shown};
use std::alloc::{AllocError, Global};
use std::process::Abort;
use std::test::Fail;
use vg_base::{Items, Name};
use vg_packs::producers;
use vg_shapes::{Description, Match, MatchTable, Operand, Slot, Wanted};

// A kernel, the values that an operand of 32-bit slots wants of it, and the loads that produce it.
#[derive(Drop)]
struct Case {
    kernel: &'static str,
    values: [u32; 2],
    producers: &'static str,
}

const COPY: &str =
    "kernel copy(d: ptr, p: ptr) { store32(d, load32(p)); store32(d + 4, load32(p + 4)); }";

const APART: &str =
    "kernel apart(d: ptr, p: ptr) { store32(d, load32(p)); store32(d + 4, load32(p + 8)); }";

const CASES: [Case; 4] = [
    Case {
        kernel: COPY,
        values: [0, 2],
        producers: "load 0 2\n",
    },
    Case {
        kernel: COPY,
        values: [2, 0],
        producers: "",
    },
    Case {
        kernel: COPY,
        values: [0, 0],
        producers: "",
    },
    Case {
        kernel: APART,
        values: [0, 2],
        producers: "",
    },
];

/// An operand of 128 bits that wants two values of 32 bits.
fn wanting(alloc: Global, first: u32, second: u32) -> Result<Operand, AllocError> {
    let slots = [
        Slot {
            low: 0,
            width: 32,
            wanted: Wanted::Value(first),
        },
        Slot {
            low: 32,
            width: 32,
            wanted: Wanted::Value(second),
        },
    ];
    Ok(Operand {
        register: 128,
        slots: Items::from_vec(Vec::from_slice(alloc, slots.as_slice())?),
    })
}

/// A description of two parameters of 128 bits and lanes of 32 bits.
fn description(alloc: Global, register: u32) -> Result<Description, AllocError> {
    Ok(Description {
        name: Name::new(alloc, b"d")?,
        imm: None,
        cost: 1,
        params: Items::from_vec(vec![in alloc; 128, 128]?),
        register,
        lane_width: 32,
        lanes: Items::from_vec(Vec::new(alloc)),
    })
}

/// A lane of a description that matches a value, without leaves.
fn matched(alloc: Global, description: u32, lane: u32, value: u32) -> Match
    ensures description { result.description ≡ description }
    ensures lane { result.lane ≡ lane }
    ensures value { result.value ≡ value }
    ensures bound { result.bound ≡ [] }
{
    Match {
        description,
        lane,
        value,
        bound: Items::from_vec(Vec::new(alloc)),
    }
}

/// The first two lanes of two descriptions match values 2 and 6.
fn table(alloc: Global) -> Result<MatchTable, AllocError>
    ensures near { IfOk result (λ table. MatchesNear table) }
{
    let matches = vec![in alloc;
        matched(alloc, 0, 0, 2),
        matched(alloc, 2, 0, 2),
        matched(alloc, 0, 1, 6),
        matched(alloc, 2, 1, 6),
    ]?;
    Ok(MatchTable::from_vec(matches))
}

/// The loads that produce two values of a kernel, as text.
fn loads_of(alloc: Global, kernel: &str, values: [u32; 2]) -> Result<String, Fail> {
    let ssa = numbered(alloc, kernel)?;
    let operand = wanting(alloc, values[0], values[1])?;
    let table = MatchTable::from_vec(Vec::new(alloc));
    let packs = producers(alloc, &operand, &[], &table, &ssa)?;
    shown(alloc, packs.as_slice())
}

fn has_producers(alloc: Global, case: &Case) -> Result<bool, Fail> {
    let text = loads_of(alloc, case.kernel, case.values)?;
    Ok(text.as_str() == case.producers)
}

#[test]
fn loads_beside_each_other_are_produced_in_their_order(rt: HostRuntime) -> Result<(), Fail> {
    for case in CASES.iter() {
        assert!(rt; has_producers(rt.alloc(), case)?, "{}", case.kernel);
    }
    Ok(())
}

/// So many descriptions with this register.
fn descriptions(alloc: Global, register: u32, count: u32) -> Result<Vec<Description>, AllocError> {
    let mut descriptions = Vec::new(alloc);
    for _ in 0..count {
        descriptions.push(description(alloc, register)?)?;
    }
    Ok(descriptions)
}

const SUMS: &str = "kernel sums(d: ptr, p: ptr, q: ptr) {
    store32(d, load32(p) + load32(q)); store32(d + 4, load32(p + 4) + load32(q + 4));
}";

/// The calls of descriptions that produce the two sums, as text.
fn calls_of(alloc: Global, descriptions: &[Description]) -> Result<String, Fail> {
    let ssa = numbered(alloc, SUMS)?;
    let operand = wanting(alloc, 2, 6)?;
    let table = table(alloc)?;
    let packs = producers(alloc, &operand, descriptions, &table, &ssa)?;
    shown(alloc, packs.as_slice())
}

fn check_calls(
    rt: &impl Abort,
    alloc: Global,
    register: u32,
    count: u32,
    wanted: &str,
) -> Result<(), Fail> {
    let descriptions = descriptions(alloc, register, count)?;
    let text = calls_of(alloc, descriptions.as_slice())?;
    assert!(rt; text.as_str() == wanted, "registers of {register} bits");
    Ok(())
}

#[test]
fn calls_are_produced_in_the_order_of_their_instances(rt: HostRuntime) -> Result<(), Fail> {
    let narrow = "call 0: 2 6 _ _\ncall 2: 2 6 _ _\n";
    check_calls(&rt, rt.alloc(), 128, 3, narrow)?;
    check_calls(&rt, rt.alloc(), 256, 1, "")
}
