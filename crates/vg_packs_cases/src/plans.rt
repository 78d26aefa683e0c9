//! Plain plans, and packs that may stand in a plan alone.

use crate::shown::{numbered, shown};
use std::alloc::Global;
use std::test::Fail;
use vg_deps::depends;
use vg_packs::{compatible, dependences_are_earlier, plain_plan};
use vg_shapes::{Lanes, MatchTable, Pack, Plan};

// A kernel and its plain plan, where there are no instructions but loads and stores.
#[derive(Drop)]
struct Case {
    kernel: &'static str,
    plan: &'static str,
}

const APART: &str = "kernel apart(d: noalias ptr, p: ptr) {
    store32(d, load32(p)); store32(d + 4, load32(p + 4));
}";

const MIXED: &str = "kernel mixed(d: ptr, p: ptr) {
    store32(d, load32(p)); store32(d + 4, load32(p + 4));
}";

const CASES: [Case; 5] = [
    Case {
        kernel: APART,
        plan: "store 1 3\nload 0 2\n",
    },
    // The second load may read what the first store writes.
    Case {
        kernel: MIXED,
        plan: "",
    },
    Case {
        kernel: "kernel loads_first(d: ptr, p: ptr) {
            x = load32(p); y = load32(p + 4); store32(d, x); store32(d + 4, y);
        }",
        plan: "store 2 3\nload 0 1\n",
    },
    // The larger group takes the stores of the smaller ones.
    Case {
        kernel: "kernel four(d: noalias ptr, p: ptr) {
            store16(d, load16(p)); store16(d + 2, load16(p + 2));
            store16(d + 4, load16(p + 4)); store16(d + 6, load16(p + 6));
        }",
        plan: "store 1 3 5 7\nload 0 2 4 6\n",
    },
    // What is stored twice is no pack.
    Case {
        kernel: "kernel same(d: noalias ptr, p: ptr) {
            x = load32(p); store32(d, x); store32(d + 4, x);
        }",
        plan: "store 1 2\n",
    },
];

/// The plain plan of a kernel, as text.
fn plain(alloc: Global, text: &str) -> Result<String, Fail> {
    let ssa = numbered(alloc, text)?;
    let deps = depends(alloc, &ssa)?;
    let table = MatchTable::from_vec(Vec::new(alloc));
    dependences_are_earlier();
    let plan = plain_plan(alloc, &[], &table, &ssa, &deps)?;
    shown(alloc, plan.as_slice())
}

/// Whether a pack may stand in a plan of a kernel alone.
fn may_begin(alloc: Global, text: &str, pack: &Pack) -> Result<bool, Fail> {
    let ssa = numbered(alloc, text)?;
    let deps = depends(alloc, &ssa)?;
    let table = MatchTable::from_vec(Vec::new(alloc));
    let plan = Plan::from_vec(Vec::new(alloc));
    Ok(compatible(alloc, &plan, pack, &[], &table, &ssa, &deps)?)
}

fn has_plan(alloc: Global, case: &Case) -> Result<bool, Fail> {
    let text = plain(alloc, case.kernel)?;
    Ok(text.as_str() == case.plan)
}

#[test]
fn store_groups_come_first_and_larger_ones_before_smaller(rt: HostRuntime) -> Result<(), Fail> {
    for case in CASES.iter() {
        assert!(rt; has_plan(rt.alloc(), case)?, "{}", case.kernel);
    }
    Ok(())
}

// A kernel, a pair of its units, and whether the stores of these units may stand in a plan alone.
#[derive(Drop)]
struct Pair {
    kernel: &'static str,
    units: [u32; 2],
    may_begin: bool,
    why: &'static str,
}

const PAIRS: [Pair; 4] = [
    Pair {
        kernel: APART,
        units: [1, 3],
        may_begin: true,
        why: "a store group",
    },
    Pair {
        kernel: MIXED,
        units: [1, 3],
        may_begin: false,
        why: "it waits for itself",
    },
    Pair {
        kernel: APART,
        units: [3, 1],
        may_begin: false,
        why: "not beside each other in this order",
    },
    Pair {
        kernel: APART,
        units: [1, 4_000_000_000],
        may_begin: false,
        why: "there is no such unit",
    },
];

/// Whether the stores of a pair may stand in a plan of its kernel alone.
fn stores_may_begin(alloc: Global, pair: &Pair) -> Result<bool, Fail> {
    let stores = Pack::Stores(Lanes::from_slice(alloc, pair.units.as_slice())?);
    may_begin(alloc, pair.kernel, &stores)
}

#[test]
fn packs_that_wait_for_themselves_or_are_not_tried_are_refused(
    rt: HostRuntime,
) -> Result<(), Fail> {
    for pair in PAIRS.iter() {
        let may = stores_may_begin(rt.alloc(), pair)?;
        assert!(rt; may == pair.may_begin, "{}", pair.why);
    }
    Ok(())
}

#[test]
fn loads_that_nothing_takes_are_refused(rt: HostRuntime) -> Result<(), Fail> {
    let alloc = rt.alloc();
    let loads = Pack::Loads(Lanes::from_slice(alloc, &[0, 2])?);
    assert!(rt; !may_begin(alloc, APART, &loads)?);
    Ok(())
}
