//! The store groups of small kernels.

use crate::shown::{numbered, shown};
use std::alloc::Global;
use std::test::Fail;
use vg_packs::store_groups;

// A kernel, and its store groups.
#[derive(Drop)]
struct Case {
    kernel: &'static str,
    groups: &'static str,
}

const CASES: [Case; 9] = [
    Case {
        kernel: "kernel two(d: ptr, p: ptr) { store32(d, load32(p)); store32(d + 4, load32(p + 4)); }",
        groups: "store 1 3\n",
    },
    Case {
        kernel: "kernel turned(d: ptr, p: ptr) { store32(d + 4, load32(p)); store32(d, load32(p + 4)); }",
        groups: "store 3 1\n",
    },
    Case {
        kernel: "kernel four(d: ptr, x: i16) { store16(d, x); store16(d + 2, x); store16(d + 4, x); store16(d + 6, x); }",
        groups: "store 1 2 3 4\nstore 1 2\nstore 2 3\nstore 3 4\n",
    },
    Case {
        kernel: "kernel eight(d: ptr, x: i64) {
            store64(d, x); store64(d + 8, x); store64(d + 16, x); store64(d + 24, x);
            store64(d + 32, x); store64(d + 40, x); store64(d + 48, x); store64(d + 56, x);
        }",
        groups: "store 1 2 3 4 5 6 7 8
store 1 2 3 4
store 2 3 4 5
store 3 4 5 6
store 4 5 6 7
store 5 6 7 8
store 1 2
store 2 3
store 3 4
store 4 5
store 5 6
store 6 7
store 7 8
",
    },
    Case {
        kernel: "kernel twice(d: ptr, x: i32) { store32(d, x); store32(d + 4, x); store32(d, x); store32(d + 4, x); }",
        groups: "store 1 2\nstore 3 4\n",
    },
    Case {
        kernel: "kernel once(d: ptr, x: i32) { store32(d, x); store32(d, x); store32(d + 4, x); }",
        groups: "store 1 3\n",
    },
    Case {
        kernel: "kernel gap(d: ptr, x: i32) { store32(d, x); store32(d + 8, x); }",
        groups: "",
    },
    Case {
        kernel: "kernel widths(d: ptr, x: i32, y: i16) { store32(d, x); store16(d + 4, y); }",
        groups: "",
    },
    Case {
        kernel: "kernel places(d: ptr, p: ptr, x: i32) { store32(d, x); store32(p + 4, x); }",
        groups: "",
    },
];

fn groups_of(alloc: Global, kernel: &str) -> Result<String, Fail> {
    let ssa = numbered(alloc, kernel)?;
    let groups = store_groups(alloc, &ssa)?;
    shown(alloc, groups.as_slice())
}

fn has_groups(alloc: Global, case: &Case) -> Result<bool, Fail> {
    let text = groups_of(alloc, case.kernel)?;
    Ok(text.as_str() == case.groups)
}

#[test]
fn store_groups_stand_by_size_and_first_unit(rt: HostRuntime) -> Result<(), Fail> {
    for case in CASES.iter() {
        assert!(rt; has_groups(rt.alloc(), case)?, "{}", case.kernel);
    }
    Ok(())
}
