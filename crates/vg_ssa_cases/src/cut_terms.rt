//! The cut terms of the values of small kernels.

use crate::numbered::{lines, numbered_more, terms_of};
use std::alloc::Global;
use std::process::Abort;
use std::test::Fail;

// A kernel, and the cut terms of its values in order.
struct Case {
    kernel: &'static str,
    cuts: &'static str,
}

const CASES: [Case; 7] = [
    // A sum of sums: a load is named by a leaf of its own too.
    Case {
        kernel: "kernel sums(d: noalias ptr, p: ptr) {
            store32(d, (load32(p) + load32(p + 16)) + (load32(p + 32) + load32(p + 48)));
        }",
        cuts: "p+0@0:32
p+16@1:32
(add32 #0:32 #1:32)
p+32@3:32
p+48@4:32
(add32 #3:32 #4:32)
(add32 #2:32 #5:32)
0:8
",
    },
    // A product of extended words, and a parameter.
    Case {
        kernel: "kernel product(p: ptr, a: i32) {
            x = sext32(load16(p)) * a;
        }",
        cuts: "a:32
p+0@1:16
(sext32 #1:16)
(mul32 a:32 #2:32)
",
    },
    // A comparison is written out where it is taken.
    Case {
        kernel: "kernel choice(p: ptr, q: ptr) {
            x = load16(p); y = load16(q);
            less = slt(sext32(x), sext32(y));
            all = select(less, 4294967295i32, 0i32);
            one = select(less, x, y);
        }",
        cuts: "p+0@0:16
q+0@1:16
(sext32 #0:16)
(sext32 #1:16)
(slt32 #2:32 #3:32)
(sel32 (slt32 #2:32 #3:32) 4294967295:32 0:32)
(sel16 (slt32 #2:32 #3:32) #0:16 #1:16)
",
    },
    // A least number is found in a choice between the numbers that are compared.
    Case {
        kernel: "kernel least(a: i16, p: ptr) {
            x = load16(p); least = select(ult(x, a), x, a);
        }",
        cuts: "a:16
p+0@1:16
(ult16 #1:16 a:16)
(umin16 a:16 #1:16)
",
    },
    // A constant stands for itself; a difference is a sum.
    Case {
        kernel: "kernel constants(d: noalias ptr, p: ptr) {
            x = load32(p); store32(d, 7i32 - x); y = shl(x, 3); z = y + 0i32;
        }",
        cuts: "p+0@0:32
(add32 (mul32 #0:32 4294967295:32) 7:32)
0:8
(mul32 #0:32 8:32)
#3:32
",
    },
    // What comes to be known is named by a leaf all the same.
    Case {
        kernel: "kernel known(p: ptr) {
            x = load8(p); none = x ^ x; same = none + x;
        }",
        cuts: "p+0@0:8
0:8
(add8 #0:8 #1:8)
",
    },
    // A kernel without statements has its arguments alone.
    Case {
        kernel: "kernel none(p: ptr, a: i64, q: ptr, b: i16) { }",
        cuts: "a:64
b:16
",
    },
];

fn cuts(alloc: Global, kernel: &str) -> Result<Vec<u8>, Fail> {
    let ssa = numbered_more(alloc, kernel.as_bytes())?;
    Ok(lines(alloc, &ssa, ssa.cuts.as_slice())?)
}

// Whether values have the same terms with cut terms and without.
fn has_same_terms(alloc: Global, kernel: &str) -> Result<bool, Fail> {
    let ssa = numbered_more(alloc, kernel.as_bytes())?;
    let terms = lines(alloc, &ssa, ssa.terms.as_slice())?;
    let same = terms_of(alloc, kernel)?;
    Ok(terms.as_slice() == same.as_slice())
}

fn check(rt: &impl Abort, alloc: Global, case: &Case) -> Result<(), Fail> {
    let cuts = cuts(alloc, case.kernel)?;
    assert!(rt; cuts.as_slice() == case.cuts.as_bytes(), "{}", case.kernel);
    assert!(rt; has_same_terms(alloc, case.kernel)?, "{}", case.kernel);
    Ok(())
}

#[test]
fn cut_terms_of_values(rt: HostRuntime) -> Result<(), Fail> {
    let alloc = rt.alloc();
    for case in CASES.iter() {
        check(&rt, alloc, case)?;
    }
    Ok(())
}
