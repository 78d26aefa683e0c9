//! The terms of the values of small kernels.

use crate::numbered::{lines, numbered};
use std::alloc::Global;
use std::process::Abort;
use std::test::Fail;

// A kernel, and the terms of its values in order.
struct Case {
    kernel: &'static str,
    terms: &'static str,
}

const CASES: [Case; 8] = [
    // A sum of two products of signed words.
    Case {
        kernel: "kernel madd(d: noalias ptr, p: ptr, q: ptr) {
            store32(d, sext32(load16(p)) * sext32(load16(q))
                + sext32(load16(p + 2)) * sext32(load16(q + 2)));
        }",
        terms: "p+0@0:16
(sext32 p+0@0:16)
q+0@2:16
(sext32 q+0@2:16)
(mul32 (sext32 p+0@0:16) (sext32 q+0@2:16))
p+2@5:16
(sext32 p+2@5:16)
q+2@7:16
(sext32 q+2@7:16)
(mul32 (sext32 p+2@5:16) (sext32 q+2@7:16))
(add32 (mul32 (sext32 p+0@0:16) (sext32 q+0@2:16)) (mul32 (sext32 p+2@5:16) (sext32 q+2@7:16)))
0:8
",
    },
    // A double word in the range of a signed word.
    Case {
        kernel: "kernel pack(d: noalias ptr, p: ptr) {
            store16(d, trunc16(smin(smax(load32(p), -32768i32), 32767i32)));
        }",
        terms: "p+0@0:32
(smax32 p+0@0:32 4294934528:32)
(smin32 (smax32 p+0@0:32 4294934528:32) 32767:32)
(trunc16 (smin32 (smax32 p+0@0:32 4294934528:32) 32767:32))
0:8
",
    },
    // A rounded average of bytes needs nine bits.
    Case {
        kernel: "kernel average(d: noalias ptr, p: ptr, q: ptr) {
            store8(d, trunc8(lshr(zext16(load8(p)) + zext16(load8(q)) + 1i16, 1)));
        }",
        terms: "p+0@0:8
(zext16 p+0@0:8)
q+0@2:8
(zext16 q+0@2:8)
(add16 (zext16 p+0@0:8) (zext16 q+0@2:8))
(add16 (add16 (zext16 p+0@0:8) (zext16 q+0@2:8)) 1:16)
(lshr16 (add16 (add16 (zext16 p+0@0:8) (zext16 q+0@2:8)) 1:16) 1)
(trunc8 (lshr9 (add9 (add9 (zext9 p+0@0:8) (zext9 q+0@2:8)) 1:9) 1))
0:8
",
    },
    // Every operation once.
    Case {
        kernel: "kernel all(a: i8, b: i8) {
            sum = a + b; difference = a - b; product = a * b;
            both = a & b; either = a | b; one = a ^ b;
            least = smin(a, b); most = smax(a, b); low = umin(a, b); high = umax(a, b);
            left = shl(a, 3); right = lshr(a, 3); signed = ashr(a, 3);
            wide = sext16(a); zeros = zext16(b); narrow = trunc8(wide);
            same = eq(a, b); less = slt(a, b); below = ult(a, b);
            chosen = select(same, a, b); lesser = select(less, a, b);
        }",
        terms: "a:8
b:8
(add8 a:8 b:8)
(add8 a:8 (mul8 b:8 255:8))
(mul8 a:8 b:8)
(and8 a:8 b:8)
(or8 a:8 b:8)
(xor8 a:8 b:8)
(smin8 a:8 b:8)
(smax8 a:8 b:8)
(umin8 a:8 b:8)
(umax8 a:8 b:8)
(mul8 a:8 8:8)
(lshr8 a:8 3)
(ashr8 a:8 3)
(sext16 a:8)
(zext16 b:8)
a:8
(eq8 a:8 b:8)
(slt8 a:8 b:8)
(ult8 a:8 b:8)
(sel8 (eq8 a:8 b:8) a:8 b:8)
(smin8 a:8 b:8)
",
    },
    // One value used twice.
    Case {
        kernel: "kernel twice(d: ptr, p: ptr) {
            x = load8(p - 1); y = x + x; z = x & x; store8(d, y * z);
        }",
        terms: "p-1@0:8
(add8 p-1@0:8 p-1@0:8)
p-1@0:8
(mul8 p-1@0:8 (add8 p-1@0:8 p-1@0:8))
0:8
",
    },
    // Constants as operands.
    Case {
        kernel: "kernel constants(p: ptr) {
            x = load8(p); k = 5i8; none = x + 0i8; seven = 3i8 + 4i8; less = x - 1i8;
            more = k + k; store8(p, k);
        }",
        terms: "p+0@0:8
p+0@0:8
7:8
(add8 p+0@0:8 255:8)
10:8
0:8
",
    },
    // Operands are numbered from left to right, and the condition before both branches.
    Case {
        kernel: "kernel order(p: ptr) {
            x = select(eq(load8(p + 1), load8(p)), load16(p + 2), load16(p + 4));
        }",
        terms: "p+1@0:8
p+0@1:8
(eq8 p+0@1:8 p+1@0:8)
p+2@3:16
p+4@4:16
(sel16 (eq8 p+0@1:8 p+1@0:8) p+2@3:16 p+4@4:16)
",
    },
    // A kernel without statements has its arguments alone.
    Case {
        kernel: "kernel none(p: ptr, a: i64, q: ptr, b: i16) { }",
        terms: "a:64
b:16
",
    },
];

fn check(rt: &impl Abort, alloc: Global, case: &Case) -> Result<(), Fail> {
    let ssa = numbered(alloc, case.kernel.as_bytes())?;
    assert!(rt; ssa.cuts.as_slice().is_empty(), "{}", case.kernel);
    let text = lines(alloc, &ssa, ssa.terms.as_slice())?;
    assert!(rt; text.as_slice() == case.terms.as_bytes(), "{}", case.kernel);
    Ok(())
}

#[test]
fn terms_of_values(rt: HostRuntime) -> Result<(), Fail> {
    let alloc = rt.alloc();
    for case in CASES.iter() {
        check(&rt, alloc, case)?;
    }
    Ok(())
}
