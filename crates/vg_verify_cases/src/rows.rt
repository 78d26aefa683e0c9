//! The rows: each a kernel, a program, and their first difference.

use crate::beside::{Expected, compared};
use std::alloc::Global;
use std::process::Abort;
use std::test::Fail;

/// Sums of four words.
pub(crate) const ADD: &[u8] = b"INSTRUCTION add4 PARAM a 128 SI32 PARAM b 128 SI32
RESULT dst 128 SI32 EXTENSION SSE2 COST 1 OPERATION
FOR j := 0 to 3
 i := j*32
 dst[i+31:i] := a[i+31:i] + b[i+31:i]
ENDFOR
END
";

/// Bytes that the numbers of another register choose.
const CHOICE: &[u8] = b"INSTRUCTION choose PARAM a 128 UI8 PARAM b 128 UI8
RESULT dst 128 UI8 EXTENSION SSSE3 COST 1 OPERATION
FOR j := 0 to 15
 i := j*8
 index := b[i+3:i]
 dst[i+7:i] := a[index*8+7:index*8]
ENDFOR
END
";

const SUMS: &[u8] = b"kernel sums(d: noalias ptr, p: ptr, q: ptr) {
store32(d + 0, load32(p + 0) + load32(q + 0));
store32(d + 4, load32(p + 4) + load32(q + 4));
store32(d + 8, load32(p + 8) + load32(q + 8));
store32(d + 12, load32(p + 12) + load32(q + 12));
}
";

/// The sums by one call, the words added the other way round. The upper two are stored first, one by one, and
/// the lower two in one piece.
const CALLED_SUMS: &[u8] = b"program sums(d: ptr, p: ptr, q: ptr)
%v0 = vload 16 q+0
%v1 = vload 16 p+0
%v2 = call add4 %v0 %v1
%s0:i32 = extract %v2 3
store d+12 %s0
%s1:i32 = extract %v2 2
store d+8 %s1
vstore 8 d+0 %v2
end cost 8 scalar 16
";

/// The same with one lane stored in two places.
const TURNED_SUMS: &[u8] = b"program sums(d: ptr, p: ptr, q: ptr)
%v0 = vload 16 q+0
%v1 = vload 16 p+0
%v2 = call add4 %v0 %v1
%s0:i32 = extract %v2 3
store d+12 %s0
%s1:i32 = extract %v2 3
store d+8 %s1
vstore 8 d+0 %v2
end cost 8 scalar 16
";

/// A call whose lanes have no terms, in the third line; a byte is also loaded elsewhere than in the kernel.
const CHOSEN: &[u8] = b"program sums(d: ptr, p: ptr, q: ptr)
%v0 = vload 16 p+1
%v1 = call choose %v0 %v0
vstore 16 d+0 %v1
end cost 3 scalar 16
";

const WORD: &[u8] = b"kernel put(d: ptr) { store16(d + 0, 513i16); }\n";

const OTHER_NAME: &[u8] = b"program put(e: ptr)\nstore e+0 513i16\nend cost 1 scalar 1\n";

const BYTES: &[u8] = b"program put(d: ptr)\nstore d+1 2i8\nstore d+0 1i8\nend cost 2 scalar 1\n";

const OTHER_BYTE: &[u8] =
    b"program put(d: ptr)\nstore d+1 3i8\nstore d+0 1i8\nend cost 2 scalar 1\n";

const THREE_BYTES: &[u8] =
    b"program put(d: ptr)\nstore d+0 513i16\nstore d+2 0i8\nend cost 2 scalar 1\n";

const COPY: &[u8] = b"kernel copy(d: ptr, s: ptr) { store32(d + 0, load32(s + 0)); }\n";

const FAR_COPY: &[u8] =
    b"program copy(d: ptr, s: ptr)\n%s0:i32 = load s+4\nstore d+0 %s0\nend cost 2 scalar 2\n";

const STORE_AND_LOAD: &[u8] =
    b"kernel both(d: ptr, p: ptr, q: ptr) { store16(p + 0, 513i16); store8(d + 0, load8(q + 0)); }\n";

/// The load stands before a byte that the kernel stores before it.
const LOAD_BETWEEN: &[u8] = b"program both(d: ptr, p: ptr, q: ptr)
store p+0 1i8
%s0:i8 = load q+0
store p+1 2i8
store d+0 %s0
end cost 4 scalar 3
";

const TWICE: &[u8] = b"kernel twice(d: ptr) { store16(d + 0, 513i16); store16(d + 0, 1027i16); }\n";

/// The two words byte by byte: each byte's stores are in order.
const TWICE_BY_BYTES: &[u8] = b"program twice(d: ptr)
store d+0 1i8
store d+0 3i8
store d+1 2i8
store d+1 4i8
end cost 4 scalar 2
";

const INC: &[u8] = b"kernel inc(d: ptr, k: i8) { store8(d + 0, k + 1i8); }\n";

const INC_BY_TWO: &[u8] =
    b"program inc(d: ptr, k: i8)\n%s0:i8 = add k 2i8\nstore d+0 %s0\nend cost 2 scalar 2\n";

const SAME_BYTE: &[u8] = b"kernel pair(d: noalias ptr, p: ptr) {
x = load8(p + 0);
y = load8(p + 0);
store8(d + 0, x);
store8(d + 1, y);
}
";

/// Each of two loads of one byte stands for the other.
const EXCHANGED: &[u8] = b"program pair(d: ptr, p: ptr)
%s0:i8 = load p+0
%s1:i8 = load p+0
store d+0 %s1
store d+1 %s0
end cost 4 scalar 4
";

/// Asserts what the comparison ends with, without `more` and with it.
fn expect(
    rt: &impl Abort,
    alloc: Global,
    entries: &[u8],
    kernel: &[u8],
    program: &[u8],
    expected: Expected,
) -> Result<(), Fail> {
    let found = compared(alloc, entries, kernel, program, false)?;
    assert!(rt; found == expected);
    let wider = compared(alloc, entries, kernel, program, true)?;
    assert!(rt; wider == expected);
    Ok(())
}

#[test]
fn equal_programs_are_same(rt: HostRuntime) -> Result<(), Fail> {
    let alloc = rt.alloc();
    expect(&rt, alloc, ADD, SUMS, CALLED_SUMS, Expected::Same)?;
    expect(&rt, alloc, b"", WORD, BYTES, Expected::Same)?;
    expect(&rt, alloc, b"", TWICE, TWICE_BY_BYTES, Expected::Same)?;
    expect(&rt, alloc, b"", SAME_BYTE, EXCHANGED, Expected::Same)
}

#[test]
fn the_first_difference_is_told(rt: HostRuntime) -> Result<(), Fail> {
    let alloc = rt.alloc();
    expect(&rt, alloc, b"", WORD, OTHER_NAME, Expected::Params)?;
    expect(
        &rt,
        alloc,
        CHOICE,
        SUMS,
        CHOSEN,
        Expected::Opaque { line: 3 },
    )?;
    expect(&rt, alloc, b"", COPY, FAR_COPY, missing_load())?;
    expect(&rt, alloc, b"", WORD, THREE_BYTES, one_store_more())?;
    expect(
        &rt,
        alloc,
        b"",
        STORE_AND_LOAD,
        LOAD_BETWEEN,
        Expected::Order {
            first: 0,
            second: 1,
        },
    )
}

#[test]
fn stores_of_other_values_are_told(rt: HostRuntime) -> Result<(), Fail> {
    let alloc = rt.alloc();
    expect(
        &rt,
        alloc,
        b"",
        INC,
        INC_BY_TWO,
        Expected::Value { unit: 2 },
    )?;
    expect(
        &rt,
        alloc,
        b"",
        WORD,
        OTHER_BYTE,
        Expected::Value { unit: 0 },
    )?;
    expect(
        &rt,
        alloc,
        ADD,
        SUMS,
        TURNED_SUMS,
        Expected::Value { unit: 11 },
    )
}

/// The kernel loads the byte at s, the program does not.
fn missing_load() -> Expected {
    Expected::Access {
        writes: false,
        pointer: 1,
        offset: 0,
        kernel: 1,
        program: 0,
    }
}

/// The program stores a third byte at d.
fn one_store_more() -> Expected {
    Expected::Access {
        writes: true,
        pointer: 0,
        offset: 2,
        kernel: 0,
        program: 1,
    }
}
