//! Loads that are added to kernels and programs, so that both load a byte equally often.

use crate::beside::{Expected, compared, compared_levelled, loads_added};
use crate::rows::ADD;
use std::alloc::Global;
use std::process::Abort;
use std::test::Fail;

/// How many loads the kernel gets, and how many the program.
fn expect(
    rt: &impl Abort,
    alloc: Global,
    kernel: &str,
    program: &str,
    added: (usize, usize),
) -> Result<(), Fail> {
    let found = loads_added(alloc, kernel.as_bytes(), program.as_bytes())?;
    assert_eq!(rt; found, added);
    Ok(())
}

const WINDOWS: &str = "program w(d: ptr, p: ptr)
%v0 = vload 8 p+0
%v1 = vload 8 p+4
vstore 8 d+0 %v0
end cost 3 scalar 3
";

#[test]
fn a_load_in_two_windows_is_made_once_more(rt: HostRuntime) -> Result<(), Fail> {
    let kernel =
        "kernel w(d: noalias ptr, p: ptr) { a = load32(p + 0); b = load32(p + 4); c = load32(p + 8); store32(d + 0, a + b); store32(d + 4, b + c); }";
    expect(&rt, rt.alloc(), kernel, WINDOWS, (1, 0))
}

#[test]
fn bytes_that_a_store_may_touch_are_left(rt: HostRuntime) -> Result<(), Fail> {
    let kernel =
        "kernel w(d: ptr, p: ptr) { a = load32(p + 0); b = load32(p + 4); c = load32(p + 8); store32(d + 0, a + b); store32(d + 4, b + c); }";
    expect(&rt, rt.alloc(), kernel, WINDOWS, (0, 0))
}

#[test]
fn a_program_that_loads_once_gets_bytes(rt: HostRuntime) -> Result<(), Fail> {
    let kernel =
        "kernel w(d: noalias ptr, p: ptr) { store32(d + 0, load32(p + 0)); store32(d + 4, load32(p + 0)); }";
    let program = "program w(d: ptr, p: ptr)
%s0:i32 = load p+0
store d+0 %s0
store d+4 %s0
end cost 3 scalar 4
";
    expect(&rt, rt.alloc(), kernel, program, (0, 4))?;
    let told = compared_levelled(rt.alloc(), b"", kernel.as_bytes(), program.as_bytes())?;
    assert_eq!(&rt; told, Expected::Same);
    Ok(())
}

#[test]
fn what_one_side_never_loads_is_left(rt: HostRuntime) -> Result<(), Fail> {
    let kernel = "kernel w(d: noalias ptr, p: ptr) { store32(d + 0, load32(p + 0)); }";
    let program = "program w(d: ptr, p: ptr)
store d+0 7i32
end cost 1 scalar 2
";
    expect(&rt, rt.alloc(), kernel, program, (0, 0))
}

/// Four sums of neighbours, each word loaded once.
const NEIGHBOURS: &[u8] = b"kernel sums(d: noalias ptr, p: ptr) {
a = load32(p + 0);
b = load32(p + 4);
c = load32(p + 8);
e = load32(p + 12);
f = load32(p + 16);
store32(d + 0, a + b);
store32(d + 4, b + c);
store32(d + 8, c + e);
store32(d + 12, e + f);
}
";

/// The same where the words may be stored to.
const MEETING: &[u8] = b"kernel sums(d: ptr, p: ptr) {
a = load32(p + 0);
b = load32(p + 4);
c = load32(p + 8);
e = load32(p + 12);
f = load32(p + 16);
store32(d + 0, a + b);
store32(d + 4, b + c);
store32(d + 8, c + e);
store32(d + 12, e + f);
}
";

/// By two registers, of which the second begins a word further.
const OVERLAPPING: &[u8] = b"program sums(d: ptr, p: ptr)
%v0 = vload 16 p+0
%v1 = vload 16 p+4
%v2 = call add4 %v0 %v1
vstore 16 d+0 %v2
end cost 4 scalar 13
";

/// The second begins two words further.
const FURTHER: &[u8] = b"program sums(d: ptr, p: ptr)
%v0 = vload 16 p+0
%v1 = vload 16 p+8
%v2 = call add4 %v0 %v1
vstore 16 d+0 %v2
end cost 4 scalar 13
";

fn loaded(offset: i64, kernel: usize, program: usize) -> Expected {
    Expected::Access {
        writes: false,
        pointer: 1,
        offset,
        kernel,
        program,
    }
}

#[test]
fn overlapping_registers_are_same(rt: HostRuntime) -> Result<(), Fail> {
    let told = compared(rt.alloc(), ADD, NEIGHBOURS, OVERLAPPING, true)?;
    assert_eq!(&rt; told, loaded(4, 1, 2));
    let told = compared_levelled(rt.alloc(), ADD, NEIGHBOURS, OVERLAPPING)?;
    assert_eq!(&rt; told, Expected::Same);
    Ok(())
}

#[test]
fn a_byte_that_only_the_program_loads_is_told(rt: HostRuntime) -> Result<(), Fail> {
    let told = compared_levelled(rt.alloc(), ADD, NEIGHBOURS, FURTHER)?;
    assert_eq!(&rt; told, loaded(20, 0, 1));
    Ok(())
}

#[test]
fn bytes_that_may_be_stored_to_are_counted(rt: HostRuntime) -> Result<(), Fail> {
    let told = compared_levelled(rt.alloc(), ADD, MEETING, OVERLAPPING)?;
    assert_eq!(&rt; told, loaded(4, 1, 2));
    Ok(())
}
