//! Requests with a library of no entries: what is laid is what the commands write.

use crate::room::{Room, Told};
use std::alloc::Global;
use std::process::Abort;
use std::test::Fail;
use vg_answers::{Task, check, compile, eval, read, run};
use vg_library::Library;

const COPY: &[u8] = b"kernel copy(d: ptr, s: ptr) { store32(d + 0, load32(s + 0)); }";

const LOOP: &[u8] =
    b"loop copy(d: ptr, s: ptr, n: i8) times n step d 1, s 1 { store8(d, load8(s)); }";

const COPY_TEXT: &[u8] =
    b"program copy(d: ptr, s: ptr)\n%s0:i32 = load s+0\nstore d+0 %s0\nend cost 2 scalar 2\n";

const OTHER_TEXT: &[u8] =
    b"program copy(d: ptr, s: ptr)\n%s0:i32 = load s+4\nstore d+0 %s0\nend cost 2 scalar 2\n";

const MEMORY: &[u8] = b"abcdefgh";

/// A library of no entries.
fn empty_library(alloc: Global) -> Result<Library, Fail> {
    let mut room = Room::new(alloc, 0)?;
    match read(alloc, b"", 1023, &mut room.report) {
        Ok(library) => Ok(library),
        Err(_) => Err("an empty text is refused".into()),
    }
}

/// Asserts what is told of a library with this text and these extensions.
fn expect_read(
    rt: &impl Abort,
    alloc: Global,
    text: &[u8],
    extensions: u32,
    wanted: Told,
) -> Result<(), Fail> {
    let mut room = Room::new(alloc, 0)?;
    let status = match read(alloc, text, extensions, &mut room.report) {
        Ok(_) => 0,
        Err(status) => status,
    };
    room.expect(rt, status, wanted, b"");
    Ok(())
}

#[test]
fn libraries_are_read_or_refused(rt: HostRuntime) -> Result<(), Fail> {
    let alloc = rt.alloc();
    expect_read(&rt, alloc, b"", 1023, Told::of(0, 0))?;
    expect_read(&rt, alloc, b"", 1024, Told::of(2, 0))?;
    expect_read(&rt, alloc, b" nonsense", 1023, Told::refused(3, 12, 1, 2))
}

/// Asserts what is told of a kernel with so much room.
fn expect_compiled(
    rt: &impl Abort,
    alloc: Global,
    kernel: &[u8],
    size: usize,
    wanted: Told,
    text: &[u8],
) -> Result<(), Fail> {
    let library = empty_library(alloc)?;
    let mut room = Room::new(alloc, size)?;
    let out = room.out.as_mut_slice();
    let report = &mut room.report;
    let status = compile(
        alloc,
        Task::Program,
        &library,
        32,
        false,
        kernel,
        out,
        report,
    );
    room.expect(rt, status, wanted, text);
    Ok(())
}

#[test]
fn kernels_are_compiled(rt: HostRuntime) -> Result<(), Fail> {
    let alloc = rt.alloc();
    let size = COPY_TEXT.len();
    expect_compiled(&rt, alloc, COPY, size, Told::of(0, size), COPY_TEXT)?;
    expect_compiled(&rt, alloc, COPY, 81, Told::of(20, size), b"...")?;
    expect_compiled(&rt, alloc, b"kern", 82, Told::refused(4, 2, 1, 1), b"...")
}

/// Guards are made of a loop with more plans alone.
#[test]
fn loops_are_guarded(rt: HostRuntime) -> Result<(), Fail> {
    let alloc = rt.alloc();
    let library = empty_library(alloc)?;
    let mut room = Room::new(alloc, 2000)?;
    for more in [false, true] {
        let out = room.out.as_mut_slice();
        let report = &mut room.report;
        let status = compile(alloc, Task::Guarded, &library, 32, more, LOOP, out, report);
        assert!(rt; status == if more { 0 } else { 4 });
        assert!(rt; room.out.as_slice().starts_with(b"guardedloop copy(") == more);
    }
    Ok(())
}

/// Asserts what is told of a kernel and a program.
fn expect_checked(
    rt: &impl Abort,
    alloc: Global,
    kernel: &[u8],
    program: &[u8],
    status: u32,
    text: &[u8],
) -> Result<(), Fail> {
    let library = empty_library(alloc)?;
    let mut room = Room::new(alloc, 1000)?;
    let out = room.out.as_mut_slice();
    let found = check(alloc, &library, kernel, program, out, &mut room.report);
    assert!(rt; found == status);
    assert!(rt; room.out.as_slice().starts_with(text));
    Ok(())
}

#[test]
fn programs_are_checked(rt: HostRuntime) -> Result<(), Fail> {
    let alloc = rt.alloc();
    expect_checked(&rt, alloc, COPY, COPY_TEXT, 0, b"same\n")?;
    expect_checked(&rt, alloc, COPY, OTHER_TEXT, 13, b"")?;
    expect_checked(&rt, alloc, COPY, b"nonsense", 5, b"...")?;
    expect_checked(&rt, alloc, COPY_TEXT, COPY_TEXT, 4, b"...")
}

/// Asserts what a kernel leaves of the memory at these places.
fn expect_evaluated(
    rt: &impl Abort,
    alloc: Global,
    places: &[u64],
    args: &[u64],
    wanted: Told,
    left: &[u8],
) -> Result<(), Fail> {
    let mut room = Room::new(alloc, 8)?;
    let out = room.out.as_mut_slice();
    let status = eval(alloc, COPY, MEMORY, places, args, out, &mut room.report);
    room.expect(rt, status, wanted, left);
    Ok(())
}

#[test]
fn kernels_run(rt: HostRuntime) -> Result<(), Fail> {
    let alloc = rt.alloc();
    expect_evaluated(&rt, alloc, &[0, 4], &[], Told::of(0, 8), b"efghefgh")?;
    expect_evaluated(&rt, alloc, &[0], &[], Told::of(9, 0), b"...")?;
    expect_evaluated(&rt, alloc, &[0, 4], &[1], Told::of(9, 0), b"...")?;
    expect_evaluated(&rt, alloc, &[0, 5], &[], Told::of(10, 0), b"...")
}

/// Asserts what a program leaves of the memory at these places.
fn expect_run(
    rt: &impl Abort,
    alloc: Global,
    places: &[u64],
    wanted: Told,
    left: &[u8],
) -> Result<(), Fail> {
    let library = empty_library(alloc)?;
    let mut room = Room::new(alloc, 8)?;
    let out = room.out.as_mut_slice();
    let status = run(
        alloc,
        &library,
        COPY_TEXT,
        MEMORY,
        places,
        &[],
        out,
        &mut room.report,
    );
    room.expect(rt, status, wanted, left);
    Ok(())
}

#[test]
fn programs_run(rt: HostRuntime) -> Result<(), Fail> {
    let alloc = rt.alloc();
    expect_run(&rt, alloc, &[4, 0], Told::of(0, 8), b"abcdabcd")?;
    expect_run(&rt, alloc, &[4], Told::of(9, 0), b"...")?;
    expect_run(&rt, alloc, &[5, 0], Told::of(10, 0), b"...")
}
