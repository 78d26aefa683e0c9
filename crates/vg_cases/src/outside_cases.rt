//! Shelves, sinks and words in memory.

use std::alloc::Global;
use std::process::Abort;
use std::test::Fail;
use vg_outside::{DropSink, MemShelf, MemSink, Shelf, ShelfFault, Sink, SinkFault, Words};

/// A read through the trait, of two bytes at most.
fn read_any<S: Shelf>(shelf: &mut S, alloc: Global, name: &str) -> Result<Vec<u8>, ShelfFault> {
    shelf.read(alloc, name, 2)
}

fn write_any<S: Sink>(sink: &mut S, bytes: &[u8]) -> Result<(), SinkFault> {
    sink.write(bytes)
}

/// Asserts what a read of this name gives.
fn expect_read(
    rt: &impl Abort,
    alloc: Global,
    shelf: &mut MemShelf,
    name: &str,
    bytes: &[u8],
) -> Result<(), Fail> {
    let read = read_any(shelf, alloc, name)?;
    assert!(rt; read.as_slice() == bytes);
    Ok(())
}

/// A shelf with two files, of which one was put twice.
fn long_and_short(alloc: Global) -> Result<MemShelf, Fail> {
    let mut shelf = MemShelf::new(alloc);
    shelf.put("long", b"12345")?;
    shelf.put("short", b"12345")?;
    shelf.put("short", b"67")?;
    Ok(shelf)
}

#[test]
fn a_read_gives_one_byte_more_than_its_limit_at_most(rt: HostRuntime) -> Result<(), Fail> {
    let mut shelf = long_and_short(rt.alloc())?;
    expect_read(&rt, rt.alloc(), &mut shelf, "long", b"123")?;
    expect_read(&rt, rt.alloc(), &mut shelf, "short", b"67")?;
    let whole = shelf.read(rt.alloc(), "long", u64::MAX)?;
    assert!(rt; whole.as_slice() == b"12345".as_slice() && shelf.reads() == 3);
    Ok(())
}

/// A shelf with one file, whose second read fails.
fn failing(alloc: Global) -> Result<MemShelf, Fail> {
    let mut shelf = MemShelf::new(alloc);
    shelf.put("a", b"1")?;
    shelf.fail_read(1)?;
    Ok(shelf)
}

#[test]
fn a_named_read_fails_and_the_next_goes_on(rt: HostRuntime) -> Result<(), Fail> {
    let mut shelf = failing(rt.alloc())?;
    expect_read(&rt, rt.alloc(), &mut shelf, "a", b"1")?;
    let failed = read_any(&mut shelf, rt.alloc(), "a");
    assert!(rt; matches!(&failed, Err(ShelfFault::Failed)));
    let absent = read_any(&mut shelf, rt.alloc(), "b");
    assert!(rt; matches!(&absent, Err(ShelfFault::Absent)));
    expect_read(&rt, rt.alloc(), &mut shelf, "a", b"1")
}

#[test]
fn a_write_past_the_room_keeps_what_fits(rt: HostRuntime) -> Result<(), Fail> {
    let mut sink = MemSink::new(rt.alloc(), 5)?;
    assert!(rt; write_any(&mut sink, b"123").is_ok());
    assert!(rt; write_any(&mut sink, b"456").is_err());
    assert!(rt; write_any(&mut sink, b"").is_ok());
    assert!(rt; sink.written() == b"12345".as_slice());
    assert!(rt; write_any(&mut DropSink::new(), b"1").is_ok());
    Ok(())
}

#[test]
fn words_stand_in_their_order(rt: HostRuntime) -> Result<(), Fail> {
    let mut words = Words::new(rt.alloc());
    words.push(b"run")?;
    words.push(b"")?;
    assert!(rt; words.len() == 2);
    assert!(rt; words.get(0) == b"run".as_slice());
    assert!(rt; words.get(1) == b"".as_slice());
    Ok(())
}
