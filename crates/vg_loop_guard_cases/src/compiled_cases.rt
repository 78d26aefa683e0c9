//! What is compiled of loops with guards, beside the loops.

ghost use Rattle.std.specs.Prelude.{IfOk};
ghost use Rattle.vg_catalog.specs.Called.{headers_of};
ghost use Rattle.vg_catalog.specs.Catalogs.{entries_in};
ghost use Rattle.vg_guarded_loop.specs.GuardedLoop.{IsGuardedLoop};

use crate::running::{Inputs, are_same, left_by_guarded, left_by_loop, printed, read};
use bitflags::Flags;
use std::alloc::Global;
use std::process::Abort;
use std::test::Fail;
use vg_catalog::{Catalog, Extensions, parse_file};
use vg_guarded_loop::GuardedLoop;
use vg_loop_guard::compile_guarded_loop;
use vg_loops::Loop;

/// All ten extensions.
const ALL: u16 = 1023;

/// How many plans of each size the search keeps.
const WIDTH: u32 = 32;

/// A loop, instructions, and the guarded loop that is made of it with them.
struct Compiled {
    catalog: Catalog,
    source: Loop,
    guarded: GuardedLoop,
}

impl Drop for Compiled {
    fn drop(self) {
        let Compiled {
            catalog: _,
            source: _,
            guarded: _,
        } = self;
    }
}

/// What is made of a loop with no instructions.
fn case_of(alloc: Global, text: &str) -> Result<Compiled, Fail>
    ensures rules { IfOk result
        (λ c. IsGuardedLoop (headers_of (entries_in c.catalog)) c.guarded) }
{
    let catalog = parse_file(alloc, b"")?;
    let source = read(alloc, text)?;
    let set = Extensions::from_bits_retain(ALL);
    let guarded = compile_guarded_loop(alloc, &catalog, set, &source, WIDTH, true)?;
    Ok(Compiled {
        catalog,
        source,
        guarded,
    })
}

const COPY: &str = "loop copy(d: ptr, s: ptr, n: i32) times n step d 1, s 1
{ store8(d, load8(s)); }";

/// Each byte is loaded behind the stores in front of it unless the sixteen that are loaded are apart
/// from the sixteen that are stored; then all are one register.
const COPY_TEXT: &str = "guardedloop copy(d: ptr, s: ptr, n: i32) times n step d 1, s 1 block 16
check disjoint d+0 16 s+0 16
then
%v0 = vload 16 s+0
vstore 16 d+0 %v0
end cost 2 scalar 32
else
%s0:i8 = load s+0
store d+0 %s0
%s1:i8 = load s+1
store d+1 %s1
%s2:i8 = load s+2
store d+2 %s2
%s3:i8 = load s+3
store d+3 %s3
%s4:i8 = load s+4
store d+4 %s4
%s5:i8 = load s+5
store d+5 %s5
%s6:i8 = load s+6
store d+6 %s6
%s7:i8 = load s+7
store d+7 %s7
%s8:i8 = load s+8
store d+8 %s8
%s9:i8 = load s+9
store d+9 %s9
%s10:i8 = load s+10
store d+10 %s10
%s11:i8 = load s+11
store d+11 %s11
%s12:i8 = load s+12
store d+12 %s12
%s13:i8 = load s+13
store d+13 %s13
%s14:i8 = load s+14
store d+14 %s14
%s15:i8 = load s+15
store d+15 %s15
end cost 32 scalar 32
end checks 1
rest
%s0:i8 = load s+0
store d+0 %s0
end cost 2 scalar 2
end looped
";

#[test]
fn a_copy_loop_is_one_register_where_its_bytes_are_apart(rt: HostRuntime) -> Result<(), Fail> {
    let case = case_of(rt.alloc(), COPY)?;
    let text = printed(rt.alloc(), &case.guarded)?;
    assert!(rt; text.as_slice() == COPY_TEXT.as_bytes());
    Ok(())
}

/// A memory of bytes that differ.
fn bytes(alloc: Global, count: u32) -> Result<Vec<u8>, Fail> {
    let mut memory = Vec::new(alloc);
    for index in 0..count {
        memory.push((index % 251) as u8)?;
    }
    Ok(memory)
}

/// Asserts that a loop and its guarded loop leave the same of a memory, for each of these numbers of
/// turns.
fn expect_same_turns(
    rt: &impl Abort,
    alloc: Global,
    case: &Compiled,
    places: &[u64],
    memory: &[u8],
    counts: &[u64],
) -> Result<(), Fail>
    requires rules { IsGuardedLoop (headers_of (entries_in case.now.catalog)) case.now.guarded }
{
    let entries = case.catalog.entries();
    for count in counts {
        let inputs = Inputs {
            places,
            args: &[*count],
        };
        let by_loop = left_by_loop(alloc, &case.source, inputs, memory)?;
        let by_guarded = left_by_guarded(alloc, entries, &case.guarded, inputs, memory)?;
        assert!(rt; are_same(&by_loop, &by_guarded));
    }
    Ok(())
}

#[test]
fn a_copy_loop_runs_on_bytes_that_are_apart_equal_or_overlap(rt: HostRuntime) -> Result<(), Fail> {
    let alloc = rt.alloc();
    let memory = bytes(alloc, 200)?;
    let case = case_of(alloc, COPY)?;
    let counts = [0, 15, 16, 17, 40, 120];
    for places in [[0, 100], [100, 0], [5, 5], [0, 1], [1, 0], [16, 0], [15, 0]] {
        expect_same_turns(&rt, alloc, &case, &places, memory.as_slice(), &counts)?;
    }
    Ok(())
}

#[test]
fn pointers_that_approach_each_other_are_checked_anew(rt: HostRuntime) -> Result<(), Fail> {
    let alloc = rt.alloc();
    let text = "loop near(d: ptr, s: ptr, n: i8) times n step d 1, s 3
        { store8(d, load8(s) + 1i8); store8(d + 1, load8(s + 1)); }";
    let memory = bytes(alloc, 250)?;
    let case = case_of(alloc, text)?;
    let counts = [0, 15, 16, 17, 31, 32, 48, 64, 80];
    for places in [[60, 0], [90, 0], [0, 0], [0, 1]] {
        expect_same_turns(&rt, alloc, &case, &places, memory.as_slice(), &counts)?;
    }
    Ok(())
}
