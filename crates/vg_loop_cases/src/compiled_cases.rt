//! What is compiled of loops, beside the loops.

ghost use Rattle.std.specs.Prelude.{IfOk};
ghost use Rattle.vg_catalog.specs.Called.{headers_of};
ghost use Rattle.vg_catalog.specs.Catalogs.{entries_in};
ghost use Rattle.vg_looped.specs.Looped.{IsLooped};

use crate::running::{Inputs, are_same, left_by_loop, left_by_looped, printed, read};
use bitflags::Flags;
use std::alloc::Global;
use std::process::Abort;
use std::test::Fail;
use vg_catalog::{Catalog, Extensions, parse_file};
use vg_looped::{Looped, parse_looped};
use vg_loops::{Loop, compile_loop};

/// All ten extensions.
const ALL: u16 = 1023;

/// How many plans of each size the search keeps.
const WIDTH: u32 = 32;

const ADD: &[u8] = b"INSTRUCTION _mm_add_epi32 PARAM a 128 SI32 PARAM b 128 SI32
RESULT dst 128 SI32 EXTENSION SSE2 COST 1 OPERATION
FOR j := 0 to 3
 i := j*32
 dst[i+31:i] := a[i+31:i] + b[i+31:i]
ENDFOR
dst[MAX:128] := 0
END
";

/// A loop, instructions, and the looped text that is made of it with them.
struct Compiled {
    catalog: Catalog,
    source: Loop,
    looped: Looped,
}

impl Drop for Compiled {
    fn drop(self) {
        let Compiled {
            catalog: _,
            source: _,
            looped: _,
        } = self;
    }
}

fn case_of(alloc: Global, instructions: &[u8], text: &str) -> Result<Compiled, Fail>
    ensures rules { IfOk result (λ c. IsLooped (headers_of (entries_in c.catalog)) c.looped) }
{
    let catalog = parse_file(alloc, instructions)?;
    let source = read(alloc, text)?;
    let set = Extensions::from_bits_retain(ALL);
    let looped = compile_loop(alloc, &catalog, set, &source, WIDTH)?;
    Ok(Compiled {
        catalog,
        source,
        looped,
    })
}

/// Asserts that the loop and its looped text leave the same of a memory in so many turns.
fn expect_same(
    rt: &impl Abort,
    alloc: Global,
    case: &Compiled,
    inputs: Inputs<'_>,
    memory: &[u8],
) -> Result<(), Fail>
    requires rules { IsLooped (headers_of (entries_in case.now.catalog)) case.now.looped }
{
    let entries = case.catalog.entries();
    let by_loop = left_by_loop(alloc, &case.source, inputs, memory)?;
    let by_looped = left_by_looped(alloc, entries, &case.looped, inputs, memory)?;
    assert!(rt; are_same(&by_loop, &by_looped));
    Ok(())
}

/// A memory of bytes that differ.
fn bytes(alloc: Global, count: u32) -> Result<Vec<u8>, Fail> {
    let mut memory = Vec::new(alloc);
    for index in 0..count {
        memory.push((index % 251) as u8)?;
    }
    Ok(memory)
}

const SUMS: &str = "loop add(d: noalias ptr, a: ptr, b: ptr, n: i32) times n step d 4, a 4, b 4
{ store32(d, load32(a) + load32(b)); }";

/// Asserts how a block of sixteen sums and a rest of one are compiled.
fn expect_sixteen_sums(rt: &impl Abort, looped: &Looped) {
    assert!(rt; looped.turns == 16 && looped.times == 0);
    assert!(rt; looped.steps.as_slice() == [4, 4, 4].as_slice());
    assert!(rt; looped.block.scalar == 64 && looped.rest.scalar == 4);
    assert!(rt; looped.block.cost < 64 && looped.rest.cost <= 4);
}

/// Asserts that the loop and its looped text leave the same of a memory, for each of these numbers of
/// turns.
fn expect_same_turns(
    rt: &impl Abort,
    alloc: Global,
    case: &Compiled,
    places: &[u64],
    memory: &[u8],
    counts: &[u64],
) -> Result<(), Fail>
    requires rules { IsLooped (headers_of (entries_in case.now.catalog)) case.now.looped }
{
    for count in counts {
        let inputs = Inputs {
            places,
            args: &[*count],
        };
        expect_same(rt, alloc, case, inputs, memory)?;
    }
    Ok(())
}

#[test]
fn a_block_of_sixteen_sums_calls_instructions(rt: HostRuntime) -> Result<(), Fail> {
    let alloc = rt.alloc();
    let memory = bytes(alloc, 480)?;
    let case = case_of(alloc, ADD, SUMS)?;
    expect_sixteen_sums(&rt, &case.looped);
    let counts = [0, 1, 15, 16, 17, 40, 41];
    expect_same_turns(
        &rt,
        alloc,
        &case,
        &[0, 160, 320],
        memory.as_slice(),
        &counts,
    )
}

/// What is printed of the looped text that a text is read as.
fn printed_again(alloc: Global, case: &Compiled, text: &[u8]) -> Result<Vec<u8>, Fail> {
    match parse_looped(alloc, text, case.catalog.headers()) {
        Ok(looped) => printed(alloc, &looped),
        Err(_) => Err("what is printed is refused".into()),
    }
}

const SUMS_LINE: &str =
    "looped add(d: ptr, a: ptr, b: ptr, n: i32) times n step d 4, a 4, b 4 block 16\n";

/// Asserts that a looped text which is compiled is printed, and read again as what is printed so.
fn expect_printed(rt: &impl Abort, alloc: Global, case: &Compiled) -> Result<(), Fail> {
    let text = printed(alloc, &case.looped)?;
    assert!(rt; text.as_slice().starts_with(SUMS_LINE.as_bytes()));
    let again = printed_again(alloc, case, text.as_slice())?;
    assert!(rt; again.as_slice() == text.as_slice());
    Ok(())
}

#[test]
fn a_looped_text_that_is_compiled_is_printed_and_read_again(rt: HostRuntime) -> Result<(), Fail> {
    let case = case_of(rt.alloc(), ADD, SUMS)?;
    expect_printed(&rt, rt.alloc(), &case)
}

#[test]
fn turns_that_depend_on_each_other_stay_in_order(rt: HostRuntime) -> Result<(), Fail> {
    let alloc = rt.alloc();
    let text = "loop sums(p: ptr, q: ptr, n: i8) times n step p 1
        { store8(p + 1, load8(p) + load8(p + 1)); store8(q, load8(p + 1)); }";
    let memory = bytes(alloc, 24)?;
    let case = case_of(alloc, b"", text)?;
    let counts = [0, 3, 16, 19, 23, 24];
    expect_same_turns(&rt, alloc, &case, &[0, 0], memory.as_slice(), &counts)?;
    expect_same_turns(&rt, alloc, &case, &[0, 3], memory.as_slice(), &counts)?;
    expect_same_turns(&rt, alloc, &case, &[0, 23], memory.as_slice(), &counts)
}
