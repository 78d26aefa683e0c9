//! A kernel beside the program that is made of it.

ghost use Rattle.std.specs.Prelude.{IfOk};
ghost use Rattle.vg_catalog.specs.Called.{headers_of};
ghost use Rattle.vg_catalog.specs.Catalogs.{entries_in};
ghost use Rattle.vg_kernel.specs.Tree.{tree_of};
ghost use Rattle.vg_kernel.specs.WellFormed.{IsWellFormed};
ghost use Rattle.vg_program.specs.Valid.{KeepsRules};

use bitflags::Flags;
use std::alloc::Global;
use std::process::Abort;
use std::test::Fail;
use vg_catalog::{Catalog, Extensions, parse_file};
use vg_compile::{compile_by, explain_by};
use vg_kernel::{Kernel, parse_kernel};
use vg_keval::{KState, run_kernel};
use vg_machine::{Machine, Outcome};
use vg_program::{Program, print_program};

/// How many plans of each size the search keeps.
const WIDTH: u32 = 32;

/// All ten extensions.
pub const ALL: u16 = 1023;

/// A kernel, entries, the program that was made of the kernel with them, and the lines on its plan.
struct Beside {
    catalog: Catalog,
    kernel: Kernel,
    program: Program,
    plan: Vec<u8>,
}

/// Written out, so that the exits of an owner call it: a derived one would be proved anew at each.
impl Drop for Beside {
    fn drop(self) {
        let Beside {
            catalog: _,
            kernel: _,
            program: _,
            plan: _,
        } = self;
    }
}

impl Beside {
    /// Compiles a kernel's text with the entries of a file's text, of some extensions alone.
    fn within(
        alloc: Global,
        instructions: &[u8],
        allowed: u16,
        kernel: &[u8],
    ) -> Result<Beside, Fail>
        ensures rules { IfOk result (λ b.
            KeepsRules (headers_of (entries_in b.catalog)) b.program) }
    {
        Beside::made(alloc, instructions, allowed, kernel, false)
    }

    /// The same, with more plans or without.
    fn made(
        alloc: Global,
        instructions: &[u8],
        allowed: u16,
        kernel: &[u8],
        more: bool,
    ) -> Result<Beside, Fail>
        ensures rules { IfOk result (λ b.
            KeepsRules (headers_of (entries_in b.catalog)) b.program) }
    {
        let catalog = parse_file(alloc, instructions)?;
        let kernel = parse_kernel(alloc, kernel)?;
        Beside::compiled(alloc, catalog, kernel, allowed, more)
    }

    /// Compiles a kernel with entries.
    fn compiled(
        alloc: Global,
        catalog: Catalog,
        kernel: Kernel,
        allowed: u16,
        more: bool,
    ) -> Result<Beside, Fail>
        requires kernel { IsWellFormed (tree_of kernel) }
        ensures rules { IfOk result (λ b.
            KeepsRules (headers_of (entries_in b.catalog)) b.program) }
    {
        let set = Extensions::from_bits_retain(allowed);
        let plan = explain_by(alloc, &catalog, set, &kernel, WIDTH, more)?;
        let program = compile_by(alloc, &catalog, set, &kernel, WIDTH, more)?;
        Ok(Beside {
            catalog,
            kernel,
            program,
            plan,
        })
    }

    /// What the program leaves of a memory. None where it traps.
    fn left_by_program(
        &self,
        alloc: Global,
        memory: &[u8],
        places: &[u64],
        args: &[u64],
    ) -> Result<Option<Vec<u8>>, Fail>
        requires rules { KeepsRules (headers_of (entries_in self.now.catalog)) self.now.program }
    {
        let mut memory = memory.to_vec(alloc)?;
        let mut machine = Machine::new(alloc, self.catalog.entries(), &self.program)?;
        match machine.run(memory.as_mut_slice(), places, args) {
            Outcome::Done => Ok(Some(memory)),
            Outcome::Trap => Ok(None),
        }
    }

    /// What the kernel leaves of a memory. None where it traps.
    fn left_by_kernel(
        &self,
        alloc: Global,
        memory: &[u8],
        places: &[u64],
        args: &[u64],
    ) -> Result<Option<Vec<u8>>, Fail> {
        let mut memory = memory.to_vec(alloc)?;
        let mut state = KState::new(alloc, &self.kernel)?;
        match run_kernel(
            &self.kernel,
            &mut state,
            memory.as_mut_slice(),
            places,
            args,
        ) {
            Outcome::Done => Ok(Some(memory)),
            Outcome::Trap => Ok(None),
        }
    }

    /// Whether the program and the kernel leave of a memory what they are to leave.
    fn leaves(&self, alloc: Global, run: &Run) -> Result<bool, Fail>
        requires rules { KeepsRules (headers_of (entries_in self.now.catalog)) self.now.program }
    {
        let (memory, places) = (run.memory.as_slice(), run.places.as_slice());
        let by_kernel = self.left_by_kernel(alloc, memory, places, &[])?;
        let by_program = self.left_by_program(alloc, memory, places, &[])?;
        let left = run.left.as_slice();
        Ok(is_left(&by_kernel, left) && is_left(&by_program, left))
    }

    /// Whether both trap.
    fn traps(&self, alloc: Global, places: &[u64], memory: &[u8]) -> Result<bool, Fail>
        requires rules { KeepsRules (headers_of (entries_in self.now.catalog)) self.now.program }
    {
        let by_kernel = self.left_by_kernel(alloc, memory, places, &[])?;
        let by_program = self.left_by_program(alloc, memory, places, &[])?;
        Ok(by_kernel.is_none() && by_program.is_none())
    }

    /// Asserts what the program and the kernel cost.
    fn expect_costs(&self, rt: &impl Abort, case: &Case) {
        assert!(rt; self.program.cost == case.cost && self.program.scalar == case.scalar);
    }
}

/// Places of pointers, a memory, and what is to be left of it.
#[derive(Drop)]
struct Run {
    places: Vec<u64>,
    memory: Vec<u8>,
    left: Vec<u8>,
}

fn run_of(alloc: Global, unit: Unit, places: &str, memory: &str, left: &str) -> Result<Run, Fail> {
    Ok(Run {
        places: places_of(alloc, places)?,
        memory: memory_of(alloc, unit, memory)?,
        left: memory_of(alloc, unit, left)?,
    })
}

/// Whether a run left this.
fn is_left(found: &Option<Vec<u8>>, left: &[u8]) -> bool {
    match found {
        Some(memory) => memory.as_slice() == left,
        None => false,
    }
}

/// A kernel, a file of entries of which those of some extensions are allowed, and what the
/// program that is made of them costs, and the kernel; and what the numbers of its memories are.
#[derive(Clone, Copy)]
pub struct Case<'a> {
    pub instructions: &'a [u8],
    pub allowed: u16,
    pub kernel: &'a [u8],
    pub cost: u32,
    pub scalar: u32,
    pub unit: Unit,
}

/// What each number of a memory's text stands for.
#[derive(Clone, Copy)]
pub enum Unit {
    Byte,
    DoubleWord,
}

/// Asserts what a program and its kernel cost.
pub fn expect_costs(rt: &impl Abort, alloc: Global, case: &Case) -> Result<(), Fail> {
    let made = Beside::within(alloc, case.instructions, case.allowed, case.kernel)?;
    made.expect_costs(rt, case);
    Ok(())
}

/// Asserts what a program, of more plans or not, and its kernel cost, and what they leave of a memory.
fn expect_run(
    rt: &impl Abort,
    alloc: Global,
    case: &Case,
    more: bool,
    run: &Run,
) -> Result<(), Fail> {
    let made = Beside::made(alloc, case.instructions, case.allowed, case.kernel, more)?;
    made.expect_costs(rt, case);
    let leaves = made.leaves(alloc, run)?;
    assert!(rt; leaves);
    Ok(())
}

/// Asserts what a program and its kernel cost, and what they leave of a memory, with pointers at
/// these places.
pub fn expect_left(
    rt: &impl Abort,
    alloc: Global,
    case: &Case,
    places: &str,
    memory: &str,
    left: &str,
) -> Result<(), Fail> {
    let run = run_of(alloc, case.unit, places, memory, left)?;
    expect_run(rt, alloc, case, false, &run)
}

/// Asserts what a program of more plans and its kernel cost, and what they leave of a memory, with
/// pointers at these places.
pub fn expect_more_left(
    rt: &impl Abort,
    alloc: Global,
    case: &Case,
    places: &str,
    memory: &str,
    left: &str,
) -> Result<(), Fail> {
    let run = run_of(alloc, case.unit, places, memory, left)?;
    expect_run(rt, alloc, case, true, &run)
}

/// Asserts what a program, of more plans or not, and its kernel cost, and the last line on its plan.
fn expect_told(
    rt: &impl Abort,
    alloc: Global,
    case: &Case,
    more: bool,
    line: &[u8],
) -> Result<(), Fail> {
    let made = Beside::made(alloc, case.instructions, case.allowed, case.kernel, more)?;
    made.expect_costs(rt, case);
    assert!(rt; made.plan.as_slice().ends_with(line));
    Ok(())
}

/// Asserts what a program and its kernel cost, and what the last line on its plan is.
pub fn expect_told_cost(
    rt: &impl Abort,
    alloc: Global,
    case: &Case,
    line: &[u8],
) -> Result<(), Fail> {
    expect_told(rt, alloc, case, false, line)
}

/// Asserts what a program of more plans costs, and the last line on its plan.
pub fn expect_more_told(
    rt: &impl Abort,
    alloc: Global,
    case: &Case,
    line: &[u8],
) -> Result<(), Fail> {
    expect_told(rt, alloc, case, true, line)
}

/// Asserts what a program of more plans costs, and the first line on its plan.
pub fn expect_more_starts(
    rt: &impl Abort,
    alloc: Global,
    case: &Case,
    line: &[u8],
) -> Result<(), Fail> {
    let made = Beside::made(alloc, case.instructions, case.allowed, case.kernel, true)?;
    made.expect_costs(rt, case);
    assert!(rt; made.plan.as_slice().starts_with(line));
    Ok(())
}

/// Asserts that a program and its kernel trap.
pub fn expect_trap(
    rt: &impl Abort,
    alloc: Global,
    case: &Case,
    places: &str,
    memory: &str,
) -> Result<(), Fail> {
    let run = run_of(alloc, case.unit, places, memory, "")?;
    let made = Beside::within(alloc, case.instructions, case.allowed, case.kernel)?;
    let traps = made.traps(alloc, run.places.as_slice(), run.memory.as_slice())?;
    assert!(rt; traps);
    Ok(())
}

/// Asserts what the text of the program is that is made of a kernel with no entries.
pub fn expect_text(rt: &impl Abort, alloc: Global, kernel: &[u8], text: &[u8]) -> Result<(), Fail> {
    let made = Beside::within(alloc, b"", ALL, kernel)?;
    let printed = print_program(alloc, &made.program)?;
    assert!(rt; printed.as_slice() == text);
    Ok(())
}

/// Asserts what is told of the plan of a kernel, with the entries of a file.
pub fn expect_plan(
    rt: &impl Abort,
    alloc: Global,
    instructions: &[u8],
    kernel: &[u8],
    lines: &[u8],
) -> Result<(), Fail> {
    let made = Beside::within(alloc, instructions, ALL, kernel)?;
    assert!(rt; made.plan.as_slice() == lines);
    Ok(())
}

/// The places of pointers, decimal words.
fn places_of(alloc: Global, text: &str) -> Result<Vec<u64>, Fail> {
    let mut places = Vec::new(alloc);
    for word in text.split_whitespace() {
        places.push(word.parse::<u64>()?)?;
    }
    Ok(places)
}

/// The memory of a text of numbers in hexadecimal digits; `8*7f` is eight numbers 7f.
fn memory_of(alloc: Global, unit: Unit, text: &str) -> Result<Vec<u8>, Fail> {
    let mut memory = Vec::new(alloc);
    for word in text.split_whitespace() {
        append_word(&mut memory, unit, word)?;
    }
    Ok(memory)
}

/// Appends the numbers of a word.
fn append_word(memory: &mut Vec<u8>, unit: Unit, word: &str) -> Result<(), Fail> {
    let (count, digits) = word.split_once('*').unwrap_or(("1", word));
    let count = count.parse::<u32>()?;
    let bytes = u32::from_str_radix(digits, 16)?.to_le_bytes();
    match unit {
        Unit::Byte => append(memory, count, &bytes[..1]),
        Unit::DoubleWord => append(memory, count, &bytes),
    }
}

fn append(memory: &mut Vec<u8>, count: u32, bytes: &[u8]) -> Result<(), Fail> {
    for _ in 0..count {
        memory.extend_from_slice(bytes)?;
    }
    Ok(())
}
