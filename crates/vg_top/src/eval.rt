//! The command `eval`.

ghost use Rattle.std.specs.Prelude.{◌≡◌, Some, IfSome, IfErr};
ghost use Rattle.vg_kernel.specs.Meaning.{meaning};
ghost use Rattle.vg_kernel.specs.Tree.{tree_of};
ghost use Rattle.vg_loop_laws.specs.Loops.{loop_meaning};
ghost use Rattle.vg_loops.specs.Formed.{IsLoop};
ghost use Rattle.vg_loops.specs.View.{loop_of};
ghost use Rattle.vg_request.specs.Binding.{bindings_in};
ghost use Rattle.vg_request.specs.Request.{eval as eval_asked};
ghost use Rattle.vg_top.specs.Eval.{evaluated, evaluated_bound, evaluated_on, params_in};
ghost use Rattle.vg_top.specs.Files.{Tells};
ghost use Rattle.vg_top.specs.Inputs.{inputs_seen};
ghost use Rattle.vg_top.specs.KernelFile.{file_seen, IsFormed};
ghost use Rattle.vg_top.specs.Left.{left_by, memory_or_trap, near_inputs, AreLeft};
ghost use Rattle.vg_top.specs.Works.{Works, IsOfRun, ending_of};

use crate::ending::{Ending, FileNumber};
use crate::files::{KERNEL_LIMIT, MEMORY_LIMIT, fetch};
use crate::inputs::{Inputs, bind};
use crate::kernel_file::{KernelFile, kernel_file_of_text};
use std::alloc::Global;
use vg_compile::params_of;
use vg_kernel::{KParam, Kernel};
use vg_keval::{KState, Outcome, run_kernel};
use vg_loops::{Loop, run_loop, stay_near, turns_asked};
use vg_outside::{Bytes, Shelf};
use vg_request::binding::bindings_of;

/// The parameters of a kernel or a loop.
pub fn params_in(file: &KernelFile) -> &[KParam]
    ensures { result.now ≡ params_in (file_seen file.now) }
{
    match file {
        KernelFile::Plain(kernel) => kernel.params.as_slice(),
        KernelFile::Counted(source) => source.kernel.params.as_slice(),
    }
}

/// What a kernel leaves of a memory.
fn evaluate_kernel(
    alloc: Global,
    kernel: &Kernel,
    inputs: &Inputs,
    memory: Vec<u8>,
) -> Result<Vec<u8>, Ending>
    ensures told { Tells AreLeft result (memory_or_trap (meaning (tree_of kernel.now)
        memory.items inputs.now.places.items inputs.now.args.items)) }
    ensures refusal { IfErr result IsOfRun }
{
    let Ok(state) = KState::new(alloc, kernel) else {
        return Err(Ending::Memory);
    };
    let mut state = state;
    let mut memory = memory;
    match run_kernel(
        kernel,
        &mut state,
        memory.as_mut_slice(),
        inputs.places.as_slice(),
        inputs.args.as_slice(),
    ) {
        Outcome::Done => Ok(memory),
        Outcome::Trap => Err(Ending::Trap),
    }
}

/// What a loop leaves of a memory. `Bindings` where its turns move a pointer past 2^64 - 1.
fn evaluate_loop(
    alloc: Global,
    source: &Loop,
    inputs: &Inputs,
    memory: Vec<u8>,
) -> Result<Vec<u8>, Ending>
    requires { IsLoop (loop_of source.now) }
    ensures told { Tells AreLeft result (left_by (loop_meaning (loop_of source.now)) memory.items
        (near_inputs source.now.times source.now.steps (inputs_seen inputs.now))) }
    ensures refusal { IfErr result IsOfRun }
{
    let places = inputs.places.as_slice();
    let args = inputs.args.as_slice();
    let turns = turns_asked(source.times, args);
    if !stay_near(source.steps.as_slice(), turns, places) {
        return Err(Ending::Bindings);
    }
    let Ok(state) = KState::new(alloc, &source.kernel) else {
        return Err(Ending::Memory);
    };
    let mut state = state;
    let mut memory = memory;
    match run_loop(source, &mut state, memory.as_mut_slice(), places, args) {
        Outcome::Done => Ok(memory),
        Outcome::Trap => Err(Ending::Trap),
    }
}

/// What a kernel or a loop leaves of a memory, its parameters bound to these values: a missing one is
/// 0. `Bindings` (status 9) where the turns of a loop move a pointer past 2^64 - 1, `Trap` (10) where it
/// accesses a byte outside the memory, `Memory` (12) for want of memory alone.
pub fn evaluate_bound(
    alloc: Global,
    file: &KernelFile,
    inputs: &Inputs,
    memory: Vec<u8>,
) -> Result<Vec<u8>, Ending>
    requires { IsFormed (file_seen file.now) }
    ensures told { Tells AreLeft result
        (evaluated_bound (inputs_seen inputs.now) (file_seen file.now) memory.items) }
    ensures refusal { IfErr result IsOfRun }
{
    match file {
        KernelFile::Plain(kernel) => evaluate_kernel(alloc, kernel, inputs, memory),
        KernelFile::Counted(source) => evaluate_loop(alloc, source, inputs, memory),
    }
}

/// What a kernel or a loop leaves of a memory, its parameters bound by the words.
fn evaluate_on(
    alloc: Global,
    file: &KernelFile,
    memory: Vec<u8>,
    words: &[Bytes],
) -> Result<Vec<u8>, Ending>
    requires { IsFormed (file_seen file.now) }
    ensures told { Tells AreLeft result
        (evaluated_on (bindings_in words.now) (file_seen file.now) memory.items) }
    ensures refusal { IfErr result IsOfRun }
{
    let Ok(bindings) = bindings_of(alloc, words) else {
        return Err(Ending::Memory);
    };
    let Ok(params) = params_of(alloc, params_in(file)) else {
        return Err(Ending::Memory);
    };
    let Ok(bound) = bind(alloc, bindings.as_slice(), params.as_slice()) else {
        return Err(Ending::Memory);
    };
    let Some(inputs) = bound else {
        return Err(Ending::Bindings);
    };
    evaluate_bound(alloc, file, &inputs, memory)
}

/// The memory that the kernel or the loop in a file leaves of the memory in another, its parameters
/// bound by the words.
///
/// The files are read and judged one after the other. The first that is refused gives the ending of
/// `fetch` or `Kernel` (status 4); then come `Bindings` (9) and `Trap` (10). `Memory` (12) comes for
/// want of memory alone.
pub fn eval<S: Shelf>(
    alloc: Global,
    shelf: &mut S,
    kernel: &str,
    memory: &str,
    words: &[Bytes],
) -> Result<Vec<u8>, Ending>
    ensures told { IfSome (S.holds shelf.old) (λ held.
        Tells AreLeft result (evaluated held kernel.now memory.now (bindings_in words.now))) }
    ensures shelf { Works S.Shelf (Some (eval_asked kernel.now memory.now (bindings_in words.now)))
        shelf.old shelf.new (ending_of result) }
{
    let number = FileNumber(1);
    let text = fetch(alloc, shelf, number, kernel, KERNEL_LIMIT)?;
    let kernel = kernel_file_of_text(alloc, number, text.as_slice())?;
    let memory = fetch(alloc, shelf, FileNumber(2), memory, MEMORY_LIMIT)?;
    evaluate_on(alloc, &kernel, memory, words)
}
