//! What is written of the text of a kernel with a library that is kept, whose entries were described
//! before.

ghost use Rattle.std.specs.Prelude.{◌≤◌, length, IfErr, IfOk};
ghost use Rattle.vg_kernel.specs.Tree.{tree_of};
ghost use Rattle.vg_kernel.specs.WellFormed.{IsWellFormed};
ghost use Rattle.vg_library.specs.Kept.{entries_kept};
ghost use Rattle.vg_loop_laws.specs.Limits.{turns_of};
ghost use Rattle.vg_loop_laws.specs.Unrolled.{unrolled};
ghost use Rattle.vg_loops.specs.Formed.{IsLoop};
ghost use Rattle.vg_loops.specs.View.{loop_of};
ghost use Rattle.vg_top.specs.Answer.{source, loop_source, Answer, GuardedAnswer, LoopedAnswer, GuardedLoopAnswer, Explanation};
ghost use Rattle.vg_top.specs.Files.{second_file, Tells};
ghost use Rattle.vg_top.specs.Kept.{choices_kept};
ghost use Rattle.vg_top.specs.KernelFile.{file_seen, IsFormed};
ghost use Rattle.vg_top.specs.OnKernel.{compiled_of, guarded_of, planned_of, told_of};
ghost use Rattle.vg_top.specs.Outcome.{IsAnswer, VecAnswers};
ghost use Rattle.vg_top.specs.Works.{IsOfKernel};

use crate::ending::{Ending, FileNumber};
use crate::kernel_file::{KernelFile, guardable_of_text, kernel_file_of_text};
use crate::task::Task;
use std::alloc::{AllocError, Global};
use vg_compile::{compile_described, explain_described};
use vg_guard::{compile_guarded_described, print_guarded};
use vg_guarded_loop::print_guarded_loop;
use vg_kernel::Kernel;
use vg_library::Library;
use vg_loop_guard::compile_guarded_loop_described;
use vg_looped::print_looped;
use vg_loops::{Loop, compile_loop_described, turns_of, unroll};
use vg_program::print_program;

/// The text of the program of a kernel.
fn program_text(
    alloc: Global,
    library: &Library,
    kernel: &Kernel,
    width: u32,
    more: bool,
) -> Result<Vec<u8>, AllocError>
    requires kernel { IsWellFormed (tree_of kernel.now) }
    ensures { IfOk result (λ bytes. Answer (source (entries_kept library.now) (tree_of kernel.now)
        (choices_kept library.now width more)) bytes.items) }
{
    let descriptions = library.descriptions();
    let program = compile_described(alloc, descriptions, kernel, width, more)?;
    print_program(alloc, &program)
}

/// The text of the guarded program of a kernel.
fn guarded_text(
    alloc: Global,
    library: &Library,
    kernel: &Kernel,
    width: u32,
    more: bool,
) -> Result<Vec<u8>, AllocError>
    requires kernel { IsWellFormed (tree_of kernel.now) }
    ensures { IfOk result (λ bytes. GuardedAnswer (source (entries_kept library.now)
        (tree_of kernel.now) (choices_kept library.now width more)) bytes.items) }
{
    let descriptions = library.descriptions();
    let guarded = compile_guarded_described(alloc, descriptions, kernel, width, more)?;
    print_guarded(alloc, &guarded)
}

/// The looped text of a loop.
fn looped_text(
    alloc: Global,
    library: &Library,
    counted: &Loop,
    width: u32,
    more: bool,
) -> Result<Vec<u8>, AllocError>
    requires counted { IsLoop (loop_of counted.now) }
    ensures { IfOk result (λ bytes. LoopedAnswer (loop_source (entries_kept library.now)
        (loop_of counted.now) (choices_kept library.now width more)) bytes.items) }
{
    let descriptions = library.descriptions();
    let looped = compile_loop_described(alloc, descriptions, counted, width, more)?;
    print_looped(alloc, &looped)
}

/// The text of the guarded loop of a loop.
fn guarded_loop_text(
    alloc: Global,
    library: &Library,
    counted: &Loop,
    width: u32,
    more: bool,
) -> Result<Vec<u8>, AllocError>
    requires counted { IsLoop (loop_of counted.now) }
    ensures { IfOk result (λ bytes. GuardedLoopAnswer (loop_source (entries_kept library.now)
        (loop_of counted.now) (choices_kept library.now width more)) bytes.items) }
{
    let descriptions = library.descriptions();
    let guarded = compile_guarded_loop_described(alloc, descriptions, counted, width, more)?;
    print_guarded_loop(alloc, &guarded)
}

/// The lines on the plan of a kernel.
fn plan_lines(
    alloc: Global,
    library: &Library,
    kernel: &Kernel,
    width: u32,
    more: bool,
) -> Result<Vec<u8>, AllocError>
    requires kernel { IsWellFormed (tree_of kernel.now) }
    ensures { IfOk result (λ bytes. Explanation (source (entries_kept library.now)
        (tree_of kernel.now) (choices_kept library.now width more)) bytes.items) }
{
    let descriptions = library.descriptions();
    explain_described(alloc, descriptions, kernel, width, more)
}

/// The lines on the plan of the kernel of the turns that a block of a loop has.
fn block_plan(
    alloc: Global,
    library: &Library,
    counted: &Loop,
    width: u32,
    more: bool,
) -> Result<Vec<u8>, AllocError>
    requires counted { IsLoop (loop_of counted.now) }
    ensures { IfOk result (λ bytes. Explanation (source (entries_kept library.now) (unrolled
        (loop_of counted.now) (turns_of (loop_of counted.now)))
        (choices_kept library.now width more)) bytes.items) }
{
    let kernel = unroll(alloc, counted, turns_of(counted))?;
    plan_lines(alloc, library, &kernel, width, more)
}

/// The text of the program of a kernel, or the looped text of a loop.
fn compiled(
    alloc: Global,
    library: &Library,
    file: &KernelFile,
    width: u32,
    more: bool,
) -> Result<Vec<u8>, AllocError>
    requires file { IsFormed (file_seen file.now) }
    ensures { IfOk result (λ bytes. IsAnswer (compiled_of (entries_kept library.now)
        (choices_kept library.now width more) (file_seen file.now)) bytes.items) }
{
    match file {
        KernelFile::Plain(kernel) => program_text(alloc, library, kernel, width, more),
        KernelFile::Counted(counted) => looped_text(alloc, library, counted, width, more),
    }
}

/// The guarded text of a kernel, or the guarded loop of a loop.
fn guarded(
    alloc: Global,
    library: &Library,
    file: &KernelFile,
    width: u32,
    more: bool,
) -> Result<Vec<u8>, AllocError>
    requires file { IsFormed (file_seen file.now) }
    ensures { IfOk result (λ bytes. IsAnswer (guarded_of (entries_kept library.now)
        (choices_kept library.now width more) (file_seen file.now)) bytes.items) }
{
    match file {
        KernelFile::Plain(kernel) => guarded_text(alloc, library, kernel, width, more),
        KernelFile::Counted(counted) => guarded_loop_text(alloc, library, counted, width, more),
    }
}

/// The lines on the plan of a kernel, or of a block of a loop.
fn planned(
    alloc: Global,
    library: &Library,
    file: &KernelFile,
    width: u32,
    more: bool,
) -> Result<Vec<u8>, AllocError>
    requires file { IsFormed (file_seen file.now) }
    ensures { IfOk result (λ bytes. IsAnswer (planned_of (entries_kept library.now)
        (choices_kept library.now width more) (file_seen file.now)) bytes.items) }
{
    match file {
        KernelFile::Plain(kernel) => plan_lines(alloc, library, kernel, width, more),
        KernelFile::Counted(counted) => block_plan(alloc, library, counted, width, more),
    }
}

/// What `compile` writes of a text.
fn compiled_of_text(
    alloc: Global,
    library: &Library,
    width: u32,
    more: bool,
    text: &[u8],
) -> Result<Vec<u8>, Ending>
    requires small { length text.now ≤ 262144 }
    ensures told { Tells VecAnswers result (told_of Task.Program (entries_kept library.now)
        (choices_kept library.now width more) text.now) }
    ensures refusal { IfErr result (IsOfKernel second_file) }
{
    let file = match kernel_file_of_text(alloc, FileNumber(2), text) {
        Ok(file) => file,
        Err(ending) => return Err(ending),
    };
    match compiled(alloc, library, &file, width, more) {
        Ok(bytes) => Ok(bytes),
        Err(_) => Err(Ending::Memory),
    }
}

/// What `compile --guard` writes of a text.
fn guarded_of_text(
    alloc: Global,
    library: &Library,
    width: u32,
    more: bool,
    text: &[u8],
) -> Result<Vec<u8>, Ending>
    requires small { length text.now ≤ 262144 }
    ensures told { Tells VecAnswers result (told_of Task.Guarded (entries_kept library.now)
        (choices_kept library.now width more) text.now) }
    ensures refusal { IfErr result (IsOfKernel second_file) }
{
    let file = match guardable_of_text(alloc, FileNumber(2), more, text) {
        Ok(file) => file,
        Err(ending) => return Err(ending),
    };
    match guarded(alloc, library, &file, width, more) {
        Ok(bytes) => Ok(bytes),
        Err(_) => Err(Ending::Memory),
    }
}

/// What `explain` writes of a text.
fn planned_of_text(
    alloc: Global,
    library: &Library,
    width: u32,
    more: bool,
    text: &[u8],
) -> Result<Vec<u8>, Ending>
    requires small { length text.now ≤ 262144 }
    ensures told { Tells VecAnswers result (told_of Task.Plan (entries_kept library.now)
        (choices_kept library.now width more) text.now) }
    ensures refusal { IfErr result (IsOfKernel second_file) }
{
    let file = match kernel_file_of_text(alloc, FileNumber(2), text) {
        Ok(file) => file,
        Err(ending) => return Err(ending),
    };
    match planned(alloc, library, &file, width, more) {
        Ok(bytes) => Ok(bytes),
        Err(_) => Err(Ending::Memory),
    }
}

/// What is written of the text of a kernel or a loop, which is the second file of a request, with the
/// instructions of a library whose extension is in its set: what `compile`, `compile --guard` or
/// `explain` writes of a file with this text, where the search keeps `width` plans of each size, with
/// more plans or without.
///
/// `Kernel` (status 4) with the first fault of the text; guards are made of a loop only with more plans.
/// `Memory` (12) comes for want of memory, also at the bounds of `compile_described`.
pub fn written_of_text(
    alloc: Global,
    task: Task,
    library: &Library,
    width: u32,
    more: bool,
    text: &[u8],
) -> Result<Vec<u8>, Ending>
    requires small { length text.now ≤ 262144 }
    ensures told { Tells VecAnswers result (told_of task (entries_kept library.now)
        (choices_kept library.now width more) text.now) }
    ensures refusal { IfErr result (IsOfKernel second_file) }
{
    match task {
        Task::Program => compiled_of_text(alloc, library, width, more, text),
        Task::Guarded => guarded_of_text(alloc, library, width, more, text),
        Task::Plan => planned_of_text(alloc, library, width, more, text),
    }
}
