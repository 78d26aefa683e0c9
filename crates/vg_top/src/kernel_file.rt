//! The kernel in a file of a request.

ghost use Rattle.std.specs.Prelude.{◌≤◌, length, IfOk, IfErr};
ghost use Rattle.vg_kernel.specs.Statements.{kernel_of};
ghost use Rattle.vg_kernel.specs.Tree.{tree_of};
ghost use Rattle.vg_kernel.specs.WellFormed.{IsWellFormed};
ghost use Rattle.vg_loops.specs.Formed.{IsLoop};
ghost use Rattle.vg_loops.specs.Reader.{loop_from};
ghost use Rattle.vg_loops.specs.View.{loop_of};
ghost use Rattle.vg_top.specs.Files.{Tells};
ghost use Rattle.vg_top.specs.KernelFile.{kernel_file, kernel_alone, guardable, kernel_or_refusal, file_seen, IsFormed, IsTree, IsLoopOf, IsFile};
ghost use Rattle.vg_top.specs.Works.{IsOfKernel};

use crate::ending::{Ending, FileNumber};
use std::alloc::Global;
use vg_kernel::{Kernel, KernelFault, parse_kernel};
use vg_loops::{Loop, loop_place, parse_loop};

/// What a kernel file holds.
pub enum KernelFile {
    /// A kernel.
    Plain(Kernel),
    /// A counted loop.
    Counted(Loop),
}

/// Written out, so that the exits of an owner call it: a derived one would be proved anew at each.
impl Drop for KernelFile {
    fn drop(self) {
        match self {
            KernelFile::Plain(_) => {}
            KernelFile::Counted(_) => {}
        }
    }
}

/// The kernel of a text.
fn kernel_of_text(alloc: Global, number: FileNumber, text: &[u8]) -> Result<Kernel, Ending>
    ensures told { Tells IsTree result (kernel_or_refusal number (kernel_of text.now)) }
    ensures well_formed { IfOk result (λ k. IsWellFormed (tree_of k)) }
    ensures refusal { IfErr result (IsOfKernel number) }
{
    match parse_kernel(alloc, text) {
        Ok(kernel) => Ok(kernel),
        Err(KernelFault::Memory(_)) => Err(Ending::Memory),
        Err(fault) => Err(Ending::Kernel(number, fault)),
    }
}

/// The loop of a text.
fn loop_of_text(alloc: Global, number: FileNumber, text: &[u8]) -> Result<Loop, Ending>
    ensures told { Tells IsLoopOf result (kernel_or_refusal number (loop_from text.now)) }
    ensures formed { IfOk result (λ l. IsLoop (loop_of l)) }
    ensures refusal { IfErr result (IsOfKernel number) }
{
    match parse_loop(alloc, text) {
        Ok(source) => Ok(source),
        Err(KernelFault::Memory(_)) => Err(Ending::Memory),
        Err(fault) => Err(Ending::Kernel(number, fault)),
    }
}

/// What the text of the request's file of this number holds: a loop where its first word is `loop`,
/// else a kernel. `Kernel` (status 4) with the first fault of the text, or `Memory` (12) for want of
/// memory alone.
#[tactic(auto, unfolding(crate::specs::KernelFile::kernel_file))]
pub fn kernel_file_of_text(
    alloc: Global,
    number: FileNumber,
    text: &[u8],
) -> Result<KernelFile, Ending>
    requires { length text.now ≤ 262144 }
    ensures told { Tells IsFile result (kernel_or_refusal number (kernel_file text.now)) }
    ensures formed { IfOk result (λ f. IsFormed (file_seen f)) }
    ensures refusal { IfErr result (IsOfKernel number) }
{
    match loop_place(text) {
        Some(_) => match loop_of_text(alloc, number, text) {
            Ok(source) => Ok(KernelFile::Counted(source)),
            Err(ending) => Err(ending),
        },
        None => match kernel_of_text(alloc, number, text) {
            Ok(kernel) => Ok(KernelFile::Plain(kernel)),
            Err(ending) => Err(ending),
        },
    }
}

/// The kernel of the text of the request's file of this number, where no loop may stand. `Kernel`
/// (status 4) with the first fault of the text, which of a loop without a fault is `LoopHere` at its
/// first word, or `Memory` (12) for want of memory alone.
#[tactic(auto, unfolding(crate::specs::KernelFile::kernel_alone))]
pub fn kernel_alone_of_text(
    alloc: Global,
    number: FileNumber,
    text: &[u8],
) -> Result<Kernel, Ending>
    requires { length text.now ≤ 262144 }
    ensures told { Tells IsTree result (kernel_or_refusal number (kernel_alone text.now)) }
    ensures well_formed { IfOk result (λ k. IsWellFormed (tree_of k)) }
    ensures refusal { IfErr result (IsOfKernel number) }
{
    let Some(place) = loop_place(text) else {
        return kernel_of_text(alloc, number, text);
    };
    match loop_of_text(alloc, number, text) {
        Ok(_) => Err(Ending::Kernel(number, KernelFault::LoopHere { place })),
        Err(ending) => Err(ending),
    }
}

/// What guards are made of, of the text of the request's file of this number: with more plans a kernel
/// or a loop, as of `kernel_file_of_text`, without them a kernel, as of `kernel_alone_of_text`.
pub fn guardable_of_text(
    alloc: Global,
    number: FileNumber,
    more: bool,
    text: &[u8],
) -> Result<KernelFile, Ending>
    requires { length text.now ≤ 262144 }
    ensures told { Tells IsFile result (kernel_or_refusal number (guardable more text.now)) }
    ensures formed { IfOk result (λ f. IsFormed (file_seen f)) }
    ensures refusal { IfErr result (IsOfKernel number) }
{
    if more {
        return kernel_file_of_text(alloc, number, text);
    }
    match kernel_alone_of_text(alloc, number, text) {
        Ok(kernel) => Ok(KernelFile::Plain(kernel)),
        Err(ending) => Err(ending),
    }
}
