//! The command `check`.

ghost use Rattle.std.specs.Prelude.{◌≡◌, Some, IfSome, IfErr, IfOk};
ghost use Rattle.vg_catalog.specs.Called.{headers_of};
ghost use Rattle.vg_catalog.specs.Catalogs.{entries_in};
ghost use Rattle.vg_kernel.specs.Tree.{tree_of};
ghost use Rattle.vg_kernel.specs.WellFormed.{IsWellFormed};
ghost use Rattle.vg_program.specs.Valid.{KeepsRules};
ghost use Rattle.vg_request.specs.Request.{check as check_asked};
ghost use Rattle.vg_top.specs.Answer.{same_text};
ghost use Rattle.vg_top.specs.Check.{checked, compared};
ghost use Rattle.vg_top.specs.Files.{Tells};
ghost use Rattle.vg_top.specs.Outcome.{VecAnswers};
ghost use Rattle.vg_top.specs.Works.{Works, IsOfComparison, ending_of};

use crate::ending::{Ending, FileNumber};
use crate::files::{INSTRUCTIONS_LIMIT, KERNEL_LIMIT, PROGRAM_LIMIT, fetch};
use crate::instruction_file::catalog_of_text;
use crate::kernel_file::kernel_alone_of_text;
use crate::program_file::program_alone_of_text;
use std::alloc::{AllocError, Global};
use vg_catalog::Catalog;
use vg_check::{Comparison, compare};
use vg_kernel::Kernel;
use vg_outside::Shelf;
use vg_program::Program;

/// The answer where there is no difference.
fn same_text(alloc: Global) -> Result<Vec<u8>, AllocError>
    ensures { IfOk result (λ bytes. bytes.items ≡ same_text) }
{
    Vec::from_slice(alloc, b"same\n")
}

/// That a program, which may call the instructions of a catalogue, means a kernel. `Differs` (status 13) with
/// the text of the first difference where it has one, with `more` of the first wider one; `Memory` (12) for
/// want of memory, also at the bounds of `compare`.
#[tactic(auto, using(crate::proofs::Checks::same_told, crate::proofs::Checks::difference_told))]
pub fn compared(
    alloc: Global,
    catalog: &Catalog,
    kernel: &Kernel,
    program: &Program,
    more: bool,
) -> Result<Vec<u8>, Ending>
    requires kernel { IsWellFormed (tree_of kernel.now) }
    requires rules { KeepsRules (headers_of (entries_in catalog.now)) program.now }
    ensures told { Tells VecAnswers result
        (compared (entries_in catalog.now) (tree_of kernel.now) program.now more) }
    ensures refusal { IfErr result IsOfComparison }
{
    match compare(alloc, catalog, kernel, program, more) {
        Ok(Comparison::Same) => match same_text(alloc) {
            Ok(bytes) => Ok(bytes),
            Err(_) => Err(Ending::Memory),
        },
        Ok(Comparison::Differs(text)) => Err(Ending::Differs(text)),
        Err(_) => Err(Ending::Memory),
    }
}

/// That the program in a file means the kernel in another, with the instructions of a third.
///
/// The files are read and judged one after the other: the instructions, the kernel, the program. The first
/// that is refused gives the ending of `fetch`, `Instructions` (status 3), `Kernel` (4) or `Program` (5); a
/// loop is refused as a kernel, and a guarded text, a looped one or a guarded loop as a program. Then comes
/// `Differs` (13), with `more` for the first wider difference. `Memory` (12) comes for want of memory, also at
/// the bounds of `compare`.
pub fn check<S: Shelf>(
    alloc: Global,
    shelf: &mut S,
    instructions: &str,
    kernel: &str,
    program: &str,
    more: bool,
) -> Result<Vec<u8>, Ending>
    ensures told { IfSome (S.holds shelf.old) (λ held. Tells VecAnswers result
        (checked held instructions.now kernel.now program.now more)) }
    ensures shelf { Works S.Shelf
        (Some (check_asked instructions.now kernel.now program.now more))
        shelf.old shelf.new (ending_of result) }
{
    let first = FileNumber(1);
    let file = fetch(alloc, shelf, first, instructions, INSTRUCTIONS_LIMIT)?;
    let catalog = catalog_of_text(alloc, first, file.as_slice())?;
    let second = FileNumber(2);
    let text = fetch(alloc, shelf, second, kernel, KERNEL_LIMIT)?;
    let kernel = kernel_alone_of_text(alloc, second, text.as_slice())?;
    let third = FileNumber(3);
    let body = fetch(alloc, shelf, third, program, PROGRAM_LIMIT)?;
    let program = program_alone_of_text(alloc, third, body.as_slice(), catalog.headers())?;
    compared(alloc, &catalog, &kernel, &program, more)
}
