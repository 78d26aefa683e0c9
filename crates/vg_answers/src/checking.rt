//! Whether the program of a text means the kernel of another.

ghost use Rattle.std.specs.Prelude.{◌≡◌, ◌≢◌, IfErr};
ghost use Rattle.vg_answers.specs.Answered.{IsLaid, BytesAnswer, IsOfTexts};
ghost use Rattle.vg_answers.specs.Told.{checked_told};
ghost use Rattle.vg_library.specs.Kept.{entries_kept};
ghost use Rattle.vg_top.specs.Files.{Tells};
ghost use Rattle.vg_top.specs.Outcome.{VecAnswers};

use crate::report::{Report, lay};
use std::alloc::Global;
use vg_library::Library;
use vg_top::{
    Ending, FileNumber, KERNEL_LIMIT, PROGRAM_LIMIT, compared, kernel_alone_of_text,
    program_alone_of_text,
};

/// That the program means the kernel, or why not.
fn checked(
    alloc: Global,
    library: &Library,
    kernel: &[u8],
    program: &[u8],
) -> Result<Vec<u8>, Ending>
    ensures told { Tells VecAnswers result
        (checked_told (entries_kept library.now) kernel.now program.now) }
    ensures refusal { IfErr result IsOfTexts }
{
    if kernel.len() as u64 > KERNEL_LIMIT {
        return Err(Ending::TooLarge(FileNumber(2)));
    }
    let tree = match kernel_alone_of_text(alloc, FileNumber(2), kernel) {
        Ok(tree) => tree,
        Err(ending) => return Err(ending),
    };
    if program.len() as u64 > PROGRAM_LIMIT {
        return Err(Ending::TooLarge(FileNumber(3)));
    }
    let catalog = library.catalog();
    let headers = catalog.headers();
    let lines = match program_alone_of_text(alloc, FileNumber(3), program, headers) {
        Ok(lines) => lines,
        Err(ending) => return Err(ending),
    };
    compared(alloc, catalog, &tree, &lines, false)
}

/// Lays what `check` writes of a kernel and a program with these texts into the front of `out`, and gives
/// the status: 0, or 4 where the kernel is refused, 5 where the program is, 11 where one has more bytes than
/// its limit, 12 for want of memory, also at the bounds of `compare`, 13 where the program differs: then the
/// text of the first difference is laid. 20 where the room is too small: the report then says how much is
/// wanted.
pub fn check(
    alloc: Global,
    library: &Library,
    kernel: &[u8],
    program: &[u8],
    out: &mut [u8],
    report: &mut Report,
) -> u32
    ensures { result ≢ 12 → IsLaid BytesAnswer (checked_told (entries_kept library.now) kernel.now
        program.now) result report.new out.old out.new }
{
    let outcome = checked(alloc, library, kernel, program);
    lay(outcome, out, report)
}
