//! What is compiled and explained of a text.

ghost use Rattle.std.specs.Prelude.{◌≡◌, ◌≢◌, IfErr};
ghost use Rattle.vg_answers.specs.Answered.{IsLaid, BytesAnswer, IsOfTexts};
ghost use Rattle.vg_answers.specs.Told.{written_told};
ghost use Rattle.vg_library.specs.Kept.{entries_kept};
ghost use Rattle.vg_top.specs.Files.{Tells};
ghost use Rattle.vg_top.specs.Kept.{choices_kept};
ghost use Rattle.vg_top.specs.Outcome.{VecAnswers};

use crate::report::{Report, lay};
use std::alloc::Global;
use vg_library::Library;
use vg_top::{Ending, FileNumber, KERNEL_LIMIT, Task, written_of_text};

/// What is written of a text, or why nothing is.
fn written(
    alloc: Global,
    task: Task,
    library: &Library,
    width: u32,
    more: bool,
    text: &[u8],
) -> Result<Vec<u8>, Ending>
    ensures told { Tells VecAnswers result (written_told task (entries_kept library.now)
        (choices_kept library.now width more) text.now) }
    ensures refusal { IfErr result IsOfTexts }
{
    if text.len() as u64 > KERNEL_LIMIT {
        return Err(Ending::TooLarge(FileNumber(2)));
    }
    written_of_text(alloc, task, library, width, more, text)
}

/// Lays what `compile`, `compile --guard` or `explain` writes of a kernel or a loop with this text into
/// the front of `out`, and gives the status: 0, or 4 where the text is refused, 11 where it has more than
/// 262,144 bytes, 12 for want of memory, also at the bounds of `compile`. 20 where the answer is longer than
/// the room: the report then says how long it is.
///
/// The search keeps `width` plans of each size, any number.
pub fn compile(
    alloc: Global,
    task: Task,
    library: &Library,
    width: u32,
    more: bool,
    text: &[u8],
    out: &mut [u8],
    report: &mut Report,
) -> u32
    ensures { result ≢ 12 → IsLaid BytesAnswer (written_told task (entries_kept library.now)
        (choices_kept library.now width more) text.now) result report.new out.old out.new }
{
    let outcome = written(alloc, task, library, width, more, text);
    lay(outcome, out, report)
}
