//! VeGen for C: a library of instructions is read once, and kernels are compiled, explained, checked and run
//! by it. `include/vegen.h` says what a caller in C owes; `specs/Exported.antt` what is promised of a handle.
#![tactic(auto)]

ghost use Rattle.std.specs.Prelude.{◌≡◌, ◌≢◌, None, IfSome, if◌then◌else◌};
ghost use Rattle.vegen_c.specs.Exported.{KeepsWhatIsTold, task_of};
ghost use Rattle.vg_answers.specs.Answered.{IsLaid, IsRefusedBy, BytesAnswer, BytesLeft};
ghost use Rattle.vg_answers.specs.Told.{checked_told, entries_told, evaluated_told, ran_told, written_told};
ghost use Rattle.vg_handle.specs.Handles.{flag_of};
ghost use Rattle.vg_library.specs.Kept.{entries_kept};
ghost use Rattle.vg_top.specs.Kept.{choices_kept};

use std::alloc::Global;
use vg_answers::{Report, Task, check, compile, eval, read, run};
use vg_handle::Handle;

/// Nothing is kept.
const NOTHING_KEPT: u32 = 21;

/// Reads the text of an instruction file: 0, and the handle keeps its entries, of which those may be called
/// whose extension is in the set. Else nothing is kept, and the report tells of the refusal: 2 where the
/// set has a bit of no extension, 3 where the text is refused, 11 where it is too large, 12 for want of
/// memory. What was kept before is freed first.
#[unsafe(no_mangle)]
pub extern "C" fn vegen_library_read(
    alloc: Global,
    text: &[u8],
    extensions: u32,
    library: &mut Handle,
    report: &mut Report,
) -> u32
    ensures read { result ≡ 0 → KeepsWhatIsTold extensions text.now library.new.kept }
    ensures some { result ≡ 0 → flag_of library.new.kept ≡ 1 }
    ensures refused { result ≢ 0 → library.new.kept ≡ None }
    ensures told { result ≢ 0 → result ≢ 12
        → IsRefusedBy (entries_told extensions text.now) result report.new }
{
    drop(library.take(alloc));
    match read(alloc, text, extensions, report) {
        Ok(kept) => match Box::new(alloc, kept) {
            Ok(kept) => {
                library.put(kept);
                0
            }
            Err(_) => 12,
        },
        Err(status) => status,
    }
}

/// Lays what `compile`, or `compile --guard`, writes of a kernel or a loop into the front of `out`: 0. Else 4
/// where the text is refused, 11 where it is too large, 12 for want of memory, 20 where the room is too small
/// (the report then says how much is wanted), 21 where nothing is kept.
#[unsafe(no_mangle)]
pub extern "C" fn vegen_compile(
    alloc: Global,
    library: &mut Handle,
    text: &[u8],
    width: u32,
    more: bool,
    guard: bool,
    out: &mut [u8],
    report: &mut Report,
) -> u32
    ensures same { library.new.kept ≡ library.old.kept }
    ensures none { library.old.kept ≡ None → result ≡ 21 }
    ensures told { result ≢ 12 → IfSome library.old.kept (λ l. IsLaid BytesAnswer
        (written_told (task_of guard) (entries_kept l) (choices_kept l width more) text.now)
        result report.new out.old out.new) }
{
    let task = if guard { Task::Guarded } else { Task::Program };
    let Some(kept) = library.take(alloc) else {
        return NOTHING_KEPT;
    };
    let status = compile(alloc, task, &kept, width, more, text, out, report);
    library.put(kept);
    status
}

/// Lays what `explain` writes of a kernel or a loop into the front of `out`, with the statuses of
/// `vegen_compile`.
#[unsafe(no_mangle)]
pub extern "C" fn vegen_explain(
    alloc: Global,
    library: &mut Handle,
    text: &[u8],
    width: u32,
    more: bool,
    out: &mut [u8],
    report: &mut Report,
) -> u32
    ensures same { library.new.kept ≡ library.old.kept }
    ensures none { library.old.kept ≡ None → result ≡ 21 }
    ensures told { result ≢ 12 → IfSome library.old.kept (λ l. IsLaid BytesAnswer
        (written_told Task.Plan (entries_kept l) (choices_kept l width more) text.now)
        result report.new out.old out.new) }
{
    let Some(kept) = library.take(alloc) else {
        return NOTHING_KEPT;
    };
    let status = compile(alloc, Task::Plan, &kept, width, more, text, out, report);
    library.put(kept);
    status
}

/// Lays what `check` writes of a kernel and a program into the front of `out`: 0 where the program means the
/// kernel. Else 4 or 5 where a text is refused, 11 where one is too large, 12 for want of memory, 13 where the
/// program differs, with the text of the first difference in `out`, 20 where the room is too small, 21 where
/// nothing is kept.
#[unsafe(no_mangle)]
pub extern "C" fn vegen_check(
    alloc: Global,
    library: &mut Handle,
    kernel: &[u8],
    program: &[u8],
    out: &mut [u8],
    report: &mut Report,
) -> u32
    ensures same { library.new.kept ≡ library.old.kept }
    ensures none { library.old.kept ≡ None → result ≡ 21 }
    ensures told { result ≢ 12 → IfSome library.old.kept (λ l. IsLaid BytesAnswer
        (checked_told (entries_kept l) kernel.now program.now) result report.new out.old out.new) }
{
    let Some(kept) = library.take(alloc) else {
        return NOTHING_KEPT;
    };
    let status = check(alloc, &kept, kernel, program, out, report);
    library.put(kept);
    status
}

/// Lays the memory that a kernel or a loop leaves of a memory into the front of `out`, with these places of its
/// pointers and values of its integers: 0. Else 4 where the text is refused, 9 where the values are not those
/// of the parameters, 10 where it accesses a byte outside the memory, 11 where the text or the memory is too
/// large, 12 for want of memory, 20 where the room is too small.
#[unsafe(no_mangle)]
pub extern "C" fn vegen_eval(
    alloc: Global,
    kernel: &[u8],
    memory: &[u8],
    places: &[u64],
    args: &[u64],
    out: &mut [u8],
    report: &mut Report,
) -> u32
    ensures { result ≢ 12 → IsLaid BytesLeft (evaluated_told kernel.now memory.now places.now args.now)
        result report.new out.old out.new }
{
    eval(alloc, kernel, memory, places, args, out, report)
}

/// Lays the memory that a program leaves of a memory into the front of `out`, with the statuses of
/// `vegen_eval`, but 5 where the text is refused, and 21 where nothing is kept.
#[unsafe(no_mangle)]
pub extern "C" fn vegen_run(
    alloc: Global,
    library: &mut Handle,
    program: &[u8],
    memory: &[u8],
    places: &[u64],
    args: &[u64],
    out: &mut [u8],
    report: &mut Report,
) -> u32
    ensures same { library.new.kept ≡ library.old.kept }
    ensures none { library.old.kept ≡ None → result ≡ 21 }
    ensures told { result ≢ 12 → IfSome library.old.kept (λ l. IsLaid BytesLeft
        (ran_told (entries_kept l) program.now memory.now places.now args.now)
        result report.new out.old out.new) }
{
    let Some(kept) = library.take(alloc) else {
        return NOTHING_KEPT;
    };
    let status = run(alloc, &kept, program, memory, places, args, out, report);
    library.put(kept);
    status
}

/// Frees what is kept.
#[unsafe(no_mangle)]
pub extern "C" fn vegen_library_free(alloc: Global, library: &mut Handle)
    ensures { library.new.kept ≡ None }
{
    drop(library.take(alloc));
}
