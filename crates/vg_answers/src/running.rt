//! What kernels and programs of texts leave of a memory.

ghost use Rattle.std.specs.Prelude.{◌≡◌, ◌≢◌, IfErr};
ghost use Rattle.vg_answers.specs.Answered.{IsLaid, BytesLeft, IsOfTexts};
ghost use Rattle.vg_answers.specs.Told.{evaluated_told, evaluated_given, ran_told, ran_given};
ghost use Rattle.vg_catalog.specs.Called.{headers_of};
ghost use Rattle.vg_library.specs.Kept.{entries_kept};
ghost use Rattle.vg_top.specs.Files.{Tells};
ghost use Rattle.vg_top.specs.KernelFile.{file_seen, IsFormed};
ghost use Rattle.vg_top.specs.Left.{AreLeft};
ghost use Rattle.vg_top.specs.ProgramFile.{program_seen, KeepsAll};
ghost use Rattle.vg_top.specs.Works.{IsOfRun};

use crate::given::given;
use crate::report::{Report, lay};
use std::alloc::Global;
use vg_compile::params_of;
use vg_library::Library;
use vg_top::{
    Ending, FileNumber, KERNEL_LIMIT, KernelFile, MEMORY_LIMIT, PROGRAM_LIMIT, ProgramFile,
    evaluate_bound, kernel_file_of_text, params_in, program_of_text, run_bound,
};

/// What a kernel or a loop leaves of a memory with these values of its parameters.
fn evaluate_given(
    alloc: Global,
    file: &KernelFile,
    memory: &[u8],
    places: &[u64],
    args: &[u64],
) -> Result<Vec<u8>, Ending>
    requires { IsFormed (file_seen file.now) }
    ensures told { Tells AreLeft result
        (evaluated_given (file_seen file.now) memory.now places.now args.now) }
    ensures refusal { IfErr result IsOfRun }
{
    let Ok(params) = params_of(alloc, params_in(file)) else {
        return Err(Ending::Memory);
    };
    let Ok(fitting) = given(alloc, params.as_slice(), places, args) else {
        return Err(Ending::Memory);
    };
    let Some(inputs) = fitting else {
        return Err(Ending::Bindings);
    };
    let Ok(bytes) = Vec::from_slice(alloc, memory) else {
        return Err(Ending::Memory);
    };
    evaluate_bound(alloc, file, &inputs, bytes)
}

/// What the kernel or the loop of a text leaves of a memory, or why it does not run.
fn evaluated(
    alloc: Global,
    kernel: &[u8],
    memory: &[u8],
    places: &[u64],
    args: &[u64],
) -> Result<Vec<u8>, Ending>
    ensures told { Tells AreLeft result
        (evaluated_told kernel.now memory.now places.now args.now) }
    ensures refusal { IfErr result IsOfTexts }
{
    if kernel.len() as u64 > KERNEL_LIMIT {
        return Err(Ending::TooLarge(FileNumber(1)));
    }
    let file = match kernel_file_of_text(alloc, FileNumber(1), kernel) {
        Ok(file) => file,
        Err(ending) => return Err(ending),
    };
    if memory.len() as u64 > MEMORY_LIMIT {
        return Err(Ending::TooLarge(FileNumber(2)));
    }
    evaluate_given(alloc, &file, memory, places, args)
}

/// Lays the memory that the kernel or the loop of a text leaves of a memory into the front of `out`, and
/// gives the status: 0, or 4 where the text is refused, 9 where the values are not those of the parameters
/// (one place for each pointer, and for each integer of w bits one number below 2^w, both in the order of the
/// parameters) or the turns of a loop move a pointer past 2^64 - 1, 10 where it accesses a byte outside the
/// memory, 11 where the text has more than 262,144 bytes or the memory more than 16,777,216, 12 for want of
/// memory. 20 where the room is shorter than the memory.
pub fn eval(
    alloc: Global,
    kernel: &[u8],
    memory: &[u8],
    places: &[u64],
    args: &[u64],
    out: &mut [u8],
    report: &mut Report,
) -> u32
    ensures { result ≢ 12 → IsLaid BytesLeft (evaluated_told kernel.now memory.now places.now args.now)
        result report.new out.old out.new }
{
    let outcome = evaluated(alloc, kernel, memory, places, args);
    lay(outcome, out, report)
}

/// What a program leaves of a memory with these values of its parameters.
fn run_given(
    alloc: Global,
    library: &Library,
    program: &ProgramFile,
    memory: &[u8],
    places: &[u64],
    args: &[u64],
) -> Result<Vec<u8>, Ending>
    requires rules { KeepsAll (headers_of (entries_kept library.now)) (program_seen program.now) }
    ensures told { Tells AreLeft result (ran_given (entries_kept library.now)
        (program_seen program.now) memory.now places.now args.now) }
    ensures refusal { IfErr result IsOfRun }
{
    let Ok(fitting) = given(alloc, program.params(), places, args) else {
        return Err(Ending::Memory);
    };
    let Some(inputs) = fitting else {
        return Err(Ending::Bindings);
    };
    let Ok(bytes) = Vec::from_slice(alloc, memory) else {
        return Err(Ending::Memory);
    };
    run_bound(alloc, library.catalog(), program, &inputs, bytes)
}

/// What the program of a text leaves of a memory, or why it does not run.
fn ran(
    alloc: Global,
    library: &Library,
    program: &[u8],
    memory: &[u8],
    places: &[u64],
    args: &[u64],
) -> Result<Vec<u8>, Ending>
    ensures told { Tells AreLeft result (ran_told (entries_kept library.now) program.now memory.now
        places.now args.now) }
    ensures refusal { IfErr result IsOfTexts }
{
    if program.len() as u64 > PROGRAM_LIMIT {
        return Err(Ending::TooLarge(FileNumber(2)));
    }
    let headers = library.catalog().headers();
    let file = match program_of_text(alloc, FileNumber(2), program, headers) {
        Ok(file) => file,
        Err(ending) => return Err(ending),
    };
    if memory.len() as u64 > MEMORY_LIMIT {
        return Err(Ending::TooLarge(FileNumber(3)));
    }
    run_given(alloc, library, &file, memory, places, args)
}

/// Lays the memory that the program of a text leaves of a memory into the front of `out`, and gives the
/// status: 0, or 5 where the text is refused, 9, 10, 11 (a text of more than 4,194,304 bytes), 12 (also at the
/// bounds of `Machine::new`) and 20 as for `eval`. The program may be a guarded one, a looped one or a guarded
/// loop, and calls the instructions of a library, whatever their extensions.
pub fn run(
    alloc: Global,
    library: &Library,
    program: &[u8],
    memory: &[u8],
    places: &[u64],
    args: &[u64],
    out: &mut [u8],
    report: &mut Report,
) -> u32
    ensures { result ≢ 12 → IsLaid BytesLeft (ran_told (entries_kept library.now) program.now memory.now
        places.now args.now) result report.new out.old out.new }
{
    let outcome = ran(alloc, library, program, memory, places, args);
    lay(outcome, out, report)
}
