//! The top call.

ghost use Rattle.std.specs.Prelude.{◌≡◌, ◌≢◌, ◌<◌, ◌≤◌, ◌-◌, ◌^◌, ℕ, List, Option, IfSome, Err, None, false, option_map, length};
ghost use Rattle.vg_outside.specs.Count.{Rose};
ghost use Rattle.vg_outside.specs.Sink.{Appends, AppendsFront};
ghost use Rattle.vg_top.specs.declared.ending.Ending.{Ending};
ghost use Rattle.vg_request.specs.Readable.{are_read};
ghost use Rattle.vg_request.specs.Request.{request_of, files_in, asked_of};
ghost use Rattle.vg_top.specs.Causes.{MayEnd};
ghost use Rattle.vg_top.specs.Files.{Tells};
ghost use Rattle.vg_top.specs.Outcome.{VecAnswers};
ghost use Rattle.vg_top.specs.Verdict.{asked_outcome, verdict, IsAnswered, status_told, status_from, line_from, EndedBy};
ghost use Rattle.vg_top.specs.Line.{Says};
ghost use Rattle.vg_top.specs.Works.{Works, Reads, ending_of};

use crate::check::check;
use crate::ending::Ending;
use crate::eval::eval;
use crate::lift::lift;
use crate::message::say;
use crate::on_kernel::on_kernel;
use crate::run::run;
use crate::status::Status;
use crate::task::Task;
use crate::terms::terms;
use crate::trial::trial;
use std::alloc::Global;
use vg_outside::{Shelf, Sink, Words};
use vg_request::{Request, request_of};

/// What is asked for, whole in memory.
fn answer<S: Shelf>(
    alloc: Global,
    shelf: &mut S,
    request: Option<Request<'_>>,
) -> Result<Vec<u8>, Ending>
    ensures told { IfSome (S.holds shelf.old) (λ held.
        Tells VecAnswers result (asked_outcome held (option_map asked_of request.entry))) }
    ensures shelf { Works S.Shelf (option_map asked_of request.entry)
        shelf.old shelf.new (ending_of result) }
    ensures nothing { request.entry ≡ None → result ≡ Err Ending.Usage }
{
    match request {
        Some(
            Request::Compile {
                instructions,
                kernel,
                options,
                guard,
            },
        ) => {
            if guard {
                on_kernel(alloc, shelf, Task::Guarded, instructions, kernel, options)
            } else {
                on_kernel(alloc, shelf, Task::Program, instructions, kernel, options)
            }
        }
        Some(
            Request::Explain {
                instructions,
                kernel,
                options,
            },
        ) => on_kernel(alloc, shelf, Task::Plan, instructions, kernel, options),
        Some(
            Request::Run {
                instructions,
                program,
                memory,
                bindings,
            },
        ) => run(alloc, shelf, instructions, program, memory, bindings),
        Some(
            Request::Eval {
                kernel,
                memory,
                bindings,
            },
        ) => eval(alloc, shelf, kernel, memory, bindings),
        Some(Request::Lift { instructions }) => lift(alloc, shelf, instructions),
        Some(
            Request::Trial {
                instructions,
                number,
            },
        ) => trial(alloc, shelf, instructions, number),
        Some(
            Request::Check {
                instructions,
                kernel,
                program,
                more,
            },
        ) => check(alloc, shelf, instructions, kernel, program, more),
        Some(Request::Terms { kernel, more }) => terms(alloc, shelf, kernel, more),
        None => Err(Ending::Usage),
    }
}

/// Does what the words of a command line ask for.
///
/// `compile INSTRUCTIONS KERNEL` reads the two files from `shelf` and writes the text of a program
/// to `out`: a program that means the kernel and costs no more than it. With `--with EXTENSION`,
/// once or more, it calls entries of those extensions alone; `--width N` is the width of the
/// search; with `--more` the program is that of the first of the least cost of the chosen plan, the
/// chosen wide plan and the chosen fed plan; with `--guard` the program has two sides and checks
/// that choose between them, so that pointers need not be declared noalias.
/// The kernel may be a counted loop, whose text is that of a program for a block of turns and of
/// one for the turns left over; with `--guard` it is refused, but with `--more` beside it the block
/// is a guarded program, whose checks are made anew for each block.
/// `explain INSTRUCTIONS KERNEL`, with the same options but `--guard`, writes the lines on the
/// packs of the plan whose program `compile` writes, and on what it, the plain plan and the kernel
/// cost; of a loop on the plan of its block.
/// `run INSTRUCTIONS PROGRAM MEMORY name=number ..` writes the memory that the program leaves of the
/// one in the file, with its parameters bound by the words, and `eval KERNEL MEMORY name=number ..`
/// the memory that the kernel leaves; programs may be guarded or looped ones or guarded loops,
/// kernels may be loops.
/// `lift INSTRUCTIONS` writes lines on each instance of the entries in the file: the canonical term of
/// each lane, and why packs cannot call it.
/// `trial INSTRUCTIONS N` writes a line on the trial of N, a number below 2^32: how many statements
/// its kernel has, what the kernel costs and what the program costs that is compiled for it with all
/// entries in the file, the width 32 and without `--more`, and the sum of the bytes that both leave
/// of its memory, modulo 2^32.
/// `check INSTRUCTIONS KERNEL PROGRAM` writes `same` where the program, from anywhere, has no
/// difference to the kernel: then it means the kernel. Else its status is `Differs`, and the line
/// tells the first difference; the program may mean the kernel all the same. With `--more` it is the
/// first wider difference, where terms are held against one another as whole terms and as sums:
/// each program that is `same` is `same` with it too.
/// `terms KERNEL` writes a line on each value of the kernel as `compile` numbers them: what it is,
/// and the term of an operation and of what is stored; with `--more` cut terms too; of a loop on the
/// values of the kernel of its turns.
///
/// The words are read with `clap`, which takes memory; words that it is not given are refused
/// without. All files are read before the one write. What goes wrong is told by the status and by one
/// line on `err`. Where `shelf` tells what it holds, the status is a function of the words and the
/// files, but for faults of reading and of writing to `out`, which counts show, and want of memory,
/// which is answered also at the bounds of the code (docs/limits.md). A fault of `err` is none of
/// these.
pub fn vegen<S: Shelf, O: Sink, E: Sink>(
    alloc: Global,
    words: &Words,
    shelf: &mut S,
    out: &mut O,
    err: &mut E,
) -> Status
    // What was written is the answer to what the words ask for of the files.
    ensures answered { result ≡ Status.Ok → (bytes : List ℕ)
        × Appends (O.written out.old) bytes (O.written out.new)
        × IfSome (S.holds shelf.old) (λ held. IsAnswered (verdict held words.now) bytes) }
    // A write that fails leaves a prefix of the answer.
    ensures cut_off { result ≡ Status.WriteFault → (bytes : List ℕ)
        × AppendsFront (O.written out.old) bytes (O.written out.new)
        × IfSome (S.holds shelf.old) (λ held. IsAnswered (verdict held words.now) bytes) }
    // With each other ending `out` is as it was, whatever it tells of itself.
    ensures unwritten { result ≢ Status.Ok → result ≢ Status.WriteFault → out.new ≡ out.old }

    // When each status comes. Which command may end with which is a fact on the words alone. Words
    // that are no request end with `Usage` or want of memory, and those that are not read at all
    // with `Usage`.
    ensures usage { result ≡ Status.Usage → request_of words.now ≡ None }
    ensures refused { are_read words.now ≡ false → result ≡ Status.Usage }
    ensures causes { MayEnd (request_of words.now) result }
    ensures absence { result ≡ Status.InputAbsent
        → Rose (S.absents shelf.old) (S.absents shelf.new) }
    ensures read_fault { result ≡ Status.ReadFault
        → Rose (S.faults shelf.old) (S.faults shelf.new) }
    ensures write_fault { result ≡ Status.WriteFault → Rose (O.faults out.old) (O.faults out.new) }
    ensures absence_seen { S.absents shelf.old < S.absents shelf.new → result ≡ Status.InputAbsent }
    ensures read_fault_seen { S.faults shelf.old < S.faults shelf.new → result ≡ Status.ReadFault }
    // The status is the verdict's, faults of the outside and want of memory aside.
    ensures told { result ≢ Status.NoMemory → result ≢ Status.ReadFault → result ≢ Status.WriteFault
        → IfSome (S.holds shelf.old) (λ held. result ≡ status_told (verdict held words.now)) }
    // Where nothing is wrong outside and there is memory, it is the verdict's.
    ensures complete { S.faults shelf.new ≡ S.faults shelf.old → S.faults shelf.old < 2 ^ 64 - 1
        → O.faults out.new ≡ O.faults out.old → O.faults out.old < 2 ^ 64 - 1
        → result ≢ Status.NoMemory
        → IfSome (S.holds shelf.old) (λ held. result ≡ status_told (verdict held words.now)) }

    // The line tells of the ending, which is the verdict's but for faults of the outside and want
    // of memory, or a prefix of the line stands there and the faults of `err` rose. Where the shelf
    // tells how often it was read, below 2^63, the files up to and with the one that was refused
    // were read, and all where none was; want of memory may come after each.
    ensures said { (ending : Option Ending) × (status_from ending ≡ result)
        × Says E.Sink (line_from (files_in (request_of words.now)) ending) err.old err.new
        × IfSome (S.holds shelf.old) (λ held. EndedBy ending (verdict held words.now))
        × Reads (length (files_in (request_of words.now)))
        (S.reads shelf.old) (S.reads shelf.new) ending }

    ensures keeps { S.holds shelf.new ≡ S.holds shelf.old }
{
    let Ok(request) = request_of(alloc, words) else {
        say(err, None, &Ending::Memory);
        return Status::NoMemory;
    };
    let ending = match answer(alloc, shelf, request) {
        Ok(bytes) => match out.write(bytes.as_slice()) {
            Ok(()) => return Status::Ok,
            Err(_) => Ending::WriteFault,
        },
        Err(ending) => ending,
    };
    say(err, request, &ending);
    ending.status()
}
