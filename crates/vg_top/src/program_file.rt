//! The program in a file of a request.

ghost use Rattle.std.specs.Prelude.{◌≡◌, length, take, IfOk, IfErr};
ghost use Rattle.std.specs.Str.{bytes_eq};
ghost use Rattle.vg_program.specs.Faults.{read};
ghost use Rattle.vg_program.specs.Valid.{KeepsRules};
ghost use Rattle.vg_top.specs.Files.{Tells};
ghost use Rattle.vg_top.specs.ProgramFile.{plain_file, guarded_file, looped_file, guarded_loop_file, program_file, program_or_refusal, program_seen, params_of, KeepsAll, IsPlain, IsProgram};
ghost use Rattle.vg_top.specs.Works.{IsOfProgram};

use crate::ending::{Ending, FileNumber};
use std::alloc::Global;
use vg_guard::{Guarded, parse_guarded};
use vg_guarded_loop::{GuardedLoop, parse_guarded_loop};
use vg_looped::{Looped, parse_looped};
use vg_program::param::Param;
use vg_program::{Program, ProgramFault, parse_program};
use vg_pseudo::Header;

/// What a program file holds.
pub enum ProgramFile {
    /// A program.
    Plain(Program),
    /// Two sides, and the checks that choose between them.
    Guarded(Guarded),
    /// The program of a block of turns, and that of one.
    Looped(Looped),
    /// The guarded program of a block of turns, and the program of one.
    GuardedLoop(GuardedLoop),
}

/// Written out, so that the exits of an owner call it: a derived one would be proved anew at each.
impl Drop for ProgramFile {
    fn drop(self) {
        match self {
            ProgramFile::Plain(_) => {}
            ProgramFile::Guarded(_) => {}
            ProgramFile::Looped(_) => {}
            ProgramFile::GuardedLoop(_) => {}
        }
    }
}

impl ProgramFile {
    /// The parameters, which are those of each program where there are more.
    pub fn params(&self) -> &[Param]
        ensures { result.now ≡ params_of (program_seen self.now) }
    {
        match self {
            ProgramFile::Plain(program) => program.params.as_slice(),
            ProgramFile::Guarded(guarded) => guarded.fast.params.as_slice(),
            ProgramFile::Looped(looped) => looped.block.params.as_slice(),
            ProgramFile::GuardedLoop(looped) => looped.block.fast.params.as_slice(),
        }
    }
}

/// Whether a text begins with these bytes.
fn begins(text: &[u8], bytes: &[u8]) -> bool
    ensures { result ≡ bytes_eq (take (length bytes.now) text.now) bytes.now }
{
    match text.get(..bytes.len()) {
        Some(front) => front == bytes,
        None => false,
    }
}

/// The program of the text of the request's file of this number, which may call instructions of these
/// headers; no guarded one, no looped one and no guarded loop may stand there. `Program` (status 5) with
/// the first fault of the text, or `Memory` (12) for want of memory alone.
pub fn program_alone_of_text(
    alloc: Global,
    number: FileNumber,
    text: &[u8],
    headers: &[Header],
) -> Result<Program, Ending>
    ensures told { Tells IsPlain result (program_or_refusal number (read headers.now text.now)) }
    ensures refusal { IfErr result (IsOfProgram number) }
    ensures rules { IfOk result (KeepsRules headers.now) }
{
    match parse_program(alloc, text, headers) {
        Ok(program) => Ok(program),
        Err(ProgramFault::Memory(_)) => Err(Ending::Memory),
        Err(fault) => Err(Ending::Program(number, fault)),
    }
}

/// The program of a text.
fn plain_of_text(
    alloc: Global,
    number: FileNumber,
    text: &[u8],
    headers: &[Header],
) -> Result<ProgramFile, Ending>
    ensures told { Tells IsProgram result
        (program_or_refusal number (plain_file headers.now text.now)) }
    ensures refusal { IfErr result (IsOfProgram number) }
    ensures rules { IfOk result (λ p. KeepsAll headers.now (program_seen p)) }
{
    match program_alone_of_text(alloc, number, text, headers) {
        Ok(program) => Ok(ProgramFile::Plain(program)),
        Err(ending) => Err(ending),
    }
}

/// The guarded program of a text.
fn guarded_of_text(
    alloc: Global,
    number: FileNumber,
    text: &[u8],
    headers: &[Header],
) -> Result<ProgramFile, Ending>
    ensures told { Tells IsProgram result
        (program_or_refusal number (guarded_file headers.now text.now)) }
    ensures refusal { IfErr result (IsOfProgram number) }
    ensures rules { IfOk result (λ p. KeepsAll headers.now (program_seen p)) }
{
    match parse_guarded(alloc, text, headers) {
        Ok(program) => Ok(ProgramFile::Guarded(program)),
        Err(ProgramFault::Memory(_)) => Err(Ending::Memory),
        Err(fault) => Err(Ending::Program(number, fault)),
    }
}

/// The looped text of a text.
fn looped_of_text(
    alloc: Global,
    number: FileNumber,
    text: &[u8],
    headers: &[Header],
) -> Result<ProgramFile, Ending>
    ensures told { Tells IsProgram result
        (program_or_refusal number (looped_file headers.now text.now)) }
    ensures refusal { IfErr result (IsOfProgram number) }
    ensures rules { IfOk result (λ p. KeepsAll headers.now (program_seen p)) }
{
    match parse_looped(alloc, text, headers) {
        Ok(program) => Ok(ProgramFile::Looped(program)),
        Err(ProgramFault::Memory(_)) => Err(Ending::Memory),
        Err(fault) => Err(Ending::Program(number, fault)),
    }
}

/// The guarded loop of a text.
fn guarded_loop_of_text(
    alloc: Global,
    number: FileNumber,
    text: &[u8],
    headers: &[Header],
) -> Result<ProgramFile, Ending>
    ensures told { Tells IsProgram result
        (program_or_refusal number (guarded_loop_file headers.now text.now)) }
    ensures refusal { IfErr result (IsOfProgram number) }
    ensures rules { IfOk result (λ p. KeepsAll headers.now (program_seen p)) }
{
    match parse_guarded_loop(alloc, text, headers) {
        Ok(program) => Ok(ProgramFile::GuardedLoop(program)),
        Err(ProgramFault::Memory(_)) => Err(Ending::Memory),
        Err(fault) => Err(Ending::Program(number, fault)),
    }
}

/// What the text of the request's file of this number holds, which may call instructions of these
/// headers: a guarded program where it begins with `guarded `, a looped one where it begins with
/// `looped `, a guarded loop where it begins with `guardedloop `, else a program. `Program` (status 5)
/// with the first fault of the text, or `Memory` (12) for want of memory alone.
#[tactic(auto, unfolding(crate::specs::ProgramFile::program_file))]
pub fn program_of_text(
    alloc: Global,
    number: FileNumber,
    text: &[u8],
    headers: &[Header],
) -> Result<ProgramFile, Ending>
    ensures told { Tells IsProgram result
        (program_or_refusal number (program_file headers.now text.now)) }
    ensures refusal { IfErr result (IsOfProgram number) }
    ensures rules { IfOk result (λ p. KeepsAll headers.now (program_seen p)) }
{
    if begins(text, b"guarded ") {
        return guarded_of_text(alloc, number, text, headers);
    }
    if begins(text, b"looped ") {
        return looped_of_text(alloc, number, text, headers);
    }
    if begins(text, b"guardedloop ") {
        return guarded_loop_of_text(alloc, number, text, headers);
    }
    plain_of_text(alloc, number, text, headers)
}
