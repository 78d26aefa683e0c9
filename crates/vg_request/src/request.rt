//! What the words of a command line ask for.

ghost use Rattle.std.specs.Prelude.{◌≡◌, true, false, Ok, None, option_map, IfOk, drop, length, ◌≤◌};
ghost use Rattle.vg_request.specs.Found.{run_found, eval_found, lift_found, trial_found};
ghost use Rattle.vg_request.specs.Readable.{are_options, are_plain, are_read};
ghost use Rattle.vg_request.specs.Request.{run_words, eval_words, lift_words, compile_words, explain_words, trial_number, trial_words, check_of, check_words, terms_of, terms_words, request_of, files_of, file_name, asked_of};
ghost use Rattle.vg_request.specs.Texts.{texts_of};

use crate::binding::are_bindings;
use crate::options::Options;
use crate::reading::{are_plain, files_alone, on_kernel, positional, values_of};
use std::alloc::{AllocError, Global};
use vg_outside::{Bytes, Words};
use vg_text::decimal;

/// A request, with the names of its files in the order in which they are read.
#[derive(Clone, Copy)]
pub enum Request<'a> {
    /// The program text of a kernel, with `guard` its guarded text; of a loop its looped text, with
    /// `guard` and more plans its guarded loop.
    Compile {
        instructions: &'a str,
        kernel: &'a str,
        options: Options,
        guard: bool,
    },
    /// The memory that a program, a guarded or a looped text or a guarded loop leaves, its parameters
    /// bound by words.
    Run {
        instructions: &'a str,
        program: &'a str,
        memory: &'a str,
        bindings: &'a [Bytes],
    },
    /// The memory that a kernel or a loop leaves, its parameters bound by words.
    Eval {
        kernel: &'a str,
        memory: &'a str,
        bindings: &'a [Bytes],
    },
    /// The lines on all instances of the entries in a file.
    Lift {
        instructions: &'a str,
    },
    /// The lines on the plan that is chosen of a kernel, or of the block of a loop.
    Explain {
        instructions: &'a str,
        kernel: &'a str,
        options: Options,
    },
    /// The line on the trial of a number, 0 to 4294967295, with the entries in a file.
    Trial {
        instructions: &'a str,
        number: u32,
    },
    /// That a program has no difference to a kernel, or the first difference; with `more` no wider one,
    /// or the first wider difference.
    Check {
        instructions: &'a str,
        kernel: &'a str,
        program: &'a str,
        more: bool,
    },
    /// The lines on the values of a kernel, or of the kernel of a loop's turns; with `more` their cut
    /// terms too.
    Terms {
        kernel: &'a str,
        more: bool,
    },
}

impl<'a> Request<'a> {
    /// The name of the file of this number, from 1. The empty word where it has no such file.
    pub fn file_name(&self, number: u8) -> &'a str
        ensures { result.now ≡ file_name (files_of (asked_of self.now)) number }
    {
        match (*self, number) {
            (Request::Compile { instructions, .. }, 0..=1) => instructions,
            (Request::Compile { kernel, .. }, 2) => kernel,
            (Request::Run { instructions, .. }, 0..=1) => instructions,
            (Request::Run { program, .. }, 2) => program,
            (Request::Run { memory, .. }, 3) => memory,
            (Request::Eval { kernel, .. }, 0..=1) => kernel,
            (Request::Eval { memory, .. }, 2) => memory,
            (Request::Lift { instructions }, 0..=1) => instructions,
            (Request::Explain { instructions, .. }, 0..=1) => instructions,
            (Request::Explain { kernel, .. }, 2) => kernel,
            (Request::Trial { instructions, .. }, 0..=1) => instructions,
            (Request::Check { instructions, .. }, 0..=1) => instructions,
            (Request::Check { kernel, .. }, 2) => kernel,
            (Request::Check { program, .. }, 3) => program,
            (Request::Terms { kernel, .. }, 0..=1) => kernel,
            _ => "",
        }
    }
}

/// What the words ask for. None where they are no request.
///
/// The words after the command are read with `clap`. These give None before that, and take no
/// memory: no words, or a first word that is no command; words after it that are not text, or begin
/// with `-` and are no option of the command; an option without its value; a second `--width`,
/// `--guard` or `--more`. Fails for want of memory alone.
pub fn request_of(alloc: Global, words: &Words) -> Result<Option<Request<'_>>, AllocError>
    ensures asked { IfOk result (λ r. option_map asked_of r ≡ request_of words.now) }
    ensures refused { are_read words.now ≡ false → result ≡ Ok None }
{
    if words.len() == 0 {
        return Ok(None);
    }
    let command = words.get(0);
    if command == b"compile".as_slice() {
        return compile_words(alloc, words);
    }
    if command == b"run".as_slice() {
        return run_words(alloc, words);
    }
    if command == b"eval".as_slice() {
        return eval_words(alloc, words);
    }
    if command == b"lift".as_slice() {
        return lift_words(alloc, words);
    }
    if command == b"explain".as_slice() {
        return explain_words(alloc, words);
    }
    if command == b"trial".as_slice() {
        return trial_words(alloc, words);
    }
    if command == b"check".as_slice() {
        return check_words(alloc, words);
    }
    if command == b"terms".as_slice() {
        return terms_words(alloc, words);
    }
    Ok(None)
}

fn compile_words(alloc: Global, words: &Words) -> Result<Option<Request<'_>>, AllocError>
    requires { 1 ≤ length words.now }
    ensures asked { IfOk result (λ r. option_map asked_of r ≡ compile_words (drop 1 words.now)) }
    ensures refused { are_options true (drop 1 words.now) ≡ false → result ≡ Ok None }
{
    let Some(asked) = on_kernel(alloc, words.behind(1), true)? else {
        return Ok(None);
    };
    Ok(Some(Request::Compile {
        instructions: asked.instructions,
        kernel: asked.kernel,
        options: asked.options,
        guard: asked.guard,
    }))
}

fn explain_words(alloc: Global, words: &Words) -> Result<Option<Request<'_>>, AllocError>
    requires { 1 ≤ length words.now }
    ensures asked { IfOk result (λ r. option_map asked_of r ≡ explain_words (drop 1 words.now)) }
    ensures refused { are_options false (drop 1 words.now) ≡ false → result ≡ Ok None }
{
    let Some(asked) = on_kernel(alloc, words.behind(1), false)? else {
        return Ok(None);
    };
    Ok(Some(Request::Explain {
        instructions: asked.instructions,
        kernel: asked.kernel,
        options: asked.options,
    }))
}

/// The words after the first so many.
fn words_behind(words: &Words, count: usize) -> &[Bytes]
    ensures { result.now ≡ drop count words.now }
{
    if count <= words.len() {
        words.behind(count)
    } else {
        &[]
    }
}

fn run_found<'a>(files: &[&'a str], bindings: &'a [Bytes]) -> Option<Request<'a>>
    ensures { option_map asked_of result ≡ run_found (texts_of files.now) bindings.now }
{
    let [instructions, program, memory, ..] = files else {
        return None;
    };
    if !are_bindings(bindings) {
        return None;
    }
    Some(Request::Run {
        instructions: *instructions,
        program: *program,
        memory: *memory,
        bindings,
    })
}

#[tactic(auto, using(crate::proofs::Plain::run_is, crate::proofs::Plain::run_none))]
fn run_words(alloc: Global, words: &Words) -> Result<Option<Request<'_>>, AllocError>
    requires { 1 ≤ length words.now }
    ensures asked { IfOk result (λ r. option_map asked_of r ≡ run_words (drop 1 words.now)) }
    ensures refused { are_plain (drop 1 words.now) ≡ false → result ≡ Ok None }
{
    let behind = words.behind(1);
    if !are_plain(behind) {
        return Ok(None);
    }
    let matches = positional(alloc, behind)?;
    Ok(run_found(values_of(&matches, "files"), words_behind(words, 4)))
}

fn eval_found<'a>(files: &[&'a str], bindings: &'a [Bytes]) -> Option<Request<'a>>
    ensures { option_map asked_of result ≡ eval_found (texts_of files.now) bindings.now }
{
    let [kernel, memory, ..] = files else {
        return None;
    };
    if !are_bindings(bindings) {
        return None;
    }
    Some(Request::Eval {
        kernel: *kernel,
        memory: *memory,
        bindings,
    })
}

#[tactic(auto, using(crate::proofs::Plain::eval_is, crate::proofs::Plain::eval_none))]
fn eval_words(alloc: Global, words: &Words) -> Result<Option<Request<'_>>, AllocError>
    requires { 1 ≤ length words.now }
    ensures asked { IfOk result (λ r. option_map asked_of r ≡ eval_words (drop 1 words.now)) }
    ensures refused { are_plain (drop 1 words.now) ≡ false → result ≡ Ok None }
{
    let behind = words.behind(1);
    if !are_plain(behind) {
        return Ok(None);
    }
    let matches = positional(alloc, behind)?;
    Ok(eval_found(values_of(&matches, "files"), words_behind(words, 3)))
}

fn lift_found<'a>(files: &[&'a str]) -> Option<Request<'a>>
    ensures { option_map asked_of result ≡ lift_found (texts_of files.now) }
{
    match files {
        [instructions] => Some(Request::Lift {
            instructions: *instructions,
        }),
        _ => None,
    }
}

#[tactic(auto, using(crate::proofs::Plain::lift_is, crate::proofs::Plain::lift_none))]
fn lift_words(alloc: Global, words: &Words) -> Result<Option<Request<'_>>, AllocError>
    requires { 1 ≤ length words.now }
    ensures asked { IfOk result (λ r. option_map asked_of r ≡ lift_words (drop 1 words.now)) }
    ensures refused { are_plain (drop 1 words.now) ≡ false → result ≡ Ok None }
{
    let behind = words.behind(1);
    if !are_plain(behind) {
        return Ok(None);
    }
    let matches = positional(alloc, behind)?;
    Ok(lift_found(values_of(&matches, "files")))
}

/// The number of a trial: decimal digits, 0 to 4294967295. None for any other word.
fn trial_number(digits: &[u8]) -> Option<u32>
    ensures { result ≡ trial_number digits.now }
{
    let number = decimal(digits)?;
    if number < 1 << 32 {
        Some(number as u32)
    } else {
        None
    }
}

fn trial_found<'a>(values: &[&'a str]) -> Option<Request<'a>>
    ensures { option_map asked_of result ≡ trial_found (texts_of values.now) }
{
    let [instructions, digits] = values else {
        return None;
    };
    let number = trial_number(digits.as_bytes())?;
    Some(Request::Trial {
        instructions: *instructions,
        number,
    })
}

#[tactic(auto, using(crate::proofs::Plain::trial_is, crate::proofs::Plain::trial_none))]
fn trial_words(alloc: Global, words: &Words) -> Result<Option<Request<'_>>, AllocError>
    requires { 1 ≤ length words.now }
    ensures asked { IfOk result (λ r. option_map asked_of r ≡ trial_words (drop 1 words.now)) }
    ensures refused { are_plain (drop 1 words.now) ≡ false → result ≡ Ok None }
{
    let behind = words.behind(1);
    if !are_plain(behind) {
        return Ok(None);
    }
    let matches = positional(alloc, behind)?;
    Ok(trial_found(values_of(&matches, "files")))
}

fn check_of<'a>(more: bool, files: &[&'a str]) -> Option<Request<'a>>
    ensures { option_map asked_of result ≡ check_of more (texts_of files.now) }
{
    match files {
        [instructions, kernel, program] => Some(Request::Check {
            instructions: *instructions,
            kernel: *kernel,
            program: *program,
            more,
        }),
        _ => None,
    }
}

fn check_words(alloc: Global, words: &Words) -> Result<Option<Request<'_>>, AllocError>
    requires { 1 ≤ length words.now }
    ensures asked { IfOk result (λ r. option_map asked_of r ≡ check_words (drop 1 words.now)) }
    ensures refused { are_options false (drop 1 words.now) ≡ false → result ≡ Ok None }
{
    let Some(asked) = files_alone(alloc, words.behind(1))? else {
        return Ok(None);
    };
    Ok(check_of(asked.more, asked.names()))
}

fn terms_of<'a>(more: bool, files: &[&'a str]) -> Option<Request<'a>>
    ensures { option_map asked_of result ≡ terms_of more (texts_of files.now) }
{
    match files {
        [kernel] => Some(Request::Terms {
            kernel: *kernel,
            more,
        }),
        _ => None,
    }
}

fn terms_words(alloc: Global, words: &Words) -> Result<Option<Request<'_>>, AllocError>
    requires { 1 ≤ length words.now }
    ensures asked { IfOk result (λ r. option_map asked_of r ≡ terms_words (drop 1 words.now)) }
    ensures refused { are_options false (drop 1 words.now) ≡ false → result ≡ Ok None }
{
    let Some(asked) = files_alone(alloc, words.behind(1))? else {
        return Ok(None);
    };
    Ok(terms_of(asked.more, asked.names()))
}
