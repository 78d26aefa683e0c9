//! The words after a command, read with `clap`.

ghost use Rattle.std.specs.Prelude.{◌≡◌, [], true, false, codes, Ok, None, IfOk, IfErr, option_map, unwrap_or};
ghost use Rattle.clap.specs.Words.{kind_of};
ghost use Rattle.vg_request.specs.Parts.{parts_of, part_seen};
ghost use Rattle.vg_request.specs.Options.{alone_asked, kernel_asked, kernel_seen, two_files, choices_seen};
ghost use Rattle.vg_request.specs.Readable.{is_one_more, free_behind, are_options, are_plain};
ghost use Rattle.vg_request.specs.Found.{HasParts, values_of, alone_found, alone_seen, kernel_found};
ghost use Rattle.vg_request.specs.Texts.{texts_of};

use crate::options::{Options, allowed_of, width_of};
use crate::part::{Flag, Part, first_part};
use crate::word::is_plain;
use clap::error::ErrorKind;
use clap::{Arg, ArgAction, ArgMatches, Command, Error};
use std::alloc::{AllocError, Global};
use vg_outside::Bytes;

/// Which options are free to stand, of those that stand once at most.
#[derive(Clone, Copy)]
pub(crate) struct Free {
    width: bool,
    guard: bool,
    more: bool,
}

/// Whether a part is an option that is not free to stand.
fn is_one_more(free: Free, part: Part<'_>) -> bool
    ensures { result ≡ is_one_more free (part_seen part.entry) }
{
    match part {
        Part::Width(_) => !free.width,
        Part::Flag(Flag::Guard) => !free.guard,
        Part::Flag(Flag::More) => !free.more,
        _ => false,
    }
}

/// What is free to stand after a part.
fn free_behind(free: Free, part: Part<'_>) -> Free
    ensures { result ≡ free_behind free (part_seen part.entry) }
{
    match part {
        Part::Width(_) => Free {
            width: false,
            ..free
        },
        Part::Flag(Flag::Guard) => Free {
            guard: false,
            ..free
        },
        Part::Flag(Flag::More) => Free {
            more: false,
            ..free
        },
        _ => free,
    }
}

/// Whether the words are options with their values, one width at most, `--guard` at most once and
/// only where it is free to stand, `--more` at most once, and texts that do not begin with `-`.
/// Takes no memory.
fn are_options(words: &[Bytes], guard_free: bool) -> bool
    ensures { result ≡ are_options guard_free words.now }
{
    let mut left = words;
    let mut free = Free {
        width: true,
        guard: guard_free,
        more: true,
    };
    'parts: while !left.is_empty() {
        let Some(cut) = first_part(left) else {
            return false;
        };
        if is_one_more(free, cut.part) {
            return false;
        }
        free = free_behind(free, cut.part);
        left = cut.behind;
    }
    true
}

/// Whether each word is text that does not begin with `-`. Takes no memory.
pub(crate) fn are_plain(words: &[Bytes]) -> bool
    ensures { result ≡ are_plain words.now }
{
    words.iter().all(|word| is_plain(word.as_slice()))
}

/// What `clap` reads of words that are options and files.
fn read<'a>(alloc: Global, words: &'a [Bytes]) -> Result<ArgMatches<'a>, Error>
    requires { are_options true words.now ≡ true }
    ensures ok { IfOk result (HasParts (parts_of words.now)) }
    ensures err { IfErr result (λ e. kind_of e ≡ ErrorKind.OutOfMemory) }
{
    let width = Arg::new(alloc, "width")
        .long("width")
        .action(ArgAction::Set);
    let with = Arg::new(alloc, "with")
        .long("with")
        .action(ArgAction::Append);
    let guard = Arg::new(alloc, "guard")
        .long("guard")
        .action(ArgAction::SetTrue);
    let more = Arg::new(alloc, "more")
        .long("more")
        .action(ArgAction::SetTrue);
    let files = Arg::new(alloc, "files").action(ArgAction::Append);
    let command = Command::new(alloc, "vegen")
        .no_binary_name(true)
        .disable_help_flag(true)
        .arg(width)?
        .arg(with)?
        .arg(guard)?
        .arg(more)?
        .arg(files)?;
    command.try_get_matches_from(words)
}

/// What `clap` reads of words that are options and files. Fails for want of memory alone.
fn matched<'a>(alloc: Global, words: &'a [Bytes]) -> Result<ArgMatches<'a>, AllocError>
    requires { are_options true words.now ≡ true }
    ensures { IfOk result (HasParts (parts_of words.now)) }
{
    match read(alloc, words) {
        Ok(matches) => Ok(matches),
        Err(_) => Err(AllocError),
    }
}

/// What `clap` reads of words none of which is an option. Fails for want of memory alone.
#[tactic(auto, using(crate::proofs::Plain::plain_are_options))]
pub(crate) fn positional<'a>(
    alloc: Global,
    words: &'a [Bytes],
) -> Result<ArgMatches<'a>, AllocError>
    requires { are_plain words.now ≡ true }
    ensures { IfOk result (λ m. values_of (codes "files") m ≡ words.now) }
{
    matched(alloc, words)
}

/// The values where there are some, else none.
fn some_or_none<'m, 'a>(values: Option<&'m [&'a str]>) -> &'m [&'a str]
    ensures { texts_of result.now ≡ unwrap_or (option_map (λ s. texts_of s.now) values.entry) [] }
{
    match values {
        Some(values) => values,
        None => &[],
    }
}

/// The values of an argument, in their order. The texts outlive what `clap` matched.
pub(crate) fn values_of<'m, 'a>(matches: &'m ArgMatches<'a>, id: &str) -> &'m [&'a str]
    ensures { texts_of result.now ≡ values_of id.now matches.now }
{
    some_or_none(matches.get_strs(id))
}

/// An instruction file, a kernel, what the options say, and whether guards are asked for.
#[derive(Clone, Copy)]
pub(crate) struct OnKernel<'a> {
    pub(crate) instructions: &'a str,
    pub(crate) kernel: &'a str,
    pub(crate) options: Options,
    pub(crate) guard: bool,
}

fn two_files<'a>(guard: bool, options: Options, files: &[&'a str]) -> Option<OnKernel<'a>>
    ensures { option_map kernel_seen result
        ≡ two_files guard (choices_seen options) (texts_of files.now) }
{
    match files {
        [instructions, kernel] => Some(OnKernel {
            instructions: *instructions,
            kernel: *kernel,
            options,
            guard,
        }),
        _ => None,
    }
}

fn kernel_found<'a>(guard: bool, more: bool, matches: &ArgMatches<'a>) -> Option<OnKernel<'a>>
    ensures { option_map kernel_seen result ≡ kernel_found guard more matches.now }
{
    let width = width_of(values_of(matches, "width"))?;
    let allowed = allowed_of(values_of(matches, "with"))?;
    two_files(
        guard,
        Options {
            width,
            allowed,
            more,
        },
        values_of(matches, "files"),
    )
}

/// `INSTRUCTIONS KERNEL`, with options anywhere among them, `--guard` where it is free to stand.
/// Fails for want of memory alone, and takes none for words that are no options and files.
#[tactic(auto, using(crate::proofs::Asked::no_options, crate::proofs::Asked::are_free))]
pub(crate) fn on_kernel<'a>(
    alloc: Global,
    words: &'a [Bytes],
    guard_free: bool,
) -> Result<Option<OnKernel<'a>>, AllocError>
    ensures asked { IfOk result (λ r. option_map kernel_seen r ≡ kernel_asked guard_free
        words.now) }
    ensures refused { are_options guard_free words.now ≡ false → result ≡ Ok None }
{
    if !are_options(words, guard_free) {
        return Ok(None);
    }
    let matches = matched(alloc, words)?;
    let guard = matches.get_flag("guard");
    let more = matches.get_flag("more");
    Ok(kernel_found(guard, more, &matches))
}

/// What `clap` reads of files, and whether `--more` stands beside them.
#[derive(Drop)]
pub(crate) struct FilesAlone<'a> {
    matches: ArgMatches<'a>,
    pub(crate) more: bool,
}

impl<'a> FilesAlone<'a> {
    /// The files, in their order.
    pub(crate) fn names(&self) -> &[&'a str]
        ensures { texts_of result.now ≡ (alone_seen self.now).files }
    {
        values_of(&self.matches, "files")
    }
}

fn alone_found<'a>(more: bool, matches: ArgMatches<'a>) -> Option<FilesAlone<'a>>
    ensures { option_map alone_seen result ≡ alone_found more matches.entry }
{
    if !values_of(&matches, "width").is_empty() {
        return None;
    }
    if !values_of(&matches, "with").is_empty() {
        return None;
    }
    Some(FilesAlone { matches, more })
}

/// Files, with `--more` at most once anywhere among them. Fails for want of memory alone, and takes
/// none for words that are no options and files.
#[tactic(auto, using(crate::proofs::Alone::no_options_alone, crate::proofs::Asked::are_free))]
pub(crate) fn files_alone<'a>(
    alloc: Global,
    words: &'a [Bytes],
) -> Result<Option<FilesAlone<'a>>, AllocError>
    ensures asked { IfOk result (λ r. option_map alone_seen r ≡ alone_asked words.now) }
    ensures refused { are_options false words.now ≡ false → result ≡ Ok None }
{
    if !are_options(words, false) {
        return Ok(None);
    }
    let matches = matched(alloc, words)?;
    let more = matches.get_flag("more");
    Ok(alone_found(more, matches))
}
