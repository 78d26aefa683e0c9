//! Reads a kernel, word by word.

ghost use Rattle.std.specs.Prelude.{◌≡◌, ◌≤◌, [], length, vec_len, IfOk, Ok, OnErr};
ghost use Rattle.vg_text.specs.Lexing.{reading};
ghost use Rattle.vg_kernel.specs.Gives.{Gives};
ghost use Rattle.vg_kernel.specs.Statements.{kind_at, is_taken, parameter_at, parameter_too_many, comma_at, parameters_behind, parameters_at, head_at, block_at, body_at, kernel_at, kernel_of};
ghost use Rattle.vg_kernel.specs.Grammar.{IsKernelText};
ghost use Rattle.vg_kernel.specs.Tree.{tree_of, Tree};
ghost use Rattle.vg_kernel.specs.WellFormed.{IsHead, IsWellFormed};

use crate::fault::KernelFault;
use crate::head::Head;
use crate::kernel::Kernel;
use crate::parameter::{KParam, KParamKind};
use crate::reading::{end, expect, name, next};
use crate::statements::statements;
use crate::words::is_free;
use std::alloc::Global;
use vg_base::{Items, Name};
use vg_text::byte::is_text;
use vg_text::sized::width_behind;
use vg_text::{Lexer, Place};

/// The kind of a parameter.
#[tactic(auto, unfolding(crate::specs::Statements::kind_at))]
fn kind<'a>(lexer: Lexer<'a>) -> Result<(KParamKind, Lexer<'a>), KernelFault>
    ensures read { Gives (λ x. (x.0, reading x.1)) result (kind_at (reading lexer.entry)) }
{
    let (word, rest) = next(lexer)?;
    let place = word.place;
    if is_text(word.bytes, b"ptr") {
        return Ok((KParamKind::Pointer { noalias: false }, rest));
    }
    if is_text(word.bytes, b"noalias") {
        let behind = expect(b"ptr", rest)?;
        return Ok((KParamKind::Pointer { noalias: true }, behind));
    }
    match width_behind(b"i", word.bytes) {
        Some(width) => Ok((KParamKind::Integer(width), rest)),
        None => Err(KernelFault::Shape { place }),
    }
}

/// Whether some parameter has this name.
fn is_taken(name: &[u8], params: &[KParam]) -> bool
    ensures { result ≡ is_taken name.now params.now }
{
    params.iter().any(|param| is_text(param.name.bytes(), name))
}

/// A parameter whose name is none of those before.
#[tactic(auto, unfolding(crate::specs::Statements::parameter_at))]
fn parameter<'a>(
    alloc: Global,
    before: &[KParam],
    lexer: Lexer<'a>,
) -> Result<(KParam, Lexer<'a>), KernelFault>
    ensures read { Gives (λ x. (x.0, reading x.1)) result
        (parameter_at before.now (reading lexer.entry)) }
{
    let (word, rest) = name(lexer)?;
    if is_taken(word.bytes, before) {
        return Err(KernelFault::DuplicateName { place: word.place });
    }
    let rest = expect(b":", rest)?;
    let (kind, rest) = kind(rest)?;
    let name = Name::new(alloc, word.bytes)?;
    Ok((KParam { name, kind }, rest))
}

/// No parameter more may stand here.
fn one_too_many<'a>(lexer: Lexer<'a>) -> Result<(Vec<KParam>, Lexer<'a>), KernelFault>
    ensures read { Gives (λ x. (x.0.items, reading x.1)) result
        (parameter_too_many (reading lexer.entry)) }
    ensures few { IfOk result (λ x. vec_len x.0 ≤ 16) }
{
    let (word, _rest) = next(lexer)?;
    let place = word.place;
    if is_free(word.bytes) {
        Err(KernelFault::TooMany { place })
    } else {
        Err(KernelFault::Shape { place })
    }
}

/// Whether a comma stands after a parameter, and not the end of them.
fn comma<'a>(lexer: Lexer<'a>) -> Result<(bool, Lexer<'a>), KernelFault>
    ensures read { Gives (λ x. (x.0, reading x.1)) result (comma_at (reading lexer.entry)) }
{
    let (word, rest) = next(lexer)?;
    let place = word.place;
    if is_text(word.bytes, b")") {
        Ok((false, rest))
    } else if is_text(word.bytes, b",") {
        Ok((true, rest))
    } else {
        Err(KernelFault::Shape { place })
    }
}

/// The parameters after the first up to `)`, 16 at most in all.
fn parameters_behind<'a>(
    alloc: Global,
    first: Vec<KParam>,
    lexer: Lexer<'a>,
) -> Result<(Vec<KParam>, Lexer<'a>), KernelFault>
    requires { vec_len first ≡ 1 }
    ensures read { Gives (λ x. (x.0.items, reading x.1)) result
        (parameters_behind 15 first.items (reading lexer.entry)) }
    ensures few { IfOk result (λ x. vec_len x.0 ≤ 16) }
{
    let mut done = first;
    let mut lexer = lexer;
    'parameters: while done.len() < 16 {
        let (more, rest) = match comma(lexer) {
            Ok(found) => found,
            Err(fault) => return Err(fault),
        };
        if !more {
            return Ok((done, rest));
        }
        match parameter(alloc, done.as_slice(), rest) {
            Ok((next, behind)) => {
                done.push(next)?;
                lexer = behind;
            }
            Err(fault) => return Err(fault),
        }
    }
    last(done, lexer)
}

/// The end of the parameters, where no more may stand.
#[tactic(auto, unfolding(crate::specs::Statements::parameters_behind))]
fn last<'a>(done: Vec<KParam>, lexer: Lexer<'a>) -> Result<(Vec<KParam>, Lexer<'a>), KernelFault>
    requires { vec_len done ≤ 16 }
    ensures read { Gives (λ x. (x.0.items, reading x.1)) result
        (parameters_behind 0 done.items (reading lexer.entry)) }
    ensures few { IfOk result (λ x. vec_len x.0 ≤ 16) }
{
    let (more, rest) = comma(lexer)?;
    if more {
        return one_too_many(rest);
    }
    Ok((done, rest))
}

/// The parameters up to `)`, 16 at most.
#[tactic(auto, unfolding(crate::specs::Statements::parameters_at))]
fn parameters<'a>(alloc: Global, lexer: Lexer<'a>) -> Result<(Vec<KParam>, Lexer<'a>), KernelFault>
    ensures read { Gives (λ x. (x.0.items, reading x.1)) result
        (parameters_at (reading lexer.entry)) }
    ensures few { IfOk result (λ x. vec_len x.0 ≤ 16) }
{
    let mut done = Vec::new(alloc);
    let (word, behind) = next(lexer)?;
    if is_text(word.bytes, b")") {
        return Ok((done, behind));
    }
    let (first, rest) = parameter(alloc, &[], lexer)?;
    done.push(first)?;
    parameters_behind(alloc, done, rest)
}

/// `name (parameters)`.
#[tactic(auto, unfolding(crate::specs::Statements::head_at))]
fn head<'a>(alloc: Global, lexer: Lexer<'a>) -> Result<(Head, Lexer<'a>), KernelFault>
    ensures read { Gives (λ x. (x.0, reading x.1)) result (head_at (reading lexer.entry)) }
    ensures few { IfOk result (λ x. length x.0.params ≤ 16) }
{
    let (word, rest) = name(lexer)?;
    let rest = expect(b"(", rest)?;
    let (params, rest) = parameters(alloc, rest)?;
    let name = Name::new(alloc, word.bytes)?;
    let params = Items::from_vec(params);
    Ok((Head { name, params }, rest))
}

/// `{ statements }` after a head, and the place of the brace that closes them.
#[tactic(auto, unfolding(crate::specs::Statements::block_at))]
fn block<'a>(
    alloc: Global,
    head: Head,
    lexer: Lexer<'a>,
) -> Result<(Kernel, Place, Lexer<'a>), KernelFault>
    requires { length head.params ≤ 16 }
    ensures read { Gives (λ x. ((tree_of x.0, x.1), reading x.2)) result
        (block_at head (reading lexer.entry)) }
{
    let rest = expect(b"{", lexer)?;
    let (statements, brace, rest) = statements(alloc, head.params.as_slice(), rest)?;
    let kernel = Kernel {
        name: head.name,
        params: head.params,
        statements: Items::from_vec(statements),
    };
    Ok((kernel, brace, rest))
}

/// `{ statements }` after a head, with nothing after it.
#[tactic(auto, unfolding(crate::specs::Statements::body_at))]
fn body<'a>(alloc: Global, head: Head, lexer: Lexer<'a>) -> Result<(Kernel, Lexer<'a>), KernelFault>
    requires { length head.params ≤ 16 }
    ensures read { Gives (λ x. (tree_of x.0, reading x.1)) result
        (body_at head (reading lexer.entry)) }
{
    let (kernel, _brace, rest) = block(alloc, head, lexer)?;
    let rest = end(rest)?;
    Ok((kernel, rest))
}

/// A whole kernel, with nothing after it.
#[tactic(auto, unfolding(crate::specs::Statements::kernel_at))]
fn kernel<'a>(alloc: Global, lexer: Lexer<'a>) -> Result<Kernel, KernelFault>
    ensures read { Gives tree_of result (kernel_at (reading lexer.entry)) }
{
    let rest = expect(b"kernel", lexer)?;
    let (head, rest) = head(alloc, rest)?;
    let (kernel, _rest) = body(alloc, head, rest)?;
    Ok(kernel)
}

/// Reads `name (parameters)`, as it stands in a kernel after its first word.
///
/// On `Ok` the lexer stands after the `)`. An error is the first fault of this part, with the number
/// and the place that it has in a kernel, or want of memory; then the lexer is as it was.
pub fn parse_head(alloc: Global, lexer: &mut Lexer<'_>) -> Result<Head, KernelFault>
    ensures exact { Gives (λ h. (h, reading lexer.new)) result (head_at (reading lexer.old)) }
    ensures well_formed { IfOk result IsHead }
    ensures refused { OnErr result (lexer.new ≡ lexer.old) }
{
    let (head, behind) = head(alloc, *lexer)?;
    *lexer = behind;
    Ok(head)
}

/// Reads `{ statements }` after a head, and gives the kernel with the place of the brace that closes
/// it.
///
/// On `Ok` the lexer stands after that brace, and what stands there is not judged. An error is the
/// first fault of this part, or want of memory; then the lexer is as it was, and the head is dropped.
pub fn parse_statements(
    alloc: Global,
    lexer: &mut Lexer<'_>,
    head: Head,
) -> Result<(Kernel, Place), KernelFault>
    requires { IsHead head }
    ensures exact { Gives (λ x. ((tree_of x.0, x.1), reading lexer.new)) result
        (block_at head (reading lexer.old)) }
    ensures well_formed { IfOk result (λ x. IsWellFormed (tree_of x.0)) }
    ensures refused { OnErr result (lexer.new ≡ lexer.old) }
{
    let (kernel, brace, behind) = block(alloc, head, *lexer)?;
    *lexer = behind;
    Ok((kernel, brace))
}

/// Reads `{ statements }` after a head, and the end of the text.
///
/// On `Ok` the lexer stands at the end. An error is the first fault of this part, or want of memory;
/// then the lexer is as it was, and the head is dropped.
pub fn parse_body(alloc: Global, lexer: &mut Lexer<'_>, head: Head) -> Result<Kernel, KernelFault>
    requires { IsHead head }
    ensures exact { Gives (λ k. (tree_of k, reading lexer.new)) result
        (body_at head (reading lexer.old)) }
    ensures well_formed { IfOk result (λ k. IsWellFormed (tree_of k)) }
    ensures refused { OnErr result (lexer.new ≡ lexer.old) }
{
    let (kernel, behind) = body(alloc, head, *lexer)?;
    *lexer = behind;
    Ok(kernel)
}

/// What a text spells, read from left to right.
#[tactic(auto, unfolding(crate::specs::Statements::kernel_of))]
fn read(alloc: Global, text: &[u8]) -> Result<Kernel, KernelFault>
    ensures exact { Gives tree_of result (kernel_of text.now) }
{
    if text.len() > 262_144 {
        return Err(KernelFault::TooLarge {
            place: Place { line: 1, column: 1 },
        });
    }
    kernel(alloc, Lexer::new(text))
}

/// Reads the text of a kernel.
///
/// Where the text is none, the fault is the first that is met as it is read from left to right,
/// with the place of its token; of two faults at one token the one with the greater number.
/// `TooLarge` comes exactly where the text has more than 262,144 bytes. `Memory` says nothing of
/// the text.
pub fn parse_kernel(alloc: Global, text: &[u8]) -> Result<Kernel, KernelFault>
    // What the reader answers, word by word: the kernel, or the first fault and its place.
    ensures exact { Gives tree_of result (kernel_of text.now) }
    // What is read is in the language and keeps its limits.
    ensures sound { IfOk result (λ k. IsKernelText text.now (tree_of k)) }
    // What is in the language and keeps its limits is read, unless there is no memory.
    ensures complete { (k : Tree) → IsKernelText text.now k → Gives tree_of result (Ok k) }
    // What is read is well formed.
    ensures well_formed { IfOk result (λ k. IsWellFormed (tree_of k)) }
{
    read(alloc, text)
}
