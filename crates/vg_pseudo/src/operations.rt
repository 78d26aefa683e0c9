//! Reads a whole operation.

ghost use Rattle.std.specs.Prelude.{◌≡◌, ◌≤◌, ◌∷◌, [], true, map, codes, OnOk, OnErr};
ghost use Rattle.vg_text.specs.Lexing.{reading};
ghost use Rattle.vg_pseudo.specs.Reads.{Reads};
ghost use Rattle.vg_pseudo.specs.Reader.{accept_at, items_behind, unread};
ghost use Rattle.vg_pseudo.specs.Tree.{define_of, operation_of};
ghost use Rattle.vg_pseudo.specs.Definitions.{with_callee};
ghost use Rattle.vg_pseudo.specs.Views.{defined_of};
ghost use Rattle.vg_pseudo.specs.Operations.{zero_at, high_at, param_at, params_at, callee, define_at, defines_at, operation_at};

use crate::definitions::{Callee, Definitions};
use crate::expressions::whole;
use crate::fault::PseudoFault;
use crate::operation::{Define, DefineParam, Operation};
use crate::reading::{accept, expect, name, next, number};
use crate::statements::statements;
use crate::words::number_of;
use std::alloc::{AllocError, Global};
use vg_base::{Items, Name};
use vg_text::Lexer;

/// A DEFINE that was read.
#[derive(Drop)]
pub(crate) struct Defined {
    pub(crate) define: Define,
    /// 1 where it calls no DEFINE, else one more than the greatest depth of those that it calls.
    pub(crate) depth: u32,
}

/// The number 0.
fn zero(lexer: &mut Lexer<'_>) -> Result<u128, PseudoFault>
    ensures read { Reads (λ n. n) (reading lexer.new) result (zero_at (reading lexer.old)) }
    ensures fewer { OnOk result (unread (reading lexer.new) ≤ unread (reading lexer.old)) }
{
    let word = next(lexer)?;
    match number_of(word.bytes) {
        Some(0) => Ok(0),
        _ => Err(PseudoFault::Shape { place: word.place }),
    }
}

/// `high:0]` after `name[`.
#[tactic(auto, unfolding(crate::specs::Operations::high_at))]
fn high(lexer: &mut Lexer<'_>) -> Result<u128, PseudoFault>
    ensures read { Reads (λ n. n) (reading lexer.new) result (high_at (reading lexer.old)) }
    ensures fewer { OnOk result (unread (reading lexer.new) ≤ unread (reading lexer.old)) }
{
    let high = number(lexer)?;
    let _colon = expect(b":", lexer)?;
    let _low = zero(lexer)?;
    let _closed = expect(b"]", lexer)?;
    Ok(high)
}

/// A parameter: `name`, or `name[high:0]`.
#[tactic(auto, unfolding(crate::specs::Operations::param_at))]
fn param(alloc: Global, lexer: &mut Lexer<'_>) -> Result<DefineParam, PseudoFault>
    ensures read { Reads (λ p. p) (reading lexer.new) result (param_at (reading lexer.old)) }
    ensures fewer { OnOk result (unread (reading lexer.new) ≤ unread (reading lexer.old)) }
{
    let word = name(lexer)?;
    if !accept(b"[", lexer)? {
        return Ok(DefineParam {
            name: Name::new(alloc, word.bytes)?,
            high: None,
        });
    }
    let high = high(lexer)?;
    Ok(DefineParam {
        name: Name::new(alloc, word.bytes)?,
        high: Some(high),
    })
}

/// Parameters after the first, each after a comma.
fn more_params(
    alloc: Global,
    first: DefineParam,
    lexer: &mut Lexer<'_>,
) -> Result<Vec<DefineParam>, PseudoFault>
    ensures read { Reads (λ v. v.items) (reading lexer.new) result (items_behind (accept_at (codes
        ",")) param_at (first ∷ []) (reading lexer.old)) }
    ensures fewer { OnOk result (unread (reading lexer.new) ≤ unread (reading lexer.old)) }
{
    let mut done = Vec::new(alloc);
    done.push(first)?;
    'params: loop {
        let more = match accept(b",", lexer) {
            Ok(more) => more,
            Err(fault) => return Err(fault),
        };
        if !more {
            return Ok(done);
        }
        match param(alloc, lexer) {
            Ok(param) => done.push(param)?,
            Err(fault) => return Err(fault),
        }
    }
}

/// Parameters after `(`, up to `)`.
#[tactic(auto, unfolding(crate::specs::Operations::params_at))]
fn params(alloc: Global, lexer: &mut Lexer<'_>) -> Result<Vec<DefineParam>, PseudoFault>
    ensures read { Reads (λ v. v.items) (reading lexer.new) result (params_at (reading lexer.old)) }
    ensures fewer { OnOk result (unread (reading lexer.new) ≤ unread (reading lexer.old)) }
{
    let first = param(alloc, lexer)?;
    let all = more_params(alloc, first, lexer)?;
    let _closed = expect(b")", lexer)?;
    Ok(all)
}

/// A DEFINE after its first word.
#[tactic(auto, unfolding(crate::specs::Operations::define_at))]
fn define(
    alloc: Global,
    definitions: &Definitions,
    lexer: &mut Lexer<'_>,
) -> Result<Defined, PseudoFault>
    ensures read { Reads defined_of (reading lexer.new) result (define_at definitions.now (reading
        lexer.old)) }
    ensures fewer { OnOk result (unread (reading lexer.new) ≤ unread (reading lexer.old)) }
{
    let word = name(lexer)?;
    let _opened = expect(b"(", lexer)?;
    let params = params(alloc, lexer)?;
    let _begun = expect(b"{", lexer)?;
    let body = statements(alloc, definitions, lexer)?;
    let _return = expect(b"RETURN", lexer)?;
    let answer = whole(alloc, definitions, lexer)?;
    let _closed = expect(b"}", lexer)?;
    Ok(Defined {
        define: Define {
            name: Name::new(alloc, word.bytes)?,
            params: Items::from_vec(params),
            body: body.statements,
            answer: answer.expression,
        },
        depth: u32::from(body.calls.max(answer.calls)) + 1,
    })
}

/// What is known of a DEFINE.
fn callee(defined: &Defined) -> Callee
    ensures { result ≡ callee (defined_of defined.now) }
{
    Callee {
        arity: defined.define.params.as_slice().len(),
        depth: defined.depth,
    }
}

/// One DEFINE more is known.
fn register(
    alloc: Global,
    definitions: &mut Definitions,
    defined: &Defined,
) -> Result<(), AllocError>
    ensures ok { OnOk result (definitions.new ≡ record {
      known = with_callee definitions.old.known
          (defined_of defined.now).define.name (callee (defined_of defined.now));
      inside =
          definitions.old.inside;
    }) }
{
    let callee = callee(defined);
    definitions.define(alloc, defined.define.name.bytes(), callee)
}

/// All DEFINEs of an operation.
fn defines(
    alloc: Global,
    definitions: &mut Definitions,
    lexer: &mut Lexer<'_>,
) -> Result<Vec<Define>, PseudoFault>
    requires { definitions.old ≡ record { known = []; inside = true } }
    ensures read { Reads (λ v. record {
      defines = map define_of v.items;
      known =
          definitions.new.known;
    }) (reading lexer.new) result (defines_at (reading lexer.old)) }
{
    let mut done = Vec::new(alloc);
    'defines: loop {
        let more = match accept(b"DEFINE", lexer) {
            Ok(more) => more,
            Err(fault) => return Err(fault),
        };
        if !more {
            return Ok(done);
        }
        match define(alloc, definitions, lexer) {
            Ok(defined) => {
                register(alloc, definitions, &defined)?;
                done.push(defined.define)?;
            }
            Err(fault) => return Err(fault),
        }
    }
}

/// An operation, up to the END after it.
#[tactic(auto, unfolding(crate::specs::Operations::operation_at))]
fn operation(alloc: Global, lexer: &mut Lexer<'_>) -> Result<Operation, PseudoFault>
    ensures read { Reads operation_of (reading lexer.new) result (operation_at (reading
        lexer.old)) }
{
    let mut definitions = Definitions::new(alloc);
    let defines = defines(alloc, &mut definitions, lexer)?;
    definitions.leave();
    let body = statements(alloc, &definitions, lexer)?;
    let _closed = expect(b"END", lexer)?;
    Ok(Operation {
        defines: Items::from_vec(defines),
        body: body.statements,
    })
}

/// Reads the text of an operation, up to the `END` that closes it.
///
/// Where the text is none, the fault is the first that is met as it is read from left to right, with its place, and the
/// lexer stands as it was. `Memory` says nothing of the text.
pub fn parse_operation(alloc: Global, lexer: &mut Lexer<'_>) -> Result<Operation, PseudoFault>
    // What the reader answers, word by word: the operation, or the first fault and its place; and where the lexer is then.
    ensures exact { Reads operation_of (reading lexer.new) result (operation_at (reading
        lexer.old)) }
    // After a refusal the lexer stands as it was.
    ensures behind { OnErr result (lexer.new ≡ lexer.old) }
{
    let mut ahead = *lexer;
    let operation = operation(alloc, &mut ahead)?;
    *lexer = ahead;
    Ok(operation)
}
