//! Reads statements. The room says how many may stand one inside the other.

ghost use Rattle.std.specs.Prelude.{◌≤◌, ◌-◌, ◌∷◌, [], map, OnOk};
ghost use Rattle.vg_text.specs.Lexing.{reading, spelled_of};
ghost use Rattle.vg_pseudo.specs.Reads.{Reads};
ghost use Rattle.vg_pseudo.specs.Reader.{items_behind, unread};
ghost use Rattle.vg_pseudo.specs.Tree.{expression_of, stop, way, last, arm, choose, pick};
ghost use Rattle.vg_pseudo.specs.Views.{block_of};
ghost use Rattle.vg_pseudo.specs.Statements.{statement_follows, block_at, assigned_at, above_at, above_follows, assignment_at, for_at, way_at, else_if_follows, else_at, if_at, arm_follows, arm_at, case_at, word_at_head, statement_at, statements_at};

use crate::blocks::{Block, chained, else_block, for_block, nothing};
use crate::definitions::Definitions;
use crate::expression::Expr;
use crate::expressions::{form, index, whole};
use crate::fault::PseudoFault;
use crate::reading::{accept, expect, name, next, number};
use crate::statement::Stmt;
use crate::words::{begins_statement, is_free, number_of};
use std::alloc::Global;
use vg_base::Name;
use vg_text::byte::is_text;
use vg_text::lexer::Word;
use vg_text::{Lexer, Place};

/// How many statements may stand one inside the other.
const DEEPEST: u32 = 64;

/// How many nodes an index of a target may have one below the other.
const DEEPEST_INDEX: u32 = 64;

/// Whether a statement follows.
fn statement_follows(lexer: &mut Lexer<'_>) -> Result<bool, PseudoFault>
    ensures read { Reads (λ b. b) (reading lexer.new) result (statement_follows (reading
        lexer.old)) }
{
    let mut ahead = *lexer;
    let word = next(&mut ahead)?;
    Ok(begins_statement(word.bytes))
}

/// Whether an arm follows.
fn arm_follows(lexer: &mut Lexer<'_>) -> Result<bool, PseudoFault>
    ensures read { Reads (λ b. b) (reading lexer.new) result (arm_follows (reading lexer.old)) }
{
    let mut ahead = *lexer;
    let word = next(&mut ahead)?;
    Ok(number_of(word.bytes).is_some())
}

/// Whether ELSE IF comes next, which is taken then.
#[tactic(auto, unfolding(crate::specs::Statements::else_if_follows))]
fn else_if_follows(lexer: &mut Lexer<'_>) -> Result<bool, PseudoFault>
    ensures read { Reads (λ b. b) (reading lexer.new) result (else_if_follows (reading lexer.old)) }
    ensures fewer { OnOk result (unread (reading lexer.new) ≤ unread (reading lexer.old)) }
{
    let mut ahead = *lexer;
    let other = next(&mut ahead)?;
    if !is_text(other.bytes, b"ELSE") {
        return Ok(false);
    }
    let again = next(&mut ahead)?;
    if !is_text(again.bytes, b"IF") {
        return Ok(false);
    }
    *lexer = ahead;
    Ok(true)
}

/// Whether `[MAX:` comes next, which is taken then.
#[tactic(auto, unfolding(crate::specs::Statements::above_follows))]
fn above_follows(lexer: &mut Lexer<'_>) -> Result<bool, PseudoFault>
    ensures read { Reads (λ b. b) (reading lexer.new) result (above_follows (reading lexer.old)) }
    ensures fewer { OnOk result (unread (reading lexer.new) ≤ unread (reading lexer.old)) }
{
    let mut ahead = *lexer;
    let bracket = next(&mut ahead)?;
    if !is_text(bracket.bytes, b"[") {
        return Ok(false);
    }
    let greatest = next(&mut ahead)?;
    if !is_text(greatest.bytes, b"MAX") {
        return Ok(false);
    }
    let colon = next(&mut ahead)?;
    if !is_text(colon.bytes, b":") {
        return Ok(false);
    }
    *lexer = ahead;
    Ok(true)
}

/// `:= expression` after a target.
#[tactic(auto, unfolding(crate::specs::Statements::assigned_at))]
fn assigned(
    alloc: Global,
    definitions: &Definitions,
    place: Place,
    target: Expr,
    lexer: &mut Lexer<'_>,
) -> Result<Block, PseudoFault>
    ensures read { Reads block_of (reading lexer.new) result (assigned_at definitions.now place
        (expression_of target) (reading lexer.old)) }
    ensures fewer { OnOk result (unread (reading lexer.new) ≤ unread (reading lexer.old)) }
{
    let _sign = expect(b":=", lexer)?;
    let value = whole(alloc, definitions, lexer)?;
    Ok(Block {
        statements: Stmt::Assign {
            place,
            target,
            value: value.expression,
            rest: Box::new(alloc, Stmt::End)?,
        },
        calls: value.calls,
    })
}

/// `low] := expression` after `name[MAX:`.
#[tactic(auto, unfolding(crate::specs::Statements::above_at))]
fn above(
    alloc: Global,
    definitions: &Definitions,
    word: Word<'_>,
    lexer: &mut Lexer<'_>,
) -> Result<Block, PseudoFault>
    ensures read { Reads block_of (reading lexer.new) result (above_at definitions.now (spelled_of
        word.entry) (reading lexer.old)) }
    ensures fewer { OnOk result (unread (reading lexer.new) ≤ unread (reading lexer.old)) }
{
    let low = index(alloc, definitions, None, DEEPEST_INDEX, lexer)?;
    let _closed = expect(b"]", lexer)?;
    let _sign = expect(b":=", lexer)?;
    let value = whole(alloc, definitions, lexer)?;
    Ok(Block {
        statements: Stmt::AssignAbove {
            place: word.place,
            name: Name::new(alloc, word.bytes)?,
            low: low.expression,
            value: value.expression,
            rest: Box::new(alloc, Stmt::End)?,
        },
        calls: low.calls.max(value.calls),
    })
}

/// An assignment after its name.
#[tactic(auto, unfolding(crate::specs::Statements::assignment_at))]
fn assignment(
    alloc: Global,
    definitions: &Definitions,
    word: Word<'_>,
    lexer: &mut Lexer<'_>,
) -> Result<Block, PseudoFault>
    ensures read { Reads block_of (reading lexer.new) result (assignment_at definitions.now
        (spelled_of word.entry) (reading lexer.old)) }
    ensures fewer { OnOk result (unread (reading lexer.new) ≤ unread (reading lexer.old)) }
{
    if above_follows(lexer)? {
        return above(alloc, definitions, word, lexer);
    }
    let target = form(alloc, definitions, None, DEEPEST_INDEX, word, lexer)?;
    let block = assigned(alloc, definitions, word.place, target.expression, lexer)?;
    Ok(Block {
        statements: block.statements,
        calls: target.calls.max(block.calls),
    })
}

/// A statement below which `room` may stand, one inside the other.
#[cycle(statements)]
#[tactic(auto, unfolding(crate::specs::Statements::statement_at))]
fn statement(
    alloc: Global,
    definitions: &Definitions,
    room: u32,
    lexer: &mut Lexer<'_>,
) -> Result<Block, PseudoFault>
    ensures read { Reads block_of (reading lexer.new) result (statement_at definitions.now room
        (reading lexer.old)) }
    ensures fewer { OnOk result (unread (reading lexer.new) ≤ unread (reading lexer.old) - 1) }
{
    let word = next(lexer)?;
    if room == 0 {
        return Err(PseudoFault::NestingTooDeep { place: word.place });
    }
    headed(alloc, definitions, room - 1, word, lexer)
}

/// A statement that begins with this word.
#[cycle(statements)]
#[tactic(auto, unfolding(crate::specs::Statements::word_at_head))]
fn headed(
    alloc: Global,
    definitions: &Definitions,
    room: u32,
    word: Word<'_>,
    lexer: &mut Lexer<'_>,
) -> Result<Block, PseudoFault>
    ensures read { Reads block_of (reading lexer.new) result (word_at_head definitions.now (block_at
        (statement_at definitions.now room)) (spelled_of word.entry) (reading lexer.old)) }
    ensures fewer { OnOk result (unread (reading lexer.new) ≤ unread (reading lexer.old)) }
{
    let place = word.place;
    if is_text(word.bytes, b"FOR") {
        for_loop(alloc, definitions, room, place, lexer)
    } else if is_text(word.bytes, b"IF") {
        if_ways(alloc, definitions, room, lexer)
    } else if is_text(word.bytes, b"CASE") {
        case_arms(alloc, definitions, room, lexer)
    } else if is_free(word.bytes) {
        assignment(alloc, definitions, word, lexer)
    } else {
        Err(PseudoFault::Shape { place })
    }
}

/// Statements, as long as one follows.
#[cycle(statements)]
#[tactic(auto, unfolding(crate::specs::Statements::block_at))]
fn block(
    alloc: Global,
    definitions: &Definitions,
    room: u32,
    lexer: &mut Lexer<'_>,
) -> Result<Block, PseudoFault>
    ensures read { Reads block_of (reading lexer.new) result (block_at (statement_at definitions.now
        room) (reading lexer.old)) }
    ensures fewer { OnOk result (unread (reading lexer.new) ≤ unread (reading lexer.old)) }
{
    let all = block_items(alloc, definitions, room, lexer)?;
    Ok(chained(all, nothing()))
}

/// Statements, one after the other.
#[cycle(statements)]
fn block_items(
    alloc: Global,
    definitions: &Definitions,
    room: u32,
    lexer: &mut Lexer<'_>,
) -> Result<Vec<Block>, PseudoFault>
    ensures read { Reads (λ v. map block_of v.items) (reading lexer.new) result (items_behind
        statement_follows (statement_at definitions.now room) [] (reading lexer.old)) }
    ensures fewer { OnOk result (unread (reading lexer.new) ≤ unread (reading lexer.old)) }
{
    let mut done = Vec::new(alloc);
    'statements: loop {
        let more = match statement_follows(lexer) {
            Ok(more) => more,
            Err(fault) => return Err(fault),
        };
        if !more {
            return Ok(done);
        }
        match statement(alloc, definitions, room, lexer) {
            Ok(block) => done.push(block)?,
            Err(fault) => return Err(fault),
        }
    }
}

/// A loop after FOR, which stands at a place.
#[cycle(statements)]
#[tactic(auto, unfolding(crate::specs::Statements::for_at))]
fn for_loop(
    alloc: Global,
    definitions: &Definitions,
    room: u32,
    place: Place,
    lexer: &mut Lexer<'_>,
) -> Result<Block, PseudoFault>
    ensures read { Reads block_of (reading lexer.new) result (for_at definitions.now (block_at
        (statement_at definitions.now room)) place (reading lexer.old)) }
    ensures fewer { OnOk result (unread (reading lexer.new) ≤ unread (reading lexer.old)) }
{
    let variable = name(lexer)?;
    let _sign = expect(b":=", lexer)?;
    let first = whole(alloc, definitions, lexer)?;
    let _to = expect(b"to", lexer)?;
    let last = whole(alloc, definitions, lexer)?;
    let inside = block(alloc, definitions, room, lexer)?;
    let _closed = expect(b"ENDFOR", lexer)?;
    for_block(alloc, place, variable, first, last, inside)
}

/// A choice of ways after IF.
#[cycle(statements)]
#[tactic(auto, unfolding(crate::specs::Statements::if_at))]
fn if_ways(
    alloc: Global,
    definitions: &Definitions,
    room: u32,
    lexer: &mut Lexer<'_>,
) -> Result<Block, PseudoFault>
    ensures read { Reads block_of (reading lexer.new) result (if_at definitions.now (block_at
        (statement_at definitions.now room)) (reading lexer.old)) }
    ensures fewer { OnOk result (unread (reading lexer.new) ≤ unread (reading lexer.old)) }
{
    let first = way(alloc, definitions, room, lexer)?;
    let ways = more_ways(alloc, definitions, room, first, lexer)?;
    let other = else_way(alloc, definitions, room, lexer)?;
    let _closed = expect(b"FI", lexer)?;
    let all = chained(ways, other);
    Ok(Block {
        statements: Stmt::If {
            ways: Box::new(alloc, all.statements)?,
            rest: Box::new(alloc, Stmt::End)?,
        },
        calls: all.calls,
    })
}

/// A condition and the statements that it guards.
#[cycle(statements)]
#[tactic(auto, unfolding(crate::specs::Statements::way_at))]
fn way(
    alloc: Global,
    definitions: &Definitions,
    room: u32,
    lexer: &mut Lexer<'_>,
) -> Result<Block, PseudoFault>
    ensures read { Reads block_of (reading lexer.new) result (way_at definitions.now (block_at
        (statement_at definitions.now room)) (reading lexer.old)) }
    ensures fewer { OnOk result (unread (reading lexer.new) ≤ unread (reading lexer.old)) }
{
    let condition = whole(alloc, definitions, lexer)?;
    let inside = block(alloc, definitions, room, lexer)?;
    Ok(Block {
        statements: Stmt::Way {
            condition: condition.expression,
            body: Box::new(alloc, inside.statements)?,
            ways: Box::new(alloc, Stmt::End)?,
        },
        calls: condition.calls.max(inside.calls),
    })
}

/// Ways after the first, each after ELSE IF.
#[cycle(statements)]
fn more_ways(
    alloc: Global,
    definitions: &Definitions,
    room: u32,
    first: Block,
    lexer: &mut Lexer<'_>,
) -> Result<Vec<Block>, PseudoFault>
    ensures read { Reads (λ v. map block_of v.items) (reading lexer.new) result (items_behind
        else_if_follows (way_at definitions.now (block_at (statement_at definitions.now room)))
        (block_of first ∷ []) (reading lexer.old)) }
    ensures fewer { OnOk result (unread (reading lexer.new) ≤ unread (reading lexer.old)) }
{
    let mut done = Vec::new(alloc);
    done.push(first)?;
    'ways: loop {
        let more = match else_if_follows(lexer) {
            Ok(more) => more,
            Err(fault) => return Err(fault),
        };
        if !more {
            return Ok(done);
        }
        match way(alloc, definitions, room, lexer) {
            Ok(block) => done.push(block)?,
            Err(fault) => return Err(fault),
        }
    }
}

/// ELSE and its statements, or nothing.
#[cycle(statements)]
#[tactic(auto, unfolding(crate::specs::Statements::else_at))]
fn else_way(
    alloc: Global,
    definitions: &Definitions,
    room: u32,
    lexer: &mut Lexer<'_>,
) -> Result<Block, PseudoFault>
    ensures read { Reads block_of (reading lexer.new) result (else_at (block_at (statement_at
        definitions.now room)) (reading lexer.old)) }
    ensures fewer { OnOk result (unread (reading lexer.new) ≤ unread (reading lexer.old)) }
{
    if !accept(b"ELSE", lexer)? {
        return else_block(alloc, nothing());
    }
    let inside = block(alloc, definitions, room, lexer)?;
    else_block(alloc, inside)
}

/// A choice by a number after CASE.
#[cycle(statements)]
#[tactic(auto, unfolding(crate::specs::Statements::case_at))]
fn case_arms(
    alloc: Global,
    definitions: &Definitions,
    room: u32,
    lexer: &mut Lexer<'_>,
) -> Result<Block, PseudoFault>
    ensures read { Reads block_of (reading lexer.new) result (case_at definitions.now (block_at
        (statement_at definitions.now room)) (reading lexer.old)) }
    ensures fewer { OnOk result (unread (reading lexer.new) ≤ unread (reading lexer.old)) }
{
    let selector = whole(alloc, definitions, lexer)?;
    let _of = expect(b"OF", lexer)?;
    let arms = arm_items(alloc, definitions, room, lexer)?;
    let _closed = expect(b"ESAC", lexer)?;
    let all = chained(arms, nothing());
    Ok(Block {
        statements: Stmt::Case {
            selector: selector.expression,
            arms: Box::new(alloc, all.statements)?,
            rest: Box::new(alloc, Stmt::End)?,
        },
        calls: selector.calls.max(all.calls),
    })
}

/// Arms, one after the other.
#[cycle(statements)]
fn arm_items(
    alloc: Global,
    definitions: &Definitions,
    room: u32,
    lexer: &mut Lexer<'_>,
) -> Result<Vec<Block>, PseudoFault>
    ensures read { Reads (λ v. map block_of v.items) (reading lexer.new) result (items_behind
        arm_follows (arm_at (block_at (statement_at definitions.now room))) [] (reading
        lexer.old)) }
    ensures fewer { OnOk result (unread (reading lexer.new) ≤ unread (reading lexer.old)) }
{
    let mut done = Vec::new(alloc);
    'arms: loop {
        let more = match arm_follows(lexer) {
            Ok(more) => more,
            Err(fault) => return Err(fault),
        };
        if !more {
            return Ok(done);
        }
        match arm(alloc, definitions, room, lexer) {
            Ok(block) => done.push(block)?,
            Err(fault) => return Err(fault),
        }
    }
}

/// `number: statements`
#[cycle(statements)]
#[tactic(auto, unfolding(crate::specs::Statements::arm_at))]
fn arm(
    alloc: Global,
    definitions: &Definitions,
    room: u32,
    lexer: &mut Lexer<'_>,
) -> Result<Block, PseudoFault>
    ensures read { Reads block_of (reading lexer.new) result (arm_at (block_at (statement_at
        definitions.now room)) (reading lexer.old)) }
    ensures fewer { OnOk result (unread (reading lexer.new) ≤ unread (reading lexer.old) - 1) }
{
    let number = number(lexer)?;
    let _colon = expect(b":", lexer)?;
    let inside = block(alloc, definitions, room, lexer)?;
    Ok(Block {
        statements: Stmt::Arm {
            number,
            body: Box::new(alloc, inside.statements)?,
            arms: Box::new(alloc, Stmt::End)?,
        },
        calls: inside.calls,
    })
}

/// Statements, nested at most 64 deep.
pub(crate) fn statements(
    alloc: Global,
    definitions: &Definitions,
    lexer: &mut Lexer<'_>,
) -> Result<Block, PseudoFault>
    ensures read { Reads block_of (reading lexer.new) result (statements_at definitions.now (reading
        lexer.old)) }
    ensures fewer { OnOk result (unread (reading lexer.new) ≤ unread (reading lexer.old)) }
{
    block(alloc, definitions, DEEPEST, lexer)
}
