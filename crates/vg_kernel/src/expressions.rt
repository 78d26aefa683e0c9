//! Reads an expression. A level says how tight the operators bind that may stand outside of calls
//! and parentheses: 0 for none, 1 for `*` alone, and so on up to 5 for all. The room says how many
//! nodes may stand below the root.
//!
//! What reads an expression inside another is not inlined, since each depth would then hold the
//! stack of all kinds of operands at once.

ghost use Rattle.std.specs.Prelude.{◌≡◌, ◌≤◌, ◌+◌, IfOk};
ghost use Rattle.std.specs.Option.{option_map};
ghost use Rattle.vg_text.specs.Lexing.{reading, spelled_of};
ghost use Rattle.vg_kernel.specs.Expressions.{operator_at, join_at, joined_at, level_at, expression_at, operand_at, named_at, call_at, two_at, shift_at, resize_at, select_at};
ghost use Rattle.vg_kernel.specs.Gives.{Gives};
ghost use Rattle.vg_kernel.specs.Names.{AreFew};
ghost use Rattle.vg_kernel.specs.Scanning.{scan_of, part_of, operator_view};

use crate::fault::KernelFault;
use crate::function::Function;
use crate::names::Names;
use crate::nodes::{pair_end, pair_node, resize_end, select_end, shift_end};
use crate::operands::{leaf, literal, load, negative, too_deep, value_of};
use crate::reading::{expect, next};
use crate::scan::{Part, Scan};
use crate::words::{function_named, is_free, level_of, operator_named};
use std::alloc::Global;
use vg_base::Width;
use vg_scalar::{Resize, Shift, TwoOp};
use vg_text::byte::{begins_digit, is_text};
use vg_text::lexer::Word;
use vg_text::sized::width_behind;
use vg_text::{Lexer, Place};

/// The level of a whole expression.
const LOOSEST: u32 = 5;

/// An operator that was read, and what is left after it.
#[derive(Clone, Copy)]
pub(crate) struct Operator<'a> {
    op: TwoOp,
    place: Place,
    lexer: Lexer<'a>,
}

/// The next word, where it is an operator that binds as tight as this. A fault there is met when
/// something takes the word.
#[inline(never)]
fn next_operator<'a>(level: u32, lexer: Lexer<'a>) -> Option<Operator<'a>>
    ensures { option_map operator_view result ≡ operator_at level (reading lexer.entry) }
{
    match lexer.word() {
        Ok((word, behind)) => match operator_named(word.bytes) {
            Some(op) if level_of(op) == level => Some(Operator {
                op,
                place: word.place,
                lexer: behind,
            }),
            _ => None,
        },
        Err(_) => None,
    }
}

/// An expression of at most `room` nodes one below the other.
#[cycle(expressions)]
#[inline(never)]
#[tactic(auto, unfolding(crate::specs::Expressions::expression_at))]
pub(crate) fn expression<'a>(
    alloc: Global,
    names: &Names,
    room: u32,
    level: u32,
    scan: Scan<'a>,
) -> Result<Part<'a>, KernelFault>
    requires few { AreFew names.now }
    requires most { room ≤ 256 }
    requires loosest { level ≤ 5 }
    ensures read { Gives part_of result (expression_at names.now room level (scan_of scan.entry)) }
    ensures deep { IfOk result (λ p. p.depth ≤ room) }
{
    if room == 0 {
        return too_deep(scan.lexer);
    }
    at_level(alloc, names, room - 1, level, scan)
}

/// An expression with `room` nodes below its root.
#[cycle(expressions)]
fn at_level<'a>(
    alloc: Global,
    names: &Names,
    room: u32,
    level: u32,
    scan: Scan<'a>,
) -> Result<Part<'a>, KernelFault>
    requires few { AreFew names.now }
    requires most { room ≤ 255 }
    requires loosest { level ≤ 5 }
    ensures read { Gives part_of result
        (level_at names.now (expression_at names.now room) room level (scan_of scan.entry)) }
    ensures deep { IfOk result (λ p. p.depth ≤ room + 1) }
{
    let mut left = operand(alloc, names, room, scan)?;
    let mut done = 0;
    'levels: while done < level {
        let next = joined(alloc, names, room, done, left)?;
        left = next;
        done += 1;
    }
    Ok(left)
}

/// Operators one level looser than this, and their right operands, as long as they follow.
#[cycle(expressions)]
#[inline(never)]
#[tactic(auto, unfolding(crate::specs::Expressions::joined_at))]
fn joined<'a>(
    alloc: Global,
    names: &Names,
    room: u32,
    level: u32,
    first: Part<'a>,
) -> Result<Part<'a>, KernelFault>
    requires few { AreFew names.now }
    requires most { room ≤ 255 }
    requires loosest { level ≤ 4 }
    requires shallow { first.depth ≤ room + 1 }
    ensures read { Gives part_of result
        (joined_at (expression_at names.now room) level room room (part_of first.entry)) }
    ensures deep { IfOk result (λ p. p.depth ≤ room + 1) }
{
    let mut left = first;
    let mut joins = room;
    'joins: while joins > 0 {
        let Some(operator) = next_operator(level + 1, left.scan.lexer) else {
            return Ok(left);
        };
        if left.depth > room {
            return Err(KernelFault::NestingTooDeep {
                place: operator.place,
            });
        }
        match join(alloc, names, room, level, left, operator) {
            Ok(next) => left = next,
            Err(fault) => return Err(fault),
        }
        joins -= 1;
    }
    match next_operator(level + 1, left.scan.lexer) {
        Some(operator) => Err(KernelFault::NestingTooDeep {
            place: operator.place,
        }),
        None => Ok(left),
    }
}

/// An operator and its right operand after what stands on its left.
#[cycle(expressions)]
#[inline(never)]
#[tactic(auto, unfolding(crate::specs::Expressions::join_at))]
fn join<'a>(
    alloc: Global,
    names: &Names,
    room: u32,
    level: u32,
    left: Part<'a>,
    operator: Operator<'a>,
) -> Result<Part<'a>, KernelFault>
    requires few { AreFew names.now }
    requires most { room ≤ 255 }
    requires loosest { level ≤ 4 }
    requires shallow { left.depth ≤ room }
    ensures read { Gives part_of result
        (join_at (expression_at names.now room) level
        (part_of left.entry) (operator_view operator.entry)) }
    ensures deep { IfOk result (λ p. p.depth ≤ room + 1) }
{
    let scan = Scan {
        lexer: operator.lexer,
        used: left.scan.used,
    };
    let right = expression(alloc, names, room, level, scan)?;
    let depth = left.depth.max(right.depth) + 1;
    let behind = right.scan;
    let (node, used) = pair_node(
        alloc,
        Function::Two(operator.op),
        operator.place,
        behind.used,
        left.expression,
        right.expression,
    )?;
    Ok(Part {
        expression: node,
        depth,
        scan: Scan {
            lexer: behind.lexer,
            used,
        },
    })
}

/// A whole expression, which a parenthesis or a comma ends.
#[cycle(expressions)]
#[inline(always)]
fn whole<'a>(
    alloc: Global,
    names: &Names,
    room: u32,
    lexer: Lexer<'a>,
    used: u32,
) -> Result<Part<'a>, KernelFault>
    requires few { AreFew names.now }
    requires most { room ≤ 255 }
    ensures read { Gives part_of result
        (expression_at names.now room 5 (record { reading = reading lexer.entry; used = used })) }
    ensures deep { IfOk result (λ p. p.depth ≤ room) }
{
    expression(alloc, names, room, LOOSEST, Scan { lexer, used })
}

/// An operand.
#[cycle(expressions)]
#[inline(never)]
#[tactic(auto, unfolding(crate::specs::Expressions::operand_at, crate::specs::Expressions::parenthesised_at))]
fn operand<'a>(
    alloc: Global,
    names: &Names,
    room: u32,
    scan: Scan<'a>,
) -> Result<Part<'a>, KernelFault>
    requires few { AreFew names.now }
    requires most { room ≤ 255 }
    ensures read { Gives part_of result
        (operand_at names.now (expression_at names.now room) (scan_of scan.entry)) }
    ensures deep { IfOk result (λ p. p.depth ≤ room + 1) }
{
    let used = scan.used;
    let (word, rest) = next(scan.lexer)?;
    if is_text(word.bytes, b"(") {
        let inside = whole(alloc, names, room, rest, used)?;
        let closed = expect(b")", inside.scan.lexer)?;
        return Ok(Part {
            expression: inside.expression,
            depth: inside.depth + 1,
            scan: Scan {
                lexer: closed,
                used: inside.scan.used,
            },
        });
    }
    if is_text(word.bytes, b"-") {
        return negative(word.place, rest, used);
    }
    if begins_digit(word.bytes) {
        return literal(false, word.place, word, rest, used);
    }
    named(alloc, names, room, word, rest, used)
}

/// An operand that begins with this name.
#[cycle(expressions)]
#[inline(never)]
#[tactic(auto, unfolding(crate::specs::Expressions::named_at))]
fn named<'a>(
    alloc: Global,
    names: &Names,
    room: u32,
    word: Word<'a>,
    lexer: Lexer<'a>,
    used: u32,
) -> Result<Part<'a>, KernelFault>
    requires few { AreFew names.now }
    requires most { room ≤ 255 }
    ensures read { Gives part_of result
        (named_at names.now (expression_at names.now room)
        (spelled_of word.entry) (reading lexer.entry) used) }
    ensures deep { IfOk result (λ p. p.depth ≤ room + 1) }
{
    let place = word.place;
    if is_free(word.bytes) {
        let value = value_of(names.given_as(word.bytes), place)?;
        return Ok(leaf(value, lexer, used));
    }
    if let Some(function) = function_named(word.bytes) {
        return call(alloc, names, room, function, place, lexer, used);
    }
    match width_behind(b"load", word.bytes) {
        Some(width) => load(names, width, place, lexer, used),
        None => Err(KernelFault::Shape { place }),
    }
}

/// The two operands of a function after its name and `(`.
#[cycle(expressions)]
#[inline(never)]
#[tactic(auto, unfolding(crate::specs::Expressions::pair_at))]
fn two<'a>(
    alloc: Global,
    names: &Names,
    room: u32,
    function: Function,
    place: Place,
    lexer: Lexer<'a>,
    used: u32,
) -> Result<Part<'a>, KernelFault>
    requires few { AreFew names.now }
    requires most { room ≤ 255 }
    ensures read { Gives part_of result
        (two_at (expression_at names.now room) function place (reading lexer.entry) used) }
    ensures deep { IfOk result (λ p. p.depth ≤ room + 1) }
{
    let left = whole(alloc, names, room, lexer, used)?;
    let comma = expect(b",", left.scan.lexer)?;
    let right = whole(alloc, names, room, comma, left.scan.used)?;
    pair_end(alloc, function, place, left, right)
}

/// The operand of a shift, and by how many places, after its name and `(`.
#[cycle(expressions)]
#[inline(never)]
fn shift<'a>(
    alloc: Global,
    names: &Names,
    room: u32,
    op: Shift,
    place: Place,
    lexer: Lexer<'a>,
    used: u32,
) -> Result<Part<'a>, KernelFault>
    requires few { AreFew names.now }
    requires most { room ≤ 255 }
    ensures read { Gives part_of result
        (shift_at (expression_at names.now room) op place (reading lexer.entry) used) }
    ensures deep { IfOk result (λ p. p.depth ≤ room + 1) }
{
    let operand = whole(alloc, names, room, lexer, used)?;
    shift_end(alloc, op, place, operand)
}

/// The operand of a resize after its name and `(`.
#[cycle(expressions)]
#[inline(never)]
fn resize<'a>(
    alloc: Global,
    names: &Names,
    room: u32,
    op: Resize,
    to: Width,
    place: Place,
    lexer: Lexer<'a>,
    used: u32,
) -> Result<Part<'a>, KernelFault>
    requires few { AreFew names.now }
    requires most { room ≤ 255 }
    ensures read { Gives part_of result
        (resize_at (expression_at names.now room) op to place (reading lexer.entry) used) }
    ensures deep { IfOk result (λ p. p.depth ≤ room + 1) }
{
    let operand = whole(alloc, names, room, lexer, used)?;
    resize_end(alloc, op, to, place, operand)
}

/// The three operands of a choice after its name and `(`.
#[cycle(expressions)]
#[inline(never)]
#[tactic(auto, unfolding(crate::specs::Expressions::select_at, crate::specs::Expressions::pair_at))]
fn select<'a>(
    alloc: Global,
    names: &Names,
    room: u32,
    place: Place,
    lexer: Lexer<'a>,
    used: u32,
) -> Result<Part<'a>, KernelFault>
    requires few { AreFew names.now }
    requires most { room ≤ 255 }
    ensures read { Gives part_of result
        (select_at (expression_at names.now room) place (reading lexer.entry) used) }
    ensures deep { IfOk result (λ p. p.depth ≤ room + 1) }
{
    let condition = whole(alloc, names, room, lexer, used)?;
    let comma = expect(b",", condition.scan.lexer)?;
    let left = whole(alloc, names, room, comma, condition.scan.used)?;
    let comma = expect(b",", left.scan.lexer)?;
    let right = whole(alloc, names, room, comma, left.scan.used)?;
    select_end(alloc, place, condition, left, right)
}

/// A call after the name of its function.
#[cycle(expressions)]
#[inline(never)]
#[tactic(auto, unfolding(crate::specs::Expressions::call_at))]
fn call<'a>(
    alloc: Global,
    names: &Names,
    room: u32,
    function: Function,
    place: Place,
    lexer: Lexer<'a>,
    used: u32,
) -> Result<Part<'a>, KernelFault>
    requires few { AreFew names.now }
    requires most { room ≤ 255 }
    ensures read { Gives part_of result
        (call_at (expression_at names.now room) function place (reading lexer.entry) used) }
    ensures deep { IfOk result (λ p. p.depth ≤ room + 1) }
{
    let opened = expect(b"(", lexer)?;
    match function {
        Function::Two(_) | Function::Compare(_) => {
            two(alloc, names, room, function, place, opened, used)
        }
        Function::Shift(op) => shift(alloc, names, room, op, place, opened, used),
        Function::Resize(op, to) => resize(alloc, names, room, op, to, place, opened, used),
        Function::Select => select(alloc, names, room, place, opened, used),
    }
}
