//! Reads an expression. The level tells how loose the operators outside of calls, parentheses and brackets may bind: 0
//! for none, 1 for `*` alone, up to 7 for all, 8 for `?` too. The room tells how many nodes may stand one below the other.

ghost use Rattle.std.specs.Prelude.{◌≡◌, ◌≤◌, ◌+◌, [], ◌∷◌, map, OnOk, IfOk, codes};
ghost use Rattle.std.specs.List.{All};
ghost use Rattle.vg_text.specs.Lexing.{reading, spelled_of};
ghost use Rattle.vg_pseudo.specs.Reads.{Reads};
ghost use Rattle.vg_pseudo.specs.Reader.{accept_at, items_behind, unread};
ghost use Rattle.vg_pseudo.specs.Views.{part_of};
ghost use Rattle.vg_pseudo.specs.Expressions.{index_in, slice_end, bracket_at, element_end, element_at, form_at, parenthesised_at, prefixed_at, arguments_at, function_at, call_at, free_at, named_at, plain_at, operand_at, operator_of, operator_at, join_at, joined_one, joined_at, compared_at, choice_at, chosen_at, behind_at, level_at, too_deep_at, expression_at, whole_at};

use crate::calls::{counted, function_node, takes};
use crate::definitions::Definitions;
use crate::expression::Expr;
use crate::fault::PseudoFault;
use crate::nodes::{binary, bit, call_node, choice, element, name_leaf, part_leaf, slice, unary};
use crate::operators::{BinaryOp, UnaryOp};
use crate::parts::{Part, leaf};
use crate::reading::{accept, expect, next};
use crate::spot::Spot;
use crate::words::{
    Function, begins_operand, element_named, function_named, is_free, level_of, number_of,
    operator_named, prefix_named,
};
use std::alloc::Global;
use vg_base::Width;
use vg_text::byte::is_text;
use vg_text::lexer::Word;
use vg_text::{Lexer, Place};

/// How many nodes an expression may have one below the other, parentheses counted.
const DEEPEST: u32 = 64;

/// The level of an index.
const INDEX: u32 = 7;

/// The level of a whole expression.
const LOOSEST: u32 = 8;

/// An operand where no node may stand.
fn too_deep(whole: Place, lexer: &mut Lexer<'_>) -> Result<Part, PseudoFault>
    ensures read { Reads part_of (reading lexer.new) result (too_deep_at whole (reading
        lexer.old)) }
    ensures fewer { OnOk result (unread (reading lexer.new) ≤ unread (reading lexer.old)) }
    ensures deep { IfOk result (λ p. p.depth ≤ 0) }
{
    let word = next(lexer)?;
    if begins_operand(word.bytes) {
        Err(PseudoFault::NestingTooDeep { place: whole })
    } else {
        Err(PseudoFault::Shape { place: word.place })
    }
}

/// The operator of a word, where it binds as this level does.
fn operator_of(level: u32, bytes: &[u8]) -> Option<BinaryOp>
    ensures { result ≡ operator_of level bytes.now }
{
    match operator_named(bytes) {
        Some(op) if level_of(op) == level => Some(op),
        _ => None,
    }
}

/// The operator that comes next and binds as this level does, which is taken then.
fn operator(level: u32, lexer: &mut Lexer<'_>) -> Result<Option<BinaryOp>, PseudoFault>
    ensures read { Reads (λ o. o) (reading lexer.new) result (operator_at level (reading
        lexer.old)) }
    ensures fewer { OnOk result (unread (reading lexer.new) ≤ unread (reading lexer.old)) }
{
    let mut ahead = *lexer;
    let word = next(&mut ahead)?;
    match operator_of(level, word.bytes) {
        Some(op) => {
            *lexer = ahead;
            Ok(Some(op))
        }
        None => Ok(None),
    }
}

/// An expression of a level, of at most `room` nodes one below the other.
#[cycle(expressions)]
#[tactic(auto, unfolding(crate::specs::Expressions::expression_at))]
fn expression(
    alloc: Global,
    definitions: &Definitions,
    whole: Place,
    room: u32,
    level: u32,
    lexer: &mut Lexer<'_>,
) -> Result<Part, PseudoFault>
    requires most { room ≤ 64 }
    requires loosest { level ≤ 8 }
    ensures read { Reads part_of (reading lexer.new) result (expression_at definitions.now whole
        room level (reading lexer.old)) }
    ensures fewer { OnOk result (unread (reading lexer.new) ≤ unread (reading lexer.old)) }
    ensures deep { IfOk result (λ p. p.depth ≤ room) }
{
    if room == 0 {
        return too_deep(whole, lexer);
    }
    at_level(alloc, definitions, whole, room - 1, level, lexer)
}

/// An expression of a level, with `room` nodes below its root.
#[cycle(expressions)]
#[tactic(auto, unfolding(crate::specs::Expressions::level_at))]
fn at_level(
    alloc: Global,
    definitions: &Definitions,
    whole: Place,
    room: u32,
    level: u32,
    lexer: &mut Lexer<'_>,
) -> Result<Part, PseudoFault>
    requires most { room ≤ 63 }
    requires loosest { level ≤ 8 }
    ensures read { Reads part_of (reading lexer.new) result (level_at definitions.now whole
        (expression_at definitions.now whole room) room level (reading lexer.old)) }
    ensures fewer { OnOk result (unread (reading lexer.new) ≤ unread (reading lexer.old)) }
    ensures deep { IfOk result (λ p. p.depth ≤ room + 1) }
{
    if level == 0 {
        return operand(alloc, definitions, whole, room, lexer);
    }
    let left = at_level(alloc, definitions, whole, room, level - 1, lexer)?;
    behind(alloc, definitions, whole, room, level - 1, left, lexer)
}

/// What may follow an expression of a level at the next looser one.
#[cycle(expressions)]
fn behind(
    alloc: Global,
    definitions: &Definitions,
    whole: Place,
    room: u32,
    level: u32,
    left: Part,
    lexer: &mut Lexer<'_>,
) -> Result<Part, PseudoFault>
    requires most { room ≤ 63 }
    requires loosest { level ≤ 7 }
    requires shallow { left.depth ≤ room + 1 }
    ensures read { Reads part_of (reading lexer.new) result (behind_at whole (expression_at
        definitions.now whole room) room level (part_of left) (reading lexer.old)) }
    ensures fewer { OnOk result (unread (reading lexer.new) ≤ unread (reading lexer.old)) }
    ensures deep { IfOk result (λ p. p.depth ≤ room + 1) }
{
    if level == 7 {
        chosen(alloc, definitions, whole, room, left, lexer)
    } else if level == 3 {
        compared(alloc, definitions, whole, room, left, lexer)
    } else {
        joined(alloc, definitions, whole, room, level, left, lexer)
    }
}

/// Operators one level looser than this, and their right operands, as long as they follow.
#[cycle(expressions)]
#[tactic(auto, unfolding(crate::specs::Expressions::joined_at))]
fn joined(
    alloc: Global,
    definitions: &Definitions,
    whole: Place,
    room: u32,
    level: u32,
    first: Part,
    lexer: &mut Lexer<'_>,
) -> Result<Part, PseudoFault>
    requires most { room ≤ 63 }
    requires loosest { level ≤ 7 }
    requires shallow { first.depth ≤ room + 1 }
    ensures read { Reads part_of (reading lexer.new) result (joined_at whole (expression_at
        definitions.now whole room) room level room (part_of first) (reading lexer.old)) }
    ensures fewer { OnOk result (unread (reading lexer.new) ≤ unread (reading lexer.old)) }
    ensures deep { IfOk result (λ p. p.depth ≤ room + 1) }
{
    let mut left = first;
    let mut joins = room;
    'joins: while joins > 0 {
        let found = match operator(level + 1, lexer) {
            Ok(found) => found,
            Err(fault) => return Err(fault),
        };
        let Some(op) = found else {
            return Ok(left);
        };
        match joined_one(alloc, definitions, whole, room, level, left, op, lexer) {
            Ok(next) => left = next,
            Err(fault) => return Err(fault),
        }
        joins -= 1;
    }
    match operator(level + 1, lexer) {
        Ok(Some(_)) => Err(PseudoFault::NestingTooDeep { place: whole }),
        Ok(None) => Ok(left),
        Err(fault) => Err(fault),
    }
}

/// An operator that was taken and its right operand, after what stands on its left.
#[cycle(expressions)]
fn joined_one(
    alloc: Global,
    definitions: &Definitions,
    whole: Place,
    room: u32,
    level: u32,
    left: Part,
    op: BinaryOp,
    lexer: &mut Lexer<'_>,
) -> Result<Part, PseudoFault>
    requires most { room ≤ 63 }
    requires loosest { level ≤ 7 }
    ensures read { Reads part_of (reading lexer.new) result (joined_one whole (expression_at
        definitions.now whole room) room level (part_of left) op (reading lexer.old)) }
    ensures fewer { OnOk result (unread (reading lexer.new) ≤ unread (reading lexer.old)) }
    ensures deep { IfOk result (λ p. p.depth ≤ room + 1) }
{
    if left.depth > room {
        return Err(PseudoFault::NestingTooDeep { place: whole });
    }
    join(alloc, definitions, whole, room, level, left, op, lexer)
}

/// The right operand of an operator, after it.
#[cycle(expressions)]
#[tactic(auto, unfolding(crate::specs::Expressions::join_at))]
fn join(
    alloc: Global,
    definitions: &Definitions,
    whole: Place,
    room: u32,
    level: u32,
    left: Part,
    op: BinaryOp,
    lexer: &mut Lexer<'_>,
) -> Result<Part, PseudoFault>
    requires most { room ≤ 63 }
    requires loosest { level ≤ 7 }
    requires shallow { left.depth ≤ room }
    ensures read { Reads part_of (reading lexer.new) result (join_at (expression_at definitions.now
        whole room) level (part_of left) op (reading lexer.old)) }
    ensures fewer { OnOk result (unread (reading lexer.new) ≤ unread (reading lexer.old)) }
    ensures deep { IfOk result (λ p. p.depth ≤ room + 1) }
{
    let place = left.expression.spot().outer;
    let right = expression(alloc, definitions, whole, room, level, lexer)?;
    binary(alloc, op, place, left, right)
}

/// A comparison, which does not repeat.
#[cycle(expressions)]
#[tactic(auto, unfolding(crate::specs::Expressions::compared_at))]
fn compared(
    alloc: Global,
    definitions: &Definitions,
    whole: Place,
    room: u32,
    left: Part,
    lexer: &mut Lexer<'_>,
) -> Result<Part, PseudoFault>
    requires most { room ≤ 63 }
    requires shallow { left.depth ≤ room + 1 }
    ensures read { Reads part_of (reading lexer.new) result (compared_at whole (expression_at
        definitions.now whole room) room (part_of left) (reading lexer.old)) }
    ensures fewer { OnOk result (unread (reading lexer.new) ≤ unread (reading lexer.old)) }
    ensures deep { IfOk result (λ p. p.depth ≤ room + 1) }
{
    match operator(4, lexer)? {
        Some(op) => joined_one(alloc, definitions, whole, room, 3, left, op, lexer),
        None => Ok(left),
    }
}

/// `? first : second` after a condition, where it follows.
#[cycle(expressions)]
#[tactic(auto, unfolding(crate::specs::Expressions::chosen_at))]
fn chosen(
    alloc: Global,
    definitions: &Definitions,
    whole: Place,
    room: u32,
    condition: Part,
    lexer: &mut Lexer<'_>,
) -> Result<Part, PseudoFault>
    requires most { room ≤ 63 }
    requires shallow { condition.depth ≤ room + 1 }
    ensures read { Reads part_of (reading lexer.new) result (chosen_at whole (expression_at
        definitions.now whole room) room (part_of condition) (reading lexer.old)) }
    ensures fewer { OnOk result (unread (reading lexer.new) ≤ unread (reading lexer.old)) }
    ensures deep { IfOk result (λ p. p.depth ≤ room + 1) }
{
    if !accept(b"?", lexer)? {
        return Ok(condition);
    }
    if condition.depth > room {
        return Err(PseudoFault::NestingTooDeep { place: whole });
    }
    choice_behind(alloc, definitions, whole, room, condition, lexer)
}

/// `first : second` after a condition and `?`.
#[cycle(expressions)]
#[tactic(auto, unfolding(crate::specs::Expressions::choice_at))]
fn choice_behind(
    alloc: Global,
    definitions: &Definitions,
    whole: Place,
    room: u32,
    condition: Part,
    lexer: &mut Lexer<'_>,
) -> Result<Part, PseudoFault>
    requires most { room ≤ 63 }
    requires shallow { condition.depth ≤ room }
    ensures read { Reads part_of (reading lexer.new) result (choice_at (expression_at
        definitions.now whole room) (part_of condition) (reading lexer.old)) }
    ensures fewer { OnOk result (unread (reading lexer.new) ≤ unread (reading lexer.old)) }
    ensures deep { IfOk result (λ p. p.depth ≤ room + 1) }
{
    let first = expression(alloc, definitions, whole, room, LOOSEST, lexer)?;
    let _colon = expect(b":", lexer)?;
    let second = expression(alloc, definitions, whole, room, LOOSEST, lexer)?;
    choice(alloc, condition, first, second)
}

/// An operand.
#[cycle(expressions)]
#[tactic(auto, unfolding(crate::specs::Expressions::operand_at))]
fn operand(
    alloc: Global,
    definitions: &Definitions,
    whole: Place,
    room: u32,
    lexer: &mut Lexer<'_>,
) -> Result<Part, PseudoFault>
    requires most { room ≤ 63 }
    ensures read { Reads part_of (reading lexer.new) result (operand_at definitions.now
        (expression_at definitions.now whole room) (reading lexer.old)) }
    ensures fewer { OnOk result (unread (reading lexer.new) ≤ unread (reading lexer.old)) }
    ensures deep { IfOk result (λ p. p.depth ≤ room + 1) }
{
    let word = next(lexer)?;
    if is_text(word.bytes, b"(") {
        return parenthesised(alloc, definitions, whole, room, word.place, lexer);
    }
    plain(alloc, definitions, whole, room, word, lexer)
}

/// An expression in parentheses, after the first.
#[cycle(expressions)]
#[tactic(auto, unfolding(crate::specs::Expressions::parenthesised_at))]
fn parenthesised(
    alloc: Global,
    definitions: &Definitions,
    whole: Place,
    room: u32,
    place: Place,
    lexer: &mut Lexer<'_>,
) -> Result<Part, PseudoFault>
    requires most { room ≤ 63 }
    ensures read { Reads part_of (reading lexer.new) result (parenthesised_at (expression_at
        definitions.now whole room) place (reading lexer.old)) }
    ensures fewer { OnOk result (unread (reading lexer.new) ≤ unread (reading lexer.old)) }
    ensures deep { IfOk result (λ p. p.depth ≤ room + 1) }
{
    let inside = expression(alloc, definitions, whole, room, LOOSEST, lexer)?;
    let _closed = expect(b")", lexer)?;
    Ok(Part {
        expression: inside.expression.with_outer(place),
        depth: inside.depth + 1,
        calls: inside.calls,
    })
}

/// The operand after NOT or `-`.
#[cycle(expressions)]
#[tactic(auto, unfolding(crate::specs::Expressions::prefixed_at))]
fn prefixed(
    alloc: Global,
    definitions: &Definitions,
    whole: Place,
    room: u32,
    op: UnaryOp,
    place: Place,
    lexer: &mut Lexer<'_>,
) -> Result<Part, PseudoFault>
    requires most { room ≤ 63 }
    ensures read { Reads part_of (reading lexer.new) result (prefixed_at (expression_at
        definitions.now whole room) op place (reading lexer.old)) }
    ensures fewer { OnOk result (unread (reading lexer.new) ≤ unread (reading lexer.old)) }
    ensures deep { IfOk result (λ p. p.depth ≤ room + 1) }
{
    let operand = expression(alloc, definitions, whole, room, 0, lexer)?;
    unary(alloc, op, place, operand)
}

/// An operand that begins with this word, which is no parenthesis.
#[cycle(expressions)]
fn plain(
    alloc: Global,
    definitions: &Definitions,
    whole: Place,
    room: u32,
    word: Word<'_>,
    lexer: &mut Lexer<'_>,
) -> Result<Part, PseudoFault>
    requires most { room ≤ 63 }
    ensures read { Reads part_of (reading lexer.new) result (plain_at definitions.now (expression_at
        definitions.now whole room) (spelled_of word.entry) (reading lexer.old)) }
    ensures fewer { OnOk result (unread (reading lexer.new) ≤ unread (reading lexer.old)) }
    ensures deep { IfOk result (λ p. p.depth ≤ room + 1) }
{
    if let Some(op) = prefix_named(word.bytes) {
        return prefixed(alloc, definitions, whole, room, op, word.place, lexer);
    }
    match number_of(word.bytes) {
        Some(value) => Ok(leaf(Expr::Number {
            spot: Spot::at(word.place),
            value,
        })),
        None => named(alloc, definitions, whole, room, word, lexer),
    }
}

/// An operand that begins with this word, which is no parenthesis, no operator and no number.
#[cycle(expressions)]
fn named(
    alloc: Global,
    definitions: &Definitions,
    whole: Place,
    room: u32,
    word: Word<'_>,
    lexer: &mut Lexer<'_>,
) -> Result<Part, PseudoFault>
    requires most { room ≤ 63 }
    ensures read { Reads part_of (reading lexer.new) result (named_at definitions.now (expression_at
        definitions.now whole room) (spelled_of word.entry) (reading lexer.old)) }
    ensures fewer { OnOk result (unread (reading lexer.new) ≤ unread (reading lexer.old)) }
    ensures deep { IfOk result (λ p. p.depth ≤ room + 1) }
{
    let place = word.place;
    if is_free(word.bytes) {
        return free(alloc, definitions, whole, room, word, lexer);
    }
    match function_named(word.bytes) {
        Some(f) => function(alloc, definitions, whole, room, f, place, lexer),
        None => Err(PseudoFault::Shape { place }),
    }
}

/// A name: a call, or one of its forms.
#[cycle(expressions)]
#[tactic(auto, unfolding(crate::specs::Expressions::free_at))]
fn free(
    alloc: Global,
    definitions: &Definitions,
    whole: Place,
    room: u32,
    word: Word<'_>,
    lexer: &mut Lexer<'_>,
) -> Result<Part, PseudoFault>
    requires most { room ≤ 63 }
    ensures read { Reads part_of (reading lexer.new) result (free_at definitions.now (expression_at
        definitions.now whole room) (spelled_of word.entry) (reading lexer.old)) }
    ensures fewer { OnOk result (unread (reading lexer.new) ≤ unread (reading lexer.old)) }
    ensures deep { IfOk result (λ p. p.depth ≤ room + 1) }
{
    if accept(b"(", lexer)? {
        return call(alloc, definitions, whole, room, word, lexer);
    }
    form(alloc, definitions, Some(whole), room, word, lexer)
}

/// A call of a DEFINE after its name and `(`.
#[cycle(expressions)]
#[tactic(auto, unfolding(crate::specs::Expressions::call_at))]
fn call(
    alloc: Global,
    definitions: &Definitions,
    whole: Place,
    room: u32,
    word: Word<'_>,
    lexer: &mut Lexer<'_>,
) -> Result<Part, PseudoFault>
    requires most { room ≤ 63 }
    ensures read { Reads part_of (reading lexer.new) result (call_at definitions.now (expression_at
        definitions.now whole room) (spelled_of word.entry) (reading lexer.old)) }
    ensures fewer { OnOk result (unread (reading lexer.new) ≤ unread (reading lexer.old)) }
    ensures deep { IfOk result (λ p. p.depth ≤ room + 1) }
{
    let callee = definitions.callee(word.bytes);
    let calls = counted(definitions, callee, word.place)?;
    let parts = arguments(alloc, definitions, whole, room, lexer)?;
    if !takes(callee, parts.len()) {
        return Err(PseudoFault::Shape { place: word.place });
    }
    call_node(alloc, word, calls, parts, room)
}

/// A call of a function after its name.
#[cycle(expressions)]
#[tactic(auto, unfolding(crate::specs::Expressions::function_at))]
fn function(
    alloc: Global,
    definitions: &Definitions,
    whole: Place,
    room: u32,
    function: Function,
    place: Place,
    lexer: &mut Lexer<'_>,
) -> Result<Part, PseudoFault>
    requires most { room ≤ 63 }
    ensures read { Reads part_of (reading lexer.new) result (function_at (expression_at
        definitions.now whole room) function place (reading lexer.old)) }
    ensures fewer { OnOk result (unread (reading lexer.new) ≤ unread (reading lexer.old)) }
    ensures deep { IfOk result (λ p. p.depth ≤ room + 1) }
{
    let _opened = expect(b"(", lexer)?;
    let parts = arguments(alloc, definitions, whole, room, lexer)?;
    function_node(alloc, function, place, parts, room)
}

/// Arguments after `(`, up to `)`.
#[cycle(expressions)]
#[tactic(auto, unfolding(crate::specs::Expressions::arguments_at))]
fn arguments(
    alloc: Global,
    definitions: &Definitions,
    whole: Place,
    room: u32,
    lexer: &mut Lexer<'_>,
) -> Result<Vec<Part>, PseudoFault>
    requires most { room ≤ 63 }
    ensures read { Reads (λ v. map part_of v.items) (reading lexer.new) result (arguments_at
        (expression_at definitions.now whole room) (reading lexer.old)) }
    ensures fewer { OnOk result (unread (reading lexer.new) ≤ unread (reading lexer.old)) }
    ensures deep { IfOk result (λ v. All (λ p. p.depth ≤ room) v.items) }
{
    let first = expression(alloc, definitions, whole, room, LOOSEST, lexer)?;
    let parts = more_arguments(alloc, definitions, whole, room, first, lexer)?;
    let _closed = expect(b")", lexer)?;
    Ok(parts)
}

/// Arguments after the first, each after a comma.
#[cycle(expressions)]
fn more_arguments(
    alloc: Global,
    definitions: &Definitions,
    whole: Place,
    room: u32,
    first: Part,
    lexer: &mut Lexer<'_>,
) -> Result<Vec<Part>, PseudoFault>
    requires most { room ≤ 63 }
    requires shallow { first.depth ≤ room }
    ensures read { Reads (λ v. map part_of v.items) (reading lexer.new) result (items_behind
        (accept_at (codes ",")) (expression_at definitions.now whole room 8) (part_of first ∷ [])
        (reading lexer.old)) }
    ensures fewer { OnOk result (unread (reading lexer.new) ≤ unread (reading lexer.old)) }
    ensures deep { IfOk result (λ v. All (λ p. p.depth ≤ room) v.items) }
{
    let mut done = Vec::new(alloc);
    done.push(first)?;
    'more: loop {
        let more = match accept(b",", lexer) {
            Ok(more) => more,
            Err(fault) => return Err(fault),
        };
        if !more {
            return Ok(done);
        }
        match expression(alloc, definitions, whole, room, LOOSEST, lexer) {
            Ok(part) => done.push(part)?,
            Err(fault) => return Err(fault),
        }
    }
}

/// What stands after a name that is no call: brackets, an element, or nothing of its own. `whole` is where the
/// expression around it begins; an index of a target stands in none.
#[cycle(expressions)]
#[tactic(auto, unfolding(crate::specs::Expressions::form_at))]
pub(crate) fn form(
    alloc: Global,
    definitions: &Definitions,
    whole: Option<Place>,
    room: u32,
    word: Word<'_>,
    lexer: &mut Lexer<'_>,
) -> Result<Part, PseudoFault>
    requires most { room ≤ 64 }
    ensures read { Reads part_of (reading lexer.new) result (form_at (index_in definitions.now whole
        room) (spelled_of word.entry) (reading lexer.old)) }
    ensures fewer { OnOk result (unread (reading lexer.new) ≤ unread (reading lexer.old)) }
    ensures deep { IfOk result (λ p. p.depth ≤ room + 1) }
{
    if accept(b"[", lexer)? {
        return bracket(alloc, definitions, whole, room, word, lexer);
    }
    if accept(b".", lexer)? {
        return element_behind(alloc, definitions, whole, room, word, lexer);
    }
    name_leaf(alloc, word)
}

/// `high:low]` or `index]` after `name[`.
#[cycle(expressions)]
#[tactic(auto, unfolding(crate::specs::Expressions::bracket_at))]
fn bracket(
    alloc: Global,
    definitions: &Definitions,
    whole: Option<Place>,
    room: u32,
    word: Word<'_>,
    lexer: &mut Lexer<'_>,
) -> Result<Part, PseudoFault>
    requires most { room ≤ 64 }
    ensures read { Reads part_of (reading lexer.new) result (bracket_at (index_in definitions.now
        whole room) (spelled_of word.entry) (reading lexer.old)) }
    ensures fewer { OnOk result (unread (reading lexer.new) ≤ unread (reading lexer.old)) }
    ensures deep { IfOk result (λ p. p.depth ≤ room + 1) }
{
    let high = index(alloc, definitions, whole, room, lexer)?;
    if accept(b":", lexer)? {
        return slice_behind(alloc, definitions, whole, room, word, high, lexer);
    }
    let _closed = expect(b"]", lexer)?;
    bit(alloc, word, high)
}

/// `low]` after `name[high:`.
#[cycle(expressions)]
#[tactic(auto, unfolding(crate::specs::Expressions::slice_end))]
fn slice_behind(
    alloc: Global,
    definitions: &Definitions,
    whole: Option<Place>,
    room: u32,
    word: Word<'_>,
    high: Part,
    lexer: &mut Lexer<'_>,
) -> Result<Part, PseudoFault>
    requires most { room ≤ 64 }
    requires shallow { high.depth ≤ room }
    ensures read { Reads part_of (reading lexer.new) result (slice_end (index_in definitions.now
        whole room) (spelled_of word.entry) (part_of high) (reading lexer.old)) }
    ensures fewer { OnOk result (unread (reading lexer.new) ≤ unread (reading lexer.old)) }
    ensures deep { IfOk result (λ p. p.depth ≤ room + 1) }
{
    let low = index(alloc, definitions, whole, room, lexer)?;
    let _closed = expect(b"]", lexer)?;
    slice(alloc, word, high, low)
}

/// `elem` or `elem[index]` after `name.`.
#[cycle(expressions)]
#[tactic(auto, unfolding(crate::specs::Expressions::element_at))]
fn element_behind(
    alloc: Global,
    definitions: &Definitions,
    whole: Option<Place>,
    room: u32,
    word: Word<'_>,
    lexer: &mut Lexer<'_>,
) -> Result<Part, PseudoFault>
    requires most { room ≤ 64 }
    ensures read { Reads part_of (reading lexer.new) result (element_at (index_in definitions.now
        whole room) (spelled_of word.entry) (reading lexer.old)) }
    ensures fewer { OnOk result (unread (reading lexer.new) ≤ unread (reading lexer.old)) }
    ensures deep { IfOk result (λ p. p.depth ≤ room + 1) }
{
    let text = next(lexer)?;
    let Some(size) = element_named(text.bytes) else {
        return Err(PseudoFault::Shape { place: text.place });
    };
    if accept(b"[", lexer)? {
        return element_index(alloc, definitions, whole, room, word, size, lexer);
    }
    part_leaf(alloc, word, size)
}

/// `index]` after `name.elem[`.
#[cycle(expressions)]
#[tactic(auto, unfolding(crate::specs::Expressions::element_end))]
fn element_index(
    alloc: Global,
    definitions: &Definitions,
    whole: Option<Place>,
    room: u32,
    word: Word<'_>,
    size: Width,
    lexer: &mut Lexer<'_>,
) -> Result<Part, PseudoFault>
    requires most { room ≤ 64 }
    ensures read { Reads part_of (reading lexer.new) result (element_end (index_in definitions.now
        whole room) (spelled_of word.entry) size (reading lexer.old)) }
    ensures fewer { OnOk result (unread (reading lexer.new) ≤ unread (reading lexer.old)) }
    ensures deep { IfOk result (λ p. p.depth ≤ room + 1) }
{
    let at = index(alloc, definitions, whole, room, lexer)?;
    let _closed = expect(b"]", lexer)?;
    element(alloc, word, size, at)
}

/// An index.
#[cycle(expressions)]
pub(crate) fn index(
    alloc: Global,
    definitions: &Definitions,
    whole: Option<Place>,
    room: u32,
    lexer: &mut Lexer<'_>,
) -> Result<Part, PseudoFault>
    requires most { room ≤ 64 }
    ensures read { Reads part_of (reading lexer.new) result (index_in definitions.now whole room
        (reading lexer.old)) }
    ensures fewer { OnOk result (unread (reading lexer.new) ≤ unread (reading lexer.old)) }
    ensures deep { IfOk result (λ p. p.depth ≤ room) }
{
    if let Some(place) = whole {
        return expression(alloc, definitions, place, room, INDEX, lexer);
    }
    let mut ahead = *lexer;
    let first = next(&mut ahead)?;
    expression(alloc, definitions, first.place, room, INDEX, lexer)
}

/// A whole expression, which stands in no other.
pub(crate) fn whole(
    alloc: Global,
    definitions: &Definitions,
    lexer: &mut Lexer<'_>,
) -> Result<Part, PseudoFault>
    ensures read { Reads part_of (reading lexer.new) result (whole_at definitions.now (reading
        lexer.old)) }
    ensures fewer { OnOk result (unread (reading lexer.new) ≤ unread (reading lexer.old)) }
{
    let mut ahead = *lexer;
    let first = next(&mut ahead)?;
    expression(alloc, definitions, first.place, DEEPEST, LOOSEST, lexer)
}
