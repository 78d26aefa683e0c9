//! Expressions of names, and expressions above those that were read.

ghost use Rattle.std.specs.Prelude.{◌≡◌, ◌≤◌, ◌<◌, ◌+◌, ◌^◌, max, map, Ok, IfOk, IfSome};
ghost use Rattle.std.specs.List.{All};
ghost use Rattle.vg_text.specs.Lexing.{spelled_of};
ghost use Rattle.vg_pseudo.specs.Reads.{Gives};
ghost use Rattle.vg_pseudo.specs.Spots.{spot_at, outer_of};
ghost use Rattle.vg_pseudo.specs.Tree.{name, part, bit, slice, element, unary, binary, choice};
ghost use Rattle.vg_pseudo.specs.Views.{part_of, linked_of};
ghost use Rattle.vg_pseudo.specs.Expressions.{leaf, above_one, above_two, above_three, linked_one, linked_none, linked, call_of};

use crate::expression::{Arguments, Expr};
use crate::fault::PseudoFault;
use crate::operators::{BinaryOp, UnaryOp};
use crate::parts::{Linked, Part, leaf};
use crate::spot::Spot;
use std::alloc::Global;
use vg_base::{Name, Width};
use vg_text::Place;
use vg_text::lexer::Word;

/// A name that stands alone.
pub(crate) fn name_leaf(alloc: Global, word: Word<'_>) -> Result<Part, PseudoFault>
    ensures node { Gives part_of result (Ok (leaf (name (spot_at word.entry.place)
        word.entry.bytes.now))) }
    ensures deep { IfOk result (λ p. p.depth ≡ 1) }
{
    let name = Name::new(alloc, word.bytes)?;
    Ok(leaf(Expr::Name {
        spot: Spot::at(word.place),
        name,
    }))
}

/// `name.elem`
pub(crate) fn part_leaf(alloc: Global, word: Word<'_>, size: Width) -> Result<Part, PseudoFault>
    ensures node { Gives part_of result (Ok (leaf (part (spot_at word.entry.place)
        word.entry.bytes.now size))) }
    ensures deep { IfOk result (λ p. p.depth ≡ 1) }
{
    let name = Name::new(alloc, word.bytes)?;
    Ok(leaf(Expr::Part {
        spot: Spot::at(word.place),
        name,
        size,
    }))
}

/// `name[index]`
pub(crate) fn bit(alloc: Global, word: Word<'_>, index: Part) -> Result<Part, PseudoFault>
    requires { index.depth ≤ 64 }
    ensures node { Gives part_of result (Ok (above_one (bit (spot_at word.entry.place)
        word.entry.bytes.now (part_of index).expression) (part_of index))) }
    ensures deep { IfOk result (λ p. p.depth ≡ index.depth + 1) }
{
    let name = Name::new(alloc, word.bytes)?;
    let expression = Expr::Bit {
        spot: Spot::at(word.place),
        name,
        index: Box::new(alloc, index.expression)?,
    };
    Ok(Part {
        expression,
        depth: index.depth + 1,
        calls: index.calls,
    })
}

/// `name[high:low]`
pub(crate) fn slice(
    alloc: Global,
    word: Word<'_>,
    high: Part,
    low: Part,
) -> Result<Part, PseudoFault>
    requires high { high.depth ≤ 64 }
    requires low { low.depth ≤ 64 }
    ensures node { Gives part_of result (Ok (above_two (slice (spot_at word.entry.place)
        word.entry.bytes.now (part_of high).expression (part_of low).expression) (part_of high)
        (part_of low))) }
    ensures deep { IfOk result (λ p. p.depth ≡ max high.depth low.depth + 1) }
{
    let name = Name::new(alloc, word.bytes)?;
    let expression = Expr::Slice {
        spot: Spot::at(word.place),
        name,
        high: Box::new(alloc, high.expression)?,
        low: Box::new(alloc, low.expression)?,
    };
    Ok(Part {
        expression,
        depth: high.depth.max(low.depth) + 1,
        calls: high.calls.max(low.calls),
    })
}

/// `name.elem[index]`
pub(crate) fn element(
    alloc: Global,
    word: Word<'_>,
    size: Width,
    index: Part,
) -> Result<Part, PseudoFault>
    requires { index.depth ≤ 64 }
    ensures node { Gives part_of result (Ok (above_one (element (spot_at word.entry.place)
        word.entry.bytes.now size (part_of index).expression) (part_of index))) }
    ensures deep { IfOk result (λ p. p.depth ≡ index.depth + 1) }
{
    let name = Name::new(alloc, word.bytes)?;
    let expression = Expr::Element {
        spot: Spot::at(word.place),
        name,
        size,
        index: Box::new(alloc, index.expression)?,
    };
    Ok(Part {
        expression,
        depth: index.depth + 1,
        calls: index.calls,
    })
}

/// An operator or a function of one operand, which begins at a place.
pub(crate) fn unary(
    alloc: Global,
    op: UnaryOp,
    place: Place,
    operand: Part,
) -> Result<Part, PseudoFault>
    requires { operand.depth ≤ 64 }
    ensures node { Gives part_of result (Ok (above_one (unary (spot_at place) op (part_of
        operand).expression) (part_of operand))) }
    ensures deep { IfOk result (λ p. p.depth ≡ operand.depth + 1) }
{
    let expression = Expr::Unary {
        spot: Spot::at(place),
        op,
        operand: Box::new(alloc, operand.expression)?,
    };
    Ok(Part {
        expression,
        depth: operand.depth + 1,
        calls: operand.calls,
    })
}

/// An operator or a function of two operands, which begins at a place.
pub(crate) fn binary(
    alloc: Global,
    op: BinaryOp,
    place: Place,
    left: Part,
    right: Part,
) -> Result<Part, PseudoFault>
    requires left { left.depth ≤ 64 }
    requires right { right.depth ≤ 64 }
    ensures node { Gives part_of result (Ok (above_two (binary (spot_at place) op (part_of
        left).expression (part_of right).expression) (part_of left) (part_of right))) }
    ensures deep { IfOk result (λ p. p.depth ≡ max left.depth right.depth + 1) }
{
    let expression = Expr::Binary {
        spot: Spot::at(place),
        op,
        left: Box::new(alloc, left.expression)?,
        right: Box::new(alloc, right.expression)?,
    };
    Ok(Part {
        expression,
        depth: left.depth.max(right.depth) + 1,
        calls: left.calls.max(right.calls),
    })
}

/// `condition ? first : second`
pub(crate) fn choice(
    alloc: Global,
    condition: Part,
    first: Part,
    second: Part,
) -> Result<Part, PseudoFault>
    requires condition { condition.depth ≤ 64 }
    requires first { first.depth ≤ 64 }
    requires second { second.depth ≤ 64 }
    ensures node { Gives part_of result (Ok (above_three (choice (spot_at (outer_of (part_of
        condition).expression)) (part_of condition).expression (part_of first).expression (part_of
        second).expression) (part_of condition) (part_of first) (part_of second))) }
    ensures deep { IfOk result (λ p. p.depth ≡ max condition.depth (max first.depth second.depth) +
        1) }
{
    let expression = Expr::Choice {
        spot: Spot::at(condition.expression.spot().outer),
        condition: Box::new(alloc, condition.expression)?,
        first: Box::new(alloc, first.expression)?,
        second: Box::new(alloc, second.expression)?,
    };
    Ok(Part {
        expression,
        depth: condition.depth.max(first.depth.max(second.depth)) + 1,
        calls: condition.calls.max(first.calls.max(second.calls)),
    })
}

/// One argument before others.
fn linked_one(alloc: Global, part: Part, behind: Linked) -> Result<Linked, PseudoFault>
    ensures node { Gives linked_of result (Ok (linked_one (part_of part) (linked_of behind))) }
    ensures deep { IfOk result (λ l. l.depth ≡ max part.depth behind.depth) }
{
    let arguments = Arguments::More {
        argument: Box::new(alloc, part.expression)?,
        rest: Box::new(alloc, behind.arguments)?,
    };
    Ok(Linked {
        arguments,
        depth: part.depth.max(behind.depth),
        calls: part.calls.max(behind.calls),
    })
}

/// All arguments of a call that counts for so much.
fn linked(alloc: Global, parts: Vec<Part>, calls: u8, room: u32) -> Result<Linked, PseudoFault>
    requires { All (λ p. p.depth ≤ room) parts.items }
    ensures node { Gives linked_of result (Ok (linked (map part_of parts.items) (linked_none
        calls))) }
    ensures deep { IfOk result (λ l. l.depth ≤ room) }
{
    let mut left = parts;
    let mut behind = Linked {
        arguments: Arguments::End,
        depth: 0,
        calls,
    };
    'parts: while let Some(part) = left.pop() {
        behind = match linked_one(alloc, part, behind) {
            Ok(linked) => linked,
            Err(fault) => return Err(fault),
        };
    }
    Ok(behind)
}

/// A call of a DEFINE with these arguments.
pub(crate) fn call_node(
    alloc: Global,
    word: Word<'_>,
    calls: u8,
    parts: Vec<Part>,
    room: u32,
) -> Result<Part, PseudoFault>
    requires few { room ≤ 64 }
    requires deep { All (λ p. p.depth ≤ room) parts.items }
    ensures node { Gives part_of result (Ok (call_of (spelled_of word.entry) (linked (map part_of
        parts.items) (linked_none calls)))) }
    ensures deep { IfOk result (λ p. p.depth ≤ room + 1) }
{
    let linked = linked(alloc, parts, calls, room)?;
    let expression = Expr::Call {
        spot: Spot::at(word.place),
        name: Name::new(alloc, word.bytes)?,
        arguments: linked.arguments,
    };
    Ok(Part {
        expression,
        depth: linked.depth + 1,
        calls: linked.calls,
    })
}
