//! Operands that are no calls and have no parentheses: names, literals, loads.

ghost use Rattle.std.specs.Prelude.{◌≡◌, ◌≤◌, IfOk, codes, if◌then◌else◌};
ghost use Rattle.vg_text.specs.Lexing.{reading, spelled_of};
ghost use Rattle.vg_kernel.specs.Expressions.{value_of, type_behind, literal_at, negative_at, load_at, too_deep_at};
ghost use Rattle.vg_kernel.specs.Gives.{Gives};
ghost use Rattle.vg_kernel.specs.Names.{AreFew};
ghost use Rattle.vg_kernel.specs.Scanning.{part_of};
ghost use Rattle.vg_kernel.specs.Tree.{expression_of};
ghost use Rattle.vg_text.specs.Sized.{width_behind};
ghost use Rattle.vg_kernel.specs.Words.{adjoins};

use crate::expression::KExpr;
use crate::fault::KernelFault;
use crate::given::Given;
use crate::names::Names;
use crate::nodes::counted;
use crate::reading::{address, expect, next};
use crate::scan::{Part, Scan};
use crate::words::{adjoins, begins_operand, literal_of};
use vg_base::Width;
use vg_text::lexer::Word;
use vg_text::number::decimal;
use vg_text::sized::width_behind;
use vg_text::{Lexer, Place};

/// An expression that counts for nothing.
pub(crate) fn leaf<'a>(expression: KExpr, lexer: Lexer<'a>, used: u32) -> Part<'a>
    ensures { part_of result ≡ record {
      expression = expression_of expression;
      depth = 1;
      scan = record { reading = reading lexer.entry; used = used };
    } }
{
    Part {
        expression,
        depth: 1,
        scan: Scan { lexer, used },
    }
}

/// The value that a name at this place stands for.
pub(crate) fn value_of(given: Option<Given>, place: Place) -> Result<KExpr, KernelFault>
    ensures { Gives expression_of result (value_of given place) }
{
    match given {
        Some(Given::Pointer(_)) => Err(KernelFault::WidthMismatch { place }),
        Some(Given::Argument(number, width)) => Ok(KExpr::Argument { number, width }),
        Some(Given::Assigned(number, value_type)) => Ok(KExpr::Assigned { number, value_type }),
        None => Err(KernelFault::UnknownName { place }),
    }
}

/// The width of the type that stands right after these digits.
fn type_behind(digits: &Word, word: &Word) -> Option<Width>
    ensures { result ≡ type_behind (spelled_of digits.now) (spelled_of word.now) }
{
    if adjoins(digits, word) {
        width_behind(b"i", word.bytes)
    } else {
        None
    }
}

/// A literal: digits, which were read, and a type.
#[inline(never)]
#[tactic(auto, unfolding(crate::specs::Expressions::literal_at))]
pub(crate) fn literal<'a>(
    negative: bool,
    first: Place,
    digits: Word<'a>,
    lexer: Lexer<'a>,
    used: u32,
) -> Result<Part<'a>, KernelFault>
    ensures read { Gives part_of result
        (literal_at negative first (spelled_of digits.entry) (reading lexer.entry) used) }
    ensures shallow { IfOk result (λ p. p.depth ≤ 1) }
{
    let place = digits.place;
    let Some(number) = decimal(digits.bytes) else {
        return Err(KernelFault::Shape { place });
    };
    let (word, rest) = next(lexer)?;
    let place = word.place;
    let Some(width) = type_behind(&digits, &word) else {
        return Err(KernelFault::Shape { place });
    };
    match literal_of(negative, width, number) {
        Some(number) => Ok(leaf(KExpr::Literal { width, number }, rest, used)),
        None => Err(KernelFault::LiteralRange { place: first }),
    }
}

/// The literal that begins with a `-` at the place `first`, after that sign.
#[inline(never)]
pub(crate) fn negative<'a>(
    first: Place,
    lexer: Lexer<'a>,
    used: u32,
) -> Result<Part<'a>, KernelFault>
    ensures read { Gives part_of result (negative_at first (reading lexer.entry) used) }
    ensures shallow { IfOk result (λ p. p.depth ≤ 1) }
{
    let (digits, rest) = next(lexer)?;
    literal(true, first, digits, rest, used)
}

/// A load after its name.
#[inline(never)]
#[tactic(auto, unfolding(crate::specs::Expressions::load_at))]
pub(crate) fn load<'a>(
    names: &Names,
    width: Width,
    place: Place,
    lexer: Lexer<'a>,
    used: u32,
) -> Result<Part<'a>, KernelFault>
    requires { AreFew names.now }
    ensures read { Gives part_of result (load_at names.now width place (reading lexer.entry) used) }
    ensures shallow { IfOk result (λ p. p.depth ≤ 1) }
{
    let more = counted(place, used)?;
    let rest = expect(b"(", lexer)?;
    let (address, rest) = address(names, rest)?;
    let rest = expect(b")", rest)?;
    Ok(leaf(KExpr::Load { width, address }, rest, more))
}

/// An operand where none may stand.
#[inline(never)]
pub(crate) fn too_deep<'a>(lexer: Lexer<'a>) -> Result<Part<'a>, KernelFault>
    ensures read { Gives part_of result (too_deep_at (reading lexer.entry)) }
    ensures never { IfOk result (λ p. p.depth ≤ 0) }
{
    let (word, _rest) = next(lexer)?;
    let place = word.place;
    if begins_operand(word.bytes) {
        Err(KernelFault::NestingTooDeep { place })
    } else {
        Err(KernelFault::Shape { place })
    }
}
