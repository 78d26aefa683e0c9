//! Reads the statements of a kernel.

ghost use Rattle.std.specs.Prelude.{◌≡◌, ◌≤◌, ◌+◌, None, [], length, map, OnOk};
ghost use Rattle.vg_text.specs.Lexing.{reading, spelled_of};
ghost use Rattle.vg_kernel.specs.Gives.{Gives};
ghost use Rattle.vg_kernel.specs.Names.{AreFew, given_as, names_of};
ghost use Rattle.vg_kernel.specs.Scanning.{scan_of, part_of, step_of};
ghost use Rattle.vg_kernel.specs.Statements.{outer_at, assignment_at, has_width, store_end, store_at, statement_at, closing_at, statements_at};
ghost use Rattle.vg_kernel.specs.Tree.{expression_of, statement_of};

use crate::expression::KExpr;
use crate::expressions::expression;
use crate::fault::KernelFault;
use crate::names::Names;
use crate::nodes::one_width;
use crate::parameter::KParam;
use crate::reading::{address, expect, next};
use crate::scan::{Part, Scan};
use crate::statement::KStmt;
use crate::words::{begins_statement, is_free};
use std::alloc::Global;
use vg_base::{Address, Width};
use vg_text::byte::is_text;
use vg_text::lexer::Word;
use vg_text::sized::width_behind;
use vg_text::{Lexer, Place};

/// An expression that no parenthesis encloses.
fn outer<'a>(
    alloc: Global,
    names: &Names,
    lexer: Lexer<'a>,
    used: u32,
) -> Result<Part<'a>, KernelFault>
    requires { AreFew names.now }
    ensures { Gives part_of result (outer_at names.now (reading lexer.entry) used) }
{
    expression(alloc, names, 256, 5, Scan { lexer, used })
}

/// `= expression;` after a name, which is given then.
#[tactic(auto, unfolding(crate::specs::Statements::assignment_at))]
fn assignment<'a>(
    alloc: Global,
    names: &mut Names,
    name: &[u8],
    lexer: Lexer<'a>,
    used: u32,
) -> Result<(KStmt, Scan<'a>), KernelFault>
    requires few { AreFew names.old }
    requires fresh { given_as names.old name.now ≡ None }
    ensures read { Gives (step_of names.new) result
        (assignment_at names.old name.now (reading lexer.entry) used) }
    ensures params { OnOk result (names.new.params ≡ names.old.params) }
    ensures assigned { OnOk result (length names.new.assigned ≤ length names.old.assigned + 1) }
{
    let rest = expect(b"=", lexer)?;
    let value = outer(alloc, names, rest, used)?;
    let ended = expect(b";", value.scan.lexer)?;
    let scan = Scan {
        lexer: ended,
        used: value.scan.used,
    };
    names.give(alloc, name, value.expression.value_type())?;
    let statement = KStmt::Assign {
        value: value.expression,
    };
    Ok((statement, scan))
}

/// Whether an expression is an integer of this width.
fn has_width(width: Width, value: &KExpr) -> bool
    ensures { result ≡ has_width width (expression_of value.now) }
{
    match value.width() {
        Some(own) => one_width(width, own).is_some(),
        None => false,
    }
}

/// `);` after what is stored.
#[tactic(auto, unfolding(crate::specs::Statements::store_end))]
fn store_end<'a>(
    width: Width,
    address: Address,
    value: Part<'a>,
) -> Result<(KStmt, Scan<'a>), KernelFault>
    ensures { Gives (λ x. (statement_of x.0, scan_of x.1)) result
        (store_end width address (part_of value.entry)) }
{
    let rest = expect(b")", value.scan.lexer)?;
    let ended = expect(b";", rest)?;
    let scan = Scan {
        lexer: ended,
        used: value.scan.used,
    };
    let statement = KStmt::Store {
        width,
        address,
        value: value.expression,
    };
    Ok((statement, scan))
}

/// `storeW(place, expression);` after its first word.
#[tactic(auto, unfolding(crate::specs::Statements::store_at))]
fn store<'a>(
    alloc: Global,
    names: &Names,
    word: Word<'a>,
    lexer: Lexer<'a>,
    used: u32,
) -> Result<(KStmt, Scan<'a>), KernelFault>
    requires { AreFew names.now }
    ensures { Gives (step_of names.now) result
        (store_at names.now (spelled_of word.entry) (reading lexer.entry) used) }
{
    let place = word.place;
    let Some(width) = width_behind(b"store", word.bytes) else {
        return Err(KernelFault::Shape { place });
    };
    let rest = expect(b"(", lexer)?;
    let (address, rest) = address(names, rest)?;
    let rest = expect(b",", rest)?;
    let value = outer(alloc, names, rest, used)?;
    if has_width(width, &value.expression) {
        let (statement, scan) = store_end(width, address, value)?;
        Ok((statement, scan))
    } else {
        Err(KernelFault::WidthMismatch { place })
    }
}

/// A statement that begins with this word. Where it gives a name, that is given after it.
#[tactic(auto, unfolding(crate::specs::Statements::statement_at))]
fn statement<'a>(
    alloc: Global,
    names: &mut Names,
    word: Word<'a>,
    lexer: Lexer<'a>,
    used: u32,
) -> Result<(KStmt, Scan<'a>), KernelFault>
    requires { AreFew names.old }
    ensures read { Gives (step_of names.new) result
        (statement_at names.old (spelled_of word.entry) (reading lexer.entry) used) }
    ensures params { OnOk result (names.new.params ≡ names.old.params) }
    ensures assigned { OnOk result (length names.new.assigned ≤ length names.old.assigned + 1) }
{
    let place = word.place;
    if !is_free(word.bytes) {
        return store(alloc, names, word, lexer, used);
    }
    if names.given_as(word.bytes).is_some() {
        return Err(KernelFault::DuplicateName { place });
    }
    assignment(alloc, names, word.bytes, lexer, used)
}

/// The end of the statements, where no more may stand.
fn closing<'a>(lexer: Lexer<'a>) -> Result<(Place, Lexer<'a>), KernelFault>
    ensures { Gives (λ x. (x.0, reading x.1)) result (closing_at (reading lexer.entry)) }
{
    let (word, rest) = next(lexer)?;
    let place = word.place;
    if is_text(word.bytes, b"}") {
        Ok((place, rest))
    } else if begins_statement(word.bytes) {
        Err(KernelFault::TooMany { place })
    } else {
        Err(KernelFault::Shape { place })
    }
}

/// The statements up to `}`, 4,096 at most, and the place of the brace.
pub(crate) fn statements<'a>(
    alloc: Global,
    params: &[KParam],
    lexer: Lexer<'a>,
) -> Result<(Vec<KStmt>, Place, Lexer<'a>), KernelFault>
    requires { length params.now ≤ 16 }
    ensures read { Gives (λ x. ((map statement_of x.0.items, x.1), reading x.2)) result
        (statements_at 4096 (names_of params.now) []
        (record { reading = reading lexer.entry; used = 0 })) }
{
    let mut names = Names::new(alloc, params);
    let mut done = Vec::new(alloc);
    let mut scan = Scan { lexer, used: 0 };
    'statements: while done.len() < 4096 {
        let (word, rest) = match next(scan.lexer) {
            Ok(found) => found,
            Err(fault) => return Err(fault),
        };
        if is_text(word.bytes, b"}") {
            return Ok((done, word.place, rest));
        }
        match statement(alloc, &mut names, word, rest, scan.used) {
            Ok((step, behind)) => {
                done.push(step)?;
                scan = behind;
            }
            Err(fault) => return Err(fault),
        }
    }
    match closing(scan.lexer) {
        Ok((place, rest)) => Ok((done, place, rest)),
        Err(fault) => Err(fault),
    }
}
