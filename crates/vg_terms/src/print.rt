//! Writing a term.

ghost use Rattle.std.specs.Prelude.{codes, ◌++◌, ◌≡◌, OnErr, OnOk};
ghost use Rattle.std.specs.Fmt.{decimal, signed_decimal};
ghost use Rattle.vg_terms.specs.Term.{tree};
ghost use Rattle.vg_terms.specs.Text.{amount_text, leaf_text, name_at, offset_text, shown_width, text};

use crate::term::{LeafKey, OneOp, Term, TwoOp};
use crate::text::Names;
use std::alloc::{AllocError, Global};
use vg_base::{Items, Name};

/// Appends the text of a term, as `(add32 X Y)`. A number after a `:` is a width in bits. Leaves are
/// bits of a parameter, `name.low:width`, a load, `name+offset@number:width` or `name-offset@..`, an
/// argument, `name:width`, or a value that was cut off, `#number:width`; what has no name in `names`
/// is written with an empty one. An operation shows its width, a comparison that of its children.
/// Where memory is short nothing is appended.
pub fn print_term(
    alloc: Global,
    t: &Term,
    names: &Names,
    to: &mut Vec<u8>,
) -> Result<(), AllocError>
    ensures done { OnOk result (to.new.items ≡ to.old.items ++ text names.now (tree t.now)) }
    ensures err { OnErr result (to.new.items ≡ to.old.items) }
{
    let mut whole = Vec::new(alloc);
    write_term(alloc, t, names, &mut whole)?;
    to.extend_from_slice(whole.as_slice())
}

fn write_term(alloc: Global, t: &Term, names: &Names, to: &mut Vec<u8>) -> Result<(), AllocError>
    ensures { OnOk result (to.new.items ≡ to.old.items ++ text names.now (tree t.now)) }
{
    match t {
        Term::Leaf { width, key } => {
            write_key(alloc, *key, names, to)?;
            put_width(alloc, *width, to)
        }
        Term::Const { width, value } => {
            put_number(alloc, to, *value)?;
            put_width(alloc, *width, to)
        }
        Term::One {
            op,
            width,
            amount,
            x,
        } => {
            put_front(alloc, op.name(), *width, to)?;
            write_term(alloc, x, names, to)?;
            put_amount(alloc, *op, *amount, to)?;
            put(to, b")")
        }
        Term::Two { op, width, x, y } => {
            let shown = width_shown(*op, *width, x.width());
            put_front(alloc, op.name(), shown, to)?;
            write_term(alloc, x, names, to)?;
            put(to, b" ")?;
            write_term(alloc, y, names, to)?;
            put(to, b")")
        }
        Term::Sel { width, c, x, y } => {
            put_front(alloc, b"sel", *width, to)?;
            write_term(alloc, c, names, to)?;
            put(to, b" ")?;
            write_term(alloc, x, names, to)?;
            put(to, b" ")?;
            write_term(alloc, y, names, to)?;
            put(to, b")")
        }
    }
}

// An operation's name and width, before its children.
fn put_front(alloc: Global, name: &[u8], width: u32, to: &mut Vec<u8>) -> Result<(), AllocError>
    ensures { OnOk result (to.new.items ≡ to.old.items ++ (codes "(" ++ name.now ++ decimal width ++
        codes " ")) }
{
    put(to, b"(")?;
    put(to, name)?;
    put_number(alloc, to, width as u128)?;
    put(to, b" ")
}

fn put_width(alloc: Global, width: u32, to: &mut Vec<u8>) -> Result<(), AllocError>
    ensures { OnOk result (to.new.items ≡ to.old.items ++ (codes ":" ++ decimal width)) }
{
    put(to, b":")?;
    put_number(alloc, to, width as u128)
}

fn write_key(alloc: Global, key: LeafKey, names: &Names, to: &mut Vec<u8>) -> Result<(), AllocError>
    ensures { OnOk result (to.new.items ≡ to.old.items ++ leaf_text names.now key) }
{
    match key.kind {
        0 => {
            put(to, name_of(&names.params, key.first))?;
            put(to, b".")?;
            let low = key.second.to_string(alloc)?;
            put(to, low.as_bytes())
        }
        1 => {
            put(to, name_of(&names.pointers, key.first))?;
            put_offset(alloc, key.second, to)?;
            put(to, b"@")?;
            put_number(alloc, to, key.third as u128)
        }
        2 => put(to, name_of(&names.arguments, key.first)),
        _ => {
            put(to, b"#")?;
            put_number(alloc, to, key.first as u128)
        }
    }
}

// The name with this number, or nothing.
fn name_of(names: &Items<Name>, number: u32) -> &[u8]
    ensures { result.now ≡ name_at names.now number }
{
    match names.as_slice().get(number as usize) {
        Some(name) => name.bytes(),
        None => b"",
    }
}

// The width that is shown of an operation of width w on terms of width m.
fn width_shown(op: TwoOp, w: u32, m: u32) -> u32
    ensures { result ≡ shown_width op w m }
{
    match op {
        TwoOp::Eq => m,
        TwoOp::Slt => m,
        TwoOp::Ult => m,
        _ => w,
    }
}

fn put_amount(alloc: Global, op: OneOp, amount: u32, to: &mut Vec<u8>) -> Result<(), AllocError>
    ensures { OnOk result (to.new.items ≡ to.old.items ++ amount_text op amount) }
{
    match op {
        OneOp::Lshr => {
            put(to, b" ")?;
            put_number(alloc, to, amount as u128)
        }
        OneOp::Ashr => {
            put(to, b" ")?;
            put_number(alloc, to, amount as u128)
        }
        _ => Ok(()),
    }
}

fn put_offset(alloc: Global, offset: i64, to: &mut Vec<u8>) -> Result<(), AllocError>
    ensures { OnOk result (to.new.items ≡ to.old.items ++ offset_text offset) }
{
    if offset < 0 {
        put(to, b"-")?;
    } else {
        put(to, b"+")?;
    }
    put_number(alloc, to, offset.unsigned_abs() as u128)
}

fn put_number(alloc: Global, to: &mut Vec<u8>, n: u128) -> Result<(), AllocError>
    ensures { OnOk result (to.new.items ≡ to.old.items ++ decimal n) }
{
    let digits = n.to_string(alloc)?;
    put(to, digits.as_bytes())
}

fn put(to: &mut Vec<u8>, bytes: &[u8]) -> Result<(), AllocError>
    ensures { OnOk result (to.new.items ≡ to.old.items ++ bytes.now) }
{
    to.extend_from_slice(bytes)
}
