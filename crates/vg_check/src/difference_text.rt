//! The text of the first difference.

ghost use Rattle.std.specs.Prelude.{◌≡◌, ◌++◌, IfOk, OnOk};
ghost use Rattle.vg_check.specs.Told.{access_text, difference_text, opaque_text, order_text, value_text, word_of};
ghost use Rattle.vg_paired.specs.ByteLabels.{label_of};
ghost use Rattle.vg_program.specs.Text.{address_text};
ghost use Rattle.vg_verify.specs.Verdicts.{difference_of};

use std::alloc::{AllocError, Global};
use vg_forms::Form;
use vg_paired::{ByteLabel, Turned, Uneven};
use vg_program::Param;
use vg_program::parts::{pointer_name, put_number};
use vg_terms::{Names, print_term};
use vg_value_text::names_of;
use vg_verify::Difference;

fn word_of(writes: bool) -> &'static [u8]
    ensures { result.now ≡ word_of writes }
{
    if writes { b"store " } else { b"load " }
}

/// Appends a place, as `p+4`.
fn put_place(
    alloc: Global,
    to: &mut Vec<u8>,
    params: &[Param],
    label: ByteLabel,
) -> Result<(), AllocError>
    ensures { OnOk result (to.new.items ≡ to.old.items
        ++ address_text params.now (label_of label).address) }
{
    to.extend_from_slice(pointer_name(params, label.pointer))?;
    if label.offset >= 0 {
        to.extend_from_slice(b"+")?;
    }
    let offset = label.offset.to_string(alloc)?;
    to.extend_from_slice(offset.as_bytes())
}

fn put_access(
    alloc: Global,
    to: &mut Vec<u8>,
    params: &[Param],
    uneven: Uneven,
) -> Result<(), AllocError>
    ensures { OnOk result (to.new.items ≡ to.old.items
        ++ access_text params.now (label_of uneven.label) uneven.in_kernel uneven.in_program) }
{
    to.extend_from_slice(b"access ")?;
    to.extend_from_slice(word_of(uneven.label.writes))?;
    put_place(alloc, to, params, uneven.label)?;
    to.extend_from_slice(b" kernel ")?;
    put_number(alloc, to, uneven.in_kernel as u64)?;
    to.extend_from_slice(b" program ")?;
    put_number(alloc, to, uneven.in_program as u64)
}

fn put_order(alloc: Global, to: &mut Vec<u8>, turned: Turned) -> Result<(), AllocError>
    ensures { OnOk result (to.new.items ≡ to.old.items ++ order_text turned.first turned.second) }
{
    to.extend_from_slice(b"order ")?;
    put_number(alloc, to, turned.first as u64)?;
    to.extend_from_slice(b" ")?;
    put_number(alloc, to, turned.second as u64)
}

fn put_value(
    alloc: Global,
    to: &mut Vec<u8>,
    names: &Names,
    unit: usize,
    kernel: &Form,
    program: &Form,
) -> Result<(), AllocError>
    ensures { OnOk result (to.new.items ≡ to.old.items
        ++ value_text names.now unit kernel.now program.now) }
{
    to.extend_from_slice(b"value ")?;
    put_number(alloc, to, unit as u64)?;
    to.extend_from_slice(b" ")?;
    print_term(alloc, kernel.term(), names, to)?;
    to.extend_from_slice(b" ")?;
    print_term(alloc, program.term(), names, to)
}

fn put_opaque(alloc: Global, to: &mut Vec<u8>, line: usize) -> Result<(), AllocError>
    ensures { OnOk result (to.new.items ≡ to.old.items ++ opaque_text line) }
{
    to.extend_from_slice(b"opaque ")?;
    put_number(alloc, to, line as u64)
}

fn put_difference(
    alloc: Global,
    to: &mut Vec<u8>,
    params: &[Param],
    difference: &Difference,
) -> Result<(), AllocError>
    ensures { OnOk result (to.new.items ≡ to.old.items
        ++ difference_text params.now (difference_of difference.now)) }
{
    match difference {
        Difference::Params => to.extend_from_slice(b"params"),
        Difference::Opaque { line } => put_opaque(alloc, to, *line),
        Difference::Access(uneven) => put_access(alloc, to, params, *uneven),
        Difference::Order(turned) => put_order(alloc, to, *turned),
        Difference::Value {
            unit,
            kernel,
            program,
        } => {
            let names = names_of(alloc, params)?;
            put_value(alloc, to, &names, *unit, kernel, program)
        }
    }
}

/// The text of a difference, with the names of these parameters: `params`, `opaque LINE`,
/// `access load PLACE kernel A program B` or `access store ..`, `order I J`, or `value I TERM TERM`. A place is
/// `p+N` or `p-N`. Fails for want of memory alone.
pub fn print_difference(
    alloc: Global,
    params: &[Param],
    difference: &Difference,
) -> Result<Vec<u8>, AllocError>
    ensures { IfOk result (λ text. text.items
        ≡ difference_text params.now (difference_of difference.now)) }
{
    let mut text = Vec::new(alloc);
    put_difference(alloc, &mut text, params, difference)?;
    Ok(text)
}
