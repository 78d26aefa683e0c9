//! The text of a trial's kernel.

ghost use Rattle.std.specs.Prelude.{◌≡◌, ◌+◌, ◌<◌, ◌≤◌, ◌^◌, ◌++◌, IfOk, OnOk};
ghost use Rattle.vg_kernel.specs.Grammar.{IsKernelText};
ghost use Rattle.vg_trial.specs.Trial.{line_text, sum_line, product_line, clamped_line, average_line, pair_line, statement, statements, group, groups, groups_text, kernel_text};
ghost use Rattle.vg_trial.specs.TrialKernel.{kernel};

use crate::piece::Piece::{Number, Words};
use crate::piece::put_line;
use crate::shape::Shape;
use std::alloc::{AllocError, Global};

fn put_sum(text: &mut Vec<u8>, to: u32, from: u32) -> Result<(), AllocError>
    ensures { OnOk result (text.new.items ≡ text.old.items ++ line_text (sum_line to from)) }
{
    let line = [
        Words("store32(d + "),
        Number(to),
        Words(", load32(p + "),
        Number(from),
        Words(") + load32(q + "),
        Number(from),
        Words("));\n"),
    ];
    put_line(text, line.as_slice())
}

fn put_products(text: &mut Vec<u8>, to: u32, from: u32) -> Result<(), AllocError>
    requires { from < 2 ^ 31 }
    ensures { OnOk result (text.new.items ≡ text.old.items ++ line_text (product_line to from)) }
{
    let line = [
        Words("store32(d + "),
        Number(to),
        Words(", sext32(load16(p + "),
        Number(from),
        Words(")) * sext32(load16(q + "),
        Number(from),
        Words(")) + sext32(load16(p + "),
        Number(from + 2),
        Words(")) * sext32(load16(q + "),
        Number(from + 2),
        Words(")));\n"),
    ];
    put_line(text, line.as_slice())
}

fn put_clamped(text: &mut Vec<u8>, to: u32, from: u32) -> Result<(), AllocError>
    ensures { OnOk result (text.new.items ≡ text.old.items ++ line_text (clamped_line to from)) }
{
    let line = [
        Words("store16(d + "),
        Number(to),
        Words(", trunc16(smin(smax(load32(p + "),
        Number(from),
        Words("), -32768i32), 32767i32)));\n"),
    ];
    put_line(text, line.as_slice())
}

fn put_average(text: &mut Vec<u8>, to: u32, from: u32) -> Result<(), AllocError>
    ensures { OnOk result (text.new.items ≡ text.old.items ++ line_text (average_line to from)) }
{
    let line = [
        Words("store8(d + "),
        Number(to),
        Words(", trunc8(lshr(zext16(load8(p + "),
        Number(from),
        Words(")) + zext16(load8(q + "),
        Number(from),
        Words(")) + 1i16, 1)));\n"),
    ];
    put_line(text, line.as_slice())
}

fn put_pair(text: &mut Vec<u8>, to: u32, pointer: &str, from: u32) -> Result<(), AllocError>
    requires { from < 2 ^ 31 }
    ensures { OnOk result (text.new.items ≡ text.old.items ++ line_text (pair_line to pointer.now
        from)) }
{
    let line = [
        Words("store32(d + "),
        Number(to),
        Words(", load32("),
        Words(pointer),
        Words(" + "),
        Number(from),
        Words(") + load32("),
        Words(pointer),
        Words(" + "),
        Number(from + 4),
        Words("));\n"),
    ];
    put_line(text, line.as_slice())
}

/// Statement `i` of group `k`.
fn put_statement(text: &mut Vec<u8>, shape: Shape, k: u32, i: u32) -> Result<(), AllocError>
    requires group { k < 40 }
    requires few { i < 16 }
    ensures { OnOk result (text.new.items ≡ text.old.items ++ line_text (statement shape k i)) }
{
    let to = 16 * k;
    let from = 32 * k;
    match shape {
        Shape::Sums => put_sum(text, to + 4 * i, from + 4 * i),
        Shape::Products => put_products(text, to + 4 * i, from + 4 * i),
        Shape::Clamped => put_clamped(text, to + 2 * i, from + 4 * i),
        Shape::Averages => put_average(text, to + i, from + i),
        Shape::Pairs if i < 2 => put_pair(text, to + 4 * i, "p", from + 8 * i),
        Shape::Pairs => put_pair(text, to + 4 * i, "q", from + 8 * (i - 2)),
    }
}

/// All statements of group `k`.
fn put_group(text: &mut Vec<u8>, number: u32, k: u32) -> Result<(), AllocError>
    requires { k < 40 }
    ensures { OnOk result (text.new.items ≡ text.old.items ++ group number k) }
{
    let shape = Shape::of(number, k);
    'statements: for i in 0..shape.statements() {
        put_statement(text, shape, k, i)?;
    }
    Ok(())
}

/// All groups.
fn put_groups(text: &mut Vec<u8>, number: u32) -> Result<(), AllocError>
    ensures { OnOk result (text.new.items ≡ text.old.items ++ groups_text number (groups number)) }
{
    'groups: for k in 0..1 + number % 40 {
        put_group(text, number, k)?;
    }
    Ok(())
}

/// The text of the kernel of the trial of this number. `Err` for want of memory alone.
pub fn make_kernel(alloc: Global, number: u32) -> Result<Vec<u8>, AllocError>
    ensures text { IfOk result (λ text. text.items ≡ kernel_text number) }
    // It is in the language of kernels, and spells the kernel as data.
    ensures accepted { IsKernelText (kernel_text number) (kernel number) }
{
    let mut text = Vec::new(alloc);
    text.extend_from_slice(b"kernel trial(d: noalias ptr, p: ptr, q: ptr) {\n")?;
    put_groups(&mut text, number)?;
    text.extend_from_slice(b"}\n")?;
    Ok(text)
}
