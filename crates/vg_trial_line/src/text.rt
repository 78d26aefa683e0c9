//! The text of the line.

ghost use Rattle.std.specs.Prelude.{◌≡◌, ◌++◌, IfOk, OnOk};
ghost use Rattle.std.specs.Fmt.{decimal};
ghost use Rattle.vg_trial_line.specs.TrialLine.{trial_text};

use std::alloc::{AllocError, Global};
use vg_program::parts::put_number;

/// What the line tells of a trial.
#[derive(Clone, Copy)]
pub(crate) struct Figures {
    /// The number of the trial.
    pub(crate) number: u32,
    /// How many statements the kernel has.
    pub(crate) statements: u64,
    /// What the kernel costs as written.
    pub(crate) scalar: u32,
    /// What the program compiled for it costs.
    pub(crate) cost: u32,
    /// The sum of the bytes that are left, modulo 2^32.
    pub(crate) sum: u32,
}

/// Appends words and the number after them.
fn put_figure(alloc: Global, to: &mut Vec<u8>, words: &str, number: u64) -> Result<(), AllocError>
    ensures { OnOk result (to.new.items ≡ to.old.items ++ (words.now ++ decimal number)) }
{
    to.extend_from_slice(words.as_bytes())?;
    put_number(alloc, to, number)
}

/// The line with LF after it. `Err` for want of memory alone.
pub(crate) fn print_line(alloc: Global, figures: Figures) -> Result<Vec<u8>, AllocError>
    ensures { IfOk result (λ text. text.items ≡ trial_text figures.number figures.statements
        figures.scalar figures.cost figures.sum) }
{
    let mut text = Vec::new(alloc);
    put_figure(alloc, &mut text, "trial ", u64::from(figures.number))?;
    put_figure(alloc, &mut text, ": statements ", figures.statements)?;
    put_figure(alloc, &mut text, " scalar ", u64::from(figures.scalar))?;
    put_figure(alloc, &mut text, " cost ", u64::from(figures.cost))?;
    put_figure(alloc, &mut text, " sum ", u64::from(figures.sum))?;
    text.extend_from_slice(b"\n")?;
    Ok(text)
}
