//! The comparison of a kernel with a program.

ghost use Rattle.std.specs.Prelude.{◌≡◌, IfOk};
ghost use Rattle.vg_catalog.specs.Called.{called_by, headers_of};
ghost use Rattle.vg_catalog.specs.Catalogs.{entries_in};
ghost use Rattle.vg_check.specs.Compared.{text_in, told_difference};
ghost use Rattle.vg_compile.specs.Means.{Means};
ghost use Rattle.vg_kernel.specs.Tree.{tree_of};
ghost use Rattle.vg_kernel.specs.WellFormed.{IsWellFormed};
ghost use Rattle.vg_program.specs.Valid.{KeepsRules};

use crate::difference_text::print_difference;
use std::alloc::{AllocError, Global};
use vg_base::Items;
use vg_catalog::Catalog;
use vg_kernel::Kernel;
use vg_program::Program;
use vg_ssa::number_values;
use vg_verify::{Verdict, verify};

/// What is told of a kernel and a program.
#[derive(Drop)]
pub enum Comparison {
    /// The program means the kernel.
    Same,
    /// The text of the first difference, as `print_difference` writes it; the program may mean the
    /// kernel all the same.
    Differs(Items<u8>),
}

/// Whether a program that keeps the rules, and may call the instructions of a catalogue, has no
/// difference to a kernel, and the text of the first one where it has; with `more` no wider one, and
/// the text of the first wider one.
///
/// Where there is none, it has the kernel's name and parameters, leaves the memory that the kernel
/// leaves and traps where the kernel traps, in each layout that respects noalias, each call giving
/// what the text of its entry means. Nothing is promised of a program that differs. Fails for want
/// of memory, also at the bounds of `verify`.
#[tactic(auto, using(crate::proofs::Numbered::told_numbered, crate::proofs::Numbered::means_kernel))]
pub fn compare(
    alloc: Global,
    catalog: &Catalog,
    kernel: &Kernel,
    program: &Program,
    more: bool,
) -> Result<Comparison, AllocError>
    requires kernel { IsWellFormed (tree_of kernel.now) }
    requires rules { KeepsRules (headers_of (entries_in catalog.now)) program.now }
    ensures exact { IfOk result (λ c. text_in c
        ≡ told_difference (entries_in catalog.now) (tree_of kernel.now) program.now more) }
    ensures means { IfOk result (λ c. c ≡ Comparison.Same
        → Means (called_by (entries_in catalog.now)) program.now (tree_of kernel.now)) }
{
    let ssa = number_values(alloc, kernel)?;
    let verdict = verify(alloc, catalog, &ssa, program, more)?;
    match verdict {
        Verdict::Same => Ok(Comparison::Same),
        Verdict::Differs(difference) => {
            let text = print_difference(alloc, program.params.as_slice(), &difference)?;
            Ok(Comparison::Differs(Items::from_vec(text)))
        }
    }
}
