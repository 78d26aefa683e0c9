//! The checks of a kernel.

ghost use Rattle.std.specs.Prelude.{◌≡◌, ◌<◌, ◌≤◌, ◌++◌, false, length, slice_get, unwrap_or, IfOk, OnOk};
ghost use Rattle.std.specs.List.{filter_map};
ghost use Rattle.vg_kernel.specs.Layout.{noalias_of};
ghost use Rattle.vg_kernel.specs.Tree.{tree_of};
ghost use Rattle.vg_kernel.specs.WellFormed.{pointers};
ghost use Rattle.vg_guard.specs.Checks.{check_between, check_of, checks_with, checks_of};

use crate::check::Check;
use crate::reach::Reach;
use crate::reaching::reach_of;
use std::alloc::{AllocError, Global};
use vg_kernel::{KParam, KParamKind, Kernel};

/// Whether a pointer, by its number among the pointers, is noalias. Where there is none it is not.
fn is_noalias(params: &[KParam], number: u32) -> bool
    ensures { result ≡ unwrap_or (slice_get (filter_map noalias_of params.now) number) false }
{
    let mut left = number;
    let mut rest = params;
    'params: while let [param, behind @ ..] = rest {
        if let KParamKind::Pointer { noalias } = param.kind {
            if left == 0 {
                return noalias;
            }
            left -= 1;
        }
        rest = behind;
    }
    false
}

/// How many pointers these parameters have.
fn count_of_pointers(params: &[KParam]) -> u32
    requires { length params.now ≤ 16 }
    ensures count { result ≡ length (pointers params.now) }
    ensures few { result ≤ 16 }
{
    let mut count = 0;
    let mut rest = params;
    'params: while let [param, behind @ ..] = rest {
        if let KParamKind::Pointer { .. } = param.kind {
            count += 1;
        }
        rest = behind;
    }
    count
}

/// The check of all bytes that are reached through two pointers.
fn check_between(first: u32, own: Reach, second: u32, other: Reach) -> Check
    ensures { result ≡ check_between first own second other }
{
    Check {
        first,
        first_low: own.low,
        first_len: own.high.abs_diff(own.low),
        second,
        second_low: other.low,
        second_len: other.high.abs_diff(other.low),
    }
}

/// The check of two pointers, where they have one.
fn check_of(kernel: &Kernel, first: u32, second: u32) -> Option<Check>
    ensures { result ≡ check_of (tree_of kernel.now) first second }
{
    let own = reach_of(kernel, first)?;
    let other = reach_of(kernel, second)?;
    let params = kernel.params.as_slice();
    let is_bound = !is_noalias(params, first)
        && !is_noalias(params, second)
        && (own.writes || other.writes);
    if is_bound {
        Some(check_between(first, own, second, other))
    } else {
        None
    }
}

/// Appends the checks of a pointer with each after it, where there are so many pointers.
#[tactic(auto, using(crate::proofs::Numbers::with_one, crate::proofs::Numbers::with_none, crate::proofs::Numbers::with_end))]
fn put_checks(
    to: &mut Vec<Check>,
    kernel: &Kernel,
    first: u32,
    count: u32,
) -> Result<(), AllocError>
    requires inside { first < count }
    requires few { count ≤ 16 }
    ensures { OnOk result
        (to.new.items ≡ to.old.items ++ checks_with (tree_of kernel.now) count first) }
{
    'seconds: for second in first + 1..count {
        if let Some(check) = check_of(kernel, first, second) {
            to.push(check)?;
        }
    }
    Ok(())
}

/// The checks of a kernel with at most 16 parameters: one of each two pointers of which neither is
/// noalias, both are accessed and one is stored through, in the order of the parameters. Fails for
/// want of memory alone.
#[tactic(auto, using(crate::proofs::Numbers::all_begin, crate::proofs::Numbers::all_more, crate::proofs::Numbers::all_end))]
pub fn checks_of(alloc: Global, kernel: &Kernel) -> Result<Vec<Check>, AllocError>
    requires { length kernel.now.params ≤ 16 }
    ensures { IfOk result (λ checks. checks.items ≡ checks_of (tree_of kernel.now)) }
{
    let count = count_of_pointers(kernel.params.as_slice());
    let mut checks = Vec::new(alloc);
    'firsts: for first in 0..count {
        match put_checks(&mut checks, kernel, first, count) {
            Ok(()) => {}
            Err(error) => return Err(error),
        }
    }
    Ok(checks)
}
