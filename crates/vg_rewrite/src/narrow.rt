//! The units of a kernel, each number in the widths that are asked of it.

ghost use Rattle.std.specs.Prelude.{◌≡◌, ◌<◌, ◌^◌, IfOk, length};
ghost use Rattle.vg_rewrite.specs.Narrowed.{narrowed_units};
ghost use Rattle.vg_shapes.specs.Sound.{IsSound};
ghost use Rattle.vg_ssa.specs.OfUnits.{widths_of};

use crate::asking::asked_of;
use crate::narrowing::make_all;
use std::alloc::{AllocError, Global};
use vg_base::Width;
use vg_shapes::{Ssa, SsaParam, SsaParamKind, SsaUnit};
use vg_spans::spans;

// The widths of the integer parameters.
fn param_widths(alloc: Global, params: &[SsaParam]) -> Result<Vec<Width>, AllocError>
    ensures { IfOk result (λ widths. widths.items ≡ widths_of params.now) }
{
    let mut widths = Vec::new(alloc);
    let mut rest = params;
    'params: while let [param, behind @ ..] = rest {
        if let SsaParamKind::Integer(width) = param.kind {
            widths.push(width)?;
        }
        rest = behind;
    }
    Ok(widths)
}

/// The units that make what the stores of numbered values ask for: each number in the widths that
/// are asked of it, each load and each store once, in their order. An operation that nothing asks
/// for is gone. They are fewer than 2^17. Fails for want of memory alone.
pub fn narrowed_units(alloc: Global, ssa: &Ssa) -> Result<Vec<SsaUnit>, AllocError>
    requires { IsSound ssa.now }
    ensures exact { IfOk result (λ units. units.items ≡ narrowed_units ssa.now) }
    ensures few { IfOk result (λ units. length units.items < 2 ^ 17) }
{
    let params = ssa.params.as_slice();
    let units = ssa.units.as_slice();
    let spans = spans(alloc, ssa)?;
    let widths = param_widths(alloc, params)?;
    let asked = asked_of(alloc, &spans, &widths, units)?;
    make_all(alloc, &spans, &asked, &widths, units)
}
