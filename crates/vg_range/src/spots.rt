//! Where expressions stand.

ghost use Rattle.std.specs.Prelude.{◌≡◌};
ghost use Rattle.vg_interval.specs.Judge.{spot_of};
ghost use Rattle.vg_names.specs.Views.{expr_of};

use vg_names::ResolvedExpr;
use vg_pseudo::Spot;

/// Where an expression stands in the text of its operation.
pub fn spot_of(expr: &ResolvedExpr) -> Spot
    ensures { result ≡ spot_of (expr_of expr.now) }
{
    match expr {
        ResolvedExpr::Literal { spot, .. } => *spot,
        ResolvedExpr::Counter { spot, .. } => *spot,
        ResolvedExpr::Variable { spot, .. } => *spot,
        ResolvedExpr::Slice { spot, .. } => *spot,
        ResolvedExpr::Element { spot, .. } => *spot,
        ResolvedExpr::Front { spot, .. } => *spot,
        ResolvedExpr::Unary { spot, .. } => *spot,
        ResolvedExpr::Binary { spot, .. } => *spot,
        ResolvedExpr::Choice { spot, .. } => *spot,
        ResolvedExpr::Call { spot, .. } => *spot,
    }
}
