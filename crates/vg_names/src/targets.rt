//! Targets of assignments with their names resolved.

ghost use Rattle.std.specs.Prelude.{◌≡◌};
ghost use Rattle.vg_pseudo.specs.Tree.{expression_of};
ghost use Rattle.vg_pseudo.specs.Resolve.{assigned_register, assigned_name, target_of};
ghost use Rattle.vg_names.specs.Naming.{Gives, bits_of, lane_of};
ghost use Rattle.vg_names.specs.Registers.{register_view};
ghost use Rattle.vg_names.specs.Scopes.{meaning_view};
ghost use Rattle.vg_names.specs.Views.{target_view};

use crate::expressions::resolved;
use crate::name_fault::NameFault;
use crate::registers::Register;
use crate::resolved::Target;
use crate::scope::{Meaning, Scope};
use std::alloc::Global;
use vg_pseudo::Expr;
use vg_text::Place;

/// A register that may be assigned, with its number.
pub(crate) fn assigned_register<'a>(
    place: Place,
    meaning: Meaning<'a>,
) -> Result<(usize, &'a Register), NameFault>
    ensures { Gives (λ r. (r.0, register_view r.1.now)) result (assigned_register place
        (meaning_view meaning.entry)) }
{
    match meaning {
        Meaning::Register(register, facts) => {
            if facts.is_variable {
                Ok((register, facts))
            } else {
                Err(NameFault::UnknownName { place })
            }
        }
        _ => Err(NameFault::UnknownName { place }),
    }
}

/// A bare name that is assigned.
fn assigned_name(place: Place, meaning: Meaning) -> Result<Target, NameFault>
    ensures { Gives target_view result (assigned_name place (meaning_view meaning.entry)) }
{
    match meaning {
        Meaning::Variable(variable) => Ok(Target::Number { variable }),
        _ => {
            let (register, facts) = assigned_register(place, meaning)?;
            match facts.span {
                Some(size) => Ok(Target::Whole { register, size }),
                None => Err(NameFault::BareRegister { place }),
            }
        }
    }
}

/// The target of an assignment, or its first name that cannot be resolved.
pub(crate) fn target_of(
    alloc: Global,
    scope: &Scope,
    place: Place,
    target: &Expr,
) -> Result<Target, NameFault>
    ensures { Gives target_view result (target_of scope.now place (expression_of target.now)) }
{
    match target {
        Expr::Name { name, .. } => assigned_name(place, scope.named(name.bytes())),
        Expr::Slice {
            name,
            high,
            low,
            ..
        } => bits(alloc, scope, place, name.bytes(), high, low),
        Expr::Bit { name, index, .. } => lane(alloc, scope, place, name.bytes(), 1, index),
        Expr::Element {
            name,
            size,
            index,
            ..
        } => lane(alloc, scope, place, name.bytes(), size.bits(), index),
        Expr::Part { name, size, .. } => {
            let (register, _) = assigned_register(place, scope.named(name.bytes()))?;
            Ok(Target::Whole {
                register,
                size: size.bits() as u128,
            })
        }
        _ => Err(NameFault::UnknownName { place }),
    }
}

/// `name[high:low]`
fn bits(
    alloc: Global,
    scope: &Scope,
    place: Place,
    name: &[u8],
    high: &Expr,
    low: &Expr,
) -> Result<Target, NameFault>
    ensures { Gives target_view result (bits_of scope.now place name.now (expression_of high.now)
        (expression_of low.now)) }
{
    let (register, _) = assigned_register(place, scope.named(name))?;
    let high = Box::new(alloc, resolved(alloc, scope, high)?)?;
    let low = Box::new(alloc, resolved(alloc, scope, low)?)?;
    Ok(Target::Bits {
        register,
        high,
        low,
    })
}

/// An element of so many bits, by its index.
fn lane(
    alloc: Global,
    scope: &Scope,
    place: Place,
    name: &[u8],
    size: u32,
    index: &Expr,
) -> Result<Target, NameFault>
    ensures { Gives target_view result (lane_of scope.now place name.now size (expression_of
        index.now)) }
{
    let (register, _) = assigned_register(place, scope.named(name))?;
    let index = Box::new(alloc, resolved(alloc, scope, index)?)?;
    Ok(Target::Lane {
        register,
        size,
        index,
    })
}
