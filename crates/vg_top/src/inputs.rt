//! The values of parameters, which words bind.

ghost use Rattle.std.specs.Prelude.{◌≡◌, ◌≤◌, ◌-◌, ◌*◌, ◌^◌, map, count_by, option_map, IfSome, IfOk};
ghost use Rattle.std.specs.List.{find};
ghost use Rattle.std.specs.Str.{bytes_eq};
ghost use Rattle.vg_base.specs.Width.{bits_of};
ghost use Rattle.vg_request.specs.Binding.{signed_number, binding_seen};
ghost use Rattle.vg_top.specs.Inputs.{place_of, integer_of, value_of, number_of, param_value, values, is_asked, asked, is_named, all_named, inputs_of, FitParams, inputs_seen};

use std::alloc::{AllocError, Global};
use vg_base::Width;
use vg_program::param::Param;
use vg_program::param_kind::ParamKind;
use vg_request::binding::{Bound, SignedNumber};
use vg_text::byte::is_text;

/// The values of the parameters: one place for each pointer and one value for each integer, each
/// kind in the order of the parameters.
#[derive(Drop)]
pub struct Inputs {
    /// In bytes from the start of the memory.
    pub places: Vec<u64>,
    /// Modulo 2 to their widths.
    pub args: Vec<u64>,
}

fn place_of(number: SignedNumber) -> Option<u64>
    ensures { result ≡ place_of (signed_number number) }
{
    if number.distance < 1 << 64 && (!number.negative || number.distance == 0) {
        Some(number.distance as u64)
    } else {
        None
    }
}

/// How many values a width has.
pub fn values_in(width: Width) -> u128
    ensures value { result ≡ 2 ^ bits_of width }
    ensures fits { result ≤ 2 ^ 64 }
{
    match width {
        Width::W8 => 1 << 8,
        Width::W16 => 1 << 16,
        Width::W32 => 1 << 32,
        Width::W64 => 1 << 64,
    }
}

/// How far below zero a width goes.
fn farthest_below(width: Width) -> u128
    ensures value { result ≡ 2 ^ (bits_of width - 1) }
    ensures half { result * 2 ≡ 2 ^ bits_of width }
{
    match width {
        Width::W8 => 1 << 7,
        Width::W16 => 1 << 15,
        Width::W32 => 1 << 31,
        Width::W64 => 1 << 63,
    }
}

fn integer_of(width: Width, number: SignedNumber) -> Option<u64>
    ensures { result ≡ integer_of (bits_of width) (signed_number number) }
{
    let all = values_in(width);
    let most = if number.negative {
        farthest_below(width)
    } else {
        all - 1
    };
    if number.distance > most {
        return None;
    }
    if number.negative {
        Some(((all - number.distance) % all) as u64)
    } else {
        Some(number.distance as u64)
    }
}

fn value_of(kind: ParamKind, number: SignedNumber) -> Option<u64>
    ensures { result ≡ value_of kind (signed_number number) }
{
    match kind {
        ParamKind::Pointer => place_of(number),
        ParamKind::Integer(width) => integer_of(width, number),
    }
}

fn times_bound(bindings: &[Bound], name: &[u8]) -> usize
    ensures { result ≡ count_by (λ b. bytes_eq b.name name.now) (map binding_seen bindings.now) }
{
    bindings.iter().filter(|b| is_text(b.name, name)).count()
}

fn first_bound<'a, 'b>(bindings: &'a [Bound<'b>], name: &[u8]) -> Option<&'a Bound<'b>>
    ensures { option_map (λ b. b.now) result ≡ find (λ b. bytes_eq b.name.now name.now)
        bindings.now }
{
    bindings.iter().find(|b| is_text(b.name, name))
}

/// The number of a name that exactly one word binds.
fn number_of(bindings: &[Bound], name: &[u8]) -> Option<SignedNumber>
    ensures { option_map signed_number result ≡ number_of (map binding_seen bindings.now) name.now }
{
    if times_bound(bindings, name) != 1 {
        return None;
    }
    match first_bound(bindings, name) {
        Some(binding) => Some(binding.number),
        None => None,
    }
}

fn param_value(bindings: &[Bound], param: &Param) -> Option<u64>
    ensures { result ≡ param_value (map binding_seen bindings.now) param.now }
{
    let number = number_of(bindings, param.name.bytes())?;
    value_of(param.kind, number)
}

fn is_named(name: &[u8], params: &[Param]) -> bool
    ensures { result ≡ is_named name.now params.now }
{
    params.iter().any(|p| is_text(p.name.bytes(), name))
}

/// Whether each word names a parameter.
fn all_named(bindings: &[Bound], params: &[Param]) -> bool
    ensures { result ≡ all_named (map binding_seen bindings.now) params.now }
{
    bindings.iter().all(|b| is_named(b.name, params))
}

/// The pointers are asked for, or the integers.
fn is_asked(pointers: bool, kind: ParamKind) -> bool
    ensures { result ≡ is_asked pointers kind }
{
    if pointers {
        kind.is_pointer()
    } else {
        kind.is_integer()
    }
}

/// The values of the pointers or of the integers, in order. None where one has no value.
fn values_of(
    alloc: Global,
    bindings: &[Bound],
    params: &[Param],
    pointers: bool,
) -> Result<Option<Vec<u64>>, AllocError>
    ensures { IfOk result (λ o. option_map (λ v. v.items) o
        ≡ values (map binding_seen bindings.now) (asked pointers params.now)) }
{
    let mut all = Vec::new(alloc);
    'params: for param in params {
        if is_asked(pointers, param.kind) {
            match param_value(bindings, param) {
                Some(value) => all.push(value)?,
                None => return Ok(None),
            }
        }
    }
    Ok(Some(all))
}

/// The values of the parameters. None where some word names no parameter, or some parameter is not
/// bound by exactly one word in its range: 0 to 2^64 - 1 for a pointer, -2^(w - 1) to 2^w - 1 for an
/// integer of w bits. Fails for want of memory alone.
#[tactic(auto, unfolding(crate::specs::Inputs::inputs_of))]
pub fn bind(
    alloc: Global,
    bindings: &[Bound],
    params: &[Param],
) -> Result<Option<Inputs>, AllocError>
    ensures values { IfOk result (λ o. option_map inputs_seen o
        ≡ inputs_of (map binding_seen bindings.now) params.now) }
    ensures fits { IfOk result (λ o. IfSome o (λ i. FitParams params.now (inputs_seen i))) }
{
    if !all_named(bindings, params) {
        return Ok(None);
    }
    let Some(places) = values_of(alloc, bindings, params, true)? else {
        return Ok(None);
    };
    let Some(args) = values_of(alloc, bindings, params, false)? else {
        return Ok(None);
    };
    Ok(Some(Inputs { places, args }))
}
