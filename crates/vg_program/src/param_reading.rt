//! The first line of a program.

ghost use Rattle.std.specs.Prelude.{◌≡◌, ◌-◌, ◌≤◌, length, vec_len, IfOk, [], List};
ghost use Rattle.std.specs.List.{list_any};
ghost use Rattle.std.specs.Str.{bytes_eq};
ghost use Rattle.vg_program.specs.Tokens.{Gives};
ghost use Rattle.vg_program.specs.Grammar.{kind_at, param_at, params_behind, params_at, signature_at, first_line_at};

use crate::fault::Fault;
use crate::param::Param;
use crate::param_kind::ParamKind;
use crate::signature::Signature;
use crate::stop::ReadError;
use crate::tokens::{
    begins, behind_word, is_word, met, name_at, signs_at, skip, type_at, unfit, word_at,
};
use std::alloc::Global;
use vg_base::items::Items;
use vg_base::name::Name;
use vg_text::byte::is_text;

/// The most parameters of a program.
const MOST_PARAMS: usize = 16;

#[tactic(auto, unfolding(crate::specs::Grammar::kind_at))]
fn kind_at(text: &[u8]) -> Result<(ParamKind, &[u8]), ReadError>
    ensures { Gives (λ x. (x.0, x.1.now)) result (kind_at text.now) }
{
    if is_word(b"ptr", text) {
        return Ok((ParamKind::Pointer, behind_word(text)));
    }
    let (width, rest) = type_at(text)?;
    Ok((ParamKind::Integer(width), rest))
}

fn is_given(name: &[u8], params: &[Param]) -> bool
    ensures { result ≡ list_any (λ q. bytes_eq q.name name.now) params.now }
{
    params.iter().any(|q| is_text(q.name.bytes(), name))
}

#[tactic(auto, unfolding(crate::specs::Grammar::param_at))]
fn param_at<'a>(
    alloc: Global,
    before: &[Param],
    text: &'a [u8],
) -> Result<(Param, &'a [u8]), ReadError>
    ensures { Gives (λ x. (x.0, x.1.now)) result (param_at before.now text.now) }
{
    let (name, rest) = name_at(text)?;
    if is_given(name, before) {
        return Err(ReadError::At(met(Fault::Shape, text)));
    }
    let rest = signs_at(b": ", rest)?;
    let (kind, rest) = kind_at(rest)?;
    let name = Name::new(alloc, name)?;
    Ok((Param { name, kind }, rest))
}

#[tactic(auto, using(crate::proofs::ParamLoop::params_full, crate::proofs::ParamLoop::params_fault, crate::proofs::ParamLoop::params_closed, crate::proofs::ParamLoop::params_apart, crate::proofs::ParamLoop::params_more))]
fn params_behind(alloc: Global, text: &[u8]) -> Result<(Vec<Param>, &[u8]), ReadError>
    ensures exact { Gives (λ x. (x.0.items, x.1.now)) result (params_behind 16 [] text.now) }
    ensures few { IfOk result (λ x. vec_len x.0 ≤ 16) }
{
    let mut params = Vec::new(alloc);
    let mut rest = text;
    'params: loop {
        if params.len() == MOST_PARAMS {
            return Err(ReadError::At(unfit(rest)));
        }
        let (param, behind) = param_at(alloc, &params, rest)?;
        params.push(param)?;
        if begins(b')', behind) {
            return Ok((params, skip(behind, 1)));
        }
        rest = signs_at(b", ", behind)?;
    }
}

#[tactic(auto, unfolding(crate::specs::Grammar::params_at))]
fn params_at(alloc: Global, text: &[u8]) -> Result<(Vec<Param>, &[u8]), ReadError>
    ensures exact { Gives (λ x. (x.0.items, x.1.now)) result (params_at text.now) }
    ensures few { IfOk result (λ x. vec_len x.0 ≤ 16) }
{
    if begins(b')', text) {
        return Ok((Vec::new(alloc), skip(text, 1)));
    }
    params_behind(alloc, text)
}

/// Reads a name and its parameters, as `copy(d: ptr, k: i8)`, and gives them with the bytes after
/// the bracket. An error is the first fault there, or want of memory.
#[tactic(auto, unfolding(crate::specs::Grammar::signature_at))]
pub fn signature_at(alloc: Global, text: &[u8]) -> Result<(Signature, &[u8]), ReadError>
    ensures exact { Gives (λ x. (x.0, x.1.now)) result (signature_at text.now) }
    ensures few { IfOk result (λ x. length x.0.params ≤ 16) }
{
    let (name, rest) = name_at(text)?;
    let rest = signs_at(b"(", rest)?;
    let (params, rest) = params_at(alloc, rest)?;
    let name = Name::new(alloc, name)?;
    let params = Items::from_vec(params);
    Ok((Signature { name, params }, rest))
}

#[tactic(auto, unfolding(crate::specs::Grammar::first_line_at))]
pub(crate) fn first_line_at(alloc: Global, text: &[u8]) -> Result<(Signature, &[u8]), ReadError>
    ensures exact { Gives (λ x. (x.0, x.1.now)) result (first_line_at text.now) }
    ensures few { IfOk result (λ x. length x.0.params ≤ 16) }
{
    let rest = word_at(b"program", text)?;
    let rest = signs_at(b" ", rest)?;
    let (signature, rest) = signature_at(alloc, rest)?;
    let rest = signs_at(b"\n", rest)?;
    Ok((signature, rest))
}
