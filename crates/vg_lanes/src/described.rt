//! What becomes of the lanes of an instance.

ghost use Rattle.std.specs.Prelude.{◌≡◌, IfOk, map};
ghost use Rattle.vg_terms.specs.Term.{tree};
ghost use Rattle.vg_shapes.specs.Description.{description_of};
ghost use Rattle.vg_shapes.specs.Lane.{lane_of};
ghost use Rattle.vg_lanes.specs.Described.{AreLanes, IsKept, described, described_of, description, immediate, terms_of};

use crate::canonical_lanes::canonical_lanes;
use crate::cause::Cause;
use crate::first_cause::first_cause;
use std::alloc::{AllocError, Global};
use vg_base::Items;
use vg_pseudo::{Header, ImmRange, Param};
use vg_shapes::{Description, Lane};
use vg_terms::Term;

/// An instance with canonical lanes, as packs see it.
#[derive(Drop)]
pub enum Described {
    /// Packs may call it.
    Packable(Description),
    /// Packs cannot call it, for this cause, the first that holds.
    NotPackable { lanes: Items<Lane>, cause: Cause },
}

pub(crate) fn immediate(range: &Option<ImmRange>, imm: u8) -> Option<u8>
    ensures { result ≡ immediate range.now imm }
{
    match range {
        Some(_) => Some(imm),
        None => None,
    }
}

/// The widths of parameters.
fn registers(alloc: Global, params: &[Param]) -> Result<Vec<u32>, AllocError>
    ensures { IfOk result (λ widths. widths.items ≡ map (λ p. p.register) params.now) }
{
    let mut widths = Vec::with_capacity(alloc, params.len())?;
    'params: for param in params {
        widths.push(param.register)?;
    }
    Ok(widths)
}

/// The terms of the lanes that have terms.
fn terms(alloc: Global, lanes: Vec<Lane>) -> Result<Vec<Term>, AllocError>
    ensures { IfOk result (λ ts. map tree ts.items ≡ terms_of (map lane_of lanes.items)) }
{
    let mut found = Vec::with_capacity(alloc, lanes.len())?;
    'lanes: for lane in lanes {
        if let Lane::Tree(term) = lane {
            found.push(term)?;
        }
    }
    Ok(found)
}

fn description(
    alloc: Global,
    header: &Header,
    imm: u8,
    lanes: Vec<Lane>,
) -> Result<Description, AllocError>
    ensures { IfOk result (λ d. description_of d ≡ description header.now imm (map lane_of
        lanes.items)) }
{
    let name = header.name.copy(alloc)?;
    let params = registers(alloc, header.params.as_slice())?;
    let lanes = terms(alloc, lanes)?;
    Ok(Description {
        name,
        imm: immediate(&header.imm, imm),
        cost: header.cost,
        params: Items::from_vec(params),
        register: header.register,
        lane_width: header.lane_width,
        lanes: Items::from_vec(lanes),
    })
}

/// What packs may make of an instance of this entry, whose immediate is `imm` if it has one, by its
/// lanes as they were lifted: their canonical terms, or the first cause why packs cannot call it,
/// with the lanes, whose terms are canonical too. Fails for want of memory alone.
pub fn describe(
    alloc: Global,
    header: &Header,
    imm: u8,
    lanes: Vec<Lane>,
) -> Result<Described, AllocError>
    requires { AreLanes header.now (map lane_of lanes.items) }
    ensures is { IfOk result (λ d. described_of d ≡ described header.now imm (map lane_of
        lanes.items)) }
    ensures kept { IfOk result (λ d. IsKept (described_of d)) }
{
    let forms = canonical_lanes(alloc, lanes)?;
    match first_cause(alloc, forms.as_slice())? {
        None => {
            let found = description(alloc, header, imm, forms)?;
            Ok(Described::Packable(found))
        }
        Some(cause) => Ok(Described::NotPackable {
            lanes: Items::from_vec(forms),
            cause,
        }),
    }
}
