//! The lines on an instance.

ghost use Rattle.std.specs.Prelude.{◌≡◌, ◌+◌, ◌<◌, ◌++◌, ◌^◌, IfOk, OnErr, OnOk, length, map};
ghost use Rattle.std.specs.Fmt.{decimal};
ghost use Rattle.vg_shapes.specs.Lane.{lane_of};
ghost use Rattle.vg_lanes.specs.Described.{AreLanes, cause_of, immediate};
ghost use Rattle.vg_lanes.specs.Listing.{cause_line, first_line, imm_text, instance_text, lane_line, lane_lines, lane_text, last_line, names_of};

use crate::canonical_lanes::canonical_lanes;
use crate::cause::Cause;
use crate::described::immediate;
use crate::first_cause::first_cause;
use std::alloc::{AllocError, Global};
use vg_base::{Items, Name};
use vg_pseudo::{Header, Param};
use vg_shapes::Lane;
use vg_terms::{Names, print_term};

/// The names of parameters.
fn param_names(alloc: Global, params: &[Param]) -> Result<Vec<Name>, AllocError>
    ensures { IfOk result (λ names. names.items ≡ map (λ p. p.name) params.now) }
{
    let mut names = Vec::with_capacity(alloc, params.len())?;
    'params: for param in params {
        let name = param.name.copy(alloc)?;
        names.push(name)?;
    }
    Ok(names)
}

fn names_of(alloc: Global, header: &Header) -> Result<Names, AllocError>
    ensures { IfOk result (λ names. names ≡ names_of header.now) }
{
    let params = param_names(alloc, header.params.as_slice())?;
    Ok(Names {
        params: Items::from_vec(params),
        pointers: Items::from_vec(Vec::new(alloc)),
        arguments: Items::from_vec(Vec::new(alloc)),
    })
}

fn put_number(alloc: Global, to: &mut Vec<u8>, number: u64) -> Result<(), AllocError>
    ensures { OnOk result (to.new.items ≡ to.old.items ++ decimal number) }
{
    let digits = number.to_string(alloc)?;
    to.extend_from_slice(digits.as_bytes())?;
    Ok(())
}

fn put_imm(alloc: Global, to: &mut Vec<u8>, imm: Option<u8>) -> Result<(), AllocError>
    ensures { OnOk result (to.new.items ≡ to.old.items ++ imm_text imm) }
{
    match imm {
        None => Ok(()),
        Some(number) => {
            to.extend_from_slice(b" imm ")?;
            put_number(alloc, to, u64::from(number))
        }
    }
}

fn put_first_line(
    alloc: Global,
    to: &mut Vec<u8>,
    header: &Header,
    imm: u8,
) -> Result<(), AllocError>
    ensures { OnOk result (to.new.items ≡ to.old.items ++ first_line header.now imm) }
{
    to.extend_from_slice(b"instruction ")?;
    to.extend_from_slice(header.name.bytes())?;
    put_imm(alloc, to, immediate(&header.imm, imm))?;
    to.extend_from_slice(b"\n")?;
    Ok(())
}

fn put_lane(alloc: Global, to: &mut Vec<u8>, names: &Names, lane: &Lane) -> Result<(), AllocError>
    ensures { OnOk result (to.new.items ≡ to.old.items ++ lane_text names.now (lane_of lane.now)) }
{
    match lane {
        Lane::Tree(term) => print_term(alloc, term, names, to),
        Lane::Big => to.extend_from_slice(b"too large"),
        Lane::Dynamic => to.extend_from_slice(b"dynamic"),
    }
}

fn put_lane_line(
    alloc: Global,
    to: &mut Vec<u8>,
    names: &Names,
    number: u64,
    lane: &Lane,
) -> Result<(), AllocError>
    ensures { OnOk result (to.new.items ≡ to.old.items ++ lane_line names.now number (lane_of
        lane.now)) }
{
    to.extend_from_slice(b"lane ")?;
    put_number(alloc, to, number)?;
    to.extend_from_slice(b" ")?;
    put_lane(alloc, to, names, lane)?;
    to.extend_from_slice(b"\n")?;
    Ok(())
}

fn put_lane_lines(
    alloc: Global,
    to: &mut Vec<u8>,
    names: &Names,
    lanes: &[Lane],
) -> Result<(), AllocError>
    ensures { OnOk result (to.new.items ≡ to.old.items ++ lane_lines names.now 0 (map lane_of
        lanes.now)) }
{
    let mut number = 0;
    let mut left = lanes;
    'lanes: while let [lane, behind @ ..] = left {
        put_lane_line(alloc, to, names, number, lane)?;
        number += 1;
        left = behind;
    }
    Ok(())
}

fn put_cause(to: &mut Vec<u8>, cause: Cause) -> Result<(), AllocError>
    ensures { OnOk result (to.new.items ≡ to.old.items ++ cause_line cause) }
{
    to.extend_from_slice(b"not packable ")?;
    to.extend_from_slice(cause.name())?;
    to.extend_from_slice(b"\n")?;
    Ok(())
}

fn put_last_line(to: &mut Vec<u8>, cause: Option<Cause>) -> Result<(), AllocError>
    ensures { OnOk result (to.new.items ≡ to.old.items ++ last_line cause) }
{
    match cause {
        None => Ok(()),
        Some(cause) => put_cause(to, cause),
    }
}

fn write_instance(
    alloc: Global,
    header: &Header,
    imm: u8,
    lanes: Vec<Lane>,
    to: &mut Vec<u8>,
) -> Result<(), AllocError>
    requires { AreLanes header.now (map lane_of lanes.items) }
    ensures { OnOk result (to.new.items ≡ to.old.items ++ instance_text header.now imm (map lane_of
        lanes.items)) }
{
    let forms = canonical_lanes(alloc, lanes)?;
    let cause = first_cause(alloc, forms.as_slice())?;
    let names = names_of(alloc, header)?;
    put_first_line(alloc, to, header, imm)?;
    put_lane_lines(alloc, to, &names, forms.as_slice())?;
    put_last_line(to, cause)
}

/// Appends the lines on an instance of this entry, whose immediate is `imm` if it has one, by its
/// lanes as they were lifted: `instruction NAME`, with ` imm N` after it; for each lane
/// `lane N TERM`, with the canonical form of its term, `lane N too large` or `lane N dynamic`; and
/// `not packable CAUSE` where packs cannot call it. Each line ends with a line feed. Fails for want of
/// memory alone, and then nothing is appended.
pub fn list_instance(
    alloc: Global,
    header: &Header,
    imm: u8,
    lanes: Vec<Lane>,
    to: &mut Vec<u8>,
) -> Result<(), AllocError>
    requires { AreLanes header.now (map lane_of lanes.items) }
    ensures done { OnOk result (to.new.items ≡ to.old.items ++ instance_text header.now imm (map
        lane_of lanes.items)) }
    ensures refused { OnErr result (to.new.items ≡ to.old.items) }
{
    let mut whole = Vec::new(alloc);
    write_instance(alloc, header, imm, lanes, &mut whole)?;
    to.extend_from_slice(whole.as_slice())
}
