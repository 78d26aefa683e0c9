//! The values of lanes, compared with what entries answer to the same registers.

ghost use Rattle.std.specs.Prelude.{map};
ghost use Rattle.vg_catalog.specs.Entries.{entry_of};
ghost use Rattle.vg_catalog.specs.Written.{AllWritten};
ghost use Rattle.vg_names.specs.Written.{IsWritten};
ghost use Rattle.vg_range.specs.Checks.{header_in, operation_in};
ghost use Rattle.vg_lift.specs.Instances.{HasInstance, HasLanes};

use crate::entries::ENTRIES;
use crate::instances::is_instance;
use std::alloc::{AllocError, Global};
use std::process::Abort;
use std::test::Fail;
use vg_base::Items;
use vg_bits::Reg;
use vg_catalog::parse_file;
use vg_lift::{has_lanes, lanes_of};
use vg_pmean::Prepared;
use vg_pool::Pool;
use vg_range::Checked;
use vg_shapes::Lane;
use vg_terms::{Env, LeafKey, Term};

/// What halves of registers have in them.
const CONTENTS: [u128; 10] = [
    0,
    0xffff_ffff_ffff_ffff_ffff_ffff_ffff_ffff,
    0x8000_7fff_8001_7ffe_0080_ff7f_0001_fffe,
    0x7fff_ffff_8000_0000_0000_0001_ffff_ffff,
    0x0123_4567_89ab_cdef_fedc_ba98_7654_3210,
    0x8080_8080_8080_8080_7f7f_7f7f_7f7f_7f7f,
    0x00ff_00ff_00ff_00ff_ff00_ff00_ff00_ff00,
    0x8000_0000_0000_0000_7fff_ffff_ffff_ffff,
    0x0102_0304_0506_0708_f0e0_d0c0_b0a0_9080,
    0x3141_5926_5358_9793_2384_6264_3383_2795,
];

fn content(place: usize) -> u128 {
    match CONTENTS.get(place % 10) {
        Some(bits) => *bits,
        None => 0,
    }
}

/// The registers of so many parameters, in one of ten turns.
fn registers(alloc: Global, params: usize, turn: usize) -> Result<Vec<Reg<32>>, AllocError> {
    let mut all = Vec::new(alloc);
    let mut place = turn;
    for _param in 0..params {
        let mut register = Reg::<32>::zero();
        register.put(0, 128, content(place));
        register.put(128, 128, content(place.wrapping_add(3)));
        all.push(register)?;
        place = place.wrapping_add(4);
    }
    Ok(all)
}

/// The bits of a parameter from each bit on, at most 128 of them.
fn push_readings(
    pairs: &mut Vec<(LeafKey, u128)>,
    param: u32,
    register: &Reg<32>,
) -> Result<(), AllocError> {
    for low in 0..256usize {
        let key = LeafKey {
            kind: 0,
            first: param,
            second: low as i64,
            third: 0,
        };
        pairs.push((key, register.get(low, (256 - low).min(128))))?;
    }
    Ok(())
}

fn environment(alloc: Global, params: &[Reg<32>]) -> Result<Env, AllocError> {
    let mut pairs = Vec::new(alloc);
    let mut param: u32 = 0;
    for register in params {
        push_readings(&mut pairs, param, register)?;
        param = param.wrapping_add(1);
    }
    Ok(Env {
        pairs: Items::from_vec(pairs),
    })
}

fn compare_lane(
    rt: &impl Abort,
    term: &Term,
    environment: &Env,
    answer: &Reg<32>,
    width: usize,
    lane: usize,
) -> Result<(), Fail> {
    if !term.is_well_formed() {
        return Err("the term of a lane is not well-formed".into());
    }
    let first = lane.saturating_mul(width);
    if width == 0 || width > 128 || first > 256 - width {
        return Err("a lane is outside of its register".into());
    }
    assert!(rt; term.value(environment) == answer.get(first, width));
    Ok(())
}

fn compare_lanes(
    rt: &impl Abort,
    lanes: &[Lane],
    environment: &Env,
    answer: &Reg<32>,
    width: usize,
) -> Result<(), Fail> {
    for lane in 0..lanes.len() {
        match &lanes[lane] {
            Lane::Tree(term) => compare_lane(rt, term, environment, answer, width, lane)?,
            _ => return Err("a lane has no term".into()),
        }
    }
    Ok(())
}

fn compare_instance(
    rt: &impl Abort,
    alloc: Global,
    pool: &mut Pool,
    entry: &Checked,
    prepared: &mut Prepared,
    imm: u8,
) -> Result<(), Fail>
    requires written { IsWritten (header_in entry.now) (operation_in entry.now) }
    requires range { HasInstance (header_in entry.now) imm }
    requires lanes { HasLanes (header_in entry.now) }
{
    let lanes = lanes_of(pool, alloc, entry, imm)?;
    let width = entry.header().lane_width as usize;
    for turn in 0..10 {
        let params = registers(alloc, entry.header().params.as_slice().len(), turn)?;
        let environment = environment(alloc, params.as_slice())?;
        let answer = prepared.apply(params.as_slice(), imm);
        compare_lanes(rt, lanes.as_slice(), &environment, &answer, width)?;
    }
    Ok(())
}

fn compare_entry(rt: &impl Abort, alloc: Global, entry: &Checked) -> Result<(), Fail>
    requires { IsWritten (header_in entry.now) (operation_in entry.now) }
{
    if !has_lanes(entry.header()) {
        return Err("the lanes of an entry do not fill its result".into());
    }
    let mut prepared = Prepared::new(alloc, entry)?;
    let mut pool = Pool::new(alloc);
    let last = if entry.header().imm.is_none() { 0 } else { 255 };
    for number in 0..256u32 {
        let imm = number as u8;
        if imm <= last && is_instance(entry, imm) {
            compare_instance(rt, alloc, &mut pool, entry, &mut prepared, imm)?;
        }
    }
    Ok(())
}

fn compare_entries(rt: &impl Abort, alloc: Global, entries: &[Checked]) -> Result<(), Fail>
    requires { AllWritten (map entry_of entries.now) }
{
    match entries {
        [] => Ok(()),
        [entry, rest @ ..] => {
            compare_entry(rt, alloc, entry)?;
            compare_entries(rt, alloc, rest)
        }
    }
}

fn compare_file(rt: &impl Abort, alloc: Global, file: &str) -> Result<(), Fail> {
    let Ok(catalog) = parse_file(alloc, file.as_bytes()) else {
        return Err("a file is refused".into());
    };
    assert!(rt; catalog.entries().len() == 21);
    compare_entries(rt, alloc, catalog.entries())
}

#[test]
fn each_lane_has_the_value_that_its_entry_answers(rt: HostRuntime) -> Result<(), Fail> {
    compare_file(&rt, rt.alloc(), ENTRIES)
}
