//! What is printed of lifted lanes.

ghost use Rattle.vg_names.specs.Written.{IsWritten};
ghost use Rattle.vg_range.specs.Checks.{header_in, operation_in};
ghost use Rattle.vg_lift.specs.Instances.{HasInstance, InResult};

use crate::instances::is_instance;
use std::alloc::Global;
use std::process::Abort;
use std::test::Fail;
use vg_catalog::parse_file;
use vg_lanes::{are_lanes, list_instance};
use vg_lift::{has_lanes, lane_node, lane_term, lanes_of, lift_entry};
use vg_pool::Pool;
use vg_pseudo::Header;
use vg_range::Checked;
use vg_shapes::Lane;

/// The lines on an instance with these lanes.
fn lines_on(alloc: Global, header: &Header, lanes: Vec<Lane>) -> Result<Vec<u8>, Fail> {
    if !are_lanes(header, lanes.as_slice()) {
        return Err("they are no lanes".into());
    }
    let mut text = Vec::new(alloc);
    list_instance(alloc, header, 0, lanes, &mut text)?;
    Ok(text)
}

/// The lines on the instance of an entry.
fn listed_entry(alloc: Global, entry: &Checked) -> Result<Vec<u8>, Fail>
    requires { IsWritten (header_in entry.now) (operation_in entry.now) }
{
    if !has_lanes(entry.header()) || !is_instance(entry, 0) {
        return Err("an entry has no lanes".into());
    }
    let mut pool = Pool::new(alloc);
    let lanes = lanes_of(&mut pool, alloc, entry, 0)?;
    lines_on(alloc, entry.header(), lanes)
}

/// The lines on the instance of the one entry of a file.
fn listed(alloc: Global, file: &str) -> Result<Vec<u8>, Fail> {
    let Ok(catalog) = parse_file(alloc, file.as_bytes()) else {
        return Err("a file is refused".into());
    };
    match catalog.entries() {
        [entry, ..] => listed_entry(alloc, entry),
        [] => Err("a file has no entry".into()),
    }
}

const PRODUCTS: &str = "INSTRUCTION _mm_mul_epi32 PARAM a 128 SI32 PARAM b 128 SI32
RESULT dst 128 SI64 EXTENSION SSE4.1 COST 1 OPERATION
FOR j := 0 to 1
 i := j*64
 dst[i+63:i] := SignExtend64(a[i+31:i]) * SignExtend64(b[i+31:i])
ENDFOR
END";

#[test]
fn products_of_signed_double_words(rt: HostRuntime) -> Result<(), Fail> {
    let text = listed(rt.alloc(), PRODUCTS)?;
    let expected = "instruction _mm_mul_epi32
lane 0 (mul64 (sext64 a.0:32) (sext64 b.0:32))
lane 1 (mul64 (sext64 a.64:32) (sext64 b.64:32))
";
    assert!(rt; text.as_slice() == expected.as_bytes());
    Ok(())
}

const AVERAGES: &str = "INSTRUCTION _mm_avg_epu8 PARAM a 128 UI8 PARAM b 128 UI8
RESULT dst 128 UI8 EXTENSION SSE2 COST 1 OPERATION
FOR j := 0 to 15
 i := j*8
 dst[i+7:i] := (a[i+7:i] + b[i+7:i] + 1) >> 1
ENDFOR
END";

#[test]
fn averages_of_bytes(rt: HostRuntime) -> Result<(), Fail> {
    let text = listed(rt.alloc(), AVERAGES)?;
    let expected = "instruction _mm_avg_epu8
lane 0 (trunc8 (lshr9 (add9 (add9 (zext9 a.0:8) (zext9 b.0:8)) 1:9) 1))
";
    assert!(rt; text.as_slice().starts_with(expected.as_bytes()));
    Ok(())
}

const PACKED: &str = "INSTRUCTION _mm_packs_epi32 PARAM a 128 SI32 PARAM b 128 SI32
RESULT dst 128 SI16 EXTENSION SSE2 COST 1 OPERATION
FOR j := 0 to 3
 dst.word[j] := Saturate16(a.dword[j])
 dst.word[j+4] := Saturate16(b.dword[j])
ENDFOR
END";

#[test]
fn saturated_double_words(rt: HostRuntime) -> Result<(), Fail> {
    let text = listed(rt.alloc(), PACKED)?;
    let expected = "instruction _mm_packs_epi32
lane 0 (trunc16 (smin32 (smax32 a.0:32 4294934528:32) 32767:32))
";
    assert!(rt; text.as_slice().starts_with(expected.as_bytes()));
    Ok(())
}

const LARGE: &str = "INSTRUCTION x PARAM a 128 UI64
RESULT dst 128 UI64 EXTENSION SSE2 COST 1 OPERATION
x := a.dword[0]
FOR k := 0 to 59
 x := x + x
ENDFOR
dst.qword[0] := x
dst.qword[1] := a.qword[1]
END";

#[test]
fn a_lane_of_too_many_nodes(rt: HostRuntime) -> Result<(), Fail> {
    let text = listed(rt.alloc(), LARGE)?;
    let expected = "instruction x
lane 0 too large
lane 1 a.64:64
not packable TooLarge
";
    assert!(rt; text.as_slice() == expected.as_bytes());
    Ok(())
}

/// The number of nodes of lane 0 of an entry, as its pool counts them.
fn node_size(alloc: Global, entry: &Checked) -> Result<u32, Fail>
    requires written { IsWritten (header_in entry.now) (operation_in entry.now) }
    requires range { HasInstance (header_in entry.now) 0 }
    requires lane { InResult (header_in entry.now) 0 }
{
    let mut pool = Pool::new(alloc);
    let Some(_lifted) = lift_entry(&mut pool, alloc, entry, 0)? else {
        return Err("an instance is dynamic".into());
    };
    let node = lane_node(alloc, &mut pool, entry, 0, 0)?;
    Ok(pool.size(node))
}

/// The same of an entry with a large lane of 64 bits.
fn first_size(rt: &impl Abort, alloc: Global, entry: &Checked) -> Result<u32, Fail>
    requires { IsWritten (header_in entry.now) (operation_in entry.now) }
{
    let header = entry.header();
    if header.lane_width != 64 || header.register != 128 || !is_instance(entry, 0) {
        return Err("an entry has no lane of 64 bits".into());
    }
    let lane = lane_term(alloc, entry, 0, 0)?;
    assert!(rt; matches!(lane, Lane::Big));
    node_size(alloc, entry)
}

/// The same of the one entry of a file.
fn size_in_file(rt: &impl Abort, alloc: Global, file: &str) -> Result<u32, Fail> {
    let Ok(catalog) = parse_file(alloc, file.as_bytes()) else {
        return Err("a file is refused".into());
    };
    match catalog.entries() {
        [entry, ..] => first_size(rt, alloc, entry),
        [] => Err("a file has no entry".into()),
    }
}

#[test]
fn a_node_of_too_many_nodes(rt: HostRuntime) -> Result<(), Fail> {
    let size = size_in_file(&rt, rt.alloc(), LARGE)?;
    assert!(rt; size == 1025);
    Ok(())
}

const SHUFFLE: &str = "INSTRUCTION _mm_shuffle_epi8 PARAM a 128 UI8 PARAM b 128 UI8
RESULT dst 128 UI8 EXTENSION SSSE3 COST 1 OPERATION
FOR j := 0 to 15
 i := j*8
 IF b[i+7]
  dst[i+7:i] := 0
 ELSE
  index := b[i+3:i]
  dst[i+7:i] := a[index*8+7:index*8]
 FI
ENDFOR
END";

#[test]
fn a_shuffle_by_data_has_no_terms(rt: HostRuntime) -> Result<(), Fail> {
    let text = listed(rt.alloc(), SHUFFLE)?;
    let lines = text.as_slice();
    assert!(rt; lines.starts_with(b"instruction _mm_shuffle_epi8\nlane 0 dynamic\n"));
    assert!(rt; lines.ends_with(b"lane 15 dynamic\nnot packable Dynamic\n"));
    Ok(())
}
