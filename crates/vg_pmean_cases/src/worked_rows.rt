//! Instructions as the guide has them, on registers for which it is known what they give.

use std::alloc::Global;
use std::process::Abort;
use std::test::Fail;
use vg_bits::Reg;
use vg_catalog::parse_file;
use vg_pmean::answer_once;

/// What the one entry of a file answers.
fn answered(alloc: Global, file: &str, params: &[Reg<32>], imm: u8) -> Result<Reg<32>, Fail> {
    let Ok(catalog) = parse_file(alloc, file.as_bytes()) else {
        return Err("a file is refused".into());
    };
    let [entry, ..] = catalog.entries() else {
        return Err("a file has no entry".into());
    };
    match answer_once(alloc, entry, params, imm)? {
        Some(found) => Ok(found),
        None => Err("an immediate has no instance".into()),
    }
}

/// A register of 128 bits.
fn register(bits: u128) -> Reg<32> {
    let mut register = Reg::<32>::zero();
    register.put(0, 128, bits);
    register
}

/// Asserts what an entry answers to registers of 128 bits and an immediate.
fn expect(
    rt: &impl Abort,
    alloc: Global,
    file: &str,
    params: &[u128],
    imm: u8,
    left: u128,
) -> Result<(), Fail> {
    let mut registers = Vec::new(alloc);
    for bits in params {
        registers.push(register(*bits))?;
    }
    let found = answered(alloc, file, registers.as_slice(), imm)?;
    assert!(rt; found.get(0, 128) == left);
    assert!(rt; found.get(128, 128) == 0);
    Ok(())
}

const AVERAGE: &str = "INSTRUCTION _mm_avg_epu8 PARAM a 128 UI8 PARAM b 128 UI8
RESULT dst 128 UI8 EXTENSION SSE2 COST 1 OPERATION
FOR j := 0 to 15
 i := j*8
 dst[i+7:i] := (a[i+7:i] + b[i+7:i] + 1) >> 1
ENDFOR
END";

const BYTES: u128 = 0x0101_0101_0101_0101_0101_0101_0101_0101;

#[test]
fn averages_round_up(rt: HostRuntime) -> Result<(), Fail> {
    let most = BYTES * 255;
    expect(&rt, rt.alloc(), AVERAGE, &[most, most], 0, most)?;
    expect(&rt, rt.alloc(), AVERAGE, &[0, BYTES], 0, BYTES)
}

const SHIFT: &str = "INSTRUCTION _mm_slli_epi32 PARAM a 128 UI32 IMM imm8 0 to 255
RESULT dst 128 UI32 EXTENSION SSE2 COST 1 OPERATION
FOR j := 0 to 3
 i := j*32
 IF imm8[7:0] > 31
  dst[i+31:i] := 0
 ELSE
  dst[i+31:i] := ZeroExtend32(a[i+31:i] << imm8[7:0])
 FI
ENDFOR
END";

const DWORDS: u128 = 0x0000_0001_0000_0001_0000_0001_0000_0001;

#[test]
fn shifts_by_31_and_by_32(rt: HostRuntime) -> Result<(), Fail> {
    let tops = 0x8000_0000_8000_0000_8000_0000_8000_0000;
    expect(&rt, rt.alloc(), SHIFT, &[DWORDS], 31, tops)?;
    expect(&rt, rt.alloc(), SHIFT, &[DWORDS], 32, 0)
}

const SHUFFLE: &str = "INSTRUCTION _mm_shuffle_epi32 PARAM a 128 UI32 IMM imm8 0 to 255
RESULT dst 128 UI32 EXTENSION SSE2 COST 1 OPERATION
DEFINE SELECT4(src, control) {
 CASE(control[1:0]) OF
 0: tmp[31:0] := src[31:0]
 1: tmp[31:0] := src[63:32]
 2: tmp[31:0] := src[95:64]
 3: tmp[31:0] := src[127:96]
 ESAC
 RETURN tmp[31:0]
}
dst[31:0] := SELECT4(a[127:0], imm8[1:0])
dst[63:32] := SELECT4(a[127:0], imm8[3:2])
dst[95:64] := SELECT4(a[127:0], imm8[5:4])
dst[127:96] := SELECT4(a[127:0], imm8[7:6])
END";

#[test]
fn a_shuffle_by_27_reverses(rt: HostRuntime) -> Result<(), Fail> {
    let rising = 0x0000_0004_0000_0003_0000_0002_0000_0001;
    let falling = 0x0000_0001_0000_0002_0000_0003_0000_0004;
    expect(&rt, rt.alloc(), SHUFFLE, &[rising], 27, falling)
}

const WIDE_PARAMETER: &str = "INSTRUCTION x PARAM a 128 UI8 PARAM b 128 UI16
RESULT dst 128 UI16 EXTENSION SSE2 COST 1 OPERATION
DEFINE BYTE(p[2097152:0], n[15:0]) {
 k := n[15:0]
 RETURN p[k*8+7:k*8]
}
FOR j := 0 to 7
 dst.word[j] := BYTE(a[127:0], b.word[j])
ENDFOR
END";

#[test]
fn bytes_by_index_of_a_parameter_of_many_bits(rt: HostRuntime) -> Result<(), Fail> {
    // The bytes 100 to 115 at 0, 1, 15, 16, 63, 64, 32767 and 65535.
    let values = 0x7372_7170_6f6e_6d6c_6b6a_6968_6766_6564;
    let indices = 0xffff_7fff_0040_003f_0010_000f_0001_0000;
    let taken = 0x0000_0000_0000_0000_0000_0073_0065_0064;
    expect(
        &rt,
        rt.alloc(),
        WIDE_PARAMETER,
        &[values, indices],
        0,
        taken,
    )
}

const BY_INDEX: &str = "INSTRUCTION _mm_shuffle_epi8 PARAM a 128 UI8 PARAM b 128 UI8
RESULT dst 128 UI8 EXTENSION SSSE3 COST 1 OPERATION
FOR j := 0 to 15
 i := j*8
 IF b[i+7]
  dst[i+7:i] := 0
 ELSE
  index := b[i+3:i]
  dst[i+7:i] := a[index*8+7:index*8]
 FI
ENDFOR
END";

#[test]
fn bytes_by_index(rt: HostRuntime) -> Result<(), Fail> {
    // The bytes 100 to 115 and 15 to 0, the lowest first.
    let values = 0x7372_7170_6f6e_6d6c_6b6a_6968_6766_6564;
    let indices = 0x0001_0203_0405_0607_0809_0a0b_0c0d_0e0f;
    let reversed = 0x6465_6667_6869_6a6b_6c6d_6e6f_7071_7273;
    expect(&rt, rt.alloc(), BY_INDEX, &[values, indices], 0, reversed)?;
    expect(&rt, rt.alloc(), BY_INDEX, &[values, BYTES * 128], 0, 0)
}

const BY_DATA: &str = "INSTRUCTION _mm_sllv_epi32 PARAM a 128 UI32 PARAM count 128 UI32
RESULT dst 128 UI32 EXTENSION AVX2 COST 1 OPERATION
FOR j := 0 to 3
 i := j*32
 dst[i+31:i] := ZeroExtend32(a[i+31:i] << count[i+31:i])
ENDFOR
END";

#[test]
fn shifts_by_data(rt: HostRuntime) -> Result<(), Fail> {
    let counts = 0xffff_ffff_0000_0020_0000_001f_0000_0000;
    let left = 0x0000_0000_0000_0000_8000_0000_0000_0001;
    expect(&rt, rt.alloc(), BY_DATA, &[DWORDS, counts], 0, left)
}

const PACK: &str = "INSTRUCTION _mm_packs_epi32 PARAM a 128 SI32 PARAM b 128 SI32
RESULT dst 128 SI16 EXTENSION SSE2 COST 1 OPERATION
FOR j := 0 to 3
 dst.word[j] := Saturate16(a.dword[j])
 dst.word[j+4] := Saturate16(b.dword[j])
ENDFOR
END";

#[test]
fn numbers_past_16_bits_end_at_their_bounds(rt: HostRuntime) -> Result<(), Fail> {
    // 40000, -40000, 5 and -5, then 32767, -32768, 32768 and -32769.
    let first = 0xffff_fffb_0000_0005_ffff_63c0_0000_9c40;
    let second = 0xffff_7fff_0000_8000_ffff_8000_0000_7fff;
    let packed = 0x8000_7fff_8000_7fff_fffb_0005_8000_7fff;
    expect(&rt, rt.alloc(), PACK, &[first, second], 0, packed)
}

const PAIRS: &str = "INSTRUCTION _mm_madd_epi16 PARAM a 128 SI16 PARAM b 128 SI16
RESULT dst 128 SI32 EXTENSION SSE2 COST 1 OPERATION
FOR j := 0 to 3
 i := j*32
 dst[i+31:i] := SignExtend32(a[i+31:i+16]*b[i+31:i+16]) + SignExtend32(a[i+15:i]*b[i+15:i])
ENDFOR
dst[MAX:128] := 0
END";

#[test]
fn products_of_least_numbers_wrap(rt: HostRuntime) -> Result<(), Fail> {
    let least = 0x8000_8000_8000_8000_8000_8000_8000_8000;
    let wrapped = 0x8000_0000_8000_0000_8000_0000_8000_0000;
    expect(&rt, rt.alloc(), PAIRS, &[least, least], 0, wrapped)
}
