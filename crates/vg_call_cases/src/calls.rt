//! Programs that call instructions, run by the top call.

use crate::desk::{Desk, repeated};
use std::alloc::Global;
use std::process::Abort;
use std::test::Fail;
use vg_top::Status;

const PAIRS: &str =
    "INSTRUCTION _mm_madd_epi16 PARAM a 128 SI16 PARAM b 128 SI16\nRESULT dst 128 SI32 EXTENSION SSE2 COST 1 OPERATION\nFOR j := 0 to 3\ni := j*32\ndst[i+31:i] := SignExtend32(a[i+31:i+16]*b[i+31:i+16]) + SignExtend32(a[i+15:i]*b[i+15:i])\nENDFOR\ndst[MAX:128] := 0\nEND\n";

const PAIRS_PROGRAM: &str =
    "program pairs(d: ptr, p: ptr, q: ptr)\n%v0 = vload 16 p+0\n%v1 = vload 16 q+0\n%v2 = call _mm_madd_epi16 %v0 %v1\nvstore 16 d+0 %v2\nend cost 4 scalar 16\n";

const CHEAP_PAIRS: &str =
    "program pairs(d: ptr, p: ptr, q: ptr)\n%v0 = vload 16 p+0\n%v1 = vload 16 q+0\n%v2 = call _mm_madd_epi16 %v0 %v1\nvstore 16 d+0 %v2\nend cost 3 scalar 16\n";

const UNKNOWN: &str =
    "program unknown(p: ptr)\n%v0 = vload 16 p+0\n%v1 = call _mm_unknown %v0\nend cost 2 scalar 0\n";

const SHUFFLE: &str =
    "INSTRUCTION _mm_shuffle_epi32 PARAM a 128 UI32 IMM imm8 0 to 255\nRESULT dst 128 UI32 EXTENSION SSE2 COST 1 OPERATION\nDEFINE SELECT4(src, control) {\nCASE(control[1:0]) OF\n0: tmp[31:0] := src[31:0]\n1: tmp[31:0] := src[63:32]\n2: tmp[31:0] := src[95:64]\n3: tmp[31:0] := src[127:96]\nESAC\nRETURN tmp[31:0]\n}\ndst[31:0] := SELECT4(a[127:0], imm8[1:0])\ndst[63:32] := SELECT4(a[127:0], imm8[3:2])\ndst[95:64] := SELECT4(a[127:0], imm8[5:4])\ndst[127:96] := SELECT4(a[127:0], imm8[7:6])\nEND\n";

const SHUFFLE_PROGRAM: &str =
    "program turn(p: ptr)\n%v0 = vload 16 p+0\n%v1 = call _mm_shuffle_epi32 %v0 imm 27\nvstore 16 p+0 %v1\nend cost 3 scalar 0\n";

/// Turned, turned back, and in place of the first double word the second.
const SHUFFLES_PROGRAM: &str =
    "program turns(p: ptr)\n%v0 = vload 16 p+0\n%v1 = call _mm_shuffle_epi32 %v0 imm 27\n%v2 = call _mm_shuffle_epi32 %v1 imm 27\n%v3 = call _mm_shuffle_epi32 %v2 imm 229\nvstore 16 p+0 %v3\nend cost 5 scalar 0\n";

const WIDE_SUM: &str =
    "INSTRUCTION _mm512_add_epi32 PARAM a 512 SI32 PARAM b 512 SI32\nRESULT dst 512 SI32 EXTENSION AVX512F COST 1 OPERATION\nFOR j := 0 to 15\ni := j*32\ndst[i+31:i] := a[i+31:i] + b[i+31:i]\nENDFOR\nEND\n";

const WIDE_SUM_PROGRAM: &str =
    "program sums(d: ptr, p: ptr, q: ptr)\n%v0 = vload 64 p+0\n%v1 = vload 64 q+0\n%v2 = call _mm512_add_epi32 %v0 %v1\nvstore 64 d+0 %v2\nend cost 4 scalar 64\n";

const QUADS: &str =
    "INSTRUCTION _mm_dpbusd_epi32 PARAM src 128 SI32 PARAM a 128 UI8 PARAM b 128 SI8\nRESULT dst 128 SI32 EXTENSION AVX_VNNI COST 1 OPERATION\nFOR j := 0 to 3\ntmp1.word := Signed(ZeroExtend16(a.byte[4*j]) * SignExtend16(b.byte[4*j]))\ntmp2.word := Signed(ZeroExtend16(a.byte[4*j+1]) * SignExtend16(b.byte[4*j+1]))\ntmp3.word := Signed(ZeroExtend16(a.byte[4*j+2]) * SignExtend16(b.byte[4*j+2]))\ntmp4.word := Signed(ZeroExtend16(a.byte[4*j+3]) * SignExtend16(b.byte[4*j+3]))\ndst.dword[j] := src.dword[j] + tmp1 + tmp2 + tmp3 + tmp4\nENDFOR\ndst[MAX:128] := 0\nEND\n";

const QUADS_PROGRAM: &str =
    "program quads(d: ptr, s: ptr, p: ptr, q: ptr)\n%v0 = vload 16 s+0\n%v1 = vload 16 p+0\n%v2 = vload 16 q+0\n%v3 = call _mm_dpbusd_epi32 %v0 %v1 %v2\nvstore 16 d+0 %v3\nend cost 5 scalar 0\n";

/// A desk with these instructions, this program and this memory.
fn desk_with(
    alloc: Global,
    instructions: &str,
    program: &str,
    memory: &[u8],
) -> Result<Desk, Fail> {
    let mut desk = Desk::holding(alloc, &[("i", instructions.as_bytes())])?;
    desk.shelf.put("p", program.as_bytes())?;
    desk.shelf.put("m", memory)?;
    Ok(desk)
}

#[test]
fn sixteen_products_are_added_in_pairs(rt: HostRuntime) -> Result<(), Fail> {
    let memory = repeated(rt.alloc(), &[(&[7], 16), (&[0, 128], 16)])?;
    let left = repeated(rt.alloc(), &[(&[0, 0, 0, 128], 4), (&[0, 128], 16)])?;
    let words: [&str; 7] = ["run", "i", "p", "m", "d=0", "p=16", "q=32"];
    let mut desk = desk_with(rt.alloc(), PAIRS, PAIRS_PROGRAM, memory.as_slice())?;
    desk.expect(&rt, &words, Status::Ok, left.as_slice(), b"")
}

/// Asserts what is said of a program that is refused.
fn expect_refused(
    rt: &impl Abort,
    alloc: Global,
    instructions: &str,
    program: &str,
    said: &[u8],
) -> Result<(), Fail> {
    let words: [&str; 4] = ["run", "i", "p", "m"];
    let mut desk = desk_with(alloc, instructions, program, b"")?;
    desk.expect(rt, &words, Status::ProgramRefused, b"", said)
}

#[test]
fn calls_that_no_program_may_have(rt: HostRuntime) -> Result<(), Fail> {
    let cases: [(&str, &str, &[u8]); 3] = [
        (
            "",
            UNKNOWN,
            b"vegen: program: 3 UnknownInstruction at 3:12\n",
        ),
        (
            "",
            PAIRS_PROGRAM,
            b"vegen: program: 3 UnknownInstruction at 4:12\n",
        ),
        (
            PAIRS,
            CHEAP_PAIRS,
            b"vegen: program: 6 CostWrong 3 4 at 6:10\n",
        ),
    ];
    for (instructions, program, said) in &cases {
        expect_refused(&rt, rt.alloc(), instructions, program, said)?;
    }
    Ok(())
}

/// Asserts what a program with the shuffle leaves of 1, 2, 3 and 4.
fn expect_shuffled(rt: &impl Abort, alloc: Global, program: &str, left: &[u8]) -> Result<(), Fail> {
    let memory: [u8; 16] = [1, 0, 0, 0, 2, 0, 0, 0, 3, 0, 0, 0, 4, 0, 0, 0];
    let words: [&str; 5] = ["run", "i", "p", "m", "p=0"];
    let mut desk = desk_with(alloc, SHUFFLE, program, &memory)?;
    desk.expect(rt, &words, Status::Ok, left, b"")
}

#[test]
fn an_immediate_says_which_double_words_are_taken(rt: HostRuntime) -> Result<(), Fail> {
    let turned: [u8; 16] = [4, 0, 0, 0, 3, 0, 0, 0, 2, 0, 0, 0, 1, 0, 0, 0];
    let doubled: [u8; 16] = [2, 0, 0, 0, 2, 0, 0, 0, 3, 0, 0, 0, 4, 0, 0, 0];
    expect_shuffled(&rt, rt.alloc(), SHUFFLE_PROGRAM, &turned)?;
    expect_shuffled(&rt, rt.alloc(), SHUFFLES_PROGRAM, &doubled)
}

/// Asserts how sums of 512 bits end on a memory.
fn expect_sums(
    rt: &impl Abort,
    alloc: Global,
    memory: &[u8],
    status: Status,
    out: &[u8],
    err: &[u8],
) -> Result<(), Fail> {
    let words: [&str; 7] = ["run", "i", "p", "m", "d=0", "p=64", "q=128"];
    let mut desk = desk_with(alloc, WIDE_SUM, WIDE_SUM_PROGRAM, memory)?;
    desk.expect(rt, &words, status, out, err)
}

#[test]
fn registers_of_512_bits_are_added(rt: HostRuntime) -> Result<(), Fail> {
    let alloc = rt.alloc();
    // Double words of 0xffffffff and of 2 wrap to 1.
    let left = repeated(
        alloc,
        &[(&[1, 0, 0, 0], 16), (&[255], 64), (&[2, 0, 0, 0], 16)],
    )?;
    let mut memory = repeated(alloc, &[(&[9], 64), (&[255], 64), (&[2, 0, 0, 0], 16)])?;
    expect_sums(
        &rt,
        alloc,
        memory.as_slice(),
        Status::Ok,
        left.as_slice(),
        b"",
    )?;
    let _ = memory.pop();
    expect_sums(
        &rt,
        alloc,
        memory.as_slice(),
        Status::Trap,
        b"",
        b"vegen: trap\n",
    )
}

#[test]
fn products_are_added_to_a_third_register(rt: HostRuntime) -> Result<(), Fail> {
    let alloc = rt.alloc();
    // The greatest number and 1 sum to the least.
    let memory = repeated(
        alloc,
        &[
            (&[0], 16),
            (&[255, 255, 255, 127], 1),
            (&[0], 12),
            (&[1], 1),
            (&[0], 15),
            (&[1], 1),
            (&[0], 15),
        ],
    )?;
    let left = repeated(
        alloc,
        &[
            (&[0, 0, 0, 128], 1),
            (&[0], 12),
            (&[255, 255, 255, 127], 1),
            (&[0], 12),
            (&[1], 1),
            (&[0], 15),
            (&[1], 1),
            (&[0], 15),
        ],
    )?;
    let words: [&str; 8] = ["run", "i", "p", "m", "d=0", "s=16", "p=32", "q=48"];
    let mut desk = desk_with(alloc, QUADS, QUADS_PROGRAM, memory.as_slice())?;
    desk.expect(&rt, &words, Status::Ok, left.as_slice(), b"")
}

/// A program with each line on registers.
const EACH_LINE: &[u8] = b"program all(d: ptr, k: i8, s: ptr)
%v0 = vload 4 s-4
%v1 = vload 8 s+0
%v2 = vload 16 s+0
%v3 = vload 32 s+0
%v4 = vload 64 s+0
%v5 = const 000102030405060708090a0b0c0d0eff
%v6 = insert %v4 63 k
%s0:i64 = extract %v3 3
%v7 = call _mm_shuffle_epi32 %v5 imm 27
vstore 4 d+0 %v0
vstore 8 d+0 %v1
vstore 16 d+0 %v7
vstore 32 d+0 %v3
vstore 64 d+0 %v6
store d+0 %s0
end cost 15 scalar 0
";

/// How `run` ends with this program on an empty memory.
fn ended_with(alloc: Global, program: &[u8]) -> Result<Status, Fail> {
    let files: [(&str, &[u8]); 3] = [("i", SHUFFLE.as_bytes()), ("p", program), ("m", b"")];
    let mut desk = Desk::holding(alloc, &files)?;
    desk.run(&["run", "i", "p", "m", "d=0", "k=0", "s=0"])
}

#[test]
fn every_strict_prefix_of_a_program_with_each_line_is_refused(rt: HostRuntime) -> Result<(), Fail> {
    for len in 0..EACH_LINE.len() {
        assert!(rt; ended_with(rt.alloc(), &EACH_LINE[..len])? == Status::ProgramRefused);
    }
    assert!(rt; ended_with(rt.alloc(), EACH_LINE)? == Status::Trap);
    Ok(())
}
