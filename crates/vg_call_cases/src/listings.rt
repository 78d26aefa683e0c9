//! The lines on the instances of a file, by the top call.

use crate::desk::Desk;
use std::alloc::Global;
use std::process::Abort;
use std::test::Fail;
use vg_top::Status;

/// A name, the text of a file, and how `lift` ends with it.
type Case = (
    &'static str,
    &'static str,
    Status,
    &'static str,
    &'static str,
);

const CASES: [Case; 14] = [
    (
        "products",
        "INSTRUCTION _mm_mul_epi32 PARAM a 128 SI32 PARAM b 128 SI32\nRESULT dst 128 SI64 EXTENSION SSE4.1 COST 1 OPERATION\nFOR j := 0 to 1\ni := j*64\ndst[i+63:i] := SignExtend64(a[i+31:i]) * SignExtend64(b[i+31:i])\nENDFOR\nEND\n",
        Status::Ok,
        "instruction _mm_mul_epi32\nlane 0 (mul64 (sext64 a.0:32) (sext64 b.0:32))\nlane 1 (mul64 (sext64 a.64:32) (sext64 b.64:32))\n",
        "",
    ),
    (
        "mixed",
        "INSTRUCTION mixed PARAM a 128 UI64 RESULT dst 128 UI64 EXTENSION SSE2 COST 1 OPERATION\ndst.qword[0] := a.word[0] dst.qword[1] := a.byte[0] END\n",
        Status::Ok,
        "instruction mixed\nlane 0 (zext64 a.0:16)\nlane 1 (zext64 a.0:8)\nnot packable MixedInput\n",
        "",
    ),
    (
        "two immediates and a byte by its index, one entry behind the other",
        "INSTRUCTION moved PARAM a 128 UI64 IMM k 0 to 1 RESULT dst 128 UI64 EXTENSION SSE2 COST 1 OPERATION\ndst.qword[0] := a.qword[k] dst.qword[1] := a.qword[1] END\nINSTRUCTION taken PARAM a 128 UI64 RESULT dst 128 UI64 EXTENSION SSE2 COST 1 OPERATION\nn := a[0:0] dst[63:0] := a[n*64+63:n*64] END\n",
        Status::Ok,
        "instruction moved imm 0\nlane 0 a.0:64\nlane 1 a.64:64\ninstruction moved imm 1\nlane 0 a.64:64\nlane 1 a.64:64\ninstruction taken\nlane 0 dynamic\nlane 1 dynamic\nnot packable Dynamic\n",
        "",
    ),
    (
        "a local behind a number variable is unsigned",
        "INSTRUCTION x PARAM a 128 SI8 RESULT dst 128 UI64 EXTENSION SSE2 COST 1 OPERATION\nv := a[7:0] t.byte := v dst[31:0] := t\ns.word := v + 1 dst[127:64] := s END\n",
        Status::Ok,
        "instruction x\nlane 0 (zext64 a.0:8)\nlane 1 (zext64 (add16 (sext16 a.0:8) 1:16))\n",
        "",
    ),
    (
        "and inside a DEFINE, through a choice and where a FOR hides a name",
        "INSTRUCTION x PARAM a 128 SI8 RESULT dst 128 UI64 EXTENSION SSE2 COST 1 OPERATION\nDEFINE f(p[7:0]) { v := Signed(p[7:0]) t.byte := 1 ? v : 0 RETURN t }\ndst[63:0] := f(a[7:0])\nFOR v := 0 to 0 u.byte := v ENDFOR v := a[15:8] u.byte := v dst[127:64] := u END\n",
        Status::Ok,
        "instruction x\nlane 0 (zext64 a.0:8)\nlane 1 (zext64 a.8:8)\n",
        "",
    ),
    (
        "a product of unsigned locals of 64 bits",
        "INSTRUCTION x\nPARAM a 128 SI64\nRESULT dst 128 SI64\nEXTENSION SSE2\nCOST 1\nOPERATION\nv := a[63:0] t.qword := v u.qword := v\ndst := t * u\nEND\n",
        Status::InstructionsRefused,
        "",
        "vegen: instructions: 8 TooWide at 8:8\n",
    ),
    (
        "a shift by an unsigned local",
        "INSTRUCTION x PARAM a 128 SI32 RESULT dst 128 SI32 EXTENSION SSE2 COST 1 OPERATION\nv := a[31:0] t.dword := v dst[31:0] := a[31:0] >> t END\n",
        Status::Ok,
        "instruction x\nlane 0 dynamic\nlane 1 dynamic\nlane 2 dynamic\nlane 3 dynamic\nnot packable Dynamic\n",
        "",
    ),
    (
        "a product of signed locals of 64 bits",
        "INSTRUCTION x PARAM a 128 SI64 RESULT dst 128 SI64 EXTENSION SSE2 COST 1 OPERATION\nt.qword := a[63:0] dst[63:0] := t * t END\n",
        Status::Ok,
        "instruction x\nlane 0 (mul64 a.0:64 a.0:64)\nlane 1 0:64\n",
        "",
    ),
    (
        "a parameter of 2,097,153 bits",
        "INSTRUCTION x PARAM a 128 UI64 RESULT dst 128 UI64 EXTENSION SSE2 COST 1 OPERATION\nDEFINE f(p[2097152:0]) { RETURN p[7:0] }\ndst[63:0] := f(a[127:0]) dst[127:64] := f(a[127:64]) END\n",
        Status::Ok,
        "instruction x\nlane 0 (zext64 a.0:8)\nlane 1 (zext64 a.64:8)\n",
        "",
    ),
    (
        "its bits above 511 are zeros, moved by slices across bit 511 and past it",
        "INSTRUCTION x PARAM a 512 UI64 RESULT dst 128 UI64 EXTENSION AVX512F COST 1 OPERATION\nDEFINE f(p[2097152:0]) { RETURN p[559:496] }\nDEFINE g(p[2097152:0]) { RETURN p[2097152:2097089] }\ndst[63:0] := f(a[511:0]) dst[127:64] := g(a[511:0]) END\n",
        Status::Ok,
        "instruction x\nlane 0 (zext64 a.496:16)\nlane 1 0:64\n",
        "",
    ),
    (
        "a bit past it",
        "INSTRUCTION x\nPARAM a 128 SI32\nRESULT dst 128 SI32\nEXTENSION SSE2\nCOST 1\nOPERATION\nDEFINE f(p[2097152:0]) { RETURN p[2097153] }\ndst[31:0] := f(1)\nEND\n",
        Status::InstructionsRefused,
        "",
        "vegen: instructions: 5 IndexOutside at 7:33\n",
    ),
    ("no entries", "// none\n", Status::Ok, "", ""),
    (
        "a loop without an end",
        "INSTRUCTION x\nPARAM a 128 SI32\nRESULT dst 128 SI32\nEXTENSION SSE2\nCOST 1\nOPERATION\nFOR j := 0 to 3\nEND\n",
        Status::InstructionsRefused,
        "",
        "vegen: instructions: 2 Shape at 8:1\n",
    ),
    (
        "a bit past the register",
        "INSTRUCTION x\nPARAM a 128 SI32\nRESULT dst 128 SI32\nEXTENSION SSE2\nCOST 1\nOPERATION\ndst[159:128] := a[31:0]\nEND\n",
        Status::InstructionsRefused,
        "",
        "vegen: instructions: 5 IndexOutside at 7:1\n",
    ),
];

/// Asserts how `lift` ends with this text of a file.
fn expect_lifted(
    rt: &impl Abort,
    alloc: Global,
    text: &str,
    status: Status,
    out: &str,
    err: &str,
) -> Result<(), Fail> {
    let words: [&str; 2] = ["lift", "i"];
    let mut desk = Desk::holding(alloc, &[("i", text.as_bytes())])?;
    desk.expect(rt, &words, status, out.as_bytes(), err.as_bytes())
}

#[test]
fn lines_on_instances(rt: HostRuntime) -> Result<(), Fail> {
    for (_name, text, status, out, err) in CASES {
        expect_lifted(&rt, rt.alloc(), text, status, out, err)?;
    }
    Ok(())
}

/// Asserts how words end where there is no file.
fn expect_refused(
    rt: &impl Abort,
    alloc: Global,
    words: &[&str],
    status: Status,
    err: &[u8],
) -> Result<(), Fail> {
    let mut desk = Desk::new(alloc, 1000)?;
    desk.expect(rt, words, status, b"", err)
}

#[test]
fn words_of_lift(rt: HostRuntime) -> Result<(), Fail> {
    let alloc = rt.alloc();
    let absent = b"vegen: absent: i\n";
    expect_refused(&rt, alloc, &["lift", "i"], Status::InputAbsent, absent)?;
    let usage = b"vegen: usage\n";
    expect_refused(&rt, alloc, &["lift"], Status::Usage, usage)?;
    expect_refused(&rt, alloc, &["lift", "-i"], Status::Usage, usage)
}

/// Four lanes that each extend a byte by zeros, since the name of a number variable is unsigned.
const UNSIGNED_BYTES: &str =
    "INSTRUCTION x PARAM a 128 SI8 RESULT dst 128 SI32 EXTENSION SSE2 COST 1 OPERATION\nFOR j := 0 to 3\nv := a.byte[j] t.byte := v dst.dword[j] := t\nENDFOR\nEND\n";

const SIGNED_KERNEL: &str =
    "kernel k(d: noalias ptr, p: ptr) { store32(d, sext32(load8(p))); store32(d + 4, sext32(load8(p + 1))); store32(d + 8, sext32(load8(p + 2))); store32(d + 12, sext32(load8(p + 3))); }";

const UNSIGNED_KERNEL: &str =
    "kernel k(d: noalias ptr, p: ptr) { store32(d, zext32(load8(p))); store32(d + 4, zext32(load8(p + 1))); store32(d + 8, zext32(load8(p + 2))); store32(d + 12, zext32(load8(p + 3))); }";

const CALL_X: &str =
    "program p(m: ptr)\n%v0 = vload 16 m+0\n%v1 = call x %v0\nvstore 4 m+0 %v1\nend cost 3 scalar 0\n";

/// Asserts how the program ends that `compile` makes of a kernel with these instructions.
fn expect_compiled(
    rt: &impl Abort,
    alloc: Global,
    instructions: &str,
    kernel: &str,
    end: &[u8],
) -> Result<(), Fail> {
    let mut desk = Desk::holding(alloc, &[("i", instructions.as_bytes())])?;
    desk.shelf.put("k", kernel.as_bytes())?;
    let status = desk.run(&["compile", "i", "k"])?;
    assert!(rt; status == Status::Ok && desk.out.written().ends_with(end));
    Ok(())
}

/// Asserts what a program leaves that stores the first double word of a call with these
/// instructions.
fn expect_called(rt: &impl Abort, alloc: Global, instructions: &str) -> Result<(), Fail> {
    let memory: [u8; 16] = [255, 1, 2, 3, 4, 5, 6, 7, 8, 9, 10, 11, 12, 13, 14, 15];
    let left: [u8; 16] = [255, 0, 0, 0, 4, 5, 6, 7, 8, 9, 10, 11, 12, 13, 14, 15];
    let files: [(&str, &[u8]); 2] = [("i", instructions.as_bytes()), ("p", CALL_X.as_bytes())];
    let mut desk = Desk::holding(alloc, &files)?;
    desk.shelf.put("m", &memory)?;
    desk.expect(rt, &["run", "i", "p", "m", "m=0"], Status::Ok, &left, b"")
}

/// The same lanes by a call whose parameter has 2,097,153 bits.
const WIDE_PARAMETER: &str =
    "INSTRUCTION x PARAM a 128 SI8 RESULT dst 128 SI32 EXTENSION SSE2 COST 1 OPERATION\nDEFINE f(p[2097152:0]) { RETURN p[7:0] }\nFOR j := 0 to 3\ndst.dword[j] := f(a[127:j*8])\nENDFOR\nEND\n";

#[test]
fn a_parameter_of_many_bits_compiles_and_runs(rt: HostRuntime) -> Result<(), Fail> {
    let end = b"\nend cost 3 scalar 12\n";
    expect_compiled(&rt, rt.alloc(), WIDE_PARAMETER, UNSIGNED_KERNEL, end)?;
    expect_called(&rt, rt.alloc(), WIDE_PARAMETER)
}

#[test]
fn bytes_behind_number_variables_are_unsigned(rt: HostRuntime) -> Result<(), Fail> {
    let alloc = rt.alloc();
    let scalar = b"\nend cost 12 scalar 12\n";
    expect_compiled(&rt, alloc, UNSIGNED_BYTES, SIGNED_KERNEL, scalar)?;
    let called = b"\nend cost 3 scalar 12\n";
    expect_compiled(&rt, alloc, UNSIGNED_BYTES, UNSIGNED_KERNEL, called)?;
    expect_called(&rt, alloc, UNSIGNED_BYTES)
}
