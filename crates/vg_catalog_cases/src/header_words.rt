//! Headers: what may stand in them.

use crate::file_texts::{read_header, read_headers, refuse_framed};
use std::test::Fail;

const RESULT: &str = " RESULT dst 128 UI8 EXTENSION SSE2 COST 1";

#[test]
fn names_of_entries(rt: HostRuntime) -> Result<(), Fail> {
    read_headers(
        &rt,
        rt.alloc(),
        "INSTRUCTION ",
        "
        x
        _mm_add_epi8
        dst
        a
        A1
        a234567890123456789012345678901234567890123456789012345678901234
        MAXIMUM
        x// a comment
        ",
        "\nPARAM a 128 UI8 RESULT dst 128 UI8 EXTENSION SSE2 COST 1",
    )?;
    read_header(
        &rt,
        rt.alloc(),
        "INSTRUCTION ",
        "x\t",
        "\nPARAM a 128 UI8 RESULT dst 128 UI8 EXTENSION SSE2 COST 1",
    )
}

#[test]
fn names_that_no_entry_has(rt: HostRuntime) -> Result<(), Fail> {
    refuse_framed(
        &rt,
        rt.alloc(),
        12,
        "INSTRUCTION ",
        "
        @PARAM
        @END
        @to
        @Signed
        @MAX
        @OR
        @FOR
        @1
        @x.y
        @1x
        @(
        @x:=
        @Truncate8
        @DEFINE
        @x+
        ",
        " PARAM a 128 UI8",
    )
}

#[test]
fn widths_and_etypes(rt: HostRuntime) -> Result<(), Fail> {
    read_headers(
        &rt,
        rt.alloc(),
        "INSTRUCTION x PARAM a ",
        "
        128 UI8
        128 UI16
        128 UI32
        128 UI64
        256 SI8
        256 SI16
        256 SI32
        512 SI64
        128 M128
        256 M256
        512 M512
        512 UI8
        0x80 UI8
        0128 M128
        0x100 M256
        000512 M512
        0x00200 UI64
        ",
        RESULT,
    )?;
    read_header(
        &rt,
        rt.alloc(),
        "INSTRUCTION x PARAM a ",
        "128//a\nUI8",
        RESULT,
    )
}

#[test]
fn widths_and_etypes_that_are_none(rt: HostRuntime) -> Result<(), Fail> {
    refuse_framed(
        &rt,
        rt.alloc(),
        12,
        "INSTRUCTION x PARAM a ",
        "
        @64 UI8
        @0 UI8
        @127 UI8
        @129 UI8
        @1024 UI8
        @0x UI8
        @0xzz UI8
        @128UI8
        @UI8 128
        @128.0 UI8
        @-128 UI8
        128 @UI4
        128 @UI128
        128 @ui8
        128 @SI
        128 @M64
        128 @M256
        128 @M512
        256 @M128
        256 @M512
        512 @M128
        512 @M256
        128 @8
        128 @UI8+
        128 @FP32
        ",
        RESULT,
    )
}

#[test]
fn parameters(rt: HostRuntime) -> Result<(), Fail> {
    read_headers(
        &rt,
        rt.alloc(),
        "INSTRUCTION x ",
        "
        PARAM x 128 UI8
        PARAM a 128 UI8 PARAM b 256 UI8
        PARAM a 128 UI8 PARAM b 256 UI8 PARAM c 512 UI8
        PARAM a 128 UI8 PARAM b 256 UI8 PARAM c 512 UI8 PARAM d 128 M128
        PARAM a 128 UI8 PARAM A 128 UI8
        ",
        RESULT,
    )
}

#[test]
fn parameters_that_are_none(rt: HostRuntime) -> Result<(), Fail> {
    refuse_framed(
        &rt,
        rt.alloc(),
        12,
        "INSTRUCTION x ",
        "
        @RESULT
        @IMM i 0 to 1
        @param a 128 UI8
        PARAM @dst 128 UI8
        PARAM @RESULT 128 UI8
        PARAM @ABS 128 UI8
        PARAM @8 128 UI8
        PARAM a 128 UI8 PARAM @a 128 UI8
        PARAM a 128 UI8 PARAM b 128 UI8 PARAM c 128 UI8 PARAM @b 128 UI8
        PARAM a 128 UI8 PARAM b 128 UI8 PARAM c 128 UI8 PARAM d 128 UI8 @PARAM e 128 UI8
        ",
        RESULT,
    )
}

#[test]
fn immediates(rt: HostRuntime) -> Result<(), Fail> {
    read_headers(
        &rt,
        rt.alloc(),
        "INSTRUCTION x PARAM a 128 UI8 IMM ",
        "
        i 0 to 255
        imm8 0 to 0
        i 255 to 255
        i 0x00 to 0xfF
        x 1 to 2
        ",
        RESULT,
    )
}

#[test]
fn immediates_that_are_none(rt: HostRuntime) -> Result<(), Fail> {
    refuse_framed(
        &rt,
        rt.alloc(),
        12,
        "INSTRUCTION x PARAM a 128 UI8 ",
        "
        IMM @a 0 to 1
        IMM @dst 0 to 1
        IMM @to 0 to 1
        IMM i @256 to 256
        IMM i 0 to @256
        IMM i 2 to @1
        IMM i 0 @TO 1
        IMM i 0 @.. 1
        IMM i @0to 1
        IMM i @-1 to 1
        IMM i 0 to 1 @IMM j 0 to 1
        IMM i 0 to 1 @PARAM b 128 UI8
        @IMMEDIATE i 0 to 1
        ",
        RESULT,
    )
}

#[test]
fn what_stands_behind(rt: HostRuntime) -> Result<(), Fail> {
    read_headers(
        &rt,
        rt.alloc(),
        "INSTRUCTION x PARAM a 128 UI8 ",
        "
        RESULT dst 512 M512 EXTENSION AVX512F COST 1000
        RESULT dst 256 SI32 EXTENSION AVX2 COST 0x3e8
        RESULT dst 128 UI8 EXTENSION SSE4.1 COST 0001
        RESULT dst 128 UI8 EXTENSION SSE4.2 COST 1
        RESULT dst 128 UI8 EXTENSION SSE3 COST 1
        RESULT dst 128 UI8 EXTENSION SSSE3 COST 1
        RESULT dst 128 UI8 EXTENSION AVX COST 1
        RESULT dst 128 UI8 EXTENSION AVX_VNNI COST 1
        ",
        "",
    )?;
    read_header(
        &rt,
        rt.alloc(),
        "INSTRUCTION x PARAM a 128 UI8 ",
        "RESULT dst 128 UI8 EXTENSION AVX512BW// ..\nCOST 1",
        "",
    )
}

#[test]
fn what_stands_not_behind(rt: HostRuntime) -> Result<(), Fail> {
    refuse_framed(
        &rt,
        rt.alloc(),
        12,
        "INSTRUCTION x PARAM a 128 UI8 ",
        "
        @EXTENSION SSE2
        RESULT @a 128 UI8
        RESULT @DST 128 UI8
        RESULT dst @16 UI8
        RESULT dst 128 @M256
        RESULT dst 128 UI8 @COST 1
        RESULT dst 128 UI8 @RESULT dst 128 UI8
        RESULT dst 128 UI8 EXTENSION SSE2 @EXTENSION SSE2
        RESULT dst 128 UI8 EXTENSION SSE2 COST @0
        RESULT dst 128 UI8 EXTENSION SSE2 COST @1001
        RESULT dst 128 UI8 EXTENSION SSE2 COST @one
        RESULT dst 128 UI8 EXTENSION SSE2 COST 1 @END
        RESULT dst 128 UI8 EXTENSION SSE2 COST 1 @OPERATION;
        RESULT dst 128 UI8 EXTENSION SSE2 COST 1 @OPERATIONS
        ",
        " END",
    )
}
