//! Program texts with registers and calls: those that are read and printed again, those that are
//! refused, and what those without calls do.

use crate::machine_cases::{expect_left, expect_trap};
use crate::program_cases::{expect_again, is_refused, refuse_lines};
use std::alloc::{AllocError, Global};
use std::process::Abort;
use std::test::Fail;
use vg_base::{Items, Name};
use vg_pseudo::{Header, ImmRange, Param};

fn param(alloc: Global, register: u32) -> Result<Param, AllocError> {
    Ok(Param {
        name: Name::new(alloc, b"a")?,
        register,
        lane_width: 32,
        is_signed: false,
    })
}

/// Parameters in registers of so many bits.
fn params(alloc: Global, registers: &[u32]) -> Result<Items<Param>, AllocError> {
    let mut params = Vec::new(alloc);
    for register in registers {
        params.push(param(alloc, *register)?)?;
    }
    Ok(Items::from_vec(params))
}

fn add(alloc: Global) -> Result<Header, AllocError> {
    Ok(Header {
        name: Name::new(alloc, b"add")?,
        params: params(alloc, &[128, 128])?,
        imm: None,
        register: 128,
        lane_width: 32,
        extension: 0,
        cost: 1,
    })
}

fn two_to_five(alloc: Global) -> Result<ImmRange, AllocError> {
    Ok(ImmRange {
        name: Name::new(alloc, b"imm")?,
        lo: 2,
        hi: 5,
    })
}

fn mix(alloc: Global) -> Result<Header, AllocError> {
    Ok(Header {
        name: Name::new(alloc, b"mix")?,
        params: params(alloc, &[128, 256])?,
        imm: Some(two_to_five(alloc)?),
        register: 256,
        lane_width: 32,
        extension: 0,
        cost: 7,
    })
}

/// `add`, of two registers of 128 bits, and `mix`, of a register of 128 and one of 256 bits and an
/// immediate of 2 to 5, which costs 7 and gives 256 bits.
fn headers_of(alloc: Global) -> Result<Vec<Header>, AllocError> {
    Ok(vec![in alloc; add(alloc)?, mix(alloc)?]?)
}

const LINES: &[u8] = b"program all(d: ptr, k: i8, s: ptr)
%v0 = vload 4 s-4
%v1 = vload 8 s+0
%v2 = vload 16 s+0
%v3 = vload 32 s+0
%v4 = vload 64 s+2147483647
%v5 = const 000102030405060708090a0b0c0d0eff
%v6 = const 000102030405060708090a0b0c0d0eff000102030405060708090a0b0c0d0eff
%v7 = insert %v4 63 k
%s0:i64 = extract %v3 3
%v8 = insert %v3 3 %s0
%s1:i8 = extract %v0 15
%v9 = call add %v0 %v5
%v10 = call mix %v9 %v8 imm 5
vstore 4 d+0 %v0
vstore 8 d+0 %v1
vstore 16 d+0 %v9
vstore 32 d+0 %v10
vstore 64 d+0 %v7
store d+0 %s1
end cost 25 scalar 0
";

#[test]
fn each_line_on_registers_is_read_and_printed_again(rt: HostRuntime) -> Result<(), Fail> {
    let headers = headers_of(rt.alloc())?;
    expect_again(&rt, rt.alloc(), headers.as_slice(), LINES, 25)
}

const FRONT: &str = "program p(d: ptr, k: i8)
%v0 = vload 16 d+0
%v1 = vload 32 d+0
%s0:i1 = eq k k
";

/// Asserts that each line, after the front, is refused with the number and at the column behind its
/// arrow.
fn refuse_with_headers(rt: &impl Abort, alloc: Global, rows: &str) -> Result<(), Fail> {
    let headers = headers_of(alloc)?;
    refuse_lines(rt, alloc, headers.as_slice(), FRONT, 5, rows)
}

#[test]
fn refusals_of_registers(rt: HostRuntime) -> Result<(), Fail> {
    refuse_with_headers(
        &rt,
        rt.alloc(),
        "
        %v3 = vload 16 d+0 => 2 1
        %v02 = vload 16 d+0 => 2 1
        %w2 = vload 16 d+0 => 2 1
        %v2:i8 = vload 16 d+0 => 2 4
        %v2 = load d+0 => 2 7
        %s1:i8 = vload 16 d+0 => 2 10
        vload 16 d+0 => 2 1
        %v2 = vload 12 d+0 => 8 13
        %v2 = vload 016 d+0 => 2 13
        %v2 = vload 99999999999999999999 d+0 => 8 13
        %v2 = vload 16 k+0 => 5 16
        %v2 = vload 16 e+0 => 4 16
        vstore 16 d+0 %v2 => 4 15
        vstore 16 d+0 %s0 => 2 15
        vstore 16 d+0 %v1 => 5 15
        vstore 32 d+0 %v0 => 5 15
        vstore 64 d+0 %v1 => 5 15
        vstore 2 d+0 %v1 => 8 8
        %v2 = const 00 => 2 13
        %v2 = const 000102030405060708090a0b0c0d0e0F => 2 13
        %v2 = const 000102030405060708090a0b0c0d0e0 => 2 13
        %v2 = const 000102030405060708090a0b0c0d0e0f_ => 2 45
        %v2 = const  => 2 13
        ",
    )?;
    let mut text = Vec::from_slice(rt.alloc(), FRONT.as_bytes())?;
    text.extend_from_slice(b"%v2 = const \x80\n")?;
    let headers = headers_of(rt.alloc())?;
    assert!(rt; is_refused(rt.alloc(), headers.as_slice(), text.as_slice(), 1, 5, 13));
    Ok(())
}

#[test]
fn refusals_of_lanes(rt: HostRuntime) -> Result<(), Fail> {
    refuse_with_headers(
        &rt,
        rt.alloc(),
        "
        %v2 = insert %v0 16 k => 8 18
        %v2 = insert %v1 32 k => 8 18
        %v2 = insert %v0 8 1i16 => 8 18
        %v2 = insert %v0 16 k x => 8 18
        %v2 = insert %v0 16 e => 4 21
        %v2 = insert %v0 0 %s0 => 5 20
        %v2 = insert %v0 0 d => 5 20
        %v2 = insert %v0 0 %v0 => 2 20
        %v2 = insert %v2 0 k => 4 14
        %v2 = insert %s0 0 k => 2 14
        %v2 = insert k 0 k => 2 14
        %s1:i8 = extract %v0 16 => 8 22
        %s1:i64 = extract %v0 2 => 8 23
        %s1:i64 = extract %v2 0 => 4 19
        %s1:i1 = extract %v0 0 => 2 10
        ",
    )
}

#[test]
fn refusals_of_calls(rt: HostRuntime) -> Result<(), Fail> {
    refuse_with_headers(
        &rt,
        rt.alloc(),
        "
        %v2 = call sub %v0 %v0 => 3 12
        %v2 = call ad => 3 12
        %v2 = call %v0 => 2 12
        %v2 = call add %v0 => 2 19
        %v2 = call add %v0 %v0 %v0 => 2 23
        %v2 = call add %v0 %v0 imm 2 => 2 23
        %v2 = call add %v0 %v1 => 5 20
        %v2 = call add %v0 %v2 => 4 20
        %v2 = call add %v0 k => 2 20
        %v2 = call mix %v0 %v1 => 2 23
        %v2 = call mix %v0 imm 2 => 2 20
        %v2 = call mix %v0 %v1 imm 1 => 8 28
        %v2 = call mix %v0 %v1 imm 6 => 8 28
        %v2 = call mix %v0 %v1 imm 02 => 2 28
        %v2 = call mix %v0 %v1 imm 2  => 2 29
        call add %v0 %v0 => 2 1
        end cost 4 scalar 0 => 6 10
        ",
    )
}

const MOVES: &[u8] = b"program p(d: ptr)
%v0 = vload 4 d+0
%v1 = insert %v0 2 258i16
%s0:i8 = extract %v1 4
%v2 = insert %v1 7 %s0
vstore 8 d+4 %v2
%v3 = const 0f0e0d0c0b0a09080706050403020100
vstore 4 d+12 %v3
end cost 7 scalar 0
";

#[test]
fn lanes_are_written_and_read(rt: HostRuntime) -> Result<(), Fail> {
    expect_left(
        &rt,
        rt.alloc(),
        MOVES,
        "0",
        "",
        "1 2 3 4 13*9",
        "1 2 3 4 1 2 3 4 2 1 0 2 15 14 13 12 9",
    )?;
    expect_trap(&rt, rt.alloc(), MOVES, "0", "", "1 2 3 4 11*9")
}
