//! Program texts: those that are read and printed again, and those that are refused.

use std::alloc::{AllocError, Global};
use std::process::Abort;
use std::test::Fail;
use vg_program::{cost, parse_program, print_program};
use vg_pseudo::Header;
use vg_text::Place;

const LINES: &[u8] = b"program all(d: ptr, k: i8, s: ptr)
%s0:i32 = load s-2147483648
%s1:i8 = add k 255i8
%s2:i32 = sub %s0 1i32
%s3:i64 = mul 3i64 18446744073709551615i64
%s4:i8 = and k %s1
%s5:i8 = or k k
%s6:i8 = xor 0i8 k
%s7:i32 = smin %s0 %s2
%s8:i32 = smax %s0 %s2
%s9:i16 = umin 1i16 2i16
%s10:i16 = umax %s9 65535i16
%s11:i8 = shl k 7
%s12:i64 = lshr %s3 63
%s13:i32 = ashr %s0 0
%s14:i16 = sext k
%s15:i64 = zext 7i32
%s16:i8 = trunc %s3
%s17:i1 = eq k %s16
%s18:i1 = slt 1i64 %s3
%s19:i1 = ult %s0 %s2
%s20:i8 = select %s17 k 5i8
store d+2147483647 %s0
store s+0 %s20
store d+7 18446744073709551615i64
end cost 24 scalar 16384
";

/// Asserts that a text is a program of this cost, which is printed as that text.
pub fn expect_again(
    rt: &impl Abort,
    alloc: Global,
    headers: &[Header],
    text: &[u8],
    wanted: u64,
) -> Result<(), Fail> {
    let Ok(program) = parse_program(alloc, text, headers) else {
        return Err("the program is refused".into());
    };
    let Ok(printed) = print_program(alloc, &program) else {
        return Err("there is no memory".into());
    };
    assert!(rt; cost(&program) == wanted && printed.as_slice() == text);
    Ok(())
}

#[test]
fn each_line_is_read_and_printed_again(rt: HostRuntime) -> Result<(), Fail> {
    expect_again(&rt, rt.alloc(), &[], LINES, 24)
}

/// Whether a text is refused with this number at this place.
pub fn is_refused(
    alloc: Global,
    headers: &[Header],
    text: &[u8],
    number: u32,
    line: u32,
    column: u32,
) -> bool {
    match parse_program(alloc, text, headers) {
        Ok(_) => false,
        Err(fault) => {
            fault.number() == Some(number) && fault.place() == Some(Place { line, column })
        }
    }
}

/// A row is a line of a program, an arrow, and the number and the column of its fault: asserts
/// that after `front`, as the line `at`, it is refused with them.
fn refuse_line(
    rt: &impl Abort,
    alloc: Global,
    headers: &[Header],
    front: &str,
    at: u32,
    row: &str,
) -> Result<(), Fail> {
    let Some((line, fault)) = row.trim_start().rsplit_once(" => ") else {
        return Err("an arrow is missing".into());
    };
    let Some((number, column)) = fault.split_once(' ') else {
        return Err("a column is missing".into());
    };
    let (number, column) = (number.parse::<u32>()?, column.parse::<u32>()?);
    let text = format!(in alloc; "{front}{line}\n")?;
    assert!(rt;
        is_refused(alloc, headers, text.as_bytes(), number, at, column),
        "{row}"
    );
    Ok(())
}

/// Asserts the same of each line as a row.
pub fn refuse_lines(
    rt: &impl Abort,
    alloc: Global,
    headers: &[Header],
    front: &str,
    at: u32,
    rows: &str,
) -> Result<(), Fail> {
    for row in rows.trim().lines() {
        refuse_line(rt, alloc, headers, front, at, row)?;
    }
    Ok(())
}

#[test]
fn refusals_of_the_first_line(rt: HostRuntime) -> Result<(), Fail> {
    for (text, number, column) in [
        (b"".as_slice(), 2, 1),
        (b"\n".as_slice(), 2, 1),
        (b"program".as_slice(), 2, 8),
        (b"program none()".as_slice(), 2, 15),
        (b"program n\x80()\n".as_slice(), 1, 10),
        (NAME_OF_64, 2, 75),
        (NAME_OF_65, 1, 9),
    ] {
        assert!(rt;
            is_refused(rt.alloc(), &[], text, number, 1, column),
            "{number} {column}"
        );
    }
    refuse_lines(
        &rt,
        rt.alloc(),
        &[],
        "",
        1,
        "
        program none() => 2 16
        program  none() => 2 9
        program n(\t) => 1 11
        program p(k: i7) => 2 14
        program p(k: i8, k: ptr) => 2 18
        program p(a: i8, b: i8, c: i8, d: i8, e: i8, f: i8, g: i8, h: i8, i: i8, j: i8, k: i8, l: i8, \
        m: i8, n: i8, o: i8, p: i8, q: i8) => 2 123
        ",
    )
}

/// The longest name.
const NAME_OF_64: &[u8] =
    b"program a23456789012345678901234567890123456789012345678901234567890abcd()";

/// A name of one byte more.
const NAME_OF_65: &[u8] =
    b"program a23456789012345678901234567890123456789012345678901234567890abcde()";

#[test]
fn refusals_of_a_line(rt: HostRuntime) -> Result<(), Fail> {
    refuse_lines(
        &rt,
        rt.alloc(),
        &[],
        "program p(d: ptr, k: i8)\n",
        2,
        "
        %s0:i32 = load e+0 => 4 16
        %s0:i32 = load k+0 => 5 16
        %s0:i32 = load k 0 => 5 16
        %s0:i32 = load d-0 => 8 18
        %s0:i32 = load d-00 => 2 18
        %s0:i32 = load d+2147483648 => 8 18
        %s0:i32 = load d-2147483649 => 8 18
        %s0:i32 = load d+99999999999999999999999 => 8 18
        %s0:i32 = load d*0 => 2 17
        %s1:i32 = load d+0 => 2 1
        %s00:i32 = load d+0 => 2 1
        %v1 = vload 16 d+0 => 2 1
        %s0:i2 = load d+0 => 2 5
        %s0:i32 = add k 1i32 => 5 15
        %s0:i8 = add k d => 5 16
        %s0:i8 = add k %s0 => 4 16
        %s0:i32 = add 300i8 1i32 => 5 15
        %s0:i32 = add 1i32 4294967296i32 => 8 20
        store d+0 %s0 => 4 11
        store d+0 %s00 => 2 11
        store d+0 %v0 => 2 11
        store d+0 d => 5 11
        store d+0 x => 4 11
        store d+0 256i8 => 8 11
        store d+0 007i8 => 2 11
        store d+0 999i7 => 2 14
        store d+0 7 i8 => 2 12
        store d+0  k => 2 11
        store d+0 k  => 2 12
        vstore 16 d+0 %v0 => 4 15
        end cost 00 scalar 0 => 2 10
        end cost 1 scalar 0 => 6 10
        end cost 4294967295 scalar 0 => 6 10
        end cost 4294967296 scalar 0 => 8 10
        end cost 0 scalar 16385 => 8 19
        end cost 0 scalar 0  => 2 20
        ",
    )
}

#[test]
fn refusals_of_words_and_types(rt: HostRuntime) -> Result<(), Fail> {
    refuse_lines(
        &rt,
        rt.alloc(),
        &[],
        "program p(d: ptr, k: i8)\n",
        2,
        "
        %s0:i1 = load d+0 => 2 10
        %s0:i1 = add k k => 2 10
        %s0:i8 = eq k k => 2 10
        %s0:i8 = store d+0 k => 2 10
        add k k => 2 1
        %s0:i8 = ad k k => 2 10
        %s0:i8 = adds k k => 2 10
        %s0:i8 = sex k => 2 10
        %s0:i1 = sltu k k => 2 10
        %s0:i1 = slt  k k => 2 14
        %s0:i1x = eq k k => 2 5
        %s0:i1= eq k k => 2 7
        ",
    )?;
    assert!(rt;
        is_refused(
            rt.alloc(),
            &[],
            b"program p(d: ptr, k: i8)\n%s0:i8 = \x80\n",
            1,
            2,
            10
        )
    );
    Ok(())
}

#[test]
fn refusals_of_operands(rt: HostRuntime) -> Result<(), Fail> {
    refuse_lines(
        &rt,
        rt.alloc(),
        &[],
        "program p(d: ptr, k: i8)\n",
        2,
        "
        %s0:i8 = shl k 8 => 8 16
        %s0:i8 = lshr k 8 => 8 17
        %s0:i64 = ashr 1i64 64 => 8 21
        %s0:i8 = shl k 07 => 2 16
        %s0:i8 = shl k 99999999999999999999999 => 8 16
        %s0:i8 = shl k 7i8 => 2 17
        %s0:i8 = shl k 9i8 => 8 16
        %s0:i8 = shl k k => 2 16
        %s0:i16 = ashr k 9 => 5 16
        %s0:i8 = sext k => 5 15
        %s0:i8 = zext 5i16 => 5 15
        %s0:i16 = sext 300i16 => 5 16
        %s0:i16 = sext 300i8 => 8 16
        %s0:i8 = trunc k => 5 16
        %s0:i16 = trunc k => 5 17
        %s0:i64 = zext d => 5 16
        %s0:i64 = zext e => 4 16
        %s0:i1 = eq k 1i16 => 5 15
        %s0:i1 = eq 5i7 k => 2 14
        %s0:i1 = ult 1i1 1i1 => 2 15
        %s0:i1 = eq d k => 5 13
        %s0:i1 = eq k %s0 => 4 15
        %s0:i8 = select k k k => 5 17
        %s0:i8 = select 5i7 k k => 2 18
        %s0:i8 = select 300i8 k k => 5 17
        %s0:i8 = select d k k => 5 17
        %s0:i8 = select e k k => 4 17
        ",
    )
}

#[test]
fn one_bit_stands_as_a_condition_alone(rt: HostRuntime) -> Result<(), Fail> {
    refuse_lines(
        &rt,
        rt.alloc(),
        &[],
        "program p(d: ptr, k: i8)\n%s0:i1 = eq k k\n",
        3,
        "
        %s0:i8 = add k k => 2 1
        %s1:i8 = add %s0 k => 5 14
        %s1:i8 = add k %s0 => 5 16
        %s1:i8 = shl %s0 0 => 5 14
        %s1:i8 = zext %s0 => 5 15
        %s1:i8 = trunc %s0 => 5 16
        %s1:i1 = eq %s0 k => 5 13
        %s1:i1 = eq k %s0 => 5 15
        %s1:i1 = ult %s0 %s0 => 5 14
        store d+0 %s0 => 5 11
        %s1:i8 = select %s0 %s0 k => 5 21
        %s1:i8 = select %s0 k %s0 => 5 23
        %s1:i8 = select %s0 k 1i16 => 5 23
        %s1:i8 = select %s0 k => 2 22
        %s1:i1 = select %s0 k k => 2 10
        ",
    )
}

#[test]
fn refusals_at_the_end(rt: HostRuntime) {
    let alloc = rt.alloc();
    assert!(rt; is_refused(alloc, &[], b"program n()\nend cost 0 scalar 0", 2, 2, 20));
    assert!(rt; is_refused(alloc, &[], b"program n()\nend cost 0 scalar 0\nx", 2, 3, 1));
    assert!(rt;
        is_refused(
            alloc,
            &[],
            b"program n()\nend cost 0 scalar 0\n\x7f",
            1,
            3,
            1
        )
    );
}

#[test]
fn a_wrong_cost_is_printed_with_both_costs(rt: HostRuntime) -> Result<(), Fail> {
    match parse_program(rt.alloc(), b"program n()\nend cost 3 scalar 0\n", &[]) {
        Ok(_) => Err("the cost is wrong".into()),
        Err(fault) => {
            let text = format!(in rt.alloc(); "{fault}")?;
            assert!(rt; text.as_str() == "6 CostWrong 3 0 at 2:10");
            Ok(())
        }
    }
}

/// A front, and so many bytes of one value after it that the text has `size` bytes.
fn text_of_size(alloc: Global, front: &[u8], fill: u8, size: usize) -> Result<Vec<u8>, AllocError> {
    let mut text = Vec::with_capacity(alloc, size)?;
    text.extend_from_slice(front)?;
    text.resize(size, fill)?;
    Ok(text)
}

const NONE: &[u8] = b"program none()\nend cost 0 scalar 0\n";

/// A program of 349,521 lines, whose text has 4,194,304 bytes: 27 and 25 of the first line and the
/// last, and 12 of each other.
fn largest_program(alloc: Global) -> Result<Vec<u8>, AllocError> {
    let mut text = Vec::with_capacity(alloc, 4_194_304)?;
    text.extend_from_slice(b"program big(d: ptr, k: i8)\n")?;
    for _ in 0..349_521 {
        text.extend_from_slice(b"store d+0 k\n")?;
    }
    text.extend_from_slice(b"end cost 349521 scalar 0\n")?;
    Ok(text)
}

#[test]
fn the_largest_text_is_read_and_printed_again(rt: HostRuntime) -> Result<(), Fail> {
    let largest = largest_program(rt.alloc())?;
    assert!(rt; largest.len() == 4_194_304);
    expect_again(&rt, rt.alloc(), &[], largest.as_slice(), 349_521)
}

/// Asserts the number of the refusal at the first byte of such a text.
fn refuse_size(
    rt: &impl Abort,
    alloc: Global,
    front: &[u8],
    fill: u8,
    size: usize,
    number: u32,
) -> Result<(), Fail> {
    let text = text_of_size(alloc, front, fill, size)?;
    assert!(rt; is_refused(alloc, &[], text.as_slice(), number, 1, 1));
    Ok(())
}

#[test]
fn texts_at_the_limit_and_over_it(rt: HostRuntime) -> Result<(), Fail> {
    refuse_size(&rt, rt.alloc(), b"", 0x80, 4_194_304, 1)?;
    refuse_size(&rt, rt.alloc(), NONE, b'\n', 4_194_305, 7)?;
    refuse_size(&rt, rt.alloc(), NONE, b' ', 4_194_305, 7)?;
    refuse_size(&rt, rt.alloc(), b"", 0x80, 4_194_305, 7)?;
    refuse_size(&rt, rt.alloc(), b"", b'a', 4_194_305, 7)
}
