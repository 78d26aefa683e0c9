//! Entries that are judged, made ready and run.

ghost use Rattle.std.specs.Prelude.{◌≡◌, IfOk};
ghost use Rattle.vg_names.specs.Reading.{IsNarrow};
ghost use Rattle.vg_names.specs.Written.{IsWritten};
ghost use Rattle.vg_range.specs.Checks.{header_in, operation_in};

use std::alloc::Global;
use std::process::Abort;
use std::test::Fail;
use vg_base::{Items, Name};
use vg_bits::Reg;
use vg_names::{narrow_headers_are_written, operations_that_are_read_are_written};
use vg_pmean::{Prepared, answer_once};
use vg_pseudo::{Header, ImmRange, Param, parse_operation};
use vg_range::{Checked, check};
use vg_text::Lexer;

fn param(alloc: Global, name: &[u8]) -> Result<Param, Fail>
    ensures { IfOk result (λ p. p.register ≡ 128) }
{
    Ok(Param {
        name: Name::new(alloc, name)?,
        register: 128,
        lane_width: 32,
        is_signed: false,
    })
}

fn header(alloc: Global) -> Result<Header, Fail>
    ensures { IfOk result (λ h. IsNarrow h) }
{
    let first = param(alloc, b"a")?;
    let second = param(alloc, b"b")?;
    let params = vec![in alloc; first, second]?;
    let imm = Name::new(alloc, b"imm8")?;
    Ok(Header {
        name: Name::new(alloc, b"_mm_of_a_case")?,
        params: Items::from_vec(params),
        imm: Some(ImmRange {
            name: imm,
            lo: 3,
            hi: 9,
        }),
        register: 128,
        lane_width: 32,
        extension: 0,
        cost: 1,
    })
}

fn checked(rt: &impl Abort, alloc: Global, text: &[u8]) -> Result<Checked, Fail>
    ensures { IfOk result (λ c. IsWritten (header_in c) (operation_in c)) }
{
    operations_that_are_read_are_written();
    narrow_headers_are_written();
    assert!(rt; text.len() <= 1_000_000);
    let mut lexer = Lexer::new(text);
    let Ok(operation) = parse_operation(alloc, &mut lexer) else {
        return Err("a text of an operation is refused".into());
    };
    let header = header(alloc)?;
    match check(alloc, header, operation) {
        Ok(checked) => Ok(checked),
        Err(_) => Err("an operation is refused".into()),
    }
}

const TEXT: &str = "dst[127:0] := a[127:0] dst[15:8] := imm8 dst[imm8:imm8] := b[0] END";

/// A register of 128 bits.
fn register(bits: u128) -> Reg<32> {
    let mut register = Reg::<32>::zero();
    register.put(0, 128, bits);
    register
}

/// What an entry answers to an immediate without being made ready. None where it has no instance.
fn answer(alloc: Global, entry: &Checked, params: &[Reg<32>], imm: u8) -> Result<Option<u128>, Fail>
    requires { IsWritten (header_in entry.now) (operation_in entry.now) }
{
    match answer_once(alloc, entry, params, imm)? {
        Some(found) => Ok(Some(found.get(0, 128))),
        None => Ok(None),
    }
}

#[test]
fn an_entry_answers_for_each_immediate(rt: HostRuntime) -> Result<(), Fail> {
    let entry = checked(&rt, rt.alloc(), TEXT.as_bytes())?;
    let params = [register(0x1234_0000), register(1)];
    let mut prepared = Prepared::new(rt.alloc(), &entry)?;
    for (imm, left) in [
        (3, 0x1234_0308),
        (5, 0x1234_0520),
        (8, 0x1234_0900),
        (9, 0x1234_0b00),
    ] {
        let found = prepared.apply(params.as_slice(), imm);
        assert!(rt; found.get(0, 128) == left);
        let once = answer(rt.alloc(), &entry, params.as_slice(), imm)?;
        assert!(rt; once == Some(left));
    }
    for imm in [2, 10] {
        let once = answer(rt.alloc(), &entry, params.as_slice(), imm)?;
        assert!(rt; once.is_none());
    }
    Ok(())
}
