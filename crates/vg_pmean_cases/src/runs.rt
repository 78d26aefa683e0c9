//! What scripts leave in dst. Registers 0 and 1 are parameters, of 128 bits; register 2 is dst,
//! of 128 bits; register 3 has 256.

ghost use Rattle.std.specs.Prelude.{◌≡◌, ◌+◌, ◌<◌, ◌≤◌, ◌∷◌, [], IfOk};
ghost use Rattle.vg_script.specs.Formed.{ScriptFormed};
ghost use Rattle.vg_script.specs.Script.{width_of};
ghost use Rattle.vg_script.specs.Formed.{Formed};
ghost use Rattle.vg_script.specs.Views.{script_of, word_of};

use std::alloc::{AllocError, Global};
use std::process::Abort;
use std::test::Fail;
use vg_base::Items;
use vg_bits::Reg;
use vg_pmean::{Instance, Prepared};
use vg_script::{Low, Script, Whole, Word, make_arm, make_one, make_pick, make_put, make_two};
use vg_terms::{OneOp, TwoOp};

/// An entry of one instance.
fn prepared(alloc: Global, least: Option<u8>, script: Script) -> Result<Prepared, AllocError>
    requires { ScriptFormed (128 ∷ 128 ∷ 128 ∷ 256 ∷ []) (script_of script) }
{
    let widths = vec![in alloc; 128, 128, 128, 256]?;
    let whole = Whole {
        widths: Items::from_vec(widths),
        parameters: 2,
        variables: 1,
        result: 2,
        script,
        is_dynamic: false,
        nodes: 16,
    };
    let instance = Instance::new(whole)?;
    let instances = vec![in alloc; instance]?;
    Prepared::from_instances(alloc, least, instances)
}

/// What an entry leaves in dst for these parameters, asked twice.
fn answer(rt: &impl Abort, mut entry: Prepared, x: u128, y: u128) -> Result<u128, Fail> {
    let mut first = Reg::<32>::zero();
    first.put(0, 128, x);
    let mut second = Reg::<32>::zero();
    second.put(0, 128, y);
    let params = [first, second];
    let once = entry.apply(params.as_slice(), 0);
    let twice = entry.apply(params.as_slice(), 0);
    assert!(rt; once.bytes.as_slice() == twice.bytes.as_slice());
    assert!(rt; once.get(128, 128) == 0);
    Ok(once.get(0, 128))
}

/// Bits of a register as a signed number of 128 bits.
fn signed_slice(alloc: Global, register: usize, bit: u128) -> Result<Word, AllocError>
    requires first { bit ≡ 0 }
    requires known { register < 2 }
    ensures formed { IfOk result (λ w. Formed (word_of w)) }
    ensures width { IfOk result (λ w. width_of (word_of w) ≡ 128) }
{
    make_one(
        alloc,
        OneOp::Sext,
        128,
        0,
        Word::Slice {
            register,
            low: Low::At { bit },
            width: 16,
        },
    )
}

/// The product of the lowest 16 bits of both, read as signed, in dword 1.
fn product(alloc: Global) -> Result<Script, AllocError>
    ensures { IfOk result (λ s. ScriptFormed (128 ∷ 128 ∷ 128 ∷ 256 ∷ []) (script_of s)) }
{
    let x = signed_slice(alloc, 0, 0)?;
    let y = signed_slice(alloc, 1, 0)?;
    let z = make_two(alloc, TwoOp::Mul, 128, x, y)?;
    make_put(alloc, 2, 32, 32, z)
}

/// An arm that puts a number into one byte of dst.
fn byte(alloc: Global, low: u128, value: u128) -> Result<Script, AllocError>
    requires inside { low + 8 ≤ 128 }
    requires small { value < 256 }
    ensures { IfOk result (λ s. ScriptFormed (128 ∷ 128 ∷ 128 ∷ 256 ∷ []) (script_of s)) }
{
    make_put(alloc, 2, low, 8, Word::Constant { width: 128, value })
}

/// The arms of one number each, the last one again of the first number.
fn arms(alloc: Global) -> Result<Script, AllocError>
    ensures { IfOk result (λ s. ScriptFormed (128 ∷ 128 ∷ 128 ∷ 256 ∷ []) (script_of s)) }
{
    let again = byte(alloc, 16, 0x33)?;
    let last = make_arm(alloc, 1, again, Script::Stop)?;
    let two = byte(alloc, 8, 0x22)?;
    let behind = make_arm(alloc, 2, two, last)?;
    let one = byte(alloc, 0, 0x11)?;
    make_arm(alloc, 1, one, behind)
}

/// A CASE on the lowest 16 bits of the first parameter with these arms.
fn choice(alloc: Global) -> Result<Script, AllocError>
    ensures { IfOk result (λ s. ScriptFormed (128 ∷ 128 ∷ 128 ∷ 256 ∷ []) (script_of s)) }
{
    let selector = signed_slice(alloc, 0, 0)?;
    let arms = arms(alloc)?;
    make_pick(alloc, selector, arms)
}

#[test]
fn products_wrap_around_and_are_signed(rt: HostRuntime) -> Result<(), Fail> {
    let script = product(rt.alloc())?;
    let entry = prepared(rt.alloc(), None, script)?;
    let found = answer(&rt, entry, 0xffff_fffe, 0x0001_0003)?;
    assert!(rt; found == 0xffff_fffa_0000_0000);
    Ok(())
}

#[test]
fn registers_of_64_bytes_and_an_immediate(rt: HostRuntime) -> Result<(), Fail> {
    let script = product(rt.alloc())?;
    let mut entry = prepared(rt.alloc(), Some(7), script)?;
    let mut param = Reg::<64>::zero();
    param.put(0, 128, 0xffff);
    let params = [param, param];
    let found = entry.apply(params.as_slice(), 7);
    assert!(rt; found.get(0, 128) == 0x1_0000_0000);
    assert!(rt; found.get(384, 128) == 0);
    Ok(())
}

#[test]
fn one_arm_is_taken_or_none(rt: HostRuntime) -> Result<(), Fail> {
    for (selector, left) in [(1, 0x11), (2, 0x2200), (3, 0), (0x1_0001, 0x11)] {
        let script = choice(rt.alloc())?;
        let entry = prepared(rt.alloc(), None, script)?;
        let found = answer(&rt, entry, selector, 0)?;
        assert!(rt; found == left);
    }
    Ok(())
}
