//! Parts of programs inside other texts: what is read of them, what is left, and the places of their
//! faults.

ghost use Rattle.std.specs.Prelude.{◌≤◌, length, IfOk};

use std::alloc::{AllocError, Global};
use std::process::Abort;
use std::test::Fail;
use vg_program::parts::{body_at, put_body, put_signature, refused_by, signature_at};
use vg_program::{Program, Signature};
use vg_text::Place;

/// A signature, and after a first line a body, a word and another body.
const SIGNATURE: &str = "f(p: ptr, k: i8)";

const BODY: &str = "%s0:i8 = load p+1\nstore p-1 %s0\nend cost 2 scalar 3\n";

const BEHIND: &str = "else\n%s0:i8 = load p+1\n";

fn signature(alloc: Global) -> Result<Signature, Fail>
    ensures { IfOk result (λ s. length s.params ≤ 16) }
{
    match signature_at(alloc, SIGNATURE.as_bytes()) {
        Ok((signature, _)) => Ok(signature),
        Err(_) => Err("a signature is refused".into()),
    }
}

fn program(alloc: Global) -> Result<Program, Fail> {
    match body_at(alloc, &[], signature(alloc)?, BODY.as_bytes()) {
        Ok((program, _)) => Ok(program),
        Err(_) => Err("a body is refused".into()),
    }
}

#[test]
fn a_signature_leaves_what_stands_behind_it(rt: HostRuntime) -> Result<(), Fail> {
    let Ok((signature, rest)) = signature_at(rt.alloc(), b"f(p: ptr, k: i8) times k") else {
        return Err("a signature is refused".into());
    };
    let is_right = signature.name.bytes() == b"f".as_slice()
        && signature.params.as_slice().len() == 2;
    assert!(rt; is_right && rest == b" times k".as_slice());
    Ok(())
}

/// Two pieces of text, one behind the other.
fn joined(alloc: Global, front: &str, behind: &str) -> Result<Vec<u8>, AllocError> {
    let mut text = Vec::from_slice(alloc, front.as_bytes())?;
    text.extend_from_slice(behind.as_bytes())?;
    Ok(text)
}

#[test]
fn a_body_leaves_what_stands_behind_its_last_line(rt: HostRuntime) -> Result<(), Fail> {
    let alloc = rt.alloc();
    let text = joined(alloc, BODY, BEHIND)?;
    let Ok((program, rest)) = body_at(alloc, &[], signature(alloc)?, text.as_slice()) else {
        return Err("a body is refused".into());
    };
    let is_right = program.lines.as_slice().len() == 2 && program.cost == 2 && program.scalar == 3;
    assert!(rt; is_right && rest == BEHIND.as_bytes());
    Ok(())
}

/// A word, a program's signature, and its body in the next line.
fn printed(alloc: Global, program: &Program) -> Result<Vec<u8>, AllocError> {
    let mut text = Vec::from_slice(alloc, b"guarded ")?;
    put_signature(alloc, &mut text, program)?;
    text.extend_from_slice(b"\n")?;
    put_body(alloc, &mut text, program)?;
    Ok(text)
}

#[test]
fn signatures_and_bodies_are_printed_behind_what_stands_there(rt: HostRuntime) -> Result<(), Fail> {
    let alloc = rt.alloc();
    let wanted = joined(alloc, "guarded f(p: ptr, k: i8)\n", BODY)?;
    let program = program(alloc)?;
    let text = printed(alloc, &program)?;
    assert!(rt; text.as_slice() == wanted.as_slice());
    Ok(())
}

/// The number and the place in the whole text of the fault of the body that stands after so many
/// bytes of it.
fn fault_of_body(
    rt: &impl Abort,
    alloc: Global,
    text: &[u8],
    front: usize,
) -> Result<(Option<u32>, Option<Place>), Fail> {
    assert!(rt; front <= text.len() && text.len() <= 1000);
    let Err(error) = body_at(alloc, &[], signature(alloc)?, &text[front..]) else {
        return Err("a body that is none is read".into());
    };
    let fault = refused_by(text, error);
    Ok((fault.number(), fault.place()))
}

/// Asserts that the body behind a front is refused with this number at this place of the whole text.
fn refuse_body(
    rt: &impl Abort,
    alloc: Global,
    front: &str,
    body: &str,
    number: u32,
    place: Place,
) -> Result<(), Fail> {
    let text = joined(alloc, front, body)?;
    let fault = fault_of_body(rt, alloc, text.as_slice(), front.len())?;
    assert!(rt; fault == (Some(number), Some(place)), "{body}");
    Ok(())
}

#[test]
fn faults_of_a_body_have_their_places_in_the_whole_text(rt: HostRuntime) -> Result<(), Fail> {
    let alloc = rt.alloc();
    for (body, number, line, column) in [
        ("store q+1 0i8\n", 4, 3, 7),
        ("store p+1 0i8\nend cost 2 scalar 1\n", 6, 4, 10),
        ("end cost 0 scalar 0", 2, 3, 20),
        ("", 2, 2, 6),
        ("else\n", 2, 3, 1),
        ("end cost 0 scalar 16385\n", 8, 3, 19),
        ("end\u{7f}", 1, 3, 4),
    ] {
        let place = Place { line, column };
        refuse_body(
            &rt,
            alloc,
            "guarded f(p: ptr, k: i8)\nthen\n",
            body,
            number,
            place,
        )?;
    }
    Ok(())
}
