//! What is told of a request, as numbers and a text.

ghost use Rattle.std.specs.Prelude.{◌≡◌, length};
ghost use Rattle.vg_answers.specs.Answered.{IsLaidText, status_in, text_in};
ghost use Rattle.vg_answers.specs.Refusals.{no_refusal, placed, refusal_of, refusal_in, refusal_seen, difference_in};
ghost use Rattle.vg_top.specs.declared.ending.Ending.{Ending};

use vg_text::Place;
use vg_top::Ending;

/// How long the answer to a request is, and where a text of it is refused, and why. Zeros where there is
/// none.
#[repr(C)]
#[derive(Clone, Copy)]
pub struct Report {
    /// The bytes of the answer, or of the text of the first difference.
    pub count: usize,
    /// The number of the refusal, from 1, among those of its kind of text.
    pub number: u32,
    /// The line that it names, from 1.
    pub line: u32,
    /// The column that it names, from 1, in bytes.
    pub column: u32,
}

/// What is written where the answer is longer than the room for it.
pub(crate) const ROOM_TOO_SMALL: u32 = 20;

/// Tells of no refusal.
pub(crate) fn put_none(report: &mut Report)
    ensures { refusal_seen report.new ≡ no_refusal }
{
    report.number = 0;
    report.line = 0;
    report.column = 0;
}

/// Tells of a refusal with this number at this place.
fn put_placed(report: &mut Report, number: Option<u32>, place: Option<Place>)
    ensures { refusal_seen report.new ≡ placed number place }
{
    report.number = match number {
        Some(number) => number,
        None => 0,
    };
    match place {
        Some(place) => {
            report.line = place.line;
            report.column = place.column;
        }
        None => {
            report.line = 0;
            report.column = 0;
        }
    }
}

/// Tells of the refusal that an ending has.
pub(crate) fn put_refusal(report: &mut Report, ending: &Ending)
    ensures { refusal_seen report.new ≡ refusal_of ending.now }
{
    match ending {
        Ending::Instructions(_, fault) => put_placed(report, fault.number(), fault.place()),
        Ending::Kernel(_, fault) => put_placed(report, fault.number(), fault.place()),
        Ending::Program(_, fault) => put_placed(report, fault.number(), fault.place()),
        _ => put_none(report),
    }
}

/// The text of the difference that an ending tells of, else nothing.
fn difference_in(ending: &Ending) -> &[u8]
    ensures { result.now ≡ difference_in ending.now }
{
    match ending {
        Ending::Differs(text) => text.as_slice(),
        _ => &[],
    }
}

/// Lays a text into the front of the room, where it fits, and gives the status, else that the room is too
/// small. The report says how long the text is.
fn lay_text(status: u32, text: &[u8], out: &mut [u8], report: &mut Report) -> u32
    ensures laid { IsLaidText status text.now result report.new.count out.old out.new }
    ensures refusal { refusal_seen report.new ≡ refusal_seen report.old }
{
    let count = text.len();
    report.count = count;
    if count <= out.len() {
        out[..count].copy_from_slice(text);
        status
    } else {
        ROOM_TOO_SMALL
    }
}

/// Lays the answer, or the text of the first difference, into the front of the room, where it fits, and
/// tells of the refusal.
pub(crate) fn lay(outcome: Result<Vec<u8>, Ending>, out: &mut [u8], report: &mut Report) -> u32
    ensures laid { IsLaidText (status_in outcome) (text_in outcome) result report.new.count out.old
        out.new }
    ensures refusal { refusal_seen report.new ≡ refusal_in outcome }
{
    match outcome {
        Ok(text) => {
            put_none(report);
            lay_text(0, text.as_slice(), out, report)
        }
        Err(ending) => {
            put_refusal(report, &ending);
            let status = ending.status().code() as u32;
            lay_text(status, difference_in(&ending), out, report)
        }
    }
}
