//! The line that tells how a run ended.

ghost use Rattle.std.specs.Prelude.{◌≡◌, ◌++◌, ◌∷◌, [], option_map};
ghost use Rattle.std.specs.Fmt.{decimal};
ghost use Rattle.vg_program.specs.Faults.{place_of_fault};
ghost use Rattle.vg_request.specs.Request.{files_in, asked_of};
ghost use Rattle.vg_top.specs.Line.{file_name, place_text, costs_text, instructions_refusal, kernel_refusal, program_refusal, head_of, tail_of, line_of, Writes, Says};

use crate::ending::{Ending, FileNumber};
use itoa::Buffer;
use vg_catalog::CatalogFault;
use vg_kernel::KernelFault;
use vg_outside::{Sink, SinkFault};
use vg_program::ProgramFault;
use vg_request::Request;
use vg_text::Place;

/// The name of a file of a request. Words that are no request name none.
fn file_name<'a>(request: Option<Request<'a>>, number: FileNumber) -> &'a str
    ensures { result.now ≡ file_name (files_in (option_map asked_of request.entry)) number }
{
    match request {
        Some(request) => request.file_name(number.0),
        None => "",
    }
}

fn head_of(ending: &Ending) -> &'static [u8]
    ensures { result.now ≡ head_of ending.now }
{
    match ending {
        Ending::Usage => b"vegen: usage",
        Ending::Instructions(..) => b"vegen: instructions: ",
        Ending::Kernel(..) => b"vegen: kernel: ",
        Ending::Program(..) => b"vegen: program: ",
        Ending::Absent(_) => b"vegen: absent: ",
        Ending::ReadFault(_) => b"vegen: read fault: ",
        Ending::TooLarge(_) => b"vegen: too large: ",
        Ending::Bindings => b"vegen: bindings",
        Ending::Trap => b"vegen: trap",
        Ending::WriteFault => b"vegen: write fault",
        Ending::Memory => b"vegen: memory",
        Ending::Differs(_) => b"vegen: differs: ",
    }
}

/// A text and a number.
#[tactic(auto, using(crate::proofs::Fronts::cut_first, crate::proofs::Fronts::cut_second, crate::proofs::Fronts::appends_both))]
fn write_number<E: Sink>(err: &mut E, text: &[u8], number: u64) -> Result<(), SinkFault>
    ensures { Writes E.Sink (text.now ++ decimal number) err.old err.new result }
{
    let mut buffer = Buffer::new();
    err.write(text)?;
    err.write(buffer.format(number).as_bytes())
}

#[tactic(auto, using(crate::proofs::Fronts::cut_first, crate::proofs::Fronts::cut_second, crate::proofs::Fronts::appends_both))]
fn write_numbers<E: Sink>(
    err: &mut E,
    first: &[u8],
    one: u64,
    second: &[u8],
    two: u64,
) -> Result<(), SinkFault>
    ensures { Writes E.Sink ((first.now ++ decimal one) ++ (second.now ++ decimal two))
        err.old err.new result }
{
    write_number(err, first, one)?;
    write_number(err, second, two)
}

fn write_place<E: Sink>(err: &mut E, place: Option<Place>) -> Result<(), SinkFault>
    ensures { Writes E.Sink (place_text place) err.old err.new result }
{
    match place {
        None => err.write(b""),
        Some(place) => write_numbers(
            err,
            b" at ",
            u64::from(place.line),
            b":",
            u64::from(place.column),
        ),
    }
}

/// The costs behind `6 CostWrong`.
fn write_costs<E: Sink>(err: &mut E, fault: &ProgramFault) -> Result<(), SinkFault>
    ensures { Writes E.Sink (costs_text fault.now) err.old err.new result }
{
    match fault {
        ProgramFault::CostWrong {
            stated,
            counted,
            ..
        } => write_numbers(err, b" ", *stated, b" ", *counted),
        _ => err.write(b""),
    }
}

/// The costs of a program's refusal and its place.
#[tactic(auto, using(crate::proofs::Fronts::cut_first, crate::proofs::Fronts::cut_second, crate::proofs::Fronts::appends_both))]
fn write_costs_and_place<E: Sink>(err: &mut E, fault: &ProgramFault) -> Result<(), SinkFault>
    ensures { Writes E.Sink (costs_text fault.now ++ place_text (place_of_fault fault.now))
        err.old err.new result }
{
    write_costs(err, fault)?;
    write_place(err, fault.place())
}

#[tactic(auto, using(crate::proofs::Fronts::cut_first, crate::proofs::Fronts::cut_second, crate::proofs::Fronts::appends_both))]
fn write_program_refusal<E: Sink>(err: &mut E, fault: &ProgramFault) -> Result<(), SinkFault>
    ensures { Writes E.Sink (program_refusal fault.now) err.old err.new result }
{
    err.write(fault.name().as_bytes())?;
    write_costs_and_place(err, fault)
}

#[tactic(auto, using(crate::proofs::Fronts::cut_first, crate::proofs::Fronts::cut_second, crate::proofs::Fronts::appends_both))]
fn write_kernel_refusal<E: Sink>(err: &mut E, fault: &KernelFault) -> Result<(), SinkFault>
    ensures { Writes E.Sink (kernel_refusal fault.now) err.old err.new result }
{
    err.write(fault.name().as_bytes())?;
    write_place(err, fault.place())
}

#[tactic(auto, using(crate::proofs::Fronts::cut_first, crate::proofs::Fronts::cut_second, crate::proofs::Fronts::appends_both))]
fn write_instructions_refusal<E: Sink>(err: &mut E, fault: &CatalogFault) -> Result<(), SinkFault>
    ensures { Writes E.Sink (instructions_refusal fault.now) err.old err.new result }
{
    err.write(fault.name().as_bytes())?;
    write_place(err, fault.place())
}

/// What stands between the head of the line and its end.
fn write_tail<E: Sink>(
    err: &mut E,
    request: Option<Request<'_>>,
    ending: &Ending,
) -> Result<(), SinkFault>
    ensures { Writes E.Sink (tail_of (files_in (option_map asked_of request.entry)) ending.now)
        err.old err.new result }
{
    match ending {
        Ending::Instructions(_, fault) => write_instructions_refusal(err, fault),
        Ending::Kernel(_, fault) => write_kernel_refusal(err, fault),
        Ending::Program(_, fault) => write_program_refusal(err, fault),
        Ending::Absent(number) => err.write(file_name(request, *number).as_bytes()),
        Ending::ReadFault(number) => err.write(file_name(request, *number).as_bytes()),
        Ending::TooLarge(number) => err.write(file_name(request, *number).as_bytes()),
        Ending::Differs(text) => err.write(text.as_slice()),
        _ => err.write(b""),
    }
}

/// What stands after the head of the line.
#[tactic(auto, using(crate::proofs::Fronts::cut_first, crate::proofs::Fronts::cut_second, crate::proofs::Fronts::appends_both))]
fn write_rest<E: Sink>(
    err: &mut E,
    request: Option<Request<'_>>,
    ending: &Ending,
) -> Result<(), SinkFault>
    ensures { Writes E.Sink
        (tail_of (files_in (option_map asked_of request.entry)) ending.now ++ 10 ∷ [])
        err.old err.new result }
{
    write_tail(err, request, ending)?;
    err.write(b"\n")
}

#[tactic(auto, using(crate::proofs::Fronts::cut_first, crate::proofs::Fronts::cut_second, crate::proofs::Fronts::appends_both))]
fn write_line<E: Sink>(
    err: &mut E,
    request: Option<Request<'_>>,
    ending: &Ending,
) -> Result<(), SinkFault>
    ensures { Writes E.Sink (line_of (files_in (option_map asked_of request.entry)) ending.now)
        err.old err.new result }
{
    err.write(head_of(ending))?;
    write_rest(err, request, ending)
}

/// Writes the line that tells of an ending, up to the first write that fails. Takes no memory.
pub fn say<E: Sink>(err: &mut E, request: Option<Request<'_>>, ending: &Ending)
    ensures says { Says E.Sink (line_of (files_in (option_map asked_of request.entry)) ending.now)
        err.old err.new }
{
    let _ = write_line(err, request, ending);
}
