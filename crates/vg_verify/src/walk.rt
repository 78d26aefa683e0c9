//! What is known after the lines of a program.

ghost use Rattle.std.specs.Prelude.{◌≡◌, ◌*◌, ◌<◌, IfOk, OnOk, get_or, length};
ghost use Rattle.vg_base.specs.Bits.{bits_of_bytes, num};
ghost use Rattle.vg_known.specs.Known.{know, know_all, with_vector};
ghost use Rattle.vg_lift.specs.LaneTerm.{pieces};
ghost use Rattle.vg_program.specs.VectorLines.{HasVectors};
ghost use Rattle.vg_verify.specs.Views.{begun_with, given_of, given_with, pairs_in, known_of};

use crate::called::Called;
use crate::constant::constant_runs;
use crate::event_bits::EventBits;
use crate::known::{Given, Knowing};
use std::alloc::{AllocError, Global};
use vg_base::Items;
use vg_forms::{Form, Maker, Run};
use vg_program::Line;
use vg_shapes::Operator;

/// The line at a place.
pub(crate) fn line_at(lines: &[Line], place: usize) -> &Line
    requires { place < length lines.now }
    ensures { result.now ≡ get_or lines.now place result.now }
{
    &lines[place]
}

// The events at a place.
fn events_at(events: &[Items<usize>], place: usize) -> &[usize]
    requires { place < length events.now }
    ensures { result.now ≡ get_or events.now place result.now }
{
    events[place].as_slice()
}

// Nothing is known but the terms that were met.
fn begin(alloc: Global, maker: Maker) -> Knowing
    ensures { known_of result ≡ begun_with maker.classes }
{
    Knowing {
        scalars: Vec::new(alloc),
        vectors: Vec::new(alloc),
        puts: Vec::new(alloc),
        maker,
    }
}

impl Knowing {
    // A register of these bytes.
    fn constant(&mut self, alloc: Global, bytes: &[u8]) -> Result<(), AllocError>
        ensures { OnOk result (known_of self.new ≡ with_vector (known_of self.old) (pieces (8 *
            length bytes.now) (num (bits_of_bytes bytes.now)) 0 (8 * length bytes.now))) }
    {
        let runs = constant_runs(alloc, bytes)?;
        self.push_vector(runs)
    }

    // A line that has these events.
    fn line(
        &mut self,
        alloc: Global,
        given: Given,
        line: &Line,
        events: &[usize],
    ) -> Result<(), AllocError>
        ensures { OnOk result (known_of self.new
            ≡ know (given_of given.entry) line.now events.now (known_of self.old)) }
    {
        match line {
            Line::Load { .. } => self.load(alloc, given, events),
            Line::Store { width, value, .. } => self.store(alloc, given, *width, *value, events),
            Line::Two {
                op,
                width,
                left,
                right,
            } => self.pair(alloc, given, Operator::Two(*op), *width, *left, *right),
            Line::Shift {
                op,
                width,
                operand,
                amount,
            } => self.single(
                alloc,
                given,
                Operator::Shift(*op),
                *width,
                *amount,
                *operand,
            ),
            Line::Resize {
                op,
                width,
                from,
                operand,
            } => {
                let op = Operator::Resize {
                    op: *op,
                    from: *from,
                };
                self.single(alloc, given, op, *width, 0, *operand)
            }
            Line::Compare {
                op,
                width,
                left,
                right,
            } => self.pair(alloc, given, Operator::Compare(*op), *width, *left, *right),
            Line::Select {
                width,
                condition,
                first,
                second,
            } => self.choice(alloc, given, *width, *condition, *first, *second),
            Line::VectorLoad { .. }
            | Line::VectorStore { .. }
            | Line::Constant { .. }
            | Line::Insert { .. }
            | Line::Extract { .. }
            | Line::Call { .. } => self.vector_line(alloc, given, line, events),
        }
    }

    // The same of a line with vectors.
    fn vector_line(
        &mut self,
        alloc: Global,
        given: Given,
        line: &Line,
        events: &[usize],
    ) -> Result<(), AllocError>
        requires { HasVectors line.now }
        ensures { OnOk result (known_of self.new
            ≡ know (given_of given.entry) line.now events.now (known_of self.old)) }
    {
        match line {
            Line::VectorLoad { size, .. } => self.vector_load(alloc, given, *size, events),
            Line::VectorStore { size, register, .. } => {
                self.vector_store(alloc, *size, *register, events)
            }
            Line::Constant { bytes } => self.constant(alloc, bytes.as_slice()),
            Line::Insert {
                register,
                lane,
                width,
                value,
                ..
            } => self.insert(alloc, given, *register, *lane, *width, *value),
            Line::Extract {
                register,
                lane,
                width,
            } => self.extract(alloc, *register, *lane, *width),
            Line::Call {
                name,
                registers,
                imm,
                ..
            } => self.call(alloc, given, name.bytes(), registers.as_slice(), *imm),
            _ => unreachable!(),
        }
    }

    // Lines, for each of which there are its events. Fails for want of memory, and where a line has no events.
    #[tactic(auto, using(crate::proofs::Walking::walked_none, crate::proofs::Walking::walked_more, crate::proofs::Walking::walked_all))]
    fn lines(
        &mut self,
        alloc: Global,
        given: Given,
        lines: &[Line],
        events: &[Items<usize>],
    ) -> Result<(), AllocError>
        ensures { OnOk result (known_of self.new
            ≡ know_all (given_of given.entry) lines.now events.now (known_of self.old)) }
    {
        if events.len() < lines.len() {
            return Err(AllocError);
        }
        'lines: for place in 0..lines.len() {
            let own = events_at(events, place);
            self.line(alloc, given, line_at(lines, place), own)?;
        }
        Ok(())
    }
}

/// What is known after the lines of a program, for each of which there are the numbers of its events: by what
/// they call, the terms of the integer parameters, the bits that events of loads read, and what makes terms with
/// those that were met. Fails for want of memory, also where a line has no events.
#[tactic(auto, using(crate::proofs::Walking::known_same))]
pub(crate) fn known_behind(
    alloc: Global,
    called: &Called,
    arguments: &[Form],
    reads: &[(usize, Items<Run>)],
    maker: Maker,
    lines: &[Line],
    events: &[Items<usize>],
) -> Result<Knowing, AllocError>
    ensures { IfOk result (λ k. known_of k
        ≡ know_all (given_with called.now arguments.now (pairs_in reads.now)) lines.now events.now
        (begun_with maker.classes)) }
{
    let bits = EventBits::new(alloc, reads)?;
    let mut known = begin(alloc, maker);
    let given = Given {
        called,
        arguments,
        reads: &bits,
    };
    known.lines(alloc, given, lines, events)?;
    Ok(known)
}
