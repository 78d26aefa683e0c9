//! Lines as steps.

ghost use Rattle.std.specs.Prelude.{◌≡◌, ◌+◌, ◌≤◌, ◌<◌, ◌*◌, length, vec_len, vec_capacity, get_or, ℕ, List, [], MatchOption, None, Some};
ghost use Rattle.vg_program.specs.Meaning.{Instructions, operand_number, widened, with_scalar, with_vector, step, run};
ghost use Rattle.vg_program.specs.Vectors.{bytes_of, register_of};
ghost use Rattle.vg_base.specs.Memory.{loaded};
ghost use Rattle.vg_base.specs.Address.{place_of};
ghost use Rattle.vg_memory.specs.Outcome.{Leaves};
ghost use Rattle.vg_machine.specs.State.{state_of, IsAccess, IsComputed, IsMade, IsRunnable, AreRunnable};
ghost use Rattle.vg_catalog.specs.Called.{called_by};
ghost use Rattle.vg_machine.specs.ReadyInstance.{instances_of};

use crate::calling::call;
use crate::inputs::Inputs;
use crate::instances::Instances;
use crate::memory;
use crate::vector::Vector;
use vg_base::Address;
use vg_bits::Outcome;
use vg_memory::{load, store};
use vg_program::line::Line;
use vg_program::vector_size::VectorSize;
use vg_scalar::select;

/// The register of this number.
fn register_at(vectors: &[Vector], number: u32) -> &Vector
    requires { number < length vectors.now }
    ensures { result.now ≡ get_or vectors.now number [] }
{
    &vectors[number as usize]
}

/// What is read into a register, or None for a trap.
fn loaded(inputs: &Inputs, size: VectorSize, address: Address, memory: &[u8]) -> Option<Vector>
    ensures { MatchOption result (loaded memory.now (place_of inputs.now.places address) (bytes_of
        size) ≡ None) (λ register. (read : List ℕ) × (loaded memory.now (place_of inputs.now.places
        address) (bytes_of size) ≡ Some read) × (register ≡ widened (register_of size) read)) }
{
    let read = memory::load(memory, inputs.address(address), size.bytes() as usize)?;
    Some(Vector::widened(read, size.register() as usize / 8))
}

/// A line that reads or writes memory.
fn access(
    inputs: &Inputs,
    line: &Line,
    memory: &mut [u8],
    scalars: &mut Vec<u64>,
    vectors: &mut Vec<Vector>,
) -> Outcome
    requires access { IsAccess line.now vectors.old.items }
    requires scalars { vec_len scalars.old < vec_capacity scalars.old }
    requires vectors { vec_len vectors.old < vec_capacity vectors.old }
    ensures outcome { (called : Instructions) → Leaves result (state_of memory.new scalars.new.items
        vectors.new.items) (step called inputs.now line.now (state_of memory.old scalars.old.items
        vectors.old.items)) }
    ensures size { length memory.new ≡ length memory.old }
    ensures one_scalar { vec_len scalars.new ≤ vec_len scalars.old + 1 }
    ensures one_vector { vec_len vectors.new ≤ vec_len vectors.old + 1 }
    ensures scalars_in_place { vec_capacity scalars.new ≡ vec_capacity scalars.old }
    ensures vectors_in_place { vec_capacity vectors.new ≡ vec_capacity vectors.old }
{
    match line {
        Line::Load { width, address } => {
            match load(memory, inputs.address(*address), width.size()) {
                None => return Outcome::Trap,
                Some(number) => scalars.push_reserved(number),
            }
            Outcome::Done
        }
        Line::Store {
            width,
            address,
            value,
        } => {
            let number = inputs.number(scalars, *value);
            store(memory, inputs.address(*address), width.size(), number)
        }
        Line::VectorLoad { size, address } => {
            match loaded(inputs, *size, *address, memory) {
                None => return Outcome::Trap,
                Some(register) => vectors.push_reserved(register),
            }
            Outcome::Done
        }
        Line::VectorStore {
            size,
            address,
            register,
        } => {
            let bytes = register_at(vectors, *register).bytes(size.bytes() as usize);
            memory::store(memory, inputs.address(*address), bytes)
        }
        _ => unreachable!(),
    }
}

/// The number that a line without an access gives.
fn computed(inputs: &Inputs, line: &Line, scalars: &[u64], vectors: &[Vector]) -> u64
    requires { IsComputed line.now vectors.now }
    ensures { (called : Instructions) (memory : List ℕ) →
        step called inputs.now line.now (state_of memory scalars.now vectors.now)
        ≡ Some (with_scalar (state_of memory scalars.now vectors.now) result) }
{
    match line {
        Line::Two {
            op,
            width,
            left,
            right,
        } => {
            let first = inputs.number(scalars, *left);
            let second = inputs.number(scalars, *right);
            op.apply(*width, first, second)
        }
        Line::Shift {
            op,
            width,
            operand,
            amount,
        } => op.apply(*width, *amount, inputs.number(scalars, *operand)),
        Line::Resize {
            op,
            width,
            from,
            operand,
        } => op.apply(*width, *from, inputs.number(scalars, *operand)),
        Line::Compare {
            op,
            width,
            left,
            right,
        } => {
            let first = inputs.number(scalars, *left);
            let second = inputs.number(scalars, *right);
            op.apply(*width, first, second)
        }
        Line::Select {
            condition,
            first,
            second,
            ..
        } => {
            let condition = inputs.number(scalars, *condition);
            let first = inputs.number(scalars, *first);
            let second = inputs.number(scalars, *second);
            select(condition, first, second)
        }
        Line::Extract {
            register,
            lane,
            width,
        } => register_at(vectors, *register).lane(*width, *lane),
        _ => unreachable!(),
    }
}

/// The register that a line without an access gives; what answers its call, if it is one, is kept at
/// this place.
fn made(
    inputs: &Inputs,
    instances: &mut Instances<'_>,
    place: usize,
    line: &Line,
    scalars: &[u64],
    vectors: &[Vector],
) -> Vector
    requires { IsMade (instances_of instances.old) place line.now vectors.now }
    ensures value { (memory : List ℕ) → step (called_by (instances_of instances.old).entries)
        inputs.now line.now (state_of memory scalars.now vectors.now) ≡ Some (with_vector (state_of
        memory scalars.now vectors.now) result) }
    ensures instances { instances_of instances.new ≡ instances_of instances.old }
    ensures entries { instances.new.entries.now ≡ instances.old.entries.now }
{
    match line {
        Line::Constant { bytes } => {
            let bytes = bytes.as_slice();
            Vector::widened(bytes, bytes.len())
        }
        Line::Insert {
            register,
            lane,
            width,
            value,
            ..
        } => {
            let number = inputs.number(scalars, *value);
            register_at(vectors, *register).with_lane(*width, *lane, number)
        }
        Line::Call {
            registers,
            imm,
            bits,
            ..
        } => call(instances, place, vectors, registers.as_slice(), *imm, *bits),
        _ => unreachable!(),
    }
}

/// One line; what answers its call, if it is one, is kept at this place. Takes no memory.
fn step(
    inputs: &Inputs,
    instances: &mut Instances<'_>,
    place: usize,
    line: &Line,
    memory: &mut [u8],
    scalars: &mut Vec<u64>,
    vectors: &mut Vec<Vector>,
) -> Outcome
    requires runnable { IsRunnable (instances_of instances.old) place line.now vectors.old.items }
    requires scalars { vec_len scalars.old < vec_capacity scalars.old }
    requires vectors { vec_len vectors.old < vec_capacity vectors.old }
    ensures outcome { Leaves result (state_of memory.new scalars.new.items vectors.new.items)
        (step (called_by (instances_of instances.old).entries) inputs.now line.now
        (state_of memory.old scalars.old.items vectors.old.items)) }
    ensures instances { instances_of instances.new ≡ instances_of instances.old }
    ensures entries { instances.new.entries.now ≡ instances.old.entries.now }
    ensures size { length memory.new ≡ length memory.old }
    ensures one_scalar { vec_len scalars.new ≤ vec_len scalars.old + 1 }
    ensures one_vector { vec_len vectors.new ≤ vec_len vectors.old + 1 }
    ensures scalars_in_place { vec_capacity scalars.new ≡ vec_capacity scalars.old }
    ensures vectors_in_place { vec_capacity vectors.new ≡ vec_capacity vectors.old }
{
    match line {
        Line::Load { .. }
        | Line::Store { .. }
        | Line::VectorLoad { .. }
        | Line::VectorStore { .. } => access(inputs, line, memory, scalars, vectors),
        Line::Constant { .. } | Line::Insert { .. } | Line::Call { .. } => {
            let register = made(inputs, instances, place, line, scalars, vectors);
            vectors.push_reserved(register);
            Outcome::Done
        }
        Line::Two { .. }
        | Line::Shift { .. }
        | Line::Resize { .. }
        | Line::Compare { .. }
        | Line::Select { .. }
        | Line::Extract { .. } => {
            let number = computed(inputs, line, scalars, vectors);
            scalars.push_reserved(number);
            Outcome::Done
        }
    }
}

/// The place of the line of this number; 0 where there is none.
fn place_at(plan: &[usize], number: usize) -> usize
    ensures { result ≡ get_or plan.now number 0 }
{
    match plan.get(number) {
        Some(place) => *place,
        None => 0,
    }
}

/// The lines in order, up to a trap; the plan has the places of what answers their calls. Takes no
/// memory.
#[tactic(auto, unfolding(vg_program::specs::Meaning::run), using(crate::proofs::Runnable::runnable_next))]
pub(crate) fn run(
    inputs: &Inputs,
    instances: &mut Instances<'_>,
    plan: &[usize],
    lines: &[Line],
    memory: &mut [u8],
    scalars: &mut Vec<u64>,
    vectors: &mut Vec<Vector>,
) -> Outcome
    requires runnable { AreRunnable (instances_of instances.old) plan.now 0 lines.now
        vectors.old.items }
    requires scalars { vec_len scalars.old + length lines.now ≤ vec_capacity scalars.old }
    requires vectors { vec_len vectors.old + length lines.now ≤ vec_capacity vectors.old }
    ensures outcome { Leaves result (state_of memory.new scalars.new.items vectors.new.items)
        (run (called_by (instances_of instances.old).entries) inputs.now lines.now
        (state_of memory.old scalars.old.items vectors.old.items)) }
    ensures instances { instances_of instances.new ≡ instances_of instances.old }
    ensures entries { instances.new.entries.now ≡ instances.old.entries.now }
    ensures size { length memory.new ≡ length memory.old }
    ensures scalars_in_place { vec_capacity scalars.new ≡ vec_capacity scalars.old }
    ensures vectors_in_place { vec_capacity vectors.new ≡ vec_capacity vectors.old }
{
    let mut left = lines;
    let mut number: usize = 0;
    'lines: while let [line, behind @ ..] = left {
        let place = place_at(plan, number);
        match step(inputs, instances, place, line, memory, scalars, vectors) {
            Outcome::Done => {}
            Outcome::Trap => return Outcome::Trap,
        }
        left = behind;
        number += 1;
    }
    Outcome::Done
}
