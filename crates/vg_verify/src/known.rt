//! What is known of scalars and registers after the lines of a program.

ghost use Rattle.std.specs.Prelude.{◌≡◌, ◌+◌, ◌-◌, ◌*◌, ◌++◌, IfOk, OnOk, get_or, length, replicate, take};
ghost use Rattle.vg_base.specs.Width.{bits_of};
ghost use Rattle.vg_bits.specs.Range.{range, replaced};
ghost use Rattle.vg_forms.specs.Runs.{bits_in};
ghost use Rattle.vg_known.specs.Cuts.{computed, gathered};
ghost use Rattle.vg_known.specs.Known.{known_bits, operand_term, read_bits, with_operation, with_puts, with_scalar, with_vector};
ghost use Rattle.vg_lift.specs.Gather.{bits_from, clear};
ghost use Rattle.vg_program.specs.Vectors.{bytes_of, register_of};
ghost use Rattle.vg_shapes.specs.declared.ssa_unit.Operator.TheVariants as operator;
ghost use Rattle.vg_ssa.specs.ValueTerm.{no_term};
ghost use Rattle.vg_verify.specs.Views.{given_of, known_of};

use crate::called::Called;
use crate::event_bits::{EventBits, give_events};
use std::alloc::{AllocError, Global};
use vg_base::{Items, Width};
use vg_forms::{Form, Maker, Run, push_range};
use vg_program::{Operand, VectorSize};
use vg_shapes::Operator;

/// What a walk over lines is given: what they call, the terms of the integer parameters, and the bits that loads
/// read.
#[derive(Clone, Copy)]
pub(crate) struct Given<'a> {
    pub called: &'a Called<'a>,
    pub arguments: &'a [Form],
    pub reads: &'a EventBits,
}

/// What is known after lines: the terms of scalars, the bits of registers, those of the events that were
/// stored, and what makes terms, with the terms that were met.
#[derive(Drop)]
pub struct Knowing {
    pub scalars: Vec<Form>,
    pub vectors: Vec<Items<Run>>,
    pub puts: Vec<(usize, Items<Run>)>,
    pub maker: Maker,
}

// What stands where there is no term.
fn no_term(alloc: Global) -> Result<Form, AllocError>
    ensures { IfOk result (λ f. f ≡ no_term) }
{
    Form::constant(alloc, 8, 0)
}

// The term of a number, a second time.
fn term_at(alloc: Global, terms: &[Form], number: u32) -> Result<Form, AllocError>
    ensures { IfOk result (λ f. f ≡ get_or terms.now number no_term) }
{
    let index = number as usize;
    if index < terms.len() {
        terms[index].share()
    } else {
        no_term(alloc)
    }
}

// All bits of a term of a width.
pub(crate) fn whole_run(alloc: Global, form: Form, width: u32) -> Result<Vec<Run>, AllocError>
    ensures { IfOk result (λ v. bits_in v.items ≡ bits_from form 0 width) }
{
    let mut runs = Vec::new(alloc);
    runs.push(Run::Bits {
        form,
        low: 0,
        count: width,
    })?;
    Ok(runs)
}

impl Knowing {
    /// The term of an operand.
    pub(crate) fn operand(
        &self,
        alloc: Global,
        given: Given,
        x: Operand,
    ) -> Result<Form, AllocError>
        ensures { IfOk result (λ f. f ≡ operand_term (given_of given.entry) (known_of self.now) x) }
    {
        match x {
            Operand::Register(register) => term_at(alloc, &self.scalars, register),
            Operand::Argument(argument) => term_at(alloc, given.arguments, argument),
            Operand::Literal { width, number } => {
                Form::constant(alloc, width.bits(), u128::from(number))
            }
        }
    }

    /// The bits of a register.
    pub(crate) fn register(&self, number: u32) -> &[Run]
        ensures { bits_in result.now ≡ known_bits (known_of self.now) number }
    {
        match self.vectors.get(number as usize) {
            Some(runs) => runs.as_slice(),
            None => &[],
        }
    }

    /// A scalar more, which is met.
    pub(crate) fn push_scalar(&mut self, form: Form) -> Result<(), AllocError>
        ensures { OnOk result (known_of self.new ≡ with_scalar (known_of self.old) form) }
    {
        self.maker.meet(&form)?;
        self.scalars.push(form)?;
        Ok(())
    }

    /// A register more.
    pub(crate) fn push_vector(&mut self, runs: Vec<Run>) -> Result<(), AllocError>
        ensures { OnOk result (known_of self.new ≡ with_vector (known_of self.old) (bits_in
            runs.items)) }
    {
        self.vectors.push(Items::from_vec(runs))?;
        Ok(())
    }

    /// Events are stored with these bits.
    fn put(&mut self, alloc: Global, events: &[usize], runs: &[Run]) -> Result<(), AllocError>
        ensures { OnOk result (known_of self.new
            ≡ with_puts (known_of self.old) events.now (bits_in runs.now)) }
    {
        give_events(alloc, &mut self.puts, events, runs)
    }

    /// The scalar that bits make.
    fn push_gathered(&mut self, alloc: Global, runs: &[Run]) -> Result<(), AllocError>
        ensures { OnOk result (known_of self.new ≡ with_scalar (known_of self.old)
            (gathered (known_of self.old).met (bits_in runs.now))) }
    {
        let form = self.maker.gathered(alloc, runs)?;
        self.push_scalar(form)
    }

    /// The scalar that an operation gives.
    fn push_operation(
        &mut self,
        alloc: Global,
        op: Operator,
        width: Width,
        amount: u32,
        x: &Form,
        y: &Form,
        z: &Form,
    ) -> Result<(), AllocError>
        ensures { OnOk result (known_of self.new ≡ with_scalar (known_of self.old)
            (computed (known_of self.old).met op (bits_of width) amount x.now y.now z.now)) }
    {
        let form = self.maker.computed(alloc, op, width, amount, x, y, z)?;
        self.push_scalar(form)
    }

    /// The line stores an operand.
    pub(crate) fn store(
        &mut self,
        alloc: Global,
        given: Given,
        width: Width,
        x: Operand,
        events: &[usize],
    ) -> Result<(), AllocError>
        ensures { OnOk result (known_of self.new ≡ with_puts (known_of self.old) events.now
            (bits_from (operand_term (given_of given.entry) (known_of self.old) x) 0 (bits_of
            width))) }
    {
        let form = self.operand(alloc, given, x)?;
        let runs = whole_run(alloc, form, width.bits())?;
        self.put(alloc, events, &runs)
    }

    /// An operation on one operand.
    pub(crate) fn single(
        &mut self,
        alloc: Global,
        given: Given,
        op: Operator,
        width: Width,
        amount: u32,
        x: Operand,
    ) -> Result<(), AllocError>
        ensures { OnOk result (known_of self.new ≡ with_operation (given_of given.entry) (known_of
            self.old) op (bits_of width) amount (operand_term (given_of given.entry) (known_of
            self.old) x) no_term no_term) }
    {
        let x = self.operand(alloc, given, x)?;
        let none = no_term(alloc)?;
        self.push_operation(alloc, op, width, amount, &x, &none, &none)
    }

    /// An operation on two operands.
    pub(crate) fn pair(
        &mut self,
        alloc: Global,
        given: Given,
        op: Operator,
        width: Width,
        x: Operand,
        y: Operand,
    ) -> Result<(), AllocError>
        ensures { OnOk result (known_of self.new ≡ with_operation (given_of given.entry) (known_of
            self.old) op (bits_of width) 0 (operand_term (given_of given.entry) (known_of self.old)
            x) (operand_term (given_of given.entry) (known_of self.old) y) no_term) }
    {
        let x = self.operand(alloc, given, x)?;
        let y = self.operand(alloc, given, y)?;
        let none = no_term(alloc)?;
        self.push_operation(alloc, op, width, 0, &x, &y, &none)
    }

    /// A choice between two operands.
    pub(crate) fn choice(
        &mut self,
        alloc: Global,
        given: Given,
        width: Width,
        c: Operand,
        x: Operand,
        y: Operand,
    ) -> Result<(), AllocError>
        ensures { OnOk result (known_of self.new ≡ with_operation (given_of given.entry) (known_of
            self.old) operator.Select (bits_of width) 0 (operand_term (given_of given.entry)
            (known_of self.old) c) (operand_term (given_of given.entry) (known_of self.old) x)
            (operand_term (given_of given.entry) (known_of self.old) y)) }
    {
        let c = self.operand(alloc, given, c)?;
        let x = self.operand(alloc, given, x)?;
        let y = self.operand(alloc, given, y)?;
        self.push_operation(alloc, Operator::Select, width, 0, &c, &x, &y)
    }

    /// A number is read from memory.
    pub(crate) fn load(
        &mut self,
        alloc: Global,
        given: Given,
        events: &[usize],
    ) -> Result<(), AllocError>
        ensures { OnOk result (known_of self.new ≡ with_scalar (known_of self.old)
            (gathered (known_of self.old).met (read_bits (given_of given.entry) events.now))) }
    {
        let runs = given.reads.read(alloc, events)?;
        self.push_gathered(alloc, &runs)
    }

    /// A register is read from memory, with zeros above.
    pub(crate) fn vector_load(
        &mut self,
        alloc: Global,
        given: Given,
        size: VectorSize,
        events: &[usize],
    ) -> Result<(), AllocError>
        ensures { OnOk result (known_of self.new ≡ with_vector (known_of self.old)
            (read_bits (given_of given.entry) events.now
            ++ replicate (register_of size - 8 * bytes_of size) clear)) }
    {
        let read = given.reads.read(alloc, events)?;
        let runs = with_zeros(read, size.register() - 8 * size.bytes())?;
        self.push_vector(runs)
    }

    /// The low bytes of a register are stored.
    #[tactic(auto, using(crate::proofs::Lines::low_bits))]
    pub(crate) fn vector_store(
        &mut self,
        alloc: Global,
        size: VectorSize,
        register: u32,
        events: &[usize],
    ) -> Result<(), AllocError>
        ensures { OnOk result (known_of self.new ≡ with_puts (known_of self.old) events.now
            (take (8 * bytes_of size) (known_bits (known_of self.old) register))) }
    {
        let mut runs = Vec::new(alloc);
        push_range(&mut runs, self.register(register), 0, 8 * size.bytes())?;
        self.put(alloc, events, &runs)
    }

    /// A lane of a register becomes an operand.
    pub(crate) fn insert(
        &mut self,
        alloc: Global,
        given: Given,
        register: u32,
        lane: u32,
        width: Width,
        x: Operand,
    ) -> Result<(), AllocError>
        ensures { OnOk result (known_of self.new ≡ with_vector (known_of self.old) (replaced (lane *
            bits_of width) (bits_from (operand_term (given_of given.entry) (known_of self.old) x) 0
            (bits_of width)) (known_bits (known_of self.old) register))) }
    {
        let form = self.operand(alloc, given, x)?;
        let runs = inserted(alloc, self.register(register), lane, width.bits(), form)?;
        self.push_vector(runs)
    }

    /// The number of a lane of a register.
    #[tactic(auto, using(crate::proofs::Lines::range_of))]
    pub(crate) fn extract(
        &mut self,
        alloc: Global,
        register: u32,
        lane: u32,
        width: Width,
    ) -> Result<(), AllocError>
        ensures { OnOk result (known_of self.new ≡ with_scalar (known_of self.old) (gathered
            (known_of self.old).met (range (lane * bits_of width) (bits_of width) (known_bits
            (known_of self.old) register)))) }
    {
        let low = product(lane, width.bits())?;
        let mut runs = Vec::new(alloc);
        push_range(&mut runs, self.register(register), low, width.bits())?;
        self.push_gathered(alloc, &runs)
    }
}

// A product, or want of memory past 2^32.
fn product(a: u32, b: u32) -> Result<u32, AllocError>
    ensures { IfOk result (λ n. n ≡ a * b) }
{
    match a.checked_mul(b) {
        Some(n) => Ok(n),
        None => Err(AllocError),
    }
}

// A sum, or want of memory past 2^32.
fn sum(a: u32, b: u32) -> Result<u32, AllocError>
    ensures { IfOk result (λ n. n ≡ a + b) }
{
    match a.checked_add(b) {
        Some(n) => Ok(n),
        None => Err(AllocError),
    }
}

// Runs with so many zeros after them.
#[tactic(auto, using(crate::proofs::Lines::zeros_behind))]
fn with_zeros(old: Vec<Run>, count: u32) -> Result<Vec<Run>, AllocError>
    ensures { IfOk result (λ v. bits_in v.items ≡ bits_in old.items ++ replicate count clear) }
{
    let mut runs = old;
    runs.push(Run::Zeros { count })?;
    Ok(runs)
}

// How many bits runs have, or want of memory past 2^32.
#[tactic(auto, using(crate::proofs::Events::size_all))]
fn size_of(runs: &[Run]) -> Result<u32, AllocError>
    ensures { IfOk result (λ n. n ≡ length (bits_in runs.now)) }
{
    match runs {
        [] => Ok(0),
        [run, behind @ ..] => {
            let rest = size_of(behind)?;
            let size = sum(run.size(), rest)?;
            Ok(size)
        }
    }
}

// The bits of a register, of which those of a lane are a term's.
#[tactic(auto, using(crate::proofs::Lines::inserted_bits))]
fn inserted(
    alloc: Global,
    old: &[Run],
    lane: u32,
    width: u32,
    form: Form,
) -> Result<Vec<Run>, AllocError>
    ensures { IfOk result (λ v. bits_in v.items
        ≡ replaced (lane * width) (bits_from form 0 width) (bits_in old.now)) }
{
    let low = product(lane, width)?;
    let size = size_of(old)?;
    let behind = sum(low, width)?;
    let mut runs = Vec::new(alloc);
    push_range(&mut runs, old, 0, low)?;
    runs.push(Run::Bits {
        form,
        low: 0,
        count: width,
    })?;
    push_range(&mut runs, old, behind, size)?;
    Ok(runs)
}
