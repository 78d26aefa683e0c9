//! The registers and variables of a frame.

ghost use Rattle.std.specs.Prelude.{◌≡◌, ◌+◌, ◌*◌, ◌^◌, ◌<◌, ◌≤◌, ◌++◌, [], ◌∷◌, length, get_or, set, replicate, drop, vec_capacity, vec_len, IfOk};
ghost use Rattle.vg_base.specs.Bits.{bits, bits_of_bytes, num};
ghost use Rattle.vg_base.specs.Number.{residue};
ghost use Rattle.vg_script.specs.Cells.{bits_read, entered, written};
ghost use Rattle.vg_script.specs.Views.{number_of};
ghost use Rattle.vg_terms.specs.Term.{IsWidth};
ghost use Rattle.vg_pmean.specs.Extent.{IsLaid, total, widths_of};
ghost use Rattle.vg_pmean.specs.Held.{entered_at, held, widths_in};

use crate::extent::{Extent, place_of, source, target};
use crate::frame_room::FrameRoom;
use crate::pieces::{put_number, put_padded};
use std::alloc::{AllocError, Global};
use std::marker::Model;
use vg_bits::bit_range::{copy, read, write};
use vg_bits::{BitIndex, Reg};
use vg_script::WholeNumber;

/// The registers and variables of a frame. Contracts see what it holds, and its room, which stays.
#[derive(Drop)]
pub(crate) struct Cells {
    room: FrameRoom,
    places: Vec<Extent>,
    bytes: Vec<u8>,
    spare: Vec<u8>,
    variables: Vec<u128>,
}

impl Model for Cells {
    ghost use Rattle.std.specs.Prelude.{vec_capacity};
    ghost use Rattle.vg_base.specs.Bits.{bits_of_bytes};
    ghost use Rattle.vg_pmean.specs.Extent.{IsRoomy, registers_in};
    ghost use Rattle.vg_pmean.specs.Held.{Held, held};

    ghost Value = { Held };

    ghost view = { λ c. held (record {
      registers = registers_in (bits_of_bytes c.bytes.items) c.places.items;
      variables = c.variables.items;
    }) c.room };

    ghost invariant = { λ c. IsRoomy c.room c.places.items c.bytes.items c.spare.items
        (vec_capacity c.places) (vec_capacity c.variables) };
}

/// So many bytes that are 0.
fn zero_bytes(alloc: Global, count: usize) -> Result<Vec<u8>, AllocError>
    ensures { IfOk result (λ bytes. length bytes.items ≡ count) }
{
    let mut bytes = Vec::with_capacity(alloc, count)?;
    'bytes: while bytes.len() < count {
        bytes.push_reserved(0);
    }
    Ok(bytes)
}

/// Makes the first bytes 0.
fn clear(bytes: &mut [u8], count: usize)
    requires { count ≤ length bytes.old }
    ensures { bytes.new ≡ replicate count 0 ++ drop count bytes.old }
{
    bytes[..count].fill(0);
}

/// Lays one register more after those that end here. Answers where it ends.
fn lay_one(places: &mut Vec<Extent>, end: usize, width: u128) -> usize
    requires laid { IsLaid 0 places.old.items }
    requires end { end ≡ total (widths_of places.old.items) }
    requires room { vec_len places.old < vec_capacity places.old }
    requires small { end + width < 2 ^ 64 }
    ensures laid { IsLaid 0 places.new.items }
    ensures widths { widths_of places.new.items ≡ widths_of places.old.items ++ width ∷ [] }
    ensures end { result ≡ total (widths_of places.new.items) }
    ensures more { vec_len places.new ≡ vec_len places.old + 1 }
    ensures capacity { vec_capacity places.new ≡ vec_capacity places.old }
{
    let width = width as usize;
    places.push_reserved(Extent { start: end, width });
    end + width
}

/// Lays registers of these widths one after the other. Answers how many bits they have.
fn lay(places: &mut Vec<Extent>, widths: &[u128]) -> usize
    requires empty { places.old.items ≡ [] }
    requires room { length widths.now ≤ vec_capacity places.old }
    requires small { total widths.now < 2 ^ 64 }
    ensures laid { IsLaid 0 places.new.items }
    ensures widths { widths_of places.new.items ≡ widths.now }
    ensures end { result ≡ total widths.now }
    ensures capacity { vec_capacity places.new ≡ vec_capacity places.old }
{
    let mut end: usize = 0;
    'registers: for width in widths {
        end = lay_one(places, end, *width);
    }
    end
}

/// Makes all variables 0, this many.
fn begin(variables: &mut Vec<u128>, count: usize)
    requires { count ≤ vec_capacity variables.old }
    ensures zeros { variables.new.items ≡ replicate count 0 }
    ensures capacity { vec_capacity variables.new ≡ vec_capacity variables.old }
{
    variables.clear();
    'variables: while variables.len() < count {
        variables.push_reserved(0);
    }
}

impl Cells {
    /// A frame with this room that holds nothing.
    pub(crate) fn new(alloc: Global, room: FrameRoom) -> Result<Cells, AllocError>
        ensures { IfOk result (λ cells. cells ≡ held (record { registers = []; variables = [] })
            room) }
    {
        let count = room.bits / 8 + 1;
        let places = Vec::with_capacity(alloc, room.registers)?;
        let variables = Vec::with_capacity(alloc, room.variables)?;
        let bytes = zero_bytes(alloc, count)?;
        let spare = zero_bytes(alloc, count)?;
        Ok(Cells {
            room,
            places,
            bytes,
            spare,
            variables,
        })
    }

    /// Registers of these widths and so many variables, all of them 0.
    pub(crate) fn enter(&mut self, widths: &[u128], variables: usize)
        requires registers { length widths.now ≤ self.old.room.registers }
        requires bits { total widths.now ≤ self.old.room.bits }
        requires variables { variables ≤ self.old.room.variables }
        ensures { self.new ≡ held (record {
          registers = entered widths.now [];
          variables = replicate variables 0;
        }) self.old.room }
    {
        self.places.clear();
        let end = lay(&mut self.places, widths);
        clear(&mut self.bytes, end.div_ceil(8));
        begin(&mut self.variables, variables);
    }

    /// The number of so many bits of a register from a bit on. Past its end are zeros.
    pub(crate) fn get(&self, register: usize, low: u128, width: u32) -> u128
        requires { IsWidth width }
        ensures is { result ≡ bits_read self.now.cells register low width }
        ensures below { result < 2 ^ width }
    {
        let part = source(&self.places, register, low, width as u128);
        read(&self.bytes, BitIndex::new(part.start), part.width)
    }

    /// Puts the low bits of a number into a register from a bit on.
    pub(crate) fn put(&mut self, register: usize, low: u128, width: u32, value: u128)
        requires width { IsWidth width }
        requires inside { low + width ≤ get_or (widths_in self.old.cells) register 0 }
        ensures is { self.new ≡
            held (written register low (bits width value) self.old.cells) self.old.room }
        ensures widths { widths_in self.new.cells ≡ widths_in self.old.cells }
    {
        let to = target(&self.places, register, low, width as u128);
        write(&mut self.bytes, BitIndex::new(to.start), to.width, value);
    }

    /// Puts a whole number in two's complement into so many bits of a register from a bit on.
    pub(crate) fn fill(&mut self, register: usize, low: u128, width: u128, number: WholeNumber)
        requires { low + width ≤ get_or (widths_in self.old.cells) register 0 }
        ensures is { self.new ≡ held
            (written register low (bits width (residue width (number_of number))) self.old.cells)
            self.old.room }
        ensures widths { widths_in self.new.cells ≡ widths_in self.old.cells }
    {
        let to = target(&self.places, register, low, width);
        put_number(&mut self.bytes, to.start, to.width, number);
    }

    /// Puts so many bits of a register of another frame, from a bit on, into as many of a register
    /// from a bit on as a width.
    pub(crate) fn copy_from(
        &mut self,
        register: usize,
        low: u128,
        width: u128,
        other: &Cells,
        from: usize,
        from_low: u128,
        count: u128,
    )
        requires { low + width ≤ get_or (widths_in self.old.cells) register 0 }
        ensures is { self.new ≡ held (written register low (bits width (bits_read other.now.cells
            from from_low count)) self.old.cells) self.old.room }
        ensures widths { widths_in self.new.cells ≡ widths_in self.old.cells }
    {
        let to = target(&self.places, register, low, width);
        let part = source(&other.places, from, from_low, count.min(width));
        put_padded(
            &mut self.bytes,
            to.start,
            to.width,
            &other.bytes,
            part.start,
            part.width,
        );
    }

    /// The same of a register of this frame. The bits that are put are those before.
    pub(crate) fn copy_within(
        &mut self,
        register: usize,
        low: u128,
        width: u128,
        from: usize,
        from_low: u128,
    )
        requires { low + width ≤ get_or (widths_in self.old.cells) register 0 }
        ensures is { self.new ≡ held (written register low (bits width (bits_read self.old.cells
            from from_low width)) self.old.cells) self.old.room }
        ensures widths { widths_in self.new.cells ≡ widths_in self.old.cells }
    {
        let to = target(&self.places, register, low, width);
        let part = source(&self.places, from, from_low, width);
        copy(
            &mut self.spare,
            BitIndex::new(0),
            &self.bytes,
            BitIndex::new(part.start),
            part.width,
        );
        put_padded(
            &mut self.bytes,
            to.start,
            to.width,
            &self.spare,
            0,
            part.width,
        );
    }

    /// The width of a register. One that is not there has 0.
    pub(crate) fn width(&self, register: usize) -> usize
        ensures { result ≡ get_or (widths_in self.now.cells) register 0 }
    {
        place_of(&self.places, register).width
    }

    /// Makes a register the low bits of a number, with zeros above them.
    pub(crate) fn enter_number(&mut self, register: usize, number: u128)
        ensures { self.new ≡ held (entered_at register number self.old.cells) self.old.room }
    {
        let width = self.width(register) as u128;
        self.fill(register, 0, width, WholeNumber::Natural(number));
    }

    /// Makes a register bits of a register of another frame, with zeros above them.
    pub(crate) fn enter_bits(
        &mut self,
        register: usize,
        other: &Cells,
        from: usize,
        from_low: u128,
        count: u128,
    )
        ensures { self.new ≡ held
            (entered_at register (bits_read other.now.cells from from_low count) self.old.cells)
            self.old.room }
    {
        let width = self.width(register) as u128;
        self.copy_from(register, 0, width, other, from, from_low, count);
    }

    /// Makes a register the bits of these bytes, with zeros above them.
    pub(crate) fn enter_bytes(&mut self, register: usize, bytes: &[u8])
        ensures { self.new ≡ held
            (entered_at register (num (bits_of_bytes bytes.now)) self.old.cells) self.old.room }
    {
        let to = place_of(&self.places, register);
        let count = bytes.len().saturating_mul(8).min(to.width);
        put_padded(&mut self.bytes, to.start, to.width, bytes, 0, count);
    }

    /// The bits of a register, with zeros above them.
    pub(crate) fn register<const B: usize>(&self, register: usize) -> Reg<B>
        ensures { bits_of_bytes result.bytes ≡
            bits (8 * B) (num (get_or self.now.cells.registers register [])) }
    {
        let from = place_of(&self.places, register);
        let count = B.saturating_mul(8).min(from.width);
        let mut result = Reg::zero();
        copy(
            &mut result.bytes,
            BitIndex::new(0),
            &self.bytes,
            BitIndex::new(from.start),
            count,
        );
        result
    }

    /// The number of a variable. One that is not there is 0.
    pub(crate) fn variable(&self, variable: usize) -> u128
        ensures { result ≡ get_or self.now.cells.variables variable 0 }
    {
        match self.variables.get(variable) {
            Some(number) => *number,
            None => 0,
        }
    }

    /// Sets a variable, where it is there.
    pub(crate) fn give(&mut self, variable: usize, number: u128)
        ensures { self.new ≡ held (record {
          registers = self.old.cells.registers;
          variables = set self.old.cells.variables variable number;
        }) self.old.room }
    {
        if variable < self.variables.len() {
            self.variables[variable] = number;
        }
    }
}
