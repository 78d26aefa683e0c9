//! What stands before a line.

ghost use Rattle.std.specs.Prelude.{◌≡◌, ◌+◌, ◌≤◌, ◌<◌, length, slice_get, IfOk, MatchOption, Some, None};
ghost use Rattle.std.specs.Option.{option_map};
ghost use Rattle.vg_program.specs.Before.{nothing_before, counts, with_defined, IsSmall};
ghost use Rattle.vg_program.specs.Grammar.{named_in};
ghost use Rattle.vg_program.specs.Valid.{header_of};

use crate::counts::Counts;
use crate::defined::Defined;
use crate::named::Named;
use crate::naming::named_in;
use crate::param::Param;
use std::alloc::{AllocError, Global};
use std::marker::Model;
use vg_pseudo::Header;
use vg_text::byte::is_text;

/// What stands before a line: the parameters, the instructions that may be called, and the widths
/// in bits of the scalars and of the registers that are defined so far.
#[derive(Drop)]
pub(crate) struct Before<'p, 'h> {
    params: &'p [Param],
    headers: &'h [Header],
    scalars: Vec<u32>,
    vectors: Vec<u32>,
}

impl<'p, 'h> Model for Before<'p, 'h> {
    ghost use Rattle.vg_program.specs.Before.{Before, IsSmall};

    ghost Value = { Before };

    ghost view = { λ b. record {
      params = b.params.now;
      headers = b.headers.now;
      scalars = b.scalars.items;
      vectors = b.vectors.items;
    } };

    ghost invariant = { λ b. IsSmall (record {
      params = b.params.now;
      headers = b.headers.now;
      scalars = b.scalars.items;
      vectors = b.vectors.items;
    }) };
}

/// The width of one by its number, with the number.
fn width_in(widths: &[u32], number: u128) -> Option<(u32, u32)>
    requires { length widths.now ≤ 4194304 }
    ensures { result ≡ option_map (λ w. (number, w)) (slice_get widths.now number) }
{
    if number < widths.len() as u128 {
        Some((number as u32, widths[number as usize]))
    } else {
        None
    }
}

/// The first of the instructions of this name.
fn header_in<'h>(headers: &'h [Header], name: &[u8]) -> Option<&'h Header>
    ensures { MatchOption result (header_of headers.now name.now ≡ None)
        (λ h. header_of headers.now name.now ≡ Some h.now) }
{
    let mut rest = headers;
    'headers: while let [header, behind @ ..] = rest {
        if is_text(header.name.bytes(), name) {
            return Some(header);
        }
        rest = behind;
    }
    None
}

impl<'p, 'h> Before<'p, 'h> {
    /// Before the first line. Takes no memory.
    pub(crate) fn new(alloc: Global, params: &'p [Param], headers: &'h [Header]) -> Before<'p, 'h>
        requires { length params.now ≤ 16 }
        ensures { result ≡ nothing_before headers.now params.now }
    {
        Before {
            params,
            headers,
            scalars: Vec::new(alloc),
            vectors: Vec::new(alloc),
        }
    }

    /// How many scalars and registers are defined.
    pub(crate) fn counts(&self) -> Counts
        ensures exact { result ≡ counts self.now }
        ensures small { IsSmall self.now }
    {
        Counts {
            scalars: self.scalars.len() as u64,
            vectors: self.vectors.len() as u64,
        }
    }

    /// What a name stands for among the parameters.
    pub(crate) fn named(&self, name: &[u8]) -> Named
        ensures { result ≡ named_in 0 0 self.now.params name.now }
    {
        named_in(self.params, name)
    }

    /// The width in bits of a scalar, where it is defined, with its number.
    pub(crate) fn scalar(&self, number: u128) -> Option<(u32, u32)>
        ensures { result ≡ option_map (λ w. (number, w)) (slice_get self.now.scalars number) }
    {
        width_in(&self.scalars, number)
    }

    /// The width in bits of a register, where it is defined, with its number.
    pub(crate) fn vector(&self, number: u128) -> Option<(u32, u32)>
        ensures { result ≡ option_map (λ w. (number, w)) (slice_get self.now.vectors number) }
    {
        width_in(&self.vectors, number)
    }

    /// The first of the instructions of this name.
    pub(crate) fn header(&self, name: &[u8]) -> Option<&Header>
        ensures { MatchOption result (header_of self.now.headers name.now ≡ None)
            (λ h. header_of self.now.headers name.now ≡ Some h.now) }
    {
        header_in(self.headers, name)
    }

    /// What stands before the next line, where this line defines so much. Fails for want of memory
    /// alone.
    pub(crate) fn with(self, defined: Defined) -> Result<Before<'p, 'h>, AllocError>
        requires scalars { length self.scalars < 4194304 }
        requires vectors { length self.vectors < 4194304 }
        ensures exact { IfOk result (λ b. b ≡ with_defined self.entry defined) }
        ensures scalars { IfOk result (λ b. length b.scalars ≤ length self.entry.scalars + 1) }
        ensures vectors { IfOk result (λ b. length b.vectors ≤ length self.entry.vectors + 1) }
    {
        let Before {
            params,
            headers,
            mut scalars,
            mut vectors,
        } = self;
        match defined {
            Defined::Nothing => {}
            Defined::Scalar(bits) => scalars.push(bits)?,
            Defined::Vector(bits) => vectors.push(bits)?,
        }
        Ok(Before {
            params,
            headers,
            scalars,
            vectors,
        })
    }
}
