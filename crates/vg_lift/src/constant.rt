//! Constants as bits of registers, in pieces of 64.

ghost use Rattle.std.specs.Prelude.{◌≡◌, ◌+◌, ◌-◌, ◌*◌, ◌%◌, ◌/◌, ◌^◌, ◌++◌, ◌<◌, ◌≤◌, IfOk, OnOk, length, min};
ghost use Rattle.vg_base.specs.Number.{residue};
ghost use Rattle.vg_terms.specs.Term.{constant};
ghost use Rattle.vg_pool.specs.Pool.{Keeps, StandsFor};
ghost use Rattle.vg_script.specs.Views.{number_of};
ghost use Rattle.vg_lift.specs.Gather.{bits_from};
ghost use Rattle.vg_lift.specs.LaneTerm.{piece, pieces};
ghost use Rattle.vg_lift.specs.Pieces.{IsPiece};
ghost use Rattle.vg_lift.specs.Views.{BitsFit, bits_of};

use crate::bit::Bit;
use crate::putting::bits_of_node;
use std::alloc::{AllocError, Global};
use vg_base::Items;
use vg_pool::Pool;
use vg_script::WholeNumber;
use vg_terms::make_const;

/// A number without its lowest bits.
#[tactic(auto, using(crate::proofs::Constants::none_left))]
fn shifted(number: u128, places: u32) -> u128
    ensures { result ≡ number / 2 ^ places }
{
    if places < 128 { number >> places } else { 0 }
}

/// Bits of a number from a bit on, at most 64; past bit 127 there are zeros.
fn digits(number: u128, first: u32, count: u32) -> u128
    requires { count ≤ 64 }
    ensures { result ≡ number / 2 ^ first % 2 ^ count }
{
    shifted(number, first) % (1u128 << count)
}

/// Bits of a whole number in two's complement from a bit on, at most 64.
fn piece_value(number: WholeNumber, first: u32, count: u32) -> u128
    requires { count ≤ 64 }
    ensures is { (w : _) → first + count ≤ w → result ≡ residue w (number_of number) / 2 ^ first % 2
        ^ count }
    ensures small { result < 2 ^ count }
{
    match number {
        WholeNumber::Natural(n) => digits(n, first, count),
        WholeNumber::Negative(n) => (1u128 << count) - 1 - digits(n, first, count),
    }
}

/// A piece of a constant: how many bits it has, its value, and its bits.
#[derive(Drop)]
pub struct Piece {
    pub(crate) count: u32,
    pub(crate) value: u128,
    pub(crate) bits: Items<Bit>,
}

/// The piece of so many bits, at most 64, and this value.
#[tactic(auto, using(crate::proofs::Constants::built_is))]
fn build_piece(pool: &mut Pool, alloc: Global, count: u32, value: u128) -> Result<Piece, AllocError>
    requires some { 0 < count }
    requires few { count ≤ 64 }
    requires small { value < 2 ^ count }
    ensures is { IfOk result (λ p. IsPiece pool.new p) }
    ensures count { IfOk result (λ p. p.count ≡ count) }
    ensures value { IfOk result (λ p. p.value ≡ value) }
    ensures keeps { Keeps pool.old pool.new }
{
    let node = pool.intern(&make_const(count, value))?;
    let bits = bits_of_node(pool, alloc, node, count)?;
    Ok(Piece { count, value, bits })
}

/// The piece of so many bits, at most 64, and this value, which may be the last one.
fn next_piece(
    pool: &mut Pool,
    alloc: Global,
    last: Piece,
    count: u32,
    value: u128,
) -> Result<Piece, AllocError>
    requires last { IsPiece pool.old last }
    requires some { 0 < count }
    requires few { count ≤ 64 }
    requires small { value < 2 ^ count }
    ensures is { IfOk result (λ p. IsPiece pool.new p) }
    ensures count { IfOk result (λ p. p.count ≡ count) }
    ensures value { IfOk result (λ p. p.value ≡ value) }
    ensures keeps { Keeps pool.old pool.new }
{
    if last.count == count && last.value == value {
        Ok(last)
    } else {
        build_piece(pool, alloc, count, value)
    }
}

/// Appends the piece of a constant of a width that begins at a bit, and answers it.
#[tactic(auto, using(crate::proofs::Constants::piece_appended, crate::proofs::Constants::piece_fit, crate::proofs::Constants::piece_is))]
fn push_piece(
    pool: &mut Pool,
    alloc: Global,
    bits: &mut Vec<Bit>,
    last: Piece,
    number: WholeNumber,
    width: u32,
    first: u32,
) -> Result<Piece, AllocError>
    requires inside { first < width }
    requires whole { first % 64 ≡ 0 }
    requires bits { BitsFit pool.old bits.old.items }
    requires last { IsPiece pool.old last }
    ensures is { OnOk result (bits_of pool.new bits.new.items ≡ bits_of pool.old bits.old.items ++
        bits_from (piece width (residue width (number_of number)) first) 0 (min 64 (width -
        first))) }
    ensures fit { OnOk result (BitsFit pool.new bits.new.items) }
    ensures last { IfOk result (λ p. IsPiece pool.new p) }
    ensures keeps { Keeps pool.old pool.new }
{
    let count = (width - first).min(64);
    let value = piece_value(number, first, count);
    let next = next_piece(pool, alloc, last, count, value)?;
    bits.extend_from_slice(next.bits.as_slice())?;
    Ok(next)
}

/// The bits of a constant of so many bits, in pieces of 64 from the low end.
#[tactic(auto, using(crate::proofs::Constants::constant_length, crate::proofs::Constants::pieces_end))]
pub(crate) fn constant_bits(
    pool: &mut Pool,
    alloc: Global,
    number: WholeNumber,
    width: u32,
) -> Result<Items<Bit>, AllocError>
    ensures is { IfOk result (λ v. bits_of pool.new v ≡
        pieces width (residue width (number_of number)) 0 width) }
    ensures fit { IfOk result (λ v. BitsFit pool.new v) }
    ensures count { IfOk result (λ v. length v ≡ width) }
    ensures keeps { Keeps pool.old pool.new }
{
    let mut all = Vec::with_capacity(alloc, width as usize)?;
    let mut last = Piece {
        count: 0,
        value: 0,
        bits: Items::from_vec(Vec::new(alloc)),
    };
    'pieces: for piece in 0..width.div_ceil(64) {
        last = push_piece(pool, alloc, &mut all, last, number, width, piece * 64)?;
    }
    Ok(Items::from_vec(all))
}
