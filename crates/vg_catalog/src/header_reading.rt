//! Reads the header of an entry.

ghost use Rattle.std.specs.Prelude.{◌≡◌, ◌≤◌, ◌∷◌, [], vec_len};
ghost use Rattle.std.specs.Str.{bytes_eq};
ghost use Rattle.vg_text.specs.Lexing.{spelled_of};
ghost use Rattle.vg_catalog.specs.Gives.{Reads};
ghost use Rattle.vg_catalog.specs.Lexing.{left_of};
ghost use Rattle.vg_catalog.specs.Headers.{register_at, etype_at, lanes_at, is_param, is_operand_name, operand_at, param_at, params_from, params_at, range_at, imm_at, result_at, extension_fault, extension_at, cost_at, closing_at, entry_name_at, header_at};
ghost use Rattle.vg_catalog.specs.Catalogs.{entries_in};
ghost use Rattle.vg_catalog.specs.Entries.{is_known};

use crate::catalog::Catalog;
use crate::extensions::extension_place;
use crate::fault::CatalogFault;
use crate::lanes::{Lanes, lanes_named, register_named};
use crate::reader::Reader;
use std::alloc::Global;
use vg_base::{Items, Name};
use vg_pseudo::{Header, ImmRange, Param, is_free};
use vg_text::byte::is_text;
use vg_text::lexer::Word;

/// What stands after the parameters and the immediate.
#[derive(Clone, Copy)]
pub(crate) struct Closing {
    pub(crate) lanes: Lanes,
    pub(crate) extension: u8,
    pub(crate) cost: u32,
}

/// The width of a register in bits: 128, 256 or 512; else `Header` at the word.
fn register(reader: &mut Reader<'_>) -> Result<u32, CatalogFault>
    ensures read { Reads (λ n. n) (left_of reader.new) result (register_at (left_of reader.old)) }
{
    let word = reader.next()?;
    match register_named(word.bytes) {
        Some(register) => Ok(register),
        None => Err(CatalogFault::Header { place: word.place }),
    }
}

/// An etype of a register of this width.
fn etype(register: u32, reader: &mut Reader<'_>) -> Result<Lanes, CatalogFault>
    ensures read { Reads (λ l. l) (left_of reader.new) result
        (etype_at register (left_of reader.old)) }
{
    let word = reader.next()?;
    match lanes_named(register, word.bytes) {
        Some(lanes) => Ok(lanes),
        None => Err(CatalogFault::Header { place: word.place }),
    }
}

/// `width etype`
#[tactic(auto, unfolding(crate::specs::Headers::lanes_at))]
fn lanes(reader: &mut Reader<'_>) -> Result<Lanes, CatalogFault>
    ensures read { Reads (λ l. l) (left_of reader.new) result (lanes_at (left_of reader.old)) }
{
    let register = register(reader)?;
    etype(register, reader)
}

/// Whether a parameter has this name.
fn is_param(params: &[Param], name: &[u8]) -> bool
    ensures { result ≡ is_param params.now name.now }
{
    params.iter().any(|param| is_text(param.name.bytes(), name))
}

/// Whether an operand may have this name after these parameters.
fn is_operand_name(params: &[Param], name: &[u8]) -> bool
    ensures { result ≡ is_operand_name params.now name.now }
{
    is_free(name) && !is_text(name, b"dst") && !is_param(params, name)
}

/// The name of an operand.
fn operand<'a>(params: &[Param], reader: &mut Reader<'a>) -> Result<Word<'a>, CatalogFault>
    ensures read { Reads spelled_of (left_of reader.new) result
        (operand_at params.now (left_of reader.old)) }
{
    let word = reader.next()?;
    if is_operand_name(params, word.bytes) {
        Ok(word)
    } else {
        Err(CatalogFault::Header { place: word.place })
    }
}

/// A parameter after PARAM.
#[tactic(auto, unfolding(crate::specs::Headers::param_at))]
fn param(alloc: Global, before: &[Param], reader: &mut Reader<'_>) -> Result<Param, CatalogFault>
    ensures read { Reads (λ p. p) (left_of reader.new) result
        (param_at before.now (left_of reader.old)) }
{
    let word = operand(before, reader)?;
    let lanes = lanes(reader)?;
    Ok(Param {
        name: Name::new(alloc, word.bytes)?,
        register: lanes.register,
        lane_width: lanes.lane_width,
        is_signed: lanes.is_signed,
    })
}

/// The parameters after the first, four at most in all.
fn more_params(
    alloc: Global,
    first: Param,
    reader: &mut Reader<'_>,
) -> Result<Vec<Param>, CatalogFault>
    ensures read { Reads (λ v. v.items) (left_of reader.new) result
        (params_from 3 (first ∷ []) (left_of reader.old)) }
{
    let mut done = Vec::new(alloc);
    done.push(first)?;
    'params: while done.len() < 4 {
        let more = match reader.accept(b"PARAM") {
            Ok(more) => more,
            Err(fault) => return Err(fault),
        };
        if !more {
            return Ok(done);
        }
        match param(alloc, done.as_slice(), reader) {
            Ok(param) => done.push(param)?,
            Err(fault) => return Err(fault),
        }
    }
    Ok(done)
}

/// One to four parameters.
#[tactic(auto, unfolding(crate::specs::Headers::params_at))]
fn params(alloc: Global, reader: &mut Reader<'_>) -> Result<Vec<Param>, CatalogFault>
    ensures read { Reads (λ v. v.items) (left_of reader.new) result
        (params_at (left_of reader.old)) }
{
    let _word = reader.expect(b"PARAM")?;
    let first = param(alloc, &[], reader)?;
    more_params(alloc, first, reader)
}

/// An immediate after IMM.
#[tactic(auto, unfolding(crate::specs::Headers::range_at))]
fn range(alloc: Global, params: &[Param], reader: &mut Reader<'_>) -> Result<ImmRange, CatalogFault>
    ensures read { Reads (λ i. i) (left_of reader.new) result
        (range_at params.now (left_of reader.old)) }
{
    let word = operand(params, reader)?;
    let lo = reader.number(0, 255)?;
    let _to = reader.expect(b"to")?;
    let hi = reader.number(lo, 255)?;
    Ok(ImmRange {
        name: Name::new(alloc, word.bytes)?,
        lo: lo as u8,
        hi: hi as u8,
    })
}

/// An immediate, if there is one.
#[tactic(auto, unfolding(crate::specs::Headers::imm_at))]
fn imm(
    alloc: Global,
    params: &[Param],
    reader: &mut Reader<'_>,
) -> Result<Option<ImmRange>, CatalogFault>
    ensures read { Reads (λ i. i) (left_of reader.new) result
        (imm_at params.now (left_of reader.old)) }
{
    if !reader.accept(b"IMM")? {
        return Ok(None);
    }
    let range = range(alloc, params, reader)?;
    Ok(Some(range))
}

/// `RESULT dst width etype`
#[tactic(auto, unfolding(crate::specs::Headers::result_at))]
fn result_lanes(reader: &mut Reader<'_>) -> Result<Lanes, CatalogFault>
    ensures read { Reads (λ l. l) (left_of reader.new) result (result_at (left_of reader.old)) }
{
    let _word = reader.expect(b"RESULT")?;
    let _name = reader.expect(b"dst")?;
    lanes(reader)
}

/// The fault of a word that names no extension.
fn extension_fault(word: Word<'_>) -> CatalogFault
    ensures { result ≡ extension_fault (spelled_of word.entry) }
{
    if word.is_end {
        CatalogFault::Header { place: word.place }
    } else {
        CatalogFault::ExtensionUnknown { place: word.place }
    }
}

/// `EXTENSION name`
#[tactic(auto, unfolding(crate::specs::Headers::extension_at))]
fn extension(reader: &mut Reader<'_>) -> Result<u8, CatalogFault>
    ensures read { Reads (λ n. n) (left_of reader.new) result (extension_at (left_of reader.old)) }
{
    let _word = reader.expect(b"EXTENSION")?;
    let name = reader.next()?;
    match extension_place(name.bytes) {
        Some(place) => Ok(place),
        None => Err(extension_fault(name)),
    }
}

/// `COST n`
#[tactic(auto, unfolding(crate::specs::Headers::cost_at))]
fn cost(reader: &mut Reader<'_>) -> Result<u32, CatalogFault>
    ensures read { Reads (λ n. n) (left_of reader.new) result (cost_at (left_of reader.old)) }
{
    let _word = reader.expect(b"COST")?;
    reader.number(1, 1000)
}

/// What stands after the parameters and the immediate, up to OPERATION.
#[tactic(auto, unfolding(crate::specs::Headers::closing_at))]
fn closing_words(reader: &mut Reader<'_>) -> Result<Closing, CatalogFault>
    ensures read { Reads (λ c. c) (left_of reader.new) result (closing_at (left_of reader.old)) }
{
    let lanes = result_lanes(reader)?;
    let extension = extension(reader)?;
    let cost = cost(reader)?;
    let _word = reader.expect(b"OPERATION")?;
    Ok(Closing {
        lanes,
        extension,
        cost,
    })
}

/// The name of an entry, which no entry before has.
fn entry_name<'a>(catalog: &Catalog, reader: &mut Reader<'a>) -> Result<Word<'a>, CatalogFault>
    ensures read { Reads spelled_of (left_of reader.new) result
        (entry_name_at (is_known (entries_in catalog.now)) (left_of reader.old)) }
{
    let word = reader.next()?;
    let place = word.place;
    if !is_free(word.bytes) {
        return Err(CatalogFault::Header { place });
    }
    if catalog.is_known(word.bytes) {
        return Err(CatalogFault::DuplicateName { place });
    }
    Ok(word)
}

/// A header, up to the operation.
#[tactic(auto, unfolding(crate::specs::Headers::header_at))]
pub(crate) fn read_header(
    alloc: Global,
    catalog: &Catalog,
    reader: &mut Reader<'_>,
) -> Result<Header, CatalogFault>
    ensures read { Reads (λ h. h) (left_of reader.new) result
        (header_at (is_known (entries_in catalog.now)) (left_of reader.old)) }
{
    let _word = reader.expect(b"INSTRUCTION")?;
    let name = entry_name(catalog, reader)?;
    let params = params(alloc, reader)?;
    let imm = imm(alloc, params.as_slice(), reader)?;
    let closing = closing_words(reader)?;
    Ok(Header {
        name: Name::new(alloc, name.bytes)?,
        params: Items::from_vec(params),
        imm,
        register: closing.lanes.register,
        lane_width: closing.lanes.lane_width,
        extension: closing.extension,
        cost: closing.cost,
    })
}
