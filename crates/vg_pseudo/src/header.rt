//! What an entry of an instruction file says before its operation.

ghost use Rattle.std.specs.Prelude.{◌≡◌, IfOk};

use std::alloc::{AllocError, Global};
use vg_base::{Items, Name};

/// A parameter of an instruction.
#[derive(Drop)]
pub struct Param {
    pub name: Name,
    /// The width of the register: 128, 256 or 512 bits.
    pub register: u32,
    /// The width of a lane: 8, 16, 32 or 64 bits.
    pub lane_width: u32,
    /// Whether its lanes are read as signed numbers.
    pub is_signed: bool,
}

/// The immediate of an instruction, and the numbers that it may have: those from `lo` to `hi`.
#[derive(Drop)]
pub struct ImmRange {
    pub name: Name,
    pub lo: u8,
    pub hi: u8,
}

/// What an entry says of its instruction.
pub struct Header {
    pub name: Name,
    /// From one to four, with names that differ from each other, from that of the immediate and
    /// from `dst`.
    pub params: Items<Param>,
    pub imm: Option<ImmRange>,
    /// The width of the result: 128, 256 or 512 bits.
    pub register: u32,
    /// The width of a lane of the result: 8, 16, 32 or 64 bits.
    pub lane_width: u32,
    /// The place of its extension in the list of extensions, from 0.
    pub extension: u8,
    /// From 1 to 1,000.
    pub cost: u32,
}

/// Written out, so that the exits of an owner call it: a derived one would be proved anew at each.
impl Drop for Header {
    fn drop(self) {
        let Header {
            name: _,
            params: _,
            imm: _,
            register: _,
            lane_width: _,
            extension: _,
            cost: _,
        } = self;
    }
}

impl Param {
    /// The same a second time.
    fn copy(&self, alloc: Global) -> Result<Param, AllocError>
        ensures { IfOk result (λ param. param ≡ self.now) }
    {
        let name = self.name.copy(alloc)?;
        Ok(Param {
            name,
            register: self.register,
            lane_width: self.lane_width,
            is_signed: self.is_signed,
        })
    }
}

impl ImmRange {
    /// The same a second time.
    fn copy(&self, alloc: Global) -> Result<ImmRange, AllocError>
        ensures { IfOk result (λ imm. imm ≡ self.now) }
    {
        let name = self.name.copy(alloc)?;
        Ok(ImmRange {
            name,
            lo: self.lo,
            hi: self.hi,
        })
    }
}

/// The same parameters a second time.
fn copy_params(alloc: Global, params: &[Param]) -> Result<Vec<Param>, AllocError>
    ensures { IfOk result (λ copies. copies.items ≡ params.now) }
{
    let mut copies = Vec::new(alloc);
    'params: for param in params {
        let copy = match param.copy(alloc) {
            Ok(copy) => copy,
            Err(error) => return Err(error),
        };
        copies.push(copy)?;
    }
    Ok(copies)
}

/// The same immediate a second time.
fn copy_imm(alloc: Global, imm: &Option<ImmRange>) -> Result<Option<ImmRange>, AllocError>
    ensures { IfOk result (λ copy. copy ≡ imm.now) }
{
    match imm {
        Some(range) => {
            let copy = range.copy(alloc)?;
            Ok(Some(copy))
        }
        None => Ok(None),
    }
}

impl Header {
    /// The same header a second time. Fails for want of memory alone.
    pub fn copy(&self, alloc: Global) -> Result<Header, AllocError>
        ensures same { IfOk result (λ header. header ≡ self.now) }
    {
        let name = self.name.copy(alloc)?;
        let params = copy_params(alloc, self.params.as_slice())?;
        let imm = copy_imm(alloc, &self.imm)?;
        Ok(Header {
            name,
            params: Items::from_vec(params),
            imm,
            register: self.register,
            lane_width: self.lane_width,
            extension: self.extension,
            cost: self.cost,
        })
    }
}
