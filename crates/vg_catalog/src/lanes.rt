//! Registers and their lanes.

ghost use Rattle.std.specs.Prelude.{◌≡◌};
ghost use Rattle.vg_catalog.specs.Headers.{register_named, make_lanes, unsigned_lanes, signed_lanes, whole_lanes, lanes_named};

use crate::words::number_in_word;
use vg_text::byte::is_text;

/// A register of this width, and its lanes.
#[derive(Clone, Copy)]
pub(crate) struct Lanes {
    /// In bits.
    pub(crate) register: u32,
    pub(crate) lane_width: u32,
    pub(crate) is_signed: bool,
}

/// The width of a register.
pub(crate) fn register_named(bytes: &[u8]) -> Option<u32>
    ensures { result ≡ register_named bytes.now }
{
    match number_in_word(bytes) {
        Some(128) => Some(128),
        Some(256) => Some(256),
        Some(512) => Some(512),
        _ => None,
    }
}

fn make_lanes(register: u32, lane_width: u32, is_signed: bool) -> Option<Lanes>
    ensures { result ≡ make_lanes register lane_width is_signed }
{
    Some(Lanes {
        register,
        lane_width,
        is_signed,
    })
}

fn unsigned_lanes(register: u32, bytes: &[u8]) -> Option<Lanes>
    ensures { result ≡ unsigned_lanes register bytes.now }
{
    if is_text(bytes, b"UI8") {
        make_lanes(register, 8, false)
    } else if is_text(bytes, b"UI16") {
        make_lanes(register, 16, false)
    } else if is_text(bytes, b"UI32") {
        make_lanes(register, 32, false)
    } else if is_text(bytes, b"UI64") {
        make_lanes(register, 64, false)
    } else {
        None
    }
}

fn signed_lanes(register: u32, bytes: &[u8]) -> Option<Lanes>
    ensures { result ≡ signed_lanes register bytes.now }
{
    if is_text(bytes, b"SI8") {
        make_lanes(register, 8, true)
    } else if is_text(bytes, b"SI16") {
        make_lanes(register, 16, true)
    } else if is_text(bytes, b"SI32") {
        make_lanes(register, 32, true)
    } else if is_text(bytes, b"SI64") {
        make_lanes(register, 64, true)
    } else {
        None
    }
}

/// Lanes of 64 bits, for the etypes of one width alone.
fn whole_lanes(register: u32, bytes: &[u8]) -> Option<Lanes>
    ensures { result ≡ whole_lanes register bytes.now }
{
    if is_text(bytes, b"M128") && register == 128 {
        make_lanes(register, 64, false)
    } else if is_text(bytes, b"M256") && register == 256 {
        make_lanes(register, 64, false)
    } else if is_text(bytes, b"M512") && register == 512 {
        make_lanes(register, 64, false)
    } else {
        None
    }
}

/// The lanes of an etype in a register of this width.
pub(crate) fn lanes_named(register: u32, bytes: &[u8]) -> Option<Lanes>
    ensures { result ≡ lanes_named register bytes.now }
{
    if let Some(lanes) = unsigned_lanes(register, bytes) {
        return Some(lanes);
    }
    match signed_lanes(register, bytes) {
        Some(lanes) => Some(lanes),
        None => whole_lanes(register, bytes),
    }
}
