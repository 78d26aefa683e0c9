//! Sets of extensions.

ghost use Rattle.std.specs.Prelude.{⊤, ◌≡◌, ◌^◌, [], ◌∷◌, ◌<◌, codes, option_map, IfSome};
ghost use Rattle.vg_catalog.specs.Extensions.{all_extensions, bits_in, extension_place};

use bitflags::{Flag, Flags};
use vg_text::byte::is_text;

/// A set of extensions. Bit i stands for the extension at place i of their list: SSE2, SSE3, SSSE3,
/// SSE4.1, SSE4.2, AVX, AVX2, AVX_VNNI, AVX512F, AVX512BW.
#[derive(Clone, Copy)]
pub struct Extensions(u16);

impl Extensions {
    const FLAGS: &'static [Flag<Extensions>] = &[
        Flag {
            name: "SSE2",
            value: Extensions(1),
        },
        Flag {
            name: "SSE3",
            value: Extensions(2),
        },
        Flag {
            name: "SSSE3",
            value: Extensions(4),
        },
        Flag {
            name: "SSE4.1",
            value: Extensions(8),
        },
        Flag {
            name: "SSE4.2",
            value: Extensions(16),
        },
        Flag {
            name: "AVX",
            value: Extensions(32),
        },
        Flag {
            name: "AVX2",
            value: Extensions(64),
        },
        Flag {
            name: "AVX_VNNI",
            value: Extensions(128),
        },
        Flag {
            name: "AVX512F",
            value: Extensions(256),
        },
        Flag {
            name: "AVX512BW",
            value: Extensions(512),
        },
    ];
}

impl Flags for Extensions {
    type Bits = u16;

    ghost exact = { ⊤ };

    ghost table = { (codes "SSE2", 1) ∷ (codes "SSE3", 2) ∷ (codes "SSSE3", 4) ∷ (codes "SSE4.1", 8)
        ∷ (codes "SSE4.2", 16) ∷ (codes "AVX", 32) ∷ (codes "AVX2", 64) ∷ (codes "AVX_VNNI", 128)
        ∷ (codes "AVX512F", 256) ∷ (codes "AVX512BW", 512) ∷ [] };

    ghost set_of = { λ e. e.0 };

    fn flags<'a>() -> &'a [Flag<Extensions>] {
        Extensions::FLAGS
    }

    fn bits(&self) -> u16 {
        self.0
    }

    fn from_bits_retain(bits: u16) -> Extensions {
        Extensions(bits)
    }
}

impl Extensions {
    /// The set of all extensions. Takes no memory.
    pub fn every() -> Extensions
        ensures { bits_in result ≡ all_extensions }
    {
        Extensions(1023)
    }

    /// The set of the extension of this name alone. None exactly where no extension has the name.
    /// Takes no memory.
    pub fn from_name(name: &[u8]) -> Option<Extensions>
        ensures bits { option_map bits_in result
            ≡ option_map (λ i. 2 ^ i) (extension_place name.now) }
    {
        let place = extension_place(name)?;
        Some(Extensions(1 << place))
    }
}

/// The place of the extension of this name.
pub(crate) fn extension_place(name: &[u8]) -> Option<u8>
    ensures place { result ≡ extension_place name.now }
    ensures few { IfSome result (λ i. i < 10) }
{
    if is_text(name, b"SSE2") {
        Some(0)
    } else if is_text(name, b"SSE3") {
        Some(1)
    } else if is_text(name, b"SSSE3") {
        Some(2)
    } else if is_text(name, b"SSE4.1") {
        Some(3)
    } else if is_text(name, b"SSE4.2") {
        Some(4)
    } else if is_text(name, b"AVX") {
        Some(5)
    } else if is_text(name, b"AVX2") {
        Some(6)
    } else if is_text(name, b"AVX_VNNI") {
        Some(7)
    } else if is_text(name, b"AVX512F") {
        Some(8)
    } else if is_text(name, b"AVX512BW") {
        Some(9)
    } else {
        None
    }
}
