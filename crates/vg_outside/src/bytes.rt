//! Bytes that a collection owns.

ghost use Rattle.std.specs.Prelude.{◌≡◌, IfOk};
ghost use Rattle.vg_outside.specs.Text.{text_or_empty};

use std::alloc::{AllocError, Global};
use std::convert::AsStr;
use std::marker::Model;

/// Bytes of its own. Contracts see them as a list.
#[derive(Drop)]
pub struct Bytes {
    all: Vec<u8>,
}

impl Model for Bytes {
    ghost use Rattle.std.specs.Prelude.{List, ℕ};

    ghost Value = { List ℕ };

    ghost view = { λ s. s.all.items };
}

impl Bytes {
    /// A copy of these bytes.
    pub fn new(alloc: Global, bytes: &[u8]) -> Result<Bytes, AllocError>
        ensures { IfOk result (λ copy. copy ≡ bytes.now) }
    {
        let all = Vec::from_slice(alloc, bytes)?;
        Ok(Bytes { all })
    }

    /// All of the bytes.
    pub fn as_slice(&self) -> &[u8]
        ensures { result.now ≡ self.now }
    {
        self.all.as_slice()
    }
}

/// As text: the empty text where the bytes are none in UTF-8.
impl AsStr for Bytes {
    ghost text = { text_or_empty };

    fn as_str(&self) -> &str {
        match std::str::from_utf8(self.as_slice()) {
            Ok(text) => text,
            Err(_) => "",
        }
    }
}
