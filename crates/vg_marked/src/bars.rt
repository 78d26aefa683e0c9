//! Lines of a row.

ghost use Rattle.std.specs.Prelude.{IfOk, ◌≡◌, map};
ghost use Rattle.vg_marked.specs.Bars.{byte_of};

use std::alloc::{AllocError, Global};

fn byte_of(byte: u8) -> u8
    ensures { result ≡ byte_of byte }
{
    if byte == b'|' { b'\n' } else { byte }
}

/// The text of a row, in which a `|` stands for a line feed.
pub fn lines_of(alloc: Global, row: &[u8]) -> Result<Vec<u8>, AllocError>
    ensures { IfOk result (λ text. text.items ≡ map byte_of row.now) }
{
    row.iter().map(|byte| byte_of(*byte)).collect(alloc)
}
