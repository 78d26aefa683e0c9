//! The words behind the name of the program.

ghost use Rattle.std.specs.Prelude.{◌≡◌, IfOk, drop, map, string_bytes};

use std::alloc::{AllocError, Global};
use std::env::Args;
use vg_outside::Words;

/// The words behind the first, each as it is and in their order. Fails for want of memory alone.
pub(crate) fn words_behind_name(alloc: Global, all: Args) -> Result<Words, AllocError>
    ensures { IfOk result (λ words. words ≡ map string_bytes (drop 1 all.rest.items)) }
{
    let mut words = Words::new(alloc);
    let mut behind = all;
    let _ = behind.next();
    'words: for word in behind {
        words.push(word.as_bytes())?;
    }
    Ok(words)
}
