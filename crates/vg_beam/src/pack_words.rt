//! Words that tell packs apart.

ghost use Rattle.std.specs.Prelude.{◌≡◌, ◌++◌, ◌∷◌, IfOk, OnOk, flat_map};
ghost use Rattle.vg_beam.specs.PackWords.{lane_words, words_of};

use std::alloc::{AllocError, Global};
use vg_shapes::Pack;

/// A word for the kind of a pack, and after it those of its units.
fn unit_words(alloc: Global, kind: u32, units: &[u32]) -> Result<Vec<u32>, AllocError>
    ensures { IfOk result (λ words. words.items ≡ kind ∷ units.now) }
{
    let mut words = Vec::new(alloc);
    words.push(kind)?;
    words.extend_from_slice(units)?;
    Ok(words)
}

/// Puts the words of a lane after others.
fn push_lane(words: &mut Vec<u32>, lane: Option<u32>) -> Result<(), AllocError>
    ensures { OnOk result (words.new.items ≡ words.old.items ++ lane_words lane) }
{
    match lane {
        None => words.push(0)?,
        Some(value) => {
            words.push(1)?;
            words.push(value)?;
        }
    }
    Ok(())
}

/// Puts the words of lanes after others.
fn push_lanes(words: &mut Vec<u32>, lanes: &[Option<u32>]) -> Result<(), AllocError>
    ensures { OnOk result (words.new.items ≡ words.old.items ++ flat_map lane_words lanes.now) }
{
    'lanes: for lane in lanes {
        push_lane(words, *lane)?;
    }
    Ok(())
}

/// The words that tell a pack from all others.
pub(crate) fn words_of(alloc: Global, pack: &Pack) -> Result<Vec<u32>, AllocError>
    ensures { IfOk result (λ words. words.items ≡ words_of pack.now) }
{
    match pack {
        Pack::Stores(units) => unit_words(alloc, 0, units.as_slice()),
        Pack::Loads(units) => unit_words(alloc, 1, units.as_slice()),
        Pack::Call { description, lanes } => {
            let mut words = unit_words(alloc, 2, &[*description])?;
            push_lanes(&mut words, lanes.as_slice())?;
            Ok(words)
        }
    }
}
