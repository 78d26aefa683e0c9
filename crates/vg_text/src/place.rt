//! Places in a text.

ghost use Rattle.std.specs.Prelude.{◌≡◌, ◌+◌, ◌-◌, ◌<◌, ◌≤◌, ◌^◌, max, length};
ghost use Rattle.vg_text.specs.Place.{place_behind, place_after, end_place};

/// Where a byte stands. Both count from 1, the column in bytes.
#[derive(Clone, Copy, Debug, PartialEq, Eq)]
pub struct Place {
    pub line: u32,
    pub column: u32,
}

/// The place of the byte after `byte`, which stands at `place`.
fn place_behind(place: Place, byte: u8) -> Place
    requires line { place.line < 2 ^ 32 - 1 }
    requires column { place.column < 2 ^ 32 - 1 }
    ensures place { result ≡ place_behind place byte }
    ensures next_line { result.line ≤ place.line + 1 }
    ensures next_column { result.column ≤ max place.column 1 + 1 }
{
    if byte == b'\n' {
        Place {
            line: place.line + 1,
            column: 1,
        }
    } else {
        Place {
            line: place.line,
            column: place.column + 1,
        }
    }
}

/// The place after `bytes`, the first of which stands at `place`.
pub fn place_after(place: Place, bytes: &[u8]) -> Place
    requires line { place.line + length bytes.now < 2 ^ 32 }
    requires column { place.column + length bytes.now + 1 < 2 ^ 32 }
    ensures place { result ≡ place_after place bytes.now }
    ensures line { result.line ≤ place.line + length bytes.now }
    ensures column { result.column ≤ max place.column 1 + length bytes.now }
{
    let mut here = place;
    'bytes: for byte in bytes {
        here = place_behind(here, *byte);
    }
    here
}

/// Where a text ends: one column past its last byte, on that byte's line. An empty text ends where
/// it begins.
#[tactic(auto, unfolding(crate::specs::Place::end_place))]
pub fn end_place(text: &[u8]) -> Place
    requires { length text.now ≤ 2 ^ 31 }
    ensures { result ≡ end_place text.now }
{
    let first = Place { line: 1, column: 1 };
    if text.is_empty() {
        return first;
    }
    let last = place_after(first, &text[..text.len() - 1]);
    Place {
        line: last.line,
        column: last.column + 1,
    }
}
