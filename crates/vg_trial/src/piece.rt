//! Pieces of lines.

ghost use Rattle.std.specs.Prelude.{◌≡◌, ◌++◌, OnOk, map};
ghost use Rattle.vg_trial.specs.Trial.{piece_text, line_text, piece_seen};

use itoa::Buffer;
use std::alloc::AllocError;

/// A piece of a line.
#[derive(Clone, Copy)]
pub(crate) enum Piece<'a> {
    /// Words as they stand.
    Words(&'a str),
    /// A number in decimal digits.
    Number(u32),
}

fn put_piece(to: &mut Vec<u8>, piece: Piece<'_>) -> Result<(), AllocError>
    ensures { OnOk result (to.new.items ≡ to.old.items ++ piece_text (piece_seen piece.entry)) }
{
    match piece {
        Piece::Words(text) => to.extend_from_slice(text.as_bytes()),
        Piece::Number(number) => {
            let mut buffer = Buffer::new();
            to.extend_from_slice(buffer.format(number).as_bytes())
        }
    }
}

/// Appends a line.
#[tactic(auto, unfolding(crate::specs::Trial::line_text))]
pub(crate) fn put_line(to: &mut Vec<u8>, line: &[Piece<'_>]) -> Result<(), AllocError>
    ensures { OnOk result (to.new.items ≡ to.old.items ++ line_text (map piece_seen line.now)) }
{
    let mut rest = line;
    'pieces: while let [piece, behind @ ..] = rest {
        put_piece(to, *piece)?;
        rest = behind;
    }
    Ok(())
}
