//! The short pieces, each with as many bytes as are stored at a time.

ghost use Rattle.std.specs.Prelude.{◌≡◌, IfOk};
ghost use Rattle.ssh_page.specs.ShortPieces.{AreShort, IsShort};

use crate::piece::{PIECES, markup};
use crate::room::put;
use std::alloc::{AllocError, Global};

/// How many bytes of a short piece are stored.
const SHORT: usize = 32;

/// The HTML of a piece of at most `SHORT` bytes, and zeros behind it; of a longer one nothing.
#[derive(Clone, Copy, Debug)]
pub(crate) struct ShortPiece {
    pub(crate) html: [u8; SHORT],
    pub(crate) len: usize,
}

/// The piece with this number, counted from 0.
fn short_piece(number: usize) -> ShortPiece
    ensures { IsShort number result }
{
    let text = markup(number);
    let mut html = [0; SHORT];
    let mut len = 0;
    if text.len() <= SHORT {
        len = put(&mut html, 0, text, text.len());
    }
    ShortPiece { html, len }
}

/// All pieces.
pub(crate) fn short_pieces(alloc: Global) -> Result<Vec<ShortPiece>, AllocError>
    ensures { IfOk result (λ pieces. AreShort pieces.items) }
{
    let mut pieces = Vec::new(alloc);
    while pieces.len() < PIECES {
        pieces.push(short_piece(pieces.len()))?;
    }
    Ok(pieces)
}
