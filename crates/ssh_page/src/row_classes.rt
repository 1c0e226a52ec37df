//! What the rows of a file are, by the pieces in their marked text.

ghost use Rattle.std.specs.Prelude.{◌≡◌};
ghost use Rattle.ssh_page.specs.RowClasses.{has_authority, has_piece};

use crate::found_rows::after_piece;
use crate::piece::Piece;

fn has_piece(rows: &[u8], piece: Piece) -> bool
    ensures { result ≡ has_piece piece rows.now }
{
    after_piece(rows, piece).is_some()
}

/// Whether one of these rows, which are marked text, is a certificate authority's.
pub fn has_authority(rows: &[u8]) -> bool
    ensures { result ≡ has_authority rows.now }
{
    has_piece(rows, Piece::AuthorityClass)
}
