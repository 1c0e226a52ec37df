//! The rows that have a key, read off the marked text of the sections: where they are, whose key it
//! is, its fingerprint, and whether its rights are limited. So no memory is needed for them while files
//! are read.

ghost use Rattle.std.specs.Prelude.{◌≡◌, option_map};
ghost use Rattle.ssh_page.specs.KeyRows.{behind, fingerprint, free_pieces, front_text, has_front, has_rights, is_limited, key_row, cell_comment, number_of, print_in, row_place, row_seen};
ghost use Rattle.ssh_page.specs.Shown.{is_printable};

use crate::found_rows::{after_piece, with_digit};
use crate::piece::Piece;
use crate::record::RowPlace;
use memchr::memchr2;
use ssh_print::{ByteClass, class_len, first_set};
use std::simd::prelude::*;

/// A row that has a key.
#[derive(Clone, Copy, Debug)]
pub(crate) struct KeyRow<'a> {
    pub(crate) place: RowPlace,
    /// Its comment, as it stands in the section; no bytes if there is none.
    pub(crate) name: &'a [u8],
    /// The fingerprint of its key.
    pub(crate) key: [u8; 43],
    /// It has not all rights, or something limits it.
    pub(crate) is_limited: bool,
}

/// Printable ASCII.
struct Printable;

impl ByteClass for Printable {
    ghost test = { is_printable };

    fn has(byte: u8) -> bool {
        byte >= 32 && byte < 127
    }

    fn front_len(bytes: &[u8; 16]) -> usize {
        let lanes = u8x16::from_array(*bytes);
        let others = lanes.simd_lt(u8x16::splat(32)) | lanes.simd_ge(u8x16::splat(127));
        first_set(others.to_bitmask())
    }
}

/// What stands behind the first piece of this kind; nothing if there is none.
#[tactic(auto, using(crate::proofs::ScanLemmas::behind_found, crate::proofs::ScanLemmas::behind_none))]
fn behind(marks: &[u8], piece: Piece) -> &[u8]
    ensures { result.now ≡ behind piece marks.now }
{
    match after_piece(marks, piece) {
        Some(rest) => rest,
        None => b"",
    }
}

/// The printable text at the front.
#[tactic(auto, using(crate::proofs::ScanLemmas::front_printable, crate::proofs::ScanLemmas::printable_within))]
fn front_text(marks: &[u8]) -> &[u8]
    ensures { result.now ≡ front_text marks.now }
{
    marks.split_at(class_len::<Printable>(marks)).0
}

/// The number that these digits spell.
fn number_of(digits: &[u8]) -> u64
    ensures { result ≡ number_of digits.now }
{
    let mut number = 0;
    for digit in digits {
        number = with_digit(number, *digit);
    }
    number
}

/// The comment at the front of the cell of a key.
fn cell_comment(cell: &[u8]) -> &[u8]
    ensures { result.now ≡ cell_comment cell.now }
{
    match cell {
        [byte, more @ ..] if *byte == Piece::Code.mark() => front_text(more),
        _ => b"",
    }
}

/// The text of the fingerprint in the cell of a key; nothing if there is none.
fn print_in(cell: &[u8]) -> &[u8]
    ensures { result.now ≡ print_in cell.now }
{
    let print = Piece::Fingerprint.mark();
    let Some(at) = memchr2(Piece::RightsCell.mark(), print, cell) else {
        return b"";
    };
    if cell[at] == print {
        front_text(&cell[at + 1..])
    } else {
        b""
    }
}

/// A text of 43 characters.
fn fingerprint(text: &[u8]) -> Option<[u8; 43]>
    ensures { result ≡ fingerprint text.now }
{
    if text.len() == 43 {
        text.first_chunk().copied()
    } else {
        None
    }
}

/// The place of the row whose first piece stands in front of this.
fn row_place(marks: &[u8]) -> RowPlace
    ensures { result ≡ row_place marks.now }
{
    RowPlace {
        file: number_of(front_text(behind(marks, Piece::FileId))),
        line: number_of(front_text(behind(marks, Piece::LineId))),
    }
}

/// Whether a marked text begins with these pieces.
fn has_front(pieces: &[Piece], marks: &[u8]) -> bool
    ensures { result ≡ has_front pieces.now marks.now }
{
    let mut wanted = pieces;
    let mut rest = marks;
    while let [piece, others @ ..] = wanted {
        match rest {
            [byte, more @ ..] if *byte == piece.mark() => {
                wanted = others;
                rest = more;
            }
            _ => return false,
        }
    }
    true
}

/// Whether rights stand in the cell of the rights. In those of hosts and of lines that cannot be read
/// there are none.
fn has_rights(cell: &[u8]) -> bool
    ensures { result ≡ has_rights cell.now }
{
    has_front(&[Piece::Port], cell)
        || has_front(&[Piece::RightOff], cell)
        || has_front(&[Piece::NoRights], cell)
}

/// What stands in the cells of rights and limits where all rights are on and nothing limits the key.
fn is_unlimited(cell: &[u8]) -> bool
    ensures { result ≡ has_front free_pieces cell.now }
{
    has_front(
        &[
            Piece::Port,
            Piece::Agent,
            Piece::X11,
            Piece::Pty,
            Piece::UserRc,
            Piece::LimitsCell,
            Piece::NoLimit,
        ],
        cell,
    )
}

/// Whether rights stand in the cell of the rights, and they are not all, or something limits the key.
fn is_limited(cell: &[u8]) -> bool
    ensures { result ≡ is_limited cell.now }
{
    has_rights(cell) && !is_unlimited(cell)
}

/// The row whose first piece stands in front of this, if it has a key.
pub(crate) fn key_row(marks: &[u8]) -> Option<KeyRow<'_>>
    ensures { option_map row_seen result ≡ key_row marks.now }
{
    let cell = behind(marks, Piece::KeyCell);
    match fingerprint(print_in(cell)) {
        Some(key) => Some(KeyRow {
            place: row_place(marks),
            name: cell_comment(cell),
            key,
            is_limited: is_limited(behind(cell, Piece::RightsCell)),
        }),
        None => None,
    }
}
