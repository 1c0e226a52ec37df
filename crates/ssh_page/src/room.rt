//! Room for the HTML that is written next. Short pieces and texts are stored a fixed number of bytes at
//! a time, which takes no call: what is too much is overwritten by what comes next.

ghost use Rattle.std.specs.Prelude.{◌≡◌, ◌≤◌, ◌+◌, ◌++◌, length, take};
ghost use Rattle.ssh_page.specs.ShortPieces.{AreShort};

use crate::short_piece::{ShortPiece, short_pieces};
use std::alloc::{AllocError, Global};

/// How many bytes a room holds. All pieces fit. In a file of Linux's ext4 16 writes of 4,096 bytes cost
/// more than twice what one of 65,536 does.
const ROOM: usize = 65536;

/// Stores some bytes in a room behind the first `at`, and returns where the first `len` of them end.
pub(crate) fn put(room: &mut [u8], at: usize, bytes: &[u8], len: usize) -> usize
    requires fit { at + length bytes.now ≤ length room.old }
    requires within { len ≤ length bytes.now }
    ensures bytes { take result room.new ≡ take at room.old ++ take len bytes.now }
    ensures count { result ≡ at + len }
    ensures whole { length room.new ≡ length room.old }
{
    room[at..at + bytes.len()].copy_from_slice(bytes);
    at + len
}

/// Room for HTML, and the pieces that are stored there.
#[derive(Debug, Drop)]
pub struct HtmlRoom {
    bytes: Vec<u8>,
    len: usize,
    pieces: Vec<ShortPiece>,
    ghost whole: { length bytes.items ≡ 65536 },
    ghost within: { len ≤ 65536 },
    ghost short: { AreShort pieces.items },
}

impl HtmlRoom {
    ghost use Rattle.std.specs.Prelude.{◌≡◌, ◌<◌, ◌≤◌, ◌+◌, ◌++◌, [], IfOk, false, length, take, true};
    ghost use Rattle.ssh_page.specs.Pieces.{markup_at};
    ghost use Rattle.ssh_page.specs.Rooms.{html_in};

    /// An empty room.
    pub fn new(alloc: Global) -> Result<HtmlRoom, AllocError>
        ensures { IfOk result (λ room. html_in room ≡ []) }
    {
        let mut bytes = Vec::new(alloc);
        bytes.resize(ROOM, 0)?;
        let pieces = short_pieces(alloc)?;
        Ok(HtmlRoom {
            bytes,
            len: 0,
            pieces,
        })
    }

    /// Makes the room empty again.
    pub fn clear(&mut self)
        ensures { html_in self.new ≡ [] }
    {
        self.len = 0;
    }

    /// The HTML in the room.
    pub fn as_slice(&self) -> &[u8]
        ensures { result.now ≡ html_in self.now }
    {
        self.bytes.split_at(self.len).0
    }

    /// Stores some bytes if there is room for all of them, and appends the first `len`.
    pub(crate) fn store(&mut self, bytes: &[u8], len: usize) -> bool
        requires { len ≤ length bytes.now }
        ensures ok { result ≡ true → html_in self.new ≡ html_in self.old ++ take len bytes.now }
        ensures same { result ≡ false → html_in self.new ≡ html_in self.old }
        ensures full { result ≡ false → 65536 < length (html_in self.old) + length bytes.now }
    {
        if bytes.len() > ROOM - self.len {
            return false;
        }
        self.len = put(&mut self.bytes, self.len, bytes, len);
        true
    }

    /// Appends the HTML of the piece with this number if it is a short one and there is room.
    pub(crate) fn store_piece(&mut self, number: usize) -> bool
        ensures ok { result ≡ true → html_in self.new ≡ html_in self.old ++ markup_at number }
        ensures same { result ≡ false → html_in self.new ≡ html_in self.old }
    {
        match self.pieces.get(number).copied() {
            Some(piece) if piece.len > 0 => self.store(&piece.html, piece.len),
            _ => false,
        }
    }
}
