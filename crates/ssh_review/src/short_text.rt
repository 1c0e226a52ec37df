//! A text of a few bytes that is made without a buffer on the heap: the names of rights, a
//! fingerprint.

use std::marker::Model;

/// The most bytes of such a text.
const ROOM: usize = 64;

/// A text of at most 64 bytes. Its value in contracts is these bytes.
#[derive(Drop)]
pub(crate) struct ShortText {
    room: [u8; ROOM],
    len: usize,
}

impl Model for ShortText {
    ghost use Rattle.std.specs.Prelude.{◌≤◌, ℕ, List, take};

    ghost Value = { List ℕ };

    ghost view = { λ t. take t.len t.room };

    ghost invariant = { λ t. t.len ≤ 64 };
}

impl ShortText {
    ghost use Rattle.std.specs.Prelude.{◌≡◌, ◌++◌, ◌+◌, ◌≤◌, [], length};
    ghost use Rattle.ssh_print.specs.DecisionText.{right_word};

    /// No bytes.
    pub(crate) fn new() -> ShortText
        ensures { result ≡ [] }
    {
        ShortText {
            room: [0; ROOM],
            len: 0,
        }
    }

    /// Appends bytes for which there is room.
    pub(crate) fn push(&mut self, bytes: &[u8])
        requires { length self.old + length bytes.now ≤ ROOM }
        ensures { self.new ≡ self.old ++ bytes.now }
    {
        let end = self.len + bytes.len();
        self.room[self.len..end].copy_from_slice(bytes);
        self.len = end;
    }

    /// Appends the name of a right if the right is on.
    pub(crate) fn push_right(&mut self, is_on: bool, name: &[u8])
        requires { length self.old + length name.now ≤ ROOM }
        ensures { self.new ≡ self.old ++ right_word is_on name.now }
    {
        if is_on {
            self.push(name);
        }
    }

    /// The bytes.
    pub(crate) fn as_slice(&self) -> &[u8]
        ensures { result.now ≡ self.now }
    {
        &self.room[..self.len]
    }
}
