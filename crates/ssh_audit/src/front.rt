//! The front of what the program printed, by which standard error can say more of a fault.

ghost use Rattle.std.specs.Prelude.{◌≡◌, ◌≤◌, ◌+◌, ◌++◌, [], length, take};

use std::marker::Model;

/// How many bytes of what was printed are remembered.
const FRONT_LEN: usize = 64;

/// The front of what was printed. Its value in contracts is these bytes.
#[derive(Drop)]
pub struct Front {
    room: [u8; FRONT_LEN],
    len: usize,
}

impl Model for Front {
    ghost use Rattle.std.specs.Prelude.{◌≤◌, ℕ, List, take};

    ghost Value = { List ℕ };

    ghost view = { λ front. take front.len front.room };

    ghost invariant = { λ front. front.len ≤ 64 };
}

/// Writes these bytes after the first `len`, and returns the new length.
fn put_after(room: &mut [u8], len: usize, bytes: &[u8]) -> usize
    requires { len + length bytes.now ≤ length room.old }
    ensures bytes { take result room.new ≡ take len room.old ++ bytes.now }
    ensures count { result ≡ len + length bytes.now }
{
    let end = len + bytes.len();
    room[len..end].copy_from_slice(bytes);
    end
}

impl Front {
    /// Of nothing.
    pub fn new() -> Self
        ensures { result ≡ [] }
    {
        Front {
            room: [0; FRONT_LEN],
            len: 0,
        }
    }

    /// Its bytes.
    pub fn as_slice(&self) -> &[u8]
        ensures { result.now ≡ self.now }
    {
        &self.room[..self.len]
    }

    /// Remembers what was printed next, as far as there is room for it.
    pub fn extend(&mut self, text: &[u8])
        ensures { self.new ≡ take 64 (self.old ++ text.now) }
    {
        let rest = FRONT_LEN - self.len;
        let front = text.split_at(rest.min(text.len())).0;
        self.len = put_after(&mut self.room, self.len, front);
    }
}
