//! Cuts a whole file into lines, and states the limits of lines and files.

ghost use Rattle.std.specs.Prelude.{◌≡◌, ◌≤◌, length, drop};
ghost use Rattle.std.specs.Iterator.{YieldsFirstBy, item_count};
ghost use Rattle.ssh_text.specs.Text.{lines_of, numbered, line_len};

use memchr::memchr;
use std::marker::Model;

/// The most bytes that a line may have, without its LF and with its CR (this project's rule).
/// sshd(8) allows 8 kilobytes, and sshd 9.2 reads longer lines.
pub const LINE_LIMIT: usize = 65_536;

/// The most bytes that a trust file may have (this project's rule).
pub const FILE_LIMIT: usize = 67_108_864;

/// The lines of a file, each with its number, from 1, and without its LF. The file is cut at every
/// LF; a last piece without one counts if it is not empty. Contracts see the next line's number and
/// the bytes that have not been read yet.
#[derive(Debug, Drop)]
pub struct Lines<'a> {
    number: u64,
    rest: &'a [u8],
}

impl<'a> Model for Lines<'a> {
    ghost use Rattle.std.specs.Prelude.{ℕ, List, ◌+◌, ◌<◌, ◌^◌, length};

    ghost Value = { ℕ × List ℕ };

    ghost view = { λ s. (s.number, s.rest.now) };

    ghost invariant = { λ s. s.number + length s.rest.now < 2 ^ 64 };
}

impl<'a> Lines<'a> {
    /// The lines of these bytes. A file without a byte has none.
    pub fn new(file: &'a [u8]) -> Lines<'a>
        ensures { result ≡ (1, file.now) }
    {
        Lines {
            number: 1,
            rest: file,
        }
    }
}

impl<'a> Iterator for Lines<'a> {
    type Item = (u64, &'a [u8]);

    ghost next_gives = { YieldsFirstBy (λ item. (item.0, item.1.now))
        (λ s. numbered s.0 (lines_of s.1)) };

    ghost remaining = { item_count (λ s. numbered s.0 (lines_of s.1)) };

    #[tactic(auto, using(crate::proofs::LineLemmas::lines_step, crate::proofs::LineLemmas::lines_none))]
    fn next(&mut self) -> Option<(u64, &'a [u8])> {
        if self.rest.is_empty() {
            return None;
        }
        let number = self.number;
        let end = line_len(self.rest);
        let (line, after) = self.rest.split_at(end);
        self.rest = after_newline(after);
        self.number = number + 1;
        Some((number, line))
    }
}

fn after_newline(text: &[u8]) -> &[u8]
    ensures { result.now ≡ drop 1 text.now }
{
    match text {
        [] => text,
        [_, after @ ..] => after,
    }
}

/// How many bytes come before the first LF; all of them if there is none.
pub(crate) fn line_len(text: &[u8]) -> usize
    ensures value { result ≡ line_len text.now }
    ensures bound { result ≤ length text.now }
{
    match memchr(b'\n', text) {
        Some(end) => end,
        None => text.len(),
    }
}
