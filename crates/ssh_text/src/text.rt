//! Cuts a line into words, blanks and a comment, and holds copied bytes.

ghost use Rattle.std.specs.Prelude.{◌≡◌, ◌≤◌, length, take, drop, ◌↔◌, IsTrue};
ghost use Rattle.ssh_text.specs.Text.{is_blank, is_trailing, without_last, ends_with, skip_blanks, first_word, after_word, without_trailing, comment_of};

use memchr::memchr2;
use std::marker::Model;

/// A space or a tab.
pub fn is_blank(byte: u8) -> bool
    ensures { result ≡ is_blank byte }
{
    byte == b' ' || byte == b'\t'
}

/// A space, a tab or a CR.
fn is_trailing(byte: u8) -> bool
    ensures { result ≡ is_trailing byte }
{
    is_blank(byte) || byte == b'\r'
}

/// The text without this byte at its end, if it ends with it. Only one is removed.
pub fn without_last(byte: u8, text: &[u8]) -> &[u8]
    ensures { result.now ≡ without_last byte text.now }
{
    let [front @ .., last] = text else {
        return text;
    };
    if *last == byte { front } else { text }
}

/// Whether the text ends with this byte.
pub fn ends_with(byte: u8, text: &[u8]) -> bool
    ensures { result ≡ ends_with byte text.now }
{
    let [.., last] = text else {
        return false;
    };
    *last == byte
}

/// The text without the blanks at its front.
pub fn skip_blanks(text: &[u8]) -> &[u8]
    ensures { result.now ≡ skip_blanks text.now }
{
    for (i, byte) in text.iter().enumerate() {
        if !is_blank(*byte) {
            return &text[i..];
        }
    }
    &[]
}

/// How many bytes come before the first blank.
fn word_len(text: &[u8]) -> usize
    ensures word { take result text.now ≡ first_word text.now }
    ensures rest { drop result text.now ≡ after_word text.now }
    ensures bound { result ≤ length text.now }
{
    match memchr2(b' ', b'\t', text) {
        Some(end) => end,
        None => text.len(),
    }
}

/// The first word, and what follows it, from the blank on.
pub fn split_word(text: &[u8]) -> (&[u8], &[u8])
    ensures word { result.0.now ≡ first_word text.now }
    ensures rest { result.1.now ≡ after_word text.now }
{
    text.split_at(word_len(text))
}

/// The text without the spaces, tabs and CRs at its end.
fn without_trailing(text: &[u8]) -> &[u8]
    ensures { result.now ≡ without_trailing text.now }
{
    let mut kept = text;
    while let [front @ .., last] = kept {
        if !is_trailing(*last) {
            break;
        }
        kept = front;
    }
    kept
}

/// The comment in what follows the base64 field: without blanks in front, and without spaces, tabs
/// and CRs at the end.
pub fn comment_in(text: &[u8]) -> &[u8]
    ensures { result.now ≡ comment_of text.now }
{
    without_trailing(skip_blanks(text))
}

/// Bytes in allocated memory. Contracts see them as a list.
#[derive(Debug, Drop)]
pub struct Bytes {
    kept: Vec<u8>,
}

impl Model for Bytes {
    ghost use Rattle.std.specs.Prelude.{List, ℕ};

    ghost Value = { List ℕ };

    ghost view = { λ b. b.kept.items };
}

impl Bytes {
    /// The bytes of this vector, which is not copied.
    pub fn new(kept: Vec<u8>) -> Bytes
        ensures { result ≡ kept.items }
    {
        Bytes { kept }
    }

    /// The bytes.
    pub fn as_slice(&self) -> &[u8]
        ensures { result.now ≡ self.now }
    {
        &self.kept
    }
}

/// Equal where the bytes are equal; the allocations do not matter.
impl PartialEq for Bytes {
    ghost use Rattle.std.specs.Cmp.{partial_equiv_from_equiv};
    ghost use Rattle.std.specs.Cmp.Lexicographic.{nat_list_eq_equiv};
    ghost use Rattle.std.specs.Str.{bytes_eq};

    ghost eq = { bytes_eq };

    ghost laws = { partial_equiv_from_equiv nat_list_eq_equiv };

    fn eq(&self, other: &Self) -> bool
        ensures same { IsTrue result ↔ (self.now ≡ other.now) }
    {
        self.as_slice() == other.as_slice()
    }
}

impl Eq for Bytes {
    ghost use Rattle.std.specs.Cmp.Lexicographic.{nat_list_eq_equiv};

    ghost laws = { nat_list_eq_equiv };
}
