//! The value of an option, read in place in its line.

ghost use Rattle.std.specs.Prelude.{◌≡◌, ◌↔◌, length, IfOk, IfSome, IsOk, IsSome, IsTrue, bytes_eq, false};
ghost use Rattle.std.specs.Iterator.{YieldsFirst, item_count};
ghost use Rattle.ssh_options.specs.Expiry.{is_expiry_text};
ghost use Rattle.ssh_options.specs.OptionText.{unescaped};
ghost use Rattle.ssh_options.specs.OptionsInPlace.{has_escape, has_quote, escapes_first};

use crate::expiry_time::is_expiry_text;
use crate::option_text::{begins_with_quote, unescape};
use ssh_text::Bytes;
use std::alloc::{AllocError, Global};
use std::marker::Model;

/// The value of an option: the bytes between its quotes. Contracts see the value without its
/// escapes, in which `\"` is a quote.
#[derive(Debug, Drop)]
pub struct ValueView<'a> {
    quoted: &'a [u8],
}

impl<'a> Model for ValueView<'a> {
    ghost use Rattle.std.specs.Prelude.{List, ℕ};
    ghost use Rattle.ssh_options.specs.OptionText.{unescaped};

    ghost Value = { List ℕ };

    ghost view = { λ v. unescaped v.quoted.now };
}

/// Whether `\"` is among the bytes between quotes.
fn has_escape(quoted: &[u8]) -> bool
    ensures { result ≡ has_escape quoted.now }
{
    for (i, byte) in quoted.iter().enumerate() {
        if *byte == b'\\' && begins_with_quote(&quoted[i + 1..]) {
            return true;
        }
    }
    false
}

impl<'a> ValueView<'a> {
    /// The value of the bytes between quotes.
    pub(crate) fn new(quoted: &'a [u8]) -> ValueView<'a>
        ensures { result ≡ unescaped quoted.entry.now }
    {
        ValueView { quoted }
    }

    /// The value as a slice of its line. `None` where it has an escaped quote, because its bytes
    /// are then not those of the line: use `bytes` or `to_bytes`.
    #[tactic(auto, using(crate::proofs::EscapeLemmas::plain_unescaped, crate::proofs::EscapeLemmas::escape_has_quote))]
    pub fn in_place(&self) -> Option<&'a [u8]>
        ensures value { IfSome result (λ text. text.now ≡ self.now) }
        ensures there { has_quote self.now ≡ false → IsSome result }
    {
        if has_escape(self.quoted) {
            None
        } else {
            Some(self.quoted)
        }
    }

    /// The bytes of the value without its escapes.
    pub fn bytes(&self) -> ValueBytes<'a>
        ensures { result ≡ self.now }
    {
        ValueBytes { rest: self.quoted }
    }

    /// Whether the value is this text.
    pub fn is_text(&self, text: &[u8]) -> bool
        ensures { IsTrue result ↔ (self.now ≡ text.now) }
    {
        is_text(self.bytes(), text)
    }

    /// Whether the value is an expiry time. One with an escaped quote is not, because it has a
    /// quote.
    #[tactic(auto, using(crate::proofs::EscapeLemmas::plain_unescaped, crate::proofs::EscapeLemmas::escape_no_expiry))]
    pub(crate) fn is_expiry_text(&self) -> bool
        ensures { result ≡ is_expiry_text self.now }
    {
        !has_escape(self.quoted) && is_expiry_text(self.quoted)
    }

    /// A copy of the value without its escapes. Fails only when memory cannot be allocated.
    #[tactic(auto, using(crate::proofs::EscapeLemmas::unescaped_none))]
    pub fn to_bytes(&self, alloc: Global) -> Result<Bytes, AllocError>
        ensures value { IfOk result (λ value. value ≡ self.now) }
        // An empty value allocates nothing.
        ensures spare { length self.now ≡ 0 → IsOk result }
    {
        let value = unescape(alloc, self.quoted)?;
        Ok(value)
    }
}

/// Values are equal without their escapes.
impl PartialEq for ValueView<'_> {
    ghost use Rattle.std.specs.Cmp.{partial_equiv_from_equiv};
    ghost use Rattle.std.specs.Cmp.Lexicographic.{nat_list_eq_equiv};
    ghost use Rattle.std.specs.Str.{bytes_eq};

    ghost eq = { bytes_eq };

    ghost laws = { partial_equiv_from_equiv nat_list_eq_equiv };

    fn eq(&self, other: &Self) -> bool
        ensures value { result ≡ bytes_eq self.now other.now }
        ensures same { IsTrue result ↔ (self.now ≡ other.now) }
    {
        are_same_bytes(self.bytes(), other.bytes())
    }
}

impl Eq for ValueView<'_> {
    ghost use Rattle.std.specs.Cmp.Lexicographic.{nat_list_eq_equiv};

    ghost laws = { nat_list_eq_equiv };
}

/// Whether the bytes that have not been read yet are the same.
fn are_same_bytes(bytes: ValueBytes<'_>, mut other: ValueBytes<'_>) -> bool
    ensures { result ≡ bytes_eq bytes.entry other.entry }
{
    for byte in bytes {
        if other.next() != Some(byte) {
            return false;
        }
    }
    other.next().is_none()
}

/// The bytes of a value without its escapes. Contracts see the bytes that have not been read yet.
#[derive(Debug, Drop)]
pub struct ValueBytes<'a> {
    rest: &'a [u8],
}

impl<'a> Model for ValueBytes<'a> {
    ghost use Rattle.std.specs.Prelude.{List, ℕ};
    ghost use Rattle.ssh_options.specs.OptionText.{unescaped};

    ghost Value = { List ℕ };

    ghost view = { λ v. unescaped v.rest.now };
}

/// The bytes without the backslash in front, if that escapes a quote.
fn without_escape(quoted: &[u8]) -> &[u8]
    ensures value { unescaped result.now ≡ unescaped quoted.now }
    ensures plain { escapes_first result.now ≡ false }
{
    match quoted {
        [b'\\', rest @ ..] if begins_with_quote(rest) => rest,
        _ => quoted,
    }
}

impl Iterator for ValueBytes<'_> {
    type Item = u8;

    ghost next_gives = { YieldsFirst (λ bytes. bytes) };

    ghost remaining = { item_count (λ bytes. bytes) };

    fn next(&mut self) -> Option<u8> {
        let [first, rest @ ..] = without_escape(self.rest) else {
            return None;
        };
        self.rest = rest;
        Some(*first)
    }
}

/// Whether the bytes that have not been read yet are this text.
fn is_text(mut bytes: ValueBytes<'_>, text: &[u8]) -> bool
    ensures { result ≡ bytes_eq bytes.entry text.now }
{
    for byte in text {
        if bytes.next() != Some(*byte) {
            return false;
        }
    }
    bytes.next().is_none()
}
