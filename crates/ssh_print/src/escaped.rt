//! Escaped texts and JSON strings for bytes of any kind.

ghost use Rattle.std.specs.Prelude.{◌≡◌, ◌++◌, OnErr, OnOk, ◌+◌, ◌≤◌, length, take};
ghost use Rattle.std.specs.List.{flat_map};
ghost use Rattle.ssh_print.specs.Texts.{escaped_text, is_plain_byte, escaped_byte};
ghost use Rattle.ssh_print.specs.Strings.{is_verbatim, json_text, quoted_byte};
ghost use Rattle.ssh_wire.specs.Fronts.{Keeps};

use crate::byte_class::{ByteClass, are_all, first_set};
use crate::text::{all_or_nothing, hex_digit, push_escaped};
use std::alloc::AllocError;
use std::marker::Model;
use std::simd::prelude::*;

/// Whether a byte is printed as itself: printable ASCII other than the backslash.
pub(crate) fn is_plain(byte: u8) -> bool
    ensures { result ≡ is_plain_byte byte }
{
    byte >= b' ' && byte < 127 && byte != b'\\'
}

/// The bytes that are printed as themselves.
struct Plain;

impl ByteClass for Plain {
    ghost test = { is_plain_byte };

    fn has(byte: u8) -> bool {
        is_plain(byte)
    }

    fn front_len(bytes: &[u8; 16]) -> usize {
        let lanes = u8x16::from_array(*bytes);
        let others = lanes.simd_lt(u8x16::splat(b' '))
            | lanes.simd_ge(u8x16::splat(127))
            | lanes.simd_eq(u8x16::splat(b'\\'));
        first_set(others.to_bitmask())
    }
}

/// Appends a text as `push_escaped` does, but in one piece if it needs no escapes. On `Err` nothing
/// is changed.
#[tactic(auto, using(crate::proofs::PlainLemmas::plain_shown))]
pub fn push_shown(out: &mut Vec<u8>, text: &[u8]) -> Result<(), AllocError>
    ensures ok { OnOk result (out.new.items ≡ out.old.items ++ escaped_text text.now) }
    ensures err { OnErr result (out.new.items ≡ out.old.items) }
{
    if are_all::<Plain>(text) {
        out.extend_from_slice(text)
    } else {
        push_escaped(out, text)
    }
}

/// The most bytes of a text that an `EscapedPiece` takes.
pub const PIECE_LIMIT: usize = 1024;

/// Room for the escaped bytes of a piece, up to four for each byte.
const ROOM: usize = 4096;

/// The escaped bytes of a short text. Does not allocate. Its value in contracts is these bytes.
#[derive(Drop)]
pub struct EscapedPiece {
    room: [u8; ROOM],
    len: usize,
}

impl Model for EscapedPiece {
    ghost use Rattle.std.specs.Prelude.{◌≤◌, ℕ, List, take};

    ghost Value = { List ℕ };

    ghost view = { λ p. take p.len p.room };

    ghost invariant = { λ p. p.len ≤ 4096 };
}

/// Writes these bytes after the first `len`, and returns the new length.
fn put_after(room: &mut [u8], len: usize, bytes: &[u8]) -> usize
    requires { len + length bytes.now ≤ length room.old }
    ensures bytes { take result room.new ≡ take len room.old ++ bytes.now }
    ensures count { result ≡ len + length bytes.now }
{
    let end = len + bytes.len();
    room[len..end].copy_from_slice(bytes);
    end
}

/// Writes a byte after the first `len`, escaped, and returns the new length.
fn put_escaped_byte(room: &mut [u8], len: usize, byte: u8) -> usize
    requires { len + 4 ≤ length room.old }
    ensures bytes { take result room.new ≡ take len room.old ++ escaped_byte byte }
    ensures count { result ≤ len + 4 }
{
    if is_plain(byte) {
        put_after(room, len, &[byte])
    } else {
        put_after(
            room,
            len,
            &[b'\\', b'x', hex_digit(byte / 16), hex_digit(byte % 16)],
        )
    }
}

impl EscapedPiece {
    /// Escapes a text as `push_escaped` does. It has at most `PIECE_LIMIT` bytes.
    pub fn new(text: &[u8]) -> EscapedPiece
        requires { length text.now ≤ PIECE_LIMIT }
        ensures { result ≡ escaped_text text.now }
    {
        let mut room = [0; ROOM];
        let mut len = 0;
        for byte in text {
            len = put_escaped_byte(&mut room, len, *byte);
        }
        EscapedPiece { room, len }
    }

    /// The escaped text: printable ASCII.
    pub fn as_slice(&self) -> &[u8]
        ensures { result.now ≡ self.now }
    {
        &self.room[..self.len]
    }
}

/// Appends a byte of a JSON string, with a backslash before a quote and before a backslash.
fn push_quoted_byte(out: &mut Vec<u8>, byte: u8) -> Result<(), AllocError>
    ensures ok { OnOk result (out.new.items ≡ out.old.items ++ quoted_byte byte) }
    ensures err { OnErr result (out.new.items ≡ out.old.items) }
{
    if byte == b'"' || byte == b'\\' {
        out.extend_from_slice(&[b'\\', byte])?;
    } else {
        out.push(byte)?;
    }
    Ok(())
}

fn push_quoted_bytes(out: &mut Vec<u8>, text: &[u8]) -> Result<(), AllocError>
    ensures ok { OnOk result (out.new.items ≡ out.old.items ++ flat_map quoted_byte text.now) }
    ensures err { OnErr result (Keeps out.old.items out.new.items) }
{
    for byte in text {
        push_quoted_byte(out, *byte)?;
    }
    Ok(())
}

/// Whether a byte is itself in a JSON string: it needs neither an escape nor a backslash.
fn is_verbatim(byte: u8) -> bool
    ensures { result ≡ is_verbatim byte }
{
    is_plain(byte) && byte != b'"'
}

/// The bytes that are themselves in a JSON string.
struct Verbatim;

impl ByteClass for Verbatim {
    ghost test = { is_verbatim };

    fn has(byte: u8) -> bool {
        is_verbatim(byte)
    }

    fn front_len(bytes: &[u8; 16]) -> usize {
        let lanes = u8x16::from_array(*bytes);
        let others = lanes.simd_lt(u8x16::splat(b' '))
            | lanes.simd_ge(u8x16::splat(127))
            | lanes.simd_eq(u8x16::splat(b'\\'))
            | lanes.simd_eq(u8x16::splat(b'"'));
        first_set(others.to_bitmask())
    }
}

/// Appends what is between the quotes of a JSON string. Bytes that need no backslash go in one
/// piece, and only bytes that need escapes take a buffer of their own.
#[tactic(auto, using(crate::proofs::PlainLemmas::plain_shown, crate::proofs::PlainLemmas::verbatim_shown))]
fn push_string_bytes(out: &mut Vec<u8>, text: &[u8]) -> Result<(), AllocError>
    ensures ok { OnOk result (out.new.items
        ≡ out.old.items ++ flat_map quoted_byte (escaped_text text.now)) }
    ensures err { OnErr result (Keeps out.old.items out.new.items) }
{
    if are_all::<Verbatim>(text) {
        return out.extend_from_slice(text);
    }
    if are_all::<Plain>(text) {
        return push_quoted_bytes(out, text);
    }
    let mut printed = Vec::new(*out.allocator());
    push_escaped(&mut printed, text)?;
    push_quoted_bytes(out, &printed)
}

/// On `Err` a part of it may have been written.
#[tactic(auto, unfolding(crate::specs::Strings::json_text))]
fn push_quoted_text(out: &mut Vec<u8>, text: &[u8]) -> Result<(), AllocError>
    ensures ok { OnOk result (out.new.items ≡ out.old.items ++ json_text text.now) }
    ensures err { OnErr result (Keeps out.old.items out.new.items) }
{
    out.push(b'"')?;
    push_string_bytes(out, text)?;
    out.push(b'"')?;
    Ok(())
}

/// Appends a JSON string of some bytes: their escaped text between quotes, with a backslash before
/// each quote and each backslash. On `Err` nothing is changed.
pub fn push_json_text(out: &mut Vec<u8>, text: &[u8]) -> Result<(), AllocError>
    ensures ok { OnOk result (out.new.items ≡ out.old.items ++ json_text text.now) }
    ensures err { OnErr result (out.new.items ≡ out.old.items) }
{
    let len = out.len();
    let outcome = push_quoted_text(out, text);
    all_or_nothing(out, len, outcome)
}
