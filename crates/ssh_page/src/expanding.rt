//! The HTML of a marked text.

ghost use Rattle.std.specs.Prelude.{◌≡◌, ◌++◌, ◌∷◌, ◌≤◌, [], OnOk, drop, length, take};
ghost use Rattle.ssh_page.specs.Expanding.{NoRoom, byte_html, is_own_html, mark_html, page};
ghost use Rattle.ssh_page.specs.Rooms.{html_in};

use crate::piece::{FIRST_MARK, markup};
use crate::room::HtmlRoom;
use ssh_print::{ByteClass, first_set};
use std::alloc::AllocError;
use std::simd::prelude::*;

/// A byte of text, or its reference if it could begin markup or end a value. `itself` is the byte.
fn byte_html(byte: u8, itself: &[u8]) -> &[u8]
    requires { itself.now ≡ byte ∷ [] }
    ensures { result.now ≡ byte_html byte }
{
    match byte {
        b'&' => b"&amp;",
        b'<' => b"&lt;",
        b'>' => b"&gt;",
        b'"' => b"&quot;",
        b'\'' => b"&#39;",
        _ => itself,
    }
}

/// What a byte of a marked text stands for. `itself` is the byte.
fn mark_html(byte: u8, itself: &[u8]) -> &[u8]
    requires { itself.now ≡ byte ∷ [] }
    ensures { result.now ≡ mark_html byte }
{
    if byte < FIRST_MARK {
        byte_html(byte, itself)
    } else {
        markup((byte - FIRST_MARK) as usize)
    }
}

/// Appends the page of a marked text, or of a part of it: the page of two parts is that of the one
/// and then that of the other, so a page can be written in pieces of any length.
pub fn expand(out: &mut Vec<u8>, marks: &[u8]) -> Result<(), AllocError>
    ensures { OnOk result (out.new.items ≡ out.old.items ++ page marks.now) }
{
    for byte in marks {
        out.extend_from_slice(mark_html(*byte, &[*byte]))?;
    }
    Ok(())
}

/// The bytes of a marked text that are their own HTML.
struct OwnHtml;

impl ByteClass for OwnHtml {
    ghost test = { is_own_html };

    fn has(byte: u8) -> bool {
        match byte {
            b'&' | b'<' | b'>' | b'"' | b'\'' => false,
            _ => byte < FIRST_MARK,
        }
    }

    fn front_len(bytes: &[u8; 16]) -> usize {
        let lanes = u8x16::from_array(*bytes);
        let others = lanes.simd_eq(u8x16::splat(b'&'))
            | lanes.simd_eq(u8x16::splat(b'<'))
            | lanes.simd_eq(u8x16::splat(b'>'))
            | lanes.simd_eq(u8x16::splat(b'"'))
            | lanes.simd_eq(u8x16::splat(b'\''))
            | lanes.simd_ge(u8x16::splat(FIRST_MARK));
        first_set(others.to_bitmask())
    }
}

/// Appends the bytes at the front that are their own HTML, sixteen at a time, while sixteen fit, and
/// returns how many these are.
fn push_plain(out: &mut HtmlRoom, marks: &[u8]) -> usize
    ensures html { html_in out.new ≡ html_in out.old ++ page (take result marks.now) }
    ensures within { result ≤ length marks.now }
{
    let mut rest = marks;
    let mut count = 0;
    while let Some((bytes, others)) = rest.split_first_chunk::<16>() {
        let len = OwnHtml::front_len(bytes);
        if !out.store(bytes, len) {
            return count;
        }
        count += len;
        if len < 16 {
            return count;
        }
        rest = others;
    }
    count
}

/// Appends the HTML of the first mark, and returns 1, or 0 if there is no mark or no room.
fn push_mark(out: &mut HtmlRoom, marks: &[u8]) -> usize
    ensures html { html_in out.new ≡ html_in out.old ++ page (take result marks.now) }
    ensures within { result ≤ length marks.now }
    ensures full { result ≡ 0 → NoRoom (html_in out.new) marks.now }
{
    let html = first_html(marks);
    if out.store(html, html.len()) {
        marks.len().min(1)
    } else {
        0
    }
}

/// Appends the HTML of the text at the front: of bytes that are their own HTML, or of the first byte.
/// Returns how many these are: 0 if there is no mark or no room.
fn expand_text(out: &mut HtmlRoom, marks: &[u8]) -> usize
    ensures html { html_in out.new ≡ html_in out.old ++ page (take result marks.now) }
    ensures within { result ≤ length marks.now }
    ensures full { result ≡ 0 → NoRoom (html_in out.new) marks.now }
{
    match push_plain(out, marks) {
        0 => push_mark(out, marks),
        count => count,
    }
}

/// Appends the HTML of a short piece at the front, and returns 1; 0 if there is none or no room.
fn push_short(out: &mut HtmlRoom, marks: &[u8]) -> usize
    ensures html { html_in out.new ≡ html_in out.old ++ page (take result marks.now) }
    ensures within { result ≤ length marks.now }
{
    match marks {
        [byte, ..] if *byte >= FIRST_MARK => {
            if out.store_piece((*byte - FIRST_MARK) as usize) {
                1
            } else {
                0
            }
        }
        _ => 0,
    }
}

/// Appends the HTML of a short piece at the front, or of what is there, and returns how many marks these
/// are: 0 if there is no mark or no room. Pieces are asked for first, since half of the steps meet one.
fn expand_next(out: &mut HtmlRoom, marks: &[u8]) -> usize
    ensures html { html_in out.new ≡ html_in out.old ++ page (take result marks.now) }
    ensures within { result ≤ length marks.now }
    ensures full { result ≡ 0 → NoRoom (html_in out.new) marks.now }
{
    match push_short(out, marks) {
        0 => expand_text(out, marks),
        count => count,
    }
}

/// Appends the HTML of the marks at the front of a marked text, of as many as there is room for, and
/// returns how many these are. Does not allocate.
pub fn expand_front(out: &mut HtmlRoom, marks: &[u8]) -> usize
    ensures html { html_in out.new ≡ html_in out.old ++ page (take result marks.now) }
    ensures within { result ≤ length marks.now }
    ensures full { NoRoom (html_in out.new) (drop result marks.now) }
{
    let mut count = 0;
    while count < marks.len() {
        let taken = expand_next(out, marks.split_at(count).1);
        if taken == 0 {
            return count;
        }
        count += taken;
    }
    count
}

/// The HTML of the first mark.
pub fn first_html(marks: &[u8]) -> &[u8]
    ensures { result.now ≡ page (take 1 marks.now) }
{
    match marks.split_first() {
        Some((byte, _)) => mark_html(*byte, marks.split_at(1).0),
        None => b"",
    }
}
