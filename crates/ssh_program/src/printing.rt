//! Writes responses to a writer, without memory allocation.

ghost use Rattle.std.specs.Prelude.{◌≡◌, ◌++◌, OnErr, OnOk, codes};
ghost use Rattle.std.specs.Fmt.{decimal};
ghost use Rattle.std.specs.List.{flat_map};
ghost use Rattle.ssh_program.specs.Account.{NoneFailed};
ghost use Rattle.ssh_program.specs.Printing.{Breaks, TakesAll, WritesResponse};
ghost use Rattle.ssh_program.specs.Writing.{IsMade};
ghost use Rattle.ssh_print.specs.Responses.{Response as Shown, out_of_memory};
ghost use Rattle.ssh_print.specs.DecisionText.{evidence_line, evidence_lines};
ghost use Rattle.ssh_print.specs.ResponseView.{response};
ghost use Rattle.ssh_print.specs.TextParts.{part_bytes, text_bytes};
ghost use Rattle.ssh_print.specs.Texts.{escaped_text, hex_digits, hex_text};

use crate::sink::Sink;
use itoa::Buffer;
use ssh_offers::Signed;
use ssh_print::{EscapedPiece, FAULT, HexPiece, PIECE_LIMIT, Part, Response, Text};
use std::alloc::AllocError;
use std::io::{Error, ErrorKind, Result};

/// Writes the bytes. After an `Err`, by which a write failed, a front of them was taken that is not
/// the whole.
pub(crate) fn put_bytes<W: Sink>(writer: &mut W, bytes: &[u8]) -> Result<()>
    requires { NoneFailed (W.account writer.old) }
    ensures ok { OnOk result (TakesAll (W.account writer.old) (W.account writer.new) bytes.now) }
    ensures err { OnErr result (Breaks (W.account writer.old) (W.account writer.new) bytes.now) }
{
    let mut rest = bytes;
    while !rest.is_empty() {
        match writer.put(rest) {
            Ok(0) => return Err(Error::from(ErrorKind::WriteZero)),
            Ok(n) => rest = &rest[n..],
            Err(error) => return Err(error),
        }
    }
    Ok(())
}

/// Writes a file name, escaped so that it cannot forge a line of an answer. A name has any length,
/// so a piece of it at a time is escaped in a buffer.
fn put_name<W: Sink>(writer: &mut W, name: &[u8]) -> Result<()>
    requires { NoneFailed (W.account writer.old) }
    ensures ok { OnOk result (TakesAll (W.account writer.old) (W.account writer.new)
        (escaped_text name.now)) }
    ensures err { OnErr result (Breaks (W.account writer.old) (W.account writer.new)
        (escaped_text name.now)) }
{
    let mut rest = name;
    while !rest.is_empty() {
        let (front, behind) = rest.split_at(rest.len().min(PIECE_LIMIT));
        let piece = EscapedPiece::new(front);
        put_bytes(writer, piece.as_slice())?;
        rest = behind;
    }
    Ok(())
}

fn put_part<W: Sink>(writer: &mut W, part: &Part) -> Result<()>
    requires { NoneFailed (W.account writer.old) }
    ensures ok { OnOk result (TakesAll (W.account writer.old) (W.account writer.new)
        (part_bytes part.now)) }
    ensures err { OnErr result (Breaks (W.account writer.old) (W.account writer.new)
        (part_bytes part.now)) }
{
    put_bytes(writer, &part.bytes)?;
    put_name(writer, part.name.as_slice())?;
    Ok(())
}

fn put_parts<W: Sink>(writer: &mut W, parts: &[Part]) -> Result<()>
    requires { NoneFailed (W.account writer.old) }
    ensures ok { OnOk result (TakesAll (W.account writer.old) (W.account writer.new)
        (flat_map part_bytes parts.now)) }
    ensures err { OnErr result (Breaks (W.account writer.old) (W.account writer.new)
        (flat_map part_bytes parts.now)) }
{
    for part in parts {
        put_part(writer, part)?;
    }
    Ok(())
}

fn put_text<W: Sink>(writer: &mut W, text: &Text) -> Result<()>
    requires { NoneFailed (W.account writer.old) }
    ensures ok { OnOk result (TakesAll (W.account writer.old) (W.account writer.new)
        (text_bytes text.now)) }
    ensures err { OnErr result (Breaks (W.account writer.old) (W.account writer.new)
        (text_bytes text.now)) }
{
    put_parts(writer, &text.parts)?;
    put_bytes(writer, &text.rest)?;
    Ok(())
}

/// Writes bytes as hexadecimal digits, a piece of them at a time.
fn put_digits<W: Sink>(writer: &mut W, value: &[u8]) -> Result<()>
    requires { NoneFailed (W.account writer.old) }
    ensures ok { OnOk result (TakesAll (W.account writer.old) (W.account writer.new)
        (hex_digits value.now)) }
    ensures err { OnErr result (Breaks (W.account writer.old) (W.account writer.new)
        (hex_digits value.now)) }
{
    let mut rest = value;
    while !rest.is_empty() {
        let (front, behind) = rest.split_at(rest.len().min(PIECE_LIMIT));
        let piece = HexPiece::new(front);
        put_bytes(writer, piece.as_slice())?;
        rest = behind;
    }
    Ok(())
}

/// Writes bytes in hexadecimal, `-` for no bytes, as a vouch file has them.
fn put_hex<W: Sink>(writer: &mut W, value: &[u8]) -> Result<()>
    requires { NoneFailed (W.account writer.old) }
    ensures ok { OnOk result (TakesAll (W.account writer.old) (W.account writer.new)
        (hex_text value.now)) }
    ensures err { OnErr result (Breaks (W.account writer.old) (W.account writer.new)
        (hex_text value.now)) }
{
    if value.is_empty() {
        put_bytes(writer, b"-")
    } else {
        put_digits(writer, value)
    }
}

fn put_field<W: Sink>(writer: &mut W, value: &[u8]) -> Result<()>
    requires { NoneFailed (W.account writer.old) }
    ensures ok { OnOk result (TakesAll (W.account writer.old) (W.account writer.new)
        (codes " " ++ hex_text value.now)) }
    ensures err { OnErr result (Breaks (W.account writer.old) (W.account writer.new)
        (codes " " ++ hex_text value.now)) }
{
    put_bytes(writer, b" ")?;
    put_hex(writer, value)?;
    Ok(())
}

/// Writes a word and a decimal number after it.
fn put_numbered<W: Sink>(writer: &mut W, word: &[u8], number: usize) -> Result<()>
    requires { NoneFailed (W.account writer.old) }
    ensures ok { OnOk result (TakesAll (W.account writer.old) (W.account writer.new)
        (word.now ++ decimal number)) }
    ensures err { OnErr result (Breaks (W.account writer.old) (W.account writer.new)
        (word.now ++ decimal number)) }
{
    let mut digits = Buffer::new();
    put_bytes(writer, word)?;
    put_bytes(writer, digits.format(number).as_bytes())?;
    Ok(())
}

/// Writes the evidence line of this index.
fn put_evidence_line<W: Sink>(writer: &mut W, index: usize, signed: &Signed) -> Result<()>
    requires { NoneFailed (W.account writer.old) }
    ensures ok { OnOk result (TakesAll (W.account writer.old) (W.account writer.new)
        (evidence_line index signed.now)) }
    ensures err { OnErr result (Breaks (W.account writer.old) (W.account writer.new)
        (evidence_line index signed.now)) }
{
    put_numbered(writer, b"evidence ", index)?;
    put_field(writer, signed.key.as_slice())?;
    put_field(writer, signed.message.as_slice())?;
    put_field(writer, signed.signature.as_slice())?;
    put_bytes(writer, b"\n")?;
    Ok(())
}

/// Writes the evidence lines, numbered from 0.
fn put_evidence<W: Sink>(writer: &mut W, evidence: &[Signed]) -> Result<()>
    requires { NoneFailed (W.account writer.old) }
    ensures ok { OnOk result (TakesAll (W.account writer.old) (W.account writer.new)
        (evidence_lines evidence.now)) }
    ensures err { OnErr result (Breaks (W.account writer.old) (W.account writer.new)
        (evidence_lines evidence.now)) }
{
    for (index, signed) in evidence.iter().enumerate() {
        put_evidence_line(writer, index, signed)?;
    }
    Ok(())
}

/// Writes the text of a response, and after it its evidence lines.
fn put_answer<W: Sink>(writer: &mut W, answer: &Response) -> Result<()>
    requires { NoneFailed (W.account writer.old) }
    ensures ok { OnOk result (TakesAll (W.account writer.old) (W.account writer.new)
        (response answer.now).text) }
    ensures err { OnErr result (Breaks (W.account writer.old) (W.account writer.new)
        (response answer.now).text) }
{
    put_text(writer, &answer.text)?;
    put_evidence(writer, answer.evidence.as_slice())?;
    Ok(())
}

/// Writes a response and returns its status, or 2 if a write failed before all was written. Nothing
/// is written after a failed write, since a second attempt could leave a gap or a repeated part in
/// the text.
pub(crate) fn put_response<W: Sink>(writer: &mut W, answer: &Response) -> u8
    requires { NoneFailed (W.account writer.old) }
    ensures { WritesResponse (W.account writer.old) (W.account writer.new) (response answer.now)
        result }
{
    match put_answer(writer, answer) {
        Ok(()) => answer.status,
        Err(_) => FAULT,
    }
}

/// Writes a text, and returns this status, or 2 if a write failed before all was written.
pub(crate) fn put_whole<W: Sink>(writer: &mut W, text: &[u8], status: u8) -> u8
    requires { NoneFailed (W.account writer.old) }
    ensures { WritesResponse (W.account writer.old) (W.account writer.new)
        (record { status = status; text = text.now }) result }
{
    match put_bytes(writer, text) {
        Ok(()) => status,
        Err(_) => FAULT,
    }
}

/// Writes the text of a fault and returns 2, also if the write fails.
pub(crate) fn put_fault<W: Sink>(writer: &mut W, text: &[u8]) -> u8
    requires { NoneFailed (W.account writer.old) }
    ensures { WritesResponse (W.account writer.old) (W.account writer.new)
        (record { status = FAULT; text = text.now }) result }
{
    put_whole(writer, text, FAULT)
}

/// Writes that memory could not be allocated, and returns 2.
pub(crate) fn put_no_memory<W: Sink>(writer: &mut W) -> u8
    requires { NoneFailed (W.account writer.old) }
    ensures { WritesResponse (W.account writer.old) (W.account writer.new) out_of_memory result }
{
    put_fault(writer, b"fault A8\n")
}

/// Writes the response that was made, or that memory could not be allocated for one, and returns
/// the status.
pub(crate) fn put_made<W: Sink>(
    writer: &mut W,
    made: std::result::Result<Response, AllocError>,
) -> u8
    requires { NoneFailed (W.account writer.old) }
    ensures { (r : Shown) × IsMade made r
        × WritesResponse (W.account writer.old) (W.account writer.new) r result }
{
    match made {
        Ok(response) => put_response(writer, &response),
        Err(AllocError) => put_no_memory(writer),
    }
}
