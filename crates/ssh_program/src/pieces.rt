//! Texts of lines, written in pieces that end where a line ends: so lines stay whole where several
//! processes write to one pipe.

ghost use Rattle.std.specs.Prelude.{OnErr, OnOk};
ghost use Rattle.ssh_program.specs.Account.{NoneFailed};
ghost use Rattle.ssh_program.specs.Pieces.{IsPiece};
ghost use Rattle.ssh_program.specs.Printing.{Breaks, TakesAll};

use crate::printing::put_bytes;
use crate::sink::Sink;
use memchr::{memchr, memrchr};
use std::io::Result;

/// The most bytes of a write to a pipe that those of other processes do not come between: PIPE_BUF of
/// Linux (POSIX, write()).
const PIPE_ROOM: usize = 4096;

/// How many bytes of a text are its first piece: the lines that a pipe keeps together, or the first
/// line alone where it is longer than that.
fn piece_len(text: &[u8]) -> usize
    ensures { IsPiece text.now result }
{
    if text.len() <= PIPE_ROOM {
        return text.len();
    }
    let (front, _) = text.split_at(PIPE_ROOM);
    match memrchr(b'\n', front) {
        Some(end) => end + 1,
        None => first_line(text),
    }
}

/// How many bytes the first line of a text has, with its LF.
fn first_line(text: &[u8]) -> usize
    ensures { IsPiece text.now result }
{
    match memchr(b'\n', text) {
        Some(end) => end + 1,
        None => text.len(),
    }
}

/// Writes a text in such pieces. After an `Err`, by which a write failed, a front of it was taken that
/// is not the whole.
pub(crate) fn put_lines<W: Sink>(writer: &mut W, text: &[u8]) -> Result<()>
    requires { NoneFailed (W.account writer.old) }
    ensures ok { OnOk result (TakesAll (W.account writer.old) (W.account writer.new) text.now) }
    ensures err { OnErr result (Breaks (W.account writer.old) (W.account writer.new) text.now) }
{
    let mut rest = text;
    while !rest.is_empty() {
        let (piece, behind) = rest.split_at(piece_len(rest));
        put_bytes(writer, piece)?;
        rest = behind;
    }
    Ok(())
}
