//! Reads and writes that are tried again after a signal, and a writer that remembers what was
//! printed first.

ghost use Rattle.std.specs.Prelude.{◌≢◌, IfErr, ◌≡◌, None, ◌||◌, ◌++◌, [], codes, false, take};
ghost use Rattle.std.specs.Io.{ReadsAtMost, WritesAtMost};
ghost use Rattle.std.specs.IoError.{error_kind};
ghost use Rattle.ssh_program.specs.Account.{NoneFailed, after_write, where_reported};
ghost use Rattle.std.specs.Str.{bytes_eq};

use crate::front::Front;
use ssh_program::Sink;
use std::io::{Error, ErrorKind, Read, Result, Write};

/// Reads, and tries again after each signal.
pub fn read_again<R: Read>(reader: &mut R, buf: &mut [u8]) -> Result<usize>
    ensures bound { ReadsAtMost result buf.new }
    ensures retried { IfErr result (λ e. error_kind e ≢ ErrorKind.Interrupted) }
{
    for _ in 0..u64::MAX {
        match reader.read(buf) {
            Err(error) if error.kind() == ErrorKind::Interrupted => {}
            result => return result,
        }
    }
    // The number of tries is bounded, since every call has to return.
    Err(Error::from(ErrorKind::TimedOut))
}

/// Writes, and tries again after each signal.
pub fn write_again<W: Write>(writer: &mut W, buf: &[u8]) -> Result<usize>
    ensures bound { WritesAtMost result buf.now }
    ensures retried { IfErr result (λ e. error_kind e ≢ ErrorKind.Interrupted) }
{
    for _ in 0..u64::MAX {
        match writer.write(buf) {
            Err(error) if error.kind() == ErrorKind::Interrupted => {}
            result => return result,
        }
    }
    // The number of tries is bounded, since every call has to return.
    Err(Error::from(ErrorKind::TimedOut))
}

/// A writer that tries a write again after each signal.
#[derive(Drop)]
pub struct Retried<W> {
    writer: W,
}

impl<W> Retried<W> {
    /// A writer over this one.
    pub fn new(writer: W) -> Self
        ensures { result.writer ≡ writer }
    {
        Retried { writer }
    }
}

impl<W: Write> Write for Retried<W> {
    ghost contents = { λ x. W.contents x.writer };

    fn write(&mut self, buf: &[u8]) -> Result<usize> {
        self.writer.write(buf)
    }

    fn flush(&mut self) -> Result<()> {
        self.writer.flush()
    }
}

/// It keeps no account of its writes, as standard output does not.
impl<W: Write> Sink for Retried<W> {
    ghost account = { λ _. None };

    ghost tells = { λ x. tt };

    fn put(&mut self, buf: &[u8]) -> Result<usize>
        requires { NoneFailed None }
        ensures bound { WritesAtMost result buf.now }
        ensures reported { None ≡ where_reported (after_write result buf.now) None }
        // A write that a signal interrupted (EINTR) wrote no byte, so it is tried again.
        ensures retried { IfErr result (λ e. error_kind e ≢ ErrorKind.Interrupted) }
    {
        write_again(&mut self.writer, buf)
    }
}

/// Whether a write took nothing.
fn has_failed(outcome: &Result<usize>) -> bool {
    match outcome {
        Ok(taken) => *taken == 0,
        Err(_) => true,
    }
}

/// The output where the arguments are no command.
const USAGE_FAULT: &[u8] = b"fault usage\n";

/// A writer that remembers the front of what it was given, whether that was the text of a usage
/// fault, and whether a write failed. Its account is that of the writer inside.
#[derive(Drop)]
pub struct Watched<W> {
    writer: W,
    is_usage: bool,
    is_broken: bool,
    front: Front,
}

impl<W> Watched<W> {
    /// A writer that was not given anything yet.
    pub fn new(writer: W) -> Self
        ensures writer { result.writer ≡ writer }
        ensures usage { result.is_usage ≡ false }
        ensures front { result.front ≡ [] }
    {
        Watched {
            writer,
            is_usage: false,
            is_broken: false,
            front: Front::new(),
        }
    }

    /// Whether the text of a usage fault was written to it.
    pub fn is_usage(&self) -> bool
        ensures { result ≡ self.now.is_usage }
    {
        self.is_usage
    }

    /// Whether a write to it failed.
    pub fn is_broken(&self) -> bool
        ensures { result ≡ self.now.is_broken }
    {
        self.is_broken
    }

    /// The front of what was written to it.
    pub fn front(&self) -> &[u8]
        ensures { result.now ≡ self.now.front }
    {
        self.front.as_slice()
    }
}

impl<W: Sink> Write for Watched<W> {
    ghost contents = { λ x. W.contents x.writer };

    fn write(&mut self, buf: &[u8]) -> Result<usize> {
        self.writer.write(buf)
    }

    fn flush(&mut self) -> Result<()> {
        self.writer.flush()
    }
}

impl<W: Sink> Sink for Watched<W> {
    ghost account = { λ x. W.account x.writer };

    ghost tells = { λ x. W.tells x.writer };

    fn put(&mut self, buf: &[u8]) -> Result<usize>
        requires { NoneFailed (W.account self.old.writer) }
        ensures bound { WritesAtMost result buf.now }
        ensures reported { W.account self.new.writer ≡ where_reported (after_write result buf.now)
            (W.account self.old.writer) }
        ensures usage { self.new.is_usage
            ≡ (self.old.is_usage || bytes_eq buf.now (codes "fault usage\n")) }
        ensures front { self.new.front ≡ take 64 (self.old.front ++ buf.now) }
    {
        self.is_usage = self.is_usage || buf == USAGE_FAULT;
        self.front.extend(buf);
        let outcome = self.writer.put(buf);
        self.is_broken = self.is_broken || has_failed(&outcome);
        outcome
    }
}
