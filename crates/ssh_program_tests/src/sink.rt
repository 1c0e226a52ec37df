//! Writers in memory that record what was written, and calls of the program that print to them.

ghost use Rattle.std.specs.Prelude.{◌≡◌, Some, refl};
ghost use Rattle.std.specs.Io.{WritesAtMost};
ghost use Rattle.ssh_program.specs.Account.{NoneFailed, after_write, where_reported};

use crate::source::{FailsAt, OneFile, Sips};
use ssh_program::{Sink, WordsError, refuse, run};
use std::alloc::{AllocError, Global};
use std::io::{self, Error, ErrorKind, Write};

/// The output and status of the program for these arguments, over a file `f` and standard input.
/// The read of this index, from 1, and every later one fails.
pub(crate) fn printed_failing(
    alloc: Global,
    words: &[&str],
    file: &[u8],
    input: &[u8],
    index: u64,
) -> Result<(u8, Vec<u8>), AllocError> {
    let mut files = FailsAt::new(OneFile::new("f", file, input), index);
    let mut page = Page::new(alloc);
    let status = run(alloc, words, &mut files, &mut page);
    Ok((status, Vec::from_slice(alloc, page.taken())?))
}

/// The same, where each read gives one byte and the reads of `f` fail after `good` of them.
pub(crate) fn printed_by_bytes(
    alloc: Global,
    words: &[&str],
    file: &[u8],
    input: &[u8],
    good: u64,
) -> Result<(u8, Vec<u8>), AllocError> {
    let mut files = Sips::new(OneFile::new("f", file, input), good);
    let mut page = Page::new(alloc);
    let status = run(alloc, words, &mut files, &mut page);
    Ok((status, Vec::from_slice(alloc, page.taken())?))
}

/// The status, the number of writes and the output, with a writer that takes one byte at a time.
/// The write of this index, from 1, fails with an error of this kind.
pub(crate) fn printed_until(
    alloc: Global,
    words: &[&str],
    file: &[u8],
    input: &[u8],
    index: u64,
    kind: ErrorKind,
) -> Result<(u8, u64, Vec<u8>), AllocError> {
    let mut files = OneFile::new("f", file, input);
    let mut writer = FailsOnce::new(alloc, index, kind);
    let status = run(alloc, words, &mut files, &mut writer);
    let taken = Vec::from_slice(alloc, writer.taken())?;
    Ok((status, writer.calls(), taken))
}

/// The output and status where the program's own arguments cannot be read.
pub(crate) fn printed_refusal(
    alloc: Global,
    fault: WordsError,
) -> Result<(u8, Vec<u8>), AllocError> {
    let mut page = Page::new(alloc);
    let status = refuse(fault, &mut page);
    Ok((status, Vec::from_slice(alloc, page.taken())?))
}

/// A writer in memory that counts its failed writes.
#[derive(Drop)]
pub(crate) struct Page {
    bytes: Vec<u8>,
    failures: u64,
}

impl Page {
    /// A writer without bytes.
    pub(crate) fn new(alloc: Global) -> Self
        ensures { result.failures ≡ 0 }
    {
        Page {
            bytes: Vec::new(alloc),
            failures: 0,
        }
    }

    pub(crate) fn taken(&self) -> &[u8] {
        &self.bytes
    }
}

impl Write for Page {
    ghost contents = { λ p. Some p.bytes.items };

    fn write(&mut self, buf: &[u8]) -> io::Result<usize> {
        self.bytes.write(buf)
    }

    fn flush(&mut self) -> io::Result<()> {
        Ok(())
    }
}

impl Sink for Page {
    ghost account = { λ p. Some (record { taken = p.bytes.items; failures = p.failures }) };

    ghost tells = { λ p. refl };

    fn put(&mut self, buf: &[u8]) -> io::Result<usize> {
        let result = self.bytes.write(buf);
        match &result {
            Ok(n) => {
                if *n == 0 && buf.len() > 0 {
                    self.failures += 1;
                }
            }
            Err(_) => self.failures += 1,
        }
        result
    }
}

/// A writer that takes one byte at a time and fails at one of its calls.
#[derive(Drop)]
pub(crate) struct FailsOnce {
    page: Page,
    index: u64,
    calls: u64,
    kind: ErrorKind,
}

impl FailsOnce {
    /// The call of this index, from 1, fails with an error of this kind.
    pub(crate) fn new(alloc: Global, index: u64, kind: ErrorKind) -> Self
        ensures { result.page.failures ≡ 0 }
    {
        FailsOnce {
            page: Page::new(alloc),
            index,
            calls: 0,
            kind,
        }
    }

    pub(crate) fn taken(&self) -> &[u8] {
        self.page.taken()
    }

    /// The number of writes, failed ones too.
    pub(crate) fn calls(&self) -> u64 {
        self.calls
    }
}

impl Write for FailsOnce {
    ghost contents = { λ w. Some w.page.bytes.items };

    fn write(&mut self, buf: &[u8]) -> io::Result<usize> {
        self.page.write(buf)
    }

    fn flush(&mut self) -> io::Result<()> {
        Ok(())
    }
}

impl Sink for FailsOnce {
    ghost account = { λ w.
        Some (record { taken = w.page.bytes.items; failures = w.page.failures }) };

    ghost tells = { λ w. refl };

    fn put(&mut self, buf: &[u8]) -> io::Result<usize> {
        self.calls = self.calls.saturating_add(1);
        if self.calls == self.index {
            self.page.failures += 1;
            return Err(Error::from(self.kind));
        }
        if buf.is_empty() {
            return Ok(0);
        }
        self.page.put(&buf[..1])
    }
}
