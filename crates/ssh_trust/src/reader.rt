//! `Source`: the reader interface of the audits, and `Counted`, which makes any reader a source by
//! counting its failed reads.

ghost use Rattle.std.specs.Prelude.{ℕ, List, Option, OnErr, OnOk, ◌≡◌, ◌+◌, ◌-◌, ◌^◌, min, if◌then◌else◌, is_ok, refl};
ghost use Rattle.std.specs.Io.{ReadsAtMost};
ghost use Rattle.std.specs.Io.KnownBytes.{ReadConsumes};

use std::io::{Read, Result};

/// The most bytes of one read (this project's rule).
pub const READ_SIZE: usize = 4096;

/// A reader whose contract states which reads failed. `Counted` makes one of any reader.
pub trait Source {
    /// The bytes that its reads have yet to give, where they are known.
    ghost left: { Self → Option (List ℕ) };

    /// Relates a reader to itself after reads of which none failed.
    ghost unfailed: { Self → Self → Type 0 };

    /// Relates a reader to itself after reads of which only the last failed.
    ghost failed: { Self → Self → Type 0 };

    /// Reads the next bytes into the buffer, whose type fixes its size, and returns how many. It
    /// returns 0 only at the end.
    fn read_piece(&mut self, buf: &mut [u8; READ_SIZE]) -> Result<usize>
        ensures bound { ReadsAtMost result buf.new }
        ensures bytes { ReadConsumes (left self.old) (left self.new) result buf.new }
        ensures unfailed { OnOk result ((first : Self)
            → unfailed first self.old
            → unfailed first self.new) }
        ensures failed { OnErr result ((first : Self)
            → unfailed first self.old
            → failed first self.new) };

    /// Before any read no read has failed.
    ghost begins: { (x : Self) → unfailed x x };
}

/// A reader, and how many of its reads have failed, up to `u64::MAX`. It gives the bytes of the
/// reader that it wraps, and returns each failure.
#[derive(Drop)]
pub struct Counted<R> {
    reader: R,
    failures: u64,
}

impl<R: Read> Counted<R> {
    /// Wraps the reader; the count of failed reads begins at 0.
    pub fn new(reader: R) -> Self
        ensures reader { result.reader ≡ reader }
        ensures failures { result.failures ≡ 0 }
    {
        Counted {
            reader,
            failures: 0,
        }
    }

    /// How many reads have failed, up to `u64::MAX`.
    pub fn failures(&self) -> u64
        ensures { result ≡ self.now.failures }
    {
        self.failures
    }
}

impl<R: Read> Read for Counted<R> {
    ghost remaining = { λ c. R.remaining c.reader };

    fn read(&mut self, buf: &mut [u8]) -> Result<usize>
        ensures bound { ReadsAtMost result buf.new }
        ensures bytes { ReadConsumes (R.remaining self.old.reader) (R.remaining self.new.reader)
            result buf.new }
        ensures counted { self.new.failures ≡ (if is_ok result
            then self.old.failures
            else min (self.old.failures + 1) (2 ^ 64 - 1)) }
    {
        let result = self.reader.read(buf);
        if result.is_err() {
            self.failures = self.failures.saturating_add(1);
        }
        result
    }
}

impl<R: Read> Source for Counted<R> {
    ghost left = { λ c. R.remaining c.reader };

    ghost unfailed = { λ x y. y.failures ≡ x.failures };

    ghost failed = { λ x y. y.failures ≡ min (x.failures + 1) (2 ^ 64 - 1) };

    ghost begins = { λ x. refl };

    fn read_piece(&mut self, buf: &mut [u8; READ_SIZE]) -> Result<usize> {
        self.read(buf)
    }
}
