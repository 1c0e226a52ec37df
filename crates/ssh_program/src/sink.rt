//! The writer that the program prints to.
ghost use Rattle.std.specs.Prelude.{◌≡◌, Option, IfSome, None, Some};
ghost use Rattle.std.specs.Io.{WritesAtMost};
ghost use Rattle.ssh_program.specs.Account.{Account, NoneFailed, after_write, where_reported};

use std::io::{Print, Printer, Result, Write};

/// A writer with an account of what it took, which may be written to until a write fails.
pub trait Sink: Write {
    /// The bytes that the writer took and the number of its failed writes; `None` if the writer
    /// keeps no account.
    ghost account: { Self → Option Account };

    /// Writes a prefix of `buf` and returns its length. After a failed write nothing may be
    /// written.
    fn put(&mut self, buf: &[u8]) -> Result<usize>
        requires { NoneFailed (account self.old) }
        ensures bound { WritesAtMost result buf.now }
        ensures reported { account self.new ≡ where_reported (after_write result buf.now)
            (account self.old) };

    /// The contents of the writer, as `Write` defines them, are the bytes that it took.
    ghost tells: { (x : Self) → IfSome (account x) (λ a. Self.contents x ≡ Some a.taken) };
}

/// Standard output keeps no account.
impl<P: Print> Sink for Printer<'_, P> {
    ghost account = { λ _. None };

    ghost tells = { λ x. tt };

    fn put(&mut self, buf: &[u8]) -> Result<usize> {
        self.write(buf)
    }
}
