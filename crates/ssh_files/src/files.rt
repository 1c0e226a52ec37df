//! `Files`: the source of the files that the program reads.
ghost use Rattle.std.specs.Prelude.{◌≡◌, ◌↔◌, ℕ, List, Option, IsTrue, IsSome, IfSome, Some};
ghost use Rattle.std.specs.Io.{ReadsAtMost};
ghost use Rattle.ssh_files.specs.SourceState.{SourceState, left_of, bytes_at, cause_at, ReadsKnown, ChoosesKnown};

use std::io::{Read, Result};

/// Why the system does not give a file's bytes.
#[derive(Clone, Copy, Debug, PartialEq, Eq)]
pub enum UnreadCause {
    /// There is no file of this name.
    NotFound,
    /// The file may not be read.
    PermissionDenied,
    /// The name is that of a folder.
    IsADirectory,
    /// Anything else, as an error of the disk.
    Other,
}

/// A source of files by name, `-` being standard input.
pub trait Files: Read {
    /// What the source holds, where its contract states it.
    ghost source_state: { Self → Option SourceState };

    /// Chooses the file of this name, and returns whether it exists. The following reads give it
    /// from its start, or standard input from where it was; if the file does not exist they fail.
    fn choose(&mut self, name: &str) -> bool
        ensures there { IfSome (source_state self.old)
            (λ s. IsTrue result ↔ IsSome (bytes_at s name.now)) }
        ensures chosen { ChoosesKnown (source_state self.old) (source_state self.new) name.now };

    /// Whether the file of this name is a regular one, which can be read again; a pipe and standard
    /// input cannot. No answer depends on it, only whether a file's bytes are stored.
    fn is_regular(&self, name: &str) -> bool;

    /// Why the file of this name could not be read. It is asked where the choice or a read of this
    /// file was the last to fail.
    fn unread_cause(&self, name: &str) -> UnreadCause
        ensures { IfSome (source_state self.now) (λ s. result ≡ cause_at s name.now) };

    /// Reads the next bytes of the chosen file. A failed read is counted, and the file's name is
    /// stored.
    fn read_chosen(&mut self, buf: &mut [u8]) -> Result<usize>
        ensures bound { ReadsAtMost result buf.new }
        ensures bytes { ReadsKnown (source_state self.old) (source_state self.new) result buf.new };

    /// The reads of `Read` give the chosen file.
    ghost tells: { (x : Self)
        → IfSome (source_state x) (λ s. Self.remaining x ≡ Some (left_of s)) };
}
