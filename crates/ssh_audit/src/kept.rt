//! A source that remembers the bytes that were read, by which standard error can say more of a file.

ghost use Rattle.std.specs.Prelude.{◌≡◌, ◌++◌, [], None, IfSome, IsSome, IsTrue, ◌↔◌, option_copied};
ghost use Rattle.ssh_audit.specs.KeptBytes.{bytes_if};
ghost use Rattle.ssh_audit.specs.declared.kept.Keeping.TheVariants.{No, Yes};
ghost use Rattle.std.specs.Io.{ReadsAtMost};
ghost use Rattle.std.specs.Io.KnownBytes.{ReadConsumes};
ghost use Rattle.ssh_files.specs.SourceState.{ChoosesKnown, ReadsKnown, bytes_at, cause_at};

use ssh_files::{Files, UnreadCause};
use std::alloc::Global;
use std::io::{Read, Result};

/// Whether the bytes that are read are remembered.
#[derive(Clone, Copy, PartialEq, Eq)]
enum Keeping {
    No,
    Yes,
    /// Memory for some of them was refused.
    Failed,
}

/// A source that remembers what was read from it, if it is asked to.
#[derive(Drop)]
pub struct KeptFiles<F> {
    files: F,
    bytes: Vec<u8>,
    keeping: Keeping,
}

impl<F> KeptFiles<F> {
    /// A source over this one, which remembers nothing yet.
    pub fn new(alloc: Global, files: F) -> Self
        ensures none { result.keeping ≡ No }
        ensures empty { result.bytes.items ≡ [] }
    {
        KeptFiles {
            files,
            bytes: Vec::new(alloc),
            keeping: Keeping::No,
        }
    }

    /// The source inside.
    pub fn source(&self) -> &F
        ensures { result.now ≡ self.now.files }
    {
        &self.files
    }

    /// Remembers what is read from now on.
    pub fn keep_bytes(&mut self)
        ensures kept { self.new.keeping ≡ Yes }
        ensures same { self.new.bytes ≡ self.old.bytes }
    {
        self.keeping = Keeping::Yes;
    }

    /// The bytes that were read; `None` where they are not remembered.
    pub fn bytes(&self) -> Option<&[u8]>
        ensures { option_copied result ≡ bytes_if self.now.keeping self.now.bytes.items }
    {
        match self.keeping {
            Keeping::Yes => Some(self.bytes.as_slice()),
            Keeping::No | Keeping::Failed => None,
        }
    }

    /// Remembers bytes that were read, or that memory for them was refused.
    fn keep(&mut self, bytes: &[u8])
        ensures kept { self.new.keeping ≡ Yes
            → self.new.bytes.items ≡ self.old.bytes.items ++ bytes.now }
        ensures asked { self.old.keeping ≡ No → self.new.keeping ≡ No }
    {
        if self.keeping == Keeping::Yes && self.bytes.extend_from_slice(bytes).is_err() {
            self.keeping = Keeping::Failed;
        }
    }
}

impl<F: Files> Read for KeptFiles<F> {
    fn read(&mut self, buf: &mut [u8]) -> Result<usize>
        ensures bound { ReadsAtMost result buf.new }
        ensures bytes { ReadConsumes None None result buf.new }
    {
        self.read_chosen(buf)
    }
}

impl<F: Files> Files for KeptFiles<F> {
    ghost source_state = { λ _. None };

    ghost tells = { λ x. tt };

    fn choose(&mut self, name: &str) -> bool
        ensures there { IfSome None (λ s. IsTrue result ↔ IsSome (bytes_at s name.now)) }
        ensures chosen { ChoosesKnown None None name.now }
    {
        self.files.choose(name)
    }

    fn is_regular(&self, name: &str) -> bool {
        self.files.is_regular(name)
    }

    fn unread_cause(&self, name: &str) -> UnreadCause
        ensures { IfSome None (λ s. result ≡ cause_at s name.now) }
    {
        self.files.unread_cause(name)
    }

    fn read_chosen(&mut self, buf: &mut [u8]) -> Result<usize>
        ensures bound { ReadsAtMost result buf.new }
        ensures bytes { ReadsKnown None None result buf.new }
    {
        let outcome = self.files.read_chosen(buf);
        if let Ok(taken) = &outcome {
            self.keep(&buf[..*taken]);
        }
        outcome
    }
}
