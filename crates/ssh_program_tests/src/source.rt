//! Files in memory whose reads can fail, and the arguments and keys of the tests.

ghost use Rattle.std.specs.Prelude.{Some, None, Ok, Err, refl, if◌then◌else◌, option_map, Option, List, ℕ};
ghost use Rattle.std.specs.Str.{bytes_eq};
ghost use Rattle.ssh_files.specs.declared.files.UnreadCause.TheVariants.{NotFound};
ghost use Rattle.ssh_files.specs.SourceState.{SourceState, Chosen, nothing, standard_input, named_file, left_of};
ghost use Rattle.ssh_program_tests.specs.declared.source.Place.TheVariants.{Nowhere, Input, File};

use ssh_files::{Files, UnreadCause};
use std::alloc::Global;
use std::io::{self, Error, ErrorKind, Read};
use std::test::Fail;

/// An Ed25519 key of 32 zero bytes.
pub(crate) const K0: &str = "AAAAC3NzaC1lZDI1NTE5AAAAIAAAAAAAAAAAAAAAAAAAAAAAAAAAAAAAAAAAAAAAAAAA";

/// The arguments of a login with the key K0.
pub(crate) const LOGIN: &str =
    "login --file f --offer AAAAC3NzaC1lZDI1NTE5AAAAIAAAAAAAAAAAAAAAAAAAAAAAAAAAAAAAAAAAAAAAAAAA --signature 0000000b7373682d6564323535313900000001aa --algorithm ssh-ed25519 --session 01020304 --user ann --address ::1 --now 150 --vouch -\n";

/// The signature of that login as a line of a vouch file.
pub(crate) const LOGIN_TRIPLE: &str =
    "0000000b7373682d65643235353139000000200000000000000000000000000000000000000000000000000000000000000000 00000004010203043200000003616e6e0000000e7373682d636f6e6e656374696f6e000000097075626c69636b6579010000000b7373682d65643235353139000000330000000b7373682d65643235353139000000200000000000000000000000000000000000000000000000000000000000000000 0000000b7373682d6564323535313900000001aa";

/// The arguments of the host `h` with the key K0.
pub(crate) const HOST: &str =
    "host --file f --offer AAAAC3NzaC1lZDI1NTE5AAAAIAAAAAAAAAAAAAAAAAAAAAAAAAAAAAAAAAAAAAAAAAAA --signature 0000000b7373682d6564323535313900000001aa --hash 01020304 --host h --port 22 --now 150 --vouch -\n";

/// The signature of that host as a line of a vouch file.
pub(crate) const HOST_TRIPLE: &str =
    "0000000b7373682d65643235353139000000200000000000000000000000000000000000000000000000000000000000000000 01020304 0000000b7373682d6564323535313900000001aa";

/// The arguments of a file signature. Its body and then an empty message are on standard input.
pub(crate) const SIGNATURE: &str = "sshsig --body - --message - --namespace file --vouch f\n";

/// The body of that signature, with the key K0.
pub(crate) const BODY: &str =
    "SSHSIG\0\0\0\x01\0\0\0\x33\0\0\0\x0bssh-ed25519\0\0\0\x20\0\0\0\0\0\0\0\0\0\0\0\0\0\0\0\0\0\0\0\0\0\0\0\0\0\0\0\0\0\0\0\0\0\0\0\x04file\0\0\0\0\0\0\0\x06sha256\0\0\0\x14\0\0\0\x0bssh-ed25519\0\0\0\x01\x2a";

pub(crate) fn joined(alloc: Global, parts: &[&str]) -> Result<String, Fail> {
    let mut text = String::new(alloc);
    for part in parts {
        text.push_str(part)?;
    }
    Ok(text)
}

/// The file that was chosen last.
#[derive(Clone, Copy, Debug, PartialEq, Eq)]
pub(crate) enum Place {
    Nowhere,
    Input,
    File,
}

/// One file and standard input. It counts the choices and the failed reads, and has the name of the
/// file whose read failed last.
#[derive(Drop)]
pub(crate) struct OneFile<'a> {
    name: &'a str,
    bytes: &'a [u8],
    left: &'a [u8],
    input: &'a [u8],
    place: Place,
    choices: u64,
    failures: u64,
    failed: Option<&'a str>,
}

impl<'a> OneFile<'a> {
    /// A file of this name and with these bytes, and this standard input.
    pub(crate) fn new(name: &'a str, bytes: &'a [u8], input: &'a [u8]) -> Self {
        OneFile {
            name,
            bytes,
            left: b"",
            input,
            place: Place::Nowhere,
            choices: 0,
            failures: 0,
            failed: None,
        }
    }
}

impl Read for OneFile<'_> {
    ghost remaining = { λ m. Some (left_of (record {
      named = λ name. if bytes_eq name m.name.now then Ok m.bytes.now else Err NotFound;
      input = m.input.now;
      chosen = elim m.place [ Nowhere ↦ nothing | Input ↦ standard_input | File ↦ named_file m.name.now m.left.now ];
      choices = m.choices;
      failures = m.failures;
      failed = option_map (λ n. n.now) m.failed;
    })) };

    fn read(&mut self, buf: &mut [u8]) -> io::Result<usize> {
        self.read_chosen(buf)
    }
}

impl Files for OneFile<'_> {
    ghost source_state = { λ m. Some (record {
      named = λ name. if bytes_eq name m.name.now then Ok m.bytes.now else Err NotFound;
      input = m.input.now;
      chosen = elim m.place [ Nowhere ↦ nothing | Input ↦ standard_input | File ↦ named_file m.name.now m.left.now ];
      choices = m.choices;
      failures = m.failures;
      failed = option_map (λ n. n.now) m.failed;
    }) };

    ghost tells = { λ x. refl };

    fn choose(&mut self, name: &str) -> bool {
        self.choices = self.choices.wrapping_add(1);
        if name == "-" {
            self.place = Place::Input;
            true
        } else if name == self.name {
            self.left = self.bytes;
            self.place = Place::File;
            true
        } else {
            self.place = Place::Nowhere;
            false
        }
    }

    fn is_regular(&self, name: &str) -> bool {
        name == self.name
    }

    fn unread_cause(&self, name: &str) -> UnreadCause {
        if name == "-" || name == self.name {
            UnreadCause::Other
        } else {
            UnreadCause::NotFound
        }
    }

    fn read_chosen(&mut self, buf: &mut [u8]) -> io::Result<usize> {
        match self.place {
            Place::Nowhere => {
                self.failures = self.failures.saturating_add(1);
                self.failed = None;
                Err(Error::from(ErrorKind::NotFound))
            }
            Place::Input => self.input.read(buf),
            Place::File => self.left.read(buf),
        }
    }
}

/// A source whose reads fail from one of them on.
#[derive(Drop)]
pub(crate) struct FailsAt<'a> {
    source: OneFile<'a>,
    index: u64,
    reads: u64,
}

impl<'a> FailsAt<'a> {
    /// The read of this index, from 1, and every later one fails.
    pub(crate) fn new(source: OneFile<'a>, index: u64) -> Self {
        FailsAt {
            source,
            index,
            reads: 0,
        }
    }
}

impl Read for FailsAt<'_> {
    ghost remaining = { λ m. Some (left_of (record {
      named = λ name. if bytes_eq name m.source.name.now then Ok m.source.bytes.now else Err NotFound;
      input = m.source.input.now;
      chosen = elim m.source.place [ Nowhere ↦ nothing | Input ↦ standard_input | File ↦ named_file m.source.name.now m.source.left.now ];
      choices = m.source.choices;
      failures = m.source.failures;
      failed = option_map (λ n. n.now) m.source.failed;
    })) };

    fn read(&mut self, buf: &mut [u8]) -> io::Result<usize> {
        self.read_chosen(buf)
    }
}

impl Files for FailsAt<'_> {
    ghost source_state = { λ m. Some (record {
      named = λ name. if bytes_eq name m.source.name.now then Ok m.source.bytes.now else Err NotFound;
      input = m.source.input.now;
      chosen = elim m.source.place [ Nowhere ↦ nothing | Input ↦ standard_input | File ↦ named_file m.source.name.now m.source.left.now ];
      choices = m.source.choices;
      failures = m.source.failures;
      failed = option_map (λ n. n.now) m.source.failed;
    }) };

    ghost tells = { λ x. refl };

    fn choose(&mut self, name: &str) -> bool {
        self.source.choose(name)
    }

    fn is_regular(&self, name: &str) -> bool {
        self.source.is_regular(name)
    }

    fn unread_cause(&self, name: &str) -> UnreadCause {
        self.source.unread_cause(name)
    }

    fn read_chosen(&mut self, buf: &mut [u8]) -> io::Result<usize> {
        self.reads = self.reads.saturating_add(1);
        if self.reads >= self.index {
            self.source.failures = self.source.failures.saturating_add(1);
            self.source.failed = match self.source.place {
                Place::Nowhere => None,
                Place::Input => Some("-"),
                Place::File => Some(self.source.name),
            };
            return Err(Error::from(ErrorKind::Interrupted));
        }
        self.source.read_chosen(buf)
    }
}

/// A source that gives one byte at a time, and whose reads of its file fail after a number of them.
/// Its state is not known to the contracts.
#[derive(Drop)]
pub(crate) struct Sips<'a> {
    source: OneFile<'a>,
    good: u64,
}

impl<'a> Sips<'a> {
    /// `good` reads of the file succeed.
    pub(crate) fn new(source: OneFile<'a>, good: u64) -> Self {
        Sips { source, good }
    }
}

impl Read for Sips<'_> {
    fn read(&mut self, buf: &mut [u8]) -> io::Result<usize> {
        self.read_chosen(buf)
    }
}

impl Files for Sips<'_> {
    ghost source_state = { λ _. None };

    ghost tells = { λ x. tt };

    fn choose(&mut self, name: &str) -> bool {
        self.source.choose(name)
    }

    fn is_regular(&self, name: &str) -> bool {
        self.source.is_regular(name)
    }

    fn unread_cause(&self, name: &str) -> UnreadCause {
        self.source.unread_cause(name)
    }

    fn read_chosen(&mut self, buf: &mut [u8]) -> io::Result<usize> {
        if self.source.place == Place::File {
            if self.good == 0 {
                return Err(Error::from(ErrorKind::Interrupted));
            }
            self.good -= 1;
        }
        let most = buf.len().min(1);
        self.source.read_chosen(&mut buf[..most])
    }
}
