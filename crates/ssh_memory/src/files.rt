//! Files in memory, by name, as a source of files.

ghost use Rattle.std.specs.Prelude.{◌≡◌, Some, refl};
ghost use Rattle.ssh_files.specs.SourceState.{left_of};
ghost use Rattle.ssh_memory.specs.MemoryFiles.{memory_source, source_at_first};

use crate::file_index::FileIndex;
use ssh_files::{Files, UnreadCause};
use std::io::{Error, ErrorKind, Read, Result};

/// The name of a file, and its bytes.
#[repr(C)]
#[derive(Clone, Copy)]
pub struct NamedBytes<'a> {
    pub name: &'a [u8],
    pub bytes: &'a [u8],
}

/// The file that was chosen last.
#[derive(Clone, Copy)]
enum Place {
    Nowhere,
    Input,
    File,
}

/// A source of files in memory, and of a standard input in memory.
#[derive(Drop)]
pub(crate) struct MemoryFiles<'a> {
    files: FileIndex<'a>,
    /// What is left of standard input.
    input: &'a [u8],
    place: Place,
    /// The name of the file that was chosen last, and what is left of its bytes.
    name: &'a [u8],
    left: &'a [u8],
    choices: u64,
    pub(crate) failures: u64,
}

impl<'a> MemoryFiles<'a> {
    /// A source of these files, of which none is chosen. No read of it has failed yet.
    pub(crate) fn new(files: FileIndex<'a>, input: &'a [u8]) -> Self
        ensures { memory_source result ≡ source_at_first files.entry input.now }
    {
        MemoryFiles {
            files,
            input,
            place: Place::Nowhere,
            name: &[],
            left: &[],
            choices: 0,
            failures: 0,
        }
    }
}

impl Read for MemoryFiles<'_> {
    ghost remaining = { λ h. Some (left_of (memory_source h)) };

    fn read(&mut self, buf: &mut [u8]) -> Result<usize> {
        self.read_chosen(buf)
    }
}

impl Files for MemoryFiles<'_> {
    ghost source_state = { λ h. Some (memory_source h) };

    ghost tells = { λ h. refl };

    fn choose(&mut self, name: &str) -> bool {
        self.choices = self.choices.wrapping_add(1);
        if name == "-" {
            self.place = Place::Input;
            return true;
        }
        match self.files.find(name.as_bytes()) {
            Some(file) => {
                self.name = file.name;
                self.left = file.bytes;
                self.place = Place::File;
                true
            }
            None => {
                self.place = Place::Nowhere;
                false
            }
        }
    }

    fn is_regular(&self, _name: &str) -> bool {
        true
    }

    fn unread_cause(&self, name: &str) -> UnreadCause {
        if name == "-" || self.files.find(name.as_bytes()).is_some() {
            UnreadCause::Other
        } else {
            UnreadCause::NotFound
        }
    }

    fn read_chosen(&mut self, buf: &mut [u8]) -> Result<usize> {
        match self.place {
            Place::Nowhere => {
                self.failures = self.failures.saturating_add(1);
                Err(Error::from(ErrorKind::NotFound))
            }
            Place::Input => self.input.read(buf),
            Place::File => self.left.read(buf),
        }
    }
}
