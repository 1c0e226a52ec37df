//! Why files could not be read, as standard error tells it.

ghost use Rattle.std.specs.Prelude.{◌≡◌, ◌++◌, [], OnErr, OnOk, IfOk};
ghost use Rattle.ssh_audit.specs.Unread.{reported_with, unread_line, why};

use ssh_print::push_escaped;
use std::alloc::{AllocError, Global};
use std::io::ErrorKind;

/// How many bytes are reported at most, but for the last line.
const ROOM: usize = 65_536;

/// Why a file could not be opened or read.
fn why(kind: ErrorKind) -> &'static [u8]
    ensures { result.now ≡ why kind }
{
    match kind {
        ErrorKind::NotFound => b"there is no such file",
        ErrorKind::PermissionDenied => b"it may not be read",
        ErrorKind::IsADirectory => b"it is a folder",
        _ => b"it could not be read",
    }
}

/// The line of a file that could not be read.
fn unread_line(alloc: Global, name: &[u8], kind: ErrorKind) -> Result<Vec<u8>, AllocError>
    ensures { IfOk result (λ line. line.items ≡ unread_line name.now kind) }
{
    let mut line = Vec::from_slice(alloc, b"ssh_audit: ")?;
    push_escaped(&mut line, name)?;
    line.extend_from_slice(b": ")?;
    line.extend_from_slice(why(kind))?;
    line.push(b'\n')?;
    Ok(line)
}

/// What standard error says of files that could not be read.
#[derive(Drop)]
pub struct Unread {
    alloc: Global,
    /// The file that was chosen last; empty once it was reported, or where memory for it was refused.
    name: Vec<u8>,
    text: Vec<u8>,
}

impl Unread {
    /// Nothing yet.
    pub fn new(alloc: Global) -> Self
        ensures name { result.name.items ≡ [] }
        ensures text { result.text.items ≡ [] }
    {
        Unread {
            alloc,
            name: Vec::new(alloc),
            text: Vec::new(alloc),
        }
    }

    /// The lines so far.
    pub fn text(&self) -> &[u8]
        ensures { result.now ≡ self.now.text.items }
    {
        &self.text
    }

    /// Remembers which file is read from now on. On an error none is remembered.
    pub fn begin(&mut self, name: &str) -> Result<(), AllocError>
        ensures text { self.new.text ≡ self.old.text }
        ensures name { OnOk result (self.new.name.items ≡ name.now) }
        ensures err { OnErr result (self.new.name.items ≡ []) }
    {
        self.name.clear();
        self.name.extend_from_slice(name.as_bytes())
    }

    /// Appends the line of the file, if it was not reported and there is room.
    fn push_line(&mut self, kind: ErrorKind) -> Result<(), AllocError>
        ensures reported { OnOk result (self.new.text.items
            ≡ reported_with self.old.name.items kind self.old.text.items) }
        ensures err { OnErr result (self.new.text.items ≡ self.old.text.items) }
    {
        if self.name.is_empty() || self.text.len() >= ROOM {
            return Ok(());
        }
        let line = unread_line(self.alloc, &self.name, kind)?;
        self.text.extend_from_slice(&line)
    }

    /// Tells that the file could not be read, once. Nothing is reported where there is no room for more,
    /// and on an error.
    pub fn tell(&mut self, kind: ErrorKind) -> Result<(), AllocError>
        ensures reported { OnOk result (self.new.text.items
            ≡ reported_with self.old.name.items kind self.old.text.items) }
        ensures err { OnErr result (self.new.text.items ≡ self.old.text.items) }
        ensures once { self.new.name.items ≡ [] }
    {
        let reported = self.push_line(kind);
        self.name.clear();
        reported
    }
}
