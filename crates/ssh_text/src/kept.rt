//! A buffer for the bytes of one line, which stores no line past the limit.

ghost use Rattle.std.specs.Prelude.{◌≡◌, ◌↔◌, ◌<◌, ◌≤◌, ◌+◌, IsTrue, IsOk, ◌++◌, [], length, List, ℕ, OnOk, OnErr};
ghost use Rattle.ssh_text.specs.Text.{line_limit};
ghost use Rattle.ssh_text.specs.Kept.{KeepsLine, kept_count};

use crate::file::LINE_LIMIT;
use std::alloc::{AllocError, Global};
use std::marker::Model;

/// The bytes of a line, or the mark that it is longer than `LINE_LIMIT`. One buffer serves all
/// lines of a file.
#[derive(Debug, Drop)]
pub(crate) struct KeptLine {
    bytes: Vec<u8>,
    too_long: bool,
}

impl Model for KeptLine {
    ghost use Rattle.std.specs.Prelude.{◌≤◌, length};
    ghost use Rattle.ssh_text.specs.Text.{line_limit};
    ghost use Rattle.ssh_text.specs.Kept.{Kept};

    ghost Value = { Kept };

    ghost view = { λ s. record { bytes = s.bytes.items; too_long = s.too_long } };

    ghost invariant = { λ s. length s.bytes.items ≤ line_limit };
}

impl KeptLine {
    /// An empty line.
    pub(crate) fn new(alloc: Global) -> KeptLine
        ensures keeps { KeepsLine result [] }
        ensures bound { length result.bytes ≤ line_limit }
    {
        KeptLine {
            bytes: Vec::new(alloc),
            too_long: false,
        }
    }

    pub(crate) fn is_too_long(&self) -> bool
        ensures { result ≡ self.now.too_long }
    {
        self.too_long
    }

    /// Whether the line has no bytes. A line that is too long is not empty.
    pub(crate) fn is_empty(&self) -> bool
        ensures { (line : List ℕ) → KeepsLine self.now line → (IsTrue result ↔ (length line ≡ 0)) }
    {
        !self.too_long && self.bytes.is_empty()
    }

    pub(crate) fn as_slice(&self) -> &[u8]
        ensures value { result.now ≡ self.now.bytes }
        ensures bound { length result.now ≤ line_limit }
    {
        &self.bytes
    }

    /// Begins an empty line.
    pub(crate) fn clear(&mut self)
        ensures keeps { KeepsLine self.new [] }
        ensures count { kept_count self.new ≡ 0 }
        ensures bound { length self.new.bytes ≤ line_limit }
    {
        self.bytes.clear();
        self.too_long = false;
    }

    /// Appends bytes to the line. On an `Err` the line is unchanged.
    pub(crate) fn append(&mut self, part: &[u8]) -> Result<(), AllocError>
        ensures ok { OnOk result
            ((line : List ℕ) → KeepsLine self.old line → KeepsLine self.new (line ++ part.now)) }
        ensures count { OnOk result (kept_count self.new ≤ kept_count self.old + length part.now) }
        ensures bound { length self.new.bytes ≤ line_limit }
        ensures err { OnErr result (self.new ≡ self.old) }
        ensures spare { (line : List ℕ)
            → KeepsLine self.old line
            → line_limit < length line + length part.now
            → IsOk result }
        ensures nothing { length part.now ≡ 0 → IsOk result }
    {
        if self.too_long {
            return Ok(());
        }
        if part.len() > LINE_LIMIT - self.bytes.len() {
            self.bytes.clear();
            self.too_long = true;
            return Ok(());
        }
        self.bytes.extend_from_slice(part)?;
        Ok(())
    }

    /// Begins the next line with these bytes. On an `Err` the line before is unchanged.
    pub(crate) fn begin(&mut self, part: &[u8]) -> Result<(), AllocError>
        ensures ok { OnOk result (KeepsLine self.new part.now) }
        ensures count { OnOk result (kept_count self.new ≤ length part.now) }
        ensures bound { length self.new.bytes ≤ line_limit }
        ensures err { OnErr result (self.new ≡ self.old) }
        ensures spare { line_limit < length part.now → IsOk result }
        ensures nothing { length part.now ≡ 0 → IsOk result }
    {
        if part.len() > LINE_LIMIT {
            self.bytes.clear();
            self.too_long = true;
            return Ok(());
        }
        replace(&mut self.bytes, part)?;
        self.too_long = false;
        Ok(())
    }
}

/// Replaces the bytes of the buffer. The buffer grows before a byte is overwritten, so that an
/// `Err` changes nothing.
fn replace(buffer: &mut Vec<u8>, part: &[u8]) -> Result<(), AllocError>
    ensures ok { OnOk result (buffer.new.items ≡ part.now) }
    ensures err { OnErr result (buffer.new.items ≡ buffer.old.items) }
    ensures spare { length part.now ≤ length buffer.old.items → IsOk result }
{
    let held = buffer.len();
    if part.len() <= held {
        buffer.truncate(part.len());
        buffer.copy_from_slice(part);
        return Ok(());
    }
    buffer.extend_from_slice(&part[held..])?;
    buffer.truncate(part.len());
    buffer.copy_from_slice(part);
    Ok(())
}
