//! The least line that says something of a byte text.

ghost use Rattle.std.specs.Prelude.{if◌then◌else◌, ◌≡◌, ◌≤◌, length, ◌+◌, ℕ, List, IsOk, OnErr, OnOk, None, Some, bytes_eq, option_copied};
ghost use Rattle.ssh_findings.specs.Number.{number};
ghost use Rattle.ssh_findings.specs.HostFindingsEarlier.{is_blob};
ghost use Rattle.ssh_findings.specs.Least.{lesser};
ghost use Rattle.ssh_findings.specs.Maps.{IsPrepared, line_at, line_in};
ghost use Rattle.ssh_findings.specs.HostFindingsMemory.{spelling_bytes, spelling_sum, texts_bytes, texts_sum};

use crate::map::ByteMap;
use crate::table::number;
use ssh_text::Bytes;
use std::alloc::{AllocError, Global};

/// The lower of two line numbers, or the only one.
pub(crate) fn lesser(one: Option<u64>, other: Option<u64>) -> Option<u64>
    ensures { result ≡ lesser one other }
{
    match (one, other) {
        (None, other) => other,
        (Some(one), None) => Some(one),
        (Some(one), Some(other)) => Some(one.min(other)),
    }
}

/// The lower of a stored line number, if there is one, and this one.
fn least(kept: Option<u64>, line: u64) -> u64
    ensures { Some result ≡ lesser kept (Some line) }
{
    match kept {
        None => line,
        Some(kept) => kept.min(line),
    }
}

/// The line number of an entry, if it has one.
fn line_in(kept: Option<&Option<u64>>) -> Option<u64>
    ensures { result ≡ line_in (option_copied kept.entry) }
{
    match kept {
        None => None,
        Some(line) => *line,
    }
}

/// The lowest line number for each of some texts.
#[derive(Debug, Drop)]
pub(crate) struct LeastLines {
    /// A text may be here with no line yet: `prepare` stores it so, and `keep` then needs no
    /// memory for its line.
    lines: ByteMap<Option<u64>>,
}

impl LeastLines {
    pub(crate) fn new(alloc: Global) -> LeastLines
        ensures empty { (bytes : List ℕ) → line_at result bytes ≡ None }
        ensures bytes { texts_bytes result ≡ 0 }
        ensures sum { (weight : List ℕ → ℕ) → texts_sum weight result ≡ 0 }
    {
        LeastLines {
            lines: ByteMap::new(alloc),
        }
    }

    /// The lowest line number that is stored for a text.
    pub(crate) fn line(&self, bytes: &[u8]) -> Option<u64>
        ensures { result ≡ line_at self.now bytes.now }
    {
        line_in(self.lines.get(bytes))
    }

    /// Stores a text, so that `keep` needs no memory for it. No line is stored.
    pub(crate) fn prepare(&mut self, alloc: Global, bytes: &[u8]) -> Result<(), AllocError>
        ensures lines { (other : List ℕ) → line_at self.new other ≡ line_at self.old other }
        ensures prepared { OnOk result (IsPrepared self.new bytes.now) }
        ensures bytes { OnOk result (texts_bytes self.new ≤ texts_bytes self.old + length bytes.now) }
        ensures sum { OnOk result ((weight : List ℕ → ℕ)
            → texts_sum weight self.new ≤ texts_sum weight self.old + weight bytes.now) }
    {
        let spot = self.lines.find(bytes);
        let line = line_in(self.lines.get_at(bytes, spot));
        self.lines.insert(alloc, bytes, spot, line)?;
        Ok(())
    }

    /// Stores a line number for a text, unless a lower one is stored. Does not allocate if the text
    /// is prepared. If allocation fails, nothing is stored.
    pub(crate) fn keep(&mut self, alloc: Global, bytes: &[u8], line: u64) -> Result<(), AllocError>
        ensures ok { OnOk result ((other : List ℕ) → line_at self.new other
            ≡ if bytes_eq bytes.now other then lesser (line_at self.old other) (Some line) else line_at self.old other) }
        ensures bytes { OnOk result (texts_bytes self.new ≤ texts_bytes self.old + length bytes.now) }
        ensures sum { OnOk result ((weight : List ℕ → ℕ)
            → texts_sum weight self.new ≤ texts_sum weight self.old + weight bytes.now) }
        ensures err { OnErr result
            ((other : List ℕ) → line_at self.new other ≡ line_at self.old other) }
        ensures spare { IsPrepared self.old bytes.now → IsOk result }
        // A prepared text is stored already.
        ensures same { IsPrepared self.old bytes.now → OnOk result ((weight : List ℕ → ℕ)
            → texts_sum weight self.new ≡ texts_sum weight self.old) }
    {
        let spot = self.lines.find(bytes);
        let least = least(line_in(self.lines.get_at(bytes, spot)), line);
        self.lines.insert(alloc, bytes, spot, Some(least))?;
        Ok(())
    }

    /// Stores a line number for a text, if there is one. If allocation fails, nothing is stored.
    pub(crate) fn keep_some(
        &mut self,
        alloc: Global,
        bytes: &Option<Bytes>,
        line: u64,
    ) -> Result<(), AllocError>
        ensures ok { OnOk result ((other : List ℕ) → line_at self.new other
            ≡ if is_blob bytes.now other then lesser (line_at self.old other) (Some line) else line_at self.old other) }
        ensures bytes { OnOk result (texts_bytes self.new ≤ texts_bytes self.old + spelling_bytes bytes.now) }
        ensures sum { OnOk result ((weight : List ℕ → ℕ)
            → texts_sum weight self.new ≤ texts_sum weight self.old + spelling_sum weight bytes.now) }
        ensures err { OnErr result
            ((other : List ℕ) → line_at self.new other ≡ line_at self.old other) }
        ensures spare { bytes.now ≡ None → IsOk result }
    {
        match bytes {
            None => Ok(()),
            Some(bytes) => self.keep(alloc, bytes.as_slice(), line),
        }
    }
}
