//! `KnownLine` and `KnownEntry`: a line of a known_hosts file, copied into memory of its own.

ghost use Rattle.std.specs.Prelude.{◌≡◌, IfOk, ◌≤◌, ◌↔◌, ℕ, List, false, IsOk, length};
ghost use Rattle.ssh_entries.specs.declared.known_line.KnownLine.TheVariants.{Entry};
ghost use Rattle.ssh_entries.specs.KnownGrammar.{known_line, IsUnreadableRevocation, RevokesBytes, SpellsKnown, line_of_fields};
ghost use Rattle.ssh_entries.specs.Kept.{known_entry};
ghost use Rattle.ssh_entries.specs.KnownEntry.{KnownEntry};
ghost use Rattle.ssh_entries.specs.declared.known_line.KnownLine.{KnownLine};
ghost use Rattle.ssh_entries.specs.Front.{front_of, has_fields};
ghost use Rattle.ssh_options.specs.declared.option_text.LineCause.{LineCause};
ghost use Rattle.ssh_entries.specs.KnownFaults.{IsKnownFault};
ghost use Rattle.ssh_entries.specs.KnownSeen.{known_seen};

use crate::auth_view::{Front, front_of};
use crate::key_view::{Decoder, KeyBuffer};
use crate::known_view::{KnownEntryView, KnownLineView, read_known_view, view_known_fields};
use base64::decoded_len_estimate;
use ssh_options::LineCause;
use ssh_text::Bytes;
use std::alloc::{AllocError, Global};
use std::marker::Model;

/// A key that hosts may have, or a certificate authority's key that may sign their certificates. It
/// owns a copy of its line. Contracts see the entry.
#[derive(Debug, Drop)]
pub struct KnownEntry {
    line: Vec<u8>,
}

impl Model for KnownEntry {
    ghost use Rattle.std.specs.Prelude.{◌≡◌};
    ghost use Rattle.ssh_entries.specs.KnownEntry.{KnownEntry};

    ghost Value = { KnownEntry };

    ghost use Rattle.ssh_entries.specs.declared.known_line.KnownLine.TheVariants.{Entry};
    ghost use Rattle.ssh_entries.specs.KnownGrammar.{known_line};
    ghost use Rattle.ssh_entries.specs.Kept.{known_entry};

    ghost view = { λ e. known_entry (known_line e.line.items) };

    ghost invariant = { λ e.
        known_line e.line.items ≡ Entry (known_entry (known_line e.line.items)) };
}

impl KnownEntry {
    /// Copies a line that has an entry.
    pub(crate) fn keep(alloc: Global, line: &[u8]) -> Result<KnownEntry, AllocError>
        requires { known_line line.now ≡ Entry (known_entry (known_line line.now)) }
        ensures { IfOk result (λ entry. known_line line.now ≡ Entry entry) }
    {
        let line = line.to_vec(alloc)?;
        Ok(KnownEntry { line })
    }

    /// The entry as a view of its line, which is read again: the key is decoded into the buffer. No
    /// memory is allocated.
    pub fn view<'a>(&'a self, buffer: &'a mut KeyBuffer) -> KnownEntryView<'a>
        ensures { result ≡ self.entry.now }
    {
        match read_known_view(&self.line, buffer) {
            KnownLineView::Entry(entry) => entry,
            _ => unreachable!(),
        }
    }
}

/// A line of a known_hosts file, as read.
#[derive(Debug, Drop)]
pub enum KnownLine {
    Blank,
    Comment,
    Entry(KnownEntry),
    Unreadable(LineCause),
    /// The line revokes the key with this blob, and a certificate whose signer has it, for every
    /// host.
    Revoked(Bytes),
    /// The line may revoke any key: it is longer than 65,536 bytes, or its revocation has no bytes
    /// that can be decoded.
    RevokedUnreadable,
}

/// Copies what was read in place.
fn keep(alloc: Global, line: &[u8], view: &KnownLineView<'_>) -> Result<KnownLine, AllocError>
    requires { known_line line.now ≡ known_seen view.now }
    ensures { IfOk result (λ kept. kept ≡ known_seen view.entry.now) }
{
    match view {
        KnownLineView::Blank => Ok(KnownLine::Blank),
        KnownLineView::Comment => Ok(KnownLine::Comment),
        KnownLineView::Entry(_) => Ok(KnownLine::Entry(KnownEntry::keep(alloc, line)?)),
        KnownLineView::Unreadable(cause) => Ok(KnownLine::Unreadable(*cause)),
        KnownLineView::Revoked(bytes) => Ok(KnownLine::Revoked(Bytes::new(bytes.to_vec(alloc)?))),
        KnownLineView::RevokedUnreadable => Ok(KnownLine::RevokedUnreadable),
    }
}

/// Reads the fields of a line that is neither blank nor a comment.
fn read_fields(alloc: Global, line: &[u8], body: &[u8]) -> Result<KnownLine, AllocError>
    requires { known_line line.now ≡ line_of_fields body.now }
    ensures { IfOk result (λ read. read ≡ line_of_fields body.now) }
{
    let mut buffer = vec![in alloc; 0u8; decoded_len_estimate(body.len())]?;
    let view = view_known_fields(body, &Decoder::new(), buffer.as_mut_slice());
    let read = keep(alloc, line, &view)?;
    Ok(read)
}

#[tactic(auto, unfolding(crate::specs::KnownGrammar::known_line))]
fn read_line(alloc: Global, line: &[u8]) -> Result<KnownLine, AllocError>
    ensures exact { IfOk result (λ read. read ≡ known_line line.now) }
    ensures spare { has_fields (front_of line.now) ≡ false → IsOk result }
{
    match front_of(line) {
        // Its first field may be `@revoked`.
        Front::TooLong => Ok(KnownLine::RevokedUnreadable),
        Front::Blank => Ok(KnownLine::Blank),
        Front::Comment => Ok(KnownLine::Comment),
        Front::Fields(body) => read_fields(alloc, line, body),
    }
}

/// Reads a line of a known_hosts file (sshd(8), SSH_KNOWN_HOSTS FILE FORMAT), given without its LF.
/// One CR at its end is ignored. Fails only when memory cannot be allocated.
pub fn read_known_line(alloc: Global, line: &[u8]) -> Result<KnownLine, AllocError>
    // An entry that is read is one that the line spells.
    ensures found { IfOk result (λ read. (entry : KnownEntry) →
        read ≡ KnownLine.Entry entry → SpellsKnown entry line.now) }
    // An entry that the line spells is the one that is read.
    ensures only { IfOk result (λ read. (entry : KnownEntry) →
        SpellsKnown entry line.now → read ≡ KnownLine.Entry entry) }
    // A line that revokes is reported with exactly its bytes.
    ensures revoked { IfOk result (λ read. (bytes : List ℕ) →
        (read ≡ KnownLine.Revoked bytes) ↔ RevokesBytes line.now bytes) }
    // A line is reported as one that may revoke any key exactly where it may.
    ensures unreadable_revocation { IfOk result (λ read. (read ≡ KnownLine.RevokedUnreadable) ↔ IsUnreadableRevocation line.now) }
    // A line that is reported as unreadable has that fault, and none that is tested before it.
    ensures fault { IfOk result (λ read. (cause : LineCause) →
        read ≡ KnownLine.Unreadable cause → IsKnownFault cause line.now) }
    // Otherwise the line is blank, a comment, or has this first fault.
    ensures exact { IfOk result (λ read. read ≡ known_line line.now) }
    // A blank line, a comment and a line past the limit allocate nothing.
    ensures spare { has_fields (front_of line.now) ≡ false → IsOk result }
{
    let read = read_line(alloc, line)?;
    Ok(read)
}
