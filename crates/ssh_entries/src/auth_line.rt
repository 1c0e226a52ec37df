//! `AuthLine` and `AuthEntry`: a line of an authorized_keys file, copied into memory of its own.

ghost use Rattle.std.specs.Prelude.{◌≡◌, IfOk, List, false, IsOk};
ghost use Rattle.ssh_entries.specs.declared.auth_line.AuthLine.TheVariants.{Entry};
ghost use Rattle.ssh_entries.specs.AuthGrammar.{auth_line, SpellsEntry, entry_of};
ghost use Rattle.ssh_entries.specs.Kept.{auth_entry};
ghost use Rattle.ssh_entries.specs.AuthEntry.{AuthEntry};
ghost use Rattle.ssh_options.specs.declared.option_text.LineCause.{LineCause};
ghost use Rattle.ssh_entries.specs.AuthFaults.{IsAuthFault};
ghost use Rattle.ssh_entries.specs.EntryFields.{needs_bytes};
ghost use Rattle.ssh_entries.specs.LineError.{SaysEntry};

use crate::auth_view::{AuthEntryView, AuthLineView, EntryFields, Front, front_of, read_auth_view};
use crate::key_view::{Decoder, KeyBuffer, LineError};
use base64::decoded_len_estimate;
use ssh_options::LineCause;
use std::alloc::{AllocError, Global};
use std::marker::Model;

/// A key that may log in, with its options and comment. It owns a copy of its line. Contracts see
/// the entry.
#[derive(Debug, Drop)]
pub struct AuthEntry {
    line: Vec<u8>,
}

impl Model for AuthEntry {
    ghost use Rattle.std.specs.Prelude.{◌≡◌};
    ghost use Rattle.ssh_entries.specs.AuthEntry.{AuthEntry};

    ghost Value = { AuthEntry };

    ghost use Rattle.ssh_entries.specs.declared.auth_line.AuthLine.TheVariants.{Entry};
    ghost use Rattle.ssh_entries.specs.AuthGrammar.{auth_line};
    ghost use Rattle.ssh_entries.specs.Kept.{auth_entry};

    ghost view = { λ e. auth_entry (auth_line e.line.items) };

    ghost invariant = { λ e. auth_line e.line.items ≡ Entry (auth_entry (auth_line e.line.items)) };
}

impl AuthEntry {
    /// Copies a line that has an entry.
    pub(crate) fn keep(alloc: Global, line: &[u8]) -> Result<AuthEntry, AllocError>
        requires { auth_line line.now ≡ Entry (auth_entry (auth_line line.now)) }
        ensures { IfOk result (λ entry. auth_line line.now ≡ Entry entry) }
    {
        let line = line.to_vec(alloc)?;
        Ok(AuthEntry { line })
    }

    /// The entry as a view of its line, which is read again: the key is decoded into the buffer. No
    /// memory is allocated.
    pub fn view<'a>(&'a self, buffer: &'a mut KeyBuffer) -> AuthEntryView<'a>
        ensures { result ≡ self.entry.now }
    {
        match read_auth_view(&self.line, buffer) {
            AuthLineView::Entry(entry) => entry,
            _ => unreachable!(),
        }
    }
}

/// A line of an authorized_keys file, as read.
#[derive(Debug, Drop)]
pub enum AuthLine {
    Blank,
    Comment,
    Entry(AuthEntry),
    Unreadable(LineCause),
}

/// The entry of a line with this body, which is neither blank nor a comment.
#[tactic(auto, using(crate::proofs::BytesLemmas::fields_need_bytes))]
fn entry_in(alloc: Global, line: &[u8], body: &[u8]) -> Result<AuthEntry, LineError>
    requires { auth_line line.now ≡ entry_of body.now }
    ensures { SaysEntry result (entry_of body.now) }
{
    let fields = EntryFields::read(body)?;
    let mut buffer = vec![in alloc; 0u8; decoded_len_estimate(fields.text.len())]?;
    let _view = fields.view(&Decoder::new(), buffer.as_mut_slice())?;
    let entry = AuthEntry::keep(alloc, line)?;
    Ok(entry)
}

#[tactic(auto, unfolding(crate::specs::AuthGrammar::auth_line))]
fn read_line(alloc: Global, line: &[u8]) -> Result<AuthLine, AllocError>
    ensures exact { IfOk result (λ read. read ≡ auth_line line.now) }
    ensures spare { needs_bytes (auth_line line.now) ≡ false → IsOk result }
{
    match front_of(line) {
        Front::TooLong => Ok(AuthLine::Unreadable(LineCause::TooLong)),
        Front::Blank => Ok(AuthLine::Blank),
        Front::Comment => Ok(AuthLine::Comment),
        Front::Fields(body) => match entry_in(alloc, line, body) {
            Ok(entry) => Ok(AuthLine::Entry(entry)),
            Err(LineError::Cause(cause)) => Ok(AuthLine::Unreadable(cause)),
            Err(LineError::Memory) => Err(AllocError),
        },
    }
}

/// Reads a line of an authorized_keys file (sshd(8), AUTHORIZED_KEYS FILE FORMAT), given without
/// its LF. One CR at its end is ignored. A line of more than 65,536 bytes is unreadable as
/// `TooLong`, any other for its first fault. Fails only when memory cannot be allocated.
pub fn read_auth_line(alloc: Global, line: &[u8]) -> Result<AuthLine, AllocError>
    // An entry that is read is one that the line spells.
    ensures found { IfOk result
        (λ read. (entry : AuthEntry) → read ≡ AuthLine.Entry entry → SpellsEntry entry line.now) }
    // An entry that the line spells is the one that is read.
    ensures only { IfOk result
        (λ read. (entry : AuthEntry) → SpellsEntry entry line.now → read ≡ AuthLine.Entry entry) }
    // A line that is reported as unreadable has that fault, and none that is tested before it.
    ensures fault { IfOk result (λ read. (cause : LineCause)
        → read ≡ AuthLine.Unreadable cause → IsAuthFault cause line.now) }
    // Otherwise the line is blank, a comment, or has this first fault.
    ensures exact { IfOk result (λ read. read ≡ auth_line line.now) }
    // Memory is allocated only for an entry and for a fault of the key's bytes. A blank line, a
    // comment, a line that is too long or has a fault before the base64 never fails.
    ensures spare { needs_bytes (auth_line line.now) ≡ false → IsOk result }
{
    let read = read_line(alloc, line)?;
    Ok(read)
}
