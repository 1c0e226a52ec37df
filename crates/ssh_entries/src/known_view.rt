//! `KnownLineView` and `KnownEntryView`: a line of a known_hosts file, read in place.

ghost use Rattle.std.specs.Prelude.{◌≡◌, ◌↔◌, IsTrue, ◌≤◌, ℕ, List, length};
ghost use Rattle.ssh_entries.specs.Markers.{first_field_of};
ghost use Rattle.ssh_keys.specs.KeyOf.{key_of};
ghost use Rattle.ssh_keys.specs.PublicKey.{key_blob};
ghost use Rattle.ssh_entries.specs.Names.{base64, names_host};
ghost use Rattle.ssh_entries.specs.SameEntries.{are_same_known};
ghost use Rattle.base64.specs.Decode.{decoded_estimate};
ghost use Rattle.ssh_wire.specs.Reading.{Gives};
ghost use Rattle.ssh_entries.specs.KnownEntry.{KnownEntry};
ghost use Rattle.ssh_entries.specs.declared.known_line.KnownLine.{KnownLine};
ghost use Rattle.ssh_options.specs.declared.option_text.LineCause.{LineCause};
ghost use Rattle.ssh_entries.specs.KeyLimit.{key_limit};
ghost use Rattle.ssh_entries.specs.KnownFaults.{IsKnownFault};
ghost use Rattle.ssh_entries.specs.KnownGrammar.{IsUnreadableRevocation, RevokesBytes, SpellsKnown, known_line, known_entry_of_fields, line_of_entry, line_of_fields, revoked_of};
ghost use Rattle.ssh_entries.specs.KnownSeen.{known_seen};

use crate::auth_view::{Front, front_of, split_fields};
use crate::key_view::{Decoder, KeyBuffer, KeyPartView, key_fields, key_in_text};
use crate::names::{HostNames, NamesError, names_host, read_names};
use ssh_keys::KeyView;
use ssh_options::LineCause;
use ssh_text::{skip_blanks, split_word};
use std::marker::Model;

const AUTHORITY: &[u8] = b"@cert-authority";

const REVOKED: &[u8] = b"@revoked";

/// The marker before the names of an entry (sshd(8), SSH_KNOWN_HOSTS FILE FORMAT). `@revoked` is
/// not one of them: a revocation is never an entry.
#[derive(Debug, Clone, Copy, PartialEq, Eq)]
pub enum Marker {
    Unmarked,
    /// `@cert-authority`: the key signs the certificates of these hosts.
    CertAuthority,
}

/// The sort of a line's first field.
pub(crate) enum FirstField {
    Names,
    CertAuthority,
    Revoked,
    /// Another field that begins with `@`.
    Unknown,
}

/// The sort of a first field. A marker is the whole field, byte for byte.
#[tactic(auto, unfolding(crate::specs::Markers::first_field_of))]
pub(crate) fn first_field_of(field: &[u8]) -> FirstField
    ensures { result ≡ first_field_of field.now }
{
    if field == AUTHORITY {
        FirstField::CertAuthority
    } else if field == REVOKED {
        FirstField::Revoked
    } else if field.starts_with(b"@") {
        FirstField::Unknown
    } else {
        FirstField::Names
    }
}

/// A key that hosts may have, with its marker, names and comment, as a view of its line. Contracts
/// see the entry.
#[derive(Debug, Drop)]
pub struct KnownEntryView<'a> {
    marker: Marker,
    names: HostNames<'a>,
    part: KeyPartView<'a>,
}

impl<'a> Model for KnownEntryView<'a> {
    ghost use Rattle.ssh_entries.specs.KnownEntry.{KnownEntry};

    ghost Value = { KnownEntry };

    ghost view = { λ v. record {
      marker = v.marker;
      names = v.names;
      key = v.part.key;
      comment = v.part.comment;
    } };
}

impl<'a> KnownEntryView<'a> {
    /// Joins a marker and names with a key and its comment.
    pub(crate) fn new(
        marker: Marker,
        names: HostNames<'a>,
        part: KeyPartView<'a>,
    ) -> KnownEntryView<'a>
        ensures marker { result.marker ≡ marker }
        ensures names { result.names ≡ names.entry }
        ensures key { result.key ≡ part.entry.key }
        ensures comment { result.comment ≡ part.entry.comment }
    {
        KnownEntryView {
            marker,
            names,
            part,
        }
    }

    /// The marker before the names.
    pub fn marker(&self) -> Marker
        ensures { result ≡ self.now.marker }
    {
        self.marker
    }

    /// The names of the hosts that may have the key.
    pub fn names(&self) -> HostNames<'a>
        ensures { result ≡ self.now.names }
    {
        self.names.again()
    }

    /// The key, read again from its blob.
    pub fn key(&self) -> KeyView<'a>
        ensures { key_of result ≡ self.now.key }
    {
        self.part.key()
    }

    /// The key's blob, which lies in the buffer that the line was read with.
    pub fn blob(&self) -> &'a [u8]
        ensures { result.now ≡ key_blob self.now.key }
    {
        self.part.blob()
    }

    /// The comment, without the blanks and CRs at its end; empty where there is none.
    pub fn comment(&self) -> &'a [u8]
        ensures { result.now ≡ self.now.comment }
    {
        self.part.comment()
    }

    /// The base64 of the key's blob as it is on the line, and the comment after it.
    pub fn base64_and_comment(&self) -> (&'a [u8], &'a [u8])
        ensures base64 { result.0.now ≡ base64 (key_blob self.now.key) }
        ensures comment { result.1.now ≡ self.now.comment }
    {
        self.part.base64_and_comment()
    }

    /// Whether this is the blob of the key.
    pub fn has_blob(&self, blob: &[u8]) -> bool
        ensures { IsTrue result ↔ (blob.now ≡ key_blob self.now.key) }
    {
        blob == self.blob()
    }
}

/// Entries are equal exactly where their names, markers, keys and comments are.
impl PartialEq for KnownEntryView<'_> {
    ghost use Rattle.std.specs.Cmp.{partial_equiv_from_equiv};
    ghost use Rattle.ssh_entries.specs.SameEntries.{are_same_known};
    ghost use Rattle.ssh_entries.specs.SameLaws.{known_equiv};

    ghost eq = { are_same_known };

    ghost laws = { partial_equiv_from_equiv known_equiv };

    fn eq(&self, other: &Self) -> bool
        ensures value { result ≡ are_same_known self.now other.now }
        ensures same { IsTrue result ↔ (self.now ≡ other.now) }
    {
        self.names == other.names
            && self.marker() == other.marker()
            && self.key() == other.key()
            && self.comment() == other.comment()
    }
}

impl Eq for KnownEntryView<'_> {
    ghost use Rattle.ssh_entries.specs.SameLaws.{known_equiv};

    ghost laws = { known_equiv };
}

/// A line of a known_hosts file, read in place.
#[derive(Debug, Drop, PartialEq, Eq)]
pub enum KnownLineView<'a> {
    Blank,
    Comment,
    Entry(KnownEntryView<'a>),
    Unreadable(LineCause),
    /// The line revokes the key with this blob, and a certificate whose signer has it, for every
    /// host.
    Revoked(&'a [u8]),
    /// The line may revoke any key: it is longer than 65,536 bytes, or its revocation has no bytes
    /// that can be decoded.
    RevokedUnreadable,
}

/// The entry of a names field and a text of type, base64 and comment. A missing type or base64 is
/// reported before a fault of the names.
#[tactic(auto, unfolding(crate::specs::KnownGrammar::known_entry_of_fields))]
fn view_fields<'a>(
    marker: Marker,
    field: &'a [u8],
    key: &'a [u8],
    decoder: &Decoder,
    buffer: &'a mut [u8],
) -> Result<KnownEntryView<'a>, LineCause>
    requires { decoded_estimate (length key.now) ≤ length buffer.old }
    ensures { Gives (λ e. e) result (known_entry_of_fields marker field.entry.now key.entry.now) }
{
    let (class, text) = key_fields(key)?;
    let names = match read_names(field) {
        Ok(names) => names,
        Err(NamesError::HashedName) => return Err(LineCause::HashedName),
        Err(NamesError::EmptyItem) => return Err(LineCause::Names),
    };
    let part = key_in_text(class, text, decoder, buffer)?;
    Ok(KnownEntryView::new(marker, names, part))
}

/// The line of an entry, or of its first fault.
fn line_of<'a>(entry: Result<KnownEntryView<'a>, LineCause>) -> KnownLineView<'a>
    ensures { known_seen result ≡ line_of_entry entry.entry }
{
    match entry {
        Ok(entry) => KnownLineView::Entry(entry),
        Err(cause) => KnownLineView::Unreadable(cause),
    }
}

/// The revocation by a line with this base64 field. An empty field counts as missing, since the
/// base64 of nothing would revoke the empty bytes.
fn view_revoked<'a>(field: &[u8], decoder: &Decoder, buffer: &'a mut [u8]) -> KnownLineView<'a>
    requires { decoded_estimate (length field.now) ≤ length buffer.old }
    ensures { known_seen result ≡ revoked_of field.now }
{
    match decoder.decode_into(field, buffer) {
        Ok(bytes) if !field.is_empty() => KnownLineView::Revoked(bytes),
        _ => KnownLineView::RevokedUnreadable,
    }
}

/// Reads the fields of a line that is neither blank nor a comment.
pub(crate) fn view_known_fields<'a>(
    body: &'a [u8],
    decoder: &Decoder,
    buffer: &'a mut [u8],
) -> KnownLineView<'a>
    requires { decoded_estimate (length body.now) ≤ length buffer.old }
    ensures { known_seen result ≡ line_of_fields body.entry.now }
{
    let (first, after) = split_word(body);
    let rest = skip_blanks(after);
    match first_field_of(first) {
        FirstField::Names => line_of(view_fields(Marker::Unmarked, first, rest, decoder, buffer)),
        FirstField::CertAuthority => {
            let (names, after) = split_word(rest);
            line_of(view_fields(
                Marker::CertAuthority,
                names,
                skip_blanks(after),
                decoder,
                buffer,
            ))
        }
        FirstField::Revoked => {
            let (_, after) = split_word(rest);
            let (_, field, _) = split_fields(skip_blanks(after));
            view_revoked(field, decoder, buffer)
        }
        FirstField::Unknown => KnownLineView::Unreadable(LineCause::Marker),
    }
}

#[tactic(auto, unfolding(crate::specs::KnownGrammar::known_line))]
fn view_line<'a>(line: &'a [u8], decoder: &Decoder, buffer: &'a mut [u8]) -> KnownLineView<'a>
    requires { length buffer.old ≡ key_limit }
    ensures { known_seen result ≡ known_line line.entry.now }
{
    match front_of(line) {
        // Its first field may be `@revoked`.
        Front::TooLong => KnownLineView::RevokedUnreadable,
        Front::Blank => KnownLineView::Blank,
        Front::Comment => KnownLineView::Comment,
        Front::Fields(body) => view_known_fields(body, decoder, buffer),
    }
}

/// Reads a line of a known_hosts file (sshd(8), SSH_KNOWN_HOSTS FILE FORMAT) in place, given
/// without its LF. One CR at its end is ignored. Keys and revoked bytes are decoded into the
/// buffer. No memory is allocated.
pub fn read_known_view<'a>(line: &'a [u8], buffer: &'a mut KeyBuffer) -> KnownLineView<'a>
    // An entry that is read is one that the line spells.
    ensures found { (entry : KnownEntry) →
        known_seen result ≡ KnownLine.Entry entry → SpellsKnown entry line.entry.now }
    // An entry that the line spells is the one that is read.
    ensures only { (entry : KnownEntry) →
        SpellsKnown entry line.entry.now → known_seen result ≡ KnownLine.Entry entry }
    // A line that revokes is reported with exactly its bytes.
    ensures revoked { (bytes : List ℕ) →
        (known_seen result ≡ KnownLine.Revoked bytes) ↔ RevokesBytes line.entry.now bytes }
    // A line is reported as one that may revoke any key exactly where it may.
    ensures unreadable_revocation { (known_seen result ≡ KnownLine.RevokedUnreadable) ↔ IsUnreadableRevocation line.entry.now }
    // A line that is reported as unreadable has that fault, and none that is tested before it.
    ensures fault { (cause : LineCause) →
        known_seen result ≡ KnownLine.Unreadable cause → IsKnownFault cause line.entry.now }
    // Otherwise the line is blank, a comment, or has this first fault.
    ensures exact { known_seen result ≡ known_line line.entry.now }
{
    let KeyBuffer { decoder, room } = buffer;
    view_line(line, decoder, room.as_mut_slice())
}
