//! The facts of an entry or a revocation in a known_hosts file, read once for its findings and its
//! record.

ghost use Rattle.std.specs.Prelude.{◌≡◌, IfOk, option_map};
ghost use Rattle.ssh_findings.specs.OpenSsh.{has_long_item_in, has_nul, is_refused_size};
ghost use Rattle.ssh_host_rules.specs.HostAdmission.{marks_authority};
ghost use Rattle.ssh_findings.specs.HostFacts.{has_tab_after_first, host_facts_of, host_may_refuse, lower_list};
ghost use Rattle.ssh_findings.specs.RevocationFacts.{has_other_type, has_type, if_other, names_word, revocation_facts_of, spelling_of, type_word};

use crate::facts::rsa_size;
use crate::key_read::fingerprint_read;
use crate::map::kept;
use crate::openssh::{has_long_item_in, has_nul, is_refused_size};
use crate::recovered_key::known_held_blob;
use ssh_entries::{HostNames, KnownEntryView, Marker};
use ssh_keys::KeyKind;
use ssh_text::{Bytes, skip_blanks, split_word, without_last};
use ssh_wire::Cursor;
use std::alloc::{AllocError, Global};

/// The facts of a known_hosts entry.
#[derive(Debug, Drop)]
pub struct HostFacts {
    pub kind: KeyKind,
    /// The size of an RSA key in bits; `None` for other keys.
    pub bits: Option<u32>,
    /// The SHA-256 fingerprint of the key that OpenSSH reads, in base64 without padding, as
    /// `ssh-keygen -l` prints it after `SHA256:`.
    pub fingerprint: [u8; 43],
    /// The comment after the key; empty if there is none.
    pub comment: Bytes,
    /// Whether the line has `@cert-authority`: its key signs certificates of hosts.
    pub is_authority: bool,
    /// The names field of the line, hashed or not.
    pub names: Bytes,
    /// The list of names in ASCII lower case; `None` if the names are hashed.
    pub list: Option<Bytes>,
    /// Whether a tab follows the marker `@cert-authority`, for which ssh may skip the line.
    pub has_marker_tab: bool,
}

/// Whether OpenSSH has a known reason to pass over an entry with these facts. The reasons are a NUL
/// in its names, a name of 1,023 bytes or more, and an RSA key of fewer than 1,024 or more than
/// 16,384 bits. See hostfile.c, `hostkeys_foreach_file`; match.c, `match_pattern_list`; and
/// sshkey.c, `sshkey_check_rsa_length`.
#[tactic(auto, unfolding(crate::specs::HostFacts::host_may_refuse))]
pub fn host_may_refuse(facts: &HostFacts) -> bool
    ensures { result ≡ host_may_refuse facts.now }
{
    has_nul(facts.names.as_slice()) || has_long_item_in(&facts.list) || is_refused_size(facts.bits)
}

fn marks_authority(marker: Marker) -> bool
    ensures { result ≡ marks_authority marker }
{
    matches!(marker, Marker::CertAuthority)
}

/// Whether a tab follows the first word of a line.
pub(crate) fn has_tab_after_first(line: &[u8]) -> bool
    ensures { result ≡ has_tab_after_first line.now }
{
    let (_, after) = split_word(skip_blanks(without_last(b'\r', line)));
    matches!(after, [b'\t', ..])
}

/// The list of names in ASCII lower case, if they are not hashed: names are compared without regard
/// to case.
fn lower_list(alloc: Global, names: &HostNames<'_>) -> Result<Option<Bytes>, AllocError>
    ensures { IfOk result (λ list. list ≡ lower_list names.now) }
{
    match names.list() {
        None => Ok(None),
        Some(list) => {
            let lower = list.to_ascii_lowercase(alloc)?;
            Ok(Some(Bytes::new(lower)))
        }
    }
}

impl HostFacts {
    /// Reads the facts of the entry on a line.
    #[tactic(auto, unfolding(crate::specs::HostFacts::host_facts_of))]
    pub fn read(
        alloc: Global,
        line: &[u8],
        entry: &KnownEntryView<'_>,
    ) -> Result<HostFacts, AllocError>
        ensures { IfOk result (λ facts. facts ≡ host_facts_of line.now entry.now) }
    {
        let key = entry.key();
        let names = entry.names();
        let is_authority = marks_authority(entry.marker());
        let fingerprint = fingerprint_read(alloc, &key, entry.blob())?;
        let comment = kept(alloc, entry.comment())?;
        let text = kept(alloc, names.text())?;
        let list = lower_list(alloc, &names)?;
        Ok(HostFacts {
            kind: key.kind(),
            bits: rsa_size(&key),
            fingerprint,
            comment,
            is_authority,
            names: text,
            list,
            has_marker_tab: is_authority && has_tab_after_first(line),
        })
    }
}

/// The facts of a revocation, beside the bytes that it revokes.
#[derive(Debug, Drop)]
pub struct RevocationFacts {
    /// The names field, hashed or not. In ssh the revocation counts for these hosts alone.
    pub names: Bytes,
    /// Whether a tab follows the marker `@revoked`, for which ssh may skip the line.
    pub has_marker_tab: bool,
    /// Whether the type word is not the type of the key, so that ssh reads no key.
    pub has_other_type: bool,
    /// The canonical blob of the key that ssh reads, if the revoked bytes are another encoding of
    /// it.
    pub spelling: Option<Bytes>,
}

/// The names field and the type word of a line with a marker.
fn names_and_type(line: &[u8]) -> (&[u8], &[u8])
    ensures names { result.0.now ≡ names_word line.now }
    ensures type_word { result.1.now ≡ type_word line.now }
{
    let (_, after) = split_word(skip_blanks(without_last(b'\r', line)));
    let (names, after) = split_word(skip_blanks(after));
    let (type_word, _) = split_word(skip_blanks(after));
    (names, type_word)
}

/// Whether the type string at the front of a blob is this word.
#[tactic(auto, unfolding(crate::specs::RevocationFacts::has_type))]
fn has_type(word: &[u8], bytes: &[u8]) -> bool
    ensures { result ≡ has_type word.now bytes.now }
{
    let mut cursor = Cursor::new(bytes);
    match cursor.take_string() {
        Ok(text) => text == word,
        Err(_) => false,
    }
}

/// The blob, if there is one and it differs from these bytes.
fn if_other(bytes: &[u8], blob: Option<Vec<u8>>) -> Option<Bytes>
    ensures { result ≡ if_other bytes.now (option_map (λ v. v.items) blob) }
{
    match blob {
        None => None,
        Some(blob) => {
            if blob.as_slice() == bytes {
                None
            } else {
                Some(Bytes::new(blob))
            }
        }
    }
}

impl RevocationFacts {
    /// Reads the facts of a line that revokes these bytes.
    #[tactic(auto, unfolding(crate::specs::RevocationFacts::revocation_facts_of, crate::specs::RevocationFacts::has_other_type, crate::specs::RevocationFacts::spelling_of))]
    pub fn read(alloc: Global, line: &[u8], bytes: &[u8]) -> Result<RevocationFacts, AllocError>
        ensures { IfOk result (λ facts. facts ≡ revocation_facts_of line.now bytes.now) }
    {
        let (names, type_word) = names_and_type(line);
        let has_marker_tab = has_tab_after_first(line);
        let blob = known_held_blob(alloc, line)?;
        let has_other_type = blob.is_none() && !has_type(type_word, bytes);
        let other = if_other(bytes, blob);
        let names = kept(alloc, names)?;
        Ok(RevocationFacts {
            names,
            has_marker_tab,
            has_other_type,
            // ssh passes over a line with a tab after its marker: there it revokes no key.
            spelling: if has_marker_tab { None } else { other },
        })
    }
}
