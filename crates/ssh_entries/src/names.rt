//! The names of a known_hosts line, and the names that hosts are looked up by.

ghost use Rattle.std.specs.Prelude.{◌≡◌, length, IfOk, IsOk, ◌↔◌, IsTrue, IfErr, Ok, option_copied};
ghost use Rattle.ssh_entries.specs.Names.{lookup_name, IsNamesFault, Names, NamesHost, SpellsNames, are_same_names, begins_with_bar, has_empty_item, list_of, names_host, names_of, names_text};
ghost use Rattle.ssh_patterns.specs.Lists.{item_of};
ghost use Rattle.ssh_patterns.specs.Matching.{is_empty};

use crate::hashed::{HashedName, hmac_sha1, read_hashed};
use ssh_patterns::{first_piece, host_list};
use std::alloc::{AllocError, Global};
use std::marker::Model;
use thiserror::Error;

/// The fault of the names field of a known_hosts line.
#[derive(Clone, Copy, Debug, PartialEq, Eq, Error)]
pub enum NamesError {
    /// The field begins with `|` and is not a hashed name.
    #[error("not a hashed name")]
    HashedName,
    /// An item of the list is empty; `!` alone is an empty item.
    #[error("an empty item in a list of names")]
    EmptyItem,
}

/// The default port of SSH, whose hosts are listed without a port.
const PLAIN_PORT: u16 = 22;

/// The name that a host and a port are looked up by: the host in ASCII lower case for port 22,
/// otherwise `[host]:port` with the port in decimal (sshd(8), SSH_KNOWN_HOSTS FILE FORMAT). The
/// host is lowered because a hashed name is compared byte for byte.
pub fn lookup_name(alloc: Global, host: &[u8], port: u16) -> Result<Vec<u8>, AllocError>
    ensures value { IfOk result (λ name. name.items ≡ lookup_name host.now port) }
    // An empty name allocates nothing.
    ensures spare { length host.now ≡ 0 → port ≡ 22 → IsOk result }
{
    let mut lower = Vec::new(alloc);
    lower.extend_from_slice(host)?;
    lower.make_ascii_lowercase();
    if port == PLAIN_PORT {
        return Ok(lower);
    }
    let port = port.to_string(alloc)?;
    let mut name = Vec::with_capacity(alloc, lower.len() + 8)?;
    name.push(b'[')?;
    name.extend_from_slice(&lower)?;
    name.extend_from_slice(b"]:")?;
    name.extend_from_slice(port.as_bytes())?;
    Ok(name)
}

/// The names of a line: a list of patterns, or one hashed name. Contracts see the list, or the salt
/// and the hash.
#[derive(Debug, Drop)]
pub struct HostNames<'a> {
    text: &'a [u8],
    hashed: Option<HashedName>,
}

impl<'a> Model for HostNames<'a> {
    ghost use Rattle.ssh_entries.specs.Names.{Names, SpellsNames, names_with};

    ghost Value = { Names };

    ghost view = { λ n. names_with n.text.now n.hashed };

    ghost invariant = { λ n. SpellsNames (names_with n.text.now n.hashed) n.text.now };
}

impl<'a> HostNames<'a> {
    /// The names field as it is on the line.
    pub fn text(&self) -> &'a [u8]
        ensures spelled { SpellsNames self.now result.now }
        ensures text { result.now ≡ names_text self.now }
    {
        self.text
    }

    /// The list of patterns; `None` for a hashed name.
    pub fn list(&self) -> Option<&'a [u8]>
        ensures { option_copied result ≡ list_of self.now }
    {
        match self.hashed {
            None => Some(self.text),
            Some(_) => None,
        }
    }

    /// A second value of the same names.
    pub fn again(&self) -> HostNames<'a>
        ensures { result ≡ self.now }
    {
        HostNames {
            text: self.text,
            hashed: self.hashed,
        }
    }
}

/// Names are equal exactly where they are the same text on a line.
impl PartialEq for HostNames<'_> {
    ghost use Rattle.std.specs.Cmp.{on_per, partial_equiv_from_equiv};
    ghost use Rattle.std.specs.Cmp.Lexicographic.{nat_list_eq_equiv};
    ghost use Rattle.ssh_entries.specs.Names.{are_same_names, names_text};

    ghost eq = { are_same_names };

    ghost laws = { on_per names_text (partial_equiv_from_equiv nat_list_eq_equiv) };

    fn eq(&self, other: &Self) -> bool
        ensures value { result ≡ are_same_names self.now other.now }
        ensures same { IsTrue result ↔ (self.now ≡ other.now) }
    {
        *self.text() == *other.text()
    }
}

impl Eq for HostNames<'_> {
    ghost use Rattle.std.specs.Cmp.{on_equiv};
    ghost use Rattle.std.specs.Cmp.Lexicographic.{nat_list_eq_equiv};
    ghost use Rattle.ssh_entries.specs.Names.{names_text};

    ghost laws = { on_equiv names_text nat_list_eq_equiv };
}

/// Whether the text begins with `|`, as hashed names do.
fn begins_with_bar(text: &[u8]) -> bool
    ensures { result ≡ begins_with_bar text.now }
{
    matches!(text, [b'|', ..])
}

/// Whether a piece of a list is empty; a piece `!` is too.
fn is_empty_piece(piece: &[u8]) -> bool
    ensures { result ≡ is_empty (item_of piece.now).text }
{
    match piece {
        [b'!', item @ ..] => item.is_empty(),
        _ => piece.is_empty(),
    }
}

/// Whether some item of a list is empty.
fn has_empty_item(list: &[u8]) -> bool
    ensures { result ≡ has_empty_item list.now }
{
    let mut rest = Some(list);
    while let Some(pieces) = rest {
        let (piece, left) = first_piece(pieces);
        if is_empty_piece(piece) {
            return true;
        }
        rest = left;
    }
    false
}

/// The names of a field, or its fault. A field that begins with `|` is never a list.
#[tactic(auto, unfolding(crate::specs::Names::names_of))]
fn view_names(field: &[u8]) -> Result<HostNames<'_>, NamesError>
    ensures { result ≡ names_of field.now }
{
    if begins_with_bar(field) {
        let Some(name) = read_hashed(field) else {
            return Err(NamesError::HashedName);
        };
        return Ok(HostNames {
            text: field,
            hashed: Some(name),
        });
    }
    if has_empty_item(field) {
        return Err(NamesError::EmptyItem);
    }
    Ok(HostNames {
        text: field,
        hashed: None,
    })
}

/// Reads a names field of a known_hosts line (sshd(8), SSH_KNOWN_HOSTS FILE FORMAT). A hashed name
/// is `|1|`, the base64 of a salt of 20 bytes, `|` and the base64 of a hash of 20 bytes. Any other
/// field is a comma-separated list of patterns, which does not begin with `|` and has no empty
/// item. That an empty item is refused is this project's rule. No memory is allocated.
pub fn read_names(field: &[u8]) -> Result<HostNames<'_>, NamesError>
    // Names that are read are those that the field spells.
    ensures found { IfOk result (λ names. SpellsNames names field.now) }
    // Names that the field spells are the ones that are read.
    ensures only { (names : Names) → SpellsNames names field.now → result ≡ Ok names }
    // Otherwise the field has this fault.
    ensures fault { IfErr result (λ fault. IsNamesFault fault field.now) }
    ensures exact { result ≡ names_of field.now }
{
    view_names(field)
}

/// Whether the names of a line match the host that is looked up by this name: a list permits the
/// name, in ASCII lower case on both sides, or the hash is the name's HMAC-SHA1 under the salt
/// (sshd(8), SSH_KNOWN_HOSTS FILE FORMAT). No memory is allocated.
pub fn names_host(names: &HostNames<'_>, name: &[u8]) -> bool
    ensures rule { IsTrue result ↔ NamesHost names.now name.now }
    ensures value { result ≡ names_host names.now name.now }
{
    match &names.hashed {
        None => host_list(names.text, name),
        Some(hashed) => hmac_sha1(&hashed.salt, name) == hashed.hash,
    }
}
