//! The names of a known_hosts line, and the keys that earlier lines have for each name, by kind of
//! key.

ghost use Rattle.std.specs.Prelude.{◌≡◌, ◌≤◌, ◌+◌, ◌&&◌, ℕ, List, IsOk, OnErr, OnOk, None, Some, bytes_eq, if◌then◌else◌, length, not};
ghost use Rattle.std.specs.List.{list_any};
ghost use Rattle.ssh_patterns.specs.Lists.{pieces, pieces_left};
ghost use Rattle.ssh_findings.specs.Items.{has_pattern, has_wildcard, is_pattern, is_plain, is_wildcard, names_all, has_item};
ghost use Rattle.ssh_keys.specs.declared.kind.KeyKind.{KeyKind as Kind};
ghost use Rattle.ssh_findings.specs.HostFindingsEarlier.{same_kind};
ghost use Rattle.ssh_findings.specs.Least.{lesser, line_if};
ghost use Rattle.ssh_findings.specs.Maps.{other_at, other_of_kind};
ghost use Rattle.ssh_findings.specs.HostFindingsMemory.{items_bytes, items_sum, kinds_bytes, kinds_sum, names_bytes, names_sum};
ghost use Rattle.ssh_findings.specs.StandsFor.{KeepsName};

use crate::first_key::FirstKey;
use crate::host_earlier::SharedBlob;
use crate::host_facts::HostFacts;
use crate::map::ByteMap;
use crate::sources::Pieces;
use ssh_keys::KeyKind;
use ssh_patterns::first_piece;
use ssh_text::Bytes;
use std::alloc::{AllocError, Global};

fn is_wildcard(byte: u8) -> bool
    ensures { result ≡ is_wildcard byte }
{
    byte == b'*' || byte == b'?'
}

fn has_wildcard(piece: &[u8]) -> bool
    ensures { result ≡ has_wildcard piece.now }
{
    piece.iter().any(|byte| is_wildcard(*byte))
}

/// Whether a piece is a pattern, which may match more than one name, and is not negated.
fn is_pattern(piece: &[u8]) -> bool
    ensures { result ≡ is_pattern piece.now }
{
    !matches!(piece, [b'!', ..]) && has_wildcard(piece)
}

/// Whether a piece is one name: it has no wildcard and is not negated.
pub(crate) fn is_plain(piece: &[u8]) -> bool
    ensures { result ≡ is_plain piece.now }
{
    !matches!(piece, [b'!', ..]) && !has_wildcard(piece)
}

/// Whether some piece of a list is such a pattern.
fn some_is_pattern(list: &[u8]) -> bool
    ensures { result ≡ list_any is_pattern (pieces list.now) }
{
    let mut rest = Some(list);
    while let Some(pieces) = rest {
        let (piece, left) = first_piece(pieces);
        if is_pattern(piece) {
            return true;
        }
        rest = left;
    }
    false
}

/// Whether some piece of the list, if the names are not hashed, is such a pattern.
pub(crate) fn has_pattern(list: &Option<Bytes>) -> bool
    ensures { result ≡ has_pattern list.now }
{
    match list {
        None => false,
        Some(list) => some_is_pattern(list.as_slice()),
    }
}

/// Whether some piece of the list consists of stars alone, so that it matches every name.
pub(crate) fn names_all(list: &Option<Bytes>) -> bool
    ensures { result ≡ names_all list.now }
{
    match list {
        None => false,
        Some(list) => Pieces::of(list.as_slice()).has_stars,
    }
}

/// The keys of one kind, by name.
#[derive(Debug, Drop)]
pub(crate) struct NamedKeys {
    keys: ByteMap<FirstKey>,
}

impl NamedKeys {
    fn new(alloc: Global) -> NamedKeys
        ensures empty { (item blob : List ℕ) → other_at result item blob ≡ None }
        ensures bytes { names_bytes result ≡ 0 }
        ensures sum { (weight : List ℕ → ℕ) → names_sum weight result ≡ 0 }
    {
        NamedKeys {
            keys: ByteMap::new(alloc),
        }
    }

    /// The first line with a key other than this one for a name.
    fn other(&self, item: &[u8], blob: &[u8]) -> Option<u64>
        ensures { result ≡ other_at self.now item.now blob.now }
    {
        match self.keys.get(item) {
            None => None,
            Some(first) => first.other(blob),
        }
    }

    /// Stores a key for a name. If allocation fails, nothing is stored.
    fn keep(
        &mut self,
        alloc: Global,
        item: &[u8],
        line: u64,
        blob: &SharedBlob,
    ) -> Result<(), AllocError>
        ensures ok { OnOk result ((q b : List ℕ) → other_at self.new q b
            ≡ if bytes_eq item.now q then lesser (other_at self.old q b) (line_if (not (bytes_eq blob.now b)) line)
            else other_at self.old q b) }
        ensures bytes { OnOk result
            (names_bytes self.new ≤ names_bytes self.old + (length item.now + length blob.now)) }
        ensures sum { OnOk result ((weight : List ℕ → ℕ)
            → names_sum weight self.new ≤ names_sum weight self.old + weight item.now) }
        ensures err { OnErr result ((q b : List ℕ) → other_at self.new q b ≡ other_at self.old q b) }
    {
        let spot = self.keys.find(item);
        let first = match self.keys.get_at(item, spot) {
            None => FirstKey::new(line, blob)?,
            Some(first) => match first.with(line, blob)? {
                None => return Ok(()),
                Some(first) => first,
            },
        };
        self.keys.insert(alloc, item, spot, first)?;
        Ok(())
    }
}

/// The keys of each kind, by name.
#[derive(Debug, Drop)]
pub(crate) struct KindKeys {
    rsa: NamedKeys,
    p256: NamedKeys,
    p384: NamedKeys,
    p521: NamedKeys,
    ed25519: NamedKeys,
    sk_p256: NamedKeys,
    sk_ed25519: NamedKeys,
}

impl KindKeys {
    pub(crate) fn new(alloc: Global) -> KindKeys
        ensures empty { (kind : Kind) (item blob : List ℕ) → other_of_kind result kind item blob ≡ None }
        ensures bytes { kinds_bytes result ≡ 0 }
        ensures sum { (weight : List ℕ → ℕ) → kinds_sum weight result ≡ 0 }
    {
        KindKeys {
            rsa: NamedKeys::new(alloc),
            p256: NamedKeys::new(alloc),
            p384: NamedKeys::new(alloc),
            p521: NamedKeys::new(alloc),
            ed25519: NamedKeys::new(alloc),
            sk_p256: NamedKeys::new(alloc),
            sk_ed25519: NamedKeys::new(alloc),
        }
    }

    /// The first line with a key of this kind other than this one for a name.
    pub(crate) fn other(&self, kind: KeyKind, item: &[u8], blob: &[u8]) -> Option<u64>
        ensures { result ≡ other_of_kind self.now kind item.now blob.now }
    {
        match kind {
            KeyKind::Rsa => self.rsa.other(item, blob),
            KeyKind::P256 => self.p256.other(item, blob),
            KeyKind::P384 => self.p384.other(item, blob),
            KeyKind::P521 => self.p521.other(item, blob),
            KeyKind::Ed25519 => self.ed25519.other(item, blob),
            KeyKind::SkP256 => self.sk_p256.other(item, blob),
            KeyKind::SkEd25519 => self.sk_ed25519.other(item, blob),
        }
    }

    /// Stores a key of a kind for a name. If allocation fails, nothing is stored.
    fn keep(
        &mut self,
        alloc: Global,
        kind: KeyKind,
        item: &[u8],
        line: u64,
        blob: &SharedBlob,
    ) -> Result<(), AllocError>
        ensures ok { OnOk result ((k : Kind) (q b : List ℕ) → other_of_kind self.new k q b
            ≡ if same_kind kind k && bytes_eq item.now q
            then lesser (other_of_kind self.old k q b) (line_if (not (bytes_eq blob.now b)) line)
            else other_of_kind self.old k q b) }
        ensures bytes { OnOk result
            (kinds_bytes self.new ≤ kinds_bytes self.old + (length item.now + length blob.now)) }
        ensures sum { OnOk result ((weight : List ℕ → ℕ)
            → kinds_sum weight self.new ≤ kinds_sum weight self.old + weight item.now) }
        ensures err { OnErr result
            ((k : Kind) (q b : List ℕ) → other_of_kind self.new k q b ≡ other_of_kind self.old k q b) }
    {
        match kind {
            KeyKind::Rsa => self.rsa.keep(alloc, item, line, blob),
            KeyKind::P256 => self.p256.keep(alloc, item, line, blob),
            KeyKind::P384 => self.p384.keep(alloc, item, line, blob),
            KeyKind::P521 => self.p521.keep(alloc, item, line, blob),
            KeyKind::Ed25519 => self.ed25519.keep(alloc, item, line, blob),
            KeyKind::SkP256 => self.sk_p256.keep(alloc, item, line, blob),
            KeyKind::SkEd25519 => self.sk_ed25519.keep(alloc, item, line, blob),
        }
    }

    /// Stores a key of a kind for each plain name of a list.
    fn keep_list(
        &mut self,
        alloc: Global,
        kind: KeyKind,
        list: &[u8],
        line: u64,
        blob: &SharedBlob,
    ) -> Result<(), AllocError>
        ensures ok { OnOk result ((k : Kind) (q b : List ℕ) → other_of_kind self.new k q b
            ≡ lesser (other_of_kind self.old k q b)
            (line_if ((same_kind kind k && has_item q (Some list.now)) && not (bytes_eq blob.now b)) line)) }
        ensures bytes { OnOk result
            (kinds_bytes self.new ≤ kinds_bytes self.old + items_bytes blob.now (pieces list.now)) }
        ensures sum { OnOk result ((weight : List ℕ → ℕ)
            → kinds_sum weight self.new ≤ kinds_sum weight self.old + items_sum weight (pieces list.now)) }
        ensures err { OnErr result ((k : Kind) (q : List ℕ)
            → KeepsName self.old self.new kind (Some list.now) line blob.now k q) }
    {
        let mut rest = Some(list);
        while let Some(pieces) = rest {
            let (piece, left) = first_piece(pieces);
            if is_plain(piece) {
                self.keep(alloc, kind, piece, line, blob)?;
            }
            rest = left;
        }
        Ok(())
    }

    /// Stores the key of an entry for each of its plain names. Allocates only if the names are not
    /// hashed. On `Err` the key may be stored for some of the names.
    pub(crate) fn keep_names(
        &mut self,
        alloc: Global,
        facts: &HostFacts,
        line: u64,
        blob: &[u8],
    ) -> Result<(), AllocError>
        ensures ok { OnOk result ((k : Kind) (q b : List ℕ) → other_of_kind self.new k q b
            ≡ lesser (other_of_kind self.old k q b) (line_if ((same_kind facts.now.kind k && has_item q facts.now.list) && not (bytes_eq blob.now b)) line)) }
        ensures bytes { OnOk result
            (kinds_bytes self.new ≤ kinds_bytes self.old + items_bytes blob.now (pieces_left facts.now.list)) }
        ensures sum { OnOk result ((weight : List ℕ → ℕ)
            → kinds_sum weight self.new ≤ kinds_sum weight self.old + items_sum weight (pieces_left facts.now.list)) }
        ensures err { OnErr result ((k : Kind) (q : List ℕ)
            → KeepsName self.old self.new facts.now.kind facts.now.list line blob.now k q) }
        ensures spare { facts.now.list ≡ None → IsOk result }
    {
        match &facts.list {
            None => Ok(()),
            Some(list) => {
                let shared = SharedBlob::new(alloc, blob)?;
                self.keep_list(alloc, facts.kind, list.as_slice(), line, &shared)?;
                Ok(())
            }
        }
    }
}
