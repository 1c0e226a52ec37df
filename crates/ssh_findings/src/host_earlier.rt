//! The keys and names of earlier lines of a known_hosts file, for the findings of later lines.

ghost use Rattle.std.specs.Prelude.{◌≡◌, IfOk, ◌≤◌, ◌+◌, ◌++◌, ◌∷◌, [], ℕ, false, List, None, OnErr, OnOk, option_copied};
ghost use Rattle.ssh_patterns.specs.Lists.{pieces_left};
ghost use Rattle.ssh_findings.specs.HostLines.{HostLine};
ghost use Rattle.ssh_findings.specs.HostFindingsEarlier.{other_line, revoking, revoking_line, same_line, spelled_line, spelling_line, trusting, trusting_line};
ghost use Rattle.ssh_findings.specs.Maps.{least_other};
ghost use Rattle.ssh_findings.specs.HostFindingsMemory.{entry_sum, host_bytes_kept, host_entry_bytes, kept_sum, revocation_bytes, revocation_sum};
ghost use Rattle.ssh_findings.specs.StandsFor.{KeepsKeys, KeepsName, KeepsSpellings, RemembersLines, has_names};
ghost use Rattle.ssh_keys.specs.declared.kind.KeyKind.{KeyKind as Kind};

use crate::host_facts::{HostFacts, RevocationFacts};
use crate::least::{LeastLines, lesser};
use crate::named::KindKeys;
use ssh_keys::KeyKind;
use ssh_patterns::first_piece;
use std::alloc::{AllocError, Global};
use std::marker::Model;
use std::rc::RcSlice;

/// The blob of a key, copied once for a line and shared by the names of that line. So a long list
/// of short names takes no more memory than their bytes. Its value in contracts is its bytes.
#[derive(Debug, Drop)]
pub(crate) struct SharedBlob {
    shared: RcSlice<u8>,
}

impl Model for SharedBlob {
    ghost use Rattle.std.specs.Prelude.{List, ℕ};
    ghost use Rattle.std.specs.Rc.{rc_slice_items};

    ghost Value = { List ℕ };

    ghost view = { λ b. rc_slice_items b.shared };
}

impl SharedBlob {
    /// Copies a blob.
    pub(crate) fn new(alloc: Global, blob: &[u8]) -> Result<SharedBlob, AllocError>
        ensures { IfOk result (λ made. made ≡ blob.now) }
    {
        let shared = RcSlice::from_slice(alloc, blob)?;
        Ok(SharedBlob { shared })
    }

    pub(crate) fn as_slice(&self) -> &[u8]
        ensures { result.now ≡ self.now }
    {
        self.shared.as_slice()
    }

    /// The same blob for one more name. Does not allocate; `Err` means that the count of owners
    /// cannot grow.
    pub(crate) fn share(&self) -> Result<SharedBlob, AllocError>
        ensures { IfOk result (λ made. made ≡ self.now) }
    {
        let shared = self.shared.clone()?;
        Ok(SharedBlob { shared })
    }
}

/// The keys and names of earlier lines of a known_hosts file. For each key it stores the first
/// line. For each name and kind of key it stores the first two lines with different keys.
/// Contracts state which lines it represents.
#[derive(Debug, Drop)]
pub struct EarlierHosts {
    hosts: LeastLines,
    authorities: LeastLines,
    revoked: LeastLines,
    spelled: LeastLines,
    named: KindKeys,
}

impl EarlierHosts {
    /// No lines. Does not allocate.
    pub fn new(alloc: Global) -> EarlierHosts
        ensures stands { RemembersLines result [] }
        ensures bytes { host_bytes_kept result ≡ 0 }
        ensures sum { (weight : List ℕ → ℕ) → kept_sum weight result ≡ 0 }
    {
        EarlierHosts {
            hosts: LeastLines::new(alloc),
            authorities: LeastLines::new(alloc),
            revoked: LeastLines::new(alloc),
            spelled: LeastLines::new(alloc),
            named: KindKeys::new(alloc),
        }
    }

    /// Stores the entry of a line. On `Err` its key is not stored, and nothing at all for an
    /// authority or for hashed names. For a list, the key may be stored for some of its names.
    pub fn keep_entry(
        &mut self,
        alloc: Global,
        line: u64,
        blob: &[u8],
        facts: &HostFacts,
    ) -> Result<(), AllocError>
        ensures ok { OnOk result ((lines : List HostLine) → RemembersLines self.old lines
            → RemembersLines self.new (lines ++ trusting line blob.now facts.now ∷ [])) }
        // An entry takes at most its blob, and each plain name of its list together with the blob.
        ensures bytes { OnOk result
            (host_bytes_kept self.new ≤ host_bytes_kept self.old + host_entry_bytes blob.now facts.now) }
        // For any measure of the stored texts: at most that of the blob and of each plain name. The
        // names of an entry share one copy of the blob. The bound above counts it for each name,
        // this one for none.
        ensures sum { OnOk result ((weight : List ℕ → ℕ)
            → kept_sum weight self.new ≤ kept_sum weight self.old + entry_sum weight blob.now facts.now) }
        ensures keys { OnErr result (KeepsKeys self.old self.new) }
        ensures spellings { OnErr result (KeepsSpellings self.old self.new) }
        ensures names { OnErr result ((kind : Kind) (item : List ℕ) → KeepsName self.old.named self.new.named
            facts.now.kind facts.now.list line blob.now kind item) }
        ensures err { OnErr result (has_names facts.now ≡ false
            → (lines : List HostLine) → RemembersLines self.old lines → RemembersLines self.new lines) }
    {
        if facts.is_authority {
            self.authorities.keep(alloc, blob, line)?;
            return Ok(());
        }
        self.named.keep_names(alloc, facts, line, blob)?;
        self.hosts.keep(alloc, blob, line)?;
        Ok(())
    }

    /// Stores a line that revokes these bytes. On `Err` no look-up finds anything else than before.
    pub fn keep_revocation(
        &mut self,
        alloc: Global,
        line: u64,
        bytes: &[u8],
        facts: &RevocationFacts,
    ) -> Result<(), AllocError>
        ensures ok { OnOk result ((lines : List HostLine) → RemembersLines self.old lines
            → RemembersLines self.new (lines ++ revoking line bytes.now facts.now ∷ [])) }
        ensures bytes { OnOk result
            (host_bytes_kept self.new ≤ host_bytes_kept self.old + revocation_bytes bytes.now facts.now) }
        ensures sum { OnOk result ((weight : List ℕ → ℕ)
            → kept_sum weight self.new ≤ kept_sum weight self.old + revocation_sum weight bytes.now facts.now) }
        ensures keys { OnErr result (KeepsKeys self.old self.new) }
        ensures spellings { OnErr result (KeepsSpellings self.old self.new) }
        ensures err { OnErr result
            ((lines : List HostLine) → RemembersLines self.old lines → RemembersLines self.new lines) }
    {
        // The bytes first: once they are prepared, their line is stored without memory, so the two
        // maps get the line both or neither.
        self.revoked.prepare(alloc, bytes)?;
        self.spelled.keep_some(alloc, &facts.spelling, line)?;
        self.revoked.keep(alloc, bytes, line)?;
        Ok(())
    }

    /// The first line that revokes another encoding of the key with this blob.
    pub(crate) fn spelling_line(&self, blob: &[u8]) -> Option<u64>
        ensures { (lines : List HostLine) → RemembersLines self.now lines
            → result ≡ spelling_line lines blob.now }
    {
        self.spelled.line(blob)
    }

    /// The first line that trusts the key of which a revocation has another encoding.
    pub(crate) fn spelled_line(&self, facts: &RevocationFacts) -> Option<u64>
        ensures { (lines : List HostLine) → RemembersLines self.now lines
            → result ≡ spelled_line lines facts.now }
    {
        match &facts.spelling {
            None => None,
            Some(blob) => self.trusting_line(blob.as_slice()),
        }
    }

    /// The first line that revokes this blob.
    pub(crate) fn revoking_line(&self, blob: &[u8]) -> Option<u64>
        ensures { (lines : List HostLine) → RemembersLines self.now lines
            → result ≡ revoking_line lines blob.now }
    {
        self.revoked.line(blob)
    }

    /// The first line that trusts the key with these bytes, as a host's key or as an authority.
    pub(crate) fn trusting_line(&self, bytes: &[u8]) -> Option<u64>
        ensures { (lines : List HostLine) → RemembersLines self.now lines
            → result ≡ trusting_line lines bytes.now }
    {
        lesser(self.hosts.line(bytes), self.authorities.line(bytes))
    }

    /// The first line with the same key as an entry, in the same role.
    pub(crate) fn same_line(&self, blob: &[u8], facts: &HostFacts) -> Option<u64>
        ensures { (lines : List HostLine) → RemembersLines self.now lines
            → result ≡ same_line lines blob.now facts.now }
    {
        if facts.is_authority {
            self.authorities.line(blob)
        } else {
            self.hosts.line(blob)
        }
    }

    /// The first line with a different key of this kind for a name of the list.
    fn least_other(&self, kind: KeyKind, list: Option<&[u8]>, blob: &[u8]) -> Option<u64>
        ensures { result ≡ least_other self.now.named kind blob.now (pieces_left (option_copied list.entry)) }
    {
        let mut least = None;
        let mut rest = list;
        while let Some(pieces) = rest {
            let (piece, left) = first_piece(pieces);
            least = lesser(least, self.named.other(kind, piece, blob));
            rest = left;
        }
        least
    }

    /// The first line with a different key of the same kind for a name of the entry.
    pub(crate) fn other_line(&self, blob: &[u8], facts: &HostFacts) -> Option<u64>
        ensures { (lines : List HostLine) → RemembersLines self.now lines
            → result ≡ other_line lines blob.now facts.now }
    {
        // F11 compares the keys of hosts; an authority may sign for many.
        if facts.is_authority {
            return None;
        }
        match &facts.list {
            None => None,
            Some(list) => self.least_other(facts.kind, Some(list.as_slice()), blob),
        }
    }
}
