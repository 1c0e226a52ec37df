//! How entries on earlier lines with the same key affect a later entry (F2 to F4).

ghost use Rattle.std.specs.Prelude.{◌≡◌, ◌≤◌, ◌+◌, ◌++◌, ◌∷◌, [], ℕ, ◌&&◌, if◌then◌else◌, bytes_eq, find, List, Option, Some, None, IsOk, IsSome, OnErr, OnOk, is_some, option_copied, option_map};
ghost use Rattle.ssh_findings.specs.Earlier.{given_of, gives_less, has_other_command, is_free, is_unlimited, loses_right, Held, is_of_key, repeat_after, repeat_of, shadow};
ghost use Rattle.ssh_findings.specs.Entries.{IsUnchanged, sum_of};
ghost use Rattle.ssh_findings.specs.Keeping.{RemembersEntries, free_of, free_on, kept_after, kept_at, kept_in, shadow_at, shadow_in};
ghost use Rattle.ssh_findings.specs.Memory.{bytes_kept, entry_bytes, kept_bytes, keys_kept, one};

use crate::carried::{has_listen, has_open};
use crate::facts::Facts;
use crate::finding::Finding;
use crate::map::ByteMap;
use crate::openssh::may_refuse;
use ssh_rights::Rights;
use ssh_text::Bytes;
use std::alloc::{AllocError, Global};

/// What an entry grants its key, as far as a later entry can grant less.
#[derive(Debug, Drop)]
pub(crate) struct Grant {
    /// The forced command, if any.
    pub(crate) command: Option<Bytes>,
    /// Whether TCP ports may be forwarded.
    pub(crate) port: bool,
    /// Whether the agent may be forwarded.
    pub(crate) agent: bool,
    /// Whether X11 may be forwarded.
    pub(crate) x11: bool,
    /// Whether a terminal may be allocated.
    pub(crate) pty: bool,
    /// Whether `~/.ssh/rc` is run.
    pub(crate) user_rc: bool,
    /// Whether the line has `verify-required`.
    pub(crate) verify_required: bool,
    /// Whether the line has `no-touch-required`.
    pub(crate) no_touch_required: bool,
    /// Whether the line has a `permitopen` option.
    pub(crate) opens: bool,
    /// Whether the line has a `permitlisten` option.
    pub(crate) listens: bool,
}

impl Grant {
    /// What an entry with these facts grants. Does not allocate.
    pub(crate) fn of(facts: Facts) -> Grant
        ensures { result ≡ given_of facts }
    {
        let opens = has_open(facts.rights.carried.as_slice());
        let listens = has_listen(facts.rights.carried.as_slice());
        let Facts {
            rights,
            verify_required,
            no_touch_required,
            ..
        } = facts;
        let Rights {
            command,
            port,
            agent,
            x11,
            pty,
            user_rc,
            ..
        } = rights;
        Grant {
            command,
            port,
            agent,
            x11,
            pty,
            user_rc,
            verify_required,
            no_touch_required,
            opens,
            listens,
        }
    }
}

/// Whether an entry admits its key at any time and from any address. The line of an authority must
/// also have no forced command and no list of principals.
fn is_unlimited(facts: &Facts) -> bool
    ensures { result ≡ is_unlimited facts.now }
{
    let limited = facts.rights.command.is_some() || facts.principals.is_some();
    facts.from.is_none() && !facts.has_expiry && !(facts.is_authority && limited)
}

/// Whether an entry is unlimited, and OpenSSH has no known reason to refuse it either.
pub(crate) fn is_free(facts: &Facts) -> bool
    ensures { result ≡ is_free facts.now }
{
    is_unlimited(facts) && !may_refuse(facts)
}

/// Whether a command is forced, and the other line forces none or a different one.
fn has_other_command(command: &Option<Bytes>, other: &Option<Bytes>) -> bool
    ensures { result ≡ has_other_command command.now other.now }
{
    match (command, other) {
        (None, _) => false,
        (Some(_), None) => true,
        (Some(command), Some(other)) => command.as_slice() != other.as_slice(),
    }
}

/// Whether some right is off that the earlier entry grants.
fn loses_right(rights: &Rights, given: &Grant) -> bool
    ensures { result ≡ loses_right rights.now given.now }
{
    (given.port && !rights.port)
        || (given.agent && !rights.agent)
        || (given.x11 && !rights.x11)
        || (given.pty && !rights.pty)
        || (given.user_rc && !rights.user_rc)
}

/// Whether an entry grants less than an earlier one does.
#[tactic(auto, unfolding(crate::specs::Earlier::gives_less))]
pub(crate) fn gives_less(facts: &Facts, given: &Grant) -> bool
    ensures { result ≡ gives_less facts.now given.now }
{
    let carried = facts.rights.carried.as_slice();
    facts.from.is_some()
        || facts.has_expiry
        || has_other_command(&facts.rights.command, &given.command)
        || loses_right(&facts.rights, given)
        || (facts.verify_required && !given.verify_required)
        || (given.no_touch_required && !facts.no_touch_required)
        || (has_open(carried) && !given.opens)
        || (has_listen(carried) && !given.listens)
}

/// An unlimited entry that OpenSSH has no known reason to refuse.
#[derive(Debug, Drop)]
pub(crate) struct Free {
    /// The number of its line, from 1.
    line: u64,
    given: Grant,
}

/// What later lines need to know of the entries with one key.
#[derive(Debug, Drop)]
pub(crate) struct Kept {
    /// The line number of the first entry.
    first: u64,
    /// The first free entry.
    free: Option<Free>,
}

/// The entries of earlier lines, by key blob, with the keys of certificate authorities apart.
/// Memory grows with the number of different keys, not with the number of lines.
#[derive(Debug, Drop)]
pub struct Earlier {
    plain: ByteMap<Kept>,
    authorities: ByteMap<Kept>,
}

/// The entry as a free one, if it is free.
fn free_on(line: u64, facts: Facts) -> Option<Free>
    ensures { result ≡ free_on line facts }
{
    if is_free(&facts) {
        Some(Free {
            line,
            given: Grant::of(facts),
        })
    } else {
        None
    }
}

/// Stores an entry with this key blob. If allocation fails, nothing is stored.
fn keep_in(
    alloc: Global,
    map: &mut ByteMap<Kept>,
    line: u64,
    blob: &[u8],
    facts: Facts,
) -> Result<(), AllocError>
    ensures ok { OnOk result ((other : List ℕ) → kept_in map.new other
        ≡ (if bytes_eq blob.now other then Some (kept_after (kept_in map.old blob.now) line facts)
        else kept_in map.old other)) }
    ensures bytes { OnOk result
        (sum_of kept_bytes map.new ≤ sum_of kept_bytes map.old + entry_bytes blob.now facts) }
    ensures keys { OnOk result (sum_of one map.new ≤ sum_of one map.old + 1) }
    ensures err { OnErr result (IsUnchanged map.old map.new) }
    ensures spare { IsSome (kept_in map.old blob.now) → IsOk result }
{
    // The first entry of a key and its first free one are all that later lines need.
    let spot = map.find(blob);
    let first = match map.get_at(blob, spot) {
        Some(kept) if kept.free.is_some() => return Ok(()),
        Some(kept) => kept.first,
        None => line,
    };
    let free = free_on(line, facts);
    map.insert(alloc, blob, spot, Kept { first, free })
}

/// The stored entry that admits the key of this entry first, whatever this entry states.
fn shadow_in<'k>(kept: &'k Kept, facts: &Facts) -> Option<&'k Free>
    ensures { option_copied result ≡ shadow_in kept.now facts.now }
{
    // A list of principals can admit certificates that an earlier line without the list does not.
    if facts.is_authority && facts.principals.is_some() {
        None
    } else {
        kept.free.as_ref()
    }
}

/// The finding for an entry: F2 for the first entry with the key, F3 or F4 for the free one.
fn repeat_by(kept: &Kept, facts: &Facts) -> Finding
    ensures { (first : Held) (free : Option Held)
        → kept.now ≡ (record { first = first.line; free = option_map free_of free })
        → Some result ≡ repeat_of (Some first)
        (if facts.now.is_authority && is_some facts.now.principals then None else free) facts.now }
{
    match shadow_in(kept, facts) {
        None => Finding::SameKey(kept.first),
        Some(free) if gives_less(facts, &free.given) => Finding::GivesMore(free.line),
        Some(free) => Finding::NeverDecides(free.line),
    }
}

impl Earlier {
    /// No entries. Does not allocate.
    pub fn new(alloc: Global) -> Earlier
        ensures stands { RemembersEntries result [] }
        ensures bytes { bytes_kept result ≡ 0 }
        ensures keys { keys_kept result ≡ 0 }
    {
        Earlier {
            plain: ByteMap::new(alloc),
            authorities: ByteMap::new(alloc),
        }
    }

    /// What is stored for a key.
    fn kept(&self, blob: &[u8], is_authority: bool) -> Option<&Kept>
        ensures { option_copied result ≡ kept_at self.now blob.now is_authority }
    {
        if is_authority {
            self.authorities.get(blob)
        } else {
            self.plain.get(blob)
        }
    }

    /// The earlier entry that admits the key of this entry first, whatever this entry states.
    fn shadow(&self, blob: &[u8], facts: &Facts) -> Option<&Free>
        ensures { option_copied result ≡ shadow_at self.now blob.now facts.now }
    {
        match self.kept(blob, facts.is_authority) {
            Some(kept) => shadow_in(kept, facts),
            None => None,
        }
    }

    /// The number of the earlier line that admits the key of this entry first, whatever this entry
    /// states.
    pub fn shadow_line(&self, blob: &[u8], facts: &Facts) -> Option<u64>
        ensures { (held : List Held)
            → RemembersEntries self.now held
            → result ≡ option_map (λ d. d.line) (shadow held blob.now facts.now) }
    {
        match self.shadow(blob, facts) {
            Some(free) => Some(free.line),
            None => None,
        }
    }

    /// F2 to F4: the finding that earlier entries cause for an entry with this key blob.
    pub(crate) fn repeat(&self, blob: &[u8], facts: &Facts) -> Option<Finding>
        ensures { (held : List Held)
            → RemembersEntries self.now held
            → result ≡ repeat_after held blob.now facts.now }
    {
        match self.kept(blob, facts.is_authority) {
            Some(kept) => Some(repeat_by(kept, facts)),
            None => None,
        }
    }

    /// Stores the entry of a line for the lines after it. Does not allocate if the key is already
    /// stored. On `Err` nothing is stored.
    pub fn keep(
        &mut self,
        alloc: Global,
        line: u64,
        blob: &[u8],
        facts: Facts,
    ) -> Result<(), AllocError>
        ensures ok { OnOk result ((held : List Held)
            → RemembersEntries self.old held
            → RemembersEntries self.new (held ++ record { line = line; blob = blob.now; facts = facts } ∷ [])) }
        // The stored bytes are at most the blobs and forced commands of the entries, and one slot
        // for each, however often a file repeats them.
        ensures bytes { OnOk result
            (bytes_kept self.new ≤ bytes_kept self.old + entry_bytes blob.now facts) }
        ensures keys { OnOk result (keys_kept self.new ≤ keys_kept self.old + 1) }
        ensures err { OnErr result ((held : List Held)
            → RemembersEntries self.old held
            → RemembersEntries self.new held) }
        ensures spare { (held : List Held)
            → RemembersEntries self.old held
            → IsSome (find (λ d. is_of_key blob.now facts.is_authority d) held)
            → IsOk result }
    {
        if facts.is_authority {
            keep_in(alloc, &mut self.authorities, line, blob, facts)?;
        } else {
            keep_in(alloc, &mut self.plain, line, blob, facts)?;
        }
        Ok(())
    }
}
