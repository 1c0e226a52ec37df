//! The record of a line of a `known_hosts` file, as text.

ghost use Rattle.std.specs.Prelude.{◌≡◌, ◌++◌, OnOk};
ghost use Rattle.ssh_review.specs.HostRecords.{bare_text, host_entry_head, host_entry_text, revoked_names, revoked_text};

use crate::fields::print_of;
use crate::findings::push_findings;
use crate::json_record::LineRef;
use crate::record::{push_comment, push_fingerprint, push_held, push_key, push_place, role_word};
use ssh_findings::{HeldKey, HostFacts, HostFinding, RevocationFacts};
use ssh_print::push_text_line;
use std::alloc::{AllocError, Global};

/// Appends the key and the comment of an entry.
#[tactic(auto, unfolding(crate::specs::HostRecords::host_entry_head))]
fn push_head(out: &mut Vec<u8>, facts: &HostFacts) -> Result<(), AllocError>
    ensures { OnOk result (out.new.items ≡ out.old.items ++ host_entry_head facts.now) }
{
    out.extend_from_slice(role_word(facts.is_authority))?;
    push_key(out, facts.kind, facts.bits, &facts.fingerprint)?;
    push_comment(out, facts.comment.as_slice())?;
    out.push(b'\n')?;
    Ok(())
}

/// Appends the record of an entry.
#[tactic(auto, unfolding(crate::specs::HostRecords::host_entry_text))]
pub(crate) fn push_entry_text(
    alloc: Global,
    out: &mut Vec<u8>,
    place: &LineRef<'_>,
    facts: &HostFacts,
    found: &[HostFinding],
) -> Result<(), AllocError>
    ensures { OnOk result (out.new.items ≡ out.old.items
        ++ host_entry_text place.entry.now.head.now place.entry.now.number facts.now found.now) }
{
    push_place(out, place)?;
    push_head(out, facts)?;
    push_text_line(out, b"    names ", facts.names.as_slice())?;
    push_findings(alloc, out, found)?;
    Ok(())
}

/// Appends the names of a revocation. Here a revocation counts for every host; in ssh it counts for
/// these names alone, so the record has them.
#[tactic(auto, unfolding(crate::specs::HostRecords::revoked_names))]
fn push_revoked_names(out: &mut Vec<u8>, facts: &RevocationFacts) -> Result<(), AllocError>
    ensures { OnOk result (out.new.items ≡ out.old.items ++ revoked_names facts.now) }
{
    push_text_line(out, b"    names ", facts.names.as_slice())?;
    out.extend_from_slice(b"    in ssh it counts for these names alone\n")?;
    Ok(())
}

/// Appends the record of a line that revokes these bytes.
#[tactic(auto, unfolding(crate::specs::HostRecords::revoked_text))]
pub(crate) fn push_revoked_text(
    alloc: Global,
    out: &mut Vec<u8>,
    place: &LineRef<'_>,
    bytes: &[u8],
    facts: &RevocationFacts,
    found: &[HostFinding],
) -> Result<(), AllocError>
    ensures { OnOk result (out.new.items ≡ out.old.items
        ++ revoked_text place.entry.now.head.now place.entry.now.number bytes.now facts.now found.now) }
{
    let print = print_of(alloc, bytes)?;
    push_place(out, place)?;
    out.extend_from_slice(b"revoked")?;
    push_fingerprint(out, &print)?;
    out.push(b'\n')?;
    push_revoked_names(out, facts)?;
    push_findings(alloc, out, found)?;
    Ok(())
}

/// Appends the record of a line that cannot be read: what it is, and its recovered key, if there is
/// one (the key that OpenSSH reads there).
#[tactic(auto, unfolding(crate::specs::HostRecords::bare_text))]
pub(crate) fn push_bare_text(
    alloc: Global,
    out: &mut Vec<u8>,
    place: &LineRef<'_>,
    is: &[u8],
    held: Option<HeldKey>,
    found: &[HostFinding],
) -> Result<(), AllocError>
    ensures { OnOk result (out.new.items ≡ out.old.items
        ++ bare_text place.entry.now.head.now place.entry.now.number is.now held found.now) }
{
    push_place(out, place)?;
    out.extend_from_slice(is)?;
    push_held(out, held)?;
    out.push(b'\n')?;
    push_findings(alloc, out, found)?;
    Ok(())
}
