//! The record of a line of a `known_hosts` file in fields: as a JSON object, or as a row of a table.

ghost use Rattle.std.specs.Prelude.{◌≡◌, ◌++◌, OnOk};
ghost use Rattle.ssh_review.specs.HostObjects.{bare_in, entry_fields, host_empty_fields, host_entry_in, revoked_fields, revoked_in, revoked_names_fields};

use crate::fields::print_of;
use crate::findings::push_record_end;
use crate::json_record::{
    LineRef, fingerprint_text, is_word, push_held_fields, push_key_fields, push_record_head,
};
use crate::record_field::{FieldForm, push_null_in, push_text_in};
use ssh_findings::{HeldKey, HostFacts, HostFinding, RevocationFacts};
use std::alloc::{AllocError, Global};

/// Appends the fields of an entry's key, its comment, and its names as they are in the file.
#[tactic(auto, unfolding(crate::specs::HostObjects::entry_fields))]
fn push_entry_fields(
    form: FieldForm,
    out: &mut Vec<u8>,
    facts: &HostFacts,
) -> Result<(), AllocError>
    ensures { OnOk result (out.new.items ≡ out.old.items ++ entry_fields form facts.now) }
{
    push_key_fields(form, out, facts.kind, facts.bits, &facts.fingerprint)?;
    push_text_in(form, out, b"comment", facts.comment.as_slice())?;
    push_text_in(form, out, b"names", facts.names.as_slice())?;
    Ok(())
}

/// Appends the record of an entry.
#[tactic(auto, unfolding(crate::specs::HostObjects::host_entry_in))]
pub(crate) fn push_entry_in(
    form: FieldForm,
    alloc: Global,
    out: &mut Vec<u8>,
    place: &LineRef<'_>,
    facts: &HostFacts,
    found: &[HostFinding],
) -> Result<(), AllocError>
    ensures { OnOk result (out.new.items ≡ out.old.items
        ++ host_entry_in form place.entry.now.head.now place.entry.now.number facts.now found.now) }
{
    push_record_head(form, out, place, is_word(facts.is_authority))?;
    push_entry_fields(form, out, facts)?;
    push_record_end(form, alloc, out, found)?;
    Ok(())
}

/// Appends no value for the comment and the names, which a line that cannot be read does not have.
#[tactic(auto, unfolding(crate::specs::HostObjects::host_empty_fields))]
fn push_empty_fields(form: FieldForm, out: &mut Vec<u8>) -> Result<(), AllocError>
    ensures { OnOk result (out.new.items ≡ out.old.items ++ host_empty_fields form) }
{
    push_null_in(form, out, b"comment")?;
    push_null_in(form, out, b"names")?;
    Ok(())
}

/// Appends the fields of a revocation's key. It has no type, since the revoked bytes need not be a
/// key.
#[tactic(auto, unfolding(crate::specs::HostObjects::revoked_fields))]
fn push_revoked_fields(
    form: FieldForm,
    alloc: Global,
    out: &mut Vec<u8>,
    bytes: &[u8],
) -> Result<(), AllocError>
    ensures { OnOk result (out.new.items ≡ out.old.items ++ revoked_fields form bytes.now) }
{
    let print = print_of(alloc, bytes)?;
    let text = fingerprint_text(&print);
    push_null_in(form, out, b"type")?;
    push_null_in(form, out, b"bits")?;
    push_text_in(form, out, b"key", text.as_slice())?;
    Ok(())
}

/// Appends no comment, and the names of a revocation as they are in the file.
#[tactic(auto, unfolding(crate::specs::HostObjects::revoked_names_fields))]
fn push_revoked_names(
    form: FieldForm,
    out: &mut Vec<u8>,
    facts: &RevocationFacts,
) -> Result<(), AllocError>
    ensures { OnOk result (out.new.items ≡ out.old.items ++ revoked_names_fields form facts.now) }
{
    push_null_in(form, out, b"comment")?;
    push_text_in(form, out, b"names", facts.names.as_slice())?;
    Ok(())
}

/// Appends the record of a line that revokes these bytes.
#[tactic(auto, unfolding(crate::specs::HostObjects::revoked_in))]
pub(crate) fn push_revoked_in(
    form: FieldForm,
    alloc: Global,
    out: &mut Vec<u8>,
    place: &LineRef<'_>,
    bytes: &[u8],
    facts: &RevocationFacts,
    found: &[HostFinding],
) -> Result<(), AllocError>
    ensures { OnOk result (out.new.items ≡ out.old.items
        ++ revoked_in form place.entry.now.head.now place.entry.now.number bytes.now facts.now found.now) }
{
    push_record_head(form, out, place, b"revoked")?;
    push_revoked_fields(form, alloc, out, bytes)?;
    push_revoked_names(form, out, facts)?;
    push_record_end(form, alloc, out, found)?;
    Ok(())
}

/// Appends the record of a line that cannot be read: what it is, and its recovered key, if there is
/// one (the key that OpenSSH reads there).
#[tactic(auto, unfolding(crate::specs::HostObjects::bare_in))]
pub(crate) fn push_bare_in(
    form: FieldForm,
    alloc: Global,
    out: &mut Vec<u8>,
    place: &LineRef<'_>,
    is: &[u8],
    held: Option<HeldKey>,
    found: &[HostFinding],
) -> Result<(), AllocError>
    ensures { OnOk result (out.new.items ≡ out.old.items
        ++ bare_in form place.entry.now.head.now place.entry.now.number is.now held found.now) }
{
    push_record_head(form, out, place, is)?;
    push_held_fields(form, out, held)?;
    push_empty_fields(form, out)?;
    push_record_end(form, alloc, out, found)?;
    Ok(())
}
