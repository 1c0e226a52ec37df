//! The record of a line of an `authorized_keys` file in fields: as a JSON object, or as a row of a
//! table; and the fields that all records have.

ghost use Rattle.std.specs.Prelude.{◌≡◌, ◌++◌, OnOk, IfOk};
ghost use Rattle.ssh_review.specs.RowPlaces.{row_place};
ghost use Rattle.ssh_review.specs.Objects.{empty_fields, entry_in, fingerprint_text, grant_fields, held_fields, is_word, key_fields, no_grant_fields, no_key_fields, options_in, owner_fields, record_head, rights_in, unreadable_in};

use crate::fields::{push_options, right_words, without_space};
use crate::findings::push_record_end;
use crate::record_field::{
    FieldForm, push_bits_in, push_moment_or_null_in, push_null_in, push_number_in,
    push_number_or_null_in, push_text_in, push_text_or_null_in, push_truth_in,
};
use crate::short_text::ShortText;
use ssh_findings::{Facts, Finding, HeldKey};
use ssh_keys::KeyKind;
use ssh_options::OptionsView;
use ssh_page::RowPlace;
use ssh_rights::Rights;
use std::alloc::{AllocError, Global};

/// A line of a file: how the records of the file begin, and the line's number from 1.
#[derive(Clone, Copy, Debug)]
pub struct LineRef<'a> {
    pub head: &'a [u8],
    pub number: u64,
}

/// The place of the row of the line with this number, in the section of the file with this number.
pub(crate) fn row_place(file: u64, line: u64) -> RowPlace
    ensures { result ≡ row_place file line }
{
    RowPlace { file, line }
}

/// Appends the first fields of a record: the file, the line, and what the line is.
#[tactic(auto, unfolding(crate::specs::Objects::record_head))]
pub(crate) fn push_record_head(
    form: FieldForm,
    out: &mut Vec<u8>,
    place: &LineRef<'_>,
    what: &[u8],
) -> Result<(), AllocError>
    ensures { OnOk result (out.new.items
        ≡ out.old.items ++ record_head form place.entry.now.head.now place.entry.now.number what.now) }
{
    out.extend_from_slice(place.head)?;
    push_number_in(form, out, b"line", place.number)?;
    push_text_in(form, out, b"what", what)?;
    Ok(())
}

/// The field `what` of an entry: a certificate authority, or a key.
pub(crate) fn is_word(is_authority: bool) -> &'static [u8]
    ensures { result.now ≡ is_word is_authority }
{
    if is_authority { b"authority" } else { b"key" }
}

/// A fingerprint as `ssh-keygen -l` prints it, from its base64.
pub(crate) fn fingerprint_text(fingerprint: &[u8; 43]) -> ShortText
    ensures { result ≡ fingerprint_text fingerprint.now }
{
    let mut text = ShortText::new();
    text.push(b"SHA256:");
    text.push(fingerprint);
    text
}

/// Appends the fields of a key: its type, the bits of an RSA key, and the fingerprint.
#[tactic(auto, unfolding(crate::specs::Objects::key_fields))]
pub(crate) fn push_key_fields(
    form: FieldForm,
    out: &mut Vec<u8>,
    kind: KeyKind,
    bits: Option<u32>,
    fingerprint: &[u8; 43],
) -> Result<(), AllocError>
    ensures { OnOk result (out.new.items ≡ out.old.items ++ key_fields form kind bits fingerprint.now) }
{
    let text = fingerprint_text(fingerprint);
    push_text_in(form, out, b"type", kind.name())?;
    push_bits_in(form, out, bits)?;
    push_text_in(form, out, b"key", text.as_slice())?;
    Ok(())
}

/// Appends the fields of an entry's key, and its comment.
#[tactic(auto, unfolding(crate::specs::Objects::owner_fields))]
fn push_owner_fields(form: FieldForm, out: &mut Vec<u8>, facts: &Facts) -> Result<(), AllocError>
    ensures { OnOk result (out.new.items ≡ out.old.items ++ owner_fields form facts.now) }
{
    push_key_fields(form, out, facts.kind, facts.bits, &facts.fingerprint)?;
    push_text_in(form, out, b"comment", facts.comment.as_slice())?;
    Ok(())
}

fn push_options_in(
    form: FieldForm,
    alloc: Global,
    out: &mut Vec<u8>,
    options: OptionsView<'_>,
) -> Result<(), AllocError>
    ensures { OnOk result (out.new.items ≡ out.old.items ++ options_in form options.entry) }
{
    let mut text = Vec::new(alloc);
    push_options(&mut text, options)?;
    push_text_in(form, out, b"options", &text)
}

/// Appends the rights that are on.
#[tactic(auto, unfolding(crate::specs::RightsWords::rights_words))]
pub(crate) fn push_rights_in(
    form: FieldForm,
    out: &mut Vec<u8>,
    rights: &Rights,
) -> Result<(), AllocError>
    ensures { OnOk result (out.new.items ≡ out.old.items ++ rights_in form rights.now) }
{
    let words = right_words(rights);
    push_text_in(form, out, b"rights", without_space(words.as_slice()))
}

/// Appends the rights that the line gives, and its limits.
#[tactic(auto, unfolding(crate::specs::Objects::grant_fields))]
fn push_grant_fields(
    form: FieldForm,
    alloc: Global,
    out: &mut Vec<u8>,
    facts: &Facts,
) -> Result<(), AllocError>
    ensures { OnOk result (out.new.items ≡ out.old.items ++ grant_fields form facts.now) }
{
    push_rights_in(form, out, &facts.rights)?;
    push_text_or_null_in(form, out, b"command", &facts.rights.command)?;
    push_text_or_null_in(form, out, b"source", &facts.from)?;
    push_text_or_null_in(form, out, b"principals", &facts.principals)?;
    push_moment_or_null_in(form, alloc, out, b"expires", facts.until)?;
    Ok(())
}

/// Appends the record of an entry with these options. `shadowed_by` is the line whose entry lets
/// the key in first, if there is one; `lets_in` says whether this one may let it in.
#[tactic(auto, unfolding(crate::specs::Objects::entry_in))]
pub(crate) fn push_entry_in(
    form: FieldForm,
    alloc: Global,
    out: &mut Vec<u8>,
    place: &LineRef<'_>,
    facts: &Facts,
    options: OptionsView<'_>,
    shadowed_by: Option<u64>,
    lets_in: bool,
    found: &[Finding],
) -> Result<(), AllocError>
    ensures { OnOk result (out.new.items ≡ out.old.items ++ entry_in form place.entry.now.head.now
        place.entry.now.number facts.now options.entry shadowed_by lets_in found.now) }
{
    push_record_head(form, out, place, is_word(facts.is_authority))?;
    push_owner_fields(form, out, facts)?;
    push_options_in(form, alloc, out, options)?;
    push_grant_fields(form, alloc, out, facts)?;
    push_number_or_null_in(form, out, b"shadowed_by", shadowed_by)?;
    push_truth_in(form, out, b"lets_in", lets_in)?;
    push_record_end(form, alloc, out, found)?;
    Ok(())
}

fn push_no_key(form: FieldForm, out: &mut Vec<u8>) -> Result<(), AllocError>
    ensures { OnOk result (out.new.items ≡ out.old.items ++ no_key_fields form) }
{
    push_null_in(form, out, b"type")?;
    push_null_in(form, out, b"bits")?;
    push_null_in(form, out, b"key")?;
    Ok(())
}

/// Appends the fields of the key that OpenSSH reads on a line which is unreadable here; they have no
/// value if there is no such key.
pub(crate) fn push_held_fields(
    form: FieldForm,
    out: &mut Vec<u8>,
    held: Option<HeldKey>,
) -> Result<(), AllocError>
    ensures { OnOk result (out.new.items ≡ out.old.items ++ held_fields form held) }
{
    match held {
        Some(held) => push_key_fields(form, out, held.kind, held.bits, &held.fingerprint),
        None => push_no_key(form, out),
    }
}

/// Appends no value for the rights that a line gives, and for its limits.
#[tactic(auto, unfolding(crate::specs::Objects::no_grant_fields))]
fn push_no_grant_fields(form: FieldForm, out: &mut Vec<u8>) -> Result<(), AllocError>
    ensures { OnOk result (out.new.items ≡ out.old.items ++ no_grant_fields form) }
{
    push_null_in(form, out, b"rights")?;
    push_null_in(form, out, b"command")?;
    push_null_in(form, out, b"source")?;
    push_null_in(form, out, b"principals")?;
    push_null_in(form, out, b"expires")?;
    Ok(())
}

/// Appends no value for the fields that only an entry has; a line that cannot be read counts as access.
#[tactic(auto, unfolding(crate::specs::Objects::empty_fields))]
fn push_empty_fields(form: FieldForm, out: &mut Vec<u8>) -> Result<(), AllocError>
    ensures { OnOk result (out.new.items ≡ out.old.items ++ empty_fields form) }
{
    push_null_in(form, out, b"comment")?;
    push_null_in(form, out, b"options")?;
    push_no_grant_fields(form, out)?;
    push_null_in(form, out, b"shadowed_by")?;
    push_truth_in(form, out, b"lets_in", true)?;
    Ok(())
}

/// Appends the record of a line that cannot be read, with its recovered key, if there is one.
#[tactic(auto, unfolding(crate::specs::Objects::unreadable_in))]
pub(crate) fn push_unreadable_in(
    form: FieldForm,
    alloc: Global,
    out: &mut Vec<u8>,
    place: &LineRef<'_>,
    held: Option<HeldKey>,
    found: &[Finding],
) -> Result<(), AllocError>
    ensures { OnOk result (out.new.items ≡ out.old.items ++ unreadable_in form
        place.entry.now.head.now place.entry.now.number held found.now) }
{
    push_record_head(form, out, place, b"unreadable")?;
    push_held_fields(form, out, held)?;
    push_empty_fields(form, out)?;
    push_record_end(form, alloc, out, found)?;
    Ok(())
}
