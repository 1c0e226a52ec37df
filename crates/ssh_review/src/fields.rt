//! Fields of JSON objects; and the fingerprints, rights and options in records.

ghost use Rattle.std.specs.Prelude.{◌≡◌, ◌++◌, OnOk, codes, drop, IfOk, ◌==◌, ◌∷◌, []};
ghost use Rattle.ssh_review.specs.Fields.{array_field, count_field, field_name, moment_or_null, null_field, number_field, number_or_null, object_field, text_field, text_or_null, truth_field};
ghost use Rattle.ssh_review.specs.HostRecords.{print_of};
ghost use Rattle.ssh_print.specs.DecisionText.{right_words};
ghost use Rattle.ssh_review.specs.RightsWords.{rights_words, without_space};
ghost use Rattle.std.specs.List.{flat_map, list_any};
ghost use Rattle.ssh_options.specs.OptionText.{escaped};
ghost use Rattle.ssh_options.specs.OptionsInLine.{option_in_line};
ghost use Rattle.ssh_rewriting.specs.Canonical.{after_comma, option_text};
ghost use Rattle.ssh_review.specs.OptionsText.{options_text};

use crate::short_text::ShortText;
use sha2::{Digest, Sha256};
use ssh_keys::digest_text;
use ssh_options::{OptionView, OptionsView, ValueBytes, ValueView};
use ssh_print::{push_json_text, push_number};
use ssh_rights::Rights;
use ssh_text::Bytes;
use std::alloc::{AllocError, Global};

/// Appends the name of a field, after a comma.
pub(crate) fn push_field_name(out: &mut Vec<u8>, name: &[u8]) -> Result<(), AllocError>
    ensures { OnOk result (out.new.items ≡ out.old.items ++ field_name name.now) }
{
    out.extend_from_slice(b",\"")?;
    out.extend_from_slice(name)?;
    out.extend_from_slice(b"\":")?;
    Ok(())
}

/// Appends a field with `null`, after a comma.
pub(crate) fn push_null_field(out: &mut Vec<u8>, name: &[u8]) -> Result<(), AllocError>
    ensures { OnOk result (out.new.items ≡ out.old.items ++ null_field name.now) }
{
    push_field_name(out, name)?;
    out.extend_from_slice(b"null")?;
    Ok(())
}

/// Appends a field with these bytes as a JSON string.
pub(crate) fn push_text_field(out: &mut Vec<u8>, name: &[u8], text: &[u8]) -> Result<(), AllocError>
    ensures { OnOk result (out.new.items ≡ out.old.items ++ text_field name.now text.now) }
{
    push_field_name(out, name)?;
    push_json_text(out, text)?;
    Ok(())
}

pub(crate) fn push_text_or_null(
    out: &mut Vec<u8>,
    name: &[u8],
    text: &Option<Bytes>,
) -> Result<(), AllocError>
    ensures { OnOk result (out.new.items ≡ out.old.items ++ text_or_null name.now text.now) }
{
    match text {
        Some(text) => push_text_field(out, name, text.as_slice()),
        None => push_null_field(out, name),
    }
}

/// Appends a field with a number.
pub(crate) fn push_number_field(
    out: &mut Vec<u8>,
    name: &[u8],
    number: u64,
) -> Result<(), AllocError>
    ensures { OnOk result (out.new.items ≡ out.old.items ++ number_field name.now number) }
{
    push_field_name(out, name)?;
    push_number(out, number)?;
    Ok(())
}

/// Appends a field with a number that is not 0.
pub(crate) fn push_count_field(
    out: &mut Vec<u8>,
    name: &[u8],
    number: u64,
) -> Result<(), AllocError>
    ensures { OnOk result (out.new.items ≡ out.old.items ++ count_field name.now number) }
{
    if number > 0 {
        push_number_field(out, name, number)
    } else {
        Ok(())
    }
}

pub(crate) fn push_number_or_null(
    out: &mut Vec<u8>,
    name: &[u8],
    number: Option<u64>,
) -> Result<(), AllocError>
    ensures { OnOk result (out.new.items ≡ out.old.items ++ number_or_null name.now number) }
{
    match number {
        Some(number) => push_number_field(out, name, number),
        None => push_null_field(out, name),
    }
}

/// The text without its first byte.
pub(crate) fn without_first(text: &[u8]) -> &[u8]
    ensures { result.now ≡ drop 1 text.now }
{
    match text {
        [] => text,
        [_, rest @ ..] => rest,
    }
}

pub(crate) fn push_truth(out: &mut Vec<u8>, name: &[u8], value: bool) -> Result<(), AllocError>
    ensures { OnOk result (out.new.items ≡ out.old.items ++ truth_field name.now value) }
{
    push_field_name(out, name)?;
    if value {
        out.extend_from_slice(b"true")?;
    } else {
        out.extend_from_slice(b"false")?;
    }
    Ok(())
}

/// Appends an array, of its elements with a comma before each.
pub(crate) fn push_array(out: &mut Vec<u8>, name: &[u8], elements: &[u8]) -> Result<(), AllocError>
    ensures { OnOk result (out.new.items ≡ out.old.items ++ array_field name.now elements.now) }
{
    push_field_name(out, name)?;
    out.push(b'[')?;
    out.extend_from_slice(without_first(elements))?;
    out.push(b']')?;
    Ok(())
}

/// Appends an object, of its fields with a comma before each.
pub(crate) fn push_object(out: &mut Vec<u8>, name: &[u8], fields: &[u8]) -> Result<(), AllocError>
    ensures { OnOk result (out.new.items ≡ out.old.items ++ object_field name.now fields.now) }
{
    push_field_name(out, name)?;
    out.push(b'{')?;
    out.extend_from_slice(without_first(fields))?;
    out.push(b'}')?;
    Ok(())
}

/// Appends a field with a moment, in seconds since 1970-01-01 in UTC; negative before that.
pub(crate) fn push_moment_or_null(
    alloc: Global,
    out: &mut Vec<u8>,
    name: &[u8],
    moment: Option<i64>,
) -> Result<(), AllocError>
    ensures { OnOk result (out.new.items ≡ out.old.items ++ moment_or_null name.now moment) }
{
    match moment {
        Some(moment) => {
            let number = moment.to_string(alloc)?;
            push_field_name(out, name)?;
            out.extend_from_slice(number.as_bytes())?;
            Ok(())
        }
        None => push_null_field(out, name),
    }
}

/// The SHA-256 of some bytes in base64 without padding, as `ssh-keygen -l` prints it after
/// `SHA256:`.
#[tactic(auto, unfolding(crate::specs::HostRecords::print_of))]
pub(crate) fn print_of(alloc: Global, bytes: &[u8]) -> Result<[u8; 43], AllocError>
    ensures { IfOk result (λ text. text ≡ print_of bytes.now) }
{
    let digest = Sha256::digest(bytes);
    digest_text(alloc, &digest)
}

/// The names of the rights that are on, each after a space.
pub(crate) fn right_words(rights: &Rights) -> ShortText
    ensures { result ≡ right_words rights.now }
{
    let mut words = ShortText::new();
    words.push_right(rights.port, b" port");
    words.push_right(rights.agent, b" agent");
    words.push_right(rights.x11, b" x11");
    words.push_right(rights.pty, b" pty");
    words.push_right(rights.user_rc, b" rc");
    words
}

/// The names without the first space; `none` if there are no names.
pub(crate) fn without_space(words: &[u8]) -> &[u8]
    ensures { result.now ≡ without_space words.now }
{
    match words {
        [_, rest @ ..] => rest,
        [] => b"none",
    }
}

/// Appends the names of the rights that are on, separated by spaces, or `none`.
#[tactic(auto, unfolding(crate::specs::RightsWords::rights_words))]
pub(crate) fn push_rights_words(out: &mut Vec<u8>, rights: &Rights) -> Result<(), AllocError>
    ensures { OnOk result (out.new.items ≡ out.old.items ++ rights_words rights.now) }
{
    let words = right_words(rights);
    out.extend_from_slice(without_space(words.as_slice()))
}

/// The bytes that are reserved at first for a line's options. Most options fit in, so the text
/// seldom grows.
const ROOM: usize = 128;

/// Appends a byte of a value, with a backslash before a quote (sshd(8)).
fn push_value_byte(out: &mut Vec<u8>, byte: u8) -> Result<(), AllocError>
    ensures { OnOk result (out.new.items ≡ out.old.items ++ escaped (byte ∷ [])) }
{
    if byte == b'"' {
        out.push(b'\\')?;
    }
    out.push(byte)?;
    Ok(())
}

fn push_value_bytes(out: &mut Vec<u8>, value: ValueBytes<'_>) -> Result<(), AllocError>
    ensures { OnOk result (out.new.items ≡ out.old.items ++ escaped value.entry) }
{
    for byte in value {
        push_value_byte(out, byte)?;
    }
    Ok(())
}

fn has_quote(text: &[u8]) -> bool
    ensures { result ≡ list_any (λ c. c == 34) text.now }
{
    text.iter().any(|byte| *byte == b'"')
}

/// Appends a value as it is written between its quotes. Without a quote in it, it is copied in one
/// piece.
#[tactic(auto, using(crate::proofs::UnquotedLemmas::unquoted_value))]
fn push_value(out: &mut Vec<u8>, value: &ValueView<'_>) -> Result<(), AllocError>
    ensures { OnOk result (out.new.items ≡ out.old.items ++ escaped value.now) }
{
    match value.in_place() {
        Some(text) if !has_quote(text) => out.extend_from_slice(text),
        _ => push_value_bytes(out, value.bytes()),
    }
}

fn push_option(out: &mut Vec<u8>, option: &OptionView<'_>) -> Result<(), AllocError>
    ensures { OnOk result (
        out.new.items ≡ out.old.items ++ option_text (option_in_line option.now)) }
{
    match option {
        OptionView::Switch(flag) => out.extend_from_slice(flag.name()),
        OptionView::Setting(name, value) => {
            out.extend_from_slice(name.name())?;
            out.extend_from_slice(b"=\"")?;
            push_value(out, value)?;
            out.push(b'"')?;
            Ok(())
        }
    }
}

/// Appends options, each after a comma.
fn push_others(out: &mut Vec<u8>, others: OptionsView<'_>) -> Result<(), AllocError>
    ensures { OnOk result (out.new.items ≡ out.old.items ++ flat_map after_comma others.entry) }
{
    for option in others {
        out.push(b',')?;
        push_option(out, &option)?;
    }
    Ok(())
}

/// Appends options, separated by commas.
pub(crate) fn push_options(
    out: &mut Vec<u8>,
    mut options: OptionsView<'_>,
) -> Result<(), AllocError>
    ensures { OnOk result (out.new.items ≡ out.old.items ++ options_text options.entry) }
{
    if let Some(first) = options.next() {
        out.reserve(ROOM)?;
        push_option(out, &first)?;
        push_others(out, options)?;
    }
    Ok(())
}
