//! The canonical lines of entries of both files.

ghost use Rattle.std.specs.Prelude.{◌≡◌, ◌∷◌, ◌++◌, OnOk, OnErr, [], IfOk};
ghost use Rattle.ssh_keys.specs.Names.{key_name_of};
ghost use Rattle.ssh_rewriting.specs.Canonical.{comment_part, after_comma, option_text, options_part, canonical_auth, canonical_known, line_with_names, marker_part};
ghost use Rattle.ssh_wire.specs.Fronts.{Keeps};
ghost use Rattle.std.specs.List.{flat_map};
ghost use Rattle.ssh_options.specs.AuthOption.{Setting};
ghost use Rattle.ssh_options.specs.OptionText.{escaped};
ghost use Rattle.ssh_options.specs.OptionsInLine.{option_in_line};

use ssh_entries::{AuthEntry, AuthEntryView, KeyBuffer, KnownEntry, KnownEntryView, Marker};
use ssh_keys::KeyKind;
use ssh_options::{OptionView, OptionsView, ValueBytes, ValueName};
use std::alloc::{AllocError, Global};

/// Appends a space and the comment, if it is not empty. On an `Err` a part may have been appended.
fn put_comment(comment: &[u8], out: &mut Vec<u8>) -> Result<(), AllocError>
    ensures ok { OnOk result (out.new.items ≡ out.old.items ++ comment_part comment.now) }
    ensures err { OnErr result (Keeps out.old.items out.new.items) }
{
    if comment.is_empty() {
        return Ok(());
    }
    out.push(b' ')?;
    out.extend_from_slice(comment)
}

/// Appends a key's type, a space and its base64. On an `Err` a part may have been appended.
fn put_type_and_base64(kind: KeyKind, base64: &[u8], out: &mut Vec<u8>) -> Result<(), AllocError>
    ensures ok { OnOk result (
        out.new.items ≡ out.old.items ++ key_name_of kind ++ 32 ∷ base64.now) }
    ensures err { OnErr result (Keeps out.old.items out.new.items) }
{
    out.extend_from_slice(kind.name())?;
    out.push(b' ')?;
    out.extend_from_slice(base64)?;
    Ok(())
}

/// Appends type, base64 and comment, separated by one space. On an `Err` a part may have been
/// appended.
pub(crate) fn put_key(
    kind: KeyKind,
    base64: &[u8],
    comment: &[u8],
    out: &mut Vec<u8>,
) -> Result<(), AllocError>
    ensures ok { OnOk result (out.new.items ≡ out.old.items
        ++ (key_name_of kind ++ 32 ∷ base64.now) ++ comment_part comment.now) }
    ensures err { OnErr result (Keeps out.old.items out.new.items) }
{
    put_type_and_base64(kind, base64, out)?;
    put_comment(comment, out)
}

/// Appends a byte of a value, with a backslash before a quote.
fn put_escaped_byte(byte: u8, out: &mut Vec<u8>) -> Result<(), AllocError>
    ensures ok { OnOk result (out.new.items ≡ out.old.items ++ escaped (byte ∷ [])) }
    ensures err { OnErr result (out.new.items ≡ out.old.items) }
{
    if byte == b'"' {
        out.extend_from_slice(b"\\\"")?;
    } else {
        out.push(byte)?;
    }
    Ok(())
}

/// Appends a value, with a backslash before each quote. On an `Err` a part may have been appended.
fn put_escaped(value: ValueBytes<'_>, out: &mut Vec<u8>) -> Result<(), AllocError>
    ensures ok { OnOk result (out.new.items ≡ out.old.items ++ escaped value.entry) }
    ensures err { OnErr result (Keeps out.old.items out.new.items) }
{
    for byte in value {
        put_escaped_byte(byte, out)?;
    }
    Ok(())
}

/// Appends the name of an option and its value between quotes. On an `Err` a part may have been
/// appended.
fn put_setting(name: ValueName, value: ValueBytes<'_>, out: &mut Vec<u8>) -> Result<(), AllocError>
    ensures ok { OnOk result (
        out.new.items ≡ out.old.items ++ option_text (Setting name value.entry)) }
    ensures err { OnErr result (Keeps out.old.items out.new.items) }
{
    out.extend_from_slice(name.name())?;
    out.extend_from_slice(b"=\"")?;
    put_escaped(value, out)?;
    out.push(b'"')?;
    Ok(())
}

/// Appends an option. On an `Err` a part may have been appended.
fn put_option(option: &OptionView<'_>, out: &mut Vec<u8>) -> Result<(), AllocError>
    ensures ok { OnOk result (
        out.new.items ≡ out.old.items ++ option_text (option_in_line option.now)) }
    ensures err { OnErr result (Keeps out.old.items out.new.items) }
{
    match option {
        OptionView::Switch(flag) => out.extend_from_slice(flag.name()),
        OptionView::Setting(name, value) => put_setting(*name, value.bytes(), out),
    }
}

/// Appends options, each after a comma. On an `Err` a part may have been appended.
fn put_others(others: OptionsView<'_>, out: &mut Vec<u8>) -> Result<(), AllocError>
    ensures ok { OnOk result (out.new.items ≡ out.old.items ++ flat_map after_comma others.entry) }
    ensures err { OnErr result (Keeps out.old.items out.new.items) }
{
    for option in others {
        out.push(b',')?;
        put_option(&option, out)?;
    }
    Ok(())
}

/// Appends options, with commas between them and a space after them. On an `Err` a part may have
/// been appended.
pub(crate) fn put_options(mut options: OptionsView<'_>, out: &mut Vec<u8>) -> Result<(), AllocError>
    ensures ok { OnOk result (out.new.items ≡ out.old.items ++ options_part options.entry) }
    ensures err { OnErr result (Keeps out.old.items out.new.items) }
{
    let Some(first) = options.next() else {
        return Ok(());
    };
    put_option(&first, out)?;
    put_others(options, out)?;
    out.push(b' ')?;
    Ok(())
}

/// The canonical line of an entry: its options, comma-separated and in their order, with names as
/// sshd(8) writes them and a backslash before each quote of a value; the type and the base64 of its
/// key; and its comment if it has one. The fields are separated by one space. Fails only when
/// memory cannot be allocated.
pub fn canonical_auth_line(alloc: Global, entry: &AuthEntry) -> Result<Vec<u8>, AllocError>
    ensures { IfOk result (λ line. line.items ≡ canonical_auth entry.now) }
{
    let mut buffer = KeyBuffer::new(alloc)?;
    let mut line = Vec::new(alloc);
    write_auth_line(&entry.view(&mut buffer), &mut line)?;
    Ok(line)
}

/// On an `Err` a part of the line may have been appended.
fn put_auth_line(entry: &AuthEntryView<'_>, out: &mut Vec<u8>) -> Result<(), AllocError>
    ensures ok { OnOk result (out.new.items ≡ out.old.items ++ canonical_auth entry.now) }
    ensures err { OnErr result (Keeps out.old.items out.new.items) }
{
    put_options(entry.options(), out)?;
    let (base64, comment) = entry.base64_and_comment();
    put_key(entry.key().kind(), base64, comment, out)
}

/// Appends the canonical line of an entry, from a view of it. An `Err` means that memory could not
/// be allocated, and then nothing is changed.
pub fn write_auth_line(entry: &AuthEntryView<'_>, out: &mut Vec<u8>) -> Result<(), AllocError>
    ensures ok { OnOk result (out.new.items ≡ out.old.items ++ canonical_auth entry.now) }
    ensures err { OnErr result (out.new.items ≡ out.old.items) }
{
    let len = out.len();
    let outcome = put_auth_line(entry, out);
    if outcome.is_err() {
        out.truncate(len);
    }
    outcome
}

/// Appends the marker and a space, if the entry has one.
fn put_marker(marker: Marker, out: &mut Vec<u8>) -> Result<(), AllocError>
    ensures ok { OnOk result (out.new.items ≡ out.old.items ++ marker_part marker) }
    ensures err { OnErr result (out.new.items ≡ out.old.items) }
{
    match marker {
        Marker::Unmarked => Ok(()),
        Marker::CertAuthority => out.extend_from_slice(b"@cert-authority "),
    }
}

/// The canonical line of an entry: its marker if it has one, its names as they are, the type and
/// the base64 of its key, and its comment if it has one, separated by one space. Fails only when
/// memory cannot be allocated.
pub fn canonical_known_line(alloc: Global, entry: &KnownEntry) -> Result<Vec<u8>, AllocError>
    ensures { IfOk result (λ line. line.items ≡ canonical_known entry.now) }
{
    let mut buffer = KeyBuffer::new(alloc)?;
    let mut line = Vec::new(alloc);
    write_known_line(&entry.view(&mut buffer), &mut line)?;
    Ok(line)
}

/// Appends the fields before an entry's key: the marker, if it has one, and the names. On an `Err`
/// a part may have been appended.
fn put_fields(marker: Marker, names: &[u8], out: &mut Vec<u8>) -> Result<(), AllocError>
    ensures ok { OnOk result (
        out.new.items ≡ out.old.items ++ marker_part marker ++ names.now ++ 32 ∷ []) }
    ensures err { OnErr result (Keeps out.old.items out.new.items) }
{
    put_marker(marker, out)?;
    out.extend_from_slice(names)?;
    out.push(b' ')?;
    Ok(())
}

/// Appends an entry's line with this text as its names. On an `Err` a part may have been appended.
fn put_line_with_names(
    entry: &KnownEntryView<'_>,
    names: &[u8],
    out: &mut Vec<u8>,
) -> Result<(), AllocError>
    ensures ok { OnOk result (
        out.new.items ≡ out.old.items ++ line_with_names entry.now names.now) }
    ensures err { OnErr result (Keeps out.old.items out.new.items) }
{
    put_fields(entry.marker(), names, out)?;
    let (base64, comment) = entry.base64_and_comment();
    put_key(entry.key().kind(), base64, comment, out)
}

/// Appends an entry's line with this text as its names. An `Err` means that memory could not be
/// allocated, and then nothing is changed.
pub(crate) fn write_line_with_names(
    entry: &KnownEntryView<'_>,
    names: &[u8],
    out: &mut Vec<u8>,
) -> Result<(), AllocError>
    ensures ok { OnOk result (
        out.new.items ≡ out.old.items ++ line_with_names entry.now names.now) }
    ensures err { OnErr result (out.new.items ≡ out.old.items) }
{
    let len = out.len();
    let outcome = put_line_with_names(entry, names, out);
    if outcome.is_err() {
        out.truncate(len);
    }
    outcome
}

/// Appends the canonical line of an entry, from a view of it. An `Err` means that memory could not
/// be allocated, and then nothing is changed.
pub fn write_known_line(entry: &KnownEntryView<'_>, out: &mut Vec<u8>) -> Result<(), AllocError>
    ensures ok { OnOk result (out.new.items ≡ out.old.items ++ canonical_known entry.now) }
    ensures err { OnErr result (out.new.items ≡ out.old.items) }
{
    write_line_with_names(entry, entry.names().text(), out)
}
