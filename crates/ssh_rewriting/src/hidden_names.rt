//! Which entries of a known_hosts file have their names hashed, and the lines that replace them.

ghost use Rattle.std.specs.Prelude.{◌≡◌, ◌≢◌, ◌<◌, ◌≤◌, nat_le, [], ◌∷◌, length, map, drop, Err, IfOk, IfErr, OnOk};
ghost use Rattle.std.specs.List.{list_any, zip};
ghost use Rattle.std.specs.Str.{str_to_ascii_lowercase};
ghost use Rattle.ssh_text.specs.Text.{line_limit};
ghost use Rattle.ssh_patterns.specs.Lists.{pieces};
ghost use Rattle.ssh_entries.specs.Names.{names_text};
ghost use Rattle.ssh_entries.specs.KnownGrammar.{known_line};
ghost use Rattle.ssh_rewriting.specs.Canonical.{comment_part, marker_part};
ghost use Rattle.ssh_rewriting.specs.declared.hash.HashError.TheVariants.{TooFewSalts, TooLong};
ghost use Rattle.ssh_rewriting.specs.Bounded.{bounded_line, bounded_lines};
ghost use Rattle.ssh_rewriting.specs.HashedFile.{are_plain, hashed_length, hashed_line, hidden_entry, is_hidden, is_pattern_byte};

use crate::hash::{HashError, write_hashed_line};
use crate::rewrite::is_past_limit;
use base64::encoded_len;
use ssh_entries::{HostNames, KeyBuffer, KnownEntryView, KnownLineView, Marker, read_known_view};
use ssh_patterns::first_piece;
use ssh_text::LINE_LIMIT;
use std::alloc::AllocError;

/// `*` and `?`, which match, and `!`, which negates: names with them are patterns.
fn is_pattern_byte(byte: u8) -> bool
    ensures { result ≡ is_pattern_byte byte }
{
    matches!(byte, b'*' | b'?' | b'!')
}

/// Whether some byte of the list makes it a pattern.
fn has_pattern_byte(list: &[u8]) -> bool
    ensures { result ≡ list_any is_pattern_byte list.now }
{
    list.iter().any(|byte| is_pattern_byte(*byte))
}

/// Whether the names are a list without patterns.
fn are_plain(names: &HostNames<'_>) -> bool
    ensures { result ≡ are_plain names.now }
{
    match names.list() {
        Some(list) => !has_pattern_byte(list),
        None => false,
    }
}

/// How many bytes a marker and its space have.
fn marker_len(marker: Marker) -> u128
    ensures { result ≡ length (marker_part marker) }
{
    match marker {
        Marker::Unmarked => 0,
        Marker::CertAuthority => 16,
    }
}

/// How many bytes a comment and its space have.
fn comment_len(comment: &[u8]) -> u128
    ensures { result ≡ length (comment_part comment.now) }
{
    match comment.len() {
        0 => 0,
        len => len as u128 + 1,
    }
}

/// Whether the line with a hashed name of the entry is within the line limit.
fn fits(entry: &KnownEntryView<'_>) -> bool
    ensures { result ≡ nat_le (hashed_length entry.now) line_limit }
{
    let Some(symbols) = encoded_len(entry.blob().len(), true) else {
        return false;
    };
    let kind = entry.key().kind().name().len() as u128;
    let key = kind + 1 + symbols as u128;
    marker_len(entry.marker()) + 60 + 1 + key + comment_len(entry.comment()) <= LINE_LIMIT as u128
}

/// Whether the names of the entry are hashed.
fn is_hidden(entry: &KnownEntryView<'_>) -> bool
    ensures { result ≡ is_hidden entry.now }
{
    are_plain(&entry.names()) && fits(entry)
}

/// The entry of a line whose names are hashed; `None` for a line that is copied as it is.
pub(crate) fn hidden_entry<'a>(
    line: &'a [u8],
    buffer: &'a mut KeyBuffer,
) -> Option<KnownEntryView<'a>>
    ensures { result ≡ hidden_entry (known_line line.entry.now) }
{
    match read_known_view(line, buffer) {
        KnownLineView::Entry(entry) if is_hidden(&entry) => Some(entry),
        _ => None,
    }
}

/// Replaces the vector's content by the text in ASCII lower case: hosts are looked up in lower
/// case, and a hash is of the bytes as they are.
fn lower_into(text: &[u8], lower: &mut Vec<u8>) -> Result<(), AllocError>
    ensures { OnOk result (lower.new.items ≡ str_to_ascii_lowercase text.now) }
{
    lower.clear();
    lower.extend_from_slice(text)?;
    lower.as_mut_slice().make_ascii_lowercase();
    Ok(())
}

/// Appends a line with a hashed name, and an LF, where the file is within the limit.
fn put_hashed(
    entry: &KnownEntryView<'_>,
    salt: &[u8; 20],
    name: &[u8],
    new: &mut Vec<u8>,
) -> Result<(), AllocError>
    ensures { OnOk result (
        new.new.items ≡ bounded_line new.old.items (hashed_line entry.now salt.now name.now)) }
{
    if is_past_limit(new) {
        return Ok(());
    }
    write_hashed_line(entry, salt, name, new)?;
    new.push(b'\n')?;
    Ok(())
}

/// Appends the line with the hash of this name under the next salt, where the file is within the
/// limit, and returns the remaining salts.
fn put_name<'a>(
    entry: &KnownEntryView<'_>,
    name: &[u8],
    salts: &'a [[u8; 20]],
    lower: &mut Vec<u8>,
    new: &mut Vec<u8>,
) -> Result<&'a [[u8; 20]], HashError>
    ensures line { OnOk result (new.new.items ≡ bounded_lines new.old.items
        (map (λ x. hashed_line entry.now x.0 x.1) (zip salts.entry.now
        (str_to_ascii_lowercase name.now ∷ [])))) }
    ensures left { IfOk result (λ left. left.now ≡ drop 1 salts.entry.now) }
    ensures enough { IfOk result (λ left. 1 ≤ length salts.entry.now) }
    ensures too_few { result ≡ Err TooFewSalts → length salts.entry.now < 1 }
    ensures no_length { IfErr result (λ e. e ≢ TooLong) }
{
    let Some((salt, after)) = salts.split_first() else {
        return Err(HashError::TooFewSalts);
    };
    lower_into(name, lower)?;
    put_hashed(entry, salt, lower, new)?;
    Ok(after)
}

/// Appends a line for each name of an entry, each with the next salt, where the file is within the
/// limit, and returns the remaining salts.
pub(crate) fn put_names<'a>(
    entry: &KnownEntryView<'_>,
    salts: &'a [[u8; 20]],
    lower: &mut Vec<u8>,
    new: &mut Vec<u8>,
) -> Result<&'a [[u8; 20]], HashError>
    ensures lines { OnOk result (new.new.items ≡ bounded_lines new.old.items
        (map (λ x. hashed_line entry.now x.0 x.1) (zip salts.entry.now
        (map str_to_ascii_lowercase (pieces (names_text entry.now.names)))))) }
    ensures left { IfOk result (λ left.
        left.now ≡ drop (length (pieces (names_text entry.now.names))) salts.entry.now) }
    ensures enough { IfOk result (λ left.
        length (pieces (names_text entry.now.names)) ≤ length salts.entry.now) }
    ensures too_few { result ≡ Err TooFewSalts →
        length salts.entry.now < length (pieces (names_text entry.now.names)) }
    ensures no_length { IfErr result (λ e. e ≢ TooLong) }
{
    let mut salts = salts;
    let mut rest = Some(entry.names().text());
    while let Some(list) = rest {
        let (name, left) = first_piece(list);
        salts = put_name(entry, name, salts, lower, new)?;
        rest = left;
    }
    Ok(salts)
}
