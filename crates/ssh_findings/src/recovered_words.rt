//! Where OpenSSH looks for a key on a line, and how it reads the key from its type and base64
//! words.

ghost use Rattle.std.specs.Prelude.{◌≡◌, IfOk, false, option_map, filter};
ghost use Rattle.std.specs.List.{position};
ghost use Rattle.ssh_text.specs.Text.{next_field};
ghost use Rattle.ssh_findings.specs.HeldKey.{after_marker, after_options, authorized_key, is_first, held_key, host_key, key_after_blanks, known_held_key, read_part, toggled};
ghost use Rattle.ssh_findings.specs.OpenSshBlob.{is_nul, openssh_key};
ghost use Rattle.ssh_keys.specs.KeyOf.{key_of};
ghost use Rattle.ssh_keys.specs.PublicKey.{key_blob};
ghost use Rattle.ssh_findings.specs.OpenSshWords.{bytes_of_word, if_of_kind, is_no_space, key_at, key_of_kind, key_of_words};

use crate::recovered_key::{key_in_blob, word_kind};
use ssh_files::decode;
use ssh_keys::{Key, KeyKind, KeyView, write_key};
use ssh_text::{is_blank, skip_blanks, split_word};
use std::alloc::{AllocError, Global};

fn find_nul(line: &[u8]) -> Option<usize>
    ensures { result ≡ position is_nul line.now }
{
    line.iter().position(|byte| *byte == 0)
}

/// The part of a line that OpenSSH reads: up to its first NUL, since it is a C string, without the
/// blanks at its front.
#[tactic(auto, unfolding(crate::specs::HeldKey::read_part))]
pub(crate) fn read_part(line: &[u8]) -> &[u8]
    ensures { result.now ≡ read_part line.now }
{
    match find_nul(line) {
        None => skip_blanks(line),
        Some(end) => skip_blanks(&line[..end]),
    }
}

fn is_first(byte: u8, text: &[u8]) -> bool
    ensures { result ≡ is_first byte text.now }
{
    match text {
        [] => false,
        [first, ..] => *first == byte,
    }
}

/// Whether a quote is open after this byte. A quote right after a backslash is escaped and changes
/// nothing.
fn toggled(quoted: bool, escaped: bool, byte: u8) -> bool
    ensures { result ≡ toggled quoted escaped byte }
{
    if byte == b'"' && !escaped {
        !quoted
    } else {
        quoted
    }
}

/// The text from the first blank outside quotes on; `None` if a quote stays open.
fn after_options(text: &[u8]) -> Option<&[u8]>
    ensures { option_map (λ rest. rest.now) result ≡ after_options false false text.now }
{
    let mut quoted = false;
    let mut escaped = false;
    for (i, byte) in text.iter().enumerate() {
        if !quoted && is_blank(*byte) {
            return Some(&text[i..]);
        }
        quoted = toggled(quoted, escaped, *byte);
        escaped = *byte == b'\\';
    }
    if quoted { None } else { Some(&[]) }
}

/// The key after the options.
fn key_after_options(alloc: Global, text: &[u8]) -> Result<Option<Key>, AllocError>
    ensures { IfOk result
        (λ key. key ≡ key_after_blanks (after_options false false text.now)) }
{
    match after_options(text) {
        None => Ok(None),
        Some(rest) => {
            let key = key_at(alloc, skip_blanks(rest))?;
            Ok(key)
        }
    }
}

/// The key at the first word, or else the one after the options.
#[tactic(auto, unfolding(crate::specs::HeldKey::authorized_key))]
fn authorized_key(alloc: Global, text: &[u8]) -> Result<Option<Key>, AllocError>
    ensures { IfOk result (λ key. key ≡ authorized_key text.now) }
{
    if is_first(b'#', text) {
        return Ok(None);
    }
    match key_at(alloc, text)? {
        Some(key) => Ok(Some(key)),
        None => {
            let key = key_after_options(alloc, text)?;
            Ok(key)
        }
    }
}

/// The key that OpenSSH looks for on an authorized_keys line that is unreadable here, as `held_key`
/// finds it.
#[tactic(auto, unfolding(crate::specs::HeldKey::held_key))]
pub fn key_on_line(alloc: Global, line: &[u8]) -> Result<Option<Key>, AllocError>
    ensures { IfOk result (λ key. key ≡ held_key line.now) }
{
    let key = authorized_key(alloc, read_part(line))?;
    Ok(key)
}

pub(crate) fn next_field(text: &[u8]) -> &[u8]
    ensures { result.now ≡ next_field text.now }
{
    let (_, after) = split_word(text);
    skip_blanks(after)
}

/// The text after a marker, if there is a marker, else the whole text.
pub(crate) fn after_marker(text: &[u8]) -> &[u8]
    ensures { result.now ≡ after_marker text.now }
{
    if is_first(b'@', text) {
        next_field(text)
    } else {
        text
    }
}

/// The key after the names.
#[tactic(auto, unfolding(crate::specs::HeldKey::host_key))]
fn host_key(alloc: Global, text: &[u8]) -> Result<Option<Key>, AllocError>
    ensures { IfOk result (λ key. key ≡ host_key text.now) }
{
    if is_first(b'#', text) {
        return Ok(None);
    }
    let key = key_at(alloc, next_field(after_marker(text)))?;
    Ok(key)
}

/// The key on a known_hosts line.
#[tactic(auto, unfolding(crate::specs::HeldKey::known_held_key))]
pub(crate) fn key_on_known_line(alloc: Global, line: &[u8]) -> Result<Option<Key>, AllocError>
    ensures { IfOk result (λ key. key ≡ known_held_key line.now) }
{
    let key = host_key(alloc, read_part(line))?;
    Ok(key)
}

/// Whether a byte is not white space of C, which OpenSSH skips in base64.
fn is_no_space(byte: u8) -> bool
    ensures { result ≡ is_no_space byte }
{
    !(byte == b' ' || (9 <= byte && byte <= 13))
}

/// The bytes of a word without white space.
fn without_space(alloc: Global, word: &[u8]) -> Result<Vec<u8>, AllocError>
    ensures { IfOk result (λ kept. kept.items ≡ filter is_no_space word.now) }
{
    let mut kept = Vec::new(alloc);
    for (i, byte) in word.iter().enumerate() {
        if is_no_space(*byte) {
            kept.push(*byte)?;
        }
    }
    Ok(kept)
}

/// The bytes that a word encodes in canonical base64, once white space inside it is dropped.
#[tactic(auto, unfolding(crate::specs::OpenSshWords::bytes_of_word))]
pub(crate) fn bytes_of_word(alloc: Global, word: &[u8]) -> Result<Option<Vec<u8>>, AllocError>
    ensures { IfOk result (λ blob. option_map (λ v. v.items) blob ≡ bytes_of_word word.now) }
{
    let kept = without_space(alloc, word)?;
    let blob = decode(alloc, &kept)?;
    Ok(blob)
}

/// An owned key with its canonical blob.
fn owned(alloc: Global, view: &KeyView<'_>) -> Result<Key, AllocError>
    ensures { IfOk result (λ key. key ≡ key_of view.now) }
{
    let mut blob = Vec::new(alloc);
    write_key(view, &mut blob)?;
    match Key::read(blob) {
        Ok(key) => Ok(key),
        Err(_) => unreachable!(),
    }
}

/// The key that OpenSSH reads in a blob, if it is of this kind.
fn key_of_kind(alloc: Global, kind: KeyKind, blob: &[u8]) -> Result<Option<Key>, AllocError>
    ensures { IfOk result (λ key. key ≡ if_of_kind kind (openssh_key blob.now)) }
{
    let Ok(view) = key_in_blob(blob) else {
        return Ok(None);
    };
    if view.kind().name() != kind.name() {
        return Ok(None);
    }
    let key = owned(alloc, &view)?;
    Ok(Some(key))
}

/// The key of this kind in the base64 of a word.
fn key_in_base64(alloc: Global, kind: KeyKind, word: &[u8]) -> Result<Option<Key>, AllocError>
    ensures { IfOk result (λ key. key ≡ key_of_kind kind (bytes_of_word word.now)) }
{
    match bytes_of_word(alloc, word)? {
        None => Ok(None),
        Some(blob) => {
            let key = key_of_kind(alloc, kind, &blob)?;
            Ok(key)
        }
    }
}

/// The key that OpenSSH reads from a type word and a base64 word.
#[tactic(auto, unfolding(crate::specs::OpenSshWords::key_of_words))]
fn key_of_words(
    alloc: Global,
    type_word: &[u8],
    base64_word: &[u8],
) -> Result<Option<Key>, AllocError>
    ensures { IfOk result (λ key. key ≡ key_of_words type_word.now base64_word.now) }
{
    match word_kind(type_word) {
        None => Ok(None),
        Some(kind) => {
            let key = key_in_base64(alloc, kind, base64_word)?;
            Ok(key)
        }
    }
}

/// The key at the front of a text, from its first two words.
#[tactic(auto, unfolding(crate::specs::OpenSshWords::key_at))]
pub(crate) fn key_at(alloc: Global, text: &[u8]) -> Result<Option<Key>, AllocError>
    ensures { IfOk result (λ key. key ≡ key_at text.now) }
{
    let (type_word, after) = split_word(text);
    let (base64_word, _) = split_word(skip_blanks(after));
    let key = key_of_words(alloc, type_word, base64_word)?;
    Ok(key)
}

/// The blob of a key, if there is one.
pub(crate) fn blob_of(alloc: Global, key: Option<Key>) -> Result<Option<Vec<u8>>, AllocError>
    ensures { IfOk result (λ blob. option_map (λ v. v.items) blob ≡ option_map key_blob key) }
{
    match key {
        None => Ok(None),
        Some(key) => {
            let mut blob = Vec::new(alloc);
            blob.extend_from_slice(key.blob())?;
            Ok(Some(blob))
        }
    }
}

/// The canonical blob of the plain key that OpenSSH reads from a type word and a base64 word of a
/// line; `None` if it reads none.
pub fn openssh_blob(
    alloc: Global,
    type_word: &[u8],
    base64_word: &[u8],
) -> Result<Option<Vec<u8>>, AllocError>
    ensures { IfOk result (λ blob. option_map (λ v. v.items) blob
        ≡ option_map key_blob (key_of_words type_word.now base64_word.now)) }
{
    let key = key_of_words(alloc, type_word, base64_word)?;
    let blob = blob_of(alloc, key)?;
    Ok(blob)
}

/// The canonical blob of the plain key that OpenSSH reads in these bytes, which may be another
/// encoding of it; `None` if it reads none.
pub fn canonical_blob(alloc: Global, blob: &[u8]) -> Result<Option<Vec<u8>>, AllocError>
    ensures { IfOk result (λ canonical. option_map (λ v. v.items) canonical
        ≡ option_map key_blob (openssh_key blob.now)) }
{
    let Ok(view) = key_in_blob(blob) else {
        return Ok(None);
    };
    let mut canonical = Vec::new(alloc);
    write_key(&view, &mut canonical)?;
    Ok(Some(canonical))
}
