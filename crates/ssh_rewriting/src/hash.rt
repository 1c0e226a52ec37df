//! Hashes the host names of a known_hosts file: each name becomes a line of its own.

ghost use Rattle.std.specs.Prelude.{◌≡◌, ◌++◌, IfOk, OnOk, OnErr, ◌≢◌, ◌<◌, ◌≤◌, [], length, drop, Err, IfErr, Ok};
ghost use Rattle.ssh_rewriting.specs.declared.hash.HashError.TheVariants.{Memory, TooFewSalts, TooLong};
ghost use Rattle.ssh_rewriting.specs.Answer.{hash_error_of, hashed};
ghost use Rattle.ssh_rewriting.specs.HashedFile.{hashed_line, hashed_lines, hidden_entry, hidden_names, lines_in_place, names_hidden, hashed_facts};
ghost use Rattle.ssh_text.specs.Text.{file_limit, lines_of};
ghost use Rattle.ssh_entries.specs.KnownGrammar.{known_line};
ghost use Rattle.ssh_rewriting.specs.Bounded.{bounded_line, bounded_lines};
ghost use Rattle.std.specs.List.{AllByRecursion};
ghost use Rattle.base64.specs.GeneralPurpose.{IsBytes};
ghost use Rattle.ssh_entries.specs.Names.{IsTwentyBytes};
ghost use Rattle.ssh_rewriting.specs.Facts.{known_facts};
ghost use Rattle.ssh_rewriting.specs.HashedNames.{AddsNoName, KeepsNames};

use crate::hidden_names::{hidden_entry, put_names};
use crate::lines::write_line_with_names;
use crate::rewrite::{RewriteError, is_past_limit};
use ssh_entries::{KeyBuffer, KnownEntry, KnownEntryView, hashed_field};
use ssh_text::Lines;
use std::alloc::{AllocError, Global};
use thiserror::Error;

/// Why the names of a file are not hashed.
#[derive(Clone, Copy, Debug, PartialEq, Eq, Error)]
pub enum HashError {
    /// The file, or the new file, has more than 67,108,864 bytes.
    #[error("the file is too long")]
    TooLong,
    /// The file has more names to hash than there are salts.
    #[error("there are fewer salts than names to hash")]
    TooFewSalts,
    /// Memory could not be allocated.
    #[error("out of memory")]
    Memory,
}

impl From<AllocError> for HashError {
    ghost from_gives = { λ x e. e ≡ Memory };

    fn from(_e: AllocError) -> HashError {
        HashError::Memory
    }
}

/// Lets a caller that both rewrites files and hashes names use one error type.
impl From<RewriteError> for HashError {
    ghost from_gives = { λ x e. e ≡ hash_error_of x };

    fn from(e: RewriteError) -> HashError {
        match e {
            RewriteError::TooLong => HashError::TooLong,
            RewriteError::Memory => HashError::Memory,
        }
    }
}

/// The canonical line of an entry with the hash of a name under a salt, of 60 bytes, as its whole
/// names field. The name is hashed as it is, so pass the result of `lookup_name`, which is in lower
/// case. Fails only when memory cannot be allocated.
pub fn hashed_known_line(
    alloc: Global,
    entry: &KnownEntry,
    salt: &[u8; 20],
    name: &[u8],
) -> Result<Vec<u8>, AllocError>
    ensures { IfOk result (λ line. line.items ≡ hashed_line entry.now salt.now name.now) }
{
    let mut buffer = KeyBuffer::new(alloc)?;
    let mut line = Vec::new(alloc);
    write_hashed_line(&entry.view(&mut buffer), salt, name, &mut line)?;
    Ok(line)
}

/// Appends the same line, from a view of the entry. An `Err` means that memory could not be
/// allocated, and then nothing is changed.
pub fn write_hashed_line(
    entry: &KnownEntryView<'_>,
    salt: &[u8; 20],
    name: &[u8],
    out: &mut Vec<u8>,
) -> Result<(), AllocError>
    ensures ok { OnOk result (
        out.new.items ≡ out.old.items ++ hashed_line entry.now salt.now name.now) }
    ensures err { OnErr result (out.new.items ≡ out.old.items) }
{
    write_line_with_names(entry, &hashed_field(salt, name), out)
}

/// Appends a line as it is, and an LF, where the file is within the limit.
fn put_kept(line: &[u8], new: &mut Vec<u8>) -> Result<(), AllocError>
    ensures { OnOk result (new.new.items ≡ bounded_line new.old.items line.now) }
{
    if is_past_limit(new) {
        return Ok(());
    }
    new.extend_from_slice(line)?;
    new.push(b'\n')?;
    Ok(())
}

/// Appends what replaces a line, where the file is within the limit, and returns the remaining
/// salts.
#[tactic(auto, using(crate::proofs::HiddenLemmas::hidden_pieces, crate::proofs::HiddenLemmas::length_pieces))]
fn put_line<'a>(
    line: &[u8],
    salts: &'a [[u8; 20]],
    buffer: &mut KeyBuffer,
    lower: &mut Vec<u8>,
    new: &mut Vec<u8>,
) -> Result<&'a [[u8; 20]], HashError>
    ensures lines { OnOk result (new.new.items ≡ bounded_lines new.old.items
        (lines_in_place (hidden_entry (known_line line.now)) line.now salts.entry.now)) }
    ensures left { IfOk result (λ left.
        left.now ≡ drop (length (hidden_names (known_line line.now))) salts.entry.now) }
    ensures enough { IfOk result (λ left.
        length (hidden_names (known_line line.now)) ≤ length salts.entry.now) }
    ensures too_few { result ≡ Err TooFewSalts →
        length salts.entry.now < length (hidden_names (known_line line.now)) }
    ensures no_length { IfErr result (λ e. e ≢ TooLong) }
{
    let Some(entry) = hidden_entry(line, buffer) else {
        put_kept(line, new)?;
        return Ok(salts);
    };
    put_names(&entry, salts, lower, new)
}

/// The lines of a file with its names hashed, each ended by an LF, until the new file passes the
/// limit. From then on names are still counted against the salts, because `TooFewSalts` is reported
/// before `TooLong`.
#[tactic(auto, using(crate::proofs::HashLoopLemmas::lines_begin, crate::proofs::HashLoopLemmas::names_begin))]
pub(crate) fn hashed_file(
    alloc: Global,
    file: &[u8],
    salts: &[[u8; 20]],
) -> Result<Vec<u8>, HashError>
    requires { length file.now ≤ file_limit }
    ensures lines { IfOk result (λ new.
        new.items ≡ bounded_lines [] (hashed_lines (lines_of file.now) salts.now)) }
    ensures enough { IfOk result (λ new. length (names_hidden file.now) ≤ length salts.now) }
    ensures too_few { result ≡ Err TooFewSalts → length salts.now < length (names_hidden file.now) }
    ensures no_length { IfErr result (λ e. e ≢ TooLong) }
{
    let mut new = Vec::with_capacity(alloc, file.len() + 1)?;
    let mut buffer = KeyBuffer::new(alloc)?;
    let mut lower = Vec::new(alloc);
    let mut salts = salts;
    for (_number, line) in Lines::new(file) {
        salts = put_line(line, salts, &mut buffer, &mut lower, &mut new)?;
    }
    Ok(new)
}

/// Has no effect: its contract gives proofs that bytes are below 256.
fn know_bytes(bytes: &[u8])
    ensures { IsBytes bytes.now }
{
    let _ = bytes;
}

/// Has no effect: its contract gives proofs that each salt has 20 bytes.
fn know_salts(salts: &[[u8; 20]])
    ensures { AllByRecursion IsTwentyBytes salts.now }
{
    know_bytes(salts.as_flattened());
}

/// Hashes the names of a known_hosts file. An entry's names are hashed if they are not hashed yet
/// and have no `*`, `?` or `!`: wildcards and negation cannot be hashed (sshd(8), SSH_KNOWN_HOSTS
/// FILE FORMAT). Each name becomes a line of its own: the canonical line of the entry with the hash
/// of the name, in ASCII lower case, under the next salt. An entry whose new line would have more
/// than 65,536 bytes keeps its line and uses no salt, and every other line is copied as it is. Each
/// line is ended by an LF. `TooLong` means that the file has more than 67,108,864 bytes; otherwise
/// `TooFewSalts` that there are fewer salts than names to hash; otherwise `TooLong` that the new
/// file has more bytes than that. `Memory` means that memory could not be allocated.
#[tactic(auto, using(crate::proofs::AnswerLemmas::answer_hashed, crate::proofs::AnswerLemmas::answer_hashed_long, crate::proofs::AnswerLemmas::answer_too_few, crate::proofs::AnswerLemmas::answer_hashed_overlong))]
pub fn hash_known(alloc: Global, file: &[u8], salts: &[[u8; 20]]) -> Result<Vec<u8>, HashError>
    // The result is the file with its names hashed, where there are enough salts and neither file
    // is past the limit.
    ensures hashed { IfOk result (λ new. hashed file.now salts.now ≡ Ok new.items) }
    // It is too long only where one of them is past the limit, and if that is the new one, there
    // are enough salts.
    ensures too_long { result ≡ Err TooLong → hashed file.now salts.now ≡ Err TooLong }
    // There are too few salts only where the file is within the limit and has more names to hash.
    ensures too_few { result ≡ Err TooFewSalts → hashed file.now salts.now ≡ Err TooFewSalts }
    // The length of the file is tested before memory is allocated.
    ensures overlong { file_limit < length file.now → result ≡ Err TooLong }
    // Line by line the new file has the entries of the old one, with one entry for each hashed
    // name.
    ensures facts { IfOk result (λ new.
        known_facts new.items ≡ hashed_facts (known_facts file.now) salts.now) }
    // Each host and port that the file names is still named, with the same key and marker.
    ensures keeps_names { IfOk result (λ new. KeepsNames file.now new.items) }
    // No other host is named, unless two names have the same hash.
    ensures adds_no_name { IfOk result (λ new. AddsNoName file.now salts.now new.items) }
{
    if is_past_limit(file) {
        return Err(HashError::TooLong);
    }
    know_salts(salts);
    let new = hashed_file(alloc, file, salts)?;
    if is_past_limit(&new) {
        return Err(HashError::TooLong);
    }
    Ok(new)
}
