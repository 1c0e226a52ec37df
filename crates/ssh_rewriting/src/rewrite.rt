//! Rewrites a trust file with canonical lines.

ghost use Rattle.std.specs.Prelude.{◌≡◌, ◌++◌, ℕ, List, OnOk, ◌<◌, ◌≤◌, nat_lt, length, Ok, Err, IfOk, IfErr, ◌+◌};
ghost use Rattle.ssh_rewriting.specs.declared.rewrite.RewriteError.TheVariants.{Memory, TooLong};
ghost use Rattle.ssh_rewriting.specs.Answer.{rewritten};
ghost use Rattle.ssh_text.specs.Text.{file_limit};
ghost use Rattle.ssh_rewriting.specs.CanonicalFile.{file_with, auth_written, canonical_auth_file, canonical_known_file};
ghost use Rattle.ssh_rewriting.specs.Facts.{auth_facts, known_facts};

use crate::known_file::KnownFile;
use crate::lines::write_auth_line;
use ssh_entries::{AuthLineView, KeyBuffer, read_auth_view};
use ssh_text::{FILE_LIMIT, Lines};
use std::alloc::{AllocError, Global};
use thiserror::Error;

/// Why a file is not rewritten.
#[derive(Clone, Copy, Debug, PartialEq, Eq, Error)]
pub enum RewriteError {
    /// The file, or the new file, has more than 67,108,864 bytes.
    #[error("the file is too long")]
    TooLong,
    /// Memory could not be allocated.
    #[error("out of memory")]
    Memory,
}

impl From<AllocError> for RewriteError {
    ghost from_gives = { λ x e. e ≡ Memory };

    fn from(_e: AllocError) -> RewriteError {
        RewriteError::Memory
    }
}

/// A kind of trust file, by how a line of it is rewritten.
pub(crate) trait Kind {
    ghost written: { List ℕ → List ℕ };

    /// Appends what replaces a line, without an LF.
    fn put_line(line: &[u8], buffer: &mut KeyBuffer, out: &mut Vec<u8>) -> Result<(), AllocError>
        ensures { OnOk result (out.new.items ≡ out.old.items ++ written line.now) };
}

/// Whether the file is past the limit.
pub(crate) fn is_past_limit(file: &[u8]) -> bool
    ensures { result ≡ nat_lt file_limit (length file.now) }
{
    file.len() > FILE_LIMIT
}

/// Fails with `TooLong` where the file is past the limit.
fn check_len(file: &[u8]) -> Result<(), RewriteError>
    ensures short { IfOk result (λ u. length file.now ≤ file_limit) }
    ensures long { IfErr result (λ e. file_limit < length file.now) }
    ensures error { IfErr result (λ e. e ≡ TooLong) }
{
    if is_past_limit(file) {
        return Err(RewriteError::TooLong);
    }
    Ok(())
}

/// The rewritten lines of a file, each ended by an LF.
#[tactic(auto, using(crate::proofs::LoopLemmas::left_begin))]
fn written_file<K: Kind>(alloc: Global, file: &[u8]) -> Result<Vec<u8>, AllocError>
    requires { length file.now ≤ file_limit }
    ensures { IfOk result (λ new. new.items ≡ file_with K.written file.now) }
{
    let mut new = Vec::with_capacity(alloc, file.len() + 1)?;
    let mut buffer = KeyBuffer::new(alloc)?;
    for (_number, line) in Lines::new(file) {
        K::put_line(line, &mut buffer, &mut new)?;
        new.push(b'\n')?;
    }
    Ok(new)
}

/// The same, where neither the file nor the result is past the limit.
#[tactic(auto, using(crate::proofs::AnswerLemmas::answer_short, crate::proofs::AnswerLemmas::answer_long, crate::proofs::AnswerLemmas::answer_overlong))]
pub(crate) fn rewrite<K: Kind>(alloc: Global, file: &[u8]) -> Result<Vec<u8>, RewriteError>
    ensures written { IfOk result (λ new. new.items ≡ file_with K.written file.now) }
    ensures answer { IfOk result (λ new.
        rewritten file.now (file_with K.written file.now) ≡ Ok new.items) }
    ensures too_long { result ≡ Err TooLong →
        rewritten file.now (file_with K.written file.now) ≡ Err TooLong }
    ensures overlong { file_limit < length file.now → result ≡ Err TooLong }
{
    check_len(file)?;
    let new = written_file::<K>(alloc, file)?;
    check_len(&new)?;
    Ok(new)
}

/// The kind of authorized_keys files.
pub(crate) struct AuthFile;

impl Kind for AuthFile {
    ghost written = { auth_written };

    fn put_line(line: &[u8], buffer: &mut KeyBuffer, out: &mut Vec<u8>) -> Result<(), AllocError> {
        match read_auth_view(line, buffer) {
            AuthLineView::Entry(entry) => write_auth_line(&entry, out),
            _ => out.extend_from_slice(line),
        }
    }
}

/// Rewrites an authorized_keys file: each entry becomes its canonical line, every other line is
/// copied as it is, and each is ended by an LF. `TooLong` means that the file or the new one has
/// more than 67,108,864 bytes, `Memory` that memory could not be allocated.
pub fn rewrite_auth(alloc: Global, file: &[u8]) -> Result<Vec<u8>, RewriteError>
    // The result is the canonical file, where neither file is past the limit.
    ensures canonical { IfOk result (λ new.
        rewritten file.now (canonical_auth_file file.now) ≡ Ok new.items) }
    // It is too long only where one of them is past the limit.
    ensures too_long { result ≡ Err TooLong →
        rewritten file.now (canonical_auth_file file.now) ≡ Err TooLong }
    // The length of the file is tested before memory is allocated.
    ensures overlong { file_limit < length file.now → result ≡ Err TooLong }
    // Rewriting the result changes nothing.
    ensures again { IfOk result (λ new. canonical_auth_file new.items ≡ new.items) }
    // Line by line the new file is read as the old one is.
    ensures facts { IfOk result (λ new. auth_facts new.items ≡ auth_facts file.now) }
    // No line grows, and at most one LF is added.
    ensures no_longer { IfOk result (λ new. length new.items ≤ length file.now + 1) }
{
    let new = rewrite::<AuthFile>(alloc, file)?;
    Ok(new)
}

/// Rewrites a known_hosts file: each entry becomes its canonical line, every other line,
/// revocations too, is copied as it is, and each is ended by an LF. `TooLong` means that the file
/// or the new one has more than 67,108,864 bytes, `Memory` that memory could not be allocated.
pub fn rewrite_known(alloc: Global, file: &[u8]) -> Result<Vec<u8>, RewriteError>
    // The result is the canonical file, where neither file is past the limit.
    ensures canonical { IfOk result (λ new.
        rewritten file.now (canonical_known_file file.now) ≡ Ok new.items) }
    // It is too long only where one of them is past the limit.
    ensures too_long { result ≡ Err TooLong →
        rewritten file.now (canonical_known_file file.now) ≡ Err TooLong }
    // The length of the file is tested before memory is allocated.
    ensures overlong { file_limit < length file.now → result ≡ Err TooLong }
    // Rewriting the result changes nothing.
    ensures again { IfOk result (λ new. canonical_known_file new.items ≡ new.items) }
    // Line by line the new file is read as the old one is.
    ensures facts { IfOk result (λ new. known_facts new.items ≡ known_facts file.now) }
    // No line grows, and at most one LF is added.
    ensures no_longer { IfOk result (λ new. length new.items ≤ length file.now + 1) }
{
    let new = rewrite::<KnownFile>(alloc, file)?;
    Ok(new)
}
