//! The responses to `rewrite`, `readable` and `hash`: a trust file with canonical lines, its
//! readable entries alone, or with hashed host names.

ghost use Rattle.std.specs.Prelude.{◌≡◌, IfOk, Some};
ghost use Rattle.ssh_program.specs.Rewritings.{IsTrustFault, MakesNew, RespondsToReadable, RespondsToRewrite, RewritesFile, new_file, new_response, rewrite_kind};
ghost use Rattle.ssh_program.specs.ArgsView.{IfAnswered, rows_in};
ghost use Rattle.ssh_print.specs.ResponseView.{response};
ghost use Rattle.ssh_files.specs.SourceState.{IfTells};
ghost use Rattle.ssh_program.specs.Hashings.{Hashes, HashesBy, RespondsToHash, salts_or_fault};

use crate::args::{ArgName, Args};
use crate::audit::unread;
use crate::command::CommandError;
use ssh_files::{Files, ReadError, read_salts, read_whole};
use ssh_offers::AuditError;
use ssh_print::{DONE, Response, audit_fault, file_fault};
use ssh_review::readable_auth;
use ssh_rewriting::{HashError, hash_known, rewrite_auth, rewrite_known};
use std::alloc::{AllocError, Global};

/// How a trust file is rewritten.
#[derive(Clone, Copy)]
pub enum NewFile<'a> {
    /// An `authorized_keys` file, to canonical lines.
    CanonicalAuth,
    /// A `known_hosts` file, to canonical lines.
    CanonicalKnown,
    /// An `authorized_keys` file, to the canonical lines of the entries that OpenSSH has no known
    /// reason to refuse or to read differently.
    ReadableAuth,
    /// A `known_hosts` file, its host names hashed with these salts.
    HashedKnown(&'a [[u8; 20]]),
}

/// How `rewrite` rewrites a file of the format that `--kind` names.
fn rewrite_kind(word: &str) -> Option<NewFile<'static>>
    ensures { result ≡ rewrite_kind word.now }
{
    if word == "auth" {
        Some(NewFile::CanonicalAuth)
    } else if word == "known" {
        Some(NewFile::CanonicalKnown)
    } else {
        None
    }
}

/// The new file. Fails if the file or the new one is past the limit, if there are too few salts, or
/// if memory cannot be allocated.
fn write_new(alloc: Global, kind: NewFile<'_>, file: &[u8]) -> Result<Vec<u8>, HashError>
    ensures { MakesNew (λ v. v.items) (new_file kind.entry file.now) result }
{
    let new = match kind {
        NewFile::CanonicalAuth => rewrite_auth(alloc, file)?,
        NewFile::CanonicalKnown => rewrite_known(alloc, file)?,
        NewFile::ReadableAuth => readable_auth(alloc, file)?,
        NewFile::HashedKnown(salts) => hash_known(alloc, file, salts)?,
    };
    Ok(new)
}

/// The response by the bytes of the file. Nothing is printed before the whole new file has been
/// made.
fn respond_bytes(alloc: Global, kind: NewFile<'_>, file: &[u8]) -> Result<Response, AllocError>
    ensures { IfOk result (λ r. response r ≡ new_response (new_file kind.entry file.now)) }
{
    match write_new(alloc, kind, file) {
        Ok(text) => Ok(Response::new(DONE, text)),
        Err(HashError::TooLong) => audit_fault(alloc, AuditError::FileTooLong),
        Err(HashError::TooFewSalts) => audit_fault(alloc, AuditError::Salts),
        Err(HashError::Memory) => Err(AllocError),
    }
}

/// The response to a trust file whose bytes could not be had.
fn unread_trust(alloc: Global, fault: ReadError) -> Result<Response, AllocError>
    ensures { IfOk result (λ r. IsTrustFault fault (response r)) }
{
    match fault {
        ReadError::Memory => Err(AllocError),
        ReadError::TooLong => audit_fault(alloc, AuditError::FileTooLong),
        _ => audit_fault(alloc, AuditError::Read),
    }
}

/// The response by the trust file of this name, rewritten.
pub fn rewrite_file<F: Files>(
    alloc: Global,
    kind: NewFile<'_>,
    name: &str,
    files: &mut F,
) -> Result<Response, AllocError>
    ensures { IfTells (F.source_state files.old) (λ s. IfOk result (λ r.
        RewritesFile (new_file kind.entry) name.now s (F.source_state files.new) (response r))) }
{
    match read_whole(alloc, files, name) {
        Ok(file) => respond_bytes(alloc, kind, &file),
        Err(fault) => unread_trust(alloc, fault),
    }
}

/// The response to `rewrite`.
pub fn respond_rewrite<F: Files>(
    alloc: Global,
    words: &Args<'_>,
    files: &mut F,
) -> Result<Response, CommandError>
    ensures { IfTells (F.source_state files.old) (λ s. IfAnswered result (λ r.
        RespondsToRewrite (rows_in words.now) s (F.source_state files.new) r)) }
{
    let word = words.needed(ArgName::Kind)?;
    let kind = ArgName::Kind.or_fault(rewrite_kind(word))?;
    let name = words.needed(ArgName::File)?;
    let response = rewrite_file(alloc, kind, name, files)?;
    Ok(response)
}

/// The response to `readable`.
pub fn respond_readable<F: Files>(
    alloc: Global,
    words: &Args<'_>,
    files: &mut F,
) -> Result<Response, CommandError>
    ensures { IfTells (F.source_state files.old) (λ s. IfAnswered result (λ r.
        RespondsToReadable (rows_in words.now) s (F.source_state files.new) r)) }
{
    let name = words.needed(ArgName::File)?;
    let response = rewrite_file(alloc, NewFile::ReadableAuth, name, files)?;
    Ok(response)
}

/// The response by the trust file, after the bytes of the file of salts were read.
fn respond_salts<F: Files>(
    alloc: Global,
    trust: &str,
    salts: &str,
    bytes: &[u8],
    files: &mut F,
) -> Result<Response, AllocError>
    ensures { IfTells (F.source_state files.old) (λ s. IfOk result (λ r.
        HashesBy trust.now (salts_or_fault salts.now (Some bytes.now)) s
        (F.source_state files.new) (response r))) }
{
    match read_salts(bytes) {
        Some(salts) => rewrite_file(alloc, NewFile::HashedKnown(salts), trust, files),
        None => file_fault(alloc, salts),
    }
}

/// The response by a file of salts, which is read first, and a trust file.
fn hash_file<F: Files>(
    alloc: Global,
    trust: &str,
    salts: &str,
    files: &mut F,
) -> Result<Response, AllocError>
    ensures { IfTells (F.source_state files.old) (λ s. IfOk result (λ r.
        Hashes trust.now salts.now s (F.source_state files.new) (response r))) }
{
    match read_whole(alloc, files, salts) {
        Ok(bytes) => respond_salts(alloc, trust, salts, &bytes, files),
        Err(fault) => unread(alloc, salts, fault),
    }
}

/// The response to `hash`.
pub fn respond_hash<F: Files>(
    alloc: Global,
    words: &Args<'_>,
    files: &mut F,
) -> Result<Response, CommandError>
    ensures { IfTells (F.source_state files.old) (λ s. IfAnswered result (λ r.
        RespondsToHash (rows_in words.now) s (F.source_state files.new) r)) }
{
    let trust = words.needed(ArgName::File)?;
    let salts = words.needed(ArgName::Salts)?;
    let response = hash_file(alloc, trust, salts, files)?;
    Ok(response)
}
