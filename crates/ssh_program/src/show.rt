//! The responses to `show` and `explain`: one key, certificate, private key or file signature, and
//! the meaning of codes.

ghost use Rattle.std.specs.Prelude.{◌≡◌, IfOk, ◌++◌, map};
ghost use Rattle.ssh_program.specs.Shows.{RespondsToShow, ShowsFile, shown_part};
ghost use Rattle.ssh_program.specs.ArgsView.{IfAnswered, rows_in};
ghost use Rattle.ssh_print.specs.ResponseView.{response};
ghost use Rattle.ssh_files.specs.Loading.{LoadsPart};
ghost use Rattle.ssh_files.specs.Parts.{after_whole};
ghost use Rattle.ssh_files.specs.SourceState.{IfTells, bytes_at};
ghost use Rattle.ssh_program.specs.Explanations.{explained, explained_by, usage_after};
ghost use Rattle.ssh_print.specs.Explaining.{first_unknown_code};
ghost use Rattle.ssh_program.specs.Spelling.{names_given};

use crate::args::{ArgName, Args};
use crate::audit::unread;
use crate::command::CommandError;
use crate::subcommand::{asks_usage, usage_lines};
use ssh_files::{Files, ReadError, read_front, read_top_line};
use ssh_keys::MAX_BLOB_LEN;
use ssh_print::{
    DONE, ExplainError, Response, ShowKind, explain, explain_all, show, show_kind, value_fault,
};
use std::alloc::{AllocError, Global};

/// The part of the file that `show` prints: its first line, or a binary body up to one byte past
/// its limit, which is enough to refuse a longer one. The whole file is read, so that a file past
/// the limit is a fault.
fn read_shown<F: Files>(
    alloc: Global,
    kind: ShowKind,
    name: &str,
    files: &mut F,
) -> Result<Vec<u8>, ReadError>
    ensures { IfTells (F.source_state files.old) (λ s.
        LoadsPart (λ file part. part.items ≡ shown_part kind file) name.now (bytes_at s name.now)
        (after_whole s name.now) s (F.source_state files.new) result) }
{
    match kind {
        ShowKind::Key | ShowKind::Cert => read_top_line(alloc, files, name),
        ShowKind::Private | ShowKind::Sshsig => read_front(alloc, files, name, MAX_BLOB_LEN + 1),
    }
}

/// The response by the file of this name.
fn show_file<F: Files>(
    alloc: Global,
    kind: ShowKind,
    name: &str,
    files: &mut F,
) -> Result<Response, AllocError>
    ensures { IfTells (F.source_state files.old) (λ s. IfOk result (λ r.
        ShowsFile kind name.now s (F.source_state files.new) (response r))) }
{
    match read_shown(alloc, kind, name, files) {
        Ok(part) => show(alloc, kind, &part),
        Err(fault) => unread(alloc, name, fault),
    }
}

/// The response to `show`. An unknown kind is reported before the file is opened.
pub fn respond_show<F: Files>(
    alloc: Global,
    words: &Args<'_>,
    files: &mut F,
) -> Result<Response, CommandError>
    ensures { IfTells (F.source_state files.old) (λ s. IfAnswered result (λ r.
        RespondsToShow (rows_in words.now) s (F.source_state files.new) r)) }
{
    let word = words.needed(ArgName::Kind)?;
    let kind = ArgName::Kind.or_fault(show_kind(word))?;
    let name = words.needed(ArgName::File)?;
    let response = show_file(alloc, kind, name, files)?;
    Ok(response)
}

/// The response with these lines, followed by the synopsis of all commands if `usage` is among the
/// codes.
fn explain_usage(alloc: Global, codes: &[&str], lines: Vec<u8>) -> Result<Response, AllocError>
    ensures { IfOk result (λ r. response r ≡ record {
      status = 0;
      text = lines.items ++ usage_after (map (λ code. code.now) codes.now);
    }) }
{
    let mut text = lines;
    if asks_usage(codes) {
        text.extend_from_slice(&usage_lines(alloc)?)?;
    }
    Ok(Response::new(DONE, text))
}

/// The response to these codes; an unknown one is `fault value code`.
fn explain_codes(alloc: Global, codes: &[&str]) -> Result<Response, AllocError>
    ensures { IfOk result (λ r. response r
        ≡ explained_by (first_unknown_code (map (λ code. code.now) codes.now))
        (map (λ code. code.now) codes.now)) }
{
    match explain(alloc, codes) {
        Ok(lines) => explain_usage(alloc, codes, lines),
        Err(ExplainError::Unknown(_)) => value_fault(alloc, "code"),
        Err(ExplainError::Memory) => Err(AllocError),
    }
}

/// The response to `explain`; without a code, the meaning of all codes.
pub fn respond_explain(alloc: Global, words: &Args<'_>) -> Result<Response, AllocError>
    ensures { IfOk result (λ r. response r ≡ explained (names_given (rows_in words.now))) }
{
    match words.names() {
        Some(codes) => explain_codes(alloc, codes),
        None => Ok(Response::new(DONE, explain_all(alloc)?)),
    }
}
