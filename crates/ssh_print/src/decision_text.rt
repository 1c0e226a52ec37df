//! The printed lines of a decision, except those of its evidence, whose digits are made only when
//! they are written.

ghost use Rattle.std.specs.Prelude.{◌≡◌, ◌++◌, IfOk, IsOk, None, OnOk};
ghost use Rattle.std.specs.List.{flat_map};
ghost use Rattle.ssh_print.specs.Codes.{reason_codes};
ghost use Rattle.ssh_print.specs.DecisionText.{carried_line, carried_word, cause_line, command_line, granted_lines, has_no_right, reason_line, right_word, right_words, rights_line, rights_lines};
ghost use Rattle.ssh_print.specs.TextParts.{text_bytes};
ghost use Rattle.ssh_print.specs.ResponseView.{response};
ghost use Rattle.ssh_print.specs.SshsigText.{sshsig_response};

use crate::codes::{push_cause_codes, push_reason_code, push_reason_codes};
use crate::response::{DENIED, DONE, Response, audit_fault};
use crate::text::{Text, push_escaped, push_number, push_text_line};
use ssh_offers::AuditError;
use ssh_rights::{Carried, CarriedName, Rights};
use ssh_rules::Reason;
use ssh_text::Bytes;
use ssh_trust::{Cause, SshsigAnswer};
use std::alloc::{AllocError, Global};

fn right_word(is_on: bool, word: &'static [u8]) -> &'static [u8]
    ensures { result.now ≡ right_word is_on word.entry.now }
{
    if is_on { word } else { b"" }
}

fn push_right_words(out: &mut Vec<u8>, rights: &Rights) -> Result<(), AllocError>
    ensures { OnOk result (out.new.items ≡ out.old.items ++ right_words rights.now) }
{
    out.extend_from_slice(right_word(rights.port, b" port"))?;
    out.extend_from_slice(right_word(rights.agent, b" agent"))?;
    out.extend_from_slice(right_word(rights.x11, b" x11"))?;
    out.extend_from_slice(right_word(rights.pty, b" pty"))?;
    out.extend_from_slice(right_word(rights.user_rc, b" rc"))?;
    Ok(())
}

fn has_no_right(rights: &Rights) -> bool
    ensures { result ≡ has_no_right rights.now }
{
    !(rights.port || rights.agent || rights.x11 || rights.pty || rights.user_rc)
}

/// The line of the rights that are on; `rights none` if none is.
fn push_rights_line(out: &mut Vec<u8>, rights: &Rights) -> Result<(), AllocError>
    ensures { OnOk result (out.new.items ≡ out.old.items ++ rights_line rights.now) }
{
    out.extend_from_slice(b"rights")?;
    if has_no_right(rights) {
        out.extend_from_slice(b" none")?;
    } else {
        push_right_words(out, rights)?;
    }
    out.push(b'\n')?;
    Ok(())
}

fn push_command_line(
    out: &mut Vec<u8>,
    indent: &[u8],
    command: &Option<Bytes>,
) -> Result<(), AllocError>
    ensures { OnOk result (out.new.items ≡ out.old.items ++ command_line indent.now command.now) }
{
    if let Some(text) = command {
        out.extend_from_slice(indent)?;
        push_text_line(out, b"command ", text.as_slice())?;
    }
    Ok(())
}

/// The name of an option, as in sshd(8).
pub fn carried_word(name: CarriedName) -> &'static [u8]
    ensures { result.now ≡ carried_word name }
{
    match name {
        CarriedName::Environment => b"environment",
        CarriedName::PermitListen => b"permitlisten",
        CarriedName::PermitOpen => b"permitopen",
        CarriedName::Tunnel => b"tunnel",
    }
}

fn push_carried_line(out: &mut Vec<u8>, indent: &[u8], carried: &Carried) -> Result<(), AllocError>
    ensures { OnOk result (out.new.items ≡ out.old.items ++ carried_line indent.now carried.now) }
{
    out.extend_from_slice(indent)?;
    out.extend_from_slice(b"carry ")?;
    out.extend_from_slice(carried_word(carried.name))?;
    out.push(b' ')?;
    push_escaped(out, carried.text.as_slice())?;
    out.push(b'\n')?;
    Ok(())
}

fn push_carried(out: &mut Vec<u8>, indent: &[u8], carried: &[Carried]) -> Result<(), AllocError>
    ensures { OnOk result (out.new.items ≡ out.old.items
        ++ flat_map (carried_line indent.now) carried.now) }
{
    for text in carried {
        push_carried_line(out, indent, text)?;
    }
    Ok(())
}

/// The lines of what a login may do: its rights, its forced command, and the options that are
/// passed on unread. There are none for a host's key.
fn push_rights(out: &mut Vec<u8>, indent: &[u8], rights: &Option<Rights>) -> Result<(), AllocError>
    ensures ok { OnOk result (out.new.items ≡ out.old.items ++ rights_lines indent.now rights.now) }
    ensures spare { rights.now ≡ None → IsOk result }
{
    if let Some(rights) = rights {
        out.extend_from_slice(indent)?;
        push_rights_line(out, rights)?;
        push_command_line(out, indent, &rights.command)?;
        push_carried(out, indent, rights.carried.as_slice())?;
    }
    Ok(())
}

/// The lines of what a login may do, each after this indent. There are none, and nothing is
/// allocated, for a host's key.
pub fn rights_lines(
    alloc: Global,
    indent: &[u8],
    rights: &Option<Rights>,
) -> Result<Vec<u8>, AllocError>
    ensures value { IfOk result (λ v. v.items ≡ rights_lines indent.now rights.now) }
    ensures spare { rights.now ≡ None → IsOk result }
{
    let mut lines = Vec::new(alloc);
    push_rights(&mut lines, indent, rights)?;
    Ok(lines)
}

/// The first line of a denial.
pub(crate) fn push_cause_line(out: &mut Vec<u8>, cause: Cause) -> Result<(), AllocError>
    ensures { OnOk result (out.new.items ≡ out.old.items ++ cause_line cause) }
{
    out.extend_from_slice(b"denied")?;
    push_cause_codes(out, cause)?;
    out.push(b'\n')?;
    Ok(())
}

/// The codes of a reason. The option's name in it is shared, not copied, since it may be long.
fn push_reason(text: &mut Text, reason: &Reason) -> Result<(), AllocError>
    ensures { OnOk result (text_bytes text.new ≡ text_bytes text.old ++ reason_codes reason.now) }
{
    match reason {
        Reason::CriticalUnknown(name) => {
            push_reason_code(&mut text.rest, reason)?;
            text.rest.push(b' ')?;
            text.push_name(name)?;
        }
        _ => push_reason_codes(&mut text.rest, reason)?,
    }
    Ok(())
}

fn push_reason_line(text: &mut Text, number: u64, reason: &Reason) -> Result<(), AllocError>
    ensures { OnOk result (text_bytes text.new
        ≡ text_bytes text.old ++ reason_line (number, reason.now)) }
{
    text.rest.extend_from_slice(b"reason ")?;
    push_number(&mut text.rest, number)?;
    push_reason(text, reason)?;
    text.rest.push(b'\n')?;
    Ok(())
}

/// The lines of the reasons. The option names in them are shared, not copied.
pub(crate) fn push_reasons(text: &mut Text, reasons: &[(u64, Reason)]) -> Result<(), AllocError>
    ensures { OnOk result (text_bytes text.new
        ≡ text_bytes text.old ++ flat_map reason_line reasons.now) }
{
    for reason in reasons {
        push_reason_line(text, reason.0, &reason.1)?;
    }
    Ok(())
}

/// The lines of a grant: the number of the line that admits, and the rights.
pub(crate) fn push_granted(
    out: &mut Vec<u8>,
    line: u64,
    rights: &Option<Rights>,
) -> Result<(), AllocError>
    ensures { OnOk result (out.new.items ≡ out.old.items ++ granted_lines line rights.now) }
{
    out.extend_from_slice(b"granted line ")?;
    push_number(out, line)?;
    out.push(b'\n')?;
    push_rights(out, b"", rights)?;
    Ok(())
}

/// The response for the answer to a file signature, or for its fault. The evidence of the answer is
/// moved, not copied.
pub fn sshsig_response(
    alloc: Global,
    answer: Result<SshsigAnswer, AuditError>,
) -> Result<Response, AllocError>
    ensures { IfOk result (λ r. response r ≡ sshsig_response answer) }
{
    let mut text = Vec::new(alloc);
    match answer {
        Ok(SshsigAnswer::Vouched { evidence }) => {
            text.extend_from_slice(b"vouched\n")?;
            Ok(Response {
                status: DONE,
                text: Text::from(text),
                evidence,
            })
        }
        Ok(SshsigAnswer::OtherNamespace) => {
            text.extend_from_slice(b"denied namespace\n")?;
            Ok(Response::new(DENIED, text))
        }
        Ok(SshsigAnswer::NotVouched { evidence }) => {
            push_cause_line(&mut text, Cause::NotVouched(0))?;
            Ok(Response {
                status: DENIED,
                text: Text::from(text),
                evidence,
            })
        }
        Err(error) => audit_fault(alloc, error),
    }
}
