//! The answer of a trust file to `admits` or `trusts`, and the total of several, as JSON objects.

ghost use Rattle.std.specs.Prelude.{◌≡◌, ◌++◌, drop, codes, OnOk, IfOk};
ghost use Rattle.std.specs.List.{flat_map};
ghost use Rattle.ssh_print.specs.AnswerText.{grants};
ghost use Rattle.ssh_print.specs.OtherLines.{otherwise_seen};
ghost use Rattle.ssh_review.specs.AnswerObjects.{answer_cause, answer_fault, answer_fields, answer_head, answer_key, answer_line, answer_notes, answer_object, answer_reasons, answer_rights, answer_total, answer_word, carried_element, cause_number, decision_fields, no_rights, note_element, nothing_carried, reason_detail, reason_element};
ghost use Rattle.ssh_review.specs.Asked.{asked_of};
ghost use Rattle.ssh_review.specs.Fields.{text_field};
ghost use Rattle.ssh_review.specs.HostRecords.{print_of};
ghost use Rattle.ssh_review.specs.Objects.{fingerprint_text};
ghost use Rattle.ssh_text.specs.Text.{lines_of, numbered};

use crate::asked::{AskedAt, push_asked_fields, push_total_head};
use crate::fields::{
    print_of, push_array, push_field_name, push_null_field, push_number_field, push_number_or_null,
    push_text_field, push_text_or_null, push_truth, without_first,
};
use crate::json_record::{fingerprint_text, push_rights_in};
use crate::record_field::FieldForm;
use ssh_offers::{AuditError, Signed};
use ssh_print::{
    Otherwise, Subject, carried_word, cause_code, fault_codes, line_codes, push_json_text,
    push_number, reason_code,
};
use ssh_rights::{Carried, Rights};
use ssh_rules::Reason;
use ssh_text::Lines;
use ssh_trust::{Cause, Decision};
use std::alloc::{AllocError, Global};

fn answer_word(may_admit: bool, answer: &Result<Decision, AuditError>) -> &'static [u8]
    ensures { result.now ≡ answer_word may_admit answer.now }
{
    match answer {
        Ok(Decision::Granted { .. }) => b"granted",
        Ok(Decision::Denied { .. }) if may_admit => b"open",
        Ok(Decision::Denied { .. }) => b"denied",
        Err(_) => b"fault",
    }
}

/// What was asked of the files: the name of the subcommand.
fn asked_word(who: Subject) -> &'static [u8]
    ensures { result.now ≡ grants who }
{
    match who {
        Subject::Client => b"admits",
        Subject::Host => b"trusts",
    }
}

#[tactic(auto, unfolding(crate::specs::AnswerObjects::answer_head))]
fn push_head(out: &mut Vec<u8>, who: Subject, name: &[u8], word: &[u8]) -> Result<(), AllocError>
    ensures { OnOk result (out.new.items ≡ out.old.items ++ answer_head who name.now word.now) }
{
    out.extend_from_slice(b"{\"file\":")?;
    push_json_text(out, name)?;
    push_text_field(out, b"what", b"answer")?;
    push_text_field(out, b"asked", asked_word(who))?;
    push_text_field(out, b"answer", word)?;
    Ok(())
}

fn push_carried_element(
    alloc: Global,
    out: &mut Vec<u8>,
    carried: &Carried,
) -> Result<(), AllocError>
    ensures { OnOk result (out.new.items ≡ out.old.items ++ carried_element carried.now) }
{
    let mut text = Vec::new(alloc);
    text.extend_from_slice(carried_word(carried.name))?;
    text.push(b' ')?;
    text.extend_from_slice(carried.text.as_slice())?;
    out.push(b',')?;
    push_json_text(out, &text)?;
    Ok(())
}

fn push_carried_elements(
    alloc: Global,
    out: &mut Vec<u8>,
    carried: &[Carried],
) -> Result<(), AllocError>
    ensures { OnOk result (out.new.items ≡ out.old.items ++ flat_map carried_element carried.now) }
{
    for option in carried {
        push_carried_element(alloc, out, option)?;
    }
    Ok(())
}

#[tactic(auto, unfolding(crate::specs::AnswerObjects::no_rights))]
fn push_no_rights(out: &mut Vec<u8>) -> Result<(), AllocError>
    ensures { OnOk result (out.new.items ≡ out.old.items ++ no_rights) }
{
    push_null_field(out, b"rights")?;
    push_null_field(out, b"command")?;
    Ok(())
}

#[tactic(auto, unfolding(crate::specs::AnswerObjects::nothing_carried))]
fn push_nothing_carried(out: &mut Vec<u8>) -> Result<(), AllocError>
    ensures { OnOk result (out.new.items ≡ out.old.items ++ nothing_carried) }
{
    push_array(out, b"carry", b"")
}

/// Appends what a line lets the key do.
#[tactic(auto, unfolding(crate::specs::AnswerObjects::answer_rights))]
fn push_rights(alloc: Global, out: &mut Vec<u8>, rights: &Option<Rights>) -> Result<(), AllocError>
    ensures { OnOk result (out.new.items ≡ out.old.items ++ answer_rights rights.now) }
{
    match rights {
        None => {
            push_no_rights(out)?;
            push_nothing_carried(out)?;
            Ok(())
        }
        Some(rights) => {
            let mut carried = Vec::new(alloc);
            push_carried_elements(alloc, &mut carried, rights.carried.as_slice())?;
            push_rights_in(FieldForm::Member, out, rights)?;
            push_text_or_null(out, b"command", &rights.command)?;
            push_array(out, b"carry", &carried)
        }
    }
}

fn cause_number(why: Cause) -> Option<u64>
    ensures { result ≡ cause_number why }
{
    match why {
        Cause::Revoked(number) | Cause::RevocationUnreadable(number) | Cause::NotVouched(number) =>
            Some(number),
        _ => None,
    }
}

#[tactic(auto, unfolding(crate::specs::AnswerObjects::answer_cause))]
fn push_cause(out: &mut Vec<u8>, why: Option<Cause>) -> Result<(), AllocError>
    ensures { OnOk result (out.new.items ≡ out.old.items ++ answer_cause why) }
{
    match why {
        None => {
            push_null_field(out, b"cause")?;
            push_null_field(out, b"number")
        }
        Some(why) => {
            push_text_field(out, b"cause", cause_code(why).as_bytes())?;
            push_number_or_null(out, b"number", cause_number(why))
        }
    }
}

fn push_fingerprint(alloc: Global, out: &mut Vec<u8>, key: &Signed) -> Result<(), AllocError>
    ensures { OnOk result (out.new.items
        ≡ out.old.items ++ text_field (codes "key") (fingerprint_text (print_of key.now.key))) }
{
    let digest = print_of(alloc, key.key.as_slice())?;
    let text = fingerprint_text(&digest);
    push_text_field(out, b"key", text.as_slice())
}

/// Appends the fingerprint of the key that a line must hold, and whether it is the signer's.
#[tactic(auto, unfolding(crate::specs::AnswerObjects::answer_key))]
fn push_key(alloc: Global, out: &mut Vec<u8>, evidence: &[Signed]) -> Result<(), AllocError>
    ensures { OnOk result (out.new.items ≡ out.old.items ++ answer_key evidence.now) }
{
    match evidence {
        [] => {
            push_null_field(out, b"key")?;
            push_truth(out, b"signer", false)
        }
        [key] => {
            push_fingerprint(alloc, out, key)?;
            push_truth(out, b"signer", false)
        }
        [_, signer, ..] => {
            push_fingerprint(alloc, out, signer)?;
            push_truth(out, b"signer", true)
        }
    }
}

fn push_detail(alloc: Global, out: &mut Vec<u8>, reason: &Reason) -> Result<(), AllocError>
    ensures { OnOk result (out.new.items
        ≡ out.old.items ++ text_field (codes "detail") (reason_detail reason.now)) }
{
    match reason {
        Reason::Unreadable(cause) => {
            let codes = line_codes(alloc, *cause)?;
            push_text_field(out, b"detail", without_first(&codes))
        }
        Reason::CriticalUnknown(name) => push_text_field(out, b"detail", name.as_slice()),
        _ => push_text_field(out, b"detail", b""),
    }
}

#[tactic(auto, unfolding(crate::specs::AnswerObjects::reason_element))]
fn push_reason(
    alloc: Global,
    out: &mut Vec<u8>,
    number: u64,
    reason: &Reason,
) -> Result<(), AllocError>
    ensures { OnOk result (out.new.items ≡ out.old.items ++ reason_element (number, reason.now)) }
{
    out.extend_from_slice(b",{\"line\":")?;
    push_number(out, number)?;
    push_text_field(out, b"code", reason_code(reason).as_bytes())?;
    push_detail(alloc, out, reason)?;
    out.push(b'}')?;
    Ok(())
}

fn push_reason_elements(
    alloc: Global,
    out: &mut Vec<u8>,
    reasons: &[(u64, Reason)],
) -> Result<(), AllocError>
    ensures { OnOk result (out.new.items ≡ out.old.items ++ flat_map reason_element reasons.now) }
{
    for reason in reasons {
        push_reason(alloc, out, reason.0, &reason.1)?;
    }
    Ok(())
}

/// Appends the lines that were passed over.
#[tactic(auto, unfolding(crate::specs::AnswerObjects::answer_reasons))]
fn push_reasons(
    alloc: Global,
    out: &mut Vec<u8>,
    reasons: &[(u64, Reason)],
) -> Result<(), AllocError>
    ensures { OnOk result (out.new.items ≡ out.old.items
        ++ answer_reasons reasons.now) }
{
    let mut elements = Vec::new(alloc);
    push_reason_elements(alloc, &mut elements, reasons)?;
    push_array(out, b"reasons", &elements)
}

/// A line without its indentation.
fn without_indent(line: &[u8]) -> &[u8]
    ensures { result.now ≡ drop 4 line.now }
{
    match line {
        [_, _, _, _, rest @ ..] => rest,
        _ => &[],
    }
}

fn push_note_elements(out: &mut Vec<u8>, text: &[u8]) -> Result<(), AllocError>
    ensures { OnOk result (out.new.items
        ≡ out.old.items ++ flat_map note_element (numbered 1 (lines_of text.now))) }
{
    for (_, line) in Lines::new(text) {
        out.push(b',')?;
        push_json_text(out, without_indent(line))?;
    }
    Ok(())
}

/// Appends the other lines of the text.
#[tactic(auto, unfolding(crate::specs::AnswerObjects::answer_notes))]
fn push_notes(alloc: Global, out: &mut Vec<u8>, text: &[u8]) -> Result<(), AllocError>
    ensures { OnOk result (out.new.items ≡ out.old.items ++ answer_notes text.now) }
{
    let mut elements = Vec::new(alloc);
    push_note_elements(&mut elements, text)?;
    push_array(out, b"notes", &elements)
}

/// Appends the line that lets the key in.
#[tactic(auto, unfolding(crate::specs::AnswerObjects::answer_line))]
fn push_line(out: &mut Vec<u8>, line: Option<u64>) -> Result<(), AllocError>
    ensures { OnOk result (out.new.items ≡ out.old.items ++ answer_line line) }
{
    push_number_or_null(out, b"line", line)
}

fn push_decision(alloc: Global, out: &mut Vec<u8>, decision: &Decision) -> Result<(), AllocError>
    ensures { OnOk result (out.new.items ≡ out.old.items ++ decision_fields decision.now) }
{
    match decision {
        Decision::Granted {
            line,
            rights,
            reasons,
            evidence,
        } => {
            push_line(out, Some(*line))?;
            push_rights(alloc, out, rights)?;
            push_cause(out, None)?;
            push_key(alloc, out, evidence.as_slice())?;
            push_reasons(alloc, out, reasons.as_slice())?;
            Ok(())
        }
        Decision::Denied {
            why,
            reasons,
            evidence,
        } => {
            push_line(out, None)?;
            push_rights(alloc, out, &None)?;
            push_cause(out, Some(*why))?;
            push_key(alloc, out, evidence.as_slice())?;
            push_reasons(alloc, out, reasons.as_slice())?;
            Ok(())
        }
    }
}

fn push_answer(
    alloc: Global,
    out: &mut Vec<u8>,
    answer: &Result<Decision, AuditError>,
) -> Result<(), AllocError>
    ensures { OnOk result (out.new.items ≡ out.old.items ++ answer_fields answer.now) }
{
    match answer {
        Ok(decision) => push_decision(alloc, out, decision),
        Err(_) => {
            push_line(out, None)?;
            push_rights(alloc, out, &None)?;
            push_cause(out, None)?;
            push_key(alloc, out, &[])?;
            push_reasons(alloc, out, &[])?;
            Ok(())
        }
    }
}

fn push_fault(
    alloc: Global,
    out: &mut Vec<u8>,
    answer: &Result<Decision, AuditError>,
) -> Result<(), AllocError>
    ensures { OnOk result (out.new.items ≡ out.old.items ++ answer_fault answer.now) }
{
    match answer {
        Ok(_) => push_null_field(out, b"fault"),
        Err(error) => {
            let codes = fault_codes(alloc, *error)?;
            push_text_field(out, b"fault", without_first(&codes))
        }
    }
}

/// The answer of the trust file with this name, as a JSON object on one line. `other` is what is
/// printed after the first lines of the answer; its lines are notes of the object.
#[tactic(auto, unfolding(crate::specs::AnswerObjects::answer_object))]
pub fn answer_object(
    alloc: Global,
    who: Subject,
    name: &[u8],
    other: &Otherwise,
    answer: &Result<Decision, AuditError>,
) -> Result<Vec<u8>, AllocError>
    ensures { IfOk result
        (λ text. text.items ≡ answer_object who name.now (otherwise_seen other.now) answer.now) }
{
    let mut out = Vec::new(alloc);
    push_head(&mut out, who, name, answer_word(other.may_admit, answer))?;
    push_answer(alloc, &mut out, answer)?;
    push_notes(alloc, &mut out, &other.text)?;
    push_fault(alloc, &mut out, answer)?;
    out.extend_from_slice(b"}\n")?;
    Ok(out)
}

/// The last line of the answers in JSON: when the files were asked, how many there are, and the
/// status.
#[tactic(auto, unfolding(crate::specs::AnswerObjects::answer_total))]
pub fn answer_total(
    alloc: Global,
    who: Subject,
    at: &AskedAt<'_>,
    files: u64,
    status: u8,
) -> Result<Vec<u8>, AllocError>
    ensures { IfOk result
        (λ text. text.items ≡ answer_total who (asked_of at.entry.now) files status) }
{
    let mut out = Vec::new(alloc);
    push_total_head(&mut out)?;
    push_text_field(&mut out, b"asked", asked_word(who))?;
    push_asked_fields(alloc, &mut out, at)?;
    push_number_field(&mut out, b"files", files)?;
    push_number_field(&mut out, b"status", status as u64)?;
    out.extend_from_slice(b"}\n")?;
    Ok(out)
}
