//! The answers of trust files about one key, for `admits` and `trusts`, and their combined status.

ghost use Rattle.std.specs.Prelude.{◌≡◌, ◌++◌, IfOk, Ok, Err, map};
ghost use Rattle.ssh_program.specs.Admissions.{AsksBy, IsReportedUnread, and_then, denied_outcome, nothing_reported, outcome_of, refusal_or, status_of, telling, text_of, reported_both, reported_by, reported_of, reported_response, total_of, unread_fault};
ghost use Rattle.ssh_program.specs.AdmissionsView.{reported_seen, reported_with};
ghost use Rattle.ssh_print.specs.OtherLines.{nothing_other, otherwise_seen};
ghost use Rattle.ssh_review.specs.Asked.{asked_of};
ghost use Rattle.ssh_files.specs.FilesInTurn.{TellsFile, TellsFiles};
ghost use Rattle.ssh_files.specs.SourceState.{IfTells};
ghost use Rattle.ssh_print.specs.ResponseView.{response};
ghost use Rattle.ssh_program.specs.Audits.{Deciding, refusal_of};
ghost use Rattle.ssh_program.specs.Fingerprints.{reported_alone_by};

use crate::audit::is_memory;
use crate::decision_form::DecisionForm;
use crate::file_question::FileQuestion;
use ssh_files::{Files, ReadError, read_whole};
use ssh_offers::{AuditError, Signed};
use ssh_print::{
    DONE, FAULT, Otherwise, Response, Subject, answer_text, audit_fault, nothing_other,
};
use ssh_review::{AskedAt, answer_object, answer_total, asked_line};
use ssh_trust::Decision;
use std::alloc::{AllocError, Global};

/// The status where no file lets the key in, nor does OpenSSH 9.2 as far as is known.
const DENIED: u8 = 1;

/// The status where no file lets the key in, and OpenSSH may let it in by some line.
const OPEN: u8 = 3;

/// The combined result of the trust files of one command.
#[derive(Clone, Copy, Debug, PartialEq, Eq)]
pub enum Outcome {
    /// No file lets the key in.
    Denies,
    /// No file lets the key in, and OpenSSH may let it in by some file.
    Opens,
    /// Some file lets the key in.
    Grants,
    /// Some file has a fault, so the command has no complete answer.
    Faulty,
}

/// The result of a file that denies.
pub(crate) fn denied_outcome(may_admit: bool) -> Outcome
    ensures { result ≡ denied_outcome may_admit }
{
    if may_admit {
        Outcome::Opens
    } else {
        Outcome::Denies
    }
}

impl Outcome {
    /// The result of one file for which a decision was made.
    fn of(decision: &Decision, other: &Otherwise) -> Outcome
        ensures { result ≡ outcome_of (otherwise_seen other.now) (Ok decision.now) }
    {
        match decision {
            Decision::Granted { .. } => Outcome::Grants,
            Decision::Denied { .. } => denied_outcome(other.may_admit),
        }
    }

    /// The result of the files so far together with that of one more file. A fault outranks a
    /// grant, as an error outranks a match in the status of grep(1).
    pub(crate) fn and_then(self, next: Outcome) -> Outcome
        ensures { result ≡ and_then self next }
    {
        match (self, next) {
            (Outcome::Denies, next) => next,
            (Outcome::Faulty, _) => Outcome::Faulty,
            (Outcome::Opens, Outcome::Denies) => Outcome::Opens,
            (Outcome::Opens, next) => next,
            (Outcome::Grants, Outcome::Denies | Outcome::Opens) => Outcome::Grants,
            (Outcome::Grants, next) => next,
        }
    }

    fn status(self) -> u8
        ensures { result ≡ status_of self }
    {
        match self {
            Outcome::Grants => DONE,
            Outcome::Denies => DENIED,
            Outcome::Faulty => FAULT,
            Outcome::Opens => OPEN,
        }
    }
}

/// Whose key is asked about, and in which format the answers are printed.
#[derive(Clone, Copy, Debug, PartialEq, Eq)]
pub struct AnswerForm {
    pub subject: Subject,
    pub form: DecisionForm,
}

/// The output lines of some files, and their combined result.
#[derive(Drop)]
pub struct FileAnswer {
    pub outcome: Outcome,
    pub text: Vec<u8>,
}

/// The printed answer of a file: the first lines of its decision and the others, or one object.
fn answer_in(
    alloc: Global,
    who: AnswerForm,
    name: &[u8],
    other: &Otherwise,
    answer: &Result<Decision, AuditError>,
) -> Result<Vec<u8>, AllocError>
    ensures { IfOk result (λ text. text.items
        ≡ text_of who.form who.subject name.now (otherwise_seen other.now) answer.now) }
{
    match who.form {
        DecisionForm::Text => {
            let mut text = answer_text(alloc, who.subject, name, answer)?;
            text.extend_from_slice(&other.text)?;
            Ok(text)
        }
        DecisionForm::Json => answer_object(alloc, who.subject, name, other, answer),
    }
}

/// The answer of a file that could not be decided on.
pub(crate) fn tell_fault(
    alloc: Global,
    who: AnswerForm,
    name: &[u8],
    error: AuditError,
) -> Result<FileAnswer, AllocError>
    ensures { IfOk result
        (λ reported. reported_seen reported ≡ reported_of who name.now nothing_other (Err error)) }
{
    let text = answer_in(alloc, who, name, &nothing_other(alloc), &Err(error))?;
    Ok(FileAnswer {
        outcome: Outcome::Faulty,
        text,
    })
}

/// The answer of a file for which a decision was made: the decision's lines, then which lines
/// OpenSSH may read differently.
fn tell_decision(
    alloc: Global,
    who: AnswerForm,
    name: &[u8],
    decision: Decision,
    other: &Otherwise,
) -> Result<FileAnswer, AllocError>
    ensures { IfOk result (λ reported. reported_seen reported
        ≡ reported_of who name.now (otherwise_seen other.now) (Ok decision)) }
{
    let outcome = Outcome::of(&decision, other);
    let text = answer_in(alloc, who, name, other, &Ok(decision))?;
    Ok(FileAnswer { outcome, text })
}

fn tell_answer(
    alloc: Global,
    who: AnswerForm,
    name: &[u8],
    answer: Result<(Decision, Otherwise), AuditError>,
) -> Result<FileAnswer, AllocError>
    ensures { IfOk result
        (λ reported. reported_seen reported ≡ reported_with who name.now answer) }
{
    match answer {
        Ok((decision, other)) => tell_decision(alloc, who, name, decision, &other),
        Err(error) => tell_fault(alloc, who, name, error),
    }
}

/// The answer of a trust file with these bytes, where all of this evidence is vouched for.
#[tactic(auto, using(crate::proofs::AdmissionLemmas::bytes_reported))]
fn tell_bytes<Q: FileQuestion>(
    alloc: Global,
    who: AnswerForm,
    question: &Q,
    evidence: &[Signed],
    name: &[u8],
    file: &[u8],
) -> Result<FileAnswer, AllocError>
    ensures { IfOk result (λ reported. reported_seen reported ≡ reported_by who (Q.decides question.entry.now)
        (Q.beside question.entry.now) evidence.now name.now file.now) }
{
    let answer = question.answer_bytes(alloc, file, evidence);
    if is_memory(&answer) {
        return Err(AllocError);
    }
    let reported = tell_answer(alloc, who, name, answer)?;
    Ok(reported)
}

/// The answer of a trust file with these bytes, where all evidence is vouched for. An offer that is
/// refused (A1 to A6) is a fault of the file.
#[tactic(auto, using(crate::proofs::AdmissionLemmas::alone_reported, crate::proofs::AdmissionLemmas::alone_refused))]
pub(crate) fn tell_alone<Q: FileQuestion>(
    alloc: Global,
    who: AnswerForm,
    question: &Q,
    name: &[u8],
    file: &[u8],
) -> Result<FileAnswer, AllocError>
    ensures { IfOk result (λ reported. reported_seen reported ≡ reported_alone_by who (Q.decides question.entry.now)
        (Q.beside question.entry.now) (Q.rests_on question.entry.now) name.now file.now) }
{
    let evidence = question.evidence(alloc);
    if is_memory(&evidence) {
        return Err(AllocError);
    }
    match evidence {
        Ok(evidence) => {
            let reported = tell_bytes(alloc, who, question, evidence.as_slice(), name, file)?;
            Ok(reported)
        }
        Err(error) => {
            let reported = tell_fault(alloc, who, name, error)?;
            Ok(reported)
        }
    }
}

fn refusal_or(refusal: Option<AuditError>, error: AuditError) -> AuditError
    ensures { result ≡ refusal_or refusal error }
{
    match refusal {
        None => error,
        Some(refusal) => refusal,
    }
}

/// The fault of a trust file whose bytes could not be had. The refusal of an offer (A1 to A6) does
/// not depend on the file, so it comes before A9 of a missing file and A7 of one past the limit.
fn unread_fault(refusal: Option<AuditError>, fault: ReadError) -> AuditError
    ensures { (by : Deciding) → refusal ≡ refusal_of by → result ≡ unread_fault by fault }
{
    match fault {
        ReadError::Missing => refusal_or(refusal, AuditError::Read),
        ReadError::TooLong => refusal_or(refusal, AuditError::FileTooLong),
        // After a failed read only that read's own fault is reported.
        ReadError::Failed => AuditError::Read,
        ReadError::Memory => AuditError::Memory,
    }
}

/// The answer of a trust file whose bytes could not be had.
fn tell_unread<Q: FileQuestion>(
    alloc: Global,
    who: AnswerForm,
    question: &Q,
    name: &[u8],
    fault: ReadError,
) -> Result<FileAnswer, AllocError>
    ensures { IfOk result (λ reported. IsReportedUnread who (Q.decides question.entry.now) name.now fault
        (reported_seen reported)) }
{
    match fault {
        ReadError::Memory => Err(AllocError),
        _ => tell_fault(alloc, who, name, unread_fault(question.refusal(), fault)),
    }
}

/// The answer of the trust file of this name, where all of this evidence is vouched for. The file
/// is read whole, since its lines are gone through a second time for what OpenSSH may read
/// differently, and standard input cannot be read twice.
fn tell_file<Q: FileQuestion, F: Files>(
    alloc: Global,
    who: AnswerForm,
    question: &Q,
    evidence: &[Signed],
    name: &str,
    files: &mut F,
) -> Result<FileAnswer, AllocError>
    ensures { IfTells (F.source_state files.old) (λ s. IfOk result (λ reported.
        TellsFile (telling who (Q.decides question.entry.now) (Q.beside question.entry.now)
        evidence.now) name.now s (F.source_state files.new) (reported_seen reported))) }
{
    match read_whole(alloc, files, name) {
        Ok(file) => tell_bytes(alloc, who, question, evidence, name.as_bytes(), &file),
        Err(fault) => tell_unread(alloc, who, question, name.as_bytes(), fault),
    }
}

/// The answers of the trust files of these names, in their order. A file that cannot be read has
/// its fault, and the next one is read all the same.
fn tell_files<Q: FileQuestion, F: Files>(
    alloc: Global,
    who: AnswerForm,
    question: &Q,
    evidence: &[Signed],
    names: &[&str],
    files: &mut F,
) -> Result<FileAnswer, AllocError>
    ensures { IfTells (F.source_state files.old) (λ s. IfOk result (λ reported.
        TellsFiles reported_both (telling who (Q.decides question.entry.now) (Q.beside question.entry.now)
        evidence.now) nothing_reported (map (λ name. name.now) names.now) s (F.source_state files.new) (reported_seen reported))) }
{
    let mut outcome = Outcome::Denies;
    let mut text = Vec::new(alloc);
    for name in names {
        let reported = tell_file(alloc, who, question, evidence, name, files)?;
        outcome = outcome.and_then(reported.outcome);
        text.extend_from_slice(&reported.text)?;
    }
    Ok(FileAnswer { outcome, text })
}

/// The last line, which says when the files were asked; in JSON it is the total.
fn total_in(
    alloc: Global,
    who: AnswerForm,
    at: &AskedAt<'_>,
    files: u64,
    status: u8,
) -> Result<Vec<u8>, AllocError>
    ensures { IfOk result (λ text. text.items
        ≡ total_of who.form who.subject (asked_of at.entry.now) files status) }
{
    match who.form {
        DecisionForm::Text => asked_line(alloc, at),
        DecisionForm::Json => answer_total(alloc, who.subject, at, files, status),
    }
}

/// The response of files of this number.
pub(crate) fn reported_response(
    alloc: Global,
    who: AnswerForm,
    at: &AskedAt<'_>,
    files: usize,
    reported: FileAnswer,
) -> Result<Response, AllocError>
    ensures { IfOk result (λ r. response r
        ≡ reported_response who (asked_of at.entry.now) files (reported_seen reported)) }
{
    let status = reported.outcome.status();
    let total = total_in(alloc, who, at, files as u64, status)?;
    let mut text = reported.text;
    text.extend_from_slice(&total)?;
    Ok(Response::new(status, text))
}

/// The response about the key by the trust files of these names, where all evidence is vouched for.
/// An offer that is refused (A1 to A6) is reported before any file is read. The last line says when
/// they were asked.
pub fn ask_files<Q: FileQuestion, F: Files>(
    alloc: Global,
    who: AnswerForm,
    at: &AskedAt<'_>,
    question: &Q,
    names: &[&str],
    files: &mut F,
) -> Result<Response, AllocError>
    ensures { IfTells (F.source_state files.old) (λ s. IfOk result (λ r.
        AsksBy who (asked_of at.entry.now) (Q.decides question.entry.now) (Q.beside question.entry.now)
        (Q.rests_on question.entry.now) (map (λ name. name.now) names.now) s (F.source_state files.new) (response r))) }
{
    let evidence = question.evidence(alloc);
    if is_memory(&evidence) {
        return Err(AllocError);
    }
    match evidence {
        Ok(evidence) => {
            let reported = tell_files(alloc, who, question, evidence.as_slice(), names, files)?;
            let response = reported_response(alloc, who, at, names.len(), reported)?;
            Ok(response)
        }
        Err(error) => audit_fault(alloc, error),
    }
}
