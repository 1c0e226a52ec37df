//! The decision of a trust file on a login or on a host's key, and the response with it, by the
//! signatures that a vouch file lists.

ghost use Rattle.std.specs.Prelude.{◌≡◌, option_map, refl, Err, List, Ok, OnErr, Result, IfOk, Some, ℕ};
ghost use Rattle.ssh_program.specs.ChosenReads.{FailsOn, ReadsOn, reads_on};
ghost use Rattle.ssh_files.specs.SourceState.{left_of, IfTells, bytes_at};
ghost use Rattle.ssh_offers.specs.declared.claim.AuditError.{AuditError as Refusal};
ghost use Rattle.ssh_offers.specs.declared.claim.AuditError.TheVariants.{Read};
ghost use Rattle.ssh_offers.specs.declared.claim.Signed.{Signed as SignedValue};
ghost use Rattle.ssh_offers.specs.Evidence.{host_evidence, login_evidence};
ghost use Rattle.ssh_trust.specs.Answer.{GivesOrMemory, OfClaim, RefusesAs};
ghost use Rattle.ssh_trust.specs.HostDecision.{host_decision};
ghost use Rattle.ssh_trust.specs.LoginDecision.{login_decision};
ghost use Rattle.ssh_program.specs.Audits.{Deciding, DecidesReader, decided_by, evidence_by, refusal_of, Audits, or_vouch_fault};
ghost use Rattle.ssh_program.specs.NeededVouches.{RestsOn, first_resting, second_resting, wanted_in};
ghost use Rattle.ssh_program.specs.FileAnswers.{AnswersFile, AuditsFile, AuditsVouched, IsFaultOf, is_memory};
ghost use Rattle.ssh_program.specs.FileNamesView.{files_seen};
ghost use Rattle.ssh_files.specs.Seeking.{TellsOf};
ghost use Rattle.ssh_print.specs.ResponseView.{response};
ghost use Rattle.ssh_files.specs.Loading.{KeepsFiles};
ghost use Rattle.ssh_files.specs.VouchFile.{vouched_of};

use crate::admits::AuditFiles;
use crate::question::{HostQuestion, LoginQuestion};
use crate::texts::{first_two, kept, wanted};
use ssh_files::{Files, Found, ReadError, seek_vouched};
use ssh_offers::{AuditError, Items, Signed, host_evidence, login_evidence};
use ssh_print::{Response, decision_response, file_fault, vouch_fault};
use ssh_trust::{Decision, READ_SIZE, Source, host_by_claim_from, login_by_claim_from};
use std::alloc::{AllocError, Global};
use std::io;

/// The chosen file of a source, as a reader for the decision.
#[derive(Drop)]
pub struct ChosenFile<'a, F: Files> {
    files: &'a mut F,
}

impl<'a, F: Files> ChosenFile<'a, F> {
    /// A reader of the file that was chosen last.
    pub fn new(files: &'a mut F) -> Self
        ensures same { result.files.ghost_name ≡ files.entry.ghost_name }
        ensures now { result.files.now ≡ files.old }
    {
        ChosenFile { files }
    }
}

impl<F: Files> Source for ChosenFile<'_, F> {
    ghost left = { λ c. option_map left_of (F.source_state c.files.now) };

    ghost unfailed = { λ x y. (y.files.ghost_name ≡ x.files.ghost_name)
        × ReadsOn (F.source_state x.files.now) (F.source_state y.files.now) };

    ghost failed = { λ x y. (y.files.ghost_name ≡ x.files.ghost_name)
        × FailsOn (F.source_state x.files.now) (F.source_state y.files.now) };

    ghost begins = { λ x. (refl, reads_on (F.source_state x.files.now)) };

    fn read_piece(&mut self, buf: &mut [u8; READ_SIZE]) -> io::Result<usize> {
        self.files.read_chosen(buf)
    }
}

/// A login or a host's key, to be decided on by a trust file.
pub trait Question {
    /// The decision by the bytes of a trust file, or the refusal of the offer.
    ghost decides: { Self → Deciding };

    /// The refusal of the offer (A1 to A6), which does not depend on the trust file; `None` if it
    /// is not refused.
    fn refusal(&self) -> Option<AuditError>
        ensures { result ≡ refusal_of (decides self.entry.now) };

    /// The signatures that a decision rests on, or the refusal of the offer.
    ghost rests_on: { Self → Result (List SignedValue) Refusal };

    /// The signatures that a decision rests on, the same for every trust file. Fails with the
    /// refusal of the offer, or with `Memory`.
    fn evidence(&self, alloc: Global) -> Result<Items<Signed>, AuditError>
        ensures refused { RefusesAs (rests_on self.entry.now) result }
        ensures evidence { OfClaim (rests_on self.entry.now)
            (λ evidence. GivesOrMemory (Ok evidence) result) }
        // Of the signatures that are vouched for, only these can change a decision.
        ensures rests { RestsOn (decides self.entry.now) (rests_on self.entry.now) };

    /// The decision by the bytes that the reader has left, where these signatures are vouched for.
    /// If the offer is refused, nothing is read.
    fn decide<S: Source>(
        &self,
        alloc: Global,
        file: &mut S,
        vouched: &[Signed],
    ) -> Result<Decision, AuditError>
        ensures unread { OnErr (decides self.entry.now) (file.new ≡ file.old) }
        ensures read { result ≡ Err Read → S.failed file.old file.new }
        ensures unfailed { (result ≡ Err Read → ⊥) → S.unfailed file.old file.new }
        ensures answer { DecidesReader (decides self.entry.now) vouched.now (S.left file.old)
            (S.left file.new) result };
}

impl Question for LoginQuestion<'_> {
    ghost decides = { λ x. decided_by login_decision x };

    ghost rests_on = { λ x. evidence_by login_evidence x };

    fn refusal(&self) -> Option<AuditError> {
        match &self.claimed {
            Ok(_) => None,
            Err(error) => Some(*error),
        }
    }

    #[tactic(auto, using(crate::proofs::NeededLemmas::login_rests_on))]
    fn evidence(&self, alloc: Global) -> Result<Items<Signed>, AuditError> {
        match &self.claimed {
            Ok(claim) => {
                let evidence = login_evidence(alloc, claim)?;
                Ok(evidence)
            }
            Err(error) => Err(*error),
        }
    }

    fn decide<S: Source>(
        &self,
        alloc: Global,
        file: &mut S,
        vouched: &[Signed],
    ) -> Result<Decision, AuditError> {
        match &self.claimed {
            Ok(claim) => login_by_claim_from(alloc, file, claim, vouched),
            Err(error) => Err(*error),
        }
    }
}

impl Question for HostQuestion<'_> {
    ghost decides = { λ x. decided_by host_decision x };

    ghost rests_on = { λ x. evidence_by host_evidence x };

    fn refusal(&self) -> Option<AuditError> {
        match &self.claimed {
            Ok(_) => None,
            Err(error) => Some(*error),
        }
    }

    #[tactic(auto, using(crate::proofs::NeededLemmas::host_rests_on))]
    fn evidence(&self, alloc: Global) -> Result<Items<Signed>, AuditError> {
        match &self.claimed {
            Ok(claim) => {
                let evidence = host_evidence(alloc, claim)?;
                Ok(evidence)
            }
            Err(error) => Err(*error),
        }
    }

    fn decide<S: Source>(
        &self,
        alloc: Global,
        file: &mut S,
        vouched: &[Signed],
    ) -> Result<Decision, AuditError> {
        match &self.claimed {
            Ok(claim) => host_by_claim_from(alloc, file, claim, vouched),
            Err(error) => Err(*error),
        }
    }
}

/// The decision by the chosen file. The source can be used again afterwards.
fn decide_chosen<Q: Question, F: Files>(
    alloc: Global,
    question: &Q,
    vouched: &[Signed],
    file: &mut ChosenFile<'_, F>,
) -> Result<Decision, AuditError>
    ensures same { file.new.files.ghost_name ≡ file.old.files.ghost_name }
    ensures unread { OnErr (Q.decides question.entry.now)
        (F.source_state file.new.files.now ≡ F.source_state file.old.files.now) }
    ensures read { result ≡ Err Read → FailsOn (F.source_state file.old.files.now)
        (F.source_state file.new.files.now) }
    ensures unfailed { (result ≡ Err Read → ⊥) → ReadsOn (F.source_state file.old.files.now)
        (F.source_state file.new.files.now) }
    ensures answer { DecidesReader (Q.decides question.entry.now) vouched.now
        (option_map left_of (F.source_state file.old.files.now))
        (option_map left_of (F.source_state file.new.files.now)) result }
{
    question.decide(alloc, file, vouched)
}

/// The decision by the trust file of this name. A missing file is not read; the refusal of the
/// offer comes before its A9.
pub fn decide_by_file<Q: Question, F: Files>(
    alloc: Global,
    name: &str,
    question: &Q,
    vouched: &[Signed],
    files: &mut F,
) -> Result<Decision, AuditError>
    ensures answer { IfTells (F.source_state files.old) (λ s.
        AnswersFile (Q.decides question.entry.now) vouched.now name.now (bytes_at s name.now) s
        (F.source_state files.new) result) }
    // Whatever the result, the other files of the source are as they were.
    ensures others { IfTells (F.source_state files.old)
        (λ s. KeepsFiles name.now s (F.source_state files.new)) }
{
    if !files.choose(name) {
        return Err(question.refusal().unwrap_or(AuditError::Read));
    }
    let mut file = ChosenFile::new(files);
    decide_chosen(alloc, question, vouched, &mut file)
}

/// Whether memory could not be allocated.
pub fn is_memory<T>(answer: &Result<T, AuditError>) -> bool
    ensures { result ≡ is_memory answer.now }
{
    matches!(answer, Err(AuditError::Memory))
}

/// The response by the trust file, after the vouch file was read.
fn respond_vouched<Q: Question, F: Files>(
    alloc: Global,
    names: &AuditFiles<'_>,
    question: &Q,
    vouched: &[Signed],
    files: &mut F,
) -> Result<Response, AllocError>
    ensures { IfTells (F.source_state files.old) (λ s. IfOk result (λ r.
        AuditsFile (Q.decides question.entry.now) names.entry.now.trust.now vouched.now s
        (F.source_state files.new) (response r))) }
{
    let answer = decide_by_file(alloc, names.trust, question, vouched, files);
    if is_memory(&answer) {
        return Err(AllocError);
    }
    decision_response(alloc, answer)
}

/// The response to a file, other than a trust file, whose bytes could not be had: `fault file` and
/// its name.
pub fn unread(alloc: Global, name: &str, fault: ReadError) -> Result<Response, AllocError>
    ensures { IfOk result (λ r. IsFaultOf name.now fault (response r)) }
{
    match fault {
        ReadError::Memory => Err(AllocError),
        _ => file_fault(alloc, name),
    }
}

/// The response after the vouch file was read. It gave which of the evidence is vouched for, or the
/// number of its first line that is not a triple of key, message and signature.
fn respond_reported<Q: Question, F: Files>(
    alloc: Global,
    names: &AuditFiles<'_>,
    question: &Q,
    evidence: &[Signed],
    reported: Result<Found, u64>,
    files: &mut F,
) -> Result<Response, AllocError>
    requires evidence { evidence.now ≡ wanted_in (Q.rests_on question.now) }
    requires rests { RestsOn (Q.decides question.now) (Q.rests_on question.now) }
    ensures { (file : List ℕ) → TellsOf (first_resting evidence.now) (second_resting evidence.now) file reported
        → IfTells (F.source_state files.old) (λ s. IfOk result (λ r.
        AuditsVouched (Q.decides question.entry.now) names.entry.now.trust.now
        (or_vouch_fault (vouched_of file)) s (F.source_state files.new) (response r))) }
{
    match reported {
        Ok(found) => respond_vouched(alloc, names, question, kept(evidence, found), files),
        Err(number) => vouch_fault(alloc, number),
    }
}

/// The response to a question with the vouch file of this name.
fn respond_wanted<Q: Question, F: Files>(
    alloc: Global,
    names: &AuditFiles<'_>,
    question: &Q,
    name: &str,
    evidence: &[Signed],
    files: &mut F,
) -> Result<Response, AllocError>
    requires evidence { evidence.now ≡ wanted_in (Q.rests_on question.now) }
    requires rests { RestsOn (Q.decides question.now) (Q.rests_on question.now) }
    requires vouch { (files_seen names.now).vouch ≡ Some name.now }
    ensures { IfTells (F.source_state files.old) (λ s. IfOk result (λ r.
        Audits (Q.decides question.entry.now) (files_seen names.entry.now) s
        (F.source_state files.new) (response r))) }
{
    let (first, second) = first_two(evidence);
    match seek_vouched(files, name, first, second) {
        Ok(reported) => respond_reported(alloc, names, question, evidence, reported, files),
        Err(fault) => unread(alloc, name, fault),
    }
}

/// The response to a question by the files of these names: the vouch file is read first, then the
/// trust file.
pub fn respond_question<Q: Question, F: Files>(
    alloc: Global,
    names: &AuditFiles<'_>,
    question: &Q,
    files: &mut F,
) -> Result<Response, AllocError>
    ensures { IfTells (F.source_state files.old) (λ s. IfOk result (λ r.
        Audits (Q.decides question.entry.now) (files_seen names.entry.now) s
        (F.source_state files.new) (response r))) }
{
    match names.vouch {
        None => respond_vouched(alloc, names, question, &[], files),
        Some(name) => {
            let evidence = wanted(alloc, question)?;
            respond_wanted(alloc, names, question, name, evidence.as_slice(), files)
        }
    }
}
