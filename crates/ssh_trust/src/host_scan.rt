//! The matcher of known_hosts files: the first line that admits a host's key, the lines that revoke
//! it, and the decision. The whole file counts, because a later line may still revoke the key.

ghost use Rattle.std.specs.Prelude.{◌≡◌, ◌≤◌, ℕ, false, true, is_some, length, List, Err, IfOk, OnErr, OnOk, ⊤};
ghost use Rattle.ssh_entries.specs.KnownGrammar.{known_line};
ghost use Rattle.ssh_entries.specs.KnownSeen.{known_seen};
ghost use Rattle.ssh_offers.specs.declared.claim.AuditError.TheVariants.{Memory};
ghost use Rattle.ssh_offers.specs.ClaimViews.{host_claim_of};
ghost use Rattle.ssh_offers.specs.HostClaim.{HostClaim, host_claim};
ghost use Rattle.ssh_offers.specs.Query.{host_check_of};
ghost use Rattle.ssh_rules.specs.KeyNeedle.{AdmitsNothing};
ghost use Rattle.ssh_host_rules.specs.Revocation.{RevokesNothing};
ghost use Rattle.ssh_trust.specs.FileLines.{IsHandedLine};
ghost use Rattle.ssh_trust.specs.Telling.{HostDecides};
ghost use Rattle.ssh_trust.specs.HostDecision.{host_decision, host_decision_of, revocation_cause, trust_by};
ghost use Rattle.ssh_trust.specs.HostScan.{admitting_number, empty_host_scan, first_so_far, host_line_verdict, host_scan_line};
ghost use Rattle.ssh_trust.specs.Candidate.{reason_limit};
ghost use Rattle.ssh_trust.specs.Scan.{scan_line, scan_verdict};
ghost use Rattle.ssh_host_rules.specs.Turns.{host_width};
ghost use Rattle.ssh_trust.specs.Turns.{AreNameTurns, host_line_least, host_line_most};

use crate::decision::{Cause, Decision};
use crate::matcher::{Listing, Matcher};
use crate::search::Scan;
use ssh_entries::{KeyBuffer, KnownEntryView, KnownLineView, read_known_view};
use ssh_host_rules::{HostMatcher, can_revoke, host_verdict_counted, may_revoke};
use ssh_offers::{
    AuditError, HostClaimView, HostQuery, Items, Signed, first_unvouched, host_evidence,
};
use ssh_rules::{LineVerdict, Reason};
use ssh_text::Line;
use std::alloc::{AllocError, Global};

/// The state after the lines so far.
#[derive(Drop)]
pub struct HostScan {
    /// The number of the first line that admits the key, from 1, and the reasons of the lines
    /// before it.
    pub(crate) admission: Scan<u64>,
    /// The first line that revokes the key or the certificate's signer.
    pub(crate) revoked: Option<u64>,
    /// The first line that may revoke any key.
    pub(crate) unreadable_revocation: Option<u64>,
}

impl Listing for HostScan {
    ghost reasons = { λ s. s.admission.reasons };
}

impl HostScan {
    /// Whether a line so far admits the key.
    fn is_settled(&self) -> bool
        ensures { result ≡ is_some self.now.admission.candidate }
    {
        self.admission.candidate.is_some()
    }

    /// Records whether the line with this number revokes the key or the signer, and whether it may
    /// revoke any key.
    fn note(&mut self, number: u64, revokes: bool, is_unreadable: bool)
        ensures { self.new ≡ record self.old {
          revoked = first_so_far self.old.revoked number revokes;
          unreadable_revocation = first_so_far self.old.unreadable_revocation number is_unreadable;
        } }
    {
        self.revoked = first_so_far(self.revoked, number, revokes);
        self.unreadable_revocation = first_so_far(
            self.unreadable_revocation,
            number,
            is_unreadable,
        );
    }
}

/// The number of the first line so far that has the property, after one more line.
fn first_so_far(first: Option<u64>, number: u64, holds: bool) -> Option<u64>
    ensures { result ≡ first_so_far first number holds }
{
    match first {
        Some(first) => Some(first),
        None if holds => Some(number),
        None => None,
    }
}

/// The line as read. One that is longer than 65,536 bytes counts as a revocation that cannot be
/// read, since it may be one.
#[tactic(auto, using(crate::proofs::LongLines::long_known))]
fn view_of<'a>(line: Line<'a>, buffer: &'a mut KeyBuffer) -> KnownLineView<'a>
    ensures { (text : List ℕ) → IsHandedLine line.entry text → known_seen result ≡ known_line text }
{
    match line {
        Line::Whole(text) => read_known_view(text, buffer),
        Line::TooLong => KnownLineView::RevokedUnreadable,
    }
}

/// Whether the line can be a revocation, without reading its fields.
fn can_revoke_at(line: Line<'_>) -> bool
    ensures { (text : List ℕ)
        → IsHandedLine line.entry text
        → result ≡ false
        → RevokesNothing (known_line text) }
{
    match line {
        Line::Whole(text) => can_revoke(text),
        Line::TooLong => true,
    }
}

/// Whether the line can admit the key. One that is longer than 65,536 bytes cannot.
#[tactic(auto, using(crate::proofs::LongLines::long_known_admits_nothing))]
fn can_admit_at(matcher: &HostMatcher<'_>, line: Line<'_>) -> bool
    ensures { (text : List ℕ)
        → IsHandedLine line.entry text
        → result ≡ false
        → AdmitsNothing (host_line_verdict matcher.now text) }
{
    match line {
        Line::Whole(text) => matcher.can_admit(text),
        Line::TooLong => false,
    }
}

/// Whether the line cannot change the admission: an earlier line admits the key, or enough reasons
/// are listed and this line cannot admit it.
fn adds_no_admission(matcher: &HostMatcher<'_>, line: Line<'_>, state: &Scan<u64>) -> bool
    ensures { (number : ℕ) (text : List ℕ)
        → IsHandedLine line.entry text
        → result ≡ true
        → state.now ≡ scan_line admitting_number (host_line_verdict matcher.now) state.now (number, text) }
{
    state.is_settled() || (!state.has_room() && !can_admit_at(matcher, line))
}

/// Whether the line cannot change the state, so that it need not be read: it cannot change the
/// admission, and it cannot be a revocation.
fn is_passed_over(matcher: &HostMatcher<'_>, line: Line<'_>, state: &HostScan) -> bool
    ensures { (number : ℕ) (text : List ℕ)
        → IsHandedLine line.entry text
        → result ≡ true
        → state.now ≡ host_scan_line matcher.now state.now (number, text) }
{
    adds_no_admission(matcher, line, &state.admission) && !can_revoke_at(line)
}

/// Adds the verdict on the line with this number to the state, where no earlier line admits the
/// key.
fn take_verdict(
    number: u64,
    verdict: LineVerdict<KnownEntryView<'_>>,
    state: &mut Scan<u64>,
) -> Result<(), AllocError>
    ensures value { OnOk result
        (state.new ≡ scan_verdict admitting_number state.old number verdict.entry) }
    ensures few { length state.old.reasons ≤ reason_limit → length state.new.reasons ≤ reason_limit }
{
    match verdict {
        LineVerdict::Admits(_) => {
            state.candidate = Some(number);
            Ok(())
        }
        LineVerdict::Skips(reason) => state.list(number, reason),
    }
}

/// The matcher of a claim; a failed allocation is `A8`.
fn matcher_of<'a>(alloc: Global, claim: &HostClaimView<'a>) -> Result<HostMatcher<'a>, AuditError>
    ensures value { IfOk result (λ matcher. matcher ≡ host_claim_of claim.now) }
    ensures memory { OnErr result (result ≡ Err Memory) }
{
    match HostMatcher::new(alloc, claim) {
        Ok(matcher) => Ok(matcher),
        Err(_) => Err(AuditError::Memory),
    }
}

/// Scans for the first line that trusts a host's key and for those that revoke it. Once a line
/// admits the key, or enough reasons are listed, only lines that can still change the answer are
/// read.
impl<'a> Matcher for HostMatcher<'a> {
    type Query = HostQuery<'a>;

    type State = HostScan;

    ghost Claim = { HostClaim };

    ghost can_ask = { λ q. ⊤ };

    ghost claim = { λ q. host_claim (host_check_of q) };

    ghost claimed = { λ s. s };

    ghost nothing = { empty_host_scan };

    ghost add = { host_scan_line };

    ghost decision = { host_decision };

    ghost means = { HostDecides };

    ghost most = { host_line_most };

    ghost least = { host_line_least };

    ghost width = { λ claim. host_width claim.query };

    ghost are_enough = { AreNameTurns };

    fn read(alloc: Global, query: &HostQuery<'a>) -> Result<HostMatcher<'a>, AuditError> {
        let claim = HostClaimView::read(query)?;
        matcher_of(alloc, &claim)
    }

    fn initial_state(&self, alloc: Global) -> HostScan {
        HostScan {
            admission: Scan::new(alloc),
            revoked: None,
            unreadable_revocation: None,
        }
    }

    fn scan_line(
        &self,
        _alloc: Global,
        number: u64,
        line: Line<'_>,
        buffer: &mut KeyBuffer,
        state: &mut HostScan,
    ) -> Result<u128, AllocError> {
        if is_passed_over(self, line, state) {
            return Ok(0);
        }
        let view = view_of(line, buffer);
        state.note(number, self.is_revoked_by(&view), may_revoke(&view));
        // Lines after the candidate are read for revocations alone.
        if state.is_settled() {
            return Ok(0);
        }
        let (verdict, steps) = host_verdict_counted(view, self)?;
        take_verdict(number, verdict, &mut state.admission)?;
        Ok(steps)
    }

    fn decide(
        &self,
        alloc: Global,
        state: HostScan,
        vouched: &[Signed],
    ) -> Result<Decision, AllocError> {
        let evidence = host_evidence(alloc, self.claim())?;
        Ok(decide_host(state, evidence, vouched))
    }
}

/// The cause of a denial by revocation: the first line that revokes the key, else the first that
/// may.
fn revocation_cause(revoked: Option<u64>, unreadable_revocation: Option<u64>) -> Option<Cause>
    ensures { result ≡ revocation_cause revoked unreadable_revocation }
{
    match (revoked, unreadable_revocation) {
        (Some(line), _) => Some(Cause::Revoked(line)),
        (None, Some(line)) => Some(Cause::RevocationUnreadable(line)),
        (None, None) => None,
    }
}

/// The decision by the candidate's line, where nothing revokes the key.
fn trust_by(
    candidate: Option<u64>,
    unvouched: Option<usize>,
    reasons: Items<(u64, Reason)>,
    evidence: Items<Signed>,
) -> Decision
    ensures { result ≡ trust_by candidate unvouched reasons evidence }
{
    let why = match (candidate, unvouched) {
        (None, _) => Cause::NoLine,
        (Some(_), Some(index)) => Cause::NotVouched(index as u64),
        (Some(line), None) => {
            return Decision::Granted {
                line,
                rights: None,
                reasons,
                evidence,
            };
        }
    };
    Decision::Denied {
        why,
        reasons,
        evidence,
    }
}

/// The decision by the state after all lines. A revocation denies whatever line admits the key.
pub(crate) fn decide_host(scan: HostScan, evidence: Items<Signed>, vouched: &[Signed]) -> Decision
    ensures { result ≡ host_decision_of scan vouched.now evidence }
{
    let HostScan {
        admission: Scan { candidate, reasons },
        revoked,
        unreadable_revocation,
    } = scan;
    match revocation_cause(revoked, unreadable_revocation) {
        Some(why) => Decision::Denied {
            why,
            reasons,
            evidence,
        },
        None => {
            let unvouched = first_unvouched(vouched, evidence.as_slice());
            trust_by(candidate, unvouched, reasons, evidence)
        }
    }
}
