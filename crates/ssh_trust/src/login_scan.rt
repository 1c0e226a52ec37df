//! The matcher of authorized_keys files: the first line that admits a login, why the lines before
//! it do not, and the decision.

ghost use Rattle.std.specs.Prelude.{◌≡◌, ◌<◌, ◌≤◌, ◌^◌, ℕ, List, false, true, is_some, length, Err, IfOk, OnErr, OnOk, ⊤};
ghost use Rattle.ssh_entries.specs.AuthGrammar.{auth_line};
ghost use Rattle.ssh_entries.specs.LineView.{line_seen};
ghost use Rattle.ssh_offers.specs.declared.claim.AuditError.TheVariants.{Memory};
ghost use Rattle.ssh_offers.specs.ClaimViews.{claim_of};
ghost use Rattle.ssh_offers.specs.LoginClaim.{LoginClaim, login_claim};
ghost use Rattle.ssh_offers.specs.Query.{login_of};
ghost use Rattle.ssh_rules.specs.KeyNeedle.{AdmitsNothing};
ghost use Rattle.ssh_trust.specs.Telling.{LoginDecides};
ghost use Rattle.ssh_trust.specs.LoginDecision.{candidate_at, line_verdict, login_decision, login_scan_line, cause_by, decision_at, decision_of};
ghost use Rattle.ssh_trust.specs.FileLines.{IsHandedLine};
ghost use Rattle.ssh_trust.specs.Candidate.{reason_limit};
ghost use Rattle.ssh_trust.specs.Scan.{empty_scan, scan_verdict};
ghost use Rattle.ssh_rules.specs.Turns.{login_width};
ghost use Rattle.ssh_trust.specs.Turns.{login_line_most};

use crate::decision::{Cause, Decision};
use crate::matcher::Matcher;
use crate::search::Scan;
use ssh_entries::{AuthEntryView, AuthLineView, KeyBuffer, read_auth_view};
use ssh_offers::{
    AuditError, Items, LoginClaimView, LoginQuery, Signed, first_unvouched, login_evidence,
};
use ssh_options::LineCause;
use ssh_rights::{Rights, rights_of, touch_suffices, verification_suffices};
use ssh_rules::{LineVerdict, LoginMatcher, Reason, login_verdict_counted};
use ssh_text::Line;
use std::alloc::{AllocError, Global};

/// The first line that admits the login, and what a grant by it needs.
#[derive(Drop)]
pub struct Candidate {
    /// Its number, from 1.
    pub(crate) line: u64,
    /// A security key was touched, or no touch is required.
    pub(crate) touched: bool,
    /// A security key verified the user, or no verification is required.
    pub(crate) verified: bool,
    /// What a login by this line may do.
    pub(crate) rights: Rights,
}

/// The candidate of an entry that admits the login, on the line with this number.
fn candidate_at(
    alloc: Global,
    line: u64,
    entry: &AuthEntryView<'_>,
    claim: &LoginClaimView<'_>,
) -> Result<Candidate, AllocError>
    ensures { IfOk result (λ c. c ≡ candidate_at (claim_of claim.now) (line, entry.now)) }
{
    let rights = rights_of(alloc, entry, &claim.offer)?;
    Ok(Candidate {
        line,
        touched: touch_suffices(entry, claim),
        verified: verification_suffices(entry, claim),
        rights,
    })
}

/// Adds the verdict on the line with this number to the state, where no earlier line admits the
/// login.
fn take_verdict(
    alloc: Global,
    number: u64,
    verdict: LineVerdict<AuthEntryView<'_>>,
    claim: &LoginClaimView<'_>,
    state: &mut Scan<Candidate>,
) -> Result<(), AllocError>
    ensures value { OnOk result (state.new
        ≡ scan_verdict (candidate_at (claim_of claim.now)) state.old number verdict.entry) }
    ensures few { length state.old.reasons ≤ reason_limit → length state.new.reasons ≤ reason_limit }
{
    match verdict {
        LineVerdict::Admits(entry) => {
            let candidate = candidate_at(alloc, number, &entry, claim)?;
            state.candidate = Some(candidate);
            Ok(())
        }
        LineVerdict::Skips(reason) => state.list(number, reason),
    }
}

/// The line as read. One that is longer than 65,536 bytes is unreadable.
#[tactic(auto, using(crate::proofs::LongLines::long_auth))]
fn view_of<'a>(line: Line<'a>, buffer: &'a mut KeyBuffer) -> AuthLineView<'a>
    ensures { (text : List ℕ) → IsHandedLine line.entry text → line_seen result ≡ auth_line text }
{
    match line {
        Line::Whole(text) => read_auth_view(text, buffer),
        Line::TooLong => AuthLineView::Unreadable(LineCause::TooLong),
    }
}

/// Whether the line can admit the login. One that is longer than 65,536 bytes cannot.
#[tactic(auto, using(crate::proofs::LongLines::long_auth_admits_nothing))]
fn can_admit_at(matcher: &LoginMatcher<'_>, line: Line<'_>) -> bool
    ensures { (text : List ℕ)
        → IsHandedLine line.entry text
        → result ≡ false
        → AdmitsNothing (line_verdict matcher.now text) }
{
    match line {
        Line::Whole(text) => matcher.can_admit(text),
        Line::TooLong => false,
    }
}

/// Whether the line cannot change the state, so that it need not be read: an earlier line admits
/// the login, or enough reasons are listed and this line cannot admit it.
fn is_passed_over(matcher: &LoginMatcher<'_>, line: Line<'_>, state: &Scan<Candidate>) -> bool
    ensures same { (number : ℕ) (text : List ℕ)
        → IsHandedLine line.entry text
        → result ≡ true
        → state.now ≡ login_scan_line matcher.now state.now (number, text) }
    ensures unsettled { result ≡ false → is_some state.now.candidate ≡ false }
{
    state.is_settled() || (!state.has_room() && !can_admit_at(matcher, line))
}

/// The matcher of a claim; a failed allocation is `A8`.
fn matcher_of<'a>(alloc: Global, claim: &LoginClaimView<'a>) -> Result<LoginMatcher<'a>, AuditError>
    ensures value { IfOk result (λ matcher. matcher ≡ claim_of claim.now) }
    ensures memory { OnErr result (result ≡ Err Memory) }
{
    match LoginMatcher::new(alloc, claim) {
        Ok(matcher) => Ok(matcher),
        Err(_) => Err(AuditError::Memory),
    }
}

/// Scans for the first line that admits the login. Lines after it change nothing.
impl<'a> Matcher for LoginMatcher<'a> {
    type Query = LoginQuery<'a>;

    type State = Scan<Candidate>;

    ghost Claim = { LoginClaim };

    ghost can_ask = { λ q. (length q.session.now < 2 ^ 32) × (length q.user.now < 2 ^ 32) };

    ghost claim = { λ q. login_claim (login_of q) };

    ghost claimed = { λ s. s };

    ghost nothing = { empty_scan };

    ghost add = { login_scan_line };

    ghost decision = { login_decision };

    ghost means = { LoginDecides };

    ghost most = { login_line_most };

    ghost least = { λ claim state line. 0 };

    ghost width = { λ claim. login_width claim.query };

    ghost are_enough = { λ file claim steps. ⊤ };

    fn read(alloc: Global, query: &LoginQuery<'a>) -> Result<LoginMatcher<'a>, AuditError> {
        let claim = LoginClaimView::read(query)?;
        matcher_of(alloc, &claim)
    }

    fn initial_state(&self, alloc: Global) -> Scan<Candidate> {
        Scan::new(alloc)
    }

    fn scan_line(
        &self,
        alloc: Global,
        number: u64,
        line: Line<'_>,
        buffer: &mut KeyBuffer,
        state: &mut Scan<Candidate>,
    ) -> Result<u128, AllocError> {
        if is_passed_over(self, line, state) {
            return Ok(0);
        }
        let (verdict, steps) = login_verdict_counted(alloc, view_of(line, buffer), self)?;
        take_verdict(alloc, number, verdict, self.claim(), state)?;
        Ok(steps)
    }

    fn decide(
        &self,
        alloc: Global,
        state: Scan<Candidate>,
        vouched: &[Signed],
    ) -> Result<Decision, AllocError> {
        let evidence = login_evidence(alloc, self.claim())?;
        Ok(decide_login(state, evidence, vouched))
    }
}

/// Why a login by a line that admits it is denied: the first cause that holds.
fn cause_by(touched: bool, verified: bool, unvouched: Option<usize>) -> Option<Cause>
    ensures { result ≡ cause_by touched verified unvouched }
{
    if !touched {
        Some(Cause::TouchMissing)
    } else if !verified {
        Some(Cause::VerifyMissing)
    } else {
        unvouched.map(|index| Cause::NotVouched(index as u64))
    }
}

/// The decision where a line admits the login.
fn decide_at(
    candidate: Candidate,
    reasons: Items<(u64, Reason)>,
    evidence: Items<Signed>,
    vouched: &[Signed],
) -> Decision
    ensures { result ≡ decision_at evidence vouched.now candidate reasons }
{
    let unvouched = first_unvouched(vouched, evidence.as_slice());
    match cause_by(candidate.touched, candidate.verified, unvouched) {
        Some(why) => Decision::Denied {
            why,
            reasons,
            evidence,
        },
        None => Decision::Granted {
            line: candidate.line,
            rights: Some(candidate.rights),
            reasons,
            evidence,
        },
    }
}

/// The decision by the state after all lines.
pub(crate) fn decide_login(
    scan: Scan<Candidate>,
    evidence: Items<Signed>,
    vouched: &[Signed],
) -> Decision
    ensures { result ≡ decision_of evidence vouched.now scan.candidate scan.reasons }
{
    let Scan { candidate, reasons } = scan;
    match candidate {
        Some(candidate) => decide_at(candidate, reasons, evidence, vouched),
        None => Decision::Denied {
            why: Cause::NoLine,
            reasons,
            evidence,
        },
    }
}
