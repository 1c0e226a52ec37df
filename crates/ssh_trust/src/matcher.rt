//! `Matcher`: what a search of a trust file needs. It reads a query, takes line after line into a
//! state, and decides by that state.

ghost use Rattle.std.specs.Prelude.{◌≡◌, ◌<◌, ◌≤◌, ◌+◌, ◌*◌, ℕ, List, Result, length, Err, IfOk, OnOk, OnErr};
ghost use Rattle.std.specs.List.{AllByRecursion};
ghost use Rattle.ssh_offers.specs.declared.claim.AuditError.{AuditError as Refusal};
ghost use Rattle.ssh_offers.specs.declared.claim.AuditError.TheVariants.{Memory, Read};
ghost use Rattle.ssh_offers.specs.declared.claim.Signed.{Signed as SignedValue};
ghost use Rattle.ssh_rules.specs.declared.reason.Reason.{Reason};
ghost use Rattle.ssh_text.specs.Text.{lines_of, numbered};
ghost use Rattle.ssh_trust.specs.declared.decision.Decision.{Decision as DecisionValue};
ghost use Rattle.ssh_trust.specs.Answer.{OfClaim, RefusesAs};
ghost use Rattle.ssh_trust.specs.Candidate.{reason_limit};
ghost use Rattle.ssh_trust.specs.FileLines.{IsHandedLine};
ghost use Rattle.ssh_trust.specs.Scan.{after_lines};
ghost use Rattle.ssh_trust.specs.Turns.{least_over, most_over};

use crate::decision::Decision;
use ssh_entries::KeyBuffer;
use ssh_offers::{AuditError, Signed};
use ssh_text::Line;
use std::alloc::{AllocError, Global};

/// A state of a matcher, with the reasons that it lists.
pub trait Listing {
    /// The reasons that are listed, each with its line number.
    ghost reasons: { Self → List (ℕ × Reason) };
}

/// A matcher for one kind of trust file: `LoginMatcher` or `HostMatcher`.
pub trait Matcher {
    /// The question: a login, or a host's key.
    type Query;

    /// The state after the lines so far.
    type State: Listing + Drop;

    /// What the query claims, once its offer is not refused.
    ghost Claim: { Type 0 };

    /// The sizes of the query are within range.
    ghost can_ask: { Self.Query → Type 0 };

    /// The claim of a query, or the refusal of its offer.
    ghost claim: { Self.Query → Result Claim Refusal };

    /// The claim that a matcher was built from.
    ghost claimed: { Self → Claim };

    /// The state before the first line.
    ghost nothing: { Self.State };

    /// The state after one more numbered line.
    ghost add: { Claim → Self.State → ℕ × List ℕ → Self.State };

    /// The decision by a file, where these signatures are vouched for.
    ghost decision: { List ℕ → Claim → List SignedValue → DecisionValue };

    /// What a decision means.
    ghost means: { List ℕ → Claim → List SignedValue → DecisionValue → Type 0 };

    /// The most matcher steps that a line takes.
    ghost most: { Claim → List ℕ → ℕ };

    /// The fewest matcher steps that one more numbered line takes in a state.
    ghost least: { Claim → Self.State → ℕ × List ℕ → ℕ };

    /// The most steps for each byte of a file, and for its end.
    ghost width: { Claim → ℕ };

    /// This many steps are at least the fewest that a file takes.
    ghost are_enough: { List ℕ → Claim → ℕ → Type 0 };

    /// Builds the matcher of a query. An offer is refused before any memory is allocated.
    fn read(alloc: Global, query: &Self::Query) -> Result<Self, AuditError>
        requires can_ask { can_ask query.now }
        ensures refused { RefusesAs (claim query.entry.now) result }
        ensures made { OfClaim (claim query.entry.now)
            (λ c. IfOk result (λ matcher. claimed matcher ≡ c)) }
        ensures else_memory { OfClaim (claim query.entry.now)
            (λ c. OnErr result (result ≡ Err Memory)) }
        ensures unread { result ≡ Err Read → ⊥ };

    /// The state before the first line.
    fn initial_state(&self, alloc: Global) -> Self::State
        ensures value { result ≡ nothing }
        ensures few { length (Self.State.reasons result) ≤ reason_limit };

    /// Takes the next line of the file, which has this number, and returns the matcher steps that
    /// it took. On allocation failure the state is unspecified.
    fn scan_line(
        &self,
        alloc: Global,
        number: u64,
        line: Line<'_>,
        buffer: &mut KeyBuffer,
        state: &mut Self::State,
    ) -> Result<u128, AllocError>
        ensures value { OnOk result ((text : List ℕ)
            → IsHandedLine line.entry text
            → state.new ≡ add (claimed self.now) state.old (number, text)) }
        ensures few { length (Self.State.reasons state.old) ≤ reason_limit
            → length (Self.State.reasons state.new) ≤ reason_limit }
        ensures most { IfOk result (λ steps. (text : List ℕ)
            → IsHandedLine line.entry text
            → steps ≤ most (claimed self.now) text) }
        ensures least { IfOk result (λ steps. (text : List ℕ)
            → IsHandedLine line.entry text
            → least (claimed self.now) state.old (number, text) ≤ steps) };

    /// The decision by the state after all lines.
    fn decide(
        &self,
        alloc: Global,
        state: Self::State,
        vouched: &[Signed],
    ) -> Result<Decision, AllocError>
        ensures decided { IfOk result (λ decided. (file : List ℕ)
            → state ≡ after_lines (add (claimed self.now)) nothing (numbered 1 (lines_of file))
            → decided ≡ decision file (claimed self.now) vouched.now) }
        ensures means { IfOk result (λ decided. (file : List ℕ)
            → state ≡ after_lines (add (claimed self.now)) nothing (numbered 1 (lines_of file))
            → AllByRecursion (λ x. x < 256) file
            → means file (claimed self.now) vouched.now decided) }
        // The bounds of each line give bounds of the whole file.
        ensures width { OnOk result ((file : List ℕ)
            → AllByRecursion (λ x. x < 256) file
            → most_over (most (claimed self.now)) (numbered 1 (lines_of file))
            ≤ (length file + 1) * width (claimed self.now)) }
        ensures enough { OnOk result ((file : List ℕ) (steps : ℕ)
            → AllByRecursion (λ x. x < 256) file
            → least_over (add (claimed self.now)) (least (claimed self.now)) nothing
            (numbered 1 (lines_of file)) ≤ steps
            → are_enough file (claimed self.now) steps) };
}
