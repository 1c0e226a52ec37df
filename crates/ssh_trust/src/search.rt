//! Searches a trust file that is fed in pieces, line by line, with a state that does not grow with
//! the file.

ghost use Rattle.std.specs.Prelude.{◌≡◌, ◌≤◌, length, nat_lt, is_some, OnOk, ◌<◌, ◌+◌, ◌*◌, ◌++◌, ◌∷◌, [], ℕ, List, Err, IfOk, OnErr, ◌↔◌, ◌^◌, take, true, false, IsOk};
ghost use Rattle.ssh_trust.specs.Candidate.{reason_limit};
ghost use Rattle.ssh_trust.specs.Scan.{empty_scan, listed_with};
ghost use Rattle.std.specs.List.{AllByRecursion};
ghost use Rattle.ssh_offers.specs.declared.claim.AuditError.TheVariants.{Memory, Read, Failed, FileTooLong};
ghost use Rattle.ssh_text.specs.Text.{lines_of, numbered, file_limit, line_limit};
ghost use Rattle.ssh_trust.specs.FileLines.{IsHandedLine};
ghost use Rattle.ssh_trust.specs.Findings.{HasFound, IsKept};
ghost use Rattle.ssh_trust.specs.Audit.{HasRead, HasTaken};
ghost use Rattle.ssh_trust.specs.Reads.{IsFedBy};

use crate::decision::Decision;
use crate::matcher::{Listing, Matcher};
use crate::reader::{READ_SIZE, Source};
use ssh_entries::KeyBuffer;
use ssh_offers::{AuditError, Items, Signed};
use ssh_rules::Reason;
use ssh_text::{FILE_LIMIT, Line, Scanner};
use std::alloc::{AllocError, Global};

/// The most reasons that are listed (this project's rule).
pub const REASON_LIMIT: usize = 100;

/// The state after the lines so far: what the first line that admits gives, and the reasons of the
/// lines before it.
#[derive(Drop)]
pub struct Scan<C> {
    pub(crate) candidate: Option<C>,
    pub(crate) reasons: Items<(u64, Reason)>,
}

impl<C> Listing for Scan<C> {
    ghost reasons = { λ s. s.reasons };
}

impl<C> Scan<C> {
    /// The state before the first line.
    pub(crate) fn new(alloc: Global) -> Scan<C>
        ensures { result ≡ empty_scan }
    {
        Scan {
            candidate: None,
            reasons: Items::new(alloc),
        }
    }

    /// Whether a line so far admits.
    pub(crate) fn is_settled(&self) -> bool
        ensures { result ≡ is_some self.now.candidate }
    {
        self.candidate.is_some()
    }

    /// Whether one more reason may be listed.
    pub(crate) fn has_room(&self) -> bool
        ensures { result ≡ nat_lt (length self.now.reasons) reason_limit }
    {
        self.reasons.len() < REASON_LIMIT
    }

    /// Adds the reason of a line, unless there are `REASON_LIMIT` already.
    pub(crate) fn list(&mut self, number: u64, reason: Option<Reason>) -> Result<(), AllocError>
        ensures value { OnOk result
            (self.new ≡ record self.old { reasons = listed_with self.old.reasons number reason }) }
        ensures bounded { length self.old.reasons ≤ reason_limit
            → length self.new.reasons ≤ reason_limit }
    {
        if let Some(why) = reason
            && self.has_room()
        {
            self.reasons.push((number, why))?;
        }
        Ok(())
    }
}

/// The matcher, its state after the lines so far, and the buffer that keys are decoded into.
#[derive(Drop)]
pub(crate) struct Search<T, S> {
    alloc: Global,
    matcher: T,
    buffer: KeyBuffer,
    state: S,
    /// The matcher steps so far, up to `u128::MAX`.
    steps: u128,
}

/// The steps so far plus those of one more line, up to `u128::MAX`. No file within the limit takes
/// that many.
fn with_more(before: u128, taken: u128) -> u128
    ensures most { result ≤ before + taken }
    ensures before { before ≤ result }
    ensures taken { taken ≤ result }
{
    before.saturating_add(taken)
}

impl<T: Matcher<State = S> + Drop, S: Listing + Drop> Search<T, S> {
    /// The search before the first line.
    pub(crate) fn new(alloc: Global, matcher: T) -> Result<Search<T, S>, AllocError>
        ensures made { IfOk result
            (HasFound T.claimed T.nothing T.add T.most T.least (T.claimed matcher) []) }
        ensures bounded { IfOk result (IsKept S.reasons) }
    {
        let buffer = KeyBuffer::new(alloc)?;
        let state = matcher.initial_state(alloc);
        Ok(Search {
            alloc,
            matcher,
            buffer,
            state,
            steps: 0,
        })
    }

    /// Takes the next line, which has this number. On allocation failure the state is unspecified.
    pub(crate) fn scan_line(&mut self, number: u64, line: Line<'_>) -> Result<(), AllocError>
        ensures found { OnOk result ((text : List ℕ)
            → IsHandedLine line.entry text
            → (claim : T.Claim) (lines : List (ℕ × List ℕ))
            → HasFound T.claimed T.nothing T.add T.most T.least claim lines self.old
            → HasFound T.claimed T.nothing T.add T.most T.least claim (lines ++ (number, text) ∷ []) self.new) }
        ensures bounded { IsKept S.reasons self.old → IsKept S.reasons self.new }
    {
        let steps = self.matcher.scan_line(
            self.alloc,
            number,
            line,
            &mut self.buffer,
            &mut self.state,
        )?;
        self.steps = with_more(self.steps, steps);
        Ok(())
    }

    /// The decision by the state after all lines, and the matcher steps.
    pub(crate) fn decide(self, vouched: &[Signed]) -> Result<(Decision, u128), AllocError>
        ensures decided { IfOk result (λ counted. (claim : T.Claim) (file : List ℕ)
            → HasFound T.claimed T.nothing T.add T.most T.least claim (numbered 1 (lines_of file)) self
            → counted.0 ≡ T.decision file claim vouched.now) }
        ensures means { IfOk result (λ counted. (claim : T.Claim) (file : List ℕ)
            → HasFound T.claimed T.nothing T.add T.most T.least claim (numbered 1 (lines_of file)) self
            → AllByRecursion (λ c. c < 256) file
            → T.means file claim vouched.now counted.0) }
        ensures most { IfOk result (λ counted. (claim : T.Claim) (file : List ℕ)
            → HasFound T.claimed T.nothing T.add T.most T.least claim (numbered 1 (lines_of file)) self
            → AllByRecursion (λ c. c < 256) file
            → counted.1 ≤ (length file + 1) * T.width claim) }
        ensures least { IfOk result (λ counted. (claim : T.Claim) (file : List ℕ)
            → HasFound T.claimed T.nothing T.add T.most T.least claim (numbered 1 (lines_of file)) self
            → AllByRecursion (λ c. c < 256) file
            → T.are_enough file claim counted.1) }
    {
        let steps = self.steps;
        let state = self.state;
        let decision = self.matcher.decide(self.alloc, state, vouched)?;
        Ok((decision, steps))
    }
}

/// A file that is fed in pieces, and the search of its lines. It stores the bytes of at most one
/// unfinished line; a line that lies whole in a piece is searched without a copy.
#[derive(Drop)]
pub(crate) struct Pieces<T, S> {
    scanner: Scanner,
    pub(crate) search: Search<T, S>,
    /// A piece was refused; every later call fails.
    pub(crate) failed: bool,
}

impl<T: Matcher<State = S> + Drop, S: Listing + Drop> Pieces<T, S> {
    /// The search of a file of which no piece was fed.
    pub(crate) fn new(alloc: Global, search: Search<T, S>) -> Pieces<T, S>
        ensures read { (claim : T.Claim)
            → HasFound T.claimed T.nothing T.add T.most T.least claim [] search
            → HasRead (HasFound T.claimed T.nothing T.add T.most T.least claim) result [] }
        ensures search { result.search ≡ search }
        ensures sound { result.failed ≡ false }
        ensures bounded { length result.scanner.kept.bytes ≤ line_limit }
    {
        Pieces {
            scanner: Scanner::new(alloc),
            search,
            failed: false,
        }
    }

    /// Takes bytes up to and including the first LF: how many, and whether they end a line.
    fn step(&mut self, rest: &[u8]) -> Result<(usize, bool), AllocError>
        requires { self.old.scanner.used + length rest.now < 2 ^ 64 }
        ensures read { IfOk result (λ fed.
            (claim : T.Claim) (bytes : List ℕ)
            → HasRead (HasFound T.claimed T.nothing T.add T.most T.least claim) self.old bytes
            → HasRead (HasFound T.claimed T.nothing T.add T.most T.least claim) self.new (bytes ++ take fed.0 rest.now)) }
        ensures used { IfOk result (λ fed. self.new.scanner.used ≡ self.old.scanner.used + fed.0) }
        ensures within { IfOk result (λ fed. fed.0 ≤ length rest.now) }
        ensures some { IfOk result (λ fed. fed.1 ≡ true → 0 < fed.0) }
        ensures all { IfOk result (λ fed. fed.1 ≡ false → fed.0 ≡ length rest.now) }
        ensures failed { self.new.failed ≡ self.old.failed }
        ensures bounded { IsKept S.reasons self.old.search → IsKept S.reasons self.new.search }
        ensures line { length self.new.scanner.kept.bytes ≤ line_limit }
        ensures nothing { length rest.now ≡ 0 → IsOk result }
    {
        if let Some((number, text)) = self.scanner.whole_line(rest) {
            self.search.scan_line(number, Line::Whole(text))?;
            return Ok((text.len() + 1, true));
        }
        let (taken, ready) = self.scanner.feed(rest)?;
        if ready {
            let (number, line) = self.scanner.line();
            self.search.scan_line(number, line)?;
        }
        Ok((taken, ready))
    }

    /// Takes a piece that fits within the limit.
    fn take(&mut self, piece: &[u8]) -> Result<(), AllocError>
        requires { self.old.scanner.used + length piece.now < 2 ^ 64 }
        ensures read { OnOk result ((claim : T.Claim) (bytes : List ℕ)
            → HasRead (HasFound T.claimed T.nothing T.add T.most T.least claim) self.old bytes
            → HasRead (HasFound T.claimed T.nothing T.add T.most T.least claim) self.new (bytes ++ piece.now)) }
        ensures used { OnOk result
            (self.new.scanner.used ≡ self.old.scanner.used + length piece.now) }
        ensures failed { self.new.failed ≡ self.old.failed }
        ensures bounded { IsKept S.reasons self.old.search → IsKept S.reasons self.new.search }
        ensures line { length self.new.scanner.kept.bytes ≤ line_limit }
        ensures nothing { length piece.now ≡ 0 → IsOk result }
    {
        let mut done = 0;
        loop {
            let (_, rest) = piece.split_at(done);
            let (taken, ready) = self.step(rest)?;
            done += taken;
            if !ready {
                return Ok(());
            }
        }
    }

    /// Takes a whole piece, unless an earlier one was refused, or it makes the file too long, or
    /// memory cannot be allocated.
    pub(crate) fn feed(&mut self, piece: &[u8]) -> Result<(), AuditError>
        ensures read { OnOk result ((claim : T.Claim) (bytes : List ℕ)
            → HasRead (HasFound T.claimed T.nothing T.add T.most T.least claim) self.old bytes
            → HasRead (HasFound T.claimed T.nothing T.add T.most T.least claim) self.new (bytes ++ piece.now)) }
        ensures used { OnOk result
            (self.new.scanner.used ≡ self.old.scanner.used + length piece.now) }
        ensures short { OnOk result (self.old.scanner.used + length piece.now ≤ file_limit) }
        ensures octets { OnOk result (AllByRecursion (λ c. c < 256) piece.now) }
        ensures sound { OnOk result (self.new.failed ≡ false) }
        ensures left { OnErr result (self.new.failed ≡ true) }
        ensures failed { (result ≡ Err Failed) ↔ (self.old.failed ≡ true) }
        ensures too_long { self.old.failed ≡ false
            → ((result ≡ Err FileTooLong)
            ↔ (file_limit < self.old.scanner.used + length piece.now)) }
        ensures else_memory { self.old.failed ≡ false
            → self.old.scanner.used + length piece.now ≤ file_limit
            → OnErr result (result ≡ Err Memory) }
        ensures nothing { self.old.failed ≡ false
            → self.old.scanner.used ≤ file_limit
            → length piece.now ≡ 0
            → IsOk result }
        ensures bounded { IsKept S.reasons self.old.search → IsKept S.reasons self.new.search }
        ensures line { length self.old.scanner.kept.bytes ≤ line_limit
            → length self.new.scanner.kept.bytes ≤ line_limit }
    {
        if self.failed {
            return Err(AuditError::Failed);
        }
        let used = self.scanner.used().saturating_add(piece.len() as u64);
        if used > FILE_LIMIT as u64 {
            self.failed = true;
            return Err(AuditError::FileTooLong);
        }
        match self.take(piece) {
            Ok(()) => Ok(()),
            Err(_) => {
                self.failed = true;
                Err(AuditError::Memory)
            }
        }
    }

    /// Takes what is left of a reader, up to its end. A failed read is `A9`. No read asks for more
    /// than 4,096 bytes, by the type of its buffer.
    pub(crate) fn feed_from<R: Source>(&mut self, reader: &mut R) -> Result<(), AuditError>
        ensures read { result ≡ Err Read → R.failed reader.old reader.new }
        ensures unfailed { (result ≡ Err Read → ⊥) → R.unfailed reader.old reader.new }
        ensures fed { (claim : T.Claim) (bytes : List ℕ)
            → HasTaken (HasFound T.claimed T.nothing T.add T.most T.least claim) self.old bytes
            → IsFedBy (λ given. HasTaken (HasFound T.claimed T.nothing T.add T.most T.least claim) self.new (bytes ++ given))
            (R.left reader.old) (R.left reader.new) (length bytes) result }
        ensures left { OnErr result (self.new.failed ≡ true) }
        ensures bounded { IsKept S.reasons self.old.search → IsKept S.reasons self.new.search }
        ensures line { length self.old.scanner.kept.bytes ≤ line_limit
            → length self.new.scanner.kept.bytes ≤ line_limit }
    {
        let mut buffer = [0u8; READ_SIZE];
        loop {
            match reader.read_piece(&mut buffer) {
                Ok(0) => return Ok(()),
                Ok(n) => self.feed(&buffer[..n])?,
                Err(_) => {
                    self.failed = true;
                    return Err(AuditError::Read);
                }
            }
        }
    }

    /// Takes the last line, which may lack its LF.
    fn end(&mut self) -> Result<(), AllocError>
        ensures { OnOk result ((claim : T.Claim) (bytes : List ℕ)
            → HasRead (HasFound T.claimed T.nothing T.add T.most T.least claim) self.old bytes
            → HasFound T.claimed T.nothing T.add T.most T.least claim (numbered 1 (lines_of bytes)) self.new.search) }
    {
        if self.scanner.finish() {
            let (number, last) = self.scanner.line();
            self.search.scan_line(number, last)?;
        }
        Ok(())
    }

    /// Ends the file and returns the search over all its lines, unless a piece was refused or
    /// memory cannot be allocated.
    pub(crate) fn finish(mut self) -> Result<Search<T, S>, AuditError>
        ensures failed { self.failed ≡ true → result ≡ Err Failed }
        ensures found { IfOk result (λ search.
            (claim : T.Claim) (bytes : List ℕ)
            → HasRead (HasFound T.claimed T.nothing T.add T.most T.least claim) self bytes
            → HasFound T.claimed T.nothing T.add T.most T.least claim (numbered 1 (lines_of bytes)) search) }
        ensures else_memory { self.failed ≡ false → OnErr result (result ≡ Err Memory) }
    {
        if self.failed {
            return Err(AuditError::Failed);
        }
        self.end()?;
        Ok(self.search)
    }
}
