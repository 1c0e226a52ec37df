//! `LoginAudit` and `HostAudit`: a query is answered by a trust file that is fed in pieces of any
//! size.

ghost use Rattle.std.specs.Prelude.{◌≡◌, ◌↔◌, ◌<◌, ◌≤◌, ◌+◌, ◌*◌, ◌++◌, [], true, length, List, ℕ, Err, IfOk, IsOk, OnOk, OnErr};
ghost use Rattle.ssh_offers.specs.declared.claim.AuditError.TheVariants.{Failed, FileTooLong, Memory, Read};
ghost use Rattle.ssh_text.specs.Text.{file_limit};
ghost use Rattle.ssh_trust.specs.Answer.{GivesOrMemory, OfClaim, RefusesAs, decided, if_short};
ghost use Rattle.ssh_trust.specs.Audit.{IsBounded, HasAudited};
ghost use Rattle.ssh_trust.specs.Reads.{AnswersReader, HoldsOfRead, IsFedBy};

use crate::decision::Decision;
use crate::host_scan::HostScan;
use crate::login_scan::Candidate;
use crate::matcher::{Listing, Matcher};
use crate::reader::Source;
use crate::search::{Pieces, Scan, Search};
use ssh_host_rules::HostMatcher;
use ssh_offers::{AuditError, Signed};
use ssh_rules::LoginMatcher;
use std::alloc::{AllocError, Global};
use std::marker::Model;

/// Answers a login by an authorized_keys file that is fed in pieces, cut anywhere. An audit stores
/// the query, what is derived from it once, and at most one unfinished line of 65,536 bytes, one
/// key buffer of 49,152 bytes, one candidate and 100 reasons. This does not depend on the file.
pub type LoginAudit<'a> = Audit<LoginMatcher<'a>, Scan<Candidate>>;

/// Answers a host's key by a known_hosts file that is fed in pieces, cut anywhere. The whole file
/// counts, because a later line may still revoke the key. An audit stores the query, what is
/// derived from it once, and at most one unfinished line of 65,536 bytes, one key buffer of 49,152
/// bytes and 100 reasons. It also stores three line numbers: of the candidate, of the first line
/// that revokes the key, and of the first that may. This does not depend on the file.
pub type HostAudit<'a> = Audit<HostMatcher<'a>, HostScan>;

/// Answers a query by a trust file that is fed in pieces: `LoginAudit` or `HostAudit`. It holds a
/// matcher and the state after the lines so far.
#[derive(Drop)]
pub struct Audit<T, S: Listing> {
    pieces: Pieces<T, S>,
}

impl<T, S: Listing> Model for Audit<T, S> {
    ghost use Rattle.ssh_trust.specs.declared.search.Pieces.{Pieces};
    ghost use Rattle.ssh_trust.specs.Audit.{IsBounded};

    ghost Value = { Pieces T S };

    ghost view = { λ s. s.pieces };

    ghost invariant = { λ s. IsBounded S.reasons s.pieces };
}

impl<T: Matcher<State = S> + Drop, S: Listing + Drop> Audit<T, S> {
    /// An audit that has taken no piece yet. A login's offer is refused by `A1` to `A6`, a host's
    /// by `A1` to `A5`, before any memory is allocated; `A8` when memory cannot be allocated. The
    /// session and the user of a login must have fewer than 2^32 bytes each.
    pub fn new(alloc: Global, query: &T::Query) -> Result<Audit<T, S>, AuditError>
        requires can_ask { T.can_ask query.now }
        // A refused offer is answered by its first refusal, whether or not memory can be allocated.
        ensures refused { RefusesAs (T.claim query.entry.now) result }
        // Otherwise the audit represents the empty file,
        ensures made { OfClaim (T.claim query.entry.now)
            (λ claim. IfOk result (λ audit. HasAudited T.claimed T.nothing T.add T.most T.least claim audit [])) }
        // or memory could not be allocated.
        ensures else_memory { OfClaim (T.claim query.entry.now)
            (λ claim. OnErr result (result ≡ Err Memory)) }
        // What it stores is bounded.
        ensures bounded { IfOk result (IsBounded S.reasons) }
        // No reader is involved, so there is no read error.
        ensures unread { result ≡ Err Read → ⊥ }
    {
        let matcher = T::read(alloc, query)?;
        let audit = Audit::<T, S>::of_matcher(alloc, matcher)?;
        Ok(audit)
    }

    /// An audit of a claim that has taken no piece yet.
    pub(crate) fn of_matcher(alloc: Global, matcher: T) -> Result<Audit<T, S>, AllocError>
        ensures made { IfOk result (λ audit.
            HasAudited T.claimed T.nothing T.add T.most T.least (T.claimed matcher) audit []) }
        ensures bounded { IfOk result (IsBounded S.reasons) }
    {
        let search = Search::<T, S>::new(alloc, matcher)?;
        Ok(Audit {
            pieces: Pieces::new(alloc, search),
        })
    }

    /// Takes a whole piece. A piece that makes the file longer than 67,108,864 bytes is `A7`, and
    /// `A8` is returned when memory cannot be allocated: after either, every later call returns
    /// `A10`.
    pub fn feed(&mut self, piece: &[u8]) -> Result<(), AuditError>
        // The audit now represents the file with this piece appended.
        ensures taken { OnOk result ((claim : T.Claim) (bytes : List ℕ)
            → HasAudited T.claimed T.nothing T.add T.most T.least claim self.old bytes
            → HasAudited T.claimed T.nothing T.add T.most T.least claim self.new (bytes ++ piece.now)) }
        // A7 is returned exactly past the limit,
        ensures too_long { (claim : T.Claim) (bytes : List ℕ)
            → HasAudited T.claimed T.nothing T.add T.most T.least claim self.old bytes
            → ((result ≡ Err FileTooLong) ↔ (file_limit < length bytes + length piece.now)) }
        // A10 exactly after an earlier refusal,
        ensures failed { (result ≡ Err Failed) ↔ (self.old.failed ≡ true) }
        // and otherwise only the memory error.
        ensures else_memory { (claim : T.Claim) (bytes : List ℕ)
            → HasAudited T.claimed T.nothing T.add T.most T.least claim self.old bytes
            → length bytes + length piece.now ≤ file_limit
            → OnErr result (result ≡ Err Memory) }
        // An empty piece allocates nothing.
        ensures nothing { (claim : T.Claim) (bytes : List ℕ)
            → HasAudited T.claimed T.nothing T.add T.most T.least claim self.old bytes
            → length piece.now ≡ 0
            → IsOk result }
        // After a refusal the audit stays failed.
        ensures left { OnErr result (self.new.failed ≡ true) }
        // What the audit stores is bounded.
        ensures bounded { IsBounded S.reasons self.new }
    {
        self.pieces.feed(piece)?;
        Ok(())
    }

    /// Takes what is left of a reader, up to its end, in reads of at most 4,096 bytes. A failed
    /// read is `A9`, and every later call returns `A10`.
    pub(crate) fn feed_from<R: Source>(&mut self, reader: &mut R) -> Result<(), AuditError>
        // A9 is returned exactly where the last read failed.
        ensures read { result ≡ Err Read → R.failed reader.old reader.new }
        ensures unfailed { (result ≡ Err Read → ⊥) → R.unfailed reader.old reader.new }
        // The audit now represents the file with what the reader gave appended.
        ensures fed { (claim : T.Claim) (bytes : List ℕ)
            → HasAudited T.claimed T.nothing T.add T.most T.least claim self.old bytes
            → IsFedBy (λ given. HasAudited T.claimed T.nothing T.add T.most T.least claim self.new (bytes ++ given))
            (R.left reader.old) (R.left reader.new) (length bytes) result }
        // After a refusal the audit stays failed.
        ensures left { OnErr result (self.new.failed ≡ true) }
        // What the audit stores is bounded.
        ensures bounded { IsBounded S.reasons self.new }
    {
        self.pieces.feed_from(reader)
    }

    /// `finish`, and the matcher steps over all lines, as `matches_counted` counts them: at most
    /// `(len + 1) * w` for a file of `len` bytes. For a login `w` is two more than the bytes of the
    /// client's host name, if known, and of its address text. Only `from` lists take steps: a
    /// certificate's list of sources takes none, and principals are looked up and not matched. For
    /// a host's key `w` is one more than the bytes of the name that the host is looked up by. Only
    /// lists of names take steps: at least as many as that name has bytes where the first line that
    /// admits the key has such a list. A hashed name takes none.
    pub fn finish_counted(self, vouched: &[Signed]) -> Result<(Decision, u128), AuditError>
        // There is no decision after a refused piece.
        ensures failed { self.failed ≡ true → result ≡ Err Failed }
        // A decision has the meaning that is stated for its case.
        ensures means { (claim : T.Claim) (bytes : List ℕ)
            → HasAudited T.claimed T.nothing T.add T.most T.least claim self bytes
            → IfOk result (λ counted. T.means bytes claim vouched.now counted.0) }
        // The whole answer, with cause, reasons and evidence, unless memory could not be allocated.
        ensures answer { (claim : T.Claim) (bytes : List ℕ)
            → HasAudited T.claimed T.nothing T.add T.most T.least claim self bytes
            → GivesOrMemory (if_short bytes (T.decision bytes claim vouched.now)) (decided result) }
        // At most `w` steps for each byte of the file, and `w` for its end,
        ensures most { (claim : T.Claim) (bytes : List ℕ)
            → HasAudited T.claimed T.nothing T.add T.most T.least claim self bytes
            → IfOk result (λ counted. counted.1 ≤ (length bytes + 1) * T.width claim) }
        // and for a host's key at least those of the plain list of names that admits it.
        ensures least { (claim : T.Claim) (bytes : List ℕ)
            → HasAudited T.claimed T.nothing T.add T.most T.least claim self bytes
            → IfOk result (λ counted. T.are_enough bytes claim counted.1) }
    {
        let search = self.pieces.finish()?;
        let counted = search.decide(vouched)?;
        Ok(counted)
    }

    /// Answers by the concatenation of all pieces, as `login` and `host` answer by a whole file.
    /// After a refused piece the answer is `A10`; `A8` when memory cannot be allocated.
    pub fn finish(self, vouched: &[Signed]) -> Result<Decision, AuditError>
        // There is no decision after a refused piece.
        ensures failed { self.failed ≡ true → result ≡ Err Failed }
        // A decision has the meaning that is stated for its case.
        ensures means { (claim : T.Claim) (bytes : List ℕ)
            → HasAudited T.claimed T.nothing T.add T.most T.least claim self bytes
            → IfOk result (T.means bytes claim vouched.now) }
        // The whole answer, with cause, reasons and evidence, unless memory could not be allocated.
        ensures answer { (claim : T.Claim) (bytes : List ℕ)
            → HasAudited T.claimed T.nothing T.add T.most T.least claim self bytes
            → GivesOrMemory (if_short bytes (T.decision bytes claim vouched.now)) result }
    {
        match self.finish_counted(vouched) {
            Ok((decision, _)) => Ok(decision),
            Err(refusal) => Err(refusal),
        }
    }

    /// Answers by a whole file, fed as one piece.
    pub(crate) fn of_file(
        alloc: Global,
        file: &[u8],
        matcher: T,
        vouched: &[Signed],
    ) -> Result<Decision, AuditError>
        ensures means { IfOk result (T.means file.now (T.claimed matcher) vouched.now) }
        ensures answer { GivesOrMemory
            (if_short file.now (T.decision file.now (T.claimed matcher) vouched.now)) result }
    {
        let mut audit = Audit::<T, S>::of_matcher(alloc, matcher)?;
        audit.feed(file)?;
        audit.finish(vouched)
    }

    /// Answers by what is left of a reader.
    pub(crate) fn of_reader<R: Source>(
        alloc: Global,
        reader: &mut R,
        matcher: T,
        vouched: &[Signed],
    ) -> Result<Decision, AuditError>
        ensures read { result ≡ Err Read → R.failed reader.old reader.new }
        ensures unfailed { (result ≡ Err Read → ⊥) → R.unfailed reader.old reader.new }
        ensures means { IfOk result (λ decision.
            HoldsOfRead (R.left reader.old) (R.left reader.new)
            (λ file. T.means file (T.claimed matcher) vouched.now decision)) }
        ensures answer { AnswersReader (R.left reader.old) (R.left reader.new)
            (λ file. if_short file (T.decision file (T.claimed matcher) vouched.now)) result }
    {
        let mut audit = Audit::<T, S>::of_matcher(alloc, matcher)?;
        audit.feed_from(reader)?;
        audit.finish(vouched)
    }
}
