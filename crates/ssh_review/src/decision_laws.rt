//! Laws about rewritten files and reviews: rewriting and hashing keep each decision, and whoever is
//! let in or trusted is so by a line that the review lists.

ghost use Rattle.std.specs.Prelude.{◌≡◌, ◌<◌, ◌≤◌, ◌↔◌, ◌⊎◌, ℕ, List, length, Ok, [], Option, Some};
ghost use Rattle.std.specs.List.{AllByRecursion, filter};
ghost use Rattle.ssh_entries.specs.Names.{IsTwentyBytes};
ghost use Rattle.ssh_rewriting.specs.Answer.{hashed, rewritten};
ghost use Rattle.ssh_rewriting.specs.CanonicalFile.{canonical_auth_file, canonical_known_file};
ghost use Rattle.ssh_rewriting.specs.Facts.{auth_facts, known_facts};
ghost use Rattle.ssh_rewriting.specs.HashedFile.{hashed_facts, names_hidden};
ghost use Rattle.ssh_offers.specs.declared.claim.Signed.{Signed as SignedValue};
ghost use Rattle.ssh_offers.specs.HostClaim.{HostClaim};
ghost use Rattle.ssh_offers.specs.LoginClaim.{LoginClaim};
ghost use Rattle.ssh_trust.specs.Answer.{host_answer, login_answer};
ghost use Rattle.ssh_trust.specs.LoginDecision.{login_decision, IsCandidate, line_verdict};
ghost use Rattle.ssh_trust.specs.HostDecision.{host_decision};
ghost use Rattle.ssh_review.specs.Grants.{FindsShared, Grants, IsRevocationUnreadable, IsRevoked};
ghost use Rattle.ssh_entries.specs.AuthEntry.{AuthEntry};
ghost use Rattle.ssh_entries.specs.AuthGrammar.{auth_line};
ghost use Rattle.ssh_entries.specs.declared.auth_line.AuthLine.TheVariants.{Entry, Unreadable};
ghost use Rattle.ssh_options.specs.declared.option_text.LineCause.{LineCause};
ghost use Rattle.ssh_rights.specs.declared.rights.Rights.{Rights};
ghost use Rattle.ssh_rules.specs.declared.reason.Reason.{Reason as LineReason};
ghost use Rattle.ssh_rules.specs.declared.admission.LineVerdict.TheVariants.{Skips};
ghost use Rattle.ssh_text.specs.Text.{lines_of, numbered};
ghost use Rattle.ssh_trust.specs.declared.decision.Decision.TheVariants.{Granted};
ghost use Rattle.ssh_trust.specs.FileLines.{StandsAt};
ghost use Rattle.ssh_findings.specs.Asking.{Asking};
ghost use Rattle.ssh_review.specs.declared.end.Form.{Form};
ghost use Rattle.ssh_review.specs.declared.records.RecordForm.{RecordForm};
ghost use Rattle.ssh_review.specs.Lines.{counts_of, records_of};
ghost use Rattle.ssh_review.specs.HostListing.{IsHostListed};
ghost use Rattle.ssh_review.specs.HostSpelling.{HasNoMarkerTab};
ghost use Rattle.ssh_review.specs.Listing.{IsListed};
ghost use Rattle.ssh_rules.specs.declared.reason.Reason.TheVariants as reason;
ghost use Rattle.ssh_review.specs.HostLines as hosts;
ghost use Rattle.ssh_review.specs.Readable.{is_kept_line, readable_file};
ghost use Rattle.ssh_review.specs.ReadableDecisions.{IsAnsweredAlike, IsKeptGrant};

/// A decision on a login depends on a file only through what its lines are read as. So a rewritten
/// file has the same answer as the file that it was made from.
fn login_rewritten_rule()
    // Files whose lines are read alike, line by line, decide alike.
    ensures facts { (file other : List ℕ) (claim : LoginClaim) (vouched : List SignedValue)
        → auth_facts file ≡ auth_facts other
        → login_decision file claim vouched ≡ login_decision other claim vouched }
    // So the canonical file decides as the file does, whatever its length.
    ensures canonical { (file : List ℕ) (claim : LoginClaim) (vouched : List SignedValue)
        → AllByRecursion (λ c. c < 256) file
        → login_decision (canonical_auth_file file) claim vouched
        ≡ login_decision file claim vouched }
    // If both are within the limit, that decision is the answer of both.
    ensures answer { (file new : List ℕ) (claim : LoginClaim) (vouched : List SignedValue)
        → AllByRecursion (λ c. c < 256) file
        → rewritten file (canonical_auth_file file) ≡ Ok new
        → (login_answer file claim vouched ≡ Ok (login_decision file claim vouched))
        × (login_answer new claim vouched ≡ Ok (login_decision file claim vouched)) }
{}

/// The file of the readable entries (`readable_auth`) lets in nobody whom the file does not. It may
/// leave somebody out, or let a later line decide, but only where the first line that admits the
/// login is one that is left out.
fn readable_rule()
    // Line by line the new file is read as the lines that are kept, in their order.
    ensures facts { (file : List ℕ)
        → AllByRecursion (λ c. c < 256) file
        → auth_facts (readable_file file) ≡ filter is_kept_line (auth_facts file) }
    // A login is answered as by the file, but for line numbers, or by a line that is left out.
    ensures answered { (file : List ℕ) (claim : LoginClaim) (vouched : List SignedValue)
        → AllByRecursion (λ c. c < 256) file
        → IsAnsweredAlike file (readable_file file) claim vouched }
    // Whatever the new file grants, a line of the file admits that is kept.
    ensures grants { (file : List ℕ) (claim : LoginClaim) (vouched : List SignedValue) (n : ℕ)
        (rights : Option Rights) (reasons : List (ℕ × LineReason)) (evidence : List SignedValue)
        → AllByRecursion (λ c. c < 256) file
        → login_decision (readable_file file) claim vouched ≡ Granted n rights reasons evidence
        → IsKeptGrant file claim }
{}

/// The same of rewriting for a host's key, and for revocations.
fn host_rewritten_rule()
    // Files whose lines are read alike, line by line, decide alike.
    ensures facts { (file other : List ℕ) (claim : HostClaim) (vouched : List SignedValue)
        → known_facts file ≡ known_facts other
        → host_decision file claim vouched ≡ host_decision other claim vouched }
    // So the canonical file decides as the file does, whatever its length.
    ensures canonical { (file : List ℕ) (claim : HostClaim) (vouched : List SignedValue)
        → AllByRecursion (λ c. c < 256) file
        → host_decision (canonical_known_file file) claim vouched
        ≡ host_decision file claim vouched }
    // If both are within the limit, that decision is the answer of both.
    ensures answer { (file new : List ℕ) (claim : HostClaim) (vouched : List SignedValue)
        → AllByRecursion (λ c. c < 256) file
        → rewritten file (canonical_known_file file) ≡ Ok new
        → (host_answer file claim vouched ≡ Ok (host_decision file claim vouched))
        × (host_answer new claim vouched ≡ Ok (host_decision file claim vouched)) }
{}

/// A file with hashed host names decides on a host's key as the file that it was made from, but for
/// line numbers. No host and no revocation is lost. A host is added only if two names have the same
/// hash under one salt.
fn host_hashed_rule()
    // What the file grants, the hashed file grants, if each name has a salt.
    ensures keeps { (file new : List ℕ) (salts : List (List ℕ)) (claim : HostClaim) (vouched : List SignedValue)
        → known_facts new ≡ hashed_facts (known_facts file) salts
        → length (names_hidden file) ≤ length salts
        → Grants file claim vouched → Grants new claim vouched }
    // What the hashed file grants, the file grants, unless the name looked up has the hash of
    // another name under one salt.
    ensures adds_none { (file new : List ℕ) (salts : List (List ℕ)) (claim : HostClaim) (vouched : List SignedValue)
        → known_facts new ≡ hashed_facts (known_facts file) salts
        → Grants new claim vouched
        → Grants file claim vouched ⊎ FindsShared file salts new claim }
    // A key is revoked in both files or in neither.
    ensures revoked { (file new : List ℕ) (salts : List (List ℕ)) (claim : HostClaim) (vouched : List SignedValue)
        → known_facts new ≡ hashed_facts (known_facts file) salts
        → IsRevoked (host_decision file claim vouched) ↔ IsRevoked (host_decision new claim vouched) }
    // A line that cannot be read and may revoke any key is in both files or in neither.
    ensures unreadable_revocation { (file new : List ℕ) (salts : List (List ℕ)) (claim : HostClaim) (vouched : List SignedValue)
        → known_facts new ≡ hashed_facts (known_facts file) salts
        → IsRevocationUnreadable (host_decision file claim vouched) ↔ IsRevocationUnreadable (host_decision new claim vouched) }
    // The result of `hash` is such a file,
    ensures premises { (file new : List ℕ) (salts : List (List ℕ))
        → AllByRecursion (λ c. c < 256) file
        → AllByRecursion IsTwentyBytes salts
        → hashed file salts ≡ Ok new
        → (known_facts new ≡ hashed_facts (known_facts file) salts)
        × (length (names_hidden file) ≤ length salts) }
    // and both files are within the limit, so each is answered by its decision.
    ensures answer { (file new : List ℕ) (salts : List (List ℕ)) (claim : HostClaim)
        (vouched : List SignedValue)
        → hashed file salts ≡ Ok new
        → (host_answer file claim vouched ≡ Ok (host_decision file claim vouched))
        × (host_answer new claim vouched ≡ Ok (host_decision new claim vouched)) }
{}

/// Whoever is let in is let in by a line that the review lists.
fn listed_rule()
    // The line of a granted login has a record, no earlier line shadows it, and the record has its
    // rights.
    ensures listed { (form : Form) (asking : Asking) (name file : List ℕ) (claim : LoginClaim)
        (vouched : List SignedValue) (n : ℕ) (rights : Option Rights)
        (reasons : List (ℕ × LineReason)) (evidence : List SignedValue)
        → AllByRecursion (λ c. c < 256) file
        → login_decision file claim vouched ≡ Granted n rights reasons evidence
        → IsListed form asking name file claim n rights }
    // A line without an entry lets nobody in: so a line without a record or one that cannot be
    // read.
    ensures unlisted { (file : List ℕ) (claim : LoginClaim) (i : ℕ) (line : List ℕ) (e : AuthEntry)
        → StandsAt file i line
        → ((f : AuthEntry) → auth_line line ≡ Entry f → ⊥)
        → IsCandidate file claim i e → ⊥ }
    // A line with the finding F1 has the reason G1, with the same cause, for every login.
    ensures caused { (claim : LoginClaim) (line : List ℕ) (cause : LineCause)
        → auth_line line ≡ Unreadable cause
        → line_verdict claim line ≡ Skips (Some (reason.Unreadable cause)) }
{}

/// A trusted host's key is trusted by a line that the review lists, and the review finds nothing
/// that revokes it: no F12 of that line or of a revocation for its key, and no F10.
fn trusted_rule()
    ensures { (form : Form) (asking : Asking) (name file : List ℕ) (claim : HostClaim)
        (vouched : List SignedValue) (n : ℕ) (rights : Option Rights)
        (reasons : List (ℕ × LineReason)) (evidence : List SignedValue)
        → AllByRecursion (λ c. c < 256) file
        → host_decision file claim vouched ≡ Granted n rights reasons evidence
        → IsHostListed form asking name file n }
{}

/// The review of a file and that of its canonical file are the same, but for the SHA-256 of the
/// bytes.
fn spelled_alike_rule()
    ensures records { (form : RecordForm) (asking : Asking) (name file : List ℕ)
        → AllByRecursion (λ c. c < 256) file
        → records_of form asking name [] (numbered 1 (lines_of (canonical_auth_file file)))
        ≡ records_of form asking name [] (numbered 1 (lines_of file)) }
    ensures counts { (asking : Asking) (file : List ℕ)
        → AllByRecursion (λ c. c < 256) file
        → counts_of asking [] (numbered 1 (lines_of (canonical_auth_file file)))
        ≡ counts_of asking [] (numbered 1 (lines_of file)) }
{}

/// The review of a `known_hosts` file and that of its canonical file are the same, if no tab
/// follows the marker of an entry. F8 reports such a tab, and a canonical line has a space there.
/// (A revocation is in the canonical file as it is, and so is its F8.)
fn hosts_spelled_alike_rule()
    ensures records { (form : RecordForm) (asking : Asking) (name file : List ℕ)
        → AllByRecursion (λ c. c < 256) file
        → HasNoMarkerTab file
        → hosts.host_records_of form asking name [] (numbered 1 (lines_of (canonical_known_file file)))
        ≡ hosts.host_records_of form asking name [] (numbered 1 (lines_of file)) }
    ensures counts { (asking : Asking) (file : List ℕ)
        → AllByRecursion (λ c. c < 256) file
        → HasNoMarkerTab file
        → hosts.host_counts_of asking [] (numbered 1 (lines_of (canonical_known_file file)))
        ≡ hosts.host_counts_of asking [] (numbered 1 (lines_of file)) }
{}
