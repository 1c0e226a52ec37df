//! Laws about the review for one key, proved of functions without a body.

ghost use Rattle.std.specs.Prelude.{◌≡◌, ◌↔◌, ℕ, true, [], List};
ghost use Rattle.std.specs.List.{filter, flat_map};
ghost use Rattle.ssh_entries.specs.AuthGrammar.{auth_line};
ghost use Rattle.ssh_entries.specs.KnownGrammar.{known_line};
ghost use Rattle.ssh_findings.specs.Asking.{Asking};
ghost use Rattle.ssh_findings.specs.Earlier.{Held};
ghost use Rattle.ssh_findings.specs.HostLines.{HostLine};
ghost use Rattle.ssh_keys.specs.Fingerprint.{fingerprint_of};
ghost use Rattle.ssh_keys.specs.PublicKey.{IsKey};
ghost use Rattle.ssh_offers.specs.declared.claim.Signed.{Signed};
ghost use Rattle.ssh_offers.specs.LoginClaim.{LoginClaim};
ghost use Rattle.ssh_offers.specs.Offer.{subject};
ghost use Rattle.ssh_entries.specs.AuthEntry.{AuthEntry};
ghost use Rattle.ssh_findings.specs.KeyRead.{key_read};
ghost use Rattle.ssh_trust.specs.LoginDecision.{IsGrant};
ghost use Rattle.ssh_review.specs.declared.end.Form.{Form};
ghost use Rattle.ssh_review.specs.declared.records.RecordForm.{RecordForm};
ghost use Rattle.ssh_review.specs.HostKeyRecords.{host_holds_key, host_key_records_of};
ghost use Rattle.ssh_review.specs.HostLines.{host_records_of};
ghost use Rattle.ssh_review.specs.KeyListing.{HostStands, Stands, host_records_apart, records_apart};
ghost use Rattle.ssh_review.specs.KeyRecords.{holds_key, key_records_of};
ghost use Rattle.ssh_review.specs.KeyReviews.{host_whole_key_review, whole_key_review};
ghost use Rattle.ssh_review.specs.Lines.{records_of};

/// The review for one key prints the records that the whole review prints of the lines that hold it,
/// and no others.
fn key_rule()
    // What the whole review prints of each line, one after the other, is all of its records.
    ensures all { (form : RecordForm) (asking : Asking) (name : List ℕ) (earlier : List Held)
        (lines : List (ℕ × List ℕ))
        → records_of form asking name earlier lines
        ≡ flat_map (λ r. r.1) (records_apart form asking name earlier lines) }
    // Those of the lines that hold the key are the records of the review for it.
    ensures of_key { (fingerprint : List ℕ) (form : RecordForm) (asking : Asking) (name : List ℕ)
        (earlier : List Held) (lines : List (ℕ × List ℕ))
        → key_records_of fingerprint form asking name earlier lines
        ≡ flat_map (λ r. r.1) (filter (λ r. holds_key fingerprint (r.0).1 (auth_line (r.0).1))
        (records_apart form asking name earlier lines)) }
    // The key is said to stand in the file exactly where a line holds it,
    ensures stands { (fingerprint : List ℕ) (form : Form) (asking : Asking) (name file : List ℕ)
        → ((whole_key_review fingerprint form asking name file).stands ≡ true)
        ↔ Stands fingerprint file }
    // as the line of each login holds the key that the login rests on.
    ensures granted { (file : List ℕ) (claim : LoginClaim) (vouched : List Signed) (n : ℕ)
        (e : AuthEntry)
        → IsKey (subject claim.offer)
        → IsGrant file claim vouched n e
        → Stands (fingerprint_of (key_read (subject claim.offer))) file }
{}

/// The same of a `known_hosts` file, where also a line that revokes the key holds it.
fn host_key_rule()
    ensures all { (form : RecordForm) (asking : Asking) (name : List ℕ) (earlier : List HostLine)
        (lines : List (ℕ × List ℕ))
        → host_records_of form asking name earlier lines
        ≡ flat_map (λ r. r.1) (host_records_apart form asking name earlier lines) }
    ensures of_key { (fingerprint : List ℕ) (form : RecordForm) (asking : Asking) (name : List ℕ)
        (earlier : List HostLine) (lines : List (ℕ × List ℕ))
        → host_key_records_of fingerprint form asking name earlier lines
        ≡ flat_map (λ r. r.1) (filter (λ r. host_holds_key fingerprint (r.0).1 (known_line (r.0).1))
        (host_records_apart form asking name earlier lines)) }
    ensures stands { (fingerprint : List ℕ) (form : Form) (asking : Asking) (name file : List ℕ)
        → ((host_whole_key_review fingerprint form asking name file).stands ≡ true)
        ↔ HostStands fingerprint file }
{}
