//! Laws about the rows of the page, proved of functions without a body.

ghost use Rattle.std.specs.Prelude.{◌≡◌, ◌<◌, ◌≤◌, ◌^◌, ℕ, List, Option, length};
ghost use Rattle.std.specs.List.{AllByRecursion};
ghost use Rattle.ssh_findings.specs.Asking.{Asking};
ghost use Rattle.ssh_findings.specs.Earlier.{Held};
ghost use Rattle.ssh_findings.specs.FindingRows.{FindingRow};
ghost use Rattle.ssh_findings.specs.HostLines.{HostLine};
ghost use Rattle.ssh_findings.specs.declared.code.Code.{Code};
ghost use Rattle.ssh_findings.specs.declared.facts.Facts.{Facts};
ghost use Rattle.ssh_findings.specs.declared.finding.Finding.{Finding};
ghost use Rattle.ssh_findings.specs.declared.host_facts.HostFacts.{HostFacts};
ghost use Rattle.ssh_findings.specs.declared.host_finding.HostFinding.{HostFinding};
ghost use Rattle.ssh_findings.specs.declared.recovered_key.HeldKey.{HeldKey};
ghost use Rattle.ssh_offers.specs.declared.claim.Signed.{Signed};
ghost use Rattle.ssh_offers.specs.HostClaim.{HostClaim};
ghost use Rattle.ssh_offers.specs.LoginClaim.{LoginClaim};
ghost use Rattle.ssh_page.specs.Documents.{IsOfBytes, marks};
ghost use Rattle.ssh_page.specs.Findings.{finding_part};
ghost use Rattle.ssh_page.specs.FoundRows.{HasPlaces};
ghost use Rattle.ssh_page.specs.HostRecords.{bare_row, host_entry_row, revoked_row};
ghost use Rattle.ssh_page.specs.KeyRows.{HasKeyRows};
ghost use Rattle.ssh_page.specs.Records.{entry_row, unreadable_row};
ghost use Rattle.ssh_page.specs.declared.file.FileKind.{FileKind};
ghost use Rattle.ssh_page.specs.declared.record.RowPlace.{RowPlace};
ghost use Rattle.ssh_rights.specs.declared.rights.Rights.{Rights};
ghost use Rattle.ssh_rules.specs.declared.reason.Reason.{Reason};
ghost use Rattle.ssh_text.specs.Text.{file_limit};
ghost use Rattle.ssh_trust.specs.HostDecision.{host_decision};
ghost use Rattle.ssh_trust.specs.LoginDecision.{login_decision};
ghost use Rattle.ssh_trust.specs.declared.decision.Decision.TheVariants.{Granted};
ghost use Rattle.ssh_review.specs.HostLines.{host_records_of};
ghost use Rattle.ssh_review.specs.HostRows.{host_rows_of};
ghost use Rattle.ssh_review.specs.Lines.{records_of};
ghost use Rattle.ssh_review.specs.PageFiles.{file_rows, file_section};
ghost use Rattle.ssh_review.specs.PageKeys.{file_key_rows};
ghost use Rattle.ssh_review.specs.PageListing.{HasHostRow, HasRow};
ghost use Rattle.ssh_review.specs.PagePlaces.{file_places};
ghost use Rattle.ssh_review.specs.PageWords.{IsPlain, bare_words, entry_words, host_entry_words, linked_line, revoked_words, unreadable_words, words_on};
ghost use Rattle.ssh_review.specs.Rows.{rows_of};
ghost use Rattle.ssh_review.specs.declared.records.RecordForm.TheVariants.{AsRow};

/// Each record is one row, in the order of the lines: what is written of a file is the marked text of
/// its rows.
fn rows_rule()
    ensures login { (file : ℕ) (asking : Asking) (name : List ℕ) (earlier : List Held)
        (lines : List (ℕ × List ℕ))
        → records_of (AsRow file) asking name earlier lines ≡ marks (rows_of file asking earlier lines) }
    ensures host { (file : ℕ) (asking : Asking) (name : List ℕ) (earlier : List HostLine)
        (lines : List (ℕ × List ℕ))
        → host_records_of (AsRow file) asking name earlier lines
        ≡ marks (host_rows_of file asking earlier lines) }
{}

/// What the text form tells of a finding or a line, its row of the page tells in the same words.
fn words_rule()
    ensures finding { (file : ℕ) (r : FindingRow) → words_on (finding_part file r) ≡ linked_line r }
    ensures entry { (place : RowPlace) (f : Facts) (found : List Finding)
        → words_on (entry_row place f found) ≡ entry_words place.line f found }
    ensures unreadable { (place : RowPlace) (held : Option HeldKey) (found : List Finding)
        → words_on (unreadable_row place held found) ≡ unreadable_words place.line held found }
    ensures host_entry { (place : RowPlace) (f : HostFacts) (found : List HostFinding)
        → words_on (host_entry_row place f found) ≡ host_entry_words place.line f found }
    ensures revoked { (place : RowPlace) (fingerprint names : List ℕ) (found : List HostFinding)
        → words_on (revoked_row place fingerprint names found)
        ≡ revoked_words place.line fingerprint names found }
    ensures bare { (place : RowPlace) (is : List ℕ) (held : Option HeldKey) (found : List HostFinding)
        → words_on (bare_row place is held found) ≡ bare_words place.line is held found }
{}

/// The words of the program in the rows of a file are written as they are: escaping leaves them as they
/// stand in the text form.
fn plain_rule()
    ensures login { (file : ℕ) (asking : Asking) (earlier : List Held) (lines : List (ℕ × List ℕ))
        → IsPlain (rows_of file asking earlier lines) }
    ensures host { (file : ℕ) (asking : Asking) (earlier : List HostLine) (lines : List (ℕ × List ℕ))
        → IsPlain (host_rows_of file asking earlier lines) }
{}

/// Whoever is let in or trusted is so by a line that has a row in the file's section.
fn row_listed_rule()
    ensures login { (asking : Asking) (number : ℕ) (file : List ℕ) (claim : LoginClaim)
        (vouched : List Signed) (n : ℕ) (rights : Option Rights) (reasons : List (ℕ × Reason))
        (evidence : List Signed)
        → AllByRecursion (λ c. c < 256) file
        → login_decision file claim vouched ≡ Granted n rights reasons evidence
        → HasRow asking number file n }
    ensures host { (asking : Asking) (number : ℕ) (file : List ℕ) (claim : HostClaim)
        (vouched : List Signed) (n : ℕ) (rights : Option Rights) (reasons : List (ℕ × Reason))
        (evidence : List Signed)
        → AllByRecursion (λ c. c < 256) file
        → host_decision file claim vouched ≡ Granted n rights reasons evidence
        → HasHostRow asking number file n }
{}

/// The lines of a file that have a key are the rows that the list of keys is made of, each once and in
/// their order, where all texts are bytes.
fn listed_keys_rule()
    ensures { (kind : FileKind) (number : ℕ) (asking : Asking) (name file : List ℕ)
        → number < 2 ^ 64
        → length file ≤ file_limit
        → IsOfBytes (file_rows kind number asking file)
        → IsOfBytes (file_section kind number asking name file)
        → HasKeyRows (file_section kind number asking name file)
        (file_key_rows kind number asking file) }
{}

/// The lines of a file that a page lists under a code are those that have a finding of it, each once
/// and in their order, where all texts are bytes.
fn listed_places_rule()
    ensures { (kind : FileKind) (c : Code) (number : ℕ) (asking : Asking) (name file : List ℕ)
        → number < 2 ^ 64
        → length file ≤ file_limit
        → IsOfBytes (file_rows kind number asking file)
        → IsOfBytes (file_section kind number asking name file)
        → HasPlaces c (file_section kind number asking name file)
        (file_places kind c number asking file) }
{}
