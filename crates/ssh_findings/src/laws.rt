//! Laws of the definitions, and worked examples. The check proves what each function ensures; no
//! code calls them.

ghost use Rattle.std.specs.Prelude.{◌≡◌, ℕ, false, true, List, None, Some, ◌≤◌, ◌==◌, ◌&&◌, ◌+◌, Bool, length};
ghost use Rattle.jiff.specs.Types.{TimeZone};
ghost use Rattle.ssh_options.specs.declared.option.ValueName.TheVariants.{Principals};
ghost use Rattle.ssh_options.specs.Settings.{setting};
ghost use Rattle.ssh_entries.specs.AuthEntry.{AuthEntry};
ghost use Rattle.ssh_offers.specs.LoginClaim.{LoginClaim};
ghost use Rattle.ssh_rules.specs.Admission.{AdmitsLogin, is_authority};
ghost use Rattle.ssh_keys.specs.Fingerprint.{IsRsaSize};
ghost use Rattle.ssh_keys.specs.PublicKey.{PublicKey, key_blob};
ghost use Rattle.ssh_findings.specs.CodeCounts.{counted, findings_in, no_codes, number_of, plus_codes, times};
ghost use Rattle.ssh_findings.specs.Findings.{code_of};
ghost use Rattle.ssh_findings.specs.HostFindingsFindings.{host_code_of};
ghost use Rattle.ssh_findings.specs.declared.code.Code.{Code};
ghost use Rattle.ssh_findings.specs.declared.code_counts.CodeCounts.{CodeCounts};
ghost use Rattle.ssh_findings.specs.declared.finding.Finding.{Finding};
ghost use Rattle.ssh_findings.specs.declared.host_finding.HostFinding.{HostFinding};
ghost use Rattle.ssh_findings.specs.Earlier.{Held, held_entry, is_free, repeat_after, shadow};
ghost use Rattle.ssh_findings.specs.EntryFindings.{lets_nobody_in, names_nobody, permits_bad, refuses_all_in};
ghost use Rattle.ssh_findings.specs.declared.facts.Facts.{Facts as FactsValue};
ghost use Rattle.ssh_findings.specs.Facts.{facts_of, rsa_size};
ghost use Rattle.ssh_findings.specs.OpenSsh.{may_refuse};
ghost use Rattle.ssh_findings.specs.Shadows.{IsFree, IsSame, NamesFirst};
ghost use Rattle.ssh_findings.specs.HeldKey.{held_key, read_part};
ghost use Rattle.ssh_findings.specs.Stands.{StandsOutside};
ghost use Rattle.std.specs.List.{AllByRecursion, list_any};
ghost use Rattle.ssh_entries.specs.KnownEntry.{KnownEntry};
ghost use Rattle.ssh_offers.specs.HostClaim.{HostClaim};
ghost use Rattle.ssh_host_rules.specs.HostAdmission.{AdmitsHost};
ghost use Rattle.ssh_host_rules.specs.Revocation.{is_key_or_signer};
ghost use Rattle.ssh_findings.specs.HostLines.{HostLine};
ghost use Rattle.ssh_findings.specs.Least.{least_line};
ghost use Rattle.ssh_findings.specs.HostFindingsEarlier.{revoking_line};
ghost use Rattle.ssh_findings.specs.Revoked.{revokes};
ghost use Rattle.ssh_findings.specs.Samples.{FormsSeen, ListsSeen};
ghost use Rattle.ssh_findings.specs.HeldKeysSamples.{ApplicationsRead, CertifiedRead, DecoysReported, HostsReported, SpellingsRead};
ghost use Rattle.ssh_findings.specs.HostFindingsSamples.{EntriesFound, RevocationsFound};

/// A line that an earlier one with the same key shadows never decides a login: the earlier one
/// admits whatever it admits.
fn shadowed_rule()
    // An earlier unlimited line (`IsFree`) admits all that a later one with the same key admits,
    // unless the later one is an authority's with its own principals.
    ensures shadowed { (e d : AuthEntry) (claim : LoginClaim)
        → IsSame e d
        → IsFree d
        → (is_authority e ≡ true → setting Principals e.options ≡ None)
        → AdmitsLogin e claim
        → AdmitsLogin d claim }
    // A line that passes the test `is_free` is unlimited.
    ensures free { (zone : TimeZone) (d : AuthEntry)
        → is_free (facts_of zone d) ≡ true
        → IsFree d }
    // So the line that F3 and F4 name for another admits all that the other admits.
    ensures named { (zone : TimeZone) (earlier : List Held) (e d : AuthEntry) (n : ℕ) (claim : LoginClaim)
        → shadow earlier (key_blob e.key) (facts_of zone e) ≡ Some (held_entry zone n d)
        → AdmitsLogin e claim
        → AdmitsLogin d claim }
    // OpenSSH has no known reason to refuse that line.
    ensures unrefused { (earlier : List Held) (blob : List ℕ) (f : FactsValue) (d : Held)
        → shadow earlier blob f ≡ Some d
        → may_refuse d.facts ≡ false }
    // F3 and F4 name no other line.
    ensures reported { (earlier : List Held) (blob : List ℕ) (f : FactsValue) (n : ℕ)
        → NamesFirst (repeat_after earlier blob f) n
        → (d : Held) × (shadow earlier blob f ≡ Some d) × (d.line ≡ n) }
{}

/// A line with finding F7 admits nobody.
fn nobody_rule()
    ensures sources { (zone : TimeZone) (e : AuthEntry) (claim : LoginClaim)
        → permits_bad (facts_of zone e).from ≡ true
        → ¬ AdmitsLogin e claim }
    // Where F7 states that a `from` list permits nobody, that is so in OpenSSH too: an item of it
    // is empty, or has bits set past its length.
    ensures there { (f : FactsValue)
        → lets_nobody_in f ≡ true
        → (permits_bad f.from ≡ true) × (refuses_all_in f.from ≡ true) }
    ensures principals { (zone : TimeZone) (e : AuthEntry) (claim : LoginClaim)
        → names_nobody (facts_of zone e) ≡ true
        → ¬ AdmitsLogin e claim }
{}

/// The size that a review reports for an RSA key is the least number of binary digits of its
/// modulus.
fn size_rule()
    ensures { (key : PublicKey) → IsRsaSize key (rsa_size key) }
{}

/// A key that is recovered from an authorized_keys line is outside quotes, at its front or after
/// its options: text between quotes is never reported as a key.
fn reported_rule()
    ensures { (line : List ℕ) (key : PublicKey)
        → held_key line ≡ Some key
        → StandsOutside (read_part line) key }
{}

/// The line that a finding names is one that it concerns, and no such line comes before it. If it
/// names none, there is no such line.
fn least_rule()
    ensures found { (test : HostLine → Bool) (lines : List HostLine) (k : ℕ)
        → least_line test lines ≡ Some k
        → list_any (λ d. test d && (d.line == k)) lines ≡ true }
    ensures least { (test : HostLine → Bool) (lines : List HostLine) (k : ℕ)
        → least_line test lines ≡ Some k
        → AllByRecursion (λ d. test d ≡ true → k ≤ d.line) lines }
    ensures none { (test : HostLine → Bool) (lines : List HostLine)
        → least_line test lines ≡ None
        → AllByRecursion (λ d. test d ≡ false) lines }
{}

/// A key with finding F12 admits no host: whatever an entry with it admits is revoked.
fn both_rule()
    // The line that F12 names for an entry revokes all that the entry admits.
    ensures trusted_then { (earlier : List HostLine) (e : KnownEntry) (claim : HostClaim) (k : ℕ)
        → revoking_line earlier (key_blob e.key) ≡ Some k
        → AdmitsHost e claim
        → list_any (λ d. revokes claim.offer d && (d.line == k)) earlier ≡ true }
    // A line that revokes the key of an entry, before or after it, revokes all that it admits.
    ensures revoked_then { (bytes : List ℕ) (e : KnownEntry) (claim : HostClaim)
        → bytes ≡ key_blob e.key
        → AdmitsHost e claim
        → is_key_or_signer claim.offer bytes ≡ true }
    // So an entry has no F12 if it admits something that no earlier line revokes.
    ensures granted { (earlier : List HostLine) (e : KnownEntry) (claim : HostClaim)
        → AllByRecursion (λ d. revokes claim.offer d ≡ false) earlier
        → AdmitsHost e claim
        → revoking_line earlier (key_blob e.key) ≡ None }
{}

/// How often each code is reported: as often as findings have it, in a sum as often as in both. All
/// numbers together are the number of findings.
fn code_counts_rule()
    ensures none { (c : Code) → number_of no_codes c ≡ 0 }
    ensures counted { (found : List Finding) (c : Code)
        → number_of (counted code_of found) c ≡ times code_of found c }
    ensures hosts { (found : List HostFinding) (c : Code)
        → number_of (counted host_code_of found) c ≡ times host_code_of found c }
    ensures plus { (a b : CodeCounts) (c : Code)
        → number_of (plus_codes a b) c ≡ number_of a c + number_of b c }
    ensures all { (found : List Finding) → findings_in (counted code_of found) ≡ length found }
{}

/// Which option values sshd accepts.
fn forms_as_seen()
    ensures { FormsSeen }
{}

/// Which lists permit nobody in sshd, and which items it may read as addresses.
fn lists_as_seen()
    ensures { ListsSeen }
{}

/// The keys that are recovered from worked lines.
fn lines_as_reported()
    ensures decoys { DecoysReported }
    ensures hosts { HostsReported }
    ensures spellings { SpellingsRead }
    ensures applications { ApplicationsRead }
    ensures certified { CertifiedRead }
{}

/// The findings of worked lines.
fn lines_as_found()
    ensures entries { EntriesFound }
    ensures revocations { RevocationsFound }
{}
