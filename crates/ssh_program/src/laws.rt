//! Laws of the definitions, and worked examples: the check proves what each function ensures. No call
//! needs them.

ghost use Rattle.std.specs.Prelude.{◌≡◌, ◌++◌, ℕ, List, Option, Ok, Result, codes, Some, length, slice_get};
ghost use Rattle.std.specs.Fmt.{decimal};
ghost use Rattle.std.specs.List.{AllByRecursion};
ghost use Rattle.ssh_bodies.specs.Sshsig.{Sshsig, digest_of};
ghost use Rattle.ssh_program.specs.Digests.{answer_by_digest};
ghost use Rattle.ssh_trust.specs.SshsigAnswer.{sshsig_answer};
ghost use Rattle.ssh_offers.specs.declared.claim.Signed.{Signed as SignedValue, Signed};
ghost use Rattle.ssh_offers.specs.Query.{HostCheck, Login as LoginAsked, Login};
ghost use Rattle.ssh_print.specs.DecisionText.{evidence_line};
ghost use Rattle.ssh_files.specs.SourceState.{SourceState};
ghost use Rattle.ssh_files.specs.declared.files.UnreadCause.{UnreadCause};
ghost use Rattle.ssh_files.specs.VouchFile.{vouched_of};
ghost use Rattle.ssh_program.specs.FileNames.{AuditFiles};
ghost use Rattle.ssh_program.specs.FilesFrom.{NamesBehind, OperandsBehind};
ghost use Rattle.ssh_program.specs.Audits.{audit_response, host_by, login_by};
ghost use Rattle.ssh_program.specs.Granting.{HostBytes, HostDenied, HostGranted, LoginBytes, LoginDenied, LoginGranted, TrustsBytes};
ghost use Rattle.ssh_program.specs.VouchLines.{HasBytes, vouch_file, vouch_line};
ghost use Rattle.ssh_entries.specs.AuthGrammar.{auth_line};
ghost use Rattle.ssh_entries.specs.declared.auth_line.AuthLine.TheVariants.{Unreadable};
ghost use Rattle.ssh_offers.specs.LoginClaim.{LoginClaim, login_claim};
ghost use Rattle.ssh_options.specs.declared.option_text.LineCause.{LineCause};
ghost use Rattle.ssh_text.specs.Text.{lines_of};
ghost use Rattle.ssh_print.specs.Denials.{HoldsAnother};
ghost use Rattle.ssh_print.specs.PossibleLines.{wanted_blob};
ghost use Rattle.ssh_program.specs.Admissions.{status_by};
ghost use Rattle.ssh_review.specs.FileNames.{NameSeen};
ghost use Rattle.ssh_program.specs.declared.decision_form.DecisionForm.{DecisionForm};
ghost use Rattle.ssh_review.specs.declared.end.Form.{Form};
ghost use Rattle.ssh_program.specs.Clients.{login_asking};
ghost use Rattle.ssh_trust.specs.declared.decision.Decision.{Decision as DecisionValue};
ghost use Rattle.ssh_keys.specs.Fingerprint.{digest_text_of};
ghost use Rattle.ssh_offers.specs.FirstRefusal.{AreBytes};
ghost use Rattle.ssh_program.specs.FingerprintSamples.{FingerprintsRead};
ghost use Rattle.ssh_program.specs.FingerprintValues.{fingerprint_bytes};
ghost use Rattle.ssh_program.specs.FileSamples.{FaultsInOrder, HashFaultsInOrder, RewriteKinds, SignatureFaultsInOrder, TrustFilesLeft, VouchFilesReported, VouchFilesWritten};
ghost use Rattle.jiff.specs.Types.{TimeZone as Zone};
ghost use Rattle.ssh_program.specs.DefaultSamples.{HostsReported, OthersReported, ReviewZonesRead, ReviewsReported};
ghost use Rattle.ssh_program.specs.NameListSamples.{ListsNamed, NamesReported, WordsListed};
ghost use Rattle.ssh_program.specs.Samples.{HostValuesInOrder, LoginAsksMore, LoginSpelled, LoginValuesInOrder, ShowKinds, TextsOfFiles};
ghost use Rattle.ssh_program.specs.ArgsSamples.{HostsAsked, KeyPlacesAsked, KeysAsked, LoginsAsked, OthersAsked, ReviewsAsked, TextsAsked, UsageReported, WordsRefused};
ghost use Rattle.ssh_findings.specs.Asking.{Asking};
ghost use Rattle.ssh_program.specs.FileReviews.{Lines, lines_before, telling_review, with_file};
ghost use Rattle.ssh_review.specs.declared.show.Show.{Show as Shown};
ghost use Rattle.ssh_program.specs.PageReviews.{CountsAs, PageSofar, no_page, telling_given, with_given};
ghost use Rattle.ssh_program.specs.declared.review.ReviewKind.{ReviewKind};
ghost use Rattle.ssh_program.specs.AnswerSamples.{AdmitsSpelled, FingerprintsRefused, OutcomesSummed, StatusesReported, TrustsSpelled};

/// What is printed of a signature is, after its number, a line of a vouch file; and a vouch file of
/// such lines vouches for exactly these signatures.
fn evidence_rule()
    ensures line { (n : ℕ) (s : SignedValue)
        → evidence_line n s ≡ codes "evidence " ++ decimal n ++ codes " " ++ vouch_line s
        ++ codes "\n" }
    ensures back { (evidence : List SignedValue) → AllByRecursion HasBytes evidence
        → vouched_of (vouch_file evidence) ≡ Ok evidence }
{}

/// What is answered to a file signature depends on the message by its digest alone, so the message
/// is hashed as it is read.
fn signature_rule()
    ensures { (v : Sshsig) (message namespace : List ℕ) (vouched : List SignedValue)
        → sshsig_answer v message namespace vouched
        ≡ answer_by_digest v (digest_of v.hash message) namespace vouched }
{}

/// An answer with status 0 is a grant: of a login or of a host's key, by a line of the trust file
/// that meets all conditions, where the vouch file vouches for all that it rests on. One with status
/// 1 is a denial: there is no such line. The text is that grant's, or that denial's with its cause.
fn granted_rule()
    // What is answered to what is asked of these files.
    ensures asked_login { (q : LoginAsked) (f : AuditFiles) (s : SourceState) → LoginBytes q → TrustsBytes f s
        → (audit_response (login_by q) f s).status ≡ 0
        → LoginGranted q f s (audit_response (login_by q) f s) }
    ensures asked_host { (q : HostCheck) (f : AuditFiles) (s : SourceState) → HostBytes q → TrustsBytes f s
        → (audit_response (host_by q) f s).status ≡ 0
        → HostGranted q f s (audit_response (host_by q) f s) }
    ensures denied_login { (q : LoginAsked) (f : AuditFiles) (s : SourceState) → LoginBytes q → TrustsBytes f s
        → (audit_response (login_by q) f s).status ≡ 1
        → LoginDenied q f s (audit_response (login_by q) f s) }
    ensures denied_host { (q : HostCheck) (f : AuditFiles) (s : SourceState) → HostBytes q → TrustsBytes f s
        → (audit_response (host_by q) f s).status ≡ 1
        → HostDenied q f s (audit_response (host_by q) f s) }
{}

/// Where `admits` answers status 1 to a file, every line of it that cannot be read holds another key
/// where sshd looks for one.
fn denied_rule()
    ensures { (form : DecisionForm) (rule : List ℕ) (q : Login) (claim : LoginClaim)
        (evidence : List Signed) (name file line : List ℕ) (i : ℕ) (cause : LineCause)
        → login_claim q ≡ Ok claim
        → status_by (login_asking form rule q) evidence name file ≡ 1
        → slice_get (lines_of file) i ≡ Some line
        → auth_line line ≡ Unreadable cause
        → HoldsAnother line (wanted_blob claim) }
{}

/// What files tell and leave, what is printed as one, and which fault is reported where there are two.
fn files_as_reported()
    ensures vouched { VouchFilesReported }
    ensures left { TrustFilesLeft }
    ensures written { VouchFilesWritten }
    ensures audits { (decision : List ℕ → List SignedValue → DecisionValue)
        → FaultsInOrder decision }
    ensures signatures { SignatureFaultsInOrder }
    ensures rewritten { RewriteKinds }
    ensures hashed { HashFaultsInOrder }
{}

/// Which values texts spell, and which fault is reported where more than one spells none.
fn values_as_read()
    ensures shown { ShowKinds }
    ensures texts { TextsOfFiles }
    ensures login { (zone : Zone) → LoginSpelled zone }
    ensures login_more { (zone : Zone) → LoginAsksMore zone }
    ensures login_order { LoginValuesInOrder }
    ensures host_order { HostValuesInOrder }
{}

/// What words ask for: a subcommand with its options, or nothing; and how the program is called.
fn words_as_asked()
    ensures logins { LoginsAsked }
    ensures hosts { HostsAsked }
    ensures texts { TextsAsked }
    ensures keys { KeysAsked }
    ensures places { KeyPlacesAsked }
    ensures others { OthersAsked }
    ensures reviews { ReviewsAsked }
    ensures refused { WordsRefused }
    ensures usage { UsageReported }
{}

/// What the options of `admits` and `trusts` spell, what files come to together, and the status of that.
fn outcomes_as_summed()
    ensures admits { (zone : Zone) → AdmitsSpelled zone }
    ensures fingerprints { (zone : Zone) → FingerprintsRefused zone }
    ensures trusts { TrustsSpelled }
    ensures summed { OutcomesSummed }
    ensures statuses { StatusesReported }
{}

/// What a question may leave out, and what is asked in its place.
fn defaults_as_reported()
    ensures reviews { ReviewsReported }
    ensures zones { ReviewZonesRead }
    ensures others { OthersReported }
    ensures hosts { HostsReported }
{}

/// The words that are asked in place of those that name a list: all others in their order, and the
/// names, each of them an operand.
fn list_rule()
    ensures asked { NamesBehind }
    ensures operands { OperandsBehind }
{}

/// What a list of names has, and which words are asked with it.
fn lists_as_reported()
    ensures names { NamesReported }
    ensures words { WordsListed }
    ensures lists { ListsNamed }
{}

/// Which digest the text of a fingerprint gives: the text that `ssh-keygen -l` prints of a digest
/// gives it, and no other text gives one.
fn fingerprints_as_read()
    ensures read { FingerprintsRead }
    ensures spelled { (text digest : List ℕ) → AreBytes text
        → fingerprint_bytes text ≡ Some digest
        → text ≡ codes "SHA256:" ++ digest_text_of digest }
    ensures again { (digest : List ℕ) → length digest ≡ 32 → AreBytes digest
        → fingerprint_bytes (codes "SHA256:" ++ digest_text_of digest) ≡ Some digest }
{}

/// The total of a page is that of the other formats, file by file, so the status is: before the first
/// file, whatever a file gives, and where a read of it fails.
fn page_total_rule()
    ensures first { (form : Form) → CountsAs no_page (lines_before form) }
    ensures read { (kind : ReviewKind) (show : Shown) (form : Form) (asking : Asking) (page : PageSofar)
        (reported : Lines) (name : NameSeen) (given : Result (List ℕ) UnreadCause)
        → CountsAs page reported
        → CountsAs (with_given kind asking page (telling_given.of_bytes name given))
        (with_file reported ((telling_review kind show form asking).of_bytes name given)) }
    ensures failed { (kind : ReviewKind) (show : Shown) (form : Form) (asking : Asking) (page : PageSofar)
        (reported : Lines) (name : NameSeen) (cause : UnreadCause)
        → CountsAs page reported
        → CountsAs (with_given kind asking page (telling_given.of_fault name cause))
        (with_file reported ((telling_review kind show form asking).of_fault name cause)) }
{}
