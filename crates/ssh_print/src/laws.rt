//! Laws of the definitions, and worked examples. The check proves what each function ensures; no
//! code calls them.

ghost use Rattle.std.specs.Prelude.{◌≡◌, ◌++◌, ℕ, List, None, Ok, Some, false, slice_get};
ghost use Rattle.sha2.specs.Sha256.{sha256};
ghost use Rattle.ssh_print.specs.Strings.{json_text, read_string};
ghost use Rattle.ssh_print.specs.Texts.{escaped_text};
ghost use Rattle.ssh_print.specs.declared.showing.ShowKind.{ShowKind};
ghost use Rattle.ssh_print.specs.Showing.{Shows};
ghost use Rattle.ssh_print.specs.Responses.{Response};
ghost use Rattle.ssh_entries.specs.AuthEntry.{AuthEntry};
ghost use Rattle.ssh_entries.specs.AuthGrammar.{auth_line};
ghost use Rattle.ssh_entries.specs.declared.auth_line.AuthLine.TheVariants.{Unreadable};
ghost use Rattle.ssh_keys.specs.PublicKey.{PublicKey, key_blob};
ghost use Rattle.ssh_offers.specs.HostClaim.{HostClaim, host_claim};
ghost use Rattle.ssh_offers.specs.LoginClaim.{LoginClaim};
ghost use Rattle.ssh_offers.specs.Offer.{plain};
ghost use Rattle.ssh_offers.specs.Query.{HostCheck};
ghost use Rattle.ssh_offers.specs.declared.claim.Signed.{Signed};
ghost use Rattle.ssh_options.specs.declared.option_text.LineCause.{LineCause};
ghost use Rattle.ssh_rules.specs.declared.reason.Reason.{Reason};
ghost use Rattle.std.specs.List.{flat_map};
ghost use Rattle.ssh_text.specs.Text.{lines_of, numbered};
ghost use Rattle.ssh_trust.specs.declared.decision.Cause.{Cause};
ghost use Rattle.ssh_trust.specs.declared.decision.Decision.TheVariants.{Denied};
ghost use Rattle.ssh_trust.specs.LoginDecision.{IsCandidate};
ghost use Rattle.ssh_print.specs.Denials.{HoldsAnother};
ghost use Rattle.ssh_print.specs.FingerprintKeys.{IsFirstHeld, found_key};
ghost use Rattle.ssh_print.specs.HostOther.{claim_without_port, without_port};
ghost use Rattle.ssh_print.specs.OtherLines.{login_other};
ghost use Rattle.ssh_print.specs.PassedLines.{ComeInOrder, Compared, line_from, passed_line, passed_lines};
ghost use Rattle.ssh_print.specs.PossibleLines.{wanted_blob};
ghost use Rattle.ssh_print.specs.Samples.{AbsentShown, BodyCodesShown, CauseCodesShown, CertCodesShown, DecisionsShown, FaultCodesShown, FaultsShown, KeyCodesShown, LineCodesShown, ReasonCodesShown, RightsShown, SignaturesShown, TextsShown, WireCodesShown};
ghost use Rattle.ssh_print.specs.ShowSamples.{KeysShown, WordsShown};
ghost use Rattle.ssh_print.specs.ExplainSamples.{LinesShown, RowsAreFound, UnknownShown};

/// A JSON reader reads the string that is printed for some bytes as their escaped text, and goes on
/// right after it: the string does not end before.
fn string_rule()
    ensures { (text rest : List ℕ)
        → read_string (json_text text ++ rest) ≡ Some (escaped_text text, rest) }
{}

/// `show` has exactly one response for a file.
fn show_rule()
    ensures { (kind : ShowKind) (file : List ℕ) (a b : Response)
        → Shows kind file a
        → Shows kind file b
        → a ≡ b }
{}

/// Suppose a login is denied and no line is reported by which OpenSSH may admit it. Then every
/// unreadable line of the file holds another key where OpenSSH looks for one.
fn unread_rule()
    ensures { (claim : LoginClaim) (file line : List ℕ) (why : Cause) (reasons : List (ℕ × Reason))
        (evidence : List Signed) (i : ℕ) (cause : LineCause)
        → (login_other claim file (Denied why reasons evidence)).may_admit ≡ false
        → slice_get (lines_of file) i ≡ Some line
        → auth_line line ≡ Unreadable cause
        → HoldsAnother line (wanted_blob claim) }
{}

/// A host's key that is looked for under the name without its port makes the claim that was read, but
/// for the port: no test of an offer looks at it.
fn port_rule()
    ensures { (q : HostCheck) (claim : HostClaim)
        → host_claim q ≡ Ok claim
        → host_claim (without_port q) ≡ Ok (claim_without_port claim) }
{}

/// Reasons that come in the order of their lines are each printed with the line of their number.
fn passed_rule()
    ensures { (compared : Compared) (lines : List (List ℕ)) (reasons : List (ℕ × Reason))
        → ComeInOrder 1 reasons
        → passed_lines compared (numbered 1 lines) reasons ≡ flat_map (λ (r : ℕ × Reason).
        passed_line compared r (line_from r.0 (numbered 1 lines))) reasons }
{}

/// The key that is found for a fingerprint has it, and the first line of the file that holds such a
/// key holds this one. Where none is found, no line admits a plain key of the fingerprint.
fn fingerprint_rule()
    ensures found { (digest file : List ℕ) (key : PublicKey)
        → found_key digest file ≡ Some key
        → IsFirstHeld digest (lines_of file) key }
    ensures none { (digest file : List ℕ) (claim : LoginClaim) (key : PublicKey) (i : ℕ)
        (e : AuthEntry)
        → found_key digest file ≡ None
        → claim.offer ≡ plain key
        → sha256 (key_blob key) ≡ digest
        → IsCandidate file claim i e
        → ⊥ }
{}

/// Every printed code.
fn codes_as_printed()
    ensures fields { WireCodesShown }
    ensures keys { KeyCodesShown }
    ensures certificates { CertCodesShown }
    ensures bodies { BodyCodesShown }
    ensures lines { LineCodesShown }
    ensures reasons { ReasonCodesShown }
    ensures causes { CauseCodesShown }
    ensures faults { FaultCodesShown }
{}

/// Small texts, and whole answers with their status.
fn answers_as_printed()
    ensures texts { TextsShown }
    ensures rights { RightsShown }
    ensures decisions { DecisionsShown }
    ensures absent { AbsentShown }
    ensures signatures { SignaturesShown }
    ensures faults { FaultsShown }
{}

/// Words and lines, as they are read and printed.
fn lines_as_shown()
    ensures words { WordsShown }
    ensures keys { KeysShown }
{}

/// Lines of codes, and a code without a row.
fn lines_as_written()
    ensures lines { LinesShown }
    ensures unknown { UnknownShown }
{}

/// Each row is the row of its own code: no two rows have the same code.
fn rows_as_found()
    ensures { RowsAreFound }
{}
