//! Laws of the definitions, and worked examples: the check proves what each function ensures. No call
//! needs them.

ghost use Rattle.std.specs.Prelude.{◌≡◌, ◌↔◌, None};
ghost use Rattle.ssh_entries.specs.AuthEntry.{AuthEntry};
ghost use Rattle.ssh_offers.specs.LoginClaim.{LoginClaim};
ghost use Rattle.ssh_rules.specs.Admission.{AdmitsLogin, login_mismatch};
ghost use Rattle.ssh_rules.specs.Samples.{CriticalOptionsJudged, FormsJudged, NamesKnown, RepetitionsFound, SizesJudged, UsersCertificates, UsersNamed};

/// An entry admits a login exactly where there is no reason against it.
fn admission_rule()
    ensures { (e : AuthEntry) (claim : LoginClaim)
        → (login_mismatch e claim ≡ None) ↔ AdmitsLogin e claim }
{}

/// Worked examples: the names of critical options and the forms of their data.
fn critical_options_as_read()
    ensures names { NamesKnown }
    ensures forms { FormsJudged }
    ensures repeated { RepetitionsFound }
{}

/// Worked examples: users' certificates, why one is not admitted, and keys that are too short.
fn certificates_as_judged()
    ensures users { UsersCertificates }
    ensures named { UsersNamed }
    ensures critical { CriticalOptionsJudged }
    ensures sizes { SizesJudged }
{}
