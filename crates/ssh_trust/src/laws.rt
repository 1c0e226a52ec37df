//! Laws of the definitions, and worked examples: the check proves what each function ensures. No call
//! needs them.

ghost use Rattle.std.specs.Prelude.{◌<◌, ℕ, List};
ghost use Rattle.std.specs.List.{AllByRecursion};
ghost use Rattle.ssh_offers.specs.declared.claim.Signed.{Signed as SignedValue};
ghost use Rattle.ssh_offers.specs.HostClaim.{HostClaim};
ghost use Rattle.ssh_offers.specs.LoginClaim.{LoginClaim};
ghost use Rattle.ssh_trust.specs.LoginDecision.{LoginMeans, login_decision};
ghost use Rattle.ssh_trust.specs.Telling.{HostTells, LoginTells};
ghost use Rattle.ssh_trust.specs.HostDecision.{HostMeans, host_decision};
ghost use Rattle.ssh_trust.specs.Samples.{FileAtLimit, FirstAdmitted, HostCausesInOrder, LoginCausesInOrder, ReasonsListed};

/// The decision on a login has exactly the meaning that is stated for granted and denied, both
/// ways.
fn decision_rule()
    ensures { (file : List ℕ) (claim : LoginClaim) (vouched : List SignedValue) → AllByRecursion (λ c. c < 256) file →
        LoginMeans file claim vouched (login_decision file claim vouched) }
{}

/// The same for a host's key.
fn host_decision_rule()
    ensures { (file : List ℕ) (claim : HostClaim) (vouched : List SignedValue) → AllByRecursion (λ c. c < 256) file →
        HostMeans file claim vouched (host_decision file claim vouched) }
{}

/// The reasons and a denial's cause are the stated ones: the first reason of each line that is
/// passed over, and the first cause that holds.
fn telling_rule()
    ensures { (file : List ℕ) (claim : LoginClaim) (vouched : List SignedValue) → AllByRecursion (λ c. c < 256) file →
        LoginTells file claim vouched (login_decision file claim vouched) }
{}

/// The same for a host's key.
fn host_telling_rule()
    ensures { (file : List ℕ) (claim : HostClaim) (vouched : List SignedValue) → AllByRecursion (λ c. c < 256) file →
        HostTells file claim vouched (host_decision file claim vouched) }
{}

/// Worked decisions: each cause comes before those that it hides.
fn causes_in_order()
    ensures login { LoginCausesInOrder }
    ensures host { HostCausesInOrder }
{}

/// Worked scans: the first line that admits, the reasons of the lines before it, and a file at the
/// limit.
fn lines_as_counted()
    ensures candidate { FirstAdmitted }
    ensures reasons { ReasonsListed }
    ensures limit { FileAtLimit }
{}
