//! Laws of the definitions, and worked examples: the check proves what each function ensures. No call
//! needs them.

ghost use Rattle.std.specs.Prelude.{◌≡◌, Ok};
ghost use Rattle.ssh_offers.specs.FirstRefusal.{AreBytes, IsHostClaim, IsLoginClaim};
ghost use Rattle.ssh_offers.specs.HostClaim.{HostClaim, host_claim};
ghost use Rattle.ssh_offers.specs.LoginClaim.{LoginClaim, login_claim};
ghost use Rattle.ssh_offers.specs.Query.{HostCheck, Login};
ghost use Rattle.ssh_offers.specs.Samples.{AlgorithmsThatFit, LoginBytesSpelled, NamesOfCertificates, NamesOfKeys, NamesOfTheOther, OtherNames, SignaturesAsPaired, SignersOfCertificates, WeakNames};

/// The claim that the blobs spell is the one that is read, and a claim that is read is spelled by
/// the blobs.
fn claim_rule()
    ensures login { (q : Login) (claim : LoginClaim) →
        IsLoginClaim q claim → login_claim q ≡ Ok claim }
    ensures host { (q : HostCheck) (claim : HostClaim) →
        IsHostClaim q claim → host_claim q ≡ Ok claim }
    ensures login_read { (q : Login) (claim : LoginClaim) → AreBytes q.offered
        → AreBytes q.signature → login_claim q ≡ Ok claim → IsLoginClaim q claim }
    ensures host_read { (q : HostCheck) (claim : HostClaim) → AreBytes q.offered
        → AreBytes q.signature → host_claim q ≡ Ok claim → IsHostClaim q claim }
{}

/// Worked examples: the algorithm names of logins, with each kind of key and of certificate.
fn names_as_asked()
    ensures keys { NamesOfKeys }
    ensures certificates { NamesOfCertificates }
    ensures weak { WeakNames }
    ensures swapped { NamesOfTheOther }
    ensures other { OtherNames }
{}

/// Worked examples: the algorithms of signatures, of a login, of a host or a file, and of a
/// certificate's signer.
fn signatures_as_judged()
    ensures paired { SignaturesAsPaired }
    ensures fitting { AlgorithmsThatFit }
    ensures signers { SignersOfCertificates }
{}

/// A worked example of the bytes that a client signs for a login.
fn login_bytes_as_spelled()
    ensures { LoginBytesSpelled }
{}
