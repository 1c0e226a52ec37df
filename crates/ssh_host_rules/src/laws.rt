//! Laws of the definitions, and worked examples: the check proves what each function ensures. No call
//! needs them.

ghost use Rattle.std.specs.Prelude.{◌≡◌, ◌↔◌, None, true};
ghost use Rattle.ssh_entries.specs.KnownEntry.{KnownEntry};
ghost use Rattle.ssh_offers.specs.HostClaim.{HostClaim};
ghost use Rattle.ssh_host_rules.specs.HostAdmission.{AdmitsHost, host_mismatch};
ghost use Rattle.ssh_certs.specs.Certificate.{Certificate};
ghost use Rattle.ssh_entries.specs.declared.known_line.KnownLine.TheVariants.{Revoked};
ghost use Rattle.ssh_host_rules.specs.Revocation.{revokes_offer};
ghost use Rattle.ssh_keys.specs.PublicKey.{PublicKey, key_blob};
ghost use Rattle.ssh_offers.specs.Offer.{certified, plain};
ghost use Rattle.ssh_host_rules.specs.Samples.{HostsCertificates, HostsNamed};

/// An entry admits a host's key exactly where there is no reason against it.
fn host_admission_rule()
    ensures { (e : KnownEntry) (claim : HostClaim)
        → (host_mismatch e claim ≡ None) ↔ AdmitsHost e claim }
{}

/// A line that revokes the offered key, the key in an offered certificate or its signer revokes the
/// offer, whichever host it names.
fn revocation_rule()
    ensures own { (key : PublicKey) → revokes_offer (plain key) (Revoked (key_blob key)) ≡ true }
    ensures certified_key { (c : Certificate)
        → revokes_offer (certified c) (Revoked (key_blob c.key)) ≡ true }
    ensures signer { (c : Certificate)
        → revokes_offer (certified c) (Revoked (key_blob c.signer)) ≡ true }
{}

/// Worked examples: hosts' certificates, and why one is not admitted.
fn host_certificates_as_judged()
    ensures checked_certificate { HostsCertificates }
    ensures named { HostsNamed }
{}
