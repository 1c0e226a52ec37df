//! Laws of the definitions, and worked examples: the check proves what each function ensures. No call
//! needs them.

ghost use Rattle.std.specs.Prelude.{◌≡◌, ◌↔◌, List, true};
ghost use Rattle.ssh_certs.specs.OptionFacts.{AreOnce};
ghost use Rattle.ssh_keys.specs.Signature.{Signature};
ghost use Rattle.ssh_entries.specs.AuthEntry.{AuthEntry};
ghost use Rattle.ssh_options.specs.AuthOption.{AuthOption};
ghost use Rattle.ssh_offers.specs.Offer.{Offer, OfCertificate};
ghost use Rattle.ssh_rights.specs.declared.rights.Right.{Right};
ghost use Rattle.ssh_rights.specs.Rights.{AreRights, IsOn, is_on, rights_of};
ghost use Rattle.ssh_rights.specs.SecurityKeys.{TouchSuffices, VerificationSuffices, touch_suffices, verification_suffices};
ghost use Rattle.ssh_rights.specs.OptionSamples.{CertificateRights, CommandsChosen, CommandsForced, LineRights};
ghost use Rattle.ssh_rights.specs.Samples.{CertificatesTouched, CertificatesVerified, KeysTouched, KeysVerified};

/// A right is on if no option turns it on or off, or if the last option that does turns it on.
fn rights_rule()
    ensures on { (x : Right) (options : List AuthOption) → (is_on x options ≡ true) ↔ IsOn x options }
    // The rights are the stated ones, where no critical option occurs twice.
    ensures all { (e : AuthEntry) (offer : Offer)
        → OfCertificate (λ c. AreOnce c.critical) offer
        → AreRights e offer (rights_of e offer) }
{}

/// The functions on touch and user verification agree with the stated relations.
fn security_key_rule()
    ensures touched { (options : List AuthOption) (offer : Offer) (s : Signature)
        → (touch_suffices options offer s ≡ true) ↔ TouchSuffices options offer s }
    ensures verified { (options : List AuthOption) (offer : Offer) (s : Signature)
        → (verification_suffices options offer s ≡ true) ↔ VerificationSuffices options offer s }
{}

/// Worked examples: logins by security keys, with each flag of a signature.
fn security_keys_as_judged()
    ensures touched { KeysTouched }
    ensures certificates_touched { CertificatesTouched }
    ensures verified { KeysVerified }
    ensures certificates_verified { CertificatesVerified }
{}

/// Worked examples: the commands that a certificate's options force.
fn options_as_read()
    ensures forced { CommandsForced }
    ensures chosen { CommandsChosen }
{}

/// Worked examples: the rights that a line and a certificate leave.
fn rights_as_left()
    ensures certificates { CertificateRights }
    ensures lines { LineRights }
{}
