//! Laws of the definitions, and worked examples. No caller needs these functions: the check proves
//! their `ensures`.

ghost use Rattle.std.specs.Prelude.{◌≡◌, ◌↔◌, ℕ, true, false, List, Some, None};
ghost use Rattle.ssh_certs.specs.declared.options.CertificateOption.{CertificateOption};
ghost use Rattle.ssh_certs.specs.Certificate.{CertOption};
ghost use Rattle.ssh_certs.specs.OptionData.{one_string};
ghost use Rattle.ssh_certs.specs.OptionFacts.{IsKnownOption, IsOneString};
ghost use Rattle.ssh_certs.specs.OptionTable.{critical_named, fits, is_critical, certificate_option_name};
ghost use Rattle.ssh_certs.specs.MadeCertificates.{MadeCertificatesRead, MadeCertificatesRefused, SignedBySecurityKey};
ghost use Rattle.ssh_certs.specs.OptionSamples.{DataRead};
ghost use Rattle.ssh_certs.specs.Samples.{SampleReads};

/// A critical option is found by its name; an extension is not.
fn option_rule()
    ensures critical { (option : CertificateOption) →
        is_critical option ≡ true → critical_named (certificate_option_name option) ≡ Some option }
    ensures extension { (option : CertificateOption) →
        is_critical option ≡ false → critical_named (certificate_option_name option) ≡ None }
{}

/// An option's data is read as one string exactly where it is one. An option that is found by its
/// name and has data of its form is a known option.
fn data_rule()
    ensures string { (text field : List ℕ) → (one_string field ≡ Some text) ↔ IsOneString text field }
    ensures known { (o : CertOption) (option : CertificateOption)
        → critical_named o.name ≡ Some option
        → fits option o.value ≡ true
        → IsKnownOption o }
{}

/// A certificate, as the definitions read and write it.
fn read_samples()
    ensures { SampleReads }
{}

/// Certificates over an ECDSA key and over security keys, signed by RSA and ECDSA keys, and one
/// that a security key signed.
fn made_certificates_as_read()
    ensures made { MadeCertificatesRead }
    ensures by_security_key { SignedBySecurityKey }
{}

/// Data of options that is one string, and data that is not.
fn option_data_as_read()
    ensures { DataRead }
{}

/// Certificates with a wrong public field, and blobs that were cut.
fn made_certificates_as_refused()
    ensures { MadeCertificatesRefused }
{}
