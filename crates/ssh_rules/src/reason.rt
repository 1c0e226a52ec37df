//! Why a line does not admit an offer: the reasons that logins and hosts share, and their checks.

ghost use Rattle.std.specs.Prelude.{◌≡◌, ◌==◌, [], ◌∷◌, IfOk, IsOk, None, not, option_copied};
ghost use Rattle.ssh_certs.specs.CertificateOf.{certificate_of};
ghost use Rattle.ssh_certs.specs.Rules.{time_of};
ghost use Rattle.ssh_keys.specs.Fingerprint.{is_rsa_below};
ghost use Rattle.ssh_keys.specs.KeyOf.{key_of};
ghost use Rattle.ssh_offers.specs.OfferView.{offer_of};
ghost use Rattle.ssh_rules.specs.declared.reason.Reason.TheVariants.{PrincipalRefused, WrongCertKind};
ghost use Rattle.ssh_rules.specs.CertificateForce.{is_for_none};
ghost use Rattle.ssh_rules.specs.KeySizes.{has_short_key};
ghost use Rattle.ssh_rules.specs.Mismatches.{first_mismatch, permit_row, role_row, size_row, time_row, unknown_row, when};
ghost use Rattle.ssh_rules.specs.declared.reason.Reason.TheVariants as reason;

use crate::options::SharedName;
use ssh_certs::{CertView, Time, no_principals};
use ssh_keys::{KeyView, rsa_at_least};
use ssh_offers::{EmptyPrincipals, Offer};
use ssh_options::LineCause;
use ssh_patterns::Permit;
use std::alloc::AllocError;
use std::fmt;
use std::fmt::{Display, Formatter, Write};

/// Why a line does not admit an offer. The first that holds, in this order, is reported.
#[derive(Debug, Drop, PartialEq)]
pub enum Reason {
    /// `G1`: the line cannot be read.
    Unreadable(LineCause),
    /// `G3`: a plain key is offered, and the line is marked as a certificate authority.
    AuthorityOnly,
    /// `G4`: a certificate is offered, and the line is not marked as a certificate authority.
    NotAuthority,
    /// `G6`: an expiry time of the line is past.
    Expired,
    /// `G7`: the line's list of sources cannot be read.
    SourceBad,
    /// `G8`: the line's list of sources does not permit the client.
    SourceRefused,
    /// `G9`: the certificate is not for users, where a login is asked, or not for hosts, where a
    /// host's key is.
    WrongCertKind,
    /// `G10`: the certificate is not yet in force.
    NotYetValid,
    /// `G11`: the certificate is no longer in force.
    NoLongerValid,
    /// `G12`: none of the principals that the line or the login names is in the certificate, or it
    /// is not for the host.
    PrincipalRefused,
    /// `G19`: the certificate names no principal, and by the query such a certificate is for
    /// nobody.
    EmptyPrincipals,
    /// `G13`: the certificate has a critical option of this name, which a login does not support.
    /// For a host's certificate none is supported (this project's rule).
    CriticalUnknown(SharedName),
    /// `G14`: the name of a critical option occurs twice in the certificate (this project's rule).
    CriticalRepeated,
    /// `G15`: the data of a critical option does not have the form that its name requires.
    CriticalData,
    /// `G16`: the certificate's list of sources cannot be read.
    CertSourceBad,
    /// `G17`: the certificate's list of sources does not permit the address.
    CertSourceRefused,
    /// `G18`: the line and the certificate both force a command, and these differ.
    CommandConflict,
    /// `G20`: the offered key or the certificate's signer is an RSA key of fewer bits than the
    /// query asks for.
    RsaTooSmall,
}

impl Reason {
    /// The reason as a text, without the value that it carries.
    fn words(&self) -> &'static str {
        match self {
            Reason::Unreadable(_) => "the line cannot be read: ",
            Reason::AuthorityOnly => "the line is an authority for certificates",
            Reason::NotAuthority => "the line is not an authority for certificates",
            Reason::Expired => "the line's expiry time is past",
            Reason::SourceBad => "the line's list of sources cannot be read",
            Reason::SourceRefused => "the line's list of sources does not permit the client",
            Reason::WrongCertKind => "the certificate is of the other kind",
            Reason::NotYetValid => "the certificate is not yet valid",
            Reason::NoLongerValid => "the certificate is no longer valid",
            Reason::PrincipalRefused => "the certificate is for no principal that is asked for",
            Reason::EmptyPrincipals => "the certificate names no principal",
            Reason::CriticalUnknown(_) => "the certificate has an unknown critical option: ",
            Reason::CriticalRepeated => "a critical option stands twice in the certificate",
            Reason::CriticalData => "the data of a critical option has another form",
            Reason::CertSourceBad => "the certificate's list of sources cannot be read",
            Reason::CertSourceRefused =>
                "the certificate's list of sources does not permit the address",
            Reason::CommandConflict => "the line and the certificate force different commands",
            Reason::RsaTooSmall => "an RSA key has fewer bits than asked for",
        }
    }
}

/// The reason as a sentence, with its value: why the line cannot be read, or the option's name with
/// every byte outside printable ASCII escaped.
impl Display for Reason {
    fn fmt<W: Write>(&self, f: &mut Formatter<W>) -> fmt::Result {
        f.write_str(self.words())?;
        match self {
            Reason::Unreadable(cause) => write!(f, "{cause}"),
            Reason::CriticalUnknown(name) => write!(f, "{}", name.as_slice().escape_ascii()),
            _ => Ok(()),
        }
    }
}

/// Why an entry does not admit an offer: it is about another key or another host, which is not
/// listed, or for a reason that is.
#[derive(Debug, Drop)]
pub enum Mismatch {
    /// It holds another key (`G2`), which is not listed.
    OtherKey,
    /// Its names do not match the host (`G5`), which is not listed.
    OtherHost,
    /// A reason that is listed.
    Listed(Reason),
}

/// Compares whether the line marks its key as an authority with whether a certificate is offered:
/// `G3` where only the line is one, `G4` where only a certificate is offered, and `None` where both
/// are so or neither is (sshd(8), `cert-authority` and `@cert-authority`).
pub fn role_mismatch(authority: bool, certified: bool) -> Option<Mismatch>
    ensures { result ≡ role_row authority certified }
{
    match (authority, certified) {
        (true, false) => Some(Mismatch::Listed(Reason::AuthorityOnly)),
        (false, true) => Some(Mismatch::Listed(Reason::NotAuthority)),
        (true, true) | (false, false) => None,
    }
}

/// The mismatch for the answer of a list of sources.
pub(crate) fn permit_mismatch(bad: Reason, refused: Reason, permit: Permit) -> Option<Mismatch>
    ensures { result ≡ permit_row bad refused permit }
{
    match permit {
        Permit::Yes => None,
        Permit::No => Some(Mismatch::Listed(refused)),
        Permit::Bad => Some(Mismatch::Listed(bad)),
    }
}

/// The mismatch for where the moment lies in the certificate's validity period.
fn time_mismatch(time: Time) -> Option<Mismatch>
    ensures { result ≡ time_row time }
{
    match time {
        Time::Early => Some(Mismatch::Listed(Reason::NotYetValid)),
        Time::Now => None,
        Time::Late => Some(Mismatch::Listed(Reason::NoLongerValid)),
    }
}

/// Why the certificate is of another kind, or not in its validity period (PROTOCOL.certkeys): `G9`
/// where its kind number is not `kind`, 1 for users and 2 for hosts; otherwise by `now`, in seconds
/// since 1970-01-01 in UTC: `G10` before its `valid after`, `G11` from its `valid before` on, and
/// `None` between them.
pub fn period_mismatch(kind: u32, now: u64, certificate: &CertView<'_>) -> Option<Mismatch>
    ensures { result ≡ first_mismatch (when (not ((certificate_of certificate.now).kind_number == kind)) WrongCertKind
        ∷ time_row (time_of (certificate_of certificate.now) now) ∷ []) }
{
    if certificate.kind_number() != kind {
        return Some(Mismatch::Listed(Reason::WrongCertKind));
    }
    time_mismatch(certificate.in_time(now))
}

/// Whether the certificate names no principal, and by the query such a certificate is for nobody.
fn is_for_none(empty: EmptyPrincipals, certificate: &CertView<'_>) -> bool
    ensures { result ≡ is_for_none empty (certificate_of certificate.now) }
{
    match empty {
        EmptyPrincipals::Any => false,
        EmptyPrincipals::Never => no_principals(certificate),
    }
}

/// Why the certificate is for no principal that is asked for (PROTOCOL.certkeys, valid principals):
/// `G12` where `serves` is false; otherwise `G19` where it names no principal and by the query such
/// a certificate is for nobody (`EmptyPrincipals::Never`); otherwise `None`.
pub fn principal_mismatch(
    serves: bool,
    empty: EmptyPrincipals,
    certificate: &CertView<'_>,
) -> Option<Mismatch>
    ensures { result ≡ first_mismatch (when (not serves) PrincipalRefused
        ∷ when (is_for_none empty (certificate_of certificate.now)) reason.EmptyPrincipals ∷ []) }
{
    if !serves {
        return Some(Mismatch::Listed(Reason::PrincipalRefused));
    }
    if is_for_none(empty, certificate) {
        return Some(Mismatch::Listed(Reason::EmptyPrincipals));
    }
    None
}

/// Whether this is an RSA key whose modulus has fewer bits.
fn is_short(bits: u32, key: &KeyView<'_>) -> bool
    ensures { result ≡ is_rsa_below bits (key_of key.now) }
{
    !rsa_at_least(key, bits)
}

/// Whether the offered key, or the certificate's signer, is an RSA key with fewer bits.
fn has_short_key(bits: u32, offer: &Offer<'_>) -> bool
    ensures { result ≡ has_short_key bits (offer_of offer.now) }
{
    match offer {
        Offer::Plain(key) => is_short(bits, key),
        Offer::Certified(certificate) => {
            is_short(bits, &certificate.key()) || is_short(bits, &certificate.signer())
        }
    }
}

/// Checks the sizes of the keys that the offer depends on: the offered key, or the one in the
/// certificate and its signer's. `G20` where one is an RSA key whose modulus has fewer binary
/// digits than `bits`, and otherwise `None`. With 0 every size passes (this project's rule).
pub fn size_mismatch(bits: u32, offer: &Offer<'_>) -> Option<Mismatch>
    ensures { result ≡ size_row bits (offer_of offer.now) }
{
    if has_short_key(bits, offer) {
        Some(Mismatch::Listed(Reason::RsaTooSmall))
    } else {
        None
    }
}

/// `G13` with this name of a critical option that is not supported, and `None` where there is none.
/// PROTOCOL.certkeys asks to refuse a certificate whose critical option is not understood. The
/// reason shares the name, so no memory is allocated; `Err` means that no more reasons can share
/// it.
pub fn unknown_mismatch(name: Option<&SharedName>) -> Result<Option<Mismatch>, AllocError>
    ensures value { IfOk result (λ o. o ≡ unknown_row (option_copied name.entry)) }
    ensures spare { option_copied name.entry ≡ None → IsOk result }
{
    let Some(name) = name else {
        return Ok(None);
    };
    let name = name.share()?;
    Ok(Some(Mismatch::Listed(Reason::CriticalUnknown(name))))
}
