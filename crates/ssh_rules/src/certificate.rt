//! What a login asks of its certificate, found once for all lines (PROTOCOL.certkeys).

ghost use Rattle.std.specs.Prelude.{◌≡◌, option_copied, None, [], ◌∷◌, false, IfOk, IsOk, not};
ghost use Rattle.std.specs.List.{list_all, list_any};
ghost use Rattle.ssh_certs.specs.CertificateOf.{certificate_of};
ghost use Rattle.ssh_certs.specs.CertificateOptions.{has_option, text_of_option, forced_by_certificate};
ghost use Rattle.ssh_certs.specs.Left.{options_left};
ghost use Rattle.ssh_certs.specs.OptionTable.{critical_named, fits};
ghost use Rattle.ssh_rules.specs.CertificateRules.{certificate_source, first_unknown, has_its_form, has_principal, has_two, is_among, is_known, listed_names, has_repeats, serves};
ghost use Rattle.ssh_options.specs.declared.option.ValueName.TheVariants.{Command};
ghost use Rattle.ssh_options.specs.Settings.{setting};
ghost use Rattle.ssh_rules.specs.declared.reason.Reason.TheVariants.{CertSourceBad, CertSourceRefused, CommandConflict, CriticalData, CriticalRepeated};
ghost use Rattle.ssh_rules.specs.Admission.{commands_differ, critical_rows};
ghost use Rattle.ssh_rules.specs.Judged.{IsPlainlyJudged, Judged};
ghost use Rattle.ssh_rules.specs.Mismatches.{first_mismatch, permit_row, when};
ghost use Rattle.ssh_rules.specs.Spare.{is_named};

use crate::admission::IndexedEntry;
use crate::options::{SharedName, kept_name};
use crate::reason::{Mismatch, Reason, permit_mismatch, unknown_mismatch};
use ssh_certs::{
    CertOptions, CertView, CertificateOption, PrincipalIndex, has_option, no_principals,
};
use ssh_options::ValueView;
use ssh_patterns::{Address, Permit, cidr_list};
use std::alloc::{AllocError, Global};
use std::marker::Model;

/// Whether the certificate's `source-address` list permits an address. Without a list all are
/// permitted.
pub(crate) fn certificate_source(certificate: &CertView<'_>, address: &Address) -> Permit
    ensures { result ≡ certificate_source (certificate_of certificate.now) address.now }
{
    match certificate.text_of(CertificateOption::SourceAddress) {
        Some(list) => cidr_list(list, address),
        None => Permit::Yes,
    }
}

/// Whether this is the name of a critical option that a login supports.
fn is_known(name: &[u8]) -> bool
    ensures { result ≡ is_known name.now }
{
    CertificateOption::critical_named(name).is_some()
}

/// The name of the first option that a login does not support.
pub(crate) fn first_unknown(options: CertOptions<'_>) -> Option<&[u8]>
    ensures { option_copied result ≡ first_unknown (options_left options.entry) }
{
    for (name, _) in options {
        if !is_known(name) {
            return Some(name);
        }
    }
    None
}

/// Whether two options have this name.
fn has_two(name: &[u8], options: CertOptions<'_>) -> bool
    ensures { result ≡ has_two name.now (options_left options.entry) }
{
    let mut rest = options;
    while let Some((other, _)) = rest.next() {
        if other == name {
            return has_option(name, rest);
        }
    }
    false
}

/// Whether the name of some critical option occurs twice.
pub(crate) fn has_repeated(certificate: &CertView<'_>) -> bool
    ensures { result ≡ has_repeats (certificate_of certificate.now).critical }
{
    for (name, _) in certificate.critical() {
        if has_two(name, certificate.critical()) {
            return true;
        }
    }
    false
}

/// Whether the data of a critical option has the form that PROTOCOL.certkeys gives for its name.
fn has_its_form(name: &[u8], value: &[u8]) -> bool
    ensures { result ≡ has_its_form (record { name = name.now; value = value.now }) }
{
    match CertificateOption::critical_named(name) {
        Some(option) => option.fits(value),
        None => false,
    }
}

/// Whether the data of every critical option has the form of its name.
pub(crate) fn have_their_forms(options: CertOptions<'_>) -> bool
    ensures { result ≡ list_all has_its_form (options_left options.entry) }
{
    for (name, data) in options {
        if !has_its_form(name, data) {
            return false;
        }
    }
    true
}

/// Whether the name is one of the principals, byte for byte.
fn has_principal(certificate: &CertView<'_>, name: &[u8]) -> bool
    ensures { result ≡ has_principal (certificate_of certificate.now) name.now }
{
    certificate.has_principal(name)
}

/// Whether a name of a line's list is a principal. An empty name in the list never matches.
fn is_among(principals: &PrincipalIndex<'_>, name: &[u8]) -> bool
    ensures { result ≡ is_among principals.now name.now }
{
    !name.is_empty() && principals.has(name)
}

/// Whether one of the names of a line's list is a principal.
pub(crate) fn has_listed(principals: &PrincipalIndex<'_>, list: &[u8]) -> bool
    ensures { result ≡ list_any (is_among principals.now) (listed_names list.now) }
{
    list.split(|b| *b == b',')
        .any(|name| is_among(principals, name))
}

/// Whether the certificate is for this name, where no line lists others: it is one of the
/// principals, byte for byte, or there are none and the certificate is for all (PROTOCOL.certkeys,
/// valid principals). Pass the name of a user, or that of a host in ASCII lower case and without
/// its port. Whether a certificate without principals is accepted at all is decided by
/// `principal_mismatch`.
pub fn serves(certificate: &CertView<'_>, user: &[u8]) -> bool
    ensures { result ≡ serves None user.now (certificate_of certificate.now) }
{
    no_principals(certificate) || has_principal(certificate, user)
}

/// A login's certificate with what no line changes, found once for all lines. Contracts see the
/// certificate, and the address and the user of the login.
#[derive(Drop)]
pub(crate) struct CheckedCertificate<'a> {
    certificate: CertView<'a>,
    address: Address,
    user: &'a [u8],
    /// The name of the first critical option that a login does not support.
    unknown: Option<SharedName>,
    /// The name of some critical option occurs twice.
    repeated: bool,
    /// The data of every critical option has its form.
    formed: bool,
    /// Whether its `source-address` list permits the address.
    source: Permit,
    /// The command of its `force-command`.
    command: Option<&'a [u8]>,
    /// It is for the user, where the line lists no principals.
    for_user: bool,
    /// Its principals, looked up for the `principals` list of each line.
    principals: PrincipalIndex<'a>,
}

impl<'a> Model for CheckedCertificate<'a> {
    ghost use Rattle.std.specs.Prelude.{◌≡◌, None, option_copied};
    ghost use Rattle.std.specs.List.{list_all};
    ghost use Rattle.ssh_certs.specs.CertificateOf.{certificate_of};
    ghost use Rattle.ssh_certs.specs.CertificateOptions.{forced_by_certificate};
    ghost use Rattle.ssh_rules.specs.CertificateRules.{
      certificate_source,
      first_unknown,
      has_its_form,
      has_repeats,
      serves,
    };
    ghost use Rattle.ssh_rules.specs.Judged.{Judged};

    ghost Value = { Judged };

    ghost view = { λ s.
        record
        { certificate = certificate_of s.certificate; address = s.address; user = s.user.now } };

    ghost invariant = { λ s. (s.unknown ≡ first_unknown (certificate_of s.certificate).critical)
        × (s.repeated ≡ has_repeats (certificate_of s.certificate).critical)
        × (s.formed ≡ list_all has_its_form (certificate_of s.certificate).critical)
        × (s.source ≡ certificate_source (certificate_of s.certificate) s.address)
        × (option_copied s.command ≡ forced_by_certificate (certificate_of s.certificate))
        × (s.for_user ≡ serves None s.user.now (certificate_of s.certificate))
        × (s.principals ≡ (certificate_of s.certificate).principals) };
}

/// Both the line and the certificate force a command, and these differ in some byte.
fn commands_differ(line: Option<&ValueView<'_>>, own: Option<&[u8]>) -> bool
    ensures { result ≡ commands_differ (option_copied line.entry) (option_copied own.entry) }
{
    match (line, own) {
        (Some(line), Some(own)) => !line.is_text(own),
        _ => false,
    }
}

/// Why the critical options are not well formed: a name occurs twice, or some data does not have
/// the form that its name requires.
fn form_mismatch(repeated: bool, formed: bool) -> Option<Mismatch>
    ensures { result ≡ first_mismatch (when repeated CriticalRepeated
        ∷ when (not formed) CriticalData ∷ []) }
{
    if repeated {
        return Some(Mismatch::Listed(Reason::CriticalRepeated));
    }
    if !formed {
        return Some(Mismatch::Listed(Reason::CriticalData));
    }
    None
}

impl<'a> CheckedCertificate<'a> {
    /// Checks a certificate. Memory is allocated for the name of an unsupported critical option,
    /// and for the order of the principals.
    pub(crate) fn new(
        alloc: Global,
        certificate: &CertView<'a>,
        address: &Address,
        user: &'a [u8],
    ) -> Result<CheckedCertificate<'a>, AllocError>
        ensures value { IfOk result (λ checked_certificate. checked_certificate ≡ record {
          certificate = certificate_of certificate.now;
          address = address.now;
          user = user.now;
        }) }
        ensures spare { IsPlainlyJudged (certificate_of certificate.now) → IsOk result }
    {
        let unknown = kept_name(alloc, first_unknown(certificate.critical()))?;
        let principals = PrincipalIndex::new(alloc, certificate)?;
        Ok(CheckedCertificate {
            certificate: *certificate,
            address: *address,
            user,
            unknown,
            repeated: has_repeated(certificate),
            formed: have_their_forms(certificate.critical()),
            source: certificate_source(certificate, address),
            command: certificate.text_of(CertificateOption::ForceCommand),
            for_user: serves(certificate, user),
            principals,
        })
    }

    /// The certificate, as offered.
    pub(crate) fn certificate(&self) -> &CertView<'a>
        ensures { certificate_of result.now ≡ self.now.certificate }
    {
        &self.certificate
    }

    /// It is for the user, where the line lists no principals.
    pub(crate) fn serves_user(&self) -> bool
        ensures { result ≡ serves None self.now.user self.now.certificate }
    {
        self.for_user
    }

    /// Its principals, for the list of a line.
    pub(crate) fn principals(&self) -> &PrincipalIndex<'a>
        ensures { result.now ≡ self.now.certificate.principals }
    {
        &self.principals
    }

    /// Why a supported critical option is not met: the list of sources or the forced command.
    fn known_mismatch(&self, entry: &IndexedEntry<'_>) -> Option<Mismatch>
        ensures { result ≡ first_mismatch (permit_row CertSourceBad CertSourceRefused
            (certificate_source self.now.certificate self.now.address)
            ∷ when (commands_differ (setting Command entry.now.options)
            (forced_by_certificate self.now.certificate)) CommandConflict ∷ []) }
    {
        if let Some(mismatch) = permit_mismatch(
            Reason::CertSourceBad,
            Reason::CertSourceRefused,
            self.source,
        ) {
            return Some(mismatch);
        }
        if commands_differ(entry.options().command.as_ref(), self.command) {
            return Some(Mismatch::Listed(Reason::CommandConflict));
        }
        None
    }

    /// Why a critical option of the certificate is not met by a line.
    pub(crate) fn critical_mismatch(
        &self,
        entry: &IndexedEntry<'_>,
    ) -> Result<Option<Mismatch>, AllocError>
        ensures value { IfOk result (λ o.
            o ≡ first_mismatch (critical_rows entry.now self.now.address self.now.certificate)) }
        ensures spare { is_named (first_mismatch (critical_rows entry.now self.now.address
            self.now.certificate)) ≡ false → IsOk result }
    {
        if let Some(mismatch) = unknown_mismatch(self.unknown.as_ref())? {
            return Ok(Some(mismatch));
        }
        if let Some(mismatch) = form_mismatch(self.repeated, self.formed) {
            return Ok(Some(mismatch));
        }
        Ok(self.known_mismatch(entry))
    }
}
