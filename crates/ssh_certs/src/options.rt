//! The principals and the options of users' certificates, by name and by the form of their data
//! (PROTOCOL.certkeys).

ghost use Rattle.std.specs.Prelude.{◌≡◌, option_copied, [], IfOk, IsOk, bytes_eq, ◌↔◌, IsTrue};
ghost use Rattle.ssh_certs.specs.OptionTable.{critical_named, fits, is_critical, certificate_option_name, certificate_option_row};
ghost use Rattle.std.specs.Result.{result_ok};
ghost use Rattle.ssh_wire.specs.Position.{start};
ghost use Rattle.ssh_wire.specs.Reading.{Gives};
ghost use Rattle.ssh_certs.specs.OptionData.{one_string, whole_string_at};
ghost use Rattle.std.specs.List.{list_any};
ghost use Rattle.ssh_certs.specs.CertificateOf.{certificate_of};
ghost use Rattle.ssh_certs.specs.CertificateOptions.{has_formed, has_named, has_option, list_for, option_in, text_of_option};
ghost use Rattle.ssh_certs.specs.Left.{options_left, principals_left};
ghost use Rattle.ssh_certs.specs.Holds.{holds_all};
ghost use Rattle.ssh_certs.specs.Rules.{no_principals};

use crate::packed::{CertOptions, Principals};
use crate::view::CertView;
use DataForm::{Empty, OneString};
use OptionList::{Critical, Extensions};
use ssh_wire::{Cursor, WireError};
use std::alloc::{AllocError, Global};
use std::collections::BTreeMap;
use std::marker::Model;

/// An option of a user's certificate, critical or an extension (PROTOCOL.certkeys).
#[derive(Clone, Copy, Debug, PartialEq, Eq)]
pub enum CertificateOption {
    /// This command is run in place of any other.
    ForceCommand,
    /// The certificate may be used from these addresses only.
    SourceAddress,
    /// The security key must verify the user, for example by a PIN.
    VerifyRequired,
    /// The security key need not be touched.
    NoTouchRequired,
    PermitX11Forwarding,
    PermitAgentForwarding,
    PermitPortForwarding,
    PermitPty,
    /// The user's own `~/.ssh/rc` is run.
    PermitUserRc,
}

/// The list of a certificate to which an option belongs.
#[derive(Clone, Copy)]
enum OptionList {
    /// A verifier must refuse a certificate with a critical option that it does not know.
    Critical,
    /// A verifier may ignore an extension that it does not know.
    Extensions,
}

/// The form of an option's data.
#[derive(Clone, Copy)]
enum DataForm {
    Empty,
    /// One string and nothing after it.
    OneString,
}

/// A row of the table of options: its name, its list, and the form of its data.
type Row = (&'static [u8], OptionList, DataForm);

impl CertificateOption {
    /// Every option, in the order of PROTOCOL.certkeys.
    const ALL: [CertificateOption; 9] = [
        CertificateOption::ForceCommand,
        CertificateOption::SourceAddress,
        CertificateOption::VerifyRequired,
        CertificateOption::NoTouchRequired,
        CertificateOption::PermitX11Forwarding,
        CertificateOption::PermitAgentForwarding,
        CertificateOption::PermitPortForwarding,
        CertificateOption::PermitPty,
        CertificateOption::PermitUserRc,
    ];

    /// The row of the option in the table of PROTOCOL.certkeys.
    fn row(self) -> Row
        ensures name { result.0.now ≡ (certificate_option_row self).name }
        ensures list { result.1 ≡ (certificate_option_row self).list }
        ensures form { result.2 ≡ (certificate_option_row self).form }
    {
        match self {
            CertificateOption::ForceCommand => (b"force-command", Critical, OneString),
            CertificateOption::SourceAddress => (b"source-address", Critical, OneString),
            CertificateOption::VerifyRequired => (b"verify-required", Critical, Empty),
            CertificateOption::NoTouchRequired => (b"no-touch-required", Extensions, Empty),
            CertificateOption::PermitX11Forwarding => (b"permit-X11-forwarding", Extensions, Empty),
            CertificateOption::PermitAgentForwarding => {
                (b"permit-agent-forwarding", Extensions, Empty)
            }
            CertificateOption::PermitPortForwarding => {
                (b"permit-port-forwarding", Extensions, Empty)
            }
            CertificateOption::PermitPty => (b"permit-pty", Extensions, Empty),
            CertificateOption::PermitUserRc => (b"permit-user-rc", Extensions, Empty),
        }
    }

    /// The name as PROTOCOL.certkeys writes it.
    pub fn name(self) -> &'static [u8]
        ensures { result.now ≡ certificate_option_name self }
    {
        self.row().0
    }

    /// Whether it is critical: a verifier that does not know it must refuse the certificate.
    pub fn is_critical(self) -> bool
        ensures { result ≡ is_critical self }
    {
        match self.row().1 {
            Critical => true,
            Extensions => false,
        }
    }

    /// Whether the data has the form of this option: empty, or one string and nothing after it.
    pub fn fits(self, value: &[u8]) -> bool
        ensures { result ≡ fits self value.now }
    {
        match self.row().2 {
            Empty => value.is_empty(),
            OneString => one_string(value).is_some(),
        }
    }

    /// The critical option with this name, byte for byte. `None` for an extension too, which means
    /// nothing among critical options.
    #[tactic(auto, unfolding(crate::specs::OptionTable::critical_named))]
    pub fn critical_named(name: &[u8]) -> Option<CertificateOption>
        ensures { result ≡ critical_named name.now }
    {
        let all = CertificateOption::ALL;
        all.iter()
            .copied()
            .find(|option| option.is_critical() && option.name() == name)
    }
}

#[tactic(auto, unfolding(crate::specs::OptionData::whole_string_at))]
fn take_whole(field: &[u8]) -> Result<&[u8], WireError>
    ensures { Gives (λ text. text.now) result (whole_string_at (start field.now)) }
{
    let mut cursor = Cursor::new(field);
    let text = cursor.take_string()?;
    cursor.end()?;
    Ok(text)
}

/// The text of a field that is one string and nothing after it (RFC 4251 section 5).
pub(crate) fn one_string(field: &[u8]) -> Option<&[u8]>
    ensures { option_copied result ≡ one_string field.now }
{
    take_whole(field).ok()
}

/// The data of the first option with this name.
fn option_in<'a>(name: &[u8], options: CertOptions<'a>) -> Option<&'a [u8]>
    ensures { option_copied result ≡ option_in name.now (options_left options.entry) }
{
    for (other, data) in options {
        if other == name {
            return Some(data);
        }
    }
    None
}

/// Whether one of the options has this name, byte for byte.
pub fn has_option(name: &[u8], options: CertOptions<'_>) -> bool
    ensures { result ≡ has_option name.now (options_left options.entry) }
{
    for (other, _) in options {
        if other == name {
            return true;
        }
    }
    false
}

impl<'a> CertView<'a> {
    /// The list to which the option belongs. The same name in the other list does not count.
    fn list_for(&self, option: CertificateOption) -> CertOptions<'a>
        ensures { options_left result ≡ list_for option (certificate_of self.now) }
    {
        if option.is_critical() {
            self.critical()
        } else {
            self.extensions()
        }
    }

    /// Whether the certificate has the option, whatever its data.
    pub fn has_named(&self, option: CertificateOption) -> bool
        ensures { result ≡ has_named option (certificate_of self.now) }
    {
        has_option(option.name(), self.list_for(option))
    }

    /// Whether the certificate has the option with data of the right form. Another option of the
    /// same name does not matter.
    pub fn has_formed(&self, option: CertificateOption) -> bool
        ensures { result ≡ has_formed option (certificate_of self.now) }
    {
        for (name, data) in self.list_for(option) {
            if name == option.name() && option.fits(data) {
                return true;
            }
        }
        false
    }

    /// The text of the first such option. `None` where there is none, or where its data is not one
    /// string.
    pub fn text_of(&self, option: CertificateOption) -> Option<&'a [u8]>
        ensures { option_copied result ≡ text_of_option option (certificate_of self.now) }
    {
        let data = option_in(option.name(), self.list_for(option))?;
        one_string(data)
    }
}

/// The principals of a certificate in sorted order, so that a look-up takes few steps. Contracts
/// see them as the certificate lists them.
#[derive(Drop)]
pub struct PrincipalIndex<'a> {
    principals: Principals<'a>,
    names: BTreeMap<&'a [u8], ()>,
}

impl<'a> Model for PrincipalIndex<'a> {
    ghost use Rattle.std.specs.Prelude.{List, ℕ};
    ghost use Rattle.ssh_certs.specs.Left.{principals_left};
    ghost use Rattle.ssh_certs.specs.Holds.{holds_all};

    ghost Value = { List (List ℕ) };

    ghost view = { λ s. principals_left s.principals };

    ghost invariant = { λ s. holds_all s.names (principals_left s.principals) };
}

/// The names in sorted order.
fn in_order<'a>(
    alloc: Global,
    principals: Principals<'a>,
) -> Result<BTreeMap<&'a [u8], ()>, AllocError>
    ensures value { IfOk result (λ names. holds_all names (principals_left principals.entry)) }
    ensures spare { principals_left principals.entry ≡ [] → IsOk result }
{
    let mut names = BTreeMap::new(alloc);
    for name in principals {
        names.insert(name, ())?;
    }
    Ok(names)
}

impl<'a> PrincipalIndex<'a> {
    /// Indexes the principals of a certificate. One without principals allocates nothing. Fails
    /// only when memory cannot be allocated.
    pub fn new(alloc: Global, certificate: &CertView<'a>) -> Result<PrincipalIndex<'a>, AllocError>
        ensures value { IfOk result
            (λ index. index ≡ (certificate_of certificate.now).principals) }
        ensures spare { (certificate_of certificate.now).principals ≡ [] → IsOk result }
    {
        let names = in_order(alloc, certificate.principals())?;
        Ok(PrincipalIndex {
            principals: certificate.principals(),
            names,
        })
    }

    /// Whether the name is one of the principals, byte for byte.
    pub fn has(&self, name: &[u8]) -> bool
        ensures { result ≡ list_any (λ x. bytes_eq name.now x) self.now }
    {
        self.names.contains_key(name)
    }
}

/// Whether the certificate has no principal. An empty name is a principal.
pub fn no_principals(view: &CertView<'_>) -> bool
    ensures exact { result ≡ no_principals (certificate_of view.now) }
    ensures none { IsTrue result ↔ ((certificate_of view.now).principals ≡ []) }
{
    view.principals().next().is_none()
}
