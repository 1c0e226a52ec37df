//! What an admitted login may do: rights, forced command and other options of its line, and what
//! its security key must have done.

ghost use Rattle.std.specs.Prelude.{◌≡◌, ◌++◌, ◌&&◌, [], ◌∷◌, IfOk, IsOk, None, OnOk, option_copied};
ghost use Rattle.ssh_options.specs.OptionsInLine.{option_in_line};
ghost use Rattle.ssh_offers.specs.OfferView.{offer_of};
ghost use Rattle.ssh_rights.specs.Rights.{effect_on, is_on, last_word, permit_of, certificate_permits, turns_off, turns_on, carried_name, carried_of, carried_texts, command_of, forced_by_offer, rights_of};
ghost use Rattle.ssh_rights.specs.RightsOn.{on_after};
ghost use Rattle.ssh_rights.specs.declared.rights.Right.TheVariants.{Port, Agent, X11, Pty, UserRc};
ghost use Rattle.ssh_options.specs.Settings.{setting};
ghost use Rattle.ssh_options.specs.declared.option.ValueName.TheVariants.{Command};
ghost use Rattle.ssh_offers.specs.ClaimViews.{claim_of};
ghost use Rattle.ssh_rights.specs.SecurityKeys.{has_sk_flag, is_present, is_touch_waived, touch_suffices, is_verification_asked, verification_suffices};

use ssh_certs::CertificateOption;
use ssh_entries::AuthEntryView;
use ssh_offers::{Items, LoginClaimView, Offer};
use ssh_options::{Flag, OptionView, OptionsView, ValueName, ValueView};
use ssh_text::Bytes;
use std::alloc::{AllocError, Global};

/// A right that a line can take away, and that a certificate must give by an extension.
#[derive(Clone, Copy, Debug, PartialEq, Eq)]
pub(crate) enum Right {
    Port,
    Agent,
    X11,
    Pty,
    UserRc,
}

impl Right {
    /// The flag of a line that turns the right on (sshd(8)).
    fn turns_on(self) -> Flag
        ensures { result ≡ turns_on self }
    {
        match self {
            Right::Port => Flag::PortForwarding,
            Right::Agent => Flag::AgentForwarding,
            Right::X11 => Flag::X11Forwarding,
            Right::Pty => Flag::Pty,
            Right::UserRc => Flag::UserRc,
        }
    }

    /// The flag of a line that turns the right off (sshd(8)). `restrict` turns off every right.
    fn turns_off(self) -> Flag
        ensures { result ≡ turns_off self }
    {
        match self {
            Right::Port => Flag::NoPortForwarding,
            Right::Agent => Flag::NoAgentForwarding,
            Right::X11 => Flag::NoX11Forwarding,
            Right::Pty => Flag::NoPty,
            Right::UserRc => Flag::NoUserRc,
        }
    }

    /// The extension of a certificate that gives the right (PROTOCOL.certkeys).
    fn permit(self) -> CertificateOption
        ensures { result ≡ permit_of self }
    {
        match self {
            Right::Port => CertificateOption::PermitPortForwarding,
            Right::Agent => CertificateOption::PermitAgentForwarding,
            Right::X11 => CertificateOption::PermitX11Forwarding,
            Right::Pty => CertificateOption::PermitPty,
            Right::UserRc => CertificateOption::PermitUserRc,
        }
    }

    /// Whether an option turns the right on or off; `None` for other options.
    fn effect(self, option: &OptionView<'_>) -> Option<bool>
        ensures { result ≡ effect_on self (option_in_line option.now) }
    {
        match option {
            OptionView::Switch(flag) if *flag == self.turns_on() => Some(true),
            OptionView::Switch(flag) if *flag == self.turns_off() || *flag == Flag::Restrict => {
                Some(false)
            }
            _ => None,
        }
    }

    /// Whether the right is on after one more option.
    fn is_on_after(self, before: bool, option: &OptionView<'_>) -> bool
        ensures { result ≡ last_word self before (option_in_line option.now ∷ []) }
    {
        self.effect(option).unwrap_or(before)
    }

    /// Whether the offer gives the right: a plain key always, a certificate by its extension.
    fn is_permitted(self, offer: &Offer<'_>) -> bool
        ensures { result ≡ certificate_permits self (offer_of offer.now) }
    {
        match offer {
            Offer::Plain(_) => true,
            Offer::Certified(certificate) => certificate.has_formed(self.permit()),
        }
    }

    /// Whether a login has the right that its line leaves on or not.
    fn holds(self, is_on: bool, offer: &Offer<'_>) -> bool
        ensures { result ≡ (is_on && certificate_permits self (offer_of offer.now)) }
    {
        is_on && self.is_permitted(offer)
    }
}

/// Which rights the options of a line leave on.
#[derive(Clone, Copy)]
struct RightsOn {
    port: bool,
    agent: bool,
    x11: bool,
    pty: bool,
    user_rc: bool,
}

impl RightsOn {
    /// Takes the next option into account.
    fn after(self, option: &OptionView<'_>) -> RightsOn
        ensures { result ≡ on_after self (option_in_line option.now ∷ []) }
    {
        RightsOn {
            port: Right::Port.is_on_after(self.port, option),
            agent: Right::Agent.is_on_after(self.agent, option),
            x11: Right::X11.is_on_after(self.x11, option),
            pty: Right::Pty.is_on_after(self.pty, option),
            user_rc: Right::UserRc.is_on_after(self.user_rc, option),
        }
    }

    /// The rights that are left on, found in one walk through the options. Each is on at first, and
    /// the last option that turns it on or off wins.
    fn of(options: OptionsView<'_>) -> RightsOn
        ensures port { result.port ≡ is_on Port options.entry }
        ensures agent { result.agent ≡ is_on Agent options.entry }
        ensures x11 { result.x11 ≡ is_on X11 options.entry }
        ensures pty { result.pty ≡ is_on Pty options.entry }
        ensures user_rc { result.user_rc ≡ is_on UserRc options.entry }
    {
        let mut on = RightsOn {
            port: true,
            agent: true,
            x11: true,
            pty: true,
            user_rc: true,
        };
        for option in options {
            on = on.after(&option);
        }
        on
    }
}

/// The options whose texts are passed on to whoever starts the session (sshd(8)).
#[derive(Clone, Copy, Debug, PartialEq, Eq)]
pub enum CarriedName {
    Environment,
    PermitListen,
    PermitOpen,
    Tunnel,
}

/// An option whose text is passed on, without its inner syntax being checked.
#[derive(Debug, Drop, PartialEq)]
pub struct Carried {
    pub name: CarriedName,
    pub text: Bytes,
}

/// What an admitted login may do (sshd(8)).
#[derive(Debug, Drop, PartialEq)]
pub struct Rights {
    /// TCP forwarding.
    pub port: bool,
    /// Authentication agent forwarding.
    pub agent: bool,
    /// X11 forwarding.
    pub x11: bool,
    /// Allocation of a terminal.
    pub pty: bool,
    /// Execution of the user's own `~/.ssh/rc`.
    pub user_rc: bool,
    /// The command that the line forces, otherwise the one that the certificate forces.
    pub command: Option<Bytes>,
    /// The options whose texts are passed on, in the order of the line.
    pub carried: Items<Carried>,
}

/// The name under which the text of an option is passed on; `None` if it is not.
fn carried_name(name: ValueName) -> Option<CarriedName>
    ensures { result ≡ carried_name name }
{
    match name {
        ValueName::Environment => Some(CarriedName::Environment),
        ValueName::PermitListen => Some(CarriedName::PermitListen),
        ValueName::PermitOpen => Some(CarriedName::PermitOpen),
        ValueName::Tunnel => Some(CarriedName::Tunnel),
        ValueName::Command | ValueName::ExpiryTime | ValueName::From | ValueName::Principals =>
            None,
    }
}

/// Adds an option, if its text is passed on.
fn carry(
    alloc: Global,
    carried: &mut Vec<Carried>,
    option: &OptionView<'_>,
) -> Result<(), AllocError>
    ensures ok { OnOk result
        (carried.new.items ≡ carried.old.items ++ carried_of (option_in_line option.now)) }
    ensures spare { carried_of (option_in_line option.now) ≡ [] → IsOk result }
{
    if let OptionView::Setting(name, value) = option
        && let Some(name) = carried_name(*name)
    {
        let text = value.to_bytes(alloc)?;
        carried.push(Carried { name, text })?;
    }
    Ok(())
}

/// The options whose texts are passed on, in the order of the line.
#[tactic(auto, using(crate::proofs::SpareLemmas::none_in_the_middle))]
fn carried_texts(alloc: Global, options: OptionsView<'_>) -> Result<Items<Carried>, AllocError>
    ensures value { IfOk result (λ texts. texts ≡ carried_texts options.entry) }
    ensures spare { carried_texts options.entry ≡ [] → IsOk result }
{
    let mut carried = Vec::new(alloc);
    for option in options {
        carry(alloc, &mut carried, &option)?;
    }
    Ok(Items::from_vec(carried))
}

/// The command that the line forces, as a view of the line.
fn line_command<'a>(entry: &AuthEntryView<'a>) -> Option<ValueView<'a>>
    ensures { result ≡ setting Command entry.now.options }
{
    entry.settings(ValueName::Command).next()
}

/// A copy of the command that the certificate forces.
fn certificate_command(alloc: Global, offer: &Offer<'_>) -> Result<Option<Bytes>, AllocError>
    ensures value { IfOk result (λ command. command ≡ forced_by_offer (offer_of offer.now)) }
    ensures spare { forced_by_offer (offer_of offer.now) ≡ None → IsOk result }
{
    match offer {
        Offer::Plain(_) => Ok(None),
        Offer::Certified(certificate) => {
            let text = certificate.text_of(CertificateOption::ForceCommand);
            let command = copied(alloc, text)?;
            Ok(command)
        }
    }
}

fn copied(alloc: Global, text: Option<&[u8]>) -> Result<Option<Bytes>, AllocError>
    ensures value { IfOk result (λ copy. copy ≡ option_copied text.entry) }
    ensures spare { option_copied text.entry ≡ None → IsOk result }
{
    match text {
        None => Ok(None),
        Some(text) => {
            let copy = text.to_vec(alloc)?;
            Ok(Some(Bytes::new(copy)))
        }
    }
}

/// A copy of the forced command: the line's, otherwise the certificate's.
fn command(
    alloc: Global,
    line: Option<ValueView<'_>>,
    offer: &Offer<'_>,
) -> Result<Option<Bytes>, AllocError>
    ensures value { IfOk result (λ command. command ≡ command_of line.entry (offer_of offer.now)) }
    ensures spare { command_of line.entry (offer_of offer.now) ≡ None → IsOk result }
{
    match line {
        Some(value) => {
            let command = value.to_bytes(alloc)?;
            Ok(Some(command))
        }
        None => {
            let command = certificate_command(alloc, offer)?;
            Ok(command)
        }
    }
}

/// What a login by this line and this offer may do: the rights that the line leaves and a
/// certificate gives, the forced command, and the options whose texts are passed on. Fails only
/// when memory cannot be allocated.
#[tactic(auto, unfolding(crate::specs::Rights::rights_of))]
pub fn rights_of(
    alloc: Global,
    entry: &AuthEntryView<'_>,
    offer: &Offer<'_>,
) -> Result<Rights, AllocError>
    ensures value { IfOk result (λ rights. rights ≡ rights_of entry.now (offer_of offer.now)) }
    // Only texts need memory: without a forced command and such options this never fails.
    ensures spare { carried_texts entry.now.options ≡ []
        → command_of (setting Command entry.now.options) (offer_of offer.now) ≡ None
        → IsOk result }
{
    let carried = carried_texts(alloc, entry.options())?;
    let command = command(alloc, line_command(entry), offer)?;
    let on = RightsOn::of(entry.options());
    Ok(Rights {
        port: Right::Port.holds(on.port, offer),
        agent: Right::Agent.holds(on.agent, offer),
        x11: Right::X11.holds(on.x11, offer),
        pty: Right::Pty.holds(on.pty, offer),
        user_rc: Right::UserRc.holds(on.user_rc, offer),
        command,
        carried,
    })
}

/// The flag of a security key's signature for user presence (PROTOCOL.u2f).
const USER_PRESENT: u8 = 1;

/// The flag of a security key's signature for user verification (PROTOCOL.u2f).
const USER_VERIFIED: u8 = 4;

/// Whether this is a security key's signature with the flag.
fn has_sk_flag(flag: u8, sk: Option<(u8, u32)>) -> bool
    ensures { result ≡ has_sk_flag flag sk }
{
    match sk {
        None => false,
        Some((flags, _)) => flags & flag == flag,
    }
}

fn is_present(sk: Option<(u8, u32)>) -> bool
    ensures { result ≡ is_present sk }
{
    sk.is_none() || has_sk_flag(USER_PRESENT, sk)
}

/// A certificate waives the touch by an extension without data; one with data means nothing (this
/// project's rule).
fn is_touch_waived(offer: &Offer<'_>) -> bool
    ensures { result ≡ is_touch_waived (offer_of offer.now) }
{
    match offer {
        Offer::Plain(_) => true,
        Offer::Certified(certificate) => certificate.has_formed(CertificateOption::NoTouchRequired),
    }
}

/// A certificate requires verification by the name of the critical option, whatever its data.
fn is_verification_asked(offer: &Offer<'_>) -> bool
    ensures { result ≡ is_verification_asked (offer_of offer.now) }
{
    match offer {
        Offer::Plain(_) => false,
        Offer::Certified(certificate) => certificate.has_named(CertificateOption::VerifyRequired),
    }
}

/// Whether a security key was touched, where a touch is required. It is required unless the line
/// waives it, and the certificate, if one is offered, waives it too. A signature of any other key
/// passes.
pub fn touch_suffices(entry: &AuthEntryView<'_>, claim: &LoginClaimView<'_>) -> bool
    ensures { result ≡ touch_suffices entry.now.options (claim_of claim.now).offer
        (claim_of claim.now).signature }
{
    is_present(claim.signature.sk)
        || (entry.has_flag(Flag::NoTouchRequired) && is_touch_waived(&claim.offer))
}

/// Whether a security key verified the user, where the line or the certificate requires it. A
/// signature of any other key verifies nobody (this project's rule).
pub fn verification_suffices(entry: &AuthEntryView<'_>, claim: &LoginClaimView<'_>) -> bool
    ensures { result ≡ verification_suffices entry.now.options (claim_of claim.now).offer
        (claim_of claim.now).signature }
{
    let wanted = entry.has_flag(Flag::VerifyRequired) || is_verification_asked(&claim.offer);
    !wanted || has_sk_flag(USER_VERIFIED, claim.signature.sk)
}
