//! How soon to mend what a finding tells.

ghost use Rattle.std.specs.Prelude.{◌≡◌};
ghost use Rattle.ssh_findings.specs.Urgency.{how_soon};

use crate::code::Code;

/// How soon to mend what a finding tells.
#[derive(Clone, Copy, Debug, PartialEq, Eq)]
pub enum Urgency {
    /// A line does other than it seems to do, or nobody can say what it does.
    Today,
    /// A weak key, a way around a limit, or two lines for one key.
    Soon,
    /// Lines that let nobody in, or never decide.
    TidyUp,
    /// Reported because it was asked for: a policy may want it otherwise.
    Policy,
}

/// How soon to mend what this code tells.
pub fn how_soon(code: Code) -> Urgency
    ensures { result ≡ how_soon code }
{
    match code {
        Code::Unreadable => Urgency::Today,
        Code::SameKey => Urgency::Soon,
        Code::NeverDecides => Urgency::TidyUp,
        Code::GivesMore => Urgency::Today,
        Code::ShortKey => Urgency::Soon,
        Code::Expired => Urgency::TidyUp,
        Code::PermitsNobody => Urgency::Soon,
        Code::ReadOtherwise => Urgency::Today,
        Code::ForcedButForwards => Urgency::Soon,
        Code::UnreadableRevocation => Urgency::Today,
        Code::OtherKey => Urgency::Today,
        Code::TrustedAndRevoked => Urgency::Today,
        Code::PatternHosts => Urgency::Soon,
        Code::EveryHost => Urgency::Today,
        Code::AnyAddress => Urgency::Policy,
        Code::AnyCommand => Urgency::Policy,
        Code::NoExpiry => Urgency::Policy,
        Code::AnyPrincipal => Urgency::Policy,
        Code::NoComment => Urgency::Policy,
        Code::NamesInClear => Urgency::Policy,
        Code::SameHostKey => Urgency::Policy,
        Code::MayRefuse => Urgency::Today,
    }
}
