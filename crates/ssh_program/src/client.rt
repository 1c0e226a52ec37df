//! The client that `admits` asks about: a login without its key and signature.

ghost use Rattle.std.specs.Prelude.{◌<◌, ◌^◌, length};

use crate::admission::AnswerForm;
use crate::args::{ArgName, Args};
use crate::command::CommandError;
use crate::decision_form::{DecisionForm, decision_form};
use crate::question::LoginQuestion;
use crate::review_zone::zone_text;
use jiff::tz::TimeZone;
use ssh_offers::{EmptyPrincipals, LoginQuery};
use ssh_print::{OfferedKey, Subject, login_algorithm};
use ssh_review::AskedAt;

/// Who logs in, from where and when, and how the answer is printed.
#[derive(Drop)]
pub struct Client<'a> {
    pub user: &'a [u8],
    pub host: Option<&'a [u8]>,
    pub address: &'a [u8],
    pub time: u64,
    pub zone: TimeZone<'static>,
    /// The POSIX rule of the zone.
    pub rule: &'a [u8],
    pub empty_principals: EmptyPrincipals,
    pub rsa_minimum: u32,
    pub form: DecisionForm,
    ghost short: { length user.now < 2 ^ 32 },
}

impl<'a> Client<'a> {
    ghost use Rattle.std.specs.Prelude.{◌≡◌, option_map};
    ghost use Rattle.jiff.specs.Words.{plain_zone};
    ghost use Rattle.ssh_offers.specs.LoginClaim.{login_claim};
    ghost use Rattle.ssh_print.specs.Offering.{offer_seen};
    ghost use Rattle.ssh_program.specs.ArgsView.{Spells, rows_in};
    ghost use Rattle.ssh_program.specs.Clients.{client_form, client_moment, client_spelled, login_with};
    ghost use Rattle.ssh_program.specs.ClientView.{client_seen};
    ghost use Rattle.ssh_review.specs.Asked.{asked_of};

    /// The client by the values of the options, where that of the zone has been read; `None` where
    /// its text is no zone.
    #[tactic(auto, unfolding(crate::specs::Clients::client_spelled))]
    pub fn read(
        words: &Args<'a>,
        zone: Option<TimeZone<'static>>,
    ) -> Result<Client<'a>, CommandError>
        ensures { Spells client_seen
            (client_spelled (rows_in words.now) (option_map plain_zone zone.entry)) result }
    {
        let user = words.short_text(ArgName::User)?;
        let time = words.number(ArgName::Now)?;
        let zone = ArgName::Zone.or_fault(zone)?;
        let empty_principals = words.empty_principals()?;
        let rsa_minimum = words.rsa_minimum()?;
        let form = decision_form(words)?;
        let address = words.needed(ArgName::Address)?;
        let rule = zone_text(words.given(ArgName::Zone));
        Ok(Client {
            user: user.as_bytes(),
            host: words.given(ArgName::Host).map(str::as_bytes),
            address: address.as_bytes(),
            time,
            zone,
            rule,
            empty_principals,
            rsa_minimum,
            form,
        })
    }

    /// The login of this offer with this signature. The session identifier is empty, since no rule
    /// looks into it.
    pub fn question<'b>(&'b self, offer: &'b OfferedKey, signature: &'b [u8]) -> LoginQuestion<'b>
        ensures { result
            ≡ login_claim (login_with (client_seen self.now) (offer_seen offer.now) signature.now) }
    {
        let query = LoginQuery {
            offered: offer.blob.as_slice(),
            signature,
            algorithm: login_algorithm(offer.kind, offer.is_certificate),
            session: b"",
            user: self.user,
            host: self.host,
            address: self.address,
            now: self.time,
            zone: &self.zone,
            empty_principals: self.empty_principals,
            rsa_minimum: self.rsa_minimum,
        };
        LoginQuestion::read(&query)
    }

    /// When the question is asked.
    pub fn at(&self) -> AskedAt<'_>
        ensures { asked_of result ≡ client_moment (client_seen self.now) }
    {
        AskedAt {
            now: self.time,
            zone: Some(self.rule),
        }
    }

    /// Whose key is asked about, and how the answer is printed.
    pub fn who(&self) -> AnswerForm
        ensures { result ≡ client_form self.now.form }
    {
        AnswerForm {
            subject: Subject::Client,
            form: self.form,
        }
    }
}
