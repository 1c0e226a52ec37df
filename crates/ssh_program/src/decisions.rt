//! The responses to `login` and `host`: the decision of one trust file, with a signature and with
//! vouched evidence.

ghost use Rattle.std.specs.Prelude.{option_map};
ghost use Rattle.jiff.specs.Words.{plain_zone};
ghost use Rattle.ssh_program.specs.Logins.{RespondsInZone, RespondsToLogin};
ghost use Rattle.ssh_program.specs.OfferTextsView.{texts_seen};
ghost use Rattle.ssh_program.specs.ArgsView.{IfAnswered, rows_in};
ghost use Rattle.ssh_files.specs.SourceState.{IfTells};
ghost use Rattle.ssh_program.specs.Hosts.{RespondsToHost, RespondsToHostKey};

use crate::args::{ArgName, Args};
use crate::audit::respond_question;
use crate::command::CommandError;
use crate::question::{HostQuestion, LoginQuestion};
use crate::texts::{NoText, TakenTexts, take_texts};
use jiff::tz::TimeZone;
use ssh_files::{Files, zone_of};
use ssh_offers::{HostQuery, LoginQuery};
use ssh_print::Response;
use std::alloc::Global;

/// The response to `login`, where the zone and the texts have been read. The fault names the first
/// option with an invalid value, in the order of the code.
#[tactic(auto, unfolding(crate::specs::Logins::login_spelled))]
fn respond_in_zone<F: Files>(
    alloc: Global,
    words: &Args<'_>,
    zone: Option<TimeZone<'static>>,
    texts: &TakenTexts<'_>,
    files: &mut F,
) -> Result<Response, CommandError>
    ensures { IfTells (F.source_state files.old) (λ s. IfAnswered result (λ r.
        RespondsInZone (rows_in words.now) (option_map plain_zone zone.entry) (texts_seen texts.now) s
        (F.source_state files.new) r)) }
{
    let names = words.audit_files()?;
    let offered = texts.offer.base64(alloc)?;
    let signature = texts.signature.hex(alloc)?;
    let session = words.short_hex(alloc, ArgName::Session)?;
    let user = words.short_text(ArgName::User)?;
    let now = words.number(ArgName::Now)?;
    let zone = ArgName::Zone.or_fault(zone)?;
    let empty_principals = words.empty_principals()?;
    let rsa_minimum = words.rsa_minimum()?;
    let algorithm = words.needed(ArgName::Algorithm)?;
    let address = words.needed(ArgName::Address)?;
    let query = LoginQuery {
        offered: offered.as_slice(),
        signature: signature.as_slice(),
        algorithm: algorithm.as_bytes(),
        session: session.as_slice(),
        user: user.as_bytes(),
        host: words.given(ArgName::Host).map(str::as_bytes),
        address: address.as_bytes(),
        now,
        zone: &zone,
        empty_principals,
        rsa_minimum,
    };
    let question = LoginQuestion::read(&query);
    let response = respond_question(alloc, &names, &question, files)?;
    Ok(response)
}

/// The response to `login`. The files of the offer and of its signature are read first.
pub fn respond_login<F: Files>(
    alloc: Global,
    words: &Args<'_>,
    files: &mut F,
) -> Result<Response, CommandError>
    ensures { IfTells (F.source_state files.old) (λ s. IfAnswered result (λ r.
        RespondsToLogin (rows_in words.now) s (F.source_state files.new) r)) }
{
    let zone = zone_of(words.given(ArgName::Zone));
    let places = words.text_places()?;
    match take_texts(alloc, &places, files) {
        Ok(texts) => respond_in_zone(alloc, words, zone, &texts, files),
        Err(NoText::Reported(response)) => Ok(response),
        Err(NoText::Memory) => Err(CommandError::Memory),
    }
}

/// The response to `host`, where the texts have been read. The fault names the first option with an
/// invalid value, in the order of the code.
#[tactic(auto, unfolding(crate::specs::Hosts::host_spelled))]
fn respond_by_texts<F: Files>(
    alloc: Global,
    words: &Args<'_>,
    texts: &TakenTexts<'_>,
    files: &mut F,
) -> Result<Response, CommandError>
    ensures { IfTells (F.source_state files.old) (λ s. IfAnswered result (λ r.
        RespondsToHostKey (rows_in words.now) (texts_seen texts.now) s (F.source_state files.new)
        r)) }
{
    let names = words.audit_files()?;
    let offered = texts.offer.base64(alloc)?;
    let signature = texts.signature.hex(alloc)?;
    let exchange_hash = words.hex(alloc, ArgName::Hash)?;
    let port = words.port(ArgName::Port)?;
    let now = words.number(ArgName::Now)?;
    let empty_principals = words.empty_principals()?;
    let rsa_minimum = words.rsa_minimum()?;
    let host = words.needed(ArgName::Host)?;
    let query = HostQuery {
        offered: offered.as_slice(),
        signature: signature.as_slice(),
        exchange_hash: exchange_hash.as_slice(),
        host: host.as_bytes(),
        port,
        now,
        empty_principals,
        rsa_minimum,
    };
    let question = HostQuestion::read(&query);
    let response = respond_question(alloc, &names, &question, files)?;
    Ok(response)
}

/// The response to `host`. The files of the offer and of its signature are read first.
pub fn respond_host<F: Files>(
    alloc: Global,
    words: &Args<'_>,
    files: &mut F,
) -> Result<Response, CommandError>
    ensures { IfTells (F.source_state files.old) (λ s. IfAnswered result (λ r.
        RespondsToHost (rows_in words.now) s (F.source_state files.new) r)) }
{
    let places = words.text_places()?;
    match take_texts(alloc, &places, files) {
        Ok(texts) => respond_by_texts(alloc, words, &texts, files),
        Err(NoText::Reported(response)) => Ok(response),
        Err(NoText::Memory) => Err(CommandError::Memory),
    }
}
