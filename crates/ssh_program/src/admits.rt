//! The responses to `admits` and `trusts`: whether trust files would let in the key in a public
//! key's file.

ghost use Rattle.std.specs.Prelude.{IfOk, map, [], option_map};
ghost use Rattle.ssh_program.specs.Admissions.{AsksFiles, AsksKey, AsksOffer, KeyAsking, or_shown_fault};
ghost use Rattle.ssh_files.specs.SourceState.{IfTells};
ghost use Rattle.ssh_print.specs.ResponseView.{response};
ghost use Rattle.ssh_print.specs.Offering.{Offered, shown_offer_in, offer_seen};
ghost use Rattle.jiff.specs.Words.{plain_zone};
ghost use Rattle.ssh_print.specs.StandIn.{stand_in};
ghost use Rattle.ssh_program.specs.Clients.{client_asks};
ghost use Rattle.ssh_program.specs.ClientView.{client_seen};
ghost use Rattle.ssh_program.specs.Keys.{AdmitsAt, AdmitsInZone, RespondsToAdmits, RespondsToTrusts, host_asking};
ghost use Rattle.ssh_program.specs.declared.args.KeyPlace.TheVariants.{File};
ghost use Rattle.ssh_program.specs.ArgsView.{IfAnswered, rows_in};

use crate::admission::{AnswerForm, ask_files};
use crate::args::{ArgName, Args, KeyPlace};
use crate::audit::unread;
use crate::by_fingerprint::admits_by_fingerprint;
use crate::client::Client;
use crate::command::CommandError;
use crate::decision_form::{DecisionForm, decision_form};
use crate::question::HostQuestion;
use jiff::tz::TimeZone;
use ssh_files::{Files, read_top_line, zone_of};
use ssh_offers::{EmptyPrincipals, HostQuery};
use ssh_print::{OfferedKey, Response, Subject, read_offer, show_fault, stand_in};
use ssh_review::AskedAt;
use std::alloc::{AllocError, Global};

/// The names of the input files of `login` and `host`: a trust file, and a vouch file where one is
/// given.
#[derive(Clone, Copy)]
pub struct AuditFiles<'a> {
    pub trust: &'a str,
    pub vouch: Option<&'a str>,
}

/// The options of `sshsig`: the names of the files of the SSHSIG body, of the message, and of the
/// vouch signatures where one is given. The signature has to be for `namespace`.
#[derive(Clone, Copy)]
pub struct SshsigQuestion<'a> {
    pub body: &'a str,
    pub message: &'a str,
    pub namespace: &'a str,
    pub vouch: Option<&'a str>,
}

/// All that is asked about a key or certificate, without the key itself.
pub trait KeyQuestion {
    /// The question to each trust file about this offer.
    ghost asks: { Self → Offered → KeyAsking };

    /// The response about this offer by the trust files of these names.
    fn ask<F: Files>(
        &self,
        alloc: Global,
        offer: &OfferedKey,
        names: &[&str],
        files: &mut F,
    ) -> Result<Response, AllocError>
        ensures { IfTells (F.source_state files.old) (λ s. IfOk result (λ r.
            AsksFiles (asks self.entry.now (offer_seen offer.now))
            (map (λ name. name.now) names.now) s (F.source_state files.new) (response r))) };
}

/// The response by the first line of the key's file.
fn ask_line<K: KeyQuestion, F: Files>(
    alloc: Global,
    question: &K,
    line: &[u8],
    names: &[&str],
    files: &mut F,
) -> Result<Response, AllocError>
    ensures { IfTells (F.source_state files.old) (λ s. IfOk result (λ r.
        AsksOffer (K.asks question.entry.now) (or_shown_fault (shown_offer_in line.now))
        (map (λ name. name.now) names.now) s (F.source_state files.new) (response r))) }
{
    match read_offer(alloc, line) {
        Ok(offer) => question.ask(alloc, &offer, names, files),
        Err(error) => show_fault(alloc, error),
    }
}

/// The response about the key in the file of this name. The key's file is read before the trust
/// files. It is read to its end, and only its first line is stored.
pub fn ask_key<K: KeyQuestion, F: Files>(
    alloc: Global,
    question: &K,
    key: &str,
    names: &[&str],
    files: &mut F,
) -> Result<Response, AllocError>
    ensures { IfTells (F.source_state files.old) (λ s. IfOk result (λ r.
        AsksKey (K.asks question.entry.now) key.now (map (λ name. name.now) names.now) s
        (F.source_state files.new) (response r))) }
{
    match read_top_line(alloc, files, key) {
        Ok(line) => ask_line(alloc, question, &line, names, files),
        Err(fault) => unread(alloc, key, fault),
    }
}

impl KeyQuestion for Client<'_> {
    ghost asks = { λ x o. client_asks (client_seen x) o };

    fn ask<F: Files>(
        &self,
        alloc: Global,
        offer: &OfferedKey,
        names: &[&str],
        files: &mut F,
    ) -> Result<Response, AllocError> {
        let signature = stand_in(alloc, offer.kind)?;
        let question = self.question(offer, signature.as_slice());
        let response = ask_files(alloc, self.who(), &self.at(), &question, names, files)?;
        Ok(response)
    }
}

/// The response to `admits` where the key's file is given.
#[tactic(auto, unfolding(crate::specs::Keys::admits_spelled))]
fn admits_by_file<F: Files>(
    alloc: Global,
    words: &Args<'_>,
    zone: Option<TimeZone<'static>>,
    files: &mut F,
) -> Result<Response, CommandError>
    ensures { IfTells (F.source_state files.old) (λ s. IfAnswered result (λ r.
        AdmitsAt (rows_in words.now) (option_map plain_zone zone.entry) File s
        (F.source_state files.new) r)) }
{
    let key = words.needed(ArgName::Key)?;
    let client = Client::read(words, zone)?;
    let names = words.needed_names()?;
    let response = ask_key(alloc, &client, key, names, files)?;
    Ok(response)
}

/// The response to `admits`, where the option for the zone has been read; `None` where its text is
/// no zone.
fn admits_in_zone<F: Files>(
    alloc: Global,
    words: &Args<'_>,
    zone: Option<TimeZone<'static>>,
    files: &mut F,
) -> Result<Response, CommandError>
    ensures { IfTells (F.source_state files.old) (λ s. IfAnswered result (λ r.
        AdmitsInZone (rows_in words.now) (option_map plain_zone zone.entry) s
        (F.source_state files.new) r)) }
{
    let place = words.key_place()?;
    match place {
        KeyPlace::File => admits_by_file(alloc, words, zone, files),
        KeyPlace::Fingerprint => admits_by_fingerprint(alloc, words, zone, files),
    }
}

/// The response to `admits`: whether `authorized_keys` files let the key in.
pub fn respond_admits<F: Files>(
    alloc: Global,
    words: &Args<'_>,
    files: &mut F,
) -> Result<Response, CommandError>
    ensures { IfTells (F.source_state files.old) (λ s. IfAnswered result (λ r.
        RespondsToAdmits (rows_in words.now) s (F.source_state files.new) r)) }
{
    let zone = zone_of(words.given(ArgName::Zone));
    admits_in_zone(alloc, words, zone, files)
}

/// The options of `trusts`: a host without its key and signature. The exchange hash is empty and
/// the signature is a stand-in, since no rule looks into either.
#[derive(Clone, Copy)]
struct Host<'a> {
    name: &'a [u8],
    port: u16,
    now: u64,
    empty_principals: EmptyPrincipals,
    rsa_minimum: u32,
    form: DecisionForm,
}

impl KeyQuestion for Host<'_> {
    ghost asks = { λ x o. host_asking x.form (record {
      offered = o.blob;
      signature = stand_in o.kind;
      exchange_hash = [];
      host = x.name.now;
      port = x.port;
      now = x.now;
      empty_principals = x.empty_principals;
      rsa_minimum = x.rsa_minimum;
    }) };

    fn ask<F: Files>(
        &self,
        alloc: Global,
        offer: &OfferedKey,
        names: &[&str],
        files: &mut F,
    ) -> Result<Response, AllocError> {
        let signature = stand_in(alloc, offer.kind)?;
        let query = HostQuery {
            offered: offer.blob.as_slice(),
            signature: signature.as_slice(),
            exchange_hash: b"",
            host: self.name,
            port: self.port,
            now: self.now,
            empty_principals: self.empty_principals,
            rsa_minimum: self.rsa_minimum,
        };
        let who = AnswerForm {
            subject: Subject::Host,
            form: self.form,
        };
        let at = AskedAt {
            now: self.now,
            zone: None,
        };
        let question = HostQuestion::read(&query);
        let response = ask_files(alloc, who, &at, &question, names, files)?;
        Ok(response)
    }
}

/// The response to `trusts`: whether `known_hosts` files trust the host's key.
#[tactic(auto, unfolding(crate::specs::Keys::trusts_spelled))]
pub fn respond_trusts<F: Files>(
    alloc: Global,
    words: &Args<'_>,
    files: &mut F,
) -> Result<Response, CommandError>
    ensures { IfTells (F.source_state files.old) (λ s. IfAnswered result (λ r.
        RespondsToTrusts (rows_in words.now) s (F.source_state files.new) r)) }
{
    let key = words.needed(ArgName::Key)?;
    let now = words.number(ArgName::Now)?;
    let port = words.usual_port()?;
    let empty_principals = words.empty_principals()?;
    let rsa_minimum = words.rsa_minimum()?;
    let form = decision_form(words)?;
    let name = words.needed(ArgName::Host)?;
    let names = words.needed_names()?;
    let host = Host {
        name: name.as_bytes(),
        port,
        now,
        empty_principals,
        rsa_minimum,
        form,
    };
    let response = ask_key(alloc, &host, key, names, files)?;
    Ok(response)
}
