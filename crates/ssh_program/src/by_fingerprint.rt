//! The response to `admits --fingerprint`: whether trust files would let in the key of a fingerprint,
//! which is the first key of it that each file holds.

ghost use Rattle.std.specs.Prelude.{◌≡◌, IfOk, map, option_map};
ghost use Rattle.jiff.specs.Words.{plain_zone};
ghost use Rattle.ssh_files.specs.FilesInTurn.{TellsFile, TellsFiles};
ghost use Rattle.ssh_files.specs.SourceState.{IfTells};
ghost use Rattle.ssh_print.specs.FingerprintKeys.{found_key, offered_key};
ghost use Rattle.ssh_print.specs.Offering.{offer_seen};
ghost use Rattle.ssh_print.specs.OtherLines.{otherwise_seen, unreported_other};
ghost use Rattle.ssh_print.specs.ResponseView.{response};
ghost use Rattle.ssh_program.specs.Admissions.{nothing_reported, reported_both};
ghost use Rattle.ssh_program.specs.AdmissionsView.{reported_seen};
ghost use Rattle.ssh_program.specs.ArgsView.{IfAnswered, Spells, rows_in};
ghost use Rattle.ssh_program.specs.Clients.{client_asks};
ghost use Rattle.ssh_program.specs.ClientView.{client_seen};
ghost use Rattle.ssh_program.specs.FingerprintValues.{fingerprint_bytes};
ghost use Rattle.ssh_program.specs.Fingerprints.{AsksFingerprint, IsUnreadFile, absent_in, fingerprint_telling, reported_absent, reported_alone, reported_found};
ghost use Rattle.ssh_program.specs.Keys.{AdmitsAt};
ghost use Rattle.ssh_program.specs.Spelling.{value};
ghost use Rattle.ssh_program.specs.declared.args.ArgName.TheVariants as option;
ghost use Rattle.ssh_program.specs.declared.args.KeyPlace.TheVariants.{Fingerprint};

use crate::admission::{
    FileAnswer, Outcome, denied_outcome, reported_response, tell_alone, tell_fault,
};
use crate::args::{ArgName, Args};
use crate::client::Client;
use crate::command::CommandError;
use crate::decision_form::DecisionForm;
use crate::fingerprint_value::read_fingerprint;
use jiff::tz::TimeZone;
use ssh_files::{Files, ReadError, read_whole};
use ssh_offers::{AuditError, Items};
use ssh_patterns::parse_address;
use ssh_print::{
    OfferedKey, Otherwise, Response, Subject, absent_text, audit_fault, find_key, other_unreported,
    stand_in,
};
use ssh_review::answer_object;
use ssh_trust::{Cause, Decision};
use std::alloc::{AllocError, Global};

/// The printed answer of a file that holds no key of the fingerprint, or its object.
fn absent_in(
    alloc: Global,
    form: DecisionForm,
    name: &[u8],
    other: &Otherwise,
) -> Result<Vec<u8>, AllocError>
    ensures { IfOk result (λ text. text.items ≡ absent_in form name.now (otherwise_seen other.now)) }
{
    match form {
        DecisionForm::Text => {
            let mut text = absent_text(alloc, name)?;
            text.extend_from_slice(&other.text)?;
            Ok(text)
        }
        DecisionForm::Json => {
            let denied: Result<Decision, AuditError> = Ok(Decision::Denied {
                why: Cause::NoLine,
                reasons: Items::new(alloc),
                evidence: Items::new(alloc),
            });
            answer_object(alloc, Subject::Client, name, other, &denied)
        }
    }
}

/// The answer of a file that holds no key of the fingerprint.
fn tell_absent(
    alloc: Global,
    form: DecisionForm,
    name: &[u8],
    file: &[u8],
) -> Result<FileAnswer, AllocError>
    ensures { IfOk result (λ reported. reported_seen reported ≡ reported_absent form name.now (unreported_other file.now)) }
{
    let other = other_unreported(alloc, file)?;
    let outcome = denied_outcome(other.may_admit);
    let text = absent_in(alloc, form, name, &other)?;
    Ok(FileAnswer { outcome, text })
}

/// The answer of a file about the key that it holds.
fn tell_offered(
    alloc: Global,
    client: &Client<'_>,
    offer: &OfferedKey,
    name: &[u8],
    file: &[u8],
) -> Result<FileAnswer, AllocError>
    ensures { IfOk result (λ reported. reported_seen reported
        ≡ reported_alone (client_asks (client_seen client.now) (offer_seen offer.now)) name.now file.now) }
{
    let signature = stand_in(alloc, offer.kind)?;
    let question = client.question(offer, signature.as_slice());
    let reported = tell_alone(alloc, client.who(), &question, name, file)?;
    Ok(reported)
}

fn tell_found(
    alloc: Global,
    client: &Client<'_>,
    offer: Option<OfferedKey>,
    name: &[u8],
    file: &[u8],
) -> Result<FileAnswer, AllocError>
    ensures { IfOk result (λ reported. reported_seen reported
        ≡ reported_found (client_seen client.now) name.now file.now (option_map offer_seen offer)) }
{
    match offer {
        None => tell_absent(alloc, client.form, name, file),
        Some(offer) => tell_offered(alloc, client, &offer, name, file),
    }
}

/// The answer of a file with these bytes.
fn tell_bytes(
    alloc: Global,
    client: &Client<'_>,
    digest: &[u8; 32],
    name: &[u8],
    file: &[u8],
) -> Result<FileAnswer, AllocError>
    ensures { IfOk result (λ reported. reported_seen reported ≡ reported_found (client_seen client.now) name.now
        file.now (option_map offered_key (found_key digest.now file.now))) }
{
    let offer = find_key(alloc, file, digest)?;
    let reported = tell_found(alloc, client, offer, name, file)?;
    Ok(reported)
}

/// The answer of a file whose bytes could not be had.
fn tell_unread(
    alloc: Global,
    client: &Client<'_>,
    name: &[u8],
    fault: ReadError,
) -> Result<FileAnswer, AllocError>
    ensures { IfOk result
        (λ reported. IsUnreadFile (client_seen client.now).form name.now fault (reported_seen reported)) }
{
    match fault {
        ReadError::Memory => Err(AllocError),
        ReadError::TooLong => tell_fault(alloc, client.who(), name, AuditError::FileTooLong),
        ReadError::Missing | ReadError::Failed => {
            tell_fault(alloc, client.who(), name, AuditError::Read)
        }
    }
}

/// The answer of the trust file of this name.
fn tell_file<F: Files>(
    alloc: Global,
    client: &Client<'_>,
    digest: &[u8; 32],
    name: &str,
    files: &mut F,
) -> Result<FileAnswer, AllocError>
    ensures { IfTells (F.source_state files.old) (λ s. IfOk result (λ reported.
        TellsFile (fingerprint_telling (client_seen client.now) digest.now) name.now s
        (F.source_state files.new) (reported_seen reported))) }
{
    match read_whole(alloc, files, name) {
        Ok(file) => tell_bytes(alloc, client, digest, name.as_bytes(), &file),
        Err(fault) => tell_unread(alloc, client, name.as_bytes(), fault),
    }
}

/// The answers of the trust files of these names, in their order. A file that cannot be read has
/// its fault, and the next one is read all the same.
fn tell_files<F: Files>(
    alloc: Global,
    client: &Client<'_>,
    digest: &[u8; 32],
    names: &[&str],
    files: &mut F,
) -> Result<FileAnswer, AllocError>
    ensures { IfTells (F.source_state files.old) (λ s. IfOk result (λ reported.
        TellsFiles reported_both (fingerprint_telling (client_seen client.now) digest.now) nothing_reported
        (map (λ name. name.now) names.now) s (F.source_state files.new) (reported_seen reported))) }
{
    let mut outcome = Outcome::Denies;
    let mut text = Vec::new(alloc);
    for name in names {
        let reported = tell_file(alloc, client, digest, name, files)?;
        outcome = outcome.and_then(reported.outcome);
        text.extend_from_slice(&reported.text)?;
    }
    Ok(FileAnswer { outcome, text })
}

/// The response by the trust files of these names, about the key with this SHA-256 in each.
fn ask_fingerprint<F: Files>(
    alloc: Global,
    client: &Client<'_>,
    digest: &[u8; 32],
    names: &[&str],
    files: &mut F,
) -> Result<Response, AllocError>
    ensures { IfTells (F.source_state files.old) (λ s. IfOk result (λ r.
        AsksFingerprint (client_seen client.now) digest.now (map (λ name. name.now) names.now) s
        (F.source_state files.new) (response r))) }
{
    // No rule on a key refuses one that was found, so the address alone is tested here.
    match parse_address(client.address) {
        Err(_) => audit_fault(alloc, AuditError::Address),
        Ok(_) => {
            let reported = tell_files(alloc, client, digest, names, files)?;
            let response = reported_response(
                alloc,
                client.who(),
                &client.at(),
                names.len(),
                reported,
            )?;
            Ok(response)
        }
    }
}

/// The digest in the fingerprint that is given.
fn given_digest(words: &Args<'_>) -> Result<[u8; 32], CommandError>
    ensures { Spells (λ digest. digest)
        (value fingerprint_bytes option.Fingerprint (rows_in words.now)) result }
{
    let text = words.needed(ArgName::Fingerprint)?;
    ArgName::Fingerprint.or_fault(read_fingerprint(text))
}

/// The response to `admits` where the key's fingerprint is given.
#[tactic(auto, unfolding(crate::specs::Keys::fingerprint_spelled))]
pub fn admits_by_fingerprint<F: Files>(
    alloc: Global,
    words: &Args<'_>,
    zone: Option<TimeZone<'static>>,
    files: &mut F,
) -> Result<Response, CommandError>
    ensures { IfTells (F.source_state files.old) (λ s. IfAnswered result (λ r.
        AdmitsAt (rows_in words.now) (option_map plain_zone zone.entry) Fingerprint s
        (F.source_state files.new) r)) }
{
    let digest = given_digest(words)?;
    let client = Client::read(words, zone)?;
    let names = words.needed_names()?;
    let response = ask_fingerprint(alloc, &client, &digest, names, files)?;
    Ok(response)
}
