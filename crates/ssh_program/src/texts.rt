//! The texts of an offer and of its signature, from the command line or from files, and the
//! signatures to look for in a vouch file.

ghost use Rattle.std.specs.Prelude.{◌≡◌, IfOk};
ghost use Rattle.ssh_files.specs.SourceState.{IfTells};
ghost use Rattle.ssh_program.specs.OfferTexts.{text_on};
ghost use Rattle.ssh_program.specs.declared.texts.NoText.TheVariants.{Memory};
ghost use Rattle.ssh_program.specs.OfferTextsView.{TakesText, TakesTexts, taken_seen};
ghost use Rattle.ssh_program.specs.Texts.{spelled_by};
ghost use Rattle.ssh_program.specs.TextsView.{place_seen, places_seen};
ghost use Rattle.ssh_program.specs.ArgsView.{Spells};
ghost use Rattle.base64.specs.Engines.{standard};
ghost use Rattle.base64.specs.GeneralPurpose.{decoded_of};
ghost use Rattle.ssh_files.specs.Values.{hex_bytes};
ghost use Rattle.ssh_files.specs.Seeking.{wanted_of};
ghost use Rattle.ssh_program.specs.NeededVouches.{RestsOn, first_resting, evidence_found, second_resting, wanted_in};

use crate::args::ArgName;
use crate::audit::{Question, unread};
use crate::command::CommandError;
use ssh_entries::key_text;
use ssh_files::{Files, Found, read_top_line};
use ssh_offers::{AuditError, Items, Signed};
use ssh_print::Response;
use std::alloc::{AllocError, Global};

/// Where the text of an option is given.
#[derive(Clone, Copy)]
pub enum TextPlace<'a> {
    /// The text itself, as the value of this option.
    Word(ArgName, &'a str),
    /// On the first line of the file of this name, which is the value of this option.
    File(ArgName, &'a str),
}

/// Where the texts of an offer and of its signature are given.
#[derive(Clone, Copy)]
pub struct TextPlaces<'a> {
    pub offer: TextPlace<'a>,
    pub signature: TextPlace<'a>,
}

/// The second field of a line, since a public key's file has the base64 after the type (sshd(8));
/// or its only field. The type is not compared, since the blob has it too.
fn text_on(line: &[u8]) -> &[u8]
    ensures { result.now ≡ text_on line.now }
{
    let fields = key_text(line);
    if fields.base64.is_empty() {
        fields.type_name
    } else {
        fields.base64
    }
}

/// A text that has been read.
#[derive(Drop)]
pub enum TakenText<'a> {
    /// The value of this option.
    Word(ArgName, &'a str),
    /// The first line of the file that this option names.
    Line(ArgName, Vec<u8>),
}

impl TakenText<'_> {
    /// The bytes of the text in base64; else the error names the option.
    pub fn base64(&self, alloc: Global) -> Result<Vec<u8>, CommandError>
        ensures { Spells (λ v. v.items) (spelled_by (decoded_of standard) (taken_seen self.now))
            result }
    {
        match self {
            TakenText::Word(option, text) => option.base64(alloc, text.as_bytes()),
            TakenText::Line(option, line) => option.base64(alloc, text_on(line)),
        }
    }

    /// The bytes of the text in hexadecimal; else the error names the option.
    pub fn hex(&self, alloc: Global) -> Result<Vec<u8>, CommandError>
        ensures { Spells (λ v. v.items) (spelled_by hex_bytes (taken_seen self.now)) result }
    {
        match self {
            TakenText::Word(option, text) => option.hex(alloc, text.as_bytes()),
            TakenText::Line(option, line) => option.hex(alloc, text_on(line)),
        }
    }
}

/// The texts of an offer and of its signature.
#[derive(Drop)]
pub struct TakenTexts<'a> {
    pub offer: TakenText<'a>,
    pub signature: TakenText<'a>,
}

/// Why there is no text.
#[derive(Drop)]
pub enum NoText {
    /// Its file cannot be read; this is the response.
    Reported(Response),
    Memory,
}

impl From<AllocError> for NoText {
    ghost from_gives = { λ x e. e ≡ Memory };

    fn from(_e: AllocError) -> NoText {
        NoText::Memory
    }
}

/// The text at this place.
fn take_text<'a, F: Files>(
    alloc: Global,
    place: TextPlace<'a>,
    files: &mut F,
) -> Result<TakenText<'a>, NoText>
    ensures { IfTells (F.source_state files.old)
        (λ s. TakesText (place_seen place.entry) s (F.source_state files.new) result) }
{
    match place {
        TextPlace::Word(option, text) => Ok(TakenText::Word(option, text)),
        TextPlace::File(option, name) => match read_top_line(alloc, files, name) {
            Ok(line) => Ok(TakenText::Line(option, line)),
            Err(fault) => Err(NoText::Reported(unread(alloc, name, fault)?)),
        },
    }
}

/// The texts at these places; the offer's is read first. A file is read to its end, and only its
/// first line is stored.
pub fn take_texts<'a, F: Files>(
    alloc: Global,
    places: &TextPlaces<'a>,
    files: &mut F,
) -> Result<TakenTexts<'a>, NoText>
    ensures { IfTells (F.source_state files.old)
        (λ s. TakesTexts (places_seen places.now) s (F.source_state files.new) result) }
{
    let offer = take_text(alloc, places.offer, files)?;
    let signature = take_text(alloc, places.signature, files)?;
    Ok(TakenTexts { offer, signature })
}

/// The signatures to look for in a vouch file: those that a decision rests on, or none if the offer
/// is refused.
pub fn wanted<Q: Question>(alloc: Global, question: &Q) -> Result<Items<Signed>, AllocError>
    ensures evidence { IfOk result (λ evidence. evidence ≡ wanted_in (Q.rests_on question.entry.now)) }
    ensures rests { RestsOn (Q.decides question.entry.now) (Q.rests_on question.entry.now) }
{
    match question.evidence(alloc) {
        Ok(evidence) => Ok(evidence),
        Err(AuditError::Memory) => Err(AllocError),
        // The vouch file is read all the same: its faults are reported before the refusal.
        Err(_) => Ok(Items::new(alloc)),
    }
}

/// The first two signatures, or as many as there are. A decision rests on two at most.
pub fn first_two(evidence: &[Signed]) -> (Option<&Signed>, Option<&Signed>)
    ensures first { wanted_of result.0 ≡ first_resting evidence.now }
    ensures second { wanted_of result.1 ≡ second_resting evidence.now }
{
    match evidence {
        [] => (None, None),
        [first] => (Some(first), None),
        [first, second, ..] => (Some(first), Some(second)),
    }
}

/// Those of two signatures that the vouch file has.
pub fn kept(evidence: &[Signed], found: Found) -> &[Signed]
    ensures { result.now ≡ evidence_found evidence.now found }
{
    let (first, second) = evidence.split_at(evidence.len().min(1));
    match (found.first, found.second) {
        (true, true) => evidence,
        (true, false) => first,
        (false, true) => second,
        (false, false) => &[],
    }
}
