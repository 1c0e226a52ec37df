//! The options of the subcommands, and the values that the command line gives to them.

ghost use Rattle.std.specs.Prelude.{◌≡◌, ◌≢◌, false, ◌<◌, ◌^◌, length, map, option_map, IfOk};
ghost use Rattle.std.specs.Option.{ok_or};
ghost use Rattle.base64.specs.Engines.{standard};
ghost use Rattle.base64.specs.GeneralPurpose.{decoded_of};
ghost use Rattle.ssh_files.specs.Values.{has_pairs, hex_bytes, empty_principals_of, number_below, short_bytes, short_hex};
ghost use Rattle.ssh_program.specs.declared.command.CommandError.TheVariants.{Memory, Value};
ghost use Rattle.ssh_program.specs.Options.{is_required, option_word};
ghost use Rattle.ssh_program.specs.Spelling.{or_fault, audit_files, given, names_given, names_needed, needed, pairs_given, sshsig_question, usual_port, value, value_or};
ghost use Rattle.ssh_program.specs.ArgsView.{Spells, rows_in};
ghost use Rattle.ssh_program.specs.FileNamesView.{files_seen, question_of};
ghost use Rattle.ssh_program.specs.KeyPlaces.{key_place};
ghost use Rattle.ssh_program.specs.Texts.{text_place, text_places};
ghost use Rattle.ssh_program.specs.TextsView.{place_seen, places_seen};
ghost use Rattle.ssh_offers.specs.declared.claim.EmptyPrincipals.TheVariants.{Any};
ghost use Rattle.ssh_program.specs.declared.args.ArgName.TheVariants as option;

use crate::admits::{AuditFiles, SshsigQuestion};
use crate::command::CommandError;
use crate::texts::{TextPlace, TextPlaces};
use clap::ArgMatches;
use ssh_files::{
    decode, is_short, read_bits, read_empty_principals, read_hex, read_number, read_port,
    read_short_hex,
};
use ssh_offers::EmptyPrincipals;
use std::alloc::Global;

/// An option. Every option takes one value.
#[derive(Clone, Copy, Debug, PartialEq, Eq)]
pub enum ArgName {
    Kind,
    File,
    Offer,
    OfferFile,
    Signature,
    SignatureFile,
    Algorithm,
    Session,
    User,
    Address,
    Now,
    Host,
    Zone,
    Vouch,
    EmptyPrincipals,
    RsaMinimum,
    Hash,
    Port,
    Body,
    Message,
    Namespace,
    Salts,
    Key,
    Fingerprint,
    Findings,
    FailOn,
    Show,
    Form,
    Title,
    Labels,
    FilesFrom,
}

impl ArgName {
    /// The name on the command line, without the two dashes in front.
    pub fn name(self) -> &'static str
        ensures { result.now ≡ option_word self }
    {
        match self {
            ArgName::Kind => "kind",
            ArgName::File => "file",
            ArgName::Offer => "offer",
            ArgName::OfferFile => "offer-file",
            ArgName::Signature => "signature",
            ArgName::SignatureFile => "signature-file",
            ArgName::Algorithm => "algorithm",
            ArgName::Session => "session",
            ArgName::User => "user",
            ArgName::Address => "address",
            ArgName::Now => "now",
            ArgName::Host => "host",
            ArgName::Zone => "zone",
            ArgName::Vouch => "vouch",
            ArgName::EmptyPrincipals => "empty-principals",
            ArgName::RsaMinimum => "rsa-minimum",
            ArgName::Hash => "hash",
            ArgName::Port => "port",
            ArgName::Body => "body",
            ArgName::Message => "message",
            ArgName::Namespace => "namespace",
            ArgName::Salts => "salts",
            ArgName::Key => "key",
            ArgName::Fingerprint => "fingerprint",
            ArgName::Findings => "findings",
            ArgName::FailOn => "fail-on",
            ArgName::Show => "show",
            ArgName::Form => "form",
            ArgName::Title => "title",
            ArgName::Labels => "labels",
            ArgName::FilesFrom => "files-from",
        }
    }

    /// The value, or the error that names this option where there is no value.
    pub fn or_fault<T>(self, value: Option<T>) -> Result<T, CommandError>
        ensures { result ≡ ok_or value (Value self) }
    {
        value.ok_or(CommandError::Value(self))
    }

    /// The bytes of a text in canonical base64 (RFC 4648 section 4); else the error names this
    /// option.
    pub fn base64(self, alloc: Global, text: &[u8]) -> Result<Vec<u8>, CommandError>
        ensures { Spells (λ v. v.items) (or_fault self (decoded_of standard text.now)) result }
    {
        let bytes = decode(alloc, text)?;
        self.or_fault(bytes)
    }

    /// The bytes of a text in hexadecimal, two digits a byte, `-` for no bytes; else the error
    /// names this option.
    pub fn hex(self, alloc: Global, text: &[u8]) -> Result<Vec<u8>, CommandError>
        ensures value { Spells (λ v. v.items) (or_fault self (hex_bytes text.now)) result }
        // Memory is allocated only for pairs of digits.
        ensures spare { has_pairs text.now ≡ false → result ≢ Err Memory }
    {
        let bytes = read_hex(alloc, text)?;
        self.or_fault(bytes)
    }
}

/// Whether an option, or an operand, has to be given.
#[derive(Clone, Copy, Debug, PartialEq, Eq)]
pub enum Needed {
    Required,
    Optional,
}

impl Needed {
    /// Whether a command without it is `fault usage`.
    pub fn is_required(self) -> bool
        ensures { result ≡ is_required self }
    {
        match self {
            Needed::Required => true,
            Needed::Optional => false,
        }
    }
}

/// The option of `admits` that gives the key.
#[derive(Clone, Copy, Debug, PartialEq, Eq)]
pub enum KeyPlace {
    /// `--key`, the name of its file.
    File,
    /// `--fingerprint`.
    Fingerprint,
}

/// The default port of ssh(1).
const USUAL_PORT: u16 = 22;

/// The name of the operands: names of files, or codes of `explain`.
pub const NAMES: &str = "NAME";

/// The values that the command line gives to the options of a subcommand. Each method reads one
/// kind of value; where the text is not such a value, the error names the option.
#[derive(Drop)]
pub struct Args<'a> {
    pub matches: ArgMatches<'a>,
}

impl<'a> Args<'a> {
    /// The text of an option; `None` if it is not given.
    pub fn given(&self, option: ArgName) -> Option<&'a str>
        ensures { option_map (λ s. s.now) result ≡ given option (rows_in self.now) }
    {
        self.matches.get_str(option.name())
    }

    /// The operands, in their order; `None` if there are none.
    pub fn names(&self) -> Option<&[&'a str]>
        ensures { option_map (λ s. map (λ name. name.now) s.now) result
            ≡ names_given (rows_in self.now) }
    {
        self.matches.get_strs(NAMES)
    }

    /// The operands, of which at least one has to be given.
    pub fn needed_names(&self) -> Result<&[&'a str], CommandError>
        ensures { Spells (λ s. map (λ name. name.now) s.now) (names_needed (rows_in self.now))
            result }
    {
        self.names().ok_or(CommandError::Usage)
    }

    /// The text of an option that has to be given.
    pub fn needed(&self, option: ArgName) -> Result<&'a str, CommandError>
        ensures { Spells (λ s. s.now) (needed option (rows_in self.now)) result }
    {
        self.given(option).ok_or(CommandError::Usage)
    }

    /// The bytes of an option in hexadecimal: two digits a byte, `-` for no bytes.
    pub fn hex(&self, alloc: Global, option: ArgName) -> Result<Vec<u8>, CommandError>
        ensures value { Spells (λ v. v.items) (value hex_bytes option (rows_in self.now)) result }
        // Memory is allocated only for pairs of digits.
        ensures spare { pairs_given (given option (rows_in self.now)) ≡ false
            → result ≢ Err Memory }
    {
        let text = self.given(option).ok_or(CommandError::Usage)?;
        let bytes = read_hex(alloc, text.as_bytes())?;
        option.or_fault(bytes)
    }

    /// The bytes of an option in hexadecimal, fewer than 2^32 of them, since an SSH string has a
    /// length of 32 bits (RFC 4251 section 5).
    pub fn short_hex(&self, alloc: Global, option: ArgName) -> Result<Vec<u8>, CommandError>
        ensures value { Spells (λ v. v.items) (value short_hex option (rows_in self.now)) result }
        ensures short { IfOk result (λ v. length v.items < 2 ^ 32) }
        ensures spare { pairs_given (given option (rows_in self.now)) ≡ false
            → result ≢ Err Memory }
    {
        let text = self.given(option).ok_or(CommandError::Usage)?;
        let bytes = read_short_hex(alloc, text.as_bytes())?;
        option.or_fault(bytes)
    }

    /// The text of an option, of fewer than 2^32 bytes, since an SSH string has a length of 32 bits
    /// (RFC 4251 section 5).
    pub fn short_text(&self, option: ArgName) -> Result<&'a str, CommandError>
        ensures value { Spells (λ s. s.now) (value short_bytes option (rows_in self.now)) result }
        ensures short { IfOk result (λ s. length s.now < 2 ^ 32) }
    {
        let text = self.needed(option)?;
        if is_short(text.as_bytes()) {
            Ok(text)
        } else {
            Err(CommandError::Value(option))
        }
    }

    /// The number of an option: decimal digits alone, below 2^64.
    pub fn number(&self, option: ArgName) -> Result<u64, CommandError>
        ensures { Spells (λ n. n) (value (number_below (2 ^ 64)) option (rows_in self.now))
            result }
    {
        let text = self.needed(option)?;
        option.or_fault(read_number(text))
    }

    /// The port of an option: decimal digits alone, from 0 to 65535.
    pub fn port(&self, option: ArgName) -> Result<u16, CommandError>
        ensures { Spells (λ n. n) (value (number_below (2 ^ 16)) option (rows_in self.now))
            result }
    {
        let text = self.needed(option)?;
        option.or_fault(read_port(text))
    }

    /// The port that the client connects to: 22 where the option is not given.
    pub fn usual_port(&self) -> Result<u16, CommandError>
        ensures { Spells (λ n. n) (value_or usual_port (number_below (2 ^ 16)) option.Port
            (rows_in self.now)) result }
    {
        let read = match self.given(ArgName::Port) {
            None => Some(USUAL_PORT),
            Some(text) => read_port(text),
        };
        ArgName::Port.or_fault(read)
    }

    /// Whom a certificate without principals is for: anybody where the option is not given.
    pub fn empty_principals(&self) -> Result<EmptyPrincipals, CommandError>
        ensures { Spells (λ e. e) (value_or Any empty_principals_of option.EmptyPrincipals
            (rows_in self.now)) result }
    {
        let read = match self.given(ArgName::EmptyPrincipals) {
            None => Some(EmptyPrincipals::Any),
            Some(text) => read_empty_principals(text),
        };
        ArgName::EmptyPrincipals.or_fault(read)
    }

    /// The least number of bits of an RSA key: 0, so any number, where the option is not given.
    pub fn rsa_minimum(&self) -> Result<u32, CommandError>
        ensures { Spells (λ n. n) (value_or 0 (number_below (2 ^ 32)) option.RsaMinimum
            (rows_in self.now)) result }
    {
        let read = match self.given(ArgName::RsaMinimum) {
            None => Some(0),
            Some(text) => read_bits(text),
        };
        ArgName::RsaMinimum.or_fault(read)
    }

    /// Where a text is given: by `word` on the command line itself, or by `file` as the name of a
    /// file. Exactly one of the two has to be given.
    fn text_place(&self, word: ArgName, file: ArgName) -> Result<TextPlace<'a>, CommandError>
        ensures { Spells place_seen (text_place word file (rows_in self.now)) result }
    {
        match (self.given(word), self.given(file)) {
            (Some(text), None) => Ok(TextPlace::Word(word, text)),
            (None, Some(name)) => Ok(TextPlace::File(file, name)),
            _ => Err(CommandError::Usage),
        }
    }

    /// Where the texts of an offer and of its signature are given, each on the command line or in a
    /// file.
    pub fn text_places(&self) -> Result<TextPlaces<'a>, CommandError>
        ensures { Spells places_seen (text_places (rows_in self.now)) result }
    {
        Ok(TextPlaces {
            offer: self.text_place(ArgName::Offer, ArgName::OfferFile)?,
            signature: self.text_place(ArgName::Signature, ArgName::SignatureFile)?,
        })
    }

    /// Which option gives the key. Exactly one of the two has to be given.
    pub fn key_place(&self) -> Result<KeyPlace, CommandError>
        ensures { Spells (λ place. place) (key_place (rows_in self.now)) result }
    {
        match (self.given(ArgName::Key), self.given(ArgName::Fingerprint)) {
            (Some(_), None) => Ok(KeyPlace::File),
            (None, Some(_)) => Ok(KeyPlace::Fingerprint),
            _ => Err(CommandError::Usage),
        }
    }

    /// The names of the files that `login` and `host` read.
    pub fn audit_files(&self) -> Result<AuditFiles<'a>, CommandError>
        ensures { Spells files_seen (audit_files (rows_in self.now)) result }
    {
        Ok(AuditFiles {
            trust: self.needed(ArgName::File)?,
            vouch: self.given(ArgName::Vouch),
        })
    }

    /// The options of `sshsig`.
    pub fn sshsig_question(&self) -> Result<SshsigQuestion<'a>, CommandError>
        ensures { Spells question_of (sshsig_question (rows_in self.now)) result }
    {
        Ok(SshsigQuestion {
            body: self.needed(ArgName::Body)?,
            message: self.needed(ArgName::Message)?,
            namespace: self.needed(ArgName::Namespace)?,
            vouch: self.given(ArgName::Vouch),
        })
    }
}
