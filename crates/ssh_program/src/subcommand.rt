//! The table of the subcommands and their options, and the synopsis that is printed of it.

ghost use Rattle.std.specs.Prelude.{◌≡◌, ◌++◌, map, IfOk, OnOk};
ghost use Rattle.ssh_program.specs.Options.{subcommand_in, subcommand_operands, subcommand_options, subcommand_name, subcommand_named, subcommands, reported_options};
ghost use Rattle.std.specs.List.{flat_map};
ghost use Rattle.ssh_program.specs.Usage.{asks_usage, closed, shown_needed, opened, operand_word, usage_forms, usage_line, usage_lines, usage_names, usage_option};

use crate::args::Needed::{Optional, Required};
use crate::args::{ArgName, Needed};
use crate::help::{is_joined, other_place, push_forms};
use std::alloc::{AllocError, Global};
use std::convert::AsStr;

/// A subcommand, which the first argument names.
#[derive(Clone, Copy, Debug, PartialEq, Eq)]
pub enum Subcommand {
    Show,
    Login,
    Host,
    Sshsig,
    Rewrite,
    Readable,
    Hash,
    Admits,
    Trusts,
    Review,
    Explain,
}

/// An option of a subcommand, and whether it has to be given.
pub type OptionRow = (ArgName, Needed);

const SUBCOMMANDS: [Subcommand; 11] = [
    Subcommand::Show,
    Subcommand::Login,
    Subcommand::Host,
    Subcommand::Sshsig,
    Subcommand::Rewrite,
    Subcommand::Readable,
    Subcommand::Hash,
    Subcommand::Admits,
    Subcommand::Trusts,
    Subcommand::Review,
    Subcommand::Explain,
];

const SHOW: [OptionRow; 2] = [(ArgName::Kind, Required), (ArgName::File, Required)];

const LOGIN: [OptionRow; 15] = [
    (ArgName::File, Required),
    (ArgName::Offer, Optional),
    (ArgName::OfferFile, Optional),
    (ArgName::Signature, Optional),
    (ArgName::SignatureFile, Optional),
    (ArgName::Algorithm, Required),
    (ArgName::Session, Required),
    (ArgName::User, Required),
    (ArgName::Address, Required),
    (ArgName::Now, Required),
    (ArgName::Host, Optional),
    (ArgName::Zone, Optional),
    (ArgName::Vouch, Optional),
    (ArgName::EmptyPrincipals, Optional),
    (ArgName::RsaMinimum, Optional),
];

const HOST: [OptionRow; 12] = [
    (ArgName::File, Required),
    (ArgName::Offer, Optional),
    (ArgName::OfferFile, Optional),
    (ArgName::Signature, Optional),
    (ArgName::SignatureFile, Optional),
    (ArgName::Hash, Required),
    (ArgName::Host, Required),
    (ArgName::Port, Required),
    (ArgName::Now, Required),
    (ArgName::Vouch, Optional),
    (ArgName::EmptyPrincipals, Optional),
    (ArgName::RsaMinimum, Optional),
];

const SSHSIG: [OptionRow; 4] = [
    (ArgName::Body, Required),
    (ArgName::Message, Required),
    (ArgName::Namespace, Required),
    (ArgName::Vouch, Optional),
];

const REWRITE: [OptionRow; 2] = [(ArgName::Kind, Required), (ArgName::File, Required)];

const READABLE: [OptionRow; 1] = [(ArgName::File, Required)];

const HASH: [OptionRow; 2] = [(ArgName::File, Required), (ArgName::Salts, Required)];

const ADMITS: [OptionRow; 10] = [
    (ArgName::Key, Optional),
    (ArgName::Fingerprint, Optional),
    (ArgName::User, Required),
    (ArgName::Address, Required),
    (ArgName::Now, Required),
    (ArgName::Host, Optional),
    (ArgName::Zone, Optional),
    (ArgName::EmptyPrincipals, Optional),
    (ArgName::RsaMinimum, Optional),
    (ArgName::Form, Optional),
];

const TRUSTS: [OptionRow; 7] = [
    (ArgName::Key, Required),
    (ArgName::Host, Required),
    (ArgName::Now, Required),
    (ArgName::Port, Optional),
    (ArgName::EmptyPrincipals, Optional),
    (ArgName::RsaMinimum, Optional),
    (ArgName::Form, Optional),
];

const REVIEW: [OptionRow; 11] = [
    (ArgName::Kind, Required),
    (ArgName::Now, Required),
    (ArgName::Key, Optional),
    (ArgName::Zone, Optional),
    (ArgName::RsaMinimum, Optional),
    (ArgName::Findings, Optional),
    (ArgName::FailOn, Optional),
    (ArgName::Show, Optional),
    (ArgName::Form, Optional),
    (ArgName::Title, Optional),
    (ArgName::Labels, Optional),
];

/// The same with the list of names, which is read before the words are.
const REPORTED_REVIEW: [OptionRow; 12] = [
    (ArgName::Kind, Required),
    (ArgName::Now, Required),
    (ArgName::Key, Optional),
    (ArgName::Zone, Optional),
    (ArgName::RsaMinimum, Optional),
    (ArgName::Findings, Optional),
    (ArgName::FailOn, Optional),
    (ArgName::Show, Optional),
    (ArgName::Form, Optional),
    (ArgName::Title, Optional),
    (ArgName::Labels, Optional),
    (ArgName::FilesFrom, Optional),
];

impl Subcommand {
    /// All subcommands, in the order of the synopsis.
    pub fn all() -> &'static [Subcommand]
        ensures { result.now ≡ subcommands }
    {
        &SUBCOMMANDS
    }

    /// The name on the command line.
    pub fn name(self) -> &'static str
        ensures { result.now ≡ subcommand_name self }
    {
        match self {
            Subcommand::Show => "show",
            Subcommand::Login => "login",
            Subcommand::Host => "host",
            Subcommand::Sshsig => "sshsig",
            Subcommand::Rewrite => "rewrite",
            Subcommand::Readable => "readable",
            Subcommand::Hash => "hash",
            Subcommand::Admits => "admits",
            Subcommand::Trusts => "trusts",
            Subcommand::Review => "review",
            Subcommand::Explain => "explain",
        }
    }

    /// The subcommand of this name; `None` if there is no such one.
    pub fn named(name: &str) -> Option<Subcommand>
        ensures { result ≡ subcommand_named name.now }
    {
        Subcommand::all()
            .iter()
            .copied()
            .find(|subcommand| subcommand.name() == name)
    }

    /// The subcommand that the first of these words names; `None` if there is no such one.
    pub fn in_words<S: AsStr>(words: &[S]) -> Option<Subcommand>
        ensures { result ≡ subcommand_in (map S.text words.now) }
    {
        match words.split_first() {
            None => None,
            Some((name, _)) => Subcommand::named(name.as_str()),
        }
    }

    /// Its options, in the order of the synopsis.
    pub fn options(self) -> &'static [OptionRow]
        ensures { result.now ≡ subcommand_options self }
    {
        match self {
            Subcommand::Show => &SHOW,
            Subcommand::Login => &LOGIN,
            Subcommand::Host => &HOST,
            Subcommand::Sshsig => &SSHSIG,
            Subcommand::Rewrite => &REWRITE,
            Subcommand::Readable => &READABLE,
            Subcommand::Hash => &HASH,
            Subcommand::Admits => &ADMITS,
            Subcommand::Trusts => &TRUSTS,
            Subcommand::Review => &REVIEW,
            Subcommand::Explain => &[],
        }
    }

    /// Its options as people are reported of them: `review` takes a list of names too, which is read
    /// before the words are.
    pub fn reported_options(self) -> &'static [OptionRow]
        ensures { result.now ≡ reported_options self }
    {
        match self {
            Subcommand::Review => &REPORTED_REVIEW,
            _ => self.options(),
        }
    }

    /// Whether it takes operands (names of files, or codes), and whether at least one has to be
    /// given; `None` if it takes none.
    pub fn names(self) -> Option<Needed>
        ensures { result ≡ subcommand_operands self }
    {
        match self {
            Subcommand::Admits | Subcommand::Trusts | Subcommand::Review => Some(Required),
            Subcommand::Explain => Some(Optional),
            _ => None,
        }
    }
}

/// A space, and a bracket before what may be left out, as in a synopsis of man-pages(7).
fn opened(needed: Needed) -> &'static [u8]
    ensures { result.now ≡ opened needed }
{
    match needed {
        Needed::Required => b" ",
        Needed::Optional => b" [",
    }
}

/// The bracket after what may be left out.
fn closed(needed: Needed) -> &'static [u8]
    ensures { result.now ≡ closed needed }
{
    match needed {
        Needed::Required => b"",
        Needed::Optional => b"]",
    }
}

/// Of two options one has to be given, though each may be left out.
fn shown_needed(other: Option<ArgName>, needed: Needed) -> Needed
    ensures { result ≡ shown_needed other needed }
{
    match other {
        None => needed,
        Some(_) => Required,
    }
}

/// On an error the option may have been appended in part.
fn push_usage_forms(
    out: &mut Vec<u8>,
    needed: Needed,
    option: ArgName,
    other: Option<ArgName>,
) -> Result<(), AllocError>
    ensures { OnOk result (out.new.items ≡ out.old.items ++ usage_forms needed option other) }
{
    out.extend_from_slice(opened(needed))?;
    push_forms(out, option, other)?;
    out.extend_from_slice(closed(needed))?;
    Ok(())
}

fn push_option(out: &mut Vec<u8>, subcommand: Subcommand, row: OptionRow) -> Result<(), AllocError>
    ensures { OnOk result (out.new.items ≡ out.old.items ++ usage_option subcommand row) }
{
    if is_joined(row.0) {
        return Ok(());
    }
    let other = other_place(subcommand, row.0);
    push_usage_forms(out, shown_needed(other, row.1), row.0, other)
}

fn push_options(
    out: &mut Vec<u8>,
    subcommand: Subcommand,
    rows: &[OptionRow],
) -> Result<(), AllocError>
    ensures { OnOk result
        (out.new.items ≡ out.old.items ++ flat_map (usage_option subcommand) rows.now) }
{
    for row in rows {
        push_option(out, subcommand, *row)?;
    }
    Ok(())
}

/// What an operand of a subcommand is.
fn operand_word(subcommand: Subcommand) -> &'static [u8]
    ensures { result.now ≡ operand_word subcommand }
{
    match subcommand {
        Subcommand::Explain => b"CODE",
        _ => b"NAME",
    }
}

fn push_names(
    out: &mut Vec<u8>,
    subcommand: Subcommand,
    names: Option<Needed>,
) -> Result<(), AllocError>
    ensures { OnOk result (out.new.items ≡ out.old.items ++ usage_names subcommand names) }
{
    if let Some(needed) = names {
        out.extend_from_slice(opened(needed))?;
        out.extend_from_slice(operand_word(subcommand))?;
        out.extend_from_slice(b"..")?;
        out.extend_from_slice(closed(needed))?;
    }
    Ok(())
}

#[tactic(auto, unfolding(crate::specs::Usage::usage_line))]
fn push_line(out: &mut Vec<u8>, subcommand: Subcommand) -> Result<(), AllocError>
    ensures { OnOk result (out.new.items ≡ out.old.items ++ usage_line subcommand) }
{
    out.extend_from_slice(b"ssh_audit ")?;
    out.extend_from_slice(subcommand.name().as_bytes())?;
    push_options(out, subcommand, subcommand.reported_options())?;
    push_names(out, subcommand, subcommand.names())?;
    out.push(b'\n')?;
    Ok(())
}

fn push_lines(out: &mut Vec<u8>, subcommands: &[Subcommand]) -> Result<(), AllocError>
    ensures { OnOk result (out.new.items ≡ out.old.items ++ flat_map usage_line subcommands.now) }
{
    for subcommand in subcommands {
        push_line(out, *subcommand)?;
    }
    Ok(())
}

/// The synopsis, one line for each subcommand: its options, each with a word for its value, and its
/// operands. What may be left out is in brackets, and two options of which exactly one has to be
/// given in parentheses.
#[tactic(auto, unfolding(crate::specs::Usage::usage_lines))]
pub fn usage_lines(alloc: Global) -> Result<Vec<u8>, AllocError>
    ensures { IfOk result (λ text. text.items ≡ usage_lines) }
{
    let mut text = Vec::new(alloc);
    push_lines(&mut text, Subcommand::all())?;
    Ok(text)
}

/// Whether `usage` is among these codes: then the synopsis is printed too.
pub fn asks_usage(codes: &[&str]) -> bool
    ensures { result ≡ asks_usage (map (λ code. code.now) codes.now) }
{
    codes.iter().any(|code| *code == "usage")
}
