//! What `--help` prints: the commands with a sentence each, and the options of a command.

ghost use Rattle.std.specs.Prelude.{◌≡◌, ◌++◌, OnOk, Some};
ghost use Rattle.std.specs.List.{flat_map};
ghost use Rattle.ssh_program.specs.Help.{apart_from, command_line, command_sentence, commands_help, default_kind, default_time, default_word, default_zone, file_sentence, form_sentence, help_form, help_forms, help_names, help_option, host_sentence, is_joined, key_sentence, kind_sentence, minimum_sentence, needed_by, needed_word, option_sentence, options_help, other_key, other_place, port_sentence, value_word, wanted_value};

use crate::args::{ArgName, Needed};
use crate::subcommand::{OptionRow, Subcommand};
use std::alloc::AllocError;

/// What a command does, as a sentence.
fn command_sentence(command: Subcommand) -> &'static [u8]
    ensures { result.now ≡ command_sentence command }
{
    match command {
        Subcommand::Show => {
            b"print one public key, certificate, private key or file signature, field by field"
        }
        Subcommand::Login => { b"decide on a login with its signature, by an authorized_keys file" }
        Subcommand::Host => { b"decide on a host's key with its signature, by a known_hosts file" }
        Subcommand::Sshsig => {
            b"tell whether a file signature is for a namespace and is vouched for"
        }
        Subcommand::Rewrite => {
            b"print a trust file anew, in one spelling, so that every answer stays the same"
        }
        Subcommand::Readable => {
            b"print the entries of an authorized_keys file that OpenSSH reads as they are read here"
        }
        Subcommand::Hash => b"print a known_hosts file anew with its host names hashed",
        Subcommand::Admits => {
            b"tell whether a key would get in, by which line and with which rights, or why not"
        }
        Subcommand::Trusts => {
            b"tell whether a host's key is trusted, by which line, or which line revokes it"
        }
        Subcommand::Review => b"list who is let in by trust files, and what has to be fixed",
        Subcommand::Explain => b"print what codes mean and what to do about them",
    }
}

/// What stands for the value of an option.
fn value_word(option: ArgName) -> &'static [u8]
    ensures { result.now ≡ value_word option }
{
    match option {
        ArgName::Kind => b"KIND",
        ArgName::File => b"FILE",
        ArgName::Offer => b"BASE64",
        ArgName::OfferFile => b"FILE",
        ArgName::Signature => b"HEX",
        ArgName::SignatureFile => b"FILE",
        ArgName::Algorithm => b"NAME",
        ArgName::Session => b"HEX",
        ArgName::User => b"NAME",
        ArgName::Address => b"ADDRESS",
        ArgName::Now => b"SECONDS",
        ArgName::Host => b"NAME",
        ArgName::Zone => b"RULE",
        ArgName::Vouch => b"FILE",
        ArgName::EmptyPrincipals => b"WHOM",
        ArgName::RsaMinimum => b"BITS",
        ArgName::Hash => b"HEX",
        ArgName::Port => b"PORT",
        ArgName::Body => b"FILE",
        ArgName::Message => b"FILE",
        ArgName::Namespace => b"TEXT",
        ArgName::Salts => b"FILE",
        ArgName::Key => b"FILE",
        ArgName::Fingerprint => b"FINGERPRINT",
        ArgName::Findings => b"CODES",
        ArgName::FailOn => b"CODES",
        ArgName::Show => b"WHAT",
        ArgName::Form => b"FORM",
        ArgName::Title => b"TEXT",
        ArgName::Labels => b"NAMES",
        ArgName::FilesFrom => b"FILE",
    }
}

/// What `--kind` gives to a command.
fn kind_sentence(command: Subcommand) -> &'static [u8]
    ensures { result.now ≡ kind_sentence command }
{
    match command {
        Subcommand::Show => b"what is in the file: key, cert, private or sshsig",
        _ => b"the format of the files: auth for authorized_keys, known for known_hosts",
    }
}

/// What `--file` gives to a command.
fn file_sentence(command: Subcommand) -> &'static [u8]
    ensures { result.now ≡ file_sentence command }
{
    match command {
        Subcommand::Login | Subcommand::Readable => b"the authorized_keys file",
        Subcommand::Rewrite => b"the trust file that is printed anew",
        Subcommand::Show => b"the file that is shown",
        _ => b"the known_hosts file",
    }
}

/// What `--host` gives to a command.
fn host_sentence(command: Subcommand) -> &'static [u8]
    ensures { result.now ≡ host_sentence command }
{
    match command {
        Subcommand::Login | Subcommand::Admits =>
            b"the host name of the client, for from= patterns",
        _ => b"the name or the address that the client connects to",
    }
}

/// What `--rsa-minimum` gives to a command.
fn minimum_sentence(command: Subcommand) -> &'static [u8]
    ensures { result.now ≡ minimum_sentence command }
{
    match command {
        Subcommand::Review => b"how many bits an RSA key has to have; 2048 without it",
        _ => b"how many bits an RSA key has to have; any number without it",
    }
}

/// What `--port` gives to a command.
fn port_sentence(command: Subcommand) -> &'static [u8]
    ensures { result.now ≡ port_sentence command }
{
    match command {
        Subcommand::Host => b"the port that the client connects to, from 0 to 65535",
        _ => b"the port that the client connects to, from 0 to 65535; 22 without it",
    }
}

/// What `--key` gives to a command.
fn key_sentence(command: Subcommand) -> &'static [u8]
    ensures { result.now ≡ key_sentence command }
{
    match command {
        Subcommand::Review => {
            b"list only this key: the file of the public key or certificate, or its fingerprint"
        }
        Subcommand::Admits => {
            b"the .pub file of the key or certificate, or the key's fingerprint as sshd logs it"
        }
        _ => b"the file of the public key or certificate, as id_ed25519.pub",
    }
}

/// What `--form` gives to a command.
fn form_sentence(command: Subcommand) -> &'static [u8]
    ensures { result.now ≡ form_sentence command }
{
    match command {
        Subcommand::Review => {
            b"text (so without it), json for one object a line, line for a table, html for a page to look at, print and sign"
        }
        _ => b"text (so without it), or json for one object on each line",
    }
}

/// What an option gives to a command, as a sentence.
fn option_sentence(command: Subcommand, option: ArgName) -> &'static [u8]
    ensures { result.now ≡ option_sentence command option }
{
    match option {
        ArgName::Kind => kind_sentence(command),
        ArgName::File => file_sentence(command),
        ArgName::Offer =>
            b"the offered key or certificate: its blob in base64, or a file whose first line has it",
        ArgName::OfferFile =>
            b"the offered key or certificate: its blob in base64, or a file whose first line has it",
        ArgName::Signature =>
            b"the signature: its blob in hexadecimal, or a file whose first line has it",
        ArgName::SignatureFile =>
            b"the signature: its blob in hexadecimal, or a file whose first line has it",
        ArgName::Algorithm => b"the public key algorithm of the request, as ssh-ed25519",
        ArgName::Session => b"the session identifier, in hexadecimal",
        ArgName::User => b"the name of the user who logs in",
        ArgName::Address => b"the address of the client, as 192.0.2.1 or 2001:db8::1",
        ArgName::Now => b"the time of the question, in seconds since 1970-01-01 UTC",
        ArgName::Host => host_sentence(command),
        ArgName::Zone =>
            b"the time zone of expiry times that name none, as CET-1CEST,M3.5.0,M10.5.0/3",
        ArgName::Vouch => b"a file of the signatures that somebody verified",
        ArgName::EmptyPrincipals =>
            b"whom a certificate without principals is for: any (so without it) or never",
        ArgName::RsaMinimum => minimum_sentence(command),
        ArgName::Hash => b"the exchange hash that the host signed, in hexadecimal",
        ArgName::Port => port_sentence(command),
        ArgName::Body => b"a file of the signature's raw bytes",
        ArgName::Message => b"the file that was signed",
        ArgName::Namespace => b"what the signature has to be for",
        ArgName::Salts => b"a file of 20 raw bytes for each name",
        ArgName::Key => key_sentence(command),
        ArgName::Fingerprint => b"the fingerprint of the key, as sshd logs it",
        ArgName::Findings =>
            b"the findings that are reported: all, none, or codes joined by commas",
        ArgName::FailOn =>
            b"the findings that make the status 1: all, none, or codes; without it all that are reported",
        ArgName::Show =>
            b"what is listed: all (so without it), found for lines with a finding, or totals",
        ArgName::Form => form_sentence(command),
        ArgName::Title => b"the heading of the page, with --form html alone",
        ArgName::Labels =>
            b"host,account: each name has both before its path, and a tab behind each",
        ArgName::FilesFrom =>
            b"a file of more names, each ended by NUL or by a line end; - is standard input",
    }
}

/// What the value of an option has to be.
pub fn wanted_value(option: ArgName) -> &'static [u8]
    ensures { result.now ≡ wanted_value option }
{
    match option {
        ArgName::Kind => b"a format or kind that the command knows",
        ArgName::File => b"the name of a file",
        ArgName::Offer => b"base64 without blanks or line ends",
        ArgName::OfferFile => b"a file whose first line has base64",
        ArgName::Signature => b"hexadecimal, two digits for each byte",
        ArgName::SignatureFile => {
            b"a file whose first line has hexadecimal, two digits for each byte"
        }
        ArgName::Algorithm => b"a name of fewer than 2^32 bytes",
        ArgName::Session => b"hexadecimal, two digits for each byte",
        ArgName::User => b"a name of fewer than 2^32 bytes",
        ArgName::Address => b"an IPv4 or IPv6 address",
        ArgName::Now => b"seconds since 1970-01-01 UTC, or a date and time as 2026-11-27T15:25:08Z",
        ArgName::Host => b"a host name or an address",
        ArgName::Zone => b"a POSIX rule, as CET-1CEST,M3.5.0,M10.5.0/3, or the name of a zone",
        ArgName::Vouch => b"the name of a file",
        ArgName::EmptyPrincipals => b"any or never",
        ArgName::RsaMinimum => b"decimal digits below 4294967296",
        ArgName::Hash => b"hexadecimal, two digits for each byte",
        ArgName::Port => b"decimal digits, from 0 to 65535",
        ArgName::Body => b"the name of a file",
        ArgName::Message => b"the name of a file",
        ArgName::Namespace => b"a text",
        ArgName::Salts => b"the name of a file",
        ArgName::Key => b"the name of a file, or a fingerprint as ssh-keygen -l prints it",
        ArgName::Fingerprint => b"SHA256: and 43 characters of base64, as in sshd's log",
        ArgName::Findings => b"all, none, or codes from F1 to F22 joined by commas",
        ArgName::FailOn => b"all, none, or codes from F1 to F22 joined by commas",
        ArgName::Show => b"all, found or totals",
        ArgName::Form => b"text or json, and of review also line or html",
        ArgName::Title => b"a text",
        ArgName::Labels => b"host,account, and names that have both, each with a tab behind it",
        ArgName::FilesFrom => b"a file of names, each ended by NUL or by a line end",
    }
}

/// The other way to give the key to a command.
fn other_key(command: Subcommand) -> Option<ArgName>
    ensures { result ≡ other_key command }
{
    match command {
        Subcommand::Admits => Some(ArgName::Fingerprint),
        _ => None,
    }
}

/// The option that gives the same to a command in another way: exactly one of the two has to be
/// given. `None` of an option that stands alone.
pub fn other_place(command: Subcommand, option: ArgName) -> Option<ArgName>
    ensures { result ≡ other_place command option }
{
    match option {
        ArgName::Offer => Some(ArgName::OfferFile),
        ArgName::Signature => Some(ArgName::SignatureFile),
        ArgName::Key => other_key(command),
        _ => None,
    }
}

/// The option that an option is not given with.
pub fn apart_from(option: ArgName) -> Option<ArgName>
    ensures { result ≡ apart_from option }
{
    match option {
        ArgName::FailOn | ArgName::Show => Some(ArgName::Key),
        _ => None,
    }
}

/// Whether an option is reported together with the one before it.
pub fn is_joined(option: ArgName) -> bool
    ensures { result ≡ is_joined option }
{
    match option {
        ArgName::OfferFile | ArgName::SignatureFile | ArgName::Fingerprint => true,
        _ => false,
    }
}

/// An option with its value, as `--now SECONDS`.
fn push_form(out: &mut Vec<u8>, option: ArgName) -> Result<(), AllocError>
    ensures { OnOk result (out.new.items ≡ out.old.items ++ help_form option) }
{
    out.extend_from_slice(b"--")?;
    out.extend_from_slice(option.name().as_bytes())?;
    out.extend_from_slice(b" ")?;
    out.extend_from_slice(value_word(option))?;
    Ok(())
}

/// An option, or the two of which exactly one has to be given, as in a synopsis of man-pages(7).
pub fn push_forms(
    out: &mut Vec<u8>,
    option: ArgName,
    other: Option<ArgName>,
) -> Result<(), AllocError>
    ensures { OnOk result (out.new.items ≡ out.old.items ++ help_forms option other) }
{
    match other {
        None => push_form(out, option),
        Some(other) => push_both_forms(out, option, other),
    }
}

fn push_both_forms(out: &mut Vec<u8>, option: ArgName, other: ArgName) -> Result<(), AllocError>
    ensures { OnOk result (out.new.items ≡ out.old.items ++ help_forms option (Some other)) }
{
    out.extend_from_slice(b"(")?;
    push_form(out, option)?;
    out.extend_from_slice(b" | ")?;
    push_form(out, other)?;
    out.extend_from_slice(b")")?;
    Ok(())
}

/// The word before the sentence of an option that has to be given.
fn needed_word(needed: Needed, other: Option<ArgName>) -> &'static [u8]
    ensures { result.now ≡ needed_word needed other }
{
    match (needed, other) {
        (Needed::Optional, None) => b"",
        (Needed::Optional, Some(_)) => b"required, one of the two: ",
        (Needed::Required, _) => b"required: ",
    }
}

/// What takes the place of `--now` where a question leaves it out.
fn default_time(command: Subcommand) -> &'static [u8]
    ensures { result.now ≡ default_time command }
{
    match command {
        Subcommand::Admits | Subcommand::Trusts | Subcommand::Review => {
            b"; without it the time of the clock"
        }
        _ => b"",
    }
}

/// What takes the place of `--zone`.
fn default_zone(command: Subcommand) -> &'static [u8]
    ensures { result.now ≡ default_zone command }
{
    match command {
        Subcommand::Admits | Subcommand::Review => b"; without it that of this machine",
        _ => b"",
    }
}

/// What takes the place of `--kind`.
fn default_kind(command: Subcommand) -> &'static [u8]
    ensures { result.now ≡ default_kind command }
{
    match command {
        Subcommand::Review => b"; without it by the names of the files",
        _ => b"",
    }
}

/// What takes the place of an option that a question leaves out; nothing where the table of the
/// options says all.
fn default_word(command: Subcommand, option: ArgName) -> &'static [u8]
    ensures { result.now ≡ default_word command option }
{
    match option {
        ArgName::Now => default_time(command),
        ArgName::Zone => default_zone(command),
        ArgName::Kind => default_kind(command),
        _ => b"",
    }
}

/// Appends the word before the sentence of an option that nothing takes the place of.
fn push_needed(
    out: &mut Vec<u8>,
    fallback: &[u8],
    needed: Needed,
    other: Option<ArgName>,
) -> Result<(), AllocError>
    ensures { OnOk result
        (out.new.items ≡ out.old.items ++ needed_by fallback.now needed other) }
{
    if fallback.is_empty() {
        out.extend_from_slice(needed_word(needed, other))?;
    }
    Ok(())
}

/// The lines of an option: its form, and the sentence that says what it gives.
fn push_option_help(
    out: &mut Vec<u8>,
    command: Subcommand,
    row: OptionRow,
) -> Result<(), AllocError>
    ensures { OnOk result (out.new.items ≡ out.old.items ++ help_option command row) }
{
    if is_joined(row.0) {
        return Ok(());
    }
    let other = other_place(command, row.0);
    out.extend_from_slice(b"  ")?;
    push_forms(out, row.0, other)?;
    out.extend_from_slice(b"\n      ")?;
    push_needed(out, default_word(command, row.0), row.1, other)?;
    out.extend_from_slice(option_sentence(command, row.0))?;
    out.extend_from_slice(default_word(command, row.0))?;
    out.push(b'\n')?;
    Ok(())
}

fn push_options_help(
    out: &mut Vec<u8>,
    command: Subcommand,
    rows: &[OptionRow],
) -> Result<(), AllocError>
    ensures { OnOk result
        (out.new.items ≡ out.old.items ++ flat_map (help_option command) rows.now) }
{
    for row in rows {
        push_option_help(out, command, *row)?;
    }
    Ok(())
}

/// What the operands of a command are.
fn names_sentence(command: Subcommand) -> &'static [u8]
    ensures { result.now ≡ help_names command }
{
    match command {
        Subcommand::Admits =>
            b"  NAME..\n      the authorized_keys files; ~/.ssh/authorized_keys without one\n",
        Subcommand::Trusts =>
            b"  NAME..\n      the known_hosts files; ~/.ssh/known_hosts without one\n",
        Subcommand::Review =>
            b"  NAME..\n      the files that are reviewed; the one in ~/.ssh without one\n",
        Subcommand::Explain =>
            b"  CODE..\n      the codes, and usage for the synopsis; all codes without one\n",
        _ => b"",
    }
}

/// The options of a command, with a sentence each.
#[tactic(auto, unfolding(crate::specs::Help::options_help))]
pub fn push_command_help(out: &mut Vec<u8>, command: Subcommand) -> Result<(), AllocError>
    ensures { OnOk result (out.new.items ≡ out.old.items ++ options_help command) }
{
    out.extend_from_slice(b"ssh_audit ")?;
    out.extend_from_slice(command.name().as_bytes())?;
    out.extend_from_slice(b": ")?;
    out.extend_from_slice(command_sentence(command))?;
    out.extend_from_slice(b"\n")?;
    push_options_help(out, command, command.reported_options())?;
    out.extend_from_slice(names_sentence(command))?;
    out.extend_from_slice(b"see also the manual page ssh_audit(1)\n")?;
    Ok(())
}

/// The line of a command in the list of the commands.
fn push_command_line(out: &mut Vec<u8>, command: Subcommand) -> Result<(), AllocError>
    ensures { OnOk result (out.new.items ≡ out.old.items ++ command_line command) }
{
    out.extend_from_slice(b"  ")?;
    out.extend_from_slice(command.name().as_bytes())?;
    out.extend_from_slice(b": ")?;
    out.extend_from_slice(command_sentence(command))?;
    out.push(b'\n')?;
    Ok(())
}

fn push_command_lines(out: &mut Vec<u8>, commands: &[Subcommand]) -> Result<(), AllocError>
    ensures { OnOk result (out.new.items ≡ out.old.items ++ flat_map command_line commands.now) }
{
    for command in commands {
        push_command_line(out, *command)?;
    }
    Ok(())
}

/// The list of these commands, with a sentence each.
#[tactic(auto, unfolding(crate::specs::Help::commands_help))]
pub fn push_commands_help(out: &mut Vec<u8>, commands: &[Subcommand]) -> Result<(), AllocError>
    ensures { OnOk result (out.new.items ≡ out.old.items ++ commands_help commands.now) }
{
    out.extend_from_slice(b"ssh_audit COMMAND [--OPTION VALUE].. [NAME..]\n")?;
    push_command_lines(out, commands)?;
    out.extend_from_slice(b"see 'ssh_audit COMMAND --help', or the manual page ssh_audit(1)\n")?;
    Ok(())
}
