//! The command line: from arguments to a request.

ghost use Rattle.std.specs.Prelude.{◌≡◌, IfOk, map, option_map, option_and_then};
ghost use Rattle.ssh_program.specs.declared.command.CommandError.TheVariants.{Memory};
ghost use Rattle.ssh_program.specs.Spelling.{IsReportedAs};
ghost use Rattle.ssh_print.specs.ResponseView.{response};
ghost use Rattle.clap.specs.Words.{subcommand_rows_of, app_of, with_rule, with_subcommand};
ghost use Rattle.ssh_program.specs.CommandLine.{request_in, program_app, names_rule, option_rule, subcommand_app, with_named, with_names, with_options};
ghost use Rattle.ssh_program.specs.ArgsView.{FaultIs, Parses, request_in_memory};

use crate::args::{ArgName, Args, NAMES, Needed};
use crate::subcommand::{OptionRow, Subcommand};
use clap::error::ErrorKind;
use clap::{Arg, ArgAction, ArgMatches, Command, Error};
use ssh_print::{Response, usage_fault, value_fault};
use std::alloc::{AllocError, Global};
use std::convert::AsStr;

/// Why a command gets no answer.
#[derive(Clone, Copy, Debug, PartialEq, Eq)]
pub enum CommandError {
    /// The arguments are no command: `fault usage`.
    Usage,
    /// The text of this option is not a value of it: `fault value` and its name.
    Value(ArgName),
    Memory,
}

impl From<AllocError> for CommandError {
    ghost from_gives = { λ x e. e ≡ Memory };

    fn from(_e: AllocError) -> CommandError {
        CommandError::Memory
    }
}

/// The response to an error of the command line.
pub fn respond_fault(alloc: Global, fault: CommandError) -> Result<Response, AllocError>
    ensures { IfOk result (λ r. IsReportedAs fault (response r)) }
{
    match fault {
        CommandError::Usage => usage_fault(alloc),
        CommandError::Value(option) => value_fault(alloc, option.name()),
        CommandError::Memory => Err(AllocError),
    }
}

/// A subcommand, and the values of its options.
#[derive(Drop)]
pub struct Request<'a> {
    pub subcommand: Subcommand,
    pub words: Args<'a>,
}

/// Why arguments give no request.
#[derive(Clone, Copy, Debug, PartialEq, Eq)]
pub enum WordsError {
    Usage,
    Memory,
}

fn words_fault(error: &Error) -> WordsError
    ensures { FaultIs error.now result }
{
    if error.kind() == ErrorKind::OutOfMemory {
        WordsError::Memory
    } else {
        WordsError::Usage
    }
}

/// The request by what `clap` found for the subcommand.
fn read_request<'a>(matches: ArgMatches<'a>) -> Option<Request<'a>>
    ensures { option_map request_in_memory result
        ≡ option_and_then request_in (subcommand_rows_of matches.entry) }
{
    let mut matches = matches;
    let (name, matches) = matches.remove_subcommand()?;
    let subcommand = Subcommand::named(name)?;
    Some(Request {
        subcommand,
        words: Args { matches },
    })
}

fn with_option<'a>(
    alloc: Global,
    command: Command<'a>,
    row: OptionRow,
) -> Result<Command<'a>, AllocError>
    ensures { IfOk result (λ c. app_of c ≡ with_rule (app_of command.entry) (option_rule row)) }
{
    let name: &'a str = row.0.name();
    let required = row.1.is_required();
    let arg = Arg::new(alloc, name).long(name).required(required);
    command.arg(arg)
}

/// The command with these options too, in their order.
fn with_options<'a>(
    alloc: Global,
    command: Command<'a>,
    rows: &[OptionRow],
) -> Result<Command<'a>, AllocError>
    ensures { IfOk result (λ c. app_of c ≡ with_options (app_of command.entry) rows.entry.now) }
{
    let mut command = command;
    for row in rows {
        command = with_option(alloc, command, *row)?;
    }
    Ok(command)
}

/// The command with operands, if it takes them.
fn with_names<'a>(
    alloc: Global,
    command: Command<'a>,
    names: Option<Needed>,
) -> Result<Command<'a>, AllocError>
    ensures { IfOk result (λ c. app_of c ≡ with_names (app_of command.entry) names) }
{
    match names {
        None => Ok(command),
        Some(needed) => {
            let arg = Arg::new(alloc, NAMES)
                .action(ArgAction::Append)
                .required(needed.is_required());
            command.arg(arg)
        }
    }
}

/// The command line of one subcommand.
#[tactic(auto, unfolding(crate::specs::CommandLine::subcommand_app))]
fn subcommand_command<'a>(alloc: Global, subcommand: Subcommand) -> Result<Command<'a>, AllocError>
    ensures { IfOk result (λ c. app_of c ≡ subcommand_app subcommand) }
{
    let name: &'a str = subcommand.name();
    let command = Command::new(alloc, name);
    let command = with_options(alloc, command, subcommand.options())?;
    with_names(alloc, command, subcommand.names())
}

fn with_subcommand<'a>(
    alloc: Global,
    command: Command<'a>,
    subcommand: Subcommand,
) -> Result<Command<'a>, AllocError>
    ensures { IfOk result (λ c.
        app_of c ≡ with_subcommand (app_of command.entry) (subcommand_app subcommand).top) }
{
    let inner = subcommand_command(alloc, subcommand)?;
    let command = command.subcommand(inner)?;
    Ok(command)
}

/// The command with this subcommand too, if there is one.
fn with_named<'a>(
    alloc: Global,
    command: Command<'a>,
    named: Option<Subcommand>,
) -> Result<Command<'a>, AllocError>
    ensures { IfOk result (λ c. app_of c ≡ with_named (app_of command.entry) named) }
{
    match named {
        None => Ok(command),
        Some(subcommand) => with_subcommand(alloc, command, subcommand),
    }
}

/// The command line of the program whose first argument names this subcommand. Building the rules of
/// all subcommands would take most of the time of a short answer.
fn program<'a>(alloc: Global, named: Option<Subcommand>) -> Result<Command<'a>, AllocError>
    ensures { IfOk result (λ c. app_of c ≡ program_app named) }
{
    let command = Command::new(alloc, "ssh_audit");
    let command = with_named(alloc, command, named)?;
    Ok(command.no_binary_name(true).subcommand_required(true))
}

/// The request of the arguments, without the program's own name.
pub fn parse<'a, S: AsStr>(alloc: Global, words: &'a [S]) -> Result<Request<'a>, WordsError>
    ensures { Parses (map S.text words.entry.now) result }
{
    let named = Subcommand::in_words(words);
    let command = match program(alloc, named) {
        Ok(command) => command,
        Err(_) => return Err(WordsError::Memory),
    };
    match command.try_get_matches_from(words) {
        Ok(matches) => read_request(matches).ok_or(WordsError::Usage),
        Err(error) => Err(words_fault(&error)),
    }
}
