//! Colour on a terminal: which lines of standard output have one, and the writer that shows it.

ghost use Rattle.std.specs.Prelude.{◌≡◌, ◌<◌, ◌++◌, IfOk, IfSome, None, OnOk, length, option_map, position};
ghost use Rattle.std.specs.Io.{WritesAtMost};
ghost use Rattle.std.specs.Io.KnownBytes.{Appends, WriteAppends};
ghost use Rattle.ssh_audit.specs.Colours.{answer_colour, behind_name, begun_by, colour_at, colour_of, ended_by, fault_colour, file_colour, front_at, is_end, is_row, line_at, place_after, printed_by, printed_of, state_colour, taken};
ghost use Rattle.ssh_audit.specs.declared.colour.Place.TheVariants.{Between};

use ssh_program::Subcommand;
use std::io::{Result, Write};

/// What a command prints that may have a colour.
#[derive(Clone, Copy, Debug, PartialEq, Eq)]
pub enum Printed {
    /// The answer of `login`, `host` or `sshsig`.
    OneAnswer,
    /// What `admits`, `trusts` or `review` says of files, by their names.
    Files,
}

/// What a command prints that may have a colour; `None` where it is a trust file, a key or a list of
/// codes, whose lines are shown as they are.
fn printed_of(command: Subcommand) -> Option<Printed>
    ensures { result ≡ printed_of command }
{
    match command {
        Subcommand::Login | Subcommand::Host | Subcommand::Sshsig => Some(Printed::OneAnswer),
        Subcommand::Admits | Subcommand::Trusts | Subcommand::Review => Some(Printed::Files),
        _ => None,
    }
}

/// The same of the command of this name; `None` where there is no such command.
pub fn printed_by(name: &str) -> Option<Printed>
    ensures { result ≡ printed_by name.now }
{
    match Subcommand::named(name) {
        Some(command) => printed_of(command),
        None => None,
    }
}

/// The colour of a line.
#[derive(Clone, Copy, Debug, PartialEq, Eq)]
pub enum Colour {
    /// Of what denies, and of a fault.
    Red,
    /// Of what has to be fixed.
    Yellow,
}

fn fault_colour(line: &[u8]) -> Option<Colour>
    ensures { result ≡ fault_colour line.now }
{
    if line.starts_with(b"fault ".as_slice()) {
        Some(Colour::Red)
    } else {
        None
    }
}

/// The colour of a line of one answer.
fn answer_colour(line: &[u8]) -> Option<Colour>
    ensures { result ≡ answer_colour line.now }
{
    if line.starts_with(b"denied ".as_slice()) {
        Some(Colour::Red)
    } else {
        fault_colour(line)
    }
}

/// What stands behind the name of a file, or of its line; `None` where there is no name.
fn behind_name(line: &[u8]) -> Option<&[u8]>
    ensures { option_map (λ state. state.now) result ≡ behind_name line.now }
{
    let mut rest = line;
    while !rest.is_empty() {
        if rest.starts_with(b": ".as_slice()) {
            return Some(rest.split_at(2).1);
        }
        rest = rest.split_at(1).1;
    }
    None
}

/// The colour of what is said of a file or its line.
fn state_colour(state: &[u8]) -> Option<Colour>
    ensures { result ≡ state_colour state.now }
{
    if state.starts_with(b"does not admit: ".as_slice())
        || state.starts_with(b"does not trust: ".as_slice())
    {
        Some(Colour::Red)
    } else if state.starts_with(b"unreadable".as_slice()) {
        Some(Colour::Yellow)
    } else {
        fault_colour(state)
    }
}

/// Whether a line is a row of a table: no other line has a tab.
fn is_row(line: &[u8]) -> bool
    ensures { result ≡ is_row line.now }
{
    line.iter().any(|byte| *byte == b'\t')
}

/// The colour of a line about files. What a trust file says stands behind a name or a blank, in an
/// object of JSON or in a row of a table, so it gives no line a colour.
fn file_colour(line: &[u8]) -> Option<Colour>
    ensures { result ≡ file_colour line.now }
{
    if is_row(line) {
        return None;
    }
    if line.starts_with(b"    F".as_slice()) {
        return Some(Colour::Yellow);
    }
    if line.starts_with(b" ".as_slice()) || line.starts_with(b"{".as_slice()) {
        return None;
    }
    match behind_name(line) {
        Some(state) => state_colour(state),
        None => fault_colour(line),
    }
}

/// The colour of a line, without its end.
#[tactic(auto, unfolding(crate::specs::Colours::colour_of))]
fn colour_of(printed: Printed, line: &[u8]) -> Option<Colour>
    ensures { result ≡ colour_of printed line.now }
{
    match printed {
        Printed::OneAnswer => answer_colour(line),
        Printed::Files => file_colour(line),
    }
}

/// Where a text stops.
#[derive(Clone, Copy, Debug, PartialEq, Eq)]
pub enum Place {
    /// Between two lines.
    Between,
    /// In a line of this colour.
    Within(Option<Colour>),
}

/// The colour of the text that is written next. A line may come in pieces: the first of them gives
/// its colour.
fn colour_at(printed: Printed, place: Place, text: &[u8]) -> Option<Colour>
    ensures { result ≡ colour_at printed place text.now }
{
    match place {
        Place::Between => colour_of(printed, text),
        Place::Within(colour) => colour,
    }
}

/// What begins a colour (ECMA-48, section 8.3.117).
fn begun_by(colour: Option<Colour>) -> &'static [u8]
    ensures { result.now ≡ begun_by colour }
{
    match colour {
        None => b"",
        Some(Colour::Red) => b"\x1b[31m",
        Some(Colour::Yellow) => b"\x1b[33m",
    }
}

/// What ends a colour, and the line.
fn ended_by(colour: Option<Colour>) -> &'static [u8]
    ensures { result.now ≡ ended_by colour }
{
    match colour {
        None => b"\n",
        Some(_) => b"\x1b[0m\n",
    }
}

/// What stands before the text that is written next.
fn front_at(place: Place, colour: Option<Colour>) -> &'static [u8]
    ensures { result.now ≡ front_at place colour }
{
    match place {
        Place::Between => begun_by(colour),
        Place::Within(_) => b"",
    }
}

fn find_end(text: &[u8]) -> Option<usize>
    ensures place { result ≡ position is_end text.now }
    ensures bound { IfSome result (λ end. end < length text.now) }
{
    text.iter().position(|byte| *byte == b'\n')
}

/// Writes a text behind another.
fn write_both<W: Write>(writer: &mut W, front: &[u8], text: &[u8]) -> Result<()>
    ensures { OnOk result (Appends (W.contents writer.old) (W.contents writer.new)
        (front.now ++ text.now)) }
{
    writer.write_all(front)?;
    writer.write_all(text)?;
    Ok(())
}

/// Writes a text between two others.
fn write_between<W: Write>(writer: &mut W, front: &[u8], text: &[u8], back: &[u8]) -> Result<()>
    ensures { OnOk result (Appends (W.contents writer.old) (W.contents writer.new)
        ((front.now ++ text.now) ++ back.now)) }
{
    write_both(writer, front, text)?;
    writer.write_all(back)?;
    Ok(())
}

/// A writer to a terminal, which shows some lines in colour: the sequence of its colour before the
/// line, and another one before its end. A line is written at a time, all of it, or an error is
/// returned.
#[derive(Drop)]
pub struct Coloured<W> {
    writer: W,
    printed: Option<Printed>,
    place: Place,
}

impl<W> Coloured<W> {
    /// A writer over this one, which shows the colours of what is printed, or none.
    pub fn new(writer: W, printed: Option<Printed>) -> Self
        ensures writer { result.writer ≡ writer }
        ensures printed { result.printed ≡ printed }
        ensures place { result.place ≡ Between }
    {
        Coloured {
            writer,
            printed,
            place: Place::Between,
        }
    }
}

impl<W: Write> Coloured<W> {
    /// Writes the first line of the text, or the whole text where no line ends in it.
    fn write_line(&mut self, printed: Printed, buf: &[u8]) -> Result<usize>
        ensures taken { IfOk result (λ count. count ≡ taken buf.now) }
        ensures line { OnOk result (Appends (W.contents self.old.writer)
            (W.contents self.new.writer) (line_at printed self.old.place buf.now)) }
        ensures place { OnOk result
            (self.new.place ≡ place_after printed self.old.place buf.now) }
        ensures same { self.new.printed ≡ self.old.printed }
    {
        let place = self.place;
        match find_end(buf) {
            Some(end) => {
                let text = buf.split_at(end).0;
                let colour = colour_at(printed, place, text);
                write_between(
                    &mut self.writer,
                    front_at(place, colour),
                    text,
                    ended_by(colour),
                )?;
                self.place = Place::Between;
                Ok(end + 1)
            }
            None => {
                let colour = colour_at(printed, place, buf);
                write_both(&mut self.writer, front_at(place, colour), buf)?;
                if !buf.is_empty() {
                    self.place = Place::Within(colour);
                }
                Ok(buf.len())
            }
        }
    }
}

impl<W: Write> Write for Coloured<W> {
    fn write(&mut self, buf: &[u8]) -> Result<usize>
        ensures bound { WritesAtMost result buf.now }
        // Without colours the text goes on as it is.
        ensures plain { self.old.printed ≡ None → WriteAppends (W.contents self.old.writer)
            (W.contents self.new.writer) result buf.now }
        // With them the first line does, with its colour's sequences around it.
        ensures taken { IfSome self.old.printed (λ printed.
            IfOk result (λ count. count ≡ taken buf.now)) }
        ensures line { IfSome self.old.printed (λ printed.
            OnOk result (Appends (W.contents self.old.writer) (W.contents self.new.writer)
            (line_at printed self.old.place buf.now))) }
        ensures place { IfSome self.old.printed (λ printed.
            OnOk result (self.new.place ≡ place_after printed self.old.place buf.now)) }
        ensures same { self.new.printed ≡ self.old.printed }
    {
        match self.printed {
            None => self.writer.write(buf),
            Some(printed) => self.write_line(printed, buf),
        }
    }

    fn flush(&mut self) -> Result<()> {
        self.writer.flush()
    }
}
