//! The rows that have a finding, read off the marked text of the sections. So no memory is needed for
//! them before they are asked for.

ghost use Rattle.std.specs.Prelude.{◌≡◌, ◌<◌, ◌≤◌, ◌++◌, IfOk, IfSome, OnOk, length, option_map};
ghost use Rattle.std.specs.Option.{option_to_list};
ghost use Rattle.ssh_page.specs.Expanding.{is_mark};
ghost use Rattle.ssh_page.specs.FoundRows.{after_class, after_file, after_piece, no_row, part_behind, place_at, place_in, places_in, places_read, read_in, row_start, with_digit, with_number};

use crate::classes::code_number;
use crate::piece::{FIRST_MARK, Piece};
use crate::record::RowPlace;
use memchr::memchr;
use ssh_findings::Code;
use std::alloc::{AllocError, Global};

/// Which number of a row comes next.
#[derive(Clone, Copy, Debug, PartialEq, Eq)]
pub(crate) enum RowPart {
    /// None: what stands behind the numbers, or between two rows.
    Outside,
    /// That of a code.
    Classes,
    /// That of its file.
    File,
    /// That of its line.
    Line,
}

/// What was read of a row so far.
#[derive(Clone, Copy, Debug)]
pub(crate) struct RowRead {
    part: RowPart,
    /// The digits of the number that comes next.
    number: u64,
    /// One of its classes is that of the code.
    has_code: bool,
    /// The number of its file, once that was read.
    file: u64,
}

fn is_mark(byte: u8) -> bool
    ensures { result ≡ is_mark byte }
{
    !(byte < FIRST_MARK)
}

/// A number with one more digit.
pub(crate) fn with_digit(number: u64, digit: u8) -> u64
    ensures { result ≡ with_digit number digit }
{
    number
        .saturating_mul(10)
        .saturating_add((digit as u64).saturating_sub(48))
}

/// Before the first row, and behind the numbers of one.
fn no_row() -> RowRead
    ensures { result ≡ no_row }
{
    RowRead {
        part: RowPart::Outside,
        number: 0,
        has_code: false,
        file: 0,
    }
}

/// Behind the first piece of a row.
fn row_start() -> RowRead
    ensures { result ≡ row_start }
{
    RowRead {
        part: RowPart::Classes,
        number: 0,
        has_code: false,
        file: 0,
    }
}

fn with_number(read: RowRead, digit: u8) -> RowRead
    ensures { result ≡ with_number read digit }
{
    RowRead {
        part: read.part,
        number: with_digit(read.number, digit),
        has_code: read.has_code,
        file: read.file,
    }
}

/// The part behind this piece, which ends a class.
fn part_behind(byte: u8) -> RowPart
    ensures { result ≡ part_behind byte }
{
    if byte == Piece::FileId.mark() {
        RowPart::File
    } else {
        RowPart::Classes
    }
}

/// Behind a class.
fn after_class(code: Code, read: RowRead, byte: u8) -> RowRead
    ensures { result ≡ after_class code read byte }
{
    RowRead {
        part: part_behind(byte),
        number: 0,
        has_code: read.has_code || read.number == code_number(code),
        file: 0,
    }
}

/// Behind the number of the file.
fn after_file(read: RowRead) -> RowRead
    ensures { result ≡ after_file read }
{
    RowRead {
        part: RowPart::Line,
        number: 0,
        has_code: read.has_code,
        file: read.number,
    }
}

/// What was read after one more byte, in this part of a row.
fn read_in(part: RowPart, code: Code, read: RowRead, byte: u8) -> RowRead
    ensures { result ≡ read_in part code read byte }
{
    match part {
        RowPart::Outside => {
            if byte == Piece::Row.mark() {
                row_start()
            } else {
                read
            }
        }
        RowPart::Classes => {
            if is_mark(byte) {
                after_class(code, read, byte)
            } else {
                with_number(read, byte)
            }
        }
        RowPart::File => {
            if is_mark(byte) {
                after_file(read)
            } else {
                with_number(read, byte)
            }
        }
        RowPart::Line => {
            if is_mark(byte) {
                no_row()
            } else {
                with_number(read, byte)
            }
        }
    }
}

/// The place of the row that ends its numbers with this byte, if it has the code.
fn place_in(part: RowPart, read: RowRead, byte: u8) -> Option<RowPlace>
    ensures { result ≡ place_in part read byte }
{
    match part {
        RowPart::Line => {
            if is_mark(byte) && read.has_code {
                Some(RowPlace {
                    file: read.file,
                    line: read.number,
                })
            } else {
                None
            }
        }
        _ => None,
    }
}

/// Appends that place, if there is one.
fn push_place(places: &mut Vec<RowPlace>, read: RowRead, byte: u8) -> Result<(), AllocError>
    ensures { OnOk result
        (places.new.items ≡ places.old.items ++ option_to_list (place_at read byte)) }
{
    match place_in(read.part, read, byte) {
        Some(place) => {
            places.push(place)?;
            Ok(())
        }
        None => Ok(()),
    }
}

/// What stands behind the first piece of this kind; none if there is none. Searches with `memchr`:
/// most bytes are no piece of this kind, and a file is read once for each code.
pub(crate) fn after_piece(marks: &[u8], piece: Piece) -> Option<&[u8]>
    ensures behind { option_map (λ rest. rest.now) result ≡ after_piece piece marks.now }
    ensures shorter { IfSome result (λ rest. length rest.now < length marks.now) }
{
    match memchr(piece.mark(), marks) {
        Some(at) => Some(&marks[at + 1..]),
        None => None,
    }
}

/// Reads the numbers of a row from behind its first piece, and appends its place if it has the code.
/// Returns what stands behind the numbers.
#[tactic(auto, using(crate::proofs::ScanLemmas::outside_read))]
fn push_row_place<'a>(
    places: &mut Vec<RowPlace>,
    code: Code,
    row: &'a [u8],
) -> Result<&'a [u8], AllocError>
    ensures pushed { IfOk result (λ rest. places.new.items ++ places_in code rest.now
        ≡ places.old.items ++ places_read code row_start row.entry.now) }
    ensures shorter { IfOk result (λ rest. length rest.now ≤ length row.entry.now) }
{
    let mut read = row_start();
    let mut rest = row;
    while let [byte, more @ ..] = rest {
        if read.part == RowPart::Outside {
            return Ok(rest);
        }
        push_place(places, read, *byte)?;
        read = read_in(read.part, code, read, *byte);
        rest = more;
    }
    Ok(rest)
}

/// The places of the rows that have a finding of this code, in their order, of sections in marked
/// text.
pub(crate) fn places_in(
    alloc: Global,
    code: Code,
    sections: &[u8],
) -> Result<Vec<RowPlace>, AllocError>
    ensures { IfOk result (λ places. places.items ≡ places_in code sections.now) }
{
    let mut places = Vec::new(alloc);
    let mut rest = sections;
    while let Some(row) = after_piece(rest, Piece::Row) {
        rest = push_row_place(&mut places, code, row)?;
    }
    Ok(places)
}
