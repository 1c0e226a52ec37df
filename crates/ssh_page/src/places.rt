//! The places of a code: the lines that have it, as links to their rows.

ghost use Rattle.std.specs.Prelude.{◌≡◌, ◌++◌, IfOk, OnOk};
ghost use Rattle.std.specs.List.{flat_map};
ghost use Rattle.ssh_page.specs.Documents.{each, marks};
ghost use Rattle.ssh_page.specs.Places.{lines_seen, listed_places, name_at, next_link, place_link, places_part};

use crate::found_rows::places_in;
use crate::marks::{push_piece, push_reported};
use crate::piece::Piece;
use crate::record::RowPlace;
use itoa::Buffer;
use ssh_findings::{Code, Urgency, how_soon};
use ssh_print::{push_number, push_shown};
use ssh_text::Bytes;
use std::alloc::{AllocError, Global};

/// What the page has of all lines.
#[derive(Clone, Copy, Debug)]
pub struct PageLines<'a> {
    /// The names of the files, in the order of their numbers.
    pub names: &'a [Bytes],
    /// The sections of the files, in marked text.
    pub sections: &'a [u8],
}

/// The name of the file of this number.
fn name_at(names: &[Bytes], number: u64) -> &[u8]
    ensures { result.now ≡ name_at names.now number }
{
    match names.get(number as usize) {
        Some(name) => name.as_slice(),
        None => b"",
    }
}

/// Appends a link to the row of a line: the name of its file, and its number.
#[tactic(auto, unfolding(crate::specs::Places::place_link))]
pub(crate) fn push_place_link(
    out: &mut Vec<u8>,
    names: &[Bytes],
    place: RowPlace,
) -> Result<(), AllocError>
    ensures { OnOk result (out.new.items ≡ out.old.items ++ marks (place_link names.now place)) }
{
    let mut digits = Buffer::new();
    let line = digits.format(place.line).as_bytes();
    push_piece(out, Piece::PlaceFile)?;
    push_number(out, place.file)?;
    push_piece(out, Piece::LineId)?;
    out.extend_from_slice(line)?;
    push_piece(out, Piece::FileName)?;
    push_reported(out, name_at(names, place.file))?;
    push_shown(out, b":")?;
    out.extend_from_slice(line)?;
    push_piece(out, Piece::LinkEnd)?;
    Ok(())
}

/// Appends the same after a space.
#[tactic(auto, unfolding(crate::specs::Places::next_link))]
pub(crate) fn push_next_link(
    out: &mut Vec<u8>,
    names: &[Bytes],
    place: RowPlace,
) -> Result<(), AllocError>
    ensures { OnOk result (out.new.items ≡ out.old.items ++ marks (next_link names.now place)) }
{
    push_shown(out, b" ")?;
    push_place_link(out, names, place)?;
    Ok(())
}

fn push_next_links(
    out: &mut Vec<u8>,
    names: &[Bytes],
    places: &[RowPlace],
) -> Result<(), AllocError>
    ensures { OnOk result (out.new.items
        ≡ out.old.items ++ marks (each (next_link names.now) places.now)) }
{
    for place in places {
        push_next_link(out, names, *place)?;
    }
    Ok(())
}

/// Appends the end of a code that was found, with a link to each of these places, if there are any.
pub(crate) fn push_places(
    out: &mut Vec<u8>,
    names: &[Bytes],
    places: &[RowPlace],
) -> Result<(), AllocError>
    ensures { OnOk result (out.new.items
        ≡ out.old.items ++ marks (places_part names.now places.now)) }
{
    match places.split_first() {
        None => push_piece(out, Piece::FoundEnd),
        Some((first, rest)) => {
            push_piece(out, Piece::Places)?;
            push_place_link(out, names, *first)?;
            push_next_links(out, names, rest)?;
            push_piece(out, Piece::PlacesEnd)?;
            Ok(())
        }
    }
}

/// The places of a code that are listed.
pub(crate) fn listed_places(
    alloc: Global,
    lines: &PageLines<'_>,
    code: Code,
) -> Result<Vec<RowPlace>, AllocError>
    ensures { IfOk result (λ places. places.items
        ≡ listed_places (lines_seen lines.entry.now) code) }
{
    if how_soon(code) == Urgency::Policy {
        return Ok(Vec::new(alloc));
    }
    let places = places_in(alloc, code, lines.sections)?;
    Ok(places)
}
