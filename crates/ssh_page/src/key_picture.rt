//! The keys that are in many files, as a picture: a row for each, and in it a column for each file.

ghost use Rattle.std.specs.Prelude.{◌≡◌, ◌++◌, OnOk, map, take};
ghost use Rattle.std.specs.List.{flat_map};
ghost use Rattle.ssh_page.specs.Documents.{each, marks};
ghost use Rattle.ssh_page.specs.KeyGroups.{group_seen};
ghost use Rattle.ssh_page.specs.KeyLists.{column, column_end, has_wide, is_wide, picture, picture_name, picture_row};
ghost use Rattle.ssh_page.specs.KeyRows.{row_seen};

use crate::key_groups::KeyGroup;
use crate::key_rows::KeyRow;
use crate::keys::push_name;
use crate::marks::push_piece;
use crate::piece::Piece;
use ssh_print::push_number;
use std::alloc::AllocError;

/// How many keys the picture has at the most.
const MOST_KEYS: usize = 40;

/// Whether a key is in more than two files.
fn is_wide(group: &KeyGroup<'_, '_>) -> bool
    ensures { result ≡ is_wide (group_seen group.now) }
{
    group.files > 2
}

/// The end of the mark of a file: a high mark, or a low one where the rights are limited.
fn column_end(row: &KeyRow<'_>) -> Piece
    ensures { result ≡ column_end (row_seen row.now) }
{
    if row.is_limited {
        Piece::LowColumnEnd
    } else {
        Piece::ColumnEnd
    }
}

/// Appends the mark of a file.
#[tactic(auto, unfolding(crate::specs::KeyLists::column))]
fn push_column(out: &mut Vec<u8>, row: &KeyRow<'_>) -> Result<(), AllocError>
    ensures { OnOk result (out.new.items ≡ out.old.items ++ marks (column (row_seen row.now))) }
{
    push_piece(out, Piece::Column)?;
    push_number(out, row.place.file)?;
    push_piece(out, column_end(row))?;
    Ok(())
}

fn push_columns(out: &mut Vec<u8>, rows: &[KeyRow<'_>]) -> Result<(), AllocError>
    ensures { OnOk result (out.new.items
        ≡ out.old.items ++ marks (each column (map row_seen rows.now))) }
{
    for row in rows {
        push_column(out, row)?;
    }
    Ok(())
}

/// Appends a link to a key, and in how many files it is.
#[tactic(auto, unfolding(crate::specs::KeyLists::picture_name))]
fn push_picture_name(out: &mut Vec<u8>, first: &KeyRow<'_>, files: u64) -> Result<(), AllocError>
    ensures { OnOk result (out.new.items
        ≡ out.old.items ++ marks (picture_name (row_seen first.now) files)) }
{
    push_piece(out, Piece::PictureRow)?;
    push_number(out, first.place.file)?;
    push_piece(out, Piece::LineId)?;
    push_number(out, first.place.line)?;
    push_piece(out, Piece::FileName)?;
    push_name(out, first.name)?;
    push_piece(out, Piece::FirstCount)?;
    push_number(out, files)?;
    push_piece(out, Piece::Strip)?;
    Ok(())
}

/// Appends a key that is in more than two of so many files; nothing of another.
fn push_picture_row(out: &mut Vec<u8>, all: u64, group: &KeyGroup<'_, '_>) -> Result<(), AllocError>
    ensures { OnOk result (out.new.items
        ≡ out.old.items ++ marks (picture_row all (group_seen group.now))) }
{
    if !is_wide(group) {
        return Ok(());
    }
    let Some((first, _)) = group.rows.split_first() else {
        return Ok(());
    };
    push_picture_name(out, first, group.files)?;
    push_number(out, all)?;
    push_piece(out, Piece::StripColumns)?;
    push_columns(out, group.rows)?;
    push_piece(out, Piece::StripEnd)?;
    Ok(())
}

fn push_picture_rows(
    out: &mut Vec<u8>,
    all: u64,
    groups: &[KeyGroup<'_, '_>],
) -> Result<(), AllocError>
    ensures { OnOk result (out.new.items
        ≡ out.old.items ++ marks (each (picture_row all) (map group_seen groups.now))) }
{
    for group in groups {
        push_picture_row(out, all, group)?;
    }
    Ok(())
}

/// Appends the rows of the first 40 keys.
fn push_first_rows(
    out: &mut Vec<u8>,
    all: u64,
    groups: &[KeyGroup<'_, '_>],
) -> Result<(), AllocError>
    ensures { OnOk result (out.new.items
        ≡ out.old.items ++ marks (each (picture_row all) (take 40 (map group_seen groups.now)))) }
{
    let (first, _) = groups.split_at(MOST_KEYS.min(groups.len()));
    push_picture_rows(out, all, first)
}

fn has_wide(groups: &[KeyGroup<'_, '_>]) -> bool
    ensures { result ≡ has_wide (map group_seen groups.now) }
{
    match groups.split_first() {
        Some((first, _)) => is_wide(first),
        None => false,
    }
}

/// Appends the picture of the first keys of the list, if one is in more than two of so many files.
#[tactic(auto, unfolding(crate::specs::KeyLists::picture))]
pub(crate) fn push_picture(
    out: &mut Vec<u8>,
    all: u64,
    groups: &[KeyGroup<'_, '_>],
) -> Result<(), AllocError>
    ensures { OnOk result (out.new.items
        ≡ out.old.items ++ marks (picture all (map group_seen groups.now))) }
{
    if !has_wide(groups) {
        return Ok(());
    }
    push_piece(out, Piece::Picture)?;
    push_first_rows(out, all, groups)?;
    push_piece(out, Piece::PictureEnd)?;
    Ok(())
}
