//! Where each key stands: for each different key the lines that have it, as links to their rows.

ghost use Rattle.std.specs.Prelude.{◌≡◌, ◌++◌, IfOk, OnOk, map};
ghost use Rattle.std.specs.List.{flat_map};
ghost use Rattle.ssh_page.specs.Documents.{each, marks};
ghost use Rattle.ssh_page.specs.KeyGroups.{group_seen};
ghost use Rattle.ssh_page.specs.KeyLists.{first_comment, key_counts, key_head, key_list, key_part, keys, limited_note, list_head, name_part, row_link};
ghost use Rattle.ssh_page.specs.KeyRows.{row_seen};
ghost use Rattle.ssh_page.specs.Places.{lines_seen};

use crate::header::push_how_many;
use crate::key_buckets::{count_rows, rows_by_key};
use crate::key_groups::{KeyGroup, groups_in};
use crate::key_picture::push_picture;
use crate::key_rows::KeyRow;
use crate::marks::{push_copied, push_piece};
use crate::piece::Piece;
use crate::places::{PageLines, push_next_link, push_place_link};
use crate::record::push_if;
use ssh_print::{push_number, push_shown};
use ssh_text::Bytes;
use std::alloc::{AllocError, Global};

/// Appends a comment as it stands in the section, or that there is none.
pub(crate) fn push_name(out: &mut Vec<u8>, name: &[u8]) -> Result<(), AllocError>
    ensures { OnOk result (out.new.items ≡ out.old.items ++ marks (name_part name.now)) }
{
    if name.is_empty() {
        push_piece(out, Piece::NoComment)
    } else {
        push_copied(out, name)
    }
}

/// Appends how many files and lines have a key.
#[tactic(auto, unfolding(crate::specs::KeyLists::key_counts))]
fn push_key_counts(out: &mut Vec<u8>, files: u64, lines: u64) -> Result<(), AllocError>
    ensures { OnOk result (out.new.items ≡ out.old.items ++ marks (key_counts files lines)) }
{
    // Most keys are on one line.
    if files == 1 && lines == 1 {
        return push_shown(out, b" in 1 file, on 1 line");
    }
    push_shown(out, b" in ")?;
    push_how_many(out, files, b" file", b" files")?;
    push_shown(out, b", on ")?;
    push_how_many(out, lines, b" line", b" lines")?;
    Ok(())
}

/// Appends the name of a key on the page, whose it is, and its fingerprint, by the first row that has
/// it and the comment of that row.
#[tactic(auto, unfolding(crate::specs::KeyLists::key_head))]
fn push_key_head(out: &mut Vec<u8>, first: &KeyRow<'_>, comment: &[u8]) -> Result<(), AllocError>
    requires { comment.now ≡ first.now.name.now }
    ensures { OnOk result (out.new.items ≡ out.old.items ++ marks (key_head (row_seen first.now))) }
{
    push_piece(out, Piece::Key)?;
    push_number(out, first.place.file)?;
    push_piece(out, Piece::LineId)?;
    push_number(out, first.place.line)?;
    push_piece(out, Piece::SectionName)?;
    push_name(out, comment)?;
    push_piece(out, Piece::SectionSays)?;
    push_piece(out, Piece::KeyPrint)?;
    push_shown(out, &first.key)?;
    push_piece(out, Piece::FingerprintEnd)?;
    Ok(())
}

/// Appends that the rights of a row are limited, if they are.
fn push_limited_note(out: &mut Vec<u8>, row: &KeyRow<'_>) -> Result<(), AllocError>
    ensures { OnOk result (out.new.items ≡ out.old.items ++ marks (limited_note (row_seen row.now))) }
{
    push_if(out, row.is_limited, Piece::Limited)
}

/// Appends a link to a row, after a space.
fn push_row_link(out: &mut Vec<u8>, names: &[Bytes], row: &KeyRow<'_>) -> Result<(), AllocError>
    ensures { OnOk result (out.new.items
        ≡ out.old.items ++ marks (row_link names.now (row_seen row.now))) }
{
    push_next_link(out, names, row.place)?;
    push_limited_note(out, row)?;
    Ok(())
}

fn push_row_links(out: &mut Vec<u8>, names: &[Bytes], rows: &[KeyRow<'_>]) -> Result<(), AllocError>
    ensures { OnOk result (out.new.items
        ≡ out.old.items ++ marks (each (row_link names.now) (map row_seen rows.now))) }
{
    for row in rows {
        push_row_link(out, names, row)?;
    }
    Ok(())
}

/// The comment of the first row that has a key, as it stands in the section.
fn first_comment<'a>(group: &KeyGroup<'_, 'a>) -> &'a [u8]
    ensures { result.now ≡ first_comment (group_seen group.now) }
{
    match group.rows.split_first() {
        Some((first, _)) => first.name,
        None => b"",
    }
}

/// The comments of the keys, one behind the other. In the order of the keys they lie all over the
/// sections, far from each other: a loop that does nothing but copy waits for several at a time.
fn comments_of(alloc: Global, groups: &[KeyGroup<'_, '_>]) -> Result<Vec<u8>, AllocError>
    ensures { IfOk result (λ comments. comments.items
        ≡ flat_map first_comment (map group_seen groups.now)) }
{
    let mut comments = Vec::new(alloc);
    for group in groups {
        comments.extend_from_slice(first_comment(group))?;
    }
    Ok(comments)
}

/// Appends a key, and a link to each row that has it. `comment` is that of the first.
fn push_key(
    out: &mut Vec<u8>,
    names: &[Bytes],
    group: &KeyGroup<'_, '_>,
    comment: &[u8],
) -> Result<(), AllocError>
    requires { comment.now ≡ first_comment (group_seen group.now) }
    ensures { OnOk result (out.new.items
        ≡ out.old.items ++ marks (key_part names.now (group_seen group.now))) }
{
    let Some((first, rest)) = group.rows.split_first() else {
        return Ok(());
    };
    push_key_head(out, first, comment)?;
    push_key_counts(out, group.files, group.rows.len() as u64)?;
    push_piece(out, Piece::Places)?;
    push_place_link(out, names, first.place)?;
    push_limited_note(out, first)?;
    push_row_links(out, names, rest)?;
    push_piece(out, Piece::KeyEnd)?;
    Ok(())
}

/// Appends each key. `comments` are theirs, one behind the other.
fn push_each_key(
    out: &mut Vec<u8>,
    names: &[Bytes],
    groups: &[KeyGroup<'_, '_>],
    comments: &[u8],
) -> Result<(), AllocError>
    requires { comments.now ≡ flat_map first_comment (map group_seen groups.now) }
    ensures { OnOk result (out.new.items
        ≡ out.old.items ++ marks (each (key_part names.now) (map group_seen groups.now))) }
{
    let mut rest = comments;
    for group in groups {
        let (comment, others) = rest.split_at(first_comment(group).len());
        push_key(out, names, group, comment)?;
        rest = others;
    }
    Ok(())
}

/// Appends the start of the list: how many keys there are, and on how many lines.
#[tactic(auto, unfolding(crate::specs::KeyLists::list_head))]
fn push_list_head(out: &mut Vec<u8>, keys: u64, lines: u64) -> Result<(), AllocError>
    ensures { OnOk result (out.new.items ≡ out.old.items ++ marks (list_head keys lines)) }
{
    push_piece(out, Piece::Keys)?;
    push_number(out, keys)?;
    push_shown(out, b" different keys, on ")?;
    push_number(out, lines)?;
    push_shown(
        out,
        b" lines, those that cannot be read or revoke a key among them. Those in most files come first.",
    )?;
    push_piece(out, Piece::ParagraphEnd)?;
    Ok(())
}

/// Appends the list of these keys, which stand on so many lines.
#[tactic(auto, unfolding(crate::specs::KeyLists::key_list), using(crate::proofs::RunLemmas::same_number))]
fn push_key_list(
    alloc: Global,
    out: &mut Vec<u8>,
    names: &[Bytes],
    lines: u64,
    groups: &[KeyGroup<'_, '_>],
) -> Result<(), AllocError>
    ensures { OnOk result (out.new.items
        ≡ out.old.items ++ marks (key_list names.now lines (map group_seen groups.now))) }
{
    let comments = comments_of(alloc, groups)?;
    push_list_head(out, groups.len() as u64, lines)?;
    push_picture(out, names.len() as u64, groups)?;
    push_each_key(out, names, groups, &comments)?;
    push_piece(out, Piece::MendEnd)?;
    Ok(())
}

/// Appends where each key stands: the different keys of these lines, those in most files first.
pub fn push_keys(alloc: Global, out: &mut Vec<u8>, lines: &PageLines<'_>) -> Result<(), AllocError>
    ensures { OnOk result (out.new.items ≡ out.old.items ++ marks (keys (lines_seen lines.entry.now))) }
{
    let buckets = rows_by_key(alloc, lines.sections)?;
    let groups = groups_in(alloc, &buckets)?;
    push_key_list(alloc, out, lines.names, count_rows(&buckets), &groups)
}
