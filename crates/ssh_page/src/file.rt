//! The section of a file, and its row in the register of files.
//!
//! The section is written around the rows of the file: `push_section_head`, a row for each record,
//! and `push_section_end`. So is the register: `push_register_head`, a row for each file, and
//! `push_register_end`.

ghost use Rattle.std.specs.Prelude.{◌≡◌, ◌++◌, [], OnOk, if◌then◌else◌};
ghost use Rattle.std.specs.List.{flat_map};
ghost use Rattle.ssh_page.specs.Documents.{each, marks, put};
ghost use Rattle.ssh_page.specs.Files.{classes_seen, count_cells, counts_part, empty_section, fault_row, fault_section, fault_words, file_link, file_row, register_end, reported_among, section_classes, section_head, section_name, seen, table_piece};
ghost use Rattle.ssh_page.specs.Classes.{class_of};
ghost use Rattle.ssh_page.specs.declared.piece.Piece.TheVariants.{Register, TableEnd};

use crate::classes::push_class;
use crate::marks::{push_piece, push_reported};
use crate::piece::Piece;
use crate::record::push_if;
use ssh_findings::{Code, CodeCounts};
use ssh_print::{push_hex, push_number, push_shown};
use std::alloc::{AllocError, Global};

/// What the files of a review are.
#[derive(Clone, Copy, Debug, PartialEq, Eq)]
pub enum FileKind {
    AuthorizedKeys,
    KnownHosts,
}

/// What the page tells of a file that was reviewed.
#[derive(Clone, Copy, Debug)]
pub struct FileRow<'a> {
    pub name: &'a [u8],
    pub lines: u64,
    /// Entries, also certificate authorities.
    pub keys: u64,
    pub unreadable: u64,
    pub findings: u64,
    /// The SHA-256 of its bytes.
    pub digest: &'a [u8],
}

/// What is reported in a file: how often each code, and whether a line of it cannot be read, or has a
/// certificate authority.
#[derive(Clone, Copy, Debug)]
pub struct FileClasses {
    pub reported: CodeCounts,
    pub has_unreadable: bool,
    pub has_authority: bool,
}

/// Appends the number of a file on the page, and its name.
#[tactic(auto, unfolding(crate::specs::Files::section_name))]
fn push_name(out: &mut Vec<u8>, file: u64, name: &[u8]) -> Result<(), AllocError>
    ensures { OnOk result (out.new.items ≡ out.old.items ++ marks (section_name file name.now)) }
{
    push_piece(out, Piece::FileId)?;
    push_number(out, file)?;
    push_piece(out, Piece::SectionName)?;
    push_reported(out, name)?;
    push_piece(out, Piece::SectionSays)?;
    Ok(())
}

#[tactic(auto, unfolding(crate::specs::Files::counts_part))]
fn push_counts(out: &mut Vec<u8>, row: &FileRow<'_>) -> Result<(), AllocError>
    ensures { OnOk result (out.new.items
        ≡ out.old.items ++ marks (counts_part (seen row.entry.now))) }
{
    push_number(out, row.lines)?;
    push_shown(out, b" lines, ")?;
    push_number(out, row.keys)?;
    push_shown(out, b" key lines, ")?;
    push_number(out, row.unreadable)?;
    push_shown(out, b" unreadable, ")?;
    push_number(out, row.findings)?;
    push_shown(out, b" findings")?;
    Ok(())
}

/// Appends the classes of a code, if it is reported.
fn push_class_if(out: &mut Vec<u8>, is_reported: bool, code: Code) -> Result<(), AllocError>
    ensures { OnOk result (out.new.items
        ≡ out.old.items ++ (if is_reported then marks (class_of code) else [])) }
{
    if is_reported {
        push_class(out, code)
    } else {
        Ok(())
    }
}

/// Appends the classes of those of these codes that are reported.
fn push_each_class(
    out: &mut Vec<u8>,
    reported: CodeCounts,
    listed: &[Code],
) -> Result<(), AllocError>
    ensures { OnOk result (out.new.items
        ≡ out.old.items ++ marks (each class_of (reported_among reported listed.now))) }
{
    for code in listed {
        push_class_if(out, reported.get(*code) > 0, *code)?;
    }
    Ok(())
}

#[tactic(auto, unfolding(crate::specs::Files::section_classes))]
fn push_section_classes(out: &mut Vec<u8>, classes: &FileClasses) -> Result<(), AllocError>
    ensures { OnOk result (out.new.items
        ≡ out.old.items ++ marks (section_classes (classes_seen classes.entry.now))) }
{
    push_each_class(out, classes.reported, &Code::ALL)?;
    push_if(out, classes.has_unreadable, Piece::UnreadableClass)?;
    push_if(out, classes.has_authority, Piece::AuthorityClass)?;
    Ok(())
}

fn table_piece(kind: FileKind) -> Piece
    ensures { result ≡ table_piece kind }
{
    match kind {
        FileKind::AuthorizedKeys => Piece::KeysTable,
        FileKind::KnownHosts => Piece::HostsTable,
    }
}

/// Appends what comes before the rows of a file. `file` is its number on the page, from 0.
#[tactic(auto, unfolding(crate::specs::Files::section_head))]
pub fn push_section_head(
    out: &mut Vec<u8>,
    file: u64,
    kind: FileKind,
    row: &FileRow<'_>,
    classes: &FileClasses,
) -> Result<(), AllocError>
    ensures { OnOk result (out.new.items ≡ out.old.items ++ marks
        (section_head file kind (seen row.entry.now) (classes_seen classes.entry.now))) }
{
    push_piece(out, Piece::Section)?;
    push_section_classes(out, classes)?;
    push_name(out, file, row.name)?;
    push_counts(out, row)?;
    push_piece(out, table_piece(kind))?;
    Ok(())
}

/// Appends what comes after the rows of a file.
pub fn push_section_end(out: &mut Vec<u8>) -> Result<(), AllocError>
    ensures { OnOk result (out.new.items ≡ out.old.items ++ marks (put TableEnd)) }
{
    push_piece(out, Piece::TableEnd)
}

/// Appends the section of a file without a row.
#[tactic(auto, unfolding(crate::specs::Files::empty_section))]
pub fn push_empty_section(out: &mut Vec<u8>, file: u64, row: &FileRow<'_>) -> Result<(), AllocError>
    ensures { OnOk result (out.new.items
        ≡ out.old.items ++ marks (empty_section file (seen row.entry.now))) }
{
    push_piece(out, Piece::Section)?;
    push_name(out, file, row.name)?;
    push_counts(out, row)?;
    push_piece(out, Piece::SectionEnd)?;
    Ok(())
}

#[tactic(auto, unfolding(crate::specs::Files::fault_words))]
fn push_fault(out: &mut Vec<u8>, code: &[u8], means: &[u8]) -> Result<(), AllocError>
    ensures { OnOk result (out.new.items
        ≡ out.old.items ++ marks (fault_words code.now means.now)) }
{
    push_shown(out, b"fault ")?;
    push_shown(out, code)?;
    push_piece(out, Piece::FaultEnd)?;
    push_shown(out, means)?;
    Ok(())
}

/// Appends the section of a file that was not reviewed: the code of its fault, and what it means.
#[tactic(auto, unfolding(crate::specs::Files::fault_section))]
pub fn push_fault_section(
    out: &mut Vec<u8>,
    file: u64,
    name: &[u8],
    code: &[u8],
    means: &[u8],
) -> Result<(), AllocError>
    ensures { OnOk result (out.new.items
        ≡ out.old.items ++ marks (fault_section file name.now code.now means.now)) }
{
    push_piece(out, Piece::Section)?;
    push_name(out, file, name)?;
    push_piece(out, Piece::Fault)?;
    push_fault(out, code, means)?;
    push_shown(out, b". Nothing else is told of this file.")?;
    push_piece(out, Piece::SectionEnd)?;
    Ok(())
}

/// Appends a link to the section of a file, with its name.
#[tactic(auto, unfolding(crate::specs::Files::file_link))]
fn push_file_link(out: &mut Vec<u8>, file: u64, name: &[u8]) -> Result<(), AllocError>
    ensures { OnOk result (out.new.items ≡ out.old.items ++ marks (file_link file name.now)) }
{
    push_piece(out, Piece::FileRow)?;
    push_number(out, file)?;
    push_piece(out, Piece::FileName)?;
    push_reported(out, name)?;
    Ok(())
}

/// Appends the counts of a file, a cell for each.
#[tactic(auto, unfolding(crate::specs::Files::count_cells))]
fn push_count_cells(out: &mut Vec<u8>, row: &FileRow<'_>) -> Result<(), AllocError>
    ensures { OnOk result (out.new.items
        ≡ out.old.items ++ marks (count_cells (seen row.entry.now))) }
{
    push_piece(out, Piece::FirstCount)?;
    push_number(out, row.lines)?;
    push_piece(out, Piece::NextCount)?;
    push_number(out, row.keys)?;
    push_piece(out, Piece::NextCount)?;
    push_number(out, row.unreadable)?;
    push_piece(out, Piece::NextCount)?;
    push_number(out, row.findings)?;
    Ok(())
}

/// Appends what comes before the rows of the register of files.
pub fn push_register_head(out: &mut Vec<u8>) -> Result<(), AllocError>
    ensures { OnOk result (out.new.items ≡ out.old.items ++ marks (put Register)) }
{
    push_piece(out, Piece::Register)
}

/// Appends the row of a file that was reviewed, with the SHA-256 of its bytes.
#[tactic(auto, unfolding(crate::specs::Files::file_row))]
pub fn push_file_row(
    alloc: Global,
    out: &mut Vec<u8>,
    file: u64,
    row: &FileRow<'_>,
) -> Result<(), AllocError>
    ensures { OnOk result (out.new.items
        ≡ out.old.items ++ marks (file_row file (seen row.entry.now))) }
{
    let mut digest = Vec::new(alloc);
    push_hex(&mut digest, row.digest)?;
    push_file_link(out, file, row.name)?;
    push_count_cells(out, row)?;
    push_piece(out, Piece::Digest)?;
    push_shown(out, &digest)?;
    push_piece(out, Piece::DigestEnd)?;
    Ok(())
}

/// Appends the row of a file that was not reviewed.
#[tactic(auto, unfolding(crate::specs::Files::fault_row))]
pub fn push_fault_row(
    out: &mut Vec<u8>,
    file: u64,
    name: &[u8],
    code: &[u8],
    means: &[u8],
) -> Result<(), AllocError>
    ensures { OnOk result (out.new.items
        ≡ out.old.items ++ marks (fault_row file name.now code.now means.now)) }
{
    push_file_link(out, file, name)?;
    push_piece(out, Piece::FaultCell)?;
    push_shown(out, b"fault ")?;
    push_shown(out, code)?;
    push_shown(out, b": ")?;
    push_shown(out, means)?;
    push_piece(out, Piece::FaultCellEnd)?;
    Ok(())
}

/// Appends what comes after the rows of the register: the total of the review, in the words of the
/// text format.
#[tactic(auto, unfolding(crate::specs::Files::register_end))]
pub fn push_register_end(out: &mut Vec<u8>, total: &[u8]) -> Result<(), AllocError>
    ensures { OnOk result (out.new.items ≡ out.old.items ++ marks (register_end total.now)) }
{
    push_piece(out, Piece::RegisterTotal)?;
    push_shown(out, total)?;
    push_piece(out, Piece::SectionEnd)?;
    Ok(())
}
