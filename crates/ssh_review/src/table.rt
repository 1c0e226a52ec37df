//! A review as a table: its header, and the rows of the ends of files and of the total, which have a
//! note in place of a key.

ghost use Rattle.std.specs.Prelude.{◌≡◌, ◌++◌, OnOk, codes};
ghost use Rattle.ssh_findings.specs.Asking.{asking_of};
ghost use Rattle.ssh_review.specs.Forms.{first_lines};
ghost use Rattle.ssh_review.specs.Tables.{empty_cells, end_row, fault_row, header, note_row, total_row};

use crate::end::{
    Counts, FileFault, Form, Total, push_end_words, push_fault_words, push_total_words,
};
use ssh_findings::ReviewOptions;
use ssh_page::FileKind;
use std::alloc::{AllocError, Global};

/// The names of the columns, as the first line.
fn header(kind: FileKind) -> &'static [u8]
    ensures { result.now ≡ header kind }
{
    match kind {
        FileKind::AuthorizedKeys =>
            b"file\thost\taccount\tline\twhat\ttype\tbits\tkey\tcomment\toptions\trights\tcommand\tsource\tprincipals\texpires\tshadowed_by\tlets_in\tfindings\tnote\n",
        FileKind::KnownHosts =>
            b"file\thost\taccount\tline\twhat\ttype\tbits\tkey\tcomment\tnames\tfindings\tnote\n",
    }
}

/// What is written before the records of the first file: the header of a table.
pub fn first_lines(form: Form) -> &'static [u8]
    ensures { result.now ≡ first_lines form }
{
    match form {
        Form::Text => b"",
        Form::Json => b"",
        Form::Line(kind) => header(kind),
    }
}

/// The cells of a row that has a note and no key.
fn empty_cells(kind: FileKind) -> &'static [u8]
    ensures { result.now ≡ empty_cells kind }
{
    match kind {
        FileKind::AuthorizedKeys => b"\t\t\t\t\t\t\t\t\t\t\t\t\t",
        FileKind::KnownHosts => b"\t\t\t\t\t\t",
    }
}

/// Appends these cells, and the tab before the note.
fn push_empty_cells(out: &mut Vec<u8>, kind: FileKind) -> Result<(), AllocError>
    ensures { OnOk result (out.new.items ≡ out.old.items ++ empty_cells kind ++ codes "\t") }
{
    out.extend_from_slice(empty_cells(kind))?;
    out.push(b'\t')?;
    Ok(())
}

/// Appends the cells of the end of a file up to its note.
fn push_end_head(out: &mut Vec<u8>, kind: FileKind, head: &[u8]) -> Result<(), AllocError>
    ensures { OnOk result (out.new.items
        ≡ out.old.items ++ head.now ++ codes "\t\tend" ++ empty_cells kind ++ codes "\t") }
{
    out.extend_from_slice(head)?;
    out.extend_from_slice(b"\t\tend")?;
    push_empty_cells(out, kind)?;
    Ok(())
}

/// Appends the row of the end of a file that was reviewed.
pub(crate) fn push_end_row(
    out: &mut Vec<u8>,
    kind: FileKind,
    head: &[u8],
    counts: Counts,
    digest: &[u8],
) -> Result<(), AllocError>
    ensures { OnOk result
        (out.new.items ≡ out.old.items ++ end_row kind head.now counts digest.now) }
{
    push_end_head(out, kind, head)?;
    push_end_words(out, counts, digest)?;
    out.push(b'\n')?;
    Ok(())
}

/// Appends the row of the end of a file with a fault.
pub(crate) fn push_fault_row(
    out: &mut Vec<u8>,
    kind: FileKind,
    head: &[u8],
    fault: FileFault,
) -> Result<(), AllocError>
    ensures { OnOk result (out.new.items ≡ out.old.items ++ fault_row kind head.now fault) }
{
    push_end_head(out, kind, head)?;
    push_fault_words(out, fault)?;
    out.push(b'\n')?;
    Ok(())
}

/// Appends the row of the total of all files, which stands last.
pub(crate) fn push_total_row(
    alloc: Global,
    out: &mut Vec<u8>,
    kind: FileKind,
    zone: &[u8],
    asked: &ReviewOptions<'_>,
    total: &Total,
) -> Result<(), AllocError>
    ensures { OnOk result (out.new.items ≡ out.old.items
        ++ total_row kind zone.now (asking_of asked.entry.now) total.now) }
{
    out.extend_from_slice(b"\t\t\t\ttotal")?;
    push_empty_cells(out, kind)?;
    push_total_words(alloc, out, zone, asked, total)?;
    out.push(b'\n')?;
    Ok(())
}
