//! The answer to `review` as a page: what each file has on it is made when the file is read, in
//! marked text, and the page is written behind the last.

ghost use Rattle.std.specs.Prelude.{◌≡◌, ◌≢◌, ◌<◌, ◌≤◌, ◌++◌, Ok, IfOk, OnErr, OnOk, length, map, take};
ghost use Rattle.ssh_files.specs.SourceState.{IfTells};
ghost use Rattle.ssh_files.specs.declared.read.ReadError.TheVariants as read;
ghost use Rattle.ssh_files.specs.FilesInTurn.{TellsFile};
ghost use Rattle.ssh_findings.specs.Asking.{asking_of};
ghost use Rattle.ssh_page.specs.Documents.{marks};
ghost use Rattle.ssh_page.specs.Expanding.{page};
ghost use Rattle.ssh_review.specs.PageFiles.{unread_row, unread_section};
ghost use Rattle.ssh_review.specs.DistinctKeys.{file_keys, with_keys};
ghost use Rattle.ssh_text.specs.Text.{file_limit};
ghost use Rattle.ssh_program.specs.Account.{NoneFailed};
ghost use Rattle.ssh_program.specs.Namings.{names_seen};
ghost use Rattle.ssh_review.specs.FileNames.{name_seen, shown_name};
ghost use Rattle.ssh_program.specs.PageReviews.{FileGiven, IsReported, PageReported, ReviewsPage, fault_noted, fault_read, given_kept, given_noted, made_response, page_rest, parts_response, parts_seen, row_by, section_by, telling_given};
ghost use Rattle.ssh_program.specs.FileReviews.{file_kind};
ghost use Rattle.ssh_program.specs.Printing.{Breaks, TakesAll, WritesAnswer, WritesResponse};

use crate::naming::{ListedNames, shown_names};
use crate::page_front::front_of;
use crate::printing::{put_bytes, put_no_memory};
use crate::review::{FileNoted, NOTHING, ReviewKind, file_kind, total_status, with_counted};
use crate::sink::Sink;
use crate::streaming::FileReported;
use ssh_files::{Files, ReadError, UnreadCause, read_whole};
use ssh_findings::{Code, ReviewOptions};
use ssh_page::{
    FileKind, HtmlRoom, PageLines, expand_front, first_html, push_lines_end, push_page_end,
    push_register_end, push_register_head,
};
use ssh_print::FAULT;
use ssh_review::{
    Counts, DistinctKeys, FileFault, FileName, Total, push_page_fault, push_page_file, shown_name,
    total_words,
};
use ssh_text::Bytes;
use std::alloc::{AllocError, Global};
use std::io;

/// What the files that were read have on the page, in marked text, and their total.
#[derive(Drop)]
pub struct PageParts {
    pub sections: Vec<u8>,
    pub register: Vec<u8>,
    pub total: Total,
    /// Memory that nothing needs any more, whatever is in it.
    pub spare: Vec<u8>,
}

/// A page in marked text, up to its first section and from there on, the status, and room for the HTML
/// of as much as is written at once.
#[derive(Drop)]
pub struct MadePage {
    pub front: Vec<u8>,
    pub body: Vec<u8>,
    pub status: u8,
    pub room: HtmlRoom,
}

/// Appends what a file of this name and these bytes has on the page. Returns what is counted.
fn push_reviewed(
    alloc: Global,
    kind: FileKind,
    number: u64,
    asked: &ReviewOptions<'_>,
    name: &[u8],
    file: &[u8],
    keys: &mut DistinctKeys,
    rows: &mut Vec<u8>,
    sections: &mut Vec<u8>,
    register: &mut Vec<u8>,
) -> Result<FileReported, AllocError>
    requires { length file.now ≤ file_limit }
    ensures noted { OnOk result (keys.new ≡ with_keys keys.old (file_keys kind file.now)) }
    ensures section { OnOk result (sections.new.items ≡ sections.old.items
        ++ marks (section_by kind number (asking_of asked.entry.now) name.now (Ok file.now))) }
    ensures row { OnOk result (register.new.items ≡ register.old.items
        ++ marks (row_by kind number (asking_of asked.entry.now) name.now (Ok file.now))) }
    ensures kept { IfOk result
        (λ reported. reported ≡ given_kept kind (asking_of asked.entry.now) (Ok file.now)) }
{
    let counts = push_page_file(
        alloc, kind, number, asked, name, file, keys, rows, sections, register,
    )?;
    Ok(FileReported {
        counts,
        stands: false,
        fault: None,
    })
}

/// Appends the same, and notes the keys on the key lines of the file.
fn push_noted(
    alloc: Global,
    kind: FileKind,
    number: u64,
    asked: &ReviewOptions<'_>,
    name: &[u8],
    file: &[u8],
    earlier: DistinctKeys,
    rows: &mut Vec<u8>,
    sections: &mut Vec<u8>,
    register: &mut Vec<u8>,
) -> Result<FileNoted, AllocError>
    requires { length file.now ≤ file_limit }
    ensures section { OnOk result (sections.new.items ≡ sections.old.items
        ++ marks (section_by kind number (asking_of asked.entry.now) name.now (Ok file.now))) }
    ensures row { OnOk result (register.new.items ≡ register.old.items
        ++ marks (row_by kind number (asking_of asked.entry.now) name.now (Ok file.now))) }
    ensures kept { IfOk result (λ noted. noted
        ≡ given_noted kind earlier (asking_of asked.entry.now) (Ok file.now)) }
{
    let mut keys = earlier;
    let reported = push_reviewed(
        alloc, kind, number, asked, name, file, &mut keys, rows, sections, register,
    )?;
    Ok(FileNoted { reported, keys })
}

/// Appends what a file with a fault has on the page. Returns what is counted, and the keys of the
/// files before it.
fn push_fault(
    number: u64,
    name: &[u8],
    fault: FileFault,
    keys: DistinctKeys,
    sections: &mut Vec<u8>,
    register: &mut Vec<u8>,
) -> Result<FileNoted, AllocError>
    ensures section { OnOk result
        (sections.new.items ≡ sections.old.items ++ marks (unread_section number name.now fault)) }
    ensures row { OnOk result
        (register.new.items ≡ register.old.items ++ marks (unread_row number name.now fault)) }
    ensures kept { IfOk result (λ noted. noted ≡ fault_noted keys fault) }
{
    push_page_fault(number, name, fault, sections, register)?;
    let reported = FileReported {
        counts: Counts::NONE,
        stands: false,
        fault: Some(fault),
    };
    Ok(FileNoted { reported, keys })
}

/// Appends what a file has on the page whose bytes could not be had. Returns what is counted.
fn push_unread(
    number: u64,
    name: &[u8],
    fault: ReadError,
    cause: UnreadCause,
    keys: DistinctKeys,
    sections: &mut Vec<u8>,
    register: &mut Vec<u8>,
) -> Result<FileNoted, AllocError>
    ensures memory { OnOk result (fault ≢ read.Memory) }
    ensures section { OnOk result (sections.new.items
        ≡ sections.old.items ++ marks (unread_section number name.now (fault_read fault cause))) }
    ensures row { OnOk result (register.new.items
        ≡ register.old.items ++ marks (unread_row number name.now (fault_read fault cause))) }
    ensures kept { IfOk result (λ noted. noted ≡ fault_noted keys (fault_read fault cause)) }
{
    match fault {
        ReadError::Memory => Err(AllocError),
        ReadError::TooLong => push_fault(
            number,
            name,
            FileFault::TooLong,
            keys,
            sections,
            register,
        ),
        _ => push_fault(
            number,
            name,
            FileFault::Unread(cause),
            keys,
            sections,
            register,
        ),
    }
}

/// Appends what the file of this name has on the page, which shows this of its name.
fn tell_shown<F: Files>(
    alloc: Global,
    kind: FileKind,
    number: u64,
    asked: &ReviewOptions<'_>,
    name: FileName<'_>,
    shown: &[u8],
    keys: DistinctKeys,
    files: &mut F,
    rows: &mut Vec<u8>,
    sections: &mut Vec<u8>,
    register: &mut Vec<u8>,
) -> Result<FileNoted, AllocError>
    requires { shown.now ≡ shown_name (name_seen name) }
    ensures { IfOk result (λ noted. (given : FileGiven)
        × IfTells (F.source_state files.old) (λ s. TellsFile telling_given (name_seen name.entry) s (F.source_state files.new) given)
        × IsReported kind number keys (asking_of asked.entry.now) given sections.old.items sections.new.items
        register.old.items register.new.items noted) }
{
    match read_whole(alloc, files, name.path) {
        Ok(file) => push_noted(
            alloc, kind, number, asked, shown, &file, keys, rows, sections, register,
        ),
        Err(fault) => {
            let cause = files.unread_cause(name.path);
            push_unread(number, shown, fault, cause, keys, sections, register)
        }
    }
}

/// Appends what the file of this name has on the page, where it has this number, counted from 0.
/// Returns what is counted.
fn tell_file<F: Files>(
    alloc: Global,
    kind: FileKind,
    number: u64,
    asked: &ReviewOptions<'_>,
    name: FileName<'_>,
    keys: DistinctKeys,
    files: &mut F,
    rows: &mut Vec<u8>,
    sections: &mut Vec<u8>,
    register: &mut Vec<u8>,
) -> Result<FileNoted, AllocError>
    ensures { IfOk result (λ noted. (given : FileGiven)
        × IfTells (F.source_state files.old) (λ s. TellsFile telling_given (name_seen name.entry) s (F.source_state files.new) given)
        × IsReported kind number keys (asking_of asked.entry.now) given sections.old.items sections.new.items
        register.old.items register.new.items noted) }
{
    let shown = shown_name(alloc, name)?;
    tell_shown(
        alloc, kind, number, asked, name, &shown, keys, files, rows, sections, register,
    )
}

/// What the files of these names have on the page, one after the other. In memory are the marked text,
/// one file, and up to 65,536 fingerprints.
fn tell_files<F: Files>(
    alloc: Global,
    kind: ReviewKind,
    asked: &ReviewOptions<'_>,
    names: ListedNames<'_>,
    files: &mut F,
) -> Result<PageParts, AllocError>
    ensures { IfTells (F.source_state files.old) (λ s. IfOk result (λ parts.
        PageReported kind (asking_of asked.entry.now) (names_seen names.entry) s
        (F.source_state files.new) (parts_seen parts))) }
{
    let mut rows = Vec::new(alloc);
    let mut sections = Vec::new(alloc);
    let mut register = Vec::new(alloc);
    let mut total = NOTHING;
    let mut keys = DistinctKeys::new(alloc);
    for word in names.words {
        let name = names.naming.name_of(word);
        let noted = tell_file(
            alloc,
            file_kind(kind),
            total.files,
            asked,
            name,
            keys,
            files,
            &mut rows,
            &mut sections,
            &mut register,
        )?;
        let reported = noted.reported;
        keys = noted.keys;
        total = with_counted(total, keys.count(), reported.counts, reported.fault);
    }
    Ok(PageParts {
        sections,
        register,
        total,
        spare: rows,
    })
}

/// Appends the marked text behind the last section: the register with these rows and the total in
/// these words, and the end of the page.
fn push_rest(out: &mut Vec<u8>, register: &[u8], words: &[u8]) -> Result<(), AllocError>
    ensures { OnOk result
        (out.new.items ≡ out.old.items ++ page_rest register.now words.now) }
{
    push_lines_end(out)?;
    push_register_head(out)?;
    out.extend_from_slice(register)?;
    push_register_end(out, words)?;
    push_page_end(out)?;
    Ok(())
}

/// The page of these parts, of files that it has by these names.
fn made_of(
    alloc: Global,
    title: &str,
    kind: ReviewKind,
    failing: &[Code],
    rule: &[u8],
    asked: &ReviewOptions<'_>,
    names: &[Bytes],
    parts: PageParts,
) -> Result<MadePage, AllocError>
    ensures { IfOk result (λ made. made_response made ≡ parts_response failing.now title.now kind rule.now
        (asking_of asked.entry.now) names.now (parts_seen parts)) }
{
    let PageParts {
        sections,
        register,
        total,
        spare,
    } = parts;
    let lines = PageLines {
        names,
        sections: &sections,
    };
    let front = front_of(
        alloc,
        title,
        file_kind(kind),
        rule,
        asked,
        &lines,
        &total,
        spare,
    )?;
    let words = total_words(alloc, rule, asked, &total)?;
    let status = total_status(failing, &total);
    let mut body = sections;
    push_rest(&mut body, &register, &words)?;
    let room = HtmlRoom::new(alloc)?;
    Ok(MadePage {
        front,
        body,
        status,
        room,
    })
}

/// The page of the review of the files of these names.
fn make_page<F: Files>(
    alloc: Global,
    title: &str,
    kind: ReviewKind,
    failing: &[Code],
    rule: &[u8],
    asked: &ReviewOptions<'_>,
    names: ListedNames<'_>,
    files: &mut F,
) -> Result<MadePage, AllocError>
    ensures { IfTells (F.source_state files.old) (λ s. IfOk result (λ made.
        ReviewsPage title.now kind failing.now rule.now (asking_of asked.entry.now) (names_seen names.entry) s
        (F.source_state files.new) (made_response made))) }
{
    let parts = tell_files(alloc, kind, asked, names, files)?;
    let shown = shown_names(alloc, names)?;
    let made = made_of(alloc, title, kind, failing, rule, asked, &shown, parts)?;
    Ok(made)
}

/// Writes the HTML of some marks at the front, of which there is at least one, and returns how many
/// these are. Does not allocate.
fn put_front<W: Sink>(writer: &mut W, room: &mut HtmlRoom, marks: &[u8]) -> io::Result<usize>
    requires none { NoneFailed (W.account writer.old) }
    requires some { 0 < length marks.now }
    ensures ok { IfOk result (λ count. TakesAll (W.account writer.old) (W.account writer.new)
        (page (take count marks.now))) }
    ensures some { IfOk result (λ count. 0 < count) }
    ensures within { IfOk result (λ count. count ≤ length marks.now) }
    ensures err { OnErr result
        (Breaks (W.account writer.old) (W.account writer.new) (page marks.now)) }
{
    room.clear();
    let count = expand_front(room, marks);
    if count == 0 {
        put_bytes(writer, first_html(marks))?;
        Ok(1)
    } else {
        put_bytes(writer, room.as_slice())?;
        Ok(count)
    }
}

/// Writes the HTML of a marked text. After an `Err`, by which a write failed, a front of it was taken
/// that is not the whole.
fn put_html<W: Sink>(writer: &mut W, room: &mut HtmlRoom, marks: &[u8]) -> io::Result<()>
    requires { NoneFailed (W.account writer.old) }
    ensures ok { OnOk result (TakesAll (W.account writer.old) (W.account writer.new) (page marks.now)) }
    ensures err { OnErr result (Breaks (W.account writer.old) (W.account writer.new) (page marks.now)) }
{
    let mut rest = marks;
    while !rest.is_empty() {
        let count = put_front(writer, room, rest)?;
        let (_, behind) = rest.split_at(count);
        rest = behind;
    }
    Ok(())
}

/// Writes the HTML of two marked texts, one behind the other.
fn put_both<W: Sink>(
    writer: &mut W,
    room: &mut HtmlRoom,
    front: &[u8],
    body: &[u8],
) -> io::Result<()>
    requires { NoneFailed (W.account writer.old) }
    ensures ok { OnOk result (TakesAll (W.account writer.old) (W.account writer.new)
        (page front.now ++ page body.now)) }
    ensures err { OnErr result (Breaks (W.account writer.old) (W.account writer.new)
        (page front.now ++ page body.now)) }
{
    put_html(writer, room, front)?;
    put_html(writer, room, body)?;
    Ok(())
}

/// Writes a page, and returns its status, or 2 if a write failed before all was written.
fn put_page<W: Sink>(writer: &mut W, made: MadePage) -> u8
    requires { NoneFailed (W.account writer.old) }
    ensures { WritesResponse (W.account writer.old) (W.account writer.new) (made_response made)
        result }
{
    let MadePage {
        front,
        body,
        status,
        mut room,
    } = made;
    match put_both(writer, &mut room, &front, &body) {
        Ok(()) => status,
        Err(_) => FAULT,
    }
}

/// Writes the page of the review of the files of these names, and returns the status. A file that
/// cannot be reviewed has its fault on the page, and the next is reviewed all the same. Nothing is
/// written before the last file was read: where memory is refused, only that is line_reports.
pub fn review_page<F: Files, W: Sink>(
    alloc: Global,
    title: &str,
    kind: ReviewKind,
    failing: &[Code],
    rule: &[u8],
    asked: &ReviewOptions<'_>,
    names: ListedNames<'_>,
    files: &mut F,
    writer: &mut W,
) -> u8
    requires { NoneFailed (W.account writer.old) }
    ensures { IfTells (F.source_state files.old) (λ s. WritesAnswer
        (ReviewsPage title.now kind failing.now rule.now (asking_of asked.entry.now)
        (names_seen names.entry) s (F.source_state files.new))
        (W.account writer.old) (W.account writer.new) result) }
{
    match make_page(alloc, title, kind, failing, rule, asked, names, files) {
        Ok(made) => put_page(writer, made),
        Err(AllocError) => put_no_memory(writer),
    }
}
