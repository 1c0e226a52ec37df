//! The answer to `review` with `--key`: where one key stands in trust files.

ghost use Rattle.std.specs.Prelude.{◌≡◌, ◌||◌, ◌≤◌, length, map, option_map};
ghost use Rattle.ssh_findings.specs.Asking.{asking_of};
ghost use Rattle.ssh_files.specs.SourceState.{IfTells};
ghost use Rattle.ssh_print.specs.Offering.{offer_seen, shown_offer_in};
ghost use Rattle.ssh_text.specs.Text.{file_limit};
ghost use Rattle.ssh_program.specs.Account.{NoneFailed};
ghost use Rattle.ssh_program.specs.ArgsView.{Spells};
ghost use Rattle.ssh_program.specs.FileReviews.{FailedIfStopped, TextPut, TextWritten, TextsWritten};
ghost use Rattle.ssh_program.specs.FingerprintValues.{is_fingerprint};
ghost use Rattle.ssh_program.specs.KeySeeking.{ReviewsFor, SeeksBy, SeeksKey, SeeksKeyOfFile, key_review_kept, key_review_of, key_status, key_total, key_lines_before, one_key, or_key_fault, spelled_fingerprint, telling_key_review, with_key_file};
ghost use Rattle.ssh_program.specs.Namings.{names_seen};
ghost use Rattle.ssh_review.specs.FileNames.{file_head, name_seen};
ghost use Rattle.ssh_program.specs.OfferPrints.{offer_print};
ghost use Rattle.ssh_program.specs.Printing.{WritesAnswer};
ghost use Rattle.ssh_program.specs.Spelling.{RespondsTo};

use crate::args::ArgName;
use crate::audit::unread;
use crate::command::{CommandError, respond_fault};
use crate::fingerprint_value::{is_fingerprint, read_fingerprint};
use crate::naming::ListedNames;
use crate::offer_fingerprint::offer_print;
use crate::printing::{put_made, put_no_memory};
use crate::review::{FOUND, NOTHING, ReviewKind, review_files, with_counted};
use crate::sink::Sink;
use crate::streaming::{FileReported, Stop, put_first_lines, put_review, put_total, put_unread};
use ssh_entries::KeyBuffer;
use ssh_files::{Files, read_top_line, read_whole};
use ssh_findings::{Code, ReviewOptions};
use ssh_keys::digest_text;
use ssh_print::{DONE, FAULT, OfferedKey, read_offer, show_fault};
use ssh_review::{
    DistinctKeys, FileName, Form, Show, Total, auth_key_records, file_head, known_key_records,
};
use std::alloc::{AllocError, Global};

/// The status: 2 if a file could not be reviewed, else 1 if the key stands in one of them.
fn key_status(total: &Total, stands: bool) -> u8
    ensures { result ≡ key_status total.now stands }
{
    if total.faults > 0 {
        FAULT
    } else if stands {
        FOUND
    } else {
        DONE
    }
}

/// The total of some files, and whether the key stands in one of them.
#[derive(Clone, Copy, Debug, PartialEq, Eq)]
pub struct KeyTotal {
    pub total: Total,
    pub stands: bool,
}

/// How many different keys stand on key lines, of which all have the key that is wanted: one, if
/// there is such a line.
fn one_key(lines: u64, more: u64) -> Option<u64>
    ensures { result ≡ one_key lines more }
{
    if lines > 0 || more > 0 {
        Some(1)
    } else {
        Some(0)
    }
}

/// Whether the key stands in one of two parts.
fn either(one: bool, other: bool) -> bool
    ensures { result ≡ (one || other) }
{
    one || other
}

/// Writes the review for the key with this fingerprint, of a file of these bytes, each record of
/// which begins with this head.
/// Notes no key, since `one_key` counts the one that is wanted.
fn put_bytes_review<W: Sink>(
    alloc: Global,
    kind: ReviewKind,
    form: Form,
    asked: &ReviewOptions<'_>,
    wanted: &[u8; 43],
    head: &[u8],
    file: &[u8],
    buffer: &mut KeyBuffer,
    keys: &mut DistinctKeys,
    writer: &mut W,
) -> Result<FileReported, Stop>
    requires none { NoneFailed (W.account writer.old) }
    requires limit { length file.now ≤ file_limit }
    ensures failed { FailedIfStopped result (W.account writer.new) }
    ensures put { TextPut (key_review_of wanted.now kind form (asking_of asked.entry.now) head.now file.now).file.text
        (key_review_kept (key_review_of wanted.now kind form (asking_of asked.entry.now) head.now file.now))
        (W.account writer.old) (W.account writer.new) result }
{
    match kind {
        ReviewKind::Auth => {
            let records = auth_key_records(alloc, file, wanted);
            put_review(
                alloc,
                Show::All,
                form,
                asked,
                head,
                file,
                records,
                buffer,
                keys,
                writer,
            )
        }
        ReviewKind::Known => {
            let records = known_key_records(alloc, file, wanted);
            put_review(
                alloc,
                Show::All,
                form,
                asked,
                head,
                file,
                records,
                buffer,
                keys,
                writer,
            )
        }
    }
}

/// Writes the review of the file of this name, each record of which begins with this head.
fn put_headed<F: Files, W: Sink>(
    alloc: Global,
    kind: ReviewKind,
    form: Form,
    asked: &ReviewOptions<'_>,
    wanted: &[u8; 43],
    name: FileName<'_>,
    head: &[u8],
    buffer: &mut KeyBuffer,
    files: &mut F,
    writer: &mut W,
) -> Result<FileReported, Stop>
    requires none { NoneFailed (W.account writer.old) }
    requires head { head.now ≡ file_head form (name_seen name) }
    ensures failed { FailedIfStopped result (W.account writer.new) }
    ensures reported { TextWritten (telling_key_review wanted.now kind form (asking_of asked.entry.now))
        (λ r. r.file.text) key_review_kept (name_seen name.entry) (F.source_state files.old)
        (F.source_state files.new) (W.account writer.old) (W.account writer.new) result }
{
    match read_whole(alloc, files, name.path) {
        Ok(file) => {
            let mut keys = DistinctKeys::new(alloc);
            put_bytes_review(
                alloc, kind, form, asked, wanted, head, &file, buffer, &mut keys, writer,
            )
        }
        Err(fault) => {
            let cause = files.unread_cause(name.path);
            put_unread(alloc, form, head, fault, cause, writer)
        }
    }
}

/// Writes the review of the file of this name.
fn put_file<F: Files, W: Sink>(
    alloc: Global,
    kind: ReviewKind,
    form: Form,
    asked: &ReviewOptions<'_>,
    wanted: &[u8; 43],
    name: FileName<'_>,
    buffer: &mut KeyBuffer,
    files: &mut F,
    writer: &mut W,
) -> Result<FileReported, Stop>
    requires { NoneFailed (W.account writer.old) }
    ensures failed { FailedIfStopped result (W.account writer.new) }
    ensures reported { TextWritten (telling_key_review wanted.now kind form (asking_of asked.entry.now))
        (λ r. r.file.text) key_review_kept (name_seen name.entry) (F.source_state files.old)
        (F.source_state files.new) (W.account writer.old) (W.account writer.new) result }
{
    let head = file_head(alloc, form, name)?;
    put_headed(
        alloc, kind, form, asked, wanted, name, &head, buffer, files, writer,
    )
}

/// Writes the reviews of the files of these names, one after the other, and returns their total.
fn tell_files<F: Files, W: Sink>(
    alloc: Global,
    kind: ReviewKind,
    form: Form,
    asked: &ReviewOptions<'_>,
    wanted: &[u8; 43],
    names: ListedNames<'_>,
    files: &mut F,
    writer: &mut W,
) -> Result<KeyTotal, Stop>
    requires { NoneFailed (W.account writer.old) }
    ensures failed { FailedIfStopped result (W.account writer.new) }
    ensures reported { IfTells (F.source_state files.old) (λ s. TextsWritten with_key_file
        (telling_key_review wanted.now kind form (asking_of asked.entry.now)) (key_lines_before form)
        (λ reported. reported.lines.text) (λ r. r.file.text) key_total (names_seen names.entry) s
        (F.source_state files.new) (W.account writer.old) (W.account writer.new) result) }
{
    put_first_lines(form, writer)?;
    let mut total = NOTHING;
    let mut stands = false;
    let mut buffer = KeyBuffer::new(alloc)?;
    for word in names.words {
        let name = names.naming.name_of(word);
        let reported = put_file(
            alloc,
            kind,
            form,
            asked,
            wanted,
            name,
            &mut buffer,
            files,
            writer,
        )?;
        let keys = one_key(total.counts.keys, reported.counts.keys);
        total = with_counted(total, keys, reported.counts, reported.fault);
        stands = either(stands, reported.stands);
    }
    Ok(KeyTotal { total, stands })
}

/// Writes the reviews of the files of these names for the key with this fingerprint, and then their
/// total. Returns the status. A file that cannot be reviewed has its fault, and the next is reviewed
/// all the same; after a failed write no file is read.
fn seek_key<F: Files, W: Sink>(
    alloc: Global,
    kind: ReviewKind,
    form: Form,
    rule: &[u8],
    asked: &ReviewOptions<'_>,
    names: ListedNames<'_>,
    wanted: &[u8; 43],
    files: &mut F,
    writer: &mut W,
) -> u8
    requires { NoneFailed (W.account writer.old) }
    ensures { IfTells (F.source_state files.old) (λ s. WritesAnswer
        (SeeksKey kind form rule.now (asking_of asked.entry.now) (names_seen names.entry)
        wanted.now s (F.source_state files.new))
        (W.account writer.old) (W.account writer.new) result) }
{
    match tell_files(alloc, kind, form, asked, wanted, names, files, writer) {
        Ok(reported) => {
            let status = key_status(&reported.total, reported.stands);
            put_total(
                alloc,
                kind,
                form,
                rule,
                asked,
                &reported.total,
                status,
                writer,
            )
        }
        Err(Stop::Memory) => put_no_memory(writer),
        Err(Stop::Write) => FAULT,
    }
}

/// The text of the fingerprint that a value gives which begins as one.
fn spelled_fingerprint(alloc: Global, text: &str) -> Result<[u8; 43], CommandError>
    ensures { Spells (λ fingerprint. fingerprint) (spelled_fingerprint text.now) result }
{
    let digest = ArgName::Key.or_fault(read_fingerprint(text))?;
    let fingerprint = digest_text(alloc, &digest)?;
    Ok(fingerprint)
}

/// The same of the key in an offer.
fn seek_offer<F: Files, W: Sink>(
    alloc: Global,
    kind: ReviewKind,
    form: Form,
    rule: &[u8],
    asked: &ReviewOptions<'_>,
    names: ListedNames<'_>,
    offer: &OfferedKey,
    files: &mut F,
    writer: &mut W,
) -> u8
    requires { NoneFailed (W.account writer.old) }
    ensures { IfTells (F.source_state files.old) (λ s. WritesAnswer
        (SeeksKey kind form rule.now (asking_of asked.entry.now) (names_seen names.entry)
        (offer_print (offer_seen offer.now)) s (F.source_state files.new))
        (W.account writer.old) (W.account writer.new) result) }
{
    match offer_print(alloc, offer) {
        Ok(wanted) => seek_key(
            alloc, kind, form, rule, asked, names, &wanted, files, writer,
        ),
        Err(AllocError) => put_no_memory(writer),
    }
}

/// The same by the first line of the key's file.
fn seek_by_line<F: Files, W: Sink>(
    alloc: Global,
    kind: ReviewKind,
    form: Form,
    rule: &[u8],
    asked: &ReviewOptions<'_>,
    names: ListedNames<'_>,
    line: &[u8],
    files: &mut F,
    writer: &mut W,
) -> u8
    requires { NoneFailed (W.account writer.old) }
    ensures { IfTells (F.source_state files.old) (λ s. WritesAnswer
        (RespondsTo (SeeksKey kind form rule.now (asking_of asked.entry.now) (names_seen names.entry))
        (or_key_fault (shown_offer_in line.now)) s (F.source_state files.new))
        (W.account writer.old) (W.account writer.new) result) }
{
    match read_offer(alloc, line) {
        Ok(offer) => seek_offer(alloc, kind, form, rule, asked, names, &offer, files, writer),
        Err(error) => put_made(writer, show_fault(alloc, error)),
    }
}

/// The same of the key in the file of this name. The key's file is read before the trust files. It
/// is read to its end, and only its first line is stored.
fn seek_key_of_file<F: Files, W: Sink>(
    alloc: Global,
    kind: ReviewKind,
    form: Form,
    rule: &[u8],
    asked: &ReviewOptions<'_>,
    names: ListedNames<'_>,
    key: &str,
    files: &mut F,
    writer: &mut W,
) -> u8
    requires { NoneFailed (W.account writer.old) }
    ensures { IfTells (F.source_state files.old) (λ s. WritesAnswer
        (SeeksKeyOfFile kind form rule.now (asking_of asked.entry.now) (names_seen names.entry) key.now s
        (F.source_state files.new)) (W.account writer.old) (W.account writer.new) result) }
{
    match read_top_line(alloc, files, key) {
        Ok(line) => seek_by_line(alloc, kind, form, rule, asked, names, &line, files, writer),
        Err(fault) => put_made(writer, unread(alloc, key, fault)),
    }
}

/// The same of the key whose fingerprint this value gives.
fn seek_fingerprint<F: Files, W: Sink>(
    alloc: Global,
    kind: ReviewKind,
    form: Form,
    rule: &[u8],
    asked: &ReviewOptions<'_>,
    names: ListedNames<'_>,
    text: &str,
    files: &mut F,
    writer: &mut W,
) -> u8
    requires { NoneFailed (W.account writer.old) }
    ensures { IfTells (F.source_state files.old) (λ s. WritesAnswer
        (RespondsTo (SeeksKey kind form rule.now (asking_of asked.entry.now) (names_seen names.entry))
        (spelled_fingerprint text.now) s (F.source_state files.new))
        (W.account writer.old) (W.account writer.new) result) }
{
    match spelled_fingerprint(alloc, text) {
        Ok(wanted) => seek_key(
            alloc, kind, form, rule, asked, names, &wanted, files, writer,
        ),
        Err(fault) => put_made(writer, respond_fault(alloc, fault)),
    }
}

/// The same of the key of this value: a fingerprint, or the name of a file.
fn seek<F: Files, W: Sink>(
    alloc: Global,
    kind: ReviewKind,
    form: Form,
    rule: &[u8],
    asked: &ReviewOptions<'_>,
    names: ListedNames<'_>,
    key: &str,
    files: &mut F,
    writer: &mut W,
) -> u8
    requires { NoneFailed (W.account writer.old) }
    ensures { IfTells (F.source_state files.old) (λ s. WritesAnswer
        (SeeksBy (is_fingerprint key.now) kind form rule.now (asking_of asked.entry.now)
        (names_seen names.entry) key.now s (F.source_state files.new))
        (W.account writer.old) (W.account writer.new) result) }
{
    if is_fingerprint(key) {
        seek_fingerprint(alloc, kind, form, rule, asked, names, key, files, writer)
    } else {
        seek_key_of_file(alloc, kind, form, rule, asked, names, key, files, writer)
    }
}

/// Writes what is shown of the reviews of the files of these names, or, where `--key` has a value,
/// their reviews for that key, and then their total. Returns the status.
pub fn review_for<F: Files, W: Sink>(
    alloc: Global,
    kind: ReviewKind,
    show: Show,
    failing: &[Code],
    form: Form,
    rule: &[u8],
    asked: &ReviewOptions<'_>,
    names: ListedNames<'_>,
    key: Option<&str>,
    files: &mut F,
    writer: &mut W,
) -> u8
    requires { NoneFailed (W.account writer.old) }
    ensures { IfTells (F.source_state files.old) (λ s. WritesAnswer
        (ReviewsFor (option_map (λ k. k.now) key.entry) kind show failing.now form rule.now (asking_of asked.entry.now)
        (names_seen names.entry) s (F.source_state files.new))
        (W.account writer.old) (W.account writer.new) result) }
{
    match key {
        None => review_files(
            alloc, kind, show, failing, form, rule, asked, names, files, writer,
        ),
        Some(key) => seek(alloc, kind, form, rule, asked, names, key, files, writer),
    }
}
