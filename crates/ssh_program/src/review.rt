//! The answer to `review`: trust files one after the other, then their total.

ghost use Rattle.std.specs.Prelude.{◌≡◌, ◌^◌, ◌≤◌, Some, option_map, OnErr, OnOk, length, map};
ghost use Rattle.ssh_findings.specs.Codes.{codes_in, default_codes};
ghost use Rattle.ssh_files.specs.Values.{number_below};
ghost use Rattle.ssh_review.specs.declared.end.Form.TheVariants.{Text};
ghost use Rattle.ssh_program.specs.ReviewForms.{form_of, form_seen};
ghost use Rattle.ssh_program.specs.Spelled.{review_kind_of, usual_minimum, RespondsToReview, ReviewsAs, ReviewsInZone};
ghost use Rattle.ssh_program.specs.Spelling.{value, value_or};
ghost use Rattle.ssh_program.specs.ArgsView.{Spells, rows_in};
ghost use Rattle.ssh_text.specs.Text.{file_limit};
ghost use Rattle.ssh_program.specs.Totals.{fault_count, nothing, total_status, with_counted};
ghost use Rattle.ssh_findings.specs.Asking.{asking_of};
ghost use Rattle.ssh_files.specs.SourceState.{IfTells};
ghost use Rattle.ssh_program.specs.Account.{NoneFailed};
ghost use Rattle.ssh_review.specs.DistinctKeys.{file_keys, with_keys};
ghost use Rattle.ssh_program.specs.FileReviews.{FailedIfStopped, ReviewsFiles, TextPut, TextWritten, TextsWritten, file_kept, file_kind, kind_name, lines_before, review_kept, review_of, telling_review, report_of, with_file, with_noted};
ghost use Rattle.ssh_program.specs.Namings.{names_seen};
ghost use Rattle.ssh_review.specs.FileNames.{file_head, name_seen};
ghost use Rattle.ssh_program.specs.Printing.{WritesAnswer};
ghost use Rattle.ssh_program.specs.Writing.{IfWritten};
ghost use Rattle.jiff.specs.Words.{plain_zone};
ghost use Rattle.ssh_program.specs.declared.args.ArgName.TheVariants as option;

use crate::args::{ArgName, Args};
use crate::command::{CommandError, respond_fault};
use crate::key_seeking::review_for;
use crate::naming::{ListedNames, names_asked};
use crate::printing::{put_made, put_no_memory};
use crate::review_fail::{failing_codes, fails_by};
use crate::review_form::{ReviewForm, review_form};
use crate::review_page::review_page;
use crate::review_zone::{given_rule, is_zone_given, zone_text};
use crate::sink::Sink;
use crate::streaming::{FileReported, Stop, put_first_lines, put_review, put_total, put_unread};
use jiff::tz::TimeZone;
use ssh_entries::KeyBuffer;
use ssh_files::{Files, read_bits, read_whole, zone_of};
use ssh_findings::{Code, ReviewOptions, parse_codes};
use ssh_page::FileKind;
use ssh_print::{DONE, FAULT};
use ssh_review::{
    Counts, DistinctKeys, FaultCounts, FileFault, FileName, Form, Show, Total, auth_records,
    file_head, known_records,
};
use std::alloc::Global;

/// The format of the files under review.
#[derive(Clone, Copy, Debug, PartialEq, Eq)]
pub enum ReviewKind {
    /// `authorized_keys` files, sshd(8).
    Auth,
    /// `known_hosts` files, sshd(8).
    Known,
}

/// The format by its name in `--kind`.
fn read_kind(word: &str) -> Option<ReviewKind>
    ensures { result ≡ review_kind_of word.now }
{
    if word == "auth" {
        Some(ReviewKind::Auth)
    } else if word == "known" {
        Some(ReviewKind::Known)
    } else {
        None
    }
}

/// The name of a format in `--kind`.
pub fn kind_name(kind: ReviewKind) -> &'static [u8]
    ensures { result.now ≡ kind_name kind }
{
    match kind {
        ReviewKind::Auth => b"auth",
        ReviewKind::Known => b"known",
    }
}

/// The format of the files, as the page and the table have it.
pub(crate) fn file_kind(kind: ReviewKind) -> FileKind
    ensures { result ≡ file_kind kind }
{
    match kind {
        ReviewKind::Auth => FileKind::AuthorizedKeys,
        ReviewKind::Known => FileKind::KnownHosts,
    }
}

/// The format of the files under review.
pub fn review_kind(words: &Args<'_>) -> Result<ReviewKind, CommandError>
    ensures { Spells (λ k. k) (value review_kind_of option.Kind (rows_in words.now)) result }
{
    let word = words.needed(ArgName::Kind)?;
    ArgName::Kind.or_fault(read_kind(word))
}

/// The least number of bits of an RSA key, where `--rsa-minimum` is not given (NIST SP 800-131A).
const USUAL_MINIMUM: u32 = 2048;

/// The least number of bits of an RSA key: 2048 where the option is not given.
pub fn rsa_minimum(words: &Args<'_>) -> Result<u32, CommandError>
    ensures { Spells (λ n. n) (value_or usual_minimum (number_below (2 ^ 32)) option.RsaMinimum
        (rows_in words.now)) result }
{
    let read = match words.given(ArgName::RsaMinimum) {
        None => Some(USUAL_MINIMUM),
        Some(text) => read_bits(text),
    };
    ArgName::RsaMinimum.or_fault(read)
}

/// The codes of the findings that are reported; where the option is not given, those for faults
/// that are wrong under any policy (F1 to F14 and F22).
pub fn reported_codes(alloc: Global, words: &Args<'_>) -> Result<Vec<Code>, CommandError>
    ensures { Spells (λ v. v.items) (value_or default_codes codes_in option.Findings
        (rows_in words.now)) result }
{
    let read = match words.given(ArgName::Findings) {
        None => Some(Vec::from_slice(alloc, Code::by_default())?),
        Some(text) => parse_codes(alloc, text.as_bytes())?,
    };
    ArgName::Findings.or_fault(read)
}

/// The status where something was found.
pub const FOUND: u8 = 1;

/// The total before the first file.
pub const NOTHING: Total = Total {
    files: 0,
    faults: 0,
    faults_by_code: FaultCounts::NONE,
    counts: Counts::NONE,
    distinct_keys: Some(0),
};

fn fault_count(fault: Option<FileFault>) -> u64
    ensures { result ≡ fault_count fault }
{
    match fault {
        Some(_) => 1,
        None => 0,
    }
}

/// The total with one more file, of these counts or with this fault, where all files have so many
/// different keys.
pub fn with_counted(
    total: Total,
    keys: Option<u64>,
    counts: Counts,
    fault: Option<FileFault>,
) -> Total
    ensures { result ≡ with_counted total keys counts fault }
{
    Total {
        files: total.files.saturating_add(1),
        faults: total.faults.saturating_add(fault_count(fault)),
        faults_by_code: total.faults_by_code.with_fault(fault),
        counts: total.counts.plus(counts),
        distinct_keys: keys,
    }
}

/// What is kept of the review of a file, whose text is written, and the different keys of all files
/// up to it.
#[derive(Drop)]
pub struct FileNoted {
    pub reported: FileReported,
    pub keys: DistinctKeys,
}

/// The same with these keys.
fn with_noted(reported: Result<FileReported, Stop>, keys: DistinctKeys) -> Result<FileNoted, Stop>
    ensures { result ≡ with_noted reported keys }
{
    match reported {
        Ok(reported) => Ok(FileNoted { reported, keys }),
        Err(stop) => Err(stop),
    }
}

/// The status: 2 if a file could not be reviewed, else 1 if a finding with one of these codes was
/// reported.
pub fn total_status(failing: &[Code], total: &Total) -> u8
    ensures { result ≡ total_status failing.now total.now }
{
    if total.faults > 0 {
        FAULT
    } else if fails_by(failing, total.counts.by_code) {
        FOUND
    } else {
        DONE
    }
}

/// Writes what is shown of the review of a file of these bytes, each record of which begins with this head.
fn put_bytes_review<W: Sink>(
    alloc: Global,
    kind: ReviewKind,
    show: Show,
    form: Form,
    asked: &ReviewOptions<'_>,
    head: &[u8],
    file: &[u8],
    buffer: &mut KeyBuffer,
    keys: &mut DistinctKeys,
    writer: &mut W,
) -> Result<FileReported, Stop>
    requires none { NoneFailed (W.account writer.old) }
    requires limit { length file.now ≤ file_limit }
    ensures failed { FailedIfStopped result (W.account writer.new) }
    ensures noted { OnOk result (keys.new ≡ with_keys keys.old (file_keys (file_kind kind) file.now)) }
    ensures put { TextPut (review_of kind show form (asking_of asked.entry.now) head.now file.now).text
        (review_kept (review_of kind show form (asking_of asked.entry.now) head.now file.now))
        (W.account writer.old) (W.account writer.new) result }
{
    match kind {
        ReviewKind::Auth => {
            let records = auth_records(alloc, file);
            put_review(
                alloc, show, form, asked, head, file, records, buffer, keys, writer,
            )
        }
        ReviewKind::Known => {
            let records = known_records(alloc, file);
            put_review(
                alloc, show, form, asked, head, file, records, buffer, keys, writer,
            )
        }
    }
}

/// Writes the same, and notes the keys on the key lines of the file.
fn put_noted<W: Sink>(
    alloc: Global,
    kind: ReviewKind,
    show: Show,
    form: Form,
    asked: &ReviewOptions<'_>,
    head: &[u8],
    file: &[u8],
    buffer: &mut KeyBuffer,
    earlier: DistinctKeys,
    writer: &mut W,
) -> Result<FileNoted, Stop>
    requires none { NoneFailed (W.account writer.old) }
    requires limit { length file.now ≤ file_limit }
    ensures failed { FailedIfStopped result (W.account writer.new) }
    ensures put { TextPut (report_of kind show form (asking_of asked.entry.now) head.now file.now).text
        (file_kept earlier (report_of kind show form (asking_of asked.entry.now) head.now file.now))
        (W.account writer.old) (W.account writer.new) result }
{
    let mut keys = earlier;
    let reported = put_bytes_review(
        alloc, kind, show, form, asked, head, file, buffer, &mut keys, writer,
    );
    with_noted(reported, keys)
}

/// Writes the review of the file of this name, each record of which begins with this head.
fn put_headed<F: Files, W: Sink>(
    alloc: Global,
    kind: ReviewKind,
    show: Show,
    form: Form,
    asked: &ReviewOptions<'_>,
    name: FileName<'_>,
    head: &[u8],
    buffer: &mut KeyBuffer,
    keys: DistinctKeys,
    files: &mut F,
    writer: &mut W,
) -> Result<FileNoted, Stop>
    requires none { NoneFailed (W.account writer.old) }
    requires head { head.now ≡ file_head form (name_seen name) }
    ensures failed { FailedIfStopped result (W.account writer.new) }
    ensures reported { TextWritten (telling_review kind show form (asking_of asked.entry.now)) (λ r. r.text)
        (file_kept keys) (name_seen name.entry) (F.source_state files.old) (F.source_state files.new)
        (W.account writer.old) (W.account writer.new) result }
{
    match read_whole(alloc, files, name.path) {
        Ok(file) => put_noted(
            alloc, kind, show, form, asked, head, &file, buffer, keys, writer,
        ),
        Err(fault) => {
            let cause = files.unread_cause(name.path);
            with_noted(put_unread(alloc, form, head, fault, cause, writer), keys)
        }
    }
}

/// Writes the review of the file of this name.
fn put_file<F: Files, W: Sink>(
    alloc: Global,
    kind: ReviewKind,
    show: Show,
    form: Form,
    asked: &ReviewOptions<'_>,
    name: FileName<'_>,
    buffer: &mut KeyBuffer,
    keys: DistinctKeys,
    files: &mut F,
    writer: &mut W,
) -> Result<FileNoted, Stop>
    requires { NoneFailed (W.account writer.old) }
    ensures failed { FailedIfStopped result (W.account writer.new) }
    ensures reported { TextWritten (telling_review kind show form (asking_of asked.entry.now)) (λ r. r.text)
        (file_kept keys) (name_seen name.entry) (F.source_state files.old) (F.source_state files.new)
        (W.account writer.old) (W.account writer.new) result }
{
    let head = file_head(alloc, form, name)?;
    put_headed(
        alloc, kind, show, form, asked, name, &head, buffer, keys, files, writer,
    )
}

/// Writes the reviews of the files of these names, one after the other, a table behind its header, and
/// returns their total. In memory are one file, what is stored of its lines, the records that are written next, and up to
/// 65,536 fingerprints.
fn tell_files<F: Files, W: Sink>(
    alloc: Global,
    kind: ReviewKind,
    show: Show,
    form: Form,
    asked: &ReviewOptions<'_>,
    names: ListedNames<'_>,
    files: &mut F,
    writer: &mut W,
) -> Result<Total, Stop>
    requires { NoneFailed (W.account writer.old) }
    ensures failed { FailedIfStopped result (W.account writer.new) }
    ensures reported { IfTells (F.source_state files.old) (λ s. TextsWritten with_file
        (telling_review kind show form (asking_of asked.entry.now)) (lines_before form) (λ reported. reported.text)
        (λ r. r.text) (λ reported. reported.total) (names_seen names.entry) s (F.source_state files.new)
        (W.account writer.old) (W.account writer.new) result) }
{
    put_first_lines(form, writer)?;
    let mut total = NOTHING;
    let mut buffer = KeyBuffer::new(alloc)?;
    let mut keys = DistinctKeys::new(alloc);
    for word in names.words {
        let name = names.naming.name_of(word);
        let noted = put_file(
            alloc,
            kind,
            show,
            form,
            asked,
            name,
            &mut buffer,
            keys,
            files,
            writer,
        )?;
        let reported = noted.reported;
        keys = noted.keys;
        total = with_counted(total, keys.count(), reported.counts, reported.fault);
    }
    Ok(total)
}

/// Writes what is shown of the reviews of the files of these names, and then their total, which says
/// the time zone by its rule. Returns the status. A file that cannot be reviewed has its fault, and
/// the next is reviewed all the same; after a failed write no file is read.
pub fn review_files<F: Files, W: Sink>(
    alloc: Global,
    kind: ReviewKind,
    show: Show,
    failing: &[Code],
    form: Form,
    rule: &[u8],
    asked: &ReviewOptions<'_>,
    names: ListedNames<'_>,
    files: &mut F,
    writer: &mut W,
) -> u8
    requires { NoneFailed (W.account writer.old) }
    ensures { IfTells (F.source_state files.old) (λ s. WritesAnswer
        (ReviewsFiles kind show failing.now form rule.now (asking_of asked.entry.now)
        (names_seen names.entry) s (F.source_state files.new))
        (W.account writer.old) (W.account writer.new) result) }
{
    match tell_files(alloc, kind, show, form, asked, names, files, writer) {
        Ok(total) => {
            let status = total_status(failing, &total);
            put_total(alloc, kind, form, rule, asked, &total, status, writer)
        }
        Err(Stop::Memory) => put_no_memory(writer),
        Err(Stop::Write) => FAULT,
    }
}

/// Writes the answer about the files of these names as lines or as a page, and returns the status.
fn review_as<F: Files, W: Sink>(
    alloc: Global,
    kind: ReviewKind,
    failing: &[Code],
    form: ReviewForm<'_>,
    rule: &[u8],
    asked: &ReviewOptions<'_>,
    names: ListedNames<'_>,
    key: Option<&str>,
    files: &mut F,
    writer: &mut W,
) -> u8
    requires { NoneFailed (W.account writer.old) }
    ensures { IfTells (F.source_state files.old) (λ s. WritesAnswer
        (ReviewsAs (form_seen form.entry) (option_map (λ k. k.now) key.entry) kind failing.now rule.now (asking_of asked.entry.now)
        (names_seen names.entry) s (F.source_state files.new))
        (W.account writer.old) (W.account writer.new) result) }
{
    match form {
        ReviewForm::Lines(show, form) => review_for(
            alloc, kind, show, failing, form, rule, asked, names, key, files, writer,
        ),
        ReviewForm::Page(title) => {
            review_page(
                alloc, title, kind, failing, rule, asked, names, files, writer,
            )
        }
    }
}

/// Writes the answer to `review`, where the option for the zone has been read; `None` where its text
/// is no zone. After an `Err` nothing was written.
#[tactic(auto, unfolding(crate::specs::Spelled::review_spelled))]
fn review_in_zone<F: Files, W: Sink>(
    alloc: Global,
    words: &Args<'_>,
    zone: Option<TimeZone<'static>>,
    files: &mut F,
    writer: &mut W,
) -> Result<u8, CommandError>
    requires { NoneFailed (W.account writer.old) }
    ensures untouched { OnErr result (W.account writer.new ≡ W.account writer.old) }
    ensures reported { IfTells (F.source_state files.old) (λ s. IfWritten (W.account writer.old)
        (W.account writer.new) result (λ r. ReviewsInZone (rows_in words.now)
        (option_map plain_zone zone.entry) s (F.source_state files.new) r)) }
{
    let kind = review_kind(words)?;
    let now = words.number(ArgName::Now)?;
    let zone = ArgName::Zone.or_fault(zone)?;
    let rsa_minimum = rsa_minimum(words)?;
    let reported = reported_codes(alloc, words)?;
    let form = review_form(words, kind)?;
    let failing = failing_codes(alloc, words, &reported)?;
    let names = words.needed_names()?;
    let names = names_asked(words, names)?;
    let rule = zone_text(given_rule(words));
    let is_given = is_zone_given(words);
    let asked = ReviewOptions {
        now,
        zone: &zone,
        is_zone_given: is_given,
        rsa_minimum,
        reported: &reported,
    };
    let key = words.given(ArgName::Key);
    Ok(review_as(
        alloc, kind, &failing, form, rule, &asked, names, key, files, writer,
    ))
}

/// Writes the answer to `review`, and returns the status. The values of the options are read first,
/// then the file of `--key` if it names one, then the files in their order.
pub fn answer_review<F: Files, W: Sink>(
    alloc: Global,
    words: &Args<'_>,
    files: &mut F,
    writer: &mut W,
) -> u8
    requires { NoneFailed (W.account writer.old) }
    ensures { IfTells (F.source_state files.old) (λ s. WritesAnswer
        (RespondsToReview (rows_in words.now) s (F.source_state files.new))
        (W.account writer.old) (W.account writer.new) result) }
{
    let zone = zone_of(given_rule(words));
    match review_in_zone(alloc, words, zone, files, writer) {
        Ok(status) => status,
        Err(fault) => put_made(writer, respond_fault(alloc, fault)),
    }
}
