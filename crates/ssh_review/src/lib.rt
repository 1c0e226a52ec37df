//! Reviews of `authorized_keys` and `known_hosts` files: who is let in and which keys are trusted,
//! by which line, and what is wrong with each line.
//!
//! The review of an `authorized_keys` file has a record for each entry and each line that cannot be
//! read, and an end with counts and the SHA-256 of the bytes, as text or as JSON lines. It needs no
//! clock, no network, no signature and no other file. `review_auth` makes a new text, and returns all
//! of it or `AllocError`. Each record begins with the name of the file (`file_head`). A caller that
//! reviews a file and returns whether something was found:
//!
//! ```
//! let head = file_head(alloc, Form::Text, FileName::plain(name))?;
//! let reported = Code::by_default();
//! let asked = ReviewOptions { now, zone, is_zone_given: true, rsa_minimum: 2048, reported };
//! let reviewed = review_auth(alloc, Form::Text, &asked, &head, file)?;
//! out.extend_from_slice(&reviewed.text)?;
//! Ok(reviewed.counts.findings > 0)
//! ```
//!
//! The records of a large file are many times its size. So they can be made a few at a time, by
//! `auth_records`, `known_records`, `auth_key_records` and `known_key_records`. A caller that writes
//! those that are shown (`Show`) as they are made, and then the end of the file; `keys` then counts the
//! different keys on its key lines, and `buffer` serves one file after the other:
//!
//! ```
//! let form = RecordForm::AsLines(Form::Text);
//! let mut records = auth_records(alloc, file);
//! let mut buffer = KeyBuffer::new(alloc)?;
//! let mut keys = DistinctKeys::new(alloc);
//! while records.push_some(alloc, Show::All, form, &asked, &head, &mut buffer, &mut keys, &mut out)? {
//!     writer.write_all(&out)?;
//!     out.clear();
//! }
//! let reported = records.reported();
//! push_end(alloc, Form::Text, &mut out, &head, reported.counts, &Sha256::digest(file))?;
//! writer.write_all(&out)?;
//! ```
//!
//! In JSON a record is an object on one line. All of its fields are always there, in the same
//! order, with `null` where there is no value. A string is the text that the text format prints of
//! the same bytes, with a backslash before each quote and each backslash. So both formats write a
//! value in the same way.
//!
//! As a table a record is a line of cells, with the fields of the JSON object in the same order. Its
//! header, `first_lines`, is written once, before the first file.
//!
//! The review of a `known_hosts` file has a record for each entry, each revocation and each line
//! that cannot be read: which keys are trusted for which names, and which are revoked. Its end and
//! its formats are the same. A caller that reviews a file and returns whether something was found:
//!
//! ```
//! let reported = Code::by_default();
//! let asked = ReviewOptions { now, zone, is_zone_given: true, rsa_minimum: 2048, reported };
//! let reviewed = review_known(alloc, Form::Text, &asked, &head, file)?;
//! out.extend_from_slice(&reviewed.text)?;
//! Ok(reviewed.counts.findings > 0)
//! ```
//!
//! `review_auth_key` and `review_known_key` are the reviews for one key: their records are those of the
//! lines that hold it. A caller that tells whether a key stands in a file:
//!
//! ```
//! let reviewed = review_auth_key(alloc, Form::Text, &asked, &head, file, fingerprint)?;
//! out.extend_from_slice(&reviewed.review.text)?;
//! Ok(reviewed.stands)
//! ```
//!
//! `decision_laws.rt` has the laws that join the decisions of `ssh_trust`, the new files of
//! `ssh_rewriting` and these reviews: a rewritten file keeps every decision, a file with hashed host
//! names keeps it but for line numbers, and whoever is let in or trusted is so by a line that the
//! review lists.
#![tactic(auto)]

mod answer_json;
mod asked;
mod auth_review;
mod decision_laws;
mod distinct_keys;
mod end;
mod fault_counts;
mod fields;
mod file_name;
mod findings;
mod found;
mod host_json_record;
mod host_key_review;
mod host_record;
mod host_review;
mod json_record;
mod key_laws;
mod key_review;
mod laws;
mod page_file;
mod page_laws;
mod readable;
mod record;
mod record_field;
mod records;
mod short_text;
mod show;
mod table;

pub use answer_json::{answer_object, answer_total};
pub use asked::{AskedAt, asked_line};
pub use auth_review::{auth_records, push_end, review_auth, review_fault, total_line, total_words};
pub use distinct_keys::DistinctKeys;
pub use end::{Counts, FileFault, Form, Reviewed, Total};
pub use fault_counts::FaultCounts;
pub use file_name::{FileName, Labels, file_head, shown_name};
pub use host_key_review::{known_key_records, review_known_key};
pub use host_review::{known_records, review_known};
pub use json_record::LineRef;
pub use key_review::{KeyCounts, KeyReviewed, auth_key_records, review_auth_key, review_key_fault};
pub use page_file::{push_page_fault, push_page_file};
pub use readable::{left_out, readable_auth};
pub use records::{ForKey, LineRecords, RecordForm, Records};
pub use show::Show;
pub use table::first_lines;
