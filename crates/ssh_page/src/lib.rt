//! The page of a review: HTML for those who look at it, print it and sign it.
//!
//! A page is made as a *marked text*: bytes below 128 are text, and each byte from 128 on stands for
//! a piece of constant markup. Texts of files are appended as the text format has them, so they are
//! printable ASCII and can never be a piece. `expand` makes the page of a marked text, in pieces of
//! any length. So a page is held in less than its length, and there is one place where texts become
//! HTML.
//!
//! The laws of `laws.rt` say that no text of a file can become markup. A caller that appends a file:
//!
//! ```
//! push_section_head(alloc, marks, file, FileKind::AuthorizedKeys, &row, &classes)?;
//! push_entry_row(alloc, marks, RowPlace { file, line }, &facts, &found)?;
//! push_section_end(marks)?;
//! expand(page, marks)
//! ```
#![tactic(auto)]

mod choices;
mod classes;
mod expanding;
mod file;
mod finding;
mod found_rows;
mod header;
mod host_record;
mod key_buckets;
mod key_groups;
mod key_picture;
mod key_rows;
mod keys;
mod laws;
mod marks;
mod mend;
mod page;
mod piece;
mod places;
mod question;
mod record;
mod room;
mod row_classes;
mod short_piece;
mod style;

pub use expanding::{expand, expand_front, first_html};
pub use file::{
    FileClasses, FileKind, FileRow, push_empty_section, push_fault_row, push_fault_section,
    push_file_row, push_register_end, push_register_head, push_section_end, push_section_head,
};
pub use header::{PageTotals, push_asked, push_tiles, push_verdict};
pub use host_record::{push_bare_row, push_host_entry_row, push_revoked_row};
pub use keys::push_keys;
pub use mend::{CodeCount, push_mend};
pub use page::{push_lines_end, push_lines_start, push_page_end, push_page_start};
pub use places::PageLines;
pub use question::PageQuestion;
pub use record::{RowPlace, push_entry_row, push_unreadable_row};
pub use room::HtmlRoom;
pub use row_classes::has_authority;
