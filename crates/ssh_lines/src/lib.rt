//! Lines of authorized_keys and known_hosts files: the door for callers from outside, over the crates
//! that do the work.
//!
//! `Lines` and `Scanner` number the lines of a file (`ssh_text`); `read_auth_line` and
//! `read_known_line` read one (`ssh_entries`); `expiry` reads the text of an expiry time
//! (`ssh_options`); the canonical and the hashed line of an entry are made by `ssh_rewriting`.
//!
//! A caller that writes each entry of a file as its canonical line (a test runs these lines):
//!
//! ```
//! for (_, line) in Lines::new(file) {
//!     if let AuthLine::Entry(entry) = read_auth_line(alloc, line)? {
//!         out.extend_from_slice(&canonical_auth_line(alloc, &entry)?)?;
//!         out.push(b'\n')?;
//!     }
//! }
//! ```
#![tactic(auto)]

pub use ssh_entries::{
    AuthEntry, AuthEntryView, AuthLine, AuthLineView, HostNames, KeyBuffer, KnownEntry,
    KnownEntryView, KnownLine, KnownLineView, Marker, NamesError, hash_name, hmac_sha1,
    lookup_name, names_host, read_auth_line, read_auth_view, read_known_line, read_known_view,
    read_names,
};
pub use ssh_options::{Flag, LineCause, ValueName, expiry};
pub use ssh_rewriting::{canonical_auth_line, canonical_known_line, hashed_known_line};
pub use ssh_text::{Bytes, FILE_LIMIT, LINE_LIMIT, Line, Lines, Scanner};
