//! The lines of authorized_keys and known_hosts files.
//!
//! A line is given without its LF and has at most 65,536 bytes; for one that cannot be read the
//! first fault is reported, as `LineCause`. Reading in place allocates nothing but the buffer for
//! keys, and copies nothing. An owned entry is a copy of its line, which is read again for a view
//! of it. A caller that looks for the line of a key in a file, and copies it (a test runs these
//! lines):
//!
//! ```
//! let mut buffer = KeyBuffer::new(alloc)?;
//! for (_number, line) in Lines::new(file) {
//!     if let AuthLineView::Entry(entry) = read_auth_view(line, &mut buffer)
//!         && entry.has_blob(blob)
//!     {
//!         return Ok(Some(read_auth_line(alloc, line)?));
//!     }
//! }
//! Ok(None)
//! ```
//!
//! The names of known_hosts lines are lists of patterns or hashed names (sshd(8), SSH_KNOWN_HOSTS
//! FILE FORMAT); a host is looked up by one name.
//!
//! A caller that hashes the name of a host and its port, and asks whether the field that it wrote
//! names them (a test runs these lines):
//!
//! ```
//! let name = lookup_name(alloc, host, port)?;
//! let field = hash_name(alloc, salt, &name)?;
//! match read_names(&field) {
//!     Ok(names) => Ok(names_host(&names, &name)),
//!     Err(_) => Ok(false),
//! }
//! ```
#![tactic(auto)]

mod auth_line;
mod auth_view;
mod hashed;
mod key_view;
mod known_line;
mod known_view;
mod laws;
mod names;

pub use auth_line::{AuthEntry, AuthLine, read_auth_line};
pub use auth_view::{AuthEntryView, AuthLineView, KeyText, key_text, read_auth_view};
pub use hashed::{hash_name, hashed_field, hmac_sha1};
pub use key_view::KeyBuffer;
pub use known_line::{KnownEntry, KnownLine, read_known_line};
pub use known_view::{KnownEntryView, KnownLineView, Marker, read_known_view};
pub use names::{HostNames, NamesError, lookup_name, names_host, read_names};
