//! Rewrites authorized_keys and known_hosts files: canonical lines for entries, and hashed host
//! names. The new file has the same entries as the old one.
//!
//! A canonical line is read as its entry, is no longer than a line that spells the entry, and has
//! no LF. A caller that rewrites a line (a test runs these lines):
//!
//! ```
//! match read_auth_line(alloc, line)? {
//!     AuthLine::Entry(entry) => Ok(Some(canonical_auth_line(alloc, &entry)?)),
//!     _ => Ok(None),
//! }
//! ```
//!
//! In a rewritten file a line that is not an entry stays as it is. A caller that asks whether
//! rewriting would change a file (a test runs these lines):
//!
//! ```
//! let new = rewrite_known(alloc, file)?;
//! Ok(new.as_slice() == file)
//! ```
#![tactic(auto)]

mod hash;
mod hidden_names;
mod known_file;
mod laws;
mod lines;
mod rewrite;

pub use hash::{HashError, hash_known, hashed_known_line, write_hashed_line};
pub use lines::{canonical_auth_line, canonical_known_line, write_auth_line, write_known_line};
pub use rewrite::{RewriteError, rewrite_auth, rewrite_known};
