//! The rights of a login that a line admits, and whether its security key was touched and verified
//! the user.
//!
//! A caller that asks whether an offer gets a terminal and a shell by a line (a test runs these
//! lines):
//!
//! ```
//! let AuthLineView::Entry(entry) = read_auth_view(line, &mut buffer) else {
//!     return Ok(false);
//! };
//! let rights = rights_of(alloc, &entry, offer)?;
//! Ok(rights.pty && rights.command.is_none())
//! ```
#![tactic(auto)]

mod laws;
mod rights;

pub use rights::{Carried, CarriedName, Rights, rights_of, touch_suffices, verification_suffices};
