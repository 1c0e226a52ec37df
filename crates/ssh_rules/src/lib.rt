//! Whether one line of an authorized_keys file admits a login, and the first reason why it does
//! not.
//!
//! For hosts' keys `ssh_host_rules` uses parts of this crate too: the reasons, the checks of a
//! certificate and of a key's size, and the search for a key's base64 in a line.
//!
//! A caller that asks why a line does not admit a login (a test runs these lines):
//!
//! ```
//! match login_verdict(alloc, read_auth_view(line, &mut buffer), matcher)? {
//!     LineVerdict::Admits(_) => Ok(None),
//!     LineVerdict::Skips(reason) => Ok(reason),
//! }
//! ```
#![tactic(auto)]

mod admission;
mod certificate;
mod laws;
mod login_matcher;
mod options;
mod reason;

pub use admission::{LineVerdict, listed_reason, login_verdict, login_verdict_counted};
pub use certificate::serves;
pub use login_matcher::{KeyNeedle, LoginMatcher};
pub use options::{SharedName, kept_name};
pub use reason::{
    Mismatch, Reason, period_mismatch, principal_mismatch, role_mismatch, size_mismatch,
    unknown_mismatch,
};
