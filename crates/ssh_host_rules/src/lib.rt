//! Whether one line of a known_hosts file admits a host's key, the first reason why it does not,
//! and which keys a line revokes.
//!
//! A caller that asks why a line does not admit a host's key (a test runs these lines):
//!
//! ```
//! match host_verdict(read_known_view(line, &mut buffer), matcher)? {
//!     LineVerdict::Admits(_) => Ok(None),
//!     LineVerdict::Skips(reason) => Ok(reason),
//! }
//! ```
#![tactic(auto)]

mod host_admission;
mod host_matcher;
mod laws;

pub use host_admission::{host_verdict, host_verdict_counted};
pub use host_matcher::{HostMatcher, can_revoke, may_revoke};
