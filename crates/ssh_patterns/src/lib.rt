//! Patterns, addresses, nets (CIDR blocks) and the lists that are made of them (ssh_config(5),
//! PATTERNS; sshd(8), from=).
//!
//! No call allocates memory. An example: a host passes if its address is in one net and its name is
//! permitted by a pattern list (a test runs these lines):
//!
//! ```
//! let net = parse_net(b"192.0.2.0/24")?;
//! let address = parse_address(address_text)?;
//! Ok(contains(&net, &address) && host_list(b"*.example.org,!bad.example.org", host))
//! ```
#![tactic(auto)]

mod address;
mod list;
mod net;
mod pattern;
mod samples;
mod sources;

pub use address::{Address, PatternError, parse_address};
pub use list::{Permit, first_piece, host_list, host_list_counted};
pub use net::{Net, contains, parse_net};
pub use pattern::{matches, matches_counted};
pub use sources::{cidr_list, source_list, source_list_counted};
