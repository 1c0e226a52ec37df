//! The findings of a review: the facts of each line of an authorized_keys or known_hosts file, and
//! what is reported for it.
//!
//! For entries of authorized_keys files: the facts of an entry, what has to be fixed, and which
//! earlier line has the same key.
//!
//! A caller that wants the findings of one line by itself:
//!
//! ```
//! let AuthLineView::Entry(entry) = read_auth_view(line, &mut buffer) else {
//!     return Ok(None);
//! };
//! let reported = Code::by_default();
//! let asked = ReviewOptions { now, zone, is_zone_given: true, rsa_minimum: 2048, reported };
//! let facts = Facts::read(alloc, zone, &entry)?;
//! let earlier = Earlier::new(alloc);
//! Ok(Some(entry_findings(alloc, &asked, &earlier, entry.blob(), &facts)?))
//! ```
//!
//! For lines of known_hosts files: the facts of an entry, what has to be fixed, and which earlier
//! line has the same key, or another key for the same name.
//!
//! A caller that wants the findings of all lines of a file, one after the other:
//!
//! ```
//! let mut earlier = EarlierHosts::new(alloc);
//! for (number, line) in Lines::new(file) {
//!     if let KnownLineView::Entry(entry) = read_known_view(line, &mut buffer) {
//!         let facts = HostFacts::read(alloc, line, &entry)?;
//!         let found = host_entry_findings(alloc, &asked, &earlier, entry.blob(), &facts)?;
//!         earlier.keep_entry(alloc, number, entry.blob(), &facts)?;
//!     }
//! }
//! ```
//!
//! The key that OpenSSH reads on a line that is unreadable here (the recovered key). It grants
//! nothing: by its fingerprint a person finds the key that OpenSSH may admit all the same.
//!
//! A caller that asks which key an unreadable line may hold:
//!
//! ```
//! let held = held_key(alloc, b"no-ptty ssh-ed25519 AAAAC3NzaC1lZDI1NTE5AAAAIBmMnDenviwjr5QGdkuZSXql1062iuZP2UqxpDvyR0wr")?;
//! ```
#![tactic(auto)]

mod carried;
mod certified_key;
mod code;
mod code_counts;
mod earlier;
mod entry;
mod facts;
mod finding;
mod first_key;
mod host_earlier;
mod host_facts;
mod host_finding;
mod key_read;
mod laws;
mod least;
mod map;
mod named;
mod openssh;
mod recovered_key;
mod recovered_words;
mod row;
mod sources;
mod table;
mod urgency;

pub use certified_key::known_certified_blob;
pub use code::{Code, ReviewOptions, parse_codes};
pub use code_counts::CodeCounts;
pub use earlier::Earlier;
pub use entry::{entry_findings, may_let_in, unreadable_findings};
pub use facts::Facts;
pub use finding::{Coded, Finding};
pub use host_earlier::EarlierHosts;
pub use host_facts::{HostFacts, RevocationFacts, host_may_refuse};
pub use host_finding::{
    HostFinding, host_entry_findings, revocation_findings, unreadable_host_findings,
    unreadable_revocation_findings,
};
pub use key_read::{is_read_as_key, view_read};
pub use openssh::{Ground, has_ground, has_nul, may_refuse};
pub use recovered_key::{HeldKey, held_blob, held_key, known_held_blob, known_held_key};
pub use recovered_words::{canonical_blob, key_on_line, openssh_blob};
pub use row::{Printed, Row, Value};
pub use sources::is_read_otherwise;
pub use urgency::{Urgency, how_soon};
