//! Reads and writes OpenSSH certificates (PROTOCOL.certkeys, version 01).
//!
//! Reading borrows from the blob and copies nothing. A blob has at most 262,144 bytes. Times are
//! seconds from 1970-01-01 in UTC. No signature is verified here. Options that PROTOCOL.certkeys
//! lists are looked up by variant: `CertView::has_named`, `has_formed` and `text_of`. An example:
//! whether a user's certificate admits a name now; the caller then has to verify that the signature
//! is the signer's over the signed part (a test runs these lines):
//!
//! ```
//! let cert = read_cert(blob)?;
//! if cert.kind_number() == 1 && cert.in_time(now) == Time::Now && cert.has_principal(user) {
//!     return Ok(Some((cert.signer(), cert.signed_part(), cert.signature())));
//! }
//! Ok(None)
//! ```
//!
//! A caller that looks up many names among the principals builds a `PrincipalIndex` first, so that
//! a look-up does not search the whole list. An example: whether one of many names is a principal
//! (a test runs these lines):
//!
//! ```
//! let index = PrincipalIndex::new(alloc, certificate)?;
//! Ok(names.iter().any(|name| index.has(name)))
//! ```
#![tactic(auto)]

mod fields;
mod laws;
mod options;
mod packed;
mod reading;
mod row;
mod view;
mod writing;

pub use options::{CertificateOption, PrincipalIndex, has_option, no_principals};
pub use packed::{CertOptions, Principals};
pub use reading::{CertError, WriteError, read_cert};
pub use view::{CertView, Time};
pub use writing::{CertParts, plain_blob, write_cert};
