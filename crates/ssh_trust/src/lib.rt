//! Whether an authorized_keys file admits a login, whether a known_hosts file trusts a host's key,
//! and whether a file signature is vouched for.
//!
//! No signature is verified here. A decision lists the signatures that it depends on, each with its
//! key and its signed bytes, and takes a list of those that the caller vouches for. A caller that
//! verifies signatures itself, by a `verify` of its own (a test runs these lines, once for each
//! answer of `verify`):
//!
//! ```
//! let evidence = evidence_of_login(alloc, query)?;
//! if !verify(evidence.as_slice()) {
//!     return Ok(None);
//! }
//! match login(alloc, file, query, evidence.as_slice())? {
//!     Decision::Granted { line, .. } => Ok(Some(line)),
//!     Decision::Denied { .. } => Ok(None),
//! }
//! ```
//!
//! An offer that is asked of several files is read once, by `LoginClaimView::read` or
//! `HostClaimView::read`; each file then answers by the claim (`login_by_claim`, `host_by_claim`).
#![tactic(auto)]

mod audit;
mod calls;
mod claim_calls;
mod decision;
mod host_scan;
mod laws;
mod login_scan;
mod matcher;
mod reader;
mod search;

pub use audit::{HostAudit, LoginAudit};
pub use calls::{evidence_of_host, evidence_of_login, host, host_from, login, login_from};
pub use claim_calls::{host_by_claim, host_by_claim_from, login_by_claim, login_by_claim_from};
pub use decision::{Cause, Decision, SshsigAnswer, sshsig};
pub use reader::{Counted, READ_SIZE, Source};
pub use search::REASON_LIMIT;
pub use ssh_offers::{
    AuditError, EmptyPrincipals, HostClaimView, HostQuery, Items, LoginClaimView, LoginQuery,
    OfferError, Signed,
};
pub use ssh_rewriting::{HashError, RewriteError, hash_known, rewrite_auth, rewrite_known};
pub use ssh_rights::{Carried, CarriedName, Rights};
pub use ssh_rules::Reason;
pub use ssh_text::FILE_LIMIT;
