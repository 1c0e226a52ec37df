//! Offers of keys and certificates: the query about a login, a host's key or a file signature, what
//! is refused before any line is read, and the evidence that a decision depends on.
//!
//! A caller that asks for the first signature of a login that is not vouched for, by its index (a
//! test runs these lines):
//!
//! ```
//! let claim = LoginClaimView::read(query)?;
//! let evidence = login_evidence(alloc, &claim)?;
//! Ok(first_unvouched(vouched, evidence.as_slice()))
//! ```
#![tactic(auto)]

mod claim;
mod evidence;
mod laws;
mod offer;

pub use claim::{
    AuditError, EmptyPrincipals, HostClaimView, HostQuery, LoginClaimView, LoginQuery, OfferError,
    Signed, SshsigClaimView,
};
pub use evidence::{
    Items, first_unvouched, host_evidence, login_evidence, plain_blob, sshsig_evidence,
};
pub use offer::Offer;
