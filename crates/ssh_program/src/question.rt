//! The question to trust files about a login or a host's key. Its offer is read once, whatever the
//! number of files that answer.

ghost use Rattle.std.specs.Prelude.{◌≡◌, ◌<◌, ◌^◌, length};
ghost use Rattle.ssh_offers.specs.HostClaim.{host_claim};
ghost use Rattle.ssh_offers.specs.LoginClaim.{login_claim};
ghost use Rattle.ssh_offers.specs.Query.{host_check_of, login_of};

use ssh_offers::{AuditError, HostClaimView, HostQuery, LoginClaimView, LoginQuery};
use std::marker::Model;

/// A login whose offer was read: its claim, or its refusal by `A1` to `A6`.
#[derive(Drop)]
pub struct LoginQuestion<'a> {
    pub(crate) claimed: Result<LoginClaimView<'a>, AuditError>,
}

impl<'a> Model for LoginQuestion<'a> {
    ghost use Rattle.std.specs.Prelude.{◌≡◌, Err, Result};
    ghost use Rattle.ssh_offers.specs.declared.claim.AuditError.{AuditError as Refusal};
    ghost use Rattle.ssh_offers.specs.declared.claim.AuditError.TheVariants.{Read};
    ghost use Rattle.ssh_offers.specs.ClaimViews.{claim_of};
    ghost use Rattle.ssh_offers.specs.LoginClaim.{LoginClaim};
    ghost use Rattle.ssh_program.specs.Audits.{claim_seen};

    ghost Value = { Result LoginClaim Refusal };

    ghost view = { λ q. claim_seen claim_of q.claimed };

    // A9 is a reader's, and refuses no offer.
    ghost invariant = { λ q. q.claimed ≡ Err Read → ⊥ };
}

impl<'a> LoginQuestion<'a> {
    /// Reads the offer of a login whose session identifier and user name have fewer than 2^32
    /// bytes, as strings of the signed bytes must (RFC 4252 section 7).
    #[tactic(auto, using(crate::proofs::QuestionLemmas::claim_read, crate::proofs::QuestionLemmas::login_unread))]
    pub fn read(query: &LoginQuery<'a>) -> LoginQuestion<'a>
        requires session { length query.now.session.now < 2 ^ 32 }
        requires user { length query.now.user.now < 2 ^ 32 }
        ensures { result ≡ login_claim (login_of query.entry.now) }
    {
        LoginQuestion {
            claimed: LoginClaimView::read(query),
        }
    }
}

/// A host's key whose offer was read: its claim, or its refusal by `A1` to `A5`.
#[derive(Drop)]
pub struct HostQuestion<'a> {
    pub(crate) claimed: Result<HostClaimView<'a>, AuditError>,
}

impl<'a> Model for HostQuestion<'a> {
    ghost use Rattle.std.specs.Prelude.{◌≡◌, Err, Result};
    ghost use Rattle.ssh_offers.specs.declared.claim.AuditError.{AuditError as Refusal};
    ghost use Rattle.ssh_offers.specs.declared.claim.AuditError.TheVariants.{Read};
    ghost use Rattle.ssh_offers.specs.ClaimViews.{host_claim_of};
    ghost use Rattle.ssh_offers.specs.HostClaim.{HostClaim};
    ghost use Rattle.ssh_program.specs.Audits.{claim_seen};

    ghost Value = { Result HostClaim Refusal };

    ghost view = { λ q. claim_seen host_claim_of q.claimed };

    // A9 is a reader's, and refuses no offer.
    ghost invariant = { λ q. q.claimed ≡ Err Read → ⊥ };
}

impl<'a> HostQuestion<'a> {
    /// Reads the offer of a host.
    #[tactic(auto, using(crate::proofs::QuestionLemmas::claim_read, crate::proofs::QuestionLemmas::host_unread))]
    pub fn read(query: &HostQuery<'a>) -> HostQuestion<'a>
        ensures { result ≡ host_claim (host_check_of query.entry.now) }
    {
        HostQuestion {
            claimed: HostClaimView::read(query),
        }
    }
}
