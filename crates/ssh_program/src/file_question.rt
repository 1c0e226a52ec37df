//! A login or a host's key, to be decided on by the bytes of a whole trust file, with what OpenSSH
//! may read differently.

ghost use Rattle.ssh_print.specs.Answering.{GivesBeside};
ghost use Rattle.ssh_print.specs.HostOther.{other_host};
ghost use Rattle.ssh_print.specs.OtherLines.{other_login};
ghost use Rattle.ssh_program.specs.Admissions.{Otherness, beside_by};
ghost use Rattle.ssh_program.specs.Audits.{answer_by};

use crate::audit::Question;
use crate::question::{HostQuestion, LoginQuestion};
use ssh_offers::{AuditError, Signed};
use ssh_print::{Otherwise, answer_host, answer_login};
use ssh_trust::Decision;
use std::alloc::Global;

/// A login or a host's key, to be decided on by the bytes of a whole trust file.
pub trait FileQuestion: Question {
    /// What is printed after the decision: the lines that OpenSSH may read differently.
    ghost beside: { Self → Otherness };

    /// The decision by these bytes, where these signatures are vouched for, with what is printed
    /// after it.
    fn answer_bytes(
        &self,
        alloc: Global,
        file: &[u8],
        vouched: &[Signed],
    ) -> Result<(Decision, Otherwise), AuditError>
        ensures { GivesBeside (beside self.entry.now file.now)
            (answer_by (Self.decides self.entry.now) file.now vouched.now) result };
}

impl FileQuestion for LoginQuestion<'_> {
    ghost beside = { λ x. beside_by other_login x };

    #[tactic(auto, using(crate::proofs::FileAnswerLemmas::refusal_gives))]
    fn answer_bytes(
        &self,
        alloc: Global,
        file: &[u8],
        vouched: &[Signed],
    ) -> Result<(Decision, Otherwise), AuditError> {
        match &self.claimed {
            Ok(claim) => answer_login(alloc, claim, file, vouched),
            Err(error) => Err(*error),
        }
    }
}

impl FileQuestion for HostQuestion<'_> {
    ghost beside = { λ x. beside_by other_host x };

    #[tactic(auto, using(crate::proofs::FileAnswerLemmas::refusal_gives))]
    fn answer_bytes(
        &self,
        alloc: Global,
        file: &[u8],
        vouched: &[Signed],
    ) -> Result<(Decision, Otherwise), AuditError> {
        match &self.claimed {
            Ok(claim) => answer_host(alloc, claim, file, vouched),
            Err(error) => Err(*error),
        }
    }
}
