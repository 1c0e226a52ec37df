//! What is reported of an answer: its numbers, and what goes into the buffers that a caller lends.

ghost use Rattle.std.specs.Prelude.{◌≡◌, ◌++◌, ◌⊎◌, [], Err, IfOk, List, None, Ok, OnOk, Result, Some, map};
ghost use Rattle.std.specs.List.{flat_map};
ghost use Rattle.ssh_offers.specs.declared.claim.AuditError.{AuditError as Fault};
ghost use Rattle.ssh_offers.specs.declared.claim.AuditError.TheVariants.{Memory};
ghost use Rattle.ssh_offers.specs.declared.claim.Signed.{Signed as SignedValue};
ghost use Rattle.ssh_trust.specs.declared.decision.Decision.{Decision as DecisionValue};
ghost use Rattle.ssh_trust.specs.declared.decision.Decision.TheVariants.{Denied, Granted};
ghost use Rattle.ssh_decisions_c.specs.Decided.{carried_in, carried_row, command_bytes, reason_row, texts_in, reported_of};
ghost use Rattle.ssh_decisions_c.specs.Reported.{IsRightsTelling, IsTelling};

use crate::decided::{
    CarriedText, Decided, LineReason, LoginRights, carried_row, cause_code, cause_number,
    fault_code, reason_row, rights_reported,
};
use ssh_offers::AuditError;
use ssh_text::Bytes;
use ssh_trust::{Carried, Cause, Decision, Reason, Rights};
use std::alloc::{AllocError, Global};

/// The rights of a grant. Where there are none, nothing is set, and there are no texts.
#[derive(Drop)]
pub(crate) struct RightsTelling {
    pub(crate) numbers: LoginRights,
    pub(crate) carried: Vec<CarriedText>,
    pub(crate) texts: Vec<u8>,
}

/// An answer: its decision or fault in numbers, its reasons, and its rights.
#[derive(Drop)]
pub(crate) struct Telling {
    pub(crate) decision: Decided,
    pub(crate) reasons: Vec<LineReason>,
    pub(crate) rights: RightsTelling,
}

fn reason_rows(alloc: Global, reasons: &[(u64, Reason)]) -> Result<Vec<LineReason>, AllocError>
    ensures { IfOk result (λ rows. rows.items ≡ map reason_row reasons.now) }
{
    let mut rows = Vec::new(alloc);
    for reason in reasons {
        rows.push(reason_row(reason.0, &reason.1))?;
    }
    Ok(rows)
}

fn carried_rows(alloc: Global, carried: &[Carried]) -> Result<Vec<CarriedText>, AllocError>
    ensures { IfOk result (λ rows. rows.items ≡ map carried_row carried.now) }
{
    let mut rows = Vec::new(alloc);
    for option in carried {
        rows.push(carried_row(option))?;
    }
    Ok(rows)
}

fn push_command(texts: &mut Vec<u8>, command: &Option<Bytes>) -> Result<(), AllocError>
    ensures { OnOk result (texts.new.items ≡ texts.old.items ++ command_bytes command.now) }
{
    if let Some(text) = command {
        texts.extend_from_slice(text.as_slice())?;
    }
    Ok(())
}

fn push_carried(texts: &mut Vec<u8>, carried: &[Carried]) -> Result<(), AllocError>
    ensures { OnOk result (texts.new.items ≡ texts.old.items ++ flat_map (λ c. c.text) carried.now) }
{
    for option in carried {
        texts.extend_from_slice(option.text.as_slice())?;
    }
    Ok(())
}

fn push_texts(texts: &mut Vec<u8>, rights: &Rights) -> Result<(), AllocError>
    ensures { OnOk result (texts.new.items ≡ texts.old.items ++ texts_in (Some rights.now)) }
{
    push_command(texts, &rights.command)?;
    push_carried(texts, rights.carried.as_slice())?;
    Ok(())
}

/// The rows of the options that are passed on.
fn carried_of(alloc: Global, rights: &Option<Rights>) -> Result<Vec<CarriedText>, AllocError>
    ensures { IfOk result (λ rows. rows.items ≡ map carried_row (carried_in rights.now)) }
{
    match rights {
        None => Ok(Vec::new(alloc)),
        Some(rights) => {
            let rows = carried_rows(alloc, rights.carried.as_slice())?;
            Ok(rows)
        }
    }
}

/// The forced command, and the texts of the options that are passed on, one behind the other.
fn texts_of(alloc: Global, rights: &Option<Rights>) -> Result<Vec<u8>, AllocError>
    ensures { IfOk result (λ texts. texts.items ≡ texts_in rights.now) }
{
    let mut texts = Vec::new(alloc);
    match rights {
        None => Ok(texts),
        Some(rights) => {
            push_texts(&mut texts, rights)?;
            Ok(texts)
        }
    }
}

fn tell_rights(alloc: Global, rights: &Option<Rights>) -> Result<RightsTelling, AllocError>
    ensures { IfOk result (IsRightsTelling rights.now) }
{
    let carried = carried_of(alloc, rights)?;
    let texts = texts_of(alloc, rights)?;
    Ok(RightsTelling {
        numbers: rights_reported(rights, texts.as_slice()),
        carried,
        texts,
    })
}

/// The rights of an answer that grants nothing.
fn no_rights(alloc: Global) -> RightsTelling
    ensures { IsRightsTelling None result }
{
    RightsTelling {
        numbers: rights_reported(&None, &[]),
        carried: Vec::new(alloc),
        texts: Vec::new(alloc),
    }
}

fn tell_fault(alloc: Global, error: AuditError) -> Telling
    ensures decision { result.decision ≡ reported_of (Err error) }
    ensures reasons { result.reasons.items ≡ [] }
    ensures rights { IsRightsTelling None result.rights }
{
    Telling {
        decision: Decided {
            kind: 2,
            code: fault_code(error),
            number: 0,
            reasons_length: 0,
        },
        reasons: Vec::new(alloc),
        rights: no_rights(alloc),
    }
}

fn tell_denial(alloc: Global, why: Cause, reasons: &[(u64, Reason)]) -> Result<Telling, AllocError>
    ensures decision { IfOk result (λ t. (evidence : List SignedValue)
        → t.decision ≡ reported_of (Ok (Denied why reasons.now evidence))) }
    ensures reasons { IfOk result (λ t. t.reasons.items ≡ map reason_row reasons.now) }
    ensures rights { IfOk result (λ t. IsRightsTelling None t.rights) }
{
    let rows = reason_rows(alloc, reasons)?;
    Ok(Telling {
        decision: Decided {
            kind: 1,
            code: cause_code(why),
            number: cause_number(why),
            reasons_length: reasons.len(),
        },
        reasons: rows,
        rights: no_rights(alloc),
    })
}

fn tell_grant(
    alloc: Global,
    line: u64,
    rights: &Option<Rights>,
    reasons: &[(u64, Reason)],
) -> Result<Telling, AllocError>
    ensures decision { IfOk result (λ t. (evidence : List SignedValue)
        → t.decision ≡ reported_of (Ok (Granted line rights.now reasons.now evidence))) }
    ensures reasons { IfOk result (λ t. t.reasons.items ≡ map reason_row reasons.now) }
    ensures rights { IfOk result (λ t. IsRightsTelling rights.now t.rights) }
{
    let rows = reason_rows(alloc, reasons)?;
    let rights = tell_rights(alloc, rights)?;
    Ok(Telling {
        decision: Decided {
            kind: 0,
            code: 0,
            number: line,
            reasons_length: reasons.len(),
        },
        reasons: rows,
        rights,
    })
}

fn tell_decision(alloc: Global, decision: &Decision) -> Result<Telling, AllocError>
    ensures { IfOk result (IsTelling (Ok decision.now)) }
{
    match decision {
        Decision::Granted {
            line,
            rights,
            reasons,
            ..
        } => {
            let granted = tell_grant(alloc, *line, rights, reasons.as_slice())?;
            Ok(granted)
        }
        Decision::Denied { why, reasons, .. } => {
            let denied = tell_denial(alloc, *why, reasons.as_slice())?;
            Ok(denied)
        }
    }
}

fn tell_or_memory(alloc: Global, decision: &Decision) -> Telling
    ensures { (reported : Result DecisionValue Fault)
        × ((reported ≡ Ok decision.now) ⊎ (reported ≡ Err Memory)) × IsTelling reported result }
{
    match tell_decision(alloc, decision) {
        Ok(telling) => telling,
        Err(AllocError) => tell_fault(alloc, AuditError::Memory),
    }
}

/// What is reported of an answer, or of the fault of memory where there is too little to tell it.
pub(crate) fn tell(alloc: Global, answer: Result<Decision, AuditError>) -> Telling
    ensures { (reported : Result DecisionValue Fault) × ((reported ≡ answer) ⊎ (reported ≡ Err Memory))
        × IsTelling reported result }
{
    match answer {
        Ok(decision) => tell_or_memory(alloc, &decision),
        Err(error) => tell_fault(alloc, error),
    }
}
