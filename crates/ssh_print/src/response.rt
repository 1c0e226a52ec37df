//! The responses of the program: a status, and the text that is printed.

ghost use Rattle.std.specs.Prelude.{◌≡◌, ◌≤◌, length, ◌++◌, IfOk};
ghost use Rattle.ssh_print.specs.Texts.{hex_digits};
ghost use Rattle.std.specs.List.{flat_map};
ghost use Rattle.ssh_print.specs.DecisionText.{cause_line, evidence_lines, granted_lines, reason_line};
ghost use Rattle.ssh_print.specs.Responses.{decision_response, fault_response, no_file_response, refused_response, usage_response, value_response, vouch_response};
ghost use Rattle.ssh_print.specs.ResponseView.{response};

use crate::codes::fault_codes;
use crate::decision_text::{push_cause_line, push_granted, push_reasons};
use crate::escaped::PIECE_LIMIT;
use crate::text::{Text, push_escaped, push_number};
use ssh_offers::{AuditError, Items, Signed};
use ssh_rights::Rights;
use ssh_rules::Reason;
use ssh_trust::{Cause, Decision};
use std::alloc::{AllocError, Global};
use std::marker::Model;

/// A status, the printed text, and the evidence whose lines are printed after it. The status is 0
/// for granted or done, 1 for denied and 2 for a fault. The digits of the evidence are made only
/// when they are written: they take no memory, however long the evidence is.
#[derive(Debug, Drop)]
pub struct Response {
    pub status: u8,
    pub text: Text,
    pub evidence: Items<Signed>,
}

/// The status of a grant, or of a command that was done.
pub const DONE: u8 = 0;

/// The status of a denial.
pub const DENIED: u8 = 1;

/// The status of a fault.
pub const FAULT: u8 = 2;

impl Response {
    ghost use Rattle.std.specs.Prelude.{◌≡◌};
    ghost use Rattle.ssh_print.specs.ResponseView.{response};

    /// A response with this status and these bytes as its text, without evidence. Does not
    /// allocate.
    #[tactic(auto, unfolding(crate::specs::DecisionText::evidence_lines))]
    pub fn new(status: u8, bytes: Vec<u8>) -> Response
        ensures { response result ≡ record { status = status; text = bytes.items } }
    {
        let evidence = Items::new(*bytes.allocator());
        Response {
            status,
            text: Text::from(bytes),
            evidence,
        }
    }
}

/// Room for the digits of a piece, two for each byte.
const ROOM: usize = 2048;

/// The lower case hexadecimal digits of a few bytes. Does not allocate. Its value in contracts is
/// these digits.
#[derive(Drop)]
pub struct HexPiece {
    room: [u8; ROOM],
    len: usize,
}

impl Model for HexPiece {
    ghost use Rattle.std.specs.Prelude.{◌≤◌, ℕ, List, take};

    ghost Value = { List ℕ };

    ghost view = { λ p. take p.len p.room };

    ghost invariant = { λ p. p.len ≤ 2048 };
}

impl HexPiece {
    /// The digits of these bytes, which are at most `PIECE_LIMIT`. There are none for no bytes.
    pub fn new(bytes: &[u8]) -> HexPiece
        requires { length bytes.now ≤ PIECE_LIMIT }
        ensures { result ≡ hex_digits bytes.now }
    {
        let mut room = [0; ROOM];
        let len = 2 * bytes.len();
        let _ = hex::encode_to_slice(bytes, &mut room[..len]);
        HexPiece { room, len }
    }

    /// The digits, two for each byte.
    pub fn as_slice(&self) -> &[u8]
        ensures { result.now ≡ self.now }
    {
        &self.room[..self.len]
    }
}

/// The response to a fault with these codes, each after a space.
pub fn fault_response(alloc: Global, codes: &[u8]) -> Result<Response, AllocError>
    ensures { IfOk result (λ r. response r ≡ fault_response codes.now) }
{
    let mut text = Vec::new(alloc);
    text.extend_from_slice(b"fault")?;
    text.extend_from_slice(codes)?;
    text.push(b'\n')?;
    Ok(Response::new(FAULT, text))
}

/// The response to arguments that do not form a command.
pub fn usage_fault(alloc: Global) -> Result<Response, AllocError>
    ensures { IfOk result (λ r. response r ≡ usage_response) }
{
    fault_response(alloc, b" usage")
}

/// The response to a value that the option with this name does not accept.
pub fn value_fault(alloc: Global, name: &str) -> Result<Response, AllocError>
    ensures { IfOk result (λ r. response r ≡ value_response name.now) }
{
    let mut codes = Vec::new(alloc);
    codes.extend_from_slice(b" value ")?;
    codes.extend_from_slice(name.as_bytes())?;
    fault_response(alloc, &codes)
}

/// The response to a file other than a trust file that is missing, cannot be read or is too long.
pub fn file_fault(alloc: Global, name: &str) -> Result<Response, AllocError>
    ensures { IfOk result (λ r. response r ≡ no_file_response name.now) }
{
    let mut codes = Vec::new(alloc);
    codes.extend_from_slice(b" file ")?;
    push_escaped(&mut codes, name.as_bytes())?;
    fault_response(alloc, &codes)
}

/// The response to a vouch file whose line with this number is not a triple of hexadecimal fields.
pub fn vouch_fault(alloc: Global, line: u64) -> Result<Response, AllocError>
    ensures { IfOk result (λ r. response r ≡ vouch_response line) }
{
    let mut codes = Vec::new(alloc);
    codes.extend_from_slice(b" vouch ")?;
    push_number(&mut codes, line)?;
    fault_response(alloc, &codes)
}

/// The response to an audit that ended in a fault.
pub fn audit_fault(alloc: Global, error: AuditError) -> Result<Response, AllocError>
    ensures { IfOk result (λ r. response r ≡ refused_response error) }
{
    let codes = fault_codes(alloc, error)?;
    fault_response(alloc, &codes)
}

/// The response to a grant by the line with this number.
fn granted_response(
    alloc: Global,
    line: u64,
    rights: &Option<Rights>,
    evidence: Items<Signed>,
) -> Result<Response, AllocError>
    ensures { IfOk result (λ r. response r ≡ record {
      status = DONE;
      text = granted_lines line rights.now ++ evidence_lines evidence;
    }) }
{
    let mut text = Vec::new(alloc);
    push_granted(&mut text, line, rights)?;
    Ok(Response {
        status: DONE,
        text: Text::from(text),
        evidence,
    })
}

/// The response to a denial. The option names in the reasons are shared, not copied.
fn denied_response(
    alloc: Global,
    why: Cause,
    reasons: &[(u64, Reason)],
    evidence: Items<Signed>,
) -> Result<Response, AllocError>
    ensures { IfOk result (λ r. response r ≡ record {
      status = DENIED;
      text = cause_line why ++ flat_map reason_line reasons.now ++ evidence_lines evidence;
    }) }
{
    let mut text = Text::from(Vec::new(alloc));
    push_cause_line(&mut text.rest, why)?;
    push_reasons(&mut text, reasons)?;
    Ok(Response {
        status: DENIED,
        text,
        evidence,
    })
}

/// The response to a decision, or to the fault of an audit. The evidence of the decision is moved,
/// not copied.
pub fn decision_response(
    alloc: Global,
    answer: Result<Decision, AuditError>,
) -> Result<Response, AllocError>
    ensures { IfOk result (λ r. response r ≡ decision_response answer) }
{
    match answer {
        Ok(
            Decision::Granted {
                line,
                rights,
                evidence,
                ..
            },
        ) => granted_response(alloc, line, &rights, evidence),
        Ok(
            Decision::Denied {
                why,
                reasons,
                evidence,
            },
        ) => denied_response(alloc, why, reasons.as_slice(), evidence),
        Err(error) => audit_fault(alloc, error),
    }
}
