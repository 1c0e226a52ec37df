//! What the program prints: the lines and the status of decisions, of answers to file signatures
//! and of faults, and JSON strings (RFC 8259, section 7).
//!
//! The lines that `show` prints for a public key, a certificate, the public half of a private key
//! and a file signature.
//!
//! The meaning of the printed codes, and what to do about them.
//!
//! A row of the table has both for one code. A caller that has a code to explain:
//!
//! ```
//! if let Some(row) = row_of("G8") {
//!     println!(rt; "{}: {}", row.code, row.sentence)?;
//! }
//! ```
//!
//! Whether a key would be admitted if its signatures are good. This needs a stand-in for the
//! missing signature, the decision on a trust file if all evidence is vouched for, and the printed
//! answer.
#![tactic(auto)]

mod admission_text;
mod answering;
mod asked_key;
mod byte_class;
mod cert;
mod codes;
mod comparison;
mod dates;
mod decision_text;
mod details;
mod escaped;
mod explaining;
mod fingerprint_key;
mod host_otherwise;
mod known_possible;
mod laws;
mod otherwise;
mod passed;
mod possible;
mod response;
mod show_key;
mod showing;
mod shown_needs;
mod table;
mod text;

pub use admission_text::{Subject, answer_text, sentence};
pub use answering::answer_login;
pub use asked_key::{login_algorithm, stand_in};
pub use byte_class::{ByteClass, class_len, first_set};
pub use codes::{
    body_codes, cause_code, cause_codes, cert_codes, fault_codes, line_code, line_codes,
    reason_code, reason_codes,
};
pub use dates::{date_text, moment_text, push_moment};
pub use decision_text::{carried_word, rights_lines, sshsig_response};
pub use escaped::{EscapedPiece, PIECE_LIMIT, push_json_text, push_shown};
pub use explaining::{ExplainError, Row, explain, explain_all, row_of};
pub use fingerprint_key::{absent_text, find_key};
pub use host_otherwise::answer_host;
pub use otherwise::{Otherwise, nothing_other, other_unreported};
pub use response::{
    DONE, FAULT, HexPiece, Response, audit_fault, decision_response, fault_response, file_fault,
    usage_fault, value_fault, vouch_fault,
};
pub use showing::{OfferedKey, ShowError, ShowKind, read_offer, show, show_fault, show_kind};
pub use text::{
    Part, Text, push_escaped, push_hex, push_number, push_number_line, push_text_line,
    push_word_line,
};
