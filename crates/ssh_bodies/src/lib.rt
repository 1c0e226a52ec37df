//! Reads and writes the bodies of private keys that are not encrypted (PROTOCOL.key) and of file
//! signatures (PROTOCOL.sshsig). A body is what the base64 of such a file decodes to.
//!
//! Reading borrows from the bytes and copies nothing. An error is the first one of the body, and
//! its place counts bytes from the body's first one unless the error states otherwise. An example:
//! the bytes that a file signature signs (a test runs these lines):
//!
//! ```
//! let view = read_sshsig(body)?;
//! if view.namespace != namespace {
//!     return Ok(None);
//! }
//! Ok(Some(sshsig_message(alloc, &view, message)?))
//! ```
#![tactic(auto)]

mod error;
mod private;
mod private_fields;
mod private_section;
mod private_view;
mod private_writing;
mod samples;
mod sshsig;
mod sshsig_view;
mod sshsig_writing;

pub use error::BodyError;
pub use private::read_private;
pub use private_fields::PrivateFields;
pub use private_view::PrivateView;
pub use private_writing::write_private;
pub use sshsig::{HashName, read_sshsig, sshsig_message};
pub use sshsig_view::SshsigView;
pub use sshsig_writing::write_sshsig;
