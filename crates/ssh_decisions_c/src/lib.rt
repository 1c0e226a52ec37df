//! Decisions for callers in C: a login and a host's key, asked by values and answered by numbers and
//! rows, with no command line and no text between. `bindings/c/ssh_audit.h` declares the calls and
//! says what a caller owes.
#![tactic(auto)]

mod asked;
mod decided;
mod host_call;
mod login_call;
mod telling;

pub use asked::{HostAsked, LoginAsked, SignedBytes};
pub use decided::{CarriedText, Decided, LineReason, LoginDecided, LoginRights};
pub use host_call::ssh_audit_host;
pub use login_call::ssh_audit_login;
