//! The options of authorized_keys lines, and their expiry times (sshd(8), AUTHORIZED_KEYS FILE
//! FORMAT).
//!
//! Options are read in place: memory is allocated only where a caller copies a value. An option
//! text that cannot be read gives its first error as a `LineCause`: a wrong form of the whole text,
//! or else the first error of the items from the left. An example: whether a line grants a
//! terminal, and its forced command (a test runs these lines):
//!
//! ```
//! let (options, _key) = OptionsView::take(line)?;
//! let terminal = options.has_flag(Flag::Pty);
//! match options.settings(ValueName::Command).next() {
//!     Some(command) => Ok((terminal, Some(command.to_bytes(alloc)?))),
//!     None => Ok((terminal, None)),
//! }
//! ```
//!
//! Expiry times are moments in seconds from the start of 1970 in UTC. A text that is not an expiry
//! time has no moment. An example: whether a line has expired (a test runs these lines):
//!
//! ```
//! let zone = TimeZone::posix("CET-1CEST,M3.5.0,M10.5.0/3")?;
//! let moment = expiry(alloc, text, &zone)?;
//! Ok(moment.map(|moment| moment <= now))
//! ```
#![tactic(auto)]

mod expiry_time;
mod line_options;
mod option;
mod option_text;
mod options_view;
mod samples;
mod value_view;

pub use expiry_time::{epoch, expiry, is_expiry_text};
pub use line_options::LineOptions;
pub use option::{Flag, ValueName};
pub use option_text::LineCause;
pub use options_view::{OptionView, OptionsView, SettingViews};
pub use value_view::{ValueBytes, ValueView};
