//! Input of the program: files by name, the values that its arguments are written as, and vouch
//! files.
#![tactic(auto)]

mod files;
mod keeper;
mod part;
mod read;
mod samples;
mod seeker;
mod values;

pub use files::{Files, UnreadCause};
pub use part::{Found, read_digest, read_front, read_past, read_top_line, seek_vouched};
pub use read::{ReadError, read_first_line, read_vouch_file, read_whole};
pub use values::{
    decode, is_short, read_bits, read_empty_principals, read_hex, read_number, read_port,
    read_salts, read_short_hex, read_words, zone_of,
};
