//! Cuts files into lines, and lines into words, blanks and a comment (sshd(8)).
//!
//! Lines are counted from 1 and come without their LF. `Lines` cuts a whole file, whatever the
//! length of its lines. `Scanner` reads a file in pieces, stores at most one line, and reports a
//! line past the limit as too long. An example: the first line that begins with a word (a test runs
//! these lines):
//!
//! ```
//! for (number, line) in Lines::new(file) {
//!     let (first, _rest) = split_word(skip_blanks(line));
//!     if first == word {
//!         return Some(number);
//!     }
//! }
//! None
//! ```
#![tactic(auto)]

mod file;
mod kept;
mod laws;
mod scanner;
mod text;

pub use file::{FILE_LIMIT, LINE_LIMIT, Lines};
pub use scanner::{Line, Scanner};
pub use text::{Bytes, comment_in, ends_with, is_blank, skip_blanks, split_word, without_last};
