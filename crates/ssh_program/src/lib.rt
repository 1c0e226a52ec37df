//! The program without its operating system: it answers a command line over files by name, and
//! writes the answer.
//!
//! `login` and `host` decide on an offer with its signature: the vouch file is read, then the trust
//! file.
//!
//! `admits` and `trusts` decide on a key alone, by any number of trust files. `admits` also takes a
//! fingerprint in place of the key. `explain` prints what codes mean.
//!
//! `review` lists the entries and findings of any number of trust files, or those of one key, and
//! then their total.
//! `rewrite`, `readable` and `hash` print a new trust file, `show` prints one key, and `sshsig`
//! answers about a file signature.
//!
//! `with_defaults` adds to the words of a question what it leaves out, by the surroundings; `run`
//! sees no other words. `with_list` takes the names of a list into the words in the same way.
//! `usage_guidance` and `fault_guidance` say for standard error which word or which value is wrong.
#![tactic(auto)]

mod admission;
mod admits;
mod args;
mod asked_with;
mod audit;
mod by_fingerprint;
mod client;
mod command;
mod complaint;
mod date;
mod decision_form;
mod decisions;
mod defaults;
mod file_question;
mod files_from;
mod fingerprint_value;
mod guidance;
mod help;
mod host_port;
mod key_file;
mod key_seeking;
mod kinds;
mod laws;
mod name_list;
mod naming;
mod offer_fingerprint;
mod page_front;
mod pieces;
mod printing;
mod program;
mod question;
mod reported;
mod review;
mod review_fail;
mod review_form;
mod review_page;
mod review_show;
mod review_zone;
mod rewriting;
mod show;
mod sink;
mod sshsig;
mod streaming;
mod subcommand;
mod texts;
mod vouching;
mod word;

pub use admits::{AuditFiles, SshsigQuestion, respond_admits, respond_trusts};
pub use args::{ArgName, Args, KeyPlace, Needed};
pub use asked_with::defaults_line;
pub use audit::{Question, decide_by_file, is_memory, unread};
pub use command::{CommandError, Request, WordsError, parse, respond_fault};
pub use date::date_seconds;
pub use decisions::{respond_host, respond_login};
pub use defaults::{Surroundings, asks_surroundings, with_defaults};
pub use files_from::{list_name, with_list};
pub use guidance::{asks_readable, fault_guidance, usage_guidance};
pub use key_file::{KeyFileForm, key_file_form};
pub use name_list::{ListError, NameFault, list_guidance, refuse_list};
pub use program::{refuse, run};
pub use question::{HostQuestion, LoginQuestion};
pub use review::answer_review;
pub use show::respond_explain;
pub use sink::Sink;
pub use subcommand::{OptionRow, Subcommand, asks_usage, usage_lines};
pub use texts::{TextPlace, TextPlaces};
