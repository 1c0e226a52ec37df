//! Tests of `run` over files and writers in memory: reads and writes that fail at one of their
//! calls, and files that come one byte at a time. The built program cannot be given such files. The
//! crate has only tests.
#![tactic(auto)]

#[cfg(test)]
mod sink;
#[cfg(test)]
mod source;
#[cfg(test)]
mod tests;
