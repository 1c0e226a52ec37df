//! The main job over files in memory: a login without and with its vouch file, a review, and words
//! that ask for nothing.

use crate::files::NamedBytes;
use crate::memory_run::{Output, run_in_memory};
use crate::texts::Text;
use ssh_program::WordsError;
use std::alloc::Global;
use std::test::Fail;

const KEY: &str = "AAAAC3NzaC1lZDI1NTE5AAAAIAAAAAAAAAAAAAAAAAAAAAAAAAAAAAAAAAAAAAAAAAAA";

/// The bytes of a vouch file that vouches for that login.
const VOUCHED: &str =
    "0000000b7373682d65643235353139000000200000000000000000000000000000000000000000000000000000000000000000 00000004010203043200000003616e6e0000000e7373682d636f6e6e656374696f6e000000097075626c69636b6579010000000b7373682d65643235353139000000330000000b7373682d65643235353139000000200000000000000000000000000000000000000000000000000000000000000000 0000000b7373682d6564323535313900000001aa\n";

fn answered(
    alloc: Global,
    words: &[&str],
    files: &[NamedBytes<'_>],
    input: &[u8],
) -> Result<Result<Output, WordsError>, Fail> {
    let mut texts = Vec::new(alloc);
    for word in words {
        texts.push(Text {
            bytes: word.as_bytes(),
        })?;
    }
    Ok(run_in_memory(alloc, texts.as_slice(), files, input))
}

#[test]
fn answers_over_memory(rt: HostRuntime) -> Result<(), Fail> {
    let alloc = rt.alloc();
    let line = format!(in alloc; "ssh-ed25519 {KEY} me\n")?;
    let files = [
        NamedBytes {
            name: b"keys",
            bytes: line.as_bytes(),
        },
        NamedBytes {
            name: b"vouched",
            bytes: VOUCHED.as_bytes(),
        },
    ];
    let login = [
        "login",
        "--file",
        "keys",
        "--offer",
        KEY,
        "--signature",
        "0000000b7373682d6564323535313900000001aa",
        "--algorithm",
        "ssh-ed25519",
        "--session",
        "01020304",
        "--user",
        "ann",
        "--address",
        "192.0.2.1",
        "--now",
        "150",
        "--vouch",
        "vouched",
    ];
    let granted = answered(alloc, login.as_slice(), files.as_slice(), b"")?;
    assert!(rt;
        granted.is_ok_and(|output| output.status == 0
            && output.text.starts_with(b"granted line 1\n"))
    );
    let denied = answered(alloc, &login[..17], files.as_slice(), b"")?;
    assert!(rt;
        denied.is_ok_and(|output| output.status == 1 && output.text.starts_with(b"denied N6 0\n"))
    );
    let review = ["review", "--kind", "auth", "--now", "150", "keys", "gone"];
    let reviewed = answered(alloc, review.as_slice(), files.as_slice(), b"")?;
    assert!(rt; reviewed.is_ok_and(|output| output.status == 2));
    let piped = answered(alloc, &[], &[], b"explain N3\n")?;
    assert!(rt; piped.is_ok_and(|output| output.status == 0 && output.text.starts_with(b"N3")));
    Ok(())
}

#[test]
fn refuses_words_that_are_no_text(rt: HostRuntime) -> Result<(), Fail> {
    let words = [Text { bytes: b"explain" }, Text { bytes: b"\xff" }];
    let refused = run_in_memory(rt.alloc(), words.as_slice(), &[], b"");
    assert!(rt; refused.is_err_and(|fault| fault == WordsError::Usage));
    Ok(())
}
