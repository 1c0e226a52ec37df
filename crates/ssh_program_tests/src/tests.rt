//! The output after failed reads and writes, and after each byte of a trust file.

use crate::sink::{printed_by_bytes, printed_failing, printed_refusal, printed_until};
use crate::source::{BODY, HOST, HOST_TRIPLE, K0, LOGIN, LOGIN_TRIPLE, SIGNATURE, joined};
use ssh_program::WordsError;
use std::alloc::Global;
use std::io::ErrorKind;
use std::process::Abort;
use std::test::Fail;

#[test]
fn stops_at_a_failed_write(rt: HostRuntime) -> Result<(), Fail> {
    let words = ["frob"];
    for kind in [ErrorKind::Interrupted, ErrorKind::BrokenPipe] {
        for index in 1..14u64 {
            let (status, calls, text) = printed_until(
                rt.alloc(),
                words.as_slice(),
                b"",
                b"",
                index,
                kind,
            )?;
            assert_eq!(rt; (status, calls), (2, index.min(12)));
            let taken = (index - 1).min(12) as usize;
            assert_eq!(rt; Some(text.as_slice()), b"fault usage\n".get(..taken));
        }
    }
    Ok(())
}

#[test]
fn stops_an_answer_at_a_failed_write(rt: HostRuntime) -> Result<(), Fail> {
    let alloc = rt.alloc();
    let input = joined(alloc, [LOGIN, LOGIN_TRIPLE, "\n\n"].as_slice())?;
    let file = joined(alloc, ["ssh-ed25519 ", K0, " me\n"].as_slice())?;
    let head = "granted line 1\nrights port agent x11 pty rc\nevidence 0 ";
    let wanted = joined(alloc, [head, LOGIN_TRIPLE, "\n"].as_slice())?;
    for taken in 0..wanted.len() {
        let index = taken as u64 + 1;
        let kind = ErrorKind::BrokenPipe;
        let (status, calls, text) = printed_until(
            alloc,
            &[],
            file.as_bytes(),
            input.as_bytes(),
            index,
            kind,
        )?;
        assert_eq!(rt; (status, calls), (2, index));
        assert_eq!(rt; Some(text.as_slice()), wanted.as_bytes().get(..taken));
    }
    Ok(())
}

#[test]
fn refuses_words_that_cannot_be_read(rt: HostRuntime) -> Result<(), Fail> {
    for (fault, wanted) in [
        (WordsError::Usage, "fault usage\n"),
        (WordsError::Memory, "fault A8\n"),
    ] {
        let (status, text) = printed_refusal(rt.alloc(), fault)?;
        assert_eq!(rt; text.as_slice(), wanted.as_bytes());
        assert_eq!(rt; status, 2);
    }
    Ok(())
}

/// Compares the output where the read of this index, from 1, and every later one fails.
fn compare_failed(
    rt: &impl Abort,
    alloc: Global,
    file: &str,
    input: &str,
    index: u64,
    wanted: &str,
) -> Result<(), Fail> {
    let (status, text) = printed_failing(alloc, &[], file.as_bytes(), input.as_bytes(), index)?;
    assert_eq!(rt; str::from_utf8(&text).ok(), Some(wanted), "{index}");
    assert_eq!(rt; status, 2, "{index}");
    Ok(())
}

#[test]
fn prints_a_reads_own_fault(rt: HostRuntime) -> Result<(), Fail> {
    let alloc = rt.alloc();
    let input = joined(alloc, [LOGIN, LOGIN_TRIPLE, "\n\n"].as_slice())?;
    let file = joined(alloc, ["ssh-ed25519 ", K0, " me\n"].as_slice())?;
    let first = LOGIN.len() as u64;
    let second = input.len() as u64;
    for (index, wanted) in [
        (1, "fault usage\n"),
        (first, "fault usage\n"),
        (first + 1, "fault file -\n"),
        (second, "fault file -\n"),
        (second + 1, "fault A9\n"),
        (second + 2, "fault A9\n"),
    ] {
        compare_failed(&rt, alloc, &file, &input, index, wanted)?;
    }
    Ok(())
}

#[test]
fn writes_nothing_of_a_file_whose_read_fails(rt: HostRuntime) -> Result<(), Fail> {
    let alloc = rt.alloc();
    let line = "rewrite --kind auth --file f\n";
    let file = joined(alloc, ["ssh-ed25519  ", K0, "\n"].as_slice())?;
    let first = line.len() as u64;
    for index in [first + 1, first + 2] {
        compare_failed(&rt, alloc, &file, line, index, "fault A9\n")?;
    }
    Ok(())
}

/// The file `f` has the salts; the trust file is standard input.
#[test]
fn hashes_nothing_of_a_file_whose_read_fails(rt: HostRuntime) -> Result<(), Fail> {
    let alloc = rt.alloc();
    let line = "hash --file - --salts f\n";
    let file = joined(alloc, [line, "b ssh-ed25519 ", K0, "\n"].as_slice())?;
    let first = line.len() as u64;
    for (index, wanted) in [(first + 1, "fault file f\n"), (first + 3, "fault A9\n")] {
        compare_failed(&rt, alloc, "0123456789abcdefghij", &file, index, wanted)?;
    }
    Ok(())
}

/// The file `f` is the vouch file. It is read before the body and the message, and once more after
/// them. These two are standard input: the body takes all of it.
#[test]
fn prints_the_fault_of_a_vouch_file_that_is_read_again(rt: HostRuntime) -> Result<(), Fail> {
    let alloc = rt.alloc();
    let input = joined(alloc, [SIGNATURE, BODY].as_slice())?;
    let first = SIGNATURE.len() as u64;
    for (index, wanted) in [
        (first + 1, "fault file f\n"),
        (first + 2, "fault file f\n"),
        (first + 3, "fault file -\n"),
        (first + 5, "fault file -\n"),
        (first + 6, "fault file f\n"),
        (first + 7, "fault file f\n"),
    ] {
        compare_failed(&rt, alloc, "- - -\n", &input, index, wanted)?;
    }
    Ok(())
}

/// Compares the output where `good` reads of the file `f` succeed, each of one byte.
fn compare_sipped(
    rt: &impl Abort,
    alloc: Global,
    file: &str,
    input: &str,
    good: u64,
    wanted: &str,
) -> Result<(), Fail> {
    let (_, text) = printed_by_bytes(alloc, &[], file.as_bytes(), input.as_bytes(), good)?;
    assert_eq!(rt; str::from_utf8(&text).ok(), Some(wanted), "{good}");
    Ok(())
}

/// Compares the answer where all reads succeed, the last of which finds the end of the file. Where
/// a read fails there is no answer, even after a line that admits.
fn compare_pieces(
    rt: &impl Abort,
    alloc: Global,
    file: &str,
    input: &str,
    wanted: &str,
) -> Result<(), Fail> {
    let length = file.len() as u64;
    for good in 0..=length {
        compare_sipped(rt, alloc, file, input, good, "fault A9\n")?;
    }
    compare_sipped(rt, alloc, file, input, length + 1, wanted)
}

#[test]
fn answers_a_login_byte_by_byte(rt: HostRuntime) -> Result<(), Fail> {
    let alloc = rt.alloc();
    let input = joined(alloc, [LOGIN, LOGIN_TRIPLE, "\n"].as_slice())?;
    let head = "granted line 1\nrights port agent x11 pty rc\nevidence 0 ";
    let wanted = joined(alloc, [head, LOGIN_TRIPLE, "\n"].as_slice())?;
    for end in ["", "\n", "\r\n\n#"] {
        let file = joined(alloc, ["ssh-ed25519 ", K0, " me", end].as_slice())?;
        compare_pieces(&rt, alloc, &file, &input, &wanted)?;
    }
    Ok(())
}

#[test]
fn answers_a_host_byte_by_byte(rt: HostRuntime) -> Result<(), Fail> {
    let alloc = rt.alloc();
    let input = joined(alloc, [HOST, HOST_TRIPLE, "\n"].as_slice())?;
    let rows = [
        ("", "granted line 1\n"),
        ("@revoked other ssh-ed25519 ", "denied N1 2\n"),
        ("@revoked other frob *", "denied N2 2\n"),
    ];
    for (second, head) in rows {
        let key = if second.is_empty() { "" } else { K0 };
        let file = joined(alloc, ["h ssh-ed25519 ", K0, "\n", second, key].as_slice())?;
        let wanted = joined(alloc, [head, "evidence 0 ", HOST_TRIPLE, "\n"].as_slice())?;
        compare_pieces(&rt, alloc, &file, &input, &wanted)?;
    }
    Ok(())
}

#[test]
fn writes_a_file_anew_byte_by_byte(rt: HostRuntime) -> Result<(), Fail> {
    let alloc = rt.alloc();
    let file = joined(
        alloc,
        ["h  ssh-ed25519\t", K0, "\r\n@revoked  x"].as_slice(),
    )?;
    let wanted = joined(alloc, ["h ssh-ed25519 ", K0, "\n@revoked  x\n"].as_slice())?;
    let input = "rewrite --kind known --file f\n";
    compare_pieces(&rt, alloc, &file, input, &wanted)
}
