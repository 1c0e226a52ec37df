//! The surroundings of a question: the clock, the time zone and the home folder of the machine.

ghost use Rattle.std.specs.Prelude.{◌≡◌, option_map, string_bytes};
ghost use Rattle.ssh_program.specs.DefaultsView.{text_seen};

use ssh_files::zone_of;
use ssh_program::{Surroundings, date_seconds};
use std::alloc::{AllocError, Global};
use std::env;
use std::env::VarError;
use std::fs::File;
use std::io::{ErrorKind, Read};
use std::time::{SystemTime, UNIX_EPOCH};

/// The most bytes of a time zone file that are read. The longest of the zone database has 4 KiB.
const ZONE_LIMIT: usize = 65_536;

/// How many bytes of a time zone file are read at a time.
const PIECE_LEN: usize = 4096;

/// What is known of the surroundings.
#[derive(Drop)]
pub struct Known {
    time: Option<String<Global>>,
    zone: Option<String<Global>>,
    home: Option<String<Global>>,
    given_time: Option<String<Global>>,
    given_zone: Option<String<Global>>,
}

type Outcome<T> = Result<T, AllocError>;

/// The time in seconds since 1970-01-01 UTC, if there is a clock that is past it.
fn read_clock(rt: &HostRuntime) -> Outcome<Option<String<Global>>> {
    let Ok(now) = SystemTime::now(rt) else {
        return Ok(None);
    };
    let Ok(passed) = now.duration_since(UNIX_EPOCH) else {
        return Ok(None);
    };
    let text = passed.as_secs().to_string(rt.alloc())?;
    Ok(Some(text))
}

/// The home folder, if it is an absolute path.
fn read_home(rt: &HostRuntime) -> Outcome<Option<String<Global>>> {
    match env::var(rt, "HOME") {
        Ok(home) if home.as_str().starts_with('/') => Ok(Some(home)),
        Err(VarError::OutOfMemory) => Err(AllocError),
        _ => Ok(None),
    }
}

/// The bytes of a time zone file; `None` where it cannot be read, or is no such file by its length.
fn read_zone_file(rt: &HostRuntime, path: &str) -> Outcome<Option<Vec<u8>>> {
    let Ok(mut file) = File::open(rt, path) else {
        return Ok(None);
    };
    let mut bytes = Vec::new(rt.alloc());
    let mut piece = [0; PIECE_LEN];
    for _ in 0..ZONE_LIMIT {
        match file.read(&mut piece) {
            Ok(0) => return Ok(Some(bytes)),
            Ok(count) if count <= PIECE_LEN && bytes.len() < ZONE_LIMIT => {
                bytes.extend_from_slice(&piece[..count])?;
            }
            Err(error) if error.kind() == ErrorKind::Interrupted => {}
            _ => return Ok(None),
        }
    }
    Ok(None)
}

/// The last line of a time zone file, the POSIX rule of the zone (RFC 9636 section 3.3): it stands
/// between the last two line ends.
fn footer(file: &[u8]) -> Option<&str> {
    let content = file.strip_prefix(b"TZif".as_slice())?;
    let front = content.strip_suffix(b"\n".as_slice())?;
    let start = front.iter().rposition(|byte| *byte == b'\n')?;
    if start >= front.len() {
        return None;
    }
    str::from_utf8(&front[start + 1..]).ok()
}

/// The POSIX rule in a time zone file, if there is one that the program reads.
fn read_rule(rt: &HostRuntime, path: &str) -> Outcome<Option<String<Global>>> {
    let Some(file) = read_zone_file(rt, path)? else {
        return Ok(None);
    };
    match footer(&file) {
        Some(rule) if zone_of(Some(rule)).is_some() => {
            let text = String::from_str(rt.alloc(), rule)?;
            Ok(Some(text))
        }
        _ => Ok(None),
    }
}

/// The value that the words give to an option, by its name with the dashes.
fn given<'a>(words: &[&'a str], name: &str) -> Option<&'a str> {
    let mut is_next = false;
    for word in words {
        if is_next {
            return Some(word);
        }
        if *word == "--" {
            return None;
        }
        is_next = *word == name;
        if let Some(rest) = word.strip_prefix(name) {
            if let Some(value) = rest.strip_prefix('=') {
                return Some(value);
            }
        }
    }
    None
}

/// The seconds of the date and the time that `--now` gives, if it gives them.
fn read_given_time(rt: &HostRuntime, words: &[&str]) -> Outcome<Option<String<Global>>> {
    let Some(text) = given(words, "--now") else {
        return Ok(None);
    };
    match date_seconds(text) {
        Some(seconds) => {
            let digits = seconds.to_string(rt.alloc())?;
            Ok(Some(digits))
        }
        None => Ok(None),
    }
}

/// Whether a text can name a file below the folder of the zones.
fn is_zone_name(text: &str) -> bool {
    !text.is_empty() && !text.starts_with('/') && !text.contains("..")
}

/// The POSIX rule of the time zone that `--zone` names, if it is a name. A text that is a rule stays
/// as it is.
fn read_given_zone(rt: &HostRuntime, words: &[&str]) -> Outcome<Option<String<Global>>> {
    let Some(text) = given(words, "--zone") else {
        return Ok(None);
    };
    if !is_zone_name(text) || zone_of(Some(text)).is_some() {
        return Ok(None);
    }
    let mut path = String::from_str(rt.alloc(), "/usr/share/zoneinfo/")?;
    path.push_str(text)?;
    read_rule(rt, path.as_str())
}

fn as_text(text: &Option<String<Global>>) -> Option<&str>
    ensures { text_seen result ≡ option_map string_bytes text.now }
{
    match text {
        Some(text) => Some(text.as_str()),
        None => None,
    }
}

impl Known {
    /// What is known of the surroundings of a question of these words.
    pub fn read(rt: &HostRuntime, words: &[&str]) -> Outcome<Known> {
        Ok(Known {
            time: read_clock(rt)?,
            zone: read_rule(rt, "/etc/localtime")?,
            home: read_home(rt)?,
            given_time: read_given_time(rt, words)?,
            given_zone: read_given_zone(rt, words)?,
        })
    }

    /// The same as texts.
    pub fn as_surroundings(&self) -> Surroundings<'_>
        ensures time { text_seen result.time ≡ option_map string_bytes self.now.time }
        ensures zone { text_seen result.zone ≡ option_map string_bytes self.now.zone }
        ensures home { text_seen result.home ≡ option_map string_bytes self.now.home }
        ensures given_time { text_seen result.given_time
            ≡ option_map string_bytes self.now.given_time }
        ensures given_zone { text_seen result.given_zone
            ≡ option_map string_bytes self.now.given_zone }
    {
        Surroundings {
            time: as_text(&self.time),
            zone: as_text(&self.zone),
            home: as_text(&self.home),
            given_time: as_text(&self.given_time),
            given_zone: as_text(&self.given_zone),
        }
    }
}
