//! Which findings make the status of a review 1: the value of `--fail-on`.

ghost use Rattle.std.specs.Prelude.{◌≡◌};
ghost use Rattle.std.specs.List.{list_all, list_any};
ghost use Rattle.ssh_findings.specs.Codes.{same_code};
ghost use Rattle.ssh_program.specs.ArgsView.{Spells, rows_in};
ghost use Rattle.ssh_program.specs.ReviewFails.{are_reported, fails_by, failing_asked, failing_listed};

use crate::args::{ArgName, Args};
use crate::command::CommandError;
use ssh_findings::{Code, CodeCounts, parse_codes};
use std::alloc::Global;

/// Whether a finding with one of these codes was counted.
pub fn fails_by(failing: &[Code], counts: CodeCounts) -> bool
    ensures { result ≡ fails_by failing.now counts }
{
    failing.iter().any(|code| counts.get(*code) > 0)
}

fn is_among(codes: &[Code], code: Code) -> bool
    ensures { result ≡ list_any (λ c. same_code c code) codes.now }
{
    codes.contains(&code)
}

/// Whether the findings with each of these codes are reported.
fn are_reported(reported: &[Code], codes: &[Code]) -> bool
    ensures { result ≡ are_reported reported.now codes.now }
{
    codes.iter().all(|code| is_among(reported, *code))
}

/// The codes of a list, each of which has to be reported: another one would never be found.
fn failing_listed(alloc: Global, text: &str, reported: &[Code]) -> Result<Vec<Code>, CommandError>
    ensures { Spells (λ v. v.items) (failing_listed reported.now text.now) result }
{
    let read = parse_codes(alloc, text.as_bytes())?;
    let codes = ArgName::FailOn.or_fault(read)?;
    if are_reported(reported, &codes) {
        Ok(codes)
    } else {
        Err(CommandError::Usage)
    }
}

/// The codes whose findings make the status 1: all that are reported where the option is not given.
/// With `--key` it is not to be given, since then the status says whether the key stands somewhere.
pub fn failing_codes(
    alloc: Global,
    words: &Args<'_>,
    reported: &[Code],
) -> Result<Vec<Code>, CommandError>
    ensures { Spells (λ v. v.items) (failing_asked reported.now (rows_in words.now)) result }
{
    match (words.given(ArgName::FailOn), words.given(ArgName::Key)) {
        (None, _) => Ok(Vec::from_slice(alloc, reported)?),
        (Some(_), Some(_)) => Err(CommandError::Usage),
        (Some(text), None) => failing_listed(alloc, text, reported),
    }
}
