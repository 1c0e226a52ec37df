//! The time zone of a review: the value of `--zone`, and whether it was given for the files.

ghost use Rattle.std.specs.Prelude.{◌≡◌, option_map};
ghost use Rattle.ssh_files.specs.Values.{zone_text};
ghost use Rattle.ssh_program.specs.ArgsView.{rows_in};
ghost use Rattle.ssh_program.specs.ReviewZones.{gives_zone, is_zone_given, rule_in};
ghost use Rattle.ssh_program.specs.Spelling.{given};
ghost use Rattle.ssh_program.specs.declared.args.ArgName.TheVariants as option;

use crate::args::{ArgName, Args};

/// The rule of a value: what follows `local:`, or the whole value.
fn rule_in(text: &str) -> &str
    ensures { result.now ≡ rule_in text.now }
{
    match text.strip_prefix("local:") {
        Some(rule) => rule,
        None => text,
    }
}

/// Whether a value, if there is one, is a zone that was given for the files: it does not say that
/// it is this machine's.
fn gives_zone(text: Option<&str>) -> bool
    ensures { result ≡ gives_zone (option_map (λ s. s.now) text.entry) }
{
    match text {
        Some(text) => !text.as_bytes().starts_with(b"local:".as_slice()),
        None => false,
    }
}

/// The rule of the zone that the options say; `None` where they say none.
pub fn given_rule<'a>(words: &Args<'a>) -> Option<&'a str>
    ensures { option_map (λ s. s.now) result
        ≡ option_map rule_in (given option.Zone (rows_in words.now)) }
{
    match words.given(ArgName::Zone) {
        Some(text) => Some(rule_in(text)),
        None => None,
    }
}

/// Whether the options of a review give the zone of the files.
pub fn is_zone_given(words: &Args<'_>) -> bool
    ensures { result ≡ is_zone_given (rows_in words.now) }
{
    gives_zone(words.given(ArgName::Zone))
}

/// The text of a rule: UTC where there is none.
pub fn zone_text<'a>(rule: Option<&'a str>) -> &'a [u8]
    ensures { result.now ≡ zone_text (option_map (λ s. s.now) rule.entry) }
{
    match rule {
        Some(rule) => rule.as_bytes(),
        None => b"UTC0",
    }
}
