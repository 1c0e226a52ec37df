//! Cuts an option text into its items, finds where it ends, and gives the first error of a line
//! (`LineCause`).

ghost use Rattle.std.specs.Prelude.{◌≡◌, ◌≤◌, length, take, drop, IfOk, IfSome, IsOk, option_copied, option_map, false};
ghost use Rattle.ssh_options.specs.OptionText.{is_name_byte, name_part, after_name, begins_with_quote, unescaped, option_of, option_text_of, options_of};
ghost use Rattle.ssh_options.specs.OptionTexts.{after_now, after_options, both_now, value_taken, item_taken, item_text, rest_following, split_at_quote, split_value, after_item, first_item, front_items, plain_item};
ghost use Rattle.ssh_options.specs.OptionsInLine.{option_in_line};
ghost use Rattle.ssh_options.specs.OptionsInPlace.{and_read_seen, and_seen, and_item_seen, fault_in};

use crate::option::ValueName;
use crate::options_view::{OptionView, view_option};
use memchr::memchr;
use ssh_keys::KeyError;
use ssh_text::{Bytes, ends_with, is_blank};
use std::alloc::{AllocError, Global};
use thiserror::Error;

/// An item: its name, and the bytes between the quotes if it has a value. Escapes are not removed.
#[derive(Clone, Copy)]
pub(crate) struct ItemText<'a> {
    pub(crate) name: &'a [u8],
    pub(crate) value: Option<&'a [u8]>,
}

/// A letter, a digit or a hyphen.
fn is_name_byte(byte: u8) -> bool
    ensures { result ≡ is_name_byte byte }
{
    byte.is_ascii_lowercase() || byte.is_ascii_uppercase() || byte.is_ascii_digit() || byte == b'-'
}

/// The length of the name at the front of a text, which may be 0.
fn name_len(text: &[u8]) -> usize
    ensures name { take result text.now ≡ name_part text.now }
    ensures rest { drop result text.now ≡ after_name text.now }
    ensures bound { result ≤ length text.now }
{
    for (i, byte) in text.iter().enumerate() {
        if !is_name_byte(*byte) {
            return i;
        }
    }
    text.len()
}

/// The bytes before the closing quote, and what follows that quote. A quote right after a backslash
/// does not close (OpenSSH's auth-options.c).
fn split_at_quote(text: &[u8]) -> Option<(&[u8], &[u8])>
    ensures { option_map both_now result ≡ split_at_quote 34 text.now }
{
    let mut from = 0;
    while let Some(len) = memchr(b'"', &text[from..]) {
        let quote = from + len;
        if !ends_with(b'\\', &text[from..quote]) {
            return Some((&text[..quote], &text[quote + 1..]));
        }
        from = quote + 1;
    }
    None
}

/// The value between `="` and a closing quote, if one begins here, and what follows.
fn take_value(text: &[u8]) -> Option<(Option<&[u8]>, &[u8])>
    ensures { option_map value_taken result ≡ split_value text.now }
{
    match text {
        [b'=', b'"', quoted @ ..] => {
            let (value, rest) = split_at_quote(quoted)?;
            Some((Some(value), rest))
        }
        _ => Some((None, text)),
    }
}

/// What follows an item.
#[derive(Clone, Copy)]
pub(crate) enum After<'a> {
    /// A comma; this is the text of the items after it.
    Item(&'a [u8]),
    /// The end of the text, or the blank that ends the options and what follows it.
    End(&'a [u8]),
}

impl<'a> After<'a> {
    /// The text of the items that follow, if there are any.
    pub(crate) fn item(self) -> Option<&'a [u8]>
        ensures { option_copied result ≡ item_text self.entry }
    {
        match self {
            After::Item(text) => Some(text),
            After::End(_) => None,
        }
    }
}

/// What follows an item. `None` where an item may not end here.
fn after_item(text: &[u8]) -> Option<After<'_>>
    ensures { option_map after_now result ≡ after_item text.now }
{
    match text {
        [] => Some(After::End(text)),
        [b',', rest @ ..] => Some(After::Item(rest)),
        [byte, ..] if is_blank(*byte) => Some(After::End(text)),
        _ => None,
    }
}

/// The first item of the options at the front of a text, and what follows it, if the item has the
/// right form. The options end at the first blank outside quotes.
#[tactic(auto, using(crate::proofs::FrontLemmas::first_front))]
pub(crate) fn take_item(text: &[u8]) -> Option<(ItemText<'_>, After<'_>)>
    ensures item { option_map item_taken result ≡ first_item (front_items text.now) }
    ensures rest { IfSome result (λ parts. after_options text.now ≡ rest_following (after_now parts.1)) }
{
    let (name, rest) = text.split_at(name_len(text));
    if name.is_empty() {
        return None;
    }
    let (value, rest) = take_value(rest)?;
    let after = after_item(rest)?;
    Some((ItemText { name, value }, after))
}

pub(crate) fn begins_with_quote(text: &[u8]) -> bool
    ensures { result ≡ begins_with_quote text.now }
{
    match text {
        [first, ..] => *first == b'"',
        [] => false,
    }
}

/// The bytes between quotes, with a quote for each `\"`. Fails only when memory cannot be
/// allocated.
pub(crate) fn unescape(alloc: Global, quoted: &[u8]) -> Result<Bytes, AllocError>
    ensures value { IfOk result (λ value. value ≡ unescaped quoted.now) }
    ensures spare { length quoted.now ≡ 0 → IsOk result }
{
    let mut value = Vec::with_capacity(alloc, quoted.len())?;
    for (i, byte) in quoted.iter().enumerate() {
        if *byte == b'\\' && begins_with_quote(&quoted[i + 1..]) {
            continue;
        }
        value.push(*byte)?;
    }
    Ok(Bytes::new(value))
}

/// The first error of a line: its length is tested first, then its options, then its key. L14 to
/// L16 occur on known_hosts lines only.
#[derive(Debug, Clone, Copy, PartialEq, Eq, Error)]
pub enum LineCause {
    /// L1: more than 65,536 bytes.
    #[error("the line is too long")]
    TooLong,
    /// L2: the option text is not a list of names and quoted values.
    #[error("the options are no list of names and quoted values")]
    OptionSyntax,
    /// L3: a name that sshd(8) does not list. An option that is not understood must not be skipped.
    #[error("an option is not known")]
    UnknownOption,
    /// L4: a flag with a value, or another option without one.
    #[error("an option has a value that it may not have, or lacks one")]
    OptionValue,
    /// L5: a second `command`, `from` or `principals`.
    #[error("an option stands twice that may stand once")]
    RepeatedOption,
    /// L6: an expiry time of another form, or a date or a time of day that does not exist.
    #[error("the text of an expiry time is not a time")]
    ExpiryText,
    /// L7: no key type, or no base64 field after it.
    #[error("the key type or the key is missing")]
    NoKey,
    /// L8: a word that is not the name of a key type.
    #[error("the key type is not known")]
    KeyType,
    /// L9: the type of DSA keys.
    #[error("the key type is retired")]
    RetiredType,
    /// L10: the key field is not the canonical base64 text of any bytes.
    #[error("the key is not in canonical base64")]
    Base64,
    /// L11: the bytes are not the blob of a key.
    #[error("{0}")]
    KeyBlob(KeyError),
    /// L12: the key in the blob is of another type than the field before it.
    #[error("the key is of another type")]
    TypeMismatch,
    /// L13: a certificate's type, which is not allowed on a line.
    #[error("the key type is a certificate's")]
    CertificateOnLine,
    /// L14: the first word begins with `@` and is neither `@cert-authority` nor `@revoked`.
    #[error("the marker is not known")]
    Marker,
    /// L15: the names begin with `|` and are not a hashed name: `|1|`, a salt and a hash of 20
    /// bytes each in base64, with `|` between them.
    #[error("a name that begins with | is not a hashed name")]
    HashedName,
    /// L16: an item of the list of names is empty.
    #[error("an item among the names is empty")]
    Names,
}

/// Which of the options that may appear only once have been read. It replaces a list of all options
/// before an item, so that a line is checked without memory.
#[derive(Clone, Copy)]
pub(crate) struct Seen {
    command: bool,
    from: bool,
    principals: bool,
}

impl Seen {
    ghost use Rattle.ssh_options.specs.OptionsInPlace.{none_seen, stood, with_name};

    /// No option has been read.
    fn new() -> Seen
        ensures { result ≡ none_seen }
    {
        Seen {
            command: false,
            from: false,
            principals: false,
        }
    }

    /// An option of this name may appear only once, and has been read.
    fn stood(self, name: ValueName) -> bool
        ensures { result ≡ stood self name }
    {
        match name {
            ValueName::Command => self.command,
            ValueName::From => self.from,
            ValueName::Principals => self.principals,
            _ => false,
        }
    }

    /// The state after an option of this name.
    fn with(self, name: ValueName) -> Seen
        ensures { result ≡ with_name self name }
    {
        Seen {
            command: self.command || name == ValueName::Command,
            from: self.from || name == ValueName::From,
            principals: self.principals || name == ValueName::Principals,
        }
    }
}

/// The state after one more option, if the option may follow those before it.
fn and_seen(before: Seen, option: &OptionView<'_>) -> Result<Seen, LineCause>
    ensures { result ≡ and_seen before (option_in_line option.now) }
{
    let OptionView::Setting(name, value) = option else {
        return Ok(before);
    };
    if before.stood(*name) {
        return Err(LineCause::RepeatedOption);
    }
    if *name == ValueName::ExpiryTime && !value.is_expiry_text() {
        return Err(LineCause::ExpiryText);
    }
    Ok(before.with(*name))
}

fn with_item(before: Seen, item: ItemText<'_>) -> Result<Seen, LineCause>
    ensures { result ≡ and_read_seen before (option_of (plain_item item.entry)) }
{
    match view_option(item) {
        Ok(option) => and_seen(before, &option),
        Err(fault) => Err(fault),
    }
}

/// The state after one more item, or the first error so far.
fn and_item(so_far: Result<Seen, LineCause>, item: ItemText<'_>) -> Result<Seen, LineCause>
    ensures { result ≡ and_item_seen so_far (plain_item item.entry) }
{
    match so_far {
        Ok(before) => with_item(before, item),
        Err(cause) => Err(cause),
    }
}

/// What follows the last item, or the first error of the items.
fn after_last<'a>(so_far: Result<Seen, LineCause>, rest: &'a [u8]) -> Result<&'a [u8], LineCause>
    ensures fault { fault_in result ≡ fault_in so_far }
    ensures rest { IfOk result (λ kept. kept.now ≡ rest.now) }
{
    match so_far {
        Ok(_) => Ok(rest),
        Err(first) => Err(first),
    }
}

/// What follows the options at the front of a text, or their first error: a wrong form of the whole
/// text, or else the first error of the items from the left.
#[tactic(auto, using(crate::proofs::SeenLemmas::fault_from_all))]
pub(crate) fn after_options(text: &[u8]) -> Result<&[u8], LineCause>
    ensures fault { fault_in result ≡ fault_in (options_of (option_text_of false 0 text.now)) }
    ensures rest { IfOk result (λ rest. rest.now ≡ after_options text.now) }
{
    let mut so_far = Ok(Seen::new());
    let mut left = text;
    while let Some((item, after)) = take_item(left) {
        so_far = and_item(so_far, item);
        match after {
            After::Item(next) => left = next,
            After::End(rest) => return after_last(so_far, rest),
        }
    }
    // Also for an empty item: sshd(8) does not list one, so it is not skipped.
    Err(LineCause::OptionSyntax)
}
