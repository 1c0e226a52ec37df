//! `AuthLineView` and `AuthEntryView`: a line of an authorized_keys file, read in place.

ghost use Rattle.std.specs.Prelude.{◌≡◌, ◌≤◌, List, length, IfOk, IfErr, ◌↔◌, IsTrue};
ghost use Rattle.ssh_entries.specs.Front.{front_of, front_seen};
ghost use Rattle.ssh_entries.specs.KeyText.{base64_field, comment_field, type_field};
ghost use Rattle.ssh_text.specs.Text.{after_word, first_word, next_field};
ghost use Rattle.base64.specs.Decode.{decoded_estimate};
ghost use Rattle.ssh_entries.specs.AuthGrammar.{entry_of, entry_of_key, entry_with_options, SpellsEntry, auth_line};
ghost use Rattle.ssh_entries.specs.KeyPart.{key_of_class, key_part_of};
ghost use Rattle.ssh_entries.specs.EntryFields.{entry_of_fields};
ghost use Rattle.ssh_entries.specs.LineView.{SaysView, line_seen};
ghost use Rattle.ssh_entries.specs.declared.auth_line.AuthLine.TheVariants.{Unreadable};
ghost use Rattle.ssh_keys.specs.KeyOf.{key_of};
ghost use Rattle.ssh_keys.specs.PublicKey.{key_blob};
ghost use Rattle.ssh_entries.specs.Names.{base64};
ghost use Rattle.ssh_options.specs.declared.option.ValueName.TheVariants.{ExpiryTime};
ghost use Rattle.ssh_options.specs.Settings.{has_flag, settings};
ghost use Rattle.ssh_entries.specs.SameEntries.{are_same_entries};
ghost use Rattle.ssh_entries.specs.AuthEntry.{AuthEntry};
ghost use Rattle.ssh_entries.specs.declared.auth_line.AuthLine.{AuthLine};
ghost use Rattle.ssh_options.specs.declared.option_text.LineCause.{LineCause};
ghost use Rattle.ssh_entries.specs.AuthFaults.{IsAuthFault};
ghost use Rattle.ssh_entries.specs.KeyLimit.{key_limit};

use crate::key_view::{Decoder, KeyBuffer, KeyPartView, key_of_kind, kind_of_class, split_type};
use ssh_keys::{KeyKind, KeyView, NameClass};
use ssh_options::{Flag, LineCause, OptionsView, SettingViews, ValueName};
use ssh_text::{LINE_LIMIT, comment_in, skip_blanks, split_word, without_last};
use std::marker::Model;

/// The sort of a line, by its length and its first byte.
#[derive(Drop)]
pub(crate) enum Front<'a> {
    TooLong,
    Blank,
    Comment,
    /// The fields, from the first one on and without a CR at the end.
    Fields(&'a [u8]),
}

/// The sort of a line. Its length is tested first, so a comment may be too long as well.
pub(crate) fn front_of(line: &[u8]) -> Front<'_>
    ensures { front_seen result ≡ front_of line.now }
{
    if line.len() > LINE_LIMIT {
        return Front::TooLong;
    }
    let body = skip_blanks(without_last(b'\r', line));
    match body {
        [] => Front::Blank,
        [b'#', ..] => Front::Comment,
        _ => Front::Fields(body),
    }
}

/// The fields of a line that has no options, as slices of it; a missing field is empty.
#[derive(Clone, Copy, Debug, PartialEq, Eq)]
pub struct KeyText<'a> {
    pub type_name: &'a [u8],
    pub base64: &'a [u8],
    pub comment: &'a [u8],
}

/// The type and the base64 at the front of a text, and the rest.
pub(crate) fn split_fields(text: &[u8]) -> (&[u8], &[u8], &[u8])
    ensures type_name { result.0.now ≡ first_word text.now }
    ensures base64 { result.1.now ≡ first_word (next_field text.now) }
    ensures rest { result.2.now ≡ after_word (next_field text.now) }
{
    let (type_name, after) = split_word(text);
    let (base64, rest) = split_word(skip_blanks(after));
    (type_name, base64, rest)
}

/// The type, the base64 and the comment of a line of any length, such as that of a public key file
/// (sshd(8)). Blanks in front and one CR at the end are ignored, and the comment ends before the
/// spaces, tabs and CRs at the end. The fields are not checked.
pub fn key_text(line: &[u8]) -> KeyText<'_>
    ensures type_name { result.type_name.now ≡ type_field line.now }
    ensures base64 { result.base64.now ≡ base64_field line.now }
    ensures comment { result.comment.now ≡ comment_field line.now }
{
    let (type_name, base64, rest) = split_fields(skip_blanks(without_last(b'\r', line)));
    KeyText {
        type_name,
        base64,
        comment: comment_in(rest),
    }
}

/// The options, the kind of key that the type field names, and the text from the base64 on.
#[derive(Drop)]
pub(crate) struct EntryFields<'a> {
    options: OptionsView<'a>,
    kind: KeyKind,
    pub(crate) text: &'a [u8],
}

/// The fields, by the options, the class of the type field, and the text after it.
#[tactic(auto, using(crate::proofs::LengthLemmas::length_skip, crate::proofs::FieldLemmas::no_field))]
fn fields_of_class<'a>(
    options: OptionsView<'a>,
    class: NameClass,
    type_name: &[u8],
    after: &'a [u8],
) -> Result<EntryFields<'a>, LineCause>
    ensures ok { IfOk result (λ f. entry_of_fields f
        ≡ entry_of_key options.entry (key_of_class class type_name.now after.entry.now)) }
    ensures room { IfOk result (λ f. length f.text.now ≤ length after.entry.now) }
    ensures err { IfErr result (λ cause.
        entry_of_key options.entry (key_of_class class type_name.now after.entry.now)
        ≡ Unreadable cause) }
{
    let text = skip_blanks(after);
    if type_name.is_empty() || text.is_empty() {
        return Err(LineCause::NoKey);
    }
    let kind = kind_of_class(class)?;
    Ok(EntryFields {
        options,
        kind,
        text,
    })
}

/// The fields, by the options and the text from the type field on.
#[tactic(auto, unfolding(crate::specs::KeyPart::key_part_of), using(crate::proofs::LengthLemmas::length_after))]
fn fields_with<'a>(options: OptionsView<'a>, text: &'a [u8]) -> Result<EntryFields<'a>, LineCause>
    ensures ok { IfOk result (λ f. entry_of_fields f
        ≡ entry_of_key options.entry (key_part_of text.entry.now)) }
    ensures room { IfOk result (λ f. length f.text.now ≤ length text.entry.now) }
    ensures err { IfErr result (λ cause. entry_of_key options.entry (key_part_of text.entry.now)
        ≡ Unreadable cause) }
{
    let (class, type_name, after) = split_type(text);
    fields_of_class(options, class, type_name, after)
}

/// The fields of a text that begins with options.
fn fields_after_options<'a>(body: &'a [u8]) -> Result<EntryFields<'a>, LineCause>
    ensures ok { IfOk result (λ f. entry_of_fields f ≡ entry_with_options body.entry.now) }
    ensures room { IfOk result (λ f. length f.text.now ≤ length body.entry.now) }
    ensures err { IfErr result (λ cause. entry_with_options body.entry.now ≡ Unreadable cause) }
{
    let (options, rest) = OptionsView::take(body)?;
    fields_with(options, skip_blanks(rest))
}

impl<'a> EntryFields<'a> {
    /// The fields of a line that is neither blank nor a comment, without the blanks at its front.
    pub(crate) fn read(body: &'a [u8]) -> Result<EntryFields<'a>, LineCause>
        ensures ok { IfOk result (λ f. entry_of_fields f ≡ entry_of body.entry.now) }
        ensures room { IfOk result (λ f. length f.text.now ≤ length body.entry.now) }
        ensures err { IfErr result (λ cause. entry_of body.entry.now ≡ Unreadable cause) }
    {
        let (class, type_name, after) = split_type(body);
        match class {
            NameClass::Other => fields_after_options(body),
            _ => fields_of_class(OptionsView::none(), class, type_name, after),
        }
    }

    /// The entry, with its key decoded into the buffer.
    pub(crate) fn view(
        self,
        decoder: &Decoder,
        buffer: &'a mut [u8],
    ) -> Result<AuthEntryView<'a>, LineCause>
        requires { decoded_estimate (length self.text.now) ≤ length buffer.old }
        ensures { SaysView result (entry_of_fields self.entry) }
    {
        let part = key_of_kind(self.kind, self.text, decoder, buffer)?;
        Ok(AuthEntryView::new(self.options, part))
    }
}

/// A key that may log in, with its options and comment, as a view of its line. Contracts see the
/// entry.
#[derive(Debug, Drop)]
pub struct AuthEntryView<'a> {
    options: OptionsView<'a>,
    part: KeyPartView<'a>,
}

impl<'a> Model for AuthEntryView<'a> {
    ghost use Rattle.ssh_entries.specs.AuthEntry.{AuthEntry};

    ghost Value = { AuthEntry };

    ghost view = { λ v.
        record { options = v.options; key = v.part.key; comment = v.part.comment } };
}

impl<'a> AuthEntryView<'a> {
    /// Joins options with a key and its comment.
    pub(crate) fn new(options: OptionsView<'a>, part: KeyPartView<'a>) -> AuthEntryView<'a>
        ensures options { result.options ≡ options.entry }
        ensures key { result.key ≡ part.entry.key }
        ensures comment { result.comment ≡ part.entry.comment }
    {
        AuthEntryView { options, part }
    }

    /// The options, in the order of the line.
    pub fn options(&self) -> OptionsView<'a>
        ensures { result ≡ self.now.options }
    {
        self.options.again()
    }

    /// The key, read again from its blob.
    pub fn key(&self) -> KeyView<'a>
        ensures { key_of result ≡ self.now.key }
    {
        self.part.key()
    }

    /// The key's blob, which lies in the buffer that the line was read with.
    pub fn blob(&self) -> &'a [u8]
        ensures { result.now ≡ key_blob self.now.key }
    {
        self.part.blob()
    }

    /// The comment, without the blanks and CRs at its end; empty where there is none.
    pub fn comment(&self) -> &'a [u8]
        ensures { result.now ≡ self.now.comment }
    {
        self.part.comment()
    }

    /// The base64 of the key's blob as it is on the line, and the comment after it.
    pub fn base64_and_comment(&self) -> (&'a [u8], &'a [u8])
        ensures base64 { result.0.now ≡ base64 (key_blob self.now.key) }
        ensures comment { result.1.now ≡ self.now.comment }
    {
        self.part.base64_and_comment()
    }

    /// Whether this is the blob of the key.
    pub fn has_blob(&self, blob: &[u8]) -> bool
        ensures { IsTrue result ↔ (blob.now ≡ key_blob self.now.key) }
    {
        blob == self.blob()
    }

    /// Whether the flag is among the options.
    pub fn has_flag(&self, flag: Flag) -> bool
        ensures { result ≡ has_flag flag self.now.options }
    {
        self.options.has_flag(flag)
    }

    /// The values of the option with this name, in the order of the line.
    pub fn settings(&self, name: ValueName) -> SettingViews<'a>
        ensures { result ≡ settings name self.now.options }
    {
        self.options.settings(name)
    }

    /// The texts of the `expiry-time` options, in the order of the line.
    pub fn expiry_texts(&self) -> SettingViews<'a>
        ensures { result ≡ settings ExpiryTime self.now.options }
    {
        self.settings(ValueName::ExpiryTime)
    }
}

/// Entries are equal exactly where their options, keys and comments are.
impl PartialEq for AuthEntryView<'_> {
    ghost use Rattle.std.specs.Cmp.{partial_equiv_from_equiv};
    ghost use Rattle.ssh_entries.specs.SameEntries.{are_same_entries};
    ghost use Rattle.ssh_entries.specs.SameLaws.{entries_equiv};

    ghost eq = { are_same_entries };

    ghost laws = { partial_equiv_from_equiv entries_equiv };

    fn eq(&self, other: &Self) -> bool
        ensures value { result ≡ are_same_entries self.now other.now }
        ensures same { IsTrue result ↔ (self.now ≡ other.now) }
    {
        self.options == other.options
            && self.key() == other.key()
            && self.comment() == other.comment()
    }
}

impl Eq for AuthEntryView<'_> {
    ghost use Rattle.ssh_entries.specs.SameLaws.{entries_equiv};

    ghost laws = { entries_equiv };
}

/// A line of an authorized_keys file, read in place.
#[derive(Debug, Drop, PartialEq, Eq)]
pub enum AuthLineView<'a> {
    Blank,
    Comment,
    Entry(AuthEntryView<'a>),
    Unreadable(LineCause),
}

/// The entry of a line that is neither blank nor a comment, by its text from the first field on.
fn view_entry<'a>(
    body: &'a [u8],
    decoder: &Decoder,
    buffer: &'a mut [u8],
) -> Result<AuthEntryView<'a>, LineCause>
    requires { decoded_estimate (length body.now) ≤ length buffer.old }
    ensures { SaysView result (entry_of body.entry.now) }
{
    EntryFields::read(body)?.view(decoder, buffer)
}

#[tactic(auto, unfolding(crate::specs::AuthGrammar::auth_line))]
fn view_line<'a>(line: &'a [u8], decoder: &Decoder, buffer: &'a mut [u8]) -> AuthLineView<'a>
    requires { length buffer.old ≡ key_limit }
    ensures { line_seen result ≡ auth_line line.entry.now }
{
    match front_of(line) {
        Front::TooLong => AuthLineView::Unreadable(LineCause::TooLong),
        Front::Blank => AuthLineView::Blank,
        Front::Comment => AuthLineView::Comment,
        Front::Fields(body) => match view_entry(body, decoder, buffer) {
            Ok(entry) => AuthLineView::Entry(entry),
            Err(cause) => AuthLineView::Unreadable(cause),
        },
    }
}

/// Reads a line of an authorized_keys file (sshd(8), AUTHORIZED_KEYS FILE FORMAT) in place, given
/// without its LF. One CR at its end is ignored. The key is decoded into the buffer. A line of more
/// than 65,536 bytes is unreadable as `TooLong`, any other for its first fault. No memory is
/// allocated.
pub fn read_auth_view<'a>(line: &'a [u8], buffer: &'a mut KeyBuffer) -> AuthLineView<'a>
    // An entry that is read is one that the line spells.
    ensures found { (entry : AuthEntry)
        → line_seen result ≡ AuthLine.Entry entry
        → SpellsEntry entry line.entry.now }
    // An entry that the line spells is the one that is read.
    ensures only { (entry : AuthEntry)
        → SpellsEntry entry line.entry.now
        → line_seen result ≡ AuthLine.Entry entry }
    // A line that is reported as unreadable has that fault, and none that is tested before it.
    ensures fault { (cause : LineCause)
        → line_seen result ≡ AuthLine.Unreadable cause
        → IsAuthFault cause line.entry.now }
    // Otherwise the line is blank, a comment, or has this first fault.
    ensures exact { line_seen result ≡ auth_line line.entry.now }
{
    let KeyBuffer { decoder, room } = buffer;
    view_line(line, decoder, room.as_mut_slice())
}
