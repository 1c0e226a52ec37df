//! The options at the front of an authorized_keys line, read in place.

ghost use Rattle.std.specs.Prelude.{◌≡◌, ◌↔◌, [], List, IfOk, IsTrue, drop, false, length, option_map};
ghost use Rattle.ssh_wire.specs.Reading.{Gives};
ghost use Rattle.ssh_options.specs.OptionText.{option_name, option_of, option_text_of, options_of};
ghost use Rattle.ssh_options.specs.OptionTexts.{plain_item, front_items};
ghost use Rattle.ssh_options.specs.OptionsInLine.{option_in_line, option_taken, first_option};
ghost use Rattle.std.specs.Iterator.{YieldsFirst, YieldsFirstBy, item_count};
ghost use Rattle.ssh_options.specs.SameOptions.{are_same_options};
ghost use Rattle.ssh_options.specs.Settings.{has_flag, settings};

use crate::option::{Flag, LineOption, ValueName, option_named};
use crate::option_text::{After, ItemText, LineCause, after_options, take_item};
use crate::value_view::ValueView;
use std::marker::Model;

/// An option of an authorized_keys line. A value refers to the bytes of the line.
#[derive(Debug, Drop, PartialEq, Eq)]
pub enum OptionView<'a> {
    Switch(Flag),
    Setting(ValueName, ValueView<'a>),
}

/// The option of an item. Its name must be listed, and it must have a value exactly if it is not a
/// flag.
pub(crate) fn view_option(item: ItemText<'_>) -> Result<OptionView<'_>, LineCause>
    ensures { Gives option_in_line result (option_of (plain_item item.entry)) }
{
    match (option_named(item.name), item.value) {
        (None, _) => Err(LineCause::UnknownOption),
        (Some(LineOption::Switch(flag)), None) => Ok(OptionView::Switch(flag)),
        (Some(LineOption::Setting(name)), Some(quoted)) => {
            Ok(OptionView::Setting(name, ValueView::new(quoted)))
        }
        _ => Err(LineCause::OptionValue),
    }
}

impl OptionView<'_> {
    /// The name as sshd(8) writes it, whatever case the line has.
    pub fn name(&self) -> &'static [u8]
        ensures { result.now ≡ option_name (option_in_line self.now) }
    {
        match self {
            OptionView::Switch(flag) => flag.name(),
            OptionView::Setting(name, _) => name.name(),
        }
    }
}

/// The options that have not been read yet, at the front of the rest of the line. Contracts see
/// them as a list of options.
#[derive(Debug, Drop)]
pub struct OptionsView<'a> {
    rest: Option<&'a [u8]>,
}

impl<'a> Model for OptionsView<'a> {
    ghost use Rattle.std.specs.Prelude.{List, Some, option_copied, ◌≡◌};
    ghost use Rattle.ssh_options.specs.AuthOption.{AuthOption};
    ghost use Rattle.ssh_options.specs.OptionTexts.{texts_left};
    ghost use Rattle.ssh_options.specs.OptionsInLine.{each_option, options_in};

    ghost Value = { List AuthOption };

    ghost view = { λ o. options_in (texts_left (option_copied o.rest)) };

    ghost invariant = { λ o.
        each_option (texts_left (option_copied o.rest))
        ≡ Some (options_in (texts_left (option_copied o.rest))) };
}

/// The first option at the front of a text, and what follows it, if its item is an option.
fn take_option(text: &[u8]) -> Option<(OptionView<'_>, After<'_>)>
    ensures { option_map option_taken result ≡ first_option (front_items text.now) }
{
    let (item, after) = take_item(text)?;
    match view_option(item) {
        Ok(option) => Some((option, after)),
        Err(_) => None,
    }
}

impl<'a> OptionsView<'a> {
    /// No options, as for a line that begins with its key type.
    pub fn none() -> OptionsView<'a>
        ensures { result ≡ [] }
    {
        OptionsView { rest: None }
    }

    /// The options at the front of a text, and what follows them (sshd(8), AUTHORIZED_KEYS FILE
    /// FORMAT). They end at the first blank outside quotes, a space or a tab; a quote right after a
    /// backslash does not count. Or their first error: a wrong form of the whole text, or else the
    /// first error of the items from the left. Nothing is allocated.
    pub fn take(text: &'a [u8]) -> Result<(OptionsView<'a>, &'a [u8]), LineCause>
        ensures options { Gives (λ parts. parts.0) result
            (options_of (option_text_of false 0 text.entry.now)) }
        ensures rest { IfOk result (λ parts. parts.1.now
            ≡ drop (length (option_text_of false 0 text.entry.now)) text.entry.now) }
    {
        let rest = after_options(text)?;
        Ok((OptionsView { rest: Some(text) }, rest))
    }

    /// The same options, to be read again from here.
    pub fn again(&self) -> OptionsView<'a>
        ensures { result ≡ self.now }
    {
        OptionsView { rest: self.rest }
    }

    /// Whether the flag is among the options.
    pub fn has_flag(&self, flag: Flag) -> bool
        ensures { result ≡ has_flag flag self.now }
    {
        has_flag(flag, self.again())
    }

    /// The values of the options with this name, in their order.
    pub fn settings(&self, name: ValueName) -> SettingViews<'a>
        ensures { result ≡ settings name self.now }
    {
        SettingViews {
            name,
            rest: self.again(),
        }
    }
}

impl<'a> Iterator for OptionsView<'a> {
    type Item = OptionView<'a>;

    ghost next_gives = { YieldsFirstBy option_in_line (λ options. options) };

    ghost remaining = { item_count (λ options. options) };

    fn next(&mut self) -> Option<OptionView<'a>> {
        let (option, after) = take_option(self.rest?)?;
        self.rest = after.item();
        Some(option)
    }
}

/// Lists are equal where their options are equal, one by one. A value counts without its escapes.
impl PartialEq for OptionsView<'_> {
    ghost use Rattle.std.specs.Cmp.{decided, partial_equiv_from_equiv};
    ghost use Rattle.ssh_options.specs.SameLaws.{options_decide};
    ghost use Rattle.ssh_options.specs.SameOptions.{are_same_options};

    ghost eq = { are_same_options };

    ghost laws = { partial_equiv_from_equiv (decided are_same_options options_decide) };

    #[tactic(auto, using(crate::specs::SameLaws::options_decide))]
    fn eq(&self, other: &Self) -> bool
        ensures value { result ≡ are_same_options self.now other.now }
        ensures same { IsTrue result ↔ (self.now ≡ other.now) }
    {
        are_same_options(self.again(), other.again())
    }
}

impl Eq for OptionsView<'_> {
    ghost use Rattle.std.specs.Cmp.{decided};
    ghost use Rattle.ssh_options.specs.SameLaws.{options_decide};
    ghost use Rattle.ssh_options.specs.SameOptions.{are_same_options};

    ghost laws = { decided are_same_options options_decide };
}

fn are_same_options(options: OptionsView<'_>, mut others: OptionsView<'_>) -> bool
    ensures { result ≡ are_same_options options.entry others.entry }
{
    for option in options {
        if others.next() != Some(option) {
            return false;
        }
    }
    others.next().is_none()
}

fn has_flag(flag: Flag, options: OptionsView<'_>) -> bool
    ensures { result ≡ has_flag flag options.entry }
{
    for option in options {
        if let OptionView::Switch(other) = option
            && other == flag
        {
            return true;
        }
    }
    false
}

/// The values of the options with one name, in their order. Contracts see the values that have not
/// been read yet.
#[derive(Debug, Drop)]
pub struct SettingViews<'a> {
    name: ValueName,
    rest: OptionsView<'a>,
}

impl<'a> Model for SettingViews<'a> {
    ghost use Rattle.std.specs.Prelude.{List, ℕ};
    ghost use Rattle.ssh_options.specs.Settings.{settings};

    ghost Value = { List (List ℕ) };

    ghost view = { λ s. settings s.name s.rest };
}

impl<'a> Iterator for SettingViews<'a> {
    type Item = ValueView<'a>;

    ghost next_gives = { YieldsFirst (λ values. values) };

    ghost remaining = { item_count (λ values. values) };

    fn next(&mut self) -> Option<ValueView<'a>> {
        while let Some(option) = self.rest.next() {
            if let OptionView::Setting(name, value) = option
                && name == self.name
            {
                return Some(value);
            }
        }
        None
    }
}
