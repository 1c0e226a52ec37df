//! The options of a line that say whom it admits, and which command it forces, found in one walk.

ghost use Rattle.std.specs.Prelude.{◌≡◌, ◌||◌, [], ◌∷◌, Some, is_some};
ghost use Rattle.std.specs.Option.{option_or};
ghost use Rattle.ssh_options.specs.AuthOption.{Setting, Switch};
ghost use Rattle.ssh_options.specs.LineOptions.{noted_after};
ghost use Rattle.ssh_options.specs.OptionsInLine.{option_in_line};
ghost use Rattle.ssh_options.specs.Settings.{has_flag, setting};
ghost use Rattle.ssh_options.specs.declared.option.Flag.TheVariants.{CertAuthority, NoTouchRequired, VerifyRequired};
ghost use Rattle.ssh_options.specs.declared.option.ValueName.TheVariants.{Command, ExpiryTime, From, Principals};

use crate::option::{Flag, ValueName};
use crate::options_view::{OptionView, OptionsView};
use crate::value_view::ValueView;

/// The options of a line that most questions ask for. To look for each of them by itself would read
/// all options each time.
#[derive(Debug, Drop)]
pub struct LineOptions<'a> {
    /// `cert-authority` is present.
    pub authority: bool,
    /// `no-touch-required` is present.
    pub no_touch_required: bool,
    /// `verify-required` is present.
    pub verify_required: bool,
    /// The value of the first `from`.
    pub from: Option<ValueView<'a>>,
    /// The value of the first `principals`.
    pub principals: Option<ValueView<'a>>,
    /// The value of the first `command`.
    pub command: Option<ValueView<'a>>,
    /// There is an `expiry-time`.
    pub expires: bool,
}

/// Stores a value, unless an earlier one is stored.
fn note_first<'a>(noted: &mut Option<ValueView<'a>>, value: ValueView<'a>)
    ensures { noted.new ≡ option_or noted.old (Some value.entry) }
{
    if noted.is_none() {
        *noted = Some(value);
    }
}

/// Whether a flag was found before, or is this one.
fn found_or_is(found: bool, wanted: Flag, flag: Flag) -> bool
    ensures { result ≡ (found || has_flag wanted (Switch flag ∷ [])) }
{
    found || flag == wanted
}

impl<'a> LineOptions<'a> {
    fn note_flag(&mut self, flag: Flag)
        ensures { self.new ≡ noted_after self.old (Switch flag ∷ []) }
    {
        self.authority = found_or_is(self.authority, Flag::CertAuthority, flag);
        self.no_touch_required = found_or_is(self.no_touch_required, Flag::NoTouchRequired, flag);
        self.verify_required = found_or_is(self.verify_required, Flag::VerifyRequired, flag);
    }

    fn note_setting(&mut self, name: ValueName, value: ValueView<'a>)
        ensures { self.new ≡ noted_after self.old (Setting name value.entry ∷ []) }
    {
        match name {
            ValueName::From => note_first(&mut self.from, value),
            ValueName::Principals => note_first(&mut self.principals, value),
            ValueName::Command => note_first(&mut self.command, value),
            ValueName::ExpiryTime => self.expires = true,
            _ => {}
        }
    }

    /// Takes the next option into account.
    fn note(&mut self, option: OptionView<'a>)
        ensures { self.new ≡ noted_after self.old (option_in_line option.entry ∷ []) }
    {
        match option {
            OptionView::Switch(flag) => self.note_flag(flag),
            OptionView::Setting(name, value) => self.note_setting(name, value),
        }
    }

    /// Finds them among the options of a line. Nothing is allocated.
    #[tactic(auto, using(crate::proofs::LineOptionLemmas::noted_one))]
    pub fn of(options: OptionsView<'a>) -> LineOptions<'a>
        ensures authority { result.authority ≡ has_flag CertAuthority options.entry }
        ensures touch { result.no_touch_required ≡ has_flag NoTouchRequired options.entry }
        ensures verify { result.verify_required ≡ has_flag VerifyRequired options.entry }
        ensures from { result.from ≡ setting From options.entry }
        ensures principals { result.principals ≡ setting Principals options.entry }
        ensures command { result.command ≡ setting Command options.entry }
        ensures expires { result.expires ≡ is_some (setting ExpiryTime options.entry) }
    {
        let mut noted = LineOptions {
            authority: false,
            no_touch_required: false,
            verify_required: false,
            from: None,
            principals: None,
            command: None,
            expires: false,
        };
        for option in options {
            noted.note(option);
        }
        noted
    }
}
