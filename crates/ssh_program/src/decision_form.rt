//! The output format of the answers to `admits` and `trusts`, which tell decisions.

ghost use Rattle.std.specs.Prelude.{◌≡◌};
ghost use Rattle.ssh_program.specs.ArgsView.{Spells, rows_in};
ghost use Rattle.ssh_program.specs.DecisionForms.{decision_form_of};
ghost use Rattle.ssh_program.specs.Spelling.{value_or};
ghost use Rattle.ssh_program.specs.declared.args.ArgName.TheVariants as option;
ghost use Rattle.ssh_program.specs.declared.decision_form.DecisionForm.TheVariants.{Text};

use crate::args::{ArgName, Args};
use crate::command::CommandError;

/// The output format of an answer that tells decisions.
#[derive(Clone, Copy, Debug, PartialEq, Eq)]
pub enum DecisionForm {
    /// Lines of text for people.
    Text,
    /// JSON lines for programs: one object on each line.
    Json,
}

/// The format by its name in `--form`.
fn read_decision_form(word: &str) -> Option<DecisionForm>
    ensures { result ≡ decision_form_of word.now }
{
    if word == "text" {
        Some(DecisionForm::Text)
    } else if word == "json" {
        Some(DecisionForm::Json)
    } else {
        None
    }
}

/// The format that the options ask for: text where `--form` is not given.
pub fn decision_form(words: &Args<'_>) -> Result<DecisionForm, CommandError>
    ensures { Spells (λ f. f) (value_or Text decision_form_of option.Form (rows_in words.now)) result }
{
    let read = match words.given(ArgName::Form) {
        None => Some(DecisionForm::Text),
        Some(word) => read_decision_form(word),
    };
    ArgName::Form.or_fault(read)
}
