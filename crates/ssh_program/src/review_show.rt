//! What of a review is shown: the value of `--show`.

ghost use Rattle.std.specs.Prelude.{◌≡◌};
ghost use Rattle.ssh_program.specs.ArgsView.{Spells, rows_in};
ghost use Rattle.ssh_program.specs.ReviewShows.{show_asked, show_of};

use crate::args::{ArgName, Args};
use crate::command::CommandError;
use ssh_review::Show;

/// What is shown, by its name in `--show`.
fn read_show(word: &str) -> Option<Show>
    ensures { result ≡ show_of word.now }
{
    if word == "all" {
        Some(Show::All)
    } else if word == "found" {
        Some(Show::Found)
    } else if word == "totals" {
        Some(Show::Totals)
    } else {
        None
    }
}

/// What of a review is shown: all where the option is not given. With `--key` it is not to be given,
/// since then the records of that key are wanted.
pub fn show_asked(words: &Args<'_>) -> Result<Show, CommandError>
    ensures { Spells (λ show. show) (show_asked (rows_in words.now)) result }
{
    match (words.given(ArgName::Show), words.given(ArgName::Key)) {
        (None, _) => Ok(Show::All),
        (Some(_), Some(_)) => Err(CommandError::Usage),
        (Some(word), None) => ArgName::Show.or_fault(read_show(word)),
    }
}
