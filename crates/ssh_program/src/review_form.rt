//! How the answer to `review` is printed: as lines of an output format, or as a page.

ghost use Rattle.std.specs.Prelude.{◌≡◌, option_map};
ghost use Rattle.ssh_review.specs.declared.end.Form.TheVariants.{Text};
ghost use Rattle.ssh_program.specs.ArgsView.{Spells, rows_in};
ghost use Rattle.ssh_program.specs.ReviewForms.{asks_page, form_of, form_seen, is_page, lines_form, lines_shown, page_form, review_form, title_or};
ghost use Rattle.ssh_program.specs.Spelling.{given, value_or};
ghost use Rattle.ssh_program.specs.declared.args.ArgName.TheVariants as option;

use crate::args::{ArgName, Args};
use crate::command::CommandError;
use crate::review::{ReviewKind, file_kind};
use crate::review_show::show_asked;
use ssh_review::{Form, Show};

/// How the answer is printed.
#[derive(Clone, Copy, Debug, PartialEq, Eq)]
pub enum ReviewForm<'a> {
    /// As lines of an output format, of which this is shown.
    Lines(Show, Form),
    /// As a page with this title.
    Page(&'a str),
}

fn is_page(word: Option<&str>) -> bool
    ensures { result ≡ is_page (option_map (λ w. w.now) word.entry) }
{
    match word {
        Some(word) => word == "html",
        None => false,
    }
}

fn asks_page(words: &Args<'_>) -> bool
    ensures { result ≡ asks_page (rows_in words.now) }
{
    is_page(words.given(ArgName::Form))
}

/// The title of the page: the one that is given, else what the files of this format are reviewed for.
fn title_or<'a>(kind: ReviewKind, title: Option<&'a str>) -> &'a str
    ensures { result.now ≡ title_or kind (option_map (λ t. t.now) title.entry) }
{
    match (title, kind) {
        (Some(title), _) => title,
        (None, ReviewKind::Auth) => "Access review of SSH keys",
        (None, ReviewKind::Known) => "Review of trusted SSH host keys",
    }
}

/// A page tells of all keys, and shows all of each: with `--key` or `--show` there is none.
fn page_form<'a>(words: &Args<'a>, kind: ReviewKind) -> Result<ReviewForm<'a>, CommandError>
    ensures { Spells form_seen (page_form kind (rows_in words.now)) result }
{
    match (words.given(ArgName::Key), words.given(ArgName::Show)) {
        (None, None) => Ok(ReviewForm::Page(title_or(kind, words.given(ArgName::Title)))),
        _ => Err(CommandError::Usage),
    }
}

/// The output format for files of this kind, by its name in `--form`.
fn read_form(kind: ReviewKind, word: &str) -> Option<Form>
    ensures { result ≡ form_of kind word.now }
{
    if word == "text" {
        Some(Form::Text)
    } else if word == "json" {
        Some(Form::Json)
    } else if word == "line" {
        Some(Form::Line(file_kind(kind)))
    } else {
        None
    }
}

/// The output format: text where the option is not given.
fn form(words: &Args<'_>, kind: ReviewKind) -> Result<Form, CommandError>
    ensures { Spells (λ f. f) (value_or Text (form_of kind) option.Form (rows_in words.now)) result }
{
    let read = match words.given(ArgName::Form) {
        None => Some(Form::Text),
        Some(word) => read_form(kind, word),
    };
    ArgName::Form.or_fault(read)
}

/// The output format, and what of the lines is shown.
fn lines_shown<'a>(words: &Args<'a>, kind: ReviewKind) -> Result<ReviewForm<'a>, CommandError>
    ensures { Spells form_seen (lines_shown kind (rows_in words.now)) result }
{
    let form = form(words, kind)?;
    let show = show_asked(words)?;
    Ok(ReviewForm::Lines(show, form))
}

/// Lines have no title.
fn lines_form<'a>(words: &Args<'a>, kind: ReviewKind) -> Result<ReviewForm<'a>, CommandError>
    ensures { Spells form_seen (lines_form kind (rows_in words.now)) result }
{
    match words.given(ArgName::Title) {
        None => lines_shown(words, kind),
        Some(_) => Err(CommandError::Usage),
    }
}

/// How the answer about files of this format is printed: as text where no option says it.
pub fn review_form<'a>(words: &Args<'a>, kind: ReviewKind) -> Result<ReviewForm<'a>, CommandError>
    ensures { Spells form_seen (review_form kind (rows_in words.now)) result }
{
    if asks_page(words) {
        page_form(words, kind)
    } else {
        lines_form(words, kind)
    }
}
