//! What the names of the files of a review are: the value of `--labels`.

ghost use Rattle.std.specs.Prelude.{◌≡◌, IfOk, Option, map, option_map};
ghost use Rattle.std.specs.List.{list_all};
ghost use Rattle.ssh_review.specs.FileNames.{name_seen, shown_name};
ghost use Rattle.ssh_program.specs.ArgsView.{Spells, rows_in};
ghost use Rattle.ssh_program.specs.Namings.{is_named, labelled, names_asked, names_seen, named, naming_asked, naming_of};

use crate::args::{ArgName, Args};
use crate::command::CommandError;
use crate::host_port::cut;
use ssh_review::{FileName, Labels, shown_name};
use ssh_text::Bytes;
use std::alloc::{AllocError, Global};

/// What each name of a file says.
#[derive(Clone, Copy, Debug, PartialEq, Eq)]
pub enum Naming {
    /// The path alone.
    Path,
    /// `HOST<TAB>ACCOUNT<TAB>PATH`.
    Labelled,
}

/// The names of files, as words, and what each of them says.
#[derive(Clone, Copy, Debug)]
pub struct ListedNames<'a> {
    pub words: &'a [&'a str],
    pub naming: Naming,
}

/// Host, account and path of `HOST<TAB>ACCOUNT<TAB>PATH`; the path may have tabs.
pub fn labelled(word: &str) -> Option<FileName<'_>>
    ensures { option_map name_seen result ≡ labelled word.now }
{
    let (host, behind) = cut(word, '\t')?;
    let (account, path) = cut(behind, '\t')?;
    Some(FileName {
        path,
        labels: Some(Labels { host, account }),
    })
}

/// Whether a word has the labels that names are to have.
fn is_named(naming: Naming, word: &str) -> bool
    ensures { result ≡ is_named naming word.now }
{
    match naming {
        Naming::Path => true,
        Naming::Labelled => labelled(word).is_some(),
    }
}

impl Naming {
    /// What this word names. One without the labels that it is to have names a path.
    pub fn name_of<'a>(self, word: &'a str) -> FileName<'a>
        ensures { name_seen result ≡ named self word.now }
    {
        match self {
            Naming::Path => FileName::plain(word),
            Naming::Labelled => match labelled(word) {
                Some(name) => name,
                None => FileName::plain(word),
            },
        }
    }
}

/// What the names are, by the value of `--labels`.
fn read_naming(text: &str) -> Option<Naming>
    ensures { result ≡ naming_of text.now }
{
    if text == "host,account" {
        Some(Naming::Labelled)
    } else {
        None
    }
}

/// What the names are: paths where the option is not given.
fn naming_asked(words: &Args<'_>) -> Result<Naming, CommandError>
    ensures { Spells (λ naming. naming) (naming_asked (rows_in words.now)) result }
{
    match words.given(ArgName::Labels) {
        None => Ok(Naming::Path),
        Some(text) => ArgName::Labels.or_fault(read_naming(text)),
    }
}

fn are_named(naming: Naming, names: &[&str]) -> bool
    ensures { result ≡ list_all (is_named naming) (map (λ name. name.now) names.now) }
{
    names.iter().all(|name| is_named(naming, name))
}

/// The names of the files; with labels each has to have them.
pub fn names_asked<'a>(
    words: &Args<'_>,
    names: &'a [&'a str],
) -> Result<ListedNames<'a>, CommandError>
    ensures { Spells names_seen (names_asked (rows_in words.now) (map (λ name. name.now) names.entry.now)) result }
{
    let naming = naming_asked(words)?;
    if are_named(naming, names) {
        Ok(ListedNames {
            words: names,
            naming,
        })
    } else {
        Err(CommandError::Value(ArgName::Labels))
    }
}

/// The names as the page has them, in their order.
pub fn shown_names(alloc: Global, names: ListedNames<'_>) -> Result<Vec<Bytes>, AllocError>
    ensures { IfOk result (λ shown. shown.items ≡ map shown_name (names_seen names.entry)) }
{
    let mut shown = Vec::new(alloc);
    for word in names.words {
        let name = shown_name(alloc, names.naming.name_of(word))?;
        shown.push(Bytes::new(name))?;
    }
    Ok(shown)
}
