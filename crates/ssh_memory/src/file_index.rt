//! Files by their names in sorted order, so that a look-up takes few steps among many files.

ghost use Rattle.std.specs.Prelude.{◌≡◌, ◌∷◌, [], ℕ, IfOk, IfSome, List, OnOk, option_map};
ghost use Rattle.std.specs.Option.{option_or};
ghost use Rattle.ssh_memory.specs.FirstNamed.{FindsFirst, file_at, first_named, named_in};

use crate::files::NamedBytes;
use std::alloc::{AllocError, Global};
use std::collections::BTreeMap;
use std::marker::Model;

/// Adds a file at its name, unless there is one of this name.
fn insert_new<'a>(
    names: &mut BTreeMap<&'a [u8], NamedBytes<'a>>,
    file: NamedBytes<'a>,
) -> Result<(), AllocError>
    ensures { OnOk result ((name : List ℕ) → file_at names.new name
        ≡ option_or (file_at names.old name) (first_named (file.entry ∷ []) name)) }
{
    if names.contains_key(file.name) {
        return Ok(());
    }
    names.insert(file.name, file)?;
    Ok(())
}

/// The files by their names.
fn by_name<'a>(
    alloc: Global,
    files: &'a [NamedBytes<'a>],
) -> Result<BTreeMap<&'a [u8], NamedBytes<'a>>, AllocError>
    ensures { IfOk result (λ names. FindsFirst names files.now) }
{
    let mut names = BTreeMap::new(alloc);
    for file in files {
        insert_new(&mut names, *file)?;
    }
    Ok(names)
}

/// Files in the order of their names. Contracts see them as they were given.
#[derive(Drop)]
pub(crate) struct FileIndex<'a> {
    files: &'a [NamedBytes<'a>],
    names: BTreeMap<&'a [u8], NamedBytes<'a>>,
}

impl<'a> Model for FileIndex<'a> {
    ghost use Rattle.std.specs.Prelude.{List};
    ghost use Rattle.ssh_memory.specs.declared.files.NamedBytes.{NamedBytes as NamedValue};
    ghost use Rattle.ssh_memory.specs.FirstNamed.{FindsFirst};

    ghost Value = { List NamedValue };

    ghost view = { λ s. s.files.now };

    ghost invariant = { λ s. FindsFirst s.names s.files.now };
}

impl<'a> FileIndex<'a> {
    /// Sorts the files by their names. Fails only when memory cannot be allocated.
    pub(crate) fn new(
        alloc: Global,
        files: &'a [NamedBytes<'a>],
    ) -> Result<FileIndex<'a>, AllocError>
        ensures { IfOk result (λ index. index ≡ files.now) }
    {
        let names = by_name(alloc, files)?;
        Ok(FileIndex { files, names })
    }

    /// The first of the files that has this name.
    pub(crate) fn find(&self, name: &[u8]) -> Option<NamedBytes<'a>>
        ensures found { option_map (λ f. f.bytes.now) result ≡ named_in self.now name.now }
        ensures name { IfSome result (λ f. f.name.now ≡ name.now) }
    {
        self.names.get(name).copied()
    }
}
