//! Texts of options and names of critical options, copied only where they have to be.

ghost use Rattle.std.specs.Prelude.{◌≡◌, false, IfOk, IsOk, ◌↔◌, IsTrue, None, option_copied};
ghost use Rattle.ssh_options.specs.OptionsInPlace.{has_quote};
ghost use Rattle.ssh_rules.specs.ValueText.{text_of};

use ssh_options::ValueView;
use ssh_text::Bytes;
use std::alloc::{AllocError, Global};
use std::marker::Model;
use std::rc::RcSlice;

/// The text of a value: borrowed from its line, or copied where the line escapes a quote in it.
#[derive(Debug, Drop)]
pub(crate) enum ValueText<'a> {
    InPlace(&'a [u8]),
    Copied(Bytes),
}

impl<'a> ValueText<'a> {
    /// Fails only when memory cannot be allocated; a value without a quote needs none.
    pub(crate) fn new(alloc: Global, value: &ValueView<'a>) -> Result<ValueText<'a>, AllocError>
        ensures value { IfOk result (λ text. text_of text ≡ value.now) }
        ensures spare { has_quote value.now ≡ false → IsOk result }
    {
        match value.in_place() {
            Some(text) => Ok(ValueText::InPlace(text)),
            None => {
                let text = value.to_bytes(alloc)?;
                Ok(ValueText::Copied(text))
            }
        }
    }

    /// The bytes, without escapes.
    pub(crate) fn as_slice(&self) -> &[u8]
        ensures { result.now ≡ text_of self.now }
    {
        match self {
            ValueText::InPlace(text) => text,
            ValueText::Copied(text) => text.as_slice(),
        }
    }
}

/// The name of a critical option. It is copied once from the certificate, and all reasons that
/// report it share that copy, since it may be long. Contracts see its bytes.
#[derive(Debug, Drop)]
pub struct SharedName {
    shared: RcSlice<u8>,
}

impl Model for SharedName {
    ghost use Rattle.std.specs.Prelude.{List, ℕ};
    ghost use Rattle.std.specs.Rc.{rc_slice_items};

    ghost Value = { List ℕ };

    ghost view = { λ n. rc_slice_items n.shared };
}

impl SharedName {
    /// Copies the name.
    pub fn new(alloc: Global, name: &[u8]) -> Result<SharedName, AllocError>
        ensures { IfOk result (λ made. made ≡ name.now) }
    {
        let shared = RcSlice::from_slice(alloc, name)?;
        Ok(SharedName { shared })
    }

    /// The bytes of the name.
    pub fn as_slice(&self) -> &[u8]
        ensures { result.now ≡ self.now }
    {
        self.shared.as_slice()
    }

    /// The same name for one more reason or message. No memory is allocated; `Err` means that the
    /// count of those who share it is at its limit.
    pub fn share(&self) -> Result<SharedName, AllocError>
        ensures { IfOk result (λ made. made ≡ self.now) }
    {
        let shared = self.shared.clone()?;
        Ok(SharedName { shared })
    }
}

/// Names are equal exactly where their bytes are.
impl PartialEq for SharedName {
    ghost use Rattle.std.specs.Cmp.{partial_equiv_from_equiv};
    ghost use Rattle.std.specs.Cmp.Lexicographic.{nat_list_eq_equiv};
    ghost use Rattle.std.specs.Str.{bytes_eq};

    ghost eq = { bytes_eq };

    ghost laws = { partial_equiv_from_equiv nat_list_eq_equiv };

    fn eq(&self, other: &Self) -> bool
        ensures same { IsTrue result ↔ (self.now ≡ other.now) }
    {
        self.as_slice() == other.as_slice()
    }
}

impl Eq for SharedName {
    ghost use Rattle.std.specs.Cmp.Lexicographic.{nat_list_eq_equiv};

    ghost laws = { nat_list_eq_equiv };
}

/// A copy of the name, if there is one. Without a name nothing is allocated.
pub fn kept_name(alloc: Global, name: Option<&[u8]>) -> Result<Option<SharedName>, AllocError>
    ensures value { IfOk result (λ kept. kept ≡ option_copied name.entry) }
    ensures spare { option_copied name.entry ≡ None → IsOk result }
{
    match name {
        None => Ok(None),
        Some(name) => {
            let kept = SharedName::new(alloc, name)?;
            Ok(Some(kept))
        }
    }
}
