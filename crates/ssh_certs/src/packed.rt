//! Lists of a certificate that are packed into one string: strings one after the other
//! (PROTOCOL.certkeys).

ghost use Rattle.std.specs.Prelude.{◌≡◌, ◌≤◌, ◌↔◌, [], ◌∷◌, length, IfErr, IfSome, IsOk, IsTrue, MatchOption};
ghost use Rattle.std.specs.Iterator.{YieldsFirstRef, YieldsFirstBy, item_count};
ghost use Rattle.std.specs.Str.{bytes_eq};
ghost use Rattle.ssh_wire.specs.Reading.{Reads, string_at};
ghost use Rattle.ssh_certs.specs.Certificate.{packed_names, packed_options};
ghost use Rattle.ssh_certs.specs.CertificateReading.{items_in, cert_option_at};
ghost use Rattle.ssh_certs.specs.Packed.{names_in_packed, options_in_packed, option_in_packed, without_items};

use ssh_wire::{Cursor, WireError};

/// The principals of a certificate, in the order of the blob. Each is a slice of the blob.
#[derive(Debug, Drop)]
pub struct Principals<'a> {
    packed: &'a [u8],
    ghost is_read: { IsOk (items_in string_at packed.now) },
}

impl<'a> Principals<'a> {
    ghost use Rattle.ssh_certs.specs.Left.{principals_left};

    /// The principals that this string packs. The string must have been checked before.
    pub(crate) fn new(packed: &'a [u8]) -> Self
        requires { IsOk (items_in string_at packed.now) }
        ensures { principals_left result ≡ names_in_packed packed.entry.now }
    {
        Principals { packed }
    }
}

impl<'a> Iterator for Principals<'a> {
    ghost use Rattle.ssh_certs.specs.Left.{principals_left};

    type Item = &'a [u8];

    ghost next_gives = { YieldsFirstRef principals_left };

    ghost remaining = { item_count principals_left };

    fn next(&mut self) -> Option<&'a [u8]> {
        let (name, rest) = split_name(self.packed)?;
        self.packed = rest;
        Some(name)
    }
}

/// Two iterators are equal where the names that remain are equal, in order.
impl PartialEq for Principals<'_> {
    ghost use Rattle.std.specs.Cmp.{on_per, partial_equiv_from_equiv};
    ghost use Rattle.std.specs.Cmp.Lexicographic.{nat_list_eq_equiv};
    ghost use Rattle.ssh_certs.specs.Left.{principals_left, packed_names_left};

    ghost eq = { λ a b. bytes_eq (packed_names_left a) (packed_names_left b) };

    ghost laws = { on_per packed_names_left (partial_equiv_from_equiv nat_list_eq_equiv) };

    fn eq(&self, other: &Self) -> bool
        ensures packed { result ≡ bytes_eq (packed_names_left self.now) (packed_names_left other.now) }
        ensures same { IsTrue result ↔ (principals_left self.now ≡ principals_left other.now) }
    {
        equal_names(self.packed, other.packed)
    }
}

impl Eq for Principals<'_> {
    ghost use Rattle.std.specs.Cmp.{on_equiv};
    ghost use Rattle.std.specs.Cmp.Lexicographic.{nat_list_eq_equiv};
    ghost use Rattle.ssh_certs.specs.Left.{packed_names_left};

    ghost laws = { on_equiv packed_names_left nat_list_eq_equiv };
}

/// The critical options or the extensions of a certificate, in the order of the blob: a name and
/// its data, which are slices of the blob.
#[derive(Debug, Drop)]
pub struct CertOptions<'a> {
    packed: &'a [u8],
    ghost is_read: { IsOk (items_in cert_option_at packed.now) },
}

impl<'a> CertOptions<'a> {
    ghost use Rattle.ssh_certs.specs.Left.{options_left};

    /// The options that this string packs. The string must have been checked before.
    pub(crate) fn new(packed: &'a [u8]) -> Self
        requires { IsOk (items_in cert_option_at packed.now) }
        ensures { options_left result ≡ options_in_packed packed.entry.now }
    {
        CertOptions { packed }
    }
}

impl<'a> Iterator for CertOptions<'a> {
    ghost use Rattle.ssh_certs.specs.Left.{options_left};

    type Item = (&'a [u8], &'a [u8]);

    ghost next_gives = { YieldsFirstBy option_in_packed options_left };

    ghost remaining = { item_count options_left };

    fn next(&mut self) -> Option<(&'a [u8], &'a [u8])> {
        let (option, rest) = split_option(self.packed)?;
        self.packed = rest;
        Some(option)
    }
}

/// Two iterators are equal where the options that remain are equal, in order.
impl PartialEq for CertOptions<'_> {
    ghost use Rattle.std.specs.Cmp.{on_per, partial_equiv_from_equiv};
    ghost use Rattle.std.specs.Cmp.Lexicographic.{nat_list_eq_equiv};
    ghost use Rattle.ssh_certs.specs.Left.{options_left, packed_options_left};

    ghost eq = { λ a b. bytes_eq (packed_options_left a) (packed_options_left b) };

    ghost laws = { on_per packed_options_left (partial_equiv_from_equiv nat_list_eq_equiv) };

    fn eq(&self, other: &Self) -> bool
        ensures packed { result
            ≡ bytes_eq (packed_options_left self.now) (packed_options_left other.now) }
        ensures same { IsTrue result ↔ (options_left self.now ≡ options_left other.now) }
    {
        equal_options(self.packed, other.packed)
    }
}

impl Eq for CertOptions<'_> {
    ghost use Rattle.std.specs.Cmp.{on_equiv};
    ghost use Rattle.std.specs.Cmp.Lexicographic.{nat_list_eq_equiv};
    ghost use Rattle.ssh_certs.specs.Left.{packed_options_left};

    ghost laws = { on_equiv packed_options_left nat_list_eq_equiv };
}

/// Packed names are equal exactly where their strings are, because each name has one encoding.
fn equal_names(a: &[u8], b: &[u8]) -> bool
    requires a { IsOk (items_in string_at a.now) }
    requires b { IsOk (items_in string_at b.now) }
    ensures packed { result
        ≡ bytes_eq (packed_names (names_in_packed a.now)) (packed_names (names_in_packed b.now)) }
    ensures same { IsTrue result ↔ (names_in_packed a.now ≡ names_in_packed b.now) }
{
    *a == *b
}

/// Packed options are equal exactly where their strings are, because each option has one encoding.
fn equal_options(a: &[u8], b: &[u8]) -> bool
    requires a { IsOk (items_in cert_option_at a.now) }
    requires b { IsOk (items_in cert_option_at b.now) }
    ensures packed { result
        ≡ bytes_eq (packed_options (options_in_packed a.now)) (packed_options (options_in_packed b.now)) }
    ensures same { IsTrue result ↔ (options_in_packed a.now ≡ options_in_packed b.now) }
{
    *a == *b
}

/// The first name, and the string that packs the names after it.
fn split_name(packed: &[u8]) -> Option<(&[u8], &[u8])>
    requires { IsOk (items_in string_at packed.now) }
    ensures first { MatchOption result (names_in_packed packed.now ≡ [])
        (λ x. names_in_packed packed.now ≡ x.0.now ∷ names_in_packed x.1.now) }
    ensures read { IfSome result (λ x. IsOk (items_in string_at x.1.now)) }
{
    let mut cursor = Cursor::new(packed);
    match cursor.take_string() {
        Ok(name) => Some((name, cursor.rest())),
        Err(_) => None,
    }
}

/// The first option, and the string that packs the options after it.
fn split_option(packed: &[u8]) -> Option<((&[u8], &[u8]), &[u8])>
    requires { IsOk (items_in cert_option_at packed.now) }
    ensures first { MatchOption result (options_in_packed packed.now ≡ [])
        (λ x. options_in_packed packed.now ≡ option_in_packed x.0 ∷ options_in_packed x.1.now) }
    ensures read { IfSome result (λ x. IsOk (items_in cert_option_at x.1.now)) }
{
    let mut cursor = Cursor::new(packed);
    match take_option(&mut cursor) {
        Ok(option) => Some((option, cursor.rest())),
        Err(_) => None,
    }
}

/// Reads an option: its name, then its data.
fn take_option<'a>(cursor: &mut Cursor<'a>) -> Result<(&'a [u8], &'a [u8]), WireError>
    ensures { Reads option_in_packed cert_option_at cursor.old result cursor.new }
{
    let name = cursor.take_string()?;
    let value = cursor.take_string()?;
    Ok((name, value))
}

/// Checks that a string packs principals to its end. An error's place counts from the string's
/// first byte.
pub(crate) fn check_principals(packed: &[u8]) -> Result<(), WireError>
    ensures exact { result ≡ without_items (items_in string_at packed.now) }
    ensures within { IfErr result (λ e. e.place ≤ length packed.now) }
{
    let mut cursor = Cursor::new(packed);
    while !cursor.rest().is_empty() {
        cursor.take_string()?;
    }
    Ok(())
}

/// Checks that a string packs options to its end. An error's place counts from the string's first
/// byte.
pub(crate) fn check_options(packed: &[u8]) -> Result<(), WireError>
    ensures exact { result ≡ without_items (items_in cert_option_at packed.now) }
    ensures within { IfErr result (λ e. e.place ≤ length packed.now) }
{
    let mut cursor = Cursor::new(packed);
    while !cursor.rest().is_empty() {
        take_option(&mut cursor)?;
    }
    Ok(())
}
