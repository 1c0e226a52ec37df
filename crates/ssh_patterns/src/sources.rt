//! Lists that restrict where a login comes from: the `from` option and a certificate's
//! `source-address`.

ghost use Rattle.std.specs.Prelude.{◌≡◌, ◌↔◌, ◌≤◌, ◌+◌, ◌*◌, ◌||◌, IsSome, length, option_copied};
ghost use Rattle.std.specs.List.{Any};
ghost use Rattle.ssh_patterns.specs.AddressReading.{address_of};
ghost use Rattle.ssh_patterns.specs.Lists.{is_address, is_v6_address, host_matches, is_match_in_lower_case, items_of, Permits, FitsSource, IsBadSource, host_length, source_list, FitsAddress, IsBadCidr, cidr_list};

use crate::address::{Address, read_address};
use crate::list::{ItemMatcher, Permit, list_permit};
use crate::net::{contains, net_if_slash};
use crate::pattern::{Case, matches_in};
use std::marker::Model;

/// Whether an item is a text of this address. An IPv6 address has many texts, so the addresses are
/// compared.
fn is_address(item: &[u8], address: Address) -> bool
    ensures { result ≡ is_address (address_of item.now) address }
{
    match read_address(item) {
        Some(read) => read == address,
        None => false,
    }
}

/// Whether an item is a text of this IPv6 address. An IPv4 address has only one text, which it
/// matches as a pattern.
fn is_v6_address(item: &[u8], address: Address) -> bool
    ensures { result ≡ is_v6_address (address_of item.now) address }
{
    match address {
        Address::V4(_) => false,
        Address::V6(_) => item.contains(&b':') && is_address(item, address),
    }
}

/// Whether the host name, if it is known, matches a pattern in ASCII lower case, and the steps that
/// this took.
fn host_matches(host: Option<&[u8]>, pattern: &[u8]) -> (bool, u128)
    ensures value { result.0 ≡ host_matches (option_copied host.entry) pattern.now }
    ensures most { result.1 ≤ (length pattern.now + 1) *
        (host_length (option_copied host.entry) + 1) }
{
    match host {
        Some(host) => matches_in(Case::Lower, pattern, host),
        None => (false, 0),
    }
}

/// Whether the host name, if it is known, or else the address text matches a pattern in ASCII lower
/// case, and the steps that this took.
fn name_matches(host: Option<&[u8]>, text: &[u8], pattern: &[u8]) -> (bool, u128)
    ensures value { result.0 ≡ (host_matches (option_copied host.entry) pattern.now
        || is_match_in_lower_case text.now pattern.now) }
    ensures most { result.1 ≤ (length pattern.now + 1) *
        (host_length (option_copied host.entry) + length text.now + 2) }
{
    let (on_host, steps) = host_matches(host, pattern);
    if on_host {
        return (true, steps);
    }
    let (on_text, more) = matches_in(Case::Lower, pattern, text);
    (on_text, steps + more)
}

/// The source of a login, which is matched against a `from` list. The address is that of the text.
#[derive(Drop)]
struct Source<'a> {
    host: Option<&'a [u8]>,
    text: &'a [u8],
    address: Address,
}

impl<'a> Model for Source<'a> {
    ghost use Rattle.std.specs.Prelude.{◌≡◌, Some, option_copied};
    ghost use Rattle.ssh_patterns.specs.AddressReading.{address_of};
    ghost use Rattle.ssh_patterns.specs.Lists as lists;

    ghost Value = { lists.Source };

    ghost view = { λ s. record { host = option_copied s.host; text = s.text.now } };

    ghost invariant = { λ s. address_of s.text.now ≡ Some s.address };
}

impl<'a> ItemMatcher for Source<'a> {
    ghost use Rattle.std.specs.Prelude.{length, ◌+◌};
    ghost use Rattle.ssh_patterns.specs.Lists.{is_bad_source, source_item, host_length};

    ghost is_bad = { λ source item. is_bad_source item };

    ghost is_match = { λ source item. source_item source item };

    ghost most_steps = { λ source. host_length source.host + length source.text + 2 };

    ghost least_steps = { λ source. 0 };

    fn judge(&self, _negated: bool, item: &[u8]) -> Option<(bool, u128)> {
        if item.is_empty() {
            return None;
        }
        match net_if_slash(item) {
            Some(net) => Some((contains(&net.ok()?, &self.address), 0)),
            None if is_v6_address(item, self.address) => Some((true, 0)),
            None => Some(name_matches(self.host, self.text, item)),
        }
    }
}

impl ItemMatcher for Address {
    ghost use Rattle.ssh_patterns.specs.Lists.{is_bad_cidr, cidr_item};

    ghost is_bad = { λ address item. is_bad_cidr item };

    ghost is_match = { λ address item. cidr_item address item };

    ghost most_steps = { λ address. 0 };

    ghost least_steps = { λ address. 0 };

    fn judge(&self, negated: bool, item: &[u8]) -> Option<(bool, u128)> {
        if negated {
            return None;
        }
        match net_if_slash(item) {
            Some(net) => Some((contains(&net.ok()?, self), 0)),
            None => Some((read_address(item)? == *self, 0)),
        }
    }
}

/// `source_list`, and the steps of the matcher over all items, as `matches_counted` counts them:
/// none for an item with a slash, and at most `(list.len() + 1) * (host.len() + address_text.len()
/// + 2)` in all, where an unknown host has length 0.
pub fn source_list_counted(list: &[u8], host: Option<&[u8]>, address_text: &[u8]) -> (Permit, u128)
    requires { IsSome (address_of address_text.now) }
    // Some item is not allowed in such a list.
    ensures bad { (result.0 ≡ Permit.Bad) ↔ Any IsBadSource (items_of list.now) }
    // Else no negated item matches the source, and some other item does.
    ensures yes { (result.0 ≡ Permit.Yes) ↔ ((¬ Any IsBadSource (items_of list.now))
        × Permits
        (FitsSource (record { host = option_copied host.entry; text = address_text.now }))
        list.now) }
    ensures value { result.0 ≡ source_list list.now (option_copied host.entry) address_text.now }
    ensures most { result.1 ≤ (length list.now + 1) *
        (host_length (option_copied host.entry) + length address_text.now + 2) }
{
    match read_address(address_text) {
        Some(address) => list_permit(
            list,
            &Source {
                host,
                text: address_text,
                address,
            },
        ),
        None => (Permit::No, 0),
    }
}

/// The answer of a `from` list for the source of a login: a host name, if it is known, and the text
/// of an address (sshd(8), AUTHORIZED_KEYS FILE FORMAT). An item with a slash matches an address in
/// its net. An item without a slash matches the same address, and as a pattern the host name and
/// the address text, in ASCII lower case. The answer is `Bad` where an item is empty, or has a
/// slash and is not a net (this project's rule). The matcher takes at most `(list.len() + 1) *
/// (host.len() + address_text.len() + 2)` steps over all items, as `source_list_counted` counts
/// them.
pub fn source_list(list: &[u8], host: Option<&[u8]>, address_text: &[u8]) -> Permit
    requires { IsSome (address_of address_text.now) }
    // Some item is not allowed in such a list.
    ensures bad { (result ≡ Permit.Bad) ↔ Any IsBadSource (items_of list.now) }
    // Else no negated item matches the source, and some other item does.
    ensures yes { (result ≡ Permit.Yes) ↔ ((¬ Any IsBadSource (items_of list.now))
        × Permits
        (FitsSource (record { host = option_copied host.entry; text = address_text.now }))
        list.now) }
    ensures value { result ≡ source_list list.now (option_copied host.entry) address_text.now }
{
    source_list_counted(list, host, address_text).0
}

/// The answer of a certificate's `source-address` list for an address (PROTOCOL.certkeys): whether
/// the address is an item, or is in the net of an item. The answer is `Bad` where an item is
/// negated, or is neither a net nor an address (this project's rule). One pass over the list;
/// nothing is matched as a pattern.
pub fn cidr_list(list: &[u8], address: &Address) -> Permit
    // Some item is not allowed in such a list.
    ensures bad { (result ≡ Permit.Bad) ↔ Any IsBadCidr (items_of list.now) }
    // Else some item matches the address.
    ensures yes { (result ≡ Permit.Yes) ↔ ((¬ Any IsBadCidr (items_of list.now))
        × Permits (FitsAddress address.now) list.now) }
    ensures value { result ≡ cidr_list list.now address.now }
{
    list_permit(list, address).0
}
