//! Nets (CIDR blocks): the addresses of one family that share their first bits (RFC 4632, section
//! 3.1).

ghost use Rattle.std.specs.Prelude.{◌≡◌, ◌↔◌, IsTrue, IfOk, Ok, Err, ◌/◌, ◌%◌, ◌^◌, ◌==◌};
ghost use Rattle.ssh_patterns.specs.Block.{Block, block_number, width};
ghost use Rattle.ssh_patterns.specs.Nets.{IsNetText, HasBase, HasHostBits, LiesIn, in_net, net_from, net_between, net_if_slash, net_of, prefix_of};

use crate::address::{Address, PatternError, read_address, v4_before_slash};
use crate::pattern::{cut, decimal};
use std::marker::Model;

/// A net: the addresses of one family that share the first bits of its base. No bit of the base
/// past the prefix length is set.
#[derive(Clone, Copy, Debug, PartialEq, Eq)]
pub struct Net {
    base: Address,
    prefix: u8,
}

impl Model for Net {
    ghost use Rattle.ssh_patterns.specs.Block.{Block, IsBlock};

    ghost Value = { Block };

    ghost view = { λ n. record { base = n.base; prefix = n.prefix } };

    ghost invariant = { λ n. IsBlock (record { base = n.base; prefix = n.prefix }) };

    ghost inverse = { λ b. record { base = b.base; prefix = b.prefix } };
}

impl Net {
    /// The first address of the net.
    pub fn base(&self) -> Address
        ensures { result ≡ self.now.base }
    {
        self.base
    }

    /// The prefix length in bits, up to 32 (IPv4) or 128 (IPv6).
    pub fn prefix(&self) -> u8
        ensures { result ≡ self.now.prefix }
    {
        self.prefix
    }
}

/// The number of bits of an address of this family.
fn width(address: Address) -> u8
    ensures { result ≡ width address }
{
    match address {
        Address::V4(_) => 32,
        Address::V6(_) => 128,
    }
}

fn number(address: Address) -> u128
    ensures { result ≡ block_number address }
{
    match address {
        Address::V4(number) => u128::from(number),
        Address::V6(number) => number,
    }
}

/// The number shifted right by so many bits, which may be 128.
fn without_last(number: u128, bits: u32) -> u128
    ensures { result ≡ number / 2 ^ bits }
{
    number.unbounded_shr(bits)
}

/// Whether none of the last bits is set. There may be 128 of them.
fn has_last_clear(number: u128, bits: u32) -> bool
    ensures { result ≡ (number % 2 ^ bits == 0) }
{
    match 1u128.checked_shl(bits) {
        Some(size) => number % size == 0,
        None => number == 0,
    }
}

/// The prefix length that a text gives for this family.
fn prefix(base: Address, text: &[u8]) -> Option<u8>
    ensures { result ≡ prefix_of base text.now }
{
    decimal(text).filter(|prefix| *prefix <= width(base))
}

/// The net of a base and the text of its prefix length, or the first error.
fn net_from(base: Address, length: &[u8]) -> Result<Net, PatternError>
    ensures { result ≡ net_from base length.now }
{
    let prefix = prefix(base, length).ok_or(PatternError::Length)?;
    if !has_last_clear(number(base), u32::from(width(base) - prefix)) {
        return Err(PatternError::HostBits);
    }
    Ok(Net { base, prefix })
}

/// The net of the texts before and after a slash, or the first error.
fn net_between(base: &[u8], length: &[u8]) -> Result<Net, PatternError>
    ensures { result ≡ net_between base.now length.now }
{
    match read_address(base) {
        Some(base) => net_from(base, length),
        None => Err(PatternError::Address),
    }
}

/// The net that a text spells, or the first error. The common case, an IPv4 address before the
/// slash, is read without a search for the slash.
#[tactic(auto, unfolding(crate::specs::Nets::net_of))]
fn read_net(text: &[u8]) -> Result<Net, PatternError>
    ensures { result ≡ net_of text.now }
{
    if let Some((base, length)) = v4_before_slash(text) {
        return net_from(base, length);
    }
    match cut(text, b'/') {
        Some((base, length)) => net_between(base, length),
        None => Err(PatternError::Address),
    }
}

/// The net that a text with a slash spells, or the first error. `None` where there is no slash,
/// because the item is then an address or a pattern.
pub(crate) fn net_if_slash(text: &[u8]) -> Option<Result<Net, PatternError>>
    ensures { result ≡ net_if_slash text.now }
{
    if text.contains(&b'/') {
        Some(read_net(text))
    } else {
        None
    }
}

/// Reads a net: an address, a slash and the prefix length in decimal without leading zeros, up to
/// 32 or 128 by the address's family (RFC 4632, section 3.1; RFC 4291, section 2.3). Without a
/// slash, or without an address before the first one, the error is `Address`; else `Length` where
/// the prefix length is wrong; else `HostBits` where a bit past the prefix length is set.
pub fn parse_net(text: &[u8]) -> Result<Net, PatternError>
    // A net that is returned is one that the text spells.
    ensures spelled { IfOk result (λ net. IsNetText net text.now) }
    // A net that the text spells is returned, so a text spells at most one net.
    ensures only { (net : Block) → IsNetText net text.now → result ≡ Ok net }
    // There is no address before a slash.
    ensures address { (result ≡ Err PatternError.Address) ↔ (¬ HasBase text.now) }
    // It would be a net, but for its bits past the prefix length.
    ensures host_bits { (result ≡ Err PatternError.HostBits) ↔ HasHostBits text.now }
    // The net or the first error.
    ensures value { result ≡ net_of text.now }
{
    read_net(text)
}

/// Whether the address is of the net's family and shares its first bits. An IPv4-mapped IPv6
/// address is in no IPv4 net.
pub fn contains(net: &Net, address: &Address) -> bool
    ensures rule { IsTrue result ↔ LiesIn net.now address.now }
    ensures value { result ≡ in_net net.now address.now }
{
    let bits = u32::from(width(net.base) - net.prefix);
    width(net.base) == width(*address)
        && without_last(number(*address), bits) == without_last(number(net.base), bits)
}
