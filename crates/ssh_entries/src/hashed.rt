//! Hashed host names, as `ssh-keygen -H` writes them (sshd(8), SSH_KNOWN_HOSTS FILE FORMAT), and
//! the HMAC-SHA1 of RFC 2104 that hashes them.

ghost use Rattle.std.specs.Prelude.{◌≡◌, ◌≤◌, length, IfOk, option_copied, codes, option_map};
ghost use Rattle.ssh_entries.specs.Hmac.{block_key, block_length, hmac_sha1, padded, xor_each};
ghost use Rattle.ssh_patterns.specs.Cut.{after_mark};
ghost use Rattle.ssh_entries.specs.Names.{SpellsNames, base64, hashed_field, hashed_of, hidden, twenty_bytes_of};

use base64::engine::general_purpose::STANDARD;
use sha1::Sha1;
use std::alloc::{AllocError, Global};

/// The block size of SHA-1, in bytes.
const BLOCK_LEN: usize = 64;

/// A key of at most one block, padded with zeros.
#[tactic(auto, using(crate::proofs::HmacLemmas::zeros_left))]
fn padded(key: &[u8]) -> [u8; BLOCK_LEN]
    requires { length key.now ≤ block_length }
    ensures { result ≡ padded key.now }
{
    let mut block = [0; BLOCK_LEN];
    block[..key.len()].copy_from_slice(key);
    block
}

/// The key as a block; a longer key is hashed first.
fn block_key(key: &[u8]) -> [u8; BLOCK_LEN]
    ensures { result ≡ block_key key.now }
{
    if key.len() > BLOCK_LEN {
        padded(&Sha1::digest(key))
    } else {
        padded(key)
    }
}

/// Each byte of a block XOR the byte of a pad.
fn xor_each(pad: u8, block: &[u8; BLOCK_LEN]) -> [u8; BLOCK_LEN]
    ensures { result ≡ xor_each pad block.now }
{
    let mut mixed = *block;
    for at in 0..BLOCK_LEN {
        mixed[at] ^= pad;
    }
    mixed
}

/// HMAC-SHA1 of a text under a key (RFC 2104, section 2): blocks have 64 bytes, and a key that is
/// longer is hashed first. No memory is allocated.
#[tactic(auto, unfolding(crate::specs::Hmac::hmac_sha1))]
pub fn hmac_sha1(key: &[u8], text: &[u8]) -> [u8; 20]
    ensures { result ≡ hmac_sha1 key.now text.now }
{
    let block = block_key(key);
    let mut inner = Sha1::new();
    inner.update(&xor_each(0x36, &block));
    inner.update(text);
    let mut outer = Sha1::new();
    outer.update(&xor_each(0x5c, &block));
    outer.update(&inner.finalize());
    outer.finalize()
}

/// How many characters the base64 of 20 bytes has.
const TEXT_LEN: usize = 28;

/// How many bytes the field of a hashed name has.
const FIELD_LEN: usize = 60;

/// The hash of a name, and the salt that it was hashed with.
#[derive(Clone, Copy, Debug, PartialEq, Eq)]
pub(crate) struct HashedName {
    pub(crate) salt: [u8; 20],
    pub(crate) hash: [u8; 20],
}

/// What follows `|1|`, the mark of a hashed name. Another version is refused, because it is not
/// known what it hashes.
fn after_version(field: &[u8]) -> Option<&[u8]>
    ensures { option_copied result ≡ after_mark (codes "|1|") field.now }
{
    match field {
        [b'|', b'1', b'|', rest @ ..] => Some(rest),
        _ => None,
    }
}

/// What follows a `|`.
fn after_bar(text: &[u8]) -> Option<&[u8]>
    ensures { option_copied result ≡ after_mark (codes "|") text.now }
{
    match text {
        [b'|', rest @ ..] => Some(rest),
        _ => None,
    }
}

/// The 20 bytes that a base64 text encodes.
#[tactic(auto, unfolding(crate::specs::Names::twenty_bytes_of))]
fn twenty_bytes(text: &[u8]) -> Option<[u8; 20]>
    ensures { result ≡ twenty_bytes_of text.now }
{
    if text.len() != TEXT_LEN {
        return None;
    }
    let mut bytes = [0; 21];
    match STANDARD.decode_slice_unchecked(text, &mut bytes) {
        Ok(20) => bytes.first_chunk().copied(),
        _ => None,
    }
}

/// The salt and the hash of a field.
#[tactic(auto, unfolding(crate::specs::Names::hashed_of))]
pub(crate) fn read_hashed(field: &[u8]) -> Option<HashedName>
    ensures { result ≡ hashed_of field.now }
{
    let rest = after_version(field)?;
    if rest.len() < TEXT_LEN {
        return None;
    }
    let (salt, rest) = rest.split_at(TEXT_LEN);
    let hash = after_bar(rest)?;
    Some(HashedName {
        salt: twenty_bytes(salt)?,
        hash: twenty_bytes(hash)?,
    })
}

/// The base64 of 20 bytes.
fn base64_of(bytes: &[u8; 20]) -> [u8; TEXT_LEN]
    ensures { result ≡ base64 bytes.now }
{
    let mut text = [0; TEXT_LEN];
    match STANDARD.encode_slice(bytes, &mut text) {
        Ok(_) => text,
        Err(_) => unreachable!(),
    }
}

/// The names field with the hash of a name, as `ssh-keygen -H` writes it: `|1|`, the base64 of the
/// salt, `|`, and the base64 of the name's HMAC-SHA1 under the salt. The name is hashed as it is,
/// so pass the result of `lookup_name`: hosts are looked up in lower case. No memory is allocated.
pub fn hashed_field(salt: &[u8; 20], name: &[u8]) -> [u8; FIELD_LEN]
    ensures { result ≡ hashed_field salt.now name.now }
{
    let mut field = *b"|1|............................|............................";
    field[3..31].copy_from_slice(&base64_of(salt));
    field[32..].copy_from_slice(&base64_of(&hmac_sha1(salt, name)));
    field
}

/// The same field, of 60 bytes, in a vector. Fails only when memory cannot be allocated.
pub fn hash_name(alloc: Global, salt: &[u8; 20], name: &[u8]) -> Result<Vec<u8>, AllocError>
    // The field spells the salt and the hash of the name.
    ensures spelled { IfOk result (λ field. SpellsNames (hidden salt.now name.now) field.items) }
    ensures field { IfOk result (λ field. field.items ≡ hashed_field salt.now name.now) }
    ensures length { IfOk result (λ field. length field.items ≡ 60) }
{
    let field = hashed_field(salt, name).to_vec(alloc)?;
    Ok(field)
}
