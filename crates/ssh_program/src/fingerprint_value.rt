//! The fingerprint of a key as `ssh-keygen -l` prints it, as the value of an option.

ghost use Rattle.std.specs.Prelude.{◌≡◌, ◌++◌, codes, length};
ghost use Rattle.ssh_program.specs.FingerprintValues.{digest_in, fingerprint_bytes, is_fingerprint};

use base64::engine::general_purpose::STANDARD;

/// How many characters the base64 of 32 bytes has without its padding byte.
const TEXT_LEN: usize = 43;

/// Whether the value of an option is a fingerprint, and no name of a file.
pub fn is_fingerprint(text: &str) -> bool
    ensures { result ≡ is_fingerprint text.now }
{
    text.as_bytes().starts_with(b"SHA256:".as_slice())
}

/// The text with its padding byte.
fn padded(text: &[u8]) -> [u8; 44]
    requires { length text.now ≡ 43 }
    ensures { result ≡ text.now ++ codes "=" }
{
    let mut padded = [b'='; 44];
    padded[..TEXT_LEN].copy_from_slice(text);
    padded
}

/// The 32 bytes whose canonical base64 without the padding byte this is.
#[tactic(auto, unfolding(crate::specs::FingerprintValues::digest_in))]
fn digest_in(text: &[u8]) -> Option<[u8; 32]>
    ensures { result ≡ digest_in text.now }
{
    if text.len() != TEXT_LEN {
        return None;
    }
    let mut bytes = [0; 33];
    match STANDARD.decode_slice_unchecked(&padded(text), &mut bytes) {
        Ok(32) => bytes.first_chunk().copied(),
        _ => None,
    }
}

/// The digest that a fingerprint's text gives: `SHA256:`, and 43 characters of canonical base64.
/// `None` for any other text.
pub fn read_fingerprint(text: &str) -> Option<[u8; 32]>
    ensures { result ≡ fingerprint_bytes text.now }
{
    if is_fingerprint(text) {
        digest_in(text.as_bytes().split_at(7).1)
    } else {
        None
    }
}
