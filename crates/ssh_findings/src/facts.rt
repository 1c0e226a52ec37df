//! The facts of an authorized_keys entry, read once for its findings and its record.

ghost use Rattle.std.specs.Prelude.{◌≡◌, IfOk};
ghost use Rattle.jiff.specs.Words.{plain_zone};
ghost use Rattle.ssh_options.specs.Settings.{settings};
ghost use Rattle.ssh_options.specs.declared.option.ValueName.TheVariants.{ExpiryTime};
ghost use Rattle.ssh_findings.specs.Moments.{earlier, has_local_time, is_known_past, until};
ghost use Rattle.ssh_keys.specs.KeyOf.{key_of};
ghost use Rattle.ssh_findings.specs.Facts.{facts_of, plain_rights, rsa_size};

use crate::key_read::fingerprint_read;
use jiff::tz::TimeZone;
use ssh_entries::AuthEntryView;
use ssh_keys::{KeyKind, KeyView, rsa_bits};
use ssh_offers::Offer;
use ssh_options::{LineOptions, ValueView, expiry};
use ssh_rights::{Rights, rights_of};
use ssh_text::{Bytes, ends_with};
use std::alloc::{AllocError, Global};

/// The earlier of two times, or the only one.
fn earlier(one: Option<i64>, other: Option<i64>) -> Option<i64>
    ensures { result ≡ earlier one other }
{
    match (one, other) {
        (None, other) => other,
        (Some(one), None) => Some(one),
        (Some(one), Some(other)) => { if one <= other { Some(one) } else { Some(other) } }
    }
}

/// The earliest expiry time of a line in seconds since 1970-01-01 UTC, if it has any: up to and
/// with it the line may admit.
pub(crate) fn until(
    alloc: Global,
    zone: &TimeZone<'_>,
    entry: &AuthEntryView<'_>,
) -> Result<Option<i64>, AllocError>
    ensures { IfOk result (λ moment.
        moment ≡ until (plain_zone zone.now) (settings ExpiryTime entry.now.options)) }
{
    let mut least = None;
    for value in entry.expiry_texts() {
        let text = value.to_bytes(alloc)?;
        let moment = expiry(alloc, text.as_slice(), zone)?;
        least = earlier(least, moment);
    }
    Ok(least)
}

/// Whether some expiry time of a line is in local time: its text does not end in `Z`.
pub(crate) fn has_local_time(alloc: Global, entry: &AuthEntryView<'_>) -> Result<bool, AllocError>
    ensures { IfOk result (λ local.
        local ≡ has_local_time (settings ExpiryTime entry.now.options)) }
{
    for value in entry.expiry_texts() {
        let text = value.to_bytes(alloc)?;
        if !ends_with(b'Z', text.as_slice()) {
            return Ok(true);
        }
    }
    Ok(false)
}

/// Whether an expiry time is past. `None` never is.
pub(crate) fn is_past(now: u64, moment: Option<i64>) -> bool
    ensures { result ≡ is_known_past now moment }
{
    match moment {
        None => false,
        Some(moment) => match u64::try_from(moment) {
            Ok(moment) => moment < now,
            // A time before 1970 is negative, and past for every `now`.
            Err(_) => true,
        },
    }
}

/// The facts of an authorized_keys entry.
#[derive(Debug, Drop)]
pub struct Facts {
    pub kind: KeyKind,
    /// The size of an RSA key in bits; `None` for other keys.
    pub bits: Option<u32>,
    /// The SHA-256 fingerprint of the key that OpenSSH reads, in base64 without padding, as
    /// `ssh-keygen -l` prints it after `SHA256:`.
    pub fingerprint: [u8; 43],
    /// The comment after the key; empty if there is none.
    pub comment: Bytes,
    /// Whether the line has `cert-authority`: its key signs certificates.
    pub is_authority: bool,
    /// The rights of a login by the key itself, without a certificate.
    pub rights: Rights,
    /// Whether the line has `no-touch-required`.
    pub no_touch_required: bool,
    /// Whether the line has `verify-required`.
    pub verify_required: bool,
    /// The value of `from`.
    pub from: Option<Bytes>,
    /// The value of `principals`.
    pub principals: Option<Bytes>,
    /// Whether the line has an `expiry-time`.
    pub has_expiry: bool,
    /// The earliest of the expiry times, in seconds since 1970-01-01 UTC.
    pub until: Option<i64>,
    /// Whether one of the expiry times is in local time.
    pub has_local_time: bool,
}

/// The size of an RSA key in bits; `None` for any other key. Does not allocate.
#[tactic(auto, using(crate::proofs::SizeLemmas::size_is))]
pub(crate) fn rsa_size(key: &KeyView<'_>) -> Option<u32>
    ensures { result ≡ rsa_size (key_of key.now) }
{
    rsa_bits(key)
}

/// A copy of a value, if there is one.
fn copied(alloc: Global, value: &Option<ValueView<'_>>) -> Result<Option<Bytes>, AllocError>
    ensures { IfOk result (λ copy. copy ≡ value.now) }
{
    match value {
        None => Ok(None),
        Some(value) => {
            let text = value.to_bytes(alloc)?;
            Ok(Some(text))
        }
    }
}

/// The rights of a login by the key itself, without a certificate.
fn plain_rights(alloc: Global, entry: &AuthEntryView<'_>) -> Result<Rights, AllocError>
    ensures { IfOk result (λ rights. rights ≡ plain_rights entry.now) }
{
    let offer = Offer::Plain(entry.key());
    let rights = rights_of(alloc, entry, &offer)?;
    Ok(rights)
}

fn comment(alloc: Global, entry: &AuthEntryView<'_>) -> Result<Bytes, AllocError>
    ensures { IfOk result (λ comment. comment ≡ entry.now.comment) }
{
    let copy = entry.comment().to_vec(alloc)?;
    Ok(Bytes::new(copy))
}

impl Facts {
    /// Reads the facts of an entry. The zone is that of expiry times without `Z`.
    #[tactic(auto, unfolding(crate::specs::Facts::facts_of), using(crate::proofs::FactLemmas::never_until, crate::proofs::FactLemmas::never_local))]
    pub fn read(
        alloc: Global,
        zone: &TimeZone<'_>,
        entry: &AuthEntryView<'_>,
    ) -> Result<Facts, AllocError>
        ensures { IfOk result (λ facts. facts ≡ facts_of (plain_zone zone.now) entry.now) }
    {
        let key = entry.key();
        let fingerprint = fingerprint_read(alloc, &key, entry.blob())?;
        let comment = comment(alloc, entry)?;
        let rights = plain_rights(alloc, entry)?;
        let options = LineOptions::of(entry.options());
        let from = copied(alloc, &options.from)?;
        let principals = copied(alloc, &options.principals)?;
        let (until, has_local_time) = if options.expires {
            (until(alloc, zone, entry)?, has_local_time(alloc, entry)?)
        } else {
            (None, false)
        };
        Ok(Facts {
            kind: key.kind(),
            bits: rsa_size(&key),
            fingerprint,
            comment,
            is_authority: options.authority,
            rights,
            no_touch_required: options.no_touch_required,
            verify_required: options.verify_required,
            from,
            principals,
            has_expiry: options.expires,
            until,
            has_local_time,
        })
    }
}
