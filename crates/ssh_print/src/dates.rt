//! Moments as they are printed: the seconds since 1970-01-01 in UTC, and the date.

ghost use Rattle.std.specs.Prelude.{◌≡◌, ◌++◌, IfOk, OnOk, pos};
ghost use Rattle.ssh_print.specs.Dates.{date_of, moment_date, moment_text};

use crate::show_key::utc_date;
use crate::text::push_number;
use std::alloc::{AllocError, Global};

/// The date of a time in seconds since 1970-01-01 UTC, in the form `YYYY-MM-DDTHH:MM:SSZ`; `-` after
/// the year 9999.
pub fn date_text(alloc: Global, moment: u64) -> Result<Vec<u8>, AllocError>
    ensures { IfOk result (λ text. text.items ≡ date_of moment) }
{
    let text = utc_date(alloc, moment)?;
    Ok(text)
}

/// The date of a moment in UTC; `-` before 1970 and after 9999.
fn moment_date(alloc: Global, moment: i64) -> Result<Vec<u8>, AllocError>
    ensures { IfOk result (λ text. text.items ≡ moment_date moment) }
{
    match u64::try_from(moment) {
        Ok(moment) => date_text(alloc, moment),
        Err(_) => Vec::from_slice(alloc, b"-"),
    }
}

/// A moment in seconds since 1970-01-01 in UTC, and its date as `YYYY-MM-DDTHH:MM:SSZ`, which is
/// `-` before 1970 and after 9999.
pub fn moment_text(alloc: Global, moment: i64) -> Result<Vec<u8>, AllocError>
    ensures { IfOk result (λ text. text.items ≡ moment_text moment) }
{
    let number = moment.to_string(alloc)?;
    let date = moment_date(alloc, moment)?;
    let mut text = Vec::from_slice(alloc, number.as_bytes())?;
    text.push(b' ')?;
    text.extend_from_slice(&date)?;
    Ok(text)
}

/// Appends the same of a moment that is not before 1970. On `Err` a part of it may have been written.
pub fn push_moment(alloc: Global, out: &mut Vec<u8>, moment: u64) -> Result<(), AllocError>
    ensures { OnOk result (out.new.items ≡ out.old.items ++ moment_text (pos moment)) }
{
    let date = date_text(alloc, moment)?;
    push_number(out, moment)?;
    out.push(b' ')?;
    out.extend_from_slice(&date)?;
    Ok(())
}
