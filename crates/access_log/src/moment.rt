//! Moments as text.
ghost use Rattle.std.specs.Prelude.{◌≡◌, ◌+◌, ◌*◌, ◌/◌, ◌%◌, ◌<◌, ◌++◌, ◌^◌, codes, min, OnOk};
ghost use Rattle.access_log.specs.Moments.{clock_text, date_text, four_digits, moment_text};
ghost use Rattle.access_log.specs.Moments.{three_digits, time_text, two_digits};

use crate::calendar::{Date, date_of};
use crate::{Bytes, Mem};

/// The milliseconds of a day.
const DAY: u64 = 86_400_000;

/// The last millisecond of the year 9999.
const LATEST: u64 = 253_402_300_799_999;

/// Puts a moment in milliseconds since 1970 after some bytes, as `2026-11-29T05:48:01.123Z`. An
/// `Err` may leave a part of it there.
pub(crate) fn put_moment(moment: u64, out: &mut Bytes) -> Mem<()>
    ensures { OnOk result (out.new.items ≡ out.old.items ++ moment_text moment) }
{
    let moment = moment.min(LATEST);
    put_date(date_of((moment / DAY) as u32), out)?;
    out.push(b'T')?;
    put_time((moment % DAY) as u32, out)
}

/// Puts a date after some bytes.
fn put_date(date: Date, out: &mut Bytes) -> Mem<()>
    ensures { OnOk result (out.new.items ≡ out.old.items ++ date_text date) }
{
    out.extend_from_slice(&four_digits(date.year))?;
    out.push(b'-')?;
    out.extend_from_slice(&two_digits(date.month))?;
    out.push(b'-')?;
    out.extend_from_slice(&two_digits(date.day))
}

/// Puts the time of a day, in milliseconds since it began, after some bytes.
fn put_time(time: u32, out: &mut Bytes) -> Mem<()>
    ensures { OnOk result (out.new.items ≡ out.old.items ++ time_text time) }
{
    put_clock(time, out)?;
    out.push(b'.')?;
    out.extend_from_slice(&three_digits(time % 1_000))?;
    out.push(b'Z')?;
    Ok(())
}

/// Puts the hours, minutes and seconds of a day after some bytes.
#[tactic(auto, unfolding(crate::specs::Moments::clock_text))]
fn put_clock(time: u32, out: &mut Bytes) -> Mem<()>
    ensures { OnOk result (out.new.items ≡ out.old.items ++ clock_text time) }
{
    out.extend_from_slice(&two_digits(time / 3_600_000))?;
    out.push(b':')?;
    out.extend_from_slice(&two_digits(time / 60_000 % 60))?;
    out.push(b':')?;
    out.extend_from_slice(&two_digits(time / 1_000 % 60))
}

/// The last two digits of a number.
fn two_digits(number: u32) -> [u8; 2]
    ensures { result ≡ two_digits number }
{
    [b'0' + (number / 10 % 10) as u8, b'0' + (number % 10) as u8]
}

/// The last three digits of a number.
pub(crate) fn three_digits(number: u32) -> [u8; 3]
    ensures { result ≡ three_digits number }
{
    [
        b'0' + (number / 100 % 10) as u8,
        b'0' + (number / 10 % 10) as u8,
        b'0' + (number % 10) as u8,
    ]
}

/// The last four digits of a number.
fn four_digits(number: u32) -> [u8; 4]
    ensures { result ≡ four_digits number }
{
    [
        b'0' + (number / 1_000 % 10) as u8,
        b'0' + (number / 100 % 10) as u8,
        b'0' + (number / 10 % 10) as u8,
        b'0' + (number % 10) as u8,
    ]
}
