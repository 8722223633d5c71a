//! The dates of days.
ghost use Rattle.std.specs.Prelude.{◌≡◌, ◌+◌, ◌<◌, ◌≤◌, ◌^◌, ℕ};
ghost use Rattle.access_log.specs.Calendar.{date_of, days_in_month, days_in_year, first_day};
ghost use Rattle.access_log.specs.Calendar.{is_leap_year};

/// A date of the Gregorian calendar.
#[derive(Clone, Copy)]
pub(crate) struct Date {
    /// The year.
    pub(crate) year: u32,
    /// The month, 1 to 12.
    pub(crate) month: u32,
    /// The day of the month, from 1.
    pub(crate) day: u32,
}

/// Whether a year has a 29 February.
fn is_leap_year(year: u32) -> bool
    ensures { result ≡ is_leap_year year }
{
    year % 4 == 0 && (year % 100 != 0 || year % 400 == 0)
}

/// How many days a year has.
#[tactic(auto, unfolding(crate::specs::Calendar::days_in_year))]
fn days_in_year(year: u32) -> u32
    ensures days { result ≡ days_in_year year }
    ensures some { 365 ≤ result }
{
    if is_leap_year(year) { 366 } else { 365 }
}

/// How many days a month has.
#[tactic(auto, unfolding(crate::specs::Calendar::days_in_month))]
fn days_in_month(year: u32, month: u32) -> u32
    ensures days { result ≡ days_in_month year month }
    ensures some { 28 ≤ result }
{
    match month {
        2 => { if is_leap_year(year) { 29 } else { 28 } }
        4 | 6 | 9 | 11 => 30,
        _ => 31,
    }
}

/// The date so many days after 1970-01-01.
pub(crate) fn date_of(days: u32) -> Date
    requires { days < 2 ^ 31 }
    ensures { result ≡ date_of days }
{
    let mut year = 1970;
    let mut rest = days;
    'years: while rest >= days_in_year(year) {
        rest -= days_in_year(year);
        year += 1;
    }
    date_in_year(year, rest)
}

/// The date so many days after the first of a year.
fn date_in_year(year: u32, days: u32) -> Date
    requires { days < days_in_year year }
    ensures { (n : ℕ) → date_of n ≡ first_day year 1 → result ≡ date_of (n + days) }
{
    let mut month = 1;
    let mut rest = days;
    'months: while rest >= days_in_month(year, month) {
        rest -= days_in_month(year, month);
        month += 1;
    }
    Date {
        year,
        month,
        day: rest + 1,
    }
}
