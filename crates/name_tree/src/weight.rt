//! Weights that were read in part.
ghost use Rattle.std.specs.Prelude.{◌≡◌, ◌+◌, ◌-◌, ◌*◌, ◌/◌, ◌<◌, ◌≤◌, ◌^◌, MatchOption};

/// The most digits before a weight's point.
const MOST_DIGITS: u8 = 6;

/// The millionths of one whole.
pub(crate) const ONE: u64 = 1_000_000;

/// The digits before a weight's point.
#[derive(Clone, Copy)]
pub(crate) struct Whole {
    pub(crate) value: u32,
    pub(crate) digits: u8,
    ghost below: { value < 10 ^ digits },
    ghost few: { digits ≤ 6 },
}

impl Whole {
    /// No digit.
    pub(crate) fn none() -> Whole
        ensures value { result.value ≡ 0 }
        ensures digits { result.digits ≡ 0 }
    {
        Whole {
            value: 0,
            digits: 0,
        }
    }

    /// One digit.
    pub(crate) fn of(digit: u8) -> Whole
        requires { digit ≤ 9 }
        ensures value { result.value ≡ digit }
        ensures digits { result.digits ≡ 1 }
    {
        Whole {
            value: digit as u32,
            digits: 1,
        }
    }

    /// One digit more, unless there are too many.
    pub(crate) fn with(self, digit: u8) -> Option<Whole>
        requires { digit ≤ 9 }
        ensures { MatchOption result (6 ≤ self.digits)
            (λ more. (self.digits < 6) × (more.value ≡ 10 * self.value + digit)
            × (more.digits ≡ self.digits + 1)) }
    {
        if self.digits >= MOST_DIGITS {
            return None;
        }
        Some(Whole {
            value: 10 * self.value + digit as u32,
            digits: self.digits + 1,
        })
    }

    /// The weight, in millionths.
    pub(crate) fn millionths(self) -> u64
        ensures { result ≡ self.value * 1000000 }
    {
        self.value as u64 * ONE
    }
}

/// A weight with its decimals, in millionths, and what the next decimal is worth.
#[derive(Clone, Copy)]
pub(crate) struct Decimals {
    pub(crate) millionths: u64,
    pub(crate) unit: u64,
    ghost below: { millionths < 10 ^ 12 },
    ghost room: { millionths + 10 * unit ≤ 10 ^ 12 },
}

impl Decimals {
    /// The first decimal.
    pub(crate) fn of(whole: Whole, digit: u8) -> Decimals
        requires { digit ≤ 9 }
        ensures millionths { result.millionths ≡ whole.value * 1000000 + digit * 100000 }
        ensures unit { result.unit ≡ 10000 }
    {
        Decimals {
            millionths: whole.millionths() + digit as u64 * 100_000,
            unit: 10_000,
        }
    }

    /// One decimal more.
    pub(crate) fn with(self, digit: u8) -> Decimals
        requires { digit ≤ 9 }
        ensures millionths { result.millionths ≡ self.millionths + digit * self.unit }
        ensures unit { result.unit ≡ self.unit / 10 }
    {
        Decimals {
            millionths: self.millionths + digit as u64 * self.unit,
            unit: self.unit / 10,
        }
    }
}
