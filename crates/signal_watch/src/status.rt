//! What the status file of a process says of its signals.
ghost use Rattle.std.specs.Prelude.{◌≡◌, ◌+◌, ◌*◌, ◌/◌, ◌%◌, ◌<◌, ◌^◌, ◌==◌, ◌||◌, ◌≤◌};
ghost use Rattle.std.specs.Prelude.{nat_eq, IfSome};
ghost use Rattle.std.specs.List.{find, slice_split, starts_with};
ghost use Rattle.std.specs.Option.{option_copied};
ghost use Rattle.signal_watch.specs.Status.{asks_to_stop, digit_of, has_stop, hex_number};
ghost use Rattle.signal_watch.specs.Status.{holds_stop};
ghost use Rattle.signal_watch.specs.Status.{is_set, number_in, signals_at};

/// What the line begins with that has the signals which wait for the process as a whole.
const PENDING: &[u8] = b"ShdPnd:\t";

/// What the line begins with that has the signals which are held back.
const BLOCKED: &[u8] = b"SigBlk:\t";

/// What a number of 64 bits may be before another hexadecimal digit is put behind it.
const ROOM: u64 = 1 << 60;

/// Whether a status file says that SIGTERM or SIGINT waits for the process.
pub fn asks_to_stop(status: &[u8]) -> bool
    ensures { result ≡ asks_to_stop status.now }
{
    has_stop(signals_at(PENDING, status))
}

/// Whether a status file says that SIGTERM or SIGINT is blocked, so that it would wait.
pub fn holds_stop(status: &[u8]) -> bool
    ensures { result ≡ holds_stop status.now }
{
    has_stop(signals_at(BLOCKED, status))
}

/// Whether SIGTERM or SIGINT is among the signals of a number.
fn has_stop(signals: u64) -> bool
    ensures { result ≡ has_stop signals }
{
    is_set(signals, 15) || is_set(signals, 2)
}

/// Whether a signal is among those of a number: signal 1 has the lowest bit.
fn is_set(signals: u64, signal: u32) -> bool
    requires low { 1 ≤ signal }
    requires high { signal ≤ 64 }
    ensures { result ≡ is_set signals signal }
{
    (signals >> (signal - 1)) % 2 == 1
}

/// The signals of the line with this name, as a number; 0 where there is none.
#[tactic(auto, unfolding(crate::specs::Status::signals_at))]
fn signals_at(name: &[u8], status: &[u8]) -> u64
    ensures { result ≡ signals_at name.now status.now }
{
    match line_at(name, status) {
        Some(line) => number_in(line),
        None => 0,
    }
}

/// The first line that begins so.
fn line_at<'a>(name: &[u8], status: &'a [u8]) -> Option<&'a [u8]>
    ensures { option_copied result ≡ find (λ line. starts_with nat_eq line name.now)
        (slice_split (λ b. b == 10) status.now) }
{
    status
        .split(|byte| *byte == b'\n')
        .find(|line| line.starts_with(name))
}

/// The number behind the first eight bytes of a line.
fn number_in(line: &[u8]) -> u64
    ensures { result ≡ number_in line.now }
{
    if line.len() < 8 {
        return 0;
    }
    hex_number(&line[8..])
}

/// The number of the hexadecimal digits that some bytes begin with, modulo 2^64.
#[tactic(auto, using(crate::proofs::Digits::digits))]
fn hex_number(digits: &[u8]) -> u64
    ensures { result ≡ hex_number 0 digits.now }
{
    let mut number = 0;
    let mut rest = digits;
    while let Some((first, others)) = rest.split_first() {
        let Some(digit) = digit_of(*first) else {
            return number;
        };
        number = number % ROOM * 16 + digit;
        rest = others;
    }
    number
}

/// The value of a hexadecimal digit in lower case.
fn digit_of(byte: u8) -> Option<u64>
    ensures value { result ≡ digit_of byte }
    ensures small { IfSome result (λ digit. digit < 16) }
{
    match byte {
        b'0'..=b'9' => Some(u64::from(byte - b'0')),
        b'a'..=b'f' => Some(u64::from(byte - b'a') + 10),
        _ => None,
    }
}
