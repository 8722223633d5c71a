//! Where bytes that come in pieces may show a head or a refusal of one.
ghost use Rattle.std.specs.Prelude.{◌≡◌, ℕ, List, [], ◌∷◌, ◌++◌, false};
ghost use Rattle.http_wire.specs.Heads.{IsOpen};
ghost use Rattle.http_wire.specs.Places.{is_at_end, is_in_fields, is_news, Advances, Follows};
ghost use Rattle.http_wire.specs.Places.{StandsAt};

use crate::section::Place;

/// How far the bytes of a request's head have come.
#[derive(Clone, Copy)]
pub(crate) enum Progress {
    /// In the empty lines before the request line.
    Before,
    /// The same, behind a carriage return.
    BeforeReturn,
    /// In the request line.
    Line,
    /// In the field lines.
    Fields(Place),
}

impl Progress {
    /// How far they have come with one more byte.
    fn after(self, byte: u8) -> Progress
        ensures { Advances self byte result }
    {
        match self {
            Progress::Before => before(byte),
            Progress::BeforeReturn => before_return(byte),
            Progress::Line => line(byte),
            Progress::Fields(place) => Progress::Fields(place.after(byte)),
        }
    }

    /// Whether the request line has ended.
    fn is_in_fields(self) -> bool
        ensures { result ≡ is_in_fields self }
    {
        matches!(self, Progress::Fields(_))
    }

    /// Whether the bytes are to be looked at where they come from here to `next`.
    fn is_news(self, next: Progress) -> bool
        ensures { result ≡ is_news self next }
    {
        (next.is_in_fields() && !self.is_in_fields()) || next.is_at_end()
    }

    /// Whether they show the head's end, or that there is none.
    fn is_at_end(self) -> bool
        ensures { result ≡ is_at_end self }
    {
        match self {
            Progress::Fields(place) => place.is_over(),
            _ => false,
        }
    }
}

/// How far bytes have come, by one that stands before the request line.
fn before(byte: u8) -> Progress
    ensures { Advances Progress.Before byte result }
{
    if byte == b'\n' {
        Progress::Before
    } else if byte == b'\r' {
        Progress::BeforeReturn
    } else {
        Progress::Line
    }
}

/// The same, behind a carriage return, which is the request line's first byte where no line feed
/// follows.
fn before_return(byte: u8) -> Progress
    ensures { Advances Progress.BeforeReturn byte result }
{
    if byte == b'\n' {
        Progress::Before
    } else {
        Progress::Line
    }
}

/// How far bytes have come, by one of the request line.
fn line(byte: u8) -> Progress
    ensures { Advances Progress.Line byte result }
{
    if byte == b'\n' {
        Progress::Fields(Place::Start)
    } else {
        Progress::Line
    }
}

/// Follows bytes as they come, each once, and says when they are to be looked at: where the request
/// line has ended, where the head has, and at a byte that can stand in no head. So bytes that come
/// one by one are not parsed from the front at each of them, and a head and a refusal are told at
/// once.
#[derive(Drop)]
pub(crate) struct Watch {
    progress: Progress,
    due: bool,
}

impl Watch {
    /// A watch that has followed nothing.
    pub(crate) fn new() -> Watch
        ensures { (result.progress ≡ Progress.Before) × (result.due ≡ false) }
    {
        Watch {
            progress: Progress::Before,
            due: false,
        }
    }

    /// Follows more bytes, behind bytes that show no head and no refusal.
    pub(crate) fn follow(&mut self, bytes: &[u8])
        ensures { (before : List ℕ) → StandsAt self.old.progress before → IsOpen before
            → Follows before (before ++ bytes.now) self.new }
    {
        self.due = self.progress.is_at_end();
        for byte in bytes {
            if self.progress.is_at_end() {
                return;
            }
            self.step(*byte);
        }
    }

    /// Follows one more byte.
    fn step(&mut self, byte: u8)
        requires { is_at_end self.old.progress ≡ false }
        ensures { (before now : List ℕ) → Follows before now self.old
            → Follows before (now ++ byte ∷ []) self.new }
    {
        let next = self.progress.after(byte);
        self.due |= self.progress.is_news(next);
        self.progress = next;
    }

    /// Whether the bytes are to be looked at, for what was followed last.
    pub(crate) fn is_due(&self) -> bool
        ensures { result ≡ self.now.due }
    {
        self.due
    }
}
