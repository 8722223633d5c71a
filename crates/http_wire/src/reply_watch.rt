//! Where bytes that come in pieces show the head of a reply, or a refusal of one.
ghost use Rattle.std.specs.Prelude.{◌≡◌, ◌≤◌, ℕ, List, ◌++◌, ◌==◌, ◌||◌};
ghost use Rattle.http_wire.specs.Replies.{fits, is_at_end, Leads, Tracks};

use crate::section::Place;

/// How far the bytes of a reply's head have come. What may follow there, up to the head's end, is
/// `Completes` of `specs/Replies.antt`.
#[derive(Clone, Copy)]
pub(crate) enum StatusPlace {
    /// In the empty lines before the status line.
    Before,
    /// The same, behind a carriage return.
    BeforeReturn,
    /// Behind so many of the twelve bytes of the version, the blank and the status code.
    Code(u8),
    /// In the reason phrase, which takes the bytes that a value does, or in the field lines.
    Fields(Place),
}

impl StatusPlace {
    /// How far they have come with one more byte.
    fn after(self, byte: u8) -> StatusPlace
        ensures { Leads self byte result }
    {
        match self {
            StatusPlace::Before => before(byte),
            StatusPlace::BeforeReturn => before_return(byte),
            StatusPlace::Code(count) => code(count, byte),
            StatusPlace::Fields(place) => StatusPlace::Fields(place.after(byte)),
        }
    }

    /// Whether they show the head's end, or that there is none.
    fn is_at_end(self) -> bool
        ensures { result ≡ is_at_end self }
    {
        match self {
            StatusPlace::Before | StatusPlace::BeforeReturn => false,
            StatusPlace::Code(count) => count > 12,
            StatusPlace::Fields(place) => place.is_over(),
        }
    }
}

/// How far bytes have come, by one that stands before the status line.
fn before(byte: u8) -> StatusPlace
    ensures { Leads StatusPlace.Before byte result }
{
    if byte == b'\n' {
        StatusPlace::Before
    } else if byte == b'\r' {
        StatusPlace::BeforeReturn
    } else {
        code(0, byte)
    }
}

/// The same, behind a carriage return.
fn before_return(byte: u8) -> StatusPlace
    ensures { Leads StatusPlace.BeforeReturn byte result }
{
    if byte == b'\n' {
        StatusPlace::Before
    } else {
        StatusPlace::Fields(Place::Refused)
    }
}

/// The same, behind so many bytes of the version and the status code.
fn code(count: u8, byte: u8) -> StatusPlace
    ensures { Leads (StatusPlace.Code count) byte result }
{
    if count >= 12 {
        behind_code(count, byte)
    } else if fits(count, byte) {
        StatusPlace::Code(count + 1)
    } else {
        StatusPlace::Fields(Place::Refused)
    }
}

/// The same, behind the whole of them: a blank and the reason phrase follow, or the line's end.
fn behind_code(count: u8, byte: u8) -> StatusPlace
    requires { 12 ≤ count }
    ensures { Leads (StatusPlace.Code count) byte result }
{
    if count != 12 {
        StatusPlace::Fields(Place::Refused)
    } else if byte == b' ' {
        StatusPlace::Fields(Place::Value)
    } else if byte == b'\r' {
        StatusPlace::Fields(Place::ValueReturn)
    } else if byte == b'\n' {
        StatusPlace::Fields(Place::Start)
    } else {
        StatusPlace::Fields(Place::Refused)
    }
}

/// Whether the byte may stand at this place of `HTTP/1.`, 0 or 1, a blank and three digits.
#[tactic(auto, unfolding(crate::specs::Replies::fits))]
fn fits(place: u8, byte: u8) -> bool
    ensures { result ≡ fits place byte }
{
    if place < 7 {
        byte == b"HTTP/1."[place as usize]
    } else if place == 7 {
        is_minor(byte)
    } else if place == 8 {
        byte == b' '
    } else {
        byte.is_ascii_digit()
    }
}

/// Whether the byte is the minor version of HTTP/1.0 or HTTP/1.1.
fn is_minor(byte: u8) -> bool
    ensures { result ≡ ((byte == 48) || (byte == 49)) }
{
    byte == b'0' || byte == b'1'
}

/// Follows bytes as they come, each once, until they show the end of a reply's head, or that there
/// is none.
#[derive(Drop)]
pub(crate) struct ReplyWatch {
    place: StatusPlace,
}

impl ReplyWatch {
    /// A watch that has followed nothing.
    pub(crate) fn new() -> ReplyWatch
        ensures { result.place ≡ StatusPlace.Before }
    {
        ReplyWatch {
            place: StatusPlace::Before,
        }
    }

    /// Follows more bytes.
    pub(crate) fn follow(&mut self, bytes: &[u8])
        ensures { (before : List ℕ) → Tracks before self.old.place
            → Tracks (before ++ bytes.now) self.new.place }
    {
        for byte in bytes {
            if self.place.is_at_end() {
                return;
            }
            self.place = self.place.after(*byte);
        }
    }

    /// Whether the bytes show the head's end, or that there is none.
    pub(crate) fn is_at_end(&self) -> bool
        ensures { result ≡ is_at_end self.now.place }
    {
        self.place.is_at_end()
    }
}
