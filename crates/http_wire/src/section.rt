//! The field lines of a head, byte by byte.
ghost use Rattle.std.specs.Prelude.{◌≡◌, ◌==◌, if◌then◌else◌};
ghost use Rattle.http_wire.specs.Places.{is_over, Leads};

use httparse::{is_header_name_token, is_header_value_token};

/// Where the next byte of the field lines stands. What may follow there, up to the head's end, is
/// `Completes` of `specs/Places.antt`.
#[derive(Clone, Copy)]
pub(crate) enum Place {
    /// A line's first byte.
    Start,
    /// A field's name, behind its first byte.
    Name,
    /// A field's value.
    Value,
    /// The line feed of a field.
    ValueReturn,
    /// The line feed of the empty line that ends the head.
    LastReturn,
    /// Nowhere: the head has ended.
    Ended,
    /// Nowhere: there is no head, whatever follows.
    Refused,
}

impl Place {
    /// The place behind one more byte.
    pub(crate) fn after(self, byte: u8) -> Place
        ensures { Leads self byte result }
    {
        match self {
            Place::Start => start(byte),
            Place::Name => name(byte),
            Place::Value => value(byte),
            Place::ValueReturn => feed(byte, Place::Start),
            Place::LastReturn => feed(byte, Place::Ended),
            Place::Ended | Place::Refused => Place::Refused,
        }
    }

    /// Whether the bytes show the head's end, or that there is none.
    pub(crate) fn is_over(self) -> bool
        ensures { result ≡ is_over self }
    {
        matches!(self, Place::Ended | Place::Refused)
    }
}

/// The place behind a line's first byte.
fn start(byte: u8) -> Place
    ensures { Leads Place.Start byte result }
{
    if byte == b'\r' {
        Place::LastReturn
    } else if byte == b'\n' {
        Place::Ended
    } else if is_header_name_token(byte) {
        Place::Name
    } else {
        Place::Refused
    }
}

/// The place behind a byte of a field's name.
fn name(byte: u8) -> Place
    ensures { Leads Place.Name byte result }
{
    if byte == b':' {
        Place::Value
    } else if is_header_name_token(byte) {
        Place::Name
    } else {
        Place::Refused
    }
}

/// The place behind a byte of a value.
fn value(byte: u8) -> Place
    ensures { Leads Place.Value byte result }
{
    if byte == b'\n' {
        Place::Start
    } else if byte == b'\r' {
        Place::ValueReturn
    } else if is_header_value_token(byte) {
        Place::Value
    } else {
        Place::Refused
    }
}

/// The place behind a byte that has to be a line feed.
fn feed(byte: u8, next: Place) -> Place
    ensures { result ≡ (if byte == 10 then next else Place.Refused) }
{
    if byte == b'\n' { next } else { Place::Refused }
}
