//! Trailers, up to their empty line.
ghost use Rattle.std.specs.Prelude.{◌≡◌};
ghost use Rattle.body_wire.specs.Chunks.{line_after};
ghost use Rattle.body_wire.specs.Pieces.{Follows};

/// Where a line of the trailers stands.
#[derive(Clone, Copy)]
pub(crate) enum LineAt {
    /// At its first byte.
    Fresh,
    /// Behind a carriage return that is its first byte.
    Return,
    /// Behind another byte.
    Inside,
}

impl LineAt {
    /// Where it stands behind one byte more; nowhere, where the byte ends an empty line.
    fn after(self, byte: u8) -> Option<LineAt>
        ensures { result ≡ line_after self byte }
    {
        match self {
            LineAt::Fresh | LineAt::Return if byte == b'\n' => None,
            LineAt::Fresh if byte == b'\r' => Some(LineAt::Return),
            LineAt::Inside if byte == b'\n' => Some(LineAt::Fresh),
            _ => Some(LineAt::Inside),
        }
    }
}

/// What following some bytes of trailers came to.
#[derive(Clone, Copy)]
pub(crate) enum Followed {
    /// The first so many bytes end the trailers.
    Ended(usize),
    /// All bytes are of the trailers, whose line stands here then.
    Open(LineAt),
}

/// Follows trailers whose line stands at this place, byte by byte, up to the end of the empty line.
pub(crate) fn follow(at: LineAt, bytes: &[u8]) -> Followed
    ensures { Follows at bytes.now result }
{
    let mut line = at;
    for (index, byte) in bytes.iter().enumerate() {
        match line.after(*byte) {
            None => return Followed::Ended(index + 1),
            Some(next) => line = next,
        }
    }
    Followed::Open(line)
}
