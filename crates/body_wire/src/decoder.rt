//! What of a body was taken, and what comes next.
ghost use Rattle.std.specs.Prelude.{◌≡◌, ◌+◌, ◌<◌, ◌≤◌, [], ℕ, List, length, min};
ghost use Rattle.http_wire.specs.declared.frames.Framing.{Framing};
ghost use Rattle.httparse.specs.Grammar.{ChunkLine, chunk_size, print_chunk_line};
ghost use Rattle.body_wire.specs.Chunks.{IsLine, size_line};
ghost use Rattle.body_wire.specs.Places.{left_at, seen_at};

use crate::form::Form;
use crate::line::{LineSeen, line_at};
use crate::trailers::{Followed, LineAt, follow};
use crate::{Bytes, Mem};
use http_wire::Framing;

/// The most bytes of trailers, their empty line included.
const MOST_TRAILERS: usize = 65536;

/// What the next byte of a body belongs to.
#[derive(Clone, Copy)]
pub(crate) enum Place {
    /// Content of a stated length, of which so much is left.
    Counted { left: u64 },
    /// Content that runs to the end of the connection. So much more is within the limit.
    ToEnd { left: u64 },
    /// The line of a chunk.
    Line,
    /// The content of a chunk, of which so much is left, or the line end behind it.
    Content { left: u64 },
    /// The trailers, whose line stands at `at` behind the `seen` bytes of them that were taken.
    Trailers { at: LineAt, seen: usize },
    /// Nothing: the length is over the limit.
    LongLength,
    /// Nothing: the line of a chunk announced content over the limit.
    LongChunk,
    /// Nothing: the trailers have ended.
    Whole,
}

impl Place {
    ghost use Rattle.body_wire.specs.Places.{IsRun, behind};

    /// How many of so many bytes are content, from the first one on.
    fn run(self, kept: usize) -> usize
        ensures within { result ≤ kept }
        ensures left { result ≤ left_at self }
        ensures content { 0 < result → IsRun self }
        ensures all { IsRun self → result ≡ min (left_at self) kept }
    {
        match self {
            Place::Counted { left } | Place::ToEnd { left } | Place::Content { left } => {
                left.min(kept as u64) as usize
            }
            _ => 0,
        }
    }

    /// The place behind so many bytes of its content.
    fn behind(self, run: u64) -> Place
        requires { run ≤ left_at self }
        ensures { result ≡ behind self run }
    {
        match self {
            Place::Counted { left } => Place::Counted { left: left - run },
            Place::ToEnd { left } => Place::ToEnd { left: left - run },
            Place::Content { left } => Place::Content { left: left - run },
            Place::Line
            | Place::Trailers { .. }
            | Place::LongLength
            | Place::LongChunk
            | Place::Whole => self,
        }
    }
}

/// Why a decoder takes no more of the bytes before it.
#[derive(Clone, Copy)]
pub(crate) enum StopCause {
    /// It wants more bytes.
    More,
    /// The body is whole; one that runs to the end never is.
    Whole,
    /// The body is badly chunked.
    Bad,
    /// The body is over the limit.
    TooLong,
}

/// What one step came to.
#[derive(Clone, Copy)]
pub(crate) enum Step {
    /// The first so many bytes were taken, one at least.
    Moved(usize),
    /// None were.
    Stopped(StopCause),
}

/// Follows a body through bytes that come in any pieces, and says what of it goes on. It keeps none
/// of its bytes.
#[derive(Clone, Copy)]
pub(crate) struct Decoder {
    /// How the content goes on.
    pub(crate) form: Form,
    /// The most content bytes.
    pub(crate) limit: u64,
    /// How many content bytes were taken.
    pub(crate) count: u64,
    /// What the next byte belongs to.
    pub(crate) place: Place,
    ghost within: { count + left_at place ≤ limit },
    ghost bounded: { seen_at place ≤ 65536 },
}

impl Decoder {
    ghost use Rattle.body_wire.specs.Places.{IsRun};
    ghost use Rattle.body_wire.specs.Stands.{Holds, GoesOn, Steps};

    /// A decoder that has taken nothing of a body of this framing.
    pub(crate) fn of(framing: Framing, form: Form, limit: u64) -> Decoder
        ensures holds { Holds framing result [] [] }
        ensures form { result.form ≡ form }
        ensures limit { result.limit ≡ limit }
    {
        let place = match framing {
            Framing::Nothing => Place::Counted { left: 0 },
            Framing::Length(length) if length <= limit => Place::Counted { left: length },
            Framing::Length(_) => Place::LongLength,
            Framing::Chunked => Place::Line,
            Framing::ToEnd => Place::ToEnd { left: limit },
        };
        Decoder {
            form,
            limit,
            count: 0,
            place,
        }
    }

    /// How many of so many bytes are content, from the first one on.
    pub(crate) fn run(&self, kept: usize) -> usize
        ensures within { result ≤ kept }
        ensures left { result ≤ left_at self.now.place }
        ensures content { 0 < result → IsRun self.now.place }
        ensures all { IsRun self.now.place → result ≡ min (left_at self.now.place) kept }
    {
        self.place.run(kept)
    }

    /// Takes so many bytes of content, which go on as they are.
    pub(crate) fn pass(&mut self, run: usize)
        requires left { run ≤ left_at self.old.place }
        requires content { IsRun self.old.place }
        ensures { (bytes : List ℕ) → length bytes ≡ run → GoesOn self.old self.new bytes bytes }
    {
        self.count += run as u64;
        self.place = self.place.behind(run as u64);
    }

    /// Takes one step over the bytes that are kept, and puts what goes on behind `out`. Want of
    /// memory changes nothing.
    pub(crate) fn step(&mut self, kept: &[u8], out: &mut Bytes) -> Mem<Step>
        ensures { Steps self.old self.new kept.now out.old.items out.new.items result }
    {
        match self.place {
            Place::Counted { left: 0 } => Ok(Step::Stopped(StopCause::Whole)),
            Place::ToEnd { left: 0 } if kept.is_empty() => Ok(Step::Stopped(StopCause::More)),
            Place::ToEnd { left: 0 } => Ok(Step::Stopped(StopCause::TooLong)),
            Place::Content { left: 0 } => self.chunk_end(kept, out),
            Place::Counted { .. } | Place::ToEnd { .. } | Place::Content { .. } => {
                self.content(kept, out)
            }
            Place::Line => self.line(kept, out),
            Place::Trailers { at, seen } => self.trailers(at, seen, kept, out),
            Place::LongLength | Place::LongChunk => Ok(Step::Stopped(StopCause::TooLong)),
            Place::Whole => Ok(Step::Stopped(StopCause::Whole)),
        }
    }

    /// Takes content, as much as is left and is there.
    fn content(&mut self, kept: &[u8], out: &mut Bytes) -> Mem<Step>
        requires content { IsRun self.old.place }
        requires some { 0 < left_at self.old.place }
        ensures { Steps self.old self.new kept.now out.old.items out.new.items result }
    {
        let run = self.run(kept.len());
        if run == 0 {
            return Ok(Step::Stopped(StopCause::More));
        }
        out.extend_from_slice(&kept[..run])?;
        self.pass(run);
        Ok(Step::Moved(run))
    }

    /// Takes the line of a chunk.
    fn line(&mut self, kept: &[u8], out: &mut Bytes) -> Mem<Step>
        requires { self.old.place ≡ Place.Line }
        ensures { Steps self.old self.new kept.now out.old.items out.new.items result }
    {
        match line_at(kept) {
            LineSeen::Open => Ok(Step::Stopped(StopCause::More)),
            LineSeen::Bad => Ok(Step::Stopped(StopCause::Bad)),
            LineSeen::Found(len, 0) => {
                self.begin_trailers();
                Ok(Step::Moved(len))
            }
            LineSeen::Found(len, size) => {
                self.form.put_line(out, size)?;
                self.begin_chunk(size);
                Ok(Step::Moved(len))
            }
        }
    }

    /// Goes on into a chunk of this size, where the limit allows it.
    fn begin_chunk(&mut self, size: u64)
        requires place { self.old.place ≡ Place.Line }
        requires some { 0 < size }
        ensures { (line : ChunkLine) → IsLine line → size ≡ chunk_size line
            → GoesOn self.old self.new (print_chunk_line line) (size_line self.old.form size) }
    {
        if size <= self.limit - self.count {
            self.place = Place::Content { left: size };
        } else {
            self.place = Place::LongChunk;
        }
    }

    /// Goes on into the trailers.
    fn begin_trailers(&mut self)
        requires { self.old.place ≡ Place.Line }
        ensures { (line : ChunkLine) → IsLine line → chunk_size line ≡ 0
            → GoesOn self.old self.new (print_chunk_line line) [] }
    {
        self.place = Place::Trailers {
            at: LineAt::Fresh,
            seen: 0,
        };
    }

    /// Takes the line end behind the content of a chunk.
    fn chunk_end(&mut self, kept: &[u8], out: &mut Bytes) -> Mem<Step>
        requires { self.old.place ≡ Place.Content 0 }
        ensures { Steps self.old self.new kept.now out.old.items out.new.items result }
    {
        match kept {
            [] | [b'\r'] => Ok(Step::Stopped(StopCause::More)),
            [b'\r', b'\n', ..] => {
                self.form.put_end(out)?;
                self.place = Place::Line;
                Ok(Step::Moved(2))
            }
            _ => Ok(Step::Stopped(StopCause::Bad)),
        }
    }

    /// Takes trailers, up to the end of the empty line.
    fn trailers(&mut self, at: LineAt, seen: usize, kept: &[u8], out: &mut Bytes) -> Mem<Step>
        requires { self.old.place ≡ Place.Trailers at seen }
        ensures { Steps self.old self.new kept.now out.old.items out.new.items result }
    {
        let run = kept.len().min(MOST_TRAILERS - seen);
        if seen == MOST_TRAILERS {
            return Ok(Step::Stopped(StopCause::Bad));
        }
        if run == 0 {
            return Ok(Step::Stopped(StopCause::More));
        }
        match follow(at, &kept[..run]) {
            Followed::Open(line) => {
                self.place = Place::Trailers {
                    at: line,
                    seen: seen + run,
                };
                Ok(Step::Moved(run))
            }
            Followed::Ended(count) => {
                self.form.put_last(out)?;
                self.place = Place::Whole;
                Ok(Step::Moved(count))
            }
        }
    }
}
