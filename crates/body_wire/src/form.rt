//! How content goes on.
ghost use Rattle.std.specs.Prelude.{◌≡◌, ◌++◌, OnErr, OnOk};
ghost use Rattle.body_wire.specs.Chunks.{chunk_end, last_chunk, size_line};
ghost use Rattle.body_wire.specs.Passing.{form_of};

use crate::size::put_size;
use crate::{Bytes, Mem};

/// How the content of a chunked body goes on. A body that is not chunked goes on as it is in both.
#[derive(Clone, Copy)]
pub(crate) enum Form {
    /// Chunk for chunk, each with the size that it had.
    Chunks,
    /// The content alone.
    Content,
}

impl Form {
    /// How a reply's content goes back: in chunks, where the client knows them.
    pub(crate) fn of(chunked: bool) -> Form
        ensures { result ≡ form_of chunked }
    {
        if chunked { Form::Chunks } else { Form::Content }
    }

    /// Puts the line of a chunk of this size behind `out`. An `Err` changes nothing.
    pub(crate) fn put_line(self, out: &mut Bytes, size: u64) -> Mem<()>
        ensures ok { OnOk result (out.new.items ≡ out.old.items ++ size_line self size) }
        ensures err { OnErr result (out.new.items ≡ out.old.items) }
    {
        match self {
            Form::Chunks => put_size(out, size),
            Form::Content => Ok(()),
        }
    }

    /// Puts what ends a chunk behind `out`. An `Err` changes nothing.
    pub(crate) fn put_end(self, out: &mut Bytes) -> Mem<()>
        ensures ok { OnOk result (out.new.items ≡ out.old.items ++ chunk_end self) }
        ensures err { OnErr result (out.new.items ≡ out.old.items) }
    {
        match self {
            Form::Chunks => out.extend_from_slice(b"\r\n"),
            Form::Content => Ok(()),
        }
    }

    /// Puts the last chunk behind `out`. An `Err` changes nothing.
    pub(crate) fn put_last(self, out: &mut Bytes) -> Mem<()>
        ensures ok { OnOk result (out.new.items ≡ out.old.items ++ last_chunk self) }
        ensures err { OnErr result (out.new.items ≡ out.old.items) }
    {
        match self {
            Form::Chunks => out.extend_from_slice(b"0\r\n\r\n"),
            Form::Content => Ok(()),
        }
    }
}
