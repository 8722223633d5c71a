//! Sources and sinks over std's readers and writers: the standard streams, and files.
ghost use Rattle.std.specs.Prelude.{◌≡◌};

use line_base::{Failed, Sink, Source};
use std::io::{Read, Write};

/// A reader of std's as a source.
pub struct ReaderSource<R> {
    inner: R,
    faults: u64,
    ends: u64,
}

impl<R: Drop> Drop for ReaderSource<R> {
    fn drop(self) {
        let ReaderSource {
            inner,
            faults: _,
            ends: _,
        } = self;
        drop(inner);
    }
}

impl<R> ReaderSource<R> {
    /// The source over a reader, with no fault and no end so far.
    pub fn of(inner: R) -> ReaderSource<R>
        ensures inner { result.inner ≡ inner }
        ensures counts { (result.faults ≡ 0) × (result.ends ≡ 0) }
    {
        ReaderSource {
            inner,
            faults: 0,
            ends: 0,
        }
    }
}

impl<R: Read> Source for ReaderSource<R> {
    ghost input = { λ s. record { left = R.remaining s.inner; faults = s.faults; ends = s.ends } };

    fn read(&mut self, into: &mut [u8]) -> Result<usize, Failed> {
        if into.is_empty() {
            return Ok(0);
        }
        match self.inner.read(into) {
            Ok(0) => {
                self.ends = self.ends.saturating_add(1);
                Ok(0)
            }
            Ok(count) => Ok(count),
            Err(_) => {
                self.faults = self.faults.saturating_add(1);
                Err(Failed)
            }
        }
    }
}

/// A writer of std's as a sink.
pub struct WriterSink<W> {
    inner: W,
    faults: u64,
}

impl<W: Drop> Drop for WriterSink<W> {
    fn drop(self) {
        let WriterSink { inner, faults: _ } = self;
        drop(inner);
    }
}

impl<W> WriterSink<W> {
    /// The sink over a writer, with no fault so far.
    pub fn of(inner: W) -> WriterSink<W>
        ensures inner { result.inner ≡ inner }
        ensures faults { result.faults ≡ 0 }
    {
        WriterSink { inner, faults: 0 }
    }
}

impl<W: Write> Sink for WriterSink<W> {
    ghost output = { λ s. record { held = W.contents s.inner; faults = s.faults } };

    fn write(&mut self, bytes: &[u8]) -> Result<usize, Failed> {
        if bytes.is_empty() {
            return Ok(0);
        }
        match self.inner.write(bytes) {
            Ok(count) if count > 0 => Ok(count),
            _ => {
                self.faults = self.faults.saturating_add(1);
                Err(Failed)
            }
        }
    }
}
