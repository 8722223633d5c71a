//! The reader of a path's text, which has blanks at both ends.
ghost use Rattle.std.specs.Prelude.{◌≡◌};
ghost use Rattle.name_tree.specs.LabelReading.{is_path_byte};
ghost use Rattle.name_tree.specs.Taken.{Takes, Ends};

use crate::label::{TakeError, is_blank_byte, is_plain_byte};
use crate::path::Path;
use crate::walk::PathReader;
use std::alloc::Global;
use std::mem::replace;

/// Where in a path's text a reader stands.
#[derive(Clone, Copy)]
pub(crate) enum PathPlace {
    /// In the blanks before it.
    Before,
    /// In it.
    Inside,
    /// In the blanks behind it.
    Behind,
}

/// A path's text that was read in part.
#[derive(Drop)]
pub(crate) struct PathTextReader {
    place: PathPlace,
    reader: PathReader,
    path: Path,
}

/// Whether the byte may stand in a path.
pub fn is_in_paths(byte: u8) -> bool
    ensures { result ≡ is_path_byte byte }
{
    is_plain_byte(byte) || byte == b'/' || byte == b'\\'
}

impl PathTextReader {
    ghost use Rattle.name_tree.specs.PathReading.{before, next_path, end_path};
    ghost use Rattle.name_tree.specs.Readers.{path_at_of};

    /// The reader before a text.
    pub(crate) fn new(alloc: Global) -> PathTextReader
        ensures { path_at_of result ≡ before }
    {
        PathTextReader {
            place: PathPlace::Before,
            reader: PathReader::new(alloc),
            path: Path::new(alloc),
        }
    }

    /// Takes the next byte in. After an `Err` the reader is of no use.
    pub(crate) fn take(&mut self, alloc: Global, byte: u8) -> Result<(), TakeError>
        ensures { Takes (next_path (path_at_of self.old) byte) (path_at_of self.new) result }
    {
        match self.place {
            PathPlace::Before => {
                if is_blank_byte(byte) {
                    return Ok(());
                }
                if byte != b'/' {
                    return Err(TakeError::Byte);
                }
                self.reader = PathReader::new(alloc);
                self.place = PathPlace::Inside;
                Ok(())
            }
            PathPlace::Inside => {
                if is_in_paths(byte) {
                    return self.reader.take(alloc, byte);
                }
                if !is_blank_byte(byte) {
                    return Err(TakeError::Byte);
                }
                self.path = replace(&mut self.reader, PathReader::new(alloc)).end()?;
                self.place = PathPlace::Behind;
                Ok(())
            }
            PathPlace::Behind => {
                if !is_blank_byte(byte) {
                    return Err(TakeError::Byte);
                }
                Ok(())
            }
        }
    }

    /// The path, if its text may end here.
    pub(crate) fn end(self) -> Result<Path, TakeError>
        ensures { Ends (λ path. path) (end_path (path_at_of self)) result }
    {
        match self.place {
            PathPlace::Before => {
                drop(self);
                Err(TakeError::Byte)
            }
            PathPlace::Inside => self.reader.end(),
            PathPlace::Behind => Ok(self.path),
        }
    }
}
