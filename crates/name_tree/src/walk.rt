//! The reader of a path.
ghost use Rattle.std.specs.Prelude.{◌≡◌, Some};
ghost use Rattle.name_tree.specs.Taken.{Takes, Ends};

use crate::label::{LabelReader, TakeError};
use crate::path::Path;
use std::alloc::Global;
use std::mem::replace;

/// A path that was read in part, from behind its first `/` on.
pub(crate) struct PathReader {
    path: Path,
    label: LabelReader,
}

impl Drop for PathReader {
    fn drop(self) {
        let PathReader { path, label } = self;
        drop(path);
        drop(label);
    }
}

impl PathReader {
    ghost use Rattle.name_tree.specs.PathReading.{walk_start, next_walk, end_walk};
    ghost use Rattle.name_tree.specs.Readers.{walk_of};

    /// The reader behind the first `/`.
    pub(crate) fn new(alloc: Global) -> PathReader
        ensures { walk_of result ≡ walk_start }
    {
        PathReader {
            path: Path::new(alloc),
            label: LabelReader::new(alloc),
        }
    }

    /// Takes the next byte in. After an `Err` the reader is of no use.
    pub(crate) fn take(&mut self, alloc: Global, byte: u8) -> Result<(), TakeError>
        ensures { Takes (next_walk (walk_of self.old) byte) (walk_of self.new) result }
    {
        if byte != b'/' {
            return self.label.take(byte);
        }
        let Some(label) = replace(&mut self.label, LabelReader::new(alloc)).end() else {
            return Err(TakeError::Byte);
        };
        self.path.push(label)?;
        Ok(())
    }

    /// The path, if it may end here.
    pub(crate) fn end(self) -> Result<Path, TakeError>
        ensures { Ends (λ path. path) (end_walk (walk_of self)) result }
    {
        let PathReader { mut path, label } = self;
        if path.is_empty() && label.is_new() {
            drop(label);
            return Ok(path);
        }
        let Some(label) = label.end() else {
            drop(path);
            return Err(TakeError::Byte);
        };
        let Ok(()) = path.push(label) else {
            drop(path);
            return Err(TakeError::OutOfMemory);
        };
        Ok(path)
    }
}
