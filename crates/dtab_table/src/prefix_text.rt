//! The reader of a prefix's text, which has blanks at both ends.
ghost use Rattle.std.specs.Prelude.{◌≡◌};
ghost use Rattle.dtab_table.specs.PrefixReading.{is_prefix_byte};
ghost use Rattle.name_tree.specs.Taken.{Takes, Ends};

use crate::prefix::Prefix;
use crate::prefix_reader::PrefixReader;
use name_tree::{TakeError, is_blank_byte, is_in_paths};
use std::alloc::Global;
use std::mem::replace;

/// Where in a prefix's text a reader stands.
#[derive(Clone, Copy)]
pub(crate) enum PrefixPlace {
    /// In the blanks before it.
    Before,
    /// In it.
    Inside,
    /// In the blanks behind it.
    Behind,
}

/// A prefix's text that was read in part.
pub(crate) struct PrefixTextReader {
    place: PrefixPlace,
    reader: PrefixReader,
    prefix: Prefix,
}

impl Drop for PrefixTextReader {
    fn drop(self) {
        let PrefixTextReader {
            place: _,
            reader,
            prefix,
        } = self;
        drop(reader);
        drop(prefix);
    }
}

/// Whether the byte may stand in a prefix.
pub(crate) fn is_in_prefixes(byte: u8) -> bool
    ensures { result ≡ is_prefix_byte byte }
{
    is_in_paths(byte) || byte == b'*'
}

impl PrefixTextReader {
    ghost use Rattle.dtab_table.specs.PrefixReading.{before, next_prefix, end_prefix};
    ghost use Rattle.dtab_table.specs.Readers.{prefix_at_of};

    /// The reader before a text.
    pub(crate) fn new(alloc: Global) -> PrefixTextReader
        ensures { prefix_at_of result ≡ before }
    {
        PrefixTextReader {
            place: PrefixPlace::Before,
            reader: PrefixReader::new(alloc),
            prefix: Prefix::root(alloc),
        }
    }

    /// Takes the next byte in. After an `Err` the reader is of no use.
    pub(crate) fn take(&mut self, alloc: Global, byte: u8) -> Result<(), TakeError>
        ensures { Takes (next_prefix (prefix_at_of self.old) byte) (prefix_at_of self.new) result }
    {
        match self.place {
            PrefixPlace::Before => {
                if is_blank_byte(byte) {
                    return Ok(());
                }
                if byte != b'/' {
                    return Err(TakeError::Byte);
                }
                self.reader = PrefixReader::new(alloc);
                self.place = PrefixPlace::Inside;
                Ok(())
            }
            PrefixPlace::Inside => {
                if is_in_prefixes(byte) {
                    return self.reader.take(alloc, byte);
                }
                if !is_blank_byte(byte) {
                    return Err(TakeError::Byte);
                }
                self.prefix = replace(&mut self.reader, PrefixReader::new(alloc)).end(alloc)?;
                self.place = PrefixPlace::Behind;
                Ok(())
            }
            PrefixPlace::Behind => {
                if !is_blank_byte(byte) {
                    return Err(TakeError::Byte);
                }
                Ok(())
            }
        }
    }

    /// The prefix, if its text may end here.
    pub(crate) fn end(self, alloc: Global) -> Result<Prefix, TakeError>
        ensures { Ends (λ prefix. prefix) (end_prefix (prefix_at_of self)) result }
    {
        let PrefixTextReader {
            place,
            reader,
            prefix,
        } = self;
        match place {
            PrefixPlace::Before => {
                drop(reader);
                drop(prefix);
                Err(TakeError::Byte)
            }
            PrefixPlace::Inside => {
                drop(prefix);
                reader.end(alloc)
            }
            PrefixPlace::Behind => {
                drop(reader);
                Ok(prefix)
            }
        }
    }
}
