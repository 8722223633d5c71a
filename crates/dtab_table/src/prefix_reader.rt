//! The reader of a prefix.
ghost use Rattle.std.specs.Prelude.{◌≡◌, None, Some, option_map, IfSome};
ghost use Rattle.name_tree.specs.Taken.{Takes, Ends};

use crate::prefix::{Prefix, PrefixLabel};
use name_tree::{LabelReader, TakeError};
use std::alloc::Global;
use std::mem::replace;

/// A prefix that was read in part, from behind its first `/` on.
pub(crate) struct PrefixReader {
    prefix: Prefix,
    label: LabelReader,
    is_star: bool,
}

impl Drop for PrefixReader {
    fn drop(self) {
        let PrefixReader {
            prefix,
            label,
            is_star: _,
        } = self;
        drop(prefix);
        drop(label);
    }
}

impl PrefixReader {
    ghost use Rattle.dtab_table.specs.Pattern.{pattern_of, IsFilled};
    ghost use Rattle.dtab_table.specs.PrefixReading.{walk_start, next_walk, end_part, end_walk};
    ghost use Rattle.dtab_table.specs.Readers.{walk_of};

    /// The reader behind the first `/`.
    pub(crate) fn new(alloc: Global) -> PrefixReader
        ensures { walk_of result ≡ walk_start }
    {
        PrefixReader {
            prefix: Prefix::root(alloc),
            label: LabelReader::new(alloc),
            is_star: false,
        }
    }

    /// Takes the next byte in. After an `Err` the reader is of no use.
    pub(crate) fn take(&mut self, alloc: Global, byte: u8) -> Result<(), TakeError>
        ensures { Takes (next_walk (walk_of self.old) byte) (walk_of self.new) result }
    {
        if byte == b'/' {
            let Some(label) = self.end_label(alloc) else {
                return Err(TakeError::Byte);
            };
            self.prefix.push(label)?;
            return Ok(());
        }
        if byte == b'*' {
            if self.is_star || !self.label.is_new() {
                return Err(TakeError::Byte);
            }
            self.is_star = true;
            return Ok(());
        }
        if self.is_star {
            return Err(TakeError::Byte);
        }
        self.label.take(byte)
    }

    /// The label that is read, if it may end here. It is gone then.
    fn end_label(&mut self, alloc: Global) -> Option<PrefixLabel>
        ensures label { option_map pattern_of result ≡ end_part (walk_of self.old).part }
        ensures filled { IfSome result (λ label. IsFilled (pattern_of label)) }
        ensures rest { walk_of self.new ≡ record walk_start { before = (walk_of self.old).before } }
    {
        let label = replace(&mut self.label, LabelReader::new(alloc));
        if self.is_star {
            self.is_star = false;
            return Some(PrefixLabel::Star);
        }
        match label.end() {
            Some(bytes) => Some(PrefixLabel::Label(bytes)),
            None => None,
        }
    }

    /// The prefix, if it may end here.
    pub(crate) fn end(mut self, alloc: Global) -> Result<Prefix, TakeError>
        ensures { Ends (λ prefix. prefix) (end_walk (walk_of self)) result }
    {
        if self.prefix.is_empty() && !self.is_star && self.label.is_new() {
            return Ok(self.into_prefix());
        }
        let Some(label) = self.end_label(alloc) else {
            return Err(TakeError::Byte);
        };
        let mut prefix = self.into_prefix();
        prefix.push(label)?;
        Ok(prefix)
    }

    /// The labels before the one that is read.
    fn into_prefix(self) -> Prefix
        ensures { result ≡ self.prefix }
    {
        let PrefixReader {
            prefix,
            label,
            is_star: _,
        } = self;
        drop(label);
        prefix
    }
}
