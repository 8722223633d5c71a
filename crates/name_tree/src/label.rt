//! The reader of a label.
ghost use Rattle.std.specs.Prelude.{◌≡◌, ◌<◌, length, [], None, Some, option_map, IfSome, IsTrue};
ghost use Rattle.std.specs.Prelude.{◌↔◌};
ghost use Rattle.name_tree.specs.Path.{is_plain};
ghost use Rattle.name_tree.specs.Grammar.{is_blank, hex_value};
ghost use Rattle.name_tree.specs.Taken.{Takes};

use std::alloc::{AllocError, AllocFailed, Global};
use thiserror::Error;

/// Why a byte was not taken in.
#[derive(Clone, Copy, Debug, PartialEq, Eq, Error)]
pub enum TakeError {
    /// No text goes on with it.
    #[error("no text goes on with the byte")]
    Byte,
    /// There was no memory for what it adds.
    #[error("out of memory")]
    OutOfMemory,
}

impl From<AllocError> for TakeError {
    ghost use Rattle.name_tree.specs.declared.label.TakeError.{TakeError};

    ghost from_gives = { λ _ error. error ≡ TakeError.OutOfMemory };

    fn from(_error: AllocError) -> TakeError {
        TakeError::OutOfMemory
    }
}

impl<T: Drop> From<AllocFailed<T>> for TakeError {
    ghost use Rattle.name_tree.specs.declared.label.TakeError.{TakeError};

    ghost from_gives = { λ _ error. error ≡ TakeError.OutOfMemory };

    fn from(_error: AllocFailed<T>) -> TakeError {
        TakeError::OutOfMemory
    }
}

/// Whether the byte stands for itself in a text: a letter, a digit, or one of `_ : . # $ % -`.
#[tactic(auto, unfolding(crate::specs::Path::is_plain))]
pub fn is_plain_byte(byte: u8) -> bool
    ensures { result ≡ is_plain byte }
{
    byte.is_ascii_alphanumeric()
        || byte == b'_'
        || byte == b':'
        || byte == b'.'
        || byte == b'#'
        || byte == b'$'
        || byte == b'%'
        || byte == b'-'
}

/// Whether the byte is a space, a tab, a CR or an LF.
pub fn is_blank_byte(byte: u8) -> bool
    ensures { result ≡ is_blank byte }
{
    byte == b' ' || byte == b'\t' || byte == b'\r' || byte == b'\n'
}

/// What a hexadecimal digit stands for.
#[derive(Clone, Copy, PartialEq, Eq)]
pub(crate) struct HexDigit {
    pub(crate) value: u8,
    ghost below: { value < 16 },
}

/// What the byte stands for, if it is a hexadecimal digit of either case.
pub(crate) fn hex_digit(byte: u8) -> Option<HexDigit>
    ensures { option_map (λ digit. digit.value) result ≡ hex_value byte }
{
    let value = match byte {
        b'0'..=b'9' => byte - b'0',
        b'A'..=b'F' => byte - b'A' + 10,
        b'a'..=b'f' => byte - b'a' + 10,
        _ => return None,
    };
    Some(HexDigit { value })
}

/// How far the next byte of a label is read.
#[derive(Clone, Copy, PartialEq, Eq)]
pub(crate) enum InLabel {
    /// Not at all.
    Bytes,
    /// Its `\`.
    Escape,
    /// Its `\x`.
    Hex,
    /// Its `\x` and a digit.
    Digit(HexDigit),
}

/// A label that was read in part.
pub struct LabelReader {
    bytes: Vec<u8>,
    place: InLabel,
}

impl Drop for LabelReader {
    fn drop(self) {
        let LabelReader { bytes, place: _ } = self;
        drop(bytes);
    }
}

impl LabelReader {
    ghost use Rattle.name_tree.specs.LabelReading.{next_spelling, end_spelling};
    ghost use Rattle.name_tree.specs.Readers.{spelling_of};
    ghost use Rattle.name_tree.specs.LabelReading.Spelling.{bytes};

    /// The reader before a label.
    pub fn new(alloc: Global) -> LabelReader
        ensures { spelling_of result ≡ bytes [] }
    {
        LabelReader {
            bytes: Vec::new(alloc),
            place: InLabel::Bytes,
        }
    }

    /// Takes the next byte in. After an `Err` the reader is of no use.
    pub fn take(&mut self, byte: u8) -> Result<(), TakeError>
        ensures { Takes (next_spelling (spelling_of self.old) byte) (spelling_of self.new) result }
    {
        match self.place {
            InLabel::Bytes => {
                if is_plain_byte(byte) {
                    self.bytes.push(byte)?;
                    return Ok(());
                }
                if byte != b'\\' {
                    return Err(TakeError::Byte);
                }
                self.place = InLabel::Escape;
                Ok(())
            }
            InLabel::Escape => {
                if byte != b'x' {
                    return Err(TakeError::Byte);
                }
                self.place = InLabel::Hex;
                Ok(())
            }
            InLabel::Hex => {
                let Some(high) = hex_digit(byte) else {
                    return Err(TakeError::Byte);
                };
                self.place = InLabel::Digit(high);
                Ok(())
            }
            InLabel::Digit(high) => {
                let Some(low) = hex_digit(byte) else {
                    return Err(TakeError::Byte);
                };
                self.bytes.push(16 * high.value + low.value)?;
                self.place = InLabel::Bytes;
                Ok(())
            }
        }
    }

    /// Whether nothing of a label was read.
    pub fn is_new(&self) -> bool
        ensures { IsTrue result ↔ (spelling_of self.now ≡ bytes []) }
    {
        self.place == InLabel::Bytes && self.bytes.is_empty()
    }

    /// The label, if it may end here.
    pub fn end(self) -> Option<Vec<u8>>
        ensures label { option_map (λ label. label.items) result ≡ end_spelling (spelling_of self) }
        ensures filled { IfSome result (λ label. 0 < length label.items) }
    {
        let LabelReader { bytes, place } = self;
        match place {
            InLabel::Bytes if !bytes.is_empty() => Some(bytes),
            _ => None,
        }
    }
}
