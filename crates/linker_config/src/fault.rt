//! Why a configuration is refused.
ghost use Rattle.std.specs.Prelude.{◌≡◌};

use crate::Bytes;
use std::alloc::AllocError;
use std::fmt;
use std::marker::Model;
use thiserror::Error;

/// A key of a configuration, from the top, as `routers[0].servers[0].port`; `top` is the whole.
/// Contracts see the list of its bytes.
#[derive(Debug)]
pub struct Key {
    bytes: Bytes,
}

impl Drop for Key {
    fn drop(self) {
        let Key { bytes } = self;
        drop(bytes);
    }
}

impl Model for Key {
    ghost use Rattle.std.specs.Prelude.{List, ℕ};

    ghost Value = { List ℕ };

    ghost view = { λ k. k.bytes.items };
}

impl Key {
    /// The key of these bytes. It takes no memory.
    pub fn of(bytes: Bytes) -> Key
        ensures { result ≡ bytes.items }
    {
        Key { bytes }
    }

    /// Its bytes.
    pub fn bytes(&self) -> &[u8]
        ensures { result.now ≡ self.now }
    {
        self.bytes.as_slice()
    }
}

impl fmt::Display for Key {
    /// Bytes that are no UTF-8 are shown as U+FFFD.
    fn fmt<W: fmt::Write>(&self, f: &mut fmt::Formatter<W>) -> fmt::Result {
        for chunk in self.bytes().utf8_chunks() {
            f.write_str(chunk.valid())?;
            if !chunk.invalid().is_empty() {
                f.write_char(char::REPLACEMENT_CHARACTER)?;
            }
        }
        Ok(())
    }
}

/// Why a configuration is refused: the first fault of it.
#[derive(Debug, Drop, Error)]
pub enum ConfigFault {
    /// The text is no JSON.
    #[error("config json")]
    BadJson,
    /// There is no such key.
    #[error("config {0} unknown")]
    Unknown(Key),
    /// The value under this key is of a wrong type, out of its range, or refused by its reader.
    #[error("config {0} bad")]
    Bad(Key),
    /// This key has to be there, and is not.
    #[error("config {0} missing")]
    Missing(Key),
    /// There was no memory for it.
    #[error("out of memory")]
    OutOfMemory,
}

impl From<AllocError> for ConfigFault {
    ghost use Rattle.linker_config.specs.declared.fault.ConfigFault.{ConfigFault};

    ghost from_gives = { λ _ fault. fault ≡ ConfigFault.OutOfMemory };

    fn from(_error: AllocError) -> ConfigFault {
        ConfigFault::OutOfMemory
    }
}
