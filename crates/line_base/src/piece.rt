//! The bytes that one call moved.
ghost use Rattle.std.specs.Prelude.{◌≡◌};

use std::marker::Model;

/// The bytes that one call moved. Contracts see it as the list of them.
pub struct Piece {
    bytes: Vec<u8>,
}

impl Drop for Piece {
    fn drop(self) {
        let Piece { bytes } = self;
        drop(bytes);
    }
}

impl Model for Piece {
    ghost use Rattle.std.specs.Prelude.{List, ℕ};

    ghost Value = { List ℕ };

    ghost view = { λ p. p.bytes.items };
}

impl Piece {
    /// The piece of these bytes. It takes no memory.
    pub fn of(bytes: Vec<u8>) -> Piece
        ensures { result ≡ bytes.items }
    {
        Piece { bytes }
    }

    /// Its bytes.
    pub fn bytes(&self) -> &[u8]
        ensures { result.now ≡ self.now }
    {
        self.bytes.as_slice()
    }
}
