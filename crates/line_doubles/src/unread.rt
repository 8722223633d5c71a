//! Bytes that are given away from the front.
ghost use Rattle.std.specs.Prelude.{◌≡◌, ◌≤◌, length, take, drop, min};

use std::marker::Model;

/// Bytes that are given away from the front. Contracts see those that are left.
pub(crate) struct Unread {
    bytes: Vec<u8>,
    at: usize,
}

impl Drop for Unread {
    fn drop(self) {
        let Unread { bytes, at: _ } = self;
        drop(bytes);
    }
}

impl Model for Unread {
    ghost use Rattle.std.specs.Prelude.{◌≤◌, List, ℕ, drop, vec_len};

    ghost Value = { List ℕ };

    ghost view = { λ u. drop u.at u.bytes.items };

    ghost invariant = { λ u. u.at ≤ vec_len u.bytes };
}

impl Unread {
    /// All of these bytes are left.
    pub(crate) fn of(bytes: Vec<u8>) -> Unread
        ensures { result ≡ bytes.items }
    {
        Unread { bytes, at: 0 }
    }

    /// The bytes that are left.
    pub(crate) fn left(&self) -> &[u8]
        ensures { result.now ≡ self.now }
    {
        &self.bytes[self.at..]
    }

    /// Gives as many bytes as there are, but no more than there is room for, and no more than
    /// `most`.
    pub(crate) fn give(&mut self, into: &mut [u8], most: usize) -> usize
        ensures count { result ≡ min (min (length into.new) most) (length self.old) }
        ensures given { take result into.new ≡ take result self.old }
        ensures rest { self.new ≡ drop result self.old }
    {
        let count = into.len().min(most).min(self.bytes.len() - self.at);
        let end = self.at + count;
        into[..count].copy_from_slice(&self.bytes[self.at..end]);
        self.at = end;
        count
    }
}
