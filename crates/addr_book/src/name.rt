//! Names of services.
ghost use Rattle.std.specs.Prelude.{◌≡◌, ℕ, List, OnOk, IfOk, IfErr, IsTrue, ◌↔◌, nat_eq, refl};
ghost use Rattle.std.specs.Prelude.{IsFalse, None, Some};
ghost use Rattle.std.specs.Cmp.{partial_equiv_from_equiv};
ghost use Rattle.std.specs.Cmp.Lexicographic.{pointwise, slice_cmp, nat_list_eq_equiv};
ghost use Rattle.std.specs.Cmp.Lexicographic.{nat_list_cmp_total, texts_po, texts_ties};
ghost use Rattle.std.specs.Ordering.{nat_cmp};
ghost use Rattle.std.specs.Arc.{arc_slice_items};
ghost use Rattle.addr_book.specs.Name.{IsName, is_name_byte, name_of};

use crate::Mem;
use std::alloc::{AllocError, Global};
use std::cmp::Ordering;
use std::fmt;
use std::marker::Model;
use std::sync::ArcSlice;
use thiserror::Error;

/// The most bytes of a name.
pub const MOST_NAME_BYTES: usize = 255;

/// A name of a service or of a namespace: 1 to 255 bytes, each an ASCII letter, a digit, or one of
/// `_ : . -`. Contracts see the list of its bytes. Names are equal and ordered by their bytes,
/// upper case apart from lower case. A clone shares the bytes, and takes no memory.
#[derive(Debug)]
pub struct Name {
    bytes: ArcSlice<u8>,
}

impl Drop for Name {
    fn drop(self) {
        let Name { bytes } = self;
        drop(bytes);
    }
}

impl Model for Name {
    ghost Value = { List ℕ };

    ghost view = { λ n. arc_slice_items n.bytes };

    ghost invariant = { λ n. IsName (arc_slice_items n.bytes) };
}

/// Why a text is no [`Name`].
#[derive(Clone, Copy, Debug, PartialEq, Eq, Error)]
pub enum NameFault {
    /// It is not 1 to 255 bytes of letters, digits and `_ : . -`.
    #[error("the text is no name")]
    NotName,
    /// There was no memory for it.
    #[error("out of memory")]
    OutOfMemory,
}

impl From<AllocError> for NameFault {
    ghost use Rattle.addr_book.specs.declared.name.NameFault.{NameFault};

    ghost from_gives = { λ _ fault. fault ≡ NameFault.OutOfMemory };

    fn from(_error: AllocError) -> NameFault {
        NameFault::OutOfMemory
    }
}

impl Name {
    /// The name with this text. It copies the text.
    pub fn of(alloc: Global, text: &[u8]) -> Result<Name, NameFault>
        ensures ok { IfOk result (λ name. name ≡ text.now) }
        ensures name { OnOk result (IsName text.now) }
        ensures not_name { IfErr result (λ fault. fault ≡ NameFault.NotName → ¬ (IsName text.now)) }
    {
        if !has_name_bytes(text) {
            return Err(NameFault::NotName);
        }
        Ok(Name {
            bytes: ArcSlice::from_slice(alloc, text)?,
        })
    }

    /// Its bytes.
    pub fn text(&self) -> &[u8]
        ensures text { result.now ≡ self.now }
        ensures name { IsName self.now }
    {
        self.bytes.as_slice()
    }
}

impl fmt::Display for Name {
    ghost output = { λ name. Some name };

    #[tactic(auto, using(crate::proofs::NameBytes::name_is_text))]
    fn fmt<W: fmt::Write>(&self, f: &mut fmt::Formatter<W>) -> fmt::Result {
        match str::from_utf8(self.text()) {
            Ok(text) => f.write_str(text),
            Err(_) => unreachable!(),
        }
    }
}

impl Clone for Name {
    ghost is_clone = { λ name clone. clone ≡ name };

    /// Shares the bytes.
    fn clone(&self) -> Mem<Name> {
        Ok(Name {
            bytes: self.bytes.clone()?,
        })
    }
}

impl PartialEq for Name {
    ghost eq = { pointwise nat_eq };

    ghost laws = { partial_equiv_from_equiv nat_list_eq_equiv };

    fn eq(&self, other: &Name) -> bool {
        self.text() == other.text()
    }
}

impl Eq for Name {
    ghost laws = { nat_list_eq_equiv };
}

impl PartialOrd for Name {
    ghost partial_cmp = { λ x y. Some (slice_cmp nat_cmp x y) };

    ghost laws = { texts_po };

    fn partial_cmp(&self, other: &Name) -> Option<Ordering> {
        Some(self.cmp(other))
    }
}

impl Ord for Name {
    ghost cmp = { slice_cmp nat_cmp };

    ghost total = { nat_list_cmp_total };

    ghost matches_partial_cmp = { λ x y. refl };

    ghost matches_eq = { texts_ties };

    fn cmp(&self, other: &Name) -> Ordering {
        self.text().cmp(other.text())
    }
}

/// Whether a text is a [`Name`]: 1 to 255 bytes, each an ASCII letter, a digit, or one of
/// `_ : . -`.
pub fn is_name(text: &[u8]) -> bool
    ensures known { IsTrue result → name_of text.now ≡ Some text.now }
    ensures unknown { IsFalse result → name_of text.now ≡ None }
{
    has_name_bytes(text)
}

/// Whether a text has 1 to 255 bytes, each of which may stand in a name.
fn has_name_bytes(text: &[u8]) -> bool
    ensures { IsTrue result ↔ IsName text.now }
{
    if text.is_empty() || text.len() > MOST_NAME_BYTES {
        return false;
    }
    text.iter().all(|byte| is_name_byte(*byte))
}

/// Whether a byte may stand in a name: a letter, a digit, or one of `_ : . -`.
fn is_name_byte(byte: u8) -> bool
    ensures { result ≡ is_name_byte byte }
{
    byte.is_ascii_alphanumeric() || byte == b'_' || byte == b':' || byte == b'.' || byte == b'-'
}
