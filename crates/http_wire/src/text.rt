//! Bytes as received.
ghost use Rattle.std.specs.Prelude.{◌≡◌};
ghost use Rattle.http_wire.specs.Fields.{same_ignoring_case};

use crate::Bytes;
use std::marker::Model;

/// The bytes of a target or of a field's value. Contracts see it as the list of them.
pub struct Text {
    bytes: Vec<u8>,
}

impl Drop for Text {
    fn drop(self) {
        let Text { bytes } = self;
        drop(bytes);
    }
}

impl Model for Text {
    ghost use Rattle.std.specs.Prelude.{List, ℕ};

    ghost Value = { List ℕ };

    ghost view = { λ t. t.bytes.items };
}

impl Text {
    /// The text of these bytes. It takes no memory.
    pub fn of(bytes: Bytes) -> Text
        ensures { result ≡ bytes.items }
    {
        Text { bytes }
    }

    /// Its bytes.
    pub fn bytes(&self) -> &[u8]
        ensures { result.now ≡ self.now }
    {
        self.bytes.as_slice()
    }
}

/// The name of a field, as received: names are compared without case (RFC 9110 section 5.1).
/// Contracts see it as the list of its bytes.
pub struct FieldName {
    bytes: Vec<u8>,
}

impl Drop for FieldName {
    fn drop(self) {
        let FieldName { bytes } = self;
        drop(bytes);
    }
}

impl Model for FieldName {
    ghost use Rattle.std.specs.Prelude.{List, ℕ};

    ghost Value = { List ℕ };

    ghost view = { λ n. n.bytes.items };
}

impl FieldName {
    /// The name of these bytes. It takes no memory.
    pub fn of(bytes: Bytes) -> FieldName
        ensures { result ≡ bytes.items }
    {
        FieldName { bytes }
    }

    /// Its bytes, as received.
    pub fn bytes(&self) -> &[u8]
        ensures { result.now ≡ self.now }
    {
        self.bytes.as_slice()
    }

    /// Whether it is this name, in any case.
    pub fn is(&self, name: &str) -> bool
        ensures { result ≡ same_ignoring_case self.now name.now }
    {
        self.is_spelt(name.as_bytes())
    }

    /// Whether these bytes spell it, in any case.
    pub(crate) fn is_spelt(&self, name: &[u8]) -> bool
        ensures { result ≡ same_ignoring_case self.now name.now }
    {
        same_bytes(self.bytes(), name)
    }
}

/// Whether two texts are alike but for the case of ASCII letters, as names of fields and some
/// values are compared (RFC 9110 section 5.1).
pub fn same_bytes(a: &[u8], b: &[u8]) -> bool
    ensures { result ≡ same_ignoring_case a.now b.now }
{
    a.eq_ignore_ascii_case(b)
}
