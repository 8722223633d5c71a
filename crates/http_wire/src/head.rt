//! The heads of requests and of replies.
ghost use Rattle.std.specs.Prelude.{◌≡◌, count_by, find, length};
ghost use Rattle.std.specs.Option.{option_copied};
ghost use Rattle.http_wire.specs.Fields.{first_value, is_named, values_of};

use crate::text::{FieldName, Text};
use http::Method;
use std::marker::Model;

/// A field of a head: its name and its value, without the blanks around the value.
pub struct Field {
    /// The name, as received.
    pub name: FieldName,
    /// The value, as received.
    pub value: Text,
}

impl Drop for Field {
    fn drop(self) {
        let Field { name, value } = self;
        drop(name);
        drop(value);
    }
}

/// Fields, in the order in which they were received. Contracts see it as the list of them.
pub struct FieldList {
    fields: Vec<Field>,
}

impl Drop for FieldList {
    fn drop(self) {
        let FieldList { fields } = self;
        drop(fields);
    }
}

impl Model for FieldList {
    ghost use Rattle.std.specs.Prelude.{List};
    ghost use Rattle.http_wire.specs.declared.head.Field.{Field};

    ghost Value = { List Field };

    ghost view = { λ l. l.fields.items };
}

impl FieldList {
    /// The list of these fields. It takes no memory.
    pub fn of(items: Vec<Field>) -> FieldList
        ensures { result ≡ items.items }
    {
        FieldList { fields: items }
    }

    /// The fields.
    pub fn items(&self) -> &[Field]
        ensures { result.now ≡ self.now }
    {
        self.fields.as_slice()
    }

    /// The fields, as a list that can be altered.
    pub fn into_items(self) -> Vec<Field>
        ensures { result.items ≡ self }
    {
        let FieldList { fields } = self;
        fields
    }

    /// How many fields have this name, in any case.
    pub fn count(&self, name: &str) -> usize
        ensures { result ≡ length (values_of name.now self.now) }
    {
        count_named(self.items(), name)
    }

    /// The value of the first field of this name, in any case.
    pub fn first(&self, name: &str) -> Option<&[u8]>
        ensures { option_copied result ≡ first_value name.now self.now }
    {
        first_value(self.items(), name.as_bytes())
    }

    /// The value of the first field that has the name that this one is, in any case.
    pub fn first_named(&self, name: &FieldName) -> Option<&[u8]>
        ensures { option_copied result ≡ first_value name.now self.now }
    {
        first_value(self.items(), name.bytes())
    }
}

/// How many of the fields have this name.
fn count_named(fields: &[Field], name: &str) -> usize
    ensures { result ≡ count_by (is_named name.now) fields.now }
{
    fields.iter().filter(|field| field.name.is(name)).count()
}

/// The value of the first of the fields that has this name.
fn first_value<'a>(fields: &'a [Field], name: &[u8]) -> Option<&'a [u8]>
    ensures { option_copied result ≡ first_value name.now fields.now }
{
    match find_named(fields, name) {
        Some(field) => Some(field.value.bytes()),
        None => None,
    }
}

/// The first of the fields that has this name.
fn find_named<'a>(fields: &'a [Field], name: &[u8]) -> Option<&'a Field>
    ensures { option_copied result ≡ find (is_named name.now) fields.now }
{
    fields.iter().find(|field| field.name.is_spelt(name))
}

/// The head of a request (RFC 9112 sections 2 to 5).
pub struct Head {
    /// The method.
    pub method: Method,
    /// The request target, as received.
    pub target: Text,
    /// 0 for HTTP/1.0 and 1 for HTTP/1.1.
    pub version: u8,
    /// The fields, in order.
    pub fields: FieldList,
}

impl Drop for Head {
    fn drop(self) {
        let Head {
            method,
            target,
            version: _,
            fields,
        } = self;
        drop(method);
        drop(target);
        drop(fields);
    }
}

impl Head {
    /// Its method, its target, its version and its fields.
    pub fn into_parts(self) -> (Method, Text, u8, FieldList)
        ensures { result ≡ (self.method, self.target, self.version, self.fields) }
    {
        let Head {
            method,
            target,
            version,
            fields,
        } = self;
        (method, target, version, fields)
    }
}

/// The head of a reply (RFC 9112 sections 2, 4 and 5).
pub struct ReplyHead {
    /// 0 for HTTP/1.0 and 1 for HTTP/1.1.
    pub version: u8,
    /// The number of the three digits of the status code, 0 to 999.
    pub status: u16,
    /// The reason phrase, as received: empty where there was none.
    pub reason: Text,
    /// The fields, in order.
    pub fields: FieldList,
}

impl Drop for ReplyHead {
    fn drop(self) {
        let ReplyHead {
            version: _,
            status: _,
            reason,
            fields,
        } = self;
        drop(reason);
        drop(fields);
    }
}
