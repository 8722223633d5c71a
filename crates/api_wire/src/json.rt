//! Bodies in JSON.
ghost use Rattle.std.specs.Prelude.{◌≡◌, IfOk, option_map};
ghost use Rattle.serde_json.specs.View.{view};
ghost use Rattle.api_wire.specs.Json.{json_of, members_in, text_at};

use crate::Mem;
use serde_json::Value;
use std::alloc::{AllocError, Global};

/// The value of a JSON text, if it is one.
pub fn json_value(alloc: Global, text: &[u8]) -> Mem<Option<Value>>
    ensures { IfOk result (λ value. option_map view value ≡ json_of text.now) }
{
    match Value::from_slice(alloc, text) {
        Ok(value) => Ok(Some(value)),
        Err(error) => {
            if error.is_memory() {
                Err(AllocError)
            } else {
                Ok(None)
            }
        }
    }
}

/// How many members an object has. A value that is none has no member.
pub fn members_in(value: &Value) -> usize
    ensures { result ≡ members_in (view value.now) }
{
    match value.as_object() {
        Some(members) => members.len(),
        None => 0,
    }
}

/// The text under a key of an object.
pub fn text_at<'v>(value: &'v Value, key: &str) -> Option<&'v str>
    ensures { option_map (λ text. text.now) result ≡ text_at key.now (view value.now) }
{
    match value.get(key) {
        Some(member) => member.as_str(),
        None => None,
    }
}
