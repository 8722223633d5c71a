//! Values under keys.
ghost use Rattle.std.specs.Prelude.{◌≡◌, ◌≢◌, ◌≤◌, option_map, option_and_then, is_some, IfOk};
ghost use Rattle.serde_json.specs.Find.{as_array, as_str};
ghost use Rattle.serde_json.specs.View.{items_view, view};
ghost use Rattle.linker_config.specs.Keys.{inside};
ghost use Rattle.linker_config.specs.Values.{exactly, needed_text, number_at as number_at_key};
ghost use Rattle.linker_config.specs.Values.{number_in as number_of, only as only_of, text_by};
ghost use Rattle.linker_config.specs.Answers.{Says};

use crate::fault::ConfigFault;
use crate::keys::{key_in, text_key};
use serde_json::Value;
use std::alloc::Global;

/// That the value under a key is bad.
pub(crate) fn bad(alloc: Global, place: &str, key: &str) -> ConfigFault
    ensures json { result ≢ ConfigFault.BadJson }
    ensures bad { result ≢ ConfigFault.OutOfMemory
        → result ≡ ConfigFault.Bad (inside place.now key.now) }
{
    match key_in(alloc, place, key) {
        Ok(key) => ConfigFault::Bad(key),
        Err(_) => ConfigFault::OutOfMemory,
    }
}

/// That the value under this whole key is bad.
pub(crate) fn bad_key(alloc: Global, key: &str) -> ConfigFault
    ensures json { result ≢ ConfigFault.BadJson }
    ensures bad { result ≢ ConfigFault.OutOfMemory → result ≡ ConfigFault.Bad key.now }
{
    match text_key(alloc, key) {
        Ok(key) => ConfigFault::Bad(key),
        Err(_) => ConfigFault::OutOfMemory,
    }
}

/// A number between two others, both included.
pub(crate) fn number_in(low: u64, high: u64, value: &Value) -> Option<u64>
    ensures { result ≡ number_of low high (view value.now) }
{
    match value.as_u64() {
        Some(number) if number >= low && number <= high => Some(number),
        _ => None,
    }
}

/// The number under a key of the object at a place.
#[tactic(auto, unfolding(crate::specs::Values::number_at))]
pub(crate) fn number_at(
    alloc: Global,
    place: &str,
    object: &Value,
    key: &str,
    default: u64,
    low: u64,
    high: u64,
) -> Result<u64, ConfigFault>
    requires low { low ≤ default }
    requires high { default ≤ high }
    ensures number { Says (number_at_key place.now key.now default low high
        (view object.now)) result }
    ensures low { IfOk result (λ number. low ≤ number) }
    ensures high { IfOk result (λ number. number ≤ high) }
{
    let Some(value) = object.get(key) else {
        return Ok(default);
    };
    match number_in(low, high, value) {
        Some(number) => Ok(number),
        None => Err(bad(alloc, place, key)),
    }
}

/// Whether the text under a key that has to be there is this word.
#[tactic(auto, unfolding(crate::specs::Values::needed_text))]
pub(crate) fn needed_word(
    alloc: Global,
    place: &str,
    object: &Value,
    key: &str,
    word: &str,
) -> Result<(), ConfigFault>
    ensures { Says (needed_text place.now key.now (exactly word.now) (view object.now)) result }
{
    match object.get(key) {
        Some(value) if is_word(value, word) => Ok(()),
        _ => Err(bad(alloc, place, key)),
    }
}

/// Whether a value is this word.
fn is_word(value: &Value, word: &str) -> bool
    ensures { result ≡ is_some (text_by (exactly word.now) (view value.now)) }
{
    match value.as_str() {
        Some(text) => text == word,
        None => false,
    }
}

/// The one element of an array.
pub(crate) fn only_element(value: &Value) -> Option<&Value>
    ensures { option_map (λ v. view v.now) result
        ≡ option_and_then only_of (as_array (view value.now)) }
{
    match value.as_array() {
        Some(list) => only_of_list(list),
        None => None,
    }
}

/// The one element of a list.
fn only_of_list(list: &Vec<Value>) -> Option<&Value>
    ensures { option_map (λ v. view v.now) result ≡ only_of (items_view list.now.items) }
{
    if list.len() == 1 {
        return Some(&list[0]);
    }
    None
}
