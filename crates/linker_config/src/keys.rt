//! The keys of objects, by one rule.
ghost use Rattle.std.specs.Prelude.{◌≡◌, map, string_bytes, option_map, not, is_none, IfOk, Err};
ghost use Rattle.std.specs.List.{find, list_any};
ghost use Rattle.std.specs.Option.{option_copied};
ghost use Rattle.std.specs.Str.{bytes_eq};
ghost use Rattle.std.specs.BTreeMap.{keys};
ghost use Rattle.serde_json.specs.Find.{get};
ghost use Rattle.serde_json.specs.View.{members_view, view};
ghost use Rattle.linker_config.specs.Keys.{first_missing as first_missing_of};
ghost use Rattle.linker_config.specs.Keys.{first_unknown as first_unknown_of, inside};
ghost use Rattle.linker_config.specs.Keys.{is_among as is_among_of, key_of as key_of_place};
ghost use Rattle.linker_config.specs.Keys.{keys_told};
ghost use Rattle.linker_config.specs.Answers.{Says};

use crate::Mem;
use crate::fault::{ConfigFault, Key};
use serde_json::Value;
use serde_json::value::Map;
use std::alloc::Global;

/// Checks the keys of what stands at a place: the keys that it may have, and those among them that
/// it has to have.
#[tactic(auto, unfolding(crate::specs::Keys::keys_told))]
pub(crate) fn check_keys(
    alloc: Global,
    place: &str,
    known: &[&str],
    required: &[&str],
    value: &Value,
) -> Result<(), ConfigFault>
    ensures { Says (keys_told place.now (map (λ k. k.now) known.now) (map (λ k. k.now) required.now)
        (view value.now)) result }
{
    let Some(members) = value.as_object() else {
        return Err(ConfigFault::Bad(key_of(alloc, place)?));
    };
    if let Some(key) = first_unknown(known, members) {
        return Err(ConfigFault::Unknown(key_in(alloc, place, key)?));
    }
    match first_missing(required, value) {
        Some(key) => Err(ConfigFault::Missing(key_in(alloc, place, key)?)),
        None => Ok(()),
    }
}

/// The first key of some members that is not among the known ones.
fn first_unknown<'v>(known: &[&str], members: &'v Map<String, Value>) -> Option<&'v str>
    ensures { option_map (λ k. k.now) result
        ≡ first_unknown_of (map (λ k. k.now) known.now) (members_view members.now.entries) }
{
    match find_unknown(known, members) {
        Some(key) => Some(key.as_str()),
        None => None,
    }
}

/// The first key of a map that is not among the known ones.
fn find_unknown<'v>(known: &[&str], members: &'v Map<String, Value>) -> Option<&'v String>
    ensures { option_copied result
        ≡ find (λ key. not (is_among_of (map (λ k. k.now) known.now) (string_bytes key)))
        (keys members.now) }
{
    members.keys().find(|key| !is_among(known, key.as_str()))
}

/// Whether a key is among others.
fn is_among(keys: &[&str], key: &str) -> bool
    ensures { result ≡ is_among_of (map (λ k. k.now) keys.now) key.now }
{
    is_one_of(keys, key)
}

/// Whether a key is one of others.
fn is_one_of(keys: &[&str], key: &str) -> bool
    ensures { result ≡ list_any (λ known. bytes_eq known.now key.now) keys.now }
{
    keys.iter().any(|known| *known == key)
}

/// The first of some keys that an object lacks.
fn first_missing<'k>(required: &[&'k str], object: &Value) -> Option<&'k str>
    ensures { option_map (λ k. k.now) result
        ≡ first_missing_of (map (λ k. k.now) required.now) (view object.now) }
{
    match find_missing(required, object) {
        Some(key) => Some(*key),
        None => None,
    }
}

/// Where the first of some keys stands that an object lacks.
fn find_missing<'a, 'k>(required: &'a [&'k str], object: &Value) -> Option<&'a &'k str>
    ensures { option_copied result
        ≡ find (λ key. is_none (get key.now (view object.now))) required.now }
{
    required.iter().find(|key| object.get(**key).is_none())
}

/// The key of a place.
fn key_of(alloc: Global, place: &str) -> Mem<Key>
    ensures { IfOk result (λ key. key ≡ key_of_place place.now) }
{
    if place.is_empty() {
        return text_key(alloc, "top");
    }
    text_key(alloc, place)
}

/// The key of what stands under a key of the object at a place.
pub(crate) fn key_in(alloc: Global, place: &str, key: &str) -> Mem<Key>
    ensures { IfOk result (λ whole. whole ≡ inside place.now key.now) }
{
    if place.is_empty() {
        return text_key(alloc, key);
    }
    let mut bytes = Vec::from_slice(alloc, place.as_bytes())?;
    bytes.push(b'.')?;
    bytes.extend_from_slice(key.as_bytes())?;
    Ok(Key::of(bytes))
}

/// The key of this text.
pub(crate) fn text_key(alloc: Global, text: &str) -> Mem<Key>
    ensures { IfOk result (λ key. key ≡ text.now) }
{
    Ok(Key::of(Vec::from_slice(alloc, text.as_bytes())?))
}
