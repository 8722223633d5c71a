//! The folder of the services' addresses.
ghost use Rattle.std.specs.Prelude.{◌≡◌, codes, option_map, option_and_then};
ghost use Rattle.serde_json.specs.Find.{as_array};
ghost use Rattle.serde_json.specs.View.{items_view, view};
ghost use Rattle.linker_config.specs.Namers.{namer_told, namers_told};
ghost use Rattle.linker_config.specs.Values.{at_most_one, needed_text, non_empty, text_by};
ghost use Rattle.linker_config.specs.Keys.{or_fault};
ghost use Rattle.linker_config.specs.Answers.{Says};

use crate::config::Text;
use crate::fault::ConfigFault;
use crate::keys::check_keys;
use crate::value::{bad, bad_key, needed_word};
use serde_json::Value;
use std::alloc::Global;

/// The folder of the services' addresses, if there is a namer.
#[tactic(auto, unfolding(crate::specs::Namers::namers_told))]
pub(crate) fn namers(alloc: Global, value: &Value) -> Result<Option<Text>, ConfigFault>
    ensures { Says (namers_told (view value.now)) result }
{
    match few_of(value) {
        Some(None) => Ok(None),
        Some(Some(one)) => Ok(Some(namer(alloc, one)?)),
        None => Err(bad_key(alloc, "namers")),
    }
}

/// The one element of an array, if there is one; nothing where there are more.
fn few_of(value: &Value) -> Option<Option<&Value>>
    ensures { option_map (λ o. option_map (λ v. view v.now) o) result
        ≡ option_and_then at_most_one (as_array (view value.now)) }
{
    match value.as_array() {
        Some(list) => few_of_list(list),
        None => None,
    }
}

/// The one element of a list, if there is one; nothing where there are more.
fn few_of_list(list: &Vec<Value>) -> Option<Option<&Value>>
    ensures { option_map (λ o. option_map (λ v. view v.now) o) result
        ≡ at_most_one (items_view list.now.items) }
{
    match list.len() {
        0 => Some(None),
        1 => Some(Some(&list[0])),
        _ => None,
    }
}

/// The folder of a namer.
#[tactic(auto, unfolding(crate::specs::Namers::namer_told))]
fn namer(alloc: Global, value: &Value) -> Result<Text, ConfigFault>
    ensures { Says (namer_told (view value.now)) result }
{
    check_keys(
        alloc,
        "namers[0]",
        &["kind", "rootDir"],
        &["kind", "rootDir"],
        value,
    )?;
    needed_word(alloc, "namers[0]", value, "kind", "io.l5d.fs")?;
    root(alloc, value)
}

/// The text of one or more bytes that names a folder.
#[tactic(auto, unfolding(crate::specs::Values::needed_text))]
fn root(alloc: Global, object: &Value) -> Result<Text, ConfigFault>
    ensures { Says (needed_text (codes "namers[0]") (codes "rootDir") non_empty
        (view object.now)) result }
{
    match object.get("rootDir") {
        Some(value) => root_in(alloc, value),
        None => Err(bad(alloc, "namers[0]", "rootDir")),
    }
}

/// The text of one or more bytes that names a folder.
fn root_in(alloc: Global, value: &Value) -> Result<Text, ConfigFault>
    ensures { Says (or_fault (ConfigFault.Bad (codes "namers[0].rootDir"))
        (text_by non_empty (view value.now))) result }
{
    match value.as_str() {
        Some(text) if !text.is_empty() => Ok(Text::of(String::from_str(alloc, text)?)),
        _ => Err(bad(alloc, "namers[0]", "rootDir")),
    }
}
