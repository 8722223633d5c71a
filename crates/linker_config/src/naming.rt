//! How requests are named.
ghost use Rattle.std.specs.Prelude.{◌≡◌, ◌∷◌, ◌&&◌, ◌==◌, nat_le, length, codes, Ok};
ghost use Rattle.name_tree.specs.Computed.{path_of as path_of_text};
ghost use Rattle.std.specs.List.{list_all, list_any};
ghost use Rattle.serde_json.specs.View.{view};
ghost use Rattle.linker_config.specs.Keys.{or_fault, inside};
ghost use Rattle.linker_config.specs.Values.{text_at, text_by, needed_text};
ghost use Rattle.linker_config.specs.Identifier.{field_name, header_told, identifier_place};
ghost use Rattle.linker_config.specs.Identifier.{identifier_told};
ghost use Rattle.linker_config.specs.Identifier.{is_token_byte as is_token_byte_of, kind_told};
ghost use Rattle.linker_config.specs.Identifier.{method_told, segments_told};
ghost use Rattle.linker_config.specs.Identifier.{static_path as static_path_of, static_told};
ghost use Rattle.linker_config.specs.Identifier.{token_told};
ghost use Rattle.linker_config.specs.Answers.{Says};

use crate::fault::ConfigFault;
use crate::keys::check_keys;
use crate::value::{bad, number_at};
use http_wire::FieldName;
use identifier::Kind;
use name_tree::{Path, TextFault, read_path};
use serde_json::Value;
use std::alloc::Global;

/// Where the identifier stands.
const PLACE: &str = "routers[0].identifier";

/// The marks that may stand in a token beside letters and digits.
const TOKEN_MARKS: &[u8] = b"!#$%&'*+-.^_`|~";

/// How requests are named.
#[tactic(auto, unfolding(crate::specs::Identifier::identifier_told, crate::specs::Values::needed_text))]
pub(crate) fn identifier(alloc: Global, value: &Value) -> Result<Kind, ConfigFault>
    ensures { Says (identifier_told (view value.now)) result }
{
    check_keys(
        alloc,
        PLACE,
        &["kind", "header", "segments", "path"],
        &["kind"],
        value,
    )?;
    match value.get("kind") {
        Some(kind) => match kind.as_str() {
            Some(name) => kind_of(alloc, name, value),
            None => Err(bad(alloc, PLACE, "kind")),
        },
        None => Err(bad(alloc, PLACE, "kind")),
    }
}

/// The identifier of this kind.
#[tactic(auto, unfolding(crate::specs::Identifier::kind_told))]
fn kind_of(alloc: Global, name: &str, value: &Value) -> Result<Kind, ConfigFault>
    ensures { Says (kind_told (view value.now) name.now) result }
{
    match name {
        "io.l5d.header.token" => token(alloc, value),
        "io.l5d.methodAndHost" => method_and_host(alloc, value),
        "io.l5d.path" => segments(alloc, value),
        "io.l5d.header" => path_field(alloc, value),
        "io.l5d.static" => static_path(alloc, value),
        _ => Err(bad(alloc, PLACE, "kind")),
    }
}

/// By the host or a field's value.
#[tactic(auto, unfolding(crate::specs::Identifier::token_told))]
fn token(alloc: Global, value: &Value) -> Result<Kind, ConfigFault>
    ensures { Says (token_told (view value.now)) result }
{
    check_keys(alloc, PLACE, &["kind", "header"], &[], value)?;
    Ok(Kind::Token(header(alloc, value, "Host")?))
}

/// By the version, the method and the host.
#[tactic(auto, unfolding(crate::specs::Identifier::method_told))]
fn method_and_host(alloc: Global, value: &Value) -> Result<Kind, ConfigFault>
    ensures { Says (method_told (view value.now)) result }
{
    check_keys(alloc, PLACE, &["kind"], &[], value)?;
    Ok(Kind::MethodAndHost)
}

/// By the first pieces of the target's path.
#[tactic(auto, unfolding(crate::specs::Identifier::segments_told))]
fn segments(alloc: Global, value: &Value) -> Result<Kind, ConfigFault>
    ensures { Says (segments_told (view value.now)) result }
{
    check_keys(alloc, PLACE, &["kind", "segments"], &[], value)?;
    let count = number_at(alloc, PLACE, value, "segments", 1, 1, 16)?;
    Ok(Kind::Segments(count as u32))
}

/// By the path in a field's value.
#[tactic(auto, unfolding(crate::specs::Identifier::header_told))]
fn path_field(alloc: Global, value: &Value) -> Result<Kind, ConfigFault>
    ensures { Says (header_told (view value.now)) result }
{
    check_keys(alloc, PLACE, &["kind", "header"], &[], value)?;
    Ok(Kind::PathField(header(alloc, value, "l5d-name")?))
}

/// By the same path, whatever the request.
#[tactic(auto, unfolding(crate::specs::Identifier::static_told))]
fn static_path(alloc: Global, value: &Value) -> Result<Kind, ConfigFault>
    ensures { Says (static_told (view value.now)) result }
{
    check_keys(alloc, PLACE, &["kind", "path"], &["path"], value)?;
    Ok(Kind::Static(needed_path(alloc, value)?))
}

/// The path that has to be there.
#[tactic(auto, unfolding(crate::specs::Values::needed_text))]
fn needed_path(alloc: Global, object: &Value) -> Result<Path, ConfigFault>
    ensures { Says (needed_text identifier_place (codes "path") static_path_of (view object.now))
        result }
{
    match object.get("path") {
        Some(value) => path_in(alloc, value),
        None => Err(bad(alloc, PLACE, "path")),
    }
}

/// The path of a value.
fn path_in(alloc: Global, value: &Value) -> Result<Path, ConfigFault>
    ensures { Says (or_fault (ConfigFault.Bad (inside identifier_place (codes "path")))
        (text_by static_path_of (view value.now))) result }
{
    match value.as_str() {
        Some(text) => path_of(alloc, text.as_bytes()),
        None => Err(bad(alloc, PLACE, "path")),
    }
}

/// The path of a text, or of the text behind a slash.
#[tactic(auto, unfolding(crate::specs::Identifier::static_path))]
fn path_of(alloc: Global, text: &[u8]) -> Result<Path, ConfigFault>
    ensures { Says (or_fault (ConfigFault.Bad (inside identifier_place (codes "path")))
        (static_path_of text.now)) result }
{
    match read_path(alloc, text) {
        Ok(path) => Ok(path),
        Err(TextFault::OutOfMemory) => Err(ConfigFault::OutOfMemory),
        Err(_) => path_behind_slash(alloc, text),
    }
}

/// The path of a text behind a slash.
fn path_behind_slash(alloc: Global, text: &[u8]) -> Result<Path, ConfigFault>
    ensures { Says (or_fault (ConfigFault.Bad (inside identifier_place (codes "path")))
        (path_of_text (47 ∷ text.now))) result }
{
    let mut whole = Vec::from_slice(alloc, b"/")?;
    whole.extend_from_slice(text)?;
    match read_path(alloc, whole.as_slice()) {
        Ok(path) => Ok(path),
        Err(TextFault::OutOfMemory) => Err(ConfigFault::OutOfMemory),
        Err(_) => Err(bad(alloc, PLACE, "path")),
    }
}

/// The name of a field under `header`.
#[tactic(auto, unfolding(crate::specs::Values::text_at, crate::specs::Identifier::field_name))]
fn header(alloc: Global, object: &Value, default: &str) -> Result<FieldName, ConfigFault>
    ensures { Says (text_at identifier_place (codes "header") default.now field_name
        (view object.now)) result }
{
    let Some(value) = object.get("header") else {
        return field(alloc, default);
    };
    match value.as_str() {
        Some(text) if is_field_name(text.as_bytes()) => field(alloc, text),
        _ => Err(bad(alloc, PLACE, "header")),
    }
}

/// The name of this text.
fn field(alloc: Global, text: &str) -> Result<FieldName, ConfigFault>
    ensures { Says (Ok text.now) result }
{
    Ok(FieldName::of(Vec::from_slice(alloc, text.as_bytes())?))
}

/// Whether a text is the name of a field.
fn is_field_name(text: &[u8]) -> bool
    ensures { result ≡ (nat_le 1 (length text.now) && list_all is_token_byte_of text.now) }
{
    !text.is_empty() && are_token_bytes(text)
}

/// Whether all bytes are those of a token.
fn are_token_bytes(text: &[u8]) -> bool
    ensures { result ≡ list_all is_token_byte_of text.now }
{
    text.iter().all(|byte| is_token_byte(*byte))
}

/// Whether a byte may stand in a token (RFC 9110 section 5.6.2).
#[tactic(auto, unfolding(crate::specs::Identifier::is_token_byte))]
fn is_token_byte(byte: u8) -> bool
    ensures { result ≡ is_token_byte_of byte }
{
    byte.is_ascii_alphanumeric() || is_one_of(TOKEN_MARKS, byte)
}

/// Whether a byte is one of others.
fn is_one_of(bytes: &[u8], byte: u8) -> bool
    ensures { result ≡ list_any (λ mark. mark == byte) bytes.now }
{
    bytes.iter().any(|mark| *mark == byte)
}
