//! Which path a request names.
ghost use Rattle.std.specs.Prelude.{Option};
ghost use Rattle.std.specs.Option.{option_and_then};
ghost use Rattle.name_tree.specs.Path.{Labels};
ghost use Rattle.name_tree.specs.Computed.{path_of as path_of_text};
ghost use Rattle.http_wire.specs.Fields.{first_value};
ghost use Rattle.identifier.specs.Naming.{by_method_and_host, by_token, identified, Answers};
ghost use Rattle.identifier.specs.Naming.{AnswersBehind, AnswersBy, IsTaken};

use crate::fault::IdentifyFault;
use crate::labels::{copied, lowered, with_label};
use crate::rule::{Kind, Rule};
use crate::segments::segments;
use http_wire::{FieldName, Head};
use name_tree::{Path, TextFault, read_path};
use std::alloc::Global;

/// The path that a request names by a rule: the labels of the prefix, and then those that its
/// [`Kind`] takes from the request. The host is what [`read_host`](http_wire::read_host) gave for
/// the request.
///
/// The head has to be one that [`read_target`](http_wire::read_target) takes: `IsTaken` says that
/// its method is not CONNECT, and its target is served in some form. It takes time and memory for
/// the prefix and the text that it is named by; a kind other than [`Kind::Segments`] does not look
/// at the target.
///
/// # Errors
/// `Unidentified` exactly where the kind gives no path. `OutOfMemory` where there was no memory for
/// the path.
pub fn identify(alloc: Global, rule: &Rule, head: &Head, host: &[u8]) -> Result<Path, IdentifyFault>
    requires { IsTaken head.now }
    ensures { AnswersBy head.now (identified rule.now head.now host.now) result }
{
    let prefix = &rule.prefix;
    match &rule.kind {
        Kind::Token(name) => token(alloc, prefix, name, head, host),
        Kind::MethodAndHost => method_and_host(alloc, prefix, head, host),
        Kind::Segments(count) => behind(alloc, prefix, segments(alloc, head, *count)),
        Kind::PathField(name) => behind(alloc, prefix, path_field(alloc, name, head)),
        Kind::Static(path) => Ok(prefix.joined(alloc, path)?),
    }
}

/// The labels behind the prefix.
fn behind(
    alloc: Global,
    prefix: &Path,
    rest: Result<Path, IdentifyFault>,
) -> Result<Path, IdentifyFault>
    ensures { (labels : Option Labels) → Answers labels rest
        → AnswersBehind prefix.now labels result }
{
    let rest = rest?;
    Ok(prefix.joined(alloc, &rest)?)
}

/// Behind the prefix a field's value as it was received, or the host where the field is Host.
fn token(
    alloc: Global,
    prefix: &Path,
    name: &FieldName,
    head: &Head,
    host: &[u8],
) -> Result<Path, IdentifyFault>
    ensures { AnswersBehind prefix.now (by_token name.now head.now.fields host.now) result }
{
    if name.is("host") {
        return with_label(copied(alloc, prefix)?, lowered(alloc, host)?);
    }
    match head.fields.first_named(name) {
        Some(value) => with_label(copied(alloc, prefix)?, Vec::from_slice(alloc, value)?),
        None => Err(IdentifyFault::Unidentified),
    }
}

/// Behind the prefix the version, the method and the host.
fn method_and_host(
    alloc: Global,
    prefix: &Path,
    head: &Head,
    host: &[u8],
) -> Result<Path, IdentifyFault>
    ensures { AnswersBehind prefix.now
        (by_method_and_host head.now.version head.now.method host.now) result }
{
    let version = if head.version == 0 { "1.0" } else { "1.1" };
    let mut path = copied(alloc, prefix)?;
    path.push(Vec::from_slice(alloc, version.as_bytes())?)?;
    path.push(Vec::from_slice(alloc, head.method.as_str().as_bytes())?)?;
    if head.version == 0 {
        return Ok(path);
    }
    with_label(path, lowered(alloc, host)?)
}

/// The path in a field's value.
fn path_field(alloc: Global, name: &FieldName, head: &Head) -> Result<Path, IdentifyFault>
    ensures { Answers (option_and_then path_of_text (first_value name.now head.now.fields)) result }
{
    let Some(text) = head.fields.first_named(name) else {
        return Err(IdentifyFault::Unidentified);
    };
    match read_path(alloc, text) {
        Ok(path) => Ok(path),
        Err(TextFault::OutOfMemory) => Err(IdentifyFault::OutOfMemory),
        Err(_) => Err(IdentifyFault::Unidentified),
    }
}
