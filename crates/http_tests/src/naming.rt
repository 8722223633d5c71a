//! What requests are named, and the tables that they bring along.
use crate::requests::{head_of, spelled};
use dtab_table::write_dtab;
use http_wire::{Field, FieldName, Head, Mem, read_host, read_target};
use identifier::{IdentifyFault, Kind, LocalFault, Rule, hear, identify, local_dtab};
use name_tree::{Path, read_path, write_path};
use std::alloc::Global;
use std::test::Fail;

/// By what a request is named.
#[derive(Clone, Copy)]
enum By {
    /// The first pieces of its target, so many.
    Target(u32),
    /// Its method and its host.
    MethodAndHost,
    /// The value of a field, as one label.
    Token,
    /// The path in a field.
    PathField,
    /// A path that is the same for all.
    Static,
}

/// By what a request is named; the name of the field, or the path; the request; and what it is
/// named under the prefix `/svc`, or nothing where it is not.
type Naming = (By, &'static str, &'static str, &'static str);

static NAMINGS: [Naming; 22] = [
    (
        By::Target(2),
        "",
        "GET //a//b/c?d HTTP/1.1|Host: x||",
        "/svc/a/b",
    ),
    (
        By::Target(1),
        "",
        "GET http://web/A/b HTTP/1.1|Host: x||",
        "/svc/A",
    ),
    (By::Target(1), "", "GET /a#b/c HTTP/1.1|Host: x||", "/svc/a"),
    (By::Target(0), "", "GET / HTTP/1.1|Host: x||", "/svc"),
    (By::Target(2), "", "GET /a HTTP/1.1|Host: x||", ""),
    (
        By::Target(1),
        "",
        "GET http://web?/a HTTP/1.1|Host: x||",
        "",
    ),
    (By::Target(1), "", "OPTIONS * HTTP/1.1|Host: x||", ""),
    (By::MethodAndHost, "", "GET / HTTP/1.0||", "/svc/1.0/GET"),
    (
        By::MethodAndHost,
        "",
        "PUT / HTTP/1.0|Host: web||",
        "/svc/1.0/PUT",
    ),
    (
        By::MethodAndHost,
        "",
        "GET / HTTP/1.1|Host: Web.Example:80||",
        "/svc/1.1/GET/web.example:80",
    ),
    (By::MethodAndHost, "", "GET / HTTP/1.1|Host:||", ""),
    (By::Token, "Host", "GET / HTTP/1.1|Host: Web||", "/svc/web"),
    (
        By::Token,
        "hOST",
        "GET http://Other/ HTTP/1.1|Host: web||",
        "/svc/other",
    ),
    (
        By::Token,
        "X-Name",
        "GET / HTTP/1.1|Host: x|x-name: A/b|X-NAME: c||",
        "/svc/A\\x2fb",
    ),
    (By::Token, "Host", "GET / HTTP/1.0||", ""),
    (
        By::Token,
        "X-Name",
        "GET / HTTP/1.1|Host: x|X-Name:|X-Name: c||",
        "",
    ),
    (
        By::PathField,
        "l5d-name",
        "GET / HTTP/1.1|Host: x|L5d-Name:  /a\\x2Fb ||",
        "/svc/a\\x2fb",
    ),
    (
        By::PathField,
        "l5d-name",
        "GET / HTTP/1.1|Host: x|l5d-name: /a/b|l5d-name: /c||",
        "/svc/a/b",
    ),
    (
        By::PathField,
        "l5d-name",
        "GET / HTTP/1.1|Host: x|l5d-name: /||",
        "/svc",
    ),
    (
        By::PathField,
        "l5d-name",
        "GET / HTTP/1.1|Host: x|l5d-name: /a/|l5d-name: /c||",
        "",
    ),
    (By::PathField, "l5d-name", "GET / HTTP/1.1|Host: x||", ""),
    (By::Static, "/x/y", "GET / HTTP/1.0||", "/svc/x/y"),
];

/// The path of this text.
fn path_of(alloc: Global, text: &str) -> Result<Path, Fail> {
    match read_path(alloc, text.as_bytes()) {
        Ok(path) => Ok(path),
        Err(_) => Err("no path".into()),
    }
}

/// The name of a field.
fn name_of(alloc: Global, name: &str) -> Mem<FieldName> {
    Ok(FieldName::of(Vec::from_slice(alloc, name.as_bytes())?))
}

/// The kind of a rule that names requests so, by the field of this name or this path.
fn kind_of(alloc: Global, by: By, text: &str) -> Result<Kind, Fail> {
    match by {
        By::Target(count) => Ok(Kind::Segments(count)),
        By::MethodAndHost => Ok(Kind::MethodAndHost),
        By::Token => Ok(Kind::Token(name_of(alloc, text)?)),
        By::PathField => Ok(Kind::PathField(name_of(alloc, text)?)),
        By::Static => Ok(Kind::Static(path_of(alloc, text)?)),
    }
}

/// A rule of this kind with the prefix `/svc`.
fn rule_of(alloc: Global, kind: Kind, clears_context: bool) -> Result<Rule, Fail> {
    match path_of(alloc, "/svc") {
        Ok(prefix) => Ok(Rule {
            kind,
            prefix,
            clears_context,
        }),
        Err(fail) => {
            drop(kind);
            Err(fail)
        }
    }
}

/// A rule that names requests so, under the prefix `/svc`.
fn rule_by(alloc: Global, by: By, text: &str) -> Result<Rule, Fail> {
    rule_of(alloc, kind_of(alloc, by, text)?, false)
}

/// Whether a path has this text.
fn is_path(alloc: Global, path: &Path, text: &str) -> Mem<bool> {
    let written = write_path(alloc, path)?;
    Ok(written.as_slice() == text.as_bytes())
}

/// Whether a request is named so; with no name, whether it is not named.
fn is_name(alloc: Global, named: Result<Path, IdentifyFault>, name: &str) -> Result<bool, Fail> {
    match named {
        Ok(path) => {
            let is_name = is_path(alloc, &path, name);
            drop(path);
            Ok(is_name?)
        }
        Err(IdentifyFault::Unidentified) => Ok(name.is_empty()),
        Err(IdentifyFault::OutOfMemory) => Err("memory".into()),
    }
}

/// Whether a request is named so by a rule.
fn is_named_by(alloc: Global, rule: &Rule, head: &Head, name: &str) -> Result<bool, Fail> {
    let target = match read_target(alloc, head) {
        Ok(target) => target,
        Err(_) => return Err("no target".into()),
    };
    let host = match read_host(alloc, head, &target) {
        Ok(host) => host,
        Err(_) => return Err("no host".into()),
    };
    let named = identify(alloc, rule, head, host.as_slice());
    drop(host);
    drop(target);
    is_name(alloc, named, name)
}

/// Whether a request is named as a row says.
fn is_named(alloc: Global, row: &Naming) -> Result<bool, Fail> {
    let (by, text, request, name) = *row;
    let head = head_of(alloc, request, "", 0)?;
    let rule = match rule_by(alloc, by, text) {
        Ok(rule) => rule,
        Err(fail) => {
            drop(head);
            return Err(fail);
        }
    };
    let is_named = is_named_by(alloc, &rule, &head, name);
    drop(rule);
    drop(head);
    is_named
}

#[test]
fn requests_are_named(rt: HostRuntime) -> Result<(), Fail> {
    for row in &NAMINGS {
        assert!(rt; is_named(rt.alloc(), row)?, "{:?} as {:?}", row.2, row.3);
    }
    Ok(())
}

/// Whether a request's own table has this canonical text; or is `bad`.
fn is_table(alloc: Global, head: &Head, text: &[u8]) -> Result<bool, Fail> {
    match local_dtab(alloc, head) {
        Ok(dtab) => {
            let written = write_dtab(alloc, &dtab);
            drop(dtab);
            Ok(written?.as_slice() == text)
        }
        Err(LocalFault::BadDtab) => Ok(text == b"bad".as_slice()),
        Err(LocalFault::OutOfMemory) => Err("memory".into()),
    }
}

/// An entry behind another.
const ENTRY: &str = ";/a=>/b";

/// Requests, for how many entries `%` stands, and their own tables. A table has at most 1,024
/// entries.
static TABLES: [(&str, usize, &str); 9] = [
    ("GET / HTTP/1.0||", 0, ""),
    ("GET / HTTP/1.0|l5d-dtab:|l5d-ctx-dtab: ;||", 0, ""),
    (
        "GET / HTTP/1.0|l5d-dtab: /a => /b|L5D-Ctx-Dtab: /c => /d|x: y|l5d-ctx-dtab: /e=>!;\
            /c=>/f|l5d-dtab: /a=>/g||",
        0,
        "/c=>/d;/e=>!;/c=>/f;/a=>/b;/a=>/g",
    ),
    (
        "GET / HTTP/1.0|l5d-dtab: /a|l5d-ctx-dtab: /c=>/d||",
        0,
        "bad",
    ),
    (
        "GET / HTTP/1.0|l5d-ctx-dtab: /c=>/d|l5d-ctx-dtab: /a=>/*||",
        0,
        "bad",
    ),
    (
        "GET / HTTP/1.0|l5d-dtab: /a=>/b%|l5d-ctx-dtab: /c=>/d%||",
        305,
        "/c=>/d%;/a=>/b%",
    ),
    (
        "GET / HTTP/1.0|l5d-dtab: /a=>/b%|l5d-ctx-dtab: /c=>/d||",
        697,
        "/c=>/d;/a=>/b%",
    ),
    (
        "GET / HTTP/1.0|l5d-dtab: /a=>/b%|l5d-ctx-dtab: /c=>/d%||",
        511,
        "/c=>/d%;/a=>/b%",
    ),
    (
        "GET / HTTP/1.0|l5d-dtab: /a=>/b%;/a=>/b|l5d-ctx-dtab: /c=>/d%||",
        511,
        "bad",
    ),
];

/// Whether a request has the table that its row says.
fn has_table(alloc: Global, row: &(&str, usize, &str)) -> Result<bool, Fail> {
    let (request, count, text) = row;
    let text = spelled(alloc, text, ENTRY, *count)?;
    let head = match head_of(alloc, request, ENTRY, *count) {
        Ok(head) => head,
        Err(fail) => {
            drop(text);
            return Err(fail);
        }
    };
    let has_table = is_table(alloc, &head, text.as_slice());
    drop(head);
    drop(text);
    has_table
}

#[test]
fn tables_are_joined_in_order(rt: HostRuntime) -> Result<(), Fail> {
    for row in &TABLES {
        assert!(rt; has_table(rt.alloc(), row)?, "{:?} {}", row.0, row.1);
    }
    Ok(())
}

/// Whether the context of a request is cleared, the request, and the names of those that are heard.
static HEARD: [(bool, &str, &str); 3] = [
    (
        true,
        "GET / HTTP/1.1|Host: x|A: 1|L5d-Dtab: /a=>/b|l5d-CTX-dtab: /c=>/d|l5d-ctx-: 3|B: 2||",
        "Host A B ",
    ),
    (
        true,
        "GET / HTTP/1.1|Host: x|l5d-ctx: 1|l5d-ctx-trace: 2|l5d-dst-service: 3|xl5d-ctx-a: 4||",
        "Host l5d-ctx l5d-dst-service xl5d-ctx-a ",
    ),
    (
        false,
        "GET / HTTP/1.1|Host: x|l5d-dtab: /a=>/b|l5d-ctx-dtab: /c=>/d||",
        "Host l5d-dtab l5d-ctx-dtab ",
    ),
];

/// Whether the fields have these names, each with a space behind it.
fn are_named(fields: &[Field], names: &str) -> bool {
    let mut left = names.as_bytes();
    for field in fields {
        let Some(behind) = left.strip_prefix(field.name.bytes()) else {
            return false;
        };
        match behind.strip_prefix(b" ") {
            Some(rest) => left = rest,
            None => return false,
        }
    }
    left.is_empty()
}

/// Whether these fields of a request are heard by a rule.
fn are_heard_by(alloc: Global, rule: &Rule, request: &str, names: &str) -> Result<bool, Fail> {
    let head = hear(rule, head_of(alloc, request, "", 0)?);
    let are_named = are_named(head.fields.items(), names);
    drop(head);
    Ok(are_named)
}

/// The same by a rule that clears the context, or not.
fn are_heard(
    alloc: Global,
    clears_context: bool,
    request: &str,
    names: &str,
) -> Result<bool, Fail> {
    let rule = rule_of(alloc, Kind::MethodAndHost, clears_context)?;
    let are_heard = are_heard_by(alloc, &rule, request, names);
    drop(rule);
    are_heard
}

#[test]
fn the_context_is_heard_or_cleared(rt: HostRuntime) -> Result<(), Fail> {
    for (clears, request, names) in &HEARD {
        assert!(rt;
            are_heard(rt.alloc(), *clears, request, names)?,
            "{request:?}"
        );
    }
    Ok(())
}
