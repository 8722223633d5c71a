//! The request target.
ghost use Rattle.std.specs.Prelude.{◌≡◌, ◌≢◌, ◌==◌, codes, drop, IfOk, IfErr, None, Some};
ghost use Rattle.std.specs.List.{list_any};
ghost use Rattle.http_uri.specs.ByteClasses.{at_sign};
ghost use Rattle.http_uri.specs.Grammar.{without_fragment};
ghost use Rattle.http_uri.specs.Uri.{uri_authority, uri_scheme};
ghost use Rattle.http_wire.specs.Sound.{IsSoundForm, IsSoundTarget};
ghost use Rattle.http_wire.specs.Target.{form_of, line_behind, served, Gives, IsRefused, IsServed};

use crate::head::Head;
use crate::list::position_of;
use crate::{Bytes, Mem};
use http_uri::{Uri, UriError};
use std::alloc::Global;
use thiserror::Error;

/// A request target that is served (RFC 9112 section 3.2).
pub struct Target {
    /// What stands in the request line that goes on: a path with its query, or `*`.
    pub line: Bytes,
    /// The authority, where the target is an absolute one.
    pub authority: Option<Bytes>,
}

impl Drop for Target {
    fn drop(self) {
        let Target { line, authority } = self;
        drop(line);
        drop(authority);
    }
}

/// Why a request target is refused.
#[derive(Clone, Copy, Debug, PartialEq, Eq, Error)]
pub enum TargetFault {
    /// The method is CONNECT, which asks for a tunnel.
    #[error("the method is CONNECT")]
    Connect,
    /// The target is of no form that is served.
    #[error("the target is of no form that is served")]
    NoTarget,
    /// There was no memory for the target.
    #[error("out of memory")]
    OutOfMemory,
}

/// Reads the target of a request, in time and memory for its bytes.
///
/// The origin form, `*` with OPTIONS, and the absolute form with the scheme `http` are served. The
/// authority form is for CONNECT alone, and a target with user information is refused: RFC 9110
/// section 4.2.4 tells recipients to treat it as an error, since it serves to make one host look
/// like another. A fragment is dropped.
///
/// # Errors
/// `Connect` comes before `NoTarget`.
pub fn read_target(alloc: Global, head: &Head) -> Result<Target, TargetFault>
    ensures ok { IfOk result (λ target. (head.now.method ≢ codes "CONNECT")
        × IsServed head.now.method head.now.target (form_of target)) }
    ensures sound { IsSoundTarget head.now.target → IfOk result IsSoundForm }
    ensures refused { IfErr result (IsRefused head.now.method head.now.target) }
{
    let method = head.method.as_str();
    if method == "CONNECT" {
        return Err(TargetFault::Connect);
    }
    let text = head.target.bytes();
    match Uri::from_bytes(alloc, text) {
        Ok(uri) => {
            let target = served_target(alloc, method, text, &uri);
            drop(uri);
            target
        }
        Err(UriError::Invalid(_)) => Err(TargetFault::NoTarget),
        Err(UriError::OutOfMemory) => Err(TargetFault::OutOfMemory),
    }
}

/// The target of this text, which spells this URI.
fn served_target(alloc: Global, method: &str, text: &[u8], uri: &Uri) -> Result<Target, TargetFault>
    ensures { Gives (served method.now text.now (uri_scheme uri.now)
        (uri_authority uri.now)) result }
{
    match (uri.scheme_str(), uri.authority()) {
        (None, None) => origin(alloc, method, text),
        (Some(scheme), Some(authority)) => {
            absolute(alloc, method, text, scheme, authority.as_str())
        }
        _ => Err(TargetFault::NoTarget),
    }
}

/// The target in origin form, or `*`.
fn origin(alloc: Global, method: &str, text: &[u8]) -> Result<Target, TargetFault>
    ensures { Gives (served method.now text.now None None) result }
{
    if text == b"*".as_slice() && method != "OPTIONS" {
        return Err(TargetFault::NoTarget);
    }
    match Vec::from_slice(alloc, before_fragment(text)) {
        Ok(line) => Ok(Target {
            line,
            authority: None,
        }),
        Err(_) => Err(TargetFault::OutOfMemory),
    }
}

/// The target in absolute form.
fn absolute(
    alloc: Global,
    method: &str,
    text: &[u8],
    scheme: &str,
    authority: &str,
) -> Result<Target, TargetFault>
    ensures { Gives (served method.now text.now (Some scheme.now) (Some authority.now)) result }
{
    if scheme != "http" || has_user(authority.as_bytes()) {
        return Err(TargetFault::NoTarget);
    }
    let Ok(line) = line_behind(alloc, method, behind(text, authority.len() + 7)) else {
        return Err(TargetFault::OutOfMemory);
    };
    match Vec::from_slice(alloc, authority.as_bytes()) {
        Ok(host) => Ok(Target {
            line,
            authority: Some(host),
        }),
        Err(_) => Err(TargetFault::OutOfMemory),
    }
}

/// Whether an authority has user information, be it empty.
fn has_user(authority: &[u8]) -> bool
    ensures { result ≡ list_any (λ b. b == at_sign) authority.now }
{
    authority.iter().any(|b| *b == b'@')
}

/// What an absolute target goes on as, by the bytes behind its authority.
fn line_behind(alloc: Global, method: &str, behind: &[u8]) -> Mem<Bytes>
    ensures { IfOk result (λ line. line.items ≡ line_behind method.now behind.now) }
{
    let kept = before_fragment(behind);
    if kept.is_empty() {
        let path = if method == "OPTIONS" { "*" } else { "/" };
        return Vec::from_slice(alloc, path.as_bytes());
    }
    let mut line = Vec::new(alloc);
    if kept[0] == b'?' {
        line.push(b'/')?;
    }
    line.extend_from_slice(kept)?;
    Ok(line)
}

/// The bytes before the fragment's `#`.
fn before_fragment(text: &[u8]) -> &[u8]
    ensures { result.now ≡ without_fragment text.now }
{
    match position_of(text, b'#') {
        Some(at) => &text[..at],
        None => text,
    }
}

/// The bytes from a place on, none past the end.
fn behind(text: &[u8], at: usize) -> &[u8]
    ensures { result.now ≡ drop at text.now }
{
    &text[at.min(text.len())..]
}
