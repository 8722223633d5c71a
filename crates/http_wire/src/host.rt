//! The host of a request.
ghost use Rattle.std.specs.Prelude.{All, IfOk, IfSome, option_map};
ghost use Rattle.httparse.specs.Grammar.{AllPass, is_value_byte};
ghost use Rattle.http_wire.specs.Heads.{IsSoundField};
ghost use Rattle.http_wire.specs.Host.{host_of, Gives};

use crate::Bytes;
use crate::head::Head;
use crate::target::Target;
use std::alloc::Global;
use thiserror::Error;

/// Why a request has no host.
#[derive(Clone, Copy, Debug, PartialEq, Eq, Error)]
pub enum HostFault {
    /// Its Host fields don't fit its version.
    #[error("the Host fields don't fit the version")]
    NoHost,
    /// There was no memory for the host.
    #[error("out of memory")]
    OutOfMemory,
}

/// The host of a request: the authority of an absolute target, else the value of the Host field,
/// else nothing (RFC 9112 section 3.3). It takes time for the fields and memory for the host.
///
/// # Errors
/// `NoHost` exactly where an HTTP/1.1 request has not exactly one Host field, or an HTTP/1.0
/// request more than one (RFC 9112 section 3.2): two of them may name one host to us and another to
/// the next recipient.
pub fn read_host(alloc: Global, head: &Head, target: &Target) -> Result<Bytes, HostFault>
    ensures host { Gives (host_of head.now.version head.now.fields
        (option_map (λ v. v.items) target.now.authority)) result }
    ensures sound { All IsSoundField head.now.fields
        → IfSome target.now.authority (λ authority. AllPass is_value_byte authority.items)
        → IfOk result (λ host. AllPass is_value_byte host.items) }
{
    host_text(alloc, head, target)
}

/// The same, by the definition alone.
fn host_text(alloc: Global, head: &Head, target: &Target) -> Result<Bytes, HostFault>
    ensures { Gives (host_of head.now.version head.now.fields
        (option_map (λ v. v.items) target.now.authority)) result }
{
    let hosts = head.fields.count("host");
    if hosts > 1 || (hosts == 0 && head.version != 0) {
        return Err(HostFault::NoHost);
    }
    let named = head.fields.first("host").unwrap_or(b"");
    let host = match &target.authority {
        Some(authority) => authority.as_slice(),
        None => named,
    };
    match Vec::from_slice(alloc, host) {
        Ok(host) => Ok(host),
        Err(_) => Err(HostFault::OutOfMemory),
    }
}
