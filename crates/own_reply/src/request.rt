//! A request's own tests: those that need its head alone.
ghost use Rattle.std.specs.Prelude.{◌≡◌};
ghost use Rattle.own_reply.specs.Tests.{Answers, names_longer, of_framing, of_host, of_target};

use crate::{Bytes, OwnError};
use http_wire::{
    Framing, FramingFault, Head, HostFault, Target, TargetFault, framing, read_host, read_target,
};
use std::alloc::Global;

/// What the tests of a request read of it.
#[derive(Drop)]
pub struct Tested {
    /// Its target, in the form in which it goes on.
    pub target: Target,
    /// How its body is framed.
    pub framing: Framing,
    /// Whom it asks. Empty where it names nobody.
    pub host: Bytes,
}

/// Why a request goes no further.
#[derive(Clone, Copy, Debug, PartialEq, Eq)]
pub enum Refusal {
    /// The router answers it itself.
    Own(OwnError),
    /// There was no memory for its target or its host.
    OutOfMemory,
}

impl From<TargetFault> for Refusal {
    ghost from_gives = { λ fault refusal. refusal ≡ of_target fault };

    fn from(fault: TargetFault) -> Refusal {
        match fault {
            TargetFault::Connect => Refusal::Own(OwnError::Connect),
            TargetFault::NoTarget => Refusal::Own(OwnError::Target),
            TargetFault::OutOfMemory => Refusal::OutOfMemory,
        }
    }
}

impl From<FramingFault> for Refusal {
    ghost from_gives = { λ fault refusal. refusal ≡ of_framing fault };

    fn from(fault: FramingFault) -> Refusal {
        match fault {
            FramingFault::Length => Refusal::Own(OwnError::Length),
            FramingFault::Coding => Refusal::Own(OwnError::Coding),
        }
    }
}

impl From<HostFault> for Refusal {
    ghost from_gives = { λ fault refusal. refusal ≡ of_host fault };

    fn from(fault: HostFault) -> Refusal {
        match fault {
            HostFault::NoHost => Refusal::Own(OwnError::Host),
            HostFault::OutOfMemory => Refusal::OutOfMemory,
        }
    }
}

/// Tests a request by its head alone, in time for its bytes: its target, the framing of its body,
/// the length that it names, and its host, in this order. The first that fails refuses it.
///
/// A proxy passes bodies of any length on: it gives no `most`. Whoever keeps a body whole says how
/// many bytes it may have at most, and a request that names a longer one is then refused before a
/// byte of it is read. The length of a chunked body shows only as it is read, and is not tested
/// here.
///
/// # Errors
/// `Own` with `Connect`, `Target`, `Length`, `Coding`, `TooLong` or `Host`; `OutOfMemory` where
/// there is no memory for the target or the host.
pub fn test_request(alloc: Global, head: &Head, most: Option<u64>) -> Result<Tested, Refusal>
    ensures { Answers most head.now result }
{
    let target = read_target(alloc, head)?;
    let framing = framing(head)?;
    if names_longer(framing, most) {
        return Err(Refusal::Own(OwnError::TooLong));
    }
    let host = read_host(alloc, head, &target)?;
    Ok(Tested {
        target,
        framing,
        host,
    })
}

/// Whether a body that is framed so names more bytes than this, where there is a most.
fn names_longer(framing: Framing, most: Option<u64>) -> bool
    ensures { result ≡ names_longer most framing }
{
    let Some(most) = most else {
        return false;
    };
    match framing {
        Framing::Length(length) => length > most,
        Framing::Nothing | Framing::Chunked | Framing::ToEnd => false,
    }
}
