//! What a request seeks.
ghost use Rattle.std.specs.Prelude.{◌≡◌};
ghost use Rattle.proxy_session.specs.Sought.{SeeksAs};

use crate::Bytes;
use http_wire::{Framing, Head, Target};
use identifier::{IdentifyFault, LocalFault, Rule, identify, local_dtab};
use machine::Ask;
use name_tree::Path;
use own_reply::{OwnError, Refusal, Tested, test_request};
use std::alloc::Global;

/// A request for which a replica is sought.
pub(crate) struct SoughtRequest {
    /// How its body is framed.
    pub(crate) framing: Framing,
    /// Its target, in the form in which it goes on.
    pub(crate) target: Target,
    /// Whom it asks. Empty where it names nobody.
    pub(crate) host: Bytes,
    /// What is asked for it: the path that it names, and the table that it brings along. Each
    /// attempt draws the moment and the words anew.
    pub(crate) ask: Ask,
}

impl Drop for SoughtRequest {
    fn drop(self) {
        let SoughtRequest {
            framing: _,
            target,
            host,
            ask,
        } = self;
        drop(target);
        drop(host);
        drop(ask);
    }
}

impl SoughtRequest {
    /// The path that it names.
    pub(crate) fn into_path(self) -> Path
        ensures { result ≡ self.ask.path }
    {
        let SoughtRequest {
            framing: _,
            target,
            host,
            ask,
        } = self;
        drop(target);
        drop(host);
        ask.into_path()
    }
}

/// Reads what a request seeks. The tests come in this order: those of its head alone (its target,
/// the framing of its body, its host), the path that it names, and the table that it brings along.
pub(crate) fn seek(alloc: Global, rule: &Rule, head: &Head) -> Result<SoughtRequest, Refusal>
    ensures seeks { SeeksAs rule.now head.now result }
{
    let tested = test_request(alloc, head, None)?;
    let path = match identify(alloc, rule, head, tested.host.as_slice()) {
        Ok(path) => path,
        Err(IdentifyFault::Unidentified) => {
            drop(tested);
            return Err(Refusal::Own(OwnError::Unidentified));
        }
        Err(IdentifyFault::OutOfMemory) => {
            drop(tested);
            return Err(Refusal::OutOfMemory);
        }
    };
    let local = match local_dtab(alloc, head) {
        Ok(local) => local,
        Err(LocalFault::BadDtab) => {
            drop(path);
            drop(tested);
            return Err(Refusal::Own(OwnError::Dtab));
        }
        Err(LocalFault::OutOfMemory) => {
            drop(path);
            drop(tested);
            return Err(Refusal::OutOfMemory);
        }
    };
    let Tested {
        target,
        framing,
        host,
    } = tested;
    Ok(SoughtRequest {
        framing,
        target,
        host,
        ask: Ask {
            path,
            local,
            moment: 0,
            words: [0; 3],
        },
    })
}
