//! Services and the paths that ask for them.
ghost use Rattle.std.specs.Prelude.{◌≡◌, IfOk};
ghost use Rattle.turn_parts.specs.Parts.{service_name, service_path};

use crate::{Bytes, Mem};
use addr_book::Name;
use name_tree::Path;
use std::alloc::{AllocError, Global};

/// The text of a service's name: `s` and its number.
pub(crate) fn service_text(alloc: Global, service: u64) -> Mem<Bytes>
    ensures { IfOk result (λ text. text.items ≡ service_name service) }
{
    Ok(format!(in alloc; "s{service}")?.into_bytes())
}

/// The name of a service: `s` and its number.
pub fn service_name(alloc: Global, service: u64) -> Mem<Name>
    ensures { IfOk result (λ name. name ≡ service_name service) }
{
    let text = service_text(alloc, service)?;
    match Name::of(alloc, text.as_slice()) {
        Ok(name) => Ok(name),
        Err(_) => Err(AllocError),
    }
}

/// The path `/svc/sN`.
pub(crate) fn service_path(alloc: Global, service: u64) -> Mem<Path>
    ensures { IfOk result (λ path. path ≡ service_path service) }
{
    let mut path = Path::new(alloc);
    path.push(b"svc".to_vec(alloc)?)?;
    path.push(service_text(alloc, service)?)?;
    Ok(path)
}
