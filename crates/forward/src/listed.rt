//! The names that Connection fields list, to be found by halves.
ghost use Rattle.std.specs.Prelude.{◌≡◌, bytes_eq, IfOk, OnOk};
ghost use Rattle.http_wire.specs.Fields.{lower};
ghost use Rattle.std.specs.List.{list_any};
ghost use Rattle.std.specs.List.Sorted.{IsSorted};
ghost use Rattle.forward.specs.Dropped.{named_in_connection};
ghost use Rattle.forward.specs.Listed.{is_among_lowered, text_order, StandFor};

use crate::names::lowered_names;
use crate::{Bytes, Mem};
use http_wire::Field;
use std::alloc::Global;

/// The names that the Connection fields of a head list, in lower case and in order. So each field's
/// name is looked up in the steps of a binary search, however many names a client lists.
pub(crate) struct Listed {
    names: Vec<Bytes>,
    ghost sorted: { IsSorted text_order names.items },
}

impl Drop for Listed {
    fn drop(self) {
        let Listed { names } = self;
        drop(names);
    }
}

impl Listed {
    /// The names that the Connection fields among these list.
    pub(crate) fn of(alloc: Global, fields: &[Field]) -> Mem<Listed>
        ensures { IfOk result
            (λ listed. StandFor listed.names.items (named_in_connection fields.now)) }
    {
        let mut names = lowered_names(alloc, fields)?;
        names.sort()?;
        Ok(Listed { names })
    }

    /// Whether the name is among them, in any case. `room` is room for it in lower case.
    pub(crate) fn has(&self, name: &[u8], room: &mut Bytes) -> Mem<bool>
        ensures { IfOk result (λ found. found ≡ is_among_lowered self.now.names.items name.now) }
    {
        if self.names.as_slice().is_empty() {
            return Ok(false);
        }
        put_lowered(room, name)?;
        Ok(self.has_lowered(room))
    }

    /// Whether the name, which is in lower case, is among them.
    fn has_lowered(&self, name: &Bytes) -> bool
        ensures { result ≡ list_any (λ n. bytes_eq n.items name.now.items) self.now.names.items }
    {
        self.names.as_slice().binary_search(name).is_ok()
    }
}

/// Puts a name in lower case into the room, in place of what is there.
fn put_lowered(room: &mut Bytes, name: &[u8]) -> Mem<()>
    ensures { OnOk result (room.new.items ≡ lower name.now) }
{
    room.clear();
    room.extend_from_slice(name)?;
    room.as_mut_slice().make_ascii_lowercase();
    Ok(())
}
