//! The way to replicas.
ghost use Rattle.std.specs.Prelude.{◌≡◌, true};

use crate::{Bytes, Mem};
use http_wire::Rest;
use std::alloc::Global;
use std::mem;

/// The way to replicas: what opens connections to them, and the room for the bytes of a try.
///
/// One way serves all tries of a worker, one after another. The head that goes on is put into `out`
/// before each try.
pub struct Way<D> {
    /// What opens connections to them.
    pub dialer: D,
    /// The head that goes on, and then room for the one that goes back.
    pub out: Bytes,
    /// Room for the bytes that they give.
    pub(crate) back: Rest,
    /// Room for a copy of the head that goes on, where it may have to go on again.
    pub(crate) again: Bytes,
}

impl<D: Drop> Drop for Way<D> {
    fn drop(self) {
        let Way {
            dialer,
            out,
            back,
            again,
        } = self;
        drop(dialer);
        drop(out);
        drop(back);
        drop(again);
    }
}

/// The room of a way, which is used again for each try.
pub struct WayRoom {
    /// For the head that goes on to a replica, and then for the one that goes back to the client.
    out: Bytes,
    /// For the bytes that a replica gives.
    back: Rest,
    /// For a copy of the head that goes on.
    again: Bytes,
}

impl Drop for WayRoom {
    fn drop(self) {
        let WayRoom { out, back, again } = self;
        drop(out);
        drop(back);
        drop(again);
    }
}

/// How many bytes a head has room for from the start. It grows where it needs more.
const HEAD_ROOM: usize = 1024;

impl WayRoom {
    /// Room for one try at a time: some 17 KB.
    pub fn new(alloc: Global) -> Mem<WayRoom> {
        Ok(WayRoom {
            out: Vec::with_capacity(alloc, HEAD_ROOM)?,
            back: Rest::room(alloc)?,
            again: Vec::new(alloc),
        })
    }

    /// The way by this dialer, with this room.
    fn into_way<D>(self, dialer: D) -> Way<D>
        ensures { result.dialer ≡ dialer }
    {
        let WayRoom { out, back, again } = self;
        Way {
            dialer,
            out,
            back,
            again,
        }
    }
}

impl<D> Way<D> {
    /// A way by this dialer, with this room. It takes no memory.
    pub fn of(dialer: D, room: WayRoom) -> Way<D>
        ensures { result.dialer ≡ dialer }
    {
        room.into_way(dialer)
    }

    /// Its dialer, as its tries left it.
    pub fn into_dialer(self) -> D
        ensures { result ≡ self.dialer }
    {
        let Way {
            dialer,
            out,
            back,
            again,
        } = self;
        drop(out);
        drop(back);
        drop(again);
        dialer
    }

    /// Copies the head that goes on, and says whether there was memory for that.
    pub(crate) fn copy_head(&mut self) -> bool
        ensures copied { result ≡ true → self.new.again.items ≡ self.old.out.items }
        ensures same { (self.new.out.items ≡ self.old.out.items)
            × (self.new.dialer ≡ self.old.dialer) × (self.new.back ≡ self.old.back) }
    {
        self.again.clear();
        self.again.extend_from_slice(self.out.as_slice()).is_ok()
    }

    /// Puts the copy in the place of the head that goes on.
    pub(crate) fn take_copy(&mut self)
        ensures taken { self.new.out.items ≡ self.old.again.items }
        ensures same { (self.new.dialer ≡ self.old.dialer) × (self.new.back ≡ self.old.back) }
    {
        mem::swap(&mut self.out, &mut self.again);
    }
}
