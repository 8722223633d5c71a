//! The room that a server uses again from request to request.
ghost use Rattle.std.specs.Prelude.{◌≡◌};

use crate::Mem;
use http_wire::Rest;
use replica_try::WayRoom;
use router::Names;
use std::alloc::Global;

/// The room of a server, which it uses again for each request of each connection.
pub struct Room {
    /// For the bytes that a client gives.
    pub(crate) rest: Rest,
    /// For the names of a replica.
    pub(crate) names: Names,
    /// For the bytes of a try.
    pub(crate) way: WayRoom,
}

impl Drop for Room {
    fn drop(self) {
        let Room { rest, names, way } = self;
        drop(rest);
        drop(names);
        drop(way);
    }
}

impl Room {
    /// Room for one connection at a time: some 38 KB.
    pub fn new(alloc: Global) -> Mem<Room> {
        Ok(Room {
            rest: Rest::room(alloc)?,
            names: Names::room(alloc)?,
            way: WayRoom::new(alloc)?,
        })
    }

    /// What it is made of.
    pub(crate) fn into_parts(self) -> (Rest, Names, WayRoom)
        ensures { (result.0 ≡ self.rest) × (result.1 ≡ self.names) × (result.2 ≡ self.way) }
    {
        let Room { rest, names, way } = self;
        (rest, names, way)
    }
}
