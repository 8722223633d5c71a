//! `follow`: a leader is asked again and again, and what it tells that is later is told.
ghost use Rattle.std.specs.Prelude.{◌≡◌};
ghost use Rattle.line_base.specs.Streams.{Output};
ghost use Rattle.linker_commands.specs.Run.{Course, EndsCourse, Follows};
ghost use Rattle.linker_commands.specs.Told.{code_of};

use crate::run::{ExitStatus, tell};
use addr_book::Name;
use command_lines::Following;
use follow_feed::{FollowEnd, follow_all};
use line_base::{ConnectionPool, Net, Sink};
use std::alloc::Global;

/// Follows a leader, with a new dialer of the net, which keeps no connection.
pub fn follow<N: Net, K: Sink>(
    alloc: Global,
    net: &mut N,
    following: Following<'_>,
    out: &mut K,
) -> ExitStatus
    ensures followed { (course : Course)
        × Follows (N.state net.old).told following.entry.leader following.entry.space.now
        following.entry.polls course × EndsCourse course (K.output out.old) (K.output out.new)
        (code_of result) }
    ensures net { (N.state net.new ≡ N.state net.old) × (N.faults net.new ≡ N.faults net.old) }
{
    let Following {
        leader,
        space,
        polls,
    } = following;
    let Ok(space) = Name::of(alloc, space.as_bytes()) else {
        return tell(out, b"error memory\n", ExitStatus::Memory);
    };
    let mut dialer = net.dialer(ConnectionPool::NONE);
    match follow_all(alloc, &mut dialer, leader, &space, polls, out) {
        FollowEnd::Done => ExitStatus::Done,
        FollowEnd::WriteFault => ExitStatus::Write,
        FollowEnd::OutOfMemory => tell(out, b"error memory\n", ExitStatus::Memory),
    }
}
