//! Passing a body on to a peer.
ghost use Rattle.std.specs.Prelude.{◌≡◌, [], List, ℕ};
ghost use Rattle.std.specs.Io.KnownBytes.{Appends};
ghost use Rattle.line_base.specs.Counts.{HasCause};
ghost use Rattle.line_base.specs.Lines.{IsUnread};
ghost use Rattle.body_wire.specs.Turns.{RunGoes, SendsAll, TakenGoes, TurnCause, Turns};

use crate::decoder::{Decoder, StopCause};
use crate::turn::{TurnFault, lone_run, take_all};
use crate::{Bytes, Mem};
use http_wire::Rest;
use line_base::{Failed, Peer};

/// Writes all bytes to a peer, in as many calls as it takes, or a front of them where one fails.
pub fn write_all<P: Peer>(peer: &mut P, bytes: &[u8]) -> Result<(), Failed>
    ensures bytes { (sent : List ℕ) × Appends (P.line peer.old).given (P.line peer.new).given sent
        × SendsAll bytes.now sent result }
    ensures others { IsUnread (P.line peer.old) (P.line peer.new) }
    ensures cause { HasCause (P.line peer.old).write_faults (P.line peer.new).write_faults result }
{
    let mut at = 0;
    while at < bytes.len() {
        match peer.write(&bytes[at..]) {
            Ok(count) => at += count,
            Err(failed) => return Err(failed),
        }
    }
    Ok(())
}

/// Writes what is kept from where it is, where all of it is content and nothing waits before it.
fn write_run<P: Peer>(
    decoder: &mut Decoder,
    rest: &mut Rest,
    out: &Bytes,
    peer: &mut P,
) -> Result<(), Failed>
    ensures bytes { (sent : List ℕ) × Appends (P.line peer.old).given (P.line peer.new).given sent
        × RunGoes decoder.old decoder.new rest.old rest.new out.now.items sent result }
    ensures others { IsUnread (P.line peer.old) (P.line peer.new) }
    ensures cause { HasCause (P.line peer.old).write_faults (P.line peer.new).write_faults result }
{
    let run = lone_run(decoder, rest.kept(), out);
    if run == 0 {
        return Ok(());
    }
    let sent = write_all(peer, rest.kept());
    rest.skip(run);
    decoder.pass(run);
    sent
}

/// Writes what waits in `out` and all that goes on for the kept bytes, in one call where peers take
/// all bytes of a call.
pub(crate) fn write_turn<P: Peer>(
    decoder: &mut Decoder,
    rest: &mut Rest,
    out: &mut Bytes,
    peer: &mut P,
) -> Result<StopCause, TurnFault>
    ensures bytes { (sent : List ℕ) × Appends (P.line peer.old).given (P.line peer.new).given sent
        × Turns decoder.old decoder.new rest.old rest.new out.old.items sent result }
    ensures out { out.new.items ≡ [] }
    ensures others { IsUnread (P.line peer.old) (P.line peer.new) }
    ensures cause { TurnCause (P.line peer.old).write_faults (P.line peer.new).write_faults result }
{
    match write_run(decoder, rest, out, peer) {
        Ok(()) => {}
        Err(_) => {
            out.clear();
            return Err(TurnFault::Failed);
        }
    }
    let taken = take_all(decoder, rest, out);
    let sent = write_taken(&taken, out, peer);
    out.clear();
    sent
}

/// Writes what goes on, unless there was no memory for it.
fn write_taken<P: Peer>(
    taken: &Mem<StopCause>,
    out: &Bytes,
    peer: &mut P,
) -> Result<StopCause, TurnFault>
    ensures bytes { (sent : List ℕ) × Appends (P.line peer.old).given (P.line peer.new).given sent
        × TakenGoes taken.now out.now.items sent result }
    ensures others { IsUnread (P.line peer.old) (P.line peer.new) }
    ensures cause { TurnCause (P.line peer.old).write_faults (P.line peer.new).write_faults result }
{
    match taken {
        Ok(stop) => match write_all(peer, out.as_slice()) {
            Ok(()) => Ok(*stop),
            Err(_) => Err(TurnFault::Failed),
        },
        Err(_) => Err(TurnFault::OutOfMemory),
    }
}
