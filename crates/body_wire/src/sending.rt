//! Passing a body on to a dialer.
ghost use Rattle.std.specs.Prelude.{◌≡◌, [], List, ℕ, IsSome};
ghost use Rattle.std.specs.Io.KnownBytes.{Keeps};
ghost use Rattle.line_base.specs.Dials.{HasSameLinks};
ghost use Rattle.line_base.specs.Counts.{HasCause};
ghost use Rattle.body_wire.specs.Passing.{Sends};
ghost use Rattle.body_wire.specs.Turns.{RunGoes, SendsAll, TakenGoes, TurnCause, Turns};

use crate::decoder::{Decoder, StopCause};
use crate::turn::{TurnFault, lone_run, take_all};
use crate::{Bytes, Mem};
use http_wire::Rest;
use line_base::{Dialer, Failed};

/// Sends all bytes to a dialer.
fn send_all<D: Dialer>(dialer: &mut D, bytes: &[u8]) -> Result<(), Failed>
    requires { IsSome (D.upstream dialer.old).open_to }
    ensures bytes { (sent : List ℕ)
        × Sends (D.upstream dialer.old).log (D.upstream dialer.new).log sent
        × SendsAll bytes.now sent result }
    ensures stays { HasSameLinks (D.upstream dialer.old) (D.upstream dialer.new)
        × Keeps (D.upstream dialer.old).left (D.upstream dialer.new).left }
    ensures cause { HasCause (D.upstream dialer.old).faults (D.upstream dialer.new).faults result }
{
    let mut at = 0;
    while at < bytes.len() {
        match dialer.send(&bytes[at..]) {
            Ok(count) => at += count,
            Err(failed) => return Err(failed),
        }
    }
    Ok(())
}

/// Sends what is kept from where it is, where all of it is content and nothing waits before it.
fn send_run<D: Dialer>(
    decoder: &mut Decoder,
    rest: &mut Rest,
    out: &Bytes,
    dialer: &mut D,
) -> Result<(), Failed>
    requires { IsSome (D.upstream dialer.old).open_to }
    ensures bytes { (sent : List ℕ)
        × Sends (D.upstream dialer.old).log (D.upstream dialer.new).log sent
        × RunGoes decoder.old decoder.new rest.old rest.new out.now.items sent result }
    ensures stays { HasSameLinks (D.upstream dialer.old) (D.upstream dialer.new)
        × Keeps (D.upstream dialer.old).left (D.upstream dialer.new).left }
    ensures cause { HasCause (D.upstream dialer.old).faults (D.upstream dialer.new).faults result }
{
    let run = lone_run(decoder, rest.kept(), out);
    if run == 0 {
        return Ok(());
    }
    let sent = send_all(dialer, rest.kept());
    rest.skip(run);
    decoder.pass(run);
    sent
}

/// Sends what waits in `out` and all that goes on for the kept bytes, in one call where dialers
/// take all bytes of a call.
pub(crate) fn send_turn<D: Dialer>(
    decoder: &mut Decoder,
    rest: &mut Rest,
    out: &mut Bytes,
    dialer: &mut D,
) -> Result<StopCause, TurnFault>
    requires { IsSome (D.upstream dialer.old).open_to }
    ensures bytes { (sent : List ℕ)
        × Sends (D.upstream dialer.old).log (D.upstream dialer.new).log sent
        × Turns decoder.old decoder.new rest.old rest.new out.old.items sent result }
    ensures out { out.new.items ≡ [] }
    ensures stays { HasSameLinks (D.upstream dialer.old) (D.upstream dialer.new)
        × Keeps (D.upstream dialer.old).left (D.upstream dialer.new).left }
    ensures cause { TurnCause (D.upstream dialer.old).faults (D.upstream dialer.new).faults result }
{
    match send_run(decoder, rest, out, dialer) {
        Ok(()) => {}
        Err(_) => {
            out.clear();
            return Err(TurnFault::Failed);
        }
    }
    let taken = take_all(decoder, rest, out);
    let sent = send_taken(&taken, out, dialer);
    out.clear();
    sent
}

/// Sends what goes on, unless there was no memory for it.
fn send_taken<D: Dialer>(
    taken: &Mem<StopCause>,
    out: &Bytes,
    dialer: &mut D,
) -> Result<StopCause, TurnFault>
    requires { IsSome (D.upstream dialer.old).open_to }
    ensures bytes { (sent : List ℕ)
        × Sends (D.upstream dialer.old).log (D.upstream dialer.new).log sent
        × TakenGoes taken.now out.now.items sent result }
    ensures stays { HasSameLinks (D.upstream dialer.old) (D.upstream dialer.new)
        × Keeps (D.upstream dialer.old).left (D.upstream dialer.new).left }
    ensures cause { TurnCause (D.upstream dialer.old).faults (D.upstream dialer.new).faults result }
{
    match taken {
        Ok(stop) => match send_all(dialer, out.as_slice()) {
            Ok(()) => Ok(*stop),
            Err(_) => Err(TurnFault::Failed),
        },
        Err(_) => Err(TurnFault::OutOfMemory),
    }
}
