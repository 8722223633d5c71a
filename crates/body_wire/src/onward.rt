//! The body of a request, on its way to an upstream.
ghost use Rattle.std.specs.Prelude.{◌≡◌, ◌≢◌, ℕ, List, [], IsSome, Err};
ghost use Rattle.std.specs.List.{concat};
ghost use Rattle.std.specs.Io.KnownBytes.{Consumes, Keeps};
ghost use Rattle.line_base.specs.Dials.{HasSameLinks};
ghost use Rattle.line_base.specs.Lines.{IsUnwritten};
ghost use Rattle.body_wire.specs.declared.form.Form.{Form};
ghost use Rattle.body_wire.specs.Passing.{CountsEnd, HasNoneBehind, PassesOn, RaisedAt, Sends};
ghost use Rattle.body_wire.specs.Passing.{most_passed};

use crate::Bytes;
use crate::answer::{MOST_PASSED, answer, at_end};
use crate::decoder::Decoder;
use crate::end::BodyEnd;
use crate::form::Form;
use crate::passed::Passed;
use crate::sending::send_turn;
use http_wire::{Framing, Rest};
use line_base::{Dialer, Peer};

/// Passes the body of a request on to an upstream, piece by piece, and gives the number of its
/// content bytes, up to 2^63 - 1, whether all of it went on or not.
///
/// `out` holds what goes first, the request's head: what of the body lies in `rest` leaves with it,
/// in one call of [`Dialer::send`] where the dialer takes all. It is empty afterwards, and may be
/// used again. What lies behind the body stays in `rest`.
///
/// The time is that of the bytes, one call of [`Peer::read`] and one of `send` for each piece of up
/// to 16,384 bytes. Content alone goes straight from the room of `rest`; chunk lines, and content
/// beside them, are copied once, into `out`. It takes memory only where `out` is too small for the
/// head and one piece.
///
/// # Errors
/// See [`BodyEnd`]. At an end that the bytes show, and at `ReadFault`, all that goes on for the
/// bytes that came has been sent: nothing is kept back. At `SendFault` and `OutOfMemory` a front of
/// it has.
pub fn pass_body<P: Peer, D: Dialer>(
    peer: &mut P,
    rest: &mut Rest,
    framing: Framing,
    out: &mut Bytes,
    dialer: &mut D,
) -> Passed
    requires { IsSome (D.upstream dialer.old).open_to }
    ensures body { (pieces : List (List ℕ)) × (sent : List ℕ)
        × Consumes (P.line peer.old).left (P.line peer.new).left (concat pieces)
        × Sends (D.upstream dialer.old).log (D.upstream dialer.new).log sent
        × PassesOn framing Form.Chunks most_passed out.old.items rest.old pieces sent rest.new
        result.count result.end }
    ensures ends { CountsEnd framing (P.line peer.old).ends (P.line peer.new).ends result.end }
    ensures none_left { HasNoneBehind framing (P.line peer.new).left result.end }
    ensures reads { RaisedAt (Err BodyEnd.ReadFault) (P.line peer.old).read_faults
        (P.line peer.new).read_faults result.end }
    ensures sends { RaisedAt (Err BodyEnd.SendFault) (D.upstream dialer.old).faults
        (D.upstream dialer.new).faults result.end }
    ensures never { (result.end ≢ Err BodyEnd.WriteFault) × (result.end ≢ Err BodyEnd.RecvFault) }
    ensures peer_stays { IsUnwritten (P.line peer.old) (P.line peer.new) }
    ensures dialer_stays { HasSameLinks (D.upstream dialer.old) (D.upstream dialer.new)
        × Keeps (D.upstream dialer.old).left (D.upstream dialer.new).left }
    ensures out { out.new.items ≡ [] }
{
    let mut decoder = Decoder::of(framing, Form::Chunks, MOST_PASSED);
    'pieces: loop {
        let turn = send_turn(&mut decoder, rest, out, dialer);
        match answer(decoder.count, BodyEnd::SendFault, turn) {
            Some(end) => {
                return Passed {
                    count: decoder.count,
                    end,
                };
            }
            None => {}
        }
        match rest.pull(peer) {
            Ok(0) => {
                return Passed {
                    count: decoder.count,
                    end: at_end(framing, decoder.count),
                };
            }
            Ok(_) => {}
            Err(_) => {
                return Passed {
                    count: decoder.count,
                    end: Err(BodyEnd::ReadFault),
                };
            }
        }
    }
}
