//! The body of a reply, on its way back to a client.
ghost use Rattle.std.specs.Prelude.{◌≡◌, ◌≢◌, ℕ, List, [], IsSome, Err};
ghost use Rattle.std.specs.List.{concat};
ghost use Rattle.std.specs.Io.KnownBytes.{Appends, Consumes};
ghost use Rattle.line_base.specs.Dials.{HasSameLinks};
ghost use Rattle.line_base.specs.Lines.{IsUnread};
ghost use Rattle.body_wire.specs.Passing.{EndsPieces, PassesOn, RaisedAt, ReceivesPieces, form_of};
ghost use Rattle.body_wire.specs.Passing.{most_passed};

use crate::Bytes;
use crate::answer::{MOST_PASSED, answer, at_end};
use crate::decoder::Decoder;
use crate::end::BodyEnd;
use crate::form::Form;
use crate::passed::Passed;
use crate::writing::write_turn;
use http_wire::{Framing, Rest};
use line_base::{Dialer, Peer};

/// Passes the body of a reply back to a client, piece by piece, and gives the number of its content
/// bytes, up to 2^63 - 1, whether all of it went back or not. A chunked body goes back in chunks
/// where `chunked`, and else as its content.
///
/// `out` holds what goes first, the reply's head, as in [`pass_body`](crate::pass_body). What one
/// receive gave is written before the next one, so that events go through as they come, and at most
/// 16,384 bytes that were received are not yet written. No byte is received behind the last one of
/// the body, and none where there is no body.
///
/// Time and memory are those of [`pass_body`](crate::pass_body).
///
/// # Errors
/// See [`BodyEnd`]. At an end that the bytes show, and at `RecvFault`, all that goes back for the
/// bytes that came has been written. At `WriteFault` and `OutOfMemory` a front of it has.
pub fn pass_back<P: Peer, D: Dialer>(
    dialer: &mut D,
    rest: &mut Rest,
    framing: Framing,
    chunked: bool,
    out: &mut Bytes,
    peer: &mut P,
) -> Passed
    requires { IsSome (D.upstream dialer.old).open_to }
    ensures body { (pieces : List (List ℕ)) × (sent : List ℕ)
        × Consumes (D.upstream dialer.old).left (D.upstream dialer.new).left (concat pieces)
        × ReceivesPieces (D.upstream dialer.old).log (D.upstream dialer.new).log pieces
        × Appends (P.line peer.old).given (P.line peer.new).given sent
        × EndsPieces framing pieces result.end
        × PassesOn framing (form_of chunked) most_passed out.old.items rest.old pieces sent rest.new
        result.count result.end }
    ensures receives { RaisedAt (Err BodyEnd.RecvFault) (D.upstream dialer.old).faults
        (D.upstream dialer.new).faults result.end }
    ensures writes { RaisedAt (Err BodyEnd.WriteFault) (P.line peer.old).write_faults
        (P.line peer.new).write_faults result.end }
    ensures never { (result.end ≢ Err BodyEnd.ReadFault) × (result.end ≢ Err BodyEnd.SendFault) }
    ensures peer_stays { IsUnread (P.line peer.old) (P.line peer.new) }
    ensures dialer_stays { HasSameLinks (D.upstream dialer.old) (D.upstream dialer.new) }
    ensures out { out.new.items ≡ [] }
{
    let mut decoder = Decoder::of(framing, Form::of(chunked), MOST_PASSED);
    'pieces: loop {
        let turn = write_turn(&mut decoder, rest, out, peer);
        match answer(decoder.count, BodyEnd::WriteFault, turn) {
            Some(end) => {
                return Passed {
                    count: decoder.count,
                    end,
                };
            }
            None => {}
        }
        match rest.pull_from(dialer) {
            Ok(0) => {
                return Passed {
                    count: decoder.count,
                    end: at_end(framing, decoder.count),
                };
            }
            Ok(_) => {}
            Err(_) => {
                return Passed {
                    count: decoder.count,
                    end: Err(BodyEnd::RecvFault),
                };
            }
        }
    }
}
