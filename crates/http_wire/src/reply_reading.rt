//! Reading the head of a reply.
ghost use Rattle.std.specs.Prelude.{◌≡◌, true, false, ◌<◌, ◌≤◌, Err, length, IfOk, IsSome, OnOk};
ghost use Rattle.line_base.specs.Dials.{HasSameLinks};
ghost use Rattle.http_wire.specs.Heads.{most};
ghost use Rattle.http_wire.specs.Reading.{is_fault, raised_at};
ghost use Rattle.http_wire.specs.Replies.{is_at_end, IsDecidedReply, Tracks};
ghost use Rattle.http_wire.specs.ReplyReading.{LooksReply, ReadsReply, ReceivesOnce, ShowsReply};
ghost use Rattle.http_wire.specs.Sound.{IsSoundReply};

use crate::Mem;
use crate::first_line::behind_empty_lines;
use crate::head::ReplyHead;
use crate::reading::HeadEnd;
use crate::reply_parse::{ParsedReply, parse_reply};
use crate::reply_watch::ReplyWatch;
use crate::rest::{FillFault, Rest};
use crate::seen::{MOST_HEAD, window_of};
use line_base::Dialer;
use std::alloc::Global;

/// Reads the head of the next reply: of the bytes that are kept and those that the dialer receives
/// behind them, whatever the pieces in which they come. The bytes behind the head stay in `rest`;
/// without a head all of them do.
///
/// It reads as [`read_request_head`](crate::read_request_head) does: empty lines before the status
/// line are skipped, a line may end in a line feed alone, and what refuses a request's head there
/// refuses a reply's. The status line is not looked at beforehand, so a version that is not served
/// is `Bad`. Each byte is followed once as it comes, and the bytes are parsed once: where they show
/// the head's end or that there is none, or at 65,536 bytes.
///
/// # Errors
/// Each says what the bytes show, or what the last receive gave: see [`HeadEnd`]. `Version` never
/// comes.
pub fn read_reply_head<D: Dialer>(
    alloc: Global,
    dialer: &mut D,
    rest: &mut Rest,
) -> Result<ReplyHead, HeadEnd>
    requires { IsSome (D.upstream dialer.old).open_to }
    ensures head { ReadsReply (D.upstream dialer.old).left (D.upstream dialer.new).left
        (D.upstream dialer.old).log (D.upstream dialer.new).log
        rest.old rest.new result }
    ensures sound { IfOk result IsSoundReply }
    ensures fault { (D.upstream dialer.new).faults ≡ raised_at (is_fault result)
        (D.upstream dialer.old).faults }
    ensures faults { (D.upstream dialer.old).faults ≤ (D.upstream dialer.new).faults }
    ensures stays { HasSameLinks (D.upstream dialer.old) (D.upstream dialer.new) }
{
    let mut watch = ReplyWatch::new();
    watch.follow(rest.kept());
    while !is_settled(&watch, rest) {
        match receive_once(dialer, rest, &mut watch) {
            Ok(()) => {}
            Err(end) => return Err(end),
        }
    }
    answer(alloc, rest)
}

/// Whether the bytes show the head's end, or that there is none, or are as many as a head may have.
fn is_settled(watch: &ReplyWatch, rest: &Rest) -> bool
    ensures open_ { result ≡ false → (is_at_end watch.now.place ≡ false)
        × (length rest.now < most) }
    ensures settled { result ≡ true → length rest.now < most → is_at_end watch.now.place ≡ true }
{
    watch.is_at_end() || rest.kept().len() >= MOST_HEAD
}

/// Receives once behind the bytes of an unfinished head.
fn receive_once<D: Dialer>(
    dialer: &mut D,
    rest: &mut Rest,
    watch: &mut ReplyWatch,
) -> Result<(), HeadEnd>
    requires open_ { IsSome (D.upstream dialer.old).open_to }
    requires few { length rest.old < most }
    requires tracks { Tracks rest.old watch.old.place }
    ensures bytes { ReceivesOnce (D.upstream dialer.old).left (D.upstream dialer.new).left
        (D.upstream dialer.old).log (D.upstream dialer.new).log
        rest.old rest.new result }
    ensures tracks { OnOk result (Tracks rest.new watch.new.place) }
    ensures fault { (D.upstream dialer.new).faults ≡ raised_at (is_fault result)
        (D.upstream dialer.old).faults }
    ensures faults { (D.upstream dialer.old).faults ≤ (D.upstream dialer.new).faults }
    ensures stays { HasSameLinks (D.upstream dialer.old) (D.upstream dialer.new) }
{
    let followed = rest.kept().len();
    match rest.fill_from(dialer) {
        Ok(0) if behind_empty_lines(rest.kept()).is_empty() => Err(HeadEnd::Ended),
        Ok(0) => Err(HeadEnd::Cut),
        Ok(_) => {
            watch.follow(&rest.kept()[followed..]);
            Ok(())
        }
        Err(FillFault::ReadFault) => Err(HeadEnd::ReadFault),
        Err(FillFault::OutOfMemory) => Err(HeadEnd::OutOfMemory),
    }
}

/// The answer that the kept bytes show, which are decided or as many as a head may have.
fn answer(alloc: Global, rest: &mut Rest) -> Result<ReplyHead, HeadEnd>
    requires { length rest.old < most → IsDecidedReply rest.old }
    ensures { LooksReply rest.old rest.new result }
{
    match parse_window(alloc, rest.kept()) {
        Ok(ParsedReply::Whole(head, len)) => {
            rest.skip(len);
            Ok(head)
        }
        Ok(ParsedReply::Bad) => Err(HeadEnd::Bad),
        Ok(ParsedReply::Partial) => Err(HeadEnd::TooLarge),
        Err(_) => Err(HeadEnd::OutOfMemory),
    }
}

/// What is parsed of the bytes that count.
fn parse_window(alloc: Global, bytes: &[u8]) -> Mem<ParsedReply>
    ensures { IfOk result (ShowsReply bytes.now) }
{
    parse_reply(alloc, window_of(bytes))
}
