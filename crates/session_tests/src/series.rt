//! One session, cut at each byte, and with each of its calls failing.
use crate::compared::assert_written;
use crate::played::{Played, play};
use crate::scene::{Failing, NO_CALL, Scene, spelt};
use crate::texts::{DIAL, FIELDS, SENT_FIELDS, UPSTREAM};
use http_wire::Ended::{self, Cut, PeerEnded, ReadFault, UpstreamCut, WriteFault};
use std::alloc::Global;
use std::process::Abort;
use std::sync::Wait;
use std::test::Fail;

/// The reply to the request.
const REPLY: &str = "HTTP/1.1 200 OK|Content-Length: 50||\
    01234567890123456789012345678901234567890123456789";

/// What goes back for that.
const WRITTEN: &str = "HTTP/1.1 200 OK|Content-Length: 50|Via: 1.1 linkerd||\
    01234567890123456789012345678901234567890123456789";

/// How a session has to end, what has to be written and what has to be sent.
type Wanted = (Ended, &'static str, &'static str);

/// A session has to come to this.
fn assert_comes<R: Abort>(rt: &R, played: &Played, wanted: Wanted, about: &str, number: u64) {
    let comes = played.seen();
    let (ended, written, sent) = wanted;
    assert_eq!(rt; comes, (Some(ended), written, sent), "{about} {number}");
}

/// Plays the request, of which so many bytes come.
fn cut_at<R: Wait + Abort>(rt: &R, alloc: Global, until: usize) -> Result<Played, Fail> {
    let replies = [REPLY];
    let scene = Scene {
        until,
        ..Scene::of("", FIELDS, &replies)
    };
    play(rt, alloc, &scene)
}

/// What has to come of that, where the request has this length.
fn wanted_of(until: usize, length: usize) -> Wanted {
    match until {
        0 => (PeerEnded, "", ""),
        _ if until < length => (Cut, "", ""),
        _ => (PeerEnded, WRITTEN, SENT_FIELDS),
    }
}

#[test]
fn a_request_that_is_cut_is_not_sent(rt: HostRuntime) -> Result<(), Fail> {
    let alloc = rt.alloc();
    let length = spelt(alloc, FIELDS)?.len();
    for until in 0..length + 1 {
        let played = cut_at(&rt, alloc, until)?;
        let wanted = wanted_of(until, length);
        assert_comes(&rt, &played, wanted, "bytes", until as u64);
        drop(played);
    }
    Ok(())
}

/// Plays the request so often, in calls of at most 40 bytes, of which one fails.
fn served<R: Wait + Abort>(
    rt: &R,
    alloc: Global,
    failing: Failing<'_>,
    times: usize,
) -> Result<Played, Fail> {
    let replies = [REPLY, REPLY];
    let scene = Scene {
        times,
        most: 40,
        failing,
        ..Scene::of("", FIELDS, &replies)
    };
    play(rt, alloc, &scene)
}

/// Plays the request, where this read fails before all of it has come.
fn play_unread<R: Wait + Abort>(rt: &R, alloc: Global, call: u64) -> Result<(), Fail> {
    let reads = [call];
    let failing = Failing {
        reads: &reads,
        ..NO_CALL
    };
    let played = served(rt, alloc, failing, 1)?;
    assert_comes(rt, &played, (ReadFault, "", ""), "read", call);
    drop(played);
    Ok(())
}

/// Of 5 reads the request comes, and one gives the end.
#[test]
fn each_read_of_the_client_fails(rt: HostRuntime) -> Result<(), Fail> {
    let alloc = rt.alloc();
    for call in 0..5u64 {
        play_unread(&rt, alloc, call)?;
    }
    let failing = Failing {
        reads: &[5],
        ..NO_CALL
    };
    let played = served(&rt, alloc, failing, 1)?;
    assert_written(&rt, &played, ReadFault, WRITTEN);
    drop(played);
    Ok(())
}

/// The request has to be sent, and of what goes back for it a part has to be written, or nothing.
fn assert_begun<R: Abort>(rt: &R, played: &Played, call: u64) {
    let (ended, written, sent) = played.seen();
    let (begins, whole) = (WRITTEN.starts_with(written), written == WRITTEN);
    assert_eq!(rt;
        (ended, sent, begins, whole),
        (Some(WriteFault), SENT_FIELDS, true, false),
        "write {call}"
    );
}

/// Plays the request, where this write fails before the whole reply has gone back.
fn play_unwritten<R: Wait + Abort>(rt: &R, alloc: Global, call: u64) -> Result<(), Fail> {
    let writes = [call];
    let failing = Failing {
        writes: &writes,
        ..NO_CALL
    };
    let played = served(rt, alloc, failing, 1)?;
    assert_begun(rt, &played, call);
    drop(played);
    Ok(())
}

/// The reply goes in 4 writes, of 40, 18, 40 and 9 bytes: its head leaves together with the first
/// piece of the body, which came with it in one receive. There is no further write.
#[test]
fn each_write_to_the_client_fails(rt: HostRuntime) -> Result<(), Fail> {
    let alloc = rt.alloc();
    for call in 0..4u64 {
        play_unwritten(&rt, alloc, call)?;
    }
    let failing = Failing {
        writes: &[4],
        ..NO_CALL
    };
    let played = served(&rt, alloc, failing, 1)?;
    let wanted = (PeerEnded, WRITTEN, SENT_FIELDS);
    assert_comes(&rt, &played, wanted, "write", 4);
    drop(played);
    Ok(())
}

/// How the first of two requests is answered where a call of the dialer fails, and how the session
/// ends.
fn broken(call: u64) -> (&'static str, Ended) {
    match call {
        0 => (DIAL, PeerEnded),
        1..=7 => (UPSTREAM, PeerEnded),
        _ => (
            "HTTP/1.1 200 OK|Content-Length: 50|Via: 1.1 linkerd||",
            UpstreamCut,
        ),
    }
}

/// The first request has to be answered so, and the second one well, unless the session ended.
fn assert_broken<R: Abort>(rt: &R, played: &Played, call: u64) {
    let (first, end) = broken(call);
    let written = played.written.as_str();
    let (begins, next) = (written.starts_with(first), written.ends_with(WRITTEN));
    assert_eq!(rt;
        (played.ended, begins, next),
        (Some(end), true, end == PeerEnded),
        "call {call}: {written}"
    );
}

/// Plays two requests, where this call of the dialer fails.
fn play_broken<R: Wait + Abort>(rt: &R, alloc: Global, call: u64) -> Result<(), Fail> {
    let dials = [call];
    let failing = Failing {
        dials: &dials,
        ..NO_CALL
    };
    let played = served(rt, alloc, failing, 2)?;
    assert_broken(rt, &played, call);
    drop(played);
    Ok(())
}

/// The dial is one call, the request goes in 6 sends, and of 3 receives the first 1 have the
/// reply's head.
#[test]
fn each_call_of_the_dialer_fails(rt: HostRuntime) -> Result<(), Fail> {
    let alloc = rt.alloc();
    for call in 0..10u64 {
        play_broken(&rt, alloc, call)?;
    }
    Ok(())
}
