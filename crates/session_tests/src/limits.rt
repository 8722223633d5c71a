//! The last request that a connection may carry.
use crate::played::play;
use crate::scene::{Mem, Scene};
use crate::texts::{GET, LAST_NEGATIVE, NEGATIVE};
use http_wire::Ended::Spent;
use std::alloc::Global;
use std::process::Abort;
use std::sync::Wait;
use std::test::Fail;

/// 9,999 refusals, and the last one.
fn refusals(alloc: Global) -> Mem<String> {
    let mut text = String::new(alloc);
    for _ in 0..9999u32 {
        text.push_str(NEGATIVE)?;
    }
    text.push_str(LAST_NEGATIVE)?;
    Ok(text)
}

/// The most bytes that a call moves, and the questions at which nothing comes: all requests come at
/// once; or one by one, 29 bytes each, and the connection waits behind 500 of them.
const COMING: [(usize, &[u64]); 2] = [(usize::MAX, &[]), (29, &[1000])];

/// Plays a scene, whose connection has to be spent, and whose client has to be given this.
fn assert_spent<R: Wait + Abort>(
    rt: &R,
    alloc: Global,
    scene: &Scene<'_>,
    replies: &str,
) -> Result<(), Fail> {
    let played = play(rt, alloc, scene)?;
    let comes = (played.ended, played.written.as_str() == replies);
    drop(played);
    assert_eq!(rt; comes, (Some(Spent), true), "the end, and the replies");
    Ok(())
}

#[test]
fn a_connection_is_spent(rt: HostRuntime) -> Result<(), Fail> {
    let alloc = rt.alloc();
    let replies = refusals(alloc)?;
    for (most, quiet) in COMING.iter() {
        let scene = Scene {
            times: 10001,
            most: *most,
            quiet: *quiet,
            ..Scene::of("", GET, &[""])
        };
        assert_spent(&rt, alloc, &scene, replies.as_str())?;
    }
    drop(replies);
    Ok(())
}
