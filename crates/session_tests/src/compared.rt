//! Sessions that are played, and compared with what is wanted of them.
use crate::played::{Played, play, play_text};
use crate::row::joined;
use crate::scene::Scene;
use http_wire::Ended;
use std::alloc::Global;
use std::process::Abort;
use std::sync::Wait;
use std::test::Fail;

/// Both texts have to be the same.
pub(crate) fn assert_same<R: Abort>(rt: &R, about: &str, comes: &str, wanted: &str) {
    assert_eq!(rt; comes, wanted, "{about}");
}

/// Plays a scene, of which this text has to come.
pub(crate) fn assert_text<R: Wait + Abort>(
    rt: &R,
    alloc: Global,
    scene: &Scene<'_>,
    about: &str,
    wanted: &str,
) -> Result<(), Fail> {
    let comes = play_text(rt, alloc, scene)?;
    assert_same(rt, about, comes.as_str(), wanted);
    drop(comes);
    Ok(())
}

/// A session has to end so, and its client has to be given this.
pub(crate) fn assert_written<R: Abort>(rt: &R, played: &Played, ended: Ended, written: &str) {
    let comes = (played.ended, played.written.as_str());
    assert_eq!(rt; comes, (Some(ended), written));
}

/// Plays a scene, which has to end so, and whose client has to be given this.
fn assert_played<R: Wait + Abort>(
    rt: &R,
    alloc: Global,
    scene: &Scene<'_>,
    ended: Ended,
    written: &str,
) -> Result<(), Fail> {
    let played = play(rt, alloc, scene)?;
    assert_written(rt, &played, ended, written);
    drop(played);
    Ok(())
}

/// Plays a scene, which has to end so, and whose client has to be given these replies.
pub(crate) fn assert_replies<R: Wait + Abort>(
    rt: &R,
    alloc: Global,
    scene: &Scene<'_>,
    ended: Ended,
    replies: &[&str],
) -> Result<(), Fail> {
    let written = joined(alloc, replies)?;
    let played = assert_played(rt, alloc, scene, ended, written.as_str());
    drop(written);
    played
}
