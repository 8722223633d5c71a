//! Where the feed of the namespaces is served.
ghost use Rattle.serde_json.specs.View.{view};
ghost use Rattle.linker_config.specs.Feed.{feed_told, run_number, run_told};
ghost use Rattle.linker_config.specs.Answers.{Says};

use crate::config::FeedAt;
use crate::fault::ConfigFault;
use crate::keys::check_keys;
use crate::listening::port;
use crate::value::{bad, number_in};
use serde_json::Value;
use std::alloc::Global;

/// Where the feed stands.
const PLACE: &str = "feed";

/// Where the feed of the namespaces is served, and by which run number.
#[tactic(auto, unfolding(crate::specs::Feed::feed_told))]
pub(crate) fn feed(alloc: Global, value: &Value) -> Result<FeedAt, ConfigFault>
    ensures { Says (feed_told (view value.now)) result }
{
    check_keys(alloc, PLACE, &["ip", "port", "run"], &[], value)?;
    let port = port(alloc, PLACE, value, 4181)?;
    let run = run_at(alloc, value)?;
    Ok(FeedAt { port, run })
}

/// The number of the run, if one is said.
#[tactic(auto, unfolding(crate::specs::Feed::run_told))]
fn run_at(alloc: Global, object: &Value) -> Result<Option<u64>, ConfigFault>
    ensures { Says (run_told (view object.now)) result }
{
    match object.get("run") {
        Some(value) => Ok(Some(run(alloc, value)?)),
        None => Ok(None),
    }
}

/// The number of a run.
fn run(alloc: Global, value: &Value) -> Result<u64, ConfigFault>
    ensures { Says (run_number (view value.now)) result }
{
    match number_in(0, u64::MAX, value) {
        Some(number) => Ok(number),
        None => Err(bad(alloc, PLACE, "run")),
    }
}
