//! How often a request may be tried again.
ghost use Rattle.std.specs.Prelude.{IfOk};
ghost use Rattle.serde_json.specs.View.{view};
ghost use Rattle.retry_budget.specs.Budget.{AreAllowed};
ghost use Rattle.linker_config.specs.Retries.{retries_told};
ghost use Rattle.linker_config.specs.Answers.{Says};

use crate::fault::ConfigFault;
use crate::keys::check_keys;
use crate::value::number_at;
use retry_budget::Tries;
use serde_json::Value;
use std::alloc::Global;

/// Where it stands.
const PLACE: &str = "routers[0].retries";

/// How often a request may be tried again.
#[tactic(auto, unfolding(crate::specs::Retries::retries_told))]
pub(crate) fn retries(alloc: Global, value: &Value) -> Result<Tries, ConfigFault>
    ensures told { Says (retries_told (view value.now)) result }
    ensures allowed { IfOk result (λ tries. AreAllowed tries) }
{
    check_keys(alloc, PLACE, &["percent", "reserve", "most"], &[], value)?;
    let percent = number_at(alloc, PLACE, value, "percent", 20, 0, 100)?;
    let reserve = number_at(alloc, PLACE, value, "reserve", 10, 0, 100)?;
    let most = number_at(alloc, PLACE, value, "most", 3, 0, 10)?;
    Ok(Tries {
        percent: percent as u32,
        reserve: reserve as u32,
        most: most as u32,
    })
}
