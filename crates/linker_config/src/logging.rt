//! Where the access log is.
ghost use Rattle.std.specs.Prelude.{◌≡◌, IfOk};
ghost use Rattle.serde_json.specs.View.{view};
ghost use Rattle.linker_config.specs.Logging.{log_in, log_of};

use crate::Mem;
use crate::config::Text;
use serde_json::Value;
use std::alloc::Global;

/// The file of a router's access log: a text of one or more bytes. Any other value has no effect,
/// as where there is none.
pub(crate) fn access_log(alloc: Global, object: &Value) -> Mem<Option<Text>>
    ensures { IfOk result (λ log. log_of (view object.now) ≡ log) }
{
    match object.get("httpAccessLog") {
        Some(value) => log_in(alloc, value),
        None => Ok(None),
    }
}

/// The file that a value names, if it names one.
fn log_in(alloc: Global, value: &Value) -> Mem<Option<Text>>
    ensures { IfOk result (λ log. log_in (view value.now) ≡ log) }
{
    match value.as_str() {
        Some(text) if !text.is_empty() => Ok(Some(Text::of(String::from_str(alloc, text)?))),
        _ => Ok(None),
    }
}
