//! What a request asks for.
ghost use Rattle.std.specs.Prelude.{◌≡◌, IfOk, None};
ghost use Rattle.api_wire.specs.Demand.{answer, demand_value};
ghost use Rattle.api_wire.specs.Response.{bad_name, no_path, not_allowed, plain};

use crate::Mem;
use crate::response::Response;
use crate::verb::Methods;
use http::StatusCode;
use machine::{Change, Look};
use std::alloc::Global;

/// What a request asks for. `demand_value` is how contracts see it.
#[derive(Drop)]
pub enum Demand {
    /// This response, whatever the state is.
    Answer(Response),
    /// This response, and then the program is to stop.
    Stop(Response),
    /// A change of the state.
    Change(Change),
    /// A question that alters nothing.
    Look(Look),
}

impl Demand {
    /// A response that says a word.
    pub fn word(alloc: Global, status: StatusCode, word: &str) -> Mem<Demand>
        ensures { IfOk result (λ demand. demand_value demand
            ≡ answer (plain status None word.now)) }
    {
        Ok(Demand::Answer(Response::word(alloc, status, None, word)?))
    }

    /// The path is none of the interface.
    pub fn no_path(alloc: Global) -> Mem<Demand>
        ensures { IfOk result (λ demand. demand_value demand ≡ answer no_path) }
    {
        Ok(Demand::Answer(Response::no_path(alloc)?))
    }

    /// The path does not answer the method: it answers these.
    pub fn not_allowed(alloc: Global, methods: Methods) -> Mem<Demand>
        ensures { IfOk result (λ demand. demand_value demand ≡ answer (not_allowed methods)) }
    {
        Ok(Demand::Answer(Response::not_allowed(alloc, methods)?))
    }

    /// A name in the path is none.
    pub fn bad_name(alloc: Global) -> Mem<Demand>
        ensures { IfOk result (λ demand. demand_value demand ≡ answer bad_name) }
    {
        Ok(Demand::Answer(Response::bad_name(alloc)?))
    }
}
