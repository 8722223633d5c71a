//! The reply of an interface, as its connection carries it.
ghost use Rattle.std.specs.Prelude.{IfOk, false, true};
ghost use Rattle.api_wire.specs.Delivery.{IsWritten};
ghost use Rattle.api_wire.specs.Response.{response_value};

use crate::delivery::Delivery;
use crate::response::Response;
use crate::{Bytes, Mem};
use std::alloc::Global;

/// What is written to the client, and whether the program is to stop then.
pub struct ApiReply {
    /// The whole reply.
    pub bytes: Bytes,
    /// Whether it answers a request to stop.
    pub stops: bool,
}

impl Drop for ApiReply {
    fn drop(self) {
        let ApiReply { bytes, stops: _ } = self;
        drop(bytes);
    }
}

/// The reply with the bytes of a response, as they go out.
pub fn write(alloc: Global, response: &Response, delivery: Delivery) -> Mem<ApiReply>
    ensures { IfOk result (IsWritten (response_value response.now) delivery false) }
{
    let bytes = response.bytes(alloc, delivery.closing, delivery.with_body)?;
    Ok(ApiReply {
        bytes,
        stops: false,
    })
}

/// The reply with the bytes of a response behind which the program is to stop: the connection
/// closes behind it.
pub fn write_last(alloc: Global, response: &Response, delivery: Delivery) -> Mem<ApiReply>
    ensures { IfOk result (IsWritten (response_value response.now) delivery true) }
{
    let bytes = response.bytes(alloc, true, delivery.with_body)?;
    Ok(ApiReply { bytes, stops: true })
}
