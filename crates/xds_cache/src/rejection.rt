// How a request rejects a response.
ghost use Rattle.std.specs.Prelude.{◌≡◌, string_bytes};
ghost use Rattle.std.specs.Option.{option_map};
ghost use Rattle.xds_cache.specs.Sends.{failure};

use xds_message::Status;

// `INVALID_ARGUMENT` of `google.rpc.Code`.
const INVALID_ARGUMENT: i32 = 3;

// rule: accept-reject
/// The status of a request that rejects a response, if it does.
pub(crate) fn rejection(fault: Option<String>) -> Option<Status>
    ensures { result ≡ option_map failure (option_map string_bytes fault) }
{
    match fault {
        Some(message) => Some(Status {
            code: INVALID_ARGUMENT,
            message,
        }),
        None => None,
    }
}
