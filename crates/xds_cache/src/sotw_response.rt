// What a response of the state of the world says, or why it is rejected.
ghost use Rattle.std.specs.Prelude.{◌≡◌, map, None, string_bytes, IfOk, IfErr, Ok};
ghost use Rattle.std.specs.Option.{option_map};
ghost use Rattle.serde_json.specs.View.{view as value_of};
ghost use Rattle.xds_resource.specs.declared.refusal.Refusal.TheVariants.{OutOfMemory};
ghost use Rattle.xds_message.specs.Responses.{response_of};
ghost use Rattle.xds_cache.specs.Faults.{fault_of, and_stated, first_fault, stated_by};
ghost use Rattle.xds_cache.specs.Deliveries.{sotw_stated, sotw_delivery, fault_in, statements};

use crate::accept::Accept;
use crate::faults::state;
use crate::holding::Holding;
use crate::judged::Judged;
use crate::wants::Wants;
use serde_json::Value;
use std::alloc::Global;
use xds_message::DiscoveryResponse;
use xds_resource::{NameMap, Refusal, TypeName};

// Why a value of a response is at fault, if it is. Else it is put beside those that the response states before it.
fn state_value<A: Accept>(
    alloc: Global,
    kind: TypeName,
    removed: &Wants,
    before: &mut NameMap<Holding>,
    resource: &Value,
) -> Result<Option<String>, Refusal>
    ensures fault { IfOk result (λ f. option_map string_bytes f
        ≡ fault_of kind A.accepts removed.now before.old (sotw_stated (value_of resource.now))) }
    ensures none { result ≡ Ok None → before.new ≡ and_stated kind before.old (sotw_stated (value_of resource.now)) }
    ensures err { IfErr result (λ e. e ≡ OutOfMemory) }
{
    state::<A>(alloc, kind, removed, before, None, "", resource)
}

// rule: whole-or-nothing
// Why the first resource at fault is rejected, if one is, and else what the resources state.
fn judge<A: Accept>(
    alloc: Global,
    kind: TypeName,
    removed: &Wants,
    resources: &[Value],
    stated: &mut NameMap<Holding>,
) -> Result<Option<String>, Refusal>
    ensures fault { IfOk result (λ f. option_map string_bytes f
        ≡ first_fault kind A.accepts removed.now stated.old (map sotw_stated (map value_of resources.now))) }
    ensures none { result ≡ Ok None → stated.new
        ≡ stated_by kind stated.old (map sotw_stated (map value_of resources.now)) }
    ensures err { IfErr result (λ e. e ≡ OutOfMemory) }
{
    for resource in resources {
        let fault = state_value::<A>(alloc, kind, removed, stated, resource)?;
        if fault.is_some() {
            return Ok(fault);
        }
    }
    Ok(None)
}

// rule: whole-or-nothing
/// Why a response is rejected, if it is, and else what it states and which names are gone: none.
pub fn judged<A: Accept>(
    alloc: Global,
    kind: TypeName,
    response: &DiscoveryResponse,
) -> Result<Judged, Refusal>
    ensures fault { IfOk result (λ j. option_map string_bytes j.fault ≡ fault_in kind A.accepts (sotw_delivery kind (response_of response.now))) }
    ensures removed { IfOk result (λ j. j.removed ≡ (sotw_delivery kind (response_of response.now)).removed) }
    ensures stated { IfOk result (λ j. j.fault ≡ None → j.stated ≡ statements kind (sotw_delivery kind (response_of response.now))) }
    ensures err { IfErr result (λ e. e ≡ OutOfMemory) }
{
    let removed = NameMap::new(alloc);
    let mut stated = NameMap::new(alloc);
    let values = response.resources.as_slice();
    let fault = judge::<A>(alloc, kind, &removed, values, &mut stated)?;
    Ok(Judged {
        fault,
        removed,
        stated,
    })
}
