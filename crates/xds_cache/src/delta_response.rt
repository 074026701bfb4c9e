// What a delta response says, or why it is rejected.
ghost use Rattle.std.specs.Prelude.{◌≡◌, map, None, string_bytes, IfOk, IfErr, Ok};
ghost use Rattle.std.specs.Option.{option_map};
ghost use Rattle.xds_resource.specs.declared.refusal.Refusal.TheVariants.{OutOfMemory};
ghost use Rattle.xds_message.specs.Responses.{resource_of, delta_response_of};
ghost use Rattle.xds_cache.specs.Faults.{fault_of, and_stated, first_fault, stated_by};
ghost use Rattle.xds_cache.specs.Deliveries.{delta_stated, delta_delivery, fault_in, statements};

use crate::accept::Accept;
use crate::faults::state;
use crate::holding::Holding;
use crate::judged::Judged;
use crate::wants::{Wants, wants_of};
use std::alloc::Global;
use xds_message::{DeltaDiscoveryResponse, DeltaResource};
use xds_resource::{NameMap, Refusal, TypeName};

// Why a resource of a response is at fault, if it is. Else it is put beside those that the response states before it.
fn state_resource<A: Accept>(
    alloc: Global,
    kind: TypeName,
    removed: &Wants,
    before: &mut NameMap<Holding>,
    resource: &DeltaResource,
) -> Result<Option<String>, Refusal>
    ensures fault { IfOk result (λ f. option_map string_bytes f
        ≡ fault_of kind A.accepts removed.now before.old (delta_stated (resource_of resource.now))) }
    ensures none { result ≡ Ok None → before.new ≡ and_stated kind before.old (delta_stated (resource_of resource.now)) }
    ensures err { IfErr result (λ e. e ≡ OutOfMemory) }
{
    let name = resource.name.as_str();
    let version = resource.version.as_str();
    state::<A>(
        alloc,
        kind,
        removed,
        before,
        Some(name),
        version,
        &resource.resource,
    )
}

// rule: whole-or-nothing
// Why the first resource at fault is rejected, if one is, and else what the resources state.
fn judge<A: Accept>(
    alloc: Global,
    kind: TypeName,
    removed: &Wants,
    resources: &[DeltaResource],
    stated: &mut NameMap<Holding>,
) -> Result<Option<String>, Refusal>
    ensures fault { IfOk result (λ f. option_map string_bytes f
        ≡ first_fault kind A.accepts removed.now stated.old (map delta_stated (map resource_of resources.now))) }
    ensures none { result ≡ Ok None → stated.new
        ≡ stated_by kind stated.old (map delta_stated (map resource_of resources.now)) }
    ensures err { IfErr result (λ e. e ≡ OutOfMemory) }
{
    for resource in resources {
        let fault = state_resource::<A>(alloc, kind, removed, stated, resource)?;
        if fault.is_some() {
            return Ok(fault);
        }
    }
    Ok(None)
}

// rule: whole-or-nothing
/// Why a response is rejected, if it is, and else what it states and which names are gone.
pub fn judged<A: Accept>(
    alloc: Global,
    kind: TypeName,
    response: &DeltaDiscoveryResponse,
) -> Result<Judged, Refusal>
    ensures fault { IfOk result (λ j. option_map string_bytes j.fault ≡ fault_in kind A.accepts (delta_delivery (delta_response_of response.now))) }
    ensures removed { IfOk result (λ j. j.removed ≡ (delta_delivery (delta_response_of response.now)).removed) }
    ensures stated { IfOk result (λ j. j.fault ≡ None → j.stated ≡ statements kind (delta_delivery (delta_response_of response.now))) }
    ensures err { IfErr result (λ e. e ≡ OutOfMemory) }
{
    let removed = wants_of(alloc, response.removed_resources.as_slice())?;
    let mut stated = NameMap::new(alloc);
    let resources = response.resources.as_slice();
    let fault = judge::<A>(alloc, kind, &removed, resources, &mut stated)?;
    Ok(Judged {
        fault,
        removed,
        stated,
    })
}
