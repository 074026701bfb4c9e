// What a write weighs in a part.
ghost use Rattle.std.specs.Prelude.{◌≡◌, ◌≤◌, IfOk, OnOk, IfErr};
ghost use Rattle.xds_resource.specs.Groups.{IsGroups};
ghost use Rattle.xds_resource.specs.declared.refusal.Refusal.TheVariants.{OutOfMemory};
ghost use Rattle.xds_message.specs.Batches.{IsSound};
ghost use Rattle.xds_exchange.specs.Parts.{typed_write, weight, groups_bytes, max_bytes};

use serde_json::{Map, Value};
use std::alloc::Global;
use xds_json::fields::put_texts;
use xds_resource::{AnyWrite, Groups, Refusal, ResourceType, Write, for_any};

/// The bytes of a write's body and of its list of groups, as they are written.
pub(crate) fn weight_of(alloc: Global, write: &AnyWrite) -> Result<usize, Refusal>
    ensures ok { IfOk result (λ n. n ≡ weight (typed_write write.now)) }
    ensures few { IfOk result (λ n. n ≤ max_bytes) }
    ensures sound { OnOk result (IsSound (typed_write write.now)) }
    ensures refused { IfErr result (λ e. e ≡ OutOfMemory) }
{
    for_any!(write, AnyWrite(write) => typed_weight(alloc, write))
}

// The same of a write of one type.
fn typed_weight<T: ResourceType>(alloc: Global, write: &Write<T>) -> Result<usize, Refusal>
    ensures ok { IfOk result (λ n. n ≡ weight (T.TYPE, write.now)) }
    ensures few { IfOk result (λ n. n ≤ max_bytes) }
    ensures sound { OnOk result (IsSound (T.TYPE, write.now)) }
    ensures refused { IfErr result (λ e. e ≡ OutOfMemory) }
{
    let _ = write.stamp();
    let body = match write.shared_body()? {
        Some(text) => text.as_str().len(),
        None => 0,
    };
    let groups = groups_len(alloc, write.groups())?;
    Ok(body + groups)
}

// The bytes of the list of groups, as it is written.
fn groups_len(alloc: Global, groups: &Groups) -> Result<usize, Refusal>
    requires { IsGroups groups.now }
    ensures ok { IfOk result (λ n. n ≡ groups_bytes groups.now) }
    ensures few { IfOk result (λ n. n ≤ 393411) }
    ensures refused { IfErr result (λ e. e ≡ OutOfMemory) }
{
    let mut map = Map::new(alloc);
    put_texts(alloc, &mut map, "groups", groups.texts())?;
    let object = Value::Object(map);
    match object.get("groups") {
        Some(list) => Ok(list.to_string(alloc)?.len()),
        None => Ok(0),
    }
}
