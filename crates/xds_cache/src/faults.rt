// Why a client rejects a response: the first of its resources that is at fault.
ghost use Rattle.std.specs.Prelude.{◌≡◌, ◌++◌, Some, None, Ok, string_bytes, IfOk, IfErr};
ghost use Rattle.std.specs.FinMap as finmap;
ghost use Rattle.std.specs.Option.{option_map};
ghost use Rattle.serde_json.specs.View.{view};
ghost use Rattle.xds_resource.specs.declared.refusal.Refusal.TheVariants.{OutOfMemory};
ghost use Rattle.xds_resource.specs.Any.{named_body};
ghost use Rattle.xds_cache.specs.Faults.{refusal_text as text_of, is_misnamed as misnamed, first_reason, reasons, fault_of, and_stated};

use crate::accept::Accept;
use crate::holding::Holding;
use crate::wants::Wants;
use serde_json::Value;
use std::alloc::Global;
use xds_resource::{AnyResource, NameMap, Refusal, TypeName};

// A refusal in words, as `4 BadResource`.
fn refusal_text(alloc: Global, refusal: Refusal) -> Result<String, Refusal>
    ensures ok { IfOk result (λ s. string_bytes s ≡ text_of refusal) }
    ensures err { IfErr result (λ e. e ≡ OutOfMemory) }
{
    let number = refusal.number();
    let name = refusal.name();
    Ok(format!(in alloc; "{number} {name}")?)
}

// A fault and the name of the resource that has it.
fn fault_at(alloc: Global, fault: &str, name: &str) -> Result<Option<String>, Refusal>
    ensures ok { IfOk result (λ f. option_map string_bytes f ≡ Some (fault.now ++ name.now)) }
    ensures err { IfErr result (λ e. e ≡ OutOfMemory) }
{
    let mut text = String::from_str(alloc, fault)?;
    text.push_str(name)?;
    Ok(Some(text))
}

// rule: whole-or-nothing
// Whether a response gives a resource another name than its body does.
fn is_misnamed(named: Option<&str>, name: &str) -> bool
    ensures { result ≡ misnamed (option_map (λ s. s.now) named.entry) name.now }
{
    match named {
        Some(given) => given != name,
        None => false,
    }
}

// rule: whole-or-nothing
// What is wrong with a resource that is one, beside those that the response states before it and removes.
fn reason_against<A: Accept>(
    alloc: Global,
    kind: TypeName,
    removed: &Wants,
    before: &NameMap<Holding>,
    named: Option<&str>,
    body: &Value,
    name: &str,
) -> Result<Option<String>, Refusal>
    ensures ok { IfOk result (λ f. option_map string_bytes f
        ≡ first_reason (reasons kind A.accepts removed.now before.now (option_map (λ s. s.now) named.entry) (view body.now) name.now)) }
    ensures err { IfErr result (λ e. e ≡ OutOfMemory) }
{
    if is_misnamed(named, name) {
        return fault_at(alloc, "name: ", name);
    }
    if before.contains(name) || removed.contains(name) {
        return fault_at(alloc, "doubled: ", name);
    }
    if !A::takes(kind.url(), name, body) {
        return fault_at(alloc, "test: ", name);
    }
    Ok(None)
}

// rule: whole-or-nothing
// Judges a stated resource that is one, and notes it as stated.
fn state_read<A: Accept>(
    alloc: Global,
    kind: TypeName,
    removed: &Wants,
    before: &mut NameMap<Holding>,
    named: Option<&str>,
    version: &str,
    body: &Value,
    resource: &AnyResource,
) -> Result<Option<String>, Refusal>
    ensures fault { IfOk result (λ f. option_map string_bytes f
        ≡ first_reason (reasons kind A.accepts removed.now before.old (option_map (λ s. s.now) named.entry) (view body.now) (named_body resource.now).name)) }
    ensures none { result ≡ Ok None → before.new
        ≡ finmap.insert before.old (named_body resource.now).name (record { version = version.now; body = (named_body resource.now).body }) }
    ensures err { IfErr result (λ e. e ≡ OutOfMemory) }
{
    let name = resource.name();
    let fault = reason_against::<A>(alloc, kind, removed, before, named, body, name)?;
    if fault.is_some() {
        return Ok(fault);
    }
    let holding = Holding::new(alloc, version, resource.body())?;
    before.insert(String::from_str(alloc, name)?, holding)?;
    Ok(None)
}

// rule: whole-or-nothing
/// Why a resource is at fault, if it is. Else it is put beside those that the response states before it.
pub fn state<A: Accept>(
    alloc: Global,
    kind: TypeName,
    removed: &Wants,
    before: &mut NameMap<Holding>,
    named: Option<&str>,
    version: &str,
    body: &Value,
) -> Result<Option<String>, Refusal>
    ensures fault { IfOk result (λ f. option_map string_bytes f
        ≡ fault_of kind A.accepts removed.now before.old (record { named = option_map (λ s. s.now) named.entry; version = version.now; resource = view body.now })) }
    ensures none { result ≡ Ok None → before.new
        ≡ and_stated kind before.old (record { named = option_map (λ s. s.now) named.entry; version = version.now; resource = view body.now }) }
    ensures err { IfErr result (λ e. e ≡ OutOfMemory) }
{
    match AnyResource::from_value(alloc, kind, body.clone()?) {
        Ok(resource) => state_read::<A>(
            alloc, kind, removed, before, named, version, body, &resource,
        ),
        Err(Refusal::OutOfMemory) => Err(Refusal::OutOfMemory),
        Err(refusal) => Ok(Some(refusal_text(alloc, refusal)?)),
    }
}
