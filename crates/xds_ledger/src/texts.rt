// The texts that a response has beside its resources.
ghost use Rattle.std.specs.Prelude.{◌≡◌, ◌++◌, string_bytes, decimal, IfOk, IfErr, OnOk};
ghost use Rattle.xds_resource.specs.declared.refusal.Refusal.TheVariants.{OutOfMemory};
ghost use Rattle.xds_ledger.specs.Texts as texts;

use std::alloc::Global;
use xds_interest::Interest;
use xds_resource::{Refusal, ResourceType};

// rule: nonce-numbers
/// The nonce of the response of a number, as the client's next request names it.
pub fn nonce_text(alloc: Global, number: u64) -> Result<String, Refusal>
    ensures text { IfOk result (λ s. string_bytes s ≡ decimal number) }
    ensures refused { IfErr result (λ e. e ≡ OutOfMemory) }
{
    Ok(format!(in alloc; "{number}")?)
}

// rule: new-numbers
/// The version of all that a replica holds of a type, by the replica's number and the catalogue's count of changes.
pub fn replica_version(alloc: Global, replica: u16, changes: u64) -> Result<String, Refusal>
    ensures text { IfOk result (λ s. string_bytes s ≡ texts.replica_version replica changes) }
    ensures refused { IfErr result (λ e. e ≡ OutOfMemory) }
{
    Ok(format!(in alloc; "{replica}.{changes}")?)
}

// rule: not-modified
// Adds `@` and a cluster text, if that isn't empty.
fn push_cluster(version: &mut String, cluster: &str) -> Result<(), Refusal>
    ensures ok { OnOk result (string_bytes version.new ≡ string_bytes version.old ++ texts.at_cluster cluster.now) }
    ensures refused { IfErr result (λ e. e ≡ OutOfMemory) }
{
    if !cluster.is_empty() {
        version.push_str("@")?;
        version.push_str(cluster)?;
    }
    Ok(())
}

// rule: not-modified
/// The version of what a client of this interest sees of a replica: that of all that the replica holds, with `@` and the
/// client's cluster text behind it, if it has one, or `.named` where it didn't ask for all.
pub fn interest_version<T: ResourceType>(
    alloc: Global,
    replica: u16,
    changes: u64,
    interest: &Interest<T>,
) -> Result<String, Refusal>
    ensures text { IfOk result (λ s. string_bytes s ≡ texts.interest_version replica changes interest.now) }
    ensures refused { IfErr result (λ e. e ≡ OutOfMemory) }
{
    let mut version = replica_version(alloc, replica, changes)?;
    if interest.has_star() {
        push_cluster(&mut version, interest.cluster())?;
    } else {
        version.push_str(".named")?;
    }
    Ok(version)
}
