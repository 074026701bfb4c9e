// Copies of what a ledger holds.
ghost use Rattle.std.specs.Prelude.{◌≡◌, Some, IfOk, IfErr, OnOk};
ghost use Rattle.xds_resource.specs.declared.refusal.Refusal.TheVariants.{OutOfMemory};
ghost use Rattle.xds_resource.specs.Names.{put_some};

use crate::believed::Beliefs;
use crate::entry::Entry;
use std::alloc::Global;
use xds_interest::Touched;
use xds_resource::Refusal;

/// Puts a copy of what is believed of a name.
pub fn put_entry(
    alloc: Global,
    next: &mut Beliefs,
    name: &str,
    entry: &Entry,
) -> Result<(), Refusal>
    ensures ok { OnOk result (next.new ≡ put_some next.old name.now (Some entry.now)) }
    ensures err { IfErr result (λ e. e ≡ OutOfMemory) }
{
    let copy = entry.try_copy(alloc)?;
    next.put(alloc, name, Some(copy))
}

pub fn copy_touches(alloc: Global, touches: &Vec<Touched>) -> Result<Vec<Touched>, Refusal>
    ensures ok { IfOk result (λ v. v.items ≡ touches.now.items) }
    ensures err { IfErr result (λ e. e ≡ OutOfMemory) }
{
    let mut copies = Vec::new(alloc);
    for touched in touches {
        copies.push(touched.try_copy(alloc)?)?;
    }
    Ok(copies)
}
