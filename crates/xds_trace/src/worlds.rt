// The trace of a replica of a world.
ghost use Rattle.std.specs.Prelude.{◌≡◌, IfOk, IfErr};
ghost use Rattle.std.specs.FinMap as finmap;
ghost use Rattle.xds_resource.specs.declared.refusal.Refusal.TheVariants.{OutOfMemory};
ghost use Rattle.xds_world.specs.Worlds.{world as world_of};
ghost use Rattle.xds_trace.specs.Sites.{trace_at, KeepsAt};

use crate::telling::trace_of;
use std::alloc::Global;
use xds_cache::Accept;
use xds_check::Trace;
use xds_resource::Refusal;
use xds_world::World;
use xds_world::laws::journals_are_legal;

/// The trace of what happened at a replica, none where there is no such replica. It breaks no rule, also with lines at its end which
/// say of each stream and type to which nothing is owed then that it is so. Refused only by `OutOfMemory`.
pub fn of_world<A: Accept>(
    alloc: Global,
    world: &World<A>,
    replica: u16,
) -> Result<Option<Trace>, Refusal>
    ensures ok { IfOk result (λ o. o ≡ trace_at (finmap.get (world_of A.accepts world.now).sites replica)) }
    ensures keeps { IfOk result (λ o. KeepsAt (finmap.get (world_of A.accepts world.now).sites replica)) }
    ensures refused { IfErr result (λ e. e ≡ OutOfMemory) }
{
    match world.journal(replica) {
        None => Ok(None),
        Some(journal) => {
            journals_are_legal();
            match trace_of(alloc, journal.as_slice()) {
                Ok(trace) => Ok(Some(trace)),
                Err(refusal) => Err(refusal),
            }
        }
    }
}
