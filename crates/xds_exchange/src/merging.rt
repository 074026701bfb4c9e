// Batches, and parts of batches, that a replica merges.
ghost use Rattle.std.specs.Prelude.{◌≡◌, ◌<◌, ◌^◌, length, IfOk, IfErr, OnErr};
ghost use Rattle.xds_resource.specs.Refusals.{Gives};
ghost use Rattle.xds_resource.specs.declared.refusal.Refusal.TheVariants.{OutOfMemory};
ghost use Rattle.xds_core.specs.Events as events;
ghost use Rattle.xds_core.specs.Legal.{IsShort};
ghost use Rattle.xds_core.specs.Steps.{step};
ghost use Rattle.xds_exchange.specs.Merges.{AllMerged, IsStopped};

use crate::outbox::Outbox;
use xds_core::{Core, Event, Reply};
use xds_message::Batch;
use xds_resource::Refusal;

/// Merges a batch, whole or not at all, as one event of the replica. Answers by how much the changes grew, over all
/// types. Refused by `CounterSpent` where they can't be counted, and then by `OutOfMemory`, with nothing changed.
pub fn apply(core: &mut Core, batch: Batch) -> Result<u128, Refusal>
    ensures applies { Gives (λ grown. (events.Merged grown, core.new)) result (step core.old (events.Merge batch)) }
    ensures memory { IfErr result (λ e. e ≡ OutOfMemory → IsShort core.old (events.Merge batch)) }
    ensures err { OnErr result (core.new ≡ core.old) }
{
    match core.step(Event::Merge(batch))? {
        Reply::Merged(grown) => Ok(grown),
        _ => unreachable!(),
    }
}

// Merges all parts of what an outbox has. Answers how many they are, and by how much the changes grew.
pub(crate) fn apply_all(to: &mut Core, outbox: &mut Outbox) -> Result<(usize, u128), Refusal>
    requires { length outbox.old < 2 ^ 64 }
    ensures ok { IfOk result (λ p. AllMerged to.old outbox.old p.0 p.1 to.new) }
    ensures stopped { IfErr result (λ e. IsStopped to.old outbox.old e to.new) }
{
    let mut parts = 0;
    let mut grown = 0;
    while let Some(part) = outbox.next_part()? {
        grown += apply(to, part)?;
        parts += 1;
    }
    Ok((parts, grown))
}
