// What an event is answered, for the caller and for the journal.
ghost use Rattle.std.specs.Prelude.{◌≡◌, IfOk, IfErr, OnErr};
ghost use Rattle.xds_resource.specs.declared.refusal.Refusal.TheVariants.{OutOfMemory};
ghost use Rattle.xds_core.specs.Legal as legal;
ghost use Rattle.xds_core.specs.Legal.{after};
ghost use Rattle.xds_core.specs.Twice.{IsShortBeside};
ghost use Rattle.xds_core.specs.Seen.{event_of, answer_of};
ghost use Rattle.xds_core.specs.Steps.{step};

use xds_core::{Core, Event, Reply};
use xds_resource::Refusal;

/// One step of a replica, and its answer twice. An event that the step refuses is answered by the refusal; only an event
/// that finds no memory has no answer.
pub fn answered_twice(
    core: &mut Core,
    event: &Event,
) -> Result<(Result<Reply, Refusal>, Result<Reply, Refusal>), Refusal>
    ensures answer { IfOk result (λ p. answer_of p.0 ≡ legal.answer_of (step core.old (event_of event.now))) }
    ensures twin { IfOk result (λ p. answer_of p.1 ≡ legal.answer_of (step core.old (event_of event.now))) }
    ensures after { IfOk result (λ p. core.new ≡ after core.old (event_of event.now)) }
    ensures refused { IfErr result (λ e. (e ≡ OutOfMemory) × IsShortBeside core.old (event_of event.now)) }
    ensures err { OnErr result (core.new ≡ core.old) }
{
    match core.step_twice(event) {
        Ok((reply, twin)) => Ok((Ok(reply), Ok(twin))),
        Err(Refusal::OutOfMemory) => Err(Refusal::OutOfMemory),
        Err(refusal) => Ok((Err(refusal), Err(refusal))),
    }
}
