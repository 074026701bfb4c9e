// A replica's answers to the events of a stream.
ghost use Rattle.std.specs.Prelude.{◌≡◌, ◌<◌, IfOk, IfErr, IsSome, OnErr, Some, None, Ok};
ghost use Rattle.xds_core.specs.StreamsSeen.{message_of};
ghost use Rattle.xds_ledger.specs.declared.outcome.Outcome.{Outcome};
ghost use Rattle.xds_core.specs.Events as events;
ghost use Rattle.xds_core.specs.Seen.{reply_of};
ghost use Rattle.xds_core.specs.Steps.{step};
ghost use Rattle.xds_node.specs.Records.{Refuses};
ghost use Rattle.xds_node.specs.Turning.{IsOpen, draft_in, number_in, numbers_left};

use xds_core::{Core, Event, Reply, Request};
use xds_message::Draft;
use xds_resource::Refusal;

// The number of the stream that was opened.
fn number_in(reply: Reply) -> u64
    ensures { result ≡ number_in (reply_of reply) }
{
    match reply {
        Reply::Opened(stream) => stream,
        _ => 0,
    }
}

/// The response that a poll gave, if it gave one.
pub fn draft_in(reply: Reply) -> Option<Draft>
    ensures { result ≡ draft_in (reply_of reply) }
{
    match reply {
        Reply::Polled(draft) => draft,
        _ => None,
    }
}

/// Opens a stream, and answers its number.
pub fn open(core: &mut Core) -> Result<u64, Refusal>
    ensures ok { IfOk result (λ n. step core.old events.Open ≡ Ok (events.Opened n, core.new)) }
    ensures open { IfOk result (λ n. IsOpen n core.new) }
    ensures refused { IfErr result (Refuses core.old events.Open) }
    ensures kept { OnErr result (core.new ≡ core.old) }
{
    let reply = core.step(Event::Open)?;
    Ok(number_in(reply))
}

/// Hands a request to the replica.
pub fn ask(core: &mut Core, stream: u64, request: Request) -> Result<(), Refusal>
    requires { IsOpen stream core.old }
    ensures ok { IfOk result (λ _. (o : Outcome) × (step core.old (events.Request stream (message_of request)) ≡ Ok (events.Answered o, core.new))) }
    ensures open { IsOpen stream core.new }
    ensures refused { IfErr result (Refuses core.old (events.Request stream (message_of request))) }
    ensures kept { OnErr result (core.new ≡ core.old) }
{
    core.step(Event::Request(stream, request))?;
    Ok(())
}

/// The next response of any type, if there is one.
pub fn poll(core: &mut Core, stream: u64) -> Result<Option<Draft>, Refusal>
    requires { IsOpen stream core.old }
    ensures ok { IfOk result (λ d. step core.old (events.Poll stream None) ≡ Ok (events.Polled d, core.new)) }
    ensures open { IsOpen stream core.new }
    ensures fewer { IfOk result (λ d. IsSome d → numbers_left stream core.new < numbers_left stream core.old) }
    ensures refused { IfErr result (Refuses core.old (events.Poll stream None)) }
    ensures kept { OnErr result (core.new ≡ core.old) }
{
    let reply = core.step(Event::Poll(stream, None))?;
    Ok(draft_in(reply))
}

/// Closes an open stream. It needs no memory.
pub fn close(core: &mut Core, stream: u64)
    requires { IsOpen stream core.old }
    ensures { step core.old (events.Close stream) ≡ Ok (events.Closed, core.new) }
{
    let _ = core.step(Event::Close(stream));
}
