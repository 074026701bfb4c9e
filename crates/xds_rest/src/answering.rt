// A request of the REST variant at a replica.
ghost use Rattle.std.specs.Prelude.{◌≡◌, Ok, Err, IfOk, IfErr};
ghost use Rattle.xds_resource.specs.declared.types.TypeName.{TypeName as Kind};
ghost use Rattle.xds_resource.specs.declared.refusal.Refusal.TheVariants.{OutOfMemory};
ghost use Rattle.xds_core.specs.Seen.{event_of};
ghost use Rattle.xds_core.specs.Steps.{rested};
ghost use Rattle.xds_rest.specs.Posts.{addressed};
ghost use Rattle.xds_rest.specs.Replies.{IsReply, IfPoll, http_of};

use crate::post::{Asked, ask};
use crate::reply::{HttpReply, reply_of};
use std::alloc::Global;
use xds_core::{Core, Event};
use xds_resource::Refusal;

// The reply of a replica that is asked.
fn reply_by(alloc: Global, core: &mut Core, event: Event) -> Result<HttpReply, Refusal>
    ensures ok { IfOk result (λ r. IfPoll (event_of event) (λ t names version cluster. r ≡ http_of (rested core.old t names version cluster))) }
    ensures refused { IfErr result (λ e. IfPoll (event_of event) (λ _ _ _ _. e ≡ OutOfMemory)) }
    ensures look { IfPoll (event_of event) (λ _ _ _ _. core.new ≡ core.old) }
{
    let reply = core.step(event)?;
    let made = reply_of(alloc, &reply);
    drop(reply);
    made
}

/// The reply of a replica to a request of this method, path and body: [`ask`](crate::post::ask) and
/// [`reply_of`](crate::reply::reply_of) around one step. The replica stays as it was. Refused is only `OutOfMemory`,
/// where a body is read.
pub fn answer(
    alloc: Global,
    core: &mut Core,
    method: &str,
    path: &str,
    body: &[u8],
) -> Result<HttpReply, Refusal>
    ensures ok { IfOk result (λ r. IsReply core.old method.now path.now body.now r) }
    ensures refused { IfErr result (λ e. e ≡ OutOfMemory) }
    ensures memory { result ≡ Err OutOfMemory → (t : Kind) × (addressed method.now path.now body.now ≡ Ok t) }
    ensures look { core.new ≡ core.old }
{
    match ask(alloc, method, path, body)? {
        Asked::Finished(reply) => Ok(reply),
        Asked::Asks(event) => reply_by(alloc, core, event),
    }
}
