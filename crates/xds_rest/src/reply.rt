// Replies of the REST variant.
ghost use Rattle.std.specs.Prelude.{◌≡◌, Some, Err, string_bytes, IfOk, IfErr};
ghost use Rattle.xds_resource.specs.declared.refusal.Refusal.TheVariants.{OutOfMemory};
ghost use Rattle.xds_message.specs.Drafts.{Drafted};
ghost use Rattle.xds_core.specs.Events as events;
ghost use Rattle.xds_core.specs.Seen.{reply_of as reply_seen};
ghost use Rattle.xds_rest.specs.Posts.{refusal_object, refused_reply};
ghost use Rattle.xds_rest.specs.Replies.{http_of, reply_to};

use std::alloc::Global;
use xds_core::Reply;
use xds_message::SotwDraft;
pub use xds_polls::HttpReply;
use xds_resource::Refusal;

// A refusal as a JSON object.
fn refusal_text(alloc: Global, refusal: Refusal) -> Result<String, Refusal>
    ensures ok { IfOk result (λ s. string_bytes s ≡ refusal_object refusal) }
    ensures err { IfErr result (λ e. e ≡ OutOfMemory) }
{
    let number = refusal.number();
    let name = refusal.name();
    Ok(format!(in alloc; "{{\"code\":{number},\"name\":\"{name}\"}}")?)
}

/// The reply to a body that is refused.
pub fn refused(alloc: Global, refusal: Refusal) -> Result<HttpReply, Refusal>
    ensures ok { IfOk result (λ r. r ≡ refused_reply refusal) }
    ensures err { IfErr result (λ e. e ≡ OutOfMemory) }
{
    let text = refusal_text(alloc, refusal)?;
    Ok(HttpReply {
        status: 400,
        body: Some(text),
    })
}

// The reply that has all that was asked for.
fn whole(alloc: Global, draft: &SotwDraft) -> Result<HttpReply, Refusal>
    ensures ok { IfOk result (λ r. r ≡ http_of (Some draft.now)) }
    ensures err { IfErr result (λ e. e ≡ OutOfMemory) }
{
    let text = draft.write(alloc)?;
    Ok(HttpReply {
        status: 200,
        body: Some(text),
    })
}

// rule: not-modified
/// The reply by what a replica answered to a poll: 304 where nothing changed, and else 200 with all of it. Any other answer of a
/// replica isn't one to a poll, and gives 500. Refused is only `OutOfMemory`, where there is a text to make.
pub fn reply_of(alloc: Global, reply: &Reply) -> Result<HttpReply, Refusal>
    ensures ok { IfOk result (λ r. r ≡ reply_to (reply_seen reply.now)) }
    ensures err { IfErr result (λ e. e ≡ OutOfMemory) }
    ensures memory { result ≡ Err OutOfMemory → (d : Drafted) × (reply_seen reply.now ≡ events.Rested (Some d)) }
{
    match reply {
        Reply::Rested(Some(draft)) => whole(alloc, draft),
        Reply::Rested(None) => Ok(HttpReply::without_body(304)),
        _ => Ok(HttpReply::without_body(500)),
    }
}
