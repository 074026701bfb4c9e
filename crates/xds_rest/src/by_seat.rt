// Posts to a node that threads share.
ghost use Rattle.std.specs.Prelude.{◌≡◌, ◌≢◌, Ok, Some, IfOk, IfErr, MatchBool};
ghost use Rattle.std.specs.Prelude.{Option as Maybe};
ghost use Rattle.xds_resource.specs.declared.refusal.Refusal.TheVariants.{OutOfMemory, JournalFull};
ghost use Rattle.xds_message.specs.Drafts.{Drafted};
ghost use Rattle.xds_core.specs.Events as events;
ghost use Rattle.xds_core.specs.Seen.{event_of, answer_of};
ghost use Rattle.xds_rest.specs.Replies.{http_of};
ghost use Rattle.xds_rest.specs.Posted.{IsRest, IsToldReply, IsToldNoReply, IsReplyAt, LeavesNoReply, IsTriedReply, IsTriedNoReply, IsReplyByCutting, LeavesNoReplyByCutting, IsReplyOrUnavailable};

use crate::post::{Asked, ask};
use crate::posts::Posts;
use crate::reply::reply_of;
use std::alloc::Global;
use std::sync::Wait;
use xds_core::{Event, Reply};
use xds_node::Unrecorded;
use xds_polls::HttpReply;
use xds_resource::Refusal;

// The reply by what a node answered to a poll, which is no refusal.
fn reply_by_answer(alloc: Global, answer: &Result<Reply, Refusal>) -> Result<HttpReply, Refusal>
    requires { (o : Maybe Drafted) × (answer_of answer.now ≡ Ok (events.Rested o)) }
    ensures ok { IfOk result (λ r. (o : Maybe Drafted) × (answer_of answer.now ≡ Ok (events.Rested o)) × (r ≡ http_of o)) }
    ensures refused { IfErr result (λ e. (e ≡ OutOfMemory) × (d : Drafted) × (answer_of answer.now ≡ Ok (events.Rested (Some d)))) }
{
    match answer {
        Ok(reply) => reply_of(alloc, reply),
        Err(_) => unreachable!(),
    }
}

// The reply of a node that is asked by a poll.
fn reply_by_call<R: Wait, P: Posts>(
    rt: &R,
    alloc: Global,
    node: &P,
    seat: &mut P::PostSeat,
    event: Event,
) -> Result<HttpReply, Refusal>
    requires { IsRest (event_of event) }
    ensures ok { IfOk result (λ r. IsToldReply P.replica (P.calls seat.old) (P.calls seat.new) (event_of event) r) }
    ensures refused { IfErr result (λ e. IsToldNoReply P.replica (P.calls seat.old) (P.calls seat.new) (event_of event) e) }
{
    match node.post_call(rt, seat, event) {
        Ok(answer) => reply_by_answer(alloc, &answer),
        Err(unrecorded) => Err(unrecorded.refusal),
    }
}

/// The reply of a node to a request of this method, path and body, by a seat of the node: [`ask`](crate::post::ask) and
/// [`reply_of`](crate::reply::reply_of) around one call. JSON is read and written outside the node's lock. Refused is `JournalFull`,
/// and then the seat was told nothing; or `OutOfMemory`, and then the seat was told nothing or that one call. It may wait for the
/// lock.
pub fn answer_at<R: Wait, P: Posts>(
    rt: &R,
    alloc: Global,
    node: &P,
    seat: &mut P::PostSeat,
    method: &str,
    path: &str,
    body: &[u8],
) -> Result<HttpReply, Refusal>
    ensures ok { IfOk result (λ r. IsReplyAt P.replica method.now path.now body.now (P.calls seat.old) (P.calls seat.new) r) }
    ensures refused { IfErr result (λ e. LeavesNoReply P.replica method.now path.now body.now (P.calls seat.old) (P.calls seat.new) e) }
{
    match ask(alloc, method, path, body)? {
        Asked::Finished(reply) => Ok(reply),
        Asked::Asks(event) => reply_by_call(rt, alloc, node, seat, event),
    }
}

// Whether a refusal says that the journal is full.
fn is_full(refusal: Refusal) -> bool
    ensures { MatchBool result (refusal ≡ JournalFull) (refusal ≢ JournalFull) }
{
    refusal == Refusal::JournalFull
}

// rule: cuts
// The reply of a node that is asked by a poll, where a full journal is cut, and the poll called once more by the same seat.
fn reply_by_calls<R: Wait, P: Posts>(
    rt: &R,
    alloc: Global,
    node: &P,
    seat: &mut P::PostSeat,
    event: Event,
) -> Result<HttpReply, Refusal>
    requires { IsRest (event_of event) }
    ensures ok { IfOk result (λ r. IsTriedReply P.replica (P.calls seat.old) (P.calls seat.new) (event_of event) r) }
    ensures refused { IfErr result (λ e. IsTriedNoReply P.replica (P.calls seat.old) (P.calls seat.new) (event_of event)) }
{
    match node.post_call(rt, seat, event) {
        Ok(answer) => reply_by_answer(alloc, &answer),
        Err(Unrecorded { refusal, event }) => {
            if !is_full(refusal) {
                drop(event);
                return Err(refusal);
            }
            node.post_cut(rt);
            reply_by_call(rt, alloc, node, seat, event)
        }
    }
}

// The reply of a node to a request, where a full journal is cut.
fn reply_by_cutting<R: Wait, P: Posts>(
    rt: &R,
    alloc: Global,
    node: &P,
    seat: &mut P::PostSeat,
    method: &str,
    path: &str,
    body: &[u8],
) -> Result<HttpReply, Refusal>
    ensures ok { IfOk result (λ r. IsReplyByCutting P.replica method.now path.now body.now (P.calls seat.old) (P.calls seat.new) r) }
    ensures refused { IfErr result (λ e. LeavesNoReplyByCutting P.replica method.now path.now body.now (P.calls seat.old) (P.calls seat.new)) }
{
    match ask(alloc, method, path, body)? {
        Asked::Finished(reply) => Ok(reply),
        Asked::Asks(event) => reply_by_calls(rt, alloc, node, seat, event),
    }
}

/// The reply of a node to a request of this method, path and body, by a seat of the node. Where the journal is full it is cut, as the
/// node cuts it for posts, and the node is asked once more, by the same seat. 503 without a body where no memory is found, or the journal
/// is full again. It may wait for the lock.
pub fn reply_at<R: Wait, P: Posts>(
    rt: &R,
    alloc: Global,
    node: &P,
    seat: &mut P::PostSeat,
    method: &str,
    path: &str,
    body: &[u8],
) -> HttpReply
    ensures { IsReplyOrUnavailable P.replica method.now path.now body.now (P.calls seat.old) (P.calls seat.new) result }
{
    match reply_by_cutting(rt, alloc, node, seat, method, path, body) {
        Ok(reply) => reply,
        Err(_) => HttpReply::without_body(503),
    }
}
