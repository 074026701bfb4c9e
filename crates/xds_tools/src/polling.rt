// `xds poll`: one poll of a server, and what is shown of its reply.
ghost use Rattle.std.specs.Prelude.{◌≡◌, Err, IfErr, IfSome, Ok, Some};
ghost use Rattle.xds_frames.specs.Devices.{seen};
ghost use Rattle.xds_http.specs.Sent.{TellsNothing};
ghost use Rattle.xds_tools.specs.Ends.{EndsPoll, ShowsReply, question_of};

use crate::telling::tell_late;
use crate::timed::gave_up;
use std::alloc::{AllocGlobal, Global};
use std::io::Write;
use std::net::{Net, SocketAddr};
use std::random::RandomSource;
use std::sync::Wait;
use std::time::Clock;
use xds_frames::Counted;
use xds_http::{PostsRequests, Question, Told, poll_by};
use xds_machine::deadline::Deadline;
use xds_program::PollTask;
use xds_program::run::{DONE, print, tell};
use xds_resource::Refusal;

/// Polls the server of a task once, by what posts the request, and within the task's seconds: the post that goes out is that of its
/// question, and its reply is shown, or it is told why none came. Answers the status.
pub fn poll_once<R, P, O, E>(
    rt: &R,
    posts: &P,
    task: PollTask,
    output: &mut Counted<O>,
    errors: &mut Counted<E>,
) -> u8
where
    R: Wait + Clock + Net + RandomSource + AllocGlobal,
    P: PostsRequests,
    O: Write,
    E: Write,
    ensures { EndsPoll P.tells task result (seen O.contents output.old output.new) (seen E.contents errors.old errors.new) }
{
    let server = SocketAddr::V4(task.addr);
    let seconds = task.seconds;
    let deadline = Deadline::after(rt, seconds);
    let polled = poll_by(rt, posts, server, seconds, question_of(task));
    match late(rt, &polled, seconds, deadline) {
        Some(seconds) => tell_late(rt.alloc(), seconds, errors),
        None => show(rt.alloc(), &polled, output, errors),
    }
}

// After how many seconds a poll gave up, if no reply came and so many had passed.
fn late<R: Clock>(
    rt: &R,
    polled: &Result<Told, Refusal>,
    seconds: Option<u16>,
    deadline: Deadline,
) -> Option<u16>
    ensures { IfSome result (λ s. (seconds ≡ Some s) × (polled.now ≡ Err Refusal.Device)) }
{
    match polled {
        Ok(_) => None,
        Err(refusal) => gave_up(rt, *refusal, seconds, deadline),
    }
}

// What a task asks a server.
fn question_of(task: PollTask) -> Question
    ensures { result ≡ question_of task }
{
    let PollTask {
        addr: _,
        kind,
        seconds: _,
        version,
        cluster,
        names,
    } = task;
    Question {
        kind,
        names,
        version,
        cluster,
    }
}

// Shows a reply, or tells why none came.
fn show<O: Write, E: Write>(
    alloc: Global,
    polled: &Result<Told, Refusal>,
    output: &mut Counted<O>,
    errors: &mut Counted<E>,
) -> u8
    requires { IfErr polled.now TellsNothing }
    ensures { ShowsReply polled.now result (seen O.contents output.old output.new) (seen E.contents errors.old errors.new) }
{
    match polled {
        Ok(told) => show_reply(alloc, told, output, errors),
        Err(refusal) => tell(*refusal, errors),
    }
}

// Shows a reply, or tells that there was no memory for its text.
fn show_reply<O: Write, E: Write>(
    alloc: Global,
    told: &Told,
    output: &mut Counted<O>,
    errors: &mut Counted<E>,
) -> u8
    ensures { ShowsReply (Ok told.now) result (seen O.contents output.old output.new) (seen E.contents errors.old errors.new) }
{
    match told.text(alloc) {
        Ok(text) => print(text.as_slice(), DONE, output, errors),
        Err(refusal) => tell(refusal, errors),
    }
}
