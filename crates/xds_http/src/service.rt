// The service of one connection.
ghost use Rattle.std.specs.Prelude.{◌≡◌, [], not, Ok, Err, MatchOption};
ghost use Rattle.http.specs.Request.{head_of};
ghost use Rattle.xds_resource.specs.declared.types.TypeName.{TypeName as Kind};
ghost use Rattle.xds_polls.specs.Polls.{addressed};
ghost use Rattle.xds_http.specs.Carried.{IsAnswer, IsAnswerBy};
ghost use Rattle.xds_http.specs.Heads.{comes_plain, early_status};

use crate::accept::HeadSeen;
use crate::replies::{Replies, Seats};
use crate::response::{bare, response_of};
use bytes::Bytes;
use futures::task::{Context, Poll};
use futures::{Future, ready};
use http::HeaderMap;
use http::header::TRANSFER_ENCODING;
use http_body_util::combinators::Collect;
use http_body_util::{BodyExt, Collected, Full, Limited, LimitedError};
use hyper::body::Incoming;
use hyper::service::Service;
use hyper::{Request, Response, StatusCode};
use std::alloc::{AllocGlobal, Global};
use std::sync::{Arc, Wait};
use std::time::{Clock, Duration};
use tokio::time::error::Elapsed;
use tokio::time::{Handle, Timeout};
use xds_polls::{HttpReply, MAX_BODY, type_of_path};

/// As many seconds as a body may take to come, once its head has.
pub const BODY_SECONDS: u64 = 30;

/// The service of a connection: what it shares with the others answers its posts.
pub struct Rest<R, A> {
    rt: R,
    timers: Handle,
    shared: Arc<A>,
    asked: HeadSeen,
}

// Written out: docs/PROVING.md, "Drops".
impl<R: Drop, A: Drop> Drop for Rest<R, A> {
    fn drop(self) {
        let Rest {
            rt: _,
            timers: _,
            shared: _,
            asked: _,
        } = self;
    }
}

impl<R, A> Rest<R, A> {
    pub fn new(rt: R, timers: Handle, shared: Arc<A>, asked: HeadSeen) -> Rest<R, A>
        ensures { result.shared ≡ shared }
    {
        Rest {
            rt,
            timers,
            shared,
            asked,
        }
    }
}

/// A response that will be there.
#[derive(Drop)]
pub enum Answering<R, A, F> {
    /// It is known from the head of the request.
    Known(Global, u16),
    /// The body is still to come.
    Collecting {
        rt: R,
        shared: Arc<A>,
        path: String,
        body: F,
    },
}

/// What a body that was to come has come to.
pub(crate) type Come = Result<Result<Collected, LimitedError<hyper::Error>>, Elapsed>;

/// The response to a post at a path, by the bytes of its body: that of one reply by this seat. 503 where there is no memory for
/// the response.
pub fn answer_by<R: Wait + AllocGlobal, A: Replies>(
    rt: &R,
    replies: &A,
    seat: &mut A::Seat,
    path: &str,
    body: &[u8],
) -> Response<Full<Bytes>>
    ensures { IsAnswerBy A.replies seat.old seat.new path.now body.now result }
{
    let alloc = rt.alloc();
    response_of(alloc, replies.reply(rt, alloc, seat, path, body))
}

/// The same by a seat that is made for it. 503 where none can be made, too.
pub fn answer<R: Wait + AllocGlobal, A: Seats>(
    rt: &R,
    replies: &A,
    path: &str,
    body: &[u8],
) -> Response<Full<Bytes>>
    ensures { IsAnswer A.fresh A.replies path.now body.now result }
{
    let Ok(seat) = replies.seat(rt) else {
        return bare(rt.alloc(), StatusCode::SERVICE_UNAVAILABLE);
    };
    let mut seat = seat;
    answer_by(rt, replies, &mut seat, path, body)
}

// The response to a request whose body has come, by its bytes. 503 where there is no memory to put them together.
fn answered<R: Wait + AllocGlobal, A: Seats>(
    rt: &R,
    replies: &A,
    path: &str,
    body: Collected,
) -> Response<Full<Bytes>> {
    match body.to_bytes() {
        Ok(body) => answer(rt, replies, path, body.as_slice()),
        Err(_) => bare(rt.alloc(), StatusCode::SERVICE_UNAVAILABLE),
    }
}

// The response to a request whose body has come to this. One that breaks off has none, which ends the connection.
fn response_to<R: Wait + AllocGlobal, A: Seats>(
    rt: &R,
    replies: &A,
    path: &str,
    body: Come,
) -> Result<Response<Full<Bytes>>, hyper::Error> {
    let alloc = rt.alloc();
    match body {
        Ok(Ok(body)) => Ok(answered(rt, replies, path, body)),
        Ok(Err(LimitedError::LengthLimit)) => Ok(bare(alloc, StatusCode::PAYLOAD_TOO_LARGE)),
        Ok(Err(LimitedError::Body(e))) if e.is_out_of_memory() => {
            Ok(bare(alloc, StatusCode::SERVICE_UNAVAILABLE))
        }
        Ok(Err(LimitedError::Body(e))) => Err(e),
        Err(_elapsed) => Ok(bare(alloc, StatusCode::REQUEST_TIMEOUT)),
    }
}

impl<R, A, F> Future for Answering<R, A, F>
where
    R: Wait + AllocGlobal + Drop,
    A: Seats + Drop,
    F: Future<Output = Come>,
{
    ghost use Rattle.std.specs.Prelude.{⊤};
    ghost use Rattle.xds_http.specs.declared.service.Answering.TheVariants.{Known, Collecting};

    type Output = Result<Response<Full<Bytes>>, hyper::Error>;

    ghost can_poll = { elim [ Known _ _ ↦ ⊤ | Collecting _ _ _ body ↦ F.can_poll body ] };

    ghost needs = { λ a s. elim a [ Known _ _ ↦ ⊥ | Collecting _ _ _ body ↦ F.needs body s ] };

    fn poll(&mut self, cx: &mut Context<'_>) -> Poll<Self::Output> {
        match self {
            Answering::Known(alloc, status) => {
                let reply = HttpReply::without_body(*status);
                Poll::Ready(Ok(response_of(*alloc, reply)))
            }
            Answering::Collecting {
                rt,
                shared,
                path,
                body,
            } => {
                let come = ready!(body.poll(cx));
                Poll::Ready(response_to(rt, &**shared, path.as_str(), come))
            }
        }
    }
}

// The status that finishes a request of this method and path before its body is looked at, if one does.
fn finished(method: &str, path: &str) -> Option<u16>
    ensures { MatchOption result ((t : Kind) × (addressed method.now path.now [] ≡ Ok t)) (λ status. addressed method.now path.now [] ≡ Err status) }
{
    if type_of_path(path).is_none() {
        return Some(404);
    }
    if method != "POST" {
        return Some(405);
    }
    None
}

// Whether a body comes in another coding than `chunked`.
fn is_coded(headers: &HeaderMap) -> bool
    ensures { result ≡ not (comes_plain headers.now) }
{
    for coding in headers.get_all(TRANSFER_ENCODING) {
        if !coding.as_bytes().eq_ignore_ascii_case(b"chunked") {
            return true;
        }
    }
    false
}

// The status that the head of a request is answered by, if its body isn't needed.
fn known<I>(request: &Request<Incoming<I>>) -> Option<u16>
    ensures { result ≡ early_status (head_of request.now) }
{
    let status = finished(request.method().as_str(), request.uri().path());
    if status.is_none() && is_coded(request.headers()) {
        return Some(501);
    }
    status
}

/// A body that is to come.
pub(crate) type ComingBody<I> = Timeout<Collect<Limited<Incoming<I>>>>;

impl<R, A, I> Service<Request<Incoming<I>>> for Rest<R, A>
where
    R: Wait + Clock + AllocGlobal + Copy + Drop,
    A: Seats + Drop,
    I: Drop,
{
    ghost use Rattle.http.specs.Request.{head_of};
    ghost use Rattle.xds_http.specs.Heads.{Begins};

    type Response = Response<Full<Bytes>>;

    type Error = hyper::Error;

    ghost calls = { λ _ request answering. Begins (head_of request) answering };

    type Future = Answering<R, A, ComingBody<I>>;

    fn call(&self, request: Request<Incoming<I>>) -> Self::Future {
        self.asked.note();
        let alloc = self.rt.alloc();
        if let Some(status) = known(&request) {
            return Answering::Known(alloc, status);
        }
        let Ok(path) = String::from_str(alloc, request.uri().path()) else {
            return Answering::Known(alloc, 503);
        };
        let Ok(shared) = Arc::try_clone(&self.shared) else {
            return Answering::Known(alloc, 503);
        };
        let body = Limited::new(request.into_body(), MAX_BODY).collect(alloc);
        let limit = Duration::from_secs(BODY_SECONDS);
        let Ok(body) = self.timers.timeout(&self.rt, limit, body) else {
            return Answering::Known(alloc, 503);
        };
        Answering::Collecting {
            rt: self.rt,
            shared,
            path,
            body,
        }
    }
}
