// The server of pages over HTTP: the service of one connection, and the connections of a listener.
ghost use Rattle.std.specs.Prelude.{◌≡◌, ◌↔◌, [], codes, string_bytes, unwrap_or, IfOk, IfSome, IsTrue};
ghost use Rattle.http.specs.Request.{head_of};
ghost use Rattle.http_header.specs.HeaderMap.{ContainsKey};
ghost use Rattle.http_uri.specs.Uri.{uri_path, uri_query};

use crate::accept::{HeadSeen, Serves, Tasks};
use crate::pages::{Head, Page, Pages, Part};
use crate::response::bare;
use crate::serve::{MAX_CONNECTIONS, pause_of, permits, run_tasks};
use crate::service::{BODY_SECONDS, Come, ComingBody};
use bytes::Bytes;
use futures::task::{Context, Poll};
use futures::{Future, ready};
use http::HeaderMap;
use http::header::{
    AUTHORIZATION, CONTENT_TYPE, HOST, HeaderName, HeaderValue, ORIGIN, WWW_AUTHENTICATE,
};
use http_body_util::{BodyExt, Full, Limited, LimitedError};
use hyper::body::Incoming;
use hyper::rt::TokioTimer;
use hyper::server::conn::http1::{Builder, Connection};
use hyper::service::Service;
use hyper::{Request, Response, StatusCode};
use std::alloc::{AllocGlobal, Global};
use std::hash::RandomState;
use std::net::Net;
use std::random::RandomSource;
use std::sync::{Arc, Wait};
use std::time::{Clock, Duration};
use std::{io, mem};
use tokio::net::{TcpListener, TcpStream};
use tokio::runtime::LocalRuntime;
use tokio::time::{Handle, Sleep};
use xds_polls::MAX_BODY;
use xds_resource::Refusal;

// As many milliseconds as pass before work that waits is looked at again.
const LOOK_MILLISECONDS: u64 = 2;

/// The service of a connection.
pub struct ConnectionService<R, A> {
    rt: R,
    timers: Handle,
    shared: Arc<A>,
    asked: HeadSeen,
}

// Written out: docs/PROVING.md, "Drops".
impl<R: Drop, A: Drop> Drop for ConnectionService<R, A> {
    fn drop(self) {
        let ConnectionService {
            rt: _,
            timers: _,
            shared: _,
            asked: _,
        } = self;
    }
}

/// A response that will be there.
#[derive(Drop)]
pub enum Paging<R, A: Pages, F> {
    /// There was no memory for the request.
    Unavailable(Global),
    /// The body is still to come.
    Collecting {
        rt: R,
        timers: Handle,
        shared: Arc<A>,
        head: Head,
        body: F,
    },
    /// There is work to do for it, perhaps after a pause.
    Working {
        rt: R,
        timers: Handle,
        shared: Arc<A>,
        work: A::Work,
        pause: Option<Sleep>,
    },
}

// A page as a response, where there is memory for it.
fn made(alloc: Global, page: Page) -> Result<Response<Full<Bytes>>, Refusal> {
    let Page {
        status,
        kind,
        text,
        field,
    } = page;
    let status = StatusCode::from_u16(status).unwrap_or(StatusCode::INTERNAL_SERVER_ERROR);
    let mut response = Response::new(alloc, Full::new(Bytes::from_string(text)?));
    *response.status_mut() = status;
    let kind = HeaderValue::from_str(alloc, kind).map_err(|_| Refusal::OutOfMemory)?;
    response
        .headers_mut()
        .insert(CONTENT_TYPE, kind)
        .map_err(|_| Refusal::OutOfMemory)?;
    if response.status() == StatusCode::UNAUTHORIZED {
        add_scheme(alloc, response.headers_mut())?;
    }
    if let Some((name, value)) = field {
        add_field(alloc, response.headers_mut(), name, value)?;
    }
    Ok(response)
}

// Says in a head by which scheme a request is to say who asks.
fn add_scheme(alloc: Global, headers: &mut HeaderMap) -> Result<(), Refusal> {
    let scheme = HeaderValue::from_str(alloc, "Bearer").map_err(|_| Refusal::OutOfMemory)?;
    headers
        .insert(WWW_AUTHENTICATE, scheme)
        .map_err(|_| Refusal::OutOfMemory)?;
    Ok(())
}

// Adds a field to a head, where there is memory for it and it may stand in a head.
fn add_field(
    alloc: Global,
    headers: &mut HeaderMap,
    name: &str,
    value: String,
) -> Result<(), Refusal> {
    let name = match HeaderName::from_bytes(alloc, name.as_bytes()) {
        Ok(name) => name,
        Err(_) => {
            drop(value);
            return Err(Refusal::OutOfMemory);
        }
    };
    let value = HeaderValue::from_string(value).map_err(|_| Refusal::OutOfMemory)?;
    headers
        .insert(name, value)
        .map_err(|_| Refusal::OutOfMemory)?;
    Ok(())
}

// The page that answers a request, as a response; 503 where there is no memory for it.
fn response_of(alloc: Global, page: Page) -> Response<Full<Bytes>> {
    match made(alloc, page) {
        Ok(response) => response,
        Err(_) => bare(alloc, StatusCode::SERVICE_UNAVAILABLE),
    }
}

// The response to a request, or the end of its connection.
type HttpResult = Result<Response<Full<Bytes>>, hyper::Error>;

// The response to a request whose body has come to this, or the work that makes it. One that breaks off has none, which ends the
// connection.
fn response_to<R: Wait + Clock + AllocGlobal, A: Pages>(
    rt: &R,
    pages: &A,
    head: &Head,
    body: Come,
) -> Result<HttpResult, A::Work> {
    let alloc = rt.alloc();
    match body {
        Ok(Ok(body)) => match body.to_bytes() {
            Ok(body) => match pages.page(rt, alloc, head, body.as_slice()) {
                Ok(page) => Ok(Ok(response_of(alloc, page))),
                Err(work) => Err(work),
            },
            Err(_) => Ok(Ok(bare(alloc, StatusCode::SERVICE_UNAVAILABLE))),
        },
        Ok(Err(LimitedError::LengthLimit)) => Ok(Ok(bare(alloc, StatusCode::PAYLOAD_TOO_LARGE))),
        Ok(Err(LimitedError::Body(e))) => Ok(Err(e)),
        Err(_elapsed) => Ok(Ok(bare(alloc, StatusCode::REQUEST_TIMEOUT))),
    }
}

// The same, with a share of what does the work.
fn response_or_work<R: Wait + Clock + AllocGlobal, A: Pages + Drop>(
    rt: &R,
    pages: &Arc<A>,
    head: &Head,
    body: Come,
) -> Result<HttpResult, (Arc<A>, A::Work)> {
    let work = match response_to(rt, &**pages, head, body) {
        Ok(answer) => return Ok(answer),
        Err(work) => work,
    };
    match Arc::try_clone(pages) {
        Ok(shared) => Err((shared, work)),
        Err(_) => {
            drop(work);
            Ok(Ok(bare(rt.alloc(), StatusCode::SERVICE_UNAVAILABLE)))
        }
    }
}

// The response that a part more of the work makes, if it is done; else how long to pause, if at all.
fn response_by<R: Wait + Clock + AllocGlobal, A: Pages>(
    rt: &R,
    timers: &Handle,
    pages: &A,
    work: &mut A::Work,
) -> Result<HttpResult, Option<Sleep>> {
    let alloc = rt.alloc();
    match pages.go_on(rt, alloc, work) {
        Part::Done(page) => Ok(Ok(response_of(alloc, page))),
        Part::More => Err(None),
        Part::Waits => Err(
            timers
                .sleep(rt, Duration::from_millis(LOOK_MILLISECONDS))
                .ok(),
        ),
    }
}

impl<R, A, F> Future for Paging<R, A, F>
where
    R: Wait + Clock + AllocGlobal + Copy + Drop,
    A: Pages + Drop,
    F: Future<Output = Come>,
{
    ghost use Rattle.std.specs.Prelude.{◌≡◌, ⊤, IfSome};
    ghost use Rattle.tokio.specs.Timers.{sleep_source};
    ghost use Rattle.xds_http.specs.declared.site.Paging.TheVariants.{Unavailable, Collecting, Working};

    type Output = HttpResult;

    ghost can_poll = { elim [ Unavailable _ ↦ ⊤ | Collecting _ _ _ _ body ↦ F.can_poll body | Working _ _ _ _ _ ↦ ⊤ ] };

    // Work without a pause is to be polled again, whatever happens.
    ghost needs = { λ a s. elim a [ Unavailable _ ↦ ⊥ | Collecting _ _ _ _ body ↦ F.needs body s | Working _ _ _ _ pause ↦ IfSome pause (λ sleep. s ≡ sleep_source sleep) ] };

    fn poll(&mut self, cx: &mut Context<'_>) -> Poll<Self::Output> {
        let working = match self {
            Paging::Unavailable(alloc) => {
                return Poll::Ready(Ok(bare(*alloc, StatusCode::SERVICE_UNAVAILABLE)));
            }
            Paging::Collecting {
                rt,
                timers,
                shared,
                head,
                body,
            } => {
                let come = ready!(body.poll(cx));
                let timers = match timers.clone() {
                    Ok(timers) => timers,
                    Err(_) => {
                        drop(come);
                        return Poll::Ready(Ok(bare(rt.alloc(), StatusCode::SERVICE_UNAVAILABLE)));
                    }
                };
                match response_or_work(rt, shared, head, come) {
                    Ok(answer) => return Poll::Ready(answer),
                    Err((shared, work)) => Paging::Working {
                        rt: *rt,
                        timers,
                        shared,
                        work,
                        pause: None,
                    },
                }
            }
            Paging::Working {
                rt,
                timers,
                shared,
                work,
                pause,
            } => {
                if let Some(sleep) = pause {
                    let _woken = ready!(sleep.poll(cx));
                }
                return match response_by(rt, timers, &**shared, work) {
                    Ok(answer) => Poll::Ready(answer),
                    Err(next) => {
                        drop(mem::replace(pause, next));
                        cx.yield_now()
                    }
                };
            }
        };
        drop(mem::replace(self, working));
        cx.yield_now()
    }
}

// The values of a field, with commas between; empty where there is none, or one is no text.
fn values_of(alloc: Global, headers: &HeaderMap, name: HeaderName) -> Result<String, Refusal> {
    let mut text = String::new(alloc);
    let mut is_first = true;
    for value in headers.get_all(name) {
        let Ok(value) = value.to_str() else {
            return Ok(String::new(alloc));
        };
        if !is_first {
            text.push_str(",")?;
        }
        is_first = false;
        text.push_str(value)?;
    }
    Ok(text)
}

// What is taken of a request's head.
fn head_in<I>(alloc: Global, request: &Request<Incoming<I>>) -> Result<Head, Refusal>
    ensures method { IfOk result (λ h. string_bytes h.method ≡ (head_of request.now).method) }
    ensures path { IfOk result (λ h. string_bytes h.path ≡ uri_path (head_of request.now).uri) }
    ensures query { IfOk result (λ h. string_bytes h.query ≡ unwrap_or (uri_query (head_of request.now).uri) []) }
    ensures origin { IfOk result (λ h. IsTrue h.has_origin ↔ ContainsKey (head_of request.now).headers (codes "origin")) }
{
    let headers = request.headers();
    let query = match request.uri().query() {
        Some(query) => query,
        None => "",
    };
    Ok(Head {
        method: String::from_str(alloc, request.method().as_str())?,
        path: String::from_str(alloc, request.uri().path())?,
        query: String::from_str(alloc, query)?,
        host: values_of(alloc, headers, HOST)?,
        has_origin: headers.contains_key(ORIGIN),
        authorization: values_of(alloc, headers, AUTHORIZATION)?,
    })
}

impl<R, A, I> Service<Request<Incoming<I>>> for ConnectionService<R, A>
where
    R: Wait + Clock + AllocGlobal + Copy + Drop,
    A: Pages + Drop,
    I: Drop,
{
    type Response = Response<Full<Bytes>>;

    type Error = hyper::Error;

    type Future = Paging<R, A, ComingBody<I>>;

    fn call(&self, request: Request<Incoming<I>>) -> Self::Future {
        self.asked.note();
        let alloc = self.rt.alloc();
        let Ok(head) = head_in(alloc, &request) else {
            return Paging::Unavailable(alloc);
        };
        let Ok(timers) = self.timers.clone() else {
            return Paging::Unavailable(alloc);
        };
        let Ok(shared) = Arc::try_clone(&self.shared) else {
            return Paging::Unavailable(alloc);
        };
        let body = Limited::new(request.into_body(), MAX_BODY).collect(alloc);
        let limit = Duration::from_secs(BODY_SECONDS);
        let Ok(body) = self.timers.timeout(&self.rt, limit, body) else {
            return Paging::Unavailable(alloc);
        };
        Paging::Collecting {
            rt: self.rt,
            timers,
            shared,
            head,
            body,
        }
    }
}

// Serves pages by what all connections share.
struct Sites<R, A> {
    rt: R,
    timers: Handle,
    builder: Builder<TokioTimer<R>>,
    shared: Arc<A>,
}

// Written out: docs/PROVING.md, "Drops".
impl<R: Drop, A: Drop> Drop for Sites<R, A> {
    fn drop(self) {
        let Sites {
            rt: _,
            timers: _,
            builder: _,
            shared: _,
        } = self;
    }
}

impl<R, A> Serves for Sites<R, A>
where
    R: Wait + Clock + AllocGlobal + Copy + Drop,
    A: Pages + Drop,
{
    type Conn = Connection<TcpStream, ConnectionService<R, A>, Full<Bytes>, TokioTimer<R>>;

    fn serve(&self, socket: TcpStream, asked: HeadSeen) -> Option<Self::Conn> {
        let shared = Arc::try_clone(&self.shared).ok()?;
        let timers = self.timers.clone().ok()?;
        let site = ConnectionService {
            rt: self.rt,
            timers,
            shared,
            asked,
        };
        Some(self.builder.serve_connection(socket, site))
    }

    fn pause(&self) -> Option<Sleep> {
        pause_of(&self.rt, &self.timers)
    }
}

// What serves pages.
fn sites_of<R, A>(rt: &R, timers: &Handle, shared: Arc<A>) -> io::Result<Sites<R, A>>
where
    R: Clock + RandomSource + AllocGlobal + Copy + Drop,
    A: Drop,
{
    let keys = RandomState::new(rt)?;
    let timer = TokioTimer::new(*rt, timers.clone()?);
    let timers = timers.clone()?;
    let builder = Builder::new(rt.alloc(), keys).timer(timer);
    Ok(Sites {
        rt: *rt,
        timers,
        builder,
        shared,
    })
}

/// Serves pages at a listener that is bound, by a runtime of its own. All connections are served by the thread that calls it. It
/// returns as `serve_http` does.
pub fn serve_pages<R, A>(rt: &R, listener: std::net::TcpListener, pages: Arc<A>) -> io::Result<()>
where
    R: Wait + Clock + Net + RandomSource + AllocGlobal + Copy + Drop,
    A: Pages + Drop,
{
    let mut runtime = LocalRuntime::new(rt)?;
    let sites = sites_of(rt, runtime.handle().time(), pages)?;
    let permits = permits(rt.alloc(), MAX_CONNECTIONS)?;
    let listener = TcpListener::from_std(listener, runtime.handle().reactor())?;
    run_tasks(
        rt,
        &mut runtime,
        Tasks::new(rt.alloc(), listener, sites, permits),
    )
}
