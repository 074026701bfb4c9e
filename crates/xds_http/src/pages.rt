// What answers requests of any method and path over HTTP.
use std::alloc::Global;
use std::sync::Wait;
use std::time::Clock;

/// What is taken of a request's head.
pub struct Head {
    pub method: String,
    pub path: String,
    /// What stands behind the path's question mark; empty where there is none.
    pub query: String,
    /// The field `host`; several of them with commas between. Empty where there is none, or it is no text.
    pub host: String,
    /// Whether there is a field `origin`, as a browser sends it for a page of a site.
    pub has_origin: bool,
    /// The field `authorization`; empty where there is none, or it is no text.
    pub authorization: String,
}

// Written out: docs/PROVING.md, "Drops".
impl Drop for Head {
    fn drop(self) {
        let Head {
            method: _,
            path: _,
            query: _,
            host: _,
            has_origin: _,
            authorization: _,
        } = self;
    }
}

/// What a request is answered: a status, and a text of a kind. With 401 goes the scheme `Bearer`, by which `authorization` is said.
#[derive(Drop)]
pub struct Page {
    pub status: u16,
    /// What the text is, as `content-type` says it.
    pub kind: &'static str,
    pub text: String,
    /// One field more of the head, if there is one: its name, in small letters, and its value.
    pub field: Option<(&'static str, String)>,
}

/// How far the work for an answer has come.
#[derive(Drop)]
pub enum Part {
    /// It is done, and this is the answer.
    Done(Page),
    /// There is more to do.
    More,
    /// It waits for something. It is looked at again after a pause of some milliseconds.
    Waits,
}

/// What answers requests, shared by all connections.
pub trait Pages {
    /// What is left to do for an answer that takes long.
    type Work: Drop;

    /// The answer to a request with this head and this body, or the work that makes it. It may wait.
    fn page<R: Wait + Clock>(
        &self,
        rt: &R,
        alloc: Global,
        head: &Head,
        body: &[u8],
    ) -> Result<Page, Self::Work>;

    /// Does a part of the work. Answers the page once all of it is done. Between two parts other requests are answered. It may wait.
    fn go_on<R: Wait + Clock>(&self, rt: &R, alloc: Global, work: &mut Self::Work) -> Part;
}
