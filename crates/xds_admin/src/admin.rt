// An operator's port: what it answers. It waits for nobody longer than a second: not for a replica's thread, and not for who reads what
// the server tells.
ghost use Rattle.std.specs.Prelude.{◌≡◌, option_map, string_bytes, is_some, IfOk};
ghost use Rattle.xds_admin.specs.Stored.{stored_text};
ghost use Rattle.xds_admin.specs.Routes.{routed};

use crate::changing::{Changing, push, told};
use crate::page::{head_html, tail_html};
use crate::reached::{MOST_MILLISECONDS, ReachedReplica};
use crate::routes::{OperatorRoute, routed};
use crate::sharing::{Listing, Merging, PLAIN, plain};
use std::alloc::Global;
use std::sync::{Arc, Wait};
use std::time::{Clock, Duration};
use xds_changes::choice::{Choice, Unchosen, choice_in};
use xds_changes::contents::push_content;
use xds_changes::order::Answers;
use xds_changes::wanting::{WantedWrites, read_wanted};
use xds_checker::checker::CheckerLink;
use xds_http::{Head, Page, Pages, Part};
use xds_machine::deadline::Deadline;
use xds_machine::door::refused_at;
use xds_machine::meter::{Meter, build_text};
use xds_monitor::{recordings_text, running_text};
use xds_notes::{End, Ending};
use xds_resource::Refusal;
use xds_stats::{
    LogEvent, ReplicaNumbers, ReplicaSizes, VERSION, millis_now, numbers_text, utc_text,
};
use xds_upkeep::moves::Moves;
use xds_upkeep::sourcing::Source;
use xds_upkeep::storing::{Progress, StoreTold, owned};

// The kinds of what is answered.
const NUMBERS: &str = "text/plain; version=0.0.4";

const JSON: &str = "application/json";

const HTML: &str = "text/html; charset=utf-8";

/// What an operator's port answers by: the replicas, of which the first has number 1, and how the server ends.
pub struct Admin {
    pub replicas: Vec<ReachedReplica>,
    /// How far writes are stored, if they are.
    pub store: Option<Arc<Progress>>,
    /// The folder that resources come from, if there is one.
    pub source: Option<Arc<Source>>,
    /// How far the replicas have changed.
    pub moves: Arc<Moves>,
    pub ending: Arc<Ending>,
    /// What tells what this process takes.
    pub meter: Meter,
    /// What requests say, where they have to.
    pub bearer: Option<String>,
    /// What a checker of resources is asked by, if there is one.
    pub asks: Option<Arc<CheckerLink>>,
}

// Written out: docs/PROVING.md, "Drops".
impl Drop for Admin {
    fn drop(self) {
        let Admin {
            replicas: _,
            store: _,
            source: _,
            moves: _,
            ending: _,
            meter: _,
            bearer: _,
            asks: _,
        } = self;
    }
}

/// What is left to do for an answer.
#[derive(Drop)]
pub enum Doing {
    Changes(Changing),
    Writes(Listing),
    Merge(Merging),
}

impl Pages for Admin {
    type Work = Doing;

    fn page<R: Wait + Clock>(
        &self,
        rt: &R,
        alloc: Global,
        head: &Head,
        body: &[u8],
    ) -> Result<Page, Doing> {
        if let Some(status) = refused_at(head, &self.bearer) {
            return Ok(bare(alloc, status));
        }
        match routed(head.method.as_str(), head.path.as_str()) {
            Ok(route) => match self.answer(rt, alloc, route, head, body) {
                Ok(answer) => answer,
                Err(_) => Ok(bare(alloc, 503)),
            },
            Err(status) => Ok(bare(alloc, status)),
        }
    }

    fn go_on<R: Wait + Clock>(&self, rt: &R, alloc: Global, work: &mut Doing) -> Part {
        let part = match work {
            Doing::Changes(changing) => self.go_on_changing(rt, alloc, changing),
            Doing::Writes(listing) => self.go_on_listing(rt, alloc, listing),
            Doing::Merge(merging) => merging.go_on(rt, alloc),
        };
        match part {
            Ok(part) => part,
            Err(_) => Part::Done(bare(alloc, 503)),
        }
    }
}

// What is known of a store, in words.
fn store_state(alloc: Global, told: StoreTold) -> Result<String, Refusal> {
    match told.failing {
        Some(unstored) => unstored.text(alloc),
        None => owned(alloc, "goes on"),
    }
}

// The numbers of a store, in the text format of Prometheus.
fn stored_text(alloc: Global, told: StoreTold) -> Result<String, Refusal>
    ensures { IfOk result (λ t. string_bytes t ≡ stored_text told.commits told.failures (is_some told.failing)) }
{
    let commits = told.commits;
    let failures = told.failures;
    let failing = u64::from(told.failing.is_some());
    Ok(format!(in alloc;
        "# HELP xds_store_commits_total Commits of the store.\n# TYPE xds_store_commits_total counter\nxds_store_commits_total {commits}\n# HELP xds_store_failures_total Tries to store something that failed.\n# TYPE xds_store_failures_total counter\nxds_store_failures_total {failures}\n# HELP xds_store_failing Whether the last try to store something failed.\n# TYPE xds_store_failing gauge\nxds_store_failing {failing}\n"
    )?)
}

// A status alone.
fn bare(alloc: Global, status: u16) -> Page {
    plain(status, String::new(alloc))
}

// A text that is there.
fn found(kind: &'static str, text: String) -> Page {
    Page {
        status: 200,
        kind,
        text,
        field: None,
    }
}

// A text that is there, where there was memory for it.
fn found_of(kind: &'static str, text: Result<String, Refusal>) -> Result<Page, Refusal> {
    match text {
        Ok(text) => Ok(found(kind, text)),
        Err(refusal) => Err(refusal),
    }
}

// A page that says all, with nothing to be gone on with.
fn whole(page: Result<Page, Refusal>) -> Result<Result<Page, Doing>, Refusal> {
    match page {
        Ok(page) => Ok(Ok(page)),
        Err(refusal) => Err(refusal),
    }
}

impl Admin {
    // The page that is asked for, or the changes that are to be made.
    fn answer<R: Wait + Clock>(
        &self,
        rt: &R,
        alloc: Global,
        route: OperatorRoute,
        head: &Head,
        body: &[u8],
    ) -> Result<Result<Page, Doing>, Refusal> {
        match route {
            OperatorRoute::Health => whole(found_of(PLAIN, owned(alloc, "ok\n"))),
            OperatorRoute::Ready => whole(self.ready(rt, alloc)),
            OperatorRoute::Open => whole(self.open(rt, alloc)),
            OperatorRoute::Metrics => whole(found_of(NUMBERS, self.numbers(rt, alloc))),
            OperatorRoute::Status => whole(found_of(JSON, self.status(rt, alloc))),
            OperatorRoute::Changes => self.begin_changes(alloc, head, body),
            OperatorRoute::Resources => whole(self.chosen(rt, alloc, head)),
            OperatorRoute::Page => whole(found_of(HTML, self.html(rt, alloc))),
            OperatorRoute::Lines => whole(found_of(PLAIN, self.lines(rt, alloc))),
            OperatorRoute::Writes | OperatorRoute::Merge => self.begin_writes(
                rt, alloc, route, head, body,
            ),
            OperatorRoute::Stop => whole(self.stop(rt, alloc)),
        }
    }

    // Has clients answered, and says whether they are.
    fn open<R: Wait + Clock>(&self, rt: &R, alloc: Global) -> Result<Page, Refusal> {
        self.ending.ask(rt);
        self.ending
            .wait_open_within(rt, Duration::from_millis(MOST_MILLISECONDS));
        self.ready(rt, alloc)
    }

    // Ends the server, and says so. Without memory for the page it goes on.
    fn stop<R: Wait + Clock>(&self, rt: &R, alloc: Global) -> Result<Page, Refusal> {
        let text = owned(alloc, "stopping\n")?;
        self.ending.log(rt, millis_now(rt), LogEvent::Stopping);
        self.ending.end(rt, End::Stopped);
        Ok(found(PLAIN, text))
    }

    // Begins to list writes, or to merge those of a body, as the words behind the question mark say.
    fn begin_writes<R: Wait + Clock>(
        &self,
        rt: &R,
        alloc: Global,
        route: OperatorRoute,
        head: &Head,
        body: &[u8],
    ) -> Result<Result<Page, Doing>, Refusal> {
        match self.wanted(head.query.as_str()) {
            Ok((wanted, replica)) => share_writes(rt, alloc, route, wanted, replica, body),
            Err(status) => Ok(Ok(bare(alloc, status))),
        }
    }

    // The changes of a body, as the words behind the question mark say.
    fn begin_changes(
        &self,
        alloc: Global,
        head: &Head,
        body: &[u8],
    ) -> Result<Result<Page, Doing>, Refusal> {
        match chosen_changes(alloc, head.query.as_str()) {
            Ok(choice) => self.changes_as(alloc, &choice, body),
            Err(text) => Ok(Ok(told(alloc, 400, text))),
        }
    }

    // What replicas hold, as the words behind the question mark say.
    fn chosen<R: Wait + Clock>(&self, rt: &R, alloc: Global, head: &Head) -> Result<Page, Refusal> {
        match chosen_resources(alloc, head.query.as_str()) {
            Ok(choice) => self.chosen_by(rt, alloc, &choice),
            Err(text) => Ok(told(alloc, 400, text)),
        }
    }

    // The same by a choice: 404 where there is no such replica, or nothing of the names.
    fn chosen_by<R: Wait + Clock>(
        &self,
        rt: &R,
        alloc: Global,
        choice: &Choice,
    ) -> Result<Page, Refusal> {
        if !self.has_replica(choice) {
            return Ok(told(alloc, 404, "no such replica\n"));
        }
        match self.resources(rt, alloc, choice)? {
            Some(text) => Ok(resources_page(alloc, choice, text)),
            None => Ok(bare(alloc, 503)),
        }
    }

    // Whether a replica is chosen that is there.
    fn has_replica(&self, choice: &Choice) -> bool {
        for replica in &self.replicas {
            if choice.has_replica(replica.lookout.replica()) {
                return true;
            }
        }
        false
    }

    // What replicas hold, where each answers in time.
    fn resources<R: Wait + Clock>(
        &self,
        rt: &R,
        alloc: Global,
        choice: &Choice,
    ) -> Result<Option<String>, Refusal> {
        let deadline = Deadline::within(rt, Duration::from_millis(MOST_MILLISECONDS));
        let mut text = String::new(alloc);
        for replica in &self.replicas {
            if !push_chosen(rt, alloc, &mut text, replica, choice, deadline)? {
                return Ok(None);
            }
        }
        Ok(Some(text))
    }

    // What a query of writes asks for, and of which replica; or the status that refuses it: 400 where it is none, and 404 where no such
    // replica is there.
    fn wanted(&self, query: &str) -> Result<(WantedWrites, &ReachedReplica), u16> {
        let Some(wanted) = read_wanted(query) else {
            return Err(400);
        };
        let place = usize::from(wanted.replica).wrapping_sub(1);
        let Some(replica) = self.replicas.get(place) else {
            return Err(404);
        };
        Ok((wanted, replica))
    }

    // Goes on to list the writes of a replica for a moment.
    fn go_on_listing<R: Wait + Clock>(
        &self,
        rt: &R,
        alloc: Global,
        listing: &mut Listing,
    ) -> Result<Part, Refusal> {
        let place = usize::from(listing.replica()).wrapping_sub(1);
        match self.replicas.get(place) {
            Some(replica) => listing.go_on(rt, alloc, &replica.orders, &self.moves),
            None => Ok(Part::Done(bare(alloc, 404))),
        }
    }

    // What each replica holds, where its thread answers in time. All are asked before one is waited for.
    fn looks<R: Wait + Clock>(
        &self,
        rt: &R,
        alloc: Global,
    ) -> Result<Vec<Option<ReplicaSizes>>, Refusal> {
        let deadline = Deadline::within(rt, Duration::from_millis(MOST_MILLISECONDS));
        let asked = self.asked(rt, alloc, deadline)?;
        self.answers(rt, alloc, asked, deadline)
    }

    // Asks each replica what it holds, where there is room for the question in time.
    fn asked<R: Wait + Clock>(
        &self,
        rt: &R,
        alloc: Global,
        deadline: Deadline,
    ) -> Result<Vec<Option<Answers<ReplicaSizes>>>, Refusal> {
        let mut asked = Vec::new(alloc);
        for replica in &self.replicas {
            asked.push(replica.ask(rt, alloc, deadline))?;
        }
        Ok(asked)
    }

    // What the replicas answer to these questions in time.
    fn answers<R: Wait + Clock>(
        &self,
        rt: &R,
        alloc: Global,
        asked: Vec<Option<Answers<ReplicaSizes>>>,
        deadline: Deadline,
    ) -> Result<Vec<Option<ReplicaSizes>>, Refusal> {
        let mut looks = Vec::new(alloc);
        for (replica, asked) in self.replicas.iter().zip(asked) {
            looks.push(replica.look(rt, asked, deadline))?;
        }
        Ok(looks)
    }

    // Whether clients are answered, and each replica answers in time.
    fn ready<R: Wait + Clock>(&self, rt: &R, alloc: Global) -> Result<Page, Refusal> {
        if self.ending.is_held(rt) {
            return Ok(bare(alloc, 503));
        }
        if self.are_answering(rt, alloc) {
            found_of(PLAIN, owned(alloc, "ready\n"))
        } else {
            Ok(bare(alloc, 503))
        }
    }

    // Whether the thread of each replica answers in time how often it changed, which takes as long whatever it holds.
    fn are_answering<R: Wait + Clock>(&self, rt: &R, alloc: Global) -> bool {
        let deadline = Deadline::within(rt, Duration::from_millis(MOST_MILLISECONDS));
        for replica in &self.replicas {
            if replica.marks_by(rt, alloc, deadline).is_none() {
                return false;
            }
        }
        true
    }

    // The numbers of the whole server, in the text format of Prometheus.
    fn numbers<R: Wait + Clock>(&self, rt: &R, alloc: Global) -> Result<String, Refusal> {
        let looks = self.looks(rt, alloc)?;
        let shown = self.shown(rt, alloc, looks)?;
        let mut text = numbers_text(alloc, shown.as_slice())?;
        drop(shown);
        self.push_parts(rt, alloc, &mut text)?;
        push(&mut text, build_text(alloc, VERSION))?;
        push(&mut text, self.meter.text(alloc))?;
        Ok(text)
    }

    // What was counted at each replica, with what it holds.
    fn shown<R: Wait + Clock>(
        &self,
        rt: &R,
        alloc: Global,
        looks: Vec<Option<ReplicaSizes>>,
    ) -> Result<Vec<ReplicaNumbers>, Refusal> {
        let mut shown = Vec::new(alloc);
        for (replica, look) in self.replicas.iter().zip(looks) {
            shown.push(ReplicaNumbers {
                replica: replica.lookout.replica(),
                look,
                numbers: replica.lookout.numbers(rt),
            })?;
        }
        Ok(shown)
    }

    // Appends the numbers of the recordings, and of a store, a folder and a checker, where there are such.
    fn push_parts<R: Wait + Clock>(
        &self,
        rt: &R,
        alloc: Global,
        text: &mut String,
    ) -> Result<(), Refusal> {
        push(text, self.recordings(rt, alloc))?;
        if let Some(store) = &self.store {
            push(text, stored_text(alloc, store.told(rt)))?;
        }
        if let Some(source) = &self.source {
            push(text, source.numbers(rt, alloc))?;
        }
        if let Some(asks) = &self.asks {
            push(text, asks.numbers(rt, alloc))?;
        }
        Ok(())
    }

    // The open streams of all replicas, as lines of a plain text.
    fn lines<R: Wait>(&self, rt: &R, alloc: Global) -> Result<String, Refusal> {
        let mut text = String::new(alloc);
        for replica in &self.replicas {
            let one = replica.lookout.lines(rt, alloc)?;
            text.push_str(one.as_str())?;
        }
        if text.as_str().is_empty() {
            text.push_str("no stream is open\n")?;
        }
        Ok(text)
    }

    // The page for a browser.
    fn html<R: Wait + Clock>(&self, rt: &R, alloc: Global) -> Result<String, Refusal> {
        let looks = self.looks(rt, alloc)?;
        let millis = millis_now(rt);
        let now = utc_text(alloc, millis)?;
        let mut text = head_html(alloc, now.as_str(), self.replicas.len())?;
        for (replica, look) in self.replicas.iter().zip(looks) {
            let one = replica.html(rt, alloc, look, millis)?;
            text.push_str(one.as_str())?;
        }
        let refused = self.ending.refused_text(rt, alloc)?;
        text.push_str(tail_html(alloc, refused.as_str())?.as_str())?;
        Ok(text)
    }

    // How many recordings ended by a refusal, of each replica, and whether there is one that goes on.
    fn recordings<R: Wait>(&self, rt: &R, alloc: Global) -> Result<String, Refusal> {
        let mut ended = Vec::new(alloc);
        let mut running = Vec::new(alloc);
        for replica in &self.replicas {
            let place = replica.lookout.replica();
            let refusal = match &replica.tape {
                Some(tape) => tape.ended(rt),
                None => None,
            };
            ended.push((place, refusal.is_some()))?;
            running.push((place, replica.tape.is_some() && refusal.is_none()))?;
        }
        let mut text = recordings_text(alloc, ended.as_slice())?;
        text.push_str(running_text(alloc, running.as_slice())?.as_str())?;
        Ok(text)
    }

    fn status<R: Wait + Clock>(&self, rt: &R, alloc: Global) -> Result<String, Refusal> {
        let looks = self.looks(rt, alloc)?;
        let mut text = String::from_str(alloc, "{\"replicas\":[")?;
        let mut is_first = true;
        for (replica, look) in self.replicas.iter().zip(looks) {
            if !is_first {
                text.push_str(",")?;
            }
            is_first = false;
            let one = replica.status(rt, alloc, look)?;
            text.push_str(one.as_str())?;
        }
        text.push_str("]")?;
        if let Some(store) = &self.store {
            let state = store_state(alloc, store.told(rt))?;
            let state = state.as_str();
            let state = format!(in alloc; ",\"store\":\"{state}\"")?;
            text.push_str(state.as_str())?;
        }
        if let Some(source) = &self.source {
            text.push_str(",\"source\":")?;
            text.push_str(source.status(rt, alloc)?.as_str())?;
        }
        text.push_str("}\n")?;
        Ok(text)
    }
}

// Begins to list the writes of a replica, or to merge those of a body there.
fn share_writes<R: Wait + Clock>(
    rt: &R,
    alloc: Global,
    route: OperatorRoute,
    wanted: WantedWrites,
    replica: &ReachedReplica,
    body: &[u8],
) -> Result<Result<Page, Doing>, Refusal> {
    if route == OperatorRoute::Writes {
        return Ok(Err(Doing::Writes(Listing::new(rt, wanted))));
    }
    match Merging::begin(rt, alloc, &replica.orders, body)? {
        Ok(page) => Ok(Ok(page)),
        Err(merging) => Ok(Err(Doing::Merge(merging))),
    }
}

// The choice of resources that a query says, or how it is told that it says none.
fn chosen_resources(alloc: Global, query: &str) -> Result<Choice, &'static str> {
    match choice_in(alloc, query) {
        Ok(choice) => {
            if choice.is_of_changes() {
                Err(Unchosen::UnknownWord.text())
            } else {
                Ok(choice)
            }
        }
        Err(unchosen) => Err(unchosen.text()),
    }
}

// The same of changes.
fn chosen_changes(alloc: Global, query: &str) -> Result<Choice, &'static str> {
    match choice_in(alloc, query) {
        Ok(choice) => {
            if choice.is_of_resources() {
                Err(Unchosen::UnknownWord.text())
            } else {
                Ok(choice)
            }
        }
        Err(unchosen) => Err(unchosen.text()),
    }
}

// What replicas hold of what was chosen: 404 where nothing has its names.
fn resources_page(alloc: Global, choice: &Choice, text: String) -> Page {
    if text.as_str().is_empty() && !choice.names.is_empty() {
        return told(alloc, 404, "9 NotFound\n");
    }
    found(PLAIN, text)
}

// Appends what a replica holds of what was chosen, where it is chosen. Whether it answered in time.
fn push_chosen<R: Wait + Clock>(
    rt: &R,
    alloc: Global,
    text: &mut String,
    replica: &ReachedReplica,
    choice: &Choice,
    deadline: Deadline,
) -> Result<bool, Refusal> {
    let place = replica.lookout.replica();
    if !choice.has_replica(place) {
        return Ok(true);
    }
    let Some(held) = replica.content(rt, alloc, deadline) else {
        return Ok(false);
    };
    push_content(alloc, text, place, &held, choice)?;
    Ok(true)
}
