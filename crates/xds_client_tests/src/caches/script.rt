// Scripts for a client: each line tells it one thing, and then, after ` => `, what it answers.
use std::alloc::{AllocError, Global};
use std::mem;
use std::test::Fail;
use xds_cache::Cache;
use xds_cases::cases::{unfolded, written_out};
use xds_message::{DeltaDiscoveryRequest, DiscoveryRequest};
use xds_resource::{Refusal, TypeName};

/// A client of any variant, on a stream or not. An `Err` is of the script or of this test, as
/// `NotFound` where a client has no such call; what the client answers is a text, its refusals
/// among them.
pub trait Player: Drop + Sized {
    /// A client that wants nothing, whose node is of this cluster.
    fn new(alloc: Global, cluster: &str) -> Result<Self, Refusal>;

    fn connect(&mut self, alloc: Global) -> Result<String, Refusal>;

    fn lose(&mut self) -> Result<(), Refusal>;

    fn poll(&self, alloc: Global, kind: TypeName) -> Result<String, Refusal>;

    fn change(&mut self, alloc: Global, kind: TypeName, words: &str) -> Result<String, Refusal>;

    fn receive(&mut self, alloc: Global, message: &str) -> Result<String, Refusal>;

    fn view(&self, kind: TypeName) -> Result<&Cache, Refusal>;
}

/// A request of either variant.
pub trait Sent: Drop {
    fn text(&self, alloc: Global) -> Result<String, Refusal>;
}

impl Sent for DiscoveryRequest {
    fn text(&self, alloc: Global) -> Result<String, Refusal> {
        self.write(alloc)
    }
}

impl Sent for DeltaDiscoveryRequest {
    fn text(&self, alloc: Global) -> Result<String, Refusal> {
        self.write(alloc)
    }
}

/// The text of a request, or the refusal.
pub(crate) fn answered<Q: Sent>(
    alloc: Global,
    sent: Result<Q, Refusal>,
) -> Result<String, Refusal> {
    match sent {
        Ok(request) => request.text(alloc),
        Err(refusal) => Ok(refusal.to_string(alloc)?),
    }
}

/// The text of a request, `none` where there is none, or the refusal.
pub(crate) fn perhaps_answered<Q: Sent>(
    alloc: Global,
    sent: Result<Option<Q>, Refusal>,
) -> Result<String, Refusal> {
    match sent {
        Ok(None) => none(alloc),
        Ok(Some(request)) => request.text(alloc),
        Err(refusal) => Ok(refusal.to_string(alloc)?),
    }
}

/// Puts a value in a place.
pub(crate) fn put<V: Drop>(place: &mut Option<V>, value: V) {
    drop(mem::replace(place, Some(value)));
}

/// What a client says that got a stream, or found no memory. It is then in its place.
pub(crate) fn linked<D: Drop, U: Drop, Q: Sent>(
    alloc: Global,
    connected: Result<(U, Vec<Q>), D>,
    down: &mut Option<D>,
    up: &mut Option<U>,
) -> Result<String, Refusal> {
    match connected {
        Ok((client, requests)) => {
            put(up, client);
            joined(alloc, requests.as_slice())
        }
        Err(client) => {
            put(down, client);
            Ok(String::from_str(alloc, NO_MEMORY)?)
        }
    }
}

// The texts of the requests, apart by spaces.
fn joined<Q: Sent>(alloc: Global, requests: &[Q]) -> Result<String, Refusal> {
    let mut all = String::new(alloc);
    for request in requests {
        add(&mut all, request.text(alloc)?.as_str())?;
    }
    or_none(alloc, all)
}

fn none(alloc: Global) -> Result<String, Refusal> {
    Ok(String::from_str(alloc, "none")?)
}

fn or_none(alloc: Global, text: String) -> Result<String, Refusal> {
    if text.is_empty() {
        return none(alloc);
    }
    Ok(text)
}

fn add(all: &mut String, text: &str) -> Result<(), AllocError> {
    if !all.is_empty() {
        all.push(' ')?;
    }
    all.push_str(text)
}

// What is held, in order: the version, if there is one, and the body of each resource.
fn held(alloc: Global, view: &Cache) -> Result<String, Refusal> {
    let mut all = String::new(alloc);
    for (_, holding) in view.iter() {
        if !holding.version().is_empty() {
            add(&mut all, holding.version())?;
        }
        add(&mut all, holding.body())?;
    }
    or_none(alloc, all)
}

/// The text before and after the first space; all of it, and nothing, where there is none.
pub(crate) fn first_word(text: &str) -> (&str, &str) {
    text.split_once(' ').unwrap_or((text, ""))
}

pub(crate) fn type_of(word: &str) -> Result<TypeName, Refusal> {
    TypeName::from_word(word).ok_or(Refusal::NotFound)
}

// What a client answers to `change TYPE WORD..`, `connect`, `lose`, `poll TYPE`, `receive MESSAGE`
// and `view TYPE`.
fn told<P: Player>(alloc: Global, player: &mut P, step: &str) -> Result<String, Refusal> {
    let (word, rest) = first_word(step);
    match word {
        "connect" => player.connect(alloc),
        "poll" => player.poll(alloc, type_of(rest)?),
        "receive" => player.receive(alloc, rest),
        "view" => held(alloc, player.view(type_of(rest)?)?),
        "change" => {
            let (kind, words) = first_word(rest);
            player.change(alloc, type_of(kind)?, words)
        }
        "lose" => {
            player.lose()?;
            none(alloc)
        }
        _ => Err(Refusal::NotFound),
    }
}

/// What a client answers to one step. `CDS`, `EDS`, `LDS`, `RDS` and `SDS` stand for the URLs of
/// the types, and a line that begins with four spaces goes on with the line before it.
pub(crate) fn ask<P: Player>(alloc: Global, player: &mut P, step: &str) -> Result<String, Fail> {
    let step = unfolded(alloc, step)?;
    let step = written_out(alloc, step.as_str())?;
    Ok(told(alloc, player, step.as_str())?)
}

/// A client's refusal for want of memory.
pub const NO_MEMORY: &str = "8 OutOfMemory";

// Plays one line, and compares. Where the client found no memory, it ends with that refusal.
fn play_line<P: Player>(alloc: Global, player: &mut P, line: &str) -> Result<(), Fail> {
    let (step, wanted) = line.split_once(" => ").ok_or("no answer")?;
    let wanted = written_out(alloc, wanted)?;
    let answer = ask(alloc, player, step)?;
    is_wanted(answer.as_str(), wanted.as_str(), step)
}

fn is_wanted(answer: &str, wanted: &str, step: &str) -> Result<(), Fail> {
    if answer == NO_MEMORY {
        return Err(Refusal::OutOfMemory.into());
    }
    if answer == wanted {
        return Ok(());
    }
    Err(Fail::new(format_args!("{answer} and not {wanted}, at {step}")))
}

/// Plays a script on with a client. A line that begins with four spaces goes on with the line
/// before it.
pub(crate) fn play_on<P: Player>(alloc: Global, player: &mut P, script: &str) -> Result<(), Fail> {
    let script = unfolded(alloc, script)?;
    for line in script.as_str().lines() {
        play_line(alloc, player, line)?;
    }
    Ok(())
}

/// Plays a script with a new client whose node is of this cluster.
pub(crate) fn play_in<P: Player, R: AllocGlobal>(
    rt: &R,
    cluster: &str,
    script: &str,
) -> Result<(), Fail> {
    let mut player = P::new(rt.alloc(), cluster)?;
    play_on(rt.alloc(), &mut player, script)
}

/// Plays a script with a new client whose node is of no cluster.
pub(crate) fn play<P: Player, R: AllocGlobal>(rt: &R, script: &str) -> Result<(), Fail> {
    play_in::<P, R>(rt, "", script)
}
