// What an operator cares for of a server, a line each.
ghost use Rattle.std.specs.Prelude.{◌≡◌, ◌++◌, codes, string_bytes, IfOk, IfErr};
ghost use Rattle.xds_resource.specs.declared.refusal.Refusal.TheVariants.{OutOfMemory};
ghost use Rattle.xds_stats.specs.Statuses.{quoted};
ghost use Rattle.xds_stats.specs.Logging.{log_line, excerpt, shown_char, message_of, level_of, ended_fields, ended_text, event_line, event_word, fields_of, first_fields, first_text, json_level, json_line, maker_word, number_text, place_fields, place_text, reason_field, rejected_fields, rejected_text, variant_word};

use crate::status_text::quoted;
use log::{Level, Line, Metadata, Record};
use std::alloc::Global;
use xds_resource::{Refusal, Stamp, TypeName};

/// As many characters of a text that a client sent as are shown, at most.
pub const MOST_SHOWN: usize = 256;

/// A stream of a replica, both by their numbers.
#[derive(Clone, Copy, Debug, PartialEq, Eq)]
pub struct StreamPlace {
    pub replica: u16,
    pub stream: u64,
}

/// What the first request of a stream says of its client. Its texts are excerpts.
#[derive(Drop)]
pub struct FirstRequest {
    /// The id of its node.
    pub node: String,
    /// The cluster of its node.
    pub cluster: String,
    /// The URL of the type that it asks for first.
    pub type_url: String,
    /// Whether it is of the incremental variant.
    pub is_delta: bool,
}

/// A response that a client rejected. Its texts are excerpts.
#[derive(Drop)]
pub struct Rejection {
    pub type_url: String,
    pub nonce: String,
    /// What the client says of it.
    pub message: String,
}

/// By whom a change is made.
#[derive(Clone, Copy, Debug, PartialEq, Eq)]
pub enum Maker {
    /// A line of the input.
    Input,
    /// An operator's port.
    Port,
    /// A folder that resources come from.
    Folder,
}

impl Maker {
    fn word(self) -> &'static str
        ensures { result.now ≡ maker_word self }
    {
        match self {
            Maker::Input => "input",
            Maker::Port => "port",
            Maker::Folder => "folder",
        }
    }
}

/// Something that an operator cares for.
#[derive(Drop)]
pub enum LogEvent {
    /// A replica listens: its place among those of the server, its number, its port of streams, and that of REST.
    Listening(u16, u16, u16, u16),
    /// A connection was taken, from this address.
    Connected(StreamPlace, String),
    /// The first request of a stream.
    FirstRequest(StreamPlace, FirstRequest),
    /// A client rejects a response.
    Rejected(StreamPlace, Rejection),
    /// A stream ended, by a refusal or without one.
    Ended(StreamPlace, Option<Refusal>),
    /// A connection was closed at once, since this replica has as many streams as it may.
    TurnedAway(u16),
    /// The journal of a replica couldn't be cut.
    CutFailed(u16, Refusal),
    /// A request asks for a type that isn't known, by this URL.
    UnknownType(StreamPlace, String),
    /// A change is made at a replica, as a write of this stamp.
    Changed(u16, Maker, Stamp),
    /// An operator stops the server.
    Stopping,
    /// The first frame of a stream didn't come within so many seconds.
    Idle(StreamPlace, u16),
    /// The whole response of a type has so many bytes at a replica: half as many as a frame may have, or more.
    Long(u16, TypeName, u64),
}

// What stands for a character: a question mark for one of control, for a quote, and for a backslash.
fn shown_char(c: char) -> char
    ensures { result ≡ shown_char c }
{
    if c < ' ' || c == '"' || c == '\\' || (c >= '\u{7f}' && c <= '\u{9f}') {
        '?'
    } else {
        c
    }
}

/// The beginning of a text that a client sent, as it is shown: at most [`MOST_SHOWN`] characters, with a question mark for each of
/// control, each quote and each backslash. So it is no more than a part of a line.
pub fn excerpt(alloc: Global, text: &str) -> Result<String, Refusal>
    ensures ok { IfOk result (λ t. string_bytes t ≡ excerpt text.now) }
    ensures refused { IfErr result (λ e. e ≡ OutOfMemory) }
{
    let mut shown = String::new(alloc);
    for c in text.chars().take(MOST_SHOWN) {
        shown.push(shown_char(c))?;
    }
    Ok(shown)
}

impl LogEvent {
    // How much it matters.
    fn level(&self) -> Level
        ensures { result ≡ level_of self.now }
    {
        match self {
            LogEvent::Listening(_, _, _, _)
            | LogEvent::Connected(_, _)
            | LogEvent::FirstRequest(_, _)
            | LogEvent::Changed(_, _, _)
            | LogEvent::Stopping
            | LogEvent::Ended(_, None) => Level::Info,
            LogEvent::Rejected(_, _)
            | LogEvent::Ended(_, Some(_))
            | LogEvent::TurnedAway(_)
            | LogEvent::UnknownType(_, _)
            | LogEvent::Idle(_, _)
            | LogEvent::Long(_, _, _)
            | LogEvent::CutFailed(_, _) => Level::Warn,
        }
    }

    // What is told of it.
    fn message(&self, alloc: Global) -> Result<String, Refusal>
        ensures { IfOk result (λ t. string_bytes t ≡ message_of self.now) }
    {
        match self {
            LogEvent::Listening(replica, number, port, rest_port) => {
                listening_text(alloc, *replica, *number, *port, *rest_port)
            }
            LogEvent::Connected(place, peer) => connected_text(alloc, *place, peer.as_str()),
            LogEvent::FirstRequest(place, first) => first_text(alloc, *place, first),
            LogEvent::Rejected(place, rejection) => rejected_text(alloc, *place, rejection),
            LogEvent::Ended(place, refusal) => ended_text(alloc, *place, *refusal),
            LogEvent::TurnedAway(replica) => turned_text(alloc, *replica),
            LogEvent::CutFailed(replica, refusal) => cut_text(alloc, *replica, *refusal),
            LogEvent::UnknownType(place, type_url) => {
                unknown_text(alloc, *place, type_url.as_str())
            }
            LogEvent::Changed(replica, maker, stamp) => {
                changed_text(alloc, *replica, *maker, *stamp)
            }
            LogEvent::Stopping => Ok(String::from_str(alloc, "stopping")?),
            LogEvent::Idle(place, seconds) => idle_text(alloc, *place, *seconds),
            LogEvent::Long(replica, kind, bytes) => {
                long_response_text(alloc, *replica, *kind, *bytes)
            }
        }
    }

    // The event in a word.
    fn word(&self) -> &'static str
        ensures { result.now ≡ event_word self.now }
    {
        match self {
            LogEvent::Listening(_, _, _, _) => "listening",
            LogEvent::Connected(_, _) => "connected",
            LogEvent::FirstRequest(_, _) => "first request",
            LogEvent::Rejected(_, _) => "rejected",
            LogEvent::Ended(_, _) => "ended",
            LogEvent::TurnedAway(_) => "turned away",
            LogEvent::CutFailed(_, _) => "not cut",
            LogEvent::UnknownType(_, _) => "unknown type",
            LogEvent::Changed(_, _, _) => "changed",
            LogEvent::Stopping => "stopping",
            LogEvent::Idle(_, _) => "idle",
            LogEvent::Long(_, _, _) => "long response",
        }
    }

    // What is told of it, as members of an object behind others.
    fn fields(&self, alloc: Global) -> Result<String, Refusal>
        ensures { IfOk result (λ t. string_bytes t ≡ fields_of self.now) }
    {
        match self {
            LogEvent::Listening(replica, number, port, rest_port) => {
                listening_fields(alloc, *replica, *number, *port, *rest_port)
            }
            LogEvent::Connected(place, peer) => connected_fields(alloc, *place, peer.as_str()),
            LogEvent::FirstRequest(place, first) => first_fields(alloc, *place, first),
            LogEvent::Rejected(place, rejection) => rejected_fields(alloc, *place, rejection),
            LogEvent::Ended(place, refusal) => ended_fields(alloc, *place, *refusal),
            LogEvent::TurnedAway(replica) => turned_fields(alloc, *replica),
            LogEvent::CutFailed(replica, refusal) => cut_fields(alloc, *replica, *refusal),
            LogEvent::UnknownType(place, type_url) => {
                unknown_fields(alloc, *place, type_url.as_str())
            }
            LogEvent::Changed(replica, maker, stamp) => {
                changed_fields(alloc, *replica, *maker, *stamp)
            }
            LogEvent::Stopping => Ok(String::new(alloc)),
            LogEvent::Idle(place, seconds) => idle_fields(alloc, *place, *seconds),
            LogEvent::Long(replica, kind, bytes) => long_fields(alloc, *replica, *kind, *bytes),
        }
    }

    /// Its line, at this moment.
    pub fn line(&self, alloc: Global, time: &str) -> Result<String, Refusal>
        ensures { IfOk result (λ t. string_bytes t ≡ event_line time.now self.now) }
    {
        let message = self.message(alloc)?;
        let line = log_line(alloc, self.level(), message.as_str())?;
        let line = line.as_str();
        Ok(format!(in alloc; "{time} {line}")?)
    }

    /// The same as an object of JSON.
    pub fn json(&self, alloc: Global, time: &str) -> Result<String, Refusal>
        ensures { IfOk result (λ t. string_bytes t ≡ json_line time.now self.now) }
    {
        let level = json_level(self.level());
        let word = self.word();
        let fields = self.fields(alloc)?;
        let fields = fields.as_str();
        Ok(format!(in alloc;
            "{{\"time\":\"{time}\",\"level\":\"{level}\",\"event\":\"{word}\"{fields}}}\n"
        )?)
    }
}

// A level in a word.
fn json_level(level: Level) -> &'static str
    ensures { result.now ≡ json_level level }
{
    match level {
        Level::Error => "ERROR",
        Level::Warn => "WARN",
        Level::Info => "INFO",
        Level::Debug => "DEBUG",
        Level::Trace => "TRACE",
    }
}

fn unknown_text(alloc: Global, place: StreamPlace, type_url: &str) -> Result<String, Refusal>
    ensures { IfOk result (λ t. string_bytes t ≡ place_text place ++ (codes "asks for a type that isn't known: \"" ++ (type_url.now ++ codes "\""))) }
{
    let place = place_text(alloc, place)?;
    let place = place.as_str();
    Ok(format!(in alloc; "{place}asks for a type that isn't known: \"{type_url}\"")?)
}

fn idle_text(alloc: Global, place: StreamPlace, seconds: u16) -> Result<String, Refusal>
    ensures { IfOk result (λ t. string_bytes t ≡ message_of (LogEvent.Idle place seconds)) }
{
    let place = place_text(alloc, place)?;
    let place = place.as_str();
    Ok(format!(in alloc; "{place}no first frame within {seconds} s")?)
}

fn idle_fields(alloc: Global, place: StreamPlace, seconds: u16) -> Result<String, Refusal>
    ensures { IfOk result (λ t. string_bytes t ≡ fields_of (LogEvent.Idle place seconds)) }
{
    let place = place_fields(alloc, place)?;
    let place = place.as_str();
    Ok(format!(in alloc; "{place},\"seconds\":{seconds}")?)
}

fn long_response_text(
    alloc: Global,
    replica: u16,
    kind: TypeName,
    bytes: u64,
) -> Result<String, Refusal>
    ensures { IfOk result (λ t. string_bytes t ≡ message_of (LogEvent.Long replica kind bytes)) }
{
    let kind = kind.word();
    Ok(format!(in alloc;
        "replica {replica}: the whole response of {kind} has {bytes} bytes, and a frame has 16777215 at most"
    )?)
}

fn long_fields(alloc: Global, replica: u16, kind: TypeName, bytes: u64) -> Result<String, Refusal>
    ensures { IfOk result (λ t. string_bytes t ≡ fields_of (LogEvent.Long replica kind bytes)) }
{
    let kind = kind.word();
    Ok(format!(in alloc;
        ",\"replica\":{replica},\"type\":\"{kind}\",\"bytes\":{bytes},\"limit\":16777215"
    )?)
}

fn changed_text(alloc: Global, replica: u16, maker: Maker, stamp: Stamp) -> Result<String, Refusal>
    ensures { IfOk result (λ t. string_bytes t ≡ message_of (LogEvent.Changed replica maker stamp)) }
{
    let maker = maker.word();
    let counter = stamp.counter;
    let writer = stamp.writer;
    Ok(format!(in alloc; "replica {replica}: a change by the {maker} is {counter}-{writer}")?)
}

// Which stream of which replica, as members of an object behind others.
fn place_fields(alloc: Global, place: StreamPlace) -> Result<String, Refusal>
    ensures { IfOk result (λ t. string_bytes t ≡ place_fields place) }
{
    let replica = place.replica;
    let stream = place.stream;
    Ok(format!(in alloc; ",\"replica\":{replica},\"stream\":{stream}")?)
}

// A refusal, as a member of an object behind others.
fn reason_field(alloc: Global, refusal: Refusal) -> Result<String, Refusal>
    ensures { IfOk result (λ t. string_bytes t ≡ reason_field refusal) }
{
    let number = refusal.number();
    let name = refusal.name();
    Ok(format!(in alloc; ",\"reason\":\"{number} {name}\"")?)
}

fn listening_fields(
    alloc: Global,
    replica: u16,
    number: u16,
    port: u16,
    rest_port: u16,
) -> Result<String, Refusal>
    ensures { IfOk result (λ t. string_bytes t ≡ fields_of (LogEvent.Listening replica number port rest_port)) }
{
    Ok(format!(in alloc;
        ",\"replica\":{replica},\"number\":{number},\"port\":{port},\"rest_port\":{rest_port}"
    )?)
}

fn connected_fields(alloc: Global, place: StreamPlace, peer: &str) -> Result<String, Refusal>
    ensures { IfOk result (λ t. string_bytes t ≡ place_fields place ++ (codes ",\"peer\":" ++ quoted peer.now)) }
{
    let place = place_fields(alloc, place)?;
    let place = place.as_str();
    let peer = quoted(alloc, peer)?;
    let peer = peer.as_str();
    Ok(format!(in alloc; "{place},\"peer\":{peer}")?)
}

fn first_fields(alloc: Global, place: StreamPlace, first: &FirstRequest) -> Result<String, Refusal>
    ensures { IfOk result (λ t. string_bytes t ≡ first_fields place first.now) }
{
    let place = place_fields(alloc, place)?;
    let place = place.as_str();
    let node = quoted(alloc, first.node.as_str())?;
    let node = node.as_str();
    let cluster = quoted(alloc, first.cluster.as_str())?;
    let cluster = cluster.as_str();
    let variant = variant_word(first.is_delta);
    let type_url = quoted(alloc, first.type_url.as_str())?;
    let type_url = type_url.as_str();
    Ok(format!(in alloc;
        "{place},\"node\":{node},\"cluster\":{cluster},\"variant\":\"{variant}\",\"type\":{type_url}"
    )?)
}

fn rejected_fields(
    alloc: Global,
    place: StreamPlace,
    rejection: &Rejection,
) -> Result<String, Refusal>
    ensures { IfOk result (λ t. string_bytes t ≡ rejected_fields place rejection.now) }
{
    let place = place_fields(alloc, place)?;
    let place = place.as_str();
    let type_url = quoted(alloc, rejection.type_url.as_str())?;
    let type_url = type_url.as_str();
    let nonce = quoted(alloc, rejection.nonce.as_str())?;
    let nonce = nonce.as_str();
    let message = quoted(alloc, rejection.message.as_str())?;
    let message = message.as_str();
    Ok(format!(in alloc; "{place},\"type\":{type_url},\"nonce\":{nonce},\"reason\":{message}")?)
}

fn ended_fields(
    alloc: Global,
    place: StreamPlace,
    refusal: Option<Refusal>,
) -> Result<String, Refusal>
    ensures { IfOk result (λ t. string_bytes t ≡ ended_fields place refusal) }
{
    let mut text = place_fields(alloc, place)?;
    if let Some(refusal) = refusal {
        let reason = reason_field(alloc, refusal)?;
        text.push_str(reason.as_str())?;
    }
    Ok(text)
}

fn turned_fields(alloc: Global, replica: u16) -> Result<String, Refusal>
    ensures { IfOk result (λ t. string_bytes t ≡ fields_of (LogEvent.TurnedAway replica)) }
{
    Ok(format!(in alloc; ",\"replica\":{replica}")?)
}

fn cut_fields(alloc: Global, replica: u16, refusal: Refusal) -> Result<String, Refusal>
    ensures { IfOk result (λ t. string_bytes t ≡ fields_of (LogEvent.CutFailed replica refusal)) }
{
    let reason = reason_field(alloc, refusal)?;
    let reason = reason.as_str();
    Ok(format!(in alloc; ",\"replica\":{replica}{reason}")?)
}

fn unknown_fields(alloc: Global, place: StreamPlace, type_url: &str) -> Result<String, Refusal>
    ensures { IfOk result (λ t. string_bytes t ≡ place_fields place ++ (codes ",\"type\":" ++ quoted type_url.now)) }
{
    let place = place_fields(alloc, place)?;
    let place = place.as_str();
    let type_url = quoted(alloc, type_url)?;
    let type_url = type_url.as_str();
    Ok(format!(in alloc; "{place},\"type\":{type_url}")?)
}

fn changed_fields(
    alloc: Global,
    replica: u16,
    maker: Maker,
    stamp: Stamp,
) -> Result<String, Refusal>
    ensures { IfOk result (λ t. string_bytes t ≡ fields_of (LogEvent.Changed replica maker stamp)) }
{
    let maker = maker.word();
    let counter = stamp.counter;
    let writer = stamp.writer;
    Ok(format!(in alloc;
        ",\"replica\":{replica},\"by\":\"{maker}\",\"version\":\"{counter}-{writer}\""
    )?)
}

// The line of a message, as the crate `log` writes it.
fn log_line(alloc: Global, level: Level, message: &str) -> Result<String, Refusal>
    ensures { IfOk result (λ t. string_bytes t ≡ log_line level message.now) }
{
    let made = Record::new(Metadata::new(level, ""), message, (), ());
    let line = Line::new(&made);
    Ok(format!(in alloc; "{line}\n")?)
}

// rule: new-numbers
/// What is told of a replica's number, where it isn't its place among those of the server.
pub fn number_text(alloc: Global, place: u16, number: u16) -> Result<String, Refusal>
    ensures { IfOk result (λ t. string_bytes t ≡ number_text place number) }
{
    if place == number {
        return Ok(String::new(alloc));
    }
    Ok(format!(in alloc; " (number {number})")?)
}

fn listening_text(
    alloc: Global,
    replica: u16,
    number: u16,
    port: u16,
    rest_port: u16,
) -> Result<String, Refusal>
    ensures { IfOk result (λ t. string_bytes t ≡ message_of (LogEvent.Listening replica number port rest_port)) }
{
    let named = number_text(alloc, replica, number)?;
    let named = named.as_str();
    Ok(format!(in alloc;
        "replica {replica}{named} listens: streams on 127.0.0.1:{port}, REST on 127.0.0.1:{rest_port}"
    )?)
}

// Which stream of which replica.
fn place_text(alloc: Global, place: StreamPlace) -> Result<String, Refusal>
    ensures { IfOk result (λ t. string_bytes t ≡ place_text place) }
{
    let replica = place.replica;
    let stream = place.stream;
    Ok(format!(in alloc; "replica {replica}, stream {stream}: ")?)
}

fn connected_text(alloc: Global, place: StreamPlace, peer: &str) -> Result<String, Refusal>
    ensures { IfOk result (λ t. string_bytes t ≡ place_text place ++ codes "connected from " ++ peer.now) }
{
    let mut text = place_text(alloc, place)?;
    text.push_str("connected from ")?;
    text.push_str(peer)?;
    Ok(text)
}

// The variant in a word.
fn variant_word(is_delta: bool) -> &'static str
    ensures { result.now ≡ variant_word is_delta }
{
    if is_delta { "delta" } else { "sotw" }
}

fn first_text(alloc: Global, place: StreamPlace, first: &FirstRequest) -> Result<String, Refusal>
    ensures { IfOk result (λ t. string_bytes t ≡ first_text place first.now) }
{
    let place = place_text(alloc, place)?;
    let place = place.as_str();
    let variant = variant_word(first.is_delta);
    let node = first.node.as_str();
    let cluster = first.cluster.as_str();
    let type_url = first.type_url.as_str();
    Ok(format!(in alloc;
        "{place}first request, node \"{node}\", cluster \"{cluster}\", {variant}, \"{type_url}\""
    )?)
}

fn rejected_text(
    alloc: Global,
    place: StreamPlace,
    rejection: &Rejection,
) -> Result<String, Refusal>
    ensures { IfOk result (λ t. string_bytes t ≡ rejected_text place rejection.now) }
{
    let place = place_text(alloc, place)?;
    let place = place.as_str();
    let type_url = rejection.type_url.as_str();
    let nonce = rejection.nonce.as_str();
    let message = rejection.message.as_str();
    Ok(format!(in alloc;
        "{place}response \"{nonce}\" of \"{type_url}\" is rejected: \"{message}\""
    )?)
}

fn ended_text(
    alloc: Global,
    place: StreamPlace,
    refusal: Option<Refusal>,
) -> Result<String, Refusal>
    ensures { IfOk result (λ t. string_bytes t ≡ ended_text place refusal) }
{
    let mut text = place_text(alloc, place)?;
    text.push_str("ended")?;
    if let Some(refusal) = refusal {
        let number = refusal.number();
        let name = refusal.name();
        let by = format!(in alloc; " by {number} {name}")?;
        text.push_str(by.as_str())?;
    }
    Ok(text)
}

fn turned_text(alloc: Global, replica: u16) -> Result<String, Refusal>
    ensures { IfOk result (λ t. string_bytes t ≡ message_of (LogEvent.TurnedAway replica)) }
{
    Ok(format!(in alloc;
        "replica {replica}: a connection is closed, there are as many streams as there may be"
    )?)
}

fn cut_text(alloc: Global, replica: u16, refusal: Refusal) -> Result<String, Refusal>
    ensures { IfOk result (λ t. string_bytes t ≡ message_of (LogEvent.CutFailed replica refusal)) }
{
    let number = refusal.number();
    let name = refusal.name();
    Ok(format!(in alloc; "replica {replica}: the journal is not cut: {number} {name}")?)
}
