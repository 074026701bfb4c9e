// What an operator's port shows of a server, in numbers.
ghost use Rattle.std.specs.Prelude.{◌≡◌, ◌++◌, codes, string_bytes, IfOk, OnOk};
ghost use Rattle.xds_stats.specs.Pages.{counted_number, held_number, labelled, lag_line, numbers_text, replica_line, type_line, with_all_lags, with_all_polls, with_all_streams, with_all_waits, with_held, with_journals, with_number, with_numbers_of, with_polls, with_streams, with_types};

use crate::counts::TypeCounts;
use crate::latencies;
use crate::latencies::add_latencies;
use crate::look::{ReplicaSizes, TypeSizes};
use crate::metrics::{MetricKind, Metrics, seconds_text};
use crate::numbers::Numbers;
use std::alloc::Global;
use xds_resource::{Refusal, TypeName};

/// A replica in numbers: what it holds, where that is known, and what was counted of it.
#[derive(Clone, Copy)]
pub struct ReplicaNumbers {
    pub replica: u16,
    pub look: Option<ReplicaSizes>,
    pub numbers: Numbers,
}

/// A number of each type.
#[derive(Clone, Copy)]
pub enum OfType {
    Changes,
    Resources,
    Tombstones,
    Bytes,
    Responses,
    Acks,
    Nacks,
}

impl OfType {
    ghost use Rattle.std.specs.Prelude.{◌≡◌};
    ghost use Rattle.xds_stats.specs.Pages.{type_help, type_kind, type_name};

    // The name that it stands under.
    fn name(self) -> &'static str
        ensures { result.now ≡ type_name self }
    {
        match self {
            OfType::Changes => "xds_changes_total",
            OfType::Resources => "xds_resources",
            OfType::Tombstones => "xds_tombstones",
            OfType::Bytes => "xds_response_bytes",
            OfType::Responses => "xds_responses_total",
            OfType::Acks => "xds_acks_total",
            OfType::Nacks => "xds_nacks_total",
        }
    }

    // What it is.
    fn help(self) -> &'static str
        ensures { result.now ≡ type_help self }
    {
        match self {
            OfType::Changes => "Changes of what the replica holds, by its own writes and others'.",
            OfType::Resources => "Live resources.",
            OfType::Tombstones => "Deletions that are remembered.",
            OfType::Bytes => {
                "Bytes of the whole response for *, as a stream would be told it first; 16777215 at most."
            }
            OfType::Responses => "Responses that streams were told.",
            OfType::Acks => "Responses that streams accepted.",
            OfType::Nacks => "Responses that streams rejected.",
        }
    }

    fn kind(self) -> MetricKind
        ensures { result ≡ type_kind self }
    {
        match self {
            OfType::Resources | OfType::Tombstones | OfType::Bytes => MetricKind::Gauge,
            OfType::Changes | OfType::Responses | OfType::Acks | OfType::Nacks =>
                MetricKind::Counter,
        }
    }
}

// What is held of a type, if the number is of that.
fn held_number(of: OfType, held: TypeSizes) -> Option<u64>
    ensures { result ≡ held_number of held }
{
    match of {
        OfType::Changes => Some(held.changes),
        OfType::Resources => Some(held.resources),
        OfType::Tombstones => Some(held.tombstones),
        OfType::Bytes => Some(held.bytes),
        OfType::Responses | OfType::Acks | OfType::Nacks => None,
    }
}

// What was counted of a type, if the number is of that.
fn counted_number(of: OfType, counts: TypeCounts) -> Option<u64>
    ensures { result ≡ counted_number of counts }
{
    match of {
        OfType::Responses => Some(counts.responses),
        OfType::Acks => Some(counts.acks),
        OfType::Nacks => Some(counts.nacks),
        OfType::Changes | OfType::Resources | OfType::Tombstones | OfType::Bytes => None,
    }
}

impl ReplicaNumbers {
    ghost use Rattle.std.specs.Prelude.{◌≡◌};
    ghost use Rattle.xds_stats.specs.Pages.{replica_number, type_number};

    // A number of a type; none where it isn't known.
    fn of_type(&self, of: OfType, kind: TypeName) -> Option<u64>
        ensures { result ≡ type_number self.now of kind }
    {
        if let Some(value) = counted_number(of, self.numbers.types.of(kind)) {
            return Some(value);
        }
        match &self.look {
            Some(look) => held_number(of, look.of(kind)),
            None => None,
        }
    }

    // A number of the replica; none where there is none.
    fn of_replica(&self, of: OfReplica) -> Option<u64>
        ensures { result ≡ replica_number self.now of }
    {
        let numbers = self.numbers;
        let journal = numbers.journal;
        match of {
            OfReplica::Opened => Some(numbers.doors.opened),
            OfReplica::TurnedAway => Some(numbers.doors.turned_away),
            OfReplica::Records => Some(journal.records),
            OfReplica::Cuts => Some(journal.cuts),
            OfReplica::FailedCuts => Some(journal.failed_cuts),
            OfReplica::Parts => Some(journal.parts),
            OfReplica::LostParts => Some(journal.lost_parts),
            OfReplica::Refused => Some(numbers.refused),
        }
    }
}

// Adds a number of a type at a replica, if it is known.
fn add_type(
    alloc: Global,
    metrics: &mut Metrics,
    of: OfType,
    shown: &ReplicaNumbers,
    kind: TypeName,
) -> Result<(), Refusal>
    ensures { OnOk result (string_bytes metrics.new.text ≡ string_bytes metrics.old.text ++ type_line of shown.now kind) }
{
    let Some(value) = shown.of_type(of, kind) else {
        return Ok(());
    };
    add_labelled(
        alloc,
        metrics,
        of.name(),
        shown.replica,
        "type",
        kind.word(),
        value,
    )
}

// Adds a number of each type at a replica.
fn add_types_of(
    alloc: Global,
    metrics: &mut Metrics,
    of: OfType,
    shown: &ReplicaNumbers,
) -> Result<(), Refusal>
    ensures { OnOk result (string_bytes metrics.new.text ≡ with_types of (string_bytes metrics.old.text) shown.now) }
{
    add_type(alloc, metrics, of, shown, TypeName::Cluster)?;
    add_type(alloc, metrics, of, shown, TypeName::Endpoint)?;
    add_type(alloc, metrics, of, shown, TypeName::Listener)?;
    add_type(alloc, metrics, of, shown, TypeName::Route)?;
    add_type(alloc, metrics, of, shown, TypeName::Secret)
}

fn add_types(
    alloc: Global,
    metrics: &mut Metrics,
    of: OfType,
    replicas: &[ReplicaNumbers],
) -> Result<(), Refusal>
    ensures { OnOk result (string_bytes metrics.new.text ≡ with_numbers_of of (string_bytes metrics.old.text) replicas.now) }
{
    metrics.about(of.name(), of.help(), of.kind())?;
    for shown in replicas {
        add_types_of(alloc, metrics, of, shown)?;
    }
    Ok(())
}

/// A number of each replica.
#[derive(Clone, Copy)]
pub enum OfReplica {
    Opened,
    TurnedAway,
    Records,
    Cuts,
    FailedCuts,
    Parts,
    LostParts,
    Refused,
}

impl OfReplica {
    ghost use Rattle.std.specs.Prelude.{◌≡◌};
    ghost use Rattle.xds_stats.specs.Pages.{replica_help, replica_kind, replica_name};

    // The name that it stands under.
    fn name(self) -> &'static str
        ensures { result.now ≡ replica_name self }
    {
        match self {
            OfReplica::Opened => "xds_streams_opened_total",
            OfReplica::TurnedAway => "xds_streams_turned_away_total",
            OfReplica::Records => "xds_records_total",
            OfReplica::Cuts => "xds_cuts_total",
            OfReplica::FailedCuts => "xds_cuts_failed_total",
            OfReplica::Parts => "xds_exchange_parts_total",
            OfReplica::LostParts => "xds_exchange_lost_total",
            OfReplica::Refused => "xds_changes_refused_total",
        }
    }

    // What it is.
    fn help(self) -> &'static str
        ensures { result.now ≡ replica_help self }
    {
        match self {
            OfReplica::Opened => "Connections that were served as streams.",
            OfReplica::TurnedAway =>
                "Connections that were closed since there were as many streams as there may be.",
            OfReplica::Records => "Records of the journal.",
            OfReplica::Cuts => "Cuts of the journal.",
            OfReplica::FailedCuts => "Cuts of the journal that failed.",
            OfReplica::Parts => "Parts that other replicas told and that were merged.",
            OfReplica::LostParts => "Parts that other replicas told and that left no record.",
            OfReplica::Refused => "Changes that the replica refused.",
        }
    }

    fn kind(self) -> MetricKind
        ensures { result ≡ replica_kind self }
    {
        match self {
            OfReplica::Opened
            | OfReplica::TurnedAway
            | OfReplica::Records
            | OfReplica::Cuts
            | OfReplica::FailedCuts
            | OfReplica::Parts
            | OfReplica::LostParts
            | OfReplica::Refused => MetricKind::Counter,
        }
    }
}

// Adds a number of a replica, if there is one.
fn add_replica(
    alloc: Global,
    metrics: &mut Metrics,
    of: OfReplica,
    shown: &ReplicaNumbers,
) -> Result<(), Refusal>
    ensures { OnOk result (string_bytes metrics.new.text ≡ string_bytes metrics.old.text ++ replica_line of shown.now) }
{
    let Some(value) = shown.of_replica(of) else {
        return Ok(());
    };
    let replica = shown.replica;
    let labels = format!(in alloc; "replica=\"{replica}\"")?;
    metrics.add(of.name(), labels.as_str(), value)
}

fn add_replicas(
    alloc: Global,
    metrics: &mut Metrics,
    of: OfReplica,
    replicas: &[ReplicaNumbers],
) -> Result<(), Refusal>
    ensures { OnOk result (string_bytes metrics.new.text ≡ with_number of (string_bytes metrics.old.text) replicas.now) }
{
    metrics.about(of.name(), of.help(), of.kind())?;
    for shown in replicas {
        add_replica(alloc, metrics, of, shown)?;
    }
    Ok(())
}

// Adds a number of a replica with a label more.
fn add_labelled(
    alloc: Global,
    metrics: &mut Metrics,
    name: &str,
    replica: u16,
    label: &str,
    word: &str,
    value: u64,
) -> Result<(), Refusal>
    ensures { OnOk result (string_bytes metrics.new.text ≡ string_bytes metrics.old.text ++ labelled name.now replica label.now word.now value) }
{
    let labels = format!(in alloc; "replica=\"{replica}\",{label}=\"{word}\"")?;
    metrics.add(name, labels.as_str(), value)
}

// Adds the open streams of a variant at a replica.
fn add_variant(
    alloc: Global,
    metrics: &mut Metrics,
    replica: u16,
    word: &str,
    value: u64,
) -> Result<(), Refusal>
    ensures { OnOk result (string_bytes metrics.new.text ≡ string_bytes metrics.old.text ++ labelled (codes "xds_streams") replica (codes "variant") word.now value) }
{
    add_labelled(
        alloc,
        metrics,
        "xds_streams",
        replica,
        "variant",
        word,
        value,
    )
}

// Adds the open streams of a replica.
fn add_streams_of(
    alloc: Global,
    metrics: &mut Metrics,
    shown: &ReplicaNumbers,
) -> Result<(), Refusal>
    ensures { OnOk result (string_bytes metrics.new.text ≡ with_streams (string_bytes metrics.old.text) shown.now) }
{
    let streams = shown.numbers.streams;
    add_variant(alloc, metrics, shown.replica, "sotw", streams.sotw)?;
    add_variant(alloc, metrics, shown.replica, "delta", streams.delta)?;
    add_variant(alloc, metrics, shown.replica, "none", streams.silent)
}

fn add_streams(
    alloc: Global,
    metrics: &mut Metrics,
    replicas: &[ReplicaNumbers],
) -> Result<(), Refusal>
    ensures { OnOk result (string_bytes metrics.new.text ≡ with_all_streams (string_bytes metrics.old.text) replicas.now) }
{
    metrics.about(
        "xds_streams",
        "Open streams, by the variant of the first request.",
        MetricKind::Gauge,
    )?;
    for shown in replicas {
        add_streams_of(alloc, metrics, shown)?;
    }
    Ok(())
}

// Adds the replies to polls over HTTP with a status.
fn add_status(
    alloc: Global,
    metrics: &mut Metrics,
    replica: u16,
    word: &str,
    value: u64,
) -> Result<(), Refusal>
    ensures { OnOk result (string_bytes metrics.new.text ≡ string_bytes metrics.old.text ++ labelled (codes "xds_rest_replies_total") replica (codes "status") word.now value) }
{
    add_labelled(
        alloc,
        metrics,
        "xds_rest_replies_total",
        replica,
        "status",
        word,
        value,
    )
}

// Adds the replies to polls over HTTP of a replica.
fn add_polls_of(alloc: Global, metrics: &mut Metrics, shown: &ReplicaNumbers) -> Result<(), Refusal>
    ensures { OnOk result (string_bytes metrics.new.text ≡ with_polls (string_bytes metrics.old.text) shown.now) }
{
    let rest = shown.numbers.rest;
    add_status(alloc, metrics, shown.replica, "200", rest.ok)?;
    add_status(alloc, metrics, shown.replica, "304", rest.unchanged)?;
    add_status(alloc, metrics, shown.replica, "400", rest.bad)?;
    add_status(alloc, metrics, shown.replica, "503", rest.unavailable)?;
    add_status(alloc, metrics, shown.replica, "other", rest.other)
}

fn add_polls(
    alloc: Global,
    metrics: &mut Metrics,
    replicas: &[ReplicaNumbers],
) -> Result<(), Refusal>
    ensures { OnOk result (string_bytes metrics.new.text ≡ with_all_polls (string_bytes metrics.old.text) replicas.now) }
{
    metrics.about(
        "xds_rest_replies_total",
        "Replies to polls over HTTP, by their status.",
        MetricKind::Counter,
    )?;
    for shown in replicas {
        add_polls_of(alloc, metrics, shown)?;
    }
    Ok(())
}

fn add_held(alloc: Global, metrics: &mut Metrics, shown: &[ReplicaNumbers]) -> Result<(), Refusal>
    ensures { OnOk result (string_bytes metrics.new.text ≡ with_held (string_bytes metrics.old.text) shown.now) }
{
    add_types(alloc, metrics, OfType::Changes, shown)?;
    add_types(alloc, metrics, OfType::Resources, shown)?;
    add_types(alloc, metrics, OfType::Tombstones, shown)?;
    add_types(alloc, metrics, OfType::Bytes, shown)?;
    add_types(alloc, metrics, OfType::Responses, shown)?;
    add_types(alloc, metrics, OfType::Acks, shown)?;
    add_types(alloc, metrics, OfType::Nacks, shown)
}

fn add_journal(
    alloc: Global,
    metrics: &mut Metrics,
    shown: &[ReplicaNumbers],
) -> Result<(), Refusal>
    ensures { OnOk result (string_bytes metrics.new.text ≡ with_journals (string_bytes metrics.old.text) shown.now) }
{
    add_replicas(alloc, metrics, OfReplica::Records, shown)?;
    add_replicas(alloc, metrics, OfReplica::Cuts, shown)?;
    add_replicas(alloc, metrics, OfReplica::FailedCuts, shown)?;
    add_replicas(alloc, metrics, OfReplica::Parts, shown)?;
    add_replicas(alloc, metrics, OfReplica::LostParts, shown)?;
    add_replicas(alloc, metrics, OfReplica::Refused, shown)
}

// The name of the time from the last change to the last response.
const LAG: &str = "xds_put_to_last_response_seconds";

// Adds how long after its last change a replica told a response, if it did.
fn add_lag(alloc: Global, metrics: &mut Metrics, shown: &ReplicaNumbers) -> Result<(), Refusal>
    ensures { OnOk result (string_bytes metrics.new.text ≡ string_bytes metrics.old.text ++ lag_line shown.now) }
{
    let Some(micros) = shown.numbers.lag else {
        return Ok(());
    };
    let replica = shown.replica;
    let labels = format!(in alloc; "replica=\"{replica}\"")?;
    let seconds = seconds_text(alloc, micros)?;
    metrics.add_text(LAG, labels.as_str(), seconds.as_str())
}

fn add_lags(
    alloc: Global,
    metrics: &mut Metrics,
    replicas: &[ReplicaNumbers],
) -> Result<(), Refusal>
    ensures { OnOk result (string_bytes metrics.new.text ≡ with_all_lags (string_bytes metrics.old.text) replicas.now) }
{
    metrics.about(
        LAG,
        "Time from the last change made at the replica to the last response there.",
        MetricKind::Gauge,
    )?;
    for shown in replicas {
        add_lag(alloc, metrics, shown)?;
    }
    Ok(())
}

// Adds how long puts took until streams accepted them.
fn add_waits(
    alloc: Global,
    metrics: &mut Metrics,
    replicas: &[ReplicaNumbers],
) -> Result<(), Refusal>
    ensures { OnOk result (string_bytes metrics.new.text ≡ with_all_waits (string_bytes metrics.old.text) replicas.now) }
{
    metrics.about(
        "xds_put_to_accept_seconds",
        latencies::HELP,
        MetricKind::Histogram,
    )?;
    for shown in replicas {
        add_latencies(alloc, metrics, shown.replica, shown.numbers.accepts)?;
    }
    Ok(())
}

/// All numbers of these replicas, in the text format of Prometheus.
pub fn numbers_text(alloc: Global, replicas: &[ReplicaNumbers]) -> Result<String, Refusal>
    ensures { IfOk result (λ t. string_bytes t ≡ numbers_text replicas.now) }
{
    let mut metrics = Metrics::new(alloc);
    add_held(alloc, &mut metrics, replicas)?;
    add_streams(alloc, &mut metrics, replicas)?;
    add_replicas(alloc, &mut metrics, OfReplica::Opened, replicas)?;
    add_replicas(alloc, &mut metrics, OfReplica::TurnedAway, replicas)?;
    add_journal(alloc, &mut metrics, replicas)?;
    add_lags(alloc, &mut metrics, replicas)?;
    add_waits(alloc, &mut metrics, replicas)?;
    add_polls(alloc, &mut metrics, replicas)?;
    Ok(metrics.finish())
}
