// How long puts take until streams accept them.
ghost use Rattle.std.specs.Prelude.{◌≡◌, ◌++◌, string_bytes, OnOk};
ghost use Rattle.xds_stats.specs.Latencies.{bucket_line, put_behind, with_all, with_latencies, with_long, with_short, within};

use crate::metrics::{Metrics, seconds_text};
use crate::numbers::more;
use std::alloc::Global;
use std::time::Instant;
use xds_resource::Refusal;

/// How many puts took at most so long, each count among those that follow it; how many there were, and how many microseconds they took
/// together.
#[derive(Clone, Copy, Debug, PartialEq, Eq)]
pub struct Latencies {
    pub ms_1: u64,
    pub ms_5: u64,
    pub ms_25: u64,
    pub ms_100: u64,
    pub ms_500: u64,
    pub s_2: u64,
    pub s_10: u64,
    pub s_60: u64,
    pub count: u64,
    pub micros: u64,
}

// How many took at most so long, once one more took so many microseconds.
fn within(most: u64, micros: u64, count: u64) -> u64
    ensures { result ≡ within most micros count }
{
    if micros <= most { more(count) } else { count }
}

impl Latencies {
    ghost use Rattle.std.specs.Prelude.{◌≡◌};
    ghost use Rattle.xds_stats.specs.Latencies.{no_latencies, observed};

    /// There was none.
    pub fn new() -> Latencies
        ensures { result ≡ no_latencies }
    {
        Latencies {
            ms_1: 0,
            ms_5: 0,
            ms_25: 0,
            ms_100: 0,
            ms_500: 0,
            s_2: 0,
            s_10: 0,
            s_60: 0,
            count: 0,
            micros: 0,
        }
    }

    /// One more took so many microseconds.
    pub fn observed(self, micros: u64) -> Latencies
        ensures { result ≡ observed self micros }
    {
        Latencies {
            ms_1: within(1_000, micros, self.ms_1),
            ms_5: within(5_000, micros, self.ms_5),
            ms_25: within(25_000, micros, self.ms_25),
            ms_100: within(100_000, micros, self.ms_100),
            ms_500: within(500_000, micros, self.ms_500),
            s_2: within(2_000_000, micros, self.s_2),
            s_10: within(10_000_000, micros, self.s_10),
            s_60: within(60_000_000, micros, self.s_60),
            count: more(self.count),
            micros: self.micros.saturating_add(micros),
        }
    }
}

/// When the last put was made, where it is one of more than a stream knows of.
pub(crate) fn put_behind(known: u64, made: u64, at: Option<Instant>) -> Option<Instant>
    ensures { result ≡ put_behind known made at }
{
    if known < made { at } else { None }
}

/// How many microseconds lie between two moments, where both are known.
pub(crate) fn micros_between(from: Option<Instant>, to: Option<Instant>) -> Option<u64> {
    let (Some(from), Some(to)) = (from, to) else {
        return None;
    };
    let time = to.saturating_duration_since(from);
    Some(u64::try_from(time.as_micros()).unwrap_or(u64::MAX))
}

/// What the numbers are.
pub(crate) const HELP: &str =
    "Time from the last put at the replica that a response tells first until its stream accepted it.";

/// Adds the lines of a replica.
pub(crate) fn add_latencies(
    alloc: Global,
    metrics: &mut Metrics,
    replica: u16,
    latencies: Latencies,
) -> Result<(), Refusal>
    ensures { OnOk result (string_bytes metrics.new.text ≡ with_latencies (string_bytes metrics.old.text) replica latencies) }
{
    add_short(alloc, metrics, replica, latencies)?;
    add_long(alloc, metrics, replica, latencies)?;
    add_all(alloc, metrics, replica, latencies)
}

fn add_short(
    alloc: Global,
    metrics: &mut Metrics,
    replica: u16,
    latencies: Latencies,
) -> Result<(), Refusal>
    ensures { OnOk result (string_bytes metrics.new.text ≡ with_short (string_bytes metrics.old.text) replica latencies) }
{
    add_bucket(alloc, metrics, replica, "0.001", latencies.ms_1)?;
    add_bucket(alloc, metrics, replica, "0.005", latencies.ms_5)?;
    add_bucket(alloc, metrics, replica, "0.025", latencies.ms_25)?;
    add_bucket(alloc, metrics, replica, "0.1", latencies.ms_100)
}

fn add_long(
    alloc: Global,
    metrics: &mut Metrics,
    replica: u16,
    latencies: Latencies,
) -> Result<(), Refusal>
    ensures { OnOk result (string_bytes metrics.new.text ≡ with_long (string_bytes metrics.old.text) replica latencies) }
{
    add_bucket(alloc, metrics, replica, "0.5", latencies.ms_500)?;
    add_bucket(alloc, metrics, replica, "2", latencies.s_2)?;
    add_bucket(alloc, metrics, replica, "10", latencies.s_10)?;
    add_bucket(alloc, metrics, replica, "60", latencies.s_60)
}

fn add_all(
    alloc: Global,
    metrics: &mut Metrics,
    replica: u16,
    latencies: Latencies,
) -> Result<(), Refusal>
    ensures { OnOk result (string_bytes metrics.new.text ≡ with_all (string_bytes metrics.old.text) replica latencies) }
{
    add_bucket(alloc, metrics, replica, "+Inf", latencies.count)?;
    let labels = format!(in alloc; "replica=\"{replica}\"")?;
    let sum = seconds_text(alloc, latencies.micros)?;
    metrics.add_text(
        "xds_put_to_accept_seconds_sum",
        labels.as_str(),
        sum.as_str(),
    )?;
    metrics.add(
        "xds_put_to_accept_seconds_count",
        labels.as_str(),
        latencies.count,
    )
}

// Adds how many took at most so long.
fn add_bucket(
    alloc: Global,
    metrics: &mut Metrics,
    replica: u16,
    most: &str,
    count: u64,
) -> Result<(), Refusal>
    ensures { OnOk result (string_bytes metrics.new.text ≡ string_bytes metrics.old.text ++ bucket_line replica most.now count) }
{
    let labels = format!(in alloc; "replica=\"{replica}\",le=\"{most}\"")?;
    metrics.add("xds_put_to_accept_seconds_bucket", labels.as_str(), count)
}
