// What the server takes of its machine, and which program it is, in numbers.
ghost use Rattle.std.specs.Prelude.{◌≡◌, string_bytes, IfOk};
ghost use Rattle.xds_machine.specs.Meters.{build_text, process_text, usage_text, used_text};

use std::alloc::Global;
use std::fs::File;
use std::io::{Read, Seek, SeekFrom};
use std::rt::Files;
use std::str;
use xds_resource::Refusal;
use xds_stats::{MetricKind, Metrics, seconds_text};

// Where Linux tells what this process takes.
const STATUS: &str = "/proc/self/stat";

// As many bytes of that as are looked at.
const MOST_STATUS: usize = 1_024;

// As many microseconds as one of its ticks has, and as many bytes as one of its pages.
const TICK: u64 = 10_000;

const PAGE: u64 = 4_096;

/// What a process takes.
#[derive(Clone, Copy, Debug, PartialEq, Eq)]
pub struct Usage {
    /// Of the processors, in microseconds.
    pub cpu_micros: u64,
    /// Of the memory, in bytes: what is in use, and what is only spoken for.
    pub resident: u64,
    pub virtual_bytes: u64,
    /// Its threads.
    pub threads: u64,
}

/// What tells what this process takes, and since when it runs.
pub struct Meter {
    status: Option<File>,
    // The seconds since the beginning of 1970.
    started: u64,
}

// Written out: docs/PROVING.md, "Drops".
impl Drop for Meter {
    fn drop(self) {
        let Meter {
            status: _,
            started: _,
        } = self;
    }
}

impl Meter {
    /// That of this process, which began at this moment of the wall clock, in milliseconds.
    pub fn new<R: Files<File = File>>(rt: &R, millis: u64) -> Meter {
        Meter {
            status: File::open(rt, STATUS).ok(),
            started: millis / 1_000,
        }
    }

    /// Its numbers, in the text format of Prometheus, as far as they are known.
    pub fn text(&self, alloc: Global) -> Result<String, Refusal> {
        process_text(alloc, self.started, self.usage())
    }

    // What the process takes, if that is told.
    fn usage(&self) -> Option<Usage> {
        let mut file = self.status.as_ref()?;
        file.seek(SeekFrom::Start(0)).ok()?;
        let mut bytes = [0; MOST_STATUS];
        let count = file.read(&mut bytes).ok()?;
        usage_in(str::from_utf8(bytes.get(..count)?).ok()?)
    }
}

/// What is told of a process in `/proc/self/stat`: behind its name, which ends with the last parenthesis, words that one space keeps
/// apart. The 12th and the 13th of these are its ticks, the 18th its threads, the 21st its bytes, and the 22nd its pages.
pub fn usage_in(text: &str) -> Option<Usage> {
    let (_, behind) = text.rsplit_once(") ")?;
    let ticks = number_at(behind, 11)?.saturating_add(number_at(behind, 12)?);
    Some(Usage {
        cpu_micros: ticks.saturating_mul(TICK),
        threads: number_at(behind, 17)?,
        virtual_bytes: number_at(behind, 20)?,
        resident: number_at(behind, 21)?.saturating_mul(PAGE),
    })
}

// A word of a text, if it is a number.
fn number_at(text: &str, place: usize) -> Option<u64> {
    text.split(' ').nth(place)?.parse().ok()
}

/// The numbers of a process that began so many seconds after the beginning of 1970, in the text format of Prometheus.
pub fn process_text(alloc: Global, started: u64, usage: Option<Usage>) -> Result<String, Refusal>
    ensures { IfOk result (λ t. string_bytes t ≡ process_text started usage) }
{
    let used = used_text(alloc, usage)?;
    let used = used.as_str();
    Ok(format!(in alloc;
        "# HELP process_start_time_seconds When the process began, in seconds since 1970 in UTC.\n# TYPE process_start_time_seconds gauge\nprocess_start_time_seconds {started}\n{used}"
    )?)
}

// The numbers of what it takes, if that is known.
fn used_text(alloc: Global, usage: Option<Usage>) -> Result<String, Refusal>
    ensures { IfOk result (λ t. string_bytes t ≡ used_text usage) }
{
    match usage {
        Some(usage) => usage_text(alloc, usage),
        None => Ok(String::new(alloc)),
    }
}

// The numbers of what it takes.
fn usage_text(alloc: Global, usage: Usage) -> Result<String, Refusal>
    ensures { IfOk result (λ t. string_bytes t ≡ usage_text usage) }
{
    let cpu = seconds_text(alloc, usage.cpu_micros)?;
    let cpu = cpu.as_str();
    let resident = usage.resident;
    let bytes = usage.virtual_bytes;
    let threads = usage.threads;
    Ok(format!(in alloc;
        "# HELP process_cpu_seconds_total Time that the process took of the processors.\n# TYPE process_cpu_seconds_total counter\nprocess_cpu_seconds_total {cpu}\n# HELP process_resident_memory_bytes Memory that the process has in use.\n# TYPE process_resident_memory_bytes gauge\nprocess_resident_memory_bytes {resident}\n# HELP process_virtual_memory_bytes Memory that the process has spoken for.\n# TYPE process_virtual_memory_bytes gauge\nprocess_virtual_memory_bytes {bytes}\n# HELP process_threads Threads of the process.\n# TYPE process_threads gauge\nprocess_threads {threads}\n"
    )?)
}

/// Which program it is, in the text format of Prometheus.
pub fn build_text(alloc: Global, version: &str) -> Result<String, Refusal>
    ensures { IfOk result (λ t. string_bytes t ≡ build_text version.now) }
{
    let mut metrics = Metrics::new(alloc);
    metrics.about(
        "xds_build_info",
        "The program's version.",
        MetricKind::Gauge,
    )?;
    let labels = format!(in alloc; "version=\"{version}\"")?;
    metrics.add("xds_build_info", labels.as_str(), 1)?;
    Ok(metrics.finish())
}
