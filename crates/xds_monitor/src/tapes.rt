// The files that the traces of a server's replicas are recorded in.
ghost use Rattle.std.specs.Prelude.{◌≡◌, ◌++◌, string_bytes, IfOk, OnOk};
ghost use Rattle.xds_monitor.specs.Recordings.{ended_sample, recorded_text, recordings_text, running_sample, running_text, tape_fault_text, tape_line, tape_path};

use crate::recorder::{Recorder, Tape};
use crate::reel::Reel;
use std::alloc::Global;
use std::fs::{File, OpenOptions};
use std::io::ErrorKind;
use std::os::unix::fs::OpenOptionsExt;
use std::rt::Files;
use std::sync::Arc;
use std::{fs, io};
use xds_resource::Refusal;
use xds_stats::metrics::{MetricKind, Metrics};

/// The mode of files that hold what is put, private keys among it: who runs the server may read and write them, and nobody else.
pub const PRIVATE: u32 = 0o600;

/// Why the file of a trace can't be made.
#[derive(Clone, Copy, Debug, PartialEq, Eq)]
pub enum TapeFault {
    /// There is no such folder.
    NoFolder,
    /// Who runs the server may not write there.
    NotAllowed,
    /// A file of this name is there already.
    IsThere,
    /// The system says something else.
    Other,
}

impl TapeFault {
    // The fault of a call that failed with an error of this kind.
    fn of(kind: ErrorKind) -> TapeFault {
        match kind {
            ErrorKind::NotFound | ErrorKind::NotADirectory => TapeFault::NoFolder,
            ErrorKind::PermissionDenied | ErrorKind::ReadOnlyFilesystem => TapeFault::NotAllowed,
            ErrorKind::AlreadyExists => TapeFault::IsThere,
            _ => TapeFault::Other,
        }
    }

    // What is told of it behind the refusal.
    fn text(self) -> &'static str
        ensures { result.now ≡ tape_fault_text self }
    {
        match self {
            TapeFault::NoFolder => ": no such folder",
            TapeFault::NotAllowed => ": not allowed",
            TapeFault::IsThere => ": it is there already",
            TapeFault::Other => "",
        }
    }
}

/// Why traces can't be recorded.
#[derive(Clone, Copy, Debug, PartialEq, Eq)]
pub enum Unrecordable {
    /// The file of this replica can't be made.
    File(u16, TapeFault),
    /// There was no memory.
    Refused(Refusal),
}

// The file of a replica's trace.
fn tape_path(alloc: Global, folder: &str, replica: u16) -> Result<String, Refusal>
    ensures { IfOk result (λ t. string_bytes t ≡ tape_path folder.now replica) }
{
    Ok(format!(in alloc; "{folder}/replica-{replica}.trace")?)
}

/// The line of a file that can't be made.
pub fn tape_line(
    alloc: Global,
    folder: &str,
    replica: u16,
    fault: TapeFault,
) -> Result<String, Refusal>
    ensures { IfOk result (λ t. string_bytes t ≡ tape_line folder.now replica fault) }
{
    let path = tape_path(alloc, folder, replica)?;
    let path = path.as_str();
    let why = fault.text();
    Ok(format!(in alloc; "{path}: 19 Device{why}\n")?)
}

/// What is shown of a replica's recording, as a field of JSON with a comma behind it: that it goes on, or the refusal by which it ended.
pub fn recorded_text(alloc: Global, ended: Option<Refusal>) -> Result<String, Refusal>
    ensures { IfOk result (λ t. string_bytes t ≡ recorded_text ended) }
{
    let Some(refusal) = ended else {
        return Ok(String::from_str(alloc, "\"recording\":\"goes on\",")?);
    };
    let number = refusal.number();
    let name = refusal.name();
    Ok(format!(in alloc; "\"recording\":\"{number} {name}\",")?)
}

// The name of the number of recordings that ended.
const ENDED: &str = "xds_recordings_ended_total";

/// How many recordings ended by a refusal, of each of these replicas, in the text format of Prometheus.
pub fn recordings_text(alloc: Global, ended: &[(u16, bool)]) -> Result<String, Refusal>
    ensures { IfOk result (λ t. string_bytes t ≡ recordings_text ended.now) }
{
    let mut metrics = Metrics::new(alloc);
    metrics.about(
        ENDED,
        "Recordings that ended by a refusal.",
        MetricKind::Counter,
    )?;
    for shown in ended {
        add_recording(alloc, &mut metrics, shown.0, shown.1)?;
    }
    Ok(metrics.finish())
}

// Adds the number of a replica.
fn add_recording(
    alloc: Global,
    metrics: &mut Metrics,
    replica: u16,
    has_ended: bool,
) -> Result<(), Refusal>
    ensures { OnOk result (string_bytes metrics.new.text ≡ string_bytes metrics.old.text ++ ended_sample (replica, has_ended)) }
{
    let labels = format!(in alloc; "replica=\"{replica}\"")?;
    metrics.add(ENDED, labels.as_str(), u64::from(has_ended))
}

// The name of the number of traces that are being recorded.
const RUNNING: &str = "xds_recording";

/// Whether the trace of each of these replicas is being recorded, in the text format of Prometheus.
pub fn running_text(alloc: Global, running: &[(u16, bool)]) -> Result<String, Refusal>
    ensures { IfOk result (λ t. string_bytes t ≡ running_text running.now) }
{
    let mut metrics = Metrics::new(alloc);
    metrics.about(
        RUNNING,
        "Whether the trace of the replica is being recorded.",
        MetricKind::Gauge,
    )?;
    for shown in running {
        add_running(alloc, &mut metrics, shown.0, shown.1)?;
    }
    Ok(metrics.finish())
}

// Adds the number of a replica.
fn add_running(
    alloc: Global,
    metrics: &mut Metrics,
    replica: u16,
    is_running: bool,
) -> Result<(), Refusal>
    ensures { OnOk result (string_bytes metrics.new.text ≡ string_bytes metrics.old.text ++ running_sample (replica, is_running)) }
{
    let labels = format!(in alloc; "replica=\"{replica}\"")?;
    metrics.add(RUNNING, labels.as_str(), u64::from(is_running))
}

/// The tapes of so many replicas, in new files of a folder. Where one can't be made, those before it are taken away again.
pub fn tapes_in<R: Files<File = File>>(
    rt: &R,
    alloc: Global,
    folder: &str,
    replicas: u16,
) -> Result<Vec<Arc<Tape>>, Unrecordable> {
    let mut tapes = Vec::new(alloc);
    for index in 0..replicas {
        let replica = index.saturating_add(1);
        if let Err(fault) = add_tape(rt, alloc, &mut tapes, folder, replica) {
            take_away(rt, alloc, folder, index);
            return Err(fault);
        }
    }
    Ok(tapes)
}

fn add_tape<R: Files<File = File>>(
    rt: &R,
    alloc: Global,
    tapes: &mut Vec<Arc<Tape>>,
    folder: &str,
    replica: u16,
) -> Result<(), Unrecordable> {
    let reel = match new_reel(rt, alloc, folder, replica) {
        Ok(reel) => reel,
        Err(fault) => return Err(fault),
    };
    let Ok(tape) = Arc::new(alloc, Recorder::new(alloc, replica, reel)) else {
        return Err(Unrecordable::Refused(Refusal::OutOfMemory));
    };
    match tapes.push(tape) {
        Ok(()) => Ok(()),
        Err(_) => Err(Unrecordable::Refused(Refusal::OutOfMemory)),
    }
}

fn new_reel<R: Files<File = File>>(
    rt: &R,
    alloc: Global,
    folder: &str,
    replica: u16,
) -> Result<Reel<File>, Unrecordable> {
    if folder.is_empty() {
        return Err(Unrecordable::File(replica, TapeFault::NoFolder));
    }
    let path = match tape_path(alloc, folder, replica) {
        Ok(path) => path,
        Err(refusal) => return Err(Unrecordable::Refused(refusal)),
    };
    match new_file(rt, path.as_str()) {
        Ok(reel) => Ok(reel),
        Err(error) => Err(Unrecordable::File(replica, TapeFault::of(error.kind()))),
    }
}

// A reel of a new file. Where it can't be begun, the file is taken away again.
fn new_file<R: Files<File = File>>(rt: &R, path: &str) -> io::Result<Reel<File>> {
    let file = OpenOptions::new()
        .write(true)
        .create_new(true)
        .mode(PRIVATE)
        .open(rt, path)?;
    let begun = Reel::begun(file);
    if begun.is_err() {
        let _ = fs::remove_file(rt, path);
    }
    begun
}

// Takes away the files of so many replicas.
fn take_away<R: Files<File = File>>(rt: &R, alloc: Global, folder: &str, replicas: u16) {
    for index in 0..replicas {
        if let Ok(path) = tape_path(alloc, folder, index.saturating_add(1)) {
            let _ = fs::remove_file(rt, path.as_str());
        }
    }
}
