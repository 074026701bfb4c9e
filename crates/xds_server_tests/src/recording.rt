// Recordings of what a replica does, and the files that they leave.
ghost use Rattle.std.specs.Prelude.{◌≡◌};

use std::alloc::{AllocGlobal, Global};
use std::fs::File;
use std::io::Write;
use std::marker::Brand;
use std::sync::Wait;
use std::test::Fail;
use std::time::{SystemTime, UNIX_EPOCH};
use std::{fs, io};
use xds_core::Event;
use xds_monitor::{Piece, Recording, Reel, Seals};
use xds_node::{Host, JournalLine, NodeName, Opened, Seat, Segment, SharedNode};
use xds_resource::{AnyResource, Groups, Refusal};

// A new folder.
fn new_folder(rt: &HostRuntime) -> Result<String, Fail> {
    let now = SystemTime::now(rt)?.duration_since(UNIX_EPOCH)?.as_nanos();
    let folder = format!(in rt.alloc(); "/tmp/xds-recording-{now}")?;
    fs::create_dir(rt, folder.as_str())?;
    Ok(folder)
}

// What came of a test, once its folder is taken away.
fn cleared(rt: &HostRuntime, folder: &str, came: Result<(), Fail>) -> Result<(), Fail> {
    let _ = fs::remove_dir_all(rt, folder);
    came
}

// That a file holds this.
fn has(rt: &HostRuntime, path: &str, wanted: &str) -> Result<(), Fail> {
    let text = fs::read_to_string(rt, path)?;
    if text.as_str() == wanted {
        return Ok(());
    }
    let text = text.as_str();
    Err(Fail::new(format_args!("{text} and not {wanted}")))
}

// A file on its way to a trace of these texts, and what it has until it is sealed.
fn is_sealed(
    rt: &HostRuntime,
    path: &str,
    one: &str,
    other: &str,
    unsealed: &str,
) -> Result<(), Fail> {
    let mut reel = Reel::begun(File::create(rt, path)?)?;
    has(rt, path, "?")?;
    reel.write_all(one.as_bytes())?;
    reel.write_all(other.as_bytes())?;
    has(rt, path, unsealed)?;
    reel.seal()?;
    let whole = format!(in rt.alloc(); "{one}{other}")?;
    has(rt, path, whole.as_str())
}

#[test]
fn a_file_passes_for_no_trace_until_it_is_sealed(rt: HostRuntime) -> Result<(), Fail> {
    let folder = new_folder(&rt)?;
    let path = format!(in rt.alloc(); "{folder}/a")?;
    let path = path.as_str();
    let sealed = match is_sealed(&rt, path, "open 1\n", "close 1\n", "?pen 1\nclose 1\n") {
        Ok(()) => is_sealed(&rt, path, "", "", "?"),
        Err(fail) => Err(fail),
    };
    cleared(&rt, folder.as_str(), sealed)
}

// A tape on which so many bytes find room.
#[derive(Drop)]
struct Short {
    left: usize,
    taken: Vec<u8>,
}

impl Write for Short {
    ghost use Rattle.std.specs.Prelude.{None};

    ghost contents = { λ s. None };

    fn write(&mut self, buf: &[u8]) -> io::Result<usize> {
        let count = buf.len().min(self.left);
        if count == 0 && !buf.is_empty() {
            return Err(io::Error::from(io::ErrorKind::StorageFull));
        }
        if self.taken.extend_from_slice(&buf[..count]).is_err() {
            return Err(io::Error::from(io::ErrorKind::OutOfMemory));
        }
        self.left -= count;
        Ok(count)
    }

    fn flush(&mut self) -> io::Result<()> {
        Ok(())
    }
}

impl Seals for Short {
    fn seal(&mut self) -> io::Result<()> {
        self.write_all(b"sealed")
    }
}

// How a recording ends of these segments but for some, on a tape on which so many bytes find room;
// and how many it has.
fn end_of<N: NodeName>(
    alloc: Global,
    segments: &[Segment<N>],
    left_out: Option<usize>,
    room: usize,
) -> Result<String, Refusal> {
    let mut recording = Recording::new(Short {
        left: room,
        taken: Vec::new(alloc),
    });
    for (index, segment) in segments.iter().enumerate() {
        if left_out != Some(index) {
            let _ = recording.take(alloc, segment);
        }
    }
    drop(recording.finish(Ok(())));
    let end = match recording.end() {
        Some(Err(refusal)) => refusal.name(),
        _ => "whole",
    };
    let taken = recording.writer().taken.len();
    Ok(format!(in alloc; "{end} {taken}")?)
}

// What becomes of recordings of three segments, each of one put.
fn ends_of<N: NodeName, R: Wait>(
    rt: &R,
    alloc: Global,
    opened: Opened<JournalLine>,
) -> Result<String, Refusal>
    requires name { opened ≡ N.id }
    requires own { 1 ≡ N.replica }
{
    let node = SharedNode::<N>::new(alloc, opened, 1)?;
    let mut seat = node.seat(rt)?;
    ends_by(rt, alloc, &node, &mut seat)
}

// The same, by a seat of the node.
fn ends_by<N: NodeName, R: Wait>(
    rt: &R,
    alloc: Global,
    node: &SharedNode<N>,
    seat: &mut Seat<N>,
) -> Result<String, Refusal> {
    let mut segments = Vec::new(alloc);
    for _ in 0..3 {
        segments.push(cut_of_a_put(rt, alloc, node, seat)?)?;
    }
    told_ends(alloc, segments.as_slice())
}

// What is cut of a put.
fn cut_of_a_put<N: NodeName, R: Wait>(
    rt: &R,
    alloc: Global,
    node: &SharedNode<N>,
    seat: &mut Seat<N>,
) -> Result<Segment<N>, Refusal> {
    let resource = AnyResource::parse(
        alloc,
        "{\"@type\":\"type.googleapis.com/envoy.config.cluster.v3.Cluster\",\"name\":\"a\"}",
    )?;
    match node.call(rt, seat, Event::Put(resource, Groups::none())) {
        Ok(_) => node.cut(rt),
        Err(unrecorded) => Err(unrecorded.refusal),
    }
}

// How many records the first has, and how recordings end of all, of all but one, and on tapes that are too short.
fn told_ends<N: NodeName>(alloc: Global, segments: &[Segment<N>]) -> Result<String, Refusal> {
    let line = match segments.first() {
        Some(first) => first.count(),
        None => 0,
    };
    let mut text = format!(in alloc; "{line}:")?;
    for (left_out, room) in [
        (None, 10_000),
        (Some(1), 10_000),
        (Some(0), 10_000),
        (None, 250),
        (None, 3 * 188),
    ] {
        add_end(alloc, &mut text, segments, left_out, room)?;
    }
    Ok(text)
}

// Adds how a recording ends.
fn add_end<N: NodeName>(
    alloc: Global,
    text: &mut String,
    segments: &[Segment<N>],
    left_out: Option<usize>,
    room: usize,
) -> Result<(), Refusal> {
    let end = end_of(alloc, segments, left_out, room)?;
    text.push_str(" ")?;
    text.push_str(end.as_str())?;
    Ok(())
}

fn ended<R: Wait + AllocGlobal>(rt: &R) -> Result<String, Refusal> {
    let alloc = rt.alloc();
    let opened = Opened::<JournalLine>::new(alloc)?;
    ends_of::<Brand, R>(rt, alloc, opened)
}

// Each line has 188 bytes.
#[test]
fn a_recording_ends_by_the_first_refusal(rt: HostRuntime) -> Result<(), Fail> {
    let found = ended(&rt)?;
    let found = found.as_str();
    if found == "1: whole 570 Gap 188 Gap 0 Device 250 Device 564" {
        return Ok(());
    }
    Err(Fail::new(format_args!("{found}")))
}
