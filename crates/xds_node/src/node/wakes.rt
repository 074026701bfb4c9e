// Whom an event wakes.
ghost use Rattle.std.specs.Prelude.{◌≡◌, ◌<◌, vec_len, IfSome, IfOk, IfErr};
ghost use Rattle.xds_resource.specs.declared.refusal.Refusal.TheVariants.{OutOfMemory};
ghost use Rattle.xds_core.specs.Seen.{event_of, reply_of};
ghost use Rattle.xds_node.specs.Wakes.{wakes, wakes_by};

use std::alloc::Global;
use std::sync::Condvar;
use xds_core::{Event, Reply};
use xds_resource::Refusal;

/// How many lanes there are. The writers of streams whose numbers are equal modulo this wait in one lane.
pub const LANES: usize = 1_024;

/// Whom an event wakes.
#[derive(Clone, Copy, Debug, PartialEq, Eq, Drop)]
pub enum Wake {
    Nobody,
    /// The writer of this stream.
    Writer(u64),
    /// All writers that wait, and whoever waits for changes.
    All,
}

impl Wake {
    // rule: wake-ups
    /// Whom an event wakes: a request or the end of a stream that stream's writer, and a write all that may be owed something. A
    /// poll wakes nobody: it is the writer that polls.
    pub fn by(event: &Event) -> Wake
        ensures { result ≡ wakes (event_of event.now) }
    {
        match event {
            Event::Request(stream, _) => Wake::Writer(*stream),
            Event::Close(stream) => Wake::Writer(*stream),
            Event::Put(_, _) => Wake::All,
            Event::Delete(_, _) => Wake::All,
            Event::Merge(_) => Wake::All,
            Event::Open => Wake::Nobody,
            Event::Poll(_, _) => Wake::Nobody,
            Event::Owes(_, _) => Wake::Nobody,
            Event::Snapshot => Wake::Nobody,
            Event::Rest(_, _, _, _) => Wake::Nobody,
            Event::Since(_) => Wake::Nobody,
        }
    }

    // rule: wake-ups
    /// The same by what the event was answered: a merge that changed nothing wakes nobody.
    pub fn answered(self, reply: &Reply) -> Wake
        ensures { result ≡ wakes_by self (reply_of reply.now) }
    {
        match reply {
            Reply::Merged(0) => Wake::Nobody,
            _ => self,
        }
    }
}

/// How many lanes an event that wakes all wakes at once. Each writer that is woken wakes one lane more, so that not all of them
/// ask for the node's lock at once.
pub const WOKEN: usize = 8;

// rule: wake-ups
fn lane_of(stream: u64) -> usize
    ensures { result < 1024 }
{
    (stream % LANES as u64) as usize
}

/// A set of lanes: a bit each.
#[derive(Drop)]
pub struct LaneSet {
    words: [u64; 16],
}

impl LaneSet {
    /// No lane.
    pub fn new() -> LaneSet {
        LaneSet { words: [0; 16] }
    }

    fn add(&mut self, lane: usize)
        requires { lane < 1024 }
    {
        self.words[lane / 64] |= 1 << (lane % 64);
    }

    // Takes a lane out, the lowest.
    fn take(&mut self) -> Option<usize>
        ensures { IfSome result (λ lane. lane < 1024) }
    {
        for row in 0..16 {
            let word = self.words[row];
            if word != 0 {
                let bit = lowest(word);
                self.words[row] = word & (word - 1);
                return Some(row * 64 + bit);
            }
        }
        None
    }
}

// The place of the lowest bit that is set.
fn lowest(word: u64) -> usize
    ensures { result < 64 }
{
    for bit in 0..64 {
        if word >> bit & 1 == 1 {
            return bit;
        }
    }
    0
}

/// In which lanes writers wait, and which of these are still to be woken.
#[derive(Drop)]
pub struct Waiting {
    // How many wait in each lane.
    counts: Vec<u32>,
    called: LaneSet,
    ghost full: { vec_len counts ≡ 1024 },
}

impl Waiting {
    /// Nobody waits.
    pub fn new(alloc: Global) -> Result<Waiting, Refusal>
        ensures { IfErr result (λ e. e ≡ OutOfMemory) }
    {
        Ok(Waiting {
            counts: counts(alloc)?,
            called: LaneSet::new(),
        })
    }

    // rule: wake-ups
    /// The writer of this stream waits, too.
    pub fn add(&mut self, stream: u64) {
        let count = &mut self.counts[lane_of(stream)];
        *count = count.saturating_add(1);
    }

    // rule: wake-ups
    /// The writer of this stream waits no longer.
    pub fn remove(&mut self, stream: u64) {
        let count = &mut self.counts[lane_of(stream)];
        *count = count.saturating_sub(1);
    }

    // rule: wake-ups
    /// All that wait are to be woken.
    pub fn call(&mut self) {
        for lane in 0..LANES {
            if self.counts[lane] != 0 {
                self.called.add(lane);
            }
        }
    }

    // rule: wake-ups
    /// A lane that is to be woken, where one waits: it is woken now.
    pub fn next(&mut self) -> Option<usize>
        ensures { IfSome result (λ lane. lane < 1024) }
    {
        for _ in 0..LANES {
            let lane = self.called.take()?;
            if self.counts[lane] != 0 {
                return Some(lane);
            }
        }
        None
    }

    // rule: wake-ups
    /// The first lanes that are to be woken. Whoever waits there wakes the others, one lane after another.
    pub fn first(&mut self) -> LaneSet {
        let mut first = LaneSet::new();
        for _ in 0..WOKEN {
            match self.next() {
                Some(lane) => first.add(lane),
                None => return first,
            }
        }
        first
    }
}

/// The lanes in which writers wait, and where others wait for changes.
#[derive(Drop)]
pub struct Lanes {
    writers: Vec<Condvar>,
    changed: Condvar,
    ghost full: { vec_len writers ≡ 1024 },
}

impl Lanes {
    /// Lanes in which nobody waits, or `OutOfMemory`.
    pub fn new(alloc: Global) -> Result<Lanes, Refusal>
        ensures { IfErr result (λ e. e ≡ OutOfMemory) }
    {
        Ok(lanes_of(writers(alloc)?))
    }

    /// Where the writer of a stream waits.
    pub fn writer(&self, stream: u64) -> &Condvar {
        &self.writers[lane_of(stream)]
    }

    /// Where others wait for changes.
    pub fn changed(&self) -> &Condvar {
        &self.changed
    }

    // rule: wake-ups
    /// Wakes those that an event wakes, and of all writers that wait those in these lanes.
    pub fn wake(&self, wake: Wake, first: LaneSet) {
        match wake {
            Wake::Nobody => {}
            Wake::Writer(stream) => self.writer(stream).notify_all(),
            Wake::All => {
                self.wake_each(first);
                self.changed.notify_all();
            }
        }
    }

    // rule: wake-ups
    fn wake_each(&self, lanes: LaneSet) {
        let mut left = lanes;
        for _ in 0..LANES {
            match left.take() {
                Some(lane) => self.wake_lane(Some(lane)),
                None => return,
            }
        }
    }

    // rule: wake-ups
    /// Wakes whoever waits in a lane.
    pub fn wake_lane(&self, lane: Option<usize>) {
        if let Some(lane) = lane {
            if let Some(writers) = self.writers.get(lane) {
                writers.notify_all();
            }
        }
    }
}

fn counts(alloc: Global) -> Result<Vec<u32>, Refusal>
    ensures ok { IfOk result (λ v. vec_len v ≡ 1024) }
    ensures refused { IfErr result (λ e. e ≡ OutOfMemory) }
{
    let mut counts = Vec::new(alloc);
    for _ in 0..LANES {
        counts.push(0)?;
    }
    Ok(counts)
}

fn lanes_of(writers: Vec<Condvar>) -> Lanes
    requires { vec_len writers ≡ 1024 }
{
    Lanes {
        writers,
        changed: Condvar::new(),
    }
}

// rule: wake-ups
fn writers(alloc: Global) -> Result<Vec<Condvar>, Refusal>
    ensures ok { IfOk result (λ v. vec_len v ≡ 1024) }
    ensures refused { IfErr result (λ e. e ≡ OutOfMemory) }
{
    let mut lanes = Vec::new(alloc);
    for _ in 0..LANES {
        lanes.push(Condvar::new())?;
    }
    Ok(lanes)
}
