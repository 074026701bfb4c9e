// Tasks that wait until something is due to their streams.
ghost use Rattle.std.specs.Prelude.{◌≡◌, true, map};
ghost use Rattle.futures.specs.Task.{Covers, Keeps};
ghost use Rattle.futures.specs.Poll.{OnPending};
ghost use Rattle.xds_node.specs.Sleeping.{is_woken, left_in, woken};

use crate::node::concern::Concern;
use futures::task::{Context, Poll, Source, Waker};
use std::alloc::Global;

// The place of a stream among those that may wait.
#[derive(Drop)]
struct Slot {
    stream: u64,
    // What it asked for.
    wants: Concern,
    // Its task, where that waits.
    waker: Option<Waker>,
    // Whether its task is woken once writers are held back no longer, whatever was written meanwhile.
    is_held: bool,
}

impl Slot {
    // rule: wake-ups
    // Whether its task is woken by what was written.
    fn is_woken_by(&self, written: &Concern) -> bool
        ensures { result ≡ is_woken written.now self.now }
    {
        self.is_held || self.wants.meets(written)
    }

    // Its task is taken, if what was written wakes it.
    fn look(&mut self, written: &Concern, taken: &mut Vec<Waker>)
        ensures { self.new ≡ left_in written.now self.old }
    {
        if self.is_woken_by(written) {
            self.leave(taken);
        }
    }

    // Its task is taken, and waits no longer. Where there is no memory to keep it, it is woken here.
    fn leave(&mut self, taken: &mut Vec<Waker>)
        ensures { self.new ≡ woken self.old }
    {
        self.is_held = false;
        if let Some(waker) = self.waker.take() {
            drop(taken.push(waker));
        }
    }
}

/// Tasks that wait: a slot for each stream that is open, in the order of their numbers, which ascend as they open. Whoever drops a
/// waker wakes its task.
#[derive(Drop)]
pub struct Sleepers {
    alloc: Global,
    slots: Vec<Slot>,
    // Whether a task ever waited here. Where threads wait alone, a write looks at no slot.
    is_used: bool,
}

impl Sleepers {
    /// No stream is open.
    pub fn new(alloc: Global) -> Sleepers {
        Sleepers {
            alloc,
            slots: Vec::new(alloc),
            is_used: false,
        }
    }

    // The place of the first slot whose stream's number isn't below this.
    fn place(&self, stream: u64) -> usize {
        let mut low: usize = 0;
        let mut high = self.slots.len();
        // A list has fewer elements than 2 to the 64.
        for _ in 0..64 {
            if low >= high {
                return low;
            }
            let middle = low.saturating_add(high.saturating_sub(low) / 2);
            if self.is_below(middle, stream) {
                low = middle.saturating_add(1);
            } else {
                high = middle;
            }
        }
        low
    }

    // Whether a slot's stream has a smaller number.
    fn is_below(&self, at: usize, stream: u64) -> bool {
        match self.slots.get(at) {
            Some(slot) => slot.stream < stream,
            None => false,
        }
    }

    // The slot of a stream, if it has one.
    fn slot(&mut self, stream: u64) -> Option<&mut Slot> {
        let at = self.place(stream);
        let slot = self.slots.get_mut(at)?;
        if slot.stream == stream {
            Some(slot)
        } else {
            None
        }
    }

    // rule: wake-ups
    /// A stream was opened, which wants nothing yet. Where there is no memory for its slot, it has one once it waits.
    pub fn open(&mut self, stream: u64) {
        self.put(stream, Concern::none(self.alloc));
    }

    // Puts a slot where it belongs. Answers whether there was memory for it.
    fn put(&mut self, stream: u64, wants: Concern) -> bool {
        let at = self.place(stream);
        let slot = Slot {
            stream,
            wants,
            waker: None,
            is_held: false,
        };
        if at >= self.slots.len() {
            return self.slots.push(slot).is_ok();
        }
        self.slots.insert(at, slot).is_ok()
    }

    // rule: wake-ups
    /// A stream asked for this.
    pub fn want(&mut self, stream: u64, asked: &Concern) {
        let alloc = self.alloc;
        if let Some(slot) = self.slot(stream) {
            slot.wants.join(asked, alloc);
        }
    }

    // rule: wake-ups
    /// The task of a stream is woken once writers are held back no longer.
    pub fn hold(&mut self, stream: u64) {
        if let Some(slot) = self.slot(stream) {
            slot.is_held = true;
        }
    }

    // rule: wake-ups
    /// The task of a stream waits, too, while writers are held back or not. Of a stream that has no slot it isn't known what it wants: it
    /// gets one, and is woken by every write; and where there is no memory for that, it is polled again at once.
    pub fn wait(
        &mut self,
        source: &Source,
        cx: &mut Context<'_>,
        stream: u64,
        is_held: bool,
    ) -> Poll<()>
        ensures pending { result ≡ Poll.Pending }
        ensures used { self.new.is_used ≡ true }
        ensures registered { Covers cx.new (λ s. s ≡ source.now.id) }
        ensures kept { Keeps cx.old cx.new }
    {
        if self.slot(stream).is_none() {
            self.put(stream, Concern::all(self.alloc));
        }
        let pending = match self.slot(stream) {
            Some(slot) => {
                slot.is_held = is_held;
                cx.register(source, &mut slot.waker)
            }
            None => cx.yield_now(),
        };
        self.is_used = true;
        pending
    }

    // rule: wake-ups
    /// The task of a stream, which waits no longer.
    pub fn taken(&mut self, stream: u64) -> Option<Waker> {
        let slot = self.slot(stream)?;
        slot.waker.take()
    }

    // rule: wake-ups
    /// The task of a stream that was closed, which has no slot any more.
    pub fn closed(&mut self, stream: u64) -> Option<Waker> {
        let waker = self.taken(stream);
        let at = self.place(stream);
        if at < self.slots.len() && self.slots[at].stream == stream {
            drop(self.slots.remove(at));
        }
        waker
    }

    // rule: wake-ups
    /// The tasks of the streams that may be told what was written, and those that were held, which wait no longer. Where there is no memory
    /// to keep one, it is woken here.
    pub fn taken_all(&mut self, written: &Concern) -> Vec<Waker>
        ensures used { self.new.is_used ≡ self.old.is_used }
        ensures taken { self.old.is_used ≡ true → self.new.slots.items ≡ map (left_in written.now) self.old.slots.items }
    {
        let mut taken = Vec::new(self.alloc);
        if !self.is_used {
            return taken;
        }
        for slot in self.slots.iter_mut() {
            slot.look(written, &mut taken);
        }
        taken
    }
}
