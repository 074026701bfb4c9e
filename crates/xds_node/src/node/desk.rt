// What lies under a node's lock.
ghost use Rattle.std.specs.Prelude.{◌≡◌, ◌+◌, ◌<◌, ◌≤◌, ◌==◌, ◌⊎◌, ◌∷◌, ◌++◌, [], length, true, All, Contains, MatchBool, IsPermutation, IfOk, IfErr, IfSome, OnErr, Some};
ghost use Rattle.std.specs.List.{flat_map};
ghost use Rattle.xds_resource.specs.Stamps.{max_counter};
ghost use Rattle.xds_resource.specs.declared.refusal.Refusal.TheVariants.{OutOfMemory, CounterSpent, JournalFull};
ghost use Rattle.xds_core.specs.Since.{marks_of};
ghost use Rattle.xds_core.specs.Counts.{counts_of};
ghost use Rattle.xds_core.specs.Seen.{event_of, answer_of};
ghost use Rattle.futures.specs.Task.{Covers, Keeps};
ghost use Rattle.futures.specs.Poll.{IfReady, OnPending};
ghost use Rattle.xds_node.specs.Entries.{AllBelow};
ghost use Rattle.xds_node.specs.Holdings.{keeper};
ghost use Rattle.xds_node.specs.Books.{Books, most_records, opened_books, base_of, present, next_number, all_entries_of, record_of, with_record, with_seat, after_cut, IsFull};
ghost use Rattle.xds_node.specs.Pieces.{piece_of, last_entries, StandsInStory, GoesOn, IsWhole};
ghost use Rattle.xds_node.specs.Told.{no_calls, also_told, also_refused, IsStepAt, LeavesNoRecord};
ghost use Rattle.xds_node.specs.Wakes.{due_at, narrowed, wait_ends};

use crate::node::concern::Concern;
use crate::node::history::History;
use crate::node::line::JournalLine;
use crate::node::rule::NodeName;
use crate::node::seat::{Seat, Unrecorded, gather};
use crate::node::segment::Segment;
use crate::node::sleepers::Sleepers;
use crate::node::token::{Token, Tokens};
use crate::node::twice::answered_twice;
use crate::node::wakes::{LaneSet, Waiting, Wake};
use futures::task::{Context, Poll, Source, Waker};
use std::alloc::Global;
use std::marker::Model;
use std::mem;
use xds_core::{Core, Event, Marks, Reply};
use xds_resource::Refusal;
use xds_resource::stamp::MAX_COUNTER;

/// What a wait for a stream ends by.
#[derive(Clone, Copy, Debug, PartialEq, Eq, Drop)]
pub enum WaitEnd {
    /// A poll would give a response, or be refused by `NonceSpent`.
    Ready,
    /// The stream isn't open.
    Closed,
}

/// How many records a journal may have.
pub const MOST_RECORDS: usize = 65_536;

/// What lies under a node's lock. Contracts see the books of all that happened; whenever the lock is free, the replica is
/// what they come to.
pub struct Desk<N: NodeName> {
    base: Core,
    core: Core,
    journal: Vec<JournalLine>,
    // How many records were cut.
    cut: u64,
    // How many seats were made.
    seats: u64,
    token: Token<JournalLine, N>,
    alloc: Global,
    // Which writers and which tasks wait, and whether the node was stopped. Nothing that is recorded depends on it.
    waiting: Waiting,
    sleepers: Sleepers,
    stopped: bool,
    // How many hold writers back, and what was written meanwhile.
    holders: u64,
    held_back: Concern,
}

// Written out: docs/PROVING.md, "Drops".
impl<N: NodeName> Drop for Desk<N> {
    fn drop(self) {
        let Desk {
            base: _,
            core: _,
            journal: _,
            cut: _,
            seats: _,
            token: _,
            alloc: _,
            waiting: _,
            sleepers: _,
            stopped: _,
            holders: _,
            held_back: _,
        } = self;
    }
}

impl<N: NodeName> Model for Desk<N> {
    ghost use Rattle.std.specs.Coded.{codes};
    ghost use Rattle.xds_json.specs.Versions.{version_map_code};
    ghost use Rattle.xds_node.specs.Books.{Books, IsKept};

    ghost Value = { Books };

    ghost coded = { Prim.hlevel (codes, version_map_code) };

    ghost view = { λ d. record { replica = d.base.replica; before = d.token.cut; journal = d.journal.items; seats = d.seats } };

    ghost invariant = { λ d. IsKept N.replica d.base d.core d.journal.items d.cut d.seats d.token };
}

impl<N: NodeName> Desk<N> {
    /// That of a replica at which nothing happened, and which has the number that the node's name says.
    pub fn new(
        alloc: Global,
        replica: u16,
        token: Token<JournalLine, N>,
        waiting: Waiting,
    ) -> Desk<N>
        requires number { 1 ≤ replica }
        requires own { replica ≡ N.replica }
        requires keeper { token ≡ keeper 0 [] [] }
        ensures { result ≡ opened_books replica }
    {
        Desk {
            base: Core::new(alloc, replica),
            core: Core::new(alloc, replica),
            journal: Vec::new(alloc),
            cut: 0,
            seats: 0,
            token,
            alloc,
            waiting,
            sleepers: Sleepers::new(alloc),
            stopped: false,
            holders: 0,
            held_back: Concern::none(alloc),
        }
    }

    // rule: one-seat
    /// A seat more, which made no call. `CounterSpent` where no more can be counted.
    pub fn seat(&mut self, tokens: &Tokens<JournalLine, N>) -> Result<Seat<N>, Refusal>
        ensures ok { IfOk result (λ s. (s ≡ no_calls) × (self.new ≡ with_seat self.old)) }
        ensures refused { IfErr result (λ e. (e ≡ CounterSpent) × (self.old.seats ≡ max_counter)) }
        ensures err { OnErr result (self.new ≡ self.old) }
    {
        if self.seats == MAX_COUNTER {
            return Err(Refusal::CounterSpent);
        }
        self.seats += 1;
        Ok(Seat::of(tokens.seat(&mut self.token)))
    }

    // rule: one-seat, rule: cuts
    /// One event of a seat: one step of the replica, and one record at the end of the journal. The answer is the step's,
    /// a refusal or not. No record is left, and nothing changes but that the seat keeps the event and why, where the journal is full
    /// (`JournalFull`) or there is no memory (`OutOfMemory`); then the event comes back.
    pub fn call(
        &mut self,
        tokens: &Tokens<JournalLine, N>,
        seat: &mut Seat<N>,
        event: Event,
    ) -> Result<Result<Reply, Refusal>, Unrecorded>
        ensures answer { IfOk result (λ a. answer_of a ≡ (record_of self.old (event_of event)).answer) }
        ensures recorded { IfOk result (λ a. self.new ≡ with_record self.old (record_of self.old (event_of event))) }
        ensures told { IfOk result (λ a. seat.new ≡ also_told (next_number self.old, record_of self.old (event_of event)) seat.old) }
        ensures rising { IfOk result (λ a. AllBelow (next_number self.old) seat.old.told) }
        ensures stands { IfOk result (λ a. All (Contains (all_entries_of self.old)) seat.old.told) }
        ensures step { IfOk result (λ a. IsStepAt N.replica seat.old.told seat.new.told (event_of event) (answer_of a)) }
        ensures back { IfErr result (λ e. e.event ≡ event) }
        ensures full { IfErr result (λ e. LeavesNoRecord e.refusal × (e.refusal ≡ JournalFull → IsFull self.old)) }
        ensures room { IfOk result (λ a. IsFull self.old → ⊥) }
        ensures full_first { IfErr result (λ e. IsFull self.old → e.refusal ≡ JournalFull) }
        ensures err { OnErr result (self.new ≡ self.old) }
        ensures noted { IfErr result (λ e. seat.new ≡ also_refused (event_of event) e.refusal seat.old) }
    {
        let records = self.journal.len();
        if is_full(records, self.cut) {
            return Err(unrecorded(tokens, seat, Refusal::JournalFull, event));
        }
        if self.journal.reserve(1).is_err() {
            return Err(unrecorded(tokens, seat, Refusal::OutOfMemory, event));
        }
        match answered_twice(&mut self.core, &event) {
            Ok((answer, kept)) => {
                let number = self.cut + records as u64 + 1;
                let line = JournalLine::new(event, kept);
                seat.tell(tokens, &mut self.token, number, &line);
                self.journal.push_reserved(line);
                Ok(answer)
            }
            Err(refusal) => Err(unrecorded(tokens, seat, refusal, event)),
        }
    }

    // rule: cuts
    /// Hands out the journal and its base, and begins anew from a copy of the present replica. Refused only by
    /// `OutOfMemory`; then nothing changes.
    pub fn cut(&mut self, tokens: &Tokens<JournalLine, N>) -> Result<Segment<N>, Refusal>
        ensures ok { IfOk result (λ s. (s ≡ piece_of self.old) × (self.new ≡ after_cut self.old)) }
        ensures goes_on { IfOk result (λ s. GoesOn N.replica s.base s.first s.before) }
        ensures refused { IfErr result (λ e. e ≡ OutOfMemory) }
        ensures err { OnErr result (self.new ≡ self.old) }
    {
        let present = self.core.try_copy(self.alloc)?;
        let first = self.cut + 1;
        self.cut += self.journal.len() as u64;
        Ok(Segment {
            base: mem::replace(&mut self.base, present),
            first,
            records: mem::replace(&mut self.journal, Vec::new(self.alloc)),
            token: tokens.share(&mut self.token),
        })
    }

    // rule: one-seat
    /// The end: the records since the last cut, and whether all seats are handed in.
    pub fn close(self, tokens: Tokens<JournalLine, N>, seats: Vec<Seat<N>>) -> History<N>
        ensures base { result.base ≡ base_of self }
        ensures records { result.records ≡ self.journal }
        ensures before { result.before ≡ self.before }
        ensures told { result.told ≡ flat_map (λ s. s.told) seats.items }
        ensures made { result.made ≡ self.seats }
        ensures complete { result.complete ≡ (length seats.items == result.made) }
        ensures stands { StandsInStory result }
        ensures own { result.base.replica ≡ N.replica }
        ensures each { result.complete ≡ true → IsPermutation result.told (result.before ++ last_entries result) }
        ensures whole { IsWhole result }
    {
        let Desk {
            base,
            core,
            journal,
            cut,
            seats: made,
            mut token,
            alloc: _,
            waiting: _,
            sleepers: _,
            stopped: _,
            holders: _,
            held_back: _,
        } = self;
        drop(core);
        let complete = seats.len() as u64 == made;
        gather(&tokens, &mut token, seats);
        tokens.look(&mut token);
        History {
            base,
            records: journal,
            cut,
            complete,
            tokens,
            token,
        }
    }

    // rule: wake-ups
    /// What a wait for a stream ends by now; where by nothing, its writer counts as one that waits.
    pub fn await_due(&mut self, stream: u64) -> Option<WaitEnd>
        ensures due { result ≡ wait_ends (due_at (present self.old) stream) }
        ensures same { self.new ≡ self.old }
    {
        match self.core.due(stream) {
            None => Some(WaitEnd::Closed),
            Some(true) => Some(WaitEnd::Ready),
            Some(false) => {
                self.waiting.add(stream);
                None
            }
        }
    }

    // rule: wake-ups
    /// From here on no writer is told that something is due, until whoever holds them back releases them. It is no event.
    pub fn hold(&mut self)
        ensures { self.new ≡ self.old }
    {
        self.holders = self.holders.saturating_add(1);
    }

    /// Whether writers are held back.
    pub fn is_held(&self) -> bool {
        self.holders != 0
    }

    // rule: wake-ups
    /// The writer of this stream waits, too.
    pub fn note_waiting(&mut self, stream: u64)
        ensures { self.new ≡ self.old }
    {
        self.waiting.add(stream);
    }

    // rule: wake-ups
    /// The writer of a stream was woken. Answers the lane that is to be woken after it, if there is one.
    pub fn was_woken(&mut self, stream: u64) -> Option<usize>
        ensures { self.new ≡ self.old }
    {
        self.waiting.remove(stream);
        self.waiting.next()
    }

    // rule: wake-ups
    /// What a wait for a stream ends by now; where by nothing, or by a response that is held back, its task waits.
    pub fn poll_due(&mut self, source: &Source, cx: &mut Context<'_>, stream: u64) -> Poll<WaitEnd>
        ensures due { IfReady result (λ due. wait_ends (due_at (present self.old) stream) ≡ Some due) }
        ensures same { self.new ≡ self.old }
        ensures registered { OnPending result (Covers cx.new (λ s. s ≡ source.now.id)) }
        ensures kept { Keeps cx.old cx.new }
    {
        if let Some(due) = self.due_now(stream) {
            return Poll::Ready(due);
        }
        let is_held = self.is_held();
        let _ = self.sleepers.wait(source, cx, stream, is_held);
        Poll::Pending
    }

    // What a wait for a stream ends by, unless by nothing, or by a response that is held back.
    fn due_now(&self, stream: u64) -> Option<WaitEnd>
        ensures { IfSome result (λ due. wait_ends (due_at (present self.now) stream) ≡ Some due) }
    {
        match self.core.due(stream) {
            None => Some(WaitEnd::Closed),
            Some(true) => {
                if self.is_held() {
                    return None;
                }
                Some(WaitEnd::Ready)
            }
            Some(false) => None,
        }
    }

    // rule: wake-ups
    /// What an event leaves of the tasks that may wait: a stream that opens has a slot, and one that asks wants what it asks for.
    pub fn note(&mut self, wake: Wake, concern: &Concern, reply: &Reply)
        ensures { self.new ≡ self.old }
    {
        if let Reply::Opened(stream) = reply {
            self.sleepers.open(*stream);
        }
        if let Wake::Writer(stream) = wake {
            self.sleepers.want(stream, concern);
        }
    }

    // rule: wake-ups
    /// The tasks that an event wakes by its answer: those of the streams that may be told what it writes, or that of one stream. While
    /// writers are held back that is only the task of a stream that was closed.
    pub fn called(
        &mut self,
        wake: Wake,
        concern: &Concern,
        reply: &Reply,
    ) -> (Vec<Waker>, Option<Waker>)
        ensures { self.new ≡ self.old }
    {
        match wake {
            Wake::Nobody => (Vec::new(self.alloc), None),
            Wake::Writer(stream) => (Vec::new(self.alloc), self.called_one(stream, reply)),
            Wake::All => (self.called_all(concern), None),
        }
    }

    // rule: wake-ups
    fn called_one(&mut self, stream: u64, reply: &Reply) -> Option<Waker>
        ensures { self.new ≡ self.old }
    {
        if let Reply::Closed = reply {
            return self.sleepers.closed(stream);
        }
        if self.is_held() {
            self.sleepers.hold(stream);
            return None;
        }
        self.sleepers.taken(stream)
    }

    // rule: wake-ups
    // The tasks of the streams that may be told what was written, unless writers are held back; then that is kept.
    fn called_all(&mut self, concern: &Concern) -> Vec<Waker>
        ensures { self.new ≡ self.old }
    {
        if self.is_held() {
            self.held_back.add(concern, self.alloc);
            return Vec::new(self.alloc);
        }
        self.sleepers.taken_all(concern)
    }

    // rule: wake-ups
    /// The tasks that are woken once writers are held back no longer: those that waited from then on, and those of the streams that may be
    /// told what was written meanwhile.
    pub fn released(&mut self) -> Vec<Waker>
        ensures { self.new ≡ self.old }
    {
        if self.is_held() {
            return Vec::new(self.alloc);
        }
        let held_back = mem::replace(&mut self.held_back, Concern::none(self.alloc));
        self.sleepers.taken_all(&held_back)
    }

    // rule: wake-ups
    /// One holds them back no longer. Answers the lanes in which writers wait that are to be woken first, where none does.
    pub fn release(&mut self) -> LaneSet
        ensures { self.new ≡ self.old }
    {
        self.holders = self.holders.saturating_sub(1);
        self.woken(Wake::All)
    }

    // rule: cuts
    /// Whether the journal has no room for one more record.
    pub fn is_full(&self) -> bool
        ensures { MatchBool result (IsFull self.now) (¬ IsFull self.now) }
    {
        is_full(self.journal.len(), self.cut)
    }

    // rule: wake-ups
    /// Whom an event wakes, but for a writer whose stream is owed nothing.
    pub fn narrowed(&self, wake: Wake) -> Wake
        ensures { result ≡ narrowed (present self.now) wake }
    {
        match wake {
            Wake::Writer(stream) => match self.core.due(stream) {
                Some(false) => Wake::Nobody,
                Some(true) | None => wake,
            },
            Wake::All | Wake::Nobody => wake,
        }
    }

    // rule: wake-ups
    /// The lanes in which writers wait that are to be woken first, where an event wakes all of them and nobody holds them back.
    pub fn woken(&mut self, wake: Wake) -> LaneSet
        ensures { self.new ≡ self.old }
    {
        if self.is_held() {
            return LaneSet::new();
        }
        match wake {
            Wake::All => {
                self.waiting.call();
                self.waiting.first()
            }
            Wake::Writer(_) | Wake::Nobody => LaneSet::new(),
        }
    }

    // rule: wake-ups
    /// From here on nobody waits for changes. It is no event.
    pub fn stop(&mut self)
        ensures { self.new ≡ self.old }
    {
        self.stopped = true;
    }

    /// Whether it was stopped.
    pub fn is_stopped(&self) -> bool {
        self.stopped
    }

    /// The counts of changes of all types.
    pub fn marks(&self) -> Marks
        ensures { counts_of result ≡ marks_of (present self.now).store }
    {
        self.core.marks()
    }
}

// rule: cuts
// Whether a journal of so many records, after so many that were cut, has no room for one more.
fn is_full(records: usize, cut: u64) -> bool
    requires { cut + records ≤ max_counter }
    ensures { MatchBool result ((records ≡ most_records) ⊎ (cut + records ≡ max_counter)) ((records ≡ most_records → ⊥) × (cut + records ≡ max_counter → ⊥)) }
{
    records == MOST_RECORDS || cut + records as u64 == MAX_COUNTER
}

// What an event leaves that leaves no record: the seat keeps it, with the refusal.
fn unrecorded<N: NodeName>(
    tokens: &Tokens<JournalLine, N>,
    seat: &mut Seat<N>,
    refusal: Refusal,
    event: Event,
) -> Unrecorded
    ensures back { (result.refusal ≡ refusal) × (result.event ≡ event) }
    ensures noted { seat.new ≡ also_refused (event_of event) refusal seat.old }
{
    let event = seat.refuse(tokens, refusal, event);
    Unrecorded { refusal, event }
}
