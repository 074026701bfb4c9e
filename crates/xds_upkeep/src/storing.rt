// A store while a server runs: it is told what changes at each replica, as one more peer of all of them.
ghost use Rattle.std.specs.Prelude.{◌≡◌, true, string_bytes, IfOk};
ghost use Rattle.xds_events.specs.declared.catalogues.Marks.{Marks};
ghost use Rattle.xds_upkeep.specs.Moved.{greatest, has_all};

use std::alloc::Global;
use std::sync::{Arc, Condvar, Mutex, Wait};
use std::time::{Clock, Duration, Instant};
use std::{mem, thread};
use xds_core::{Event, Marks, Reply};
use xds_machine::stores::{FileStore, OpensStores};
use xds_message::Batch;
use xds_node::{Host, NoGate, called};
use xds_notes::{Lookout, Note};
use xds_resource::Refusal;
use xds_store::StoreRefusal;

// What is told of a store that had failed and has all writes again.
const GOES_ON: &str = "has all writes again";

// How long a store that failed is left alone before it is tried again: at first, and at most, twice as long each time.
const FIRST_PAUSE: u64 = 100;

const LONGEST_PAUSE: u64 = 10_000;

/// What follows a replica while a server runs, and stores what changes there.
pub trait Follows {
    /// What a replica holds at the start is stored, and these are its counts of changes then.
    fn begin<R: Wait>(&self, rt: &R, replica: u16, marks: Marks);

    /// Stores what changes at a replica for as long as the process runs. Where that fails it is told, and tried again after pauses that
    /// grow.
    fn follow<R: Wait + Clock + OpensStores, A: Host>(
        &self,
        rt: &R,
        node: &A,
        seat: &mut A::Seat,
        lookout: &Lookout,
    );

    /// Stores what is left of a replica at the end. Where it is the last one, the store is closed.
    fn finish<R: Wait + Clock + OpensStores, A: Host>(
        &self,
        rt: &R,
        node: &A,
        seat: &mut A::Seat,
        lookout: &Lookout,
    );
}

/// Why what changed at a replica isn't stored.
#[derive(Clone, Copy, Debug, PartialEq, Eq)]
pub enum Unstored {
    /// The store refused it.
    Store(StoreRefusal),
    /// The replica didn't say what changed.
    Replica(Refusal),
}

/// Whether what a replica held at some time is stored.
#[derive(Clone, Copy, Debug, PartialEq, Eq)]
pub enum Reached {
    /// All of it is.
    Stored,
    /// It isn't yet.
    Waiting,
    /// It isn't, and the store failed when it was tried last.
    Failing,
}

// How far the writes of each replica are stored, and what became of the store.
struct StoringState {
    // Of each replica the counts of changes that are stored; none before its thread has begun.
    places: Vec<Option<Marks>>,
    // Why what was tried last isn't stored, if it isn't.
    failing: Option<Unstored>,
    // How often it was tried in vain, and how often something was stored.
    failures: u64,
    commits: u64,
    // How many replicas' writes are still to be stored at the end.
    left: u16,
    is_closed: bool,
}

// Written out: docs/PROVING.md, "Drops".
impl Drop for StoringState {
    fn drop(self) {
        let StoringState {
            places: _,
            failing: _,
            failures: _,
            commits: _,
            left: _,
            is_closed: _,
        } = self;
    }
}

/// How far the writes of a server's replicas are stored, as its threads know it.
pub struct Progress {
    state: Mutex<StoringState>,
    // Something is stored, or failed.
    moved: Condvar,
    // The store is closed.
    finished: Condvar,
}

// Written out: docs/PROVING.md, "Drops".
impl Drop for Progress {
    fn drop(self) {
        let Progress {
            state: _,
            moved: _,
            finished: _,
        } = self;
    }
}

/// What is told of a store.
#[derive(Clone, Copy, Debug, PartialEq, Eq)]
pub struct StoreTold {
    /// Why what was tried last isn't stored, if it isn't.
    pub failing: Option<Unstored>,
    pub failures: u64,
    pub commits: u64,
}

impl Progress {
    /// Of so many replicas, none of which has begun.
    pub fn new(alloc: Global, replicas: u16) -> Result<Progress, Refusal> {
        let mut places = Vec::new(alloc);
        for _ in 0..replicas {
            places.push(None)?;
        }
        Ok(Progress {
            state: Mutex::new(StoringState {
                places,
                failing: None,
                failures: 0,
                commits: 0,
                left: replicas,
                is_closed: false,
            }),
            moved: Condvar::new(),
            finished: Condvar::new(),
        })
    }

    // The counts of changes of a replica that are stored.
    fn marks<R: Wait>(&self, rt: &R, replica: u16) -> Marks {
        match self.state.lock(rt).at(replica) {
            Some(marks) => marks,
            None => nothing(),
        }
    }

    /// What a replica holds at the start is stored.
    pub fn begin<R: Wait>(&self, rt: &R, replica: u16, marks: Marks) {
        self.state.lock(rt).put(replica, marks);
    }

    // What a replica held at these counts of changes is stored. Answers whether the store had failed before.
    fn stored<R: Wait>(&self, rt: &R, replica: u16, marks: Marks) -> bool {
        let mut state = self.state.lock(rt);
        let was_failing = state.failing.is_some();
        state.failing = None;
        state.commits = state.commits.saturating_add(1);
        state.put(replica, marks);
        drop(state);
        self.moved.notify_all();
        was_failing
    }

    // What changed couldn't be stored. Answers whether the one before could be.
    fn failed<R: Wait>(&self, rt: &R, unstored: Unstored) -> bool {
        let mut state = self.state.lock(rt);
        let is_new = state.failing.is_none();
        state.failing = Some(unstored);
        state.failures = state.failures.saturating_add(1);
        drop(state);
        self.moved.notify_all();
        is_new
    }

    /// Waits until something is stored, or failed, but no longer than this time.
    pub fn pause<R: Wait + Clock>(&self, rt: &R, time: Duration) {
        let state = self.state.lock(rt);
        let (state, _) = self.moved.wait_timeout(rt, state, time);
        drop(state);
    }

    /// Whether what a replica held at these counts of changes is stored.
    pub fn reached<R: Wait>(&self, rt: &R, replica: u16, marks: Marks) -> Reached {
        let state = self.state.lock(rt);
        match state.at(replica) {
            Some(stored) if has_all(stored, marks) => Reached::Stored,
            _ if state.failing.is_some() => Reached::Failing,
            _ => Reached::Waiting,
        }
    }

    /// What is told of the store.
    pub fn told<R: Wait>(&self, rt: &R) -> StoreTold {
        let state = self.state.lock(rt);
        StoreTold {
            failing: state.failing,
            failures: state.failures,
            commits: state.commits,
        }
    }

    // A replica's writes are stored to the end, or are given up. Answers whether they are the last ones.
    fn finish<R: Wait>(&self, rt: &R) -> bool {
        let mut state = self.state.lock(rt);
        state.left = state.left.saturating_sub(1);
        state.left == 0
    }

    // The store is closed.
    fn close<R: Wait>(&self, rt: &R) {
        self.state.lock(rt).is_closed = true;
        self.finished.notify_all();
    }

    /// Waits until all replicas' writes are stored to the end, but no longer than this time. Answers whether they are.
    pub fn wait<R: Wait + Clock>(&self, rt: &R, time: Duration) -> bool {
        let Ok(begun) = Instant::now(rt) else {
            return false;
        };
        let mut state = self.state.lock(rt);
        for _ in 0..u64::MAX {
            if state.is_closed {
                return state.failing.is_none();
            }
            let Ok(passed) = begun.elapsed(rt) else {
                return false;
            };
            let left = time.saturating_sub(passed);
            if left.is_zero() {
                return false;
            }
            let (next, _) = self.finished.wait_timeout(rt, state, left);
            state = next;
        }
        false
    }
}

impl StoringState {
    // What is stored of a replica, if its thread has begun.
    fn at(&self, replica: u16) -> Option<Marks> {
        match self.places.get(usize::from(replica).wrapping_sub(1)) {
            Some(marks) => *marks,
            None => None,
        }
    }

    fn put(&mut self, replica: u16, marks: Marks) {
        if let Some(place) = self.places.get_mut(usize::from(replica).wrapping_sub(1)) {
            *place = Some(marks);
        }
    }
}

/// Counts of changes of a replica at which nothing changed.
pub fn nothing() -> Marks
    ensures { (known : Marks) → has_all known result ≡ true }
{
    Marks {
        cluster: 0,
        endpoint: 0,
        listener: 0,
        route: 0,
        secret: 0,
    }
}

/// Counts of changes after which nothing changed.
pub fn everything() -> Marks
    ensures { result ≡ greatest }
{
    Marks {
        cluster: u64::MAX,
        endpoint: u64::MAX,
        listener: u64::MAX,
        route: u64::MAX,
        secret: u64::MAX,
    }
}

/// Whether all changes that are counted by the second are counted by the first.
pub fn has_all(known: Marks, wanted: Marks) -> bool
    ensures { result ≡ has_all known wanted }
{
    known.cluster >= wanted.cluster
        && known.endpoint >= wanted.endpoint
        && known.listener >= wanted.listener
        && known.route >= wanted.route
        && known.secret >= wanted.secret
}

/// A store that threads share, by its path, and how far the writes of the replicas are stored in it. `S` is the store: a proof finds that it
/// may pass to another thread where it is a parameter, and not where the whole of it stands in a field.
pub struct SharedStore<S> {
    alloc: Global,
    path: String,
    // None where it failed and isn't open.
    store: Mutex<Option<S>>,
    pub progress: Arc<Progress>,
}

// Written out: docs/PROVING.md, "Drops".
impl<S: Drop> Drop for SharedStore<S> {
    fn drop(self) {
        let SharedStore {
            alloc: _,
            path: _,
            store: _,
            progress: _,
        } = self;
    }
}

/// A store in a file that threads share.
pub type Storage = SharedStore<FileStore>;

impl SharedStore<FileStore> {
    /// An open store, of which so many replicas' writes are stored.
    pub fn new(alloc: Global, path: String, store: FileStore, progress: Arc<Progress>) -> Storage {
        SharedStore {
            alloc,
            path,
            store: Mutex::new(Some(store)),
            progress,
        }
    }

    // rule: stored
    // Stores what changed at a replica after what is stored of it: asks for that, and answers once it is committed, whether the store
    // had failed before.
    fn keep_up<R: Wait + OpensStores, A: Host>(
        &self,
        rt: &R,
        node: &A,
        seat: &mut A::Seat,
        replica: u16,
    ) -> Result<bool, Unstored> {
        let mut store = self.store.lock(rt);
        let marks = self.progress.marks(rt, replica);
        let (batch, after) = match changed(rt, node, seat, marks) {
            Ok(changed) => changed,
            Err(unstored) => return Err(unstored),
        };
        let put = put(rt, self.path.as_str(), &mut *store, &batch);
        drop(batch);
        match put {
            Ok(()) => Ok(self.progress.stored(rt, replica, after)),
            Err(refusal) => Err(Unstored::Store(refusal)),
        }
    }

    // Tries so, and notes where it fails. Answers whether it is stored.
    fn try_keep_up<R: Wait + OpensStores, A: Host>(
        &self,
        rt: &R,
        node: &A,
        seat: &mut A::Seat,
        lookout: &Lookout,
    ) -> bool {
        match self.keep_up(rt, node, seat, lookout.replica()) {
            Ok(was_failing) => {
                if was_failing {
                    tell(rt, lookout, owned(self.alloc, GOES_ON));
                }
                true
            }
            Err(unstored) => {
                if self.progress.failed(rt, unstored) {
                    tell(rt, lookout, unstored.text(self.alloc));
                }
                false
            }
        }
    }
}

impl Follows for SharedStore<FileStore> {
    fn begin<R: Wait>(&self, rt: &R, replica: u16, marks: Marks) {
        self.progress.begin(rt, replica, marks);
    }

    // rule: stored
    /// Stores what changes at a replica for as long as the process runs. Where that fails it is told, and tried again after pauses that
    /// grow.
    fn follow<R: Wait + Clock + OpensStores, A: Host>(
        &self,
        rt: &R,
        node: &A,
        seat: &mut A::Seat,
        lookout: &Lookout,
    ) {
        let mut pause = FIRST_PAUSE;
        for _ in rt.forever() {
            let seen = self.progress.marks(rt, lookout.replica());
            if node.wait_changed(rt, seen).is_none() {
                return;
            }
            if self.try_keep_up(rt, node, seat, lookout) {
                pause = FIRST_PAUSE;
            } else {
                thread::sleep(rt, Duration::from_millis(pause));
                pause = pause.saturating_mul(2).min(LONGEST_PAUSE);
            }
        }
    }

    // rule: stored
    /// Stores what is left of a replica at the end. Where it is the last one, the store is closed.
    fn finish<R: Wait + Clock + OpensStores, A: Host>(
        &self,
        rt: &R,
        node: &A,
        seat: &mut A::Seat,
        lookout: &Lookout,
    ) {
        self.try_keep_up(rt, node, seat, lookout);
        if self.progress.finish(rt) {
            close(mem::replace(&mut *self.store.lock(rt), None));
            self.progress.close(rt);
        }
    }
}

// Puts the writes of a batch in a store, which is opened where it failed before.
fn put<R: OpensStores>(
    rt: &R,
    path: &str,
    store: &mut Option<FileStore>,
    batch: &Batch,
) -> Result<(), StoreRefusal> {
    let mut open = match mem::replace(store, None) {
        Some(open) => open,
        None => match rt.reopen_store(path) {
            Ok(open) => open,
            Err(refusal) => return Err(refusal),
        },
    };
    let done = open.put_batch(batch);
    if open.is_shut() {
        drop(open);
    } else {
        *store = Some(open);
    }
    done
}

// Closes a store, if it is open. Where what was committed can't be copied into the file, its log has it.
fn close(store: Option<FileStore>) {
    if let Some(store) = store {
        let (files, _) = store.close();
        drop(files);
    }
}

impl Unstored {
    /// What is told of it, behind a word for the store.
    pub fn text(self, alloc: Global) -> Result<String, Refusal> {
        match self {
            Unstored::Store(refusal) => Ok(format!(in alloc; "{refusal}")?),
            Unstored::Replica(refusal) => {
                let number = refusal.number();
                let name = refusal.name();
                Ok(format!(in alloc; "isn't told what changed: {number} {name}")?)
            }
        }
    }
}

/// A text of its own.
pub fn owned(alloc: Global, text: &str) -> Result<String, Refusal>
    ensures { IfOk result (λ t. string_bytes t ≡ text.now) }
{
    Ok(String::from_str(alloc, text)?)
}

// Tells what is so of the store, where there was memory for it.
fn tell<R: Wait>(rt: &R, lookout: &Lookout, text: Result<String, Refusal>) {
    if let Ok(text) = text {
        lookout.ending().announce(rt, Note::Store(text));
    }
}

// What changed at a replica after these counts of changes, and the counts then.
fn changed<R: Wait, A: Host>(
    rt: &R,
    node: &A,
    seat: &mut A::Seat,
    marks: Marks,
) -> Result<(Batch, Marks), Unstored> {
    match called(rt, node, &NoGate, seat, Event::Since(marks)) {
        Ok(Ok(Reply::Changed(batch, after))) => Ok((batch, after)),
        Ok(Ok(reply)) => {
            drop(reply);
            Err(Unstored::Replica(Refusal::Device))
        }
        Ok(Err(refusal)) => Err(Unstored::Replica(refusal)),
        Err(refusal) => Err(Unstored::Replica(refusal)),
    }
}

/// What changed at a replica after these counts of changes, and the counts now.
pub fn changed_since<R: Wait, A: Host>(
    rt: &R,
    node: &A,
    seat: &mut A::Seat,
    marks: Marks,
) -> Result<(Batch, Marks), Refusal> {
    match changed(rt, node, seat, marks) {
        Ok(changed) => Ok(changed),
        Err(Unstored::Replica(refusal)) => Err(refusal),
        Err(Unstored::Store(_)) => Err(Refusal::Device),
    }
}

/// The counts of changes of a replica now.
pub fn marks_now<R: Wait, A: Host>(rt: &R, node: &A, seat: &mut A::Seat) -> Result<Marks, Refusal> {
    match changed(rt, node, seat, everything()) {
        Ok((batch, marks)) => {
            drop(batch);
            Ok(marks)
        }
        Err(Unstored::Replica(refusal)) => Err(refusal),
        Err(Unstored::Store(_)) => Err(Refusal::Device),
    }
}
