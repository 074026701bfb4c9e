// How far what each replica holds has changed, as its server's other threads know it.
ghost use Rattle.std.specs.Prelude.{◌≡◌};
ghost use Rattle.xds_upkeep.specs.Moved.{has_moved};

use crate::storing::has_all;
use std::alloc::Global;
use std::sync::{Mutex, Wait};
use xds_core::Marks;
use xds_node::Host;
use xds_resource::Refusal;

/// The counts of changes of each replica of a server, as its threads have told them.
pub struct Moves {
    // None of a replica whose thread has told none.
    places: Mutex<Vec<Option<Marks>>>,
}

// Written out: docs/PROVING.md, "Drops".
impl Drop for Moves {
    fn drop(self) {
        let Moves { places: _ } = self;
    }
}

impl Moves {
    /// Of so many replicas, of which nothing is told.
    pub fn new(alloc: Global, replicas: u16) -> Result<Moves, Refusal> {
        let mut places = Vec::new(alloc);
        for _ in 0..replicas {
            places.push(None)?;
        }
        Ok(Moves {
            places: Mutex::new(places),
        })
    }

    // These are the counts of changes of the replica at a place, from 1.
    fn put<R: Wait>(&self, rt: &R, replica: u16, marks: Marks) {
        let mut places = self.places.lock(rt);
        if let Some(place) = places.get_mut(usize::from(replica).wrapping_sub(1)) {
            *place = Some(marks);
        }
    }

    /// Whether the replica at a place, from 1, is known to have changed after these counts of changes.
    pub fn is_past<R: Wait>(&self, rt: &R, replica: u16, marks: Marks) -> bool {
        let places = self.places.lock(rt);
        match places.get(usize::from(replica).wrapping_sub(1)) {
            Some(now) => has_moved(*now, marks),
            None => false,
        }
    }
}

/// What is told how far replicas have changed.
pub trait HearsMoves {
    /// Tells the counts of changes of the replica at a place, from 1, whenever they change, for as long as the process runs.
    fn follow<R: Wait, A: Host>(&self, rt: &R, node: &A, replica: u16, marks: Marks);
}

impl HearsMoves for Moves {
    fn follow<R: Wait, A: Host>(&self, rt: &R, node: &A, replica: u16, marks: Marks) {
        let mut seen = marks;
        self.put(rt, replica, seen);
        for _ in rt.forever() {
            match node.wait_changed(rt, seen) {
                Some(marks) => seen = marks,
                None => return,
            }
            self.put(rt, replica, seen);
        }
    }
}

// Whether a replica whose counts of changes these are, if they are known, has changed after others.
fn has_moved(now: Option<Marks>, since: Marks) -> bool
    ensures { result ≡ has_moved now since }
{
    match now {
        Some(now) => !has_all(since, now),
        None => false,
    }
}
