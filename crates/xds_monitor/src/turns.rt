// Turns that threads take, one after another.
use std::alloc::Global;
use std::sync::{Mutex, MutexGuard, Wait};
use xds_resource::Refusal;

// How many turns there are.
const TURNS: u64 = 256;

/// A turn for each stream; streams whose numbers are equal modulo 256 share one.
#[derive(Drop)]
pub struct Turns {
    of: Vec<Mutex<()>>,
}

impl Turns {
    /// Turns that nobody has, or `OutOfMemory`.
    pub fn new(alloc: Global) -> Result<Turns, Refusal> {
        let mut of = Vec::new(alloc);
        for _ in 0..TURNS {
            of.push(Mutex::new(()))?;
        }
        Ok(Turns { of })
    }

    /// The turn of a stream, until it is dropped. It waits for whoever has it.
    pub fn take<R: Wait>(&self, rt: &R, stream: u64) -> Option<MutexGuard<'_, ()>> {
        let turn = self.of.get((stream % TURNS) as usize)?;
        Some(turn.lock(rt))
    }
}
