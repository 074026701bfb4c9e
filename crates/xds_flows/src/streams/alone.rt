// A thread that polls one task of its own, and sleeps where that is pending.
ghost use Rattle.std.specs.Prelude.{◌≡◌, IfErr};
ghost use Rattle.xds_resource.specs.declared.refusal.Refusal.TheVariants.{OutOfMemory};

use futures::task::{Doorbell, Queue};
use std::alloc::AllocGlobal;
use std::random::RandomSource;
use xds_resource::Refusal;

/// A queue whose one task is that of the thread that asks it for the next. `OutOfMemory` where none can be made.
pub fn queue_of_one<R: RandomSource + AllocGlobal>(rt: &R) -> Result<Queue, Refusal>
    ensures { IfErr result (λ e. e ≡ OutOfMemory) }
{
    let Ok(queue) = Queue::new(rt, Doorbell::parking()) else {
        return Err(Refusal::OutOfMemory);
    };
    if is_scheduled(&queue) {
        Ok(queue)
    } else {
        Err(Refusal::OutOfMemory)
    }
}

// Puts a task into a queue, to be polled at once. Answers whether there was memory for it.
fn is_scheduled(queue: &Queue) -> bool {
    match queue.add() {
        Ok(vacancy) => {
            vacancy.schedule();
            true
        }
        Err(_) => false,
    }
}
