// The threads that a server starts: each owns what it works on.
use crate::wires::started;
use std::sync::Arc;
use std::thread;
use std::thread::Threads;
use xds_resource::Refusal;

/// Starts a thread that does this work, with what it owns. `OutOfMemory` where there is no thread.
pub fn start_worker<R, S, W>(rt: &R, owned: Result<S, Refusal>, work: W) -> Result<(), Refusal>
where
    R: Threads + Copy + Drop + Send + Sync + 'static,
    S: Drop + Send + 'static,
    W: FnOnce(&R, S) + Drop + Send + 'static,
    requires { W.IsAlwaysCallable work }
{
    let owned = owned?;
    let rt = *rt;
    started(thread::spawn(&rt, move || work(&rt, owned)))
}

/// A share of something.
pub fn share<T: Drop>(it: &Arc<T>) -> Result<Arc<T>, Refusal> {
    Ok(Arc::try_clone(it)?)
}

/// A share of one thing, and one of another.
pub fn shares<T: Drop, U: Drop>(one: &Arc<T>, other: &Arc<U>) -> Result<(Arc<T>, Arc<U>), Refusal> {
    let one = Arc::try_clone(one)?;
    let other = Arc::try_clone(other)?;
    Ok((one, other))
}
