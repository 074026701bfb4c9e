// What holds of two runs over one store.
ghost use Rattle.std.specs.Prelude.{◌≤◌, ◌+◌, ℕ, IfOk};
ghost use Rattle.sqlite_trees.specs.View.{IsClean, doubt};
ghost use Rattle.xds_store.specs.Numbers.{AreTaken};

use crate::refusal::{StoreRefusal, of_trees};
use crate::store::Store;
use sqlite_trees::store::Reopen;
use xds_message::Batch;

// rule: new-numbers
/// A run that takes numbers and puts a batch, whatever that answers, and ends by a crash; and the next run over what the
/// crash leaves. It answers the first number of each: those of the second are above all of the first.
pub fn numbers_of_two_runs<S: Reopen>(
    store: &mut Store<S>,
    first_count: u16,
    batch: &Batch,
    second_count: u16,
) -> Result<(u16, u16), StoreRefusal>
    ensures { IfOk result (λ p. IsClean (S.Store.view store.new.trees) → p.0 + first_count ≤ p.1) }
{
    let first = store.take_numbers(first_count)?;
    let _ = store.put_batch(batch);
    crash(store)?;
    let second = store.take_numbers(second_count)?;
    Ok((first, second))
}

fn crash<S: Reopen>(store: &mut Store<S>) -> Result<(), StoreRefusal>
    ensures clean { doubt (S.Store.view store.old.trees).is_clean ≤ doubt (S.Store.view store.new.trees).is_clean }
    ensures kept { (next : ℕ) → AreTaken S.Store.recovers store.old.trees next → AreTaken S.Store.recovers store.new.trees next }
{
    match store.trees.crash_and_reopen() {
        Ok(()) => Ok(()),
        Err(error) => Err(of_trees(error)),
    }
}
