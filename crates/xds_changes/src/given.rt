// The numbers of the replicas of a server that begins with stamped writes of a file.
ghost use Rattle.std.specs.Prelude.{◌≡◌, ◌≤◌, ℕ, All, IfSome, None};
ghost use Rattle.xds_resource.specs.PerType.{at};
ghost use Rattle.xds_changes.specs.Given.{
  AreBelow,
  AllBelow,
  HasNoNumber,
  IsLeastOrAsked,
  IsLeastOver,
  IsNumberOver,
  IsOver,
};

use xds_message::Batch;
use xds_resource::{ResourceType, Write};

// rule: new-numbers
/// The number of the first of so many replicas: the one that is asked for, or else the least one above those of the replicas that made the
/// given writes. None where no number would do: that which is asked for isn't above these, or the last replica's would be above 65,535.
pub fn number_over(asked: Option<u16>, replicas: u16, given: &Option<Batch>) -> Option<u16>
    ensures some { IfSome result (λ first. IsNumberOver asked replicas given.now first) }
    ensures least { IfSome result (λ first. IsLeastOrAsked asked given.now first) }
    ensures none { result ≡ None → HasNoNumber asked replicas given.now }
{
    let least = least_number(given);
    let first = match asked {
        Some(first) => first,
        None => u16::try_from(least).ok()?,
    };
    let is_free = u32::from(first) >= least;
    let has_room = u32::from(first) + u32::from(replicas) <= 65_536;
    if is_free && has_room {
        Some(first)
    } else {
        None
    }
}

// rule: new-numbers
// The least number, from 1, above those of the replicas that made the given writes.
fn least_number(given: &Option<Batch>) -> u32
    ensures { IsLeastOver given.now result }
{
    match given {
        Some(batch) => number_above(batch),
        None => 1,
    }
}

// rule: new-numbers
// The least number, from 1, above those of the replicas that made the writes of a batch.
fn number_above(batch: &Batch) -> u32
    ensures positive { 1 ≤ result }
    ensures above { AllBelow result batch.now }
    ensures least { (other : ℕ) → 1 ≤ other → AllBelow other batch.now → result ≤ other }
{
    let number = above_all(&batch.cluster, 1);
    let number = above_all(&batch.endpoint, number);
    let number = above_all(&batch.listener, number);
    let number = above_all(&batch.route, number);
    above_all(&batch.secret, number)
}

// The least number that is no less than this one, and above those of the replicas that made these writes.
fn above_all<T: ResourceType>(writes: &Vec<Write<T>>, least: u32) -> u32
    ensures no_less { least ≤ result }
    ensures above { AreBelow result writes.now.items }
    ensures least { (other : ℕ) → least ≤ other → AreBelow other writes.now.items → result ≤ other }
{
    let mut number = least;
    for write in writes {
        number = number.max(u32::from(write.stamp().writer) + 1);
    }
    number
}
