// The rule over a channel from one thread to another, and the steps that keep it.

use crossbeam_channel::protocol::{Join, Lesson, Outcome, Protocol, Split};
use std::collections::LinkedList;

/// What a pass to a channel may do, and what it knows, as contracts see it. No value of it is made.
pub struct Log<T> {
    /// Whether its holder may put, and may take.
    pub puts: bool,
    pub takes: bool,
    /// What its holder has put, and has taken.
    pub put: LinkedList<T>,
    pub taken: LinkedList<T>,
}

/// What was put is what was taken, and then what the channel holds.
pub struct Relay;

impl<T> Protocol<Option<T>, Log<T>> for Relay {
    ghost use Rattle.std.specs.Prelude.{true, []};
    ghost use Rattle.xds_exchange.specs.Relays.{log, Relayed};

    ghost holds = { Relayed };

    ghost first = { log true true [] [] };
}

/// One may put, and the other take.
pub struct Roles;

impl<T> Split<Log<T>> for Roles {
    ghost use Rattle.std.specs.Prelude.{true, false, []};
    ghost use Rattle.xds_exchange.specs.Relays.{log};

    ghost left = { λ v. log true false v.put [] };

    ghost right = { λ v. log false true [] v.taken };
}

impl<T> Join<Log<T>> for Roles {
    ghost use Rattle.std.specs.Prelude.{true, false, []};
    ghost use Rattle.xds_exchange.specs.Relays.{log};

    ghost both = { λ v w. log true true v.put w.taken };

    ghost spent = { log false false [] [] };
}

/// A message more was put. The mark of the end is no item.
pub struct Puts;

impl<T> Outcome<Option<T>, Log<T>> for Puts {
    ghost use Rattle.std.specs.Prelude.{◌≡◌, ◌++◌};
    ghost use Rattle.xds_exchange.specs.Relays.{log, item_of};

    ghost then = { λ v x w. w ≡ log v.puts v.takes (v.put ++ item_of x) v.taken };
}

/// A message more was taken.
pub struct Takes;

impl<T> Outcome<Option<T>, Log<T>> for Takes {
    ghost use Rattle.std.specs.Prelude.{◌≡◌, ◌++◌};
    ghost use Rattle.xds_exchange.specs.Relays.{log, item_of};

    ghost then = { λ v x w. w ≡ log v.puts v.takes v.put (v.taken ++ item_of x) };
}

/// What is in the channel tells nothing to who puts or takes.
impl<T> Lesson<Option<T>, Log<T>> for Puts {
    ghost use Rattle.std.specs.Prelude.{⊤};

    ghost fact = { λ v messages. ⊤ };
}

impl<T> Lesson<Option<T>, Log<T>> for Takes {
    ghost use Rattle.std.specs.Prelude.{⊤};

    ghost fact = { λ v messages. ⊤ };
}

/// Who may put and take learns that what was taken is a beginning of what was put.
pub struct Whole;

impl<T> Lesson<Option<T>, Log<T>> for Whole {
    ghost use Rattle.std.specs.Prelude.{◌≡◌, ◌++◌};
    ghost use Rattle.xds_exchange.specs.Relays.{items_of};

    ghost fact = { λ v messages. v.put ≡ v.taken ++ items_of messages };
}
