// Which resources an event concerns, and which a stream asked for.
ghost use Rattle.std.specs.Prelude.{◌≡◌, ◌||◌, ℕ, List, [], true, false, if◌then◌else◌};
ghost use Rattle.std.specs.Bool.{OnTrue};
ghost use Rattle.std.specs.FinSet as set;
ghost use Rattle.xds_resource.specs.PerType.{at, each};
ghost use Rattle.xds_resource.specs.declared.types.TypeName.{TypeName};
ghost use Rattle.xds_core.specs.Seen.{event_of};
ghost use Rattle.xds_node.specs.Concerns.{CoversBoth, IsConcernOf, IsInBoth, IsJoined, covers, joined, may_meet, meets, set_of};
ghost use Rattle.xds_node.specs.Gathered.{has};
ghost use Rattle.xds_node.specs.Prints.{print};

use crate::node::concerns::TypeSet;
use crate::node::gathered::{Gathered, MOST_WRITES};
use crate::node::prints::Prints;
use std::alloc::Global;
use xds_core::Event;

/// As many names are told apart at most of what a stream asked for. One that asks for more is taken to want all names of its types.
const MOST_NAMES: usize = 65_536;

/// Resources: all of some types, and of others those of some names. A name is known by its fingerprint, a number that equal names of a
/// type share, and others rarely; so there may be more resources than were meant, and never fewer.
#[derive(Drop)]
pub struct Concern {
    // Their types.
    types: TypeSet,
    // Those of which there are all names.
    whole: TypeSet,
    // The fingerprints of the others' names.
    names: Prints,
}

impl Concern {
    /// No resource.
    pub fn none(alloc: Global) -> Concern
        ensures types { set_of result.types ≡ each false }
        ensures none { (t : TypeName) (name : List ℕ) → covers result t name ≡ false }
    {
        Concern {
            types: TypeSet::none(),
            whole: TypeSet::none(),
            names: Prints::none(alloc),
        }
    }

    /// All resources.
    pub fn all(alloc: Global) -> Concern
        ensures { (t : TypeName) (name : List ℕ) → covers result t name ≡ true }
    {
        Concern {
            types: TypeSet::all(),
            whole: TypeSet::all(),
            names: Prints::none(alloc),
        }
    }

    // rule: wake-ups
    /// The resources that an event asks for or changes: those of a request's names, that of a put or of a deletion, and those of all writes
    /// that are merged, or all of their types where these are many. A request of the state of the world without names asks for all.
    pub fn of(alloc: Global, event: &Event) -> Concern
        ensures { IsConcernOf (event_of event.now) result }
    {
        Concern::gathered(TypeSet::concerned(event), Gathered::by(alloc, event))
    }

    // Names of some types.
    fn gathered(types: TypeSet, gathered: Gathered) -> Concern
        ensures types { result.types ≡ types }
        ensures covered { (t : TypeName) (name : List ℕ) → at (set_of types) t ≡ true → has gathered (print t name) ≡ true → covers result t name ≡ true }
        ensures unnamed { gathered.prints.items ≡ [] → result.names ≡ set.empty }
    {
        Concern {
            types,
            whole: if_all(gathered.all, types),
            names: Prints::of(gathered.prints),
        }
    }

    // All names of its types.
    fn take_all(&mut self)
        ensures types { self.new.types ≡ self.old.types }
        ensures all { (t : TypeName) (name : List ℕ) → at (set_of self.old.types) t ≡ true → covers self.new t name ≡ true }
    {
        self.whole = self.types;
        self.names.clear();
    }

    // rule: wake-ups
    /// A stream asked for more. Where it asks for no name of a type that it asks for first, it asks for all.
    pub fn join(&mut self, asked: &Concern, alloc: Global)
        ensures { IsJoined self.old asked.now self.new }
    {
        self.begin(asked);
        self.take_in(asked, MOST_NAMES, alloc);
    }

    // Where it asks for no name of a type that it asks for first, it is to have all of that.
    fn begin(&mut self, asked: &Concern)
        ensures types { self.new.types ≡ self.old.types }
        ensures kept { (t : TypeName) (name : List ℕ) → covers self.old t name ≡ true → covers self.new t name ≡ true }
        ensures first { meets (set_of self.old.types) (set_of asked.now.types) ≡ false → asked.now.names ≡ set.empty
            → (t : TypeName) → at (set_of asked.now.types) t ≡ true → at (set_of self.new.whole) t ≡ true }
    {
        if !self.types.meets(asked.types) && asked.names.is_empty() {
            self.whole = self.whole.joined(asked.types);
        }
    }

    // rule: wake-ups
    /// What is written more. Where that is much, all names of its types are meant.
    pub fn add(&mut self, written: &Concern, alloc: Global)
        ensures types { set_of self.new.types ≡ joined (set_of self.old.types) (set_of written.now.types) }
        ensures covered { CoversBoth self.old written.now self.new }
    {
        self.take_in(written, MOST_WRITES, alloc);
    }

    // More resources, of so many names at most.
    fn take_in(&mut self, more: &Concern, most: usize, alloc: Global)
        ensures types { set_of self.new.types ≡ joined (set_of self.old.types) (set_of more.now.types) }
        ensures covered { CoversBoth self.old more.now self.new }
        ensures whole { (t : TypeName) (name : List ℕ) → at (set_of self.old.whole) t ≡ true → at (set_of more.now.types) t ≡ true → covers self.new t name ≡ true }
    {
        self.types = self.types.joined(more.types);
        self.whole = self.whole.joined(more.whole);
        if self.has_names_of(more) {
            return;
        }
        let has_room = self.names.unite(&more.names, alloc);
        if !has_room || self.names.len() > most {
            self.take_all();
        }
    }

    // Whether it has all names of another's types, or each name that the other has.
    fn has_names_of(&self, more: &Concern) -> bool
        ensures { OnTrue result ((t : TypeName) (name : List ℕ) → at (set_of self.now.types) t ≡ true → at (set_of more.now.whole) t ≡ false
            → covers more.now t name ≡ true → covers self.now t name ≡ true) }
    {
        self.whole.includes(more.types) || self.names.has_all(&more.names)
    }

    // rule: wake-ups
    /// Whether a resource may be in both.
    pub fn meets(&self, other: &Concern) -> bool
        ensures exact { result ≡ may_meet self.now other.now }
        ensures never_fewer { (t : TypeName) (name : List ℕ) → IsInBoth self.now other.now t name → result ≡ true }
        ensures types { result ≡ true → meets (set_of self.now.types) (set_of other.now.types) ≡ true }
        ensures whole { (meets (set_of self.now.whole) (set_of other.now.types) || meets (set_of self.now.types) (set_of other.now.whole)) ≡ true
            → meets (set_of self.now.types) (set_of other.now.types) ≡ true → result ≡ true }
    {
        self.may_meet(other)
    }

    fn may_meet(&self, other: &Concern) -> bool
        ensures { result ≡ may_meet self.now other.now }
    {
        if !self.types.meets(other.types) {
            return false;
        }
        if self.whole.meets(other.types) || self.types.meets(other.whole) {
            return true;
        }
        self.names.meets(&other.names)
    }
}

// These types, if all names of them are meant.
fn if_all(all: bool, types: TypeSet) -> TypeSet
    ensures { set_of result ≡ (if all then set_of types else each false) }
{
    if all { types } else { TypeSet::none() }
}
