//! Laws of the definitions that contracts cite. Each is a function that does nothing: its clauses are the law.
ghost use Rattle.std.specs.Prelude.{◌≡◌, ℕ, List, Contains};
ghost use Rattle.std.specs.Cmp.{IsTotalOrder};
ghost use Rattle.std.specs.declared.cmp.Ordering.TheVariants.{Equal};
ghost use Rattle.xds_resource.specs.Stamps.{IsStamp, version_text};
ghost use Rattle.xds_resource.specs.Writes.{StampedWrite, write_cmp};
ghost use Rattle.xds_resource.specs.Groups.{IsGroups, grouped, has_group, Ascend};
ghost use Rattle.xds_resource.specs.Best.{greater, best, BestIsGreatest, BestOfBoth, SameWrites};
ghost use Rattle.xds_resource.specs.PerType.{PerType, at, each, PutsAtOneType};
ghost use Rattle.xds_resource.specs.declared.types.TypeName.{TypeName};
ghost use Rattle.std.specs.Prelude.{Option};
ghost use Rattle.xds_resource.specs.Types.{types, type_cmp};
ghost use Rattle.xds_resource.specs.Resources.{IsCanonical};
ghost use Rattle.xds_resource.specs.Any.{resource_type, named_body};

use crate::any::AnyResource;
use crate::groups::Groups;
use crate::types::TypeName;

// rule: greatest-write
/// The order of writes is total, and two writes that tie are the same.
pub fn writes_are_ordered()
    ensures total { IsTotalOrder write_cmp }
    ensures ties { (v w : StampedWrite) → write_cmp v w ≡ Equal → v ≡ w }
{}

// rule: groups
/// The groups that texts come to are those texts, ascending and none of them twice, and depend on nothing else.
pub fn groups_are_a_set()
    ensures ascend { (texts : List (List ℕ)) → Ascend (grouped texts) }
    ensures members { (texts : List (List ℕ)) (text : List ℕ) → has_group (grouped texts) text ≡ has_group texts text }
    ensures alone { (texts others : List (List ℕ)) → ((text : List ℕ) → has_group texts text ≡ has_group others text)
        → grouped texts ≡ grouped others }
{}

// rule: greatest-write
/// The best of a name is the greatest write of that name, and missing only where no write has it.
pub fn best_is_greatest()
    ensures { (ws : List StampedWrite) (name : List ℕ) → BestIsGreatest ws name }
{}

// rule: greatest-write
/// The best of two lists together follows from the best of each.
pub fn best_of_both()
    ensures { (v w : List StampedWrite) (name : List ℕ) → BestOfBoth v w name }
{}

// rule: greatest-write
/// The best depends on which writes are there, and neither on their order nor on how often each stands there.
pub fn best_of_the_same_writes()
    ensures { (v w : List StampedWrite) (name : List ℕ) → SameWrites v w → best v name ≡ best w name }
{}

// rule: greatest-write
/// Which of three writes is the greater doesn't depend on the order in which they are compared.
pub fn greater_joins()
    ensures associative { (a b c : Option StampedWrite) → greater a (greater b c) ≡ greater (greater a b) c }
    ensures commutative { (a b : Option StampedWrite) → greater a b ≡ greater b a }
    ensures idempotent { (a : Option StampedWrite) → greater a a ≡ a }
{}

/// A version text names one stamp.
pub fn version_names_one_stamp()
    ensures { (c w d v : ℕ) → IsStamp c w → IsStamp d v → version_text c w ≡ version_text d v
        → (c ≡ d) × (w ≡ v) }
{}

/// What is put at a type is there alone, and what agrees at every type is the same.
pub fn one_type_at_a_time<X>()
    ensures puts { (p : PerType X) (t : TypeName) (x : X) → PutsAtOneType p t x }
    ensures alike { (x : X) (t : TypeName) → at (each x) t ≡ x }
    ensures same { (p q : PerType X) → ((t : TypeName) → at p t ≡ at q t) → p ≡ q }
{}

// rule: type-order
/// The types stand in the order of the table, in `TypeName::ALL` and by their own order.
pub fn types_stand_in_order()
    ensures all { TypeName.ALL ≡ types }
    ensures order { (s t : TypeName) → ⟦<TypeName as Ord>⟧.cmp s t ≡ type_cmp s t }
{}

// rule: groups
/// What is held as groups are groups, ascending, as they are kept.
pub fn groups_are_kept(groups: &Groups)
    ensures { IsGroups groups.now }
{
    groups.are_kept()
}

/// What is held as a resource is one: its text is the compact text of an object of its type, with its name.
pub fn resources_are_canonical(resource: &AnyResource)
    ensures { IsCanonical (resource_type resource.now) (named_body resource.now) }
{
    match resource {
        AnyResource::Cluster(resource) => resource.is_canonical(),
        AnyResource::Endpoint(resource) => resource.is_canonical(),
        AnyResource::Listener(resource) => resource.is_canonical(),
        AnyResource::Route(resource) => resource.is_canonical(),
        AnyResource::Secret(resource) => resource.is_canonical(),
    }
}
