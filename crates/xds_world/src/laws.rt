// Laws of worlds, over every list of what may happen. Each is a function that does nothing, whose clause is the law.
ghost use Rattle.std.specs.Prelude.{List};
ghost use Rattle.xds_cache.specs.Faults.{Test};
ghost use Rattle.xds_script.specs.Happenings.{Happening};
ghost use Rattle.xds_world.specs.Claims.{HoldsWhatItKnows, PutResources, SameKnowledgeSameHoldings, SettledIsExact, SettledAgrees, LinksAreFollowed, OneWriteAStamp, JournalsAreLegal, JournalsTellAll, PolledIsExact, PolledIsTaken, LostLeavesTheView, PollsArePossible, PollersHaveNoStream};
ghost use Rattle.xds_world.specs.Settling.{TwoResponsesSuffice, QuietAtTheEnd, UnsettledHasRefused, StopsWhereSpent, SettlesWhereAllIsTaken};

// rule: greatest-write
/// What a replica holds are the best writes of what it knows, so replicas that know the same writes hold the same.
pub fn replicas_hold_what_they_know()
    ensures holds { (test : Test) (hs : List Happening) → HoldsWhatItKnows test hs }
    ensures same { (test : Test) (hs : List Happening) → SameKnowledgeSameHoldings test hs }
{}

// rule: new-numbers
/// What is known was made at some replica, and no two writes of a type have the same stamp.
pub fn a_stamp_names_one_write()
    ensures { (test : Test) (hs : List Happening) → OneWriteAStamp test hs }
{}

/// Each replica's journal is legal, the replica is what the journal leaves, and the journal tells exactly what happened there.
pub fn journals_are_legal()
    ensures legal { (test : Test) (hs : List Happening) → JournalsAreLegal test hs }
    ensures told { (test : Test) (hs : List Happening) → JournalsTellAll test hs }
{}

/// A client that is up, to which nothing of a type is under way and nothing owed, shows exactly what its replica knows of what it
/// wants, and of what its star covers in its cluster; but of an incomplete type, in the state of the world, what is live there no
/// longer may remain.
pub fn settled_clients_are_exact()
    ensures delta { (test : Test) (hs : List Happening) → PutResources hs → SettledIsExact test hs }
    ensures sotw { (test : Test) (hs : List Happening) → PutResources hs → SettledAgrees test hs }
{}

// rule: whole-or-nothing, rule: not-modified
/// A client of REST shows, after a poll whose answer came and wasn't rejected or said that nothing changed, what its replica knew then;
/// but of an incomplete type what is live there no longer may remain. An answer is rejected only where the client's test refuses
/// something of it, and one that is lost or rejected leaves the view. A poll is possible wherever something is wanted. Such a client
/// never has a stream.
pub fn polled_clients_are_exact()
    ensures exact { (test : Test) (hs : List Happening) → PutResources hs → PolledIsExact test hs }
    ensures taken { (test : Test) (hs : List Happening) → PutResources hs → PolledIsTaken test hs }
    ensures lost { (test : Test) (hs : List Happening) → LostLeavesTheView test hs }
    ensures possible { (test : Test) (hs : List Happening) → PollsArePossible test hs }
    ensures streamless { (test : Test) (hs : List Happening) → PutResources hs → PollersHaveNoStream test hs }
{}

/// A client is up exactly where it was linked last and didn't lose that link, is of the cluster that it came with, and wants what it
/// was told to.
pub fn links_are_followed()
    ensures { (test : Test) (hs : List Happening) → LinksAreFollowed test hs }
{}

/// Settling a client of a type takes at most two of its responses: one that may be under way before its replica is polled, and one of
/// what the replica holds. Where it ends nothing of the type is under way; and if the client isn't settled then, it refused
/// what its replica would send it.
pub fn two_responses_suffice()
    ensures two { (test : Test) (hs : List Happening) → PutResources hs → TwoResponsesSuffice test hs }
    ensures quiet { (test : Test) (hs : List Happening) → PutResources hs → QuietAtTheEnd test hs }
    ensures refused { (test : Test) (hs : List Happening) → PutResources hs → UnsettledHasRefused test hs }
{}

/// What is to be done next to settle a client of a type is possible, but for a poll where the responses on the client's stream are
/// spent and one of the type is due.
pub fn settling_stops_where_spent()
    ensures { (test : Test) (hs : List Happening) → PutResources hs → StopsWhereSpent test hs }
{}

/// A client whose test takes all that it is to show of what its replica knows is settled where settling ends.
pub fn settling_settles()
    ensures { (test : Test) (hs : List Happening) → PutResources hs → SettlesWhereAllIsTaken test hs }
{}
