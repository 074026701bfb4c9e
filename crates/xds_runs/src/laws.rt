// Laws of runs, over every list of what may happen. Each is a function that does nothing, whose clause is the law.
ghost use Rattle.std.specs.Prelude.{◌≡◌, ℕ, List, [], ◌∷◌, true};
ghost use Rattle.xds_cache.specs.Faults.{Test};
ghost use Rattle.xds_runs.specs.Runs.{Moment, Begin, runs, is_number};
ghost use Rattle.xds_runs.specs.Claims.{PutResourcesThen, AreOneWorld, DeltaShowsWhatIsHeld, SotwShowsWhatIsHeld, PollShowsWhatIsHeld, HoldsTheStored, BeginsWithWhatIsStored, KeepsWhatWasStored, StoredStays, OneWriteAVersion};

// rule: new-numbers
/// Runs over one store, each with numbers of its own, are one list of happenings, so that the headline holds of it.
pub fn runs_are_one_world()
    ensures { (test : Test) (store : ℕ) (ms : List Moment) → is_number store ≡ true → PutResourcesThen ms → AreOneWorld test store ms }
{}

/// A client that goes on from run to run, to which nothing of a type is under way and nothing owed, shows exactly what its replica of
/// the run under way holds of its interest; but of an incomplete type, in the state of the world, what is live there no longer may
/// remain.
pub fn settled_clients_show_what_is_held()
    ensures delta { (test : Test) (store : ℕ) (ms : List Moment) → is_number store ≡ true → PutResourcesThen ms → DeltaShowsWhatIsHeld test store ms }
    ensures sotw { (test : Test) (store : ℕ) (ms : List Moment) → is_number store ≡ true → PutResourcesThen ms → SotwShowsWhatIsHeld test store ms }
{}

/// A client of REST that goes on from run to run shows, after a poll whose answer came and wasn't rejected or said that nothing
/// changed, what the replica holds.
pub fn polled_clients_show_what_is_held()
    ensures { (test : Test) (store : ℕ) (ms : List Moment) → is_number store ≡ true → PutResourcesThen ms → PollShowsWhatIsHeld test store ms }
{}

// rule: loaded-first
/// Each replica of a run that begins holds exactly what is stored.
pub fn replicas_begin_with_what_is_stored()
    ensures { (test : Test) (store : ℕ) (ms : List Moment) → is_number store ≡ true → PutResourcesThen ms → BeginsWithWhatIsStored test store ms }
{}

// rule: greatest-write
/// Until the next run begins, each replica of a run holds of each name what was stored where the run began, or a greater write.
pub fn replicas_keep_what_was_stored()
    ensures { (test : Test) (store : ℕ) (ms : List Moment) → is_number store ≡ true → PutResourcesThen ms → KeepsWhatWasStored test store ms }
{}

// rule: greatest-write
/// What is stored of a name stays, over whatever runs come, until a greater write of the name is stored.
pub fn what_is_stored_stays()
    ensures { (test : Test) (store : ℕ) (ms more : List Moment) → StoredStays test store ms more }
{}

// rule: new-numbers
/// Two writes of a type that were held or stored at any time, of whatever runs, are the same write where their versions are the same.
pub fn a_version_is_of_one_write()
    ensures { (test : Test) (store : ℕ) (ms more : List Moment) → is_number store ≡ true → PutResourcesThen ms → PutResourcesThen more → OneWriteAVersion test store ms more }
{}

// rule: new-numbers
/// Of a store of number 65,535, a run of replica 1 and then one of replica 2 begin, and replica 2 holds what is stored.
pub fn two_runs_begin()
    ensures { (test : Test) → HoldsTheStored (runs test 65535 (Begin (1 ∷ []) ∷ [])) (runs test 65535 (Begin (1 ∷ []) ∷ Begin (2 ∷ []) ∷ [])) 2 }
{}
