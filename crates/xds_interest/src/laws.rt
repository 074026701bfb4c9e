//! What interests are, as statements that the prover checks. The functions do nothing.
ghost use Rattle.xds_interest.specs.Examples.{SotwClusters, SotwRoutes, SotwTwice, DeltaClusters, DeltaRoutes};
ghost use Rattle.xds_interest.specs.Laws.{WhileNothingIsNamed, LastListSaysAll, ListReachesItsNames, OneRequestMore, OneRequestMoreForTheStar, StarIsNoName, IncompleteHasNoStar, UntouchedKeepsReach, UntouchedKeepsReachInDelta, CoveredIsReached, WithoutGroupsReachedIsCovered, UntouchedKeepsCover, SotwIsKept, DeltaIsKept, WideningIsUndone, NarrowingIsTheRest, UnchangedTouchesNothing, SotwTouchIsASet, DeltaTouchIsASet, KeptStarIsOfComplete, UntouchedKeepsReachOfKept, UntouchedKeepsReachOfKeptInDelta, UntouchedKeepsCoverOfKept, UntouchedKeepsCoverOfKeptInDelta};

// rule: listed-names
/// Streams of state of the world, worked out request by request. An empty list is the star of
/// clusters only while nothing was named.
pub fn sotw_examples()
    ensures clusters { SotwClusters }
    ensures routes { SotwRoutes }
    ensures twice { SotwTwice }
{}

// rule: delta-names
/// Delta streams, worked out request by request.
pub fn delta_examples()
    ensures clusters { DeltaClusters }
    ensures routes { DeltaRoutes }
{}

// rule: listed-names
/// While no list has named anything, the interest is all of a complete type and nothing of an
/// incomplete one. Once one has, the last list says all. A list reaches the names that it has,
/// and every name if it has the star.
pub fn sotw_lists()
    ensures unnamed { WhileNothingIsNamed }
    ensures last { LastListSaysAll }
    ensures reaches { ListReachesItsNames }
{}

// rule: delta-names
/// One delta request more changes what it mentions, and nothing else.
pub fn delta_requests()
    ensures names { OneRequestMore }
    ensures star { OneRequestMoreForTheStar }
{}

// rule: star-covers
/// The star is no explicit name of a complete type, and an incomplete type has no star.
pub fn stars()
    ensures complete { StarIsNoName }
    ensures incomplete { IncompleteHasNoStar }
{}

/// A name that a request does not touch stays reached, or not reached.
pub fn untouched_keeps_reach()
    ensures sotw { UntouchedKeepsReach }
    ensures delta { UntouchedKeepsReachInDelta }
{}

// rule: star-covers
/// What is covered is reached, and what is reached and has no groups is covered. A name that a
/// request does not touch stays covered, or not covered, whatever its groups.
pub fn reach_and_cover()
    ensures reached { CoveredIsReached }
    ensures covered { WithoutGroupsReachedIsCovered }
    ensures untouched { UntouchedKeepsCover }
{}

// rule: listed-names, rule: delta-names
/// What is kept of a stream's requests suffices to tell the interest after the next.
pub fn what_is_kept_suffices()
    ensures sotw { SotwIsKept }
    ensures delta { DeltaIsKept }
{}

// rule: delta-names
/// A delta request can be taken in two steps, of which the first can be undone: the names that it
/// subscribes come in, and then what else it unsubscribes goes out.
pub fn requests_in_two_steps()
    ensures undone { WideningIsUndone }
    ensures rest { NarrowingIsTheRest }
{}

/// The touched names as a set are those of the definition. An interest that stays as it is touches none.
pub fn touched_names_are_a_set()
    ensures unchanged { UnchangedTouchesNothing }
    ensures sotw { SotwTouchIsASet }
    ensures delta { DeltaTouchIsASet }
{}

/// A name that a request does not touch stays reached, or not reached, by what is kept of the
/// requests. Only a complete type has the star there.
pub fn untouched_keeps_reach_of_kept()
    ensures star { KeptStarIsOfComplete }
    ensures sotw { UntouchedKeepsReachOfKept }
    ensures delta { UntouchedKeepsReachOfKeptInDelta }
{}

/// And such a name stays covered, or not covered, whatever its groups.
pub fn untouched_keeps_cover_of_kept()
    ensures sotw { UntouchedKeepsCoverOfKept }
    ensures delta { UntouchedKeepsCoverOfKeptInDelta }
{}
