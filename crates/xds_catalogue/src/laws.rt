//! Laws of catalogues, as statements that the prover checks. The functions do nothing.
ghost use Rattle.xds_catalogue.specs.Laws.{HasTheBest, StandUnderTheirNames, IsMadeOfItsWrites, OrderDoesNotMatter, JoinsTheWrites, JoinCommutes, JoinAssociates, JoinIsIdempotent, JoinIsAbove, JoinIsLeast, JoinsOneAfterAnother, RepeatsChangeNothing, NoChangeKeepsAll, NoneAbove, IsReached, EntriesAreNumbered, NoChangeKeepsNumbers, NumberIsOfTheLast};
ghost use Rattle.xds_catalogue.specs.Holdings.{IsNumbered, nothing_held};

// rule: greatest-write
/// A catalogue has the best write of each name, under that name.
pub fn has_the_best()
    ensures best { HasTheBest }
    ensures named { StandUnderTheirNames }
    ensures again { IsMadeOfItsWrites }
{}

// rule: greatest-write
/// Neither the order of writes nor how often each comes changes a catalogue.
pub fn order_does_not_matter()
    ensures { OrderDoesNotMatter }
{}

// rule: greatest-write
/// Catalogues join as a semilattice, by joining their writes.
pub fn join_is_a_semilattice()
    ensures writes { JoinsTheWrites }
    ensures commutative { JoinCommutes }
    ensures associative { JoinAssociates }
    ensures idempotent { JoinIsIdempotent }
{}

// rule: greatest-write
/// A join is the least that is above both of its parts.
pub fn join_is_least_above()
    ensures above { JoinIsAbove }
    ensures least { JoinIsLeast }
{}

// rule: greatest-write
/// Lists of writes one after another are joined as one list, and writes that come again change nothing.
pub fn writes_come_again()
    ensures lists { JoinsOneAfterAnother }
    ensures repeats { RepeatsChangeNothing }
    ensures unchanged { NoChangeKeepsAll }
{}

/// No entry has a counter above the greatest, which is 0 or some entry's.
pub fn greatest_counter_is_reached()
    ensures bound { NoneAbove }
    ensures reached { IsReached }
{}

// rule: marks
/// Each entry has a number from 1 to the count of changes, and no two have the same. It is the number of the last
/// change of the entry, so that writes which change nothing leave all numbers.
pub fn entries_are_numbered()
    ensures none { IsNumbered nothing_held }
    ensures kept { EntriesAreNumbered }
    ensures last { NumberIsOfTheLast }
    ensures unchanged { NoChangeKeepsNumbers }
{}
