// Laws of steps and of lists of records. Each is a function that does nothing, whose clause is the law.
ghost use Rattle.xds_core.specs.Laws.{RefusalsChangeNothing, BeginningsAreLegal, EndsAreLegal, EventsDecide, StreamsStandApart, OnlyWritesChangeTheStore, NumberStays, CountersNeverFall, OwnCountersRise, OwnDeletionsRise};

// rule: refused-event
/// A refused event changes nothing, and a replica keeps its number.
pub fn refusals_change_nothing()
    ensures refused { RefusalsChangeNothing }
    ensures number { NumberStays }
{}

/// Both parts of a legal list are legal, and its events decide its answers.
pub fn legal_lists_are_cut()
    ensures beginnings { BeginningsAreLegal }
    ensures ends { EndsAreLegal }
    ensures decided { EventsDecide }
{}

/// An event changes one stream at most, and a write none; only writes change what is held.
pub fn streams_stand_apart()
    ensures streams { StreamsStandApart }
    ensures held { OnlyWritesChangeTheStore }
{}

// rule: tombstones
/// The counters of own writes only rise.
pub fn own_counters_rise()
    ensures held { CountersNeverFall }
    ensures put { OwnCountersRise }
    ensures deleted { OwnDeletionsRise }
{}
