// Laws of merges by parts and of rounds. Each is a function that does nothing, whose clause is the law.
ghost use Rattle.xds_exchange.specs.Laws.{
  PartsAreOneMerge,
  ChangesAreAll,
  AllIsKnown,
  ZerosKnowNothing,
  MergesKeepKnowing,
  EventsKeepCatalogues,
  TellersMayWrite,
  HearersMayWrite,
  MarksAreTaken,
};

// rule: greatest-write
/// The parts of some writes, merged one after another, come to one merge of them all.
pub fn parts_are_one_merge()
    ensures { PartsAreOneMerge }
{}

// rule: marks
/// Where what isn't above the marks is known, what is above them comes to the same as all.
pub fn changes_are_all()
    ensures { ChangesAreAll }
{}

// rule: marks
/// Once all is merged, all is known.
pub fn all_is_known()
    ensures { AllIsKnown }
{}

// rule: marks
/// With marks of zero nothing needs to be known.
pub fn zeros_know_nothing()
    ensures { ZerosKnowNothing }
{}

// rule: marks
/// What is known stays known, whatever writes are merged.
pub fn merges_keep_knowing()
    ensures { MergesKeepKnowing }
{}

/// What every replica's catalogues are, they stay, whatever happens there.
pub fn events_keep_catalogues()
    ensures { EventsKeepCatalogues }
{}

// rule: marks
/// What is known stays known, whatever happens at the replica that tells since its marks were taken: its own writes, merges
/// of others', and all else.
pub fn tellers_may_write()
    ensures { TellersMayWrite }
{}

// rule: marks
/// What is known stays known, whatever happens at the replica that is told.
pub fn hearers_may_write()
    ensures { HearersMayWrite }
{}

// rule: marks
/// A replica's counts of changes are marks that were taken of it, and so are zeros.
pub fn marks_are_taken()
    ensures { MarksAreTaken }
{}
