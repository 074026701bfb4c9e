// Laws of the records of a node. Each is a function that does nothing, whose clause is the law.
ghost use Rattle.xds_trace.specs.Bases.{EveryRecordIsToldFromItsBase};
ghost use Rattle.xds_trace.specs.Texts.{TextsJoin};

/// Every record that is made from a base whose entries could be read can be told in a trace, where what it took could be read.
pub fn every_record_is_told_from_its_base()
    ensures { EveryRecordIsToldFromItsBase }
{}

// rule: cuts
/// The texts of a node's segments, one after another, and of what its history has behind them are the text of the trace that
/// `of_history` gives.
pub fn texts_join()
    ensures { TextsJoin }
{}
