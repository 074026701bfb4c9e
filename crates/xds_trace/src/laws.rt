// Laws of the traces that replicas make. Each is a function that does nothing, whose clauses are the laws.
ghost use Rattle.xds_trace.specs.Telling.{EveryRecordIsTold};
ghost use Rattle.xds_trace.specs.Claims.{EveryLegalTraceKeepsTheRules, SoDoIdleEnds, EveryTraceKeepsTheRules, SoDoesOneWithIdleEnds, EveryLegalTraceIsInOrder, EveryStreamHasANumber};

// rule: awaited-names, rule: whole-response, rule: covered-only, rule: no-live-removal
// rule: best-writes, rule: one-unanswered, rule: refused-offer, rule: new-nonce
/// The trace of what a replica did breaks no rule, whoever sent the requests and however bodies are called, nor does it with lines
/// at its end that say truly that nothing is owed.
pub fn every_legal_trace_keeps_the_rules()
    ensures kept { EveryLegalTraceKeepsTheRules }
    ensures idle { SoDoIdleEnds }
{}

// rule: awaited-names, rule: whole-response, rule: covered-only, rule: no-live-removal
// rule: best-writes, rule: one-unanswered, rule: refused-offer, rule: new-nonce
/// The same of what the calls of a replica take.
pub fn every_trace_keeps_the_rules()
    ensures kept { EveryTraceKeepsTheRules }
    ensures idle { SoDoesOneWithIdleEnds }
{}

/// The lines of such a trace stand in an order that a trace may have, and their streams have numbers that a stream may have. So a
/// trace that is written is read again.
pub fn every_legal_trace_is_in_order()
    ensures order { EveryLegalTraceIsInOrder }
    ensures numbers { EveryStreamHasANumber }
{}

/// Every record of a replica can be told in a trace: what it sent are resources of their types, and what it deleted has a name that
/// a resource may have.
pub fn every_record_is_told()
    ensures { EveryRecordIsTold }
{}
