// Laws of the texts of traces, and of verdicts on traces. Each is a function that does nothing, whose clauses are the laws.
ghost use Rattle.xds_check.specs.Laws.{ATextSaysOneLine, BytesAreOneTrace, ATraceHasNoBadLine, NoneBrokenHasNoFirst, OneIsFirst};

/// A text says one line at most, and bytes are one trace at most, with no bad line where they are one. So what
/// `Trace::write` gives of a trace whose lines stand in order is read again as the same trace, or there is no memory.
pub fn bytes_are_one_trace()
    ensures line { ATextSaysOneLine }
    ensures trace { BytesAreOneTrace }
    ensures no_bad_line { ATraceHasNoBadLine }
{}

/// No trace both keeps the rules and has a first broken line, and the first broken line of any other trace is one, with one
/// least rule.
pub fn a_trace_has_one_verdict()
    ensures either { NoneBrokenHasNoFirst }
    ensures once { OneIsFirst }
{}
