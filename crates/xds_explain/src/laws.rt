// Laws of what is told. Each is a function that does nothing, whose clauses are the laws.
ghost use Rattle.xds_explain.specs.Laws.{BestLinesAreBest};

// rule: greatest-write
/// What is told as the best write of a name is its greatest write among the lines.
pub fn best_lines_are_best()
    ensures { BestLinesAreBest }
{}
