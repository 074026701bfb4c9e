// Whether the lines of a trace keep the rules.
ghost use Rattle.std.specs.Prelude.{◌≡◌, IfOk, IfErr};
ghost use Rattle.xds_resource.specs.declared.refusal.Refusal.TheVariants.{OutOfMemory};
ghost use Rattle.xds_resource.specs.PerType.{each};
ghost use Rattle.xds_check.specs.Judges.{nothing_judged};
ghost use Rattle.xds_check.specs.Verdicts.{IsVerdict, TellsWell, TellsTheFirst};

use crate::judges::Judges;
use crate::line::Line;
use crate::rule::Rule;
use std::alloc::Global;
use xds_resource::Refusal;

/// The first line of a trace at which a rule is broken.
#[derive(Clone, Copy, Debug, PartialEq, Eq)]
pub struct Broken {
    /// The number of the line, from 1.
    pub line: usize,
    /// The least rule that is broken there.
    pub rule: Rule,
}

/// The first line at which a rule is broken, and the least rule that is broken there; none where every line keeps the rules.
/// Refused only by `OutOfMemory`.
pub fn check(alloc: Global, lines: &[Line]) -> Result<Option<Broken>, Refusal>
    ensures ok { IfOk result (IsVerdict lines.now) }
    ensures well { IfOk result (TellsWell lines.now) }
    ensures first { IfOk result (TellsTheFirst lines.now) }
    ensures refused { IfErr result (λ e. e ≡ OutOfMemory) }
{
    let mut judges = Judges::new(alloc);
    let verdict = first_broken(alloc, &mut judges, lines);
    drop(judges);
    verdict
}

// The first line at which a rule is broken, where nothing was kept before.
fn first_broken(
    alloc: Global,
    judges: &mut Judges,
    lines: &[Line],
) -> Result<Option<Broken>, Refusal>
    requires { judges.old ≡ each nothing_judged }
    ensures ok { IfOk result (IsVerdict lines.now) }
    ensures refused { IfErr result (λ e. e ≡ OutOfMemory) }
{
    for (i, line) in lines.iter().enumerate() {
        if let Some(rule) = judges.take(alloc, line)? {
            return Ok(Some(Broken { line: i + 1, rule }));
        }
    }
    Ok(None)
}
