// Stories as texts, a step a line: the step, ` => `, and the answer that is wanted.
ghost use Rattle.std.specs.Prelude.{◌≡◌, All, IfOk, OnOk, string_bytes, Ok, if◌then◌else◌, codes};
ghost use Rattle.xds_resource.specs.Refusals.{Gives};
ghost use Rattle.xds_cases.specs.Texts.{pieces};
ghost use Rattle.xds_cases.specs.Cases.{unfolded};
ghost use Rattle.xds_cases.specs.Scripts.{parts_of, IsAnswered, IsFollowed};

use crate::cases::{cut, same, told, unfolded, written_out};
use std::alloc::Global;
use std::test::Fail;
use xds_resource::Refusal;

/// What the steps of a script are answered, one after another.
pub trait Script: Drop {
    ghost use Rattle.std.specs.Prelude.{⊤, List, ℕ, string_bytes};
    ghost use Rattle.xds_cases.specs.Cases.{told_by};

    // Holds of what a script may begin as.
    ghost may_begin: { Self → Type 0 } = { λ _. ⊤ };

    // Holds of a script, a verb and the rest of its step, what may be told of the answer, and the
    // script after it.
    ghost may_answer: { Self → List ℕ → List ℕ → List ℕ → Self → Type 0 } = { λ _ _ _ _ _. ⊤ };

    fn begin(alloc: Global) -> Self
        ensures { may_begin result };

    fn step(&mut self, alloc: Global, verb: &str, rest: &str) -> Result<String, Refusal>
        ensures { may_answer self.old verb.now rest.now (told_by string_bytes result) self.new };
}

/// Compares the answer to each step with the one that is wanted, a step a line: the step, ` => `,
/// and the answer. An empty line stands between two stories, and each begins anew. As in `hold`, a
/// line that begins with four spaces goes on with the line before it, and the types' URLs are
/// written short.
pub fn follow<S: Script, R: AllocGlobal>(rt: &R, stories: &str) -> Result<(), Fail>
    ensures { OnOk result (All (IsFollowed S.may_begin S.may_answer) (pieces (codes "\n\n") (unfolded stories.now))) }
{
    let whole = unfolded(rt.alloc(), stories)?;
    for story in whole.as_str().split("\n\n") {
        follow_one::<S>(rt.alloc(), story)?;
    }
    Ok(())
}

fn follow_one<S: Script>(alloc: Global, story: &str) -> Result<(), Fail>
    ensures { OnOk result (IsFollowed S.may_begin S.may_answer story.now) }
{
    let mut script = S::begin(alloc);
    for line in story.lines() {
        follow_line::<S>(alloc, &mut script, line)?;
    }
    Ok(())
}

fn follow_line<S: Script>(alloc: Global, script: &mut S, line: &str) -> Result<(), Fail>
    ensures { OnOk result (IsAnswered S.may_answer script.old line.now script.new) }
{
    let line = written_out(alloc, line)?;
    let (step, wanted) = cut(line.as_str(), " => ").ok_or("a step has no answer")?;
    let found = answer::<S>(alloc, script, step)?;
    same(found.as_str(), wanted, step)
}

// What is told of the answer to a step.
fn answer<S: Script>(alloc: Global, script: &mut S, step: &str) -> Result<String, Refusal>
    ensures { IfOk result (λ text. S.may_answer script.old (parts_of step.now).0 (parts_of step.now).1 (string_bytes text) script.new) }
{
    let (verb, rest) = cut(step, " ").unwrap_or((step, ""));
    let answered = script.step(alloc, verb, rest);
    told(alloc, answered)
}

/// One of two words. `OutOfMemory` where no text could be made.
pub fn either(alloc: Global, is: bool, word: &str, other: &str) -> Result<String, Refusal>
    ensures { Gives string_bytes result (Ok (if is then word.now else other.now)) }
{
    Ok(String::from_str(alloc, if is { word } else { other })?)
}
