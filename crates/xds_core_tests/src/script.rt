// Stories as texts, one step a line: what happens, ` => `, and what is answered.
use std::alloc::Global;
use std::test::Fail;
use xds_cases::cases::{unfolded, written_out};
use xds_resource::Refusal;

/// To whom stories happen. Of a type parameter, a drop is one step to the proof, and of a replica
/// it is many, on each way out: so only functions over a type parameter hold one.
pub trait Actor: Drop + Sized {
    fn begin(alloc: Global) -> Self;

    /// Puts an equal copy in its place.
    fn renew(&mut self, alloc: Global) -> Result<(), Refusal>;

    /// What is answered to a step. That no memory was found is no answer.
    fn answer(&mut self, alloc: Global, verb: &str, rest: &str) -> Result<String, Refusal>;

    /// Whether an event is refused since no memory was found. Another refusal is passed on.
    fn is_short(&mut self, alloc: Global, verb: &str, rest: &str) -> Result<bool, Refusal>;
}

/// Plays a story.
pub(crate) fn play<A: Actor, R: AllocGlobal>(rt: &R, story: &str) -> Result<(), Fail> {
    let mut actor = A::begin(rt.alloc());
    play_on(rt.alloc(), &mut actor, story)
}

/// Plays a story on. Each step happens to a copy of the actor, which then stands for it. A line
/// that begins with four spaces goes on with the line before it.
pub(crate) fn play_on<A: Actor>(alloc: Global, actor: &mut A, story: &str) -> Result<(), Fail> {
    let story = unfolded(alloc, story)?;
    for line in story.as_str().lines() {
        actor.renew(alloc)?;
        play_line(alloc, actor, line)?;
    }
    Ok(())
}

/// Does one step, and compares. In a story `CDS`, `EDS`, `LDS`, `RDS` and `SDS` stand for the URLs
/// of the types.
pub(crate) fn play_line<A: Actor>(alloc: Global, actor: &mut A, line: &str) -> Result<(), Fail> {
    let line = written_out(alloc, line)?;
    let (step, wanted) = line
        .as_str()
        .split_once(" => ")
        .ok_or("a step has no answer")?;
    let (verb, rest) = parted(step);
    let answer = actor.answer(alloc, verb, rest)?;
    compare(answer.as_str(), wanted, step)
}

fn compare(answer: &str, wanted: &str, step: &str) -> Result<(), Fail> {
    if answer == wanted {
        return Ok(());
    }
    Err(Fail::new(format_args!("{answer} and not {wanted}, at {step}")))
}

/// The text before and after the first space.
pub(crate) fn parted(text: &str) -> (&str, &str) {
    text.split_once(' ').unwrap_or((text, ""))
}
