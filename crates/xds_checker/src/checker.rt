// A checker of resources, which a server asks before it takes one: a thread of its own asks it over HTTP, for one resource after another.
ghost use Rattle.std.specs.Prelude.{◌≡◌, string_bytes, IfOk};
ghost use Rattle.std.specs.Option.{option_map};
ghost use Rattle.xds_core.specs.Seen.{event_of};
ghost use Rattle.xds_checker.specs.Checked.{asked_text, counted_text, is_taken, told_absent};

use crossbeam_channel::{Receiver, Sender, bounded, unbounded};
use std::alloc::Global;
use std::net::SocketAddrV4;
use std::sync::{Mutex, Wait};
use std::time::Duration;
use xds_core::Event;
use xds_machine::deadline::Deadline;
use xds_machine::machine::Machine;
use xds_machine::port_client::{PortRequest, Unanswered, answered, whole_answer};
use xds_machine::threads::start_worker;
use xds_notes::{Ending, Note};
use xds_port::{Absence, Verdict, read_verdict};
use xds_resource::Refusal;

// As many milliseconds as a checker has to answer.
const MOST_MILLISECONDS: u64 = 2_000;

// As many milliseconds as one that is away isn't asked again.
const REST_MILLISECONDS: u64 = 1_000;

// As many bytes of its answer as are taken.
const MOST_ANSWER: usize = 65_536;

// As many questions as wait for it. Who asks one more waits, too.
const MOST_WAITING: usize = 16;

/// What is told of a resource.
pub type CheckerAnswer = Result<Verdict, Refusal>;

/// A question: the resource's text, and where the answer goes.
#[derive(Drop)]
pub struct CheckQuestion {
    text: String,
    to: Sender<CheckerAnswer>,
}

// What is known of a checker.
#[derive(Clone, Copy)]
struct CheckerRecord {
    good: u64,
    bad: u64,
    away: u64,
    // Why it is away, if it is, and whether that, or that it is back, is still to be told.
    absence: Option<Absence>,
    is_untold: bool,
}

/// What a checker is asked by.
pub struct CheckerLink {
    questions: Sender<CheckQuestion>,
    addr: SocketAddrV4,
    /// Whether resources are taken where it is away.
    pub passes: bool,
    known: Mutex<CheckerRecord>,
}

// Written out: docs/PROVING.md, "Drops".
impl Drop for CheckerLink {
    fn drop(self) {
        let CheckerLink {
            questions: _,
            addr: _,
            passes: _,
            known: _,
        } = self;
    }
}

/// Whether a resource is taken of which this is told: one that is good, and, where that is wanted, one of which nothing is said.
pub fn is_taken(verdict: &Verdict, passes: bool) -> bool
    ensures { result ≡ is_taken verdict.now passes }
{
    match verdict {
        Verdict::Good => true,
        Verdict::Bad(_) => false,
        Verdict::Away(_) => passes,
    }
}

/// What a checker is asked of a change: the text of the resource that it puts. Of a deletion nothing is asked.
pub fn asked_of(event: &Event) -> Option<&str>
    ensures { option_map (λ t. t.now) result ≡ asked_text (event_of event.now) }
{
    match event {
        Event::Put(resource, _) => Some(resource.body()),
        _ => None,
    }
}

/// Starts the thread that asks the checker at this address.
pub fn start_checker<R>(
    rt: &R,
    alloc: Global,
    addr: SocketAddrV4,
    passes: bool,
) -> Result<CheckerLink, Refusal>
where
    R: Machine,
{
    let (questions, asked) = bounded(alloc, MOST_WAITING)?;
    start_worker(rt, Ok(asked), move |rt, asked| {
        answer_all(rt, alloc, addr, &asked);
    })?;
    Ok(CheckerLink {
        questions,
        addr,
        passes,
        known: Mutex::new(CheckerRecord {
            good: 0,
            bad: 0,
            away: 0,
            absence: None,
            is_untold: false,
        }),
    })
}

// Answers questions, one after another, for as long as there may be more. A checker that is away isn't asked for a moment.
fn answer_all<R: Machine>(
    rt: &R,
    alloc: Global,
    addr: SocketAddrV4,
    questions: &Receiver<CheckQuestion>,
) {
    let mut resting: Option<(Deadline, Absence)> = None;
    for _ in rt.forever() {
        let Ok(question) = questions.recv(rt) else {
            return;
        };
        let CheckQuestion { text, to } = question;
        let told = told_by(rt, alloc, addr, text.as_str(), resting);
        resting = rest_after(rt, &told, resting);
        let _ = to.send(rt, told);
    }
}

// What the checker says of a resource, or that it is away still.
fn told_by<R: Machine>(
    rt: &R,
    alloc: Global,
    addr: SocketAddrV4,
    text: &str,
    resting: Option<(Deadline, Absence)>,
) -> CheckerAnswer {
    match resting {
        Some((until, absence)) if !until.rest(rt).is_zero() => Ok(Verdict::Away(absence)),
        _ => told_at(rt, alloc, addr, text),
    }
}

// Until when a checker isn't asked that said this: not at all, where it said something, and else for a moment since it was found away.
fn rest_after<R: Machine>(
    rt: &R,
    told: &CheckerAnswer,
    resting: Option<(Deadline, Absence)>,
) -> Option<(Deadline, Absence)> {
    let Ok(Verdict::Away(absence)) = told else {
        return None;
    };
    match resting {
        Some((until, _)) if !until.rest(rt).is_zero() => resting,
        _ => {
            let time = Duration::from_millis(REST_MILLISECONDS);
            Some((Deadline::within(rt, time), *absence))
        }
    }
}

// What the checker at this address says of a resource.
fn told_at<R: Machine>(rt: &R, alloc: Global, addr: SocketAddrV4, text: &str) -> CheckerAnswer {
    let request = PortRequest {
        method: "POST",
        target: "/",
        bearer: None,
        body: text.as_bytes(),
        time: Duration::from_millis(MOST_MILLISECONDS),
        most: MOST_ANSWER,
    };
    let bytes = match answered(rt, alloc, addr, &request) {
        Ok(bytes) => bytes,
        Err(unanswered) => return told_absent(unanswered),
    };
    match whole_answer(bytes.as_slice()) {
        Ok(answer) => read_verdict(alloc, answer.status, answer.body.as_bytes()),
        Err(unanswered) => told_absent(unanswered),
    }
}

// What is told where a checker has no answer.
fn told_absent(unanswered: Unanswered) -> CheckerAnswer
    ensures { result ≡ told_absent unanswered }
{
    match unanswered {
        Unanswered::NoMemory => Err(Refusal::OutOfMemory),
        Unanswered::Unreachable => Ok(Verdict::Away(Absence::Unreachable)),
        Unanswered::Late => Ok(Verdict::Away(Absence::Silent)),
        Unanswered::Broken | Unanswered::TooLong => Ok(Verdict::Away(Absence::Broken)),
    }
}

impl CheckerRecord {
    ghost use Rattle.std.specs.Prelude.{◌≡◌, false};
    ghost use Rattle.xds_checker.specs.Checked.{known_after};

    // The same, once this was told of a resource.
    fn with(self, verdict: &Verdict) -> CheckerRecord
        ensures { result ≡ known_after self verdict.now }
    {
        let mut known = self;
        let absence = match verdict {
            Verdict::Good => {
                known.good = known.good.saturating_add(1);
                None
            }
            Verdict::Bad(_) => {
                known.bad = known.bad.saturating_add(1);
                None
            }
            Verdict::Away(absence) => {
                known.away = known.away.saturating_add(1);
                Some(*absence)
            }
        };
        if absence.is_some() != known.absence.is_some() {
            known.is_untold = true;
        }
        known.absence = absence;
        known
    }

    // The same, once it is told that the checker is away, or isn't.
    fn as_told(self) -> CheckerRecord
        ensures { result ≡ record self { is_untold = false } }
    {
        let mut known = self;
        known.is_untold = false;
        known
    }
}

/// What is asked of resources before they are taken. What a server asks its checker by is such.
pub trait JudgesResources {
    ghost use Rattle.std.specs.Prelude.{◌≡◌, ℕ, List, Bool, Result};
    ghost use Rattle.xds_resource.specs.declared.refusal.Refusal.{Refusal};
    ghost use Rattle.xds_port.specs.declared.verdict.Verdict.{Verdict};

    // What may be told of the resource of a text.
    ghost tells: { Self → List ℕ → Result Verdict Refusal → Type 0 };

    // Whether a resource is taken of which nothing is said.
    ghost passes: { Self → Bool };

    /// Asks of a resource, and waits for the answer, which is counted.
    fn judge<R: Wait>(&self, rt: &R, alloc: Global, text: &str) -> CheckerAnswer
        ensures { tells self.now text.now result };

    /// Whether a resource is taken of which nothing is said.
    fn takes_unseen(&self) -> bool
        ensures { result ≡ passes self.now };

    /// Tells that what is asked has gone away, or is back, where that isn't told yet.
    fn tell_turn<R: Wait>(&self, rt: &R, alloc: Global, ending: &Ending);
}

impl JudgesResources for CheckerLink {
    ghost use Rattle.std.specs.Prelude.{⊤};

    // Nothing is claimed of what another thread tells.
    ghost tells = { λ _ _ _. ⊤ };

    ghost passes = { λ a. a.passes };

    fn judge<R: Wait>(&self, rt: &R, alloc: Global, text: &str) -> CheckerAnswer {
        self.check(rt, alloc, text)
    }

    fn takes_unseen(&self) -> bool {
        self.passes
    }

    fn tell_turn<R: Wait>(&self, rt: &R, alloc: Global, ending: &Ending) {
        self.tell(rt, alloc, ending);
    }
}

impl CheckerLink {
    /// Asks of a resource. The answer comes within some seconds. Refused by `Device` where there is no thread that asks.
    pub fn ask<R: Wait>(
        &self,
        rt: &R,
        alloc: Global,
        text: &str,
    ) -> Result<Receiver<CheckerAnswer>, Refusal> {
        let text = String::from_str(alloc, text)?;
        let (to, from) = unbounded(alloc)?;
        match self.questions.send(rt, CheckQuestion { text, to }) {
            Ok(()) => Ok(from),
            Err(_) => Err(Refusal::Device),
        }
    }

    /// Asks of a resource, and waits for the answer, which is counted.
    pub fn check<R: Wait>(&self, rt: &R, alloc: Global, text: &str) -> CheckerAnswer {
        let from = self.ask(rt, alloc, text)?;
        match from.recv(rt) {
            Ok(told) => self.counted(rt, told),
            Err(_) => Err(Refusal::Device),
        }
    }

    /// Counts an answer.
    pub fn counted<R: Wait>(&self, rt: &R, told: CheckerAnswer) -> CheckerAnswer {
        if let Ok(verdict) = &told {
            let mut known = self.known.lock(rt);
            let next = (*known).with(verdict);
            *known = next;
        }
        told
    }

    /// Tells that the checker has gone away, or is back, where that isn't told yet.
    pub fn tell<R: Wait>(&self, rt: &R, alloc: Global, ending: &Ending) {
        let mut known = self.known.lock(rt);
        let told = *known;
        *known = told.as_told();
        drop(known);
        if !told.is_untold {
            return;
        }
        if let Ok(text) = turn_text(alloc, self.addr, told.absence, self.passes) {
            ending.announce(rt, Note::Said(text));
        }
    }

    /// How many resources were good, bad, and not looked at, in the text format of Prometheus.
    pub fn numbers<R: Wait>(&self, rt: &R, alloc: Global) -> Result<String, Refusal> {
        let known = *self.known.lock(rt);
        counted_text(alloc, known.good, known.bad, known.away)
    }
}

// What is told of a checker that has gone away, or is back.
fn turn_text(
    alloc: Global,
    addr: SocketAddrV4,
    absence: Option<Absence>,
    passes: bool,
) -> Result<String, Refusal> {
    let Some(absence) = absence else {
        return Ok(format!(in alloc; "the checker at {addr} is back")?);
    };
    let why = absence.text(alloc)?;
    let why = why.as_str();
    let then = if passes {
        "resources are taken unchecked"
    } else {
        "resources are refused"
    };
    Ok(format!(in alloc; "the checker at {addr} is away: {why}; {then}")?)
}

// The numbers of a checker.
fn counted_text(alloc: Global, good: u64, bad: u64, away: u64) -> Result<String, Refusal>
    ensures { IfOk result (λ t. string_bytes t ≡ counted_text good bad away) }
{
    Ok(format!(in alloc;
        "# HELP xds_checks_total Resources of which a checker was asked.\n# TYPE xds_checks_total counter\nxds_checks_total{{verdict=\"good\"}} {good}\nxds_checks_total{{verdict=\"bad\"}} {bad}\nxds_checks_total{{verdict=\"away\"}} {away}\n"
    )?)
}
