// Changes whose resources a checker sees before they are made: those of the input, and those of a file that is loaded.
ghost use Rattle.std.specs.Prelude.{◌≡◌, ◌||◌, not, Some, string_bytes, IfOk};
ghost use Rattle.std.specs.Option.{option_map};
ghost use Rattle.xds_core.specs.Seen.{event_of};
ghost use Rattle.xds_checker.specs.Checked.{IsChecked, asked_text, judged, refusal_by, unchecked_line, whole_line};

use crate::checker::{CheckerAnswer, CheckerLink, JudgesResources, asked_of, is_taken};
use std::alloc::Global;
use std::io::Read;
use std::sync::Wait;
use xds_changes::change::Change;
use xds_changes::input::{Hands, take_lines};
use xds_changes::keeping::{Keeps, keep_lines};
use xds_notes::{End, Ending, Fault, Note};
use xds_port::{Complaint, Verdict};
use xds_resource::Refusal;
use xds_stats::excerpt;

/// Why a change isn't made: the refusal, and what is told of it, if something is.
#[derive(Drop)]
pub struct Unchecked {
    pub refusal: Refusal,
    pub why: Option<String>,
}

/// What is wrong of a resource, as it is told.
pub fn complaint_text(alloc: Global, complaint: &Complaint) -> Result<String, Refusal> {
    let resource = excerpt(alloc, complaint.resource.as_str())?;
    let field = excerpt(alloc, complaint.field.as_str())?;
    let cause = excerpt(alloc, complaint.cause.as_str())?;
    let resource = resource.as_str();
    let field = field.as_str();
    let cause = cause.as_str();
    if field.is_empty() {
        return Ok(format!(in alloc; "resource \"{resource}\": {cause}")?);
    }
    Ok(format!(in alloc; "resource \"{resource}\", field \"{field}\": {cause}")?)
}

/// The line of a line that isn't made, without its end, where something is told of why.
pub fn unchecked_line(
    alloc: Global,
    line: u64,
    unchecked: &Unchecked,
) -> Result<Option<String>, Refusal>
    ensures { IfOk result (λ o. option_map string_bytes o ≡ unchecked_line line unchecked.now.refusal (option_map string_bytes unchecked.now.why)) }
{
    let Some(why) = &unchecked.why else {
        return Ok(None);
    };
    let number = unchecked.refusal.number();
    let name = unchecked.refusal.name();
    let why = why.as_str();
    Ok(Some(format!(in alloc; "line {line}: {number} {name}: {why}")?))
}

// Why a resource isn't taken of which this is told.
fn refused_by(alloc: Global, verdict: &Verdict) -> Unchecked
    ensures { result.refusal ≡ refusal_by verdict.now }
{
    match verdict {
        Verdict::Bad(complaint) => Unchecked {
            refusal: Refusal::BadResource,
            why: complaint_text(alloc, complaint).ok(),
        },
        Verdict::Away(absence) => Unchecked {
            refusal: Refusal::Device,
            why: away_text(alloc, absence.text(alloc)).ok(),
        },
        Verdict::Good => Unchecked {
            refusal: Refusal::Device,
            why: None,
        },
    }
}

fn away_text(alloc: Global, why: Result<String, Refusal>) -> Result<String, Refusal> {
    let why = why?;
    let why = why.as_str();
    Ok(format!(in alloc; "the checker is away: {why}")?)
}

/// Why a resource isn't taken of which this was told, if it isn't.
pub fn judged(alloc: Global, told: CheckerAnswer, passes: bool) -> Option<Unchecked>
    ensures { option_map (λ u. u.refusal) result ≡ judged told passes }
{
    match told {
        Ok(verdict) => {
            if is_taken(&verdict, passes) {
                None
            } else {
                Some(refused_by(alloc, &verdict))
            }
        }
        Err(refusal) => Some(Unchecked { refusal, why: None }),
    }
}

// Why a change isn't made, as a checker says, if it isn't.
fn checked<R: Wait, C: JudgesResources>(
    rt: &R,
    alloc: Global,
    asks: &C,
    change: &Change,
) -> Option<Unchecked>
    ensures { IsChecked (C.tells asks.now) (C.passes asks.now) (asked_text (event_of change.now.event)) (option_map (λ u. u.refusal) result) }
{
    let text = asked_of(&change.event)?;
    judged(alloc, asks.judge(rt, alloc, text), asks.takes_unseen())
}

/// What hands on the changes of an input whose resources a checker takes. Others are told; without `keeps` the first of them ends the
/// server, as a line that is no change does, and none is handed on behind it.
#[derive(Drop)]
pub struct Validating<'a, H, C> {
    pub hands: H,
    pub alloc: Global,
    pub asks: &'a C,
    pub ending: &'a Ending,
    pub keeps: bool,
    pub is_over: bool,
}

impl<'a, H, C> Validating<'a, H, C> {
    // Tells that a change isn't made. Without `keeps` it ends the server.
    fn refuse_change<R: Wait>(&mut self, rt: &R, line: u64, unchecked: &Unchecked)
        ensures hands { self.new.hands ≡ self.old.hands }
        ensures over { self.new.is_over ≡ (self.old.is_over || not self.old.keeps) }
        ensures kept { (self.new.keeps ≡ self.old.keeps) × (self.new.asks ≡ self.old.asks) }
    {
        let fault = Fault::of(unchecked.refusal);
        match unchecked_line(self.alloc, line, unchecked) {
            Ok(Some(text)) => {
                self.ending.remember(rt, line, fault);
                self.ending.note(rt, Note::Said(text));
            }
            _ => self.ending.refuse(rt, line, fault),
        }
        if !self.keeps {
            self.is_over = true;
            self.ending.end(rt, End::Line(line, unchecked.refusal));
        }
    }
}

impl<'a, H: Hands, C: JudgesResources> Hands for Validating<'a, H, C> {
    ghost use Rattle.xds_checker.specs.Checked.{HandsChecked};

    ghost hands = { λ s t w. HandsChecked H.hands (C.tells s.asks.now) (C.passes s.asks.now) s.keeps s.is_over t.is_over s.hands t.hands w };

    fn hand<R: Wait>(&mut self, rt: &R, change: Change) {
        if self.is_over {
            drop(change);
            return;
        }
        let line = change.line;
        let unchecked = checked(rt, self.alloc, self.asks, &change);
        self.asks.tell_turn(rt, self.alloc, self.ending);
        match unchecked {
            Some(unchecked) => {
                drop(change);
                self.refuse_change(rt, line, &unchecked);
            }
            None => self.hands.hand(rt, change),
        }
    }
}

impl<'a, H: Keeps, C: JudgesResources> Keeps for Validating<'a, H, C> {
    ghost refuses = { λ s t line refusal. H.refuses s.hands t.hands line refusal };

    fn refuse<R: Wait>(&mut self, rt: &R, line: u64, fault: Fault) {
        self.hands.refuse(rt, line, fault);
    }
}

/// Takes the lines of an input to its end, as the server does that keeps going at a refused line or doesn't, where a checker sees each resource.
pub fn take_checked<I: Read, H: Keeps + Drop, R: Wait>(
    rt: &R,
    alloc: Global,
    input: &mut I,
    hands: H,
    keeps: bool,
    ending: &Ending,
    asks: &CheckerLink,
) {
    let mut hands = Validating {
        hands,
        alloc,
        asks,
        ending,
        keeps,
        is_over: false,
    };
    let taken = if keeps {
        keep_lines(rt, alloc, input, &mut hands)
    } else {
        take_lines(rt, alloc, input, &mut hands)
    };
    if let Err(end) = taken {
        ending.end(rt, end);
    }
}

/// What looks at the changes of a file that is loaded, up to the first whose resource a checker doesn't take.
#[derive(Drop)]
struct Looking<'a> {
    alloc: Global,
    asks: &'a CheckerLink,
    refused: Option<(u64, Unchecked)>,
}

impl<'a> Hands for Looking<'a> {
    ghost use Rattle.std.specs.Prelude.{⊤};

    // Nothing is made.
    ghost hands = { λ _ _ _. ⊤ };

    fn hand<R: Wait>(&mut self, rt: &R, change: Change) {
        if self.refused.is_none() {
            if let Some(unchecked) = checked(rt, self.alloc, self.asks, &change) {
                self.refused = Some((change.line, unchecked));
            }
        }
        drop(change);
    }
}

/// The line of the first line of an input whose resource a checker doesn't take, without its end, if there is such before one that is no
/// change.
pub fn first_refused<I: Read, R: Wait>(
    rt: &R,
    alloc: Global,
    input: &mut I,
    asks: &CheckerLink,
) -> Result<Option<String>, Refusal> {
    let mut looking = Looking {
        alloc,
        asks,
        refused: None,
    };
    let _ = take_lines(rt, alloc, input, &mut looking);
    match &looking.refused {
        Some((line, unchecked)) => whole_line(alloc, *line, unchecked),
        None => Ok(None),
    }
}

// The line of a line that isn't made, without its end.
fn whole_line(alloc: Global, line: u64, unchecked: &Unchecked) -> Result<Option<String>, Refusal>
    ensures { IfOk result (λ o. option_map string_bytes o ≡ Some (whole_line line unchecked.now.refusal (option_map string_bytes unchecked.now.why))) }
{
    if let Some(text) = unchecked_line(alloc, line, unchecked)? {
        return Ok(Some(text));
    }
    let number = unchecked.refusal.number();
    let name = unchecked.refusal.name();
    Ok(Some(format!(in alloc; "line {line}: {number} {name}")?))
}
