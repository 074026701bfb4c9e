// A body of changes that are looked at alone, or made together, at an operator's port.
ghost use Rattle.std.specs.Prelude.{◌≡◌, None, map, slice_get, string_bytes, IfOk};
ghost use Rattle.xds_upkeep.specs.Lines.{unstored_line};
ghost use Rattle.xds_admin.specs.Jointly.{is_good, next_places, none_told, stored_line};

use crossbeam_channel::RecvTimeoutError;
use std::alloc::Global;
use std::mem;
use std::sync::Wait;
use std::time::{Clock, Duration};
use xds_causes::Cause;
use xds_changes::change::Change;
use xds_changes::made::{Made, changes_status, made_line};
use xds_changes::order::Answers;
use xds_changes::said_lines::SaidLine;
use xds_checker::checked_changes::{Whys, told_line};
use xds_core::Event;
use xds_machine::deadline::Deadline;
use xds_message::Batch;
use xds_notes::Fault;
use xds_resource::{Refusal, Stamp};
use xds_upkeep::linting::{copy_of, lines_after};

/// What a replica's thread answers of changes.
pub type AllMade = Answers<Vec<Made>>;

/// Changes of a body, as they come and are answered.
pub struct Joint {
    /// Whether they are looked at alone.
    pub is_tried: bool,
    // Each line that says something: its number, and the place of its replica, from 0, or why it is refused.
    lines: Vec<(u64, Result<usize, Fault>)>,
    // The changes of each replica that are still to be handed to it, and how many there were.
    changes: Vec<Vec<Change>>,
    counts: Vec<usize>,
    // What became of them, replica by replica, as far as they are answered.
    made: Vec<Vec<Made>>,
    // The answer of the replica behind these, and until when it is to come.
    waiting: Option<(AllMade, Deadline)>,
    /// Whether all lines are read.
    pub is_read: bool,
    // Copies of changes that are looked at alone, and the references that would lead nowhere by them, a line each.
    looked: Vec<Event>,
    warnings: String,
    /// What a checker told of the lines.
    pub whys: Whys,
}

// Written out: docs/PROVING.md, "Drops".
impl Drop for Joint {
    fn drop(self) {
        let Joint {
            is_tried: _,
            lines: _,
            changes: _,
            counts: _,
            made: _,
            waiting: _,
            is_read: _,
            looked: _,
            warnings: _,
            whys: _,
        } = self;
    }
}

/// What is to be done next for a body of changes.
pub enum ChangeStep {
    /// To hand these changes to a replica, by its place from 0.
    Hand(usize, Vec<Change>),
    /// To wait.
    Wait,
    /// Nothing: all is answered.
    Done,
}

// How many changes of a body were made, or would be, how many weren't, and the lines of them.
struct JointTelling {
    good: u64,
    bad: u64,
    text: String,
}

// Written out: docs/PROVING.md, "Drops".
impl Drop for JointTelling {
    fn drop(self) {
        let JointTelling {
            good: _,
            bad: _,
            text: _,
        } = self;
    }
}

impl JointTelling {
    ghost use Rattle.std.specs.Prelude.{◌≡◌, ◌++◌, [], string_bytes, IfOk, OnOk};
    ghost use Rattle.xds_admin.specs.Jointly.{told_more, told_so_far};

    fn new(alloc: Global) -> JointTelling
        ensures { told_so_far result ≡ record { good = 0; bad = 0; text = [] } }
    {
        JointTelling {
            good: 0,
            bad: 0,
            text: String::new(alloc),
        }
    }

    // A line more.
    fn add(&mut self, one: (bool, String)) -> Result<(), Refusal>
        ensures { OnOk result (told_so_far self.new ≡ told_more (told_so_far self.old) (one.0, string_bytes one.1)) }
    {
        let (is_good, line) = one;
        if is_good {
            self.good = self.good.saturating_add(1);
        } else {
            self.bad = self.bad.saturating_add(1);
        }
        Ok(self.text.push_str(line.as_str())?)
    }

    // The lines, and this behind them.
    fn into_text(self, behind: &str) -> Result<String, Refusal>
        ensures { IfOk result (λ t. string_bytes t ≡ string_bytes self.text ++ behind.now) }
    {
        let JointTelling {
            good: _,
            bad: _,
            text,
        } = self;
        let mut text = text;
        text.push_str(behind)?;
        Ok(text)
    }
}

impl Joint {
    ghost use Rattle.std.specs.Prelude.{◌≡◌, ◌++◌, [], false, true, is_err, length, map, nat_eq, string_bytes, IfOk, OnOk};
    ghost use Rattle.std.specs.List.{list_any};
    ghost use Rattle.xds_changes.specs.Together.{changes_status};
    ghost use Rattle.xds_admin.specs.Jointly.{are_any_mixed, made_at, next_made, next_places, one_told, places_after, told_in, told_more, told_so_far};

    /// Of so many replicas, of which no line has come.
    pub fn new(alloc: Global, replicas: usize, is_tried: bool) -> Result<Joint, Refusal> {
        let mut changes = Vec::new(alloc);
        for _ in 0..replicas {
            changes.push(Vec::new(alloc))?;
        }
        Ok(Joint {
            is_tried,
            lines: Vec::new(alloc),
            changes,
            counts: Vec::new(alloc),
            made: Vec::new(alloc),
            waiting: None,
            is_read: false,
            looked: Vec::new(alloc),
            warnings: String::new(alloc),
            whys: Vec::new(alloc),
        })
    }

    /// Takes what a line says.
    pub fn take(&mut self, alloc: Global, said: SaidLine) -> Result<(), Refusal> {
        let SaidLine { line, what } = said;
        match what {
            Ok(None) => Ok(()),
            Ok(Some(change)) => {
                if let Err(refusal) = self.copy(alloc, &change) {
                    drop(change);
                    return Err(refusal);
                }
                self.add(line, change)
            }
            Err(fault) => Ok(self.lines.push((line, Err(fault)))?),
        }
    }

    // Keeps a copy of a change that is looked at alone.
    fn copy(&mut self, alloc: Global, change: &Change) -> Result<(), Refusal> {
        if !self.is_tried {
            return Ok(());
        }
        let Some(copy) = copy_of(alloc, &change.event)? else {
            return Ok(());
        };
        match self.looked.push(copy) {
            Ok(()) => Ok(()),
            Err(_) => Err(Refusal::OutOfMemory),
        }
    }

    /// Keeps the lines of the references that would lead nowhere by changes that are looked at alone, over what is held.
    pub fn warn(&mut self, alloc: Global, held: &Batch) -> Result<(), Refusal> {
        self.warnings = lines_after(alloc, held, &self.looked)?;
        Ok(())
    }

    fn add(&mut self, line: u64, change: Change) -> Result<(), Refusal> {
        let place = usize::from(change.replica).wrapping_sub(1);
        let Some(changes) = self.changes.get_mut(place) else {
            drop(change);
            self.lines
                .push((line, Err(Fault::by(Cause::NoSuchReplica))))?;
            return Ok(());
        };
        match changes.push(change) {
            Ok(()) => {}
            Err(_) => return Err(Refusal::OutOfMemory),
        }
        Ok(self.lines.push((line, Ok(place)))?)
    }

    /// Whether the lines are of several replicas.
    pub fn are_mixed(&self) -> bool
        ensures { result ≡ are_any_mixed false (map (λ v. v.items) self.now.changes.items) }
    {
        let mut is_one = false;
        for changes in &self.changes {
            if changes.is_empty() {
                continue;
            }
            if is_one {
                return true;
            }
            is_one = true;
        }
        false
    }

    // Whether a line is refused by what it says.
    fn has_fault(&self) -> bool
        ensures { result ≡ list_any (λ l. is_err l.1) self.now.lines.items }
    {
        for line in &self.lines {
            if line.1.is_err() {
                return true;
            }
        }
        false
    }

    /// What is to be done next, once all lines are read. It waits for a moment at most.
    pub fn step<R: Wait + Clock>(
        &mut self,
        rt: &R,
        alloc: Global,
        pause: Duration,
    ) -> Result<ChangeStep, Refusal> {
        if let Some((from, deadline)) = mem::replace(&mut self.waiting, None) {
            match from.recv_timeout(rt, pause) {
                Ok(Ok(made)) => self.answered(made)?,
                Ok(Err(refusal)) => self.all_are(alloc, refused(refusal))?,
                Err(RecvTimeoutError::Timeout) if !deadline.rest(rt).is_zero() => {
                    self.waiting = Some((from, deadline));
                    return Ok(ChangeStep::Wait);
                }
                Err(_) => self.all_are(alloc, refused(Refusal::Device))?,
            }
        }
        self.next(alloc)
    }

    // The next replica's changes, if there are such.
    fn next(&mut self, alloc: Global) -> Result<ChangeStep, Refusal> {
        let place = self.made.len();
        let Some(changes) = self.changes.get_mut(place) else {
            return Ok(ChangeStep::Done);
        };
        let changes = mem::replace(changes, Vec::new(alloc));
        self.counts.push(changes.len())?;
        if changes.is_empty() {
            drop(changes);
            self.answered(Vec::new(alloc))?;
            return Ok(ChangeStep::Wait);
        }
        if !self.is_tried && self.has_fault() {
            drop(changes);
            self.all_are(alloc, Made::Left)?;
            return Ok(ChangeStep::Wait);
        }
        Ok(ChangeStep::Hand(place, changes))
    }

    /// The answer of the replica that was handed its changes comes here, until then.
    pub fn wait_for(&mut self, from: AllMade, deadline: Deadline) {
        self.waiting = Some((from, deadline));
    }

    fn answered(&mut self, made: Vec<Made>) -> Result<(), Refusal> {
        match self.made.push(made) {
            Ok(()) => Ok(()),
            Err(_) => Err(Refusal::OutOfMemory),
        }
    }

    /// So is what became of all changes of the replica at work.
    pub fn all_are(&mut self, alloc: Global, one: Made) -> Result<(), Refusal> {
        let count = match self.counts.as_slice().last() {
            Some(count) => *count,
            None => 0,
        };
        let mut made = Vec::new(alloc);
        for _ in 0..count {
            made.push(one)?;
        }
        self.answered(made)
    }

    /// What the lines are answered once all is done, and the status.
    pub fn text(&self, alloc: Global) -> Result<(u16, String), Refusal>
        ensures status { IfOk result (λ r. r.0 ≡ changes_status (told_in self.now true).good (told_in self.now true).bad) }
        ensures text { IfOk result (λ r. string_bytes r.1 ≡ (told_in self.now true).text ++ string_bytes self.now.warnings) }
    {
        let telling = self.told(alloc, true)?;
        let status = changes_status(telling.good, telling.bad);
        Ok((status, telling.into_text(self.warnings.as_str())?))
    }

    /// What they are answered where what was made isn't stored.
    pub fn unstored(&self, alloc: Global) -> Result<String, Refusal>
        ensures { IfOk result (λ t. string_bytes t ≡ (told_in self.now false).text ++ string_bytes self.now.warnings) }
    {
        self.told(alloc, false)?.into_text(self.warnings.as_str())
    }

    /// How many were made, or would be, and how many weren't.
    pub fn counts(&self, alloc: Global) -> Result<(u64, u64), Refusal>
        ensures { IfOk result (λ r. r ≡ ((told_in self.now true).good, (told_in self.now true).bad)) }
    {
        let telling = self.told(alloc, true)?;
        Ok((telling.good, telling.bad))
    }

    // What is told of all lines.
    fn told(&self, alloc: Global, are_stored: bool) -> Result<JointTelling, Refusal>
        ensures { IfOk result (λ t. told_so_far t ≡ told_in self.now are_stored) }
    {
        let mut telling = JointTelling::new(alloc);
        let mut places = zeros(alloc, &self.made)?;
        for (line, said) in &self.lines {
            self.tell(alloc, &mut telling, &mut places, *line, *said, are_stored)?;
        }
        Ok(telling)
    }

    // Tells a line more, where so many changes of each replica are told.
    fn tell(
        &self,
        alloc: Global,
        telling: &mut JointTelling,
        places: &mut Vec<usize>,
        line: u64,
        said: Result<usize, Fault>,
        are_stored: bool,
    ) -> Result<(), Refusal>
        ensures told { OnOk result (told_so_far telling.new ≡ told_more (told_so_far telling.old) (one_told (map (λ w. (w.0, string_bytes w.1)) self.now.whys.items) (map (λ v. v.items) self.now.made.items) are_stored places.old.items line said)) }
        ensures places { OnOk result (places.new.items ≡ places_after places.old.items said) }
    {
        match said {
            Ok(place) => {
                let made = self.next_made(place, places);
                telling.add((is_good(made), line_of(alloc, line, made, are_stored)?))
            }
            Err(fault) => telling.add((false, told_line(alloc, &self.whys, line, fault)?)),
        }
    }

    // What became of the next change of a replica.
    fn next_made(&self, place: usize, places: &mut Vec<usize>) -> Made
        ensures made { result ≡ next_made (map (λ v. v.items) self.now.made.items) places.old.items place }
        ensures places { places.new.items ≡ next_places places.old.items place }
    {
        match next_number(places, place) {
            Some(number) => self.made_at(place, number),
            None => refused(Refusal::Device),
        }
    }

    // What became of a change of a replica, by the places of both, from 0.
    fn made_at(&self, place: usize, number: usize) -> Made
        ensures { result ≡ made_at (map (λ v. v.items) self.now.made.items) place number }
    {
        match self.made.get(place) {
            Some(made) => match made.get(number) {
                Some(made) => *made,
                None => refused(Refusal::Device),
            },
            None => refused(Refusal::Device),
        }
    }

    /// Whether no line says anything.
    pub fn is_empty(&self) -> bool
        ensures { result ≡ nat_eq (length self.now.lines.items) 0 }
    {
        self.lines.is_empty()
    }
}

// How many of a replica are told. One more is told then.
fn next_number(places: &mut Vec<usize>, place: usize) -> Option<usize>
    ensures number { result ≡ slice_get places.old.items place }
    ensures places { places.new.items ≡ next_places places.old.items place }
{
    let Some(at) = places.get_mut(place) else {
        return None;
    };
    let now = *at;
    *at = now.saturating_add(1);
    Some(now)
}

// Of each replica none is told.
fn zeros(alloc: Global, made: &Vec<Vec<Made>>) -> Result<Vec<usize>, Refusal>
    ensures { IfOk result (λ v. v.items ≡ none_told (map (λ v. v.items) made.now.items)) }
{
    let mut zeros = Vec::new(alloc);
    for one in made {
        let _ = one;
        zeros.push(0)?;
    }
    Ok(zeros)
}

// The line of a change that was made, and is stored or isn't, or wasn't made.
fn line_of(alloc: Global, line: u64, made: Made, are_stored: bool) -> Result<String, Refusal>
    ensures { IfOk result (λ t. string_bytes t ≡ stored_line line made are_stored) }
{
    match made {
        Made::Written(stamp) if !are_stored => unstored_line(alloc, line, stamp),
        _ => made_line(alloc, line, made),
    }
}

/// The line of a line that was made a write, which has this stamp, and isn't stored.
pub fn unstored_line(alloc: Global, line: u64, stamp: Stamp) -> Result<String, Refusal>
    ensures { IfOk result (λ t. string_bytes t ≡ unstored_line line stamp.counter stamp.writer) }
{
    let counter = stamp.counter;
    let writer = stamp.writer;
    Ok(format!(in alloc; "line {line}: {counter}-{writer}, not stored\n")?)
}

/// A change that is refused so.
pub fn refused(refusal: Refusal) -> Made
    ensures { result ≡ Made.Refused (record { refusal = refusal; cause = None; long = None }) }
{
    Made::Refused(Fault::of(refusal))
}

fn is_good(made: Made) -> bool
    ensures { result ≡ is_good made }
{
    match made {
        Made::Written(_) | Made::Would => true,
        Made::Refused(_) | Made::Left => false,
    }
}
