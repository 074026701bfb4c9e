// Changes that a body says, made line by line or together, and what they are answered.
ghost use Rattle.std.specs.Prelude.{◌≡◌};
ghost use Rattle.xds_changes.specs.Together.{without_return};

use crate::admin::{Admin, Doing};
use crate::joint::{AllMade, ChangeStep, Joint, refused, unstored_line};
use crate::reached::MOST_MILLISECONDS;
use crate::sharing::plain;
use std::alloc::Global;
use std::mem;
use std::sync::Wait;
use std::time::{Clock, Duration};
use xds_causes::Cause;
use xds_changes::change::Change;
use xds_changes::choice::Choice;
use xds_changes::made::changes_status;
use xds_changes::said_lines::{Kept, SaidLine};
use xds_checker::checked_changes::{AskedLine, NextLine, Whys, begin_asking, told_line};
use xds_core::Marks;
use xds_http::{Page, Part};
use xds_machine::deadline::Deadline;
use xds_notes::{Fault, stamp_line};
use xds_resource::{Refusal, Stamp};
use xds_script::lines::split_line;
use xds_upkeep::storing::Reached as Reach;

// As many milliseconds as are waited for what was changed to be stored.
const STORE_MILLISECONDS: u64 = 30_000;

// As many seconds as a replica's thread has for changes that it makes together. Other requests are answered meanwhile.
const JOINT_SECONDS: u64 = 600;

// The status of changes that are made, and aren't stored.
const UNSTORED: u16 = 507;

// What is answered to changes of several replicas that are to be made together.
const MIXED: &str = "all-or-nothing makes changes of one replica\n";

// As many milliseconds as lines of changes are made in before other requests may be looked at. The loop that answers them looks for what
// has come after 64 of these.
const PART_MILLISECONDS: u64 = 1;

/// Changes that are made line by line, and what those that were made are answered.
pub struct Changing {
    body: Vec<u8>,
    // How many bytes of the body were looked at.
    at: usize,
    kept: Kept,
    text: String,
    // The answers as they are where no change is stored.
    unstored: String,
    // Whether a replica didn't answer in time. Then no line more is tried.
    is_stuck: bool,
    // How many changes were made, and how many lines refused.
    made: u64,
    refused: u64,
    // The changes, where they are looked at alone, or made together.
    joint: Option<Joint>,
    // The line of whose resource a checker is asked, if there is one, and what it told of others.
    asking: Option<AskedLine>,
    whys: Whys,
    // Once all were made, until when they are to be stored, and the counts of changes of each replica then.
    storing: Option<(Deadline, Vec<Marks>)>,
}

// Written out: docs/PROVING.md, "Drops".
impl Drop for Changing {
    fn drop(self) {
        let Changing {
            body: _,
            at: _,
            kept: _,
            text: _,
            unstored: _,
            is_stuck: _,
            made: _,
            refused: _,
            joint: _,
            asking: _,
            whys: _,
            storing: _,
        } = self;
    }
}

// The changes that a body says, of which none is made.
fn changes_in(alloc: Global, body: &[u8]) -> Result<Changing, Refusal> {
    Ok(Changing {
        body: Vec::from_slice(alloc, body)?,
        at: 0,
        kept: Kept::new(alloc),
        text: String::new(alloc),
        unstored: String::new(alloc),
        is_stuck: false,
        made: 0,
        refused: 0,
        joint: None,
        asking: None,
        whys: Vec::new(alloc),
        storing: None,
    })
}

/// A status with a text.
pub(crate) fn told(alloc: Global, status: u16, text: &str) -> Page {
    let text = String::from_str(alloc, text).unwrap_or(String::new(alloc));
    plain(status, text)
}

/// Appends a text, where there was memory for it.
pub(crate) fn push(text: &mut String, more: Result<String, Refusal>) -> Result<(), Refusal> {
    let more = more?;
    text.push_str(more.as_str())?;
    Ok(())
}

// A line without a carriage return at its end.
fn without_return(line: &[u8]) -> &[u8]
    ensures { result.now ≡ without_return line.now }
{
    let count = line.len();
    if count > 0 && line[count - 1] == b'\r' {
        &line[..count - 1]
    } else {
        line
    }
}

impl Admin {
    /// The changes of a body, made together or looked at alone where that is chosen.
    pub(crate) fn changes_as(
        &self,
        alloc: Global,
        choice: &Choice,
        body: &[u8],
    ) -> Result<Result<Page, Doing>, Refusal> {
        let mut changing = changes_in(alloc, body)?;
        if choice.is_of_changes() {
            let joint = Joint::new(alloc, self.replicas.len(), choice.is_tried)?;
            changing.joint = Some(joint);
        }
        Ok(Err(Doing::Changes(changing)))
    }

    // rule: stored
    /// Makes changes, and waits until they are stored, where they are, both for a while. Answers what the lines are answered, once all is
    /// done.
    pub(crate) fn go_on_changing<R: Wait + Clock>(
        &self,
        rt: &R,
        alloc: Global,
        work: &mut Changing,
    ) -> Result<Part, Refusal> {
        if work.storing.is_none() {
            if !self.change_on(rt, alloc, work)? || !self.join_on(rt, alloc, work)? {
                return Ok(Part::More);
            }
            if let Some(page) = self.made(rt, alloc, work)? {
                return Ok(Part::Done(page));
            }
        }
        Ok(self.store_on(rt, alloc, work))
    }

    // rule: stored
    // What the lines are answered once all changes were made, unless these are to be stored first; then until when is kept.
    fn made<R: Wait + Clock>(
        &self,
        rt: &R,
        alloc: Global,
        work: &mut Changing,
    ) -> Result<Option<Page>, Refusal> {
        if let Some(page) = work.unmade(alloc)? {
            return Ok(Some(page));
        }
        if self.store.is_none() {
            return Ok(Some(work.answered(alloc, true)));
        }
        match self.marks(rt, alloc)? {
            Some(marks) => {
                let time = Duration::from_millis(STORE_MILLISECONDS);
                work.storing = Some((Deadline::within(rt, time), marks));
                Ok(None)
            }
            None => Ok(Some(work.answered(alloc, false))),
        }
    }

    // Waits for a while until all changes are stored. Answers what the lines are answered, once they are, or the store has failed.
    fn store_on<R: Wait + Clock>(&self, rt: &R, alloc: Global, work: &mut Changing) -> Part {
        match self.reached(rt, &work.storing) {
            Reach::Stored => Part::Done(work.answered(alloc, true)),
            Reach::Failing => Part::Done(work.answered(alloc, false)),
            Reach::Waiting => {
                if let Some(store) = &self.store {
                    store.pause(rt, Duration::from_millis(PART_MILLISECONDS));
                }
                Part::More
            }
        }
    }

    // rule: stored
    // Whether what all replicas held then is stored.
    fn reached<R: Wait + Clock>(&self, rt: &R, storing: &Option<(Deadline, Vec<Marks>)>) -> Reach {
        let (Some(store), Some((deadline, marks))) = (&self.store, storing) else {
            return Reach::Failing;
        };
        let mut all = Reach::Stored;
        for (replica, marks) in self.replicas.iter().zip(marks) {
            match store.reached(rt, replica.lookout.replica(), *marks) {
                Reach::Stored => {}
                Reach::Failing => return Reach::Failing,
                Reach::Waiting => all = Reach::Waiting,
            }
        }
        if all == Reach::Waiting && deadline.rest(rt).is_zero() {
            return Reach::Failing;
        }
        all
    }

    // The counts of changes of each replica; none where one doesn't answer in time.
    fn marks<R: Wait + Clock>(&self, rt: &R, alloc: Global) -> Result<Option<Vec<Marks>>, Refusal> {
        let mut marks = Vec::new(alloc);
        for replica in &self.replicas {
            match replica.marks(rt, alloc) {
                Some(one) => marks.push(one)?,
                None => return Ok(None),
            }
        }
        Ok(Some(marks))
    }

    // Makes changes of those that are still to be made, one after another, for a while, and adds what each line is answered. Answers
    // whether all were made.
    fn change_on<R: Wait + Clock>(
        &self,
        rt: &R,
        alloc: Global,
        work: &mut Changing,
    ) -> Result<bool, Refusal> {
        let deadline = Deadline::within(rt, Duration::from_millis(PART_MILLISECONDS));
        for _ in 0..u64::MAX {
            if work.is_read() {
                return Ok(true);
            }
            let Some((line, is_last)) = self.next_line(rt, alloc, work) else {
                return Ok(false);
            };
            self.take_line(rt, alloc, line, is_last, work)?;
            if is_last {
                return Ok(true);
            }
            if deadline.rest(rt).is_zero() {
                return Ok(false);
            }
        }
        Ok(false)
    }

    // Takes what a line says: among changes that are made together, or made at once.
    fn take_line<R: Wait + Clock>(
        &self,
        rt: &R,
        alloc: Global,
        line: SaidLine,
        is_last: bool,
        work: &mut Changing,
    ) -> Result<(), Refusal> {
        if work.joint.is_some() {
            work.join(alloc, line, is_last)
        } else {
            self.answer_line(rt, alloc, line, work)
        }
    }

    // The next line of changes, once a checker has seen its resource, where there is one. None where it hasn't answered yet.
    fn next_line<R: Wait + Clock>(
        &self,
        rt: &R,
        alloc: Global,
        work: &mut Changing,
    ) -> Option<NextLine> {
        let Some(asks) = &self.asks else {
            return Some(work.next(alloc));
        };
        let asking = match mem::replace(&mut work.asking, None) {
            Some(asking) => asking,
            None => match begin_asking(rt, alloc, asks, work.next(alloc)) {
                Ok(next) => return Some(next),
                Err(asking) => asking,
            },
        };
        match asking.go_on(rt, alloc, asks, work.whys()) {
            Ok(next) => {
                asks.tell(rt, alloc, &self.ending);
                Some(next)
            }
            Err(asking) => {
                work.asking = Some(asking);
                None
            }
        }
    }

    // Hands changes that are made together to their replicas, and waits for what becomes of them, for a moment at a time. Answers whether all
    // is known.
    fn join_on<R: Wait + Clock>(
        &self,
        rt: &R,
        alloc: Global,
        work: &mut Changing,
    ) -> Result<bool, Refusal> {
        let Some(joint) = &mut work.joint else {
            return Ok(true);
        };
        if !joint.is_tried && joint.are_mixed() {
            return Ok(true);
        }
        match joint.step(rt, alloc, Duration::from_millis(PART_MILLISECONDS))? {
            ChangeStep::Done => {
                self.warn(rt, alloc, work)?;
                Ok(true)
            }
            ChangeStep::Wait => Ok(false),
            ChangeStep::Hand(place, changes) => {
                self.hand_joint(rt, alloc, joint, place, changes)?;
                Ok(false)
            }
        }
    }

    // Hands changes that are made together to a replica, which has ten minutes for them. Where it doesn't take them each is refused.
    fn hand_joint<R: Wait + Clock>(
        &self,
        rt: &R,
        alloc: Global,
        joint: &mut Joint,
        place: usize,
        changes: Vec<Change>,
    ) -> Result<(), Refusal> {
        match self.hand(rt, alloc, place, changes, joint.is_tried) {
            Some(from) => {
                let time = Duration::from_secs(JOINT_SECONDS);
                joint.wait_for(from, Deadline::within(rt, time));
                Ok(())
            }
            None => joint.all_are(alloc, refused(Refusal::Device)),
        }
    }

    // Adds to the answer of changes that are looked at alone the references that would lead nowhere by them, at the first replica.
    fn warn<R: Wait + Clock>(
        &self,
        rt: &R,
        alloc: Global,
        work: &mut Changing,
    ) -> Result<(), Refusal> {
        let (Some(joint), Some(replica)) = (&mut work.joint, self.replicas.as_slice().first())
        else {
            return Ok(());
        };
        if !joint.is_tried {
            return Ok(());
        }
        let deadline = Deadline::within(rt, Duration::from_millis(MOST_MILLISECONDS));
        let Some(held) = replica.content(rt, alloc, deadline) else {
            return Ok(());
        };
        let lines = joint.warn(alloc, &held);
        drop(held);
        lines
    }

    // Hands changes to a replica's thread, if it takes them in time. Answers where it answers.
    fn hand<R: Wait + Clock>(
        &self,
        rt: &R,
        alloc: Global,
        place: usize,
        changes: Vec<Change>,
        is_tried: bool,
    ) -> Option<AllMade> {
        let Some(replica) = self.replicas.get(place) else {
            drop(changes);
            return None;
        };
        replica.hand_all(rt, alloc, changes, is_tried)
    }

    // Adds what a line is answered: nothing, where it says nothing.
    fn answer_line<R: Wait + Clock>(
        &self,
        rt: &R,
        alloc: Global,
        said: SaidLine,
        work: &mut Changing,
    ) -> Result<(), Refusal> {
        let SaidLine { line, what } = said;
        let made = match what {
            Ok(None) => return Ok(()),
            Ok(Some(change)) => self.make(rt, alloc, change, &mut work.is_stuck),
            Err(fault) => Err(fault),
        };
        match made {
            Ok(stamp) => work.count_made(alloc, line, stamp),
            Err(fault) => {
                self.ending.remember(rt, line, fault);
                work.count_refused(alloc, line, fault)
            }
        }
    }

    // Makes a change at its replica, and waits for its stamp. Where one didn't answer in time, none is tried any more.
    fn make<R: Wait + Clock>(
        &self,
        rt: &R,
        alloc: Global,
        change: Change,
        is_stuck: &mut bool,
    ) -> Result<Stamp, Fault> {
        let place = usize::from(change.replica).wrapping_sub(1);
        let Some(replica) = self.replicas.get(place) else {
            drop(change);
            return Err(Fault::by(Cause::NoSuchReplica));
        };
        if *is_stuck {
            drop(change);
            return Err(Fault::of(Refusal::Device));
        }
        match replica.make(rt, alloc, change) {
            Some(Ok(stamp)) => Ok(stamp),
            Some(Err(fault)) => Err(fault),
            None => {
                *is_stuck = true;
                Err(Fault::of(Refusal::Device))
            }
        }
    }
}

impl Changing {
    // What the lines are answered, where the changes are stored, or where they aren't.
    fn answered(&mut self, alloc: Global, are_stored: bool) -> Page {
        let text = mem::replace(&mut self.text, String::new(alloc));
        let unstored = mem::replace(&mut self.unstored, String::new(alloc));
        let status = match are_stored {
            true => changes_status(self.made, self.refused),
            false => UNSTORED,
        };
        plain(status, if are_stored { text } else { unstored })
    }

    // Adds what the line of a change is answered that was made.
    fn count_made(&mut self, alloc: Global, line: u64, stamp: Stamp) -> Result<(), Refusal> {
        self.made = self.made.saturating_add(1);
        push(&mut self.text, stamp_line(alloc, line, stamp))?;
        push(&mut self.unstored, unstored_line(alloc, line, stamp))
    }

    // Adds what a line is answered that was refused.
    fn count_refused(&mut self, alloc: Global, line: u64, fault: Fault) -> Result<(), Refusal> {
        self.refused = self.refused.saturating_add(1);
        let refused = told_line(alloc, &self.whys, line, fault)?;
        self.text.push_str(refused.as_str())?;
        self.unstored.push_str(refused.as_str())?;
        Ok(())
    }

    // What a checker told of the lines.
    fn whys(&mut self) -> &mut Whys {
        match &mut self.joint {
            Some(joint) => &mut joint.whys,
            None => &mut self.whys,
        }
    }

    // Takes what a line says that is made together with others.
    fn join(&mut self, alloc: Global, said: SaidLine, is_last: bool) -> Result<(), Refusal> {
        match &mut self.joint {
            Some(joint) => {
                joint.is_read = is_last;
                joint.take(alloc, said)
            }
            None => {
                drop(said);
                Ok(())
            }
        }
    }

    // Whether all lines are read.
    fn is_read(&self) -> bool {
        match &self.joint {
            Some(joint) => joint.is_read,
            None => false,
        }
    }

    // What is answered where no change was made: none was said, they were looked at alone, or all are of one replica that shall be made
    // together, and aren't. Else what became of each is kept for where they are stored, and where they aren't.
    fn unmade(&mut self, alloc: Global) -> Result<Option<Page>, Refusal> {
        let Some(joint) = &self.joint else {
            if self.made == 0 && self.refused == 0 {
                return Ok(Some(told(alloc, 200, "no changes\n")));
            }
            return Ok(None);
        };
        if joint.is_empty() {
            return Ok(Some(told(alloc, 200, "no changes\n")));
        }
        if !joint.is_tried && joint.are_mixed() {
            return Ok(Some(told(alloc, 400, MIXED)));
        }
        let (status, text) = joint.text(alloc)?;
        if joint.is_tried || status == 422 {
            return Ok(Some(plain(status, text)));
        }
        let unstored = joint.unstored(alloc)?;
        let (made, refused) = joint.counts(alloc)?;
        self.unstored = unstored;
        self.made = made;
        self.refused = refused;
        self.text = text;
        Ok(None)
    }

    // What the next line says, and whether it is the last.
    fn next(&mut self, alloc: Global) -> (SaidLine, bool) {
        let body = self.body.as_slice();
        let rest = &body[self.at.min(body.len())..];
        match split_line(rest) {
            Some((part, following)) => {
                self.kept.hold(without_return(part));
                self.at = body.len().saturating_sub(following.len());
                (self.kept.end(alloc), false)
            }
            None => {
                self.kept.hold(without_return(rest));
                self.at = body.len();
                (self.kept.end(alloc), true)
            }
        }
    }
}
