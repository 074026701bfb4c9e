// Which name a response or an answer is at fault with, by rule.
use crate::account::StreamAccount;
use crate::telling::statement_told;
use std::alloc::Global;
use xds_check::{Answer, ByType, Label, Line, Rule, Statement};
use xds_resource::{NameMap, Refusal, Write};

/// The name that a line is at fault with, and what the line says of it.
#[derive(Drop)]
pub(crate) struct NameFault {
    pub(crate) name: String,
    pub(crate) said: String,
}

// rule: best-writes
// Whether a label is that of a write, or there is none.
fn is_labelled<T: ByType>(
    alloc: Global,
    label: Option<&Label>,
    write: &Write<T>,
) -> Result<bool, Refusal> {
    let Some(label) = label else {
        return Ok(true);
    };
    let version = write.stamp().version_text(alloc)?;
    Ok(label.name() == write.name() && label.version() == version.as_str())
}

impl<T: ByType> StreamAccount<T> {
    // rule: best-writes
    // Whether a resource is the one that the best write of its name puts.
    fn is_best(&self, alloc: Global, statement: &Statement) -> Result<bool, Refusal> {
        let Some(write) = self.catalogue.get(statement.name()) else {
            return Ok(false);
        };
        let Some(body) = write.body() else {
            return Ok(false);
        };
        Ok(statement.body() == body && is_labelled(alloc, statement.label(), write)?)
    }

    // The first resource that isn't.
    fn not_best(&self, alloc: Global, answer: &Answer) -> Result<Option<NameFault>, Refusal> {
        for statement in answer.statements() {
            if !self.is_best(alloc, statement)? {
                return stated(alloc, statement);
            }
        }
        Ok(None)
    }

    // rule: covered-only
    // Whether the client asks for a name that has a write.
    fn is_covered(&self, name: &str) -> bool {
        match self.catalogue.get(name) {
            Some(write) => self.interest().covers(name, write.groups()),
            None => false,
        }
    }

    // Whether a name is live.
    fn is_live(&self, name: &str) -> bool {
        match self.catalogue.get(name) {
            Some(write) => write.body().is_some(),
            None => false,
        }
    }

    // rule: covered-only
    // The first resource for which the client doesn't ask.
    fn not_covered(&self, alloc: Global, answer: &Answer) -> Result<Option<NameFault>, Refusal> {
        for statement in answer.statements() {
            if !self.is_covered(statement.name()) {
                return stated(alloc, statement);
            }
        }
        Ok(None)
    }

    // rule: whole-response
    // The first name that is live, that the client asks for, and that isn't stated.
    fn lacking(&self, alloc: Global, answer: &Answer) -> Result<Option<NameFault>, Refusal> {
        let stated = stated_names(alloc, answer)?;
        let live = self.catalogue.content(alloc, self.interest())?;
        for write in &live {
            if !stated.contains(write.name()) {
                return fault_of(alloc, write.name(), "stated: nothing\n");
            }
        }
        Ok(None)
    }

    // rule: no-live-removal
    // The first removed name that is live, and for which the client asks.
    fn live_removed(&self, alloc: Global, answer: &Answer) -> Result<Option<NameFault>, Refusal> {
        for name in answer.removed() {
            if self.is_live(name.as_str()) && self.is_covered(name.as_str()) {
                return fault_of(alloc, name.as_str(), "stated: removed\n");
            }
        }
        Ok(None)
    }

    // rule: awaited-names
    // The first name that waits for an answer that is owed.
    fn awaited(&self, alloc: Global) -> Result<Option<NameFault>, Refusal> {
        for (name, at) in self.waiting.iter() {
            if self.speaks_delta() || self.is_live(name.as_str()) {
                let number = at.saturating_add(1);
                let said = format!(in alloc; "owed: an answer since line {number}\n")?;
                return fault_of(alloc, name.as_str(), said.as_str());
            }
        }
        Ok(None)
    }

    // What a response is at fault with.
    fn at_fault_in(
        &self,
        alloc: Global,
        rule: Rule,
        answer: &Answer,
    ) -> Result<Option<NameFault>, Refusal> {
        match rule {
            Rule::BestResources => self.not_best(alloc, answer),
            Rule::CoveredResources => self.not_covered(alloc, answer),
            Rule::WholeResponse => self.lacking(alloc, answer),
            Rule::RightRemovals => self.live_removed(alloc, answer),
            Rule::FreshNonce
            | Rule::OneAtATime
            | Rule::NothingRefusedAgain
            | Rule::NothingPending => Ok(None),
        }
    }

    /// The name by which a line breaks a rule, behind the lines of which this is the account, if the rule is about names.
    pub(crate) fn at_fault(
        &self,
        alloc: Global,
        rule: Rule,
        line: &Line,
    ) -> Result<Option<NameFault>, Refusal> {
        match line {
            Line::Response(_, answer) => self.at_fault_in(alloc, rule, answer),
            Line::Idle(_, _) => self.awaited(alloc),
            Line::Write(_) | Line::Open(_) | Line::Close(_) | Line::Request(_, _) => Ok(None),
        }
    }
}

fn fault_of(alloc: Global, name: &str, said: &str) -> Result<Option<NameFault>, Refusal> {
    Ok(Some(NameFault {
        name: String::from_str(alloc, name)?,
        said: String::from_str(alloc, said)?,
    }))
}

// A resource of a response that is at fault.
fn stated(alloc: Global, statement: &Statement) -> Result<Option<NameFault>, Refusal> {
    let said = statement_told(alloc, statement)?;
    fault_of(alloc, statement.name(), said.as_str())
}

// The names of the resources of a response.
fn stated_names(alloc: Global, answer: &Answer) -> Result<NameMap<bool>, Refusal> {
    let mut names = NameMap::new(alloc);
    for statement in answer.statements() {
        names.put(alloc, statement.name(), Some(true))?;
    }
    Ok(names)
}
