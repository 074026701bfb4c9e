// The verdict on a trace, in words.
use crate::account::StreamAccount;
use crate::looks::{last_response, stream_of, type_of, used_at};
use crate::sentences::sentence_of;
use crate::telling::{MOST_TOLD, best_told, client_told, interest_told, nonce_told, quoted};
use crate::texts::excerpt;
use std::alloc::Global;
use xds_check::{Answer, Broken, ByType, Line, Rule, Trace};
use xds_resource::{Cluster, Endpoint, Listener, Refusal, Route, Secret, TypeName};

/// What is broken at a line of a trace, in some lines of text: the line itself, the rule, the stream's client, and what the lines
/// before say that the rule looks at. Texts of the trace have no control characters there, and at most [`MOST_TOLD`] characters
/// each. Refused by `BadTrace` where the bytes up to that line are no trace, or have no such line; and by `OutOfMemory`.
pub fn explain(alloc: Global, bytes: &[u8], broken: Broken) -> Result<String, Refusal> {
    let trace = read_trace(alloc, first_lines(bytes, broken.line))?;
    let told = explained(alloc, trace.lines(), broken);
    drop(trace);
    told
}

/// The bytes of so many lines, or all where there are fewer.
pub(crate) fn first_lines(bytes: &[u8], count: usize) -> &[u8] {
    let mut seen = 0usize;
    for (i, byte) in bytes.iter().enumerate() {
        if *byte == b'\n' {
            seen = seen.saturating_add(1);
            if seen >= count {
                return &bytes[..i + 1];
            }
        }
    }
    bytes
}

/// The trace that bytes are. Refused by `BadTrace`, and by `OutOfMemory`.
pub(crate) fn read_trace(alloc: Global, bytes: &[u8]) -> Result<Trace, Refusal> {
    match Trace::read(alloc, bytes) {
        Ok(trace) => Ok(trace),
        Err(fault) => Err(fault.refusal),
    }
}

// What is told of a line, of the lines before it, and of their rule.
fn explained(alloc: Global, lines: &[Line], broken: Broken) -> Result<String, Refusal> {
    let Some((line, before)) = lines.split_last() else {
        return Err(Refusal::BadTrace);
    };
    if lines.len() != broken.line {
        return Err(Refusal::BadTrace);
    }
    let (Some(stream), Some(kind)) = (stream_of(line), type_of(line)) else {
        return head_told(alloc, line, broken);
    };
    let mut told = head_told(alloc, line, broken)?;
    told.push_str(client_told(alloc, before, stream)?.as_str())?;
    told.push_str(rule_told(alloc, before, stream, kind, line, broken.rule)?.as_str())?;
    Ok(told)
}

// The line and its rule.
fn head_told(alloc: Global, line: &Line, broken: Broken) -> Result<String, Refusal> {
    let text = line.text(alloc)?;
    let shown = excerpt(alloc, text.as_str(), MOST_TOLD)?;
    let shown = shown.as_str();
    let number = broken.line;
    let word = broken.rule.word();
    let sentence = sentence_of(broken.rule);
    Ok(format!(in alloc; "line {number} breaks {word}: {shown}\n{word}: {sentence}\n")?)
}

// What is told of a rule, by the type of the line.
fn rule_told(
    alloc: Global,
    before: &[Line],
    stream: u64,
    kind: TypeName,
    line: &Line,
    rule: Rule,
) -> Result<String, Refusal> {
    match kind {
        TypeName::Cluster => told_of::<Cluster>(alloc, before, stream, line, rule),
        TypeName::Endpoint => told_of::<Endpoint>(alloc, before, stream, line, rule),
        TypeName::Listener => told_of::<Listener>(alloc, before, stream, line, rule),
        TypeName::Route => told_of::<Route>(alloc, before, stream, line, rule),
        TypeName::Secret => told_of::<Secret>(alloc, before, stream, line, rule),
    }
}

// What is told of a rule about a line of the type `T`.
fn told_of<T: ByType>(
    alloc: Global,
    before: &[Line],
    stream: u64,
    line: &Line,
    rule: Rule,
) -> Result<String, Refusal> {
    let account = StreamAccount::<T>::of_lines(alloc, before, stream)?;
    let told = account.told(alloc, before, stream, line, rule);
    drop(account);
    let told = told?;
    let told = told.as_str();
    let word = T::TYPE.word();
    Ok(format!(in alloc; "type: {word}\n{told}")?)
}

// The last nonce of a stream.
fn last_told(alloc: Global, before: &[Line], stream: u64) -> Result<String, Refusal> {
    let Some(number) = last_response(stream, before) else {
        return Ok(String::from_str(alloc, "last nonce of the stream: none\n")?);
    };
    let last = nonce_told(alloc, before, number.saturating_sub(1))?;
    let last = last.as_str();
    Ok(format!(in alloc; "last nonce of the stream: {last}\n")?)
}

// rule: new-nonce
// What is told of a nonce that isn't new.
fn reused_told(
    alloc: Global,
    before: &[Line],
    stream: u64,
    answer: &Answer,
) -> Result<String, Refusal> {
    let nonce = answer.nonce();
    let quote = quoted(alloc, nonce)?;
    let quote = quote.as_str();
    if nonce.is_empty() {
        return Ok(format!(in alloc; "nonce: {quote}, which is none\n")?);
    }
    match used_at(stream, nonce, before) {
        Some(number) => Ok(format!(in alloc; "nonce: {quote}, as at line {number}\n")?),
        None => Ok(format!(in alloc; "nonce: {quote}\n")?),
    }
}

impl<T: ByType> StreamAccount<T> {
    // What is told of a rule about a line.
    fn told(
        &self,
        alloc: Global,
        before: &[Line],
        stream: u64,
        line: &Line,
        rule: Rule,
    ) -> Result<String, Refusal> {
        match rule {
            Rule::FreshNonce | Rule::OneAtATime | Rule::NothingRefusedAgain => {
                let mut told = self.order_told(alloc, before, stream, line, rule)?;
                told.push_str(last_told(alloc, before, stream)?.as_str())?;
                Ok(told)
            }
            Rule::BestResources
            | Rule::CoveredResources
            | Rule::WholeResponse
            | Rule::RightRemovals
            | Rule::NothingPending => self.name_told(alloc, before, line, rule),
        }
    }

    // What is told of a rule about nonces and answers.
    fn order_told(
        &self,
        alloc: Global,
        before: &[Line],
        stream: u64,
        line: &Line,
        rule: Rule,
    ) -> Result<String, Refusal> {
        let Line::Response(_, answer) = line else {
            return Ok(String::new(alloc));
        };
        match rule {
            Rule::OneAtATime => self.unanswered_told(alloc, before),
            Rule::NothingRefusedAgain => self.refused_told(alloc, before),
            _ => reused_told(alloc, before, stream, answer),
        }
    }

    // rule: one-unanswered
    // The response that is unanswered.
    fn unanswered_told(&self, alloc: Global, before: &[Line]) -> Result<String, Refusal> {
        let Some(at) = self.unanswered else {
            return Ok(String::new(alloc));
        };
        let sent = nonce_told(alloc, before, at)?;
        let sent = sent.as_str();
        Ok(format!(in alloc; "not answered yet: nonce {sent}\n")?)
    }

    // rule: refused-offer
    // The response that was rejected.
    fn refused_told(&self, alloc: Global, before: &[Line]) -> Result<String, Refusal> {
        let Some((at, rejection)) = self.refused else {
            return Ok(String::new(alloc));
        };
        let sent = nonce_told(alloc, before, at)?;
        let sent = sent.as_str();
        let number = rejection.saturating_add(1);
        Ok(format!(in alloc; "offered before: nonce {sent}, rejected by line {number}\n")?)
    }

    // What is told of a rule about names.
    fn name_told(
        &self,
        alloc: Global,
        before: &[Line],
        line: &Line,
        rule: Rule,
    ) -> Result<String, Refusal> {
        let Some(fault) = self.at_fault(alloc, rule, line)? else {
            return Ok(String::new(alloc));
        };
        let quote = quoted(alloc, fault.name.as_str())?;
        let quote = quote.as_str();
        let mut told = format!(in alloc; "name: {quote}\n")?;
        told.push_str(fault.said.as_str())?;
        told.push_str(best_told::<T>(alloc, before, fault.name.as_str())?.as_str())?;
        told.push_str(interest_told(alloc, self.interest())?.as_str())?;
        Ok(told)
    }
}
