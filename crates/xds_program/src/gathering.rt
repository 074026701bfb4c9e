// The lines of an input of `xds answer`: what their writes leave, and the request on the last.
ghost use Rattle.std.specs.Prelude.{◌≡◌, ◌<◌, ◌≤◌, ◌+◌, IfOk, IfErr, OnOk, ◌∷◌, [], length, drop};
ghost use Rattle.xds_resource.specs.PerType.{at, with_at, each};
ghost use Rattle.xds_resource.specs.TypedWrites.{TypedWrite};
ghost use Rattle.xds_catalogue.specs.Holdings.{nothing_held};
ghost use Rattle.xds_catalogue.specs.Joins.{joined};
ghost use Rattle.xds_script.specs.Lines.{feed, pieces};
ghost use Rattle.xds_causes.specs.WriteLines.{IsWriteLine};
ghost use Rattle.xds_program.specs.Faults.{IsRequestLine, RefusesWrite, RefusesRequest, IsFault};
ghost use Rattle.xds_program.specs.Gathered.{IsGathered, IsReadTo, WhereReadTo};

use std::alloc::Global;
use xds_causes::LineFault;
use xds_core::Catalogues;
use xds_message::{DiscoveryRequest, WriteReader};
use xds_resource::Refusal;
use xds_script::lines::{split_line, without_last_feed};

/// The line of an input that was looked at last, kept for who tells why it is refused. Nothing rests on it but what is told.
pub struct Looked {
    line: Vec<u8>,
    is_last: bool,
}

// Written out: docs/PROVING.md, "Drops".
impl Drop for Looked {
    fn drop(self) {
        let Looked {
            line: _,
            is_last: _,
        } = self;
    }
}

impl Looked {
    /// Of an input of which no line was looked at.
    pub fn new(alloc: Global) -> Looked {
        Looked {
            line: Vec::new(alloc),
            is_last: false,
        }
    }

    // Keeps a line, the last of the input or one before it.
    fn keep(&mut self, line: &[u8], is_last: bool) {
        self.line.clear();
        if self.line.extend_from_slice(line).is_err() {
            self.line.clear();
        }
        self.is_last = is_last;
    }

    /// The line; empty, where there was no memory for it.
    pub fn line(&self) -> &[u8] {
        self.line.as_slice()
    }

    /// Whether it is the last line of the input.
    pub fn is_last(&self) -> bool {
        self.is_last
    }
}

/// What the lines of an input say: what their writes leave, and the request, which is on this line.
#[derive(Drop)]
pub(crate) struct GatheredInput {
    pub(crate) catalogues: Catalogues,
    pub(crate) request: DiscoveryRequest,
    pub(crate) line: usize,
}

// What the lines so far leave, and the number of the line that comes next.
#[derive(Drop)]
pub(crate) struct InputReading {
    pub(crate) catalogues: Catalogues,
    pub(crate) reader: WriteReader,
    pub(crate) line: usize,
}

/// Reads the lines of an input.
pub(crate) fn gather(alloc: Global, input: &[u8]) -> Result<GatheredInput, LineFault>
    ensures gathered { IfOk result (λ g. IsGathered input.now g.line (at g.catalogues) g.request) }
    ensures refused { IfErr result (λ fault. IsFault input.now fault.line fault.refusal) }
{
    let rest = without_last_feed(input);
    let mut reading = begin(alloc);
    let mut looked = Looked::new(alloc);
    match take_lines(alloc, &mut reading, &mut looked, rest, rest.len() + 1) {
        Ok(taken) => finish(alloc, reading, &mut looked, &rest[taken..]),
        Err(fault) => Err(fault),
    }
}

/// The same, of an input that is let go of as it is read.
pub(crate) fn gather_freeing(
    alloc: Global,
    input: Vec<u8>,
    looked: &mut Looked,
) -> Result<GatheredInput, LineFault>
    ensures gathered { IfOk result (λ g. IsGathered input.items g.line (at g.catalogues) g.request) }
    ensures refused { IfErr result (λ fault. IsFault input.items fault.line fault.refusal) }
{
    let mut rest = input;
    let length = without_last_feed(rest.as_slice()).len();
    rest.truncate(length);
    gather_rest(alloc, begin(alloc), looked, rest)
}

// Nothing was read.
pub(crate) fn begin(alloc: Global) -> InputReading
    ensures { (result.line ≡ 1) × (result.catalogues ≡ each nothing_held) }
{
    InputReading {
        catalogues: Catalogues::new(alloc),
        reader: WriteReader::new(alloc),
        line: 1,
    }
}

// Reads the rest of an input. Each half of what is left is let go of once it was read.
fn gather_rest(
    alloc: Global,
    reading: InputReading,
    looked: &mut Looked,
    rest: Vec<u8>,
) -> Result<GatheredInput, LineFault>
    requires room { reading.line + length rest.items ≤ 18446744073709551615 }
    ensures gathered { IfOk result (λ g. WhereReadTo rest.items reading.line (at reading.catalogues) (λ input. IsGathered input g.line (at g.catalogues) g.request)) }
    ensures refused { IfErr result (λ fault. WhereReadTo rest.items reading.line (at reading.catalogues) (λ input. IsFault input fault.line fault.refusal)) }
{
    let mut reading = reading;
    let enough = rest.len() / 2 + 1;
    match take_lines(alloc, &mut reading, looked, rest.as_slice(), enough) {
        Ok(taken) => {
            if taken < enough {
                return finish(alloc, reading, looked, &rest.as_slice()[taken..]);
            }
            gather_rest(alloc, reading, looked, without_front(rest, taken))
        }
        Err(fault) => Err(fault),
    }
}

// What is behind so many bytes. The memory of these is given back.
fn without_front(bytes: Vec<u8>, taken: usize) -> Vec<u8>
    requires { taken ≤ length bytes.items }
    ensures { result.items ≡ drop taken bytes.items }
{
    let mut rest = bytes;
    let length = rest.len();
    rest.as_mut_slice().copy_within(taken..length, 0);
    rest.truncate(length - taken);
    rest.shrink_to_fit();
    rest
}

// Takes lines, one after another, until so many bytes are taken or no line feed is left, and answers how many bytes that was.
fn take_lines(
    alloc: Global,
    reading: &mut InputReading,
    looked: &mut Looked,
    rest: &[u8],
    enough: usize,
) -> Result<usize, LineFault>
    requires room { reading.old.line + length rest.now ≤ 18446744073709551615 }
    ensures bounded { IfOk result (λ n. n ≤ length rest.now) }
    ensures taken { IfOk result (λ n. WhereReadTo rest.now reading.old.line (at reading.old.catalogues) (λ input. IsReadTo input (drop n rest.now) reading.new.line (at reading.new.catalogues))) }
    ensures last { IfOk result (λ n. n < enough → pieces feed (drop n rest.now) ≡ drop n rest.now ∷ []) }
    ensures room { IfOk result (λ n. reading.new.line + length (drop n rest.now) ≤ 18446744073709551615) }
    ensures refused { IfErr result (λ fault. WhereReadTo rest.now reading.old.line (at reading.old.catalogues) (λ input. IsFault input fault.line fault.refusal)) }
{
    let mut left = rest;
    while let Some((bytes, following)) = split_line(left) {
        if let Err(refusal) = take_write(
            alloc,
            &mut reading.reader,
            &mut reading.catalogues,
            bytes,
        ) {
            looked.keep(bytes, false);
            let line = reading.line;
            return Err(LineFault { line, refusal });
        }
        left = following;
        reading.line += 1;
        if rest.len() - left.len() >= enough {
            return Ok(rest.len() - left.len());
        }
    }
    Ok(rest.len() - left.len())
}

// Reads the last line.
fn finish(
    alloc: Global,
    reading: InputReading,
    looked: &mut Looked,
    last: &[u8],
) -> Result<GatheredInput, LineFault>
    requires { pieces feed last.now ≡ last.now ∷ [] }
    ensures gathered { IfOk result (λ g. WhereReadTo last.now reading.line (at reading.catalogues) (λ input. IsGathered input g.line (at g.catalogues) g.request)) }
    ensures refused { IfErr result (λ fault. WhereReadTo last.now reading.line (at reading.catalogues) (λ input. IsFault input fault.line fault.refusal)) }
{
    let InputReading {
        catalogues,
        reader,
        line,
    } = reading;
    drop(reader);
    looked.keep(last, true);
    match read_request(alloc, last) {
        Ok(request) => Ok(GatheredInput {
            catalogues,
            request,
            line,
        }),
        Err(refusal) => Err(LineFault { line, refusal }),
    }
}

// Joins the write that the line spells.
pub(crate) fn take_write(
    alloc: Global,
    reader: &mut WriteReader,
    catalogues: &mut Catalogues,
    line: &[u8],
) -> Result<(), Refusal>
    ensures taken { OnOk result ((x : TypedWrite) × IsWriteLine line.now x
        × (catalogues.new ≡ with_at catalogues.old x.0 (joined (at catalogues.old x.0) (x.1 ∷ [])))) }
    ensures refused { IfErr result (λ e. RefusesWrite (at catalogues.old) line.now e) }
{
    let write = reader.read(alloc, line)?;
    catalogues.join(write)
}

// The request that the line spells.
fn read_request(alloc: Global, line: &[u8]) -> Result<DiscoveryRequest, Refusal>
    ensures reads { IfOk result (λ r. IsRequestLine line.now r) }
    ensures refused { IfErr result (λ e. RefusesRequest line.now e) }
{
    let request = DiscoveryRequest::read(alloc, line)?;
    if request.type_url.is_empty() {
        return Err(Refusal::BadMessage);
    }
    Ok(request)
}
