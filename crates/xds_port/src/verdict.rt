// What a checker says of a resource.
ghost use Rattle.std.specs.Prelude.{◌≡◌, ◌≢◌, IfOk, IfErr};
ghost use Rattle.serde_json.specs.View.{view};
ghost use Rattle.xds_json.specs.Spelling.{Reads};
ghost use Rattle.xds_resource.specs.declared.refusal.Refusal.TheVariants.{OutOfMemory};
ghost use Rattle.xds_port.specs.Verdicts.{HasComplaint, HasVerdict, SpellsComplaint, SpellsFault, SpellsNothing};

use crate::complaint::Complaint;
use serde_json::Value;
use std::alloc::Global;
use xds_json::fields::text_field;
use xds_json::read_json;
use xds_resource::Refusal;

// The statuses by which a checker says that a resource is good, or isn't.
const GOOD: u16 = 200;

const BAD: u16 = 422;

/// Why a checker says nothing of a resource.
#[derive(Clone, Copy, Debug, PartialEq, Eq)]
pub enum Absence {
    /// Nobody answers there.
    Unreachable,
    /// Its answer isn't there in time.
    Silent,
    /// Its answer breaks off, or is none of HTTP.
    Broken,
    /// It answers by this status, which says neither.
    Status(u16),
    /// It says that the resource isn't good, and not what is wrong of it.
    Unclear,
}

impl Absence {
    ghost use Rattle.std.specs.Prelude.{◌≡◌, string_bytes, IfOk};
    ghost use Rattle.xds_port.specs.Verdicts.{absence_text};

    /// How it is told.
    pub fn text(self, alloc: Global) -> Result<String, Refusal>
        ensures { IfOk result (λ t. string_bytes t ≡ absence_text self) }
    {
        let text = match self {
            Absence::Unreachable => "nobody answers there",
            Absence::Silent => "no answer in time",
            Absence::Broken => "its answer breaks off, or is none",
            Absence::Status(status) => return Ok(format!(in alloc; "it answers {status}")?),
            Absence::Unclear => "it answers 422, and not what is wrong",
        };
        Ok(String::from_str(alloc, text)?)
    }
}

/// What a checker says of a resource.
#[derive(Debug, Drop)]
pub enum Verdict {
    Good,
    Bad(Complaint),
    Away(Absence),
}

/// What a checker says of a resource by an answer of this status and body: 200 is good, whatever the body is, and 422 is bad, by a JSON
/// object that may have the texts `resource`, `field` and `cause`. Any other answer says neither. Refused only by `OutOfMemory`.
pub fn read_verdict(alloc: Global, status: u16, body: &[u8]) -> Result<Verdict, Refusal>
    ensures verdict { HasVerdict status body.now result }
    ensures refused { IfErr result (λ e. e ≡ Refusal.OutOfMemory) }
{
    if status == GOOD {
        return Ok(Verdict::Good);
    }
    if status == BAD {
        return read_bad(alloc, body);
    }
    Ok(Verdict::Away(Absence::Status(status)))
}

// What a checker says of a resource that isn't good.
fn read_bad(alloc: Global, body: &[u8]) -> Result<Verdict, Refusal>
    ensures verdict { HasComplaint body.now result }
    ensures refused { IfErr result (λ e. e ≡ OutOfMemory) }
{
    match complaint_in(alloc, body) {
        Ok(complaint) => Ok(Verdict::Bad(complaint)),
        Err(refusal) => {
            if refusal == Refusal::OutOfMemory {
                Err(refusal)
            } else {
                Ok(Verdict::Away(Absence::Unclear))
            }
        }
    }
}

// What is wrong of a resource, by a JSON text. Refused where there was no memory, or it doesn't say that.
fn complaint_in(alloc: Global, body: &[u8]) -> Result<Complaint, Refusal>
    ensures ok { IfOk result (λ m. SpellsComplaint body.now m) }
    ensures refused { IfErr result (λ e. e ≢ OutOfMemory → SpellsNothing body.now) }
{
    match read_json(alloc, body) {
        Ok(value) => complaint_of(alloc, &value),
        Err(refusal) => Err(refusal),
    }
}

// What is wrong of a resource, by a JSON value.
fn complaint_of(alloc: Global, value: &Value) -> Result<Complaint, Refusal>
    ensures { Reads (SpellsFault (view value.now)) (λ m. m) result }
{
    if !value.is_object() {
        return Err(Refusal::BadMessage);
    }
    Ok(Complaint {
        resource: text_field(alloc, value, "resource", "resource")?,
        field: text_field(alloc, value, "field", "field")?,
        cause: text_field(alloc, value, "cause", "cause")?,
    })
}
