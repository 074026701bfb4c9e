// Why a client rejects a response, in requests of both variants.
ghost use Rattle.std.specs.Prelude.{◌≡◌, option_map, codes, IfOk, IfErr, OnOk, MatchOption, FitsSigned, ⊤};
ghost use Rattle.std.specs.Int.{w32};
ghost use Rattle.serde_json.specs.View.{view, members_view};
ghost use Rattle.xds_resource.specs.Fields.{field};
ghost use Rattle.xds_resource.specs.declared.refusal.Refusal.TheVariants.{OutOfMemory};
ghost use Rattle.xds_json.specs.Parts.{SpellsFailure};
ghost use Rattle.xds_json.specs.Spelling.{IsInner, Reads};
ghost use Rattle.xds_json.specs.WrittenFields.{put_set, failure_object};

use crate::fields::{code_field, put_code, put_inner, put_text, set_field, text_field};
use serde_json::{Map, Value};
use std::alloc::Global;
use std::marker::Model;
use xds_resource::Refusal;

/// Why a client rejects a response: of `google.rpc.Status` its code and its message.
#[derive(Debug)]
pub struct Status {
    /// A code of `google.rpc.Code`, of which 0 is no error.
    pub code: i32,
    /// What a person reads.
    pub message: String,
}

// Written out: docs/PROVING.md, "Drops".
impl Drop for Status {
    fn drop(self) {
        let Status {
            code: _,
            message: _,
        } = self;
    }
}

impl Model for Status {
    ghost use Rattle.std.specs.Prelude.{string_bytes};
    ghost use Rattle.xds_json.specs.Parts.{Failure};

    ghost Value = { Failure };

    ghost view = { λ s. record { code = s.code; message = string_bytes s.message } };
}

impl Status {
    /// An equal status. Refused only by `OutOfMemory`.
    pub fn try_copy(&self, alloc: Global) -> Result<Status, Refusal>
        ensures ok { IfOk result (λ s. s ≡ self.now) }
        ensures refused { IfErr result (λ e. e ≡ OutOfMemory) }
    {
        Ok(Status {
            code: self.code,
            message: String::from_str(alloc, self.message.as_str())?,
        })
    }

    /// The status's object.
    fn to_value(&self, alloc: Global) -> Result<Value, Refusal>
        ensures ok { IfOk result (λ v. view v ≡ failure_object self.now) }
        ensures in_range { OnOk result (FitsSigned w32 self.now.code) }
        ensures refused { IfErr result (λ e. e ≡ OutOfMemory) }
    {
        let mut map = Map::new(alloc);
        put_text(alloc, &mut map, "message", &self.message)?;
        put_code(alloc, &mut map, "code", self.code)?;
        Ok(Value::Object(map))
    }
}

/// An equal status, if there is one. Refused only by `OutOfMemory`.
pub fn copy_status(alloc: Global, status: &Option<Status>) -> Result<Option<Status>, Refusal>
    ensures ok { IfOk result (λ s. s ≡ status.now) }
    ensures refused { IfErr result (λ e. e ≡ OutOfMemory) }
{
    match status {
        Some(status) => Ok(Some(status.try_copy(alloc)?)),
        None => Ok(None),
    }
}

fn status_of(alloc: Global, value: &Value) -> Result<Status, Refusal>
    ensures { Reads (SpellsFailure (view value.now)) (λ m. m) result }
{
    if !value.is_object() {
        return Err(Refusal::BadMessage);
    }
    Ok(Status {
        code: code_field(value, "code", "code")?,
        message: text_field(alloc, value, "message", "message")?,
    })
}

/// Why the last response is rejected, if a request's `errorDetail` is set. Refused by `BadMessage` where that spells no
/// status, and by `OutOfMemory`.
pub fn error_detail_field(alloc: Global, value: &Value) -> Result<Option<Status>, Refusal>
    ensures { Reads
        (IsInner SpellsFailure
        (field (codes "errorDetail") (codes "error_detail") (view value.now))) (λ m. m) result }
{
    match set_field(value, "errorDetail", "error_detail") {
        Some(found) => Ok(Some(status_of(alloc, found)?)),
        None => Ok(None),
    }
}

/// Writes why the last response is rejected, if a request says so. Refused only by `OutOfMemory`.
pub fn put_error_detail(
    alloc: Global,
    map: &mut Map<String, Value>,
    status: &Option<Status>,
) -> Result<(), Refusal>
    ensures ok { OnOk result (members_view map.new.entries
        ≡ put_set (codes "errorDetail") (option_map failure_object status.now) (members_view map.old.entries)) }
    ensures in_range { OnOk result (MatchOption status.now ⊤ (λ f. FitsSigned w32 f.code)) }
    ensures refused { IfErr result (λ e. e ≡ OutOfMemory) }
{
    let value = status_value(alloc, status)?;
    put_inner(alloc, map, "errorDetail", value)
}

fn status_value(alloc: Global, status: &Option<Status>) -> Result<Option<Value>, Refusal>
    ensures ok { IfOk result (λ v. option_map view v ≡ option_map failure_object status.now) }
    ensures in_range { OnOk result (MatchOption status.now ⊤ (λ f. FitsSigned w32 f.code)) }
    ensures refused { IfErr result (λ e. e ≡ OutOfMemory) }
{
    match status {
        Some(status) => Ok(Some(status.to_value(alloc)?)),
        None => Ok(None),
    }
}
