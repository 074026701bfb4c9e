// Resources of one type, read from JSON.
ghost use Rattle.std.specs.Prelude.{◌≡◌, ◌≤◌, IfOk, IfErr, OnOk, Some, None, Ok, true, false, string_bytes, length, List, ℕ};
ghost use Rattle.std.specs.Option.{option_map};
ghost use Rattle.std.specs.Arc.{arc_str_bytes};
ghost use Rattle.serde_json.specs.Data.{depth};
ghost use Rattle.serde_json.specs.Read.{read};
ghost use Rattle.serde_json.specs.View.{view};
ghost use Rattle.serde_json.specs.Written.{compact_text, has_float};
ghost use Rattle.xds_resource.specs.Refusals.{Gives, unless_refused};
ghost use Rattle.xds_resource.specs.Resources.{IsCanonical, ReadsAs, is_valid_name as is_valid, has_type as names_type, resource_name as name_of, value_of, max_nesting, max_text, front_conditions, from_object, parsed, from_value as valued};

use crate::json::{field, is_whole, nests_within};
use crate::refusal::Refusal;
use crate::types::{ResourceType, TypeName};
use serde_json::{Category, Value};
use std::alloc::Global;
use std::marker::{Model, PhantomData};
use std::sync::ArcStr;

/// The longest text of a resource, in bytes.
pub const MAX_TEXT: usize = 1_048_576;

/// How deep a resource may nest.
pub const MAX_NESTING: usize = 100;

/// The longest name, in bytes.
pub const MAX_NAME: usize = 1024;

/// A resource of one type: the JSON object of an Any, with its name.
#[derive(Drop)]
pub struct Resource<T: ResourceType> {
    pub(crate) name: ArcStr<Global>,
    pub(crate) body: ArcStr<Global>,
    pub(crate) kind: PhantomData<T>,
}

impl<T: ResourceType> Model for Resource<T> {
    ghost use Rattle.std.specs.Arc.{arc_str_bytes};
    ghost use Rattle.xds_resource.specs.Resources.{NamedBody, named_body_code, IsCanonical};

    ghost Value = { NamedBody };

    ghost coded = { named_body_code };

    ghost view = { λ r. record { name = arc_str_bytes r.name; body = arc_str_bytes r.body } };

    ghost invariant = { λ r. IsCanonical T.TYPE (record { name = arc_str_bytes r.name; body = arc_str_bytes r.body }) };
}

impl<T: ResourceType> Resource<T> {
    /// Reads a resource. Refused are, the first that applies: `TooLong`, `NotJson`, `TooDeep`, `NotWhole`, `TooLong` by
    /// the compact text, `BadResource`, `BadName`. A compact text is no longer than what it was read from, so the second
    /// `TooLong` never comes.
    pub fn parse(alloc: Global, text: &str) -> Result<Resource<T>, Refusal>
        ensures { Gives (λ r. r) result (parsed T.TYPE text.now) }
    {
        let (value, body) = read_text(alloc, text)?;
        Resource::of_object(alloc, &value, body)
    }

    /// Takes a value that was read. Refused are, the first that applies: `NotWhole`, `TooLong` by its compact
    /// text, `TooDeep`, `BadResource`, `BadName`.
    pub fn from_value(alloc: Global, value: Value) -> Result<Resource<T>, Refusal>
        ensures { Gives (λ r. r) result (valued T.TYPE (view value)) }
    {
        if !is_whole(&value) {
            return Err(Refusal::NotWhole);
        }
        let body = value.to_string(alloc)?;
        if body.as_str().len() > MAX_TEXT {
            return Err(Refusal::TooLong);
        }
        if !nests_within(&value, MAX_NESTING) {
            return Err(Refusal::TooDeep);
        }
        Resource::of_object(alloc, &value, body)
    }

    // The body is the value's text.
    pub(crate) fn of_object(
        alloc: Global,
        value: &Value,
        body: String,
    ) -> Result<Resource<T>, Refusal>
        requires whole { has_float (view value.now) ≡ false }
        requires shallow { depth (view value.now) ≤ max_nesting }
        requires short { length (string_bytes body) ≤ max_text }
        requires text { string_bytes body ≡ compact_text (view value.now) }
        requires reads_back { read (string_bytes body) ≡ Some (view value.now) }
        ensures of_value { Gives (λ r. r) result (from_object T.TYPE (view value.now)) }
        ensures of_text { (text : List ℕ) → ReadsAs text (view value.now)
            → Gives (λ r. r) result (parsed T.TYPE text) }
    {
        if !has_type(value, T::TYPE) {
            return Err(Refusal::BadResource);
        }
        let Some(name) = resource_name(value, T::TYPE) else {
            return Err(Refusal::BadResource);
        };
        if !is_valid_name(name) {
            return Err(Refusal::BadName);
        }
        let name = ArcStr::from_str(alloc, name)?;
        let body = shared(body)?;
        Ok(Resource {
            name,
            body,
            kind: PhantomData,
        })
    }

    /// The resource of this name whose text has been read and written by the caller. Refused only by `OutOfMemory`.
    pub fn of_text(alloc: Global, name: &str, body: String) -> Result<Resource<T>, Refusal>
        requires { IsCanonical T.TYPE (record { name = name.now; body = string_bytes body }) }
        ensures ok { IfOk result (λ r. r ≡ record { name = name.now; body = string_bytes body }) }
        ensures refused { IfErr result (λ e. e ≡ Refusal.OutOfMemory) }
    {
        let name = ArcStr::from_str(alloc, name)?;
        let body = shared(body)?;
        Ok(Resource {
            name,
            body,
            kind: PhantomData,
        })
    }

    pub fn name(&self) -> &str
        ensures { result.now ≡ self.now.name }
    {
        self.name.as_str()
    }

    /// The compact text of the resource's object.
    pub fn body(&self) -> &str
        ensures { result.now ≡ self.now.body }
    {
        self.body.as_str()
    }

    /// The resource's object, as it is read again from its text. `OutOfMemory` where that took more memory than there is.
    pub fn value(&self, alloc: Global) -> Result<Value, Refusal>
        ensures value { IfOk result (λ v. view v ≡ value_of self.now.body) }
        ensures text { IfOk result (λ v. compact_text (view v) ≡ self.now.body) }
        ensures whole { IfOk result (λ v. has_float (view v) ≡ false) }
        ensures shallow { IfOk result (λ v. depth (view v) ≤ max_nesting) }
        ensures refused { IfErr result (λ e. e ≡ Refusal.OutOfMemory) }
    {
        read_body(alloc, self.body.as_str())
    }

    // What is held is a resource of the type.
    pub(crate) fn is_canonical(&self)
        ensures { IsCanonical T.TYPE self.now }
    {
        let _ = &self.kind;
    }

    /// An equal resource, or `OutOfMemory`.
    pub fn try_copy(&self, _alloc: Global) -> Result<Resource<T>, Refusal>
        ensures copy { IfOk result (λ r. r ≡ self.now) }
        ensures refused { IfErr result (λ e. e ≡ Refusal.OutOfMemory) }
    {
        Ok(Resource {
            name: self.name.clone()?,
            body: self.body.clone()?,
            kind: PhantomData,
        })
    }
}

/// Whether a resource may have this name: not empty, at most [`MAX_NAME`] bytes, and not `*`.
pub fn is_valid_name(name: &str) -> bool
    ensures { result ≡ is_valid name.now }
{
    !name.is_empty() && name.len() <= MAX_NAME && name != "*"
}

// The value of a text, if it is one that any resource may have, and its compact text.
pub(crate) fn read_text(alloc: Global, text: &str) -> Result<(Value, String), Refusal>
    ensures given { Gives (λ p. view p.0) result (unless_refused (front_conditions text.now) (value_of text.now)) }
    ensures reads { IfOk result (λ p. ReadsAs text.now (view p.0)) }
    ensures shallow { IfOk result (λ p. depth (view p.0) ≤ max_nesting) }
    ensures whole { IfOk result (λ p. has_float (view p.0) ≡ false) }
    ensures short { IfOk result (λ p. length (string_bytes p.1) ≤ max_text) }
    ensures body { IfOk result (λ p. string_bytes p.1 ≡ compact_text (view p.0)) }
    ensures reads_back { IfOk result (λ p. read (string_bytes p.1) ≡ Some (view p.0)) }
{
    if text.len() > MAX_TEXT {
        return Err(Refusal::TooLong);
    }
    let value = match Value::from_str(alloc, text) {
        Ok(value) => value,
        Err(error) => {
            return Err(if error.classify() == Category::Memory {
                Refusal::OutOfMemory
            } else {
                Refusal::NotJson
            });
        }
    };
    if !nests_within(&value, MAX_NESTING) {
        return Err(Refusal::TooDeep);
    }
    if !is_whole(&value) {
        return Err(Refusal::NotWhole);
    }
    let body = value.to_string(alloc)?;
    if body.as_str().len() > MAX_TEXT {
        return Err(Refusal::TooLong);
    }
    Ok((value, body))
}

// The value of a body. Every body reads, so that only memory can fail.
pub(crate) fn read_body(alloc: Global, body: &str) -> Result<Value, Refusal>
    requires { read body.now ≡ Some (value_of body.now) }
    ensures value { IfOk result (λ v. view v ≡ value_of body.now) }
    ensures refused { IfErr result (λ e. e ≡ Refusal.OutOfMemory) }
{
    match Value::from_str(alloc, body) {
        Ok(value) => Ok(value),
        Err(_) => Err(Refusal::OutOfMemory),
    }
}

// Whether the value's `@type` is that of the type.
pub(crate) fn has_type(value: &Value, type_name: TypeName) -> bool
    ensures { result ≡ names_type type_name (view value.now) }
{
    match value.get("@type") {
        Some(Value::String(url)) => url.as_str() == type_name.url(),
        Some(_) => false,
        None => false,
    }
}

// The name that the value has as a resource of the type: empty where there is none, and `None` where it is no text.
fn resource_name(value: &Value, type_name: TypeName) -> Option<&str>
    ensures { option_map (λ s. s.now) result ≡ name_of type_name (view value.now) }
{
    match field(value, type_name.name_field(), type_name.proto_name_field()) {
        None => Some(""),
        Some(Value::Null) => Some(""),
        Some(Value::String(name)) => Some(name.as_str()),
        Some(_) => None,
    }
}

// The text, to be shared, with no room to spare.
fn shared(text: String) -> Result<ArcStr<Global>, Refusal>
    ensures ok { IfOk result (λ s. arc_str_bytes s ≡ string_bytes text) }
    ensures refused { IfErr result (λ e. e ≡ Refusal.OutOfMemory) }
{
    let mut text = text;
    text.shrink_to_fit();
    Ok(ArcStr::from_string(text)?)
}
