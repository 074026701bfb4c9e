// The fields of a message's object, and the first of them that can't be read.
ghost use Rattle.std.specs.Prelude.{◌≡◌, ◌||◌, ℕ, List, Some, IfOk, IfErr, IfSome, IfNone, map, nat_lt};
ghost use Rattle.std.specs.Option.{option_and_then, option_map};
ghost use Rattle.serde_json.specs.Data.{number, string, unsigned};
ghost use Rattle.serde_json.specs.Find.{as_str, get};
ghost use Rattle.serde_json.specs.View.{items_view, view};
ghost use Rattle.std.specs.Prelude.{Option as Maybe, codes};
ghost use Rattle.xds_resource.specs.Fields.{field};
ghost use Rattle.xds_json.specs.Spelling.{IsInner, IsText, IsTexts};
ghost use Rattle.xds_json.specs.Parts.{Failure, Identity, SpellsFailure, SpellsIdentity};
ghost use Rattle.xds_json.specs.Versions.{IsVersions, VersionMap};
ghost use Rattle.xds_resource.specs.declared.refusal.Refusal.TheVariants.{OutOfMemory};
ghost use Rattle.xds_causes.specs.Fields.{Fits, HasName, HasNumber, IsFirstWrong, Tells, WasRefused, shape_text, wanted};
ghost use Rattle.xds_causes.specs.Told.{has_others, held_text, lacks_objects};

use serde_json::Value;
use std::alloc::Global;
use xds_json::fields::{set_field, text_field, texts_field};
use xds_json::node::node_field;
use xds_json::status::error_detail_field;
use xds_json::versions::versions_field;
use xds_resource::Refusal;
use xds_resource::resource::is_valid_name;

/// What a field holds.
#[derive(Clone, Copy, Debug, PartialEq, Eq)]
pub enum Shape {
    /// A text, or nothing.
    Text,
    /// A list of texts, or nothing.
    Texts,
    /// A node, or nothing.
    Node,
    /// Why a response is rejected, or nothing.
    Detail,
    /// An object whose values are texts, or nothing.
    Versions,
    /// A number from 1 to 9223372036854775807.
    Counter,
    /// A number from 1 to 65535.
    Writer,
    /// The name of a resource.
    Name,
}

impl Shape {
    /// What is told that the field is to hold.
    pub(crate) fn text(self) -> &'static str
        ensures { result.now ≡ shape_text self }
    {
        match self {
            Shape::Text => "a text",
            Shape::Texts => "a list of texts",
            Shape::Node => "an object with the texts \"id\" and \"cluster\"",
            Shape::Detail => "an object with the number \"code\" and the text \"message\"",
            Shape::Versions => "an object whose values are texts",
            Shape::Counter => "a number from 1 to 9223372036854775807",
            Shape::Writer => "a number from 1 to 65535",
            Shape::Name => "the name of a resource: a text, not empty and not *",
        }
    }
}

/// A field: its lowerCamelCase name, that of the proto file, and what it holds.
#[derive(Clone, Copy, Debug, PartialEq, Eq)]
pub struct Field {
    pub camel: &'static str,
    pub proto: &'static str,
    pub shape: Shape,
}

impl Field {
    /// A field of these names.
    pub fn new(camel: &'static str, proto: &'static str, shape: Shape) -> Field
        ensures { wanted result ≡ record { camel = camel.now; proto = proto.now; shape = shape } }
    {
        Field {
            camel,
            proto,
            shape,
        }
    }
}

/// The first field that doesn't hold what it is to hold, if there is one. Refused only by `OutOfMemory`.
pub fn first_wrong(alloc: Global, value: &Value, fields: &[Field]) -> Result<Option<Field>, Refusal>
    ensures first { IfOk result (λ o. IsFirstWrong (map wanted fields.now) (view value.now) (option_map wanted o)) }
    ensures refused { IfErr result (λ e. e ≡ OutOfMemory) }
{
    for field in fields {
        if is_wrong(alloc, value, *field)? {
            return Ok(Some(*field));
        }
    }
    Ok(None)
}

// Whether a field doesn't hold what it is to hold.
fn is_wrong(alloc: Global, value: &Value, field: Field) -> Result<bool, Refusal>
    ensures wrong { IfOk result (Tells (Fits (wanted field) (view value.now))) }
    ensures refused { IfErr result (λ e. e ≡ OutOfMemory) }
{
    let Field {
        camel,
        proto,
        shape,
    } = field;
    match shape {
        Shape::Text => text_wrong(alloc, value, camel, proto),
        Shape::Texts => texts_wrong(alloc, value, camel, proto),
        Shape::Node => node_wrong(alloc, value),
        Shape::Detail => detail_wrong(alloc, value),
        Shape::Versions => versions_wrong(alloc, value, camel, proto),
        Shape::Counter => Ok(lacks_number(value, camel, 9_223_372_036_854_775_807)),
        Shape::Writer => Ok(lacks_number(value, camel, 65_535)),
        Shape::Name => Ok(lacks_name(value, camel)),
    }
}

// Whether a text can't be read there.
fn text_wrong(alloc: Global, value: &Value, camel: &str, proto: &str) -> Result<bool, Refusal>
    ensures wrong { IfOk result (Tells ((text : List ℕ) × IsText (field camel.now proto.now (view value.now)) text)) }
    ensures refused { IfErr result (λ e. e ≡ OutOfMemory) }
{
    is_refused(text_field(alloc, value, camel, proto))
}

// Whether a list of texts can't be read there.
fn texts_wrong(alloc: Global, value: &Value, camel: &str, proto: &str) -> Result<bool, Refusal>
    ensures wrong { IfOk result (Tells ((texts : List (List ℕ)) × IsTexts (field camel.now proto.now (view value.now)) texts)) }
    ensures refused { IfErr result (λ e. e ≡ OutOfMemory) }
{
    is_refused(texts_field(alloc, value, camel, proto))
}

// Whether the node can't be read.
fn node_wrong(alloc: Global, value: &Value) -> Result<bool, Refusal>
    ensures wrong { IfOk result (Tells ((node : Maybe Identity) × IsInner SpellsIdentity (field (codes "node") (codes "node") (view value.now)) node)) }
    ensures refused { IfErr result (λ e. e ≡ OutOfMemory) }
{
    is_refused(node_field(alloc, value))
}

// Whether why a response is rejected can't be read.
fn detail_wrong(alloc: Global, value: &Value) -> Result<bool, Refusal>
    ensures wrong { IfOk result (Tells ((detail : Maybe Failure) × IsInner SpellsFailure (field (codes "errorDetail") (codes "error_detail") (view value.now)) detail)) }
    ensures refused { IfErr result (λ e. e ≡ OutOfMemory) }
{
    is_refused(error_detail_field(alloc, value))
}

// Whether versions can't be read there.
fn versions_wrong(alloc: Global, value: &Value, camel: &str, proto: &str) -> Result<bool, Refusal>
    ensures wrong { IfOk result (Tells ((versions : VersionMap) × IsVersions (field camel.now proto.now (view value.now)) versions)) }
    ensures refused { IfErr result (λ e. e ≡ OutOfMemory) }
{
    is_refused(versions_field(alloc, value, camel, proto))
}

// Whether a read was refused, but for want of memory.
fn is_refused<X: Drop>(read: Result<X, Refusal>) -> Result<bool, Refusal>
    ensures tells { IfOk result (λ b. WasRefused b read) }
    ensures refused { IfErr result (λ e. e ≡ OutOfMemory) }
{
    match read {
        Ok(_) => Ok(false),
        Err(Refusal::OutOfMemory) => Err(Refusal::OutOfMemory),
        Err(_) => Ok(true),
    }
}

// Whether no number from 1 to the most stands there.
fn lacks_number(value: &Value, key: &str, most: u64) -> bool
    ensures { Tells (HasNumber most (get key.now (view value.now))) result }
{
    let Some(number) = number_at(value, key) else {
        return true;
    };
    is_outside(number, most)
}

fn is_outside(number: u64, most: u64) -> bool
    ensures { result ≡ (nat_lt number 1 || nat_lt most number) }
{
    number < 1 || most < number
}

fn number_at(value: &Value, key: &str) -> Option<u64>
    ensures found { IfSome result (λ n. get key.now (view value.now) ≡ Some (number (unsigned n))) }
    ensures unknown { IfNone result ((n : ℕ)
        → get key.now (view value.now) ≡ Some (number (unsigned n)) → ⊥) }
{
    value.get(key)?.as_u64()
}

// Whether no name of a resource stands there.
fn lacks_name(value: &Value, key: &str) -> bool
    ensures { Tells (HasName (get key.now (view value.now))) result }
{
    let Some(name) = text_at(value, key) else {
        return true;
    };
    !is_valid_name(name)
}

/// The text that stands there, if there is one.
pub(crate) fn text_at<'v>(value: &'v Value, key: &str) -> Option<&'v str>
    ensures reads { option_map (λ s. s.now) result ≡ option_and_then as_str (get key.now (view value.now)) }
    ensures found { IfSome result (λ s. get key.now (view value.now) ≡ Some (string s.now)) }
    ensures unknown { IfNone result ((s : List ℕ)
        → get key.now (view value.now) ≡ Some (string s) → ⊥) }
{
    value.get(key)?.as_str()
}

/// The text that a field is set to, under its lowerCamelCase name or that of the proto file.
pub(crate) fn held_text<'v>(value: &'v Value, camel: &str, proto: &str) -> Option<&'v str>
    ensures { option_map (λ s. s.now) result ≡ held_text camel.now proto.now (view value.now) }
{
    set_field(value, camel, proto)?.as_str()
}

/// Whether a field is set to anything but a list of objects.
pub(crate) fn lacks_objects(value: &Value, key: &str) -> bool
    ensures { result ≡ lacks_objects key.now (view value.now) }
{
    let Some(found) = set_field(value, key, key) else {
        return false;
    };
    match found.as_array() {
        Some(values) => has_others(values),
        None => true,
    }
}

// Whether some value is no object.
fn has_others(values: &Vec<Value>) -> bool
    ensures { result ≡ has_others (items_view values.now.items) }
{
    for value in values {
        if !value.is_object() {
            return true;
        }
    }
    false
}
