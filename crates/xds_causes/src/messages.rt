// Why a JSON text is no message, and what is told of it.
ghost use Rattle.std.specs.Prelude.{◌≡◌, ◌++◌, Some, IfOk, IfErr, bytes_eq, codes, decimal, string_bytes};
ghost use Rattle.std.specs.Option.{option_and_then, option_map};
ghost use Rattle.serde_json.specs.Find.{as_str, get};
ghost use Rattle.serde_json.specs.View.{view};
ghost use Rattle.xds_resource.specs.declared.refusal.Refusal.TheVariants.{OutOfMemory};
ghost use Rattle.xds_resource.specs.Fields.{field};
ghost use Rattle.xds_resource.specs.Refusals.{name_of, number_of};
ghost use Rattle.xds_resource.specs.Types.{row};
ghost use Rattle.xds_json.specs.Spelling.{set_value};
ghost use Rattle.xds_causes.specs.Fields.{IsFirstWrong, wanted};
ghost use Rattle.xds_causes.specs.Likeness.{type_near};
ghost use Rattle.xds_causes.specs.Told.{IsBodyTold, IsMessageTold, IsObjectTold, IsRestTold, IsWrite, IsWriteTold, Spells, field_text, fields_of, near_text, not_json_text, refused_text, request_text, response_text, type_text, unwritten_text, url_of};

use crate::fields::{Field, Shape, first_wrong, held_text, lacks_objects, text_at};
use crate::likeness::type_near;
use serde_json::Value;
use std::alloc::Global;
use xds_json::fields::set_field;
use xds_message::read_write;
use xds_resource::{AnyResource, Refusal, TypeName};

/// What a line of JSON is to be.
#[derive(Clone, Copy, Debug, PartialEq, Eq)]
pub enum Message {
    /// A stamped write.
    Write,
    /// A request of the state of the world.
    Request,
    /// A delta request.
    DeltaRequest,
    /// A response of the state of the world.
    Response,
    /// A delta response.
    DeltaResponse,
}

/// What is wrong of a JSON text that is to be a message: the first thing that is, in words. Nothing where each field is right. Refused
/// only by `OutOfMemory`.
pub fn message_cause(alloc: Global, json: &[u8], message: Message) -> Result<String, Refusal>
    ensures told { IfOk result (λ t. IsMessageTold json.now message (string_bytes t)) }
    ensures refused { IfErr result (λ e. e ≡ OutOfMemory) }
{
    let value = match Value::from_slice(alloc, json) {
        Ok(value) => value,
        Err(error) => {
            if error.is_memory() {
                return Err(Refusal::OutOfMemory);
            }
            return json_cause(alloc, error.column());
        }
    };
    object_cause(alloc, json, &value, message)
}

// What is told of a text that is no JSON.
fn json_cause(alloc: Global, column: usize) -> Result<String, Refusal>
    ensures told { IfOk result (λ t. string_bytes t ≡ not_json_text column) }
    ensures refused { IfErr result (λ e. e ≡ OutOfMemory) }
{
    Ok(format!(in alloc; "not JSON at byte {column}")?)
}

// What is wrong of a value.
fn object_cause(
    alloc: Global,
    json: &[u8],
    value: &Value,
    message: Message,
) -> Result<String, Refusal>
    ensures told { IfOk result (λ t. IsObjectTold json.now (view value.now) message (string_bytes t)) }
    ensures refused { IfErr result (λ e. e ≡ OutOfMemory) }
{
    if !value.is_object() {
        return said(alloc, "no JSON object");
    }
    match wrong_field(alloc, value, message)? {
        Some(field) => field_cause(alloc, value, field),
        None => rest_cause(alloc, json, value, message),
    }
}

// The first field of a message that can't be read.
fn wrong_field(alloc: Global, value: &Value, message: Message) -> Result<Option<Field>, Refusal>
    ensures first { IfOk result (λ o. IsFirstWrong (fields_of message) (view value.now) (option_map wanted o)) }
    ensures refused { IfErr result (λ e. e ≡ OutOfMemory) }
{
    match message {
        Message::Write => wrong_of_write(alloc, value),
        Message::Request => wrong_of_request(alloc, value),
        Message::DeltaRequest => wrong_of_delta_request(alloc, value),
        Message::Response => wrong_of_response(alloc, value),
        Message::DeltaResponse => wrong_of_delta_response(alloc, value),
    }
}

fn wrong_of_write(alloc: Global, value: &Value) -> Result<Option<Field>, Refusal>
    ensures first { IfOk result (λ o. IsFirstWrong (fields_of (Message.Write)) (view value.now) (option_map wanted o)) }
    ensures refused { IfErr result (λ e. e ≡ OutOfMemory) }
{
    let fields = [
        Field::new("typeUrl", "typeUrl", Shape::Text),
        Field::new("name", "name", Shape::Name),
        Field::new("counter", "counter", Shape::Counter),
        Field::new("writer", "writer", Shape::Writer),
        Field::new("groups", "groups", Shape::Texts),
    ];
    first_wrong(alloc, value, &fields)
}

fn wrong_of_request(alloc: Global, value: &Value) -> Result<Option<Field>, Refusal>
    ensures first { IfOk result (λ o. IsFirstWrong (fields_of (Message.Request)) (view value.now) (option_map wanted o)) }
    ensures refused { IfErr result (λ e. e ≡ OutOfMemory) }
{
    let fields = [
        Field::new("versionInfo", "version_info", Shape::Text),
        Field::new("node", "node", Shape::Node),
        Field::new("typeUrl", "type_url", Shape::Text),
        Field::new("responseNonce", "response_nonce", Shape::Text),
        Field::new("errorDetail", "error_detail", Shape::Detail),
        Field::new("resourceNames", "resource_names", Shape::Texts),
    ];
    first_wrong(alloc, value, &fields)
}

fn wrong_of_delta_request(alloc: Global, value: &Value) -> Result<Option<Field>, Refusal>
    ensures first { IfOk result (λ o. IsFirstWrong (fields_of (Message.DeltaRequest)) (view value.now) (option_map wanted o)) }
    ensures refused { IfErr result (λ e. e ≡ OutOfMemory) }
{
    let fields = [
        Field::new("node", "node", Shape::Node),
        Field::new("typeUrl", "type_url", Shape::Text),
        Field::new(
            "resourceNamesSubscribe",
            "resource_names_subscribe",
            Shape::Texts,
        ),
        Field::new(
            "resourceNamesUnsubscribe",
            "resource_names_unsubscribe",
            Shape::Texts,
        ),
        Field::new(
            "initialResourceVersions",
            "initial_resource_versions",
            Shape::Versions,
        ),
        Field::new("responseNonce", "response_nonce", Shape::Text),
        Field::new("errorDetail", "error_detail", Shape::Detail),
    ];
    first_wrong(alloc, value, &fields)
}

fn wrong_of_response(alloc: Global, value: &Value) -> Result<Option<Field>, Refusal>
    ensures first { IfOk result (λ o. IsFirstWrong (fields_of (Message.Response)) (view value.now) (option_map wanted o)) }
    ensures refused { IfErr result (λ e. e ≡ OutOfMemory) }
{
    let fields = [
        Field::new("versionInfo", "version_info", Shape::Text),
        Field::new("typeUrl", "type_url", Shape::Text),
        Field::new("nonce", "nonce", Shape::Text),
    ];
    first_wrong(alloc, value, &fields)
}

fn wrong_of_delta_response(alloc: Global, value: &Value) -> Result<Option<Field>, Refusal>
    ensures first { IfOk result (λ o. IsFirstWrong (fields_of (Message.DeltaResponse)) (view value.now) (option_map wanted o)) }
    ensures refused { IfErr result (λ e. e ≡ OutOfMemory) }
{
    let fields = [
        Field::new("systemVersionInfo", "system_version_info", Shape::Text),
        Field::new("typeUrl", "type_url", Shape::Text),
        Field::new("nonce", "nonce", Shape::Text),
        Field::new("removedResources", "removed_resources", Shape::Texts),
    ];
    first_wrong(alloc, value, &fields)
}

// What is told of a field that can't be read.
fn field_cause(alloc: Global, value: &Value, field: Field) -> Result<String, Refusal>
    ensures told { IfOk result (λ t. string_bytes t ≡ field_text (wanted field) (view value.now)) }
    ensures refused { IfErr result (λ e. e ≡ OutOfMemory) }
{
    let Field {
        camel,
        proto,
        shape,
    } = field;
    if set_field(value, camel, proto).is_some() {
        not_so(alloc, camel, shape.text())
    } else {
        not_there(alloc, camel, shape.text())
    }
}

// That a field isn't what it is to be.
fn not_so(alloc: Global, name: &str, shape: &str) -> Result<String, Refusal>
    ensures told { IfOk result (λ t. string_bytes t ≡ codes "\"" ++ name.now ++ codes "\" isn't " ++ shape.now) }
    ensures refused { IfErr result (λ e. e ≡ OutOfMemory) }
{
    Ok(format!(in alloc; "\"{name}\" isn't {shape}")?)
}

// That a field isn't there.
fn not_there(alloc: Global, name: &str, shape: &str) -> Result<String, Refusal>
    ensures told { IfOk result (λ t. string_bytes t ≡ codes "there is no \"" ++ name.now ++ codes "\": " ++ shape.now) }
    ensures refused { IfErr result (λ e. e ≡ OutOfMemory) }
{
    Ok(format!(in alloc; "there is no \"{name}\": {shape}")?)
}

// What else is wrong of a message.
fn rest_cause(
    alloc: Global,
    json: &[u8],
    value: &Value,
    message: Message,
) -> Result<String, Refusal>
    ensures told { IfOk result (λ t. IsRestTold json.now (view value.now) message (string_bytes t)) }
    ensures refused { IfErr result (λ e. e ≡ OutOfMemory) }
{
    match message {
        Message::Write => write_cause(alloc, json, value),
        Message::Request => request_cause(alloc, url_of(value)),
        Message::DeltaRequest => Ok(String::new(alloc)),
        Message::Response => response_cause(
            alloc,
            value,
            "\"resources\" has one that is no resource of its \"typeUrl\"",
        ),
        Message::DeltaResponse => response_cause(
            alloc,
            value,
            "\"resources\" has one that isn't an object with a \"resource\" of its \"typeUrl\"",
        ),
    }
}

// What is wrong of a write whose fields can be read.
fn write_cause(alloc: Global, json: &[u8], value: &Value) -> Result<String, Refusal>
    ensures told { IfOk result (λ t. IsWriteTold json.now (view value.now) (option_and_then as_str (get (codes "typeUrl") (view value.now))) (string_bytes t)) }
    ensures refused { IfErr result (λ e. e ≡ OutOfMemory) }
{
    let Some(url) = text_at(value, "typeUrl") else {
        return said(alloc, "there is no \"typeUrl\": a text");
    };
    match TypeName::from_url(url) {
        Some(kind) => body_cause(alloc, json, value, kind),
        None => type_cause(alloc, url),
    }
}

// What is wrong of the body or the groups of a write, where its other fields are right.
fn body_cause(alloc: Global, json: &[u8], value: &Value, kind: TypeName) -> Result<String, Refusal>
    ensures told { IfOk result (λ t. IsBodyTold json.now (view value.now) kind (string_bytes t)) }
    ensures refused { IfErr result (λ e. e ≡ OutOfMemory) }
{
    if is_write(alloc, json)? {
        return Ok(String::new(alloc));
    }
    unwritten(alloc, value, kind)
}

// Whether a text spells a write.
fn is_write(alloc: Global, json: &[u8]) -> Result<bool, Refusal>
    ensures is { IfOk result (Spells (IsWrite json.now)) }
    ensures refused { IfErr result (λ e. e ≡ OutOfMemory) }
{
    match read_write(alloc, json) {
        Ok(_write) => Ok(true),
        Err(Refusal::OutOfMemory) => Err(Refusal::OutOfMemory),
        Err(_) => Ok(false),
    }
}

// What is wrong of a write whose other fields are right, by its body.
fn unwritten(alloc: Global, value: &Value, kind: TypeName) -> Result<String, Refusal>
    ensures told { IfOk result (λ t. string_bytes t
        ≡ unwritten_text kind (set_value (field (codes "body") (codes "body") (view value.now)))) }
    ensures refused { IfErr result (λ e. e ≡ OutOfMemory) }
{
    match set_field(value, "body", "body") {
        Some(body) => of_body(alloc, body, kind),
        None => said(
            alloc,
            "\"groups\" are those of a write without \"body\", which has none",
        ),
    }
}

// What is wrong of a body, or of the name or the groups beside it.
fn of_body(alloc: Global, body: &Value, kind: TypeName) -> Result<String, Refusal>
    ensures told { IfOk result (λ t. string_bytes t ≡ unwritten_text kind (Some (view body.now))) }
    ensures refused { IfErr result (λ e. e ≡ OutOfMemory) }
{
    let Ok(copy) = body.clone() else {
        return Err(Refusal::OutOfMemory);
    };
    match AnyResource::from_value(alloc, kind, copy) {
        Ok(_resource) => said(
            alloc,
            "\"body\" has another name than \"name\", or \"groups\" can't be",
        ),
        Err(Refusal::OutOfMemory) => Err(Refusal::OutOfMemory),
        Err(refusal) => refused_body(alloc, text_at(body, "@type"), kind, refusal),
    }
}

// What is told of a body that is no resource of a type, by the type that it names.
fn refused_body(
    alloc: Global,
    url: Option<&str>,
    kind: TypeName,
    refusal: Refusal,
) -> Result<String, Refusal>
    ensures told { IfOk result (λ t. string_bytes t ≡ refused_text kind (option_map (λ s. s.now) url.entry) refusal) }
    ensures refused { IfErr result (λ e. e ≡ OutOfMemory) }
{
    match url {
        Some(url) => {
            if is_url_of(url, kind) {
                no_resource(alloc, refusal)
            } else {
                other_type(alloc, url)
            }
        }
        None => no_resource(alloc, refusal),
    }
}

// Whether a URL is that of a type.
fn is_url_of(url: &str, kind: TypeName) -> bool
    ensures { result ≡ bytes_eq url.now (row kind).url }
{
    url == kind.url()
}

// That a body names another type.
fn other_type(alloc: Global, url: &str) -> Result<String, Refusal>
    ensures told { IfOk result (λ t. string_bytes t
        ≡ codes "\"@type\" of \"body\" is \"" ++ url.now ++ codes "\", and not \"typeUrl\"") }
    ensures refused { IfErr result (λ e. e ≡ OutOfMemory) }
{
    Ok(format!(in alloc; "\"@type\" of \"body\" is \"{url}\", and not \"typeUrl\"")?)
}

// That a body is no resource of its type.
fn no_resource(alloc: Global, refusal: Refusal) -> Result<String, Refusal>
    ensures told { IfOk result (λ t. string_bytes t
        ≡ codes "\"body\" is no resource of the type: " ++ decimal (number_of refusal) ++ codes " " ++ name_of refusal) }
    ensures refused { IfErr result (λ e. e ≡ OutOfMemory) }
{
    let number = refusal.number();
    let name = refusal.name();
    Ok(format!(in alloc; "\"body\" is no resource of the type: {number} {name}")?)
}

// The type URL of a request or a response, empty where none is set.
fn url_of(value: &Value) -> &str
    ensures { result.now ≡ url_of (view value.now) }
{
    match held_text(value, "typeUrl", "type_url") {
        Some(url) => url,
        None => "",
    }
}

// What is told of a request, by its type URL.
fn request_cause(alloc: Global, url: &str) -> Result<String, Refusal>
    ensures told { IfOk result (λ t. string_bytes t ≡ request_text url.now) }
    ensures refused { IfErr result (λ e. e ≡ OutOfMemory) }
{
    if url.is_empty() {
        return said(
            alloc,
            "there is no \"typeUrl\": the type of the resources that are asked for",
        );
    }
    unknown_type(alloc, url)
}

// What is told of a response, and this of one of a known type.
fn response_cause(alloc: Global, value: &Value, known: &str) -> Result<String, Refusal>
    ensures told { IfOk result (λ t. string_bytes t ≡ response_text known.now (view value.now)) }
    ensures refused { IfErr result (λ e. e ≡ OutOfMemory) }
{
    if lacks_objects(value, "resources") {
        return said(alloc, "\"resources\" isn't a list of objects");
    }
    let url = url_of(value);
    match TypeName::from_url(url) {
        Some(_) => said(alloc, known),
        None => type_cause(alloc, url),
    }
}

/// What is told of a type URL, nothing where it is known. Refused only by `OutOfMemory`.
pub fn unknown_type(alloc: Global, url: &str) -> Result<String, Refusal>
    ensures told { IfOk result (λ t. string_bytes t ≡ type_text url.now) }
    ensures refused { IfErr result (λ e. e ≡ OutOfMemory) }
{
    match TypeName::from_url(url) {
        Some(_) => Ok(String::new(alloc)),
        None => type_cause(alloc, url),
    }
}

// What is told of a type URL that is none of the table, and the one that it may mean.
fn type_cause(alloc: Global, url: &str) -> Result<String, Refusal>
    ensures told { IfOk result (λ t. string_bytes t ≡ near_text url.now (type_near url.now)) }
    ensures refused { IfErr result (λ e. e ≡ OutOfMemory) }
{
    match type_near(url) {
        Some(kind) => meant(alloc, url, kind),
        None => Ok(format!(in alloc; "typeUrl \"{url}\" is none that is known")?),
    }
}

// The same, with the type that it may mean.
fn meant(alloc: Global, url: &str, kind: TypeName) -> Result<String, Refusal>
    ensures told { IfOk result (λ t. string_bytes t ≡ near_text url.now (Some kind)) }
    ensures refused { IfErr result (λ e. e ≡ OutOfMemory) }
{
    let known = kind.url();
    Ok(format!(in alloc; "typeUrl \"{url}\" is none that is known; did you mean \"{known}\"?")?)
}

// A text, as it is.
pub(crate) fn said(alloc: Global, text: &str) -> Result<String, Refusal>
    ensures told { IfOk result (λ t. string_bytes t ≡ text.now) }
    ensures refused { IfErr result (λ e. e ≡ OutOfMemory) }
{
    Ok(String::from_str(alloc, text)?)
}
