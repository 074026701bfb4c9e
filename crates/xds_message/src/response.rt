// Discovery responses.
ghost use Rattle.std.specs.Prelude.{◌≡◌, ◌≤◌, suc, [], ◌∷◌, Some, false, map, string_bytes, codes, IfOk, IfErr, All, Contains};
ghost use Rattle.serde_json.specs.Data.{Data, depth};
ghost use Rattle.serde_json.specs.Read.{read as reading, max_depth};
ghost use Rattle.serde_json.specs.View.{view, members_view};
ghost use Rattle.serde_json.specs.Written.{compact_text, has_float};
ghost use Rattle.xds_resource.specs.Fields.{field};
ghost use Rattle.xds_resource.specs.Resources.{max_nesting};
ghost use Rattle.xds_resource.specs.declared.refusal.Refusal.TheVariants.{NotJson, BadMessage, OutOfMemory};
ghost use Rattle.xds_message.specs.Messages.{Response, SpellsResponse};
ghost use Rattle.xds_message.specs.Responses.{response_of};
ghost use Rattle.xds_json.specs.Spelling.{IsJson, IsObject, IsObjects, Reads};
ghost use Rattle.xds_message.specs.Written.{response_object};

use serde_json::{Map, Value};
use std::alloc::Global;
use xds_json::fields::{copy_values, put_list, put_text, read_json, taken_field, text_field};
use xds_resource::Refusal;

/// What a server answers: resources of one type.
#[derive(Drop)]
pub struct DiscoveryResponse {
    /// The version of the resources.
    pub version_info: String,
    /// The resources, each a JSON object.
    pub resources: Vec<Value>,
    /// The type of the resources.
    pub type_url: String,
    /// What the client's next request names this response by.
    pub nonce: String,
}

impl DiscoveryResponse {
    /// The response that the bytes spell in the proto3 JSON mapping: one JSON object, whose fields are known by their
    /// lowerCamelCase names and the proto file's. Fields that are not known are passed over. Whether an object in it is a
    /// resource of its type is not looked at.
    pub fn read(alloc: Global, bytes: &[u8]) -> Result<DiscoveryResponse, Refusal>
        ensures ok { IfOk result
            (λ m. (d : Data) × IsJson bytes.now d × SpellsResponse d (response_of m)) }
        ensures not_json { result ≡ Err NotJson → (d : Data) → IsJson bytes.now d → ⊥ }
        ensures bad { result ≡ Err BadMessage → (d : Data) × IsJson bytes.now d
            × ((m : Response) → SpellsResponse d m → ⊥) }
        ensures refused { IfErr result (λ e. Contains (NotJson ∷ BadMessage ∷ OutOfMemory ∷ []) e) }
    {
        let value = read_json(alloc, bytes)?;
        response_from(alloc, value)
    }

    /// The compact text of the response's object. Its resources hold no number but whole ones. They move into that
    /// object, so a caller that needs the response again copies it first.
    pub fn write(self, alloc: Global) -> Result<String, Refusal>
        ensures text { IfOk result (λ s. has_float (response_object (response_of self)) ≡ false
            → string_bytes s ≡ compact_text (response_object (response_of self))) }
        ensures whole { IfOk result
            (λ s. All (λ d. has_float d ≡ false) (response_of self).resources
            → string_bytes s ≡ compact_text (response_object (response_of self))) }
        ensures shallow { IfOk result
            (λ s. All (λ d. depth d ≤ max_nesting) (response_of self).resources
            → (depth (response_object (response_of self)) ≤ suc (suc max_nesting))
            × (reading (string_bytes s) ≡ Some (response_object (response_of self)))) }
        ensures reads_back { IfOk result
            (λ s. depth (response_object (response_of self)) ≤ max_depth
            → reading (string_bytes s) ≡ Some (response_object (response_of self))) }
        ensures spelled { IfOk result (λ s. All IsObject (response_of self).resources
            → depth (response_object (response_of self)) ≤ max_depth
            → (d : Data) × IsJson (string_bytes s) d × SpellsResponse d (response_of self)) }
        ensures refused { IfErr result (λ e. e ≡ OutOfMemory) }
    {
        Ok(self.to_value(alloc)?.to_string(alloc)?)
    }

    /// The response's object.
    fn to_value(self, alloc: Global) -> Result<Value, Refusal>
        ensures ok { IfOk result (λ v. view v ≡ response_object (response_of self)) }
        ensures refused { IfErr result (λ e. e ≡ OutOfMemory) }
    {
        let mut map = Map::new(alloc);
        put_text(alloc, &mut map, "versionInfo", &self.version_info)?;
        put_text(alloc, &mut map, "typeUrl", &self.type_url)?;
        put_list(alloc, &mut map, "resources", self.resources)?;
        put_text(alloc, &mut map, "nonce", &self.nonce)?;
        Ok(Value::Object(map))
    }

    /// An equal response.
    pub fn try_copy(&self, alloc: Global) -> Result<DiscoveryResponse, Refusal>
        ensures ok { IfOk result (λ r. response_of r ≡ response_of self.now) }
        ensures refused { IfErr result (λ e. e ≡ OutOfMemory) }
    {
        Ok(DiscoveryResponse {
            version_info: String::from_str(alloc, self.version_info.as_str())?,
            resources: copy_values(alloc, &self.resources)?,
            type_url: String::from_str(alloc, self.type_url.as_str())?,
            nonce: String::from_str(alloc, self.nonce.as_str())?,
        })
    }
}

fn only_objects(values: Vec<Value>) -> Result<Vec<Value>, Refusal>
    ensures { Reads (λ ds. (map view values.items ≡ ds) × All IsObject ds)
        (λ v. map view v.items) result }
{
    for value in &values {
        if !value.is_object() {
            return Err(Refusal::BadMessage);
        }
    }
    Ok(values)
}

// The resources of a response's object, which they move out of.
fn objects_field(alloc: Global, value: Value) -> Result<Vec<Value>, Refusal>
    ensures { Reads (IsObjects (field (codes "resources") (codes "resources") (view value)))
        (λ v. map view v.items) result }
{
    match taken_field(value, "resources") {
        Some(Value::Array(values)) => only_objects(values),
        Some(_) => Err(Refusal::BadMessage),
        None => Ok(Vec::new(alloc)),
    }
}

fn response_from(alloc: Global, value: Value) -> Result<DiscoveryResponse, Refusal>
    ensures { Reads (SpellsResponse (view value)) response_of result }
{
    if !value.is_object() {
        return Err(Refusal::BadMessage);
    }
    let version_info = text_field(alloc, &value, "versionInfo", "version_info")?;
    let type_url = text_field(alloc, &value, "typeUrl", "type_url")?;
    let nonce = text_field(alloc, &value, "nonce", "nonce")?;
    Ok(DiscoveryResponse {
        version_info,
        resources: objects_field(alloc, value)?,
        type_url,
        nonce,
    })
}
