// Discovery responses of the incremental variant.
ghost use Rattle.std.specs.Prelude.{◌≡◌, ◌≤◌, suc, [], ◌∷◌, Some, false, map, string_bytes, codes, IfOk, IfErr, OnOk, All, Contains};
ghost use Rattle.std.specs.List.{AllZip};
ghost use Rattle.serde_json.specs.Data.{Data, depth};
ghost use Rattle.serde_json.specs.Read.{read as reading, max_depth};
ghost use Rattle.serde_json.specs.View.{view};
ghost use Rattle.serde_json.specs.Written.{compact_text, has_float};
ghost use Rattle.xds_resource.specs.Fields.{field};
ghost use Rattle.xds_resource.specs.Resources.{max_nesting};
ghost use Rattle.xds_resource.specs.declared.refusal.Refusal.TheVariants.{NotJson, BadMessage, OutOfMemory};
ghost use Rattle.xds_message.specs.DeltaMessages.{DeltaResponse, SpellsResource, SpellsDeltaResponse, IsResources};
ghost use Rattle.xds_message.specs.DeltaWritten.{resource_object, delta_response_object};
ghost use Rattle.xds_message.specs.Responses.{resource_of, delta_response_of};
ghost use Rattle.xds_json.specs.Spelling.{IsJson, IsObject, Reads, set_value};

use serde_json::{Map, Value, put};
use std::alloc::Global;
use xds_json::fields::{
    copy_texts, put_list, put_text, put_texts, read_json, taken_field, text_field, texts_field,
};
use xds_resource::Refusal;

/// One resource of a delta response.
#[derive(Drop)]
pub struct DeltaResource {
    /// The name of the resource.
    pub name: String,
    /// Its version.
    pub version: String,
    /// The resource, a JSON object.
    pub resource: Value,
}

/// What a server of the incremental variant answers: resources of one type that are new or changed, and names of those
/// that are gone.
#[derive(Drop)]
pub struct DeltaDiscoveryResponse {
    /// The version of all that the server holds, for people to read.
    pub system_version_info: String,
    /// The resources that are new or changed.
    pub resources: Vec<DeltaResource>,
    /// The type of the resources.
    pub type_url: String,
    /// What the client's next request names this response by.
    pub nonce: String,
    /// The names of resources that the client is to drop.
    pub removed_resources: Vec<String>,
}

impl DeltaResource {
    /// An equal resource.
    pub fn try_copy(&self, alloc: Global) -> Result<DeltaResource, Refusal>
        ensures ok { IfOk result (λ r. resource_of r ≡ resource_of self.now) }
        ensures refused { IfErr result (λ e. e ≡ OutOfMemory) }
    {
        Ok(DeltaResource {
            name: String::from_str(alloc, self.name.as_str())?,
            version: String::from_str(alloc, self.version.as_str())?,
            resource: self.resource.clone()?,
        })
    }

    /// The object of the resource with its name and version.
    fn into_value(self, alloc: Global) -> Result<Value, Refusal>
        ensures ok { IfOk result (λ v. view v ≡ resource_object (resource_of self)) }
        ensures refused { IfErr result (λ e. e ≡ OutOfMemory) }
    {
        let mut map = Map::new(alloc);
        put_text(alloc, &mut map, "version", &self.version)?;
        put(&mut map, alloc, "resource", self.resource)?;
        put_text(alloc, &mut map, "name", &self.name)?;
        Ok(Value::Object(map))
    }
}

impl DeltaDiscoveryResponse {
    /// The response that the bytes spell in the proto3 JSON mapping: one JSON object, whose fields are known by their
    /// lowerCamelCase names and the proto file's. Fields that are not known are passed over. Whether a resource's object
    /// is a resource of its type is not looked at.
    pub fn read(alloc: Global, bytes: &[u8]) -> Result<DeltaDiscoveryResponse, Refusal>
        ensures ok { IfOk result
            (λ m. (d : Data) × IsJson bytes.now d × SpellsDeltaResponse d (delta_response_of m)) }
        ensures not_json { result ≡ Err NotJson → (d : Data) → IsJson bytes.now d → ⊥ }
        ensures bad { result ≡ Err BadMessage → (d : Data) × IsJson bytes.now d
            × ((m : DeltaResponse) → SpellsDeltaResponse d m → ⊥) }
        ensures refused { IfErr result (λ e. Contains (NotJson ∷ BadMessage ∷ OutOfMemory ∷ []) e) }
    {
        let value = read_json(alloc, bytes)?;
        delta_response_from(alloc, value)
    }

    /// The compact text of the response's object. Its resources hold no number but whole ones. They move into that
    /// object, so a caller that needs the response again copies it first.
    pub fn write(self, alloc: Global) -> Result<String, Refusal>
        ensures text { IfOk result
            (λ s. has_float (delta_response_object (delta_response_of self)) ≡ false
            → string_bytes s ≡ compact_text (delta_response_object (delta_response_of self))) }
        ensures whole { IfOk result
            (λ s. All (λ r. has_float r.resource ≡ false) (delta_response_of self).resources
            → string_bytes s ≡ compact_text (delta_response_object (delta_response_of self))) }
        ensures shallow { IfOk result
            (λ s. All (λ r. depth r.resource ≤ max_nesting) (delta_response_of self).resources
            → (depth (delta_response_object (delta_response_of self)) ≤ suc (suc (suc max_nesting)))
            × (reading (string_bytes s) ≡ Some (delta_response_object (delta_response_of self)))) }
        ensures reads_back { IfOk result
            (λ s. depth (delta_response_object (delta_response_of self)) ≤ max_depth
            → reading (string_bytes s) ≡ Some (delta_response_object (delta_response_of self))) }
        ensures spelled { IfOk result
            (λ s. All (λ r. IsObject r.resource) (delta_response_of self).resources
            → depth (delta_response_object (delta_response_of self)) ≤ max_depth
            → (d : Data) × IsJson (string_bytes s) d × SpellsDeltaResponse d (delta_response_of self)) }
        ensures refused { IfErr result (λ e. e ≡ OutOfMemory) }
    {
        Ok(self.into_value(alloc)?.to_string(alloc)?)
    }

    /// The response's object.
    fn into_value(self, alloc: Global) -> Result<Value, Refusal>
        ensures ok { IfOk result (λ v. view v ≡ delta_response_object (delta_response_of self)) }
        ensures refused { IfErr result (λ e. e ≡ OutOfMemory) }
    {
        let mut map = Map::new(alloc);
        put_text(alloc, &mut map, "typeUrl", &self.type_url)?;
        put_text(
            alloc,
            &mut map,
            "systemVersionInfo",
            &self.system_version_info,
        )?;
        put_texts(alloc, &mut map, "removedResources", &self.removed_resources)?;
        put_text(alloc, &mut map, "nonce", &self.nonce)?;
        put_list(
            alloc,
            &mut map,
            "resources",
            resource_values(alloc, self.resources)?,
        )?;
        Ok(Value::Object(map))
    }

    /// An equal response.
    pub fn try_copy(&self, alloc: Global) -> Result<DeltaDiscoveryResponse, Refusal>
        ensures ok { IfOk result (λ r. delta_response_of r ≡ delta_response_of self.now) }
        ensures refused { IfErr result (λ e. e ≡ OutOfMemory) }
    {
        Ok(DeltaDiscoveryResponse {
            system_version_info: String::from_str(alloc, self.system_version_info.as_str())?,
            resources: copy_resources(alloc, &self.resources)?,
            type_url: String::from_str(alloc, self.type_url.as_str())?,
            nonce: String::from_str(alloc, self.nonce.as_str())?,
            removed_resources: copy_texts(alloc, &self.removed_resources)?,
        })
    }
}

fn resource_values(alloc: Global, resources: Vec<DeltaResource>) -> Result<Vec<Value>, Refusal>
    ensures ok { IfOk result
        (λ v. map view v.items ≡ map resource_object (map resource_of resources.items)) }
    ensures refused { IfErr result (λ e. e ≡ OutOfMemory) }
{
    let mut values = Vec::new(alloc);
    for resource in resources {
        values.push(resource.into_value(alloc)?)?;
    }
    Ok(values)
}

fn copy_resources(
    alloc: Global,
    resources: &Vec<DeltaResource>,
) -> Result<Vec<DeltaResource>, Refusal>
    ensures ok { IfOk result (λ v. map resource_of v.items ≡ map resource_of resources.now.items) }
    ensures refused { IfErr result (λ e. e ≡ OutOfMemory) }
{
    let mut copies = Vec::new(alloc);
    for resource in resources {
        copies.push(resource.try_copy(alloc)?)?;
    }
    Ok(copies)
}

// The resource that an object spells, whose own object moves out of it.
fn resource_from(alloc: Global, value: Value) -> Result<DeltaResource, Refusal>
    ensures { Reads (SpellsResource (view value)) resource_of result }
{
    if !value.is_object() {
        return Err(Refusal::BadMessage);
    }
    let name = text_field(alloc, &value, "name", "name")?;
    let version = text_field(alloc, &value, "version", "version")?;
    let resource = taken_field(value, "resource").ok_or(Refusal::BadMessage)?;
    if !resource.is_object() {
        return Err(Refusal::BadMessage);
    }
    Ok(DeltaResource {
        name,
        version,
        resource,
    })
}

fn resources_from(alloc: Global, values: Vec<Value>) -> Result<Vec<DeltaResource>, Refusal>
    ensures { Reads (AllZip SpellsResource (map view values.items))
        (λ v. map resource_of v.items) result }
{
    let mut resources = Vec::new(alloc);
    for value in values {
        resources.push(resource_from(alloc, value)?)?;
    }
    Ok(resources)
}

// The resources of a response's object, which they move out of.
fn resources_field(alloc: Global, value: Value) -> Result<Vec<DeltaResource>, Refusal>
    ensures { Reads (IsResources (field (codes "resources") (codes "resources") (view value)))
        (λ v. map resource_of v.items) result }
{
    match taken_field(value, "resources") {
        Some(Value::Array(values)) => resources_from(alloc, values),
        Some(_) => Err(Refusal::BadMessage),
        None => Ok(Vec::new(alloc)),
    }
}

fn delta_response_from(alloc: Global, value: Value) -> Result<DeltaDiscoveryResponse, Refusal>
    ensures { Reads (SpellsDeltaResponse (view value)) delta_response_of result }
{
    if !value.is_object() {
        return Err(Refusal::BadMessage);
    }
    let system_version_info = text_field(
        alloc,
        &value,
        "systemVersionInfo",
        "system_version_info",
    )?;
    let type_url = text_field(alloc, &value, "typeUrl", "type_url")?;
    let nonce = text_field(alloc, &value, "nonce", "nonce")?;
    let removed_resources = texts_field(alloc, &value, "removedResources", "removed_resources")?;
    Ok(DeltaDiscoveryResponse {
        system_version_info,
        resources: resources_field(alloc, value)?,
        type_url,
        nonce,
        removed_resources,
    })
}
