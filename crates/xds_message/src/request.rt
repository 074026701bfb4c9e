// Discovery requests.
ghost use Rattle.std.specs.Prelude.{◌≡◌, [], ◌∷◌, map, string_bytes, IfOk, IfErr, OnOk, Contains};
ghost use Rattle.serde_json.specs.Data.{Data};
ghost use Rattle.serde_json.specs.View.{view};
ghost use Rattle.serde_json.specs.Written.{compact_text};
ghost use Rattle.xds_resource.specs.declared.refusal.Refusal.TheVariants.{NotJson, BadMessage, OutOfMemory};
ghost use Rattle.xds_message.specs.Messages.{Request, SpellsRequest};
ghost use Rattle.xds_message.specs.Laws.{HasCodeInRange};
ghost use Rattle.xds_json.specs.Spelling.{IsJson, Reads};
ghost use Rattle.xds_message.specs.Written.{request_object};

use serde_json::{Map, Value};
use std::alloc::Global;
use std::marker::Model;
use xds_json::fields::{copy_texts, put_text, put_texts, read_json, taken_texts, text_field};
use xds_json::node::{Node, copy_node, node_field, put_node};
use xds_json::status::{Status, copy_status, error_detail_field, put_error_detail};
use xds_resource::Refusal;

/// What a client asks of a server: resources of one type, and the acceptance or rejection of the last response.
#[derive(Debug)]
pub struct DiscoveryRequest {
    /// The version of the last response that was accepted.
    pub version_info: String,
    /// Who asks; a client may leave it out after its first request.
    pub node: Option<Node>,
    /// The names of the resources that are wanted.
    pub resource_names: Vec<String>,
    /// The type of the resources.
    pub type_url: String,
    /// The nonce of the response that is accepted or rejected.
    pub response_nonce: String,
    /// Why that response is rejected, if it is.
    pub error_detail: Option<Status>,
}

// Written out: docs/PROVING.md, "Drops".
impl Drop for DiscoveryRequest {
    fn drop(self) {
        let DiscoveryRequest {
            version_info: _,
            node: _,
            resource_names: _,
            type_url: _,
            response_nonce: _,
            error_detail: _,
        } = self;
    }
}

impl Model for DiscoveryRequest {
    ghost use Rattle.std.specs.Prelude.{string_bytes, map};
    ghost use Rattle.xds_message.specs.Messages.{Request};

    ghost Value = { Request };

    ghost view = { λ r. record {
      version_info = string_bytes r.version_info;
      node = r.node;
      resource_names = map string_bytes r.resource_names.items;
      type_url = string_bytes r.type_url;
      response_nonce = string_bytes r.response_nonce;
      error_detail = r.error_detail;
    } };
}

impl DiscoveryRequest {
    /// What a poll without a stream goes by: the version that is held, the names, and the node.
    pub fn into_poll(self) -> (String, Vec<String>, Option<Node>)
        ensures version { string_bytes result.0 ≡ self.version_info }
        ensures names { map string_bytes result.1.items ≡ self.resource_names }
        ensures node { result.2 ≡ self.node }
    {
        let DiscoveryRequest {
            version_info,
            node,
            resource_names,
            type_url: _,
            response_nonce: _,
            error_detail: _,
        } = self;
        (version_info, resource_names, node)
    }

    /// The request that the bytes spell in the proto3 JSON mapping: one JSON object, whose fields are known by their
    /// lowerCamelCase names and the proto file's. Fields that are not known are passed over.
    pub fn read(alloc: Global, bytes: &[u8]) -> Result<DiscoveryRequest, Refusal>
        ensures ok { IfOk result (λ m. (d : Data) × IsJson bytes.now d × SpellsRequest d m) }
        ensures not_json { result ≡ Err NotJson → (d : Data) → IsJson bytes.now d → ⊥ }
        ensures bad { result ≡ Err BadMessage → (d : Data) × IsJson bytes.now d
            × ((m : Request) → SpellsRequest d m → ⊥) }
        ensures refused { IfErr result (λ e. Contains (NotJson ∷ BadMessage ∷ OutOfMemory ∷ []) e) }
    {
        let value = read_json(alloc, bytes)?;
        request_of(alloc, value)
    }

    /// The compact text of the request's object.
    pub fn write(&self, alloc: Global) -> Result<String, Refusal>
        ensures text { IfOk result
            (λ s. string_bytes s ≡ compact_text (request_object self.now)) }
        ensures spelled { IfOk result
            (λ s. (d : Data) × IsJson (string_bytes s) d × SpellsRequest d self.now) }
        ensures refused { IfErr result (λ e. e ≡ OutOfMemory) }
    {
        Ok(self.to_value(alloc)?.to_string(alloc)?)
    }

    /// The request's object.
    fn to_value(&self, alloc: Global) -> Result<Value, Refusal>
        ensures ok { IfOk result (λ v. view v ≡ request_object self.now) }
        ensures in_range { OnOk result (HasCodeInRange self.now) }
        ensures refused { IfErr result (λ e. e ≡ OutOfMemory) }
    {
        let mut map = Map::new(alloc);
        put_error_detail(alloc, &mut map, &self.error_detail)?;
        put_text(alloc, &mut map, "responseNonce", &self.response_nonce)?;
        put_text(alloc, &mut map, "typeUrl", &self.type_url)?;
        put_texts(alloc, &mut map, "resourceNames", &self.resource_names)?;
        put_node(alloc, &mut map, &self.node)?;
        put_text(alloc, &mut map, "versionInfo", &self.version_info)?;
        Ok(Value::Object(map))
    }

    /// An equal request.
    pub fn try_copy(&self, alloc: Global) -> Result<DiscoveryRequest, Refusal>
        ensures ok { IfOk result (λ r. r ≡ self.now) }
        ensures refused { IfErr result (λ e. e ≡ OutOfMemory) }
    {
        Ok(DiscoveryRequest {
            version_info: String::from_str(alloc, self.version_info.as_str())?,
            node: copy_node(alloc, &self.node)?,
            resource_names: copy_texts(alloc, &self.resource_names)?,
            type_url: String::from_str(alloc, self.type_url.as_str())?,
            response_nonce: String::from_str(alloc, self.response_nonce.as_str())?,
            error_detail: copy_status(alloc, &self.error_detail)?,
        })
    }
}

// The request of an object, which its names move out of.
fn request_of(alloc: Global, value: Value) -> Result<DiscoveryRequest, Refusal>
    ensures { Reads (SpellsRequest (view value)) (λ m. m) result }
{
    if !value.is_object() {
        return Err(Refusal::BadMessage);
    }
    Ok(DiscoveryRequest {
        version_info: text_field(alloc, &value, "versionInfo", "version_info")?,
        node: node_field(alloc, &value)?,
        type_url: text_field(alloc, &value, "typeUrl", "type_url")?,
        response_nonce: text_field(alloc, &value, "responseNonce", "response_nonce")?,
        error_detail: error_detail_field(alloc, &value)?,
        resource_names: taken_texts(alloc, value, "resourceNames", "resource_names")?,
    })
}
