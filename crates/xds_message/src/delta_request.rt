// Discovery requests of the incremental variant.
ghost use Rattle.std.specs.Prelude.{◌≡◌, [], ◌∷◌, string_bytes, IfOk, IfErr, OnOk, Contains};
ghost use Rattle.serde_json.specs.Data.{Data};
ghost use Rattle.serde_json.specs.View.{view};
ghost use Rattle.serde_json.specs.Written.{compact_text};
ghost use Rattle.xds_resource.specs.declared.refusal.Refusal.TheVariants.{NotJson, BadMessage, OutOfMemory};
ghost use Rattle.xds_message.specs.DeltaMessages.{DeltaRequest, SpellsDeltaRequest};
ghost use Rattle.xds_message.specs.DeltaWritten.{delta_request_object};
ghost use Rattle.xds_message.specs.Laws.{HasDeltaCodeInRange};
ghost use Rattle.xds_json.specs.Spelling.{IsJson, Reads};

use serde_json::{Map, Value};
use std::alloc::Global;
use std::marker::Model;
use xds_json::fields::{
    copy_texts, put_inner, put_text, put_texts, read_json, text_field, texts_field,
};
use xds_json::node::{Node, copy_node, node_field, put_node};
use xds_json::status::{Status, copy_status, error_detail_field, put_error_detail};
use xds_json::versions::{Versions, versions_field};
use xds_resource::Refusal;

/// What a client of the incremental variant asks of a server: which names of one type it wants from now on and which no
/// longer, and the acceptance or rejection of a response.
pub struct DeltaDiscoveryRequest {
    /// Who asks; a client may leave it out after its first request.
    pub node: Option<Node>,
    /// The type of the resources.
    pub type_url: String,
    /// The names that the client wants from now on.
    pub resource_names_subscribe: Vec<String>,
    /// The names that it no longer wants.
    pub resource_names_unsubscribe: Vec<String>,
    /// The versions that it holds from before, told in the first request of a stream.
    pub initial_resource_versions: Versions,
    /// The nonce of the response that is accepted or rejected.
    pub response_nonce: String,
    /// Why that response is rejected, if it is.
    pub error_detail: Option<Status>,
}

// Written out: docs/PROVING.md, "Drops".
impl Drop for DeltaDiscoveryRequest {
    fn drop(self) {
        let DeltaDiscoveryRequest {
            node: _,
            type_url: _,
            resource_names_subscribe: _,
            resource_names_unsubscribe: _,
            initial_resource_versions: _,
            response_nonce: _,
            error_detail: _,
        } = self;
    }
}

impl Model for DeltaDiscoveryRequest {
    ghost use Rattle.std.specs.Prelude.{string_bytes, map};
    ghost use Rattle.xds_message.specs.DeltaMessages.{DeltaRequest, delta_request_code};

    ghost Value = { DeltaRequest };

    ghost coded = { delta_request_code };

    ghost view = { λ r. record {
      node = r.node;
      type_url = string_bytes r.type_url;
      resource_names_subscribe = map string_bytes r.resource_names_subscribe.items;
      resource_names_unsubscribe = map string_bytes r.resource_names_unsubscribe.items;
      initial_resource_versions = r.initial_resource_versions;
      response_nonce = string_bytes r.response_nonce;
      error_detail = r.error_detail;
    } };
}

impl DeltaDiscoveryRequest {
    /// The request that the bytes spell in the proto3 JSON mapping: one JSON object, whose fields are known by their
    /// lowerCamelCase names and the proto file's. Fields that are not known are passed over.
    pub fn read(alloc: Global, bytes: &[u8]) -> Result<DeltaDiscoveryRequest, Refusal>
        ensures ok { IfOk result (λ m. (d : Data) × IsJson bytes.now d × SpellsDeltaRequest d m) }
        ensures not_json { result ≡ Err NotJson → (d : Data) → IsJson bytes.now d → ⊥ }
        ensures bad { result ≡ Err BadMessage → (d : Data) × IsJson bytes.now d
            × ((m : DeltaRequest) → SpellsDeltaRequest d m → ⊥) }
        ensures refused { IfErr result (λ e. Contains (NotJson ∷ BadMessage ∷ OutOfMemory ∷ []) e) }
    {
        let value = read_json(alloc, bytes)?;
        delta_request_of(alloc, &value)
    }

    /// The compact text of the request's object.
    pub fn write(&self, alloc: Global) -> Result<String, Refusal>
        ensures text { IfOk result
            (λ s. string_bytes s ≡ compact_text (delta_request_object self.now)) }
        ensures spelled { IfOk result
            (λ s. (d : Data) × IsJson (string_bytes s) d × SpellsDeltaRequest d self.now) }
        ensures refused { IfErr result (λ e. e ≡ OutOfMemory) }
    {
        Ok(self.to_value(alloc)?.to_string(alloc)?)
    }

    /// The request's object.
    fn to_value(&self, alloc: Global) -> Result<Value, Refusal>
        ensures ok { IfOk result (λ v. view v ≡ delta_request_object self.now) }
        ensures in_range { OnOk result (HasDeltaCodeInRange self.now) }
        ensures refused { IfErr result (λ e. e ≡ OutOfMemory) }
    {
        let mut map = Map::new(alloc);
        put_text(alloc, &mut map, "typeUrl", &self.type_url)?;
        put_text(alloc, &mut map, "responseNonce", &self.response_nonce)?;
        put_texts(
            alloc,
            &mut map,
            "resourceNamesUnsubscribe",
            &self.resource_names_unsubscribe,
        )?;
        put_texts(
            alloc,
            &mut map,
            "resourceNamesSubscribe",
            &self.resource_names_subscribe,
        )?;
        put_node(alloc, &mut map, &self.node)?;
        put_inner(
            alloc,
            &mut map,
            "initialResourceVersions",
            self.initial_resource_versions.to_value(alloc)?,
        )?;
        put_error_detail(alloc, &mut map, &self.error_detail)?;
        Ok(Value::Object(map))
    }

    /// An equal request.
    pub fn try_copy(&self, alloc: Global) -> Result<DeltaDiscoveryRequest, Refusal>
        ensures ok { IfOk result (λ r. r ≡ self.now) }
        ensures refused { IfErr result (λ e. e ≡ OutOfMemory) }
    {
        Ok(DeltaDiscoveryRequest {
            node: copy_node(alloc, &self.node)?,
            type_url: String::from_str(alloc, self.type_url.as_str())?,
            resource_names_subscribe: copy_texts(alloc, &self.resource_names_subscribe)?,
            resource_names_unsubscribe: copy_texts(alloc, &self.resource_names_unsubscribe)?,
            initial_resource_versions: self.initial_resource_versions.try_copy()?,
            response_nonce: String::from_str(alloc, self.response_nonce.as_str())?,
            error_detail: copy_status(alloc, &self.error_detail)?,
        })
    }
}

fn delta_request_of(alloc: Global, value: &Value) -> Result<DeltaDiscoveryRequest, Refusal>
    ensures { Reads (SpellsDeltaRequest (view value.now)) (λ m. m) result }
{
    if !value.is_object() {
        return Err(Refusal::BadMessage);
    }
    Ok(DeltaDiscoveryRequest {
        node: node_field(alloc, value)?,
        type_url: text_field(alloc, value, "typeUrl", "type_url")?,
        resource_names_subscribe: texts_field(
            alloc,
            value,
            "resourceNamesSubscribe",
            "resource_names_subscribe",
        )?,
        resource_names_unsubscribe: texts_field(
            alloc,
            value,
            "resourceNamesUnsubscribe",
            "resource_names_unsubscribe",
        )?,
        initial_resource_versions: versions_field(
            alloc,
            value,
            "initialResourceVersions",
            "initial_resource_versions",
        )?,
        response_nonce: text_field(alloc, value, "responseNonce", "response_nonce")?,
        error_detail: error_detail_field(alloc, value)?,
    })
}
