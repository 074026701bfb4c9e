// Who asks, in requests of both variants.
ghost use Rattle.std.specs.Prelude.{◌≡◌, option_map, codes, IfOk, IfErr, OnOk};
ghost use Rattle.serde_json.specs.View.{view, members_view};
ghost use Rattle.xds_resource.specs.Fields.{field};
ghost use Rattle.xds_resource.specs.declared.refusal.Refusal.TheVariants.{OutOfMemory};
ghost use Rattle.xds_json.specs.Parts.{SpellsIdentity};
ghost use Rattle.xds_json.specs.Spelling.{IsInner, Reads};
ghost use Rattle.xds_json.specs.WrittenFields.{put_set, identity_object};

use crate::fields::{put_inner, put_text, set_field, text_field};
use serde_json::{Map, Value};
use std::alloc::Global;
use std::marker::Model;
use xds_resource::Refusal;

/// Who asks: of Envoy's `Node` its id and its cluster.
#[derive(Debug, Drop)]
pub struct Node {
    /// The name of the client.
    pub id: String,
    /// The group that the client belongs to.
    pub cluster: String,
}

impl Model for Node {
    ghost use Rattle.std.specs.Prelude.{string_bytes};
    ghost use Rattle.xds_json.specs.Parts.{Identity};

    ghost Value = { Identity };

    ghost view = { λ n. record { id = string_bytes n.id; cluster = string_bytes n.cluster } };
}

impl Node {
    /// An equal node. Refused only by `OutOfMemory`.
    pub fn try_copy(&self, alloc: Global) -> Result<Node, Refusal>
        ensures ok { IfOk result (λ n. n ≡ self.now) }
        ensures refused { IfErr result (λ e. e ≡ OutOfMemory) }
    {
        Ok(Node {
            id: String::from_str(alloc, self.id.as_str())?,
            cluster: String::from_str(alloc, self.cluster.as_str())?,
        })
    }

    /// The node's object.
    fn to_value(&self, alloc: Global) -> Result<Value, Refusal>
        ensures ok { IfOk result (λ v. view v ≡ identity_object self.now) }
        ensures refused { IfErr result (λ e. e ≡ OutOfMemory) }
    {
        let mut map = Map::new(alloc);
        put_text(alloc, &mut map, "cluster", &self.cluster)?;
        put_text(alloc, &mut map, "id", &self.id)?;
        Ok(Value::Object(map))
    }
}

/// An equal node, if there is one. Refused only by `OutOfMemory`.
pub fn copy_node(alloc: Global, node: &Option<Node>) -> Result<Option<Node>, Refusal>
    ensures ok { IfOk result (λ n. n ≡ node.now) }
    ensures refused { IfErr result (λ e. e ≡ OutOfMemory) }
{
    match node {
        Some(node) => Ok(Some(node.try_copy(alloc)?)),
        None => Ok(None),
    }
}

fn node_of(alloc: Global, value: &Value) -> Result<Node, Refusal>
    ensures { Reads (SpellsIdentity (view value.now)) (λ m. m) result }
{
    if !value.is_object() {
        return Err(Refusal::BadMessage);
    }
    Ok(Node {
        id: text_field(alloc, value, "id", "id")?,
        cluster: text_field(alloc, value, "cluster", "cluster")?,
    })
}

/// The node of a request, if its field `node` is set. Refused by `BadMessage` where that spells no node, and by
/// `OutOfMemory`.
pub fn node_field(alloc: Global, value: &Value) -> Result<Option<Node>, Refusal>
    ensures { Reads
        (IsInner SpellsIdentity (field (codes "node") (codes "node") (view value.now))) (λ m. m) result }
{
    match set_field(value, "node", "node") {
        Some(found) => Ok(Some(node_of(alloc, found)?)),
        None => Ok(None),
    }
}

/// Writes the node of a request, if there is one. Refused only by `OutOfMemory`.
pub fn put_node(
    alloc: Global,
    map: &mut Map<String, Value>,
    node: &Option<Node>,
) -> Result<(), Refusal>
    ensures ok { OnOk result (members_view map.new.entries
        ≡ put_set (codes "node") (option_map identity_object node.now) (members_view map.old.entries)) }
    ensures refused { IfErr result (λ e. e ≡ OutOfMemory) }
{
    let value = node_value(alloc, node)?;
    put_inner(alloc, map, "node", value)
}

fn node_value(alloc: Global, node: &Option<Node>) -> Result<Option<Value>, Refusal>
    ensures ok { IfOk result (λ v. option_map view v ≡ option_map identity_object node.now) }
    ensures refused { IfErr result (λ e. e ≡ OutOfMemory) }
{
    match node {
        Some(node) => Ok(Some(node.to_value(alloc)?)),
        None => Ok(None),
    }
}
