// Resources and writes whose type is known only when the program runs.
ghost use Rattle.std.specs.Prelude.{◌≡◌, ◌≢◌, ◌≤◌, IfOk, IfErr, IfSome, Ok, false};
ghost use Rattle.std.specs.Option.{option_map};
ghost use Rattle.serde_json.specs.Data.{depth};
ghost use Rattle.serde_json.specs.View.{view};
ghost use Rattle.serde_json.specs.Written.{compact_text, has_float};
ghost use Rattle.xds_resource.specs.Refusals.{Gives};
ghost use Rattle.xds_resource.specs.Resources.{value_of, max_nesting, parsed, from_value, IsRefused, named_type as type_named};
ghost use Rattle.xds_resource.specs.Any.{resource_type, named_body, write_type, stamped_write};

use crate::groups::Groups;
use crate::refusal::Refusal;
use crate::resource::{Resource, read_text};
use crate::stamp::Stamp;
use crate::types::{Cluster, Endpoint, Listener, Route, Secret, TypeName};
use crate::write::Write;
use crate::{for_any, for_type};
use serde_json::Value;
use std::alloc::Global;

/// A resource of one of the table's types.
#[derive(Drop)]
pub enum AnyResource {
    Cluster(Resource<Cluster>),
    Endpoint(Resource<Endpoint>),
    Listener(Resource<Listener>),
    Route(Resource<Route>),
    Secret(Resource<Secret>),
}

impl AnyResource {
    /// Reads a resource of the type that its `@type` names. It is refused as a resource of that type is; where the
    /// table has no such type, and nothing else is wrong before, that is `BadResource`.
    pub fn parse(alloc: Global, text: &str) -> Result<AnyResource, Refusal>
        ensures read { IfOk result (λ r. parsed (resource_type r) text.now ≡ Ok (named_body r)) }
        ensures refused { IfErr result (λ e. e ≢ Refusal.OutOfMemory → IsRefused text.now e) }
    {
        let (value, body) = read_text(alloc, text)?;
        let Some(type_name) = named_type(&value) else {
            return Err(Refusal::BadResource);
        };
        Ok(for_type!(type_name, AnyResource of Resource::of_object(alloc, &value, body)?))
    }

    /// The resource of the type that a value is, refused as [`Resource::from_value`] refuses it.
    pub fn from_value(alloc: Global, kind: TypeName, value: Value) -> Result<AnyResource, Refusal>
        ensures typed { IfOk result (λ r. resource_type r ≡ kind) }
        ensures given { Gives named_body result (from_value kind (view value)) }
    {
        Ok(for_type!(kind, AnyResource of Resource::from_value(alloc, value)?))
    }

    pub fn type_name(&self) -> TypeName
        ensures { result ≡ resource_type self.now }
    {
        match self {
            AnyResource::Cluster(_) => TypeName::Cluster,
            AnyResource::Endpoint(_) => TypeName::Endpoint,
            AnyResource::Listener(_) => TypeName::Listener,
            AnyResource::Route(_) => TypeName::Route,
            AnyResource::Secret(_) => TypeName::Secret,
        }
    }

    pub fn name(&self) -> &str
        ensures { result.now ≡ (named_body self.now).name }
    {
        for_any!(self, AnyResource(resource) => resource.name())
    }

    /// The compact text of the resource's object.
    pub fn body(&self) -> &str
        ensures { result.now ≡ (named_body self.now).body }
    {
        for_any!(self, AnyResource(resource) => resource.body())
    }

    /// An equal resource, or `OutOfMemory`.
    pub fn try_copy(&self, alloc: Global) -> Result<AnyResource, Refusal>
        ensures copy { IfOk result (λ r. r ≡ self.now) }
        ensures refused { IfErr result (λ e. e ≡ Refusal.OutOfMemory) }
    {
        Ok(for_any!(self, AnyResource(resource) => AnyResource of resource.try_copy(alloc)?))
    }
}

/// A write of one of the table's types.
#[derive(Drop)]
pub enum AnyWrite {
    Cluster(Write<Cluster>),
    Endpoint(Write<Endpoint>),
    Listener(Write<Listener>),
    Route(Write<Route>),
    Secret(Write<Secret>),
}

impl AnyWrite {
    pub fn type_name(&self) -> TypeName
        ensures { result ≡ write_type self.now }
    {
        match self {
            AnyWrite::Cluster(_) => TypeName::Cluster,
            AnyWrite::Endpoint(_) => TypeName::Endpoint,
            AnyWrite::Listener(_) => TypeName::Listener,
            AnyWrite::Route(_) => TypeName::Route,
            AnyWrite::Secret(_) => TypeName::Secret,
        }
    }

    pub fn name(&self) -> &str
        ensures { result.now ≡ (stamped_write self.now).name }
    {
        for_any!(self, AnyWrite(write) => write.name())
    }

    pub fn stamp(&self) -> Stamp
        ensures counter { result.counter ≡ (stamped_write self.now).counter }
        ensures writer { result.writer ≡ (stamped_write self.now).writer }
    {
        for_any!(self, AnyWrite(write) => write.stamp())
    }

    /// The compact text of the resource's object, or none for a deletion.
    pub fn body(&self) -> Option<&str>
        ensures { option_map (λ s. s.now) result ≡ (stamped_write self.now).body }
    {
        for_any!(self, AnyWrite(write) => write.body())
    }

    /// The groups of clients that the write is for.
    pub fn groups(&self) -> &Groups
        ensures { result.now ≡ (stamped_write self.now).groups }
    {
        for_any!(self, AnyWrite(write) => write.groups())
    }

    /// The resource's object, as it is read again from its text, or none for a deletion. `OutOfMemory` where reading
    /// took more memory than there is.
    pub fn value(&self, alloc: Global) -> Result<Option<Value>, Refusal>
        ensures value { IfOk result (λ o. option_map view o ≡ option_map value_of (stamped_write self.now).body) }
        ensures text { IfOk result (λ o. option_map (λ v. compact_text (view v)) o ≡ (stamped_write self.now).body) }
        ensures whole { IfOk result (λ o. IfSome o (λ v. has_float (view v) ≡ false)) }
        ensures shallow { IfOk result (λ o. IfSome o (λ v. depth (view v) ≤ max_nesting)) }
        ensures refused { IfErr result (λ e. e ≡ Refusal.OutOfMemory) }
    {
        for_any!(self, AnyWrite(write) => write.value(alloc))
    }

    /// An equal write, or `OutOfMemory`.
    pub fn try_copy(&self, alloc: Global) -> Result<AnyWrite, Refusal>
        ensures copy { IfOk result (λ w. w ≡ self.now) }
        ensures refused { IfErr result (λ e. e ≡ Refusal.OutOfMemory) }
    {
        Ok(for_any!(self, AnyWrite(write) => AnyWrite of write.try_copy(alloc)?))
    }
}

// The type that the value's `@type` names.
fn named_type(value: &Value) -> Option<TypeName>
    ensures { result ≡ type_named (view value.now) }
{
    match value.get("@type") {
        Some(Value::String(url)) => TypeName::from_url(url.as_str()),
        Some(_) => None,
        None => None,
    }
}
