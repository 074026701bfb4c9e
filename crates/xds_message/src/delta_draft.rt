// Responses of the incremental variant before they are written.
ghost use Rattle.std.specs.Prelude.{◌≡◌, ◌≤◌, ◌++◌, List, ℕ, length, map, string_bytes, IfOk, IfErr, OnOk, OnErr, All};
ghost use Rattle.serde_json.specs.Written.{compact_text};
ghost use Rattle.xds_resource.specs.declared.refusal.Refusal.TheVariants.{OutOfMemory};
ghost use Rattle.xds_frames.specs.Frames.{longest};
ghost use Rattle.xds_message.specs.DeltaWritten.{resource_object, delta_response_object};
ghost use Rattle.xds_message.specs.Joined.{with_commas};
ghost use Rattle.xds_message.specs.Pieces.{resource_text};
ghost use Rattle.xds_message.specs.Drafts.{body_text, drafted_resource, delta_message_of, with_resource, IsBodyText, IsSoundDelta};
ghost use Rattle.xds_message.specs.Responses.{resource_of, delta_response_of};

use crate::body::Body;
use crate::delta_response::{DeltaDiscoveryResponse, DeltaResource};
use crate::joining::{Join, join_key, join_list, join_list_ends, join_text};
use crate::pieces::{Parts, Pieces, Stored};
use crate::stated::Resources;
use crate::unsent::Unsent;
use std::alloc::Global;
use std::marker::Model;
use std::sync::ArcStr;
use xds_json::copy_texts;
use xds_resource::{Refusal, ResourceType, TypeName, Write};

/// A resource of a response, with its name and its version. Its text is shared with the write that it stands in; what stands round it
/// in the response is made once.
pub struct DraftResource {
    name: ArcStr<Global>,
    version: String,
    head: String,
    body: Body,
    tail: String,
}

// Written out: docs/PROVING.md, "Drops".
impl Drop for DraftResource {
    fn drop(self) {
        let DraftResource {
            name: _,
            version: _,
            head: _,
            body: _,
            tail: _,
        } = self;
    }
}

impl Model for DraftResource {
    ghost use Rattle.std.specs.Prelude.{string_bytes};
    ghost use Rattle.std.specs.Arc.{arc_str_bytes};
    ghost use Rattle.std.specs.Prelude.{◌≡◌, ◌++◌};
    ghost use Rattle.xds_message.specs.Drafts.{DraftedResource, body_text};
    ghost use Rattle.xds_message.specs.Pieces.{resource_text};

    ghost Value = { DraftedResource };

    ghost view = { λ r. record { name = arc_str_bytes r.name; version = string_bytes r.version; body = r.body } };

    ghost invariant = { λ r. string_bytes r.head ++ (body_text r.body ++ string_bytes r.tail)
        ≡ resource_text (record { name = arc_str_bytes r.name; version = string_bytes r.version; body = r.body }) };
}

impl Stored for DraftResource {
    ghost text = { resource_text };

    fn parts(&self) -> Parts<'_> {
        Parts {
            head: self.head.as_str(),
            body: self.body.text(),
            tail: self.tail.as_str(),
        }
    }
}

impl Join for DraftResource {
    ghost json = { λ r. resource_object (drafted_resource r) };

    fn size(&self) -> usize {
        let ends = self
            .head
            .as_str()
            .len()
            .saturating_add(self.tail.as_str().len());
        self.body.size().saturating_add(ends)
    }

    fn join(&self, _alloc: Global, out: &mut String) -> Result<(), Refusal> {
        out.push_str(self.head.as_str())?;
        out.push_str(self.body.text())?;
        Ok(out.push_str(self.tail.as_str())?)
    }
}

impl DraftResource {
    fn message(&self, alloc: Global) -> Result<DeltaResource, Refusal>
        ensures ok { IfOk result (λ r. resource_of r ≡ drafted_resource self.now) }
        ensures sound { OnOk result (IsBodyText self.now.body) }
        ensures refused { IfErr result (λ e. e ≡ OutOfMemory) }
    {
        Ok(DeltaResource {
            name: String::from_str(alloc, self.name.as_str())?,
            version: String::from_str(alloc, self.version.as_str())?,
            resource: self.body.value(alloc)?,
        })
    }
}

/// A [`DeltaDiscoveryResponse`] before it is written. Its resources are the stored texts of writes, in a list that it may share
/// with others: a copy of it copies neither.
pub struct DeltaDraft {
    kind: TypeName,
    version: String,
    nonce: String,
    resources: Resources,
    removed: Vec<String>,
}

// Written out: docs/PROVING.md, "Drops".
impl Drop for DeltaDraft {
    fn drop(self) {
        let DeltaDraft {
            kind: _,
            version: _,
            nonce: _,
            resources: _,
            removed: _,
        } = self;
    }
}

impl Model for DeltaDraft {
    ghost use Rattle.std.specs.Prelude.{map, string_bytes};
    ghost use Rattle.xds_message.specs.Drafts.{DraftedDelta};

    ghost Value = { DraftedDelta };

    ghost view = { λ d. record {
      kind = d.kind;
      system_version_info = string_bytes d.version;
      nonce = string_bytes d.nonce;
      resources = d.resources;
      removed_resources = map string_bytes d.removed.items;
    } };
}

impl DeltaDraft {
    /// A response of these resources, whose list other responses may share, and of names that the client is to drop.
    pub fn new(
        kind: TypeName,
        version: String,
        nonce: String,
        resources: Resources,
        removed: Vec<String>,
    ) -> DeltaDraft
        ensures { result
            ≡ record { kind = kind; system_version_info = string_bytes version; nonce = string_bytes nonce; resources = resources; removed_resources = map string_bytes removed.items } }
    {
        DeltaDraft {
            kind,
            version,
            nonce,
            resources,
            removed,
        }
    }

    /// The type of the resources.
    pub fn kind(&self) -> TypeName
        ensures { result ≡ self.now.kind }
    {
        self.kind
    }

    /// The version of all that the server holds.
    pub fn version(&self) -> &str
        ensures { result.now ≡ self.now.system_version_info }
    {
        self.version.as_str()
    }

    /// What the client's next request names the response by.
    pub fn nonce(&self) -> &str
        ensures { result.now ≡ self.now.nonce }
    {
        self.nonce.as_str()
    }

    /// How many resources it states.
    pub fn stated(&self) -> usize
        ensures { result ≡ length self.now.resources }
    {
        self.resources.as_slice().len()
    }

    /// The names that the client is to drop.
    pub fn removed(&self) -> &[String]
        ensures { map string_bytes result.now ≡ self.now.removed_resources }
    {
        self.removed.as_slice()
    }

    /// The response, whose resources are read again from their texts.
    pub fn message(&self, alloc: Global) -> Result<DeltaDiscoveryResponse, Refusal>
        ensures ok { IfOk result (λ r. delta_response_of r ≡ delta_message_of self.now) }
        ensures sound { OnOk result (IsSoundDelta (delta_message_of self.now)) }
        ensures texts { OnOk result (All (λ r. IsBodyText r.body) self.now.resources) }
        ensures refused { IfErr result (λ e. e ≡ OutOfMemory) }
    {
        Ok(DeltaDiscoveryResponse {
            system_version_info: String::from_str(alloc, self.version.as_str())?,
            resources: resources_of(alloc, self.resources.as_slice())?,
            type_url: String::from_str(alloc, self.kind.url())?,
            nonce: String::from_str(alloc, self.nonce.as_str())?,
            removed_resources: copy_texts(alloc, &self.removed)?,
        })
    }

    /// The compact text of the response's object, as `DeltaDiscoveryResponse::write` gives it, joined from the stored
    /// texts.
    pub fn write(&self, alloc: Global) -> Result<String, Refusal>
        ensures text { IfOk result
            (λ s. string_bytes s ≡ compact_text (delta_response_object (delta_message_of self.now))) }
        ensures refused { IfErr result (λ e. e ≡ OutOfMemory) }
    {
        let mut out = String::from_str(alloc, "{")?;
        let later = join_text(alloc, &mut out, false, "nonce", self.nonce.as_str())?;
        let later = join_list(
            alloc,
            &mut out,
            later,
            "removedResources",
            self.removed.as_slice(),
        )?;
        let later = join_list(
            alloc,
            &mut out,
            later,
            "resources",
            self.resources.as_slice(),
        )?;
        let later = join_text(
            alloc,
            &mut out,
            later,
            "systemVersionInfo",
            self.version.as_str(),
        )?;
        join_text(alloc, &mut out, later, "typeUrl", self.kind.url())?;
        out.push_str("}")?;
        Ok(out)
    }

    /// The same text in pieces, in which the resources' texts are where they are stored.
    pub fn pieces(&self, alloc: Global) -> Result<Pieces<'_>, Refusal>
        ensures text { IfOk result (λ p. p ≡ compact_text (delta_response_object (delta_message_of self.now))) }
        ensures refused { IfErr result (λ e. e ≡ OutOfMemory) }
    {
        let (head, tail) = self.ends(alloc)?;
        Ok(Pieces::around_resources(head, &self.resources, tail))
    }

    /// A frame of the same text, of which a block holds the beginning, as it is left to be written. The resources' texts are where
    /// they are stored. Refused only by `OutOfMemory`.
    pub fn unsent(&self, alloc: Global, block: Vec<u8>) -> Result<Unsent, Refusal>
        requires { length (compact_text (delta_response_object (delta_message_of self.now))) ≤ longest }
        ensures ok { IfOk result (λ u. u ≡ block.items ++ compact_text (delta_response_object (delta_message_of self.now))) }
        ensures refused { IfErr result (λ e. e ≡ OutOfMemory) }
    {
        let (head, tail) = self.ends(alloc)?;
        Unsent::around_resources(block, head, &self.resources, tail)
    }

    // What stands before the resources, and behind them.
    fn ends(&self, alloc: Global) -> Result<(String, String), Refusal>
        ensures text { IfOk result
            (λ e. string_bytes e.0 ++ (with_commas (map resource_text self.now.resources) ++ string_bytes e.1) ≡ compact_text (delta_response_object (delta_message_of self.now))) }
        ensures refused { IfErr result (λ e. e ≡ OutOfMemory) }
    {
        let resources = self.resources.as_slice();
        let mut head = String::from_str(alloc, "{")?;
        let mut tail = String::new(alloc);
        let later = join_text(alloc, &mut head, false, "nonce", self.nonce.as_str())?;
        let removed = self.removed.as_slice();
        let later = join_list(alloc, &mut head, later, "removedResources", removed)?;
        let later = join_list_ends(alloc, &mut head, &mut tail, later, "resources", resources)?;
        let version = self.version.as_str();
        let later = join_text(alloc, &mut tail, later, "systemVersionInfo", version)?;
        join_text(alloc, &mut tail, later, "typeUrl", self.kind.url())?;
        tail.push_str("}")?;
        Ok((head, tail))
    }

    /// An equal draft, to be kept and not to be written: it holds no joined text, which would outlive the change that it was made
    /// for. No body is copied.
    pub fn try_copy(&self, alloc: Global) -> Result<DeltaDraft, Refusal>
        ensures ok { IfOk result (λ d. d ≡ self.now) }
        ensures refused { IfErr result (λ e. e ≡ OutOfMemory) }
    {
        Ok(DeltaDraft {
            kind: self.kind,
            version: String::from_str(alloc, self.version.as_str())?,
            nonce: String::from_str(alloc, self.nonce.as_str())?,
            resources: self.resources.unjoined()?,
            removed: copy_texts(alloc, &self.removed)?,
        })
    }
}

// rule: best-writes
/// Puts the resource that a write puts, under its name and with its version, behind others. A deletion has none. No byte of its
/// text is copied.
pub fn push_resource<T: ResourceType>(
    alloc: Global,
    resources: &mut Vec<DraftResource>,
    write: &Write<T>,
) -> Result<(), Refusal>
    ensures ok { OnOk result (resources.new.items ≡ with_resource resources.old.items write.now write.now.body) }
    ensures err { OnErr result (resources.new.items ≡ resources.old.items) }
    ensures refused { IfErr result (λ e. e ≡ OutOfMemory) }
{
    if let Some(text) = write.shared_body()? {
        let version = write.stamp().version_text(alloc)?;
        let (head, tail) = ends_of(alloc, write.name(), version.as_str())?;
        resources.push(DraftResource {
            name: write.shared_name()?,
            version,
            head,
            body: Body::new(text),
            tail,
        })?;
    }
    Ok(())
}

// What stands round the body of a resource in a response.
fn ends_of(alloc: Global, name: &str, version: &str) -> Result<(String, String), Refusal>
    ensures ok { IfOk result (λ e. (body : List ℕ) → string_bytes e.0 ++ (body_text body ++ string_bytes e.1)
        ≡ resource_text (record { name = name.now; version = version.now; body = body })) }
    ensures refused { IfErr result (λ e. e ≡ OutOfMemory) }
{
    let mut head = String::from_str(alloc, "{")?;
    let later = join_text(alloc, &mut head, false, "name", name)?;
    join_key(alloc, &mut head, later, "resource")?;
    let mut tail = String::new(alloc);
    join_text(alloc, &mut tail, true, "version", version)?;
    tail.push_str("}")?;
    Ok((head, tail))
}

fn resources_of(alloc: Global, resources: &[DraftResource]) -> Result<Vec<DeltaResource>, Refusal>
    ensures ok { IfOk result
        (λ v. map resource_of v.items ≡ map drafted_resource resources.now) }
    ensures sound { OnOk result (All (λ r. IsBodyText r.body) resources.now) }
    ensures refused { IfErr result (λ e. e ≡ OutOfMemory) }
{
    let mut messages = Vec::new(alloc);
    for resource in resources {
        messages.push(resource.message(alloc)?)?;
    }
    Ok(messages)
}
