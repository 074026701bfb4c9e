// State-of-the-world responses before they are written.
ghost use Rattle.std.specs.Prelude.{◌≡◌, ◌≤◌, ◌++◌, length, map, string_bytes, IfOk, IfErr, OnOk, OnErr, All};
ghost use Rattle.serde_json.specs.View.{view};
ghost use Rattle.serde_json.specs.Written.{compact_text};
ghost use Rattle.xds_resource.specs.Resources.{value_of};
ghost use Rattle.xds_resource.specs.declared.refusal.Refusal.TheVariants.{OutOfMemory};
ghost use Rattle.xds_frames.specs.Frames.{longest};
ghost use Rattle.xds_message.specs.Drafts.{message_of, with_text, body_text, IsBodyText, IsSoundResponse};
ghost use Rattle.xds_message.specs.Joined.{with_commas};
ghost use Rattle.xds_message.specs.Responses.{response_of};
ghost use Rattle.xds_message.specs.Written.{response_object};

use crate::body::Body;
use crate::joining::{join_list, join_list_ends, join_text};
use crate::pieces::Pieces;
use crate::response::DiscoveryResponse;
use crate::stated::Bodies;
use crate::unsent::Unsent;
use serde_json::Value;
use std::alloc::Global;
use std::marker::Model;
use xds_resource::{Refusal, ResourceType, TypeName, Write};

/// A [`DiscoveryResponse`] before it is written. Its resources are the stored texts of writes, in a list that it may share with
/// others: a copy of it copies neither.
pub struct SotwDraft {
    kind: TypeName,
    version: String,
    nonce: String,
    bodies: Bodies,
}

// Written out: docs/PROVING.md, "Drops".
impl Drop for SotwDraft {
    fn drop(self) {
        let SotwDraft {
            kind: _,
            version: _,
            nonce: _,
            bodies: _,
        } = self;
    }
}

impl Model for SotwDraft {
    ghost use Rattle.std.specs.Prelude.{string_bytes};
    ghost use Rattle.xds_message.specs.Drafts.{Drafted};

    ghost Value = { Drafted };

    ghost view = { λ d. record { kind = d.kind; version_info = string_bytes d.version; nonce = string_bytes d.nonce; bodies = d.bodies } };
}

impl SotwDraft {
    /// A response of the resources that these texts are of. Other responses may share the list.
    pub fn new(kind: TypeName, version: String, nonce: String, bodies: Bodies) -> SotwDraft
        ensures { result ≡ record { kind = kind; version_info = string_bytes version; nonce = string_bytes nonce; bodies = bodies } }
    {
        SotwDraft {
            kind,
            version,
            nonce,
            bodies,
        }
    }

    /// The type of the resources.
    pub fn kind(&self) -> TypeName
        ensures { result ≡ self.now.kind }
    {
        self.kind
    }

    /// The version of the resources.
    pub fn version(&self) -> &str
        ensures { result.now ≡ self.now.version_info }
    {
        self.version.as_str()
    }

    /// What the client's next request names the response by.
    pub fn nonce(&self) -> &str
        ensures { result.now ≡ self.now.nonce }
    {
        self.nonce.as_str()
    }

    /// The response, whose resources are read again from their texts.
    pub fn message(&self, alloc: Global) -> Result<DiscoveryResponse, Refusal>
        ensures ok { IfOk result (λ r. response_of r ≡ message_of self.now) }
        ensures sound { OnOk result (IsSoundResponse (message_of self.now)) }
        ensures texts { OnOk result (All IsBodyText self.now.bodies) }
        ensures refused { IfErr result (λ e. e ≡ OutOfMemory) }
    {
        Ok(DiscoveryResponse {
            version_info: String::from_str(alloc, self.version.as_str())?,
            resources: values_of(alloc, self.bodies.as_slice())?,
            type_url: String::from_str(alloc, self.kind.url())?,
            nonce: String::from_str(alloc, self.nonce.as_str())?,
        })
    }

    /// The compact text of the response's object, as `DiscoveryResponse::write` gives it, joined from the stored texts.
    pub fn write(&self, alloc: Global) -> Result<String, Refusal>
        ensures text { IfOk result
            (λ s. string_bytes s ≡ compact_text (response_object (message_of self.now))) }
        ensures refused { IfErr result (λ e. e ≡ OutOfMemory) }
    {
        let mut out = String::from_str(alloc, "{")?;
        let later = join_text(alloc, &mut out, false, "nonce", self.nonce.as_str())?;
        let later = join_list(alloc, &mut out, later, "resources", self.bodies.as_slice())?;
        let later = join_text(alloc, &mut out, later, "typeUrl", self.kind.url())?;
        join_text(alloc, &mut out, later, "versionInfo", self.version.as_str())?;
        out.push_str("}")?;
        Ok(out)
    }

    /// The same text in pieces, in which the bodies are where they are stored.
    pub fn pieces(&self, alloc: Global) -> Result<Pieces<'_>, Refusal>
        ensures text { IfOk result (λ p. p ≡ compact_text (response_object (message_of self.now))) }
        ensures refused { IfErr result (λ e. e ≡ OutOfMemory) }
    {
        let (head, tail) = self.ends(alloc)?;
        Ok(Pieces::around(head, &self.bodies, tail))
    }

    /// A frame of the same text, of which a block holds the beginning, as it is left to be written. The bodies are where they are
    /// stored. Refused only by `OutOfMemory`.
    pub fn unsent(&self, alloc: Global, block: Vec<u8>) -> Result<Unsent, Refusal>
        requires { length (compact_text (response_object (message_of self.now))) ≤ longest }
        ensures ok { IfOk result (λ u. u ≡ block.items ++ compact_text (response_object (message_of self.now))) }
        ensures refused { IfErr result (λ e. e ≡ OutOfMemory) }
    {
        let (head, tail) = self.ends(alloc)?;
        Unsent::around(block, head, &self.bodies, tail)
    }

    // What stands before the bodies, and behind them.
    fn ends(&self, alloc: Global) -> Result<(String, String), Refusal>
        ensures text { IfOk result
            (λ e. string_bytes e.0 ++ (with_commas (map body_text self.now.bodies) ++ string_bytes e.1) ≡ compact_text (response_object (message_of self.now))) }
        ensures refused { IfErr result (λ e. e ≡ OutOfMemory) }
    {
        let bodies = self.bodies.as_slice();
        let mut head = String::from_str(alloc, "{")?;
        let mut tail = String::new(alloc);
        let later = join_text(alloc, &mut head, false, "nonce", self.nonce.as_str())?;
        let later = join_list_ends(alloc, &mut head, &mut tail, later, "resources", bodies)?;
        let later = join_text(alloc, &mut tail, later, "typeUrl", self.kind.url())?;
        join_text(
            alloc,
            &mut tail,
            later,
            "versionInfo",
            self.version.as_str(),
        )?;
        tail.push_str("}")?;
        Ok((head, tail))
    }

    /// The stored texts of the resources.
    pub fn bodies(&self) -> &[Body]
        ensures { result.now ≡ self.now.bodies }
    {
        self.bodies.as_slice()
    }

    /// An equal draft, to be kept and not to be written: it holds no joined text, which would outlive the change that it was made
    /// for. No body is copied.
    pub fn try_copy(&self, alloc: Global) -> Result<SotwDraft, Refusal>
        ensures ok { IfOk result (λ d. d ≡ self.now) }
        ensures refused { IfErr result (λ e. e ≡ OutOfMemory) }
    {
        Ok(SotwDraft {
            kind: self.kind,
            version: String::from_str(alloc, self.version.as_str())?,
            nonce: String::from_str(alloc, self.nonce.as_str())?,
            bodies: self.bodies.unjoined()?,
        })
    }
}

// rule: best-writes
/// Puts the text of the resource that a write puts behind others. A deletion has none. No byte of it is copied.
pub fn push_body<T: ResourceType>(bodies: &mut Vec<Body>, write: &Write<T>) -> Result<(), Refusal>
    ensures ok { OnOk result (bodies.new.items ≡ with_text bodies.old.items write.now.body) }
    ensures err { OnErr result (bodies.new.items ≡ bodies.old.items) }
    ensures refused { IfErr result (λ e. e ≡ OutOfMemory) }
{
    if let Some(text) = write.shared_body()? {
        bodies.push(Body::new(text))?;
    }
    Ok(())
}

fn values_of(alloc: Global, bodies: &[Body]) -> Result<Vec<Value>, Refusal>
    ensures ok { IfOk result (λ v. map view v.items ≡ map value_of bodies.now) }
    ensures sound { OnOk result (All IsBodyText bodies.now) }
    ensures refused { IfErr result (λ e. e ≡ OutOfMemory) }
{
    let mut values = Vec::new(alloc);
    for body in bodies {
        values.push(body.value(alloc)?)?;
    }
    Ok(values)
}
