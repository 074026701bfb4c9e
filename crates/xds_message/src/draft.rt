// Responses of either variant, before they are written and as messages.
ghost use Rattle.std.specs.Prelude.{◌≡◌, ◌≤◌, ◌++◌, length, string_bytes, IfOk, IfErr, OnOk};
ghost use Rattle.xds_resource.specs.declared.refusal.Refusal.TheVariants.{OutOfMemory};
ghost use Rattle.xds_frames.specs.Frames.{longest};
ghost use Rattle.xds_message.specs.DraftTexts.{text_of, nonce_of, kind_of, HoldsBodyTexts, IsMessageOf};

use crate::delta_draft::DeltaDraft;
use crate::delta_response::DeltaDiscoveryResponse;
use crate::pieces::Pieces;
use crate::response::DiscoveryResponse;
use crate::sotw_draft::SotwDraft;
use crate::unsent::Unsent;
use std::alloc::Global;
use xds_resource::{Refusal, TypeName};

/// A response before it is written.
#[derive(Drop)]
pub enum Draft {
    Sotw(SotwDraft),
    Delta(DeltaDraft),
}

/// A response as a message.
#[derive(Drop)]
pub enum Response {
    Sotw(DiscoveryResponse),
    Delta(DeltaDiscoveryResponse),
}

impl Draft {
    /// The type of the resources.
    pub fn kind(&self) -> TypeName
        ensures { result ≡ kind_of self.now }
    {
        match self {
            Draft::Sotw(draft) => draft.kind(),
            Draft::Delta(draft) => draft.kind(),
        }
    }

    /// What the client's next request names the response by.
    pub fn nonce(&self) -> &str
        ensures { result.now ≡ nonce_of self.now }
    {
        match self {
            Draft::Sotw(draft) => draft.nonce(),
            Draft::Delta(draft) => draft.nonce(),
        }
    }

    /// The response, whose resources are read again from their texts.
    pub fn message(&self, alloc: Global) -> Result<Response, Refusal>
        ensures ok { IfOk result (IsMessageOf self.now) }
        ensures texts { OnOk result (HoldsBodyTexts self.now) }
        ensures refused { IfErr result (λ e. e ≡ OutOfMemory) }
    {
        match self {
            Draft::Sotw(draft) => Ok(Response::Sotw(draft.message(alloc)?)),
            Draft::Delta(draft) => Ok(Response::Delta(draft.message(alloc)?)),
        }
    }

    /// The text that `write` of the message gives, joined from the stored texts.
    pub fn write(&self, alloc: Global) -> Result<String, Refusal>
        ensures ok { IfOk result (λ s. string_bytes s ≡ text_of self.now) }
        ensures refused { IfErr result (λ e. e ≡ OutOfMemory) }
    {
        match self {
            Draft::Sotw(draft) => draft.write(alloc),
            Draft::Delta(draft) => draft.write(alloc),
        }
    }

    /// The same text in pieces.
    pub fn pieces(&self, alloc: Global) -> Result<Pieces<'_>, Refusal>
        ensures ok { IfOk result (λ p. p ≡ text_of self.now) }
        ensures refused { IfErr result (λ e. e ≡ OutOfMemory) }
    {
        match self {
            Draft::Sotw(draft) => draft.pieces(alloc),
            Draft::Delta(draft) => draft.pieces(alloc),
        }
    }

    /// A frame of the same text, of which a block holds the beginning, as it is left to be written. The texts of resources are where
    /// they are stored. Refused only by `OutOfMemory`.
    pub fn unsent(&self, alloc: Global, block: Vec<u8>) -> Result<Unsent, Refusal>
        requires { length (text_of self.now) ≤ longest }
        ensures ok { IfOk result (λ u. u ≡ block.items ++ text_of self.now) }
        ensures refused { IfErr result (λ e. e ≡ OutOfMemory) }
    {
        match self {
            Draft::Sotw(draft) => draft.unsent(alloc, block),
            Draft::Delta(draft) => draft.unsent(alloc, block),
        }
    }

    /// An equal draft. No body is copied.
    pub fn try_copy(&self, alloc: Global) -> Result<Draft, Refusal>
        ensures ok { IfOk result (λ d. d ≡ self.now) }
        ensures refused { IfErr result (λ e. e ≡ OutOfMemory) }
    {
        match self {
            Draft::Sotw(draft) => Ok(Draft::Sotw(draft.try_copy(alloc)?)),
            Draft::Delta(draft) => Ok(Draft::Delta(draft.try_copy(alloc)?)),
        }
    }
}
