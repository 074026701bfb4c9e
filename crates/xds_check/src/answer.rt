// A response as a trace has it.
ghost use Rattle.std.specs.Prelude.{◌≡◌, map, option_map, string_bytes, IfOk, IfErr};
ghost use Rattle.xds_resource.specs.declared.refusal.Refusal.TheVariants.{OutOfMemory};
ghost use Rattle.xds_resource.specs.declared.types.TypeName.{TypeName};
ghost use Rattle.xds_message.specs.Responses.{response_of, delta_response_of};
ghost use Rattle.xds_check.specs.Answers.{sotw_message, delta_message};
ghost use Rattle.xds_check.specs.Texts.{IsSotwAnswer, IsDeltaAnswer, SpellsAnswer, response_kind, answer_json};
ghost use Rattle.xds_check.specs.Words.{Finds};

use crate::statement::{
    Statement, copy_values, labelled_statements, labelled_values, statements_of,
};
use std::alloc::Global;
use std::marker::Model;
use xds_ledger::VariantName;
use xds_message::{DeltaDiscoveryResponse, DiscoveryResponse, copy_texts};
use xds_resource::{Refusal, TypeName};

/// A response of either variant. Its resources are of its type.
pub struct Answer {
    variant: VariantName,
    kind: TypeName,
    version: String,
    nonce: String,
    statements: Vec<Statement>,
    removed: Vec<String>,
}

// Written out: docs/PROVING.md, "Drops".
impl Drop for Answer {
    fn drop(self) {
        let Answer {
            variant: _,
            kind: _,
            version: _,
            nonce: _,
            statements: _,
            removed: _,
        } = self;
    }
}

impl Model for Answer {
    ghost use Rattle.std.specs.Prelude.{string_bytes, map};
    ghost use Rattle.xds_check.specs.Answers.{Answer, IsAnswer};

    ghost Value = { Answer };

    ghost view = { λ a. record {
      variant = a.variant;
      kind = a.kind;
      version_info = string_bytes a.version;
      nonce = string_bytes a.nonce;
      statements = a.statements.items;
      removed = map string_bytes a.removed.items;
    } };

    ghost invariant = { λ a. IsAnswer (record {
      variant = a.variant;
      kind = a.kind;
      version_info = string_bytes a.version;
      nonce = string_bytes a.nonce;
      statements = a.statements.items;
      removed = map string_bytes a.removed.items;
    }) };
}

impl Answer {
    /// The answer that a response of the state of the world is. Refused by `BadTrace` where its type isn't in the table, or
    /// one of its resources is none of its type; and by `OutOfMemory`.
    pub fn of_sotw(alloc: Global, response: DiscoveryResponse) -> Result<Answer, Refusal>
        ensures { Finds (λ a. a) (IsSotwAnswer (response_of response)) result }
    {
        let Some(kind) = TypeName::from_url(response.type_url.as_str()) else {
            return Err(Refusal::BadTrace);
        };
        let statements = statements_of(alloc, kind, response.resources)?;
        Ok(Answer {
            variant: VariantName::StateOfTheWorld,
            kind,
            version: response.version_info,
            nonce: response.nonce,
            statements,
            removed: Vec::new(alloc),
        })
    }

    /// The answer that a delta response is. It is refused as one of the state of the world is.
    pub fn of_delta(alloc: Global, response: DeltaDiscoveryResponse) -> Result<Answer, Refusal>
        ensures { Finds (λ a. a) (IsDeltaAnswer (delta_response_of response)) result }
    {
        let Some(kind) = TypeName::from_url(response.type_url.as_str()) else {
            return Err(Refusal::BadTrace);
        };
        let statements = labelled_statements(alloc, kind, response.resources)?;
        Ok(Answer {
            variant: VariantName::Delta,
            kind,
            version: response.system_version_info,
            nonce: response.nonce,
            statements,
            removed: response.removed_resources,
        })
    }

    pub fn variant(&self) -> VariantName
        ensures { result ≡ self.now.variant }
    {
        self.variant
    }

    /// The type of the resources.
    pub fn kind(&self) -> TypeName
        ensures { result ≡ self.now.kind }
    {
        self.kind
    }

    pub fn nonce(&self) -> &str
        ensures { result.now ≡ self.now.nonce }
    {
        self.nonce.as_str()
    }

    /// The resources.
    pub fn statements(&self) -> &[Statement]
        ensures { result.now ≡ self.now.statements }
    {
        self.statements.as_slice()
    }

    /// The names that are removed.
    pub fn removed(&self) -> &[String]
        ensures { map string_bytes result.now ≡ self.now.removed }
    {
        self.removed.as_slice()
    }

    // The response as a message of the state of the world.
    fn sotw_message(&self, alloc: Global) -> Result<DiscoveryResponse, Refusal>
        ensures ok { IfOk result (λ m. response_of m ≡ sotw_message self.now) }
        ensures refused { IfErr result (λ e. e ≡ OutOfMemory) }
    {
        Ok(DiscoveryResponse {
            version_info: String::from_str(alloc, self.version.as_str())?,
            resources: copy_values(alloc, &self.statements)?,
            type_url: String::from_str(alloc, self.kind.url())?,
            nonce: String::from_str(alloc, self.nonce.as_str())?,
        })
    }

    // The response as a delta message.
    fn delta_message(&self, alloc: Global) -> Result<DeltaDiscoveryResponse, Refusal>
        ensures ok { IfOk result (λ m. delta_response_of m ≡ delta_message self.now) }
        ensures refused { IfErr result (λ e. e ≡ OutOfMemory) }
    {
        Ok(DeltaDiscoveryResponse {
            system_version_info: String::from_str(alloc, self.version.as_str())?,
            resources: labelled_values(alloc, &self.statements)?,
            type_url: String::from_str(alloc, self.kind.url())?,
            nonce: String::from_str(alloc, self.nonce.as_str())?,
            removed_resources: copy_texts(alloc, &self.removed)?,
        })
    }

    /// The word for the kind of the message.
    pub(crate) fn message_kind(&self) -> &'static str
        ensures { result.now ≡ response_kind self.now }
    {
        if self.variant.is_delta() { "4" } else { "2" }
    }

    /// The JSON of the response.
    pub(crate) fn json(&self, alloc: Global) -> Result<String, Refusal>
        ensures text { IfOk result (λ s. string_bytes s ≡ answer_json self.now) }
        ensures spelled { IfOk result (λ s. SpellsAnswer self.now (string_bytes s)) }
        ensures refused { IfErr result (λ e. e ≡ OutOfMemory) }
    {
        if self.variant.is_delta() {
            let message = self.delta_message(alloc)?;
            return message.write(alloc);
        }
        let message = self.sotw_message(alloc)?;
        message.write(alloc)
    }
}
