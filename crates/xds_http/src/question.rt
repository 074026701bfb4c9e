// What a poll asks.
ghost use Rattle.std.specs.Prelude.{◌≡◌, string_bytes, IfOk, IfErr};
ghost use Rattle.xds_resource.specs.declared.refusal.Refusal.TheVariants.{OutOfMemory};
ghost use Rattle.xds_http.specs.Questions.{request_of, body_of};

use std::alloc::Global;
use std::marker::Model;
use xds_message::{DiscoveryRequest, Node};
use xds_resource::{Refusal, TypeName};

/// A poll: for a type, with the names that are wanted, as they are. An empty list asks for all of a complete type.
#[derive(Drop)]
pub struct Question {
    pub kind: TypeName,
    pub names: Vec<String>,
    /// The version that is kept; an empty text where none is.
    pub version: String,
    /// The cluster of who asks; an empty text where it has none.
    pub cluster: String,
}

impl Model for Question {
    ghost use Rattle.std.specs.Prelude.{map, string_bytes};
    ghost use Rattle.xds_http.specs.Questions as questions;

    ghost Value = { questions.Question };

    ghost view = { λ q. record { kind = q.kind; names = map string_bytes q.names.items; version = string_bytes q.version; cluster = string_bytes q.cluster } };
}

impl Question {
    // Its message. Refused is only `OutOfMemory`.
    fn request(self, alloc: Global) -> Result<DiscoveryRequest, Refusal>
        ensures ok { IfOk result (λ q. q ≡ request_of self) }
        ensures err { IfErr result (λ e. e ≡ OutOfMemory) }
    {
        let Question {
            kind,
            names,
            version,
            cluster,
        } = self;
        Ok(DiscoveryRequest {
            version_info: version,
            node: Some(Node {
                id: String::from_str(alloc, "xds")?,
                cluster,
            }),
            resource_names: names,
            type_url: String::from_str(alloc, kind.url())?,
            response_nonce: String::new(alloc),
            error_detail: None,
        })
    }

    /// The body of its post. Refused is only `OutOfMemory`.
    pub fn body(self, alloc: Global) -> Result<String, Refusal>
        ensures ok { IfOk result (λ s. string_bytes s ≡ body_of self) }
        ensures err { IfErr result (λ e. e ≡ OutOfMemory) }
    {
        self.request(alloc)?.write(alloc)
    }
}
