// What a poll is answered.
ghost use Rattle.std.specs.Prelude.{◌≡◌, string_bytes, IfOk, IfErr};
ghost use Rattle.xds_resource.specs.declared.refusal.Refusal.TheVariants.{OutOfMemory};
ghost use Rattle.xds_http.specs.Questions.{shown};

use bytes::Bytes;
use std::alloc::Global;
use xds_resource::Refusal;

/// What a poll is answered: a status of HTTP, and the bytes of the body, none where there is no body.
#[derive(Drop)]
pub struct Told {
    pub status: u16,
    pub body: Bytes,
}

impl Told {
    /// What is shown of it: the status in a line, and the body in the next, where it has one. Refused is only `OutOfMemory`.
    pub fn text(&self, alloc: Global) -> Result<Vec<u8>, Refusal>
        ensures ok { IfOk result (λ v. v.items ≡ shown self.now.status self.now.body) }
        ensures err { IfErr result (λ e. e ≡ OutOfMemory) }
    {
        let status = self.status;
        let mut text = format!(in alloc; "{status}\n")?.into_bytes();
        if !self.body.is_empty() {
            text.extend_from_slice(self.body.as_slice())?;
            text.push(b'\n')?;
        }
        Ok(text)
    }
}
