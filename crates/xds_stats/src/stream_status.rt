// What is shown of a stream.
ghost use Rattle.std.specs.Prelude.{◌≡◌, string_bytes, IfOk, IfErr};
ghost use Rattle.xds_resource.specs.declared.refusal.Refusal.TheVariants.{OutOfMemory};
ghost use Rattle.xds_stats.specs.Boards.{rejection_text};

use crate::latencies::put_behind;
use crate::log_event::excerpt;
use crate::puts::PutMark;
use crate::sight::Heard;
use crate::state::{TypeState, since_after, state_by};
use std::alloc::Global;
use std::time::Instant;
use xds_ledger::VariantName;
use xds_resource::{Refusal, TypeName};

/// What a stream is told and says of one type. Its texts are excerpts.
#[derive(Drop)]
pub struct TypeStatus {
    /// Whether it asked for the type.
    pub is_asked: bool,
    /// How many names it asks for: those of its last list, or, in the incremental variant, those that it asked for less those that
    /// it no longer wants.
    pub names: u64,
    /// The version of the last response, and its nonce; empty before the first.
    pub sent: String,
    nonce: String,
    // Whether that response was accepted or rejected.
    is_answered: bool,
    /// The version of the last response that it accepted; empty before the first.
    pub accepted: String,
    /// Whether what it answered last is a rejection; then what it said, and the nonce of that response. Else these are empty.
    pub is_rejected: bool,
    pub rejection: String,
    pub rejected: String,
    /// Since when it is in its state, by the wall clock, in milliseconds.
    pub since: u64,
    // Of how many changes made here it knows, or needn't wait for.
    known: u64,
    /// When the last change was made here that the last response tells first, if it tells such a one and isn't answered.
    pub put: Option<Instant>,
}

impl TypeStatus {
    ghost use Rattle.std.specs.Prelude.{◌≡◌, false, true, string_bytes, IfErr, OnOk, OnErr};
    ghost use Rattle.xds_resource.specs.declared.refusal.Refusal.TheVariants.{OutOfMemory};
    ghost use Rattle.xds_stats.specs.Boards.{AreOthersSame, accepted_after, accepted_by, answered_after, known_after, names_after, nonce_after, nonce_by, put_after, rejected_after, rejection_after, rejection_by, verdict};
    ghost use Rattle.xds_stats.specs.Latencies.{put_behind};
    ghost use Rattle.xds_stats.specs.States.{since_after, state_of};
    ghost use Rattle.xds_stats.specs.Logging.{excerpt};

    // That of a type that the stream didn't ask for.
    fn new(alloc: Global) -> TypeStatus
        ensures { result.is_asked ≡ false }
    {
        TypeStatus {
            is_asked: false,
            names: 0,
            sent: String::new(alloc),
            nonce: String::new(alloc),
            is_answered: false,
            accepted: String::new(alloc),
            is_rejected: false,
            rejection: String::new(alloc),
            rejected: String::new(alloc),
            since: 0,
            known: 0,
            put: None,
        }
    }

    /// How the stream stands.
    pub fn state(&self) -> TypeState
        ensures { result ≡ state_of self.now }
    {
        let is_pending = !self.is_answered && !self.nonce.as_str().is_empty();
        state_by(self.is_asked, self.is_rejected, is_pending)
    }

    // rule: accept-reject
    /// Whether a request accepts the last response (true) or rejects it (false), if it does either for the first time.
    pub fn verdict(&self, heard: &Heard) -> Option<bool>
        ensures { result ≡ verdict self.now heard.now }
    {
        let nonce = self.nonce.as_str();
        if self.is_answered || nonce.is_empty() || heard.nonce.as_str() != nonce {
            return None;
        }
        Some(heard.rejection.is_none())
    }

    // rule: accept-reject
    /// Notes a request that was taken, when so many changes of the type were made here, at this moment of the wall clock. Without memory for
    /// a text that stays as it was.
    pub fn hear(
        &mut self,
        alloc: Global,
        heard: &Heard,
        made: u64,
        millis: u64,
    ) -> Result<(), Refusal>
        ensures asked { self.new.is_asked ≡ true }
        ensures names { self.new.names ≡ names_after heard.now.names self.old.names }
        ensures answered { self.new.is_answered ≡ answered_after self.old.is_answered (verdict self.old heard.now) }
        ensures nonce { string_bytes self.new.nonce ≡ string_bytes self.old.nonce }
        ensures sent { string_bytes self.new.sent ≡ string_bytes self.old.sent }
        ensures accepted { OnOk result (string_bytes self.new.accepted ≡ accepted_after self.old heard.now) }
        ensures rejection { OnOk result (string_bytes self.new.rejection ≡ rejection_after self.old heard.now) }
        ensures rejected { OnOk result (string_bytes self.new.rejected ≡ nonce_after self.old heard.now) }
        ensures is_rejected { self.new.is_rejected ≡ rejected_after self.old.is_rejected (verdict self.old heard.now) }
        ensures since { self.new.since ≡ since_after (state_of self.old) (state_of self.new) self.old.since millis }
        ensures known { self.new.known ≡ known_after self.old.known (verdict self.old heard.now) made }
        ensures put { self.new.put ≡ put_after self.old.put (verdict self.old heard.now) }
        ensures refused { IfErr result (λ e. e ≡ OutOfMemory) }
    {
        let verdict = self.verdict(heard);
        let before = self.state();
        self.is_asked = true;
        self.names = heard.names.after(self.names);
        let Some(accepts) = verdict else {
            self.known = made;
            self.since = since_after(before, self.state(), self.since, millis);
            return Ok(());
        };
        self.is_answered = true;
        self.is_rejected = !accepts;
        self.put = None;
        self.since = since_after(before, self.state(), self.since, millis);
        self.note_answer(alloc, heard, accepts)
    }

    // Notes what is said of the last response: that it is accepted, or rejected.
    fn note_answer(&mut self, alloc: Global, heard: &Heard, accepts: bool) -> Result<(), Refusal>
        ensures accepted { OnOk result (string_bytes self.new.accepted ≡ accepted_by self.old (Some accepts)) }
        ensures rejection { OnOk result (string_bytes self.new.rejection ≡ rejection_by self.old heard.now (Some accepts)) }
        ensures rejected { OnOk result (string_bytes self.new.rejected ≡ nonce_by self.old (Some accepts)) }
        ensures same { AreOthersSame self.old self.new }
        ensures refused { IfErr result (λ e. e ≡ OutOfMemory) }
    {
        if accepts {
            self.accepted = String::from_str(alloc, self.sent.as_str())?;
            self.rejection = String::new(alloc);
            self.rejected = String::new(alloc);
        } else {
            self.rejection = rejection_in(alloc, heard)?;
            self.rejected = String::from_str(alloc, self.nonce.as_str())?;
        }
        Ok(())
    }

    /// Notes a response of this version and nonce, when these changes of the type were made here, at this moment of the wall clock. Without
    /// memory nothing changes.
    pub fn respond(
        &mut self,
        alloc: Global,
        version: &str,
        nonce: &str,
        made: PutMark,
        millis: u64,
    ) -> Result<(), Refusal>
        ensures sent { OnOk result (string_bytes self.new.sent ≡ excerpt version.now) }
        ensures nonce { OnOk result (string_bytes self.new.nonce ≡ nonce.now) }
        ensures unanswered { OnOk result (self.new.is_answered ≡ false) }
        ensures since { OnOk result (self.new.since ≡ since_after (state_of self.old) (state_of self.new) self.old.since millis) }
        ensures known { OnOk result (self.new.known ≡ made.made) }
        ensures put { OnOk result (self.new.put ≡ put_behind self.old.known made.made made.at) }
        ensures same { OnErr result (self.new ≡ self.old) }
        ensures refused { IfErr result (λ e. e ≡ OutOfMemory) }
    {
        let sent = excerpt(alloc, version)?;
        let nonce = String::from_str(alloc, nonce)?;
        let before = self.state();
        self.sent = sent;
        self.nonce = nonce;
        self.is_answered = false;
        self.put = put_behind(self.known, made.made, made.at);
        self.known = made.made;
        self.since = since_after(before, self.state(), self.since, millis);
        Ok(())
    }
}

// What a request says of the response that it rejects; nothing, if it rejects none.
fn rejection_in(alloc: Global, heard: &Heard) -> Result<String, Refusal>
    ensures ok { IfOk result (λ t. string_bytes t ≡ rejection_text heard.now) }
    ensures refused { IfErr result (λ e. e ≡ OutOfMemory) }
{
    match &heard.rejection {
        Some(message) => Ok(String::from_str(alloc, message.as_str())?),
        None => Ok(String::new(alloc)),
    }
}

/// The status of each type on a stream.
#[derive(Drop)]
pub struct TypeStatuses {
    cluster: TypeStatus,
    endpoint: TypeStatus,
    listener: TypeStatus,
    route: TypeStatus,
    secret: TypeStatus,
}

impl TypeStatuses {
    ghost use Rattle.std.specs.Prelude.{◌≡◌};
    ghost use Rattle.xds_stats.specs.Boards.{status_of};

    fn new(alloc: Global) -> TypeStatuses {
        TypeStatuses {
            cluster: TypeStatus::new(alloc),
            endpoint: TypeStatus::new(alloc),
            listener: TypeStatus::new(alloc),
            route: TypeStatus::new(alloc),
            secret: TypeStatus::new(alloc),
        }
    }

    /// That of a type.
    pub fn of(&self, kind: TypeName) -> &TypeStatus
        ensures { result.now ≡ status_of self.now kind }
    {
        match kind {
            TypeName::Cluster => &self.cluster,
            TypeName::Endpoint => &self.endpoint,
            TypeName::Listener => &self.listener,
            TypeName::Route => &self.route,
            TypeName::Secret => &self.secret,
        }
    }

    /// The same, to note something.
    pub fn at(&mut self, kind: TypeName) -> &mut TypeStatus {
        match kind {
            TypeName::Cluster => &mut self.cluster,
            TypeName::Endpoint => &mut self.endpoint,
            TypeName::Listener => &mut self.listener,
            TypeName::Route => &mut self.route,
            TypeName::Secret => &mut self.secret,
        }
    }
}

/// What is known of an open stream. The texts of its client are excerpts.
#[derive(Drop)]
pub struct StreamStatus {
    pub peer: String,
    pub node: String,
    pub cluster: String,
    /// When it was opened, by the wall clock, in milliseconds.
    pub opened: u64,
    /// The variant of its first request; none before that came.
    pub variant: Option<VariantName>,
    pub types: TypeStatuses,
}

impl StreamStatus {
    /// That of a stream on which nothing came, of a client at this address.
    pub fn new(alloc: Global, peer: String, opened: u64) -> StreamStatus {
        StreamStatus {
            peer,
            node: String::new(alloc),
            cluster: String::new(alloc),
            opened,
            variant: None,
            types: TypeStatuses::new(alloc),
        }
    }

    /// Notes who asks.
    pub fn greet(&mut self, alloc: Global, heard: &Heard) -> Result<(), Refusal> {
        if self.variant.is_none() {
            self.variant = Some(heard.variant);
        }
        if let Some((node, cluster)) = &heard.node {
            self.node = String::from_str(alloc, node.as_str())?;
            self.cluster = String::from_str(alloc, cluster.as_str())?;
        }
        Ok(())
    }
}
